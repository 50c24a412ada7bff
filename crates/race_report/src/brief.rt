//! The brief text of a run. Nothing here takes memory.
ghost use Rattle.std.specs.Prelude.{◌≡◌};
ghost use Rattle.std.specs.Int.{w64, cast_unsigned};
ghost use Rattle.fut_base.specs.Events.{action_of, events_of};
ghost use Rattle.fut_base.specs.Ports.{Writes};
ghost use Rattle.task_machine.specs.Machine.{create_count};
ghost use Rattle.race_report.specs.Brief.{begins_task, brief_text, cell_name, count_rows, last_rows, race_row, race_rows, sum_of, sum_row, task_count};

use fut_base::ports::{Sink, Wrote, write_text};
use fut_base::record::{Act, Cells, Finish, History, Race, Races, Ran};
use run_record::pieces::{Piece, write_pieces};
use run_record::run_text::write_finish;
use task_code::code::Code;
use task_frame::cells::CellArray;

/// Whether an act begins a task.
fn begins(act: &Act) -> bool
    ensures { result ≡ begins_task (action_of act.now) }
{
    match act {
        Act::Spawn { .. } | Act::Create { .. } => true,
        Act::Read { .. }
        | Act::Write { .. }
        | Act::Sync { .. }
        | Act::Get { .. }
        | Act::End { .. } => false,
    }
}

/// How many tasks a run has, `main` among them.
fn tasks(history: &History) -> usize
    ensures { result ≡ task_count (events_of history.now) }
{
    let entries = history.as_slice();
    let mut count = 1;
    for entry in entries {
        if begins(&entry.act) {
            count += 1;
        }
    }
    count
}

/// How many futures a run created.
fn futures(history: &History) -> usize
    ensures { result ≡ create_count (events_of history.now) }
{
    let entries = history.as_slice();
    let mut count = 0;
    for entry in entries {
        if let Act::Create { .. } = entry.act {
            count += 1;
        }
    }
    count
}

/// The four counts, a line each.
fn write_counts<K: Sink>(out: &mut K, history: &History, races: &Races) -> Wrote
    ensures { Writes (K.held out.old) (K.held out.new) (K.faults out.old) (K.faults out.new) (count_rows (events_of history.now) races.now.items) result }
{
    let rows = [
        Piece::Bytes(b"tasks "),
        Piece::Count(tasks(history)),
        Piece::Bytes(b"\nfutures "),
        Piece::Count(futures(history)),
        Piece::Bytes(b"\nevents "),
        Piece::Count(history.len()),
        Piece::Bytes(b"\nraces "),
        Piece::Count(races.len()),
        Piece::Bytes(b"\n"),
    ];
    write_pieces(out, &rows)
}

/// The name of a cell: the array that has it, and its index there.
fn write_name<K: Sink>(out: &mut K, arrays: &[CellArray], cell: u32) -> Wrote
    ensures { Writes (K.held out.old) (K.held out.new) (K.faults out.old) (K.faults out.new) (cell_name arrays.now cell) result }
{
    for array in arrays {
        if let Some(index) = array.index(cell) {
            let name = [
                Piece::Bytes(array.name()),
                Piece::Bytes(b"["),
                Piece::Number(index),
                Piece::Bytes(b"]"),
            ];
            return write_pieces(out, &name);
        }
    }
    Wrote::All
}

/// A racing cell by its name, and the places of its first pair.
fn write_race<K: Sink>(out: &mut K, arrays: &[CellArray], race: Race) -> Wrote
    ensures { Writes (K.held out.old) (K.held out.new) (K.faults out.old) (K.faults out.new) (race_row arrays.now race) result }
{
    match write_text(out, b"race ") {
        Wrote::All => match write_name(out, arrays, race.cell) {
            Wrote::All => {
                let pair = [
                    Piece::Bytes(b" "),
                    Piece::Number(race.first),
                    Piece::Bytes(b" "),
                    Piece::Number(race.second),
                    Piece::Bytes(b"\n"),
                ];
                write_pieces(out, &pair)
            }
            Wrote::Failed => Wrote::Failed,
        },
        Wrote::Failed => Wrote::Failed,
    }
}

/// All racing cells, a line each.
fn write_races<K: Sink>(out: &mut K, arrays: &[CellArray], races: &Races) -> Wrote
    ensures { Writes (K.held out.old) (K.held out.new) (K.faults out.old) (K.faults out.new) (race_rows arrays.now races.now.items) result }
{
    let races = races.as_slice();
    for race in races {
        match write_race(out, arrays, *race) {
            Wrote::All => {}
            Wrote::Failed => return Wrote::Failed,
        }
    }
    Wrote::All
}

/// A number as two's complement.
fn bits(cell: &i64) -> u64
    ensures { result ≡ cast_unsigned w64 cell.now }
{
    cell.cast_unsigned()
}

/// The sum of all cells modulo 2^64, as two's complement.
fn sum(cells: &Cells) -> i64
    ensures { result ≡ sum_of cells.now.items }
{
    let cells = cells.as_slice();
    let mut sum: u64 = 0;
    for cell in cells {
        sum = sum.wrapping_add(bits(cell));
    }
    sum.cast_signed()
}

/// The line of the sum, where it is asked for.
fn write_sum<K: Sink>(out: &mut K, wanted: bool, cells: &Cells) -> Wrote
    ensures { Writes (K.held out.old) (K.held out.new) (K.faults out.old) (K.faults out.new) (sum_row wanted cells.now.items) result }
{
    if !wanted {
        return Wrote::All;
    }
    let row = [
        Piece::Bytes(b"sum "),
        Piece::Signed(sum(cells)),
        Piece::Bytes(b"\n"),
    ];
    write_pieces(out, &row)
}

/// How the run ended, and the sum.
fn write_last<K: Sink>(out: &mut K, finish: Finish, wanted: bool, cells: &Cells) -> Wrote
    ensures { Writes (K.held out.old) (K.held out.new) (K.faults out.old) (K.faults out.new) (last_rows finish wanted cells.now.items) result }
{
    match write_text(out, b"finish ") {
        Wrote::All => match write_finish(out, finish) {
            Wrote::All => write_sum(out, wanted, cells),
            Wrote::Failed => Wrote::Failed,
        },
        Wrote::Failed => Wrote::Failed,
    }
}

/// Writes the brief text of a run: how many tasks (`main` among them), futures, entries and
/// races it has, its racing cells by name, each with the places of its first pair, how it ended, and, where `sum` says so,
/// the sum of its cells modulo 2^64.
///
/// A cell that the code does not have would have no name. `Failed` exactly where a put of this call answered Failed; a
/// beginning of the text was then added. It takes no memory.
pub fn write_brief<K: Sink>(out: &mut K, code: &Code, ran: &Ran, sum: bool) -> Wrote
    ensures { Writes (K.held out.old) (K.held out.new) (K.faults out.old) (K.faults out.new)
        (brief_text code.now.arrays (events_of ran.now.history) ran.now.races.items ran.now.finish sum ran.now.cells.items) result }
{
    match write_counts(out, &ran.history, &ran.races) {
        Wrote::All => match write_races(out, code.arrays(), &ran.races) {
            Wrote::All => write_last(out, ran.finish, sum, &ran.cells),
            Wrote::Failed => Wrote::Failed,
        },
        Wrote::Failed => Wrote::Failed,
    }
}
