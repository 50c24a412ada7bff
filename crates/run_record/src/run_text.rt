//! The run text, written line by line. Nothing here takes memory.
ghost use Rattle.std.specs.Prelude.{◌≡◌, ◌++◌, ◌^◌, ◌<◌, length};
ghost use Rattle.fut_base.specs.Ports.{Writes};
ghost use Rattle.fut_base.specs.Events.{action_of, event_of, events_of};
ghost use Rattle.run_record.specs.RunText.{values_line, call_line, action_line, entry_line, entry_lines, race_line};
ghost use Rattle.run_record.specs.RunText.{race_lines, finish_line, head_text, end_text, last_text, run_text};

use crate::pieces::{Piece, write_pieces};
use fut_base::ports::{Sink, Wrote, write_text};
use fut_base::record::{Act, Args, Entry, Finish, History, Race, Races};

/// Each value after a space, to the end of the line.
fn write_values<K: Sink>(out: &mut K, args: &Args) -> Wrote
    ensures { Writes (K.held out.old) (K.held out.new) (K.faults out.old) (K.faults out.new) (values_line args.now.items) result }
{
    let values = args.as_slice();
    for value in values {
        match write_pieces(out, &[Piece::Bytes(b" "), Piece::Datum(*value)]) {
            Wrote::All => {}
            Wrote::Failed => return Wrote::Failed,
        }
    }
    write_text(out, b"\n")
}

/// A spawn or a create, by its word.
fn write_call<K: Sink>(
    out: &mut K,
    word: &[u8],
    code: u32,
    child: u32,
    kid: u32,
    cont: u32,
    args: &Args,
) -> Wrote
    ensures { Writes (K.held out.old) (K.held out.new) (K.faults out.old) (K.faults out.new) (word.now ++ call_line code child kid cont args.now.items) result }
{
    let front = [
        Piece::Bytes(word),
        Piece::Number(code),
        Piece::Bytes(b" t"),
        Piece::Number(child),
        Piece::Bytes(b" s"),
        Piece::Number(kid),
        Piece::Bytes(b" s"),
        Piece::Number(cont),
    ];
    match write_pieces(out, &front) {
        Wrote::All => write_values(out, args),
        Wrote::Failed => Wrote::Failed,
    }
}

/// What a task did, to the end of the line.
fn write_act<K: Sink>(out: &mut K, act: &Act) -> Wrote
    ensures { Writes (K.held out.old) (K.held out.new) (K.faults out.old) (K.faults out.new) (action_line (action_of act.now)) result }
{
    let end = Piece::Bytes(b"\n");
    match act {
        Act::Read { cell, value } => {
            let cell = Piece::Number(*cell);
            let line = [
                Piece::Bytes(b"read "),
                cell,
                Piece::Bytes(b" "),
                Piece::Signed(*value),
                end,
            ];
            write_pieces(out, &line)
        }
        Act::Write { cell, value } => {
            let cell = Piece::Number(*cell);
            let line = [
                Piece::Bytes(b"write "),
                cell,
                Piece::Bytes(b" "),
                Piece::Signed(*value),
                end,
            ];
            write_pieces(out, &line)
        }
        Act::Spawn {
            code,
            child,
            kid,
            cont,
            args,
        } => write_call(out, b"spawn ", *code, *child, *kid, *cont, args),
        Act::Create {
            code,
            child,
            kid,
            cont,
            args,
        } => write_call(out, b"create ", *code, *child, *kid, *cont, args),
        Act::Sync { strand } => write_pieces(
            out,
            &[Piece::Bytes(b"sync s"), Piece::Number(*strand), end],
        ),
        Act::Get {
            future,
            value,
            strand,
        } => {
            let future = Piece::Number(*future);
            let strand = Piece::Number(*strand);
            let line = [
                Piece::Bytes(b"get f"),
                future,
                Piece::Bytes(b" "),
                Piece::Datum(*value),
                Piece::Bytes(b" s"),
                strand,
                end,
            ];
            write_pieces(out, &line)
        }
        Act::End { value } => write_pieces(
            out,
            &[Piece::Bytes(b"end "), Piece::Datum(*value), end],
        ),
    }
}

/// The line of the entry at a place.
fn write_entry<K: Sink>(out: &mut K, place: usize, entry: &Entry) -> Wrote
    ensures { Writes (K.held out.old) (K.held out.new) (K.faults out.old) (K.faults out.new) (entry_line place (event_of entry.now)) result }
{
    let front = [
        Piece::Count(place),
        Piece::Bytes(b" t"),
        Piece::Number(entry.task),
        Piece::Bytes(b" s"),
        Piece::Number(entry.strand),
        Piece::Bytes(b" "),
    ];
    match write_pieces(out, &front) {
        Wrote::All => write_act(out, &entry.act),
        Wrote::Failed => Wrote::Failed,
    }
}

/// The lines of all entries.
fn write_entries<K: Sink>(out: &mut K, history: &History) -> Wrote
    ensures { Writes (K.held out.old) (K.held out.new) (K.faults out.old) (K.faults out.new) (entry_lines 0 (events_of history.now)) result }
{
    let entries = history.as_slice();
    for (place, entry) in entries.iter().enumerate() {
        match write_entry(out, place, entry) {
            Wrote::All => {}
            Wrote::Failed => return Wrote::Failed,
        }
    }
    Wrote::All
}

/// The line of a racing cell.
fn write_race<K: Sink>(out: &mut K, race: Race) -> Wrote
    ensures { Writes (K.held out.old) (K.held out.new) (K.faults out.old) (K.faults out.new) (race_line race) result }
{
    let line = [
        Piece::Bytes(b"race "),
        Piece::Number(race.cell),
        Piece::Bytes(b" "),
        Piece::Number(race.first),
        Piece::Bytes(b" "),
        Piece::Number(race.second),
        Piece::Bytes(b"\n"),
    ];
    write_pieces(out, &line)
}

/// The lines of all races.
fn write_races<K: Sink>(out: &mut K, races: &Races) -> Wrote
    ensures { Writes (K.held out.old) (K.held out.new) (K.faults out.old) (K.faults out.new) (race_lines races.now.items) result }
{
    let races = races.as_slice();
    for race in races {
        match write_race(out, *race) {
            Wrote::All => {}
            Wrote::Failed => return Wrote::Failed,
        }
    }
    Wrote::All
}

/// How the run ended, as in the last line but one of a run text behind `finish `, with its line feed.
pub fn write_finish<K: Sink>(out: &mut K, finish: Finish) -> Wrote
    ensures { Writes (K.held out.old) (K.held out.new) (K.faults out.old) (K.faults out.new) (finish_line finish) result }
{
    let end = Piece::Bytes(b"\n");
    match finish {
        Finish::Whole => write_text(out, b"whole\n"),
        Finish::Events { bound } => {
            write_pieces(out, &[Piece::Bytes(b"events "), Piece::Number(bound), end])
        }
        Finish::Local { task } => {
            write_pieces(out, &[Piece::Bytes(b"local "), Piece::Number(task), end])
        }
        Finish::Futures { task } => {
            write_pieces(out, &[Piece::Bytes(b"futures "), Piece::Number(task), end])
        }
    }
}

/// The text of a run: its program's bytes, its entries, its races and its finish.
pub fn write_run<K: Sink>(
    out: &mut K,
    program: &[u8],
    history: &History,
    races: &Races,
    finish: Finish,
) -> Wrote
    ensures { Writes (K.held out.old) (K.held out.new) (K.faults out.old) (K.faults out.new)
        (run_text program.now (events_of history.now) races.now.items finish) result }
{
    match write_program(out, program, history.len()) {
        Wrote::All => match write_entries(out, history) {
            Wrote::All => write_end(out, races, finish),
            Wrote::Failed => Wrote::Failed,
        },
        Wrote::Failed => Wrote::Failed,
    }
}

/// The head of a run text: the program's bytes, and how many entries come.
fn write_program<K: Sink>(out: &mut K, program: &[u8], entries: usize) -> Wrote
    ensures { Writes (K.held out.old) (K.held out.new) (K.faults out.old) (K.faults out.new) (head_text program.now entries) result }
{
    let head = [
        Piece::Bytes(b"forder 1\nprogram "),
        Piece::Count(program.len()),
        Piece::Bytes(b"\n"),
        Piece::Bytes(program),
        Piece::Bytes(b"\nentries "),
        Piece::Count(entries),
        Piece::Bytes(b"\n"),
    ];
    write_pieces(out, &head)
}

/// What stands behind the entries: the races and the finish.
fn write_end<K: Sink>(out: &mut K, races: &Races, finish: Finish) -> Wrote
    ensures { Writes (K.held out.old) (K.held out.new) (K.faults out.old) (K.faults out.new) (end_text races.now.items finish) result }
{
    let head = [
        Piece::Bytes(b"races "),
        Piece::Count(races.len()),
        Piece::Bytes(b"\n"),
    ];
    match write_pieces(out, &head) {
        Wrote::All => match write_races(out, races) {
            Wrote::All => write_last(out, finish),
            Wrote::Failed => Wrote::Failed,
        },
        Wrote::Failed => Wrote::Failed,
    }
}

/// The last two lines.
fn write_last<K: Sink>(out: &mut K, finish: Finish) -> Wrote
    ensures { Writes (K.held out.old) (K.held out.new) (K.faults out.old) (K.faults out.new) (last_text finish) result }
{
    match write_text(out, b"finish ") {
        Wrote::All => match write_finish(out, finish) {
            Wrote::All => write_text(out, b"end\n"),
            Wrote::Failed => Wrote::Failed,
        },
        Wrote::Failed => Wrote::Failed,
    }
}
