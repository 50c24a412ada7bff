//! Reads run texts.
ghost use Rattle.std.specs.Prelude.{◌≡◌, ◌∷◌, ◌^◌, ◌-◌, ◌<◌, ◌≤◌, [], length};
ghost use Rattle.run_record.specs.declared.record.ReadFault.TheVariants.{NotRun};
ghost use Rattle.fut_base.specs.Events.{events_of};
ghost use Rattle.run_record.specs.RunText.{entry_lines, race_line, race_lines, finish_line, last_text};
ghost use Rattle.run_record.specs.Machine.{Finish', entries_due, race_due, races_due, program_due, history_due, report_due, last_due, all_due};
ghost use Rattle.run_record.specs.Records.{IsRace, IsFinish};
ghost use Rattle.run_record.specs.Reading.{Reading};
ghost use Rattle.run_record.specs.Steps.{Read, same, items_of, AreEntries, AreRacesOf, program_text, IsProgram};
ghost use Rattle.run_record.specs.Steps.{history_text, IsHistory, report_text, IsReport, whole_text, IsWhole};

use crate::acts::entry;
use crate::cursor::{Cursor, Stop, expect};
use crate::digits::{Kind, after, count, line};
use crate::record::{ReadFault, RunText};
use fut_base::list::Listing;
use fut_base::record::{Finish, History, Race, Races, Text};
use std::alloc::Global;

/// So many entry lines.
fn entries(alloc: Global, cursor: &mut Cursor<'_>, many: usize) -> Result<History, Stop>
    ensures { Read (entries_due 0 many) (entry_lines 0) (AreEntries many) events_of cursor.old cursor.new result }
{
    let mut all = Listing::make(alloc);
    for place in 0..many {
        let next = entry(alloc, cursor, place)?;
        all.reserve()?;
        all.push(next);
    }
    Ok(all)
}

/// The line of a race.
fn race(cursor: &mut Cursor<'_>) -> Result<Race, Stop>
    ensures { Read race_due race_line IsRace same cursor.old cursor.new result }
{
    let cell = after(cursor, b"race ")?;
    let first = after(cursor, b" ")?;
    let second = line(cursor, b" ")?;
    Ok(Race {
        cell,
        first,
        second,
    })
}

/// So many race lines.
fn races(alloc: Global, cursor: &mut Cursor<'_>, many: usize) -> Result<Races, Stop>
    ensures { Read (races_due many) race_lines (AreRacesOf many) items_of cursor.old cursor.new result }
{
    let mut all = Listing::make(alloc);
    for _ in 0..many {
        let next = race(cursor)?;
        all.reserve()?;
        all.push(next);
    }
    Ok(all)
}

/// How the run ended, to the end of the line.
fn finish(cursor: &mut Cursor<'_>) -> Result<Finish, Stop>
    ensures { Read (Finish' ∷ []) finish_line IsFinish same cursor.old cursor.new result }
{
    let Some(byte) = cursor.peek() else {
        return Err(Stop::Fault);
    };
    match byte {
        b'w' => {
            cursor.bump();
            expect(cursor, b"hole\n")?;
            Ok(Finish::Whole)
        }
        b'e' => {
            cursor.bump();
            let bound = line(cursor, b"vents ")?;
            Ok(Finish::Events { bound })
        }
        b'l' => {
            cursor.bump();
            let task = line(cursor, b"ocal ")?;
            Ok(Finish::Local { task })
        }
        b'f' => {
            cursor.bump();
            let task = line(cursor, b"utures ")?;
            Ok(Finish::Futures { task })
        }
        _ => Err(Stop::Fault),
    }
}

/// The count of the program's bytes, and the bytes.
fn program(alloc: Global, cursor: &mut Cursor<'_>) -> Result<Text, Stop>
    ensures { Read program_due program_text IsProgram items_of cursor.old cursor.new result }
{
    expect(cursor, b"forder 1\nprogram ")?;
    let many = count(cursor, Kind::Bytes)?;
    let bytes = cursor.take(many)?;
    let copy = Vec::from_slice(alloc, bytes)?;
    Ok(Listing::from_vec(copy))
}

/// The count of the entries, and the entries.
fn history(alloc: Global, cursor: &mut Cursor<'_>) -> Result<History, Stop>
    ensures { Read history_due history_text IsHistory events_of cursor.old cursor.new result }
{
    expect(cursor, b"\nentries ")?;
    let many = count(cursor, Kind::Entries)?;
    entries(alloc, cursor, many)
}

/// The count of the races, and the races.
fn report(alloc: Global, cursor: &mut Cursor<'_>) -> Result<Races, Stop>
    ensures { Read report_due report_text IsReport items_of cursor.old cursor.new result }
{
    expect(cursor, b"races ")?;
    let many = count(cursor, Kind::Races)?;
    races(alloc, cursor, many)
}

/// The last two lines.
fn last(cursor: &mut Cursor<'_>) -> Result<Finish, Stop>
    ensures { Read last_due last_text IsFinish same cursor.old cursor.new result }
{
    expect(cursor, b"finish ")?;
    let finish = finish(cursor)?;
    expect(cursor, b"end\n")?;
    Ok(finish)
}

/// A whole run text, behind which anything may stand.
fn whole(alloc: Global, cursor: &mut Cursor<'_>) -> Result<RunText, Stop>
    ensures { Read all_due whole_text IsWhole same cursor.old cursor.new result }
{
    let program = program(alloc, cursor)?;
    let history = history(alloc, cursor)?;
    let races = report(alloc, cursor)?;
    let finish = last(cursor)?;
    Ok(RunText {
        program,
        history,
        races,
        finish,
    })
}

/// The fault of a text of so many bytes, of which so many are left.
fn not_run(all: usize, left: usize) -> ReadFault
    requires least { left ≤ all }
    requires most { all < 2 ^ 32 }
    ensures { result ≡ NotRun (all - left) }
{
    ReadFault::NotRun {
        byte: (all - left) as u32,
    }
}

/// Reads a run text, which is all that the bytes are. It takes memory for what it gives, and looks at each byte once.
///
/// `NotRun` comes exactly where the bytes are no run text.
pub fn read_run(alloc: Global, bytes: &[u8]) -> Result<RunText, ReadFault>
    requires { length bytes.now < 2 ^ 32 }
    ensures { Reading bytes.now result }
{
    let mut cursor = Cursor::new(bytes);
    match whole(alloc, &mut cursor) {
        Ok(run) => {
            if cursor.count() == 0 {
                Ok(run)
            } else {
                Err(not_run(bytes.len(), cursor.count()))
            }
        }
        Err(Stop::Fault) => Err(not_run(bytes.len(), cursor.count())),
        Err(Stop::NoMemory) => Err(ReadFault::NoMemory),
    }
}
