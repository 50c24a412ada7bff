//! Reads entries.
ghost use Rattle.std.specs.Prelude.{◌∷◌, [], codes};
ghost use Rattle.fut_base.specs.Events.{action_of, event_of};
ghost use Rattle.run_record.specs.RunText.{action_line, entry_line};
ghost use Rattle.run_record.specs.Machine.{Act', ActOfS, access_due, call_due, get_due, end_due, entry_due};
ghost use Rattle.run_record.specs.Records.{IsAction, IsEvent};
ghost use Rattle.run_record.specs.Steps.{Read, ReadOn, same, access_text, IsAccess, call_text, IsCalled};

use crate::cursor::{Cursor, Stop, expect};
use crate::digits::{after, line};
use crate::values::{arguments, signed, value};
use fut_base::record::{Act, Args, Entry};
use itoa::Buffer;
use std::alloc::Global;

/// A cell and a value.
#[derive(Clone, Copy)]
struct Access {
    cell: u32,
    value: i64,
}

/// What a spawn or a create says.
#[derive(Drop)]
struct Call {
    code: u32,
    child: u32,
    kid: u32,
    cont: u32,
    args: Args,
}

/// A read or a write behind its first letter.
fn accessed(cursor: &mut Cursor<'_>, word: &[u8]) -> Result<Access, Stop>
    ensures { Read (access_due word.now) (access_text word.now) IsAccess same cursor.old cursor.new result }
{
    let cell = after(cursor, word)?;
    expect(cursor, b" ")?;
    let value = signed(cursor)?;
    expect(cursor, b"\n")?;
    Ok(Access { cell, value })
}

/// A spawn or a create behind its first letters.
fn called(alloc: Global, cursor: &mut Cursor<'_>, word: &[u8]) -> Result<Call, Stop>
    ensures { Read (call_due word.now) (call_text word.now) IsCalled same cursor.old cursor.new result }
{
    let code = after(cursor, word)?;
    let child = after(cursor, b" t")?;
    let kid = after(cursor, b" s")?;
    let cont = after(cursor, b" s")?;
    let args = arguments(alloc, cursor)?;
    Ok(Call {
        code,
        child,
        kid,
        cont,
        args,
    })
}

/// A get behind its first letter.
fn get(cursor: &mut Cursor<'_>) -> Result<Act, Stop>
    ensures { ReadOn (codes "g") get_due action_line IsAction action_of cursor.old cursor.new result }
{
    let future = after(cursor, b"et f")?;
    expect(cursor, b" ")?;
    let value = value(cursor)?;
    let strand = line(cursor, b" s")?;
    Ok(Act::Get {
        future,
        value,
        strand,
    })
}

/// An end behind its first letter.
fn end(cursor: &mut Cursor<'_>) -> Result<Act, Stop>
    ensures { ReadOn (codes "e") end_due action_line IsAction action_of cursor.old cursor.new result }
{
    expect(cursor, b"nd ")?;
    let value = value(cursor)?;
    expect(cursor, b"\n")?;
    Ok(Act::End { value })
}

/// A spawn or a sync behind its first letter.
fn of_s(alloc: Global, cursor: &mut Cursor<'_>) -> Result<Act, Stop>
    ensures { ReadOn (codes "s") (ActOfS ∷ []) action_line IsAction action_of cursor.old cursor.new result }
{
    let Some(byte) = cursor.peek() else {
        return Err(Stop::Fault);
    };
    match byte {
        b'p' => {
            cursor.bump();
            let Call {
                code,
                child,
                kid,
                cont,
                args,
            } = called(alloc, cursor, b"awn ")?;
            Ok(Act::Spawn {
                code,
                child,
                kid,
                cont,
                args,
            })
        }
        b'y' => {
            cursor.bump();
            let strand = line(cursor, b"nc s")?;
            Ok(Act::Sync { strand })
        }
        _ => Err(Stop::Fault),
    }
}

/// What a task did, to the end of the line.
fn act(alloc: Global, cursor: &mut Cursor<'_>) -> Result<Act, Stop>
    ensures { Read (Act' ∷ []) action_line IsAction action_of cursor.old cursor.new result }
{
    let Some(byte) = cursor.peek() else {
        return Err(Stop::Fault);
    };
    match byte {
        b'r' => {
            cursor.bump();
            let Access { cell, value } = accessed(cursor, b"ead ")?;
            Ok(Act::Read { cell, value })
        }
        b'w' => {
            cursor.bump();
            let Access { cell, value } = accessed(cursor, b"rite ")?;
            Ok(Act::Write { cell, value })
        }
        b's' => {
            cursor.bump();
            of_s(alloc, cursor)
        }
        b'c' => {
            cursor.bump();
            let Call {
                code,
                child,
                kid,
                cont,
                args,
            } = called(alloc, cursor, b"reate ")?;
            Ok(Act::Create {
                code,
                child,
                kid,
                cont,
                args,
            })
        }
        b'g' => {
            cursor.bump();
            get(cursor)
        }
        b'e' => {
            cursor.bump();
            end(cursor)
        }
        _ => Err(Stop::Fault),
    }
}

/// The line of the entry at a place.
pub fn entry(alloc: Global, cursor: &mut Cursor<'_>, place: usize) -> Result<Entry, Stop>
    ensures { Read (entry_due place) (entry_line place) IsEvent event_of cursor.old cursor.new result }
{
    let mut buffer = Buffer::new();
    expect(cursor, buffer.format(place).as_bytes())?;
    let task = after(cursor, b" t")?;
    let strand = after(cursor, b" s")?;
    expect(cursor, b" ")?;
    let act = act(alloc, cursor)?;
    Ok(Entry { task, strand, act })
}
