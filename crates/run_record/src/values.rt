//! Reads values, and the arguments of a call.
ghost use Rattle.std.specs.Prelude.{◌≡◌, ◌≤◌, ◌-◌, ◌∷◌, [], negsuc, codes};
ghost use Rattle.std.specs.Fmt.{signed_decimal};
ghost use Rattle.run_record.specs.RunText.{value_text, values_line};
ghost use Rattle.run_record.specs.Machine.{Unsigned, Signed, Datum, Arguments};
ghost use Rattle.run_record.specs.Records.{IsSigned, IsValue};
ghost use Rattle.run_record.specs.Steps.{Read, ReadOn, same, AreArguments, items_of};

use crate::bounds::MOST_ARGUMENTS;
use crate::cursor::{Cursor, Stop};
use crate::digits::{Kind, grow, number, plain};
use fut_base::list::Listing;
use fut_base::record::{Args, Value};
use std::alloc::Global;

/// The number below 0 with these digits.
fn below_zero(number: u64) -> i64
    requires least { 1 ≤ number }
    requires most { number ≤ 9223372036854775808 }
    ensures { result ≡ negsuc (number - 1) }
{
    -((number - 1) as i64) - 1
}

/// The digits behind a minus sign, as the number below 0.
fn negative(cursor: &mut Cursor<'_>) -> Result<i64, Stop>
    ensures { ReadOn (codes "-") (Unsigned ∷ []) signed_decimal IsSigned same cursor.old cursor.new result }
{
    let Some(byte) = cursor.peek() else {
        return Err(Stop::Fault);
    };
    if byte < b'1' || byte > b'9' {
        return Err(Stop::Fault);
    }
    cursor.bump();
    let number = grow(cursor, Kind::Negative, (byte - b'0') as u64);
    match cursor.peek() {
        Some(_) => Ok(below_zero(number)),
        None => Err(Stop::Fault),
    }
}

/// A number with its sign, where it has one.
pub fn signed(cursor: &mut Cursor<'_>) -> Result<i64, Stop>
    ensures { Read (Signed ∷ []) signed_decimal IsSigned same cursor.old cursor.new result }
{
    let Some(byte) = cursor.peek() else {
        return Err(Stop::Fault);
    };
    if byte == b'-' {
        cursor.bump();
        return negative(cursor);
    }
    let number = number(cursor, Kind::Positive)?;
    match cursor.peek() {
        Some(_) => Ok(number as i64),
        None => Err(Stop::Fault),
    }
}

/// A signed number, or a future's number behind an `f`.
pub fn value(cursor: &mut Cursor<'_>) -> Result<Value, Stop>
    ensures { Read (Datum ∷ []) value_text IsValue same cursor.old cursor.new result }
{
    let Some(byte) = cursor.peek() else {
        return Err(Stop::Fault);
    };
    if byte == b'f' {
        cursor.bump();
        let future = plain(cursor)?;
        return Ok(Value::Fut(future));
    }
    let number = signed(cursor)?;
    Ok(Value::Int(number))
}

/// At most 16 arguments, each behind a space, and the end of the line.
pub fn arguments(alloc: Global, cursor: &mut Cursor<'_>) -> Result<Args, Stop>
    ensures { Read (Arguments MOST_ARGUMENTS ∷ []) values_line AreArguments items_of cursor.old cursor.new result }
{
    let mut all = Listing::make(alloc);
    'more: loop {
        let Some(byte) = cursor.peek() else {
            return Err(Stop::Fault);
        };
        if byte == b'\n' {
            cursor.bump();
            return Ok(all);
        }
        if byte != b' ' || all.len() == MOST_ARGUMENTS {
            return Err(Stop::Fault);
        }
        cursor.bump();
        let next = value(cursor)?;
        all.reserve()?;
        all.push(next);
    }
}
