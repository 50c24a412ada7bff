//! What is told of the cause of a type fault.
ghost use Rattle.std.specs.Prelude.{◌≡◌, ◌++◌, OnOk};
ghost use Rattle.fut_explain.specs.Causes.{futs, handle_text, array_text, kind_text, need_text, types_text, count_line, counts_text, cause_text};

use fut_base::list::NoMemory;
use fut_causes::cause::Cause;
use fut_rules::kind::{Kind, Need};
use std::alloc::Global;

/// Adds `fut` so many times.
fn push_futs(out: &mut Vec<u8>, count: u64) -> Result<(), NoMemory>
    ensures { OnOk result (out.new.items ≡ out.old.items ++ futs count) }
{
    let mut left = count;
    while left > 0 {
        out.extend_from_slice(b"fut ")?;
        left -= 1;
    }
    Ok(())
}

/// Adds the type of an array.
fn push_array(alloc: Global, out: &mut Vec<u8>, depth: u64, length: u64) -> Result<(), NoMemory>
    ensures { OnOk result (out.new.items ≡ out.old.items ++ array_text depth length) }
{
    push_futs(out, depth)?;
    out.extend_from_slice(b"int[")?;
    out.extend_from_slice(length.to_string(alloc)?.as_bytes())?;
    out.extend_from_slice(b"]")?;
    Ok(())
}

/// Adds the type of a handle of what has so many `fut`.
fn push_handle(out: &mut Vec<u8>, inside: u64) -> Result<(), NoMemory>
    ensures { OnOk result (out.new.items ≡ out.old.items ++ handle_text inside) }
{
    out.extend_from_slice(b"fut ")?;
    push_futs(out, inside)?;
    out.extend_from_slice(b"int")?;
    Ok(())
}

/// Adds a type.
fn push_type(alloc: Global, out: &mut Vec<u8>, kind: Kind) -> Result<(), NoMemory>
    ensures { OnOk result (out.new.items ≡ out.old.items ++ kind_text kind) }
{
    match kind {
        Kind::Int => out.extend_from_slice(b"int")?,
        Kind::Handle { inside } => push_handle(out, inside)?,
        Kind::Array { depth, length } => push_array(alloc, out, depth, length)?,
    }
    Ok(())
}

/// Adds what a place needs.
fn push_need(alloc: Global, out: &mut Vec<u8>, need: Need) -> Result<(), NoMemory>
    ensures { OnOk result (out.new.items ≡ out.old.items ++ need_text need) }
{
    match need {
        Need::Int => out.extend_from_slice(b"int")?,
        Need::Handle { inside } => push_handle(out, inside)?,
        Need::AnyHandle => out.extend_from_slice(b"a handle")?,
        Need::Array { depth, length } => push_array(alloc, out, depth, length)?,
    }
    Ok(())
}

/// Adds what was found and what is due.
fn push_types(alloc: Global, out: &mut Vec<u8>, due: Need, found: Kind) -> Result<(), NoMemory>
    ensures { OnOk result (out.new.items ≡ out.old.items ++ types_text due found) }
{
    out.extend_from_slice(b"found: ")?;
    push_type(alloc, out, found)?;
    out.extend_from_slice(b"\ndue: ")?;
    push_need(alloc, out, due)?;
    out.extend_from_slice(b"\n")?;
    Ok(())
}

/// Adds a line with a number.
fn push_count(alloc: Global, out: &mut Vec<u8>, front: &[u8], count: usize) -> Result<(), NoMemory>
    ensures { OnOk result (out.new.items ≡ out.old.items ++ count_line front.now count) }
{
    out.extend_from_slice(front)?;
    out.extend_from_slice(count.to_string(alloc)?.as_bytes())?;
    out.extend_from_slice(b"\n")?;
    Ok(())
}

/// Adds how many arguments were found, and how many are due.
fn push_counts(alloc: Global, out: &mut Vec<u8>, due: usize, found: usize) -> Result<(), NoMemory>
    ensures { OnOk result (out.new.items ≡ out.old.items ++ counts_text due found) }
{
    push_count(alloc, out, b"arguments found: ", found)?;
    push_count(alloc, out, b"arguments due: ", due)?;
    Ok(())
}

/// Adds the cause of a fault, where types or counts are one.
pub fn push_cause(alloc: Global, out: &mut Vec<u8>, cause: Option<Cause>) -> Result<(), NoMemory>
    ensures { OnOk result (out.new.items ≡ out.old.items ++ cause_text cause) }
{
    match cause {
        Some(Cause::Types { due, found }) => push_types(alloc, out, due, found)?,
        Some(Cause::Counts { due, found }) => push_counts(alloc, out, due, found)?,
        None => {}
    }
    Ok(())
}
