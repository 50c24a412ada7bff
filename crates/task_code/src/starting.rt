//! How a task begins: its parameters become variables.
ghost use Rattle.std.specs.Prelude.{◌≡◌, ◌≤◌, List, take, drop, length, min, slice_index, slice_index_or, slice_set, IfOk};
ghost use Rattle.fut_syntax.specs.Trees.{Param as Parameter};
ghost use Rattle.fut_syntax.specs.Views.{type_tree};
ghost use Rattle.task_machine.specs.Variables.{bound};
ghost use Rattle.task_frame.specs.Frames.{zero_value};
ghost use Rattle.task_frame.specs.Names.{Holds, rooms_by};
ghost use Rattle.task_code.specs.Flat.{AreGiven, code_of};
ghost use Rattle.task_code.specs.Starting.{taken_in};

use crate::code::{Code, ParamCode, TaskCode};
use fut_base::list::NoMemory;
use fut_base::record::Value;
use fut_syntax::tree::VarType;
use std::alloc::Global;
use task_frame::frame::Frame;

/// The variables of a task that begins with these arguments. The last parameter is set first, so that of two of one name the
/// first counts.
pub fn frame_of(alloc: Global, task: &TaskCode, args: &[Value]) -> Result<Frame, NoMemory>
    ensures rooms { IfOk result (λ f. f.rooms ≡ rooms_by task.now.names) }
    ensures holds { IfOk result (λ f. (ps : List Parameter) → AreGiven task.now.names 0 ps task.now.params → Holds task.now.names (bound ps args.now) f.slots) }
{
    let mut frame = Frame::make(alloc, task.names.as_slice())?;
    let params = task.params.as_slice();
    for index in (0..params.len()).rev() {
        give(&mut frame, params[index], args);
    }
    Ok(frame)
}

/// The variables of the task of the text at a place, as it begins with these arguments.
pub fn frame_at(alloc: Global, code: &Code, which: u32, args: &[Value]) -> Result<Frame, NoMemory>
    ensures rooms { IfOk result (λ f. f.rooms ≡ rooms_by (code_of code.now.tasks which).names) }
    ensures holds { IfOk result (λ f. (ps : List Parameter)
        → AreGiven (code_of code.now.tasks which).names 0 ps (code_of code.now.tasks which).params
        → Holds (code_of code.now.tasks which).names (bound ps args.now) f.slots) }
{
    match code.task(which) {
        Some(task) => frame_of(alloc, task, args),
        None => Ok(Frame::make(alloc, &[])?),
    }
}

/// Sets a parameter.
fn give(frame: &mut Frame, given: ParamCode, args: &[Value])
    ensures slots { frame.new.slots ≡ slice_set frame.old.slots given.variable
        (taken_in (slice_index frame.old.rooms given.variable) (type_tree given.kind) (drop given.first args.now)) }
    ensures rooms { frame.new.rooms ≡ frame.old.rooms }
{
    let own = behind(args, given.first);
    match given.kind {
        VarType::Plain { .. } => frame.set_one(given.variable, first_of(own)),
        VarType::Array { length, .. } => frame.take_in(given.variable, front(own, length)),
    }
}

/// The first of some values; 0 where there is none.
fn first_of(values: &[Value]) -> Value
    ensures { result ≡ slice_index_or values.now 0 zero_value }
{
    match values.get(0) {
        Some(value) => *value,
        None => Value::Int(0),
    }
}

/// The values behind so many.
fn behind(values: &[Value], count: u32) -> &[Value]
    ensures { result.now ≡ drop count values.now }
{
    let count = usize::min(count as usize, values.len());
    &values[count..]
}

/// So many values in front, or all.
fn front(values: &[Value], count: u64) -> &[Value]
    ensures { result.now ≡ take count values.now }
{
    let count = usize::min(count as usize, values.len());
    &values[..count]
}
