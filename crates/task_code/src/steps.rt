//! What instructions do to the variables of a task.
ghost use Rattle.std.specs.Prelude.{◌≡◌, ◌+◌, ◌<◌, ◌≤◌, ◌^◌, Bool, false, if◌then◌else◌, OnOk, ◌++◌, length, slice_index_or, IfOk, MatchOption, None, Some};
ghost use Rattle.fut_base.specs.Events.{action_of};
ghost use Rattle.task_machine.specs.Variables.{values_of as slot_values};
ghost use Rattle.task_machine.specs.Values.{index_of};
ghost use Rattle.task_machine.specs.State.{NoWish, element_of, end_of};
ghost use Rattle.task_frame.specs.Arrays.{cell_for};
ghost use Rattle.task_frame.specs.Frames.{slot_for, zero_value};
ghost use Rattle.task_frame.specs.Terms.{values_by, slot_by};
ghost use Rattle.task_code.specs.Tasks.{aimed, local_source, moves, wished, wished_source, passed_by, passed_by_source};
ghost use Rattle.task_code.specs.Tasks.{received, received_by, slots_after, place_after, IsTold, store_slots};

use crate::task::Wish;
use fut_base::list::NoMemory;
use fut_base::record::{Act, Args, Value};
use std::alloc::Global;
use task_frame::cells::CellArray;
use task_frame::frame::{Frame, Shape};
use task_frame::instruction::{Fill, Instruction, Source, Target};
use task_frame::term::Term;

/// Gives a variable a value.
fn set(frame: &mut Frame, target: Target, value: Value)
    ensures slots { frame.new.slots ≡ aimed frame.old target value }
    ensures rooms { frame.new.rooms ≡ frame.old.rooms }
{
    match target.fill {
        Fill::One => frame.set_one(target.variable, value),
        Fill::Many(count) => frame.fill(target.variable, count as usize, value),
        Fill::Again => frame.refill(target.variable, value),
    }
}

/// The place of an element at an index.
fn place_in(count: usize, index: i64) -> usize
    requires some { 1 ≤ count }
    requires small { count < 2 ^ 63 }
    ensures { result ≡ index_of count index }
{
    index.rem_euclid(count as i64) as usize
}

/// An element of a variable that is an array now.
fn element(frame: &Frame, variable: Option<u32>, index: i64) -> Option<Value>
    ensures { result ≡ element_of (slot_for frame.now.slots variable) index }
{
    match variable {
        Some(variable) => match frame.elements(variable) {
            Some(elements) => Some(element_at(elements, index)),
            None => None,
        },
        None => None,
    }
}

/// An element of an array; of one without elements, 0.
fn element_at(elements: &[Value], index: i64) -> Value
    ensures { result ≡ slice_index_or elements.now (index_of (length elements.now) index) zero_value }
{
    if elements.is_empty() {
        return Value::Int(0);
    }
    elements[place_in(elements.len(), index)]
}

/// The value that a source gives without an event.
fn local_value(frame: &Frame, source: &Source) -> Option<Value>
    ensures { result ≡ local_source frame.now.slots source.now }
{
    match source {
        Source::Value(term) => Some(term.value(frame)),
        Source::Element {
            variable,
            index,
            ..
        } => element(frame, *variable, index.number(frame)),
        Source::Get { .. } | Source::Create { .. } => None,
    }
}

/// Makes the local step of an instruction, and tells the next place; `None` where it stands at an event.
pub fn step(frame: &mut Frame, instruction: &Instruction) -> Option<u32>
    ensures moves { MatchOption result ((moves frame.old (Some instruction.now) ≡ None) × (frame.new ≡ frame.old))
        (λ next. moves frame.old (Some instruction.now) ≡ Some (record { next = next; slots = frame.new.slots })) }
    ensures rooms { frame.new.rooms ≡ frame.old.rooms }
{
    match instruction {
        Instruction::Set {
            target,
            source,
            next,
        } => match local_value(frame, source) {
            Some(value) => {
                set(frame, *target, value);
                Some(*next)
            }
            None => None,
        },
        Instruction::Store {
            variable,
            index,
            value,
            next,
            ..
        } => {
            let index = index.number(frame);
            let value = value.value(frame);
            if store(frame, *variable, index, value) {
                Some(*next)
            } else {
                None
            }
        }
        Instruction::Branch {
            test,
            then,
            otherwise,
        } => Some(if test.number(frame) == 0 {
            *otherwise
        } else {
            *then
        }),
        Instruction::Spawn { .. } | Instruction::Sync { .. } | Instruction::Return { .. } => None,
    }
}

/// Sets an element of a variable, where that is an array now, and tells whether it is.
fn store(frame: &mut Frame, variable: Option<u32>, index: i64, value: Value) -> bool
    ensures stored { store_slots frame.old.slots variable (slot_for frame.old.slots variable) index value ≡ (if result then Some frame.new.slots else None) }
    ensures unchanged { result ≡ false → frame.new ≡ frame.old }
    ensures rooms { frame.new.rooms ≡ frame.old.rooms }
{
    match variable {
        Some(variable) => match frame.shape(variable) {
            Shape::Many(count) => {
                frame.set_element(variable, place_or_first(count, index), value);
                true
            }
            Shape::One => false,
        },
        None => false,
    }
}

/// The place of an element at an index, where there is one.
fn place_or_first(count: usize, index: i64) -> usize
    ensures { 1 ≤ count → count < 2 ^ 63 → result ≡ index_of count index }
{
    if count == 0 || count >= 0x8000_0000_0000_0000 {
        return 0;
    }
    place_in(count, index)
}

/// The number of a cell of an array at an index.
fn cell(arrays: &[CellArray], array: Option<u32>, index: i64) -> Option<u32>
    ensures { result ≡ cell_for arrays.now array index }
{
    match array {
        Some(array) => match arrays.get(array as usize) {
            Some(array) => Some(array.cell(index)),
            None => None,
        },
        None => None,
    }
}

/// To end with a value, and with the block closed.
pub fn ending(is_open: bool, value: Value) -> Wish
    ensures { IsTold result (end_of is_open value) }
{
    if is_open {
        Wish::Sync
    } else {
        Wish::End { value }
    }
}

/// What a task wishes at an instruction that is no local step, where it has a wish.
pub fn wish(
    frame: &Frame,
    arrays: &[CellArray],
    instruction: &Instruction,
    is_open: bool,
) -> Option<Wish>
    ensures { MatchOption result (wished arrays.now frame.now.slots is_open (Some instruction.now) ≡ NoWish)
        (λ w. IsTold w (wished arrays.now frame.now.slots is_open (Some instruction.now))) }
{
    match instruction {
        Instruction::Set { source, .. } => wish_of_source(frame, arrays, source),
        Instruction::Store {
            array,
            index,
            value,
            ..
        } => match cell(arrays, *array, index.number(frame)) {
            Some(cell) => Some(Wish::Write {
                cell,
                value: value.number(frame),
            }),
            None => None,
        },
        Instruction::Branch { .. } => None,
        Instruction::Spawn { which, .. } => Some(Wish::Spawn { which: *which }),
        Instruction::Sync { .. } => Some(Wish::Sync),
        Instruction::Return { value } => Some(ending(is_open, value.value(frame))),
    }
}

fn wish_of_source(frame: &Frame, arrays: &[CellArray], source: &Source) -> Option<Wish>
    ensures { MatchOption result (wished_source arrays.now frame.now.slots source.now ≡ NoWish)
        (λ w. IsTold w (wished_source arrays.now frame.now.slots source.now)) }
{
    match source {
        Source::Value(_) => None,
        Source::Element { array, index, .. } => {
            match cell(arrays, *array, index.number(frame)) {
                Some(cell) => Some(Wish::Read { cell }),
                None => None,
            }
        }
        Source::Get { variable } => match frame.value(*variable) {
            Value::Fut(future) => Some(Wish::Get { future }),
            Value::Int(_) => None,
        },
        Source::Create { which, .. } => Some(Wish::Create { which: *which }),
    }
}

/// What an act gives its task.
fn received(act: &Act) -> Option<Value>
    ensures { result ≡ received_by (action_of act.now) }
{
    match act {
        Act::Read { value, .. } => Some(Value::Int(*value)),
        Act::Create { child, .. } => Some(Value::Fut(*child)),
        Act::Get { value, .. } => Some(*value),
        Act::Write { .. } | Act::Spawn { .. } | Act::Sync { .. } | Act::End { .. } => None,
    }
}

/// Takes what an act gives at an instruction, and tells the place behind it.
pub fn take(frame: &mut Frame, instruction: &Instruction, place: u32, act: &Act) -> u32
    ensures slots { frame.new.slots ≡ slots_after frame.old (Some instruction.now) (action_of act.now) }
    ensures rooms { frame.new.rooms ≡ frame.old.rooms }
    ensures place { result ≡ place_after place (Some instruction.now) }
{
    match instruction {
        Instruction::Set { target, next, .. } => {
            if let Some(value) = received(act) {
                set(frame, *target, value);
            }
            *next
        }
        Instruction::Store { next, .. }
        | Instruction::Spawn { next, .. }
        | Instruction::Sync { next } => *next,
        Instruction::Branch { .. } | Instruction::Return { .. } => place,
    }
}

/// The argument values of a spawn or a create.
pub fn passed(alloc: Global, frame: &Frame, instruction: &Instruction) -> Result<Args, NoMemory>
    ensures { IfOk result (λ a. a.items ≡ passed_by frame.now.slots (Some instruction.now)) }
{
    match instruction {
        Instruction::Spawn { args, .. } => values_of(alloc, frame, args.as_slice()),
        Instruction::Set { source, .. } => match source {
            Source::Create { args, .. } => values_of(alloc, frame, args.as_slice()),
            Source::Value(_) | Source::Element { .. } | Source::Get { .. } => {
                Ok(Args::make(alloc))
            }
        },
        Instruction::Store { .. }
        | Instruction::Branch { .. }
        | Instruction::Sync { .. }
        | Instruction::Return { .. } => Ok(Args::make(alloc)),
    }
}

/// The values of arguments, an array as its elements.
fn values_of(alloc: Global, frame: &Frame, terms: &[Term]) -> Result<Args, NoMemory>
    ensures { IfOk result (λ a. a.items ≡ values_by frame.now.slots terms.now) }
{
    let mut values = Vec::new(alloc);
    for term in terms {
        push_values(&mut values, frame, term)?;
    }
    Ok(Args::from_vec(values))
}

/// Adds the values of an argument.
fn push_values(values: &mut Vec<Value>, frame: &Frame, term: &Term) -> Result<(), NoMemory>
    ensures { OnOk result (values.new.items ≡ values.old.items ++ slot_values (slot_by frame.now.slots term.now)) }
{
    if let Term::Variable(variable) = term {
        if let Some(elements) = frame.elements(*variable) {
            values.extend_from_slice(elements)?;
            return Ok(());
        }
    }
    values.push(term.value(frame))?;
    Ok(())
}
