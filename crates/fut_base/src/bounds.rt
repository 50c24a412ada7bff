//! That the numbers of a history are within the bounds of their types. Nothing is done here: to look at a number is what shows
//! this.
ghost use Rattle.fut_base.specs.Events.{action_of, event_of, events_of};
ghost use Rattle.fut_base.specs.Bounds.{AreNumbered, AreValues, IsActionWith, IsAny, IsEventWith, IsFinish, IsNumber, IsValue};

use crate::record::{Act, Entry, Finish, History, Value};

fn number_has_bounds(_number: u32)
    ensures { IsNumber _number }
{}

fn value_has_bounds(value: &Value)
    ensures { IsValue value.now }
{
    match value {
        Value::Int(z) => {
            let _z = *z;
        }
        Value::Fut(future) => {
            let _future = *future;
        }
    }
}

fn values_have_bounds(values: &[Value])
    ensures { AreValues values.now }
{
    for value in values {
        value_has_bounds(value);
    }
}

fn act_has_bounds(act: &Act)
    ensures { IsActionWith IsAny (action_of act.now) }
{
    match act {
        Act::Read { cell, value } | Act::Write { cell, value } => {
            let _numbers = (*cell, *value);
        }
        Act::Spawn {
            code,
            child,
            kid,
            cont,
            args,
        }
        | Act::Create {
            code,
            child,
            kid,
            cont,
            args,
        } => {
            let _numbers = (*code, *child, *kid, *cont);
            values_have_bounds(args.as_slice());
        }
        Act::Sync { strand } => {
            let _strand = *strand;
        }
        Act::Get {
            future,
            value,
            strand,
        } => {
            let _numbers = (*future, *strand);
            value_has_bounds(value);
        }
        Act::End { value } => value_has_bounds(value),
    }
}

fn entry_has_bounds(entry: &Entry)
    ensures { IsEventWith IsAny (event_of entry.now) }
{
    number_has_bounds(entry.task);
    number_has_bounds(entry.strand);
    act_has_bounds(&entry.act);
}

/// Each number of a history is within the bounds of its type. It does nothing.
pub fn history_has_bounds(history: &History)
    ensures { AreNumbered (events_of history.now) }
{
    let entries = history.as_slice();
    for entry in entries {
        entry_has_bounds(entry);
    }
}

/// So is the number of a finish. It does nothing.
pub fn finish_has_bounds(end: Finish)
    ensures { IsFinish end }
{
    match end {
        Finish::Whole => {}
        Finish::Events { bound: _bound } => {}
        Finish::Local { task: _task } | Finish::Futures { task: _task } => {}
    }
}
