//! Two traces, the later entry first.
ghost use Rattle.std.specs.Prelude.{◌≡◌, [], ◌∷◌, IfOk};
ghost use Rattle.trace_merge.specs.Placing.{entries_in};
ghost use Rattle.trace_merge.specs.Trials.{end_of};

use crate::merge;
use fut_base::list::NoMemory;
use fut_base::ready::Ready;
use fut_base::record::{Act, Entry, Value};
use std::alloc::Global;
use std::test::Fail;
use task_machine::trace::Trace;

// A task with this number ends.
fn end(n: u32) -> Entry
    ensures { result ≡ end_of n }
{
    Entry {
        task: n,
        strand: n,
        act: Act::End {
            value: Value::Int(0),
        },
    }
}

// A trace of one entry.
fn trace_of(alloc: Global, ticket: u32) -> Result<Trace, NoMemory>
    ensures { IfOk result (λ t. t.items ≡ (ticket, end_of ticket) ∷ []) }
{
    let mut trace = Trace::make(alloc);
    trace.reserve()?;
    trace.push(ticket, end(ticket));
    Ok(trace)
}

// The traces of two tasks.
fn two_traces(alloc: Global) -> Result<Ready<Trace>, NoMemory>
    ensures { IfOk result (λ ts. entries_in ts.items ≡ (1, end_of 1) ∷ (0, end_of 0) ∷ []) }
{
    let mut traces = Ready::make(alloc);
    traces.push(trace_of(alloc, 1)?);
    let second = trace_of(alloc, 0)?;
    traces.reserve()?;
    traces.push(second);
    Ok(traces)
}

#[test]
fn entries_come_by_their_tickets(rt: HostRuntime) -> Result<(), Fail> {
    let alloc = rt.alloc();
    let traces = two_traces(alloc)?;
    let history = merge(alloc, 2, traces)?;
    assert_eq!(rt; history.len(), 2);
    for place in 0..2u32 {
        let Some(entry) = history.at(place as usize) else {
            panic!(rt; "no entry at {place}");
        };
        assert_eq!(rt; entry.task, place);
    }
    Ok(())
}
