//! Tests: a trace.
use crate::trace::Trace;
use fut_base::record::{Act, Entry, Value};
use std::alloc::Global;
use std::test::Fail;

fn end(task: u32) -> Entry {
    Entry {
        task,
        strand: 0,
        act: Act::End {
            value: Value::Int(7),
        },
    }
}

fn first_task(trace: &mut Trace) -> Option<(u32, u32)> {
    let (ticket, entry) = trace.pop()?;
    Some((ticket, entry.task))
}

fn two(alloc: Global) -> Result<Trace, Fail> {
    let mut trace = Trace::make(alloc);
    trace.reserve()?;
    trace.push(7, end(1));
    trace.reserve()?;
    trace.push(9, end(2));
    Ok(trace)
}

#[test]
fn a_trace_gives_its_entries_in_order(rt: HostRuntime) -> Result<(), Fail> {
    let mut trace = two(rt.alloc())?;
    assert_eq!(rt; first_task(&mut trace), Some((7, 1)));
    assert_eq!(rt; first_task(&mut trace), Some((9, 2)));
    assert_eq!(rt; first_task(&mut trace), None);
    Ok(())
}
