//! One history of the traces of a run's tasks: each entry at the place of its ticket.
#![tactic(auto)]

ghost use Rattle.std.specs.Prelude.{◌≡◌, ℕ, ◌<◌, ◌↔◌, length, slice_get, slice_set, Some, IfOk};
ghost use Rattle.fut_base.specs.declared.record.Entry.{Entry as Made};
ghost use Rattle.fut_base.specs.Dag.{Among};
ghost use Rattle.trace_merge.specs.Placing.{AreApart, AreTaken, HavePlaces, IsTaken, entries_in};

use fut_base::list::NoMemory;
use fut_base::ready::Ready;
use fut_base::record::{Entry, History};
use std::alloc::Global;
use task_machine::trace::Trace;

#[cfg(test)]
mod tests;

/// So many places, none of them taken.
fn places(alloc: Global, count: u32) -> Result<Vec<Option<Entry>>, NoMemory>
    ensures { IfOk result (λ v. length v.items ≡ count) }
{
    let mut places = Vec::new(alloc);
    places.reserve(count as usize)?;
    for _place in 0..count {
        places.push(None)?;
    }
    Ok(places)
}

/// An entry takes its place.
fn place(places: &mut [Option<Entry>], ticket: u32, entry: Entry)
    requires { ticket < length places.old }
    ensures { places.new ≡ slice_set places.old ticket (Some entry) }
{
    places[ticket as usize] = Some(entry);
}

/// Each entry of a trace takes the place of its ticket.
fn place_trace(places: &mut [Option<Entry>], trace: Trace)
    requires apart { AreApart (length places.old) trace.items }
    ensures length { length places.new ≡ length places.old }
    ensures placed { HavePlaces trace.items places.old places.new }
{
    let mut trace = trace;
    while let Some((ticket, entry)) = trace.pop() {
        place(places, ticket, entry);
    }
}

/// Each entry of the traces takes the place of its ticket.
fn place_all(places: &mut [Option<Entry>], traces: Ready<Trace>)
    requires apart { AreApart (length places.old) (entries_in traces.items) }
    ensures length { length places.new ≡ length places.old }
    ensures placed { HavePlaces (entries_in traces.items) places.old places.new }
{
    let mut traces = traces;
    while let Some(trace) = traces.pop() {
        place_trace(places, trace);
    }
}

/// The entries that took all places, in the order of these.
fn taken(alloc: Global, places: &mut [Option<Entry>]) -> Result<History, NoMemory>
    requires { AreTaken places.old }
    ensures { IfOk result (λ h. IsTaken places.old h.items) }
{
    let mut history = History::make(alloc);
    for k in 0..places.len() {
        let Some(entry) = places[k].take() else {
            unreachable!()
        };
        history.reserve()?;
        history.push(entry);
    }
    Ok(history)
}

/// The entries of these traces take the places, and are taken out of these in their order.
fn fill(
    alloc: Global,
    places: &mut [Option<Entry>],
    traces: Ready<Trace>,
) -> Result<History, NoMemory>
    requires apart { AreApart (length places.old) (entries_in traces.items) }
    requires all { (k : ℕ) → k < length places.old → (e : Made) × Among (k, e) (entries_in traces.items) }
    ensures { IfOk result (λ h. (k : ℕ) (e : Made) → (slice_get h.items k ≡ Some e) ↔ Among (k, e) (entries_in traces.items)) }
{
    place_all(places, traces);
    taken(alloc, places)
}

/// The history with all entries of these traces, whose tickets are the numbers below `count`, each once. An entry's place is its
/// ticket. Beside the history it takes memory for as many entries, and gives it back.
pub fn merge(alloc: Global, count: u32, traces: Ready<Trace>) -> Result<History, NoMemory>
    requires apart { AreApart count (entries_in traces.items) }
    requires all { (k : ℕ) → k < count → (e : Made) × Among (k, e) (entries_in traces.items) }
    ensures { IfOk result (λ h. (k : ℕ) (e : Made) → (slice_get h.items k ≡ Some e) ↔ Among (k, e) (entries_in traces.items)) }
{
    let mut places = places(alloc, count)?;
    fill(alloc, places.as_mut_slice(), traces)
}
