//! The parting entry of two strands.
ghost use Rattle.std.specs.Prelude.{◌≡◌, map, IfOk};
ghost use Rattle.fut_base.specs.Events.{event_of, events_of};
ghost use Rattle.race_origins.specs.Parting.{IsPartingOf, IsLastPlace, AreOriginsOf, has_both};

use crate::edges::{Edge, edges_made};
use crate::marks::{has, marks_before};
use fut_base::list::NoMemory;
use fut_base::record::{Entry, History};
use std::alloc::Global;

/// What is kept of a history, to be asked for parting entries.
#[derive(Drop)]
pub struct Origins {
    edges: Vec<Edge>,
}

// Whether the strand of an entry has both marks.
fn has_both(entry: &Entry, one: &[bool], other: &[bool]) -> bool
    ensures { result ≡ has_both one.now other.now (event_of entry.now) }
{
    has(one, entry.strand) && has(other, entry.strand)
}

// The greatest place of an entry whose strand has both marks.
fn last_of_both(entries: &[Entry], one: &[bool], other: &[bool]) -> Option<usize>
    ensures { IsLastPlace (has_both one.now other.now) (map event_of entries.now) result }
{
    for place in (0..entries.len()).rev() {
        if has_both(&entries[place], one, other) {
            return Some(place);
        }
    }
    None
}

impl Origins {
    /// The origins of a history, which may be any one, also one that no program makes.
    pub fn make(alloc: Global, history: &History) -> Result<Origins, NoMemory>
        ensures { IfOk result (AreOriginsOf (events_of history.now)) }
    {
        let edges = edges_made(alloc, history.as_slice())?;
        Ok(Origins { edges })
    }

    /// The place of the last entry whose strand reaches both `one` and `other`: the entry at which what these strands do
    /// parts, if neither of the two reaches the other. `None` where the strand of no entry reaches both.
    ///
    /// `history` is the one of which the origins were made. The call takes a byte for each number up to that of the
    /// greatest strand, twice.
    pub fn parting(
        &self,
        alloc: Global,
        history: &History,
        one: u32,
        other: u32,
    ) -> Result<Option<usize>, NoMemory>
        requires { AreOriginsOf (events_of history.now) self.now }
        ensures { IfOk result (IsPartingOf (events_of history.now) one other) }
    {
        let before_one = marks_before(alloc, self.edges.as_slice(), one)?;
        let before_other = marks_before(alloc, self.edges.as_slice(), other)?;
        let last = last_of_both(
            history.as_slice(),
            before_one.as_slice(),
            before_other.as_slice(),
        );
        Ok(last)
    }
}
