//! Which strands are joined with a strand, found by following edges until nothing new comes.
ghost use Rattle.std.specs.Prelude.{◌≡◌, ◌==◌, ◌+◌, ◌≤◌, ◌&&◌, ◌||◌, ℕ, true, not, if◌then◌else◌, map, reverse, IsTrue, ◌↔◌, IfOk, OnOk};
ghost use Rattle.std.specs.BTreeSet.{btree_set_len};
ghost use Rattle.fut_base.specs.Dag.{AreJoinedBy, ReachesBy};
ghost use Rattle.race_report.specs.Edges.{ends_of, turn};
ghost use Rattle.race_report.specs.Search.{has, is_joined, IsClosed, OnlyReached, IsDagOf};

use crate::edges::{Edge, edges_between, turned};
use fut_base::list::NoMemory;
use fut_base::record::Entry;
use std::alloc::Global;
use std::collections::BTreeSet;

/// The edges of a history, onward in their order, and turned round with the last one first.
#[derive(Drop)]
pub struct Dag {
    pub onward: Vec<Edge>,
    pub back: Vec<Edge>,
}

/// The strands that reach a strand, and those that it reaches.
#[derive(Drop)]
pub struct Joined {
    pub before: BTreeSet<u32>,
    pub after: BTreeSet<u32>,
}

// Adds where a step leads, if it begins among the strands.
fn follow(reached: &mut BTreeSet<u32>, step: Edge) -> Result<(), NoMemory>
    ensures adds { OnOk result ((v : ℕ) → has reached.new v ≡ (has reached.old v || ((step.to == v) && has reached.old step.from))) }
    ensures len { OnOk result (btree_set_len reached.new ≡ btree_set_len reached.old
        + (if has reached.old step.from && not (has reached.old step.to) then 1 else 0)) }
{
    if reached.contains(&step.from) {
        reached.insert(step.to)?;
    }
    Ok(())
}

// Follows each step once, in order.
fn spread(reached: &mut BTreeSet<u32>, steps: &[Edge]) -> Result<(), NoMemory>
    ensures kept { OnOk result ((v : ℕ) → has reached.old v ≡ true → has reached.new v ≡ true) }
    ensures sound { OnOk result ((start : ℕ) → OnlyReached steps.now start reached.old → OnlyReached steps.now start reached.new) }
    ensures rises { OnOk result (btree_set_len reached.old ≤ btree_set_len reached.new) }
    ensures closed { OnOk result (btree_set_len reached.new ≡ btree_set_len reached.old → IsClosed steps.now reached.new) }
{
    for step in steps {
        follow(reached, *step)?;
    }
    Ok(())
}

/// The strands to which paths of the steps lead from `start`, itself among them.
pub fn reached_from(alloc: Global, steps: &[Edge], start: u32) -> Result<BTreeSet<u32>, NoMemory>
    ensures { IfOk result (λ reached. (v : ℕ) → IsTrue (has reached v) ↔ ReachesBy (map ends_of steps.now) start v) }
{
    let mut reached = BTreeSet::new(alloc);
    reached.insert(start)?;
    loop {
        let before = reached.len();
        spread(&mut reached, steps)?;
        if reached.len() == before {
            return Ok(reached);
        }
    }
}

impl Dag {
    /// The edges that the entries make.
    pub fn make(alloc: Global, entries: &[Entry]) -> Result<Dag, NoMemory>
        ensures { IfOk result (IsDagOf entries.now) }
    {
        let onward = edges_between(alloc, entries)?;
        let back = turned(alloc, onward.as_slice())?;
        Ok(Dag { onward, back })
    }

    /// The strands joined with a strand.
    pub fn joined_with(&self, alloc: Global, strand: u32) -> Result<Joined, NoMemory>
        requires { self.now.back.items ≡ map turn (reverse self.now.onward.items) }
        ensures { IfOk result (λ joined. (v : ℕ) → IsTrue (is_joined joined v) ↔ AreJoinedBy (map ends_of self.now.onward.items) v strand) }
    {
        let before = reached_from(alloc, self.back.as_slice(), strand)?;
        let after = reached_from(alloc, self.onward.as_slice(), strand)?;
        Ok(Joined { before, after })
    }
}

impl Joined {
    /// Whether a strand is among them.
    pub fn has(&self, strand: u32) -> bool
        ensures { result ≡ is_joined self.now strand }
    {
        self.before.contains(&strand) || self.after.contains(&strand)
    }
}
