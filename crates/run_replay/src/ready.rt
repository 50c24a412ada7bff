//! The tasks that have not ended, in English order.
ghost use Rattle.std.specs.Prelude.{◌≡◌, ℕ, ◌+◌, ◌-◌, ◌<◌, ◌^◌, List, [], ◌∷◌, IfOk, OnOk, MatchOption};
ghost use Rattle.fut_base.specs.Events.{action_of};
ghost use Rattle.run_laws.specs.Ready.{put_before, without};
ghost use Rattle.run_replay.specs.Ready.{links_of, HasPlace, IsNextChild, IsRing, Reorders, StandsIn};

use fut_base::list::NoMemory;
use fut_base::record::Act;
use std::alloc::Global;

/// A ring of links through the tasks that have not ended, in English order, so that none is sought: a task is put in before
/// another, or taken out, in constant time. Place 0 stands before the first and behind the last; the place of task t is t + 1.
#[derive(Drop)]
pub struct Ring {
    pub nexts: Vec<u32>,
    pub prevs: Vec<u32>,
}

impl Ring {
    /// Task 0 alone.
    pub fn start(alloc: Global) -> Result<Ring, NoMemory>
        ensures { IfOk result (λ ring. IsRing 1 (0 ∷ []) (links_of ring)) }
    {
        let nexts = vec![in alloc; 1u32, 0]?;
        let prevs = vec![in alloc; 1u32, 0]?;
        Ok(Ring { nexts, prevs })
    }

    /// The first task.
    pub fn first(&self) -> Option<u32>
        ensures { (tasks : ℕ) (order : List ℕ) → IsRing tasks order (links_of self.now)
            → MatchOption result (order ≡ []) (λ t. (ts : List ℕ) × (order ≡ t ∷ ts)) }
    {
        let Some(next) = self.nexts.get(0) else {
            return None;
        };
        if *next == 0 {
            return None;
        }
        Some(*next - 1)
    }

    /// Makes a place for one more task.
    pub fn reserve(&mut self) -> Result<(), NoMemory>
        ensures same { links_of self.new ≡ links_of self.old }
        ensures place { OnOk result (HasPlace self.new) }
    {
        self.nexts.reserve(1)?;
        self.prevs.reserve(1)?;
        Ok(())
    }

    /// Puts a child, which has the next number, before its maker.
    fn put(&mut self, task: u32, child: u32)
        requires stands { (order : List ℕ) × StandsIn child order (links_of self.old) task }
        requires few { child + 1 < 2 ^ 32 }
        requires place { HasPlace self.old }
        ensures { (order : List ℕ) → StandsIn child order (links_of self.old) task → IsRing (child + 1) (put_before task child order) (links_of self.new) }
    {
        let place = task as usize + 1;
        let back = self.prevs[place];
        self.nexts[back as usize] = child + 1;
        self.nexts.push_reserved(task + 1);
        self.prevs[place] = child + 1;
        self.prevs.push_reserved(back);
    }

    /// Takes a task out.
    fn take_out(&mut self, task: u32)
        requires stands { (tasks : ℕ) × (order : List ℕ) × StandsIn tasks order (links_of self.old) task }
        ensures { (tasks : ℕ) (order : List ℕ) → StandsIn tasks order (links_of self.old) task → IsRing tasks (without task order) (links_of self.new) }
    {
        let place = task as usize + 1;
        let back = self.prevs[place];
        let next = self.nexts[place];
        self.nexts[back as usize] = next;
        self.prevs[next as usize] = back;
    }

    /// What an act of a task makes of the order.
    pub fn reorder(&mut self, task: u32, act: &Act)
        requires stands { (tasks : ℕ) × (order : List ℕ) × StandsIn tasks order (links_of self.old) task
            × IsNextChild tasks (action_of act.now) × (tasks + 1 < 2 ^ 32) }
        requires place { HasPlace self.old }
        ensures { Reorders (links_of self.old) (links_of self.new) task (action_of act.now) }
    {
        match act {
            Act::Spawn { child, .. } | Act::Create { child, .. } => self.put(task, *child),
            Act::End { .. } => self.take_out(task),
            Act::Read { .. } | Act::Write { .. } | Act::Sync { .. } | Act::Get { .. } => {}
        }
    }
}
