//! One worker's deque, with its passes to the deques of all workers.
ghost use Rattle.std.specs.Prelude.{◌≡◌, ◌+◌, ◌-◌, ◌*◌, ◌<◌, ◌≤◌, [], ◌∷◌, length, map, All, IfOk};
ghost use Rattle.std.specs.Option.{option_to_list};
ghost use Rattle.steal_pool.specs.Deques.{own_tally, own_id, PutLast, TookFirst};
ghost use Rattle.steal_pool.specs.Thieves.{StoleFrom, HasMade, IsRow, AreNew};

use crate::deque::{OwnDeque, Victim};
use fut_base::list::NoMemory;
use fut_base::ready::Ready;
use std::alloc::Global;
use std::sync::Wait;

/// One worker's deque, with its passes to the deques of all workers.
#[derive(Drop)]
pub struct Thief<J> {
    pub(crate) own: OwnDeque<J>,
    pub(crate) victims: Vec<Victim<J>>,
}

impl<J> Thief<J> {
    /// How many workers there are.
    pub(crate) fn count(&self) -> u32
        ensures { result ≤ length self.now.victims.items }
    {
        u32::try_from(self.victims.len()).unwrap_or(u32::MAX)
    }

    /// Adds the job at the end of its own deque. `Err` hands the job back, and comes for want of memory; the deque's
    /// own greatest size counts as such.
    pub fn push(&mut self, job: J) -> Result<(), J>
        ensures victims { self.new.victims ≡ self.old.victims }
        ensures same { (own_id self.new.own ≡ own_id self.old.own) × (self.new.own.found_empty ≡ self.old.own.found_empty) }
        ensures rule { PutLast (own_tally self.old.own) job (own_tally self.new.own) result }
    {
        self.own.push(job)
    }

    /// Takes the first job of its own deque. `None` only where that deque was empty at a moment of the call, which is
    /// counted. It takes no memory.
    pub fn pop(&mut self) -> Option<J>
        ensures victims { self.new.victims ≡ self.old.victims }
        ensures same { own_id self.new.own ≡ own_id self.old.own }
        ensures rule { TookFirst (own_tally self.old.own) self.old.own.found_empty (own_tally self.new.own) self.new.own.found_empty result }
    {
        self.own.pop()
    }

    /// Takes the first job of the deque of worker `from`. `None` only where that deque was empty at a moment of the
    /// call, which is counted.
    pub fn steal<R: Wait>(&mut self, rt: &R, from: u32) -> Option<J>
        requires { from < length self.old.victims.items }
        ensures own { self.new.own ≡ self.old.own }
        ensures rule { StoleFrom self.old from self.new result }
    {
        self.victims[from as usize].steal(rt)
    }
}

/// As many workers as `workers` says. The thief of worker w stands at place w, and all deques are empty.
pub fn thieves<J: Drop>(alloc: Global, workers: u32) -> Result<Ready<Thief<J>>, NoMemory>
    requires { (0 < workers) × (workers ≤ 64) }
    ensures { IfOk result (λ ts. (length ts.items ≡ workers) × AreNew ts.items) }
{
    let count = workers as usize;
    let mut owns = new_owns(alloc, count)?;
    let mut rows = Vec::with_capacity(alloc, count)?;
    for w in 0..count {
        let row = new_victims(alloc, owns.as_mut_slice(), w)?;
        rows.push(row)?;
    }
    let mut rest = owns.into_iter();
    let mut all = Ready::make(alloc);
    while let Some(own) = rest.next() {
        let Some(victims) = rows.pop() else {
            unreachable!()
        };
        all.reserve()?;
        all.push(Thief { own, victims });
    }
    Ok(all)
}

fn new_owns<J: Drop>(alloc: Global, count: usize) -> Result<Vec<OwnDeque<J>>, NoMemory>
    ensures { IfOk result (λ os. (length os.items ≡ count) × All (HasMade 0) os.items) }
{
    let mut owns = Vec::with_capacity(alloc, count)?;
    for _ in 0..count {
        owns.push(OwnDeque::make(alloc)?)?;
    }
    Ok(owns)
}

// A pass to each of the deques, of which `made` were made before.
fn new_victims<J: Drop>(
    alloc: Global,
    owns: &mut [OwnDeque<J>],
    made: usize,
) -> Result<Vec<Victim<J>>, NoMemory>
    requires { (made < 64) × All (HasMade made) owns.old }
    ensures { IfOk result (λ row. (map own_id owns.new ≡ map own_id owns.old) × All (HasMade (made + 1)) owns.new × IsRow (map own_id owns.old) row.items) }
{
    let mut row = Vec::with_capacity(alloc, owns.len())?;
    for k in 0..owns.len() {
        row.push(owns[k].victim()?)?;
    }
    Ok(row)
}
