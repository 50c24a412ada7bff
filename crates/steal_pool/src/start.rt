//! The workers of a run, and its first job.
ghost use Rattle.std.specs.Prelude.{◌≡◌, ◌+◌, ◌-◌, ◌*◌, ◌<◌, ◌≤◌, [], ◌∷◌, length, map, All, IfOk, slice_index_or};
ghost use Rattle.steal_pool.specs.AllWorkers.{AreNewWorkers, AreStarted};

use crate::thief::thieves;
use crate::worker::Worker;
use fut_base::list::NoMemory;
use fut_base::ready::Ready;
use std::alloc::Global;

/// A worker for each value, the first job in the deque of worker 0. The list keeps the room of the values.
pub(crate) fn start_workers<J: Drop, W: Drop>(
    alloc: Global,
    owns: &mut Ready<W>,
    first: J,
) -> Result<Vec<Worker<J, W>>, NoMemory>
    requires { (0 < length owns.old.items) × (length owns.old.items ≤ 64) }
    ensures { IfOk result (λ ms. AreStarted owns.old.items first ms.items × (owns.new.items ≡ []) × (length owns.old.items ≤ owns.new.spare)) }
{
    let mut workers = new_workers(alloc, owns)?;
    if let Err(_) = workers[0].thief.push(first) {
        return Err(NoMemory);
    }
    Ok(workers)
}

// A worker for each value, all deques empty. The values' room stays.
fn new_workers<J: Drop, W: Drop>(
    alloc: Global,
    owns: &mut Ready<W>,
) -> Result<Vec<Worker<J, W>>, NoMemory>
    requires { (0 < length owns.old.items) × (length owns.old.items ≤ 64) }
    ensures { IfOk result (λ ms. AreNewWorkers owns.old.items ms.items × (owns.new.items ≡ []) × (length owns.old.items ≤ owns.new.spare)) }
{
    let count = owns.len() as u32;
    let mut rest = thieves(alloc, count)?;
    let mut workers = Vec::with_capacity(alloc, count as usize)?;
    for number in 0..count {
        let Some(own) = owns.pop() else {
            unreachable!()
        };
        let Some(thief) = rest.pop() else {
            unreachable!()
        };
        workers.push(Worker {
            thief,
            number,
            own,
            next: None,
            left: Ready::make(alloc),
            halted: false,
            refused: false,
        })?;
    }
    Ok(workers)
}
