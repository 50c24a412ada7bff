//! What the next edges of a history need of the tasks.
ghost use Rattle.std.specs.Prelude.{◌≡◌, ℕ, ◌==◌, ◌&&◌, ◌++◌, [], ◌∷◌, List, if◌then◌else◌, IfOk, OnOk, Some};
ghost use Rattle.fut_base.specs.declared.event.Event.{Event};
ghost use Rattle.fut_base.specs.Events.{event_of, action_of};
ghost use Rattle.fut_base.specs.Dag.{ends, block_after};
ghost use Rattle.race_origins.specs.Edges.{last_in, children_in, AreTasksOf};

use fut_base::list::NoMemory;
use fut_base::record::{Act, Entry};
use std::alloc::Global;
use std::collections::BTreeMap;

/// The last strand of each task that has ended, and the children that each task has spawned since its last sync.
#[derive(Drop)]
pub struct Tasks {
    lasts: BTreeMap<u32, u32>,
    blocks: BTreeMap<u32, Vec<u32>>,
}

fn note_child(
    alloc: Global,
    blocks: &mut BTreeMap<u32, Vec<u32>>,
    task: u32,
    child: u32,
) -> Result<(), NoMemory>
    ensures { OnOk result ((t : ℕ) → children_in blocks.new t
        ≡ (if t == task then children_in blocks.old t ++ child ∷ [] else children_in blocks.old t)) }
{
    let mut block = match blocks.remove(&task) {
        Some(block) => block,
        None => Vec::new(alloc),
    };
    block.push(child)?;
    blocks.insert(task, block)?;
    Ok(())
}

fn note_sync(blocks: &mut BTreeMap<u32, Vec<u32>>, task: u32)
    ensures { (t : ℕ) → children_in blocks.new t ≡ (if t == task then [] else children_in blocks.old t) }
{
    blocks.remove(&task);
}

fn note_end(lasts: &mut BTreeMap<u32, u32>, task: u32, strand: u32) -> Result<(), NoMemory>
    ensures { OnOk result ((t : ℕ) → last_in lasts.new t ≡ (if t == task then Some strand else last_in lasts.old t)) }
{
    lasts.insert(task, strand)?;
    Ok(())
}

// Keeps what an entry tells of the children that are not joined.
fn note_block(
    alloc: Global,
    blocks: &mut BTreeMap<u32, Vec<u32>>,
    entry: &Entry,
) -> Result<(), NoMemory>
    ensures { OnOk result ((t : ℕ) → children_in blocks.new t
        ≡ (if t == entry.now.task then block_after (action_of entry.now.act) (children_in blocks.old t) else children_in blocks.old t)) }
{
    match &entry.act {
        Act::Spawn { child, .. } => note_child(alloc, blocks, entry.task, *child),
        Act::Sync { .. } => {
            note_sync(blocks, entry.task);
            Ok(())
        }
        _ => Ok(()),
    }
}

// Keeps what an entry tells of the tasks that have ended.
fn note_last(lasts: &mut BTreeMap<u32, u32>, entry: &Entry) -> Result<(), NoMemory>
    ensures { OnOk result ((t : ℕ) → last_in lasts.new t
        ≡ (if (t == entry.now.task) && ends (action_of entry.now.act) then Some entry.now.strand else last_in lasts.old t)) }
{
    match &entry.act {
        Act::End { .. } => note_end(lasts, entry.task, entry.strand),
        _ => Ok(()),
    }
}

impl Tasks {
    /// No task has done anything.
    pub fn none(alloc: Global) -> Tasks
        ensures { AreTasksOf [] result }
    {
        Tasks {
            lasts: BTreeMap::new(alloc),
            blocks: BTreeMap::new(alloc),
        }
    }

    /// Takes one more entry.
    pub fn note(&mut self, alloc: Global, entry: &Entry) -> Result<(), NoMemory>
        ensures { OnOk result ((past : List Event) → AreTasksOf past self.old → AreTasksOf (event_of entry.now ∷ past) self.new) }
    {
        note_block(alloc, &mut self.blocks, entry)?;
        note_last(&mut self.lasts, entry)
    }

    /// The last strand of a task, where it has ended.
    pub fn last(&self, task: u32) -> Option<u32>
        ensures { result ≡ last_in self.now.lasts task }
    {
        self.lasts.get(&task).copied()
    }

    /// The children that a task has spawned since its last sync, the first of them first.
    pub fn block(&self, task: u32) -> &[u32]
        ensures { result.now ≡ children_in self.now.blocks task }
    {
        match self.blocks.get(&task) {
            Some(block) => block.as_slice(),
            None => &[],
        }
    }
}
