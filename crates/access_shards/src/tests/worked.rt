//! Worked runs: strands with their tables, and the edges between them.
ghost use Rattle.std.specs.Prelude.{◌≡◌, ◌+◌, ◌<◌, ◌≤◌, length, IsTrue, IfOk, IsSome};
ghost use Rattle.order_list.specs.Sides.{Lists};
ghost use Rattle.reach_table.specs.Telling.{AllKnown};

use order_list::Still;
use reach_table::Reach;
use std::alloc::Global;
use std::test::Fail;
use strand_tree::{Strand, create, root, spawn, sync};

/// What a task does on a strand, by the strand's number.
#[derive(Clone, Copy, Debug, PartialEq, Eq)]
pub enum Step {
    Spawn(usize),
    Create(usize),
    /// A sync of a block of one child, which ended on the strand `last`.
    Sync { at: usize, last: usize },
}

/// The strands of a run, each with its table, and its edges as they were made. Each child of a sync is of its maker's
/// future and has the table of the strand on which the sync stands.
#[derive(Drop)]
pub struct Worked {
    pub strands: Vec<Strand>,
    pub tables: Vec<Reach>,
    pub edges: Vec<(usize, usize)>,
}

impl Worked {
    /// The root's first strand.
    pub fn start(alloc: Global) -> Result<Worked, Fail> {
        let mut worked = Worked {
            strands: Vec::new(alloc),
            tables: Vec::new(alloc),
            edges: Vec::new(alloc),
        };
        worked.strands.push(root())?;
        worked.tables.push(Reach::empty(alloc))?;
        Ok(worked)
    }

    // A strand of the run that is in both lists.
    fn at(&self, still: &Still, number: usize) -> Result<Strand, Fail>
        ensures { IfOk result (λ v. (v.number < length still.now.english.order) × (v.number < length still.now.hebrew.order)) }
    {
        let Some(strand) = self.strands.get(number) else {
            return Err("no such strand")?;
        };
        if strand.number >= still.english().len() || strand.number >= still.hebrew().len() {
            return Err("no such strand")?;
        }
        Ok(*strand)
    }

    fn share(&self, number: usize) -> Result<Reach, Fail> {
        let Some(table) = self.tables.get(number) else {
            return Err("no such table")?;
        };
        Ok(table.share()?)
    }

    fn add(&mut self, from: usize, strand: Strand, table: Reach) -> Result<(), Fail> {
        self.edges.push((from, self.strands.len()))?;
        self.strands.push(strand)?;
        self.tables.push(table)?;
        Ok(())
    }

    fn spawn(&mut self, still: &mut Still, at: usize) -> Result<(), Fail>
        requires { 2 ≤ still.old.english.room }
        ensures { still.old.english.room ≤ still.new.english.room + 2 }
    {
        let from = self.at(still, at)?;
        let (kid, cont) = spawn(still, from);
        self.add(at, kid, self.share(at)?)?;
        self.add(at, cont, self.share(at)?)
    }

    // The future has the number of its first strand.
    fn create(&mut self, still: &mut Still, at: usize) -> Result<(), Fail>
        requires { 2 ≤ still.old.english.room }
        ensures { still.old.english.room ≤ still.new.english.room + 2 }
    {
        let from = self.at(still, at)?;
        let future = still.english().len();
        let (kid, cont) = create(still, from, future);
        let Some(table) = self.tables.get(at) else {
            return Err("no such table")?;
        };
        let made = table.created(from)?;
        self.add(at, kid, made)?;
        self.add(at, cont, self.share(at)?)
    }

    fn sync(&mut self, still: &mut Still, at: usize, last: usize) -> Result<(), Fail>
        requires { 1 ≤ still.old.english.room }
        ensures { still.old.english.room ≤ still.new.english.room + 2 }
    {
        let from = self.at(still, at)?;
        let ended = self.at(still, last)?;
        let strand = sync(still, from, Some(ended));
        self.edges.push((last, self.strands.len()))?;
        self.add(at, strand, self.share(at)?)
    }

    fn take(&mut self, still: &mut Still, step: Step) -> Result<(), Fail>
        requires { 2 ≤ still.old.english.room }
        ensures { still.old.english.room ≤ still.new.english.room + 2 }
    {
        match step {
            Step::Spawn(at) => self.spawn(still, at),
            Step::Create(at) => self.create(still, at),
            Step::Sync { at, last } => self.sync(still, at, last),
        }
    }
}

/// The run of these steps.
pub fn work(alloc: Global, steps: &[Step]) -> Result<(Still, Worked), Fail> {
    if steps.len() > 100_000 {
        return Err("too many steps")?;
    }
    let mut still = Still::make(alloc, 2 * steps.len() as u32 + 1)?;
    let mut worked = Worked::start(alloc)?;
    for step in steps {
        worked.take(&mut still, *step)?;
    }
    Ok((still, worked))
}

/// Whether both lists have all these strands.
pub fn are_known(lists: &Still, strands: &[Strand]) -> bool
    ensures { IsTrue result → AllKnown (length lists.now.english.order) strands.now }
{
    let known = lists.english().len();
    for w in strands {
        if w.number >= known {
            return false;
        }
    }
    true
}
