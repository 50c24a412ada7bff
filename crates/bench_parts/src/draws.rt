//! Draws from an event clock, with and without passes, beside bare additions to one word.
ghost use Rattle.std.specs.Prelude.{◌≡◌, ◌+◌, ◌<◌, IfOk};
ghost use Rattle.event_clock.specs.Closing.{AreOf};
ghost use Rattle.bench_parts.specs.Drawing.{CanDraw, CanSpawn};

use event_clock::clock::{Clock, Drawn, Holder};
use event_clock::holders::Holders;
use fut_base::list::{Listing, NoMemory};
use fut_base::record::{Act, Entry};
use std::alloc::Global;
use std::sync::atomic::{AtomicU64, Ordering};
use std::thread::{self, Threads};

/// What a holder does beside each draw.
#[derive(Clone, Copy, Debug, PartialEq, Eq)]
pub enum Beside {
    /// Nothing.
    Nothing,
    /// It makes a pass, and is told what that knows.
    Note,
    /// It makes a pass, from which another is split off and joined to it again, and is told what that knows.
    Split,
}

// Makes a pass of the task, and is told what it knows.
fn note(clock: &Clock, holder: &mut Holder, task: u32)
    requires { CanDraw clock.now holder.old task }
    ensures { CanDraw clock.now holder.new task }
{
    let pass = clock.note(holder, task);
    clock.tell(holder, pass);
}

// The same, and the pass is split and joined meanwhile.
fn split(clock: &Clock, holder: &mut Holder, task: u32)
    requires { CanDraw clock.now holder.old task }
    ensures { CanDraw clock.now holder.new task }
{
    let mut pass = clock.note(holder, task);
    let other = clock.split(&mut pass);
    clock.join(&mut pass, other);
    clock.tell(holder, pass);
}

// Does what is to be done beside a draw.
fn pass(clock: &Clock, holder: &mut Holder, task: u32, beside: Beside)
    requires { CanDraw clock.now holder.old task }
    ensures { CanDraw clock.now holder.new task }
{
    match beside {
        Beside::Nothing => {}
        Beside::Note => note(clock, holder, task),
        Beside::Split => split(clock, holder, task),
    }
}

// Draws once for a write of the task; tells whether it was a ticket.
fn draw(clock: &Clock, holder: &mut Holder, task: u32, beside: Beside) -> bool
    requires { CanDraw clock.now holder.old task }
    ensures { CanDraw clock.now holder.new task }
{
    let entry = Entry {
        task,
        strand: 0,
        act: Act::Write { cell: 0, value: 0 },
    };
    let drawn = clock.draw(holder, &entry);
    pass(clock, holder, task, beside);
    matches!(drawn, Drawn::At(_))
}

// A holder with the task that it carries, and how many tickets it drew.
#[derive(Drop)]
struct Drawer<'a> {
    clock: &'a Clock,
    holder: Holder,
    task: u32,
    tickets: u32,
    ghost can: { CanDraw clock.now holder task },
}

impl<'a> Drawer<'a> {
    // Draws so often. It counts beside itself, since the drawers of all threads lie side by side.
    fn draw(&mut self, times: u32, beside: Beside) {
        let mut tickets = 0u32;
        for _k in 0..times {
            let drawn = draw(self.clock, &mut self.holder, self.task, beside);
            tickets = tickets.wrapping_add(u32::from(drawn));
        }
        self.tickets = tickets;
    }
}

// Spawns a child, which the other holder carries from then on.
fn spawn(
    alloc: Global,
    clock: &Clock,
    first: &mut Holder,
    other: &mut Holder,
    child: u32,
) -> Result<(), NoMemory>
    requires first { CanSpawn clock.now first.old child }
    requires child { 0 < child }
    requires clock { other.old.clock ≡ clock.now.id }
    ensures first { IfOk result (λ _. CanSpawn clock.now first.new (child + 1)) }
    ensures other { IfOk result (λ _. CanDraw clock.now other.new child) }
{
    let spawn = Entry {
        task: 0,
        strand: 0,
        act: Act::Spawn {
            code: 0,
            child,
            kid: 0,
            cont: 0,
            args: Listing::make(alloc),
        },
    };
    let Drawn::At(_) = clock.draw(first, &spawn) else {
        return Err(NoMemory);
    };
    let pass = clock.note(first, child);
    clock.tell(other, pass);
    Ok(())
}

// So many drawers, of all these holders.
fn drawers_of<'a>(
    alloc: Global,
    clock: &'a Clock,
    mut first: Holder,
    mut list: Holders,
    threads: u32,
) -> Result<Vec<Drawer<'a>>, NoMemory>
    requires first { CanSpawn clock.now first 1 }
    requires clock { AreOf clock.now.id list.items }
{
    let mut drawers = Vec::new(alloc);
    for task in 1..threads {
        let Some(mut holder) = list.pop() else {
            return Ok(drawers);
        };
        spawn(alloc, clock, &mut first, &mut holder, task)?;
        drawers.push(Drawer {
            clock,
            holder,
            task,
            tickets: 0,
        })?;
    }
    drawers.push(Drawer {
        clock,
        holder: first,
        task: 0,
        tickets: 0,
    })?;
    Ok(drawers)
}

/// Draws so often on each of so many threads, from one clock; tells how many tickets were drawn.
pub fn drawn<R: Threads + Sync>(
    rt: &R,
    alloc: Global,
    times: u32,
    threads: u32,
    beside: Beside,
) -> Result<u64, NoMemory> {
    let threads = threads.max(1);
    let (clock, mut list) = Clock::make(alloc, threads, u32::MAX)?;
    let Some(first) = list.pop() else {
        return Ok(0);
    };
    let mut drawers = drawers_of(alloc, &clock, first, list, threads)?;
    thread::for_each_mut(
        rt,
        drawers.as_mut_slice(),
        threads as usize,
        &|_, drawer: &mut Drawer| drawer.draw(times, beside),
    );
    let mut tickets = 0u64;
    for drawer in &drawers {
        tickets = tickets.wrapping_add(u64::from(drawer.tickets));
    }
    Ok(tickets)
}

// Adds one to a word so often; tells how often it was below a bound.
fn add(word: &AtomicU64, times: u32) -> u32 {
    let mut below = 0u32;
    for _k in 0..times {
        let found = word.fetch_add(1, Ordering::SeqCst);
        below = below.wrapping_add(u32::from(found < u64::from(u32::MAX)));
    }
    below
}

/// Adds one to one word so often on each of so many threads; tells how often it was below the bound of a clock.
pub fn added<R: Threads + Sync>(
    rt: &R,
    alloc: Global,
    times: u32,
    threads: u32,
) -> Result<u64, NoMemory> {
    let threads = threads.max(1);
    let word = AtomicU64::new(0);
    let mut counts = Vec::new(alloc);
    for _k in 0..threads {
        counts.push(0u32)?;
    }
    thread::for_each_mut(
        rt,
        counts.as_mut_slice(),
        threads as usize,
        &|_, count: &mut u32| *count = add(&word, times),
    );
    let mut below = 0u64;
    for count in &counts {
        below = below.wrapping_add(u64::from(*count));
    }
    Ok(below)
}
