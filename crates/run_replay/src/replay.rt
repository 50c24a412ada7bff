//! A run: its events one after the other.
ghost use Rattle.std.specs.Prelude.{◌≡◌, ◌↔◌, IsTrue, ◌<◌, ◌≤◌, ◌+◌, ◌*◌, ◌^◌, ℕ, ℤ, true, false, ◌⊎◌, List, []};
ghost use Rattle.std.specs.Prelude.{length, slice_get, Some, None, IfOk, IfSome, OnErr, OnOk, MatchOption};
ghost use Rattle.fut_base.specs.declared.event.Event.{Event};
ghost use Rattle.fut_base.specs.Events.{action_of, event_of};
ghost use Rattle.fut_base.specs.Racing.{IsReport};
ghost use Rattle.fut_syntax.specs.Trees as tree;
ghost use Rattle.fut_check.specs.Items.{IsWellTyped};
ghost use Rattle.fut_base.specs.declared.record.Value.{Value as Carried};
ghost use Rattle.task_machine.specs.State.{TaskState, ToCreate, ToSpawn, wish_of};
ghost use Rattle.task_machine.specs.Runs.{StandsAt};
ghost use Rattle.task_machine.specs.Machine.{Machine, Running, opening, EachEnded, IsRunning};
ghost use Rattle.task_code.specs.Flat.{Compiled, IsCodeOf};
ghost use Rattle.task_code.specs.Tasks.{Wishes};
ghost use Rattle.task_code.specs.declared.task.Wish.TheVariants as asked;
ghost use Rattle.run_laws.specs.Laws.{IsFirst};
ghost use Rattle.run_replay.specs.Next.{Goes, is_create, IsBar, IsNext, MayGo, MayGoOn};
ghost use Rattle.run_replay.specs.Replays.{HaveEnded, IsOn, is_running, RunsStill, value_at, CanAct, IsBarred, IsEvent, IsFree};
ghost use Rattle.run_replay.specs.Replays.{IsFreeWish, IsLegalAct, IsReplayOf, IsSomeReplay, RunsAt, StandsStill, StillAt, Takes};

use crate::line::{TaskLine, begin, begin_child};
use crate::ready::Ring;
use crate::table::{commit, creates_of, give_room, strands_of, write};
use fut_base::acts::copy_of;
use fut_base::limits::{MOST_ENTRIES, MOST_LOCAL_STEPS};
use fut_base::list::{Listing, NoMemory};
use fut_base::record::{Act, Args, Cells, Entry, Finish, Limits, Races, Value};
use race_finder::Finder;
use std::alloc::Global;
use std::marker::Model;
use task_code::code::Code;
use task_code::task::Wish;

/// What the next event of a task is, or why there is none.
#[derive(Drop)]
pub enum Next {
    Made { entry: Entry },
    /// It waits for its children, or for this future.
    Waits { future: Option<u32> },
    Idle,
    Spent { finish: Finish },
    NoMemory,
}

/// A run so far, with its races. `ready` has the tasks that have not ended.
#[derive(Drop)]
pub struct Replay {
    alloc: Global,
    lines: Vec<TaskLine>,
    cells: Vec<i64>,
    ready: Ring,
    entries: u32,
    creates: u32,
    strands: u64,
    finder: Finder,
}

impl Model for Replay {
    ghost use Rattle.run_replay.specs.Ready.{links_of};
    ghost use Rattle.run_replay.specs.Replays.{ReplayNow};

    ghost Value = { ReplayNow };

    ghost view = { λ r. record {
      lines = r.lines.items;
      cells = r.cells.items;
      ready = links_of r.ready;
      entries = r.entries;
      creates = r.creates;
      strands = r.strands;
      finder = r.finder;
    } };
}

/// Whether a task goes on with local steps for too long.
pub fn is_long(wish: Wish) -> bool
    ensures long { result ≡ true → wish ≡ asked.Long }
    ensures event { result ≡ false → IsEvent wish }
{
    match wish {
        Wish::Long => true,
        Wish::Read { .. }
        | Wish::Write { .. }
        | Wish::Spawn { .. }
        | Wish::Create { .. }
        | Wish::Sync
        | Wish::Get { .. }
        | Wish::End { .. } => false,
    }
}

impl Replay {
    /// The opening state: `main` alone, and each cell 0.
    pub fn start(alloc: Global, code: &Code) -> Result<Replay, NoMemory>
        ensures { IfOk result (λ run. (P : tree.Program) → IsWellTyped P → IsCodeOf P code.now → IsReplayOf P code.now [] run (opening P)) }
    {
        let none = Args::make(alloc);
        let main = begin(alloc, code, 0, code.main(), &none, 0, 0)?;
        let mut lines = Vec::new(alloc);
        lines.push(main)?;
        let cells = vec![in alloc; 0; code.cells() as usize]?;
        let ready = Ring::start(alloc)?;
        let finder = Finder::start(alloc)?;
        Ok(Replay {
            alloc,
            lines,
            cells,
            ready,
            entries: 0,
            creates: 0,
            strands: 1,
            finder,
        })
    }

    /// The values of all cells.
    pub fn cells(&self, alloc: Global) -> Result<Cells, NoMemory>
        ensures { IfOk result (λ cells. cells.items ≡ self.now.cells) }
    {
        let held = Vec::from_slice(alloc, self.cells.as_slice())?;
        Ok(Listing::from_vec(held))
    }

    /// The races of the entries so far: the racing cells in order, each with its first pair.
    pub fn races(&self, alloc: Global) -> Result<Races, NoMemory>
        requires known { (code : Compiled) × IsSomeReplay code self.now }
        ensures { IfOk result (λ races. (P : tree.Program) (code : Compiled) (h : List Event) (m : Machine)
            → IsReplayOf P code h self.now m → IsReport h races.items) }
    {
        self.finder.races(alloc)
    }

    /// The first task, in English order, of those that have not ended. `None` exactly where every task has ended. The task is
    /// out of steps, or what it wishes is allowed: no run is stuck.
    pub fn next_ready(&self) -> Option<u32>
        ensures first { (P : tree.Program) (code : Compiled) (h : List Event) (m : Machine) → IsReplayOf P code h self.now m
            → MatchOption result (EachEnded m.tasks) (λ t. (r : Running) × IsFirst h m t r) }
        ensures may_go_on { (P : tree.Program) (code : Compiled) (h : List Event) (m : Machine) → IsReplayOf P code h self.now m
            → IfSome result (λ t. MayGoOn P m t) }
    {
        self.ready.first()
    }

    /// How many entries were made.
    pub fn entries(&self) -> u32
        ensures { result ≡ self.now.entries }
    {
        self.entries
    }

    /// How many of them were creates.
    pub fn creates(&self) -> u32
        ensures { result ≡ self.now.creates }
    {
        self.creates
    }

    /// Whether a task exists and has not ended.
    pub fn runs(&self, task: u32) -> bool
        ensures { result ≡ is_running (slice_get self.now.lines task) }
    {
        match self.lines.get(task as usize) {
            Some(line) => line.value.is_none(),
            None => false,
        }
    }

    /// Whether a task stands on this strand.
    pub(crate) fn is_on(&self, task: u32, strand: u32) -> bool
        ensures { IsTrue result ↔ IsOn self.now.lines task strand }
    {
        match self.lines.get(task as usize) {
            Some(line) => line.strand == strand,
            None => false,
        }
    }

    /// What a task wishes to do next.
    pub fn ask(&mut self, code: &Code, task: u32) -> Wish
        requires known { IsSomeReplay code.now self.old }
        requires running { RunsAt self.old.lines task }
        ensures still { StandsStill code.now self.old self.new }
        ensures running { RunsAt self.new.lines task }
        ensures stands { IsEvent result → StillAt code.now self.new.lines task }
        ensures counts { (self.new.entries ≡ self.old.entries) × (self.new.creates ≡ self.old.creates) }
        ensures wish { (P : tree.Program) (h : List Event) (m : Machine) (r : Running) → IsReplayOf P code.now h self.old m
            → slice_get m.tasks task ≡ Some r → Wishes P MOST_LOCAL_STEPS r.state result }
    {
        let line = &mut self.lines[task as usize];
        line.task.advance(code, MOST_LOCAL_STEPS)
    }

    /// The place of one of these tasks that has not ended.
    fn running_among(&self, tasks: &[u32]) -> Option<usize>
        ensures { MatchOption result (HaveEnded self.now.lines tasks.now) (λ i. RunsStill self.now.lines tasks.now i) }
    {
        let mut left = tasks.len();
        while left > 0 {
            left -= 1;
            if self.value_of(tasks[left]).is_none() {
                return Some(left);
            }
        }
        None
    }

    /// The value with which a task has ended.
    fn value_of(&self, task: u32) -> Option<Value>
        ensures { result ≡ value_at self.now.lines task }
    {
        match self.lines.get(task as usize) {
            Some(line) => line.value,
            None => None,
        }
    }

    /// What a wish waits for: the children of its task, as `Some(None)`, or a future.
    pub fn waits(&self, task: u32, wish: Wish) -> Option<Option<u32>>
        requires exists { task < length self.now.lines }
        ensures { (P : tree.Program) (code : Compiled) (h : List Event) (m : Machine) (r : Running)
            → IsReplayOf P code h self.now m → slice_get m.tasks task ≡ Some r
            → MatchOption result (IsFree m r wish) (λ future. IsBarred m r wish future) }
    {
        match wish {
            Wish::Sync => {
                let block = self.lines[task as usize].block.as_slice();
                match self.running_among(block) {
                    None => None,
                    Some(_) => Some(None),
                }
            }
            Wish::Get { future } => match self.value_of(future) {
                Some(_) => None,
                None => Some(Some(future)),
            },
            Wish::Read { .. }
            | Wish::Write { .. }
            | Wish::Spawn { .. }
            | Wish::Create { .. }
            | Wish::End { .. }
            | Wish::Long => None,
        }
    }

    /// The arguments of the task that a task wishes to begin.
    fn args(&self, code: &Code, task: u32) -> Result<Args, NoMemory>
        requires known { IsSomeReplay code.now self.now }
        requires still { StillAt code.now self.now.lines task }
        ensures { (P : tree.Program) (h : List Event) (m : Machine) (r : Running) (stop : TaskState) (which : ℕ)
            (args : List Carried) → IsReplayOf P code.now h self.now m → slice_get m.tasks task ≡ Some r → StandsAt r.state stop
            → (wish_of P stop ≡ ToSpawn which args) ⊎ (wish_of P stop ≡ ToCreate which args) → IfOk result (λ a. a.items ≡ args) }
    {
        self.lines[task as usize].task.args(self.alloc, code)
    }

    /// The act that answers a wish which waits for nothing.
    pub(crate) fn act_of(&self, code: &Code, task: u32, wish: Wish) -> Result<Act, NoMemory>
        requires known { IsSomeReplay code.now self.now }
        requires still { StillAt code.now self.now.lines task }
        requires event { IsEvent wish }
        requires few { length self.now.lines < 2 ^ 32 }
        requires made { self.now.strands + 2 ≤ 2 ^ 32 }
        ensures { (P : tree.Program) (h : List Event) (m : Machine) (r : Running) → IsReplayOf P code.now h self.now m
            → slice_get m.tasks task ≡ Some r → Wishes P MOST_LOCAL_STEPS r.state wish → IsFree m r wish
            → IfOk result (λ act. CanAct P m r (action_of act)) }
    {
        let strand = self.strands as u32;
        let child = self.lines.len() as u32;
        match wish {
            Wish::Read { cell } => Ok(Act::Read {
                cell,
                value: self.cell(cell),
            }),
            Wish::Write { cell, value } => Ok(Act::Write { cell, value }),
            Wish::Spawn { which } => Ok(Act::Spawn {
                code: which,
                child,
                kid: strand,
                cont: strand + 1,
                args: self.args(code, task)?,
            }),
            Wish::Create { which } => Ok(Act::Create {
                code: which,
                child,
                kid: strand,
                cont: strand + 1,
                args: self.args(code, task)?,
            }),
            Wish::Sync => Ok(Act::Sync { strand }),
            Wish::Get { future } => Ok(Act::Get {
                future,
                value: self.got(future),
                strand,
            }),
            Wish::End { value } => Ok(Act::End { value }),
            Wish::Long => unreachable!(),
        }
    }

    /// The value of a cell; 0 where there is no such cell.
    fn cell(&self, cell: u32) -> i64
        ensures { (value : ℤ) → slice_get self.now.cells cell ≡ Some value → result ≡ value }
    {
        match self.cells.get(cell as usize) {
            Some(value) => *value,
            None => 0,
        }
    }

    /// The value of a future; 0 while it has none.
    fn got(&self, future: u32) -> Value
        ensures { (value : Carried) → value_at self.now.lines future ≡ Some value → result ≡ value }
    {
        match self.value_of(future) {
            Some(value) => value,
            None => Value::Int(0),
        }
    }

    /// Takes an act of a task, after fewer than 2^29 entries. What may want memory comes first, and the finder last of it.
    pub(crate) fn take(&mut self, code: &Code, task: u32, act: Act) -> Result<Entry, NoMemory>
        requires legal { IsLegalAct code.now self.old task (action_of act) }
        requires exists { task < length self.old.lines }
        requires still { StillAt code.now self.old.lines task }
        requires few { self.old.entries < 2 ^ 29 }
        requires created { self.old.creates + 1 < 2 ^ 32 }
        requires made { self.old.strands + 2 < 2 ^ 64 }
        ensures taken { IfOk result (λ entry. Takes code.now self.old self.new task (action_of act) (event_of entry)) }
        ensures unchanged { OnErr result (StandsStill code.now self.old self.new) }
    {
        let place = task as usize;
        let strand = self.lines[place].strand;
        let child = begin_child(self.alloc, code, self.lines[place].future, &act)?;
        let own = copy_of(self.alloc, task, strand, &act)?;
        give_room(&mut self.lines, code, place)?;
        self.ready.reserve()?;
        self.finder.take(&own)?;
        self.ready.reorder(task, &act);
        write(&mut self.cells, &act);
        self.strands += strands_of(&act);
        self.creates += creates_of(&act);
        let ticket = self.entries;
        self.entries += 1;
        let entry = Entry { task, strand, act };
        commit(&mut self.lines, code, place, ticket, entry, child);
        Ok(own)
    }

    /// Makes the event of a task whose wish waits for nothing.
    fn go(&mut self, code: &Code, task: u32, wish: Wish) -> Result<Entry, NoMemory>
        requires free { IsFreeWish code.now self.old task wish }
        requires still { StillAt code.now self.old.lines task }
        requires event { IsEvent wish }
        requires few { self.old.entries < 2 ^ 29 }
        ensures made { (P : tree.Program) (h : List Event) (m : Machine) (r : Running) → IsReplayOf P code.now h self.old m
            → IsRunning m task r → Wishes P MOST_LOCAL_STEPS r.state wish → IsFree m r wish
            → IfOk result (λ entry. Goes P code.now h m task wish (event_of entry) self.new) }
        ensures unchanged { OnErr result (StandsStill code.now self.old self.new) }
    {
        let act = self.act_of(code, task, wish)?;
        self.take(code, task, act)
    }

    /// Whether a wish is to create a future, and as many were created as may be.
    fn is_full(&self, limits: Limits, wish: Wish) -> bool
        ensures full { result ≡ true → (is_create wish ≡ true) × (limits.futures ≤ self.now.creates) }
        ensures few { result ≡ false → is_create wish ≡ true → self.now.creates < limits.futures }
    {
        match wish {
            Wish::Create { .. } => self.creates >= limits.futures,
            Wish::Read { .. }
            | Wish::Write { .. }
            | Wish::Spawn { .. }
            | Wish::Sync
            | Wish::Get { .. }
            | Wish::End { .. }
            | Wish::Long => false,
        }
    }

    /// Why a task that wishes this makes no event now.
    fn bar(&self, limits: Limits, task: u32, wish: Wish) -> Option<Next>
        requires exists { task < length self.now.lines }
        ensures { (P : tree.Program) (code : Compiled) (h : List Event) (m : Machine) (r : Running)
            → IsReplayOf P code h self.now m → IsRunning m task r → Wishes P MOST_LOCAL_STEPS r.state wish
            → MatchOption result (MayGo limits h m r wish) (λ next. IsBar P limits h m task next) }
    {
        if is_long(wish) {
            return Some(Next::Spent {
                finish: Finish::Local { task },
            });
        }
        if self.is_full(limits, wish) {
            return Some(Next::Spent {
                finish: Finish::Futures { task },
            });
        }
        if let Some(future) = self.waits(task, wish) {
            return Some(Next::Waits { future });
        }
        if self.entries >= limits.events {
            return Some(Next::Spent {
                finish: Finish::Events {
                    bound: limits.events,
                },
            });
        }
        None
    }

    /// Makes the next event of a task.
    ///
    /// `Idle` exactly where the task does not exist or has ended. Else `Spent` with `Local` exactly where it is out of
    /// steps, with `Futures` exactly where it wishes to create and `limits.futures` creates were made. Else `Waits`
    /// exactly where its wish is not allowed, with the future of a get, and `Spent` with `Events` exactly where it is
    /// allowed and `limits.events` entries were made. `NoMemory` is want of memory. Only `Made` changes the run.
    pub fn event(&mut self, code: &Code, limits: Limits, task: u32) -> Next
        requires known { IsSomeReplay code.now self.old }
        requires local { limits.local_steps ≡ MOST_LOCAL_STEPS }
        requires events { limits.events ≤ MOST_ENTRIES }
        ensures { (P : tree.Program) (h : List Event) (m : Machine) → IsReplayOf P code.now h self.old m → IsNext P code.now limits h m task self.new result }
    {
        if !self.runs(task) {
            return Next::Idle;
        }
        let wish = self.ask(code, task);
        if let Some(next) = self.bar(limits, task, wish) {
            return next;
        }
        match self.go(code, task, wish) {
            Ok(entry) => Next::Made { entry },
            Err(_) => Next::NoMemory,
        }
    }
}
