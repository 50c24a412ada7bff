//! Tasks.
ghost use Rattle.std.specs.Prelude.{◌≡◌, ℕ, ◌+◌, ◌<◌, ◌≤◌, ◌^◌, Bool, false, List, [], ◌∷◌, ◌++◌, slice_get, IfOk, OnOk, OnErr, MatchOption, None, Some};
ghost use Rattle.std.specs.Option.{option_copied};
ghost use Rattle.fut_base.specs.declared.limits.TheConstants.{MOST_LOCAL_STEPS};
ghost use Rattle.fut_base.specs.declared.record.Value.{Value as Carried};
ghost use Rattle.fut_base.specs.Events.{action_of};
ghost use Rattle.fut_syntax.specs.Trees as tree;
ghost use Rattle.task_machine.specs.State.{TaskState, ToSpawn, ToCreate, start_state, wish_of, effect_of, Answers};
ghost use Rattle.task_machine.specs.Runs.{StandsAt};
ghost use Rattle.task_types.specs.Typed.{ArgsFit, ActionFits, any_future};
ghost use Rattle.task_code.specs.Flat.{IsCodeOf, code_of};
ghost use Rattle.task_code.specs.Tasks.{IsTaskOf, IsSomeTask, IsStill, StopsAt, Wishes, Turned, Told};
ghost use Rattle.task_code.specs.Tasks.{spot_after, slots_after, instruction_of, open_after, ended_after};

use crate::code::Code;
use crate::starting::frame_at;
use crate::steps::{ending, passed, step, take, wish};
use fut_base::list::NoMemory;
use fut_base::record::{Act, Args, Entry, Value};
use std::alloc::Global;
use std::marker::Model;
use task_frame::frame::Frame;
use task_machine::trace::Trace;

/// What a task wishes to do next.
#[derive(Clone, Copy, Debug, PartialEq, Eq)]
pub enum Wish {
    /// To read the cell of this number.
    Read { cell: u32 },
    Write { cell: u32, value: i64 },
    /// To spawn the task at this place of the text.
    Spawn { which: u32 },
    /// To create a future with the task at this place of the text.
    Create { which: u32 },
    Sync,
    /// To get the value of this future.
    Get { future: u32 },
    End { value: Value },
    /// It made as many local steps in a row as it may.
    Long,
}

/// Where a task stands: the place of its next instruction, whether it has spawned a child since its last sync, whether it has
/// ended, and how many local steps it has made since its last entry.
#[derive(Clone, Copy, Debug)]
pub struct Spot {
    pub place: u32,
    pub is_open: bool,
    pub ended: bool,
    pub steps: u32,
}

/// A task of a run. It runs one task of the text, and has made at most 1,000,000 local steps since its last entry.
#[derive(Drop)]
pub struct Task {
    number: u32,
    which: u32,
    spot: Spot,
    frame: Frame,
    trace: Trace,
}

impl Model for Task {
    ghost use Rattle.std.specs.Prelude.{◌≤◌};
    ghost use Rattle.fut_base.specs.declared.limits.TheConstants.{MOST_LOCAL_STEPS};
    ghost use Rattle.task_code.specs.Tasks.{TaskNow};

    ghost Value = { TaskNow };

    ghost view = { λ t. record { number = t.number; which = t.which; spot = t.spot; held = t.frame; trace = t.trace } };

    ghost invariant = { λ t. t.spot.steps ≤ MOST_LOCAL_STEPS };
}

impl Task {
    /// The task of this number, which begins task `which` of the text.
    pub fn start(
        alloc: Global,
        code: &Code,
        number: u32,
        which: u32,
        args: &Args,
    ) -> Result<Task, NoMemory>
        ensures begins { IfOk result (λ t. (t.number ≡ number) × (t.which ≡ which) × (t.spot.ended ≡ false) × (t.trace.items ≡ [])) }
        ensures state { IfOk result (λ t. (P : tree.Program) → IsCodeOf P code.now → ArgsFit any_future P which args.now.items
            → IsTaskOf P code.now args.now.items t (start_state P which args.now.items)) }
    {
        let frame = frame_at(alloc, code, which, args.as_slice())?;
        Ok(Task {
            number,
            which,
            spot: Spot {
                place: code.entry(which),
                is_open: false,
                ended: false,
                steps: 0,
            },
            frame,
            trace: Trace::make(alloc),
        })
    }

    /// Makes room for one more entry in the trace.
    pub fn reserve(&mut self) -> Result<(), NoMemory>
        ensures task { (self.new.number ≡ self.old.number) × (self.new.which ≡ self.old.which) × (self.new.spot ≡ self.old.spot)
            × (self.new.held ≡ self.old.held) }
        ensures trace { self.new.trace.items ≡ self.old.trace.items }
        ensures room { OnOk result (1 ≤ self.new.trace.spare) }
        ensures unchanged { OnErr result (self.new ≡ self.old) }
    {
        self.trace.reserve()
    }

    /// Makes local steps up to the next event, and tells what the task wishes there; `Long` exactly where the first `limit`
    /// statements since its last entry, or since its start, are all local. It takes no memory.
    pub fn advance(&mut self, code: &Code, limit: u32) -> Wish
        requires running { self.old.spot.ended ≡ false }
        requires task { IsSomeTask code.now self.old }
        requires most { limit ≤ MOST_LOCAL_STEPS }
        ensures task { (self.new.number ≡ self.old.number) × (self.new.which ≡ self.old.which) × (self.new.spot.ended ≡ false) }
        ensures trace { self.new.trace ≡ self.old.trace }
        ensures state { (P : tree.Program) (args : List Carried) (s : TaskState) → IsCodeOf P code.now
            → IsTaskOf P code.now args self.old s → IsTaskOf P code.now args self.new s }
        ensures stops { StopsAt code.now self.new result }
        ensures wish { (P : tree.Program) (args : List Carried) (s : TaskState) → IsCodeOf P code.now
            → IsTaskOf P code.now args self.old s → Wishes P limit s result }
    {
        for _ in self.spot.steps..limit {
            if let Some(wish) = self.turn(code) {
                return wish;
            }
        }
        Wish::Long
    }

    /// Makes one local step; where it stands at an event, it tells the wish instead.
    fn turn(&mut self, code: &Code) -> Option<Wish>
        requires running { self.old.spot.ended ≡ false }
        requires task { IsSomeTask code.now self.old }
        requires few { self.old.spot.steps < MOST_LOCAL_STEPS }
        ensures { MatchOption result (Turned code.now self.old self.new) (λ w. (self.new ≡ self.old) × Told code.now self.old w) }
    {
        match code.instruction(self.which, self.spot.place) {
            Some(instruction) => match step(&mut self.frame, instruction) {
                Some(next) => {
                    self.spot.place = next;
                    self.spot.steps += 1;
                    None
                }
                None => match wish(&self.frame, code.arrays(), instruction, self.spot.is_open) {
                    Some(wish) => Some(wish),
                    None => unreachable!(),
                },
            },
            None => Some(ending(self.spot.is_open, Value::Int(0))),
        }
    }

    /// The argument values of the spawn or the create at which the task stands.
    pub fn args(&self, alloc: Global, code: &Code) -> Result<Args, NoMemory>
        requires running { self.now.spot.ended ≡ false }
        requires still { IsStill code.now self.now }
        ensures spawn { (P : tree.Program) (given : List Carried) (s t : TaskState) (which : ℕ) (args : List Carried)
            → IsCodeOf P code.now → IsTaskOf P code.now given self.now s → StandsAt s t → wish_of P t ≡ ToSpawn which args
            → IfOk result (λ a. a.items ≡ args) }
        ensures create { (P : tree.Program) (given : List Carried) (s t : TaskState) (which : ℕ) (args : List Carried)
            → IsCodeOf P code.now → IsTaskOf P code.now given self.now s → StandsAt s t → wish_of P t ≡ ToCreate which args
            → IfOk result (λ a. a.items ≡ args) }
    {
        match code.instruction(self.which, self.spot.place) {
            Some(instruction) => passed(alloc, &self.frame, instruction),
            None => Ok(Args::make(alloc)),
        }
    }

    /// Takes an entry of this task that answers its wish.
    pub fn feed(&mut self, code: &Code, ticket: u32, entry: Entry)
        requires { 1 ≤ self.old.trace.spare }
        ensures task { (self.new.number ≡ self.old.number) × (self.new.which ≡ self.old.which) }
        ensures spot { self.new.spot ≡ spot_after self.old.spot (instruction_of code.now self.old) (action_of entry.act) }
        ensures held { (self.new.held.slots ≡ slots_after self.old.held (instruction_of code.now self.old) (action_of entry.act))
            × (self.new.held.rooms ≡ self.old.held.rooms) }
        ensures trace { self.new.trace.items ≡ self.old.trace.items ++ (ticket, entry) ∷ [] }
        ensures room { self.new.trace.spare + 1 ≡ self.old.trace.spare }
        ensures state { (P : tree.Program) (args : List Carried) (s t : TaskState) → IsCodeOf P code.now
            → IsStill code.now self.old → IsTaskOf P code.now args self.old s → self.old.spot.ended ≡ false → StandsAt s t
            → Answers (wish_of P t) (action_of entry.act) → ActionFits any_future P self.old.which t (action_of entry.act)
            → IsTaskOf P code.now args self.new (effect_of t (action_of entry.act)) }
    {
        self.take_in(code, &entry.act);
        self.trace.push(ticket, entry);
    }

    /// Takes what an act gives it, and goes on behind the instruction at which it stands.
    fn take_in(&mut self, code: &Code, act: &Act)
        ensures task { (self.new.number ≡ self.old.number) × (self.new.which ≡ self.old.which) × (self.new.trace ≡ self.old.trace) }
        ensures spot { self.new.spot ≡ spot_after self.old.spot (instruction_of code.now self.old) (action_of act.now) }
        ensures slots { self.new.held.slots ≡ slots_after self.old.held (instruction_of code.now self.old) (action_of act.now) }
        ensures rooms { self.new.held.rooms ≡ self.old.held.rooms }
    {
        if let Some(instruction) = code.instruction(self.which, self.spot.place) {
            self.spot.place = take(&mut self.frame, instruction, self.spot.place, act);
        }
        self.spot = spot_behind(self.spot, act);
    }

    /// The number with which it was started.
    pub fn number(&self) -> u32
        ensures { result ≡ self.now.number }
    {
        self.number
    }

    pub fn ended(&self) -> bool
        ensures { result ≡ self.now.spot.ended }
    {
        self.spot.ended
    }

    pub fn trace(&self) -> &Trace
        ensures { result.now ≡ self.now.trace }
    {
        &self.trace
    }

    pub fn into_trace(self) -> Trace
        ensures { result ≡ self.trace }
    {
        self.trace
    }
}

/// Where a task stands after an act, at a place that is known.
fn spot_behind(spot: Spot, act: &Act) -> Spot
    ensures { result ≡ record {
      place = spot.place;
      is_open = open_after spot.is_open (action_of act.now);
      ended = ended_after spot.ended (action_of act.now);
      steps = 0;
    } }
{
    let is_open = match act {
        Act::Spawn { .. } => true,
        Act::Sync { .. } => false,
        Act::Read { .. }
        | Act::Write { .. }
        | Act::Create { .. }
        | Act::Get { .. }
        | Act::End { .. } => spot.is_open,
    };
    let ended = match act {
        Act::End { .. } => true,
        Act::Read { .. }
        | Act::Write { .. }
        | Act::Spawn { .. }
        | Act::Create { .. }
        | Act::Sync { .. }
        | Act::Get { .. } => spot.ended,
    };
    Spot {
        place: spot.place,
        is_open,
        ended,
        steps: 0,
    }
}
