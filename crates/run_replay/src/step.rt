//! A given event made by a run.
ghost use Rattle.std.specs.Prelude.{◌<◌, ◌^◌, List};
ghost use Rattle.fut_base.specs.declared.event.Event.{Event};
ghost use Rattle.fut_base.specs.Events.{event_of};
ghost use Rattle.fut_syntax.specs.Trees as tree;
ghost use Rattle.task_machine.specs.Machine.{Machine};
ghost use Rattle.run_replay.specs.Replays.{IsReplayOf, IsSomeReplay};
ghost use Rattle.run_replay.specs.Steps.{IsStepped};

use crate::replay::{Replay, is_long};
use fut_base::acts::same_act;
use fut_base::record::Entry;
use task_code::code::Code;

/// Why an event was not made.
#[derive(Clone, Copy, Debug, PartialEq, Eq, thiserror::Error)]
pub enum StepStop {
    /// No step of the definition is this event now.
    #[error("not legal")]
    NotLegal,
    #[error("no memory")]
    NoMemory,
}

impl Replay {
    /// Makes this event, after fewer than 2^29 entries.
    ///
    /// Where it is made it is a step of the definition; where it is `NotLegal`, no step is this event. An `Err` changes nothing.
    pub fn step(&mut self, code: &Code, entry: &Entry) -> Result<(), StepStop>
        requires known { IsSomeReplay code.now self.old }
        requires few { self.old.entries < 2 ^ 29 }
        ensures { (P : tree.Program) (h : List Event) (m : Machine) → IsReplayOf P code.now h self.old m
            → IsStepped P code.now h m (event_of entry.now) self.new result }
    {
        let task = entry.task;
        if !self.runs(task) {
            return Err(StepStop::NotLegal);
        }
        if !self.is_on(task, entry.strand) {
            return Err(StepStop::NotLegal);
        }
        let wish = self.ask(code, task);
        if is_long(wish) {
            return Err(StepStop::NotLegal);
        }
        if let Some(_) = self.waits(task, wish) {
            return Err(StepStop::NotLegal);
        }
        let Ok(act) = self.act_of(code, task, wish) else {
            return Err(StepStop::NoMemory);
        };
        if !same_act(&act, &entry.act) {
            return Err(StepStop::NotLegal);
        }
        match self.take(code, task, act) {
            Ok(_) => Ok(()),
            Err(_) => Err(StepStop::NoMemory),
        }
    }
}
