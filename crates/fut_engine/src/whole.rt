//! The value behind the one event lock.
ghost use Rattle.std.specs.Prelude.{◌≡◌, [], ◌∷◌, None, IfOk};
ghost use Rattle.fut_base.specs.Events.{events_of};
ghost use Rattle.fut_base.specs.Racing.{IsReport};
ghost use Rattle.fut_syntax.specs.Trees as tree;
ghost use Rattle.fut_check.specs.Items.{IsWellTyped};
ghost use Rattle.task_code.specs.Flat.{IsCodeOf};
ghost use Rattle.run_replay.specs.Serials.{IsNeverStuck};
ghost use Rattle.fut_engine.specs.Going.{GoesFirst};
ghost use Rattle.fut_engine.specs.Runs.{IsRun};
ghost use Rattle.fut_engine.specs.Seats.{new_seat};
ghost use Rattle.fut_engine.specs.Turns.{AlwaysTurns};
ghost use Rattle.fut_engine.specs.Wholes.{IsNamed};

use crate::made::Made;
use crate::naming::Naming;
use crate::rest::go_on_alone;
use crate::seat::{Seat, seat_of};
use crate::turn::turn;
use fut_base::list::NoMemory;
use fut_base::record::{History, Limits, Ran};
use run_replay::replay::Replay;
use std::alloc::Global;
use std::marker::{Model, PhantomData};
use task_code::code::Code;

/// A run so far. Contracts see its events, and the places where its tasks wait.
#[derive(Drop)]
pub struct Whole<J: Naming> {
    alloc: Global,
    limits: Limits,
    run: Replay,
    history: History,
    seats: Vec<Seat>,
    of: PhantomData<J>,
}

impl<J: Naming> Model for Whole<J> {
    ghost use Rattle.fut_base.specs.Events.{events_of};
    ghost use Rattle.fut_engine.specs.Turns.{WholeNow};
    ghost use Rattle.fut_engine.specs.Wholes.{IsKept};

    ghost Value = { WholeNow };

    ghost view = { λ w. record { history = events_of w.history; seats = w.seats.items } };

    ghost invariant = { λ w. IsKept J.code J.limits w.limits (events_of w.history) w.run w.seats.items };
}

impl<J: Naming> Whole<J> {
    /// The opening state, and an empty history.
    pub fn make(alloc: Global, code: &Code, limits: Limits) -> Result<Whole<J>, NoMemory>
        requires code { code.now ≡ J.code }
        requires limits { limits ≡ J.limits }
        requires name { IsNamed code.now limits }
        ensures { IfOk result (λ whole. (whole.history ≡ []) × (whole.seats ≡ new_seat None ∷ [])) }
    {
        let run = Replay::start(alloc, code)?;
        let mut seats = Vec::new(alloc);
        seats.push(seat_of(alloc, None))?;
        Ok(Whole {
            alloc,
            limits,
            run,
            history: History::make(alloc),
            seats,
            of: PhantomData,
        })
    }

    /// The turn of a task.
    ///
    /// `Idle` exactly where the task does not exist, has ended or waits. Else `Went` adds one entry of the task to the
    /// history, `Parked` comes exactly where its wish is a sync or a get that is not allowed, and it waits from then on,
    /// `Spent` with `Local` exactly where it is out of steps, with `Futures` exactly where it wishes to create and the
    /// history has `limits.futures` creates, and with `Events` exactly where neither holds, the wish is allowed and the
    /// history has `limits.events` entries. `Idle`, `Spent` and `NoMemory` change nothing.
    pub fn event(&mut self, code: &Code, task: u32) -> Made
        requires code { code.now ≡ J.code }
        ensures { AlwaysTurns code.now J.limits self.old task self.new result }
    {
        turn(
            self.alloc,
            &mut self.run,
            &mut self.history,
            &mut self.seats,
            code,
            self.limits,
            task,
        )
    }

    /// The first task, in English order, of those that have not ended makes the next event, again and again, until every
    /// task has ended or an event is spent.
    pub fn rest(self, code: &Code) -> Result<Ran, NoMemory>
        requires code { code.now ≡ J.code }
        ensures run { IfOk result
            (λ ran. (P : tree.Program) → IsWellTyped P → IsCodeOf P code.now → IsRun P J.limits (events_of ran.history) ran.finish ran.cells.items) }
        ensures goes { IfOk result (λ ran. (P : tree.Program) → IsWellTyped P → IsCodeOf P code.now → GoesFirst P self.history (events_of ran.history)) }
        ensures races { IfOk result (λ ran. IsReport (events_of ran.history) ran.races.items) }
        ensures never_stuck { IfOk result (λ ran. (P : tree.Program) → IsWellTyped P → IsCodeOf P code.now → IsNeverStuck P (events_of ran.history)) }
    {
        let Whole {
            alloc,
            limits,
            run,
            history,
            ..
        } = self;
        go_on_alone(alloc, run, history, code, limits)
    }
}
