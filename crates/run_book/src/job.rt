//! Jobs: tasks that go from worker to worker.
ghost use Rattle.std.specs.Prelude.{◌≡◌};
ghost use Rattle.run_book.specs.Steps.{AsksFor, IsSameTask};

use fut_base::limits::MOST_LOCAL_STEPS;
use run_counts::Pace;
use run_names::Run;
use run_place::Place;
use std::marker::Model;
use task_code::code::Code;
use task_code::task::{Task, Wish};

/// A task that has not ended, where it stands, and its pace.
#[derive(Drop)]
pub struct Job<J: Run> {
    pub task: Task,
    pub place: Place<J>,
    pub pace: Pace<J>,
}

impl<J: Run> Model for Job<J> {
    ghost use Rattle.run_book.specs.Jobs.{JobNow, IsJob};

    ghost Value = { JobNow };

    ghost view = { λ j. record { task = j.task; place = j.place; pace = j.pace } };

    ghost invariant = { λ j. IsJob J.clock J.orders J.code (record { task = j.task; place = j.place; pace = j.pace }) };
}

impl<J: Run> Job<J> {
    /// Its task makes local steps up to its next event, and what it wishes there, of which the calls of the book and of a shard ask
    /// that it stands at it; or `Long`, where it has made as many as it may. It takes no memory.
    pub fn wish(self, code: &Code) -> (Job<J>, Wish)
        requires { code.now ≡ J.code }
        ensures task { IsSameTask self.task result.0.task }
        ensures place { (result.0.place ≡ self.place) × (result.0.pace ≡ self.pace) }
        ensures asks { AsksFor J.code result.0 result.1 }
    {
        let mut job = self;
        let wish = job.task.advance(code, MOST_LOCAL_STEPS);
        (job, wish)
    }
}
