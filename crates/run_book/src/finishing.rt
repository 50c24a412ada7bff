//! The end of a book.
ghost use Rattle.std.specs.Prelude.{◌≡◌, ◌+◌, [], length, MatchOption};
ghost use Rattle.run_book.specs.Books.{IsBook, HasTakenLine, given_to, taken_from, HasGatheredAll};

use crate::book::Book;
use crate::job::Job;
use crate::line::Line;
use event_clock::clock::Holder;
use fut_base::ready::Ready;
use fut_base::record::Value;
use order_query::Writer;
use run_counts::{Counts, Hand};
use run_names::Run;
use std::alloc::Global;
use std::marker::Model;
use task_machine::trace::Trace;

/// What a book had: the traces of the tasks that have ended, the jobs that waited, its holder and its writer; and how many jobs
/// are with workers.
#[derive(Drop)]
pub struct Gathered<J: Run> {
    pub traces: Ready<Trace>,
    pub parked: Parked<J>,
    pub holder: Holder,
    pub writer: Writer,
    pub running: u32,
}

/// The lines of a book's tasks, each with the jobs that waited there. Contracts see the lines.
#[derive(Drop)]
pub struct Parked<J: Run> {
    alloc: Global,
    lines: Vec<Line<J>>,
}

impl<J: Run> Model for Parked<J> {
    ghost use Rattle.std.specs.Prelude.{List};
    ghost use Rattle.run_book.specs.Lines.{LineNow};
    ghost use Rattle.run_book.specs.Books.{AreOpen};

    ghost Value = { List LineNow };

    ghost view = { λ p. p.lines.items };

    ghost invariant = { λ p. AreOpen p.lines.items };
}

impl<J: Run> Parked<J> {
    /// Takes the last task's line: its own job, where that waited, and those that waited for its value. `None` exactly where no line is
    /// left. It takes no memory.
    pub fn pop(&mut self) -> Option<(Option<Job<J>>, Ready<Job<J>>)>
        ensures { MatchOption result ((self.old ≡ []) × (self.new ≡ [])) (λ r. HasTakenLine self.old self.new r.0 r.1.items) }
    {
        let line = self.lines.pop()?;
        Some(line.into_waiting(self.alloc))
    }
}

/// These hands come back.
fn gather_all<J: Run>(counts: &mut Counts<J>, hands: Ready<Hand<J>>)
    ensures { HasGatheredAll counts.old hands.items counts.new }
{
    let mut hands = hands;
    while let Some(hand) = hands.pop() {
        counts.gather(hand);
    }
}

impl<J: Run> Book<J> {
    /// What is known of a book by its type.
    pub fn is_kept(&self)
        ensures { IsBook J.clock J.orders J.code J.limits self.now }
    {
        let _ = &self.holder;
    }

    /// What the book had, where all its hands came back.
    pub fn finish(self, hands: Ready<Hand<J>>) -> Gathered<J>
        requires { self.counts.rest.parts + length hands.items ≡ J.hands }
        ensures traces { result.traces.items ≡ self.traces }
        ensures parked { result.parked ≡ self.lines }
        ensures seats { (result.holder ≡ self.holder) × (result.writer ≡ self.writer) }
        ensures running { result.running + taken_from hands.items ≡ 1 + given_to hands.items }
        ensures counted { result.running ≡ self.counts.running }
    {
        let Book {
            alloc,
            limits: _,
            holder,
            writer,
            lines,
            traces,
            creates: _,
            mut counts,
            first: _,
        } = self;
        gather_all(&mut counts, hands);
        Gathered {
            traces,
            parked: Parked { alloc, lines },
            holder,
            writer,
            running: counts.finish(),
        }
    }
}
