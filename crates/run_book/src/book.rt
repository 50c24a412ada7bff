//! The book, how it begins, and what its calls have in common.
ghost use Rattle.std.specs.Prelude.{◌≡◌, ℕ, List, ◌+◌, ◌≤◌, ◌<◌, ◌^◌, [], ◌∷◌, length, None, IfOk, IfErr, OnErr};
ghost use Rattle.fut_base.specs.Events.{action_of, event_of};
ghost use Rattle.fut_syntax.specs.Trees as tree;
ghost use Rattle.fut_check.specs.Items.{IsWellTyped};
ghost use Rattle.task_code.specs.Flat.{IsCodeOf};
ghost use Rattle.event_clock.specs.Rule.{IsJoin};
ghost use Rattle.event_clock.specs.Rule.{IsPrefix};
ghost use Rattle.event_clock.specs.Views.{carries, numbers_of, number_of, after_note, noted};
ghost use Rattle.order_query.specs.Logs.{StartsWith};
ghost use Rattle.fut_base.specs.Sound.{IsSound};
ghost use Rattle.strand_tree.specs.Placing.{AreOrders, IsStrandOf};
ghost use Rattle.reach_table.specs.Telling.{HasTable};
ghost use Rattle.fut_base.specs.declared.event.Event.{Event};
ghost use Rattle.run_place.specs.Placed.{AreAlike, book_of, events_in};
ghost use Rattle.run_book.specs.Jobs.{IsJob, MayRelease};
ghost use Rattle.run_book.specs.Books.{entries_of, IsNewBook, IsFirstHolder, IsFirstWriter, AllNew, HasCutMany};

use crate::job::Job;
use crate::line::{Line, line_of};
use event_clock::clock::{Clock, Holder};
use fut_base::list::NoMemory;
use fut_base::ready::Ready;
use fut_base::record::{Act, Args, Entry, Limits};
use order_query::{Orders, Reader, Writer};
use reach_table::Reach;
use run_counts::{Counts, Hand, Pace};
use run_names::Run;
use run_place::Place;
use std::alloc::Global;
use std::marker::Model;
use std::sync::ledger::Blank;
use strand_tree::Strand;
use task_code::code::Code;
use task_code::task::Task;
use task_machine::trace::Trace;

/// The structural events so far: the holder that drew them, the two orders of their strands, a line for each task, the traces
/// of those that have ended, how many futures were created, and the counts; with the pace of the root task until it is given out.
#[derive(Drop)]
pub struct Book<J: Run> {
    pub(crate) alloc: Global,
    pub(crate) limits: Limits,
    pub(crate) holder: Holder,
    pub(crate) writer: Writer,
    pub(crate) lines: Vec<Line<J>>,
    pub(crate) traces: Ready<Trace>,
    pub(crate) creates: u32,
    pub(crate) counts: Counts<J>,
    pub(crate) first: Option<Pace<J>>,
}

impl<J: Run> Model for Book<J> {
    ghost use Rattle.run_book.specs.Books.{BookNow, IsBook};

    ghost Value = { BookNow };

    ghost view = { λ b. record {
      limits = b.limits;
      holder = b.holder;
      writer = b.writer;
      lines = b.lines.items;
      traces = b.traces.items;
      creates = b.creates;
      counts = b.counts;
      first = b.first;
    } };

    ghost invariant = { λ b. IsBook J.clock J.orders J.code J.limits (record {
      limits = b.limits;
      holder = b.holder;
      writer = b.writer;
      lines = b.lines.items;
      traces = b.traces.items;
      creates = b.creates;
      counts = b.counts;
      first = b.first;
    }) };
}

/// A job out of which the pass was taken, for the time in which the book has its task.
#[derive(Drop)]
pub struct Held<J: Run> {
    pub task: Task,
    pub at: Strand,
    pub reach: Reach,
    pub reader: Reader,
    pub pace: Pace<J>,
}

impl<J: Run> Book<J> {
    /// The book of a run in which the root task has not been given out, and as many hands as are asked for.
    pub fn make(
        alloc: Global,
        limits: Limits,
        holder: Holder,
        writer: Writer,
        hands: u32,
        blanks: (Blank, Blank, Blank),
    ) -> Result<(Book<J>, Ready<Hand<J>>), NoMemory>
        requires limits { (limits ≡ J.limits) × (J.clock.size.bound ≡ J.limits.events) × (J.limits.events + 1 < 2 ^ 31) }
        requires holder { IsFirstHolder J.clock holder }
        requires writer { IsFirstWriter J.orders J.limits.events writer }
        requires names { (blanks.0.name ≡ J.given) × (blanks.1.name ≡ J.taken) × (blanks.2.name ≡ J.paces) }
        requires parts { (blanks.0.parts ≡ J.hands) × (blanks.1.parts ≡ J.hands) × (blanks.2.parts ≡ J.places) }
        requires some { (hands + 1 ≤ J.hands) × (J.limits.events + 3 ≤ J.places) }
        ensures book { IfOk result (λ r. IsNewBook r.0 × (r.0.counts.rest.parts + hands ≡ J.hands)) }
        ensures hands { IfOk result (λ r. (length r.1.items ≡ hands) × AllNew r.1.items) }
    {
        let (given, taken, paces) = blanks;
        let (mut counts, pace) = Counts::open(given, taken, paces);
        let all = cut_hands(alloc, &mut counts, hands)?;
        let mut lines = Vec::new(alloc);
        lines.push(line_of(alloc, None))?;
        let book = Book {
            alloc,
            limits,
            holder,
            writer,
            lines,
            traces: Ready::make(alloc),
            creates: 0,
            counts,
            first: Some(pace),
        };
        Ok((book, all))
    }

    /// The job of the root task, of a new book.
    pub fn root(&mut self, clock: &Clock, orders: &Orders, code: &Code) -> Result<Job<J>, NoMemory>
        requires run { (clock.now ≡ J.clock) × (orders.now ≡ J.orders) × (code.now ≡ J.code) }
        requires program { (P : tree.Program) × IsWellTyped P × IsCodeOf P J.code }
        requires new { IsNewBook self.old }
        ensures job { IfOk result (λ job. (job.task.number ≡ 0) × (job.task.trace.items ≡ []) × (job.place.at.number ≡ 0) × (job.pace ≡ 1)) }
        ensures book { IfOk result (λ _. self.new.first ≡ None) }
        ensures entries { entries_of self.new ≡ entries_of self.old }
        ensures counts { self.new.counts ≡ self.old.counts }
        ensures refused { OnErr result (self.new ≡ self.old) }
    {
        let none = Args::make(self.alloc);
        let task = Task::start(self.alloc, code, 0, code.main(), &none)?;
        let Some(pace) = self.first.take() else {
            unreachable!()
        };
        let pass = clock.note(&mut self.holder, 0);
        let reader = orders.note(&mut self.writer);
        let place = Place::root(self.alloc, pass, reader);
        place.is_placed();
        Ok(Job { task, place, pace })
    }

    /// Makes all growths that one event needs in the book.
    pub fn reserve(&mut self) -> Result<(), NoMemory>
        ensures same { self.new ≡ self.old }
    {
        self.lines.reserve(1)?;
        self.traces.reserve()
    }

    /// How many tasks have not ended.
    pub fn unended(&self) -> u32
        ensures { result + length self.now.traces ≡ length self.now.lines }
    {
        self.counts.unended()
    }
}

/// So many hands.
fn cut_hands<J: Run>(
    alloc: Global,
    counts: &mut Counts<J>,
    hands: u32,
) -> Result<Ready<Hand<J>>, NoMemory>
    requires { hands + 1 ≤ counts.old.rest.parts }
    ensures hands { IfOk result (λ all. (length all.items ≡ hands) × AllNew all.items) }
    ensures counts { IfOk result (λ all. HasCutMany counts.old hands counts.new) }
{
    let mut all = Ready::make(alloc);
    for _hand in 0..hands {
        all.reserve()?;
        all.push(counts.hand());
    }
    Ok(all)
}

/// The book's holder is told what a job's pass knows, and has its task.
pub(crate) fn hold<J: Run>(clock: &Clock, holder: &mut Holder, job: Job<J>) -> Held<J>
    requires run { (clock.now ≡ J.clock) × (holder.old.clock ≡ J.clock.id) }
    ensures task { (result.task ≡ job.task) × (result.pace ≡ job.pace) }
    ensures place { (result.at ≡ job.place.at) × (result.reach ≡ job.place.table) × (result.reader ≡ job.place.reader) }
    ensures was { IsJob J.clock J.orders J.code job }
    ensures clock { holder.new.clock ≡ holder.old.clock }
    ensures own { (holder.new.view.own ≡ holder.old.view.own) × (holder.new.view.late ≡ holder.old.view.late) }
    ensures told { IsJoin holder.old.view job.place.pass.view holder.new.view }
    ensures one { numbers_of holder.new.view.own ≡ number_of holder.new.view ∷ [] }
{
    let Job { task, place, pace } = job;
    let Place {
        at,
        reach,
        pass,
        reader,
        run: _,
    } = place;
    clock.tell(holder, pass);
    Held {
        task,
        at,
        reach,
        reader,
        pace,
    }
}

/// A job with a task that the book's holder has. It knows all that the book knows.
pub(crate) fn release<J: Run>(
    clock: &Clock,
    orders: &Orders,
    holder: &mut Holder,
    writer: &mut Writer,
    held: Held<J>,
) -> Job<J>
    requires run { (clock.now ≡ J.clock) × (orders.now ≡ J.orders) }
    requires home { (holder.old.clock ≡ J.clock.id) × (writer.old.home ≡ J.orders) × (held.reader.home ≡ J.orders) }
    requires carried { 0 < carries held.task.number holder.old.view.tasks }
    requires orders { IsSound (events_in (book_of holder.old.view))
        × AreOrders (events_in (book_of holder.old.view)) writer.old.lists.english.order writer.old.lists.hebrew.order }
    requires knew { (known : List (ℕ × Event)) × AreAlike known held.reader.log × IsPrefix known (book_of holder.old.view) }
    requires strand { IsStrandOf (events_in (book_of holder.old.view)) held.at × HasTable (events_in (book_of holder.old.view)) held.at.number held.reach }
    requires job { MayRelease J.clock J.orders J.code held.task held.at held.reach held.pace holder.old.view }
    ensures task { (result.task ≡ held.task) × (result.pace ≡ held.pace) }
    ensures place { (result.place.at ≡ held.at) × (result.place.table ≡ held.reach) }
    ensures pass { result.place.pass.view ≡ noted held.task.number holder.old.view }
    ensures reader { StartsWith result.place.reader.log held.reader.log }
    ensures holder { (holder.new.view ≡ after_note held.task.number holder.old.view) × (holder.new.clock ≡ holder.old.clock) }
    ensures writer { writer.new ≡ writer.old }
{
    let Held {
        task,
        at,
        reach,
        mut reader,
        pace,
    } = held;
    let pass = clock.note(holder, task.number());
    orders.join(&mut reader, orders.note(writer));
    Job {
        task,
        place: Place::make(at, reach, pass, reader),
        pace,
    }
}

/// The job of a task that begins on a strand. The book's holder has it.
pub(crate) fn begin<J: Run>(
    clock: &Clock,
    orders: &Orders,
    holder: &mut Holder,
    writer: &mut Writer,
    task: Task,
    at: Strand,
    reach: Reach,
    pace: Pace<J>,
) -> Job<J>
    requires run { (clock.now ≡ J.clock) × (orders.now ≡ J.orders) }
    requires home { (holder.old.clock ≡ J.clock.id) × (writer.old.home ≡ J.orders) }
    requires carried { 0 < carries task.number holder.old.view.tasks }
    requires orders { IsSound (events_in (book_of holder.old.view))
        × AreOrders (events_in (book_of holder.old.view)) writer.old.lists.english.order writer.old.lists.hebrew.order }
    requires strand { IsStrandOf (events_in (book_of holder.old.view)) at × HasTable (events_in (book_of holder.old.view)) at.number reach }
    requires job { MayRelease J.clock J.orders J.code task at reach pace holder.old.view }
    ensures task { (result.task ≡ task) × (result.pace ≡ pace) }
    ensures place { (result.place.at ≡ at) × (result.place.table ≡ reach) }
    ensures pass { result.place.pass.view ≡ noted task.number holder.old.view }
    ensures holder { (holder.new.view ≡ after_note task.number holder.old.view) × (holder.new.clock ≡ holder.old.clock) }
    ensures writer { writer.new ≡ writer.old }
{
    let pass = clock.note(holder, task.number());
    let reader = orders.note(writer);
    Job {
        task,
        place: Place::make(at, reach, pass, reader),
        pace,
    }
}

/// An entry of a task that is held.
pub(crate) fn entry_of<J: Run>(held: &Held<J>, act: Act) -> Entry
    ensures { event_of result ≡ record { task = held.now.task.number; strand = held.now.at.number; action = action_of act } }
{
    Entry {
        task: held.task.number(),
        strand: held.at.number,
        act,
    }
}

/// The number of the strand that comes next.
pub(crate) fn next_strand(writer: &Writer) -> u32
    ensures { result ≡ length writer.now.lists.english.order }
{
    writer.lists().english().len()
}

/// A list of jobs with room for two. `Err` hands the job back, for want of memory.
pub(crate) fn room_for_two<J: Run>(
    alloc: Global,
    job: Job<J>,
) -> (Job<J>, Result<Ready<Job<J>>, NoMemory>)
    ensures job { result.0 ≡ job }
    ensures room { IfOk result.1 (λ r. (r.items ≡ []) × (2 ≤ r.spare)) }
{
    let mut room = Ready::make(alloc);
    room.push(job);
    let reserved = room.reserve();
    let Some(job) = room.pop() else {
        unreachable!()
    };
    match reserved {
        Ok(()) => (job, Ok(room)),
        Err(NoMemory) => (job, Err(NoMemory)),
    }
}
