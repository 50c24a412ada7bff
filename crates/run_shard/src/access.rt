//! One access: a task's place is told to the shard, a ticket is drawn, the access is kept, and the task is given back.
ghost use Rattle.std.specs.Prelude.{◌≡◌, ◌<◌, ◌≤◌, false, OnOk, OnErr, [], ◌∷◌};
ghost use Rattle.fut_base.specs.Events.{action_of, event_of};
ghost use Rattle.task_machine.specs.State.{Answers};
ghost use Rattle.task_code.specs.Tasks.{IsStill};
ghost use Rattle.access_shards.specs.Kept.{reading, writing, AreKnown};
ghost use Rattle.access_shards.specs.Logged.{HasRoom, KeepsOneMore};
ghost use Rattle.event_clock.specs.Rule.{IsJoin};
ghost use Rattle.event_clock.specs.Views.{MayAskFor, carries, numbers_of, number_of, after_note, after_split, noted, split_off};
ghost use Rattle.order_query.specs.Logs.{StartsWith, count_of, english_of, hebrew_of};
ghost use Rattle.run_place.specs.Placed.{IsPlace, AreAlike, book_of};
ghost use Rattle.run_book.specs.Jobs.{Stands};
ghost use Rattle.run_book.specs.Steps.{IsSameTask};
ghost use Rattle.run_shard.specs.Turns.{AreOfJob, CanJudge, IsAccess, IsSameReader, kind_by, IsAtRest, HasTurned, HasDrawn, HasMade};
ghost use Rattle.run_shard.specs.Dids.{IsSamePlace, LearnsBy};

use crate::did::Did;
use access_shards::CellLog;
use crossbeam_utils::Backoff;
use event_clock::clock::{Clock, Drawn, Holder};
use fut_base::limits::MOST_LOCAL_STEPS;
use fut_base::list::NoMemory;
use fut_base::record::{Act, Entry};
use order_list::Moved;
use order_query::{Live, Orders, Reader};
use reach_table::Reach;
use run_names::Run;
use run_place::Place;
use std::sync::Wait;
use strand_tree::Strand;
use task_code::code::Code;
use task_code::task::Task;

/// Keeps one more read, where no labels are made anew meanwhile.
fn try_read(
    orders: &Orders,
    reader: &mut Reader,
    log: &mut CellLog,
    reach: &Reach,
    at: Strand,
    place: u32,
) -> Result<(), Moved>
    requires home { reader.old.home ≡ orders.now }
    requires room { HasRoom log.old }
    requires known { CanJudge (count_of reader.old.log) reach.now at log.old.kept }
    ensures kept { OnOk result (KeepsOneMore reach.now at place reading (count_of reader.old.log) (english_of reader.old.log) (hebrew_of reader.old.log) log.old log.new) }
    ensures unchanged { OnErr result (log.new ≡ log.old) }
    ensures home { reader.new.home ≡ reader.old.home }
    ensures count { count_of reader.new.log ≡ count_of reader.old.log }
    ensures english { english_of reader.new.log ≡ english_of reader.old.log }
    ensures hebrew { hebrew_of reader.new.log ≡ hebrew_of reader.old.log }
{
    let mut judge = Live { orders, reader };
    log.read(&mut judge, reach, at, place)
}

/// Keeps one more read, however often labels are made anew meanwhile.
fn note_read<R: Wait>(
    rt: &R,
    orders: &Orders,
    reader: &mut Reader,
    log: &mut CellLog,
    reach: &Reach,
    at: Strand,
    place: u32,
)
    requires home { reader.old.home ≡ orders.now }
    requires room { HasRoom log.old }
    requires known { CanJudge (count_of reader.old.log) reach.now at log.old.kept }
    ensures kept { KeepsOneMore reach.now at place reading (count_of reader.new.log) (english_of reader.new.log) (hebrew_of reader.new.log) log.old log.new }
    ensures reader { IsSameReader reader.old reader.new }
{
    let backoff = Backoff::new();
    for _ in rt.forever() {
        if try_read(orders, reader, log, reach, at, place).is_ok() {
            return;
        }
        backoff.snooze();
    }
    unreachable!()
}

/// Keeps one more write, where no labels are made anew meanwhile.
fn try_write(
    orders: &Orders,
    reader: &mut Reader,
    log: &mut CellLog,
    reach: &Reach,
    at: Strand,
    place: u32,
) -> Result<(), Moved>
    requires home { reader.old.home ≡ orders.now }
    requires room { HasRoom log.old }
    requires known { CanJudge (count_of reader.old.log) reach.now at log.old.kept }
    ensures kept { OnOk result (KeepsOneMore reach.now at place writing (count_of reader.old.log) (english_of reader.old.log) (hebrew_of reader.old.log) log.old log.new) }
    ensures unchanged { OnErr result (log.new ≡ log.old) }
    ensures home { reader.new.home ≡ reader.old.home }
    ensures count { count_of reader.new.log ≡ count_of reader.old.log }
    ensures english { english_of reader.new.log ≡ english_of reader.old.log }
    ensures hebrew { hebrew_of reader.new.log ≡ hebrew_of reader.old.log }
{
    let mut judge = Live { orders, reader };
    log.write(&mut judge, reach, at, place)
}

/// Keeps one more write, however often labels are made anew meanwhile.
fn note_write<R: Wait>(
    rt: &R,
    orders: &Orders,
    reader: &mut Reader,
    log: &mut CellLog,
    reach: &Reach,
    at: Strand,
    place: u32,
)
    requires home { reader.old.home ≡ orders.now }
    requires room { HasRoom log.old }
    requires known { CanJudge (count_of reader.old.log) reach.now at log.old.kept }
    ensures kept { KeepsOneMore reach.now at place writing (count_of reader.new.log) (english_of reader.new.log) (hebrew_of reader.new.log) log.old log.new }
    ensures reader { IsSameReader reader.old reader.new }
{
    let backoff = Backoff::new();
    for _ in rt.forever() {
        if try_write(orders, reader, log, reach, at, place).is_ok() {
            return;
        }
        backoff.snooze();
    }
    unreachable!()
}

/// Keeps one more access.
fn note<R: Wait>(
    rt: &R,
    orders: &Orders,
    reader: &mut Reader,
    log: &mut CellLog,
    reach: &Reach,
    at: Strand,
    place: u32,
    act: &Act,
)
    requires home { reader.old.home ≡ orders.now }
    requires room { HasRoom log.old }
    requires known { CanJudge (count_of reader.old.log) reach.now at log.old.kept }
    ensures kept { KeepsOneMore reach.now at place (kind_by (action_of act.now)) (count_of reader.new.log) (english_of reader.new.log) (hebrew_of reader.new.log) log.old log.new }
    ensures reader { IsSameReader reader.old reader.new }
{
    match act {
        Act::Write { .. } => note_write(rt, orders, reader, log, reach, at, place),
        Act::Read { .. }
        | Act::Spawn { .. }
        | Act::Create { .. }
        | Act::Sync { .. }
        | Act::Get { .. }
        | Act::End { .. } => note_read(rt, orders, reader, log, reach, at, place),
    }
}

/// The task comes to the event at which it is known to stand, and there is room for its entry.
fn ready<J: Run>(
    code: &Code,
    task: &mut Task,
    place: &Place<J>,
    entry: &Entry,
) -> Result<(), NoMemory>
    requires run { code.now ≡ J.code }
    requires job { AreOfJob J.clock J.orders J.code task.old place.now }
    requires wish { Stands J.code task.old (λ P w. Answers w (action_of entry.now.act)) }
    ensures job { AreOfJob J.clock J.orders J.code task.new place.now }
    ensures same { IsSameTask task.old task.new }
    ensures wish { Stands J.code task.new (λ P w. Answers w (action_of entry.now.act)) }
    ensures ready { OnOk result (IsStill J.code task.new × (1 ≤ task.new.trace.spare)) }
{
    let _ = entry;
    let _ = &place.reach;
    task.advance(code, MOST_LOCAL_STEPS);
    task.reserve()
}

/// The shard's holder and reader know what a task's place knows, and the holder has the task.
fn tell<J: Run>(
    clock: &Clock,
    orders: &Orders,
    holder: &mut Holder,
    reader: &mut Reader,
    place: &mut Place<J>,
)
    requires run { (clock.now ≡ J.clock) × (orders.now ≡ J.orders) }
    requires home { (holder.old.clock ≡ J.clock.id) × (reader.old.home ≡ J.orders) }
    requires alike { AreAlike (book_of holder.old.view) reader.old.log }
    ensures strand { (place.new.at ≡ place.old.at) × (place.new.table ≡ place.old.table) }
    ensures place { (place.new.pass ≡ record { clock = J.clock.id; view = after_split place.old.pass.view }) × (place.new.reader ≡ place.old.reader) }
    ensures home { (holder.new.clock ≡ holder.old.clock) × (reader.new.home ≡ reader.old.home) }
    ensures own { (holder.new.view.own ≡ holder.old.view.own) × (holder.new.view.late ≡ holder.old.view.late) }
    ensures told { IsJoin holder.old.view (split_off place.old.pass.view) holder.new.view }
    ensures one { numbers_of holder.new.view.own ≡ number_of holder.new.view ∷ [] }
    ensures alike { AreAlike (book_of holder.new.view) reader.new.log }
{
    let (pass, given) = place.split(clock, orders);
    clock.tell(holder, pass);
    orders.join(reader, given);
}

/// Draws a ticket for an entry of a task that the holder has. Where it is below the bound, the access is kept and the task is fed.
fn make<R: Wait>(
    rt: &R,
    clock: &Clock,
    orders: &Orders,
    code: &Code,
    holder: &mut Holder,
    reader: &mut Reader,
    log: &mut CellLog,
    task: &mut Task,
    reach: &Reach,
    at: Strand,
    entry: Entry,
) -> Did
    requires home { (holder.old.clock ≡ clock.now.id) × (reader.old.home ≡ orders.now) }
    requires asks { MayAskFor holder.old.view (event_of entry) }
    requires room { (1 ≤ task.old.trace.spare) × HasRoom log.old }
    requires known { CanJudge (count_of reader.old.log) reach.now at log.old.kept }
    requires still { IsStill code.now task.old × (task.old.spot.ended ≡ false) }
    ensures home { holder.new.clock ≡ holder.old.clock }
    ensures reader { IsSameReader reader.old reader.new }
    ensures drawn { HasDrawn clock.now.size.bound code.now (event_of entry) reach.now at (count_of reader.new.log) (english_of reader.new.log) (hebrew_of reader.new.log)
        holder.old holder.new log.old log.new task.old task.new result }
{
    let ticket = match clock.draw(holder, &entry) {
        Drawn::Spent(ticket) => return Did::Spent { ticket },
        Drawn::At(ticket) => ticket,
    };
    note(rt, orders, reader, log, reach, at, ticket, &entry.act);
    task.feed(code, ticket, entry);
    Did::Done
}

/// A task's place knows what the shard's holder and reader know, and has the task again.
fn give_back<J: Run>(
    clock: &Clock,
    orders: &Orders,
    holder: &mut Holder,
    reader: &mut Reader,
    place: &mut Place<J>,
    task: u32,
)
    requires run { (clock.now ≡ J.clock) × (orders.now ≡ J.orders) }
    requires home { (holder.old.clock ≡ J.clock.id) × (reader.old.home ≡ J.orders) }
    requires alike { AreAlike (book_of holder.old.view) reader.old.log }
    requires carried { 0 < carries task holder.old.view.tasks }
    ensures strand { (place.new.at ≡ place.old.at) × (place.new.table ≡ place.old.table) }
    ensures pass { IsJoin place.old.pass.view (noted task holder.old.view) place.new.pass.view }
    ensures knew { StartsWith place.new.reader.log place.old.reader.log }
    ensures place { IsPlace J.clock J.orders place.new }
    ensures holder { (holder.new.view ≡ after_note task holder.old.view) × (holder.new.clock ≡ holder.old.clock) }
    ensures reader { reader.new ≡ reader.old }
{
    let pass = clock.note(holder, task);
    let given = orders.split(reader);
    place.learn(clock, orders, pass, given);
    place.is_placed();
}

/// A task makes an access of the cell that has this log. After `Spent` and `NoMemory` the task stands where it stood, and nothing that is
/// kept has changed. It asks for all memory before the ticket is drawn.
pub(crate) fn access<J: Run, R: Wait>(
    rt: &R,
    clock: &Clock,
    orders: &Orders,
    code: &Code,
    holder: &mut Holder,
    reader: &mut Reader,
    log: &mut CellLog,
    task: &mut Task,
    place: &mut Place<J>,
    entry: Entry,
) -> Did
    requires run { (clock.now ≡ J.clock) × (orders.now ≡ J.orders) × (code.now ≡ J.code) }
    requires rest { IsAtRest J.clock J.orders J.code holder.old reader.old }
    requires job { AreOfJob J.clock J.orders J.code task.old place.old }
    requires own { (entry.task ≡ task.old.number) × (entry.strand ≡ place.old.at.number) }
    requires access { IsAccess (action_of entry.act) }
    requires wish { Stands J.code task.old (λ P w. Answers w (action_of entry.act)) }
    requires known { AreKnown (count_of reader.old.log) log.old.kept }
    ensures job { AreOfJob J.clock J.orders J.code task.new place.new }
    ensures turned { HasTurned J.clock J.orders J.code holder.old holder.new reader.new }
    ensures place { IsSamePlace place.old place.new }
    ensures learns { LearnsBy result holder.new.view place.new }
    ensures made { HasMade J.clock.size.bound (event_of entry) place.old.at holder.old holder.new log.old log.new task.old task.new result }
{
    if log.reserve().is_err() {
        return Did::NoMemory;
    }
    if ready(code, task, place, &entry).is_err() {
        return Did::NoMemory;
    }
    tell(clock, orders, holder, reader, place);
    let did = make(
        rt,
        clock,
        orders,
        code,
        holder,
        reader,
        log,
        task,
        &place.reach,
        place.at,
        entry,
    );
    give_back(clock, orders, holder, reader, place, task.number());
    did
}
