//! Questions on an English and a Hebrew list: on one thread, and by readers beside a writer that inserts and relabels all the time.
ghost use Rattle.std.specs.Prelude.{◌≡◌, ◌+◌, ◌<◌, ◌≤◌, length};
ghost use Rattle.std.specs.Thread.{IsSync};
ghost use Rattle.order_query.specs.Logs.{count_of};

use fut_base::list::NoMemory;
use order_list::{Item, Judge, OrderList, Placer, Still};
use order_query::{Live, Orders, Placing, Reader, Writer};
use std::alloc::Global;
use std::sync::{OnceLock, Wait};
use std::thread::{self, Threads};

// The items of the lists that are asked on one thread.
const ITEMS: u32 = 1000;

// The most inserts at one place.
const MOST: u32 = 8_000_000;

// So many inserts after item 0 in both lists.
fn fill<P: Placer>(placer: &mut P, count: u32)
    requires english { 0 < length (P.english placer.old) }
    requires hebrew { 0 < length (P.hebrew placer.old) }
    requires spare { count ≤ P.spare placer.old }
    ensures english { length (P.english placer.new) ≡ length (P.english placer.old) + count }
    ensures hebrew { length (P.hebrew placer.new) ≡ length (P.hebrew placer.old) + count }
    ensures spare { P.spare placer.new + count ≡ P.spare placer.old }
    ensures home { P.home placer.new ≡ P.home placer.old }
{
    for _k in 0..count {
        placer.insert(Item(0), Item(0));
    }
}

// The same by the writer of some orders.
fn fill_orders(orders: &Orders, writer: &mut Writer, count: u32)
    requires home { writer.old.home ≡ orders.now }
    requires english { 0 < length writer.old.lists.english.order }
    requires hebrew { 0 < length writer.old.lists.hebrew.order }
    requires room { count ≤ writer.old.lists.english.room }
    ensures home { writer.new.home ≡ writer.old.home }
    ensures english { length writer.new.lists.english.order ≡ length writer.old.lists.english.order + count }
    ensures hebrew { length writer.new.lists.hebrew.order ≡ length writer.old.lists.hebrew.order + count }
    ensures room { writer.new.lists.english.room + count ≡ writer.old.lists.english.room }
{
    let mut placing = Placing { orders, writer };
    fill(&mut placing, count);
}

// Asks a judge so many questions; counts those where the first item stands before the other in both lists.
fn befores_of<J: Judge>(judge: &mut J, count: u32) -> u32
    requires { 1000 ≤ J.known judge.old }
{
    let mut befores = 0u32;
    for k in 0..count {
        let x = Item(k % ITEMS);
        let y = Item(k.wrapping_mul(7) % ITEMS);
        let both = judge
            .try_sides(x, y)
            .is_ok_and(|sides| sides.english && sides.hebrew);
        befores = befores.wrapping_add(u32::from(both));
    }
    befores
}

/// Asks two lists of one thread so many questions; counts those where the first item stands before the other.
pub fn befores_of_still(alloc: Global, count: u32) -> Result<u32, NoMemory> {
    let mut still = Still::make(alloc, ITEMS)?;
    fill(&mut still, ITEMS - 1);
    Ok(befores_of(&mut still, count))
}

// Asks a reader as a judge.
fn befores_of_reader(orders: &Orders, reader: &mut Reader, count: u32) -> u32
    requires home { reader.old.home ≡ orders.now }
    requires known { 1000 ≤ count_of reader.old.log }
{
    let mut live = Live { orders, reader };
    befores_of(&mut live, count)
}

/// The same by a reader, while nobody writes.
pub fn befores_of_live(alloc: Global, count: u32) -> Result<u32, NoMemory> {
    let (orders, mut writer, _) = Orders::make(alloc, ITEMS)?;
    fill_orders(&orders, &mut writer, ITEMS - 1);
    let mut reader = orders.note(&mut writer);
    Ok(befores_of_reader(&orders, &mut reader, count))
}

// A reader that knows items 1 and 2, and how many questions on them were answered.
#[derive(Drop)]
struct Asker<'a> {
    orders: &'a Orders,
    reader: Reader,
    answers: u64,
    ghost own: { reader.home ≡ orders.now },
    ghost known: { 2 < count_of reader.log },
}

impl<'a> Asker<'a> {
    // Asks so many times.
    fn ask<R: Wait>(&mut self, rt: &R, times: u32) {
        for _k in 0..times {
            self.orders.sides(rt, &mut self.reader, Item(1), Item(2));
            self.answers = self.answers.wrapping_add(1);
        }
    }

    // Asks until it is told to stop.
    fn ask_on<R: Wait>(&mut self, rt: &R, stop: &OnceLock<()>) {
        for _ in rt.forever() {
            if stop.get().is_some() {
                return;
            }
            self.ask(rt, 256);
        }
    }
}

// Lets the readers ask while the writer makes so many inserts.
fn ask_beside<'a, R: Threads + Wait + Sync>(
    rt: &R,
    orders: &Orders,
    writer: &mut Writer,
    inserts: u32,
    askers: &mut [Asker<'a>],
)
    requires home { writer.old.home ≡ orders.now }
    requires english { 0 < length writer.old.lists.english.order }
    requires hebrew { 0 < length writer.old.lists.hebrew.order }
    requires room { inserts ≤ writer.old.lists.english.room }
{
    let stop = OnceLock::new();
    thread::join(
        rt,
        ||
            requires { (writer.now.home ≡ orders.now) × (0 < length writer.now.lists.english.order)
                × (0 < length writer.now.lists.hebrew.order) × (inserts ≤ writer.now.lists.english.room) }
        {
            fill_orders(orders, writer, inserts);
            let _ = stop.set(rt, ());
        },
        ||
            requires { IsSync R.row }
        {
            thread::for_each_mut(
                rt,
                askers,
                64,
                &|_, asker: &mut Asker|
                    requires { IsSync R.row }
                { asker.ask_on(rt, &stop) },
            );
        },
    );
}

// So many readers of all items, of which there are at least three.
fn askers_of<'a>(
    alloc: Global,
    orders: &'a Orders,
    writer: &mut Writer,
    readers: u32,
) -> Result<Vec<Asker<'a>>, NoMemory>
    requires home { writer.old.home ≡ orders.now }
    requires some { 2 < length writer.old.lists.english.order }
    ensures same { writer.new ≡ writer.old }
{
    let mut askers = Vec::new(alloc);
    for _k in 0..readers {
        let reader = orders.note(writer);
        askers.push(Asker {
            orders,
            reader,
            answers: 0,
        })?;
    }
    Ok(askers)
}

/// Lets so many readers ask while a writer makes so many inserts after item 0; tells how many questions were answered.
pub fn answers_beside<R: Threads + Wait + Sync>(
    rt: &R,
    alloc: Global,
    inserts: u32,
    readers: u32,
) -> Result<u64, NoMemory> {
    let most = inserts.min(MOST);
    let (orders, mut writer, _) = Orders::make(alloc, most + 3)?;
    fill_orders(&orders, &mut writer, 2);
    let mut askers = askers_of(alloc, &orders, &mut writer, readers)?;
    ask_beside(rt, &orders, &mut writer, most, askers.as_mut_slice());
    let mut answers = 0u64;
    for asker in &askers {
        answers = answers.wrapping_add(asker.answers);
    }
    Ok(answers)
}

// Makes so many inserts after item 0; tells how many items were relabelled in all.
fn relabel_at_first(list: &mut OrderList, inserts: u32) -> u64
    requires some { 0 < length list.old.order }
    requires room { inserts ≤ list.old.room }
{
    let mut items = 0u64;
    for _k in 0..inserts {
        let window = list.make_space(Item(0));
        items = items.wrapping_add(window.map_or(0, |w| u64::from(w.items)));
        list.insert_after(Item(0));
    }
    items
}

/// Makes so many inserts after item 0 of one list; tells how many items were relabelled in all.
pub fn relabelled(alloc: Global, inserts: u32) -> Result<u64, NoMemory> {
    let most = inserts.min(MOST);
    let mut list = OrderList::make(alloc, most + 1)?;
    Ok(relabel_at_first(&mut list, most))
}
