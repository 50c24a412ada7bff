//! Answers worked out by hand, and a reader beside a writer that relabels.
ghost use Rattle.std.specs.Prelude.{◌≡◌, ◌+◌, ◌<◌, ◌≤◌, length};
ghost use Rattle.std.specs.Thread.{IsSync};
ghost use Rattle.order_query.specs.Tests.{HasRoom, MayRead};

mod lent;

use crate::orders::Orders;
use crate::reader::{Reader, Writer};
use crate::tests::lent::{ask_lent, place_lent};
use order_list::{Item, NoMemory, OrderList, Sides, Window};
use std::alloc::Global;
use std::process::Abort;
use std::sync::Wait;
use std::test::Fail;
use std::thread::{Threads, join};

// So many inserts after item 0 in both lists.
fn insert_many(orders: &Orders, writer: &mut Writer, count: u32)
    requires { HasRoom orders.now writer.old count }
    ensures home { writer.new.home ≡ writer.old.home }
    ensures log { length writer.new.log ≡ length writer.old.log + count }
    ensures english { 0 < length writer.new.lists.english.order }
    ensures hebrew { 0 < length writer.new.lists.hebrew.order }
    ensures room { writer.new.lists.english.room + count ≡ writer.old.lists.english.room }
{
    for _k in 0..count {
        orders.insert(writer, Item(0), Item(0));
    }
}

fn sides(english: bool, hebrew: bool) -> Sides {
    Sides { english, hebrew }
}

// What a reader that was made after so many inserts, at most 99, tells of two items that there are.
fn told_after(alloc: Global, inserts: u32, x: u32, y: u32) -> Result<Option<Sides>, NoMemory> {
    if inserts > 99 || x > inserts || y > inserts {
        return Ok(None);
    }
    let (orders, mut writer, _) = Orders::make(alloc, 100)?;
    insert_many(&orders, &mut writer, inserts);
    let mut reader = orders.note(&mut writer);
    Ok(ask_lent(&orders, &mut reader, Item(x), Item(y)).ok())
}

#[test]
fn the_last_insert_stands_first_in_both(rt: HostRuntime) -> Result<(), Fail> {
    let cases = [
        (2, 2, 1, true),
        (2, 1, 1, false),
        (2, 1, 2, false),
        (2, 0, 1, true),
        (61, 61, 60, true),
        (62, 62, 61, true),
        (62, 61, 62, false),
        (62, 58, 57, true),
        (62, 0, 62, true),
        (99, 99, 62, true),
    ];
    for (inserts, x, y, before) in cases {
        assert_eq!(rt;
            told_after(rt.alloc(), inserts, x, y)?,
            Some(sides(before, before)),
            "{x} and {y} after {inserts} inserts"
        );
    }
    Ok(())
}

#[test]
fn the_two_lists_differ(rt: HostRuntime) -> Result<(), Fail> {
    // English 0 1 2, Hebrew 0 2 1.
    let (orders, mut writer, first) = Orders::make(rt.alloc(), 3)?;
    assert_eq!(rt; place_lent(&orders, &mut writer, Item(0), Item(0)), Item(1));
    assert_eq!(rt; place_lent(&orders, &mut writer, Item(1), Item(0)), Item(2));
    let mut reader = orders.note(&mut writer);
    let mut other = orders.split(&mut reader);
    orders.join(&mut other, first);
    orders.join(&mut reader, other);
    let one = ask_lent(&orders, &mut reader, Item(0), Item(1)).ok();
    assert_eq!(rt; one, Some(sides(true, true)));
    let two = ask_lent(&orders, &mut reader, Item(1), Item(2)).ok();
    assert_eq!(rt; two, Some(sides(true, false)));
    let three = ask_lent(&orders, &mut reader, Item(2), Item(1)).ok();
    assert_eq!(rt; three, Some(sides(false, true)));
    let four = ask_lent(&orders, &mut reader, Item(2), Item(2)).ok();
    assert_eq!(rt; four, Some(sides(false, false)));
    Ok(())
}

// Whether the item is of the list and has this label.
fn has_label(list: &OrderList, item: u32, label: u64) -> bool {
    item < list.len() && list.label(Item(item)) == label
}

#[test]
fn a_window_is_relabelled(rt: HostRuntime) -> Result<(), Fail> {
    let (orders, mut writer, _) = Orders::make(rt.alloc(), 100)?;
    insert_many(&orders, &mut writer, 61);
    let window = Window {
        first: Item(0),
        items: 5,
        base: 1 << 61,
        gap: 3,
    };
    assert_eq!(rt; writer.lists().english().window(Item(0)), window);
    insert_many(&orders, &mut writer, 1);
    let labels = [
        (0, 0),
        (62, 1),
        (61, 3),
        (60, 6),
        (59, 9),
        (58, 12),
        (57, 16),
    ];
    for (item, above) in labels {
        let label = (1 << 61) + above;
        assert!(rt;
            has_label(writer.lists().english(), item, label),
            "English {item}"
        );
        assert!(rt;
            has_label(writer.lists().hebrew(), item, label),
            "Hebrew {item}"
        );
    }
    Ok(())
}

// How many of so many answers on items 1 and 2 are not the given one.
fn count_others<R: Wait>(
    rt: &R,
    orders: &Orders,
    reader: &mut Reader,
    sides: Sides,
    times: u32,
) -> u32
    requires { MayRead orders.now reader.old }
{
    let mut others = 0u32;
    for _k in 0..times {
        if orders.sides(rt, reader, Item(1), Item(2)) != sides {
            others = others.saturating_add(1);
        }
    }
    others
}

// One thread inserts while another asks.
fn ask_meanwhile<R: Threads + Wait + Sync>(
    rt: &R,
    orders: &Orders,
    writer: &mut Writer,
    reader: &mut Reader,
    sides: Sides,
) -> u32
    requires room { HasRoom orders.now writer.old 10000 }
    requires read { MayRead orders.now reader.old }
{
    let (_, others) = join(
        rt,
        ||
            requires { HasRoom orders.now writer.now 10000 }
        { insert_many(orders, writer, 10_000) },
        || -> u32
            requires { IsSync R.row × MayRead orders.now reader.now }
        { count_others(rt, orders, reader, sides, 10_000) },
    );
    others
}

#[test]
fn sides_stay_while_labels_are_made_anew(rt: HostRuntime) -> Result<(), Fail> {
    let (orders, mut writer, _) = Orders::make(rt.alloc(), 10_003)?;
    insert_many(&orders, &mut writer, 2);
    let mut reader = orders.note(&mut writer);
    let others = ask_meanwhile(&rt, &orders, &mut writer, &mut reader, sides(false, false));
    assert_eq!(rt; others, 0);
    Ok(())
}
