//! Labels and answers worked out by hand.
ghost use Rattle.std.specs.Prelude.{◌≡◌, ◌+◌, ◌<◌, length, IfOk};

use crate::item::Item;
use crate::judge::{Judge, Sides};
use crate::list::{NoMemory, OrderList};
use crate::place::{Place, Window};
use crate::placer::Placer;
use crate::still::Still;
use std::alloc::Global;
use std::process::Abort;
use std::test::Fail;

// A list with room for 100 items after so many inserts after item 0.
fn after_inserts(alloc: Global, inserts: u32) -> Result<OrderList, NoMemory>
    requires { inserts < 100 }
    ensures { IfOk result (λ list. (length list.order ≡ inserts + 1) × (list.room + inserts + 1 ≡ 100)) }
{
    let mut list = OrderList::make(alloc, 100)?;
    for _k in 0..inserts {
        list.insert_after(Item(0));
    }
    Ok(list)
}

#[test]
fn labels_halve_until_there_is_none(rt: HostRuntime) -> Result<(), Fail> {
    let cases = [
        (0, Place::Label((1 << 61) + (1 << 60))),
        (1, Place::Label((1 << 61) + (1 << 59))),
        (60, Place::Label((1 << 61) + 1)),
        (61, Place::Relabel),
    ];
    for (inserts, place) in cases {
        let list = after_inserts(rt.alloc(), inserts)?;
        assert_eq!(rt; list.len(), inserts + 1);
        assert_eq!(rt; list.label(Item(0)), 1 << 61);
        assert_eq!(rt; list.place_after(Item(0)), place, "after {inserts} inserts");
    }
    Ok(())
}

#[test]
fn the_last_insert_stands_first(rt: HostRuntime) -> Result<(), Fail> {
    let list = after_inserts(rt.alloc(), 2)?;
    assert_eq!(rt; list.label(Item(1)), (1 << 61) + (1 << 60));
    assert_eq!(rt; list.label(Item(2)), (1 << 61) + (1 << 59));
    assert!(rt; list.before(Item(2), Item(1)));
    assert_eq!(rt; list.next(Item(2)), Some(Item(1)));
    assert_eq!(rt; list.next(Item(1)), None);
    Ok(())
}

fn window_of_five() -> Window {
    Window {
        first: Item(0),
        items: 5,
        base: 1 << 61,
        gap: 3,
    }
}

#[test]
fn space_is_made_once(rt: HostRuntime) -> Result<(), Fail> {
    let mut list = after_inserts(rt.alloc(), 61)?;
    assert_eq!(rt; list.make_space(Item(0)), Some(window_of_five()));
    assert_eq!(rt; list.len(), 62);
    assert_eq!(rt; list.place_after(Item(0)), Place::Label((1 << 61) + 1));
    assert_eq!(rt; list.make_space(Item(0)), None);
    assert_eq!(rt; list.label(Item(61)), (1 << 61) + 3);
    Ok(())
}

#[test]
fn labels_are_made_anew(rt: HostRuntime) -> Result<(), Fail> {
    // Item k has the label 2^61 + 2^(61 - k) after 61 inserts. The window of 8 labels has the items 0, 61, 60 and 59, and
    // at most 3 may share it; that of 16 has item 58 too, and at most 5 may share it.
    let mut list = after_inserts(rt.alloc(), 61)?;
    assert_eq!(rt; list.window(Item(0)), window_of_five());
    assert_eq!(rt; list.insert_after(Item(0)), Item(62));
    assert_eq!(rt; list.next(Item(0)), Some(Item(62)));
    let labels = [
        (0, 0),
        (62, 1),
        (61, 3),
        (60, 6),
        (59, 9),
        (58, 12),
        (57, 16),
        (56, 32),
        (1, 1 << 60),
    ];
    for (item, above) in labels {
        assert_eq!(rt; list.label(Item(item)), (1 << 61) + above, "item {item}");
    }
    Ok(())
}

// A list of 20,000 items, each put after item 0, and then of 20,000 more, each put after the one made before it.
fn long_list(alloc: Global) -> Result<OrderList, NoMemory>
    ensures { IfOk result (λ list. length list.order ≡ 40001) }
{
    let mut list = OrderList::make(alloc, 40_001)?;
    for _k in 0..20_000u32 {
        list.insert_after(Item(0));
    }
    for k in 0..20_000u32 {
        list.insert_after(Item(20_000 + k));
    }
    Ok(list)
}

// The items of that list in order.
fn long_order(alloc: Global) -> Result<Vec<u32>, NoMemory> {
    let mut order = Vec::new(alloc);
    order.push(0)?;
    for k in 20_000..40_001u32 {
        order.push(k)?;
    }
    for k in 1..20_000u32 {
        order.push(20_000 - k)?;
    }
    Ok(order)
}

// Whether the items at two places of the order stand so in the list.
fn agrees(list: &OrderList, order: &[u32], a: usize, b: usize) -> bool {
    match (order.get(a), order.get(b)) {
        (Some(x), Some(y)) => {
            *x < list.len() && *y < list.len() && list.before(Item(*x), Item(*y)) == (a < b)
        }
        _ => false,
    }
}

#[test]
fn a_long_list_keeps_its_order(rt: HostRuntime) -> Result<(), Fail> {
    let list = long_list(rt.alloc())?;
    let order = long_order(rt.alloc())?;
    assert_eq!(rt; order.len(), 40_001);
    for a in 0..40_000usize {
        assert!(rt; agrees(&list, &order, a, a + 1), "places {a} and the next");
        let b = a * 7_919 % 40_001;
        assert!(rt; agrees(&list, &order, a, b), "places {a} and {b}");
    }
    assert_eq!(rt; list.next(Item(0)), Some(Item(20_000)));
    assert_eq!(rt; list.next(Item(40_000)), Some(Item(19_999)));
    assert_eq!(rt; list.next(Item(1)), None);
    Ok(())
}

fn sides(english: bool, hebrew: bool) -> Option<Sides> {
    Some(Sides { english, hebrew })
}

#[test]
fn sides_of_two_lists(rt: HostRuntime) -> Result<(), Fail> {
    let mut still = Still::make(rt.alloc(), 3)?;
    assert_eq!(rt; still.insert(Item(0), Item(0)), Item(1));
    assert_eq!(rt; still.insert(Item(1), Item(0)), Item(2));
    assert_eq!(rt; still.try_sides(Item(0), Item(1)).ok(), sides(true, true));
    assert_eq!(rt; still.try_sides(Item(1), Item(2)).ok(), sides(true, false));
    assert_eq!(rt; still.try_sides(Item(2), Item(1)).ok(), sides(false, true));
    assert_eq!(rt; still.try_sides(Item(1), Item(1)).ok(), sides(false, false));
    assert_eq!(rt; still.english().next(Item(1)), Some(Item(2)));
    assert_eq!(rt; still.hebrew().next(Item(1)), None);
    Ok(())
}
