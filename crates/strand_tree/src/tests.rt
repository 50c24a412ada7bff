//! The strands of worked runs.
use crate::placing::{create, get, spawn, sync};
use crate::strand::{Strand, precedes, root};
use order_list::{Item, Judge, OrderList, Still};
use std::alloc::Global;
use std::process::Abort;
use std::test::Fail;

fn strand(number: u32, future: u32) -> Strand {
    Strand { number, future }
}

#[test]
fn a_sync_stands_last(rt: HostRuntime) -> Result<(), Fail> {
    let mut still = Still::make(rt.alloc(), 4)?;
    let (kid, cont) = spawn(&mut still, root());
    assert_eq!(rt; (kid, cont), (strand(1, 0), strand(2, 0)));
    assert_eq!(rt; sync(&mut still, cont, Some(kid)), strand(3, 0));
    let english = still.english();
    assert_eq!(rt; english.next(Item(0)), Some(Item(1)));
    assert_eq!(rt; english.next(Item(1)), Some(Item(2)));
    assert_eq!(rt; english.next(Item(2)), Some(Item(3)));
    assert_eq!(rt; english.next(Item(3)), None);
    let hebrew = still.hebrew();
    assert_eq!(rt; hebrew.next(Item(0)), Some(Item(2)));
    assert_eq!(rt; hebrew.next(Item(2)), Some(Item(1)));
    assert_eq!(rt; hebrew.next(Item(1)), Some(Item(3)));
    assert_eq!(rt; hebrew.next(Item(3)), None);
    assert_eq!(rt;
        still.try_sides(Item(1), Item(2)).ok().map(precedes),
        Some(false)
    );
    assert_eq!(rt;
        still.try_sides(Item(2), Item(1)).ok().map(precedes),
        Some(false)
    );
    assert_eq!(rt;
        still.try_sides(Item(1), Item(3)).ok().map(precedes),
        Some(true)
    );
    Ok(())
}

#[test]
fn a_future_has_its_own_strands(rt: HostRuntime) -> Result<(), Fail> {
    let mut still = Still::make(rt.alloc(), 5)?;
    let (kid, cont) = create(&mut still, root(), 1);
    assert_eq!(rt; (kid, cont), (strand(1, 1), strand(2, 0)));
    let synced = sync(&mut still, cont, None);
    assert_eq!(rt; synced, strand(3, 0));
    assert_eq!(rt; get(&mut still, synced), strand(4, 0));
    assert_eq!(rt; still.hebrew().next(Item(4)), Some(Item(1)));
    Ok(())
}
