//! A place that gives its task away and takes it back.
ghost use Rattle.std.specs.Prelude.{◌≡◌, []};
ghost use Rattle.run_place.specs.Placed.{book_of};

use crate::place::Place;
use event_clock::clock::{Clock, Pass};
use order_query::{Orders, Reader};
use run_names::Run;
use std::alloc::Global;
use std::marker::Brand;
use std::process::Abort;
use std::test::Fail;

// The strand and the future where the root task stands after it was away.
fn there_and_back<J: Run>(
    alloc: Global,
    clock: &Clock,
    orders: &Orders,
    pass: Pass,
    reader: Reader,
) -> (u32, u32)
    requires run { (clock.now ≡ J.clock) × (orders.now ≡ J.orders) }
    requires home { (pass.clock ≡ J.clock.id) × (reader.home ≡ J.orders) }
    requires none { (book_of pass.view ≡ []) × (reader.log ≡ []) }
{
    let mut place = Place::<J>::root(alloc, pass, reader);
    let (pass, reader) = place.split(clock, orders);
    place.learn(clock, orders, pass, reader);
    (place.at.number, place.at.future)
}

#[test]
fn the_root_stays_where_it_is(rt: HostRuntime) -> Result<(), Fail> {
    let Ok((clock, mut holders)) = Clock::make(rt.alloc(), 1, 3) else {
        return Ok(());
    };
    let Ok((orders, _writer, reader)) = Orders::make(rt.alloc(), 7) else {
        return Ok(());
    };
    let Some(mut holder) = holders.pop() else {
        return Ok(());
    };
    let pass = clock.note(&mut holder, 0);
    let stands = there_and_back::<Brand>(rt.alloc(), &clock, &orders, pass, reader);
    assert_eq!(rt; stands, (0, 0));
    Ok(())
}
