//! Who is handed out, and when.
ghost use Rattle.std.specs.Prelude.{◌≡◌, ◌-◌, ◌^◌, ◌<◌, None};

use crate::cell::FutureCell;
use crate::joining::Joining;
use fut_base::ready::Ready;
use std::test::*;

#[test]
fn waiters_come_out_once_in_the_order_in_which_they_came(rt: HostRuntime) -> Result<(), Fail> {
    let mut place = FutureCell::make(rt.alloc());
    assert_eq!(rt; place.look(), None);
    assert!(rt; place.wait(1u32).is_ok());
    assert!(rt; place.wait(2u32).is_ok());
    let mut waiters = place.put(5i64);
    assert_eq!(rt; place.look(), Some(&5));
    assert_eq!(rt; waiters.pop(), Some(1));
    assert_eq!(rt; waiters.pop(), Some(2));
    assert_eq!(rt; waiters.pop(), None);
    Ok(())
}

#[test]
fn any_number_of_waiters_comes_out(rt: HostRuntime) -> Result<(), Fail> {
    for many in [0u32, 1, 3, 100] {
        let mut place = FutureCell::make(rt.alloc());
        for waiter in 0..many {
            if place.look().is_none() {
                assert!(rt; place.wait(waiter).is_ok());
            }
        }
        let mut waiters = if place.look().is_none() {
            place.put(7i64)
        } else {
            Ready::make(rt.alloc())
        };
        assert_eq!(rt; waiters.len(), many as usize);
        assert_eq!(rt; waiters.at(many as usize), None);
        for waiter in 0..many {
            assert_eq!(rt; waiters.at(0), Some(&waiter));
            assert_eq!(rt; waiters.pop(), Some(waiter));
        }
    }
    Ok(())
}

// A place with so many children.
fn with_children(children: u32) -> Joining<u32>
    requires { children < 2 ^ 32 - 1 }
    ensures { result ≡ record { count = children; waiter = None } }
{
    let mut place = Joining::make();
    for _k in 0..children {
        place.begin();
    }
    place
}

#[test]
fn the_last_child_hands_out_the_one_who_waits(rt: HostRuntime) {
    for children in [1u32, 2, 5] {
        for waits in [false, true] {
            let mut place = with_children(children);
            if waits && place.count() > 0 {
                place.wait(9u32);
            }
            for ended in 1..children + 1 {
                let due = if waits && ended == children {
                    Some(9)
                } else {
                    None
                };
                let given = if place.count() > 0 {
                    place.done()
                } else {
                    None
                };
                assert_eq!(rt; given, due, "child {ended} of {children}");
                assert_eq!(rt; place.count(), children - ended);
            }
        }
    }
}
