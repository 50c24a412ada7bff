//! The races of worked runs.
use crate::whole::races_of;
use fut_base::list::Listing;
use fut_base::record::{Act, Entry, Race, Value};
use std::test::Fail;

// A child and its parent write a cell, before the sync.
#[test]
fn a_child_and_its_parent_write(rt: HostRuntime) -> Result<(), Fail> {
    let one = Listing::make(rt.alloc());
    let entries = [
        Entry {
            task: 0,
            strand: 0,
            act: Act::Spawn {
                code: 0,
                child: 1,
                kid: 1,
                cont: 2,
                args: one,
            },
        },
        Entry {
            task: 1,
            strand: 1,
            act: Act::Write { cell: 0, value: 1 },
        },
        Entry {
            task: 1,
            strand: 1,
            act: Act::End {
                value: Value::Int(0),
            },
        },
        Entry {
            task: 0,
            strand: 2,
            act: Act::Write { cell: 0, value: 2 },
        },
        Entry {
            task: 0,
            strand: 2,
            act: Act::Sync { strand: 3 },
        },
        Entry {
            task: 0,
            strand: 3,
            act: Act::End {
                value: Value::Int(0),
            },
        },
    ];
    let races = races_of(rt.alloc(), &entries)?;
    let expected = [Race {
        cell: 0,
        first: 1,
        second: 3,
    }];
    assert!(rt; races.as_slice() == expected.as_slice());
    Ok(())
}

// A path leads through the ends of two futures.
#[test]
fn a_future_gets_another(rt: HostRuntime) -> Result<(), Fail> {
    let one = Listing::make(rt.alloc());
    let two = Listing::from_vec(vec![in rt.alloc(); Value::Fut(1)]?);
    let entries = [
        Entry {
            task: 0,
            strand: 0,
            act: Act::Create {
                code: 0,
                child: 1,
                kid: 1,
                cont: 2,
                args: one,
            },
        },
        Entry {
            task: 1,
            strand: 1,
            act: Act::Write { cell: 0, value: 1 },
        },
        Entry {
            task: 1,
            strand: 1,
            act: Act::End {
                value: Value::Int(1),
            },
        },
        Entry {
            task: 0,
            strand: 2,
            act: Act::Create {
                code: 1,
                child: 2,
                kid: 3,
                cont: 4,
                args: two,
            },
        },
        Entry {
            task: 2,
            strand: 3,
            act: Act::Get {
                future: 1,
                value: Value::Int(1),
                strand: 5,
            },
        },
        Entry {
            task: 2,
            strand: 5,
            act: Act::End {
                value: Value::Int(1),
            },
        },
        Entry {
            task: 0,
            strand: 4,
            act: Act::Get {
                future: 2,
                value: Value::Int(1),
                strand: 6,
            },
        },
        Entry {
            task: 0,
            strand: 6,
            act: Act::Write { cell: 0, value: 2 },
        },
        Entry {
            task: 0,
            strand: 6,
            act: Act::End {
                value: Value::Int(1),
            },
        },
    ];
    let races = races_of(rt.alloc(), &entries)?;
    assert_eq!(rt; races.len(), 0);
    Ok(())
}

// Three spawned children read a cell, and a fourth writes it.
#[test]
fn the_last_of_three_readers_races(rt: HostRuntime) -> Result<(), Fail> {
    let one = Listing::make(rt.alloc());
    let two = Listing::make(rt.alloc());
    let three = Listing::make(rt.alloc());
    let four = Listing::make(rt.alloc());
    let entries = [
        Entry {
            task: 0,
            strand: 0,
            act: Act::Spawn {
                code: 0,
                child: 1,
                kid: 1,
                cont: 2,
                args: one,
            },
        },
        Entry {
            task: 1,
            strand: 1,
            act: Act::Read { cell: 0, value: 0 },
        },
        Entry {
            task: 1,
            strand: 1,
            act: Act::End {
                value: Value::Int(0),
            },
        },
        Entry {
            task: 0,
            strand: 2,
            act: Act::Spawn {
                code: 0,
                child: 2,
                kid: 3,
                cont: 4,
                args: two,
            },
        },
        Entry {
            task: 2,
            strand: 3,
            act: Act::Read { cell: 0, value: 0 },
        },
        Entry {
            task: 2,
            strand: 3,
            act: Act::End {
                value: Value::Int(0),
            },
        },
        Entry {
            task: 0,
            strand: 4,
            act: Act::Spawn {
                code: 0,
                child: 3,
                kid: 5,
                cont: 6,
                args: three,
            },
        },
        Entry {
            task: 3,
            strand: 5,
            act: Act::Read { cell: 0, value: 0 },
        },
        Entry {
            task: 3,
            strand: 5,
            act: Act::End {
                value: Value::Int(0),
            },
        },
        Entry {
            task: 0,
            strand: 6,
            act: Act::Spawn {
                code: 1,
                child: 4,
                kid: 7,
                cont: 8,
                args: four,
            },
        },
        Entry {
            task: 4,
            strand: 7,
            act: Act::Write { cell: 0, value: 1 },
        },
        Entry {
            task: 4,
            strand: 7,
            act: Act::End {
                value: Value::Int(0),
            },
        },
        Entry {
            task: 0,
            strand: 8,
            act: Act::Sync { strand: 9 },
        },
        Entry {
            task: 0,
            strand: 9,
            act: Act::End {
                value: Value::Int(0),
            },
        },
    ];
    let races = races_of(rt.alloc(), &entries)?;
    let expected = [Race {
        cell: 0,
        first: 7,
        second: 10,
    }];
    assert!(rt; races.as_slice() == expected.as_slice());
    Ok(())
}
