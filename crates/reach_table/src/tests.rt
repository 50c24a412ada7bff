//! The tables of a worked run, and what they tell.
ghost use Rattle.std.specs.Prelude.{◌≡◌, ◌<◌, length, IsTrue};
ghost use Rattle.reach_table.specs.Telling.{AllKnown};

use crate::reach::Reach;
use order_list::Still;
use std::alloc::Global;
use std::process::Abort;
use std::test::Fail;
use strand_tree::{Strand, create, get, root};

// Whether both lists have all these strands.
fn are_known(lists: &Still, strands: &[Strand]) -> bool
    ensures { IsTrue result → AllKnown (length lists.now.english.order) strands.now }
{
    let known = lists.english().len();
    for w in strands {
        if w.number >= known {
            return false;
        }
    }
    true
}

// Whether both lists have all strands of a table.
fn has_known(lists: &Still, table: &Reach) -> bool
    ensures { IsTrue result → AllKnown (length lists.now.english.order) table.now }
{
    match table.strands() {
        Ok(strands) => are_known(lists, strands.as_slice()),
        Err(_) => false,
    }
}

// Adds the table of a strand that has another's table.
fn share(tables: &mut Vec<Reach>, at: usize) -> Option<()> {
    let table = tables.get(at)?.share().ok()?;
    tables.push(table).ok()
}

// Adds the table of a future's first strand.
fn create_on(tables: &mut Vec<Reach>, at: Strand) -> Option<()> {
    let table = tables.get(at.number as usize)?.created(at).ok()?;
    tables.push(table).ok()
}

fn merge(one: &Reach, other: &Reach, own: u32, last: Strand, lists: &Still) -> Option<Reach> {
    if !has_known(lists, one) {
        return None;
    }
    if !has_known(lists, other) {
        return None;
    }
    if last.number >= lists.english().len() {
        return None;
    }
    one.merged(other, own, Some(last), lists).ok()
}

// Adds the table of a strand after a get.
fn get_on(tables: &mut Vec<Reach>, at: Strand, last: Strand, lists: &Still) -> Option<()> {
    let one = tables.get(at.number as usize)?;
    let other = tables.get(last.number as usize)?;
    let table = merge(one, other, at.future, last, lists)?;
    tables.push(table).ok()
}

// What the table of v tells of u and v.
fn told(tables: &[Reach], lists: &mut Still, u: Strand, v: Strand) -> Option<bool> {
    let table = tables.get(v.number as usize)?;
    let known = lists.english().len();
    if u.number >= known || v.number >= known || !has_known(lists, table) {
        return None;
    }
    table.try_reaches(lists, u, v).ok()
}

// Whether a table has exactly the strands with these numbers, in this order.
fn has(tables: &[Reach], at: usize, numbers: &[u32]) -> Option<bool> {
    let strands = tables.get(at)?.strands().ok()?;
    for (k, number) in numbers.iter().enumerate() {
        if strands.get(k)?.number != *number {
            return Some(false);
        }
    }
    Some(strands.len() == numbers.len())
}

// The tables of the strands of a run with two futures, by number.
fn tables_of(alloc: Global, lists: &Still, s: &[Strand; 7]) -> Option<Vec<Reach>> {
    let mut tables = Vec::new(alloc);
    tables.push(Reach::empty(alloc)).ok()?;
    create_on(&mut tables, s[0])?;
    share(&mut tables, 0)?;
    create_on(&mut tables, s[2])?;
    share(&mut tables, 2)?;
    get_on(&mut tables, s[3], s[1], lists)?;
    get_on(&mut tables, s[4], s[5], lists)?;
    Some(tables)
}

#[test]
fn tables_of_two_futures(rt: HostRuntime) -> Result<(), Fail> {
    let mut still = Still::make(rt.alloc(), 7)?;
    let (one, two) = create(&mut still, root(), 1);
    let (three, four) = create(&mut still, two, 2);
    let five = get(&mut still, three);
    let six = get(&mut still, four);
    let strands = [root(), one, two, three, four, five, six];
    let tables = tables_of(rt.alloc(), &still, &strands).ok_or("no memory")?;
    assert_eq!(rt; has(tables.as_slice(), 1, &[0]), Some(true));
    assert_eq!(rt; has(tables.as_slice(), 2, &[]), Some(true));
    assert_eq!(rt; has(tables.as_slice(), 3, &[2]), Some(true));
    assert_eq!(rt; has(tables.as_slice(), 4, &[]), Some(true));
    assert_eq!(rt; has(tables.as_slice(), 5, &[2, 1]), Some(true));
    assert_eq!(rt; has(tables.as_slice(), 6, &[1, 5]), Some(true));
    let cases = [
        (one, six, true),
        (root(), six, true),
        (three, six, true),
        (six, six, true),
        (root(), five, true),
        (two, five, true),
        (four, five, false),
        (six, five, false),
        (one, four, false),
        (three, four, false),
        (two, one, false),
        (one, three, false),
    ];
    for (u, v, reaches) in cases {
        assert_eq!(rt;
            told(tables.as_slice(), &mut still, u, v),
            Some(reaches),
            "{u:?} to {v:?}"
        );
    }
    Ok(())
}
