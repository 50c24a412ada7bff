//! Two tables put together.
ghost use Rattle.std.specs.Prelude.{◌≡◌, ℕ, ◌<◌, ◌≤◌, ◌++◌, ◌↔◌, ◌⊎◌, ◌+◌, true, List, [], ◌∷◌, length, take, drop, IsTrue, IfOk, OnOk};
ghost use Rattle.fut_base.specs.Dag.{Among};
ghost use Rattle.strand_tree.specs.declared.strand.Strand.{Strand};
ghost use Rattle.order_list.specs.Sides.{Lists};
ghost use Rattle.reach_table.specs.Sorted.{IsBelow, IsRising};
ghost use Rattle.reach_table.specs.Telling.{AllKnown};
ghost use Rattle.reach_table.specs.Merging.{precedes_in, together, strand_at, PrecedesOne, IsGreatest};

use crate::group::of_future;
use fut_base::list::NoMemory;
use order_list::{Sides, Still};
use std::alloc::Global;
use strand_tree::{Strand, precedes};

fn is_below(x: Strand, y: Strand) -> bool
    ensures { IsTrue result ↔ IsBelow x y }
{
    x.future < y.future || (x.future == y.future && x.number < y.number)
}

/// The strands of two lists, each once, with room for one more.
pub fn union(alloc: Global, one: &[Strand], other: &[Strand]) -> Result<Vec<Strand>, NoMemory>
    requires one { IsRising one.now }
    requires other { IsRising other.now }
    ensures rising { IfOk result (λ all. IsRising all.items) }
    ensures strands { IfOk result (λ all. (w : Strand) → Among w all.items ↔ (Among w one.now ⊎ Among w other.now)) }
{
    let mut all = Vec::new(alloc);
    all.reserve(one.len() + other.len() + 1)?;
    let mut start = 0;
    let mut i = 0;
    let mut j = 0;
    while i < one.len() && j < other.len() {
        if one[i] == other[j] {
            i += 1;
            j += 1;
        } else if is_below(one[i], other[j]) {
            i += 1;
        } else {
            all.extend_from_slice(&one[start..i])?;
            all.push(other[j])?;
            start = i;
            j += 1;
        }
    }
    all.extend_from_slice(&one[start..])?;
    all.extend_from_slice(&other[j..])?;
    Ok(all)
}

// How many of the first strands are below one, up to the first that is not.
fn count_below(strands: &[Strand], one: Strand) -> usize
    requires { IsRising strands.now }
    ensures within { result ≤ length strands.now }
    ensures below { (w : Strand) → Among w (take result strands.now) → IsBelow w one }
    ensures behind { (w : Strand) → Among w (drop result strands.now) → IsBelow w one → ⊥ }
{
    let mut low = 0;
    let mut high = strands.len();
    while low < high {
        let middle = low + (high - low) / 2;
        if is_below(strands[middle], one) {
            low = middle + 1;
        } else {
            high = middle;
        }
    }
    low
}

// Puts a strand in among these, where it is not there yet.
fn put_in(all: &mut Vec<Strand>, one: Strand) -> Result<(), NoMemory>
    requires { IsRising all.old.items }
    ensures rising { OnOk result (IsRising all.new.items) }
    ensures strands { OnOk result ((w : Strand) → Among w all.new.items ↔ (Among w all.old.items ⊎ Among w (one ∷ []))) }
{
    let at = count_below(all.as_slice(), one);
    if at < all.len() && all[at] == one {
        return Ok(());
    }
    all.insert(at, one)?;
    Ok(())
}

/// The strands of two tables and one more, each once.
pub fn gathered(
    alloc: Global,
    one: &[Strand],
    other: &[Strand],
    last: Option<Strand>,
) -> Result<Vec<Strand>, NoMemory>
    requires one { IsRising one.now }
    requires other { IsRising other.now }
    ensures rising { IfOk result (λ all. IsRising all.items) }
    ensures strands { IfOk result (λ all. (w : Strand) → Among w all.items ↔ Among w (together one.now other.now last)) }
{
    let mut all = union(alloc, one, other)?;
    match last {
        Some(last) => put_in(&mut all, last)?,
        None => {}
    }
    Ok(all)
}

/// Whether one strand stands before another in both lists.
pub fn precedes_by(lists: &Still, x: Strand, y: Strand) -> bool
    requires x_in { x.number < length lists.now.english.order }
    requires y_in { y.number < length lists.now.english.order }
    ensures { result ≡ precedes_in lists.now x.number y.number }
{
    precedes(Sides {
        english: lists.english().before(x.item(), y.item()),
        hebrew: lists.hebrew().before(x.item(), y.item()),
    })
}

// Whether a strand precedes another one of these.
fn precedes_one(lists: &Still, at: Strand, strands: &[Strand]) -> bool
    requires at_in { at.number < length lists.now.english.order }
    requires strands_in { AllKnown (length lists.now.english.order) strands.now }
    ensures { IsTrue result ↔ PrecedesOne lists.now at strands.now }
{
    for w in strands {
        if w.number != at.number && precedes_by(lists, at, *w) {
            return true;
        }
    }
    false
}

// Whether the strands before a place are of lower futures than the one there.
fn is_first_of_future(strands: &[Strand], place: usize) -> bool
    requires within { place < length strands.now }
    requires rising { IsRising strands.now }
    ensures { result ≡ true → (w : Strand) → Among w (take place strands.now) → w.future < (strand_at strands.now place).future }
{
    place == 0 || strands[place - 1].future < strands[place].future
}

// Whether the strands behind a place are of higher futures than the one there.
fn is_last_of_future(strands: &[Strand], place: usize) -> bool
    requires within { place < length strands.now }
    requires rising { IsRising strands.now }
    ensures { result ≡ true → (w : Strand) → Among w (drop (place + 1) strands.now) → (strand_at strands.now place).future < w.future }
{
    place + 1 == strands.len() || strands[place].future < strands[place + 1].future
}

// Whether the strand at a place is not of future `own` and precedes no other one of its future. Most are alone of their
// future, which their neighbours tell.
fn is_greatest(lists: &Still, own: u32, place: usize, strands: &[Strand]) -> bool
    requires within { place < length strands.now }
    requires rising { IsRising strands.now }
    requires strands_in { AllKnown (length lists.now.english.order) strands.now }
    ensures { IsTrue result ↔ IsGreatest lists.now own strands.now (strand_at strands.now place) }
{
    let at = strands[place];
    if at.future == own {
        return false;
    }
    if is_first_of_future(strands, place) && is_last_of_future(strands, place) {
        return true;
    }
    !precedes_one(lists, at, of_future(strands, at.future))
}

/// Whether each of the strands from one place to another is of a lower future than the next.
pub fn rises(strands: &[Strand], from: usize, to: usize) -> bool
    requires order { from ≤ to }
    requires within { to < length strands.now }
    ensures { result ≡ true → (n : ℕ) → from ≤ n → n < to → (strand_at strands.now n).future < (strand_at strands.now (n + 1)).future }
{
    let mut future = strands[from].future;
    for n in from..to {
        let next = strands[n + 1].future;
        if next <= future {
            return false;
        }
        future = next;
    }
    true
}

// Whether the strands from one place up to another are alone of their futures, and none is of future `own`.
fn are_alone(strands: &[Strand], own: u32, from: usize, to: usize) -> bool
    requires some { from < to }
    requires within { to ≤ length strands.now }
    requires rising { IsRising strands.now }
    ensures { result ≡ true → (lists : Lists) (n : ℕ) → from ≤ n → n < to → IsGreatest lists own strands.now (strand_at strands.now n) }
{
    let last = to - 1;
    if own >= strands[from].future && own <= strands[last].future {
        return false;
    }
    if !is_first_of_future(strands, from) || !is_last_of_future(strands, last) {
        return false;
    }
    rises(strands, from, last)
}

// The next count of strands to look at.
fn wider(width: usize) -> usize
    ensures { width ≤ result }
{
    if width < 256 {
        return width + width;
    }
    width
}

/// The strands that are not of future `own` and do not precede another one of the same future.
pub fn greatest(
    alloc: Global,
    strands: &[Strand],
    own: u32,
    lists: &Still,
) -> Result<Vec<Strand>, NoMemory>
    requires rising { IsRising strands.now }
    requires strands_in { AllKnown (length lists.now.english.order) strands.now }
    ensures rising { IfOk result (λ left. IsRising left.items) }
    ensures strands { IfOk result (λ left. (w : Strand) → Among w left.items ↔ IsGreatest lists.now own strands.now w) }
{
    let mut left = Vec::new(alloc);
    left.reserve(strands.len())?;
    let mut start = 0;
    let mut place = 0;
    let mut width = 1;
    while place < strands.len() {
        let end = if width < strands.len() - place {
            place + width
        } else {
            strands.len()
        };
        if are_alone(strands, own, place, end) {
            place = end;
            width = wider(width);
        } else {
            if !is_greatest(lists, own, place, strands) {
                left.extend_from_slice(&strands[start..place])?;
                start = place + 1;
            }
            place += 1;
            width = 1;
        }
    }
    left.extend_from_slice(&strands[start..])?;
    Ok(left)
}
