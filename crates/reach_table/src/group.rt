//! The strands of one future in a table, and whether one of them is reached.
ghost use Rattle.std.specs.Prelude.{◌≡◌, ◌+◌, ◌<◌, ◌≤◌, ◌↔◌, true, length, take, drop, IfOk, IfErr};
ghost use Rattle.order_list.specs.Frames.{IsAsBefore};
ghost use Rattle.fut_base.specs.Dag.{Among};
ghost use Rattle.strand_tree.specs.declared.strand.Strand.{Strand};
ghost use Rattle.reach_table.specs.Sorted.{IsRising};
ghost use Rattle.reach_table.specs.Telling.{AllKnown, IsOrPrecedes, ReachesOne, HasMovedLast};

use order_list::{Judge, Moved};
use strand_tree::{Strand, precedes};

// The place of the first strand of a future that is at least `bound`, or the length.
fn first_from(strands: &[Strand], bound: u64) -> usize
    requires { IsRising strands.now }
    ensures within { result ≤ length strands.now }
    ensures before { (w : Strand) → Among w (take result strands.now) → w.future < bound }
    ensures after { (w : Strand) → Among w (drop result strands.now) → bound ≤ w.future }
{
    let mut low = 0;
    let mut high = strands.len();
    while low < high {
        let middle = low + (high - low) / 2;
        if u64::from(strands[middle].future) < bound {
            low = middle + 1;
        } else {
            high = middle;
        }
    }
    low
}

/// The strands of one future, found by binary search.
pub fn of_future(strands: &[Strand], future: u32) -> &[Strand]
    requires { IsRising strands.now }
    ensures rising { IsRising result.now }
    ensures strands { (w : Strand) → Among w result.now ↔ (Among w strands.now × (w.future ≡ future)) }
{
    let bound = u64::from(future);
    let rest = &strands[first_from(strands, bound)..];
    &rest[..first_from(rest, bound + 1)]
}

/// Whether two strands are the same, or one stands before the other in both lists.
pub fn is_or_precedes<J: Judge>(judge: &mut J, u: Strand, w: Strand) -> Result<bool, Moved>
    requires u_known { u.number < J.known judge.old }
    requires w_known { w.number < J.known judge.old }
    ensures tells { IfOk result (λ yes. (yes ≡ true) ↔ IsOrPrecedes (J.english judge.old) (J.hebrew judge.old) u.number w.number) }
    ensures moved { IfErr result (λ moved. HasMovedLast moved (J.may_move judge.old) (J.loaded judge.old) (J.loaded judge.new)) }
    ensures asks { J.asked judge.new ≤ J.asked judge.old + 1 }
    ensures judge { IsAsBefore J.Judge judge.old judge.new }
{
    if u.number == w.number {
        return Ok(true);
    }
    let sides = judge.try_sides(u.item(), w.item())?;
    Ok(precedes(sides))
}

/// Whether a strand is one of these, or stands before one of them in both lists.
pub fn reaches_one<J: Judge>(judge: &mut J, u: Strand, strands: &[Strand]) -> Result<bool, Moved>
    requires u_known { u.number < J.known judge.old }
    requires strands_known { AllKnown (J.known judge.old) strands.now }
    ensures tells { IfOk result (λ yes. (yes ≡ true) ↔ ReachesOne (J.english judge.old) (J.hebrew judge.old) u.number strands.now) }
    ensures moved { IfErr result (λ moved. HasMovedLast moved (J.may_move judge.old) (J.loaded judge.old) (J.loaded judge.new)) }
    ensures asks { J.asked judge.new ≤ J.asked judge.old + length strands.now }
    ensures judge { IsAsBefore J.Judge judge.old judge.new }
{
    for w in strands {
        if is_or_precedes(judge, u, *w)? {
            return Ok(true);
        }
    }
    Ok(false)
}
