//! Which reads are kept with one more.
ghost use Rattle.std.specs.Prelude.{◌≡◌, ℕ, ◌+◌, ◌^◌, ◌<◌, ◌≤◌, [], ◌∷◌, ◌++◌, ◌⊎◌, true, false, length, take, vec_len, vec_capacity, IfOk, IfErr, OnOk, OnErr};
ghost use Rattle.fut_base.specs.Dag.{Among};
ghost use Rattle.order_list.specs.Frames.{IsAsBefore};
ghost use Rattle.reach_table.specs.Telling.{AllKnown, HasMovedLast, AsksAtMost};
ghost use Rattle.access_shards.specs.declared.kept.Access.{Access};
ghost use Rattle.access_shards.specs.Finding.{AllOnKnown};
ghost use Rattle.access_shards.specs.Logged.{in_english, AreListed};
ghost use Rattle.access_shards.specs.Reading.{EndsBefore, KeepsAll, KeepsRead};
ghost use Rattle.access_shards.specs.Replacing.{HasSpace};
ghost use Rattle.access_shards.specs.Runs.{EndsIn};

use crate::finding::take_unreached;
use crate::kept::Access;
use crate::replacing::{copy_sorted, make_space, replace_run};
use crate::run::find_run;
use order_list::{Judge, Moved};
use reach_table::Reach;
use std::mem;
use strand_tree::Strand;

// Puts an access at the end of others, without those from which its strand is reached. It looks at each. The list is made
// in `room`, which takes the memory of the old one.
fn replace_all<J: Judge>(
    judge: &mut J,
    reach: &Reach,
    readers: &mut Vec<Access>,
    room: &mut Vec<Access>,
    new: Access,
) -> Result<(), Moved>
    requires at_known { new.strand.number < J.known judge.old }
    requires table_known { AllKnown (J.known judge.old) reach.now }
    requires kept_known { AllOnKnown (J.known judge.old) readers.old.items }
    requires empty { room.old.items ≡ [] }
    requires room { vec_len readers.old < vec_capacity room.old }
    ensures keeps { OnOk result (KeepsAll reach.now new (J.known judge.old) (J.english judge.old) (J.hebrew judge.old) readers.old.items readers.new.items) }
    ensures those { (a : Access) → Among a readers.new.items → Among a readers.old.items ⊎ (new ≡ a) }
    ensures emptied { room.new.items ≡ [] }
    ensures unchanged { OnErr result (readers.new ≡ readers.old) }
    ensures capacity { OnErr result (vec_capacity room.new ≡ vec_capacity room.old) }
    ensures moved { IfErr result (λ moved. HasMovedLast moved (J.may_move judge.old) (J.loaded judge.old) (J.loaded judge.new)) }
    ensures asks { AsksAtMost reach.now (vec_len readers.old) (J.asked judge.old) (J.asked judge.new) }
    ensures judge { IsAsBefore J.Judge judge.old judge.new }
{
    take_unreached(judge, reach, new.strand, readers.as_slice(), room)?;
    room.push_reserved(new);
    mem::swap(readers, room);
    room.clear();
    Ok(())
}

// Whether the last access, where there is one, is on a strand of a future.
fn ends_in(readers: &[Access], future: u32) -> bool
    ensures tells { result ≡ true → EndsIn future readers.now }
    ensures always { EndsIn future readers.now → result ≡ true }
{
    if readers.len() == 0 {
        return true;
    }
    readers[readers.len() - 1].strand.future == future
}

// Whether there is a list of reads in the English order that do not rise, of no more than all reads, whose last is on a
// strand of a future.
fn is_listed(rise: bool, readers: &Vec<Access>, sorted: &Vec<Access>, future: u32) -> bool
    ensures tells { result ≡ true → (rise ≡ false) × (0 < vec_len sorted.now) × (vec_len sorted.now ≤ vec_len readers.now) × EndsIn future sorted.now.items }
    ensures always { rise ≡ false → 0 < vec_len sorted.now → vec_len sorted.now ≤ vec_len readers.now → EndsIn future sorted.now.items → result ≡ true }
{
    if rise {
        return false;
    }
    if sorted.len() == 0 || sorted.len() > readers.len() {
        return false;
    }
    ends_in(sorted.as_slice(), future)
}

// Puts an access at the end of those that rise, in the place of the last ones from a place on.
fn replace_end(readers: &mut Vec<Access>, room: &mut Vec<Access>, start: usize, new: Access)
    requires start { start ≤ vec_len readers.old }
    requires empty { room.old.items ≡ [] }
    requires room { vec_len readers.old < vec_capacity room.old }
    ensures items { readers.new.items ≡ take start readers.old.items ++ new ∷ [] }
    ensures len { vec_len readers.new ≡ start + 1 }
    ensures emptied { room.new.items ≡ [] }
{
    make_space(readers, room);
    readers.truncate(start);
    readers.push_reserved(new);
}

/// Puts an access at the end of those that are kept as reads, without those from which its strand is reached. `rise` says
/// that they rise in the English order of one future, and the answer says it of the new ones; else they are all in `sorted`
/// in that order, or it is empty. Where there is one of these, and the access is of that future, few are looked at: those
/// that are dropped, two more, and one for each time that their number can be halved, if the access is not after all.
pub fn keep_read<J: Judge>(
    judge: &mut J,
    reach: &Reach,
    readers: &mut Vec<Access>,
    room: &mut Vec<Access>,
    sorted: &mut Vec<Access>,
    rise: bool,
    new: Access,
) -> Result<bool, Moved>
    requires at_known { new.strand.number < J.known judge.old }
    requires table_known { AllKnown (J.known judge.old) reach.now }
    requires kept_known { AllOnKnown (J.known judge.old) readers.old.items }
    requires empty { room.old.items ≡ [] }
    requires room { vec_len readers.old < vec_capacity room.old }
    requires space { HasSpace rise readers.old sorted.old }
    ensures keeps { IfOk result (λ rises. KeepsRead reach.now new (J.known judge.old) (J.english judge.old) (J.hebrew judge.old)
        rise readers.old.items sorted.old.items rises readers.new.items sorted.new.items) }
    ensures rises { IfOk result (λ rises. rise ≡ true → EndsBefore (J.english judge.old) new.strand readers.old.items → rises ≡ true) }
    ensures listed { IfOk result (λ rises. AreListed new.strand.future rise readers.old.items sorted.old.items → vec_len sorted.old ≤ vec_len readers.old
        → AreListed new.strand.future rises readers.new.items sorted.new.items) }
    ensures those { (a : Access) → Among a readers.new.items → Among a readers.old.items ⊎ (new ≡ a) }
    ensures emptied { room.new.items ≡ [] }
    ensures unchanged { OnErr result (readers.new ≡ readers.old) }
    ensures sorted_unchanged { OnErr result (sorted.new ≡ sorted.old) }
    ensures capacity { OnErr result (vec_capacity room.new ≡ vec_capacity room.old) }
    ensures moved { IfErr result (λ moved. HasMovedLast moved (J.may_move judge.old) (J.loaded judge.old) (J.loaded judge.new)) }
    ensures asks { AsksAtMost reach.now (vec_len readers.old) (J.asked judge.old) (J.asked judge.new) }
    ensures drops_each { rise ≡ true → EndsBefore (J.english judge.old) new.strand readers.old.items
        → OnOk result (J.asked judge.new + vec_len readers.new ≤ J.asked judge.old + vec_len readers.old + 3) }
    ensures halves { AreListed new.strand.future rise readers.old.items sorted.old.items → vec_len sorted.old ≤ vec_len readers.old
        → (bits : ℕ) → length (in_english rise readers.old.items sorted.old.items) < 2 ^ bits
        → IfOk result (λ rises. J.asked judge.new + length (in_english rises readers.new.items sorted.new.items)
        ≤ J.asked judge.old + length (in_english rise readers.old.items sorted.old.items) + bits + 3) }
    ensures judge { IsAsBefore J.Judge judge.old judge.new }
{
    if rise && ends_in(readers.as_slice(), new.strand.future) {
        let run = find_run(
            judge,
            new.strand,
            readers.as_slice(),
            readers.as_slice(),
            false,
        )?;
        if run.end == readers.len() {
            replace_end(readers, room, run.start, new);
            *sorted = Vec::new(*readers.allocator());
            return Ok(true);
        }
        copy_sorted(readers, room, sorted);
        replace_run(readers, room, sorted, run, new);
        return Ok(false);
    }
    if is_listed(rise, readers, sorted, new.strand.future) {
        let run = find_run(
            judge,
            new.strand,
            readers.as_slice(),
            sorted.as_slice(),
            true,
        )?;
        replace_run(readers, room, sorted, run, new);
        return Ok(false);
    }
    replace_all(judge, reach, readers, room, new)?;
    sorted.clear();
    Ok(readers.len() == 1)
}
