//! Kept reads in two lists: in the order of places, and in the English order.
ghost use Rattle.std.specs.Prelude.{◌≡◌, ◌≢◌, ◌==◌, not, ℕ, ◌+◌, ◌<◌, ◌≤◌, [], ◌∷◌, ◌++◌, ◌⊎◌, length, take, drop, filter, vec_len, vec_capacity, OnOk};
ghost use Rattle.fut_base.specs.Dag.{Among};
ghost use Rattle.access_shards.specs.declared.kept.Access.{Access};
ghost use Rattle.access_shards.specs.Kept.{IsInOrder};
ghost use Rattle.access_shards.specs.Replacing.{IsMarked, AreMarked, AreLeft, IsReplaced, HasSpace};

use crate::kept::Access;
use crate::run::{Run, first_from};
use fut_base::list::NoMemory;
use std::mem;
use strand_tree::Strand;

// Gives the read at a place of the history another strand.
fn mark(readers: &mut Vec<Access>, place: u32, strand: Strand)
    ensures marked { IsInOrder readers.old.items → IsMarked strand.number place readers.old.items readers.new.items }
    ensures those { (a : Access) → Among a readers.new.items → Among a readers.old.items ⊎ (a.strand.number ≡ strand.number) }
    ensures len { vec_len readers.new ≡ vec_len readers.old }
    ensures capacity { vec_capacity readers.new ≡ vec_capacity readers.old }
{
    let at = first_from(readers.as_slice(), place);
    if at < readers.len() && readers[at].place == place {
        readers[at] = Access { place, strand };
    }
}

// Gives the reads of a run another strand.
fn mark_run(readers: &mut Vec<Access>, sorted: &[Access], run: Run, strand: Strand)
    requires start { run.start ≤ run.end }
    requires end { run.end ≤ length sorted.now }
    ensures marked { IsInOrder readers.old.items → AreMarked strand.number sorted.now run.start run.end readers.old.items readers.new.items }
    ensures those { (a : Access) → Among a readers.new.items → Among a readers.old.items ⊎ (a.strand.number ≡ strand.number) }
    ensures len { vec_len readers.new ≡ vec_len readers.old }
    ensures capacity { vec_capacity readers.new ≡ vec_capacity readers.old }
{
    for k in run.start..run.end {
        mark(readers, sorted[k].place, strand);
    }
}

// Takes the reads on a strand out of a list.
fn forget_strand(readers: &mut Vec<Access>, number: u32)
    ensures items { readers.new.items ≡ filter (λ (a : Access). not (a.strand.number == number)) readers.old.items }
    ensures most { vec_len readers.new ≤ vec_len readers.old }
    ensures capacity { vec_capacity readers.new ≡ vec_capacity readers.old }
{
    readers.retain(|a| a.strand.number != number);
}

// Takes the reads of a run, and those on a strand, out of a list. The run is of another list of the same reads; it finds
// them by their places, and gives them that strand.
fn forget_run(readers: &mut Vec<Access>, sorted: &[Access], run: Run, strand: Strand)
    requires end { run.end ≤ length sorted.now }
    ensures left { IsInOrder readers.old.items → AreLeft strand.number sorted.now run.start run.end readers.old.items readers.new.items }
    ensures those { (a : Access) → Among a readers.new.items → Among a readers.old.items }
    ensures most { vec_len readers.new ≤ vec_len readers.old }
    ensures capacity { vec_capacity readers.new ≡ vec_capacity readers.old }
{
    if run.end <= run.start {
        return;
    }
    mark_run(readers, sorted, run, strand);
    forget_strand(readers, strand.number);
}

// Takes a run out of a list, from its end on.
fn cut_run(sorted: &mut Vec<Access>, run: Run)
    requires start { run.start ≤ run.end }
    requires end { run.end ≤ vec_len sorted.old }
    ensures items { sorted.new.items ≡ take run.start sorted.old.items ++ drop run.end sorted.old.items }
    ensures len { vec_len sorted.new + run.end ≡ vec_len sorted.old + run.start }
    ensures capacity { vec_capacity sorted.new ≡ vec_capacity sorted.old }
{
    let mut end = run.end;
    while run.start < end {
        end -= 1;
        sorted.remove(end);
    }
}

/// Puts a full list into the memory of an empty one that is larger.
pub fn make_space(readers: &mut Vec<Access>, room: &mut Vec<Access>)
    requires empty { room.old.items ≡ [] }
    requires room { vec_capacity readers.old ≤ vec_len readers.old → vec_len readers.old < vec_capacity room.old }
    ensures items { readers.new.items ≡ readers.old.items }
    ensures len { vec_len readers.new ≡ vec_len readers.old }
    ensures space { vec_len readers.new < vec_capacity readers.new }
    ensures emptied { room.new.items ≡ [] }
{
    if readers.len() < readers.capacity() {
        return;
    }
    let _moved = room.append(readers);
    mem::swap(readers, room);
}

// Copies accesses into an empty list that has room for them.
fn copy_all(readers: &[Access], copy: &mut Vec<Access>)
    requires empty { copy.old.items ≡ [] }
    requires room { length readers.now ≤ vec_capacity copy.old }
    ensures items { copy.new.items ≡ readers.now }
    ensures len { vec_len copy.new ≡ length readers.now }
    ensures capacity { vec_capacity copy.old ≤ vec_capacity copy.new }
{
    let _copied = copy.extend_from_slice(readers);
}

/// Copies accesses that rise into the list in the English order, which takes the memory of `room` where their own list
/// is not full.
pub fn copy_sorted(readers: &Vec<Access>, room: &mut Vec<Access>, sorted: &mut Vec<Access>)
    requires empty { room.old.items ≡ [] }
    requires room { vec_len readers.now < vec_capacity room.old }
    requires full { vec_capacity readers.now ≤ vec_len readers.now → vec_len readers.now < vec_capacity sorted.old }
    ensures items { sorted.new.items ≡ readers.now.items }
    ensures len { vec_len sorted.new ≡ vec_len readers.now }
    ensures space { vec_len sorted.new < vec_capacity sorted.new }
    ensures emptied { room.new.items ≡ [] }
    ensures left { vec_capacity readers.now ≤ vec_len readers.now → vec_len readers.now < vec_capacity room.new }
{
    sorted.clear();
    if readers.len() < readers.capacity() {
        mem::swap(sorted, room);
        copy_all(readers.as_slice(), sorted);
        return;
    }
    copy_all(readers.as_slice(), sorted);
}

/// Puts an access in the place of a run in the list in the English order, and at the end of the other list, from which it
/// takes that run.
pub fn replace_run(
    readers: &mut Vec<Access>,
    room: &mut Vec<Access>,
    sorted: &mut Vec<Access>,
    run: Run,
    new: Access,
)
    requires start { run.start ≤ run.end }
    requires end { run.end ≤ vec_len sorted.old }
    requires empty { room.old.items ≡ [] }
    requires room { vec_capacity readers.old ≤ vec_len readers.old → vec_len readers.old < vec_capacity room.old }
    requires space { vec_len sorted.old < vec_capacity sorted.old }
    ensures readers { IsInOrder readers.old.items → IsReplaced sorted.old.items run.start run.end new readers.old.items readers.new.items }
    ensures sorted { sorted.new.items ≡ take run.start sorted.old.items ++ new ∷ drop run.end sorted.old.items }
    ensures len { vec_len sorted.new + run.end ≡ vec_len sorted.old + run.start + 1 }
    ensures those { (a : Access) → Among a readers.new.items → Among a readers.old.items ⊎ (new ≡ a) }
    ensures emptied { room.new.items ≡ [] }
{
    forget_run(readers, sorted.as_slice(), run, new.strand);
    make_space(readers, room);
    readers.push_reserved(new);
    cut_run(sorted, run);
    let _put = sorted.insert(run.start, new);
}

/// Makes room for one more access in the list in the English order: where there is one, and where it would have to be made
/// and the other list is full.
pub fn reserve_sorted(
    rise: bool,
    readers: &Vec<Access>,
    sorted: &mut Vec<Access>,
) -> Result<(), NoMemory>
    ensures items { sorted.new.items ≡ sorted.old.items }
    ensures space { OnOk result (HasSpace rise readers.now sorted.new) }
    ensures len { vec_len sorted.new ≡ vec_len sorted.old }
    ensures capacity { vec_capacity sorted.old ≤ vec_capacity sorted.new }
{
    if rise {
        if readers.len() < readers.capacity() {
            return Ok(());
        }
        sorted.reserve(readers.len() + 1)?;
        return Ok(());
    }
    if sorted.len() == 0 {
        return Ok(());
    }
    sorted.reserve(1)?;
    Ok(())
}
