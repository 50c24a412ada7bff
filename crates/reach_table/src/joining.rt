//! The blocks of two tables put together.
ghost use Rattle.std.specs.Prelude.{◌≡◌, ◌≢◌, ◌<◌, ◌≤◌, ◌↔◌, true, [], ◌∷◌, length, option_to_list, IfOk, IfSome};
ghost use Rattle.std.specs.Arc.{arc_value};
ghost use Rattle.fut_base.specs.Dag.{Among};
ghost use Rattle.strand_tree.specs.declared.strand.Strand.{Strand};
ghost use Rattle.reach_table.specs.declared.block.Block.{Block};
ghost use Rattle.reach_table.specs.Telling.{AllKnown};
ghost use Rattle.reach_table.specs.Merging.{listed, together, IsGreatest};
ghost use Rattle.reach_table.specs.Blocks.{key_of, flat, IsBlock, AreBlocks, values};
ghost use Rattle.reach_table.specs.Joining.{IsEarlier, HoldsAll, IsLeast, lesser_of, HasKey, IsOfKey, IsNext};

use crate::block::{
    Block, Shared, behind, block_of_future, count_at, front, lacks, made_block, push_block,
    strands_of,
};
use crate::merging::{gathered, greatest, precedes_by};
use fut_base::list::NoMemory;
use order_list::Still;
use std::alloc::Global;
use strand_tree::Strand;

// Whether a strand precedes another one of its future.
fn is_earlier(lists: &Still, x: Strand, w: Strand) -> bool
    requires x_in { x.number < length lists.now.english.order }
    requires w_in { w.number < length lists.now.english.order }
    ensures { result ≡ true → IsEarlier lists.now x w }
{
    x.future == w.future
        && x.number != w.number
        && precedes_by(lists, x, w)
        && !precedes_by(lists, w, x)
}

// Whether these strands begin with the others. It looks at all of them, so that it can look at several at once.
fn begins_with(strands: &[Strand], other: &[Strand]) -> bool
    ensures { result ≡ true → (x : Strand) → Among x other.now → Among x strands.now }
{
    if strands.len() < other.len() {
        return false;
    }
    let mut same = true;
    for n in 0..other.len() {
        same = same
            & (other[n].number == strands[n].number)
            & (other[n].future == strands[n].future);
    }
    same
}

// Whether for each of the other strands one of these is it, or a later one of its future.
fn holds(lists: &Still, strands: &[Strand], other: &[Strand]) -> bool
    requires strands_in { AllKnown (length lists.now.english.order) strands.now }
    requires other_in { AllKnown (length lists.now.english.order) other.now }
    ensures { result ≡ true → HoldsAll lists.now strands.now other.now }
{
    if begins_with(strands, other) {
        return true;
    }
    let mut i = 0;
    let mut j = 0;
    while i < strands.len() && j < other.len() {
        if other[j] == strands[i] {
            j += 1;
        } else if other[j].future <= strands[i].future {
            if !is_earlier(lists, other[j], strands[i]) {
                return false;
            }
            j += 1;
        }
        i += 1;
    }
    j == other.len()
}

fn holds_last(lists: &Still, strands: &[Strand], last: Option<Strand>) -> bool
    requires strands_in { AllKnown (length lists.now.english.order) strands.now }
    requires last_in { AllKnown (length lists.now.english.order) (listed last) }
    ensures { result ≡ true → HoldsAll lists.now strands.now (listed last) }
{
    match last {
        Some(last) => holds(lists, strands, &[last]),
        None => true,
    }
}

// Whether the strands of a block are the greatest of them and of others.
fn is_all(lists: &Still, own: u32, block: &Block, other: &[Strand], last: Option<Strand>) -> bool
    requires block { IsBlock block.now }
    requires block_in { AllKnown (length lists.now.english.order) block.now.strands.items }
    requires other_in { AllKnown (length lists.now.english.order) other.now }
    requires last_in { AllKnown (length lists.now.english.order) (listed last) }
    ensures { result ≡ true → (w : Strand) → Among w block.now.strands.items ↔ IsGreatest lists.now own (together block.now.strands.items other.now last) w }
{
    let strands = block.strands.as_slice();
    block.alone
        && lacks(block, own)
        && holds(lists, strands, other)
        && holds_last(lists, strands, last)
}

// The block, shared, where its strands are the greatest of them and of others.
fn shared_of(
    lists: &Still,
    own: u32,
    block: &[Shared],
    other: &[Strand],
    last: Option<Strand>,
) -> Result<Option<Shared>, NoMemory>
    requires few { length block.now ≤ 1 }
    requires blocks { AreBlocks (values block.now) }
    requires block_in { AllKnown (length lists.now.english.order) (flat (values block.now)) }
    requires other_in { AllKnown (length lists.now.english.order) other.now }
    requires last_in { AllKnown (length lists.now.english.order) (listed last) }
    ensures same { IfOk result (λ made. IfSome made (λ b. arc_value b ∷ [] ≡ values block.now)) }
    ensures strands { IfOk result
        (λ made. IfSome made
        (λ b. (w : Strand) → Among w (flat (values block.now)) ↔ IsGreatest lists.now own (together (flat (values block.now)) other.now last) w)) }
{
    if !block.is_empty() && is_all(lists, own, &block[0], other, last) {
        return Ok(Some(block[0].clone()?));
    }
    Ok(None)
}

// The block of the greatest strands of two blocks and of one strand more, all of the same futures.
fn joined(
    alloc: Global,
    key: u32,
    one: &[Shared],
    other: &[Shared],
    last: Option<Strand>,
    own: u32,
    lists: &Still,
) -> Result<Option<Shared>, NoMemory>
    requires one_few { length one.now ≤ 1 }
    requires one_blocks { AreBlocks (values one.now) }
    requires one_in { AllKnown (length lists.now.english.order) (flat (values one.now)) }
    requires other_few { length other.now ≤ 1 }
    requires other_blocks { AreBlocks (values other.now) }
    requires other_in { AllKnown (length lists.now.english.order) (flat (values other.now)) }
    requires last_in { AllKnown (length lists.now.english.order) (listed last) }
    requires one_keyed { (b : Block) → Among b (values one.now) → b.key ≡ key }
    requires other_keyed { (b : Block) → Among b (values other.now) → b.key ≡ key }
    requires last_keyed { (w : Strand) → Among w (listed last) → key_of w ≡ key }
    ensures blocks { IfOk result (λ made. AreBlocks (values (option_to_list made))) }
    ensures keyed { IfOk result (λ made. (b : Block) → Among b (values (option_to_list made)) → b.key ≡ key) }
    ensures strands { IfOk result
        (λ made. (w : Strand) → Among w (flat (values (option_to_list made)))
        ↔ IsGreatest lists.now own (together (flat (values one.now)) (flat (values other.now)) last) w) }
{
    let first = strands_of(one);
    let second = strands_of(other);
    if let Some(block) = shared_of(lists, own, one, second, last)? {
        return Ok(Some(block));
    }
    if let Some(block) = shared_of(lists, own, other, first, last)? {
        return Ok(Some(block));
    }
    let all = gathered(alloc, first, second, last)?;
    let left = greatest(alloc, all.as_slice(), own, lists)?;
    made_block(alloc, key, left)
}

// The first block's number.
fn first_key(blocks: &[Shared]) -> Option<u32>
    requires { AreBlocks (values blocks.now) }
    ensures { IsLeast (HasKey (values blocks.now)) result }
{
    if blocks.is_empty() {
        return None;
    }
    Some(blocks[0].key)
}

fn key_of_last(last: Option<Strand>) -> Option<u32>
    ensures { IsLeast (IsOfKey last) result }
{
    match last {
        Some(last) => Some(block_of_future(last.future)),
        None => None,
    }
}

fn lesser(one: Option<u32>, other: Option<u32>) -> Option<u32>
    ensures { result ≡ lesser_of one other }
{
    match (one, other) {
        (Some(one), Some(other)) => { if one < other { Some(one) } else { Some(other) } }
        (Some(one), None) => Some(one),
        (None, other) => other,
    }
}

// The number of the next block of two tables and a strand.
fn next_key(one: &[Shared], other: &[Shared], last: Option<Strand>) -> Option<u32>
    requires one { AreBlocks (values one.now) }
    requires other { AreBlocks (values other.now) }
    ensures { IsLeast (IsNext (values one.now) (values other.now) last) result }
{
    lesser(lesser(first_key(one), first_key(other)), key_of_last(last))
}

// The strand, where it is of this block.
fn taken(last: Option<Strand>, key: u32) -> Option<Strand>
    ensures { (w : Strand) → Among w (listed result) ↔ (Among w (listed last) × (key_of w ≡ key)) }
{
    match last {
        Some(last) => {
            if block_of_future(last.future) == key {
                Some(last)
            } else {
                None
            }
        }
        None => None,
    }
}

// The strand, where it is of another block.
fn left(last: Option<Strand>, key: u32) -> Option<Strand>
    ensures strands { (w : Strand) → Among w (listed result) ↔ (Among w (listed last) × (key_of w ≢ key)) }
    ensures fewer { length (listed result) ≤ length (listed last) }
    ensures less { IsOfKey last key → length (listed result) < length (listed last) }
{
    match last {
        Some(last) => {
            if block_of_future(last.future) == key {
                None
            } else {
                Some(last)
            }
        }
        None => None,
    }
}

/// The blocks of the strands of two tables and of one more that are greatest. Where the strands of a block of either table
/// are greatest of its futures, it is shared.
pub fn join(
    alloc: Global,
    one: &[Shared],
    other: &[Shared],
    last: Option<Strand>,
    own: u32,
    lists: &Still,
) -> Result<Vec<Shared>, NoMemory>
    requires one { AreBlocks (values one.now) }
    requires other { AreBlocks (values other.now) }
    requires known { AllKnown (length lists.now.english.order) (together (flat (values one.now)) (flat (values other.now)) last) }
    ensures blocks { IfOk result (λ all. AreBlocks (values all.items)) }
    ensures strands { IfOk result
        (λ all. (w : Strand) → Among w (flat (values all.items)) ↔ IsGreatest lists.now own
        (together (flat (values one.now)) (flat (values other.now)) last) w) }
{
    let mut all = Vec::new(alloc);
    all.reserve(one.len().max(other.len()) + 1)?;
    let mut one = one;
    let mut other = other;
    let mut last = last;
    while let Some(key) = next_key(one, other, last) {
        let first = count_at(one, key);
        let second = count_at(other, key);
        let made = joined(
            alloc,
            key,
            front(one, first),
            front(other, second),
            taken(last, key),
            own,
            lists,
        )?;
        push_block(&mut all, made)?;
        one = behind(one, first);
        other = behind(other, second);
        last = left(last, key);
    }
    Ok(all)
}
