//! Blocks of a table: strands whose futures have 64 neighbouring numbers.
ghost use Rattle.std.specs.Prelude.{◌≡◌, ◌≢◌, ◌+◌, ◌<◌, ◌≤◌, ◌/◌, ◌%◌, ◌++◌, ◌↔◌, true, IsTrue, [], ◌∷◌, length, take, drop, option_to_list, IfOk, OnOk};
ghost use Rattle.std.specs.Int.{bit_at};
ghost use Rattle.fut_base.specs.Dag.{Among};
ghost use Rattle.strand_tree.specs.declared.strand.Strand.{Strand};
ghost use Rattle.reach_table.specs.Sorted.{IsRising};
ghost use Rattle.reach_table.specs.Telling.{HasOneOfEach};
ghost use Rattle.reach_table.specs.declared.block.Block.{Block};
ghost use Rattle.reach_table.specs.Blocks.{key_of, flat, IsMaskOf, IsBlock, AreBlocks, values};

use crate::group::of_future;
use crate::merging::{rises, union};
use fut_base::list::NoMemory;
use std::alloc::Global;
use std::sync::Arc;
use strand_tree::Strand;

/// The strands of 64 neighbouring numbers of futures.
#[derive(Drop)]
pub struct Block {
    /// The numbers of the futures, divided by 64.
    pub key: u32,
    /// Which of the 64 futures have strands here: bit n is of the one whose number is n more than a multiple of 64.
    pub mask: u64,
    /// Whether there is one strand of each future at most.
    pub alone: bool,
    /// The strands, by future and then by number, each once.
    pub strands: Vec<Strand>,
}

/// A block that tables share.
pub type Shared = Arc<Block>;

/// The number of the block in which a future's strands stand.
pub fn block_of_future(future: u32) -> u32
    ensures { result ≡ future / 64 }
{
    future / 64
}

/// The strands of a block, where there is one.
pub fn strands_of(block: &[Shared]) -> &[Strand]
    requires few { length block.now ≤ 1 }
    requires blocks { AreBlocks (values block.now) }
    ensures strands { result.now ≡ flat (values block.now) }
    ensures rising { IsRising result.now }
{
    if block.is_empty() {
        return &[];
    }
    block[0].strands.as_slice()
}

// Which of 64 futures these strands are of.
fn mask_of(strands: &[Strand]) -> u64
    ensures { IsMaskOf result strands.now }
{
    let mut mask = 0u64;
    for w in strands {
        mask |= 1 << (w.future % 64);
    }
    mask
}

// Whether a future is among those of a mask.
fn has_future(mask: u64, future: u32) -> bool
    ensures { IsTrue result ↔ (bit_at mask (future % 64) ≡ 1) }
{
    (mask >> (future % 64)) & 1 == 1
}

/// Whether none of a block's strands is of this future.
pub fn lacks(block: &Block, future: u32) -> bool
    requires { IsBlock block.now }
    ensures { result ≡ true → (w : Strand) → Among w block.now.strands.items → w.future ≢ future }
{
    block.key != block_of_future(future) || !has_future(block.mask, future)
}

// Whether there is one strand of each future at most.
fn is_alone(strands: &[Strand]) -> bool
    requires some { 0 < length strands.now }
    requires rising { IsRising strands.now }
    ensures { result ≡ true → HasOneOfEach strands.now }
{
    rises(strands, 0, strands.len() - 1)
}

/// The block of these strands; none where there are no strands.
pub fn made_block(alloc: Global, key: u32, strands: Vec<Strand>) -> Result<Option<Shared>, NoMemory>
    requires rising { IsRising strands.items }
    requires keyed { (w : Strand) → Among w strands.items → key_of w ≡ key }
    ensures blocks { IfOk result (λ made. AreBlocks (values (option_to_list made))) }
    ensures keyed { IfOk result (λ made. (b : Block) → Among b (values (option_to_list made)) → b.key ≡ key) }
    ensures strands { IfOk result (λ made. flat (values (option_to_list made)) ≡ strands.items) }
{
    if strands.is_empty() {
        return Ok(None);
    }
    let mask = mask_of(strands.as_slice());
    let alone = is_alone(strands.as_slice());
    let block = Arc::new(
        alloc,
        Block {
            key,
            mask,
            alone,
            strands,
        },
    )?;
    Ok(Some(block))
}

/// The place of the first block that is not below block `key`, or the length.
pub fn first_block(blocks: &[Shared], key: u32) -> usize
    requires { AreBlocks (values blocks.now) }
    ensures within { result ≤ length blocks.now }
    ensures before { (b : Block) → Among b (take result (values blocks.now)) → b.key < key }
    ensures after { (b : Block) → Among b (drop result (values blocks.now)) → key ≤ b.key }
{
    let mut low = 0;
    let mut high = blocks.len();
    while low < high {
        let middle = low + (high - low) / 2;
        if blocks[middle].key < key {
            low = middle + 1;
        } else {
            high = middle;
        }
    }
    low
}

/// How many of these blocks, which are not below block `key`, are that block: the first one, or none.
pub fn count_at(blocks: &[Shared], key: u32) -> usize
    requires blocks { AreBlocks (values blocks.now) }
    requires least { (b : Block) → Among b (values blocks.now) → key ≤ b.key }
    ensures within { result ≤ length blocks.now }
    ensures few { result ≤ 1 }
    ensures at { (b : Block) → Among b (take result (values blocks.now)) → b.key ≡ key }
    ensures rest { (b : Block) → Among b (drop result (values blocks.now)) → key < b.key }
{
    if !blocks.is_empty() && blocks[0].key == key {
        return 1;
    }
    0
}

/// The first ones of these blocks.
pub fn front(blocks: &[Shared], count: usize) -> &[Shared]
    requires { count ≤ length blocks.now }
    ensures blocks { values result.now ≡ take count (values blocks.now) }
    ensures len { length result.now ≡ count }
{
    &blocks[..count]
}

/// The blocks behind the first ones.
pub fn behind(blocks: &[Shared], count: usize) -> &[Shared]
    requires { count ≤ length blocks.now }
    ensures blocks { values result.now ≡ drop count (values blocks.now) }
    ensures len { length result.now + count ≡ length blocks.now }
{
    &blocks[count..]
}

// The block of these futures, where it is there.
fn block_at(blocks: &[Shared], key: u32) -> &[Shared]
    requires { AreBlocks (values blocks.now) }
    ensures few { length result.now ≤ 1 }
    ensures blocks { AreBlocks (values result.now) }
    ensures strands { (w : Strand) → Among w (flat (values result.now)) ↔ (Among w (flat (values blocks.now)) × (key_of w ≡ key)) }
{
    let rest = behind(blocks, first_block(blocks, key));
    front(rest, count_at(rest, key))
}

/// The strands of a future.
pub fn strands_of_future(blocks: &[Shared], future: u32) -> &[Strand]
    requires { AreBlocks (values blocks.now) }
    ensures rising { IsRising result.now }
    ensures strands { (w : Strand) → Among w result.now ↔ (Among w (flat (values blocks.now)) × (w.future ≡ future)) }
{
    let block = block_at(blocks, block_of_future(future));
    if block.is_empty() || lacks(&block[0], future) {
        return &[];
    }
    of_future(strands_of(block), future)
}

/// Adds blocks at the end, which are shared.
pub fn share_blocks(all: &mut Vec<Shared>, blocks: &[Shared]) -> Result<(), NoMemory>
    ensures { OnOk result (values all.new.items ≡ values all.old.items ++ values blocks.now) }
{
    for block in blocks {
        all.push(block.clone()?)?;
    }
    Ok(())
}

/// Adds a block at the end, where there is one.
pub fn push_block(all: &mut Vec<Shared>, block: Option<Shared>) -> Result<(), NoMemory>
    ensures { OnOk result (values all.new.items ≡ values all.old.items ++ values (option_to_list block)) }
{
    match block {
        Some(block) => all.push(block)?,
        None => {}
    }
    Ok(())
}

/// The blocks with one more strand, which share all blocks but its own.
pub fn with_one(alloc: Global, blocks: &[Shared], one: Strand) -> Result<Vec<Shared>, NoMemory>
    requires { AreBlocks (values blocks.now) }
    ensures blocks { IfOk result (λ all. AreBlocks (values all.items)) }
    ensures strands { IfOk result (λ all. (w : Strand) → Among w (flat (values all.items)) ↔ Among w (flat (values blocks.now) ++ one ∷ [])) }
{
    let key = block_of_future(one.future);
    let at = first_block(blocks, key);
    let rest = behind(blocks, at);
    let count = count_at(rest, key);
    let strands = union(alloc, strands_of(front(rest, count)), &[one])?;
    let made = made_block(alloc, key, strands)?;
    let mut all = Vec::new(alloc);
    all.reserve(blocks.len() + 1)?;
    share_blocks(&mut all, front(blocks, at))?;
    push_block(&mut all, made)?;
    share_blocks(&mut all, behind(rest, count))?;
    Ok(all)
}

/// The strands of these blocks.
pub fn all_strands(alloc: Global, blocks: &[Shared]) -> Result<Vec<Strand>, NoMemory>
    ensures { IfOk result (λ all. all.items ≡ flat (values blocks.now)) }
{
    let mut all = Vec::new(alloc);
    for block in blocks {
        all.extend_from_slice(block.strands.as_slice())?;
    }
    Ok(all)
}
