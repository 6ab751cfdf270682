// Swap blocks in piles.
ghost use Rattle.std.specs.Prelude.{◌≡◌, ◌≢◌, ℕ, ◌+◌, ◌-◌, ◌<◌, ◌≤◌, ◌^◌, ◌++◌, ◌∷◌, [], length, IfOk, slice_index, slice_index_or, slice_set, replicate};
ghost use Rattle.o2_swapmap.specs.Piles.{pile, lists_of, ArePiles, IsPile, block, no_pile};

use std::alloc::{AllocError, Global};

/// A block: the one below it in its pile, whose pile it is, and how many are below it.
#[derive(Clone, Copy, Debug)]
pub(crate) struct Block {
    pub below: u32,
    pub owner: u32,
    pub rank: u32,
}

/// A pile: the block at its top, and how many it has.
#[derive(Clone, Copy, Debug)]
pub(crate) struct Pile {
    pub top: u32,
    pub count: u32,
}

/// So many blocks, in one pile of the owner `most`: block 0 is at its top, and each lies on the one behind it in the device, so that those
/// that are taken together follow one another there.
pub(crate) fn free_blocks(alloc: Global, blocks: u32, most: u32) -> Result<Vec<Block>, AllocError>
    ensures { IfOk result (λ v. (length v.items ≡ blocks) × ((j : ℕ) → j < blocks → block v.items j ≡ record { below = j + 1; owner = most; rank = blocks - 1 - j })) }
{
    let mut all = Vec::with_capacity(alloc, blocks as usize)?;
    for i in 0..blocks {
        all.push_reserved(Block {
            below: i + 1,
            owner: most,
            rank: blocks - 1 - i,
        });
    }
    Ok(all)
}

/// An empty pile for each owner below `most`, and the pile of the free blocks behind them.
pub(crate) fn first_piles(alloc: Global, blocks: u32, most: u32) -> Result<Vec<Pile>, AllocError>
    requires { most < 2 ^ 32 - 1 }
    ensures { IfOk result (λ v. v.items ≡ slice_set (replicate (most + 1) no_pile) most (record { top = 0; count = blocks })) }
{
    let mut piles = Vec::with_capacity(alloc, most as usize + 1)?;
    for _ in 0..most as usize + 1 {
        piles.push_reserved(Pile { top: 0, count: 0 });
    }
    piles[most as usize] = Pile {
        top: 0,
        count: blocks,
    };
    Ok(piles)
}

/// The k-th block of a pile, from its bottom.
pub(crate) fn walk(blocks: &[Block], owner: u32, top: u32, count: u32, k: u32) -> u32
    requires pile { IsPile blocks.now owner top count }
    requires small { length blocks.now ≤ 65536 }
    requires within { k < count }
    ensures { result ≡ slice_index (pile blocks.now top count) k }
{
    let mut at = top;
    for _ in k + 1..count {
        at = blocks[at as usize].below;
    }
    at
}

/// Writes the blocks of a pile into the front of a list, each at its place from the bottom.
pub(crate) fn list_out(blocks: &[Block], owner: u32, top: u32, count: u32, into: &mut [u32])
    requires pile { IsPile blocks.now owner top count }
    requires small { length blocks.now ≤ 65536 }
    requires room { count ≤ length into.old }
    ensures { (j : ℕ) → j < count → slice_index into.new j ≡ slice_index (pile blocks.now top count) j }
{
    let mut at = top;
    for k in (0..count).rev() {
        into[k as usize] = at;
        at = blocks[at as usize].below;
    }
}

/// The top block of one pile goes on top of another.
pub(crate) fn move_one(blocks: &mut [Block], piles: &mut [Pile], from: usize, to: usize) -> u32
    requires few { length piles.old ≤ 2 ^ 32 }
    requires piles { ArePiles blocks.old piles.old }
    requires from_in { from < length piles.old }
    requires to_in { to < length piles.old }
    requires apart { from ≢ to }
    requires small { length blocks.old ≤ 65536 }
    requires some { 0 < (slice_index_or piles.old from no_pile).count }
    ensures sound { ArePiles blocks.new piles.new }
    ensures from { slice_index_or (lists_of blocks.old piles.old) from [] ≡ slice_index_or (lists_of blocks.new piles.new) from [] ++ result ∷ [] }
    ensures to { slice_index_or (lists_of blocks.new piles.new) to [] ≡ slice_index_or (lists_of blocks.old piles.old) to [] ++ result ∷ [] }
    ensures others { (k : ℕ) → k ≢ from → k ≢ to → slice_index_or (lists_of blocks.new piles.new) k [] ≡ slice_index_or (lists_of blocks.old piles.old) k [] }
{
    let source = piles[from];
    let target = piles[to];
    let moved = source.top;
    let below = blocks[moved as usize].below;
    blocks[moved as usize] = Block {
        below: target.top,
        owner: to as u32,
        rank: target.count,
    };
    piles[from] = Pile {
        top: below,
        count: source.count - 1,
    };
    piles[to] = Pile {
        top: moved,
        count: target.count + 1,
    };
    moved
}
