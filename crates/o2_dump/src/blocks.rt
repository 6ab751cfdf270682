// The swap blocks of a segment.
ghost use Rattle.std.specs.Prelude.{◌≡◌, ◌+◌, ◌*◌, ◌≤◌, ◌<◌, [], length, vec_len, IfOk, OnOk};
ghost use Rattle.o2_ne.specs.Checks.{all_hold};
ghost use Rattle.o2_ne.specs.Steps.{Gives, steps};
ghost use Rattle.o2_dump.specs.SegmentEntries.{block_checks, block_step, is_among, is_block};

use crate::fault::CoreFault;
use crate::fields::need;
use crate::found::Found;
use crate::parts::Block;
use o2_base::{Bytes, Fail};
use o2_ne::u32_at;
use std::alloc::Global;

// Whether one of these blocks has a number.
fn is_among(number: u32, blocks: &[Block]) -> bool
    ensures { result ≡ is_among number blocks.now }
{
    blocks.iter().any(|block| block.number == number)
}

// Whether a block is on a device of this many, and holds nothing yet.
fn is_block(blocks: u32, found: &Found, own: &[Block], number: u32) -> bool
    ensures { result ≡ is_block blocks found.now own.now number }
{
    number < blocks && found.is_unused(number) && !is_among(number, own)
}

// Whether the block at a place is right and whole, in the entry at `entry`.
fn check_block(
    file: &[u8],
    blocks: u32,
    found: &Found,
    entry: usize,
    own: &[Block],
    at: usize,
) -> Result<(), CoreFault>
    requires place { at ≤ length file.now }
    ensures exact { result ≡ all_hold (block_checks file.now blocks found.now entry own.now at) }
    ensures inside { OnOk result (at + 516 ≤ length file.now) }
{
    need(file, at, 4)?;
    if !is_block(blocks, found, own, u32_at(file, at)) {
        return Err(CoreFault::BadEntry(entry as u64));
    }
    need(file, at + 4, 512)?;
    Ok(())
}

// The next block of the entry at `entry`, the number of whose blocks stands at `behind`.
#[tactic(auto, unfolding(crate::specs::SegmentEntries::block_step))]
fn add_block(
    alloc: Global,
    file: &[u8],
    blocks: u32,
    found: &Found,
    entry: usize,
    behind: usize,
    own: &mut Vec<Block>,
) -> Result<(), Fail<CoreFault>>
    requires entry { entry ≤ behind }
    requires place { behind + 4 + 516 * vec_len own.old ≤ length file.now }
    ensures step { Gives (λ _. own.new.items) result (block_step file.now blocks found.now entry behind own.old.items) }
    ensures more { OnOk result (vec_len own.new ≡ vec_len own.old + 1) }
    ensures inside { OnOk result (behind + 4 + 516 * vec_len own.new ≤ length file.now) }
{
    let at = behind + 4 + 516 * own.len();
    check_block(file, blocks, found, entry, own.as_slice(), at)?;
    let number = u32_at(file, at);
    let bytes = Bytes::from_slice(alloc, &file[at + 4..at + 516])?;
    own.push(Block { number, bytes })?;
    Ok(())
}

// The blocks of the entry at `entry`, of which it has `count`.
pub(crate) fn blocks_of(
    alloc: Global,
    file: &[u8],
    blocks: u32,
    found: &Found,
    entry: usize,
    behind: usize,
    count: u32,
) -> Result<Vec<Block>, Fail<CoreFault>>
    requires entry { entry ≤ behind }
    requires place { behind + 4 ≤ length file.now }
    ensures exact { Gives (λ v. v.items) result (steps (block_step file.now blocks found.now entry behind) count []) }
    ensures inside { IfOk result (λ v. behind + 4 + 516 * length v.items ≤ length file.now) }
    ensures count { IfOk result (λ v. length v.items ≡ count) }
{
    let mut own = Vec::new(alloc);
    for _ in 0..count {
        add_block(alloc, file, blocks, found, entry, behind, &mut own)?;
    }
    Ok(own)
}
