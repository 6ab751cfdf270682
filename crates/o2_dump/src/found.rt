// The segments so far, with what they take of memory and of the swap device.
ghost use Rattle.std.specs.Prelude.{◌≡◌, ◌≤◌, ℕ, true, List, [], ◌∷◌, ◌++◌, ◌||◌, IfOk, OnOk};
ghost use Rattle.std.specs.Ordering.{nat_cmp};
ghost use Rattle.std.specs.BTreeSet as sorted;
ghost use Rattle.o2_dump.specs.declared.parts.SegmentEntry.{SegmentEntry};
ghost use Rattle.o2_dump.specs.SegmentEntries.{is_among, is_free, is_unused, rounded};
ghost use Rattle.o2_dump.specs.FoundIndex.{AreBlocks, AreRanges, IsLastBelow, fits};

use crate::parts::{Block, Place, SegmentEntry};
use o2_base::NoMemory;
use std::alloc::Global;
use std::collections::{BTreeMap, BTreeSet};
use std::marker::Model;

// How much memory a segment of a size takes.
pub(crate) fn rounded(size: u32) -> u64
    ensures { result ≡ rounded size }
{
    (u64::from(size) + 15) / 16 * 16
}

// The end of the last range that begins below a place.
fn last_below(ranges: &BTreeMap<u64, u64>, top: u64) -> Option<u64>
    ensures { IsLastBelow ranges.now top result }
{
    match ranges.range(..top).next_back() {
        Some((_, end)) => Some(*end),
        None => None,
    }
}

// Notes the range of a segment.
fn note_range(ranges: &mut BTreeMap<u64, u64>, entry: &SegmentEntry) -> Result<(), NoMemory>
    requires long { 1 ≤ entry.now.size }
    ensures { OnOk result ((found : List SegmentEntry) → AreRanges found ranges.old → fits found entry.now.size entry.now.place ≡ true → AreRanges (found ++ entry.now ∷ []) ranges.new) }
{
    match &entry.place {
        Place::Memory(base) => {
            let base = u64::from(*base);
            ranges.insert(base, base + rounded(entry.size))?;
            Ok(())
        }
        Place::Zeros => Ok(()),
        Place::Image(_, _) => Ok(()),
        Place::Swap(_) => Ok(()),
    }
}

// Adds the numbers of some blocks.
fn add_blocks(blocks: &mut BTreeSet<u32>, own: &[Block]) -> Result<(), NoMemory>
    ensures { OnOk result ((n : ℕ) → sorted.contains nat_cmp blocks.new n ≡ (sorted.contains nat_cmp blocks.old n || is_among n own.now)) }
{
    for block in own {
        blocks.insert(block.number)?;
    }
    Ok(())
}

// Notes the swap blocks of a segment.
fn note_blocks(blocks: &mut BTreeSet<u32>, entry: &SegmentEntry) -> Result<(), NoMemory>
    ensures { OnOk result ((found : List SegmentEntry) → AreBlocks found blocks.old → AreBlocks (found ++ entry.now ∷ []) blocks.new) }
{
    match &entry.place {
        Place::Swap(own) => add_blocks(blocks, own.as_slice()),
        Place::Zeros => Ok(()),
        Place::Image(_, _) => Ok(()),
        Place::Memory(_) => Ok(()),
    }
}

// The segments so far, by their numbers.
#[derive(Drop)]
pub(crate) struct Found {
    items: Vec<SegmentEntry>,
    // the end of each range in memory, by its base
    ranges: BTreeMap<u64, u64>,
    // the numbers of their swap blocks
    blocks: BTreeSet<u32>,
}

impl Model for Found {
    ghost use Rattle.std.specs.Prelude.{List};
    ghost use Rattle.o2_dump.specs.declared.parts.SegmentEntry.{SegmentEntry};
    ghost use Rattle.o2_dump.specs.FoundIndex.{IsIndexed};

    ghost Value = { List SegmentEntry };

    ghost view = { λ a. a.items.items };

    ghost invariant = { λ a. IsIndexed a.items.items a.ranges a.blocks };
}

impl Found {
    // None.
    pub(crate) fn new(alloc: Global) -> Found
        ensures { result ≡ [] }
    {
        Found {
            items: Vec::new(alloc),
            ranges: BTreeMap::new(alloc),
            blocks: BTreeSet::new(alloc),
        }
    }

    // Whether none of them has its bytes in a range.
    pub(crate) fn is_free(&self, base: u32, size: u32) -> bool
        ensures { result ≡ is_free self.now base size }
    {
        match last_below(&self.ranges, u64::from(base) + rounded(size)) {
            Some(end) => end <= u64::from(base),
            None => true,
        }
    }

    // Whether none of them has its bytes in the block of a number.
    pub(crate) fn is_unused(&self, number: u32) -> bool
        ensures { result ≡ is_unused self.now number }
    {
        !self.blocks.contains(&number)
    }

    // These and one more, whose range is free.
    pub(crate) fn with(self, entry: SegmentEntry) -> Result<Found, NoMemory>
        requires long { 1 ≤ entry.size }
        requires free { fits self entry.size entry.place ≡ true }
        ensures { IfOk result (λ found. found ≡ self ++ entry ∷ []) }
    {
        let Found {
            mut items,
            mut ranges,
            mut blocks,
        } = self;
        note_range(&mut ranges, &entry)?;
        note_blocks(&mut blocks, &entry)?;
        items.push(entry)?;
        Ok(Found {
            items,
            ranges,
            blocks,
        })
    }

    // The segments alone.
    pub(crate) fn into_vec(self) -> Vec<SegmentEntry>
        ensures { result.items ≡ self }
    {
        let Found { items, .. } = self;
        items
    }
}
