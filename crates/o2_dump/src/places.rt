// Where the kept bytes of a segment are.
ghost use Rattle.std.specs.Prelude.{◌≡◌, ◌+◌, ◌≤◌, ◌<◌, ℕ, true, List, length, IfOk, OnOk};
ghost use Rattle.o2_ne.specs.Steps.{Gives};
ghost use Rattle.o2_dump.specs.declared.parts.SegmentEntry.{SegmentEntry};
ghost use Rattle.o2_dump.specs.FoundIndex.{fits};
ghost use Rattle.o2_ne.specs.Words.{long_at};
ghost use Rattle.o2_dump.specs.SegmentEntries.{count_at, image_at, is_range, memory_at, place_at, place_len, swap_at};

use crate::blocks::blocks_of;
use crate::fault::CoreFault;
use crate::fields::need;
use crate::found::{Found, rounded};
use crate::parts::{Blocks, Place};
use o2_base::Fail;
use o2_ne::{u16_at, u32_at};
use std::alloc::Global;

// Whether a range lies in a memory of this size and is free.
fn is_range(memory: u32, found: &Found, base: u32, size: u32) -> bool
    ensures { result ≡ is_range memory found.now base size }
{
    u64::from(base) + rounded(size) <= u64::from(memory) && found.is_free(base, size)
}

// What follows the fields of the entry at a place stands behind them, at `behind`.

// The place in an image of an entry.
#[tactic(auto, unfolding(crate::specs::SegmentEntries::image_at))]
fn image_at(file: &[u8], behind: usize) -> Result<Place, CoreFault>
    requires place { behind ≤ length file.now }
    ensures exact { result ≡ image_at file.now behind }
    ensures inside { IfOk result (λ p. behind + place_len p ≤ length file.now) }
    ensures free { IfOk result (λ p. (found : List SegmentEntry) (n : ℕ) → fits found n p ≡ true) }
{
    need(file, behind, 4)?;
    let number = u16_at(file, behind);
    let segment = u16_at(file, behind + 2);
    Ok(Place::Image(number, segment))
}

// The place in memory of the entry at a place.
#[tactic(auto, unfolding(crate::specs::SegmentEntries::memory_at))]
fn memory_at(
    file: &[u8],
    memory: u32,
    found: &Found,
    at: usize,
    behind: usize,
) -> Result<Place, CoreFault>
    requires place { at + 12 ≤ behind }
    requires fields { behind ≤ length file.now }
    ensures exact { result ≡ memory_at file.now memory found.now at behind }
    ensures inside { IfOk result (λ p. behind + place_len p ≤ length file.now) }
    ensures free { IfOk result (λ p. fits found.now (long_at file.now at) p ≡ true) }
{
    need(file, behind, 4)?;
    let base = u32_at(file, behind);
    if !is_range(memory, found, base, u32_at(file, at)) {
        return Err(CoreFault::BadEntry(at as u64));
    }
    Ok(Place::Memory(base))
}

// How many blocks the entry at a place has, where these are as many as its kept bytes need.
fn count_at(file: &[u8], at: usize, behind: usize) -> Result<u32, CoreFault>
    requires place { at + 12 ≤ behind }
    requires fields { behind ≤ length file.now }
    ensures exact { result ≡ count_at file.now at behind }
    ensures inside { OnOk result (behind + 4 ≤ length file.now) }
{
    need(file, behind, 4)?;
    let count = u32_at(file, behind);
    if u64::from(count) != (u64::from(u32_at(file, at + 4)) + 511) / 512 {
        return Err(CoreFault::BadEntry(at as u64));
    }
    Ok(count)
}

// The place on the swap device of the entry at a place.
#[tactic(auto, unfolding(crate::specs::SegmentEntries::swap_at))]
fn swap_at(
    alloc: Global,
    file: &[u8],
    blocks: u32,
    found: &Found,
    at: usize,
    behind: usize,
) -> Result<Place, Fail<CoreFault>>
    requires place { at + 12 ≤ behind }
    requires fields { behind ≤ length file.now }
    ensures exact { Gives (λ p. p) result (swap_at file.now blocks found.now at behind) }
    ensures inside { IfOk result (λ p. behind + place_len p ≤ length file.now) }
    ensures free { IfOk result (λ p. (n : ℕ) → fits found.now n p ≡ true) }
{
    let count = count_at(file, at, behind)?;
    let own = blocks_of(alloc, file, blocks, found, at, behind, count)?;
    Ok(Place::Swap(Blocks::new(own)))
}

// The place of the entry at a place, whose number is at most 3.
#[tactic(auto, unfolding(crate::specs::SegmentEntries::place_at))]
pub(crate) fn place_at(
    alloc: Global,
    file: &[u8],
    memory: u32,
    blocks: u32,
    found: &Found,
    at: usize,
    behind: usize,
) -> Result<Place, Fail<CoreFault>>
    requires place { at + 12 ≤ behind }
    requires fields { behind ≤ length file.now }
    ensures exact { Gives (λ p. p) result (place_at file.now memory blocks found.now at behind) }
    ensures inside { IfOk result (λ p. behind + place_len p ≤ length file.now) }
    ensures free { IfOk result (λ p. fits found.now (long_at file.now at) p ≡ true) }
{
    match file[at + 11] {
        0 => Ok(Place::Zeros),
        1 => Ok(image_at(file, behind)?),
        2 => Ok(memory_at(file, memory, found, at, behind)?),
        _ => swap_at(alloc, file, blocks, found, at, behind),
    }
}
