// What each call answers and writes, by one walk along the chain of free blocks.
ghost use Rattle.std.specs.Prelude.{◌≡◌, ◌+◌, ◌-◌, ◌%◌, ◌<◌, ◌≤◌, length, false, ◌∷◌, option_map, MatchOption, Some};
ghost use Rattle.o2_world.specs.Heaps.{heap_of};
ghost use Rattle.o2_subseg.specs.Plans.{Plans, fresh_words, words_of};
ghost use Rattle.o2_world.specs.HeapRulings.{area_of, giving_back, growing, rounded as rounded_by, setting_up, taking};
ghost use Rattle.o2_subseg.specs.Spots.{IsRange, IsRangeOf, IsSpot, IsWithin, IsWithinOrNone, freed_words, is_met_by, more_at, next_at, spot_of, taken_words};

use crate::block::Block;
use crate::bytes::word;
use crate::plan::{Plan, UNUSED};
use crate::scan::{FIRST_LINK, FIRST_OFFSET, LEAST_SIZE, MARK, Seek, Spot, scan};
use o2_regions::Answer;

/// The bytes have no good heap.
pub const INVALID_PARAMETER: u16 = 87;
/// The area is smaller than the heap.
pub const SHRINKING: u16 = 310;
/// No free block is long enough.
pub const NO_MEMORY: u16 = 311;
/// The range is free, or a part of it.
pub const OVERLAP: u16 = 312;
/// A size or an offset doesn't suit the heap.
pub const BAD_SIZE: u16 = 313;
/// The flags exceed 1.
pub const BAD_FLAGS: u16 = 314;

// A size, rounded up to a multiple of 4.
#[tactic(auto, unfolding(o2_world::specs::HeapRulings::rounded))]
fn rounded(size: u16) -> u32
    ensures is { result ≡ rounded_by size }
    ensures most { result ≤ size + 3 }
    ensures whole { result % 4 ≡ 0 }
{
    (u32::from(size) + 3) / 4 * 4
}

// The area of a size, where 0 is 65,536, rounded down to a multiple of 4 that is a word.
fn area(size: u16) -> u16
    ensures is { result ≡ area_of size }
    ensures whole { result % 4 ≡ 0 }
{
    if size == 0 { 65_532 } else { size / 4 * 4 }
}

// The plan of a heap with nothing taken.
fn fresh(size: u16) -> Plan
    requires low { 12 ≤ size }
    requires whole { size % 4 ≡ 0 }
    ensures error { result.answer.error ≡ 0 }
    ensures value { result.answer.value ≡ 0 }
    ensures count { result.count ≡ 6 }
    ensures words { words_of result ≡ fresh_words size }
{
    Plan {
        answer: Answer { error: 0, value: 0 },
        words: [
            (0, MARK),
            (2, size),
            (6, 0),
            (FIRST_LINK, FIRST_OFFSET),
            (FIRST_OFFSET + 2, size - FIRST_OFFSET),
            (FIRST_OFFSET, 0),
        ],
        count: 6,
    }
}

// The plan that takes the front of the block that was found.
fn take_front(bytes: &[u8], spot: Spot, block: Block, count: u16) -> Plan
    requires inside { IsWithin spot.size block }
    requires within { spot.size ≤ length bytes.now }
    requires word { spot.size < 65536 }
    requires long { count ≤ block.length }
    ensures error { result.answer.error ≡ 0 }
    ensures value { result.answer.value ≡ block.offset }
    ensures few { result.count ≤ 6 }
    ensures words { words_of result ≡ taken_words bytes.now spot.before block count }
{
    let next = word(bytes, block.offset as usize);
    let answer = Answer {
        error: 0,
        value: u32::from(block.offset),
    };
    if count == block.length {
        return Plan {
            answer,
            words: [(spot.link(), next), UNUSED, UNUSED, UNUSED, UNUSED, UNUSED],
            count: 1,
        };
    }
    let rest = block.offset + count;
    Plan {
        answer,
        words: [
            (spot.link(), rest),
            (rest + 2, block.length - count),
            (rest, next),
            UNUSED,
            UNUSED,
            UNUSED,
        ],
        count: 3,
    }
}

// What stands behind a range: how many bytes of a block that begins at its end, and the offset of the block behind that.
fn behind(bytes: &[u8], spot: Spot, end: u32) -> (u16, u16)
    requires inside { IsWithinOrNone spot.size spot.found }
    requires within { spot.size ≤ length bytes.now }
    ensures more { result.0 ≡ more_at spot.found end }
    ensures next { result.1 ≡ next_at bytes.now spot.found end }
{
    match spot.found {
        Some(block) if u32::from(block.offset) == end => {
            (block.length, word(bytes, block.offset as usize))
        }
        Some(block) => (0, block.offset),
        None => (0, 0),
    }
}

// The plan that frees a range between the blocks of a search, in a heap of this size.
fn free_range(bytes: &[u8], spot: Spot, size: u16, range: Block) -> Plan
    requires spot { IsSpot spot }
    requires within { spot.size ≤ length bytes.now }
    requires low { 8 ≤ range.offset }
    requires long { 4 ≤ range.length }
    requires high { range.offset + range.length ≤ 65535 }
    requires clear { is_met_by spot range.offset (range.offset + range.length) ≡ false }
    ensures error { result.answer.error ≡ 0 }
    ensures value { result.answer.value ≡ 0 }
    ensures few { result.count ≤ 6 }
    ensures words { words_of result ≡ (2, size) ∷ freed_words bytes.now spot.before spot.found range.offset range.length }
{
    let answer = Answer { error: 0, value: 0 };
    let (more, next) = behind(bytes, spot, range.end());
    match spot.before {
        Some(block) if block.end() == u32::from(range.offset) => Plan {
            answer,
            words: [
                (2, size),
                (block.offset + 2, block.length + range.length + more),
                (block.offset, next),
                UNUSED,
                UNUSED,
                UNUSED,
            ],
            count: 3,
        },
        _ => Plan {
            answer,
            words: [
                (2, size),
                (spot.link(), range.offset),
                (range.offset + 2, range.length + more),
                (range.offset, next),
                UNUSED,
                UNUSED,
            ],
            count: 4,
        },
    }
}

// Whether a range has a byte of the blocks beside it.
fn is_met(spot: Spot, range: Block) -> bool
    ensures { result ≡ is_met_by spot range.offset (range.offset + range.length) }
{
    let before = match spot.before {
        Some(block) => u32::from(range.offset) < block.end(),
        None => false,
    };
    let found = match spot.found {
        Some(block) => u32::from(block.offset) < range.end(),
        None => false,
    };
    before || found
}

// The plan of the heap of a search, which is to reach as far as an area.
fn grow_at(bytes: &[u8], area: u16, spot: Spot) -> Plan
    requires whole { area % 4 ≡ 0 }
    requires within { area ≤ length bytes.now }
    requires spot { IsSpot spot }
    requires inside { spot.size ≤ length bytes.now }
    requires searched { Some spot ≡ option_map (spot_of (Seek.Offset spot.size)) (heap_of bytes.now) }
    ensures { Plans result (growing (heap_of bytes.now) area bytes.now) bytes.now }
{
    if area < spot.size {
        return Plan::refused(SHRINKING);
    }
    if area == spot.size {
        return Plan {
            answer: Answer { error: 0, value: 0 },
            words: [UNUSED; 6],
            count: 0,
        };
    }
    let range = Block {
        offset: spot.size,
        length: area - spot.size,
    };
    free_range(bytes, spot, area, range)
}

// The plan of a heap that reaches as far as an area.
fn grow(bytes: &[u8], area: u16) -> Plan
    requires low { 12 ≤ area }
    requires whole { area % 4 ≡ 0 }
    requires within { area ≤ length bytes.now }
    ensures { Plans result (growing (heap_of bytes.now) area bytes.now) bytes.now }
{
    let size = word(bytes, 2);
    match scan(bytes, Seek::Offset(size)) {
        Some(spot) => grow_at(bytes, area, spot),
        None => Plan::refused(INVALID_PARAMETER),
    }
}

/// What DosSubSet answers and writes.
///
/// The errors are 314, 313, 87 and 310, in this order.
pub fn plan_set(bytes: &[u8], flags: u16, size: u16) -> Plan
    ensures { Plans result (setting_up flags size bytes.now) bytes.now }
{
    let area = area(size);
    if flags > 1 {
        return Plan::refused(BAD_FLAGS);
    }
    if area < LEAST_SIZE || area as usize > bytes.len() {
        return Plan::refused(BAD_SIZE);
    }
    if flags == 1 {
        fresh(area)
    } else {
        grow(bytes, area)
    }
}

// The plan of the heap of a search for a block of so many bytes.
fn alloc_at(bytes: &[u8], size: u16, count: u32, spot: Spot) -> Plan
    requires rounded { count ≡ rounded_by size }
    requires most { count ≤ size + 3 }
    requires spot { IsSpot spot }
    requires inside { spot.size ≤ length bytes.now }
    requires searched { Some spot ≡ option_map (spot_of (Seek.Length count)) (heap_of bytes.now) }
    ensures { Plans result (taking size bytes.now) bytes.now }
{
    let most = spot.size - FIRST_OFFSET;
    if size == 0 || size > most {
        return Plan::refused(BAD_SIZE);
    }
    match spot.found {
        Some(block) => take_front(bytes, spot, block, count as u16),
        None => Plan::refused(NO_MEMORY),
    }
}

/// What DosSubAlloc answers and writes.
///
/// The errors are 87, 313 and 311, in this order.
pub fn plan_alloc(bytes: &[u8], size: u16) -> Plan
    ensures { Plans result (taking size bytes.now) bytes.now }
{
    let count = rounded(size);
    match scan(bytes, Seek::Length(count)) {
        Some(spot) => alloc_at(bytes, size, count, spot),
        None => Plan::refused(INVALID_PARAMETER),
    }
}

// The range of an offset and a size, where the heap has one; `count` is the rounded size.
fn range_in(heap: u16, offset: u16, size: u16, count: u32) -> Option<Block>
    requires { count ≤ size + 3 }
    ensures { MatchOption result (IsRange size offset count heap → ⊥) (λ b. IsRangeOf b size offset count heap) }
{
    let end = u32::from(offset) + count;
    if size == 0 || offset % 4 != 0 || offset < FIRST_OFFSET || end > u32::from(heap) {
        return None;
    }
    Some(Block {
        offset,
        length: count as u16,
    })
}

// The plan of the heap of a search for the place of a range.
fn free_at(bytes: &[u8], size: u16, range: Block, spot: Spot) -> Plan
    requires spot { IsSpot spot }
    requires inside { spot.size ≤ length bytes.now }
    requires range { IsRange size range.offset range.length spot.size }
    requires rounded { range.length ≡ rounded_by size }
    requires searched { Some spot ≡ option_map (spot_of (Seek.Offset range.offset)) (heap_of bytes.now) }
    ensures { Plans result (giving_back range.offset size bytes.now) bytes.now }
{
    if is_met(spot, range) {
        return Plan::refused(OVERLAP);
    }
    free_range(bytes, spot, spot.size, range)
}

// The plan of the heap of a search for an offset.
fn free_in(bytes: &[u8], offset: u16, size: u16, count: u32, spot: Spot) -> Plan
    requires rounded { count ≡ rounded_by size }
    requires most { count ≤ size + 3 }
    requires spot { IsSpot spot }
    requires inside { spot.size ≤ length bytes.now }
    requires searched { Some spot ≡ option_map (spot_of (Seek.Offset offset)) (heap_of bytes.now) }
    ensures { Plans result (giving_back offset size bytes.now) bytes.now }
{
    match range_in(spot.size, offset, size, count) {
        Some(range) => free_at(bytes, size, range, spot),
        None => Plan::refused(BAD_SIZE),
    }
}

/// What DosSubFree answers and writes.
///
/// The errors are 87, 313 and 312, in this order.
pub fn plan_free(bytes: &[u8], offset: u16, size: u16) -> Plan
    ensures { Plans result (giving_back offset size bytes.now) bytes.now }
{
    let count = rounded(size);
    match scan(bytes, Seek::Offset(offset)) {
        Some(spot) => free_in(bytes, offset, size, count, spot),
        None => Plan::refused(INVALID_PARAMETER),
    }
}
