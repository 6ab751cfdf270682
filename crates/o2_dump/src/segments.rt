// The entries of the segments.
ghost use Rattle.std.specs.Prelude.{◌≡◌, ◌+◌, ◌*◌, ◌≤◌, ◌<◌, ◌^◌, true, length, IfOk, OnOk};
ghost use Rattle.o2_ne.specs.Checks.{all_hold};
ghost use Rattle.o2_ne.specs.Steps.{Gives, steps};
ghost use Rattle.o2_ne.specs.Words.{long_at};
ghost use Rattle.o2_dump.specs.FoundIndex.{fits};
ghost use Rattle.o2_dump.specs.Readings.{segments_so_far};
ghost use Rattle.o2_dump.specs.SegmentEntries.{entry_checks, entry_of, gone_at, is_gone_right, is_place, place_len, segment_step};

use crate::fault::CoreFault;
use crate::fields::need;
use crate::found::Found;
use crate::parts::{Place, SegmentEntry};
use crate::places::place_at;
use o2_base::Fail;
use o2_ne::u32_at;
use std::alloc::Global;

// Whether as much is kept as a place with this number may have.
fn is_place(number: u8, kept: u32, size: u32) -> bool
    ensures { result ≡ is_place number kept size }
{
    match number {
        0 => kept == 0,
        1 => true,
        2 => kept == size,
        3 => true,
        _ => false,
    }
}

// Whether a segment may be marked as discarded by this byte.
fn is_gone_right(gone: u8, number: u8, flags: u8, lock: u8) -> bool
    ensures { result ≡ is_gone_right gone number flags lock }
{
    gone == 0 || (gone == 1 && (number == 0 && (flags / 4 % 2 == 1 && lock == 0)))
}

// The mark of the entry at a place, whose fields are so long.
fn gone_at(file: &[u8], fields: usize, at: usize) -> u8
    requires { at + fields ≤ length file.now }
    ensures { result ≡ gone_at file.now fields at }
{
    if 12 < fields { file[at + 12] } else { 0 }
}

// Whether the fields of the entry at a place are right and whole.
fn check_entry(file: &[u8], fields: usize, at: usize) -> Result<(), CoreFault>
    requires place { at ≤ length file.now }
    requires few { (12 ≤ fields) × (fields ≤ 13) }
    ensures exact { result ≡ all_hold (entry_checks file.now fields at) }
    ensures inside { OnOk result (at + fields ≤ length file.now) }
    ensures long { OnOk result (1 ≤ long_at file.now at) }
{
    need(file, at, 4)?;
    let size = u32_at(file, at);
    if size < 1 || size > 65536 {
        return Err(CoreFault::BadEntry(at as u64));
    }
    need(file, at + 4, 4)?;
    let kept = u32_at(file, at + 4);
    if kept > size {
        return Err(CoreFault::BadEntry(at as u64));
    }
    need(file, at + 8, 3)?;
    if file[at + 10] > 1 {
        return Err(CoreFault::BadEntry(at as u64));
    }
    need(file, at + 11, 1)?;
    if !is_place(file[at + 11], kept, size) {
        return Err(CoreFault::BadEntry(at as u64));
    }
    need(file, at, fields)?;
    let gone = gone_at(file, fields, at);
    if !is_gone_right(gone, file[at + 11], file[at + 8], file[at + 9]) {
        return Err(CoreFault::BadEntry(at as u64));
    }
    Ok(())
}

// How many bytes are told of a place.
fn place_len(place: &Place) -> usize
    requires { place_len place.now < 2 ^ 63 }
    ensures { result ≡ place_len place.now }
{
    match place {
        Place::Zeros => 0,
        Place::Image(_, _) => 4,
        Place::Memory(_) => 4,
        Place::Swap(blocks) => 4 + 516 * blocks.as_slice().len(),
    }
}

// The entry at a place, behind those found.
#[tactic(auto, unfolding(crate::specs::SegmentEntries::entry_of))]
fn entry_of(
    alloc: Global,
    file: &[u8],
    fields: usize,
    memory: u32,
    blocks: u32,
    found: &Found,
    at: usize,
) -> Result<SegmentEntry, Fail<CoreFault>>
    requires place { at ≤ length file.now }
    requires few { (12 ≤ fields) × (fields ≤ 13) }
    ensures exact { Gives (λ e. e) result (entry_of file.now fields memory blocks found.now at) }
    ensures inside { IfOk result (λ e. at + fields + place_len e.place ≤ length file.now) }
    ensures long { IfOk result (λ e. 1 ≤ e.size) }
    ensures free { IfOk result (λ e. fits found.now e.size e.place ≡ true) }
{
    check_entry(file, fields, at)?;
    let place = place_at(alloc, file, memory, blocks, found, at, at + fields)?;
    Ok(SegmentEntry {
        size: u32_at(file, at),
        kept: u32_at(file, at + 4),
        flags: file[at + 8],
        lock: file[at + 9],
        clean: file[at + 10] == 1,
        gone: gone_at(file, fields, at) == 1,
        place,
    })
}

// The segments so far.
#[derive(Drop)]
pub(crate) struct SegmentReading {
    pub(crate) found: Found,
    pub(crate) place: usize,
}

impl SegmentReading {
    // With the next segment.
    #[tactic(auto, unfolding(crate::specs::SegmentEntries::segment_step))]
    fn next(
        self,
        alloc: Global,
        file: &[u8],
        fields: usize,
        memory: u32,
        blocks: u32,
    ) -> Result<SegmentReading, Fail<CoreFault>>
        requires place { self.place ≤ length file.now }
        requires few { (12 ≤ fields) × (fields ≤ 13) }
        ensures step { Gives (λ r. segments_so_far r) result (segment_step file.now fields memory blocks (segments_so_far self)) }
        ensures inside { IfOk result (λ r. r.place ≤ length file.now) }
    {
        let SegmentReading { found, place } = self;
        let entry = entry_of(alloc, file, fields, memory, blocks, &found, place)?;
        let place = place + fields + place_len(&entry.place);
        let found = found.with(entry)?;
        Ok(SegmentReading { found, place })
    }

    // With all segments, of which there are `count`.
    pub(crate) fn all(
        self,
        alloc: Global,
        file: &[u8],
        fields: usize,
        memory: u32,
        blocks: u32,
        count: u32,
    ) -> Result<SegmentReading, Fail<CoreFault>>
        requires place { self.place ≤ length file.now }
        requires few { (12 ≤ fields) × (fields ≤ 13) }
        ensures exact { Gives (λ r. segments_so_far r) result (steps (segment_step file.now fields memory blocks) count (segments_so_far self)) }
        ensures inside { IfOk result (λ r. r.place ≤ length file.now) }
    {
        let mut reading = self;
        for _ in 0..count {
            reading = reading.next(alloc, file, fields, memory, blocks)?;
        }
        Ok(reading)
    }
}
