// The records of the segments: each leads somewhere, and patches nothing twice.
ghost use Rattle.std.specs.Prelude.{◌≡◌, ◌+◌, ◌*◌, ◌≤◌, ◌<◌, ℕ, false, get_or, length, map, slice_get, sum_by, IsTrue, OnOk, IfOk};
ghost use Rattle.o2_ne.specs.Steps.{Gives, over};
ghost use Rattle.o2_ne_segs.specs.declared.segment.Segment.{Segment};
ghost use Rattle.o2_ne_segs.specs.Records.{counted, end_of, reloc_at, reloc_count, relocs_at, relocs_in};
ghost use Rattle.o2_image.specs.Alike.{Passes};
ghost use Rattle.o2_image.specs.Faults.{RecordStepsTo, under_seg};
ghost use Rattle.o2_image.specs.Known.{AreKnown};
ghost use Rattle.o2_image.specs.Records.{bytes_of, marks_after, record_step, segment_step};
ghost use Rattle.o2_image.specs.Targets.{leads};
ghost use Rattle.o2_image.specs.Whole.{HasPlaces, HasSegment};

use crate::chain::{follow, place};
use crate::faults::{RecordFault, of_record, of_seg};
use crate::same_bytes::is_any_alike;
use crate::targets::{has_target, is_additive, is_fixup, is_source, width_of};
use o2_base::{Fail, ModuleFault, SegFault};
use o2_ne::{Entries, Head, u16_at};
use o2_ne_segs::{Reloc, Segment, check_relocs, reloc_at};
use std::alloc::Global;

// The bytes of a segment in the file.
pub(crate) fn bytes_of<'a>(file: &'a [u8], segment: &Segment) -> &'a [u8]
    requires { end_of segment.now ≤ length file.now }
    ensures value { result.now ≡ bytes_of file.now segment.now }
    ensures len { length result.now ≡ segment.now.file_len }
{
    let (_, rest) = file.split_at(segment.file_at as usize);
    let (bytes, _) = rest.split_at(segment.file_len as usize);
    bytes
}

// The places of a record.
fn mark_places(seg: u16, bytes: &[u8], reloc: &Reloc, marks: &mut [bool]) -> Result<(), RecordFault>
    requires { length marks.old ≡ length bytes.now }
    ensures exact { RecordStepsTo marks.new result (marks_after seg bytes.now reloc.now marks.old) }
    ensures places { OnOk result (HasPlaces bytes.now reloc.now) }
{
    if is_fixup(reloc) {
        return Ok(());
    }
    let width = width_of(reloc.source);
    if reloc.source == 0 || is_additive(reloc) {
        return place(seg, bytes, reloc.place, width, marks);
    }
    follow(seg, bytes, reloc.place, width, marks)
}

// What the records of a module are judged by: its file, its header and its entries.
#[derive(Drop)]
pub(crate) struct Scope<'a> {
    pub(crate) file: &'a [u8],
    pub(crate) head: &'a Head,
    pub(crate) entries: &'a Entries,
}

// Whether the record at a place of the file leads somewhere. That hangs on the place alone, so it is looked up once.
fn leads(scope: &Scope, at: usize, reloc: &Reloc, known: &mut [bool]) -> bool
    requires small { length scope.now.file.now ≤ 4194304 }
    requires inside { scope.now.head.now.at + 64 ≤ length scope.now.file.now }
    requires there { at < length known.old }
    requires row { reloc.now ≡ reloc_at scope.now.file.now at }
    requires known { AreKnown scope.now.file.now scope.now.head.now scope.now.entries.now known.old }
    ensures value { result ≡ leads scope.now.file.now scope.now.head.now scope.now.entries.now reloc.now }
    ensures known { AreKnown scope.now.file.now scope.now.head.now scope.now.entries.now known.new }
{
    if known[at] {
        return true;
    }
    if !is_source(reloc.source) || !has_target(scope.file, scope.head, scope.entries, reloc) {
        return false;
    }
    known[at] = true;
    true
}

// Record `number` of segment `seg`, which has these bytes. Its row stands at a place of the file.
#[tactic(auto, unfolding(crate::specs::Records::record_step))]
fn check_record(
    scope: &Scope,
    seg: u16,
    bytes: &[u8],
    at: usize,
    number: u16,
    marks: &mut [bool],
    known: &mut [bool],
) -> Result<(), RecordFault>
    requires small { length scope.now.file.now ≤ 4194304 }
    requires inside { scope.now.head.now.at + 64 ≤ length scope.now.file.now }
    requires row { at + 8 ≤ length scope.now.file.now }
    requires same { length marks.old ≡ length bytes.now }
    requires places { length known.old ≡ length scope.now.file.now }
    requires known { AreKnown scope.now.file.now scope.now.head.now scope.now.entries.now known.old }
    ensures exact { RecordStepsTo (record { marks = marks.new; number = number + 1 }) result
        (record_step scope.now.file.now scope.now.head.now scope.now.entries.now seg bytes.now (reloc_at scope.now.file.now at)
        (record { marks = marks.old; number = number })) }
    ensures places { OnOk result (HasPlaces bytes.now (reloc_at scope.now.file.now at)) }
    ensures known { AreKnown scope.now.file.now scope.now.head.now scope.now.entries.now known.new }
{
    let reloc = reloc_at(scope.file, at);
    if !leads(scope, at, &reloc, known) {
        return Err(RecordFault::Target(seg, number));
    }
    mark_places(seg, bytes, &reloc, marks)
}

// The records whose rows begin at a place.
fn check_records(
    scope: &Scope,
    seg: u16,
    bytes: &[u8],
    at: usize,
    count: u16,
    marks: &mut [bool],
    known: &mut [bool],
) -> Result<(), RecordFault>
    requires small { length scope.now.file.now ≤ 4194304 }
    requires inside { scope.now.head.now.at + 64 ≤ length scope.now.file.now }
    requires rows { 0 < count → at + 8 * count ≤ length scope.now.file.now }
    requires same { length marks.old ≡ length bytes.now }
    requires places { length known.old ≡ length scope.now.file.now }
    requires known { AreKnown scope.now.file.now scope.now.head.now scope.now.entries.now known.old }
    ensures exact { RecordStepsTo (record { marks = marks.new; number = count }) result
        (over (record_step scope.now.file.now scope.now.head.now scope.now.entries.now seg bytes.now)
        (relocs_at scope.now.file.now at count) (record { marks = marks.old; number = 0 })) }
    ensures places { OnOk result ((j : ℕ) → j < count → HasPlaces bytes.now (reloc_at scope.now.file.now (at + 8 * j))) }
    ensures known { AreKnown scope.now.file.now scope.now.head.now scope.now.entries.now known.new }
{
    for number in 0..count {
        let row = at + 8 * usize::from(number);
        check_record(scope, seg, bytes, row, number, marks, known)?;
    }
    Ok(())
}

// How many records a segment has, where the file has them all.
fn count_records(file: &[u8], segment: &Segment) -> Result<u16, Fail<ModuleFault>>
    requires small { length file.now ≤ 4194304 }
    requires inside { end_of segment.now ≤ length file.now }
    ensures exact { Gives (λ n. n) result (under_seg (counted file.now segment.now)) }
    ensures value { IfOk result (λ n. n ≡ reloc_count file.now segment.now) }
    ensures word { OnOk result (IsTrue segment.now.relocs → end_of segment.now + 2 ≤ length file.now) }
    ensures rows { IfOk result (λ n. 0 < n → end_of segment.now + 2 + 8 * n ≤ length file.now) }
{
    match check_relocs(file, segment) {
        Ok(count) => Ok(count),
        Err(fault) => Err(of_seg(fault)),
    }
}

// The records of segment `seg`.
#[tactic(auto, unfolding(crate::specs::Records::segment_step))]
fn check_segment(
    alloc: Global,
    scope: &Scope,
    segment: &Segment,
    seg: u16,
    known: &mut [bool],
) -> Result<(), Fail<ModuleFault>>
    requires small { length scope.now.file.now ≤ 4194304 }
    requires inside { scope.now.head.now.at + 64 ≤ length scope.now.file.now }
    requires bytes { end_of segment.now ≤ length scope.now.file.now }
    requires places { length known.old ≡ length scope.now.file.now }
    requires known { AreKnown scope.now.file.now scope.now.head.now scope.now.entries.now known.old }
    ensures exact { Gives (λ _. seg + 1) result (segment_step scope.now.file.now scope.now.head.now scope.now.entries.now segment.now seg) }
    ensures whole { OnOk result (HasSegment scope.now.file.now segment.now) }
    ensures known { AreKnown scope.now.file.now scope.now.head.now scope.now.entries.now known.new }
{
    let count = count_records(scope.file, segment)?;
    let bytes = bytes_of(scope.file, segment);
    let mut marks = vec![in alloc; false; bytes.len()]?;
    let at = segment.file_at as usize + segment.file_len as usize + 2;
    match check_records(scope, seg, bytes, at, count, marks.as_mut_slice(), known) {
        Ok(()) => Ok(()),
        Err(fault) => Err(Fail::Bad(of_record(fault))),
    }
}

// The records of segment `seg`, where those of an earlier one that is alike passed.
fn check_once(
    alloc: Global,
    scope: &Scope,
    earlier: &[Segment],
    segment: &Segment,
    seg: u16,
    known: &mut [bool],
) -> Result<(), Fail<ModuleFault>>
    requires small { length scope.now.file.now ≤ 4194304 }
    requires inside { scope.now.head.now.at + 64 ≤ length scope.now.file.now }
    requires bytes { end_of segment.now ≤ length scope.now.file.now }
    requires passed { (k : ℕ) (d : Segment) → k < length earlier.now → Passes scope.now.file.now scope.now.head.now scope.now.entries.now (get_or earlier.now k d) }
    requires has { (k : ℕ) (d : Segment) → k < length earlier.now → HasSegment scope.now.file.now (get_or earlier.now k d) }
    requires places { length known.old ≡ length scope.now.file.now }
    requires known { AreKnown scope.now.file.now scope.now.head.now scope.now.entries.now known.old }
    ensures exact { Gives (λ _. seg + 1) result (segment_step scope.now.file.now scope.now.head.now scope.now.entries.now segment.now seg) }
    ensures passes { OnOk result (Passes scope.now.file.now scope.now.head.now scope.now.entries.now segment.now) }
    ensures whole { OnOk result (HasSegment scope.now.file.now segment.now) }
    ensures known { AreKnown scope.now.file.now scope.now.head.now scope.now.entries.now known.new }
{
    if is_any_alike(earlier, segment) {
        return Ok(());
    }
    check_segment(alloc, scope, segment, seg, known)
}

// The records of all segments. Those of segments over the same bytes are checked once.
fn check_all(
    alloc: Global,
    scope: &Scope,
    segments: &[Segment],
    known: &mut [bool],
) -> Result<(), Fail<ModuleFault>>
    requires small { length scope.now.file.now ≤ 4194304 }
    requires inside { scope.now.head.now.at + 64 ≤ length scope.now.file.now }
    requires few { length segments.now ≤ 254 }
    requires bytes { (k : ℕ) (d : Segment) → k < length segments.now → end_of (get_or segments.now k d) ≤ length scope.now.file.now }
    requires places { length known.old ≡ length scope.now.file.now }
    requires known { AreKnown scope.now.file.now scope.now.head.now scope.now.entries.now known.old }
    ensures exact { Gives (λ _. length segments.now + 1) result (over (segment_step scope.now.file.now scope.now.head.now scope.now.entries.now) segments.now 1) }
    ensures whole { OnOk result ((k : ℕ) (d : Segment) → k < length segments.now → HasSegment scope.now.file.now (get_or segments.now k d)) }
{
    let mut number = 1u16;
    for (i, segment) in segments.iter().enumerate() {
        check_once(alloc, scope, &segments[..i], segment, number, known)?;
        number += 1;
    }
    Ok(())
}

// The records of all segments. A record that several segments have is looked up once.
pub(crate) fn check_segments(
    alloc: Global,
    scope: &Scope,
    segments: &[Segment],
) -> Result<(), Fail<ModuleFault>>
    requires small { length scope.now.file.now ≤ 4194304 }
    requires inside { scope.now.head.now.at + 64 ≤ length scope.now.file.now }
    requires few { length segments.now ≤ 254 }
    requires bytes { (k : ℕ) (d : Segment) → k < length segments.now → end_of (get_or segments.now k d) ≤ length scope.now.file.now }
    ensures exact { Gives (λ _. length segments.now + 1) result (over (segment_step scope.now.file.now scope.now.head.now scope.now.entries.now) segments.now 1) }
    ensures whole { OnOk result ((k : ℕ) (d : Segment) → k < length segments.now → HasSegment scope.now.file.now (get_or segments.now k d)) }
{
    let mut known = vec![in alloc; false; scope.file.len()]?;
    check_all(alloc, scope, segments, known.as_mut_slice())
}

// How many records a segment has.
pub(crate) fn reloc_count(file: &[u8], segment: &Segment) -> u16
    requires { HasSegment file.now segment.now }
    ensures { result ≡ reloc_count file.now segment.now }
{
    if !segment.relocs {
        return 0;
    }
    u16_at(file, segment.file_at as usize + segment.file_len as usize)
}

// A record of a segment by its number from 0.
pub(crate) fn reloc_in(file: &[u8], segment: &Segment, k: u16) -> Option<Reloc>
    requires { HasSegment file.now segment.now }
    ensures { result ≡ slice_get (relocs_in file.now segment.now) k }
{
    if k >= reloc_count(file, segment) {
        return None;
    }
    let at = segment.file_at as usize + segment.file_len as usize + 2;
    Some(reloc_at(file, at + 8 * usize::from(k)))
}

// How many records the segments have together.
pub(crate) fn total_relocs(file: &[u8], segments: &[Segment]) -> u32
    requires has { (k : ℕ) (d : Segment) → k < length segments.now → HasSegment file.now (get_or segments.now k d) }
    requires few { length segments.now ≤ 254 }
    ensures { result ≡ sum_by length (map (relocs_in file.now) segments.now) }
{
    let mut total = 0u32;
    for segment in segments {
        total += u32::from(reloc_count(file, segment));
    }
    total
}
