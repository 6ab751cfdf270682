// The segment table.
ghost use Rattle.std.specs.Prelude.{◌≡◌, ◌+◌, ◌*◌, ◌-◌, ◌≤◌, ◌<◌, ◌^◌, ℕ, [], get_or, length, vec_len, IfOk, IfSome, OnOk};
ghost use Rattle.o2_ne_segs.specs.declared.segment.Segment.{Segment};
ghost use Rattle.o2_ne_segs.specs.Records.{end_of};
ghost use Rattle.o2_ne.specs.Checks.{all_hold};
ghost use Rattle.o2_ne.specs.Steps.{steps};
ghost use Rattle.o2_ne_segs.specs.SegmentTable.{AllSized, HasSize, SegGives, file_len_of, nth_segment, kind_of, profile_checks, row, row_step, segment_at, segment_of, segments_of, unit_of};

use o2_base::{Part, SegFault};
use o2_ne::{need, u16_at};
use std::alloc::Global;
use std::marker::Model;

/// What a segment may be used for.
#[derive(Clone, Copy, Debug, PartialEq, Eq)]
pub enum Kind {
    /// Code that can be read as data.
    Code,
    /// Code that can only be executed.
    CodeOnly,
    /// Data that can be written.
    Writable,
    /// Data that can only be read.
    ReadOnly,
}

/// A segment of a file.
#[derive(Clone, Copy, Debug, PartialEq, Eq)]
pub struct Segment {
    /// The place of its bytes in the file.
    pub file_at: u32,
    /// How many bytes it has in the file, 0 to 65,536.
    pub file_len: u32,
    /// Its size, 1 to 65,536; the bytes behind those in the file are zeros.
    pub size: u32,
    /// What it may be used for.
    pub kind: Kind,
    /// Whether relocation records follow its bytes in the file.
    pub relocs: bool,
    /// The flags word of its row.
    pub flags: u16,
}

fn kind_of(flags: u16) -> Kind
    ensures { result ≡ kind_of flags }
{
    if flags & 1 != 0 {
        if flags & 0x80 != 0 {
            Kind::ReadOnly
        } else {
            Kind::Writable
        }
    } else if flags & 0x80 != 0 {
        Kind::CodeOnly
    } else {
        Kind::Code
    }
}

fn profile(flags: u16) -> Result<(), SegFault>
    ensures { result ≡ all_hold (profile_checks flags) }
{
    if flags & 8 != 0 {
        return Err(SegFault::OutOfProfile(Part::Iterated));
    }
    if flags & 0x200 != 0 {
        return Err(SegFault::OutOfProfile(Part::Conforming));
    }
    if flags & 0xC00 == 0x400 || flags & 0xC00 == 0x800 {
        return Err(SegFault::OutOfProfile(Part::Ring));
    }
    if flags & 0x2000 != 0 {
        return Err(SegFault::OutOfProfile(Part::Wide));
    }
    Ok(())
}

fn unit_of(shift: u16) -> u32
    requires { shift ≤ 15 }
    ensures value { result ≡ unit_of shift }
    ensures small { result ≤ 32768 }
{
    if shift == 0 { 512 } else { 1u32 << shift }
}

fn file_len_of(position: u16, len: u16) -> u32
    ensures value { result ≡ file_len_of position len }
    ensures small { result ≤ 65536 }
{
    if position == 0 {
        0
    } else if len == 0 {
        65536
    } else {
        u32::from(len)
    }
}

fn row(unit: u32, position: u16, len: u16, flags: u16, minimum: u16) -> Segment
    requires { unit ≤ 32768 }
    ensures value { result ≡ row unit position len flags minimum }
    ensures size { HasSize result }
{
    let file_len = file_len_of(position, len);
    let least = if minimum == 0 {
        65536
    } else {
        u32::from(minimum)
    };
    Segment {
        file_at: u32::from(position) * unit,
        file_len,
        size: file_len.max(least),
        kind: kind_of(flags),
        relocs: position != 0 && flags & 0x100 != 0,
        flags,
    }
}

// The segment whose row stands at a place.
#[tactic(auto, unfolding(crate::specs::SegmentTable::segment_of))]
fn read_row(file: &[u8], shift: u16, at: u32) -> Result<Segment, SegFault>
    requires shift { shift ≤ 15 }
    requires small { length file.now ≤ 4194304 }
    ensures exact { result ≡ segment_of file.now shift at }
    ensures inside { IfOk result (λ s. end_of s ≤ length file.now) }
    ensures row { IfOk result (λ s. s ≡ segment_at file.now shift at) }
    ensures size { IfOk result HasSize }
{
    need(file, at, 8)?;
    let p = at as usize;
    let segment = row(
        unit_of(shift),
        u16_at(file, p),
        u16_at(file, p + 2),
        u16_at(file, p + 4),
        u16_at(file, p + 6),
    );
    profile(segment.flags)?;
    need(file, segment.file_at, segment.file_len)?;
    Ok(segment)
}

/// The segments of a file.
#[derive(Drop)]
pub struct SegTable {
    found: Vec<Segment>,
}

impl Model for SegTable {
    ghost use Rattle.std.specs.Prelude.{List};
    ghost use Rattle.o2_ne_segs.specs.declared.segment.Segment.{Segment};

    ghost Value = { List Segment };

    ghost use Rattle.o2_ne_segs.specs.SegmentTable.{AllSized};

    ghost view = { λ a. a.found.items };

    ghost invariant = { λ a. AllSized a.found.items };
}

// The next row.
fn add_row(file: &[u8], at: u32, shift: u16, found: &mut Vec<Segment>) -> Result<(), SegFault>
    requires shift { shift ≤ 15 }
    requires small { length file.now ≤ 4194304 }
    requires place { at + 8 * vec_len found.old < 2 ^ 32 }
    ensures step { SegGives (λ _. found.new.items) result (row_step file.now at shift found.old.items) }
    ensures more { OnOk result (vec_len found.new ≡ vec_len found.old + 1) }
    ensures before { OnOk result ((k : ℕ) (d : Segment) → k < length found.old.items → get_or found.new.items k d ≡ get_or found.old.items k d) }
    ensures inside { OnOk result ((d : Segment) → end_of (get_or found.new.items (length found.old.items) d) ≤ length file.now) }
    ensures row { OnOk result ((d : Segment) → get_or found.new.items (length found.old.items) d ≡ segment_at file.now shift (at + 8 * length found.old.items)) }
    ensures size { OnOk result ((d : Segment) → HasSize (get_or found.new.items (length found.old.items) d)) }
{
    let place = at + 8 * found.len() as u32;
    let segment = read_row(file, shift, place)?;
    match found.push(segment) {
        Ok(()) => Ok(()),
        Err(_) => Err(SegFault::NoMemory),
    }
}

// The segments of some rows.
fn rows(
    alloc: Global,
    file: &[u8],
    at: u32,
    count: u16,
    shift: u16,
) -> Result<Vec<Segment>, SegFault>
    requires shift { shift ≤ 15 }
    requires small { length file.now ≤ 4194304 }
    requires place { at + 8 * count < 2 ^ 32 }
    ensures exact { SegGives (λ v. v.items) result (steps (row_step file.now at shift) count []) }
    ensures many { IfOk result (λ v. length v.items ≡ count) }
    ensures inside { IfOk result (λ v. (k : ℕ) (d : Segment) → k < length v.items → end_of (get_or v.items k d) ≤ length file.now) }
    ensures rows { IfOk result (λ v. (k : ℕ) (d : Segment) → k < length v.items → get_or v.items k d ≡ segment_at file.now shift (at + 8 * k)) }
    ensures sizes { IfOk result (λ v. AllSized v.items) }
{
    let mut found = Vec::new(alloc);
    for _ in 0..count {
        add_row(file, at, shift, &mut found)?;
    }
    Ok(found)
}

impl SegTable {
    /// The segments whose rows begin at a place of a file of at most 4,194,304 bytes, or the fault of the first check
    /// that fails. Shift 0 is read as 9.
    #[tactic(auto, unfolding(crate::specs::SegmentTable::segments_of))]
    pub fn read(
        alloc: Global,
        file: &[u8],
        at: u32,
        count: u16,
        shift: u16,
    ) -> Result<SegTable, SegFault>
        requires shift { shift ≤ 15 }
        requires small { length file.now ≤ 4194304 }
        requires place { at + 8 * count < 2 ^ 32 }
        ensures exact { SegGives (λ t. t) result (segments_of file.now at count shift) }
        ensures many { IfOk result (λ t. length t ≡ count) }
        ensures rows { IfOk result (λ t. (k : ℕ) (d : Segment) → k < length t → get_or t k d ≡ segment_at file.now shift (at + 8 * k)) }
        ensures inside { IfOk result (λ t. (k : ℕ) (d : Segment) → k < length t → end_of (get_or t k d) ≤ length file.now) }
    {
        let found = rows(alloc, file, at, count, shift)?;
        Ok(SegTable { found })
    }

    /// A segment by its number from 1. None exactly where there is no such segment.
    pub fn get(&self, n: u16) -> Option<Segment>
        ensures value { result ≡ nth_segment n self.now }
        ensures size { IfSome result HasSize }
    {
        if n == 0 {
            return None;
        }
        self.found.get(n as usize - 1).copied()
    }

    /// The segments, in the order of the table.
    pub fn as_slice(&self) -> &[Segment]
        ensures value { result.now ≡ self.now }
        ensures sizes { AllSized self.now }
    {
        self.found.as_slice()
    }
}
