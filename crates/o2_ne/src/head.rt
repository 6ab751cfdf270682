// The header of a segmented executable.
ghost use Rattle.std.specs.Prelude.{◌≡◌, ◌+◌, ◌≤◌, length, IfOk, OnOk};
ghost use Rattle.o2_ne.specs.Checks.{all_hold, checked};
ghost use Rattle.o2_ne.specs.Words.{long_at};
ghost use Rattle.o2_ne.specs.Header.{head_at, place_checks, place_of_header, profile_checks, head_of};

use crate::bytes::{need, u16_at, u32_at};
use o2_base::{NeFault, Which};

/// The fields of the header of a segmented executable. Offsets of tables count from its place `at`.
#[derive(Clone, Copy, Debug, PartialEq, Eq)]
pub struct Head {
    /// The place of the header in the file.
    pub at: u32,
    /// 04: the offset of the entry table.
    pub entries: u16,
    /// 06: how many bytes the entry table has.
    pub entries_len: u16,
    /// 0C: flags; bits 0 and 1 are the data mode, 2000 is set where linking failed, 8000 for a library.
    pub flags: u16,
    /// 0E: the number of the automatic data segment, or 0.
    pub auto_seg: u16,
    /// 10: how many bytes of heap the automatic data segment gets.
    pub heap: u16,
    /// 12: how many bytes of stack it gets.
    pub stack: u16,
    /// 14: the first IP.
    pub ip: u16,
    /// 16: the number of the first CS's segment.
    pub cs: u16,
    /// 18: the first SP.
    pub sp: u16,
    /// 1A: the number of the first SS's segment, or 0.
    pub ss: u16,
    /// 1C: how many segments there are, at most 254.
    pub segments: u16,
    /// 1E: how many module references there are, at most 255.
    pub references: u16,
    /// 20: how many bytes the table of nonresident names has.
    pub nonresident_len: u16,
    /// 22: the offset of the segment table.
    pub segments_at: u16,
    /// 26: the offset of the table of resident names.
    pub resident_at: u16,
    /// 28: the offset of the module references.
    pub references_at: u16,
    /// 2A: the offset of the imported names.
    pub imported_at: u16,
    /// 2C: the place of the nonresident names in the file.
    pub nonresident_at: u32,
    /// 30: how many entries are movable; it isn't used.
    pub movable: u16,
    /// 32: segments begin at multiples of 2 to this power, at most 15; 0 stands for 9.
    pub shift: u16,
    /// 36: the target system, 0 or 1 for OS/2.
    pub target: u8,
}

impl Head {
    /// The header of a file of at most 4,194,304 bytes, or the fault of the first check that fails.
    pub fn read(file: &[u8]) -> Result<Head, NeFault>
        requires { length file.now ≤ 4194304 }
        ensures exact { result ≡ head_of file.now }
        ensures place { IfOk result (λ h. h.at ≡ long_at file.now 60) }
        ensures words { IfOk result (λ h. h ≡ head_at file.now h.at) }
        ensures inside { IfOk result (λ h. h.at + 64 ≤ length file.now) }
        ensures shift { IfOk result (λ h. h.shift ≤ 15) }
        ensures few { IfOk result (λ h. h.segments ≤ 254) }
    {
        let at = place(file)?;
        let head = fields(file, at);
        profile(&head)?;
        Ok(head)
    }
}

// Where the header begins.
fn place(file: &[u8]) -> Result<u32, NeFault>
    requires { length file.now ≤ 4194304 }
    ensures value { result ≡ checked (place_checks file.now) (place_of_header file.now) }
    ensures place { IfOk result (λ at. at ≡ long_at file.now 60) }
    ensures within { IfOk result (λ at. at + 64 ≤ length file.now) }
{
    if !file.starts_with(b"MZ") {
        return Err(NeFault::NotMz);
    }
    need(file, 0, 64)?;
    let at = u32_at(file, 60);
    need(file, at, 64)?;
    let start = at as usize;
    if file[start] != b'N' || file[start + 1] != b'E' {
        return Err(NeFault::NotNe);
    }
    Ok(at)
}

// The fields of the header at a place.
fn fields(file: &[u8], at: u32) -> Head
    requires { at + 64 ≤ length file.now }
    ensures { result ≡ head_at file.now at }
{
    let p = at as usize;
    Head {
        at,
        entries: u16_at(file, p + 4),
        entries_len: u16_at(file, p + 6),
        flags: u16_at(file, p + 12),
        auto_seg: u16_at(file, p + 14),
        heap: u16_at(file, p + 16),
        stack: u16_at(file, p + 18),
        ip: u16_at(file, p + 20),
        cs: u16_at(file, p + 22),
        sp: u16_at(file, p + 24),
        ss: u16_at(file, p + 26),
        segments: u16_at(file, p + 28),
        references: u16_at(file, p + 30),
        nonresident_len: u16_at(file, p + 32),
        segments_at: u16_at(file, p + 34),
        resident_at: u16_at(file, p + 38),
        references_at: u16_at(file, p + 40),
        imported_at: u16_at(file, p + 42),
        nonresident_at: u32_at(file, p + 44),
        movable: u16_at(file, p + 48),
        shift: u16_at(file, p + 50),
        target: file[p + 54],
    }
}

// Whether a header is of the profile.
fn profile(head: &Head) -> Result<(), NeFault>
    ensures exact { result ≡ all_hold (profile_checks head.now) }
    ensures shift { OnOk result (head.now.shift ≤ 15) }
    ensures few { OnOk result (head.now.segments ≤ 254) }
{
    if head.target > 1 {
        return Err(NeFault::NotOs2);
    }
    if head.flags & 0x2000 != 0 {
        return Err(NeFault::LinkErrors);
    }
    if head.flags & 3 == 3 {
        return Err(NeFault::BadTable(Which::DataMode));
    }
    if head.shift > 15 {
        return Err(NeFault::BadTable(Which::Shift));
    }
    if head.segments > 254 {
        return Err(NeFault::OutOfProfile(Which::Segments));
    }
    if head.references > 255 {
        return Err(NeFault::OutOfProfile(Which::References));
    }
    if head.auto_seg > head.segments {
        return Err(NeFault::BadTable(Which::AutoData));
    }
    Ok(())
}
