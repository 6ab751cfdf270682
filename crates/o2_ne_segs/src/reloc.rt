// The relocation records of a segment.
ghost use Rattle.std.specs.Prelude.{◌≡◌, ◌+◌, ◌*◌, ◌≤◌, ◌<◌, ℕ, get_or, length, slice_get, IfOk, OnOk, IsTrue};
ghost use Rattle.o2_ne_segs.specs.declared.reloc.Reloc.{Reloc};
ghost use Rattle.o2_ne_segs.specs.SegmentTable.{SegGives};
ghost use Rattle.o2_ne_segs.specs.Records.{counted, end_of, reloc_at, reloc_count, relocs_at, relocs_of};

use crate::segment::Segment;
use o2_base::SegFault;
use o2_ne::{need, u16_at};
use std::alloc::{AllocError, Global};
use std::marker::Model;

/// A relocation record.
#[derive(Clone, Copy, Debug, PartialEq, Eq)]
pub struct Reloc {
    /// What is patched: 0 a low byte, 2 a selector, 3 a far pointer, 5 an offset.
    pub source: u8,
    /// Bits 0 and 1 are the kind of target, bit 2 is set for an additive record.
    pub flags: u8,
    /// The place of the patch in the segment, the first one of a chain.
    pub place: u16,
    /// The first target word.
    pub first: u16,
    /// The second target word.
    pub second: u16,
}

/// The record whose eight bytes stand at a place.
pub fn reloc_at(file: &[u8], at: usize) -> Reloc
    requires { at + 8 ≤ length file.now }
    ensures { result ≡ reloc_at file.now at }
{
    Reloc {
        source: file[at],
        flags: file[at + 1],
        place: u16_at(file, at + 2),
        first: u16_at(file, at + 4),
        second: u16_at(file, at + 6),
    }
}

/// How many records a segment of this file has, where the file has them all; else the fault of the first check that
/// fails.
#[tactic(auto, unfolding(crate::specs::Records::counted))]
pub fn check_relocs(file: &[u8], seg: &Segment) -> Result<u16, SegFault>
    requires small { length file.now ≤ 4194304 }
    requires inside { end_of seg.now ≤ length file.now }
    ensures exact { result ≡ counted file.now seg.now }
    ensures value { IfOk result (λ n. n ≡ reloc_count file.now seg.now) }
    ensures word { OnOk result (IsTrue seg.now.relocs → end_of seg.now + 2 ≤ length file.now) }
    ensures rows { IfOk result (λ n. 0 < n → end_of seg.now + 2 + 8 * n ≤ length file.now) }
{
    if !seg.relocs {
        return Ok(0);
    }
    let at = seg.file_at + seg.file_len;
    need(file, at, 2)?;
    let count = u16_at(file, at as usize);
    need(file, at + 2, 8 * u32::from(count))?;
    Ok(count)
}

// The records from a place on.
fn relocs_from(alloc: Global, file: &[u8], at: usize, count: u16) -> Result<Vec<Reloc>, AllocError>
    requires { 0 < count → at + 8 * count ≤ length file.now }
    ensures exact { IfOk result (λ v. v.items ≡ relocs_at file.now at count) }
    ensures count { IfOk result (λ v. length v.items ≡ count) }
    ensures rows { IfOk result (λ v. (k : ℕ) (d : Reloc) → k < length v.items → get_or v.items k d ≡ reloc_at file.now (at + 8 * k)) }
{
    let mut found = Vec::new(alloc);
    for k in 0..count {
        found.push(reloc_at(file, at + 8 * usize::from(k)))?;
    }
    Ok(found)
}

/// The relocation records of a segment.
#[derive(Drop)]
pub struct Relocs {
    found: Vec<Reloc>,
}

impl Model for Relocs {
    ghost use Rattle.std.specs.Prelude.{List};
    ghost use Rattle.o2_ne_segs.specs.declared.reloc.Reloc.{Reloc};

    ghost Value = { List Reloc };

    ghost view = { λ a. a.found.items };
}

impl Relocs {
    /// The records of a segment of this file of at most 4,194,304 bytes, or the fault of the first check that fails.
    #[tactic(auto, unfolding(crate::specs::Records::relocs_of))]
    pub fn read(alloc: Global, file: &[u8], seg: &Segment) -> Result<Relocs, SegFault>
        requires small { length file.now ≤ 4194304 }
        requires inside { end_of seg.now ≤ length file.now }
        ensures exact { SegGives (λ t. t) result (relocs_of file.now seg.now) }
        ensures count { IfOk result (λ t. length t ≡ reloc_count file.now seg.now) }
        ensures rows { IfOk result (λ t. (k : ℕ) (d : Reloc) → k < length t → get_or t k d ≡ reloc_at file.now (end_of seg.now + 2 + 8 * k)) }
    {
        let count = check_relocs(file, seg)?;
        let at = seg.file_at as usize + seg.file_len as usize + 2;
        let Ok(found) = relocs_from(alloc, file, at, count) else {
            return Err(SegFault::NoMemory);
        };
        Ok(Relocs { found })
    }

    /// A record by its number from 0. None exactly past the last.
    pub fn get(&self, k: u16) -> Option<Reloc>
        ensures { result ≡ slice_get self.now k }
    {
        self.found.get(usize::from(k)).copied()
    }
}
