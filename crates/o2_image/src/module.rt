// A module: a file that passed every check.
ghost use Rattle.std.specs.Prelude.{◌≡◌, ◌+◌, ◌≤◌, ◌<◌, ℕ, get_or, length, option_map, IfOk, IfSome, OnOk};
ghost use Rattle.o2_ne.specs.Checks.{all_hold};
ghost use Rattle.o2_ne.specs.EntryTable.{entries_of};
ghost use Rattle.o2_ne.specs.Header.{head_of};
ghost use Rattle.o2_ne.specs.NameTable.{exports, exports_of};
ghost use Rattle.o2_ne.specs.Steps.{Gives};
ghost use Rattle.o2_ne_segs.specs.declared.segment.Segment.{Segment};
ghost use Rattle.o2_ne_segs.specs.Records.{end_of};
ghost use Rattle.o2_ne_segs.specs.SegmentTable.{nth_segment, segments_of};
ghost use Rattle.o2_image.specs.Alike.{HasPart, Precedes};
ghost use Rattle.o2_image.specs.Faults.{under_ne, under_seg};
ghost use Rattle.o2_image.specs.Getters.{imported_name, is_library, nth, nth_list, nth_reloc, reloc_total};
ghost use Rattle.o2_image.specs.Modules.{auto_data_checks, is_writable, module_of};
ghost use Rattle.o2_image.specs.References.{all_references};
ghost use Rattle.o2_image.specs.Whole.{HasAutoData, HasReference, IsRunnable};

use crate::faults::{of_ne, of_seg};
use crate::records::{Scope, check_segments, reloc_count, reloc_in, total_relocs};
use crate::references::{check_references, has_string, imported_place, reference_at, string_at};
use crate::same_bytes::{records_before, records_within};
use o2_base::{Bytes, Fail, ModuleFault, Which};
use o2_ne::{Entries, Head, Names};
use o2_ne_segs::{Kind, Reloc, SegTable, Segment};
use std::alloc::Global;
use std::marker::Model;

// The header of a file.
fn head(file: &[u8]) -> Result<Head, Fail<ModuleFault>>
    requires { length file.now ≤ 4194304 }
    ensures exact { Gives (λ h. h) result (under_ne (head_of file.now)) }
    ensures inside { IfOk result (λ h. h.at + 64 ≤ length file.now) }
    ensures shift { IfOk result (λ h. h.shift ≤ 15) }
    ensures few { IfOk result (λ h. h.segments ≤ 254) }
{
    match Head::read(file) {
        Ok(head) => Ok(head),
        Err(fault) => Err(Fail::Bad(of_ne(fault))),
    }
}

// The segments of a file.
fn segments(alloc: Global, file: &[u8], head: &Head) -> Result<SegTable, Fail<ModuleFault>>
    requires small { length file.now ≤ 4194304 }
    requires inside { head.now.at + 64 ≤ length file.now }
    requires shift { head.now.shift ≤ 15 }
    ensures exact { Gives (λ t. t) result (under_seg (segments_of file.now (head.now.at + head.now.segments_at) head.now.segments head.now.shift)) }
    ensures many { IfOk result (λ t. length t ≡ head.now.segments) }
    ensures inside { IfOk result (λ t. (k : ℕ) (d : Segment) → k < length t → end_of (get_or t k d) ≤ length file.now) }
{
    let at = head.at + u32::from(head.segments_at);
    match SegTable::read(alloc, file, at, head.segments, head.shift) {
        Ok(segments) => Ok(segments),
        Err(fault) => Err(of_seg(fault)),
    }
}

// The references of a file.
fn references(file: &[u8], head: &Head) -> Result<(), Fail<ModuleFault>>
    requires small { length file.now ≤ 4194304 }
    requires inside { head.now.at + 64 ≤ length file.now }
    ensures exact { Gives (λ _. head.now.references) result (all_references file.now head.now) }
    ensures lie { OnOk result ((k : ℕ) → k < head.now.references → HasReference file.now head.now k) }
{
    match check_references(file, head) {
        Ok(()) => Ok(()),
        Err(fault) => Err(Fail::Bad(fault)),
    }
}

// The names of a file, with which it is kept.
fn names(alloc: Global, file: Bytes, head: &Head) -> Result<Names, Fail<ModuleFault>>
    requires small { length file ≤ 4194304 }
    requires inside { head.now.at + 64 ≤ length file }
    ensures exact { Gives exports result (under_ne (exports_of file head.now)) }
    ensures file { IfOk result (λ ns. ns.file ≡ file) }
{
    match Names::of_file(alloc, file, head) {
        Ok(names) => Ok(names),
        Err(Fail::NoMemory) => Err(Fail::NoMemory),
        Err(Fail::Bad(fault)) => Err(Fail::Bad(of_ne(fault))),
    }
}

// The entries of a file.
fn entries(alloc: Global, file: &[u8], head: &Head) -> Result<Entries, Fail<ModuleFault>>
    requires small { length file.now ≤ 4194304 }
    requires inside { head.now.at + 64 ≤ length file.now }
    ensures { Gives (λ es. es) result (under_ne (entries_of file.now head.now)) }
{
    match Entries::read(alloc, file, head) {
        Ok(entries) => Ok(entries),
        Err(Fail::NoMemory) => Err(Fail::NoMemory),
        Err(Fail::Bad(fault)) => Err(Fail::Bad(of_ne(fault))),
    }
}

// Whether a segment is data that can be written.
pub(crate) fn is_writable(kind: Kind) -> bool
    ensures { result ≡ is_writable kind }
{
    matches!(kind, Kind::Writable)
}

// The automatic data segment, where there is one, is writable data, and fits with stack and heap.
fn check_auto_data(head: &Head, segments: &SegTable) -> Result<(), ModuleFault>
    ensures exact { result ≡ all_hold (auto_data_checks head.now (nth_segment head.now.auto_seg segments.now)) }
    ensures fits { OnOk result (HasAutoData head.now segments.now) }
{
    let Some(segment) = segments.get(head.auto_seg) else {
        return Ok(());
    };
    if !is_writable(segment.kind) {
        return Err(ModuleFault::BadTable(Which::AutoData));
    }
    let size = u64::from(segment.size) + u64::from(head.stack) + u64::from(head.heap);
    if size > 65536 {
        return Err(ModuleFault::OutOfProfile(Which::AutoSize));
    }
    Ok(())
}

// The automatic data of a file.
fn auto_data(head: &Head, segments: &SegTable) -> Result<(), Fail<ModuleFault>>
    ensures exact { Gives (λ u. u) result (all_hold (auto_data_checks head.now (nth_segment head.now.auto_seg segments.now))) }
    ensures fits { OnOk result (HasAutoData head.now segments.now) }
{
    match check_auto_data(head, segments) {
        Ok(()) => Ok(()),
        Err(fault) => Err(Fail::Bad(fault)),
    }
}

/// A file that passed every check of the format and of what is run here.
#[derive(Drop)]
pub struct Module {
    pub(crate) head: Head,
    pub(crate) segments: SegTable,
    pub(crate) names: Names,
    pub(crate) entries: Entries,
}

impl Model for Module {
    ghost use Rattle.o2_ne.specs.NameTable.{exports};
    ghost use Rattle.o2_image.specs.Getters.{imported_name, is_library, nth, nth_reloc, reloc_total};
    ghost use Rattle.o2_image.specs.Modules.{parts_of};
    ghost use Rattle.o2_image.specs.Parts.{Parts};
    ghost use Rattle.o2_image.specs.Whole.{IsWhole};

    ghost Value = { Parts };

    ghost view = { λ m. parts_of m.names.file m.head m.segments (exports m.names) m.entries };

    ghost invariant = { λ m. IsWhole m.names.file m.head m.segments };
}

impl Module {
    /// The module of a file of at most 4,194,304 bytes, or the fault of the first check that fails.
    #[tactic(auto, unfolding(crate::specs::Modules::module_of))]
    pub fn check(alloc: Global, file: Bytes) -> Result<Module, Fail<ModuleFault>>
        requires { length file ≤ 4194304 }
        ensures { Gives (λ m. m) result (module_of file) }
    {
        let bytes = file.as_slice();
        let head = head(bytes)?;
        let segments = segments(alloc, bytes, &head)?;
        auto_data(&head, &segments)?;
        let names = names(alloc, file, &head)?;
        let held = names.file();
        let kept = held.as_slice();
        references(kept, &head)?;
        let entries = entries(alloc, kept, &head)?;
        let scope = Scope {
            file: kept,
            head: &head,
            entries: &entries,
        };
        check_segments(alloc, &scope, segments.as_slice())?;
        Ok(Module {
            head,
            segments,
            names,
            entries,
        })
    }

    /// The module's name, of 1 to 255 bytes without a line end.
    pub fn name(&self) -> &Bytes
        ensures { result.now ≡ self.now.names.own }
    {
        self.names.module()
    }

    /// Whether it is a library; else it is a program.
    pub fn is_library(&self) -> bool
        ensures { result ≡ is_library self.now }
    {
        self.head.flags & 0x8000 != 0
    }

    /// How many segments it has, at most 254.
    pub fn segment_count(&self) -> u16
        ensures { result ≡ length self.now.segments }
    {
        self.segments.as_slice().len() as u16
    }

    /// A segment by its number from 1, of 1 to 65,536 bytes. None exactly where there is no such segment.
    pub fn segment(&self, n: u16) -> Option<Segment>
        ensures { result ≡ nth_segment n self.now.segments }
    {
        self.segments.get(n)
    }

    /// The header.
    pub fn head(&self) -> &Head
        ensures { result.now ≡ self.now.head }
    {
        &self.head
    }

    /// What a run goes by: the bounds of the name, of the segments and of the automatic data.
    pub fn is_runnable(&self)
        ensures { IsRunnable self.now }
    {
        let _ = self.names.module();
        let _ = self.segments.as_slice();
    }

    /// The module's own name, and the names that it exports.
    pub fn names(&self) -> &Names
        ensures { exports result.now ≡ self.now.names }
    {
        &self.names
    }

    /// The defined ordinals, and where they lead.
    pub fn entries(&self) -> &Entries
        ensures { result.now ≡ self.now.entries }
    {
        &self.entries
    }

    /// The name of a reference by its number from 1. None exactly where there is no such reference.
    pub fn reference(&self, k: u16) -> Option<&[u8]>
        ensures { option_map (λ b. b.now) result ≡ nth self.now.references k }
    {
        if k == 0 {
            return None;
        }
        if k > self.head.references {
            return None;
        }
        Some(reference_at(self.names.file().as_slice(), &self.head, k - 1))
    }

    /// The imported name at an offset in the table of imported names. None exactly where it doesn't lie in the file.
    pub fn imported(&self, at: u16) -> Option<&[u8]>
        ensures { option_map (λ b. b.now) result ≡ imported_name self.now at }
    {
        let file = self.names.file().as_slice();
        let place = imported_place(&self.head, at);
        if !has_string(file, place) {
            return None;
        }
        Some(string_at(file, place))
    }

    /// A record by its segment from 1 and its number from 0. None exactly where there is no such record.
    pub fn reloc(&self, seg: u16, k: u16) -> Option<Reloc>
        ensures { result ≡ nth_reloc self.now seg k }
    {
        let segment = self.segments.get(seg)?;
        reloc_in(self.names.file().as_slice(), &segment, k)
    }

    /// How many records a segment has, 0 where there is no such segment.
    pub fn segment_relocs(&self, seg: u16) -> u16
        ensures { result ≡ length (nth_list self.now.relocs seg) }
    {
        match self.segments.get(seg) {
            Some(segment) => reloc_count(self.names.file().as_slice(), &segment),
            None => 0,
        }
    }

    /// How many records of a segment stand before those of another, where the last ones of the one are the first ones of the
    /// other, since the file has both at the same place.
    pub fn records_before(&self, a: u16, b: u16) -> Option<u16>
        ensures { IfSome result (λ n. Precedes n (nth_list self.now.relocs a) (nth_list self.now.relocs b)) }
    {
        let Some(first) = self.segments.get(a) else {
            return None;
        };
        let Some(second) = self.segments.get(b) else {
            return None;
        };
        records_before(self.names.file().as_slice(), &first, &second)
    }

    /// How many records of a segment stand before those of another, where it has all of these, since the file has both at the
    /// same place.
    pub fn records_within(&self, a: u16, b: u16) -> Option<u16>
        ensures { IfSome result (λ n. HasPart n (nth_list self.now.relocs a) (nth_list self.now.relocs b)) }
    {
        let Some(first) = self.segments.get(a) else {
            return None;
        };
        let Some(second) = self.segments.get(b) else {
            return None;
        };
        records_within(self.names.file().as_slice(), &first, &second)
    }

    /// How many records all segments have together.
    pub fn reloc_count(&self) -> u32
        ensures { result ≡ reloc_total self.now }
    {
        total_relocs(self.names.file().as_slice(), self.segments.as_slice())
    }

    /// How many ordinals are defined.
    pub fn entry_count(&self) -> u32
        ensures { result ≡ length self.now.entries }
    {
        self.entries.len()
    }
}
