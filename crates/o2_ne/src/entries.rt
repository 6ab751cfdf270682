ghost use Rattle.std.specs.Prelude.{◌≡◌, ◌+◌, ◌≤◌, ◌<◌, ◌^◌, length, List, Option, ◌==◌, slice_get, IfOk};
ghost use Rattle.o2_ne.specs.Steps.{Gives, steps};
ghost use Rattle.o2_ne.specs.Rising.{IsRising};
ghost use Rattle.o2_ne.specs.EntryPlaces.{BundlesStand};
ghost use Rattle.o2_ne.specs.EntryTable.{bundle, entry_step, entries_of, is_segment, table_step, target_of};

use crate::bytes::{need, u16_at};
use crate::head::Head;
use crate::slots::{slot_at, slots_of};
use o2_base::{Fail, NeFault, Which};
use std::alloc::Global;
use std::marker::Model;

/// A defined ordinal, and where it leads.
#[derive(Clone, Copy, Debug, PartialEq, Eq)]
pub struct Entry {
    pub ordinal: u32,
    pub segment: u8,
    pub offset: u16,
}

// The reading of the table so far.
#[derive(Drop)]
struct Reading {
    found: Vec<Entry>,
    ordinal: u32,
    place: u32,
    ended: bool,
    ghost rising: { IsRising found.items ordinal },
}

fn is_segment(count: u16, segment: u8) -> bool
    ensures { result ≡ is_segment count segment }
{
    segment >= 1 && segment as u16 <= count
}

impl Reading {
    ghost use Rattle.o2_ne.specs.EntryViews.{table};

    // One entry of a bundle.
    fn entry(&mut self, file: &[u8], segments: u16, kind: u8) -> Result<(), Fail<NeFault>>
        requires small { length file.now ≤ 4194304 }
        requires place { self.old.place < 2 ^ 23 }
        requires ordinal { self.old.ordinal + 1 < 2 ^ 32 }
        ensures step { Gives (λ _. table self.new) result (entry_step file.now segments kind (table self.old)) }
        ensures place { self.new.place < 2 ^ 23 }
        ensures ordinal { self.new.ordinal ≤ self.old.ordinal + 1 }
    {
        let place = self.place as usize;
        if kind == 255 {
            need(file, self.place, 6)?;
            let segment = file[place + 3];
            if !is_segment(segments, segment) {
                return Err(Fail::Bad(NeFault::BadTable(Which::Entries)));
            }
            let offset = u16_at(file, place + 4);
            self.found.push(Entry {
                ordinal: self.ordinal,
                segment,
                offset,
            })?;
            self.place += 6;
        } else {
            need(file, self.place, 3)?;
            let offset = u16_at(file, place + 1);
            self.found.push(Entry {
                ordinal: self.ordinal,
                segment: kind,
                offset,
            })?;
            self.place += 3;
        }
        self.ordinal += 1;
        Ok(())
    }

    // The entries of a bundle.
    fn entries(
        &mut self,
        file: &[u8],
        segments: u16,
        count: u8,
        kind: u8,
    ) -> Result<(), Fail<NeFault>>
        requires small { length file.now ≤ 4194304 }
        requires place { self.old.place < 2 ^ 23 }
        requires ordinal { self.old.ordinal + count < 2 ^ 32 }
        ensures step { Gives (λ _. table self.new) result (steps (entry_step file.now segments kind) count (table self.old)) }
        ensures place { self.new.place < 2 ^ 23 }
        ensures ordinal { self.new.ordinal ≤ self.old.ordinal + count }
    {
        for _ in 0..count {
            self.entry(file, segments, kind)?;
        }
        Ok(())
    }

    // A bundle whose entries begin at the place.
    fn bundle(
        &mut self,
        file: &[u8],
        segments: u16,
        count: u8,
        kind: u8,
    ) -> Result<(), Fail<NeFault>>
        requires small { length file.now ≤ 4194304 }
        requires place { self.old.place < 2 ^ 23 }
        requires ordinal { self.old.ordinal + count < 2 ^ 32 }
        ensures step { Gives (λ _. table self.new) result (bundle file.now segments count kind (table self.old)) }
        ensures place { self.new.place < 2 ^ 23 }
        ensures ordinal { self.new.ordinal ≤ self.old.ordinal + count }
    {
        if kind == 0 {
            self.ordinal += u32::from(count);
            return Ok(());
        }
        if kind == 254 {
            return Err(Fail::Bad(NeFault::OutOfProfile(Which::Constant)));
        }
        if kind != 255 && !is_segment(segments, kind) {
            return Err(Fail::Bad(NeFault::BadTable(Which::Entries)));
        }
        self.entries(file, segments, count, kind)
    }

    // The next bundle, where the table has not ended.
    #[tactic(auto, unfolding(crate::specs::EntryTable::table_step))]
    fn next(&mut self, file: &[u8], segments: u16, end: u32) -> Result<(), Fail<NeFault>>
        requires small { length file.now ≤ 4194304 }
        requires place { self.old.place < 2 ^ 23 }
        requires ordinal { self.old.ordinal + 255 < 2 ^ 32 }
        ensures step { Gives (λ _. table self.new) result (table_step file.now segments end (table self.old)) }
        ensures place { self.new.place < 2 ^ 23 }
        ensures ordinal { self.new.ordinal ≤ self.old.ordinal + 255 }
    {
        if self.ended || self.place >= end {
            return Ok(());
        }
        need(file, self.place, 1)?;
        let count = file[self.place as usize];
        if count == 0 {
            self.ended = true;
            return Ok(());
        }
        need(file, self.place + 1, 1)?;
        let kind = file[self.place as usize + 1];
        self.place += 2;
        self.bundle(file, segments, count, kind)
    }

    // The bundles up to the end, of which there are at most `most`.
    fn bundles(
        &mut self,
        file: &[u8],
        segments: u16,
        most: u16,
        end: u32,
    ) -> Result<(), Fail<NeFault>>
        requires small { length file.now ≤ 4194304 }
        requires place { self.old.place < 2 ^ 23 }
        requires ordinal { self.old.ordinal ≤ 1 }
        ensures exact { Gives (λ _. table self.new) result (steps (table_step file.now segments end) most (table self.old)) }
        ensures ordinal { self.new.ordinal < 16777216 }
    {
        for _ in 0..most {
            self.next(file, segments, end)?;
        }
        Ok(())
    }
}

// The entry at an index.
fn entry_at(found: &[Entry], at: usize) -> Option<Entry>
    ensures { result ≡ slice_get found.now at }
{
    found.get(at).copied()
}

// How many ordinals a file can name.
const ORDINALS: usize = 65536;

/// The defined ordinals of a file, with a slot for each that it can name.
#[derive(Drop)]
pub struct Entries {
    found: Vec<Entry>,
    slots: Vec<u32>,
}

impl Model for Entries {
    ghost use Rattle.std.specs.Prelude.{List};
    ghost use Rattle.o2_ne.specs.declared.entries.Entry.{Entry};
    ghost use Rattle.o2_ne.specs.EntrySlots.{AreSlots, named_ordinals};
    ghost use Rattle.o2_ne.specs.Rising.{AreEntries};

    ghost Value = { List Entry };

    ghost view = { λ a. a.found.items };

    ghost invariant = { λ a. AreEntries a.found.items × AreSlots named_ordinals a.found.items a.slots.items };
}

impl Entries {
    #[tactic(auto, unfolding(crate::specs::EntryTable::entries_of))]
    /// The entries of a file with this header, or the fault of the first check that fails.
    pub fn read(alloc: Global, file: &[u8], head: &Head) -> Result<Entries, Fail<NeFault>>
        requires small { length file.now ≤ 4194304 }
        requires inside { head.now.at + 64 ≤ length file.now }
        ensures exact { Gives (λ es. es) result (entries_of file.now head.now) }
        ensures stand { IfOk result (λ es. BundlesStand file.now (head.now.at + head.now.entries + head.now.entries_len) (head.now.at + head.now.entries) 1 es) }
    {
        let start = head.at + u32::from(head.entries);
        let end = start + u32::from(head.entries_len);
        let mut reading = Reading {
            found: Vec::new(alloc),
            ordinal: 1,
            place: start,
            ended: false,
        };
        reading.bundles(file, head.segments, head.entries_len, end)?;
        let Reading { found, .. } = reading;
        let slots = slots_of(alloc, found.as_slice(), ORDINALS)?;
        Ok(Entries { found, slots })
    }

    /// Where an ordinal leads, as a segment and an offset. None exactly where it isn't defined.
    pub fn get(&self, ordinal: u16) -> Option<(u8, u16)>
        ensures { result ≡ target_of ordinal self.now }
    {
        let slot = slot_at(self.slots.as_slice(), ordinal);
        if slot == 0 {
            return None;
        }
        match entry_at(self.found.as_slice(), slot as usize - 1) {
            Some(entry) => Some((entry.segment, entry.offset)),
            None => unreachable!(),
        }
    }

    /// How many ordinals are defined.
    pub fn len(&self) -> u32
        ensures { result ≡ length self.now }
    {
        self.found.len() as u32
    }
}
