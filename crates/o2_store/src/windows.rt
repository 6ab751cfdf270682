// Segments in memory: their bytes, their place and their use.
ghost use Rattle.std.specs.Prelude.{◌≡◌, ℕ, List, ◌+◌, ◌<◌, ◌≤◌, ◌↔◌, length, Some, None, IsSome, IsTrue, IfSome, slice_index, option_map, slice_set, true, false};
ghost use Rattle.std.specs.Option.{IfNone};
ghost use Rattle.std.specs.Borrow.{sem};
ghost use Rattle.o2_phys.specs.Bytes.{part, with_part};
ghost use Rattle.o2_store.specs.Lending.{LendsMemory};
ghost use Rattle.o2_store.specs.Shelf.{Pictures, place_of, entry_of, entry, byte_at, base_of};

use crate::store::Store;
use o2_place::SegId;

impl Store {
    /// The address of a segment's first byte, and none exactly where it is stale or not in memory.
    pub fn base(&self, id: SegId) -> Option<u32>
        ensures { result ≡ base_of (entry_of self.now id) (place_of self.now id.key) }
    {
        self.find(id)?;
        match self.range_of(id.key) {
            Some((at, _)) => Some(at),
            None => None,
        }
    }

    /// The bytes of a segment in memory, and none exactly where it is stale or not in memory. Nothing moves as long as they
    /// are lent.
    pub fn window(&self, id: SegId) -> Option<&[u8]>
        ensures none { IfNone result (base_of (entry_of self.now id) (place_of self.now id.key) ≡ None) }
        ensures some { IfSome result (λ w. IsSome (base_of (entry_of self.now id) (place_of self.now id.key))) }
        ensures size { IfSome result (λ w. option_map (λ e. e.size) (entry_of self.now id) ≡ Some (length w.now)) }
        ensures bytes { IfSome result (λ w. (pic : Pictures) (block : ℕ → List ℕ) (j : ℕ) → j < length w.now → slice_index w.now j ≡ byte_at self.now pic block id.key j) }
    {
        self.law();
        let entry = self.find(id)?;
        match self.range_of(id.key) {
            Some((at, _)) => Some(self.phys.bytes(at, entry.size)),
            None => None,
        }
    }

    /// The bytes of a range of the memory, to be written. Nothing moves as long as they are lent.
    pub fn lend(&mut self, at: u32, len: u32) -> &mut [u8]
        requires { at + len ≤ length self.old.memory }
        ensures* writes_back { sem 𝓛 (LendsMemory self.entry at result) }
        ensures value { result.now ≡ part self.old.memory at len }
    {
        self.phys.bytes_mut(at, len)
    }

    /// The bytes of a segment in memory, to be written, and none exactly where it is stale or not in memory. What is written
    /// through them is told by `lend` alone.
    pub fn window_mut(&mut self, id: SegId) -> Option<&mut [u8]>
        ensures none { IfNone result (base_of (entry_of self.old id) (place_of self.old id.key) ≡ None) }
        ensures some { IfSome result (λ w. IsSome (base_of (entry_of self.old id) (place_of self.old id.key))) }
        ensures size { IfSome result (λ w. option_map (λ e. e.size) (entry_of self.old id) ≡ Some (length w.now)) }
        ensures value { IfSome result (λ w. (at : ℕ) → base_of (entry_of self.old id) (place_of self.old id.key) ≡ Some at
            → w.now ≡ part self.old.memory at (entry self.old id.key).size) }
    {
        self.law();
        let entry = self.find(id)?;
        match self.range_of(id.key) {
            Some((at, _)) => Some(self.phys.bytes_mut(at, entry.size)),
            None => None,
        }
    }

    /// Writes bytes into a segment in memory, from an offset on.
    pub fn put(&mut self, id: SegId, offset: u32, bytes: &[u8])
        requires present { IsSome (base_of (entry_of self.old id) (place_of self.old id.key)) }
        requires within { offset + length bytes.now ≤ (entry self.old id.key).size }
        ensures { (at : ℕ) → base_of (entry_of self.old id) (place_of self.old id.key) ≡ Some at → self.new ≡ record self.old { memory = with_part self.old.memory (at + offset) bytes.now } }
    {
        self.law();
        if let Some(at) = self.base(id) {
            self.phys.write(at + offset, bytes);
        }
    }

    /// Tells the clock that a segment was used, where it is in memory and not locked. False exactly where it is stale.
    pub fn touch(&mut self, id: SegId) -> bool
        ensures live { IsTrue result ↔ IsSome (entry_of self.old id) }
        ensures rest { self.new ≡ record self.old { turns = self.new.turns } }
        ensures used { IsSome (base_of (entry_of self.old id) (place_of self.old id.key))
            → (entry self.old id.key).attr.lock ≡ 0
            → self.new.turns.marks ≡ slice_set self.old.turns.marks id.key (record { present = true; used = true }) }
        ensures out { base_of (entry_of self.old id) (place_of self.old id.key) ≡ None → self.new ≡ self.old }
        ensures locked { 0 < (entry self.old id.key).attr.lock → self.new ≡ self.old }
    {
        let Some(entry) = self.find(id) else {
            return false;
        };
        if entry.attr.lock == 0 && self.range_of(id.key).is_some() {
            self.clock.touch(id.key);
        }
        true
    }
}
