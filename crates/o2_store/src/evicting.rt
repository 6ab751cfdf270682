// Segments leave the memory.
ghost use Rattle.std.specs.Prelude.{◌≡◌, ◌≢◌, ℕ, List, Bool, ◌+◌, ◌-◌, ◌<◌, ◌≤◌, length, Some, None, IsSome, IsTrue, IfSome, slice_index, slice_set, true, false};
ghost use Rattle.o2_entries.specs.Tables.{slot_at};
ghost use Rattle.o2_outer.specs.Answers.{HasCause};
ghost use Rattle.o2_place.specs.Layout.{Changes, used, len_of};
ghost use Rattle.o2_swapmap.specs.Piles.{blocks_of, all_of, free, OnlyOf};
ghost use Rattle.o2_store.specs.Frames.{KeepsDevice};
ghost use Rattle.o2_store.specs.Leaving.{IsWrittenOut, Evicts, LeaveFor};
ghost use Rattle.o2_store.specs.Loads.{swap_load};
ghost use Rattle.o2_store.specs.Victims.{HasLeft};
ghost use Rattle.o2_store.specs.Shelf.{Pictures, KeepsAll, AreClean, place_of, entry_of, entry, rounded, blocks_for, stored_byte, out_byte, IsOther, IsFull, IsSaved, SameTables};

use crate::blocks::{trimmed, write_out};
use crate::brought::Brought;
use crate::store::Store;
use o2_entries::Entry;
use o2_outer::{Dev, SwapDevice};
use o2_place::SegId;
use o2_swapmap::SwapMap;

impl Store {
    // How many bytes of a segment in memory there are up to its last one that isn't zero.
    fn trimmed_size(&self, key: u32, at: u32) -> u32
        requires placed { place_of self.now key ≡ Some (at, rounded (entry self.now key).size) }
        requires live { IsSome (slot_at self.now.entries key) }
        ensures within { result ≤ (entry self.now key).size }
        ensures zeros { (j : ℕ) → result ≤ j → j < (entry self.now key).size → slice_index self.now.memory (at + j) ≡ 0 }
        ensures last { 0 < result → slice_index self.now.memory (at + (result - 1)) ≢ 0 }
    {
        self.law();
        match self.entries.get(key) {
            Some(entry) => trimmed(self.phys.bytes(at, entry.size)),
            None => 0,
        }
    }

    // Sees that a segment in memory has just the blocks for so many bytes, and no image.
    fn reserve(&mut self, key: u32, kept: u32) -> bool
        requires live { IsSome (slot_at self.old.entries key) }
        requires placed { IsSome (place_of self.old key) }
        requires written { (entry self.old key).attr.clean ≡ false }
        requires kept { kept ≤ (entry self.old key).size }
        ensures keeps { (told : Bool) (pic : Pictures) (block : ℕ → List ℕ) → KeepsAll told pic self.old block self.new block }
        ensures clean { (pic : Pictures) → AreClean self.old pic → AreClean self.new pic }
        ensures shelf { self.new ≡ record self.old { swap = self.new.swap; entries = self.new.entries } }
        ensures done { result ≡ true → self.new.entries ≡ slice_set self.old.entries key (Some (record (entry self.old key) { kept = kept; image = None })) }
        ensures map { all_of self.new.swap ≡ all_of self.old.swap }
        ensures enough { result ≡ true → length (blocks_of self.new.swap key) ≡ blocks_for kept }
        ensures piles { (k : ℕ) → k < length self.old.entries → k ≢ key → blocks_of self.new.swap k ≡ blocks_of self.old.swap k }
        ensures others { (k : ℕ) → k ≢ key → slot_at self.new.entries k ≡ slot_at self.old.entries k }
        ensures full { result ≡ false → (length (free self.old.swap) < blocks_for kept - length (blocks_of self.old.swap key)) × (self.new ≡ self.old) }
    {
        let Some(old) = self.entries.get(key) else {
            return true;
        };
        if !fit_blocks(&mut self.swap, key, (kept + 511) / 512) {
            return false;
        }
        self.entries.set(
            key,
            Entry {
                age: old.age,
                size: old.size,
                kept,
                image: None,
                attr: old.attr,
            },
        );
        true
    }

    // Writes the bytes of a segment in memory to its blocks.
    fn flush<S: SwapDevice>(&self, key: u32, at: u32, kept: u32, swap: &mut S) -> Dev
        requires placed { place_of self.now key ≡ Some (at, rounded (entry self.now key).size) }
        requires kept { kept ≤ (entry self.now key).size }
        requires enough { length (blocks_of self.now.swap key) ≡ blocks_for kept }
        requires device { all_of self.now.swap ≤ S.blocks swap.old }
        ensures device { (S.blocks swap.new ≡ S.blocks swap.old) × (IsTrue (S.told swap.new) → IsTrue (S.told swap.old)) }
        ensures others { IsTrue (S.told swap.new) → (b : ℕ) → IsOther self.now.swap key b → S.block swap.new b ≡ S.block swap.old b }
        ensures unasked { S.asked swap.new ≡ S.asked swap.old }
        ensures written { IsTrue (S.told swap.new) → result ≡ Dev.Done → (j : ℕ) → j < kept → stored_byte self.now.swap (S.block swap.new) key j ≡ slice_index self.now.memory (at + j) }
        ensures cause { HasCause (S.faults swap.old) (S.faults swap.new) result }
    {
        self.law();
        write_out(&self.phys, &self.swap, key, at, kept, swap)
    }

    // Writes a segment in memory that isn't clean to blocks, up to its last byte that isn't zero.
    fn save<S: SwapDevice>(&mut self, key: u32, at: u32, swap: &mut S) -> Brought
        requires live { IsSome (slot_at self.old.entries key) }
        requires placed { place_of self.old key ≡ Some (at, rounded (entry self.old key).size) }
        requires written { (entry self.old key).attr.clean ≡ false }
        requires device { all_of self.old.swap ≤ S.blocks swap.old }
        ensures keeps { (pic : Pictures) → KeepsAll (S.told swap.new) pic self.old (S.block swap.old) self.new (S.block swap.new) }
        ensures clean { (pic : Pictures) → AreClean self.old pic → AreClean self.new pic }
        ensures shelf { self.new ≡ record self.old { swap = self.new.swap; entries = self.new.entries } }
        ensures map { all_of self.new.swap ≡ all_of self.old.swap }
        ensures tables { SameTables self.old self.new }
        ensures device { KeepsDevice S.blocks S.told S.faults swap.old swap.new
            (result ≡ Brought.SwapFault) }
        ensures saved { IsTrue (S.told swap.new) → result ≡ Brought.Here → (pic : Pictures) (j : ℕ) → j < (entry self.old key).size → out_byte self.new pic (S.block swap.new) key j ≡ slice_index self.new.memory (at + j) }
        ensures others { (k : ℕ) → k ≢ key → slot_at self.new.entries k ≡ slot_at self.old.entries k }
        ensures written { result ≡ Brought.Here → IsWrittenOut self.old self.new key }
        ensures unasked { S.asked swap.new ≡ S.asked swap.old }
        ensures piles { (k : ℕ) → k < length self.old.entries → k ≢ key → blocks_of self.new.swap k ≡ blocks_of self.old.swap k }
        ensures full { result ≡ Brought.SwapFull → IsFull self.new }
        ensures lacks { result ≡ Brought.SwapFull → (self.new ≡ self.old) × (swap.new ≡ swap.old)
            × (length (free self.old.swap) < blocks_for (entry self.old key).size - length (blocks_of self.old.swap key)) }
        ensures never { (result ≡ Brought.NoRoom → ⊥) × (result ≡ Brought.Stale → ⊥) }
    {
        let kept = self.trimmed_size(key, at);
        if !self.reserve(key, kept) {
            return Brought::SwapFull;
        }
        self.law();
        if let Dev::Failed = self.flush(key, at, kept, swap) {
            return Brought::SwapFault;
        }
        Brought::Here
    }

    // A segment that isn't locked leaves the memory.
    fn let_go(&mut self, key: u32)
        requires key { key < length self.old.entries }
        requires placed { IsSome (place_of self.old key) }
        requires unlocked { (entry self.old key).attr.lock ≡ 0 }
        ensures keeps { (told : Bool) (pic : Pictures) (block : ℕ → List ℕ) → IsSaved told pic self.old block key → KeepsAll told pic self.old block self.new block }
        ensures clean { (pic : Pictures) → AreClean self.old pic → AreClean self.new pic }
        ensures tables { SameTables self.old self.new }
        ensures places { Changes self.old.places self.new.places key None }
        ensures used { used self.new.places.ranges + len_of (place_of self.old key) ≡ used self.old.places.ranges }
        ensures frees { used self.new.places.ranges + rounded (entry self.old key).size ≡ used self.old.places.ranges }
        ensures fewer { length self.new.places.ranges + 1 ≡ length self.old.places.ranges }
        ensures left { HasLeft self.old.turns self.new.turns key }
        ensures shelf { self.new ≡ record self.old { places = self.new.places; turns = self.new.turns } }
    {
        let _ = self.places.take(key);
        self.clock.leave(key);
    }

    // Whether the bytes of a number's segment are those of its image.
    fn is_clean(&self, key: u32) -> bool
        ensures { result ≡ (entry self.now key).attr.clean }
    {
        match self.entries.get(key) {
            Some(entry) => entry.attr.clean,
            None => false,
        }
    }

    // Takes a segment in memory that isn't locked out of it.
    pub(crate) fn evict_one<S: SwapDevice>(&mut self, key: u32, swap: &mut S) -> Brought
        requires key { key < length self.old.entries }
        requires placed { IsSome (place_of self.old key) }
        requires unlocked { (entry self.old key).attr.lock ≡ 0 }
        requires device { all_of self.old.swap ≤ S.blocks swap.old }
        ensures keeps { (pic : Pictures) → AreClean self.old pic → KeepsAll (S.told swap.new) pic self.old (S.block swap.old) self.new (S.block swap.new) }
        ensures clean { (pic : Pictures) → AreClean self.old pic → AreClean self.new pic }
        ensures tables { SameTables self.old self.new }
        ensures device { KeepsDevice S.blocks S.told S.faults swap.old swap.new
            (result ≡ Brought.SwapFault) }
        ensures map { all_of self.new.swap ≡ all_of self.old.swap }
        ensures out { result ≡ Brought.Here → Changes self.old.places self.new.places key None }
        ensures used { result ≡ Brought.Here → used self.new.places.ranges + len_of (place_of self.old key) ≡ used self.old.places.ranges }
        ensures left { result ≡ Brought.Here → HasLeft self.old.turns self.new.turns key }
        ensures fewer { result ≡ Brought.Here → length self.new.places.ranges + 1 ≡ length self.old.places.ranges }
        ensures keys { (self.new.keys ≡ self.old.keys) × (self.new.places.size ≡ self.old.places.size) }
        ensures stays { (result ≡ Brought.Here → ⊥) → self.new.places ≡ self.old.places }
        ensures evicts { Evicts self.old self.new }
        ensures leave { (len : ℕ) → self.old.places.size < used self.old.places.ranges + len
            → LeaveFor self.old self.new len }
        ensures unasked { S.asked swap.new ≡ S.asked swap.old }
        ensures piles { (k : ℕ) → k < length self.old.entries → k ≢ key → blocks_of self.new.swap k ≡ blocks_of self.old.swap k }
        ensures dropped { (entry self.old key).attr.clean ≡ true → (result ≡ Brought.Here) × (swap.new ≡ swap.old)
            × (self.new ≡ record self.old { places = self.new.places; turns = self.new.turns }) }
        ensures full { result ≡ Brought.SwapFull → IsFull self.new }
        ensures lacks { result ≡ Brought.SwapFull → (self.new ≡ self.old) × (swap.new ≡ swap.old)
            × (length (free self.old.swap) < blocks_for (entry self.old key).size - length (blocks_of self.old.swap key)) }
        ensures never { (result ≡ Brought.NoRoom → ⊥) × (result ≡ Brought.Stale → ⊥) }
    {
        self.law();
        let Some((at, _)) = self.range_of(key) else {
            return Brought::Here;
        };
        if self.is_clean(key) {
            self.let_go(key);
            return Brought::Here;
        }
        match self.save(key, at, swap) {
            Brought::Here => {
                self.let_go(key);
                Brought::Here
            }
            answer => answer,
        }
    }

    /// Takes a segment that isn't locked out of memory. A clean one is dropped, any other one is written to swap blocks, up to
    /// its last byte that isn't zero. Where that fails, it stays in memory.
    pub fn evict<S: SwapDevice>(&mut self, id: SegId, swap: &mut S) -> Brought
        requires unlocked { IfSome (entry_of self.old id) (λ e. e.attr.lock ≡ 0) }
        requires device { all_of self.old.swap ≤ S.blocks swap.old }

        ensures keeps { (pic : Pictures) → AreClean self.old pic → KeepsAll (S.told swap.new) pic self.old (S.block swap.old) self.new (S.block swap.new) }
        ensures clean { (pic : Pictures) → AreClean self.old pic → AreClean self.new pic }
        ensures tables { SameTables self.old self.new }
        ensures device { KeepsDevice S.blocks S.told S.faults swap.old swap.new
            (result ≡ Brought.SwapFault) }
        ensures map { all_of self.new.swap ≡ all_of self.old.swap }
        ensures others { (k : ℕ) → k ≢ id.key → place_of self.new k ≡ place_of self.old k }

        ensures evicts { Evicts self.old self.new }
        // Where so many bytes have no room, it leaves for them.
        ensures leave { (len : ℕ) → self.old.places.size < used self.old.places.ranges + len
            → LeaveFor self.old self.new len }
        // No block is read, and those of other segments stay theirs.
        ensures unasked { S.asked swap.new ≡ S.asked swap.old }
        ensures piles { (k : ℕ) → k < length self.old.entries → k ≢ id.key → blocks_of self.new.swap k ≡ blocks_of self.old.swap k }
        ensures stays { (result ≡ Brought.Here → ⊥) → self.new.places ≡ self.old.places }
        ensures dropped { IsSome (entry_of self.old id) → (entry self.old id.key).attr.clean ≡ true
            → (result ≡ Brought.Here) × (swap.new ≡ swap.old)
            × (self.new ≡ record self.old { places = self.new.places; turns = self.new.turns }) }
        ensures already { place_of self.old id.key ≡ None → (self.new ≡ self.old) × (swap.new ≡ swap.old) }

        ensures out { result ≡ Brought.Here → place_of self.new id.key ≡ None }
        ensures used { result ≡ Brought.Here → IsSome (place_of self.old id.key)
            → used self.new.places.ranges + len_of (place_of self.old id.key) ≡ used self.old.places.ranges }
        ensures left { result ≡ Brought.Here → IsSome (place_of self.old id.key) → HasLeft self.old.turns self.new.turns id.key }
        ensures fewer { result ≡ Brought.Here → IsSome (place_of self.old id.key)
            → length self.new.places.ranges < length self.old.places.ranges }
        ensures stale { result ≡ Brought.Stale → entry_of self.old id ≡ None }
        ensures always { entry_of self.old id ≡ None → (result ≡ Brought.Stale) × (self.new ≡ self.old) }
        ensures full { result ≡ Brought.SwapFull → IsFull self.new }
        ensures lacks { result ≡ Brought.SwapFull → (self.new ≡ self.old) × (swap.new ≡ swap.old)
            × (length (free self.old.swap) < blocks_for (entry self.old id.key).size - length (blocks_of self.old.swap id.key)) }
        ensures loads { result ≡ Brought.SwapFull → all_of self.old.swap < swap_load self.old }
        ensures never { result ≡ Brought.NoRoom → ⊥ }
    {
        if self.find(id).is_none() {
            return Brought::Stale;
        }
        if self.range_of(id.key).is_none() {
            return Brought::Here;
        }
        self.law();
        self.evict_one(id.key, swap)
    }
}

// Sees that an owner has just so many blocks: it keeps its first ones, and gets more where it lacks some.
fn fit_blocks(swap: &mut SwapMap, key: u32, need: u32) -> bool
    requires { key < swap.old.most }
    ensures only { OnlyOf key swap.old swap.new }
    ensures enough { result ≡ true → length (blocks_of swap.new key) ≡ need }
    ensures full { result ≡ false → (length (free swap.old) < need - length (blocks_of swap.old key)) × (swap.new ≡ swap.old) }
{
    let have = swap.count(key as usize);
    if have >= need {
        swap.give(key, need);
        return true;
    }
    swap.take(key, need - have).is_some()
}
