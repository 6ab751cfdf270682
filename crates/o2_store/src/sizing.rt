// Segments get another size.
ghost use Rattle.std.specs.Prelude.{◌≡◌, ◌≢◌, ℕ, List, Bool, ◌+◌, ◌-◌, ◌<◌, ◌≤◌, None, IsSome, is_some, true, false, min, nat_lt};
ghost use Rattle.o2_entries.specs.declared.Entry.{Entry};
ghost use Rattle.o2_entries.specs.Tables.{slot_at};
ghost use Rattle.o2_place.specs.Layout.{used};
ghost use Rattle.o2_swapmap.specs.Piles.{all_of};
ghost use Rattle.o2_store.specs.Frames.{IsBacked, KeepsDevice};
ghost use Rattle.o2_store.specs.Shelf.{Pictures, KeepsAll, AreClean, place_of, entry, entry_of, rounded, IsFull};
ghost use Rattle.o2_store.specs.Leaving.{IsWrittenOut};
ghost use Rattle.o2_store.specs.Loads.{swap_load, live_load_at};
ghost use Rattle.o2_store.specs.Needs.{has, all_need, named_in};
ghost use Rattle.o2_store.specs.Pictures.{picture};
ghost use Rattle.o2_store.specs.Sizes.{StaysPut, Resizes, KeepsStarts, stays, all_wanted_at};
ghost use Rattle.o2_store.specs.Idle.{Idles, NoneTaken};

use crate::brought::Brought;
use crate::fitting::refit;
use crate::keys::names;
use crate::store::{Store, locked_part};
use o2_entries::Entry;
use o2_image::Images;
use o2_outer::SwapDevice;
use o2_place::SegId;

impl Store {
    // Gives a segment another size: in memory where it is there, for which there is room, and else out of it.
    fn set_size(&mut self, key: u32, size: u32)
        requires live { IsSome (slot_at self.old.entries key) }
        requires sizes { (0 < size) × (size ≤ 65536) }
        requires room { IsSome (place_of self.old key) → used self.old.places.ranges + rounded size ≤ self.old.places.size + rounded (entry self.old key).size }
        ensures resizes { (told : Bool) (pic : Pictures) (block : ℕ → List ℕ) → Resizes told pic self.old block self.new block key size }
        ensures clean { (pic : Pictures) → AreClean self.old pic → AreClean self.new pic }
        ensures map { all_of self.new.swap ≡ all_of self.old.swap }
        ensures unused { NoneTaken self.old.swap → NoneTaken self.new.swap }
        ensures presence { (k : ℕ) → is_some (place_of self.new k) ≡ is_some (place_of self.old k) }
        ensures others { (k : ℕ) → k ≢ key → slot_at self.new.entries k ≡ slot_at self.old.entries k }
        ensures in_place { rounded size ≤ rounded (entry self.old key).size → KeepsStarts self.old.places self.new.places }
        ensures grows { StaysPut self.old self.new key size }
        ensures rests { place_of self.old key ≡ None → self.new.places ≡ self.old.places }
        ensures kept { (entry self.new key).kept ≤ (entry self.old key).kept }
    {
        self.law();
        let Some(old) = self.entries.get(key) else {
            return;
        };
        refit(&mut self.phys, &mut self.places, key, old.size, size);
        let entry = sized(old, size);
        self.swap.give(key, (entry.kept + 511) / 512);
        self.locked = self.locked - locked_part(old) + locked_part(entry);
        self.entries.set(key, entry);
    }

    // Gives a segment in memory another size that may leave it, where it can't grow there.
    fn resize_free<S: SwapDevice>(&mut self, key: u32, size: u32, swap: &mut S) -> Brought
        requires live { IsSome (slot_at self.old.entries key) }
        requires placed { IsSome (place_of self.old key) }
        requires unlocked { (entry self.old key).attr.lock ≡ 0 }
        requires sizes { (0 < size) × (size ≤ 65536) }
        requires device { all_of self.old.swap ≤ S.blocks swap.old }
        ensures resized { (pic : Pictures) → AreClean self.old pic → result ≡ Brought.Here → Resizes (S.told swap.new) pic self.old (S.block swap.old) self.new (S.block swap.new) key size }
        ensures keeps { (pic : Pictures) → AreClean self.old pic → (result ≡ Brought.Here → ⊥) → KeepsAll (S.told swap.new) pic self.old (S.block swap.old) self.new (S.block swap.new) }
        ensures clean { (pic : Pictures) → AreClean self.old pic → AreClean self.new pic }
        ensures device { KeepsDevice S.blocks S.told S.faults swap.old swap.new
            (result ≡ Brought.SwapFault) }
        ensures map { all_of self.new.swap ≡ all_of self.old.swap }
        ensures others { (k : ℕ) → k ≢ key → is_some (place_of self.new k) ≡ is_some (place_of self.old k) }
        ensures still { used self.old.places.ranges + rounded size ≤ self.old.places.size + rounded (entry self.old key).size → IsSome (place_of self.new key) }
        ensures held { (result ≡ Brought.Here → ⊥) → IsSome (place_of self.new key) }
        ensures in_place { rounded size ≤ rounded (entry self.old key).size → KeepsStarts self.old.places self.new.places }
        ensures grows { result ≡ Brought.Here → StaysPut self.old self.new key size }
        ensures written { (k : ℕ) → k ≢ key → IsSome (place_of self.old k) → place_of self.new k ≡ None
            → (entry self.old k).attr.clean ≡ false → IsWrittenOut self.old self.new k }
        ensures full { result ≡ Brought.SwapFull → IsFull self.new × (self.new.places.size + rounded (entry self.old key).size < used self.new.places.ranges + rounded size) }
        ensures loads { result ≡ Brought.SwapFull → (all_of self.old.swap < swap_load self.old)
            × (self.old.places.size < live_load_at self.old key size) }
        ensures never { (result ≡ Brought.NoRoom → ⊥) × (result ≡ Brought.Stale → ⊥) }
        ensures idle { Idles (live_load_at self.old key size) self.old self.new swap.old swap.new }
    {
        self.law();
        let growth = ((size + 15) / 16 * 16).saturating_sub(self.rounded_size(key));
        if !self.is_short(growth) {
            self.set_size(key, size);
            return Brought::Here;
        }
        match self.evict_one(key, swap) {
            Brought::Here => {
                self.set_size(key, size);
                Brought::Here
            }
            other => other,
        }
    }

    // Gives a segment in memory another size that stays there with those of a list and the locked ones, where all that fits.
    fn resize_kept<S: SwapDevice>(
        &mut self,
        key: u32,
        size: u32,
        keep: &[SegId],
        swap: &mut S,
    ) -> Brought
        requires live { IsSome (slot_at self.old.entries key) }
        requires placed { IsSome (place_of self.old key) }
        requires sizes { (0 < size) × (size ≤ 65536) }
        requires device { all_of self.old.swap ≤ S.blocks swap.old }
        ensures resized { (pic : Pictures) → AreClean self.old pic → result ≡ Brought.Here → Resizes (S.told swap.new) pic self.old (S.block swap.old) self.new (S.block swap.new) key size }
        ensures keeps { (pic : Pictures) → AreClean self.old pic → (result ≡ Brought.Here → ⊥) → KeepsAll (S.told swap.new) pic self.old (S.block swap.old) self.new (S.block swap.new) }
        ensures clean { (pic : Pictures) → AreClean self.old pic → AreClean self.new pic }
        ensures device { KeepsDevice S.blocks S.told S.faults swap.old swap.new
            (result ≡ Brought.SwapFault) }
        ensures map { all_of self.new.swap ≡ all_of self.old.swap }
        ensures out { (k : ℕ) → place_of self.old k ≡ None → place_of self.new k ≡ None }
        ensures here { IsSome (place_of self.new key) }
        ensures kept { (k : ℕ) → named_in self.old.entries keep.now k ≡ true → IsSome (place_of self.old k) → IsSome (place_of self.new k) }
        ensures locked { (k : ℕ) → 0 < (entry self.old k).attr.lock → IsSome (place_of self.new k) }
        ensures still { used self.old.places.ranges + rounded size ≤ self.old.places.size + rounded (entry self.old key).size → (k : ℕ) → IsSome (place_of self.old k) → IsSome (place_of self.new k) }
        ensures no_room { result ≡ Brought.NoRoom → self.old.places.size < all_wanted_at self.old key keep.now size }
        ensures always_no_room { self.old.places.size < all_wanted_at self.old key keep.now size → result ≡ Brought.NoRoom }
        ensures full { result ≡ Brought.SwapFull → IsFull self.new × (self.new.places.size + rounded (entry self.old key).size < used self.new.places.ranges + rounded size) }
        ensures loads { result ≡ Brought.SwapFull → (all_of self.old.swap < swap_load self.old)
            × (self.old.places.size < live_load_at self.old key size) }
        ensures refused { result ≡ Brought.NoRoom
            → (self.new ≡ record self.old { keys = self.new.keys }) × (swap.new ≡ swap.old) }
        ensures written { (k : ℕ) → k ≢ key → IsSome (place_of self.old k) → place_of self.new k ≡ None
            → (entry self.old k).attr.clean ≡ false → IsWrittenOut self.old self.new k }
        ensures in_place { rounded size ≤ rounded (entry self.old key).size → KeepsStarts self.old.places self.new.places }
        ensures grows { result ≡ Brought.Here → StaysPut self.old self.new key size }
        ensures never { result ≡ Brought.Stale → ⊥ }
        ensures idle { Idles (live_load_at self.old key size) self.old self.new swap.old swap.new }
    {
        self.law();
        let need = self.list_keys(key, keep) + u64::from((size + 15) / 16 * 16);
        self.law();
        if self.memory_size() + u64::from(self.rounded_size(key)) < need {
            return Brought::NoRoom;
        }
        self.resize_among(key, size, swap)
    }

    /// Gives a segment another size of 1 to 65,536 bytes: its bytes below both sizes stay, and grown ones are zero. One out
    /// of memory stays out and needs no room. One in memory that is locked or in `keep` stays there, and others may leave
    /// the memory for it; any other one leaves the memory where it can't grow there. Gaps are closed before anything is
    /// evicted. Where the answer isn't `Here`, all segments stay as they are.
    pub fn resize<S: SwapDevice>(
        &mut self,
        id: SegId,
        size: u32,
        keep: &[SegId],
        images: &Images,
        swap: &mut S,
    ) -> Brought
        requires sizes { (0 < size) × (size ≤ 65536) }
        requires backed { IsBacked self.old images.now (S.blocks swap.old) }

        ensures resized { result ≡ Brought.Here → Resizes (S.told swap.new) (picture images.now) self.old (S.block swap.old) self.new (S.block swap.new) id.key size }
        ensures keeps { (result ≡ Brought.Here → ⊥) → KeepsAll (S.told swap.new) (picture images.now) self.old (S.block swap.old) self.new (S.block swap.new) }
        ensures clean { AreClean self.new (picture images.now) }
        ensures device { KeepsDevice S.blocks S.told S.faults swap.old swap.new
            (result ≡ Brought.SwapFault) }
        ensures map { all_of self.new.swap ≡ all_of self.old.swap }
        ensures out { (k : ℕ) → place_of self.old k ≡ None → place_of self.new k ≡ None }
        ensures kept { (k : ℕ) → named_in self.old.entries keep.now k ≡ true → IsSome (place_of self.old k) → IsSome (place_of self.new k) }
        ensures locked { (k : ℕ) → 0 < (entry self.old k).attr.lock → IsSome (place_of self.new k) }
        ensures still { used self.old.places.ranges + rounded size ≤ self.old.places.size + rounded (entry self.old id.key).size → (k : ℕ) → IsSome (place_of self.old k) → IsSome (place_of self.new k) }

        ensures alone { stays self.old id.key keep.now ≡ false
            → (k : ℕ) → k ≢ id.key → is_some (place_of self.new k) ≡ is_some (place_of self.old k) }
        ensures held { (result ≡ Brought.Here → ⊥) → IsSome (place_of self.old id.key) → IsSome (place_of self.new id.key) }
        ensures written { (k : ℕ) → k ≢ id.key → IsSome (place_of self.old k) → place_of self.new k ≡ None
            → (entry self.old k).attr.clean ≡ false → IsWrittenOut self.old self.new k }

        // It stays where it lies if it gets smaller, and also where there is room behind it.
        ensures in_place { rounded size ≤ rounded (entry self.old id.key).size → KeepsStarts self.old.places self.new.places }
        ensures grows { result ≡ Brought.Here → StaysPut self.old self.new id.key size }

        ensures outside { IsSome (entry_of self.old id) → place_of self.old id.key ≡ None → result ≡ Brought.Here }
        ensures rests { place_of self.old id.key ≡ None
            → (swap.new ≡ swap.old) × ((k : ℕ) → is_some (place_of self.new k) ≡ is_some (place_of self.old k)) }
        ensures unused { place_of self.old id.key ≡ None → NoneTaken self.old.swap → NoneTaken self.new.swap }
        ensures refused { result ≡ Brought.NoRoom
            → (self.new ≡ record self.old { keys = self.new.keys }) × (swap.new ≡ swap.old) }
        ensures stale { result ≡ Brought.Stale → entry_of self.old id ≡ None }
        ensures always_stale { entry_of self.old id ≡ None → (result ≡ Brought.Stale) × (self.new ≡ self.old) }
        ensures no_room { result ≡ Brought.NoRoom → IsSome (place_of self.old id.key) × (stays self.old id.key keep.now ≡ true) × (self.old.places.size < all_wanted_at self.old id.key keep.now size) }
        ensures always_no_room { IsSome (entry_of self.old id) → IsSome (place_of self.old id.key) → stays self.old id.key keep.now ≡ true → self.old.places.size < all_wanted_at self.old id.key keep.now size → result ≡ Brought.NoRoom }
        ensures full { result ≡ Brought.SwapFull → IsFull self.new × (self.new.places.size + rounded (entry self.old id.key).size < used self.new.places.ranges + rounded size) }
        ensures loads { result ≡ Brought.SwapFull → (all_of self.old.swap < swap_load self.old)
            × (self.old.places.size < live_load_at self.old id.key size) }
        // Where nothing is in swap blocks and all that lives, with the new size, fits the memory, the device isn't touched.
        ensures idle { Idles (live_load_at self.old id.key size) self.old self.new swap.old swap.new }
    {
        self.law();
        if self.find(id).is_none() {
            return Brought::Stale;
        }
        if self.range_of(id.key).is_none() {
            self.set_size(id.key, size);
            return Brought::Here;
        }
        if self.stays_in(id.key, keep) {
            return self.resize_kept(id.key, size, keep, swap);
        }
        self.resize_free(id.key, size, swap)
    }

    /// Gives a live segment that is out of memory another size of 1 to 65,536 bytes. Its bytes below both sizes stay, grown ones are
    /// zero, and it stays out of memory. No other segment changes or moves, and no device is asked.
    pub fn resize_out(&mut self, id: SegId, size: u32)
        requires live { IsSome (entry_of self.old id) }
        requires out { place_of self.old id.key ≡ None }
        requires sizes { (0 < size) × (size ≤ 65536) }
        ensures resizes { (told : Bool) (pic : Pictures) (block : ℕ → List ℕ) → Resizes told pic self.old block self.new block id.key size }
        ensures clean { (pic : Pictures) → AreClean self.old pic → AreClean self.new pic }
        ensures map { all_of self.new.swap ≡ all_of self.old.swap }
        ensures unused { NoneTaken self.old.swap → NoneTaken self.new.swap }
        ensures places { self.new.places ≡ self.old.places }
        ensures kept { (entry self.new id.key).kept ≤ (entry self.old id.key).kept }
    {
        self.set_size(id.key, size);
    }

    // Whether a segment may not leave the memory.
    fn stays_in(&self, key: u32, keep: &[SegId]) -> bool
        ensures { result ≡ stays self.now key keep.now }
    {
        self.is_locked(key) || names(keep, &self.entries, key)
    }

    // Whether a number's segment is locked.
    fn is_locked(&self, key: u32) -> bool
        ensures { result ≡ nat_lt 0 (entry self.now key).attr.lock }
    {
        match self.entries.get(key) {
            Some(entry) => entry.attr.lock > 0,
            None => false,
        }
    }

    // Gives a segment in memory another size that is among the numbers, which fit the memory with it at that size.
    fn resize_among<S: SwapDevice>(&mut self, key: u32, size: u32, swap: &mut S) -> Brought
        requires live { IsSome (slot_at self.old.entries key) }
        requires placed { IsSome (place_of self.old key) }
        requires among { has self.old.keys key ≡ true }
        requires fits { all_need self.old.entries self.old.keys + rounded size ≤ self.old.places.size + rounded (entry self.old key).size }
        requires sizes { (0 < size) × (size ≤ 65536) }
        requires device { all_of self.old.swap ≤ S.blocks swap.old }
        ensures resized { (pic : Pictures) → AreClean self.old pic → result ≡ Brought.Here → Resizes (S.told swap.new) pic self.old (S.block swap.old) self.new (S.block swap.new) key size }
        ensures keeps { (pic : Pictures) → AreClean self.old pic → (result ≡ Brought.Here → ⊥) → KeepsAll (S.told swap.new) pic self.old (S.block swap.old) self.new (S.block swap.new) }
        ensures clean { (pic : Pictures) → AreClean self.old pic → AreClean self.new pic }
        ensures device { KeepsDevice S.blocks S.told S.faults swap.old swap.new
            (result ≡ Brought.SwapFault) }
        ensures map { all_of self.new.swap ≡ all_of self.old.swap }
        ensures out { (k : ℕ) → place_of self.old k ≡ None → is_some (place_of self.new k) ≡ false }
        ensures kept { (k : ℕ) → has self.old.keys k ≡ true → IsSome (place_of self.old k) → IsSome (place_of self.new k) }
        ensures locked { (k : ℕ) → 0 < (entry self.old k).attr.lock → IsSome (place_of self.old k) → IsSome (place_of self.new k) }
        ensures still { used self.old.places.ranges + rounded size ≤ self.old.places.size + rounded (entry self.old key).size → (k : ℕ) → IsSome (place_of self.old k) → IsSome (place_of self.new k) }
        ensures full { result ≡ Brought.SwapFull → IsFull self.new × (self.new.places.size + rounded (entry self.old key).size < used self.new.places.ranges + rounded size) }
        ensures loads { result ≡ Brought.SwapFull → (all_of self.old.swap < swap_load self.old)
            × (self.old.places.size < live_load_at self.old key size) }
        ensures written { (k : ℕ) → k ≢ key → IsSome (place_of self.old k) → place_of self.new k ≡ None
            → (entry self.old k).attr.clean ≡ false → IsWrittenOut self.old self.new k }
        ensures in_place { rounded size ≤ rounded (entry self.old key).size → KeepsStarts self.old.places self.new.places }
        ensures grows { result ≡ Brought.Here → StaysPut self.old self.new key size }
        ensures never { (result ≡ Brought.NoRoom → ⊥) × (result ≡ Brought.Stale → ⊥) }
        ensures idle { Idles (live_load_at self.old key size) self.old self.new swap.old swap.new }
    {
        self.law();
        let growth = ((size + 15) / 16 * 16).saturating_sub(self.rounded_size(key));
        let answer = self.evict_until(growth, swap);
        self.law();
        match answer {
            Brought::Here => {
                self.set_size(key, size);
                Brought::Here
            }
            other => other,
        }
    }
}

// A segment's entry at another size.
fn sized(old: Entry, size: u32) -> Entry
    ensures { result ≡ record old { size = size; kept = min old.kept size } }
{
    Entry {
        age: old.age,
        size,
        kept: old.kept.min(size),
        image: old.image,
        attr: old.attr,
    }
}
