// Room is made in memory, and segments are brought in.
ghost use Rattle.std.specs.Prelude.{◌≡◌, ◌≢◌, ℕ, ◌+◌, ◌<◌, ◌≤◌, ◌↔◌, ◌||◌, ◌==◌, ◌⊎◌, length, Some, None, IsSome, IsTrue, IfSome, true, false};
ghost use Rattle.std.specs.Option.{IfNone};
ghost use Rattle.o2_entries.specs.Tables.{slot_at};
ghost use Rattle.o2_place.specs.Layout.{IsFree, used};
ghost use Rattle.o2_place.specs.Marks.{AllUnused, IsKept, IsNext, IsOutside, IsVictim, NoneUnused, OnlyUnmarks, place_in};
ghost use Rattle.o2_swapmap.specs.Piles.{all_of, blocks_of};
ghost use Rattle.o2_store.specs.Asked.{AsksFor};
ghost use Rattle.o2_store.specs.Frames.{IsBacked, KeepsDevice};
ghost use Rattle.o2_store.specs.Shelf.{Pictures, KeepsAll, AreClean, SameTables, place_of, entry, entry_of, rounded, HasAll, IsFull};
ghost use Rattle.o2_store.specs.Leaving.{WritesOut, Evicts, LeaveFor, TakesVictim, lacking};
ghost use Rattle.o2_store.specs.Loads.{swap_load, live_load};
ghost use Rattle.o2_store.specs.Needs.{has, all_need, named_in, all_wanted};
ghost use Rattle.o2_store.specs.Pictures.{picture, HasPicture};
ghost use Rattle.o2_store.specs.Idle.{Idles, IsIdle, NoneTaken};

use crate::brought::Brought;
use crate::keys::collect;
use crate::store::Store;
use o2_image::Images;
use o2_outer::SwapDevice;
use o2_place::SegId;

impl Store {
    // Whether so many bytes are more than those in no range.
    pub(crate) fn is_short(&self, len: u32) -> bool
        ensures { IsTrue result ↔ (self.now.places.size < used self.now.places.ranges + len) }
    {
        self.places.free_bytes() < len
    }

    // A segment in memory that isn't locked and not among the numbers.
    pub(crate) fn next_victim(&mut self) -> Option<u32>
        ensures shelf { self.new ≡ record self.old { turns = self.new.turns } }
        ensures some { IfSome result (λ v. (v < length self.old.entries) × IsSome (place_of self.old v) × ((entry self.old v).attr.lock ≡ 0) × IsOutside self.old.keys v) }
        ensures none { IfNone result ((k : ℕ) → IsSome (place_of self.old k) → (entry self.old k).attr.lock ≡ 0 → IsKept self.old.keys k) }
        ensures victim { IfSome result (λ v. IsVictim self.old.turns.marks self.old.keys v) }
        ensures hand { IfSome result (λ v. self.new.turns.hand ≡ place_in self.old.turns v + 1) }
        ensures next { IfSome result (λ v. IsNext self.old.turns self.new.turns.marks self.old.keys v) }
        ensures round { NoneUnused self.old.turns.marks self.old.keys → AllUnused self.old.turns.marks self.new.turns.marks self.old.keys }
        ensures unmarks { OnlyUnmarks self.old.turns.marks self.new.turns.marks }
        ensures places { self.new.turns.places ≡ self.old.turns.places }
    {
        self.clock.victim(&self.keys)
    }

    // Takes the next segment out of memory that isn't locked and not among the numbers.
    fn evict_next<S: SwapDevice>(&mut self, swap: &mut S) -> Brought
        requires device { all_of self.old.swap ≤ S.blocks swap.old }
        ensures keeps { (pic : Pictures) → AreClean self.old pic → KeepsAll (S.told swap.new) pic self.old (S.block swap.old) self.new (S.block swap.new) }
        ensures clean { (pic : Pictures) → AreClean self.old pic → AreClean self.new pic }
        ensures tables { SameTables self.old self.new }
        ensures device { KeepsDevice S.blocks S.told S.faults swap.old swap.new
            (result ≡ Brought.SwapFault) }
        ensures map { all_of self.new.swap ≡ all_of self.old.swap }
        ensures keys { self.new.keys ≡ self.old.keys }
        ensures kept { (k : ℕ) → IsKept self.old.keys k → place_of self.new k ≡ place_of self.old k }
        ensures locked { (k : ℕ) → 0 < (entry self.old k).attr.lock → place_of self.new k ≡ place_of self.old k }
        ensures none { (k : ℕ) → place_of self.old k ≡ None → place_of self.new k ≡ None }
        ensures evicts { Evicts self.old self.new }
        ensures victim { result ≡ Brought.Here → TakesVictim self.old self.new }
        ensures leave { (len : ℕ) → self.old.places.size < used self.old.places.ranges + len
            → LeaveFor self.old self.new len }
        ensures unasked { S.asked swap.new ≡ S.asked swap.old }
        ensures piles { (k : ℕ) → k < length self.old.entries → place_of self.old k ≡ None → blocks_of self.new.swap k ≡ blocks_of self.old.swap k }
        ensures fewer { result ≡ Brought.Here → length self.new.places.ranges < length self.old.places.ranges }
        ensures stays { (result ≡ Brought.Here → ⊥) → self.new.places ≡ self.old.places }
        ensures no_room { result ≡ Brought.NoRoom → (k : ℕ) → IsSome (place_of self.new k) → (entry self.new k).attr.lock ≡ 0 → IsKept self.new.keys k }
        ensures full { result ≡ Brought.SwapFull → IsFull self.new }
        ensures never { result ≡ Brought.Stale → ⊥ }
    {
        match self.next_victim() {
            Some(victim) => self.evict_one(victim, swap),
            None => Brought::NoRoom,
        }
    }

    // Takes segments out of memory until so many bytes are in no range.
    pub(crate) fn evict_until<S: SwapDevice>(&mut self, len: u32, swap: &mut S) -> Brought
        requires device { all_of self.old.swap ≤ S.blocks swap.old }
        ensures keeps { (pic : Pictures) → AreClean self.old pic → KeepsAll (S.told swap.new) pic self.old (S.block swap.old) self.new (S.block swap.new) }
        ensures clean { (pic : Pictures) → AreClean self.old pic → AreClean self.new pic }
        ensures tables { SameTables self.old self.new }
        ensures device { KeepsDevice S.blocks S.told S.faults swap.old swap.new
            (result ≡ Brought.SwapFault) }
        ensures map { all_of self.new.swap ≡ all_of self.old.swap }
        ensures keys { self.new.keys ≡ self.old.keys }
        ensures kept { (k : ℕ) → IsKept self.old.keys k → place_of self.new k ≡ place_of self.old k }
        ensures locked { (k : ℕ) → 0 < (entry self.old k).attr.lock → place_of self.new k ≡ place_of self.old k }
        ensures none { (k : ℕ) → place_of self.old k ≡ None → place_of self.new k ≡ None }
        ensures evicts { Evicts self.old self.new }
        ensures leave { LeaveFor self.old self.new len }
        ensures unasked { S.asked swap.new ≡ S.asked swap.old }
        ensures piles { (k : ℕ) → k < length self.old.entries → place_of self.old k ≡ None → blocks_of self.new.swap k ≡ blocks_of self.old.swap k }
        ensures enough { used self.old.places.ranges + len ≤ self.old.places.size → self.new ≡ self.old }
        ensures idle { used self.old.places.ranges + len ≤ self.old.places.size → swap.new ≡ swap.old }
        ensures room { result ≡ Brought.Here → used self.new.places.ranges + len ≤ self.new.places.size }
        ensures short { (result ≡ Brought.Here → ⊥) → self.new.places.size < used self.new.places.ranges + len }
        ensures no_room { result ≡ Brought.NoRoom → (k : ℕ) → IsSome (place_of self.new k) → (entry self.new k).attr.lock ≡ 0 → IsKept self.new.keys k }
        ensures full { result ≡ Brought.SwapFull → IsFull self.new }
        ensures never { result ≡ Brought.Stale → ⊥ }
    {
        while self.is_short(len) {
            let answer = self.evict_next(swap);
            if !matches!(answer, Brought::Here) {
                return answer;
            }
        }
        Brought::Here
    }

    // Lists the numbers of a segment and of the live ones of a list, and answers what they and the locked ones take of the
    // memory together.
    pub(crate) fn list_keys(&mut self, key: u32, keep: &[SegId]) -> u64
        requires live { IsSome (slot_at self.old.entries key) }
        ensures shelf { self.new ≡ record self.old { keys = self.new.keys } }
        ensures need { result ≡ all_need self.old.entries self.new.keys }
        ensures any { (k : ℕ) → has self.new.keys k ≡ (k == key || named_in self.old.entries keep.now k) }
    {
        self.law();
        collect(&mut self.keys, &self.entries, self.locked, key, keep)
    }

    // Brings a segment in that is among the numbers, which fit the memory together with the locked ones.
    fn bring_key<S: SwapDevice>(&mut self, key: u32, images: &Images, swap: &mut S) -> Brought
        requires live { IsSome (slot_at self.old.entries key) }
        requires among { has self.old.keys key ≡ true }
        requires whole { (entry self.old key).attr.gone ≡ false }
        requires fits { all_need self.old.entries self.old.keys ≤ self.old.places.size }
        requires pictures { HasAll (HasPicture images.now) self.old }
        requires device { all_of self.old.swap ≤ S.blocks swap.old }
        ensures keeps { AreClean self.old (picture images.now) → KeepsAll (S.told swap.new) (picture images.now) self.old (S.block swap.old) self.new (S.block swap.new) }
        ensures clean { AreClean self.old (picture images.now) → AreClean self.new (picture images.now) }
        ensures tables { SameTables self.old self.new }
        ensures device { KeepsDevice S.blocks S.told S.faults swap.old swap.new
            (result ≡ Brought.SwapFault) }
        ensures map { all_of self.new.swap ≡ all_of self.old.swap }
        ensures here { result ≡ Brought.Here → IsSome (place_of self.new key) }
        ensures same { IsSome (place_of self.old key) → (result ≡ Brought.Here) × (self.new ≡ self.old) × (swap.new ≡ swap.old) }
        ensures out { (result ≡ Brought.Here → ⊥) → place_of self.new key ≡ None }
        ensures none { (k : ℕ) → k ≢ key → place_of self.old k ≡ None → place_of self.new k ≡ None }
        ensures written { WritesOut self.old self.new }
        ensures leave { LeaveFor self.old self.new (lacking self.new key) }
        ensures asks { place_of self.old key ≡ None
            → AsksFor (S.known swap.new) (blocks_of self.old.swap key) (S.asked swap.old) (S.asked swap.new) (result ≡ Brought.Here) }
        ensures kept { (k : ℕ) → has self.old.keys k ≡ true → IsSome (place_of self.old k) → IsSome (place_of self.new k) }
        ensures still { used self.old.places.ranges + rounded (entry self.old key).size ≤ self.old.places.size → (k : ℕ) → IsSome (place_of self.old k) → IsSome (place_of self.new k) }
        ensures full { result ≡ Brought.SwapFull → IsFull self.new × (self.new.places.size < used self.new.places.ranges + rounded (entry self.old key).size) }
        ensures never { (result ≡ Brought.NoRoom → ⊥) × (result ≡ Brought.Stale → ⊥) }
        ensures idle { Idles (live_load self.old) self.old self.new swap.old swap.new }
    {
        self.law();
        if self.range_of(key).is_some() {
            return Brought::Here;
        }
        let len = self.rounded_size(key);
        let answer = self.evict_until(len, swap);
        self.law();
        match answer {
            Brought::Here => self.come_in(key, len, images, swap),
            other => other,
        }
    }

    // Brings a segment in where enough bytes are in no range, or the swap device fails.
    pub(crate) fn come_in<S: SwapDevice>(
        &mut self,
        key: u32,
        len: u32,
        images: &Images,
        swap: &mut S,
    ) -> Brought
        requires key { key < length self.old.entries }
        requires live { IsSome (slot_at self.old.entries key) }
        requires len { len ≡ rounded (entry self.old key).size }
        requires out { place_of self.old key ≡ None }
        requires whole { (entry self.old key).attr.gone ≡ false }
        requires room { used self.old.places.ranges + len ≤ self.old.places.size }
        requires pictures { HasAll (HasPicture images.now) self.old }
        requires device { all_of self.old.swap ≤ S.blocks swap.old }
        ensures keeps { KeepsAll (S.told swap.new) (picture images.now) self.old (S.block swap.old) self.new (S.block swap.new) }
        ensures clean { AreClean self.old (picture images.now) → AreClean self.new (picture images.now) }
        ensures tables { SameTables self.old self.new }
        ensures device { KeepsDevice S.blocks S.told S.faults swap.old swap.new
            (result ≡ Brought.SwapFault) }
        ensures map { all_of self.new.swap ≡ all_of self.old.swap }
        ensures blocks { self.new.swap ≡ self.old.swap }
        ensures here { result ≡ Brought.Here → IsSome (place_of self.new key) }
        ensures out { (result ≡ Brought.Here → ⊥) → place_of self.new key ≡ None }
        ensures none { (k : ℕ) → k ≢ key → place_of self.old k ≡ None → place_of self.new k ≡ None }
        ensures entries { self.new.entries ≡ self.old.entries }
        ensures others { (k : ℕ) → IsSome (place_of self.old k) → IsSome (place_of self.new k) }
        ensures alone { (at : ℕ) → IsFree self.old.places.size self.old.places.ranges at len
            → (k : ℕ) → k ≢ key → place_of self.new k ≡ place_of self.old k }
        ensures takes { used self.new.places.ranges + lacking self.new key
            ≡ used self.old.places.ranges + rounded (entry self.old key).size }
        ensures asks { AsksFor (S.known swap.new) (blocks_of self.old.swap key) (S.asked swap.old) (S.asked swap.new) (result ≡ Brought.Here) }
        ensures never { (result ≡ Brought.NoRoom → ⊥) × (result ≡ Brought.Stale → ⊥) × (result ≡ Brought.SwapFull → ⊥) }
        ensures idle { NoneTaken self.old.swap → IsIdle self.new swap.old swap.new }
    {
        if self.place_in(key, len, images, swap) {
            return Brought::Here;
        }
        Brought::SwapFault
    }

    /// Brings a segment into memory together with those of `keep` and the locked ones. Gaps are closed before anything is
    /// evicted: where enough bytes are in no range, nothing leaves the memory, and else no more than must. Whatever the
    /// answer, each segment keeps its bytes, and one of `keep` or a locked one that is in memory stays there. No other segment
    /// comes in, and where this one is in memory already, nothing changes. It isn't discarded.
    pub fn bring<S: SwapDevice>(
        &mut self,
        id: SegId,
        keep: &[SegId],
        images: &Images,
        swap: &mut S,
    ) -> Brought
        requires whole { IsSome (entry_of self.old id) → (entry self.old id.key).attr.gone ≡ false }
        requires pictures { HasAll (HasPicture images.now) self.old }
        requires backed { IsBacked self.old images.now (S.blocks swap.old) }

        ensures keeps { KeepsAll (S.told swap.new) (picture images.now) self.old (S.block swap.old) self.new (S.block swap.new) }
        ensures clean { AreClean self.new (picture images.now) }
        ensures tables { SameTables self.old self.new }
        ensures device { KeepsDevice S.blocks S.told S.faults swap.old swap.new
            (result ≡ Brought.SwapFault) }
        ensures map { all_of self.new.swap ≡ all_of self.old.swap }
        ensures kept { (k : ℕ) → named_in self.old.entries keep.now k ≡ true → IsSome (place_of self.old k) → IsSome (place_of self.new k) }
        ensures locked { (k : ℕ) → 0 < (entry self.old k).attr.lock → IsSome (place_of self.new k) }
        ensures still { used self.old.places.ranges + rounded (entry self.old id.key).size ≤ self.old.places.size → (k : ℕ) → IsSome (place_of self.old k) → IsSome (place_of self.new k) }

        ensures same { IsSome (place_of self.old id.key)
            → (self.new ≡ record self.old { keys = self.new.keys }) × (swap.new ≡ swap.old) }
        ensures refused { (result ≡ Brought.NoRoom) ⊎ (result ≡ Brought.Stale)
            → (self.new ≡ record self.old { keys = self.new.keys }) × (swap.new ≡ swap.old) }
        ensures out { (result ≡ Brought.Here → ⊥) → place_of self.old id.key ≡ None → place_of self.new id.key ≡ None }
        ensures none { (k : ℕ) → k ≢ id.key → place_of self.old k ≡ None → place_of self.new k ≡ None }
        ensures written { WritesOut self.old self.new }
        // No segment leaves that could have stayed.
        ensures leave { LeaveFor self.old self.new (lacking self.new id.key) }
        // Each of its blocks that the device knows is read once, and no other.
        ensures asks { place_of self.old id.key ≡ None
            → AsksFor (S.known swap.new) (blocks_of self.old.swap id.key) (S.asked swap.old) (S.asked swap.new) (result ≡ Brought.Here) }

        ensures here { result ≡ Brought.Here → IsSome (place_of self.new id.key) }
        ensures stale { result ≡ Brought.Stale → entry_of self.old id ≡ None }
        ensures always_stale { entry_of self.old id ≡ None → result ≡ Brought.Stale }
        ensures no_room { result ≡ Brought.NoRoom → self.old.places.size < all_wanted self.old id.key keep.now }
        ensures always_no_room { IsSome (entry_of self.old id) → self.old.places.size < all_wanted self.old id.key keep.now → result ≡ Brought.NoRoom }
        ensures full { result ≡ Brought.SwapFull → IsFull self.new × (self.new.places.size < used self.new.places.ranges + rounded (entry self.old id.key).size) }
        ensures loads { result ≡ Brought.SwapFull
            → (all_of self.old.swap < swap_load self.old) × (self.old.places.size < live_load self.old) }
        // Where nothing is in swap blocks and all that lives fits the memory, the device isn't touched.
        ensures idle { Idles (live_load self.old) self.old self.new swap.old swap.new }
    {
        self.law();
        if self.find(id).is_none() {
            return Brought::Stale;
        }
        let need = self.list_keys(id.key, keep);
        if self.memory_size() < need {
            return Brought::NoRoom;
        }
        let answer = self.bring_key(id.key, images, swap);
        self.law();
        answer
    }

    // How many bytes the memory has.
    pub(crate) fn memory_size(&self) -> u64
        ensures { result ≡ self.now.places.size }
    {
        u64::from(self.places.size())
    }
}
