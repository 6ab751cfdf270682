// A segment is brought in step by step, for those who want to know which other ones leave or slide.
ghost use Rattle.std.specs.Prelude.{◌≡◌, ◌≢◌, ℕ, ◌+◌, ◌<◌, ◌≤◌, ◌↔◌, None, IsSome, IsTrue, IfSome, true, false};
ghost use Rattle.std.specs.Option.{IfNone};
ghost use Rattle.o2_place.specs.Layout.{IsFree, IsLowestFree, used};
ghost use Rattle.o2_store.specs.Asked.{AsksFor};
ghost use Rattle.o2_store.specs.Frames.{IsBacked, KeepsDevice};
ghost use Rattle.o2_store.specs.Gaps.{IsGap};
ghost use Rattle.o2_store.specs.Leaving.{lacking};
ghost use Rattle.o2_store.specs.Needs.{all_wanted};
ghost use Rattle.o2_store.specs.Pictures.{picture, HasPicture};
ghost use Rattle.o2_store.specs.Shelf.{AreClean, HasAll, KeepsAll, entry, entry_of, place_of, rounded};
ghost use Rattle.o2_store.specs.Victims.{IsNextOut};
ghost use Rattle.o2_swapmap.specs.Piles.{all_of, blocks_of};
ghost use Rattle.o2_store.specs.Idle.{NoneTaken, IsIdle};

use crate::brought::Brought;
use crate::store::Store;
use o2_image::Images;
use o2_outer::SwapDevice;
use o2_place::SegId;

impl Store {
    /// Whether a live segment has more bytes, rounded up, than are free in memory.
    pub fn lacks_room(&self, id: SegId) -> bool
        requires { IsSome (entry_of self.now id) }
        ensures { IsTrue result ↔ (self.now.places.size < used self.now.places.ranges + rounded (entry self.now id.key).size) }
    {
        self.is_short(self.rounded_size(id.key))
    }

    /// Whether the memory is large enough for a live segment together with those of `keep` and the locked ones.
    pub fn fits(&mut self, id: SegId, keep: &[SegId]) -> bool
        requires { IsSome (entry_of self.old id) }
        ensures shelf { self.new ≡ record self.old { keys = self.new.keys } }
        ensures fits { result ≡ true → all_wanted self.old id.key keep.now ≤ self.old.places.size }
        ensures none { result ≡ false → self.old.places.size < all_wanted self.old id.key keep.now }
    {
        let need = self.list_keys(id.key, keep);
        if self.memory_size() < need {
            return false;
        }
        true
    }

    /// The lowest place in memory at which a live segment would fit, and none exactly where no gap is long enough.
    pub fn gap_for(&self, id: SegId) -> Option<u32>
        requires { IsSome (entry_of self.now id) }
        ensures lowest { IsLowestFree self.now.places (rounded (entry self.now id.key).size) result }
        ensures none { IfNone result ((start : ℕ) → IsGap self.now start (rounded (entry self.now id.key).size) → ⊥) }
    {
        self.places.law();
        self.places.fit(self.rounded_size(id.key))
    }

    /// The segment that leaves the memory next, where room is made for a live one that is to be there together with those of
    /// `keep` and the locked ones: the clock's next one outside these. None only where these are more than the memory.
    pub fn next_out(&mut self, id: SegId, keep: &[SegId]) -> Option<SegId>
        requires live { IsSome (entry_of self.old id) }
        ensures shelf { self.new ≡ record self.old { turns = self.new.turns; keys = self.new.keys } }
        ensures some { IfSome result (λ out. IsNextOut self.old self.new.turns id.key keep.now out) }
        ensures none { IfNone result (place_of self.old id.key ≡ None
            → self.old.places.size < used self.old.places.ranges + rounded (entry self.old id.key).size
            → self.old.places.size < all_wanted self.old id.key keep.now) }
    {
        self.list_keys(id.key, keep);
        self.law();
        match self.next_victim() {
            Some(key) => Some(SegId {
                key,
                age: self.age_of(key),
            }),
            None => None,
        }
    }

    /// Brings a live segment that is out of memory, and isn't discarded, into a gap that is long enough for it. No other one comes,
    /// goes or slides.
    pub fn bring_to_gap<S: SwapDevice>(
        &mut self,
        id: SegId,
        images: &Images,
        swap: &mut S,
    ) -> Brought
        requires live { IsSome (entry_of self.old id) }
        requires out { place_of self.old id.key ≡ None }
        requires whole { (entry self.old id.key).attr.gone ≡ false }
        requires room { used self.old.places.ranges + rounded (entry self.old id.key).size ≤ self.old.places.size }
        requires gap { (at : ℕ) × IsFree self.old.places.size self.old.places.ranges at (rounded (entry self.old id.key).size) }
        requires pictures { HasAll (HasPicture images.now) self.old }
        requires backed { IsBacked self.old images.now (S.blocks swap.old) }

        ensures keeps { KeepsAll (S.told swap.new) (picture images.now) self.old (S.block swap.old) self.new (S.block swap.new) }
        ensures clean { AreClean self.new (picture images.now) }
        ensures device { KeepsDevice S.blocks S.told S.faults swap.old swap.new
            (result ≡ Brought.SwapFault) }
        ensures map { all_of self.new.swap ≡ all_of self.old.swap }
        // No segment gets or loses blocks.
        ensures blocks { self.new.swap ≡ self.old.swap }
        ensures alone { (k : ℕ) → k ≢ id.key → place_of self.new k ≡ place_of self.old k }
        ensures takes { used self.new.places.ranges + lacking self.new id.key
            ≡ used self.old.places.ranges + rounded (entry self.old id.key).size }
        // Each of its blocks that the device knows is read once, and no other.
        ensures asks { AsksFor (S.known swap.new) (blocks_of self.old.swap id.key) (S.asked swap.old) (S.asked swap.new) (result ≡ Brought.Here) }

        ensures here { result ≡ Brought.Here → IsSome (place_of self.new id.key) }
        ensures out { (result ≡ Brought.Here → ⊥) → place_of self.new id.key ≡ None }
        ensures never { (result ≡ Brought.NoRoom → ⊥) × (result ≡ Brought.Stale → ⊥) × (result ≡ Brought.SwapFull → ⊥) }
        ensures idle { NoneTaken self.old.swap → IsIdle self.new swap.old swap.new }
    {
        let len = self.rounded_size(id.key);
        self.come_in(id.key, len, images, swap)
    }
}
