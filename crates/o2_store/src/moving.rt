// Segments come to a place in memory.
ghost use Rattle.std.specs.Prelude.{◌≡◌, ◌≢◌, ◌⊎◌, ℕ, List, Bool, ◌+◌, ◌<◌, ◌≤◌, ◌^◌, length, Some, None, IsSome, IsTrue, slice_index, true, false};
ghost use Rattle.o2_compact.specs.Parts.{SlideBehind, StayInFront};
ghost use Rattle.o2_entries.specs.Tables.{slot_at};
ghost use Rattle.o2_outer.specs.Answers.{HasCause};
ghost use Rattle.o2_place.specs.Layout.{Changes, IsFree, used};
ghost use Rattle.o2_swapmap.specs.Piles.{all_of, blocks_of};
ghost use Rattle.o2_store.specs.Asked.{AsksFor};
ghost use Rattle.o2_store.specs.Frames.{KeepsDevice};
ghost use Rattle.o2_store.specs.Leaving.{lacking};
ghost use Rattle.o2_store.specs.Pictures.{picture, HasPicture};
ghost use Rattle.o2_store.specs.Shelf.{Pictures, KeepsAll, AreClean, place_of, entry, rounded, out_byte, IsMoved, Tells, HasAll, SameTables};
ghost use Rattle.o2_store.specs.Idle.{NoneTaken, IsIdle};

use crate::blocks::read_in;
use crate::store::Store;
use o2_compact::close_up;
use o2_image::Images;
use o2_outer::{Dev, SwapDevice};
use o2_phys::Phys;

impl Store {
    /// Slides the segments in memory down until no gap lies between them. The answer is how many of them lie so already, by
    /// rising place: they stay where they are, and each one behind them slides. All bytes stay.
    pub fn close_gaps(&mut self) -> u32
        ensures moved { IsMoved self.old self.new }
        ensures keeps { (told : Bool) (pic : Pictures) (block : ℕ → List ℕ) → KeepsAll told pic self.old block self.new block }
        ensures clean { (pic : Pictures) → AreClean self.old pic → AreClean self.new pic }
        ensures stay { StayInFront self.old.places self.new.places result }
        ensures slide { SlideBehind self.old.places self.new.places result }
        ensures gap { (len : ℕ) → used self.new.places.ranges + len ≤ self.new.places.size
            → IsFree self.new.places.size self.new.places.ranges (used self.new.places.ranges) len }
    {
        self.law();
        let front = close_up(&mut self.phys, &mut self.places);
        self.places.law();
        front
    }

    // A place that is free for so many bytes, of which enough are in no range. The gaps are closed where none is long enough.
    pub(crate) fn make_fit(&mut self, len: u32) -> u32
        requires { used self.old.places.ranges + len ≤ self.old.places.size }
        ensures free { IsFree self.new.places.size self.new.places.ranges result len }
        ensures within { result + len ≤ self.new.places.size }
        ensures moved { IsMoved self.old self.new }
        ensures alone { (at : ℕ) → IsFree self.old.places.size self.old.places.ranges at len → self.new ≡ self.old }
    {
        self.law();
        if let Some(at) = self.places.fit(len) {
            return at;
        }
        self.close_gaps();
        self.law();
        match self.places.fit(len) {
            Some(at) => at,
            None => 0,
        }
    }

    // Writes the bytes of a segment that is out of memory to a free place.
    fn fill<S: SwapDevice>(&mut self, key: u32, at: u32, images: &Images, swap: &mut S) -> Dev
        requires live { IsSome (slot_at self.old.entries key) }
        requires within { at + rounded (entry self.old key).size ≤ self.old.places.size }
        requires pictures { HasAll (HasPicture images.now) self.old }
        requires device { all_of self.old.swap ≤ S.blocks swap.old }
        ensures shelf { self.new ≡ record self.old { memory = self.new.memory } }
        ensures device { (S.blocks swap.new ≡ S.blocks swap.old) × (IsTrue (S.told swap.new) → IsTrue (S.told swap.old)) }
        ensures same { IsTrue (S.told swap.new) → (b : ℕ) → S.block swap.new b ≡ S.block swap.old b }
        ensures outside { (i : ℕ) → (i < at) ⊎ (at + (entry self.old key).size ≤ i) → slice_index self.new.memory i ≡ slice_index self.old.memory i }
        ensures read { Tells (S.told swap.new) (entry self.old key).image → result ≡ Dev.Done → (j : ℕ) → j < (entry self.old key).size → slice_index self.new.memory (at + j) ≡ out_byte self.old (picture images.now) (S.block swap.old) key j }
        ensures asks { AsksFor (S.known swap.new) (blocks_of self.old.swap key) (S.asked swap.old) (S.asked swap.new) (result ≡ Dev.Done) }
        ensures cause { HasCause (S.faults swap.old) (S.faults swap.new) result }
        ensures idle { NoneTaken self.old.swap → swap.new ≡ swap.old }
    {
        self.law();
        let Some(entry) = self.entries.get(key) else {
            return Dev::Done;
        };
        clear_behind(&mut self.phys, at, entry.kept, entry.size);
        if let Some((module, seg)) = entry.image {
            paint(&mut self.phys, at, entry.kept, images, module, seg);
            return Dev::Done;
        }
        read_in(&mut self.phys, &self.swap, key, at, entry.kept, swap)
    }

    // A segment is in memory at a free place that has its bytes.
    fn settle(&mut self, key: u32, at: u32)
        requires key { key < length self.old.entries }
        requires live { IsSome (slot_at self.old.entries key) }
        requires out { place_of self.old key ≡ None }
        requires whole { (entry self.old key).attr.gone ≡ false }
        requires free { IsFree self.old.places.size self.old.places.ranges at (rounded (entry self.old key).size) }
        ensures keeps { (told : Bool) (pic : Pictures) (block : ℕ → List ℕ) → (IsTrue told → (j : ℕ) → j < (entry self.old key).size → slice_index self.old.memory (at + j) ≡ out_byte self.old pic block key j) → KeepsAll told pic self.old block self.new block }
        ensures clean { (pic : Pictures) (block : ℕ → List ℕ) → (IsSome (entry self.old key).image → (j : ℕ) → j < (entry self.old key).size → slice_index self.old.memory (at + j) ≡ out_byte self.old pic block key j) → AreClean self.old pic → AreClean self.new pic }
        ensures places { Changes self.old.places self.new.places key (Some (at, rounded (entry self.old key).size)) }
        ensures takes { used self.new.places.ranges ≡ used self.old.places.ranges + rounded (entry self.old key).size }
        ensures shelf { self.new ≡ record self.old { places = self.new.places; turns = self.new.turns } }
    {
        self.law();
        let len = self.rounded_size(key);
        self.places.put(key, at, len);
        self.clock.touch(key);
    }

    // A segment's size, rounded up.
    pub(crate) fn rounded_size(&self, key: u32) -> u32
        requires live { IsSome (slot_at self.now.entries key) }
        ensures value { result ≡ rounded (entry self.now key).size }
        ensures some { 0 < result }
        ensures small { result ≤ 65536 }
    {
        self.law();
        match self.entries.get(key) {
            Some(entry) => (entry.size + 15) / 16 * 16,
            None => 0,
        }
    }

    // Brings a segment in where enough bytes are in no range.
    pub(crate) fn place_in<S: SwapDevice>(
        &mut self,
        key: u32,
        len: u32,
        images: &Images,
        swap: &mut S,
    ) -> bool
        requires key { key < length self.old.entries }
        requires live { IsSome (slot_at self.old.entries key) }
        requires len { len ≡ rounded (entry self.old key).size }
        requires out { place_of self.old key ≡ None }
        requires whole { (entry self.old key).attr.gone ≡ false }
        requires room { used self.old.places.ranges + len ≤ self.old.places.size }
        requires pictures { HasAll (HasPicture images.now) self.old }
        requires device { all_of self.old.swap ≤ S.blocks swap.old }
        ensures keeps { KeepsAll (S.told swap.new) (picture images.now) self.old (S.block swap.old) self.new (S.block swap.new) }
        ensures clean { AreClean self.old (picture images.now) → AreClean self.new (picture images.now) }
        ensures tables { SameTables self.old self.new }
        ensures device { KeepsDevice S.blocks S.told S.faults swap.old swap.new
            (result ≡ false) }
        ensures map { all_of self.new.swap ≡ all_of self.old.swap }
        ensures blocks { self.new.swap ≡ self.old.swap }
        ensures here { result ≡ true → IsSome (place_of self.new key) }
        ensures out { result ≡ false → place_of self.new key ≡ None }
        ensures none { (k : ℕ) → k ≢ key → place_of self.old k ≡ None → place_of self.new k ≡ None }
        ensures entries { self.new.entries ≡ self.old.entries }
        ensures others { (k : ℕ) → IsSome (place_of self.old k) → IsSome (place_of self.new k) }
        ensures alone { (at : ℕ) → IsFree self.old.places.size self.old.places.ranges at len
            → (k : ℕ) → k ≢ key → place_of self.new k ≡ place_of self.old k }
        ensures takes { used self.new.places.ranges + lacking self.new key
            ≡ used self.old.places.ranges + rounded (entry self.old key).size }
        ensures asks { AsksFor (S.known swap.new) (blocks_of self.old.swap key) (S.asked swap.old) (S.asked swap.new) (result ≡ true) }
        ensures idle { NoneTaken self.old.swap → IsIdle self.new swap.old swap.new }
    {
        self.law();
        let at = self.make_fit(len);
        self.law();
        if let Dev::Failed = self.fill(key, at, images, swap) {
            return false;
        }
        self.settle(key, at);
        true
    }
}

// Clears the bytes of a place behind so many of them, up to a size.
fn clear_behind(phys: &mut Phys, at: u32, kept: u32, size: u32)
    requires range { at + size ≤ length phys.old }
    requires fits { at + size < 2 ^ 31 }
    requires kept { kept ≤ size }
    ensures length { length phys.new ≡ length phys.old }
    ensures outside { (i : ℕ) → (i < at + kept) ⊎ (at + size ≤ i) → slice_index phys.new i ≡ slice_index phys.old i }
    ensures zeros { (j : ℕ) → kept ≤ j → j < size → slice_index phys.new (at + j) ≡ 0 }
{
    phys.clear(at + kept, size - kept);
}

// Writes the first bytes of an image to a place.
fn paint(phys: &mut Phys, at: u32, len: u32, images: &Images, module: u16, seg: u16)
    requires range { at + len ≤ length phys.old }
    requires small { len ≤ 65536 }
    requires picture { HasPicture images.now «module» seg }
    ensures length { length phys.new ≡ length phys.old }
    ensures outside { (i : ℕ) → (i < at) ⊎ (at + len ≤ i) → slice_index phys.new i ≡ slice_index phys.old i }
    ensures painted { (j : ℕ) → j < len → slice_index phys.new (at + j) ≡ picture images.now «module» seg j }
{
    images.fill(module, seg, phys.bytes_mut(at, len));
}
