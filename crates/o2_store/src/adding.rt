// Segments are added, changed in their attributes, and removed.
ghost use Rattle.std.specs.Prelude.{◌≡◌, ◌≢◌, ℕ, List, ◌+◌, ◌<◌, ◌≤◌, ◌^◌, ◌-◌, ◌↔◌, length, Some, None, IsSome, IsTrue, IfSome, slice_set, true, false, nat_lt, if◌then◌else◌};
ghost use Rattle.std.specs.Option.{IfNone};
ghost use Rattle.o2_entries.specs.declared.Entry.{Entry};
ghost use Rattle.o2_entries.specs.Tables.{slot_at, live_numbers};
ghost use Rattle.o2_swapmap.specs.Piles.{all_of};
ghost use Rattle.o2_store.specs.Shelf.{Adds, AreClean, Discards, IsDiscardable, discarded_entry, place_of, entry_of, entry, byte_at, Pictures, Removes, FollowsLock};
ghost use Rattle.o2_place.specs.Marks.{mark_of};
ghost use Rattle.o2_store.specs.Idle.{NoneTaken};

use crate::store::{Store, locked_part};
use o2_entries::{Attr, Entry};
use o2_place::{Clock, SegId};

impl Store {
    /// A new segment of zeros, out of memory, of 1 to 65,536 bytes. None exactly where there is room for no more.
    pub fn add_zero(&mut self, size: u32, attr: Attr) -> Option<SegId>
        requires size { (0 < size) × (size ≤ 65536) }
        requires unlocked { attr.lock ≡ 0 }
        requires written { attr.clean ≡ false }
        requires whole { attr.gone ≡ false }
        requires made { self.old.made < 2 ^ 64 - 1 }
        ensures none { IfNone result ((length (live_numbers 0 self.old.entries) ≡ length self.old.entries) × (self.new ≡ self.old)) }
        ensures added { IfSome result (λ id. Adds self.old self.new id (record { age = self.old.made; size = size; kept = 0; image = None; attr = attr })) }
        ensures zeros { IfSome result (λ id. (pic : Pictures) (block : ℕ → List ℕ) (j : ℕ)
            → byte_at self.new pic block id.key j ≡ 0) }
        ensures others { IfSome result (λ id. (pic : Pictures) (block : ℕ → List ℕ) (k j : ℕ)
            → k ≢ id.key → byte_at self.new pic block k j ≡ byte_at self.old pic block k j) }
    {
        self.law();
        self.add(size, 0, None, attr)
    }

    /// A new segment, out of memory, whose bytes are the first ones of an image, 1 to 65,536 of them: of a segment of the
    /// module at a place, or of the environment of a process at place 0. None exactly where there is room for no more.
    pub fn add_image(&mut self, module: u16, seg: u16, size: u32, attr: Attr) -> Option<SegId>
        requires size { (0 < size) × (size ≤ 65536) }
        requires unlocked { attr.lock ≡ 0 }
        requires whole { attr.gone ≡ false }
        requires made { self.old.made < 2 ^ 64 - 1 }
        ensures none { IfNone result ((length (live_numbers 0 self.old.entries) ≡ length self.old.entries) × (self.new ≡ self.old)) }
        ensures added { IfSome result (λ id. Adds self.old self.new id (record { age = self.old.made; size = size; kept = size; image = Some («module», seg); attr = attr })) }
        ensures bytes { IfSome result (λ id. (pic : Pictures) (block : ℕ → List ℕ) (j : ℕ)
            → j < size → byte_at self.new pic block id.key j ≡ pic «module» seg j) }
        ensures others { IfSome result (λ id. (pic : Pictures) (block : ℕ → List ℕ) (k j : ℕ)
            → k ≢ id.key → byte_at self.new pic block k j ≡ byte_at self.old pic block k j) }
    {
        self.law();
        self.add(size, size, Some((module, seg)), attr)
    }

    /// A new segment, out of memory, of 1 to 65,536 bytes: the first `kept` are the first ones of an image, as `add_image` names
    /// it, and the others are zeros. None exactly where there is room for no more.
    pub fn add_front(
        &mut self,
        module: u16,
        seg: u16,
        kept: u32,
        size: u32,
        attr: Attr,
    ) -> Option<SegId>
        requires size { (0 < size) × (size ≤ 65536) }
        requires kept { kept ≤ size }
        requires unlocked { attr.lock ≡ 0 }
        requires whole { attr.gone ≡ false }
        requires made { self.old.made < 2 ^ 64 - 1 }
        ensures none { IfNone result ((length (live_numbers 0 self.old.entries) ≡ length self.old.entries) × (self.new ≡ self.old)) }
        ensures added { IfSome result (λ id. Adds self.old self.new id (record { age = self.old.made; size = size; kept = kept; image = Some («module», seg); attr = attr })) }
        ensures bytes { IfSome result (λ id. (pic : Pictures) (block : ℕ → List ℕ) (j : ℕ)
            → byte_at self.new pic block id.key j ≡ (if nat_lt j kept then pic «module» seg j else 0)) }
        ensures others { IfSome result (λ id. (pic : Pictures) (block : ℕ → List ℕ) (k j : ℕ)
            → k ≢ id.key → byte_at self.new pic block k j ≡ byte_at self.old pic block k j) }
    {
        self.law();
        self.add(size, kept, Some((module, seg)), attr)
    }

    // A new segment out of memory.
    fn add(&mut self, size: u32, kept: u32, image: Option<(u16, u16)>, attr: Attr) -> Option<SegId>
        requires size { (0 < size) × (size ≤ 65536) }
        requires kept { kept ≤ size }
        requires sourced { image ≡ None → kept ≡ 0 }
        requires unlocked { attr.lock ≡ 0 }
        requires clean { attr.clean ≡ true → IsSome image }
        requires whole { attr.gone ≡ false }
        requires made { self.old.made < 2 ^ 64 - 1 }
        ensures none { IfNone result ((length (live_numbers 0 self.old.entries) ≡ length self.old.entries) × (self.new ≡ self.old)) }
        ensures added { IfSome result (λ id. Adds self.old self.new id (record { age = self.old.made; size = size; kept = kept; image = image; attr = attr })) }
    {
        let key = self.entries.vacant()?;
        let age = self.made;
        self.entries.add(
            key,
            Entry {
                age,
                size,
                kept,
                image,
                attr,
            },
        );
        self.made += 1;
        Some(SegId { key, age })
    }

    /// Removes a segment: its range and its blocks are free, and no later segment has its name. False exactly where it is
    /// stale.
    pub fn remove(&mut self, id: SegId) -> bool
        ensures live { IsTrue result ↔ IsSome (entry_of self.old id) }
        ensures stale { result ≡ false → self.new ≡ self.old }
        ensures removed { result ≡ true → Removes self.old self.new id.key }
        ensures map { all_of self.new.swap ≡ all_of self.old.swap }
        ensures unused { NoneTaken self.old.swap → NoneTaken self.new.swap }
    {
        let Some(entry) = self.find(id) else {
            return false;
        };
        self.places.take(id.key);
        self.clock.leave(id.key);
        self.swap.give(id.key, 0);
        self.entries.remove(id.key);
        self.locked -= locked_part(entry);
        true
    }

    /// The segment that was made last is gone as if it had never been made: the next one has its age.
    pub fn unmake(&mut self)
        requires some { 0 < self.old.made }
        requires gone { (k : ℕ) → IsSome (slot_at self.old.entries k) → (entry self.old k).age + 1 < self.old.made }
        ensures { self.new ≡ record self.old { made = self.old.made - 1 } }
    {
        self.made -= 1;
    }

    /// Sets a segment's attributes. One that gets a lock is in memory, and it stays clean or not. One that was discarded is so no
    /// more: it is made anew, with bytes that are zero. False exactly where it is stale.
    pub fn set_attr(&mut self, id: SegId, attr: Attr) -> bool
        requires lock { 0 < attr.lock → IsSome (entry_of self.old id) → IsSome (place_of self.old id.key) }
        requires clean { IfSome (entry_of self.old id) (λ e. attr.clean ≡ e.attr.clean) }
        requires whole { attr.gone ≡ false }
        ensures live { IsTrue result ↔ IsSome (entry_of self.old id) }
        ensures stale { result ≡ false → self.new ≡ self.old }
        ensures set { result ≡ true → self.new ≡ record self.old { turns = self.new.turns; entries = slice_set self.old.entries id.key (Some (record (entry self.old id.key) { attr = attr })) } }
        ensures bytes { (pic : Pictures) (block : ℕ → List ℕ) (k j : ℕ) → byte_at self.new pic block k j ≡ byte_at self.old pic block k j }
    {
        let Some(old) = self.find(id) else {
            return false;
        };
        let entry = Entry {
            age: old.age,
            size: old.size,
            kept: old.kept,
            image: old.image,
            attr,
        };
        self.locked = self.locked - locked_part(old) + locked_part(entry);
        self.entries.set(id.key, entry);
        tell(&mut self.clock, id.key, old.attr.lock, attr.lock);
        true
    }

    /// Discards a segment that may be: its range and its blocks are free, its bytes are zeros, and it stays out of memory until
    /// `set_attr` makes it anew. Its size and its other attributes stay. False exactly where it is stale.
    pub fn discard(&mut self, id: SegId) -> bool
        requires { IfSome (entry_of self.old id) (λ e. IsDiscardable e.attr) }
        ensures live { IsTrue result ↔ IsSome (entry_of self.old id) }
        ensures stale { result ≡ false → self.new ≡ self.old }
        ensures discarded { result ≡ true → Discards self.old self.new id.key }
        ensures clean { (pic : Pictures) → AreClean self.old pic → AreClean self.new pic }
        ensures map { all_of self.new.swap ≡ all_of self.old.swap }
        ensures unused { NoneTaken self.old.swap → NoneTaken self.new.swap }
    {
        let Some(old) = self.find(id) else {
            return false;
        };
        let key = id.key;
        self.places.take(key);
        self.clock.leave(key);
        self.swap.give(key, 0);
        self.entries.set(key, discarded(old));
        true
    }
}

// A segment's entry once it is discarded.
fn discarded(old: Entry) -> Entry
    ensures { result ≡ discarded_entry old }
{
    Entry {
        age: old.age,
        size: old.size,
        kept: 0,
        image: None,
        attr: Attr {
            gone: true,
            ..old.attr
        },
    }
}

// Tells the clock of a lock that comes or goes.
fn tell(clock: &mut Clock, key: u32, before: u8, now: u8)
    requires { key < length clock.old.marks }
    ensures long { length clock.new.marks ≡ length clock.old.marks }
    ensures others { (k : ℕ) → k ≢ key → (mark_of clock.new.marks k).present ≡ (mark_of clock.old.marks k).present }
    ensures follows { FollowsLock (mark_of clock.old.marks key).present (mark_of clock.new.marks key).present before now }
{
    if before == 0 && now > 0 {
        clock.leave(key);
        return;
    }
    if before > 0 && now == 0 {
        clock.touch(key);
    }
}
