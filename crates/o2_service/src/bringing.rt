// One segment comes in, and the descriptors of each one that moves for it say where it is.
ghost use Rattle.std.specs.Prelude.{◌≡◌, ◌≢◌, ℕ, List, Bool, ◌+◌, ◌<◌, ◌≤◌, length, is_some, IsSome, None, true, false};
ghost use Rattle.o2_entries.specs.Tables.{slot_at};
ghost use Rattle.o2_place.specs.Layout.{IsFree, used};
ghost use Rattle.o2_segbus.specs.Settled.{IsSettled};
ghost use Rattle.o2_swapmap.specs.Piles.{all_of, blocks_of};
ghost use Rattle.o2_store.specs.Asked.{AsksFor};
ghost use Rattle.o2_store.specs.Frames.{IsBacked, KeepsDevice};
ghost use Rattle.o2_store.specs.Loads.{live_load, swap_load};
ghost use Rattle.o2_store.specs.Needs.{all_wanted, named_in};
ghost use Rattle.o2_store.specs.Pictures.{picture, HasPicture};
ghost use Rattle.o2_store.specs.Gaps.{IsGap, SlideFor};
ghost use Rattle.o2_store.specs.Leaving.{IsStuck, LeaveFor, lacking};
ghost use Rattle.o2_store.specs.Victims.{LeaveInTurn, TakesNext};
ghost use Rattle.o2_store.specs.Shelf.{AreClean, HasAll, IsFull, KeepsAll, Pictures, SameTables, entry, entry_of, place_of, rounded};
ghost use Rattle.o2_service.specs.Told.{Follows, IsHeldWell};
ghost use Rattle.o2_store.specs.Idle.{Idles, IsIdle, NoneTaken};

use crate::settling::{settle_moved, settle_slid};
use o2_image::Images;
use o2_outer::SwapDevice;
use o2_place::SegId;
use o2_regions::Regions;
use o2_store::{Brought, Store};

// Takes the next segment out of memory for one that has no room there.
fn make_way<S: SwapDevice>(
    id: SegId,
    keep: &[SegId],
    store: &mut Store,
    regions: &mut Regions,
    swap: &mut S,
) -> Brought
    requires live { IsSome (entry_of store.old id) }
    requires out { place_of store.old id.key ≡ None }
    requires short { store.old.places.size < used store.old.places.ranges + rounded (entry store.old id.key).size }
    requires fits { all_wanted store.old id.key keep.now ≤ store.old.places.size }
    requires held { IsHeldWell store.old regions.old }
    requires settled { IsSettled store.old regions.old }
    requires device { all_of store.old.swap ≤ S.blocks swap.old }

    ensures keeps { (pic : Pictures) → AreClean store.old pic → KeepsAll (S.told swap.new) pic
        store.old (S.block swap.old) store.new (S.block swap.new) }
    ensures clean { (pic : Pictures) → AreClean store.old pic → AreClean store.new pic }
    ensures tables { SameTables store.old store.new }
    ensures device { KeepsDevice S.blocks S.told S.faults swap.old swap.new
        (result ≡ Brought.SwapFault) }
    ensures map { all_of store.new.swap ≡ all_of store.old.swap }
    ensures follows { Follows regions.old store.new regions.new }
    ensures kept { (k : ℕ) → named_in store.old.entries keep.now k ≡ true
        → place_of store.new k ≡ place_of store.old k }
    ensures none { (k : ℕ) → place_of store.old k ≡ None → place_of store.new k ≡ None }
    ensures still { (k : ℕ) → IsSome (place_of store.new k) → place_of store.new k ≡ place_of store.old k }
    ensures next { result ≡ Brought.Here
        → TakesNext id.key keep.now (rounded (entry store.old id.key).size) store.old store.new }
    ensures stays { (result ≡ Brought.Here → ⊥)
        → (k : ℕ) → place_of store.new k ≡ place_of store.old k }
    ensures leave { LeaveFor store.old store.new (rounded (entry store.old id.key).size) }
    ensures unasked { S.asked swap.new ≡ S.asked swap.old }
    ensures piles { (k : ℕ) → k < length store.old.entries → place_of store.old k ≡ None
        → blocks_of store.new.swap k ≡ blocks_of store.old.swap k }
    ensures entry { slot_at store.new.entries id.key ≡ slot_at store.old.entries id.key }

    ensures fewer { result ≡ Brought.Here
        → length store.new.places.ranges < length store.old.places.ranges }
    ensures loads { result ≡ Brought.SwapFull
        → (all_of store.old.swap < swap_load store.old)
        × (store.old.places.size < live_load store.old) }
    ensures full { result ≡ Brought.SwapFull → IsFull store.new }
    ensures never { (result ≡ Brought.NoRoom → ⊥) × (result ≡ Brought.Stale → ⊥) }
{
    store.law();
    let Some(out) = store.next_out(id, keep) else {
        return Brought::NoRoom;
    };
    let answer = store.evict(out, swap);
    settle_moved(store, regions, out);
    answer
}

// Takes segments out of memory until one has room there.
fn make_room<S: SwapDevice>(
    id: SegId,
    keep: &[SegId],
    store: &mut Store,
    regions: &mut Regions,
    swap: &mut S,
) -> Brought
    requires live { IsSome (entry_of store.old id) }
    requires out { place_of store.old id.key ≡ None }
    requires fits { all_wanted store.old id.key keep.now ≤ store.old.places.size }
    requires held { IsHeldWell store.old regions.old }
    requires settled { IsSettled store.old regions.old }
    requires device { all_of store.old.swap ≤ S.blocks swap.old }

    ensures keeps { (pic : Pictures) → AreClean store.old pic → KeepsAll (S.told swap.new) pic
        store.old (S.block swap.old) store.new (S.block swap.new) }
    ensures clean { (pic : Pictures) → AreClean store.old pic → AreClean store.new pic }
    ensures tables { SameTables store.old store.new }
    ensures device { KeepsDevice S.blocks S.told S.faults swap.old swap.new
        (result ≡ Brought.SwapFault) }
    ensures map { all_of store.new.swap ≡ all_of store.old.swap }
    ensures follows { Follows regions.old store.new regions.new }
    ensures kept { (k : ℕ) → named_in store.old.entries keep.now k ≡ true
        → place_of store.new k ≡ place_of store.old k }
    ensures none { (k : ℕ) → place_of store.old k ≡ None → place_of store.new k ≡ None }
    ensures still { (k : ℕ) → IsSome (place_of store.new k) → place_of store.new k ≡ place_of store.old k }
    ensures turns { LeaveInTurn id.key keep.now (rounded (entry store.old id.key).size) store.old store.new }
    ensures leave { LeaveFor store.old store.new (rounded (entry store.old id.key).size) }
    ensures unasked { S.asked swap.new ≡ S.asked swap.old }
    ensures piles { (k : ℕ) → k < length store.old.entries → place_of store.old k ≡ None
        → blocks_of store.new.swap k ≡ blocks_of store.old.swap k }
    ensures entry { slot_at store.new.entries id.key ≡ slot_at store.old.entries id.key }

    ensures room { result ≡ Brought.Here
        → used store.new.places.ranges + rounded (entry store.new id.key).size ≤ store.new.places.size }
    ensures idle { used store.old.places.ranges + rounded (entry store.old id.key).size ≤ store.old.places.size
        → (store.new ≡ store.old) × (swap.new ≡ swap.old) }
    ensures loads { result ≡ Brought.SwapFull
        → (all_of store.old.swap < swap_load store.old)
        × (store.old.places.size < live_load store.old) }
    ensures full { result ≡ Brought.SwapFull → IsFull store.new }
    ensures never { (result ≡ Brought.NoRoom → ⊥) × (result ≡ Brought.Stale → ⊥) }
{
    while store.lacks_room(id) {
        let answer = make_way(id, keep, store, regions, swap);
        if !matches!(answer, Brought::Here) {
            return answer;
        }
    }
    Brought::Here
}

// Sees that a gap is long enough for a segment that has room in memory.
fn make_gap(id: SegId, store: &mut Store, regions: &mut Regions)
    requires live { IsSome (entry_of store.old id) }
    requires room { used store.old.places.ranges + rounded (entry store.old id.key).size ≤ store.old.places.size }
    requires held { IsHeldWell store.old regions.old }
    requires settled { IsSettled store.old regions.old }

    ensures keeps { (told : Bool) (pic : Pictures) (block : ℕ → List ℕ) → KeepsAll told pic store.old block store.new block }
    ensures clean { (pic : Pictures) → AreClean store.old pic → AreClean store.new pic }
    ensures map { all_of store.new.swap ≡ all_of store.old.swap }
    ensures blocks { store.new.swap ≡ store.old.swap }
    ensures follows { Follows regions.old store.new regions.new }
    ensures presence { (k : ℕ) → is_some (place_of store.new k) ≡ is_some (place_of store.old k) }
    ensures load { used store.new.places.ranges ≡ used store.old.places.ranges }
    // Where a gap is long enough, nothing slides.
    ensures alone { (start : ℕ) → IsGap store.old start (rounded (entry store.old id.key).size)
        → (store.new ≡ store.old) × (regions.new ≡ regions.old) }

    ensures room { used store.new.places.ranges + rounded (entry store.new id.key).size ≤ store.new.places.size }
    ensures gap { (at : ℕ) × IsFree store.new.places.size store.new.places.ranges at (rounded (entry store.new id.key).size) }
{
    store.law();
    if store.gap_for(id).is_some() {
        return;
    }
    let from = store.close_gaps();
    settle_slid(store, regions, from);
}

// Brings a segment into a gap that is long enough for it.
fn fill_gap<S: SwapDevice>(
    id: SegId,
    store: &mut Store,
    regions: &mut Regions,
    images: &Images,
    swap: &mut S,
) -> Brought
    requires live { IsSome (entry_of store.old id) }
    requires whole { (entry store.old id.key).attr.gone ≡ false }
    requires out { place_of store.old id.key ≡ None }
    requires room { used store.old.places.ranges + rounded (entry store.old id.key).size ≤ store.old.places.size }
    requires gap { (at : ℕ) × IsFree store.old.places.size store.old.places.ranges at (rounded (entry store.old id.key).size) }
    requires held { IsHeldWell store.old regions.old }
    requires settled { IsSettled store.old regions.old }
    requires pictures { HasAll (HasPicture images.now) store.old }
    requires backed { IsBacked store.old images.now (S.blocks swap.old) }

    ensures keeps { KeepsAll (S.told swap.new) (picture images.now)
        store.old (S.block swap.old) store.new (S.block swap.new) }
    ensures clean { AreClean store.new (picture images.now) }
    ensures device { KeepsDevice S.blocks S.told S.faults swap.old swap.new
        (result ≡ Brought.SwapFault) }
    ensures map { all_of store.new.swap ≡ all_of store.old.swap }
    ensures blocks { store.new.swap ≡ store.old.swap }
    ensures follows { Follows regions.old store.new regions.new }
    ensures alone { (k : ℕ) → k ≢ id.key → place_of store.new k ≡ place_of store.old k }
    ensures takes { used store.new.places.ranges + lacking store.new id.key
        ≡ used store.old.places.ranges + rounded (entry store.old id.key).size }
    ensures asks { AsksFor (S.known swap.new) (blocks_of store.old.swap id.key) (S.asked swap.old) (S.asked swap.new) (result ≡ Brought.Here) }

    ensures here { result ≡ Brought.Here → IsSome (place_of store.new id.key) }
    ensures out { (result ≡ Brought.Here → ⊥) → place_of store.new id.key ≡ None }
    ensures never { (result ≡ Brought.NoRoom → ⊥) × (result ≡ Brought.Stale → ⊥) × (result ≡ Brought.SwapFull → ⊥) }
    ensures idle { NoneTaken store.old.swap → IsIdle store.new swap.old swap.new }
{
    store.law();
    let answer = store.bring_to_gap(id, images, swap);
    settle_moved(store, regions, id);
    answer
}

// Brings a segment that is out of memory into it, where it fits together with those of `keep` and the locked ones.
fn bring_in<S: SwapDevice>(
    id: SegId,
    keep: &[SegId],
    store: &mut Store,
    regions: &mut Regions,
    images: &Images,
    swap: &mut S,
) -> Brought
    requires live { IsSome (entry_of store.old id) }
    requires whole { (entry store.old id.key).attr.gone ≡ false }
    requires out { place_of store.old id.key ≡ None }
    requires fits { all_wanted store.old id.key keep.now ≤ store.old.places.size }
    requires held { IsHeldWell store.old regions.old }
    requires settled { IsSettled store.old regions.old }
    requires pictures { HasAll (HasPicture images.now) store.old }
    requires backed { IsBacked store.old images.now (S.blocks swap.old) }

    ensures keeps { KeepsAll (S.told swap.new) (picture images.now)
        store.old (S.block swap.old) store.new (S.block swap.new) }
    ensures clean { AreClean store.new (picture images.now) }
    ensures device { KeepsDevice S.blocks S.told S.faults swap.old swap.new
        (result ≡ Brought.SwapFault) }
    ensures map { all_of store.new.swap ≡ all_of store.old.swap }
    ensures follows { Follows regions.old store.new regions.new }
    ensures kept { (k : ℕ) → named_in store.old.entries keep.now k ≡ true
        → IsSome (place_of store.old k) → IsSome (place_of store.new k) }
    ensures none { (k : ℕ) → k ≢ id.key → place_of store.old k ≡ None → place_of store.new k ≡ None }
    ensures turns { LeaveInTurn id.key keep.now (rounded (entry store.old id.key).size) store.old store.new }
    ensures leave { LeaveFor store.old store.new (lacking store.new id.key) }
    ensures slide { SlideFor store.old store.new id.key (rounded (entry store.old id.key).size) }
    ensures piles { (k : ℕ) → k < length store.old.entries → place_of store.old k ≡ None
        → blocks_of store.new.swap k ≡ blocks_of store.old.swap k }
    ensures asks { AsksFor (S.known swap.new) (blocks_of store.old.swap id.key) (S.asked swap.old) (S.asked swap.new) (result ≡ Brought.Here) }

    ensures here { result ≡ Brought.Here → IsSome (place_of store.new id.key) }
    ensures out { (result ≡ Brought.Here → ⊥) → place_of store.new id.key ≡ None }
    ensures loads { result ≡ Brought.SwapFull
        → (all_of store.old.swap < swap_load store.old)
        × (store.old.places.size < live_load store.old) }
    ensures stuck { result ≡ Brought.SwapFull → IsStuck store.old store.new id.key }
    ensures never { (result ≡ Brought.NoRoom → ⊥) × (result ≡ Brought.Stale → ⊥) }
    ensures idle { Idles (live_load store.old) store.old store.new swap.old swap.new }
{
    store.law();
    match make_room(id, keep, store, regions, swap) {
        Brought::Here => {
            make_gap(id, store, regions);
            fill_gap(id, store, regions, images, swap)
        }
        other => other,
    }
}

/// Brings a live segment that isn't discarded into memory together with those of `keep` and the locked ones, and says in the descriptors of each
/// segment that leaves or slides for it, and in its own, where it is then. Whatever the answer, each segment keeps its bytes, its
/// size and its attributes, those of `keep` and locked ones that are in memory stay there, and all descriptors agree with the
/// store. No more segments leave than must, and none slides where a gap is long enough. The work is that of the segments that
/// move, and of going over those who hold them.
pub fn bring<S: SwapDevice>(
    id: SegId,
    keep: &[SegId],
    store: &mut Store,
    regions: &mut Regions,
    images: &Images,
    swap: &mut S,
) -> Brought
    requires live { IsSome (entry_of store.old id) }
    requires whole { (entry store.old id.key).attr.gone ≡ false }
    requires held { IsHeldWell store.old regions.old }
    requires settled { IsSettled store.old regions.old }
    requires pictures { HasAll (HasPicture images.now) store.old }
    requires backed { IsBacked store.old images.now (S.blocks swap.old) }

    ensures keeps { KeepsAll (S.told swap.new) (picture images.now)
        store.old (S.block swap.old) store.new (S.block swap.new) }
    ensures clean { AreClean store.new (picture images.now) }
    ensures device { KeepsDevice S.blocks S.told S.faults swap.old swap.new
        (result ≡ Brought.SwapFault) }
    ensures map { all_of store.new.swap ≡ all_of store.old.swap }
    ensures follows { Follows regions.old store.new regions.new }
    ensures kept { (k : ℕ) → named_in store.old.entries keep.now k ≡ true
        → IsSome (place_of store.old k) → IsSome (place_of store.new k) }
    ensures none { (k : ℕ) → k ≢ id.key → place_of store.old k ≡ None → place_of store.new k ≡ None }
    // Those that leave do so one after the other, each while room is wanting: always the clock's next one outside these.
    ensures turns { LeaveInTurn id.key keep.now (rounded (entry store.old id.key).size) store.old store.new }
    // None leaves that could have stayed, and none slides where a gap is long enough once those that leave have left.
    ensures leave { LeaveFor store.old store.new (lacking store.new id.key) }
    ensures slide { SlideFor store.old store.new id.key (rounded (entry store.old id.key).size) }
    // None that is out of memory gets or loses blocks.
    ensures piles { (k : ℕ) → k < length store.old.entries → place_of store.old k ≡ None
        → blocks_of store.new.swap k ≡ blocks_of store.old.swap k }
    // Each of its blocks that the device knows is read once, and no other.
    ensures asks { place_of store.old id.key ≡ None
        → AsksFor (S.known swap.new) (blocks_of store.old.swap id.key) (S.asked swap.old) (S.asked swap.new) (result ≡ Brought.Here) }
    ensures unasked { IsSome (place_of store.old id.key) → S.asked swap.new ≡ S.asked swap.old }

    ensures here { result ≡ Brought.Here → IsSome (place_of store.new id.key) }
    ensures out { (result ≡ Brought.Here → ⊥) → place_of store.old id.key ≡ None
        → place_of store.new id.key ≡ None }
    ensures no_room { result ≡ Brought.NoRoom
        → store.old.places.size < all_wanted store.old id.key keep.now }
    ensures absent { result ≡ Brought.NoRoom → place_of store.old id.key ≡ None }
    ensures always_no_room { place_of store.old id.key ≡ None
        → store.old.places.size < all_wanted store.old id.key keep.now → result ≡ Brought.NoRoom }
    ensures loads { result ≡ Brought.SwapFull
        → (all_of store.old.swap < swap_load store.old)
        × (store.old.places.size < live_load store.old) }
    ensures stuck { result ≡ Brought.SwapFull → IsStuck store.old store.new id.key }
    ensures never { result ≡ Brought.Stale → ⊥ }
    // Where nothing is in swap blocks and all that lives fits the memory, the device isn't touched.
    ensures idle { Idles (live_load store.old) store.old store.new swap.old swap.new }
{
    if store.base(id).is_some() {
        return Brought::Here;
    }
    if !store.fits(id, keep) {
        return Brought::NoRoom;
    }
    bring_in(id, keep, store, regions, images, swap)
}
