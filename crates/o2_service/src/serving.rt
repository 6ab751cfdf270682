// What is needed comes into memory, and the descriptors say so.
ghost use Rattle.std.specs.Prelude.{◌≡◌, ℕ, ◌<◌, ◌≤◌, length, None, true, false, IsSome};
ghost use Rattle.o2_segbus.specs.Settled.{IsSettled};
ghost use Rattle.o2_swapmap.specs.Piles.{all_of, blocks_of};
ghost use Rattle.o2_store.specs.Asked.{AsksFor};
ghost use Rattle.o2_store.specs.Frames.{IsBacked, KeepsDevice};
ghost use Rattle.o2_store.specs.Leaving.{LeaveFor};
ghost use Rattle.o2_store.specs.Loads.{live_load, swap_load};
ghost use Rattle.o2_store.specs.Pictures.{picture, HasPicture};
ghost use Rattle.o2_store.specs.Shelf.{AreClean, HasAll, KeepsAll, entry, entry_of, place_of};
ghost use Rattle.o2_service.specs.Needs.{AreLive, ArePresent, AreServed, AreWhole, OnlyNeededComes, Stays, all_needed, needs};
ghost use Rattle.o2_service.specs.Learned.{AreUnused};
ghost use Rattle.o2_service.specs.Reads.{AsksForNeeded};
ghost use Rattle.o2_service.specs.Told.{Follows, IsHeldWell, OnlyTables};
ghost use Rattle.o2_store.specs.Idle.{Idles};

use crate::amount::{amount, are_here};
use crate::bringing::bring;
use crate::learning::learn;
use crate::need::Need;
use o2_image::Images;
use o2_outer::SwapDevice;
use o2_place::SegId;
use o2_regions::Regions;
use o2_store::{Brought, Store};

/// What a call that brings in all that is needed came to.
#[derive(Clone, Copy, Debug, PartialEq, Eq)]
pub enum Served {
    /// All that is needed is in memory.
    Here,
    /// What is needed and what is locked is more than the memory.
    NoRoom,
    /// A segment that would have to leave the memory lacks more swap blocks than are free.
    SwapFull,
    /// The swap device failed.
    SwapFault,
}

/// Brings what is needed into memory together, and says in all descriptors where segments are now. What is needed or locked
/// and was in memory stays there, and nothing else comes in; so each that is needed comes in once at most. No more leaves than
/// must. Whatever the answer, each segment keeps its bytes, its size and its attributes, and all descriptors agree with the store.
/// Nothing that was discarded is needed.
///
/// Where nothing is missing, nothing changes, and the work is that of looking each needed segment up. Otherwise the clock first
/// learns which segments were used, by the accessed bits, which are clear then; and the work is that of those bits, and of each
/// segment that comes, goes or slides: its copy, and going over those who hold it.
pub fn serve<S: SwapDevice>(
    need: &Need,
    store: &mut Store,
    regions: &mut Regions,
    images: &Images,
    swap: &mut S,
) -> Served
    requires live { AreLive store.old need.now }
    requires whole { AreWhole store.old need.now }
    requires held { IsHeldWell store.old regions.old }
    requires settled { IsSettled store.old regions.old }
    requires pictures { HasAll (HasPicture images.now) store.old }
    requires backed { IsBacked store.old images.now (S.blocks swap.old) }

    ensures keeps { KeepsAll (S.told swap.new) (picture images.now)
        store.old (S.block swap.old) store.new (S.block swap.new) }
    ensures clean { AreClean store.new (picture images.now) }
    ensures device { KeepsDevice S.blocks S.told S.faults swap.old swap.new
        (result ≡ Served.SwapFault) }
    ensures map { all_of store.new.swap ≡ all_of store.old.swap }
    ensures maps { OnlyTables regions.old regions.new }
    ensures settled { IsSettled store.new regions.new }
    ensures held { IsHeldWell store.new regions.new }
    ensures stays { Stays need.now store.old store.new }
    ensures only { OnlyNeededComes need.now store.old store.new }
    // A block that is read is one of a segment that is needed and was out of memory, and none is read twice.
    ensures asks { AsksForNeeded store.old need.now (S.asked swap.old) (S.asked swap.new) }
    ensures locked { (k : ℕ) → 0 < (entry store.old k).attr.lock → IsSome (place_of store.new k) }

    ensures here { result ≡ Served.Here → ArePresent store.new need.now (length need.now) }
    // None leaves that could have stayed: with one of those that left, all would be more than the memory.
    ensures leave { result ≡ Served.Here → LeaveFor store.old store.new 0 }
    ensures no_room { result ≡ Served.NoRoom
        → store.old.places.size < all_needed store.old need.now }
    ensures always_no_room { store.old.places.size < all_needed store.old need.now
        → result ≡ Served.NoRoom }
    ensures refused { result ≡ Served.NoRoom → (store.new ≡ store.old) × (swap.new ≡ swap.old) }
    // Where nothing is missing, nothing changes: the clock learns nothing either.
    ensures same { AreServed store.old need.now
        → (result ≡ Served.Here) × (store.new ≡ store.old) × (regions.new ≡ regions.old) × (swap.new ≡ swap.old) }
    ensures kept_bits { result ≡ Served.NoRoom → regions.new ≡ regions.old }
    ensures clear { (k : ℕ) → needs need.now k ≡ true → place_of store.old k ≡ None
        → (result ≡ Served.NoRoom → ⊥) → AreUnused regions.new }
    ensures loads { result ≡ Served.SwapFull
        → (all_of store.old.swap < swap_load store.old)
        × (store.old.places.size < live_load store.old) }
    // Where nothing is in swap blocks and all that lives fits the memory, the device isn't touched.
    ensures idle { Idles (live_load store.old) store.old store.new swap.old swap.new }
{
    store.law();
    if are_here(need.pairs(), store) {
        return Served::Here;
    }
    if !is_room(need, store) {
        return Served::NoRoom;
    }
    learn(store, regions);
    bring_all(need, store, regions, images, swap)
}

/// Whether the memory has room for what is needed and what is locked.
pub(crate) fn is_room(need: &Need, store: &Store) -> bool
    requires live { AreLive store.now need.now }
    ensures room { result ≡ true → all_needed store.now need.now ≤ store.now.places.size }
    ensures none { result ≡ false → store.now.places.size < all_needed store.now need.now }
{
    store.law();
    amount(need.pairs(), store) <= memory_size(store)
}

// Brings what is needed into memory together, where it isn't there yet, and says in all descriptors where segments are then.
fn bring_all<S: SwapDevice>(
    need: &Need,
    store: &mut Store,
    regions: &mut Regions,
    images: &Images,
    swap: &mut S,
) -> Served
    requires live { AreLive store.old need.now }
    requires whole { AreWhole store.old need.now }
    requires fits { all_needed store.old need.now ≤ store.old.places.size }
    requires held { IsHeldWell store.old regions.old }
    requires settled { IsSettled store.old regions.old }
    requires pictures { HasAll (HasPicture images.now) store.old }
    requires backed { IsBacked store.old images.now (S.blocks swap.old) }

    ensures keeps { KeepsAll (S.told swap.new) (picture images.now)
        store.old (S.block swap.old) store.new (S.block swap.new) }
    ensures clean { AreClean store.new (picture images.now) }
    ensures device { KeepsDevice S.blocks S.told S.faults swap.old swap.new
        (result ≡ Served.SwapFault) }
    ensures map { all_of store.new.swap ≡ all_of store.old.swap }
    ensures follows { Follows regions.old store.new regions.new }
    ensures stays { Stays need.now store.old store.new }
    ensures only { OnlyNeededComes need.now store.old store.new }
    ensures asks { AsksForNeeded store.old need.now (S.asked swap.old) (S.asked swap.new) }
    ensures locked { (k : ℕ) → 0 < (entry store.old k).attr.lock → IsSome (place_of store.new k) }

    ensures here { result ≡ Served.Here → ArePresent store.new need.now (length need.now) }
    ensures leave { result ≡ Served.Here → LeaveFor store.old store.new 0 }
    ensures never { result ≡ Served.NoRoom → ⊥ }
    ensures loads { result ≡ Served.SwapFull
        → (all_of store.old.swap < swap_load store.old)
        × (store.old.places.size < live_load store.old) }
    ensures idle { Idles (live_load store.old) store.old store.new swap.old swap.new }
{
    store.law();
    let pairs = need.pairs();
    for k in 0..pairs.len() {
        let (id, _) = pairs[k];
        match bring_one(id, need, store, regions, images, swap) {
            Served::Here => {}
            answer => {
                store.law();
                return answer;
            }
        }
    }
    store.law();
    Served::Here
}

// How many bytes the memory has.
fn memory_size(store: &Store) -> u64
    ensures { result ≡ store.now.places.size }
{
    store.law();
    store.memory().len() as u64
}

// Brings in a segment that is needed, with all others that are.
fn bring_one<S: SwapDevice>(
    id: SegId,
    need: &Need,
    store: &mut Store,
    regions: &mut Regions,
    images: &Images,
    swap: &mut S,
) -> Served
    requires live { IsSome (entry_of store.old id) }
    requires whole { (entry store.old id.key).attr.gone ≡ false }
    requires all { AreLive store.old need.now }
    requires among { needs need.now id.key ≡ true }
    requires fits { all_needed store.old need.now ≤ store.old.places.size }
    requires held { IsHeldWell store.old regions.old }
    requires settled { IsSettled store.old regions.old }
    requires pictures { HasAll (HasPicture images.now) store.old }
    requires backed { IsBacked store.old images.now (S.blocks swap.old) }

    ensures keeps { KeepsAll (S.told swap.new) (picture images.now)
        store.old (S.block swap.old) store.new (S.block swap.new) }
    ensures clean { AreClean store.new (picture images.now) }
    ensures device { KeepsDevice S.blocks S.told S.faults swap.old swap.new
        (result ≡ Served.SwapFault) }
    ensures map { all_of store.new.swap ≡ all_of store.old.swap }
    ensures follows { Follows regions.old store.new regions.new }
    ensures stays { Stays need.now store.old store.new }
    ensures only { OnlyNeededComes need.now store.old store.new }
    ensures piles { (k : ℕ) → k < length store.old.entries → place_of store.old k ≡ None
        → blocks_of store.new.swap k ≡ blocks_of store.old.swap k }
    ensures asks { place_of store.old id.key ≡ None
        → AsksFor (S.known swap.new) (blocks_of store.old.swap id.key) (S.asked swap.old) (S.asked swap.new) (result ≡ Served.Here) }
    ensures unasked { IsSome (place_of store.old id.key) → S.asked swap.new ≡ S.asked swap.old }

    ensures here { result ≡ Served.Here → IsSome (place_of store.new id.key) }
    ensures leave { result ≡ Served.Here → LeaveFor store.old store.new 0 }
    ensures never { result ≡ Served.NoRoom → ⊥ }
    ensures loads { result ≡ Served.SwapFull
        → (all_of store.old.swap < swap_load store.old)
        × (store.old.places.size < live_load store.old) }
    ensures idle { Idles (live_load store.old) store.old store.new swap.old swap.new }
{
    match bring(id, need.ids(), store, regions, images, swap) {
        Brought::Here => Served::Here,
        Brought::SwapFull => Served::SwapFull,
        Brought::SwapFault => Served::SwapFault,
        Brought::NoRoom => Served::NoRoom,
        Brought::Stale => Served::NoRoom,
    }
}
