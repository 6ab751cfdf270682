// DosAllocSeg.
ghost use Rattle.std.specs.Prelude.{◌≡◌, ◌≢◌, ℕ, ◌-◌, ◌<◌, ◌^◌, ◌||◌, IsSome, IsTrue, Some, None, false, true, ◌⊎◌};
ghost use Rattle.o2_base.specs.Selectors.{selector_of};
ghost use Rattle.o2_desc.specs.Bits.{has_bit, writable_data};
ghost use Rattle.o2_desc.specs.Choice.{IsRun};
ghost use Rattle.o2_regions.specs.Maps.{IsProcess, end_of, first_of, is_taken, region_of};
ghost use Rattle.o2_service.specs.Told.{OnlyTables};
ghost use Rattle.o2_store.specs.Pictures.{HasPicture};
ghost use Rattle.o2_store.specs.Loads.{live_load, swap_load, swap_load_but};
ghost use Rattle.o2_store.specs.Needs.{all_wanted, named_in};
ghost use Rattle.o2_store.specs.Shelf.{HasAll, entry, entry_of, place_of};
ghost use Rattle.o2_swapmap.specs.Piles.{all_of};
ghost use Rattle.o2_store.specs.Frames.{IsBacked, KeepsDevice};
ghost use Rattle.o2_changes.specs.Frames.{KeepsOrder, KeepsOrderFor};
ghost use Rattle.o2_changes.specs.Holding.{IsUnheld, KeepsHolds};
ghost use Rattle.o2_changes.specs.Order.{IsInOrder};
ghost use Rattle.o2_changes.specs.Segments.{IsNewest};
ghost use Rattle.o2_changes.specs.Worlds.{MatchesHold};
ghost use Rattle.o2_stands.specs.Stands.{Matches};
ghost use Rattle.o2_stands.specs.Knows.{Others, known_in};
ghost use Rattle.o2_stands.specs.Moves.{moved};
ghost use Rattle.o2_stands.specs.Parts.{Parts};
ghost use Rattle.o2_world.specs.Changes.{with_all};
ghost use Rattle.o2_world.specs.Holders.{process_at};
ghost use Rattle.o2_world.specs.Map.{get};
ghost use Rattle.o2_world.specs.Rulings.{allocation, full_size};
ghost use Rattle.o2_world.specs.World.{Process, World};
ghost use Rattle.o2_segs.specs.Answers.{AnswersRoomed, IsUnrefused, changes_roomed};
ghost use Rattle.o2_segs.specs.Limits.{IsUndone, KeepsEntries, KeepsLimits, KeepsOthers, made_in};
ghost use Rattle.o2_segs.specs.Made.{AreWithNew, IsStop, IsWithNew, MatchesLocked, MatchesWithout, allocation_to, made_by_call, region_for, IsShortWithNew};
ghost use Rattle.o2_store.specs.Idle.{Idles, IsIdle, NoneTaken};

use crate::asking::{INVALID_PARAMETER, NOT_ENOUGH_MEMORY, done, refusal, stop_of};
use crate::reallocating::full_size;
use o2_base::Selector;
use o2_changes::{bring_in, hold_new, make, set_lock, unmake};
use o2_desc::Access;
use o2_image::Images;
use o2_outer::SwapDevice;
use o2_place::SegId;
use o2_regions::{Cause, Held, Region, Regions, Roomed};
use o2_store::Store;

/// All flags of an allocation.
const FLAGS: u16 = 15;

// Whether other processes may get a segment of these flags, by giving or by getting.
fn is_shared(flags: u8) -> bool
    ensures { result ≡ (has_bit flags 0 || has_bit flags 1) }
{
    flags % 2 == 1 || flags / 2 % 2 == 1
}

// Whether a new segment of these flags is locked.
fn is_locked(flags: u8) -> bool
    ensures { result ≡ has_bit flags 2 }
{
    flags / 4 % 2 == 1
}

// The region in which a new segment of these flags is held.
fn region_for(pid: u16, flags: u16) -> Region
    ensures { result ≡ region_for pid flags }
{
    if flags % 4 == 0 {
        Region::Private(pid)
    } else {
        Region::Shared
    }
}

/// DosAllocSeg(size, psel, flags): a new segment of zeros, 0 for 65,536 bytes, which the caller holds as data that can be
/// written; its value is the selector. With flag 1 or 2 it is shared and has a shared selector; with flag 4 it is locked once,
/// and so comes into memory, together with the segments of `keep` and those that are locked. 87 for other flags than 1, 2, 4
/// and 8; 8 where no index of the region is free, or no more segments may live. A stop leaves all as if no segment had been
/// made.
#[tactic(auto, using(o2_changes::proofs::KeepingHolds::holds_refl))]
pub fn alloc_seg<S: SwapDevice>(
    store: &mut Store,
    regions: &mut Regions,
    pid: u16,
    size: u16,
    flags: u16,
    keep: &[SegId],
    images: &Images,
    swap: &mut S,
) -> Roomed
    requires process { IsProcess regions.old pid }
    requires made { store.old.made < 2 ^ 64 - 1 }
    requires order { IsInOrder store.old regions.old }
    requires pictures { HasAll (HasPicture images.now) store.old }
    requires backed { IsBacked store.old images.now (S.blocks swap.old) }

    ensures answer { (p : Parts) (o : Others) → p.shelf ≡ store.old → p.maps ≡ regions.old
        → AnswersRoomed (allocation (known_in p o) pid size flags) result }
    ensures matches { (p : Parts) (o : Others) (w : World) (x : Process) → p.shelf ≡ store.old → p.maps ≡ regions.old
        → p.images ≡ images.now → p.block ≡ S.block swap.old → IsTrue (S.told swap.new)
        → process_at w.processes pid ≡ Some x → get w.names w.next_name ≡ None → Matches p w
        → Matches (moved p store.new regions.new (S.block swap.new))
        (with_all w (changes_roomed (allocation (known_in p o) pid size flags) result)) }
    ensures stops { IsStop result → has_bit flags 2 ≡ true }
    ensures holds { KeepsHolds regions.old regions.new }
    ensures limits { KeepsLimits store.old regions.old store.new regions.new (made_in result) }
    ensures entries { KeepsEntries store.old store.new }
    ensures goes_on { KeepsOrderFor images.now store.old regions.old store.new regions.new }
    ensures device { KeepsDevice S.blocks S.told S.faults swap.old swap.new
        (result ≡ Roomed.SwapFault) }
    ensures kept { (k : ℕ) → named_in store.old.entries keep.now k ≡ true
        → IsSome (place_of store.old k) → IsSome (place_of store.new k) }

    ensures no_room { result ≡ Roomed.NoRoom → IsWithNew store.old (full_size size) flags
        (λ t id. t.places.size < all_wanted t id.key keep.now) }
    // Room lacks exactly where a segment that isn't refused is to be locked and doesn't fit.
    ensures always_no_room { IsUnrefused result → has_bit flags 2 ≡ true → AreWithNew store.old (full_size size) flags
        (λ t id. t.places.size < all_wanted t id.key keep.now) → result ≡ Roomed.NoRoom }
    ensures loads { result ≡ Roomed.SwapFull → (all_of store.old.swap < swap_load store.old)
        × IsWithNew store.old (full_size size) flags (λ t id. t.places.size < live_load t) }
    // Where nothing is in swap blocks, the device isn't touched, unless the segment is to be locked and all that lives with it
    // doesn't fit the memory.
    ensures idle { NoneTaken store.old.swap → IsIdle store.new swap.old swap.new
        ⊎ IsShortWithNew store.old (full_size size) flags result }
{
    if FLAGS < flags {
        return Roomed::Done(refusal(INVALID_PARAMETER));
    }
    match regions.lowest(region_for(pid, flags), 1) {
        Some(index) => allocate(
            store,
            regions,
            pid,
            index,
            size,
            flags as u8,
            keep,
            images,
            swap,
        ),
        None => Roomed::Done(refusal(NOT_ENOUGH_MEMORY)),
    }
}

// A new segment is held at an index that is free.
#[tactic(auto, using(o2_changes::proofs::KeepingHolds::holds_refl))]
fn allocate<S: SwapDevice>(
    store: &mut Store,
    regions: &mut Regions,
    pid: u16,
    index: u16,
    size: u16,
    flags: u8,
    keep: &[SegId],
    images: &Images,
    swap: &mut S,
) -> Roomed
    requires process { IsProcess regions.old pid }
    requires free { IsRun (is_taken regions.old (region_of pid index)) (first_of (region_of pid index)) (end_of (region_of pid index)) 1 index }
    requires made { store.old.made < 2 ^ 64 - 1 }
    requires order { IsInOrder store.old regions.old }
    requires pictures { HasAll (HasPicture images.now) store.old }
    requires backed { IsBacked store.old images.now (S.blocks swap.old) }

    ensures answer { (p : Parts) (o : Others) → p.shelf ≡ store.old
        → AnswersRoomed (allocation_to (known_in p o) pid size flags (Some index)) result }
    ensures matches { (p : Parts) (o : Others) (w : World) (x : Process) → p.shelf ≡ store.old → p.maps ≡ regions.old
        → p.images ≡ images.now → p.block ≡ S.block swap.old → IsTrue (S.told swap.new)
        → process_at w.processes pid ≡ Some x → get w.names w.next_name ≡ None → Matches p w
        → Matches (moved p store.new regions.new (S.block swap.new))
        (with_all w (changes_roomed (allocation_to (known_in p o) pid size flags (Some index)) result)) }
    ensures stops { IsStop result → has_bit flags 2 ≡ true }
    ensures holds { KeepsHolds regions.old regions.new }
    ensures limits { KeepsLimits store.old regions.old store.new regions.new (made_in result) }
    ensures entries { KeepsEntries store.old store.new }
    ensures goes_on { KeepsOrderFor images.now store.old regions.old store.new regions.new }
    ensures device { KeepsDevice S.blocks S.told S.faults swap.old swap.new
        (result ≡ Roomed.SwapFault) }
    ensures kept { (k : ℕ) → named_in store.old.entries keep.now k ≡ true
        → IsSome (place_of store.old k) → IsSome (place_of store.new k) }

    ensures no_room { result ≡ Roomed.NoRoom → IsWithNew store.old (full_size size) flags
        (λ t id. t.places.size < all_wanted t id.key keep.now) }
    ensures always_no_room { IsUnrefused result → has_bit flags 2 ≡ true → AreWithNew store.old (full_size size) flags
        (λ t id. t.places.size < all_wanted t id.key keep.now) → result ≡ Roomed.NoRoom }
    ensures loads { result ≡ Roomed.SwapFull → (all_of store.old.swap < swap_load store.old)
        × IsWithNew store.old (full_size size) flags (λ t id. t.places.size < live_load t) }
    ensures idle { NoneTaken store.old.swap → IsIdle store.new swap.old swap.new
        ⊎ IsShortWithNew store.old (full_size size) flags result }
{
    store.law();
    match make(store, regions, full_size(size), flags, is_shared(flags)) {
        Some(id) => {
            if !is_locked(flags) {
                return hold_made(store, regions, pid, index, id);
            }
            match lock_new(store, regions, id, keep, images, swap) {
                Some(stop) => stop,
                None => hold_made(store, regions, pid, index, id),
            }
        }
        None => Roomed::Done(refusal(NOT_ENOUGH_MEMORY)),
    }
}

// A new segment that nobody holds yet comes into memory and is locked once; where it can't come, it goes.
fn lock_new<S: SwapDevice>(
    store: &mut Store,
    regions: &mut Regions,
    id: SegId,
    keep: &[SegId],
    images: &Images,
    swap: &mut S,
) -> Option<Roomed>
    requires live { IsSome (entry_of store.old id) }
    requires unheld { IsUnheld regions.old id }
    requires newest { IsNewest store.old id }
    requires bare { ((entry store.old id.key).image ≡ None) × ((entry store.old id.key).kept ≡ 0) }
    requires whole { (entry store.old id.key).attr.gone ≡ false }
    requires order { IsInOrder store.old regions.old }
    requires pictures { HasAll (HasPicture images.now) store.old }
    requires backed { IsBacked store.old images.now (S.blocks swap.old) }

    ensures locked { result ≡ None → MatchesLocked store.old store.new regions.old regions.new images.now
        (S.told swap.new) (S.block swap.old) (S.block swap.new) id }
    ensures without { (r : Roomed) → result ≡ Some r → IsStop r × MatchesWithout store.old store.new regions.old regions.new images.now
        (S.told swap.new) (S.block swap.old) (S.block swap.new) id }
    ensures live { result ≡ None → IsSome (entry_of store.new id) }
    ensures plain { result ≡ None → (entry store.new id.key).attr.clean ≡ (entry store.old id.key).attr.clean }
    ensures maps { OnlyTables regions.old regions.new }
    ensures limits { result ≡ None → KeepsLimits store.old regions.old store.new regions.new 0 }
    ensures undone { IsSome result → IsUndone store.old regions.old store.new regions.new }
    ensures entries { KeepsOthers store.old store.new id.key }
    ensures goes_on { KeepsOrderFor images.now store.old regions.old store.new regions.new }
    ensures device { KeepsDevice S.blocks S.told S.faults swap.old swap.new
        (result ≡ Some Roomed.SwapFault) }
    ensures kept { (k : ℕ) → k ≢ id.key → named_in store.old.entries keep.now k ≡ true
        → IsSome (place_of store.old k) → IsSome (place_of store.new k) }

    ensures no_room { (r : Roomed) → result ≡ Some r → r ≡ Roomed.NoRoom
        → store.old.places.size < all_wanted store.old id.key keep.now }
    ensures always_no_room { place_of store.old id.key ≡ None
        → store.old.places.size < all_wanted store.old id.key keep.now → result ≡ Some Roomed.NoRoom }
    ensures loads { (r : Roomed) → result ≡ Some r → r ≡ Roomed.SwapFull
        → (all_of store.old.swap < swap_load_but store.old id.key)
        × (store.old.places.size < live_load store.old) }
    ensures idle { Idles (live_load store.old) store.old store.new swap.old swap.new }
{
    match stop_of(bring_in(store, regions, id, keep, images, swap)) {
        Some(stop) => {
            store.law();
            unmake(store, regions, id);
            store.law();
            Some(stop)
        }
        None => {
            set_lock(store, regions, id, 1);
            None
        }
    }
}

// A live segment is held as data that can be written at an index that is free.
fn hold_made(store: &Store, regions: &mut Regions, pid: u16, index: u16, id: SegId) -> Roomed
    requires process { IsProcess regions.old pid }
    requires free { IsRun (is_taken regions.old (region_of pid index)) (first_of (region_of pid index)) (end_of (region_of pid index)) 1 index }
    requires live { IsSome (entry_of store.now id) }
    requires plain { (entry store.now id.key).attr.clean ≡ false }
    requires unheld { IsUnheld regions.old id }
    requires order { IsInOrder store.now regions.old }

    ensures answer { result ≡ Roomed.Done (record { error = 0; value = selector_of index }) }
    ensures holds { KeepsHolds regions.old regions.new }
    ensures limits { KeepsLimits store.now regions.old store.now regions.new 0 }
    ensures goes_on { KeepsOrder store.now regions.old store.now regions.new }
    ensures matches { MatchesHold store.now regions.old regions.new pid index (made_by_call id) writable_data }
{
    let held = Held {
        id,
        holds: 1,
        cause: Cause::Called,
        first: 0,
        reserved: 0,
    };
    regions.law();
    hold_new(store, regions, pid, index, held, Access::WRITABLE_DATA.0);
    Roomed::Done(done(u32::from(Selector::local(u32::from(index)).0)))
}
