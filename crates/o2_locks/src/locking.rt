// DosLockSeg.
ghost use Rattle.std.specs.Prelude.{◌≡◌, ℕ, ◌<◌, ◌/◌, IsTrue, None, Some, IfSome, IsSome, true, if◌then◌else◌, ◌⊎◌};
ghost use Rattle.o2_isa.specs.View.{is_local};
ghost use Rattle.o2_regions.specs.Maps.{held_at};
ghost use Rattle.o2_store.specs.Loads.{live_load, swap_load};
ghost use Rattle.o2_store.specs.Needs.{all_wanted, named_in};
ghost use Rattle.o2_store.specs.Pictures.{HasPicture};
ghost use Rattle.o2_store.specs.Shelf.{HasAll, entry, entry_of, place_of};
ghost use Rattle.o2_swapmap.specs.Piles.{all_of};
ghost use Rattle.o2_store.specs.Frames.{IsBacked, KeepsDevice};
ghost use Rattle.o2_changes.specs.Frames.{KeepsOrderFor};
ghost use Rattle.o2_segs.specs.Callers.{IsCaller};
ghost use Rattle.o2_changes.specs.Holding.{KeepsHolds};
ghost use Rattle.o2_changes.specs.Order.{IsInOrder};
ghost use Rattle.o2_stands.specs.Stands.{Matches};
ghost use Rattle.o2_segs.specs.Answers.{AnswersRoomed, changes_roomed, IsUnrefused};
ghost use Rattle.o2_segs.specs.Limits.{KeepsLimits};
ghost use Rattle.o2_segs.specs.Made.{IsStop};
ghost use Rattle.o2_stands.specs.Knows.{Others, known_in};
ghost use Rattle.o2_stands.specs.Moves.{moved};
ghost use Rattle.o2_stands.specs.Parts.{Parts};
ghost use Rattle.o2_world.specs.Changes.{with_all};
ghost use Rattle.o2_world.specs.Known.{Marks};
ghost use Rattle.o2_world.specs.Rulings.{locking, locking_with};
ghost use Rattle.o2_world.specs.World.{World};
ghost use Rattle.o2_locks.specs.Marked.{IsMarked};
ghost use Rattle.o2_store.specs.Idle.{IsIdle, NoneTaken};

use crate::unlocking::is_discardable;
use o2_changes::{bring_in, set_lock};
use o2_image::Images;
use o2_outer::SwapDevice;
use o2_place::SegId;
use o2_regions::{Regions, Roomed};
use o2_segs::{ACCESS_DENIED, done, held_under, is_discarded, refusal, stop_of};
use o2_store::Store;

/// ERROR_DISCARDED: the segment was discarded, and isn't made anew yet.
const DISCARDED: u16 = 157;

/// DosLockSeg(sel): a discardable segment that the caller holds is locked once more, at most 255 times. Where it isn't locked
/// yet, it comes into memory first, together with the segments of `keep` and those that are locked, and only then a stop may come.
/// 5 where no such segment is held, 157 where it was discarded. At a stop no segment, no hold and no lock has changed.
#[tactic(auto, using(o2_changes::proofs::KeepingHolds::holds_refl))]
pub fn lock_seg<S: SwapDevice>(
    store: &mut Store,
    regions: &mut Regions,
    pid: u16,
    sel: u16,
    keep: &[SegId],
    images: &Images,
    swap: &mut S,
) -> Roomed
    requires caller { IsCaller store.old regions.old pid }
    requires pictures { HasAll (HasPicture images.now) store.old }
    requires backed { IsBacked store.old images.now (S.blocks swap.old) }

    ensures answer { (p : Parts) (o : Others) → p.shelf ≡ store.old → p.maps ≡ regions.old
        → AnswersRoomed (locking (known_in p o) pid sel) result }
    ensures matches { (p : Parts) (o : Others) (w : World) → p.shelf ≡ store.old → p.maps ≡ regions.old
        → p.images ≡ images.now → p.block ≡ S.block swap.old → IsTrue (S.told swap.new) → Matches p w
        → Matches (moved p store.new regions.new (S.block swap.new))
        (with_all w (changes_roomed (locking (known_in p o) pid sel) result)) }
    ensures stops { IsStop result
        → IfSome (if is_local sel then held_at regions.old pid (sel / 8) else None) (λ h. (entry store.old h.id.key).attr.lock ≡ 0) }
    ensures holds { KeepsHolds regions.old regions.new }
    ensures limits { KeepsLimits store.old regions.old store.new regions.new 0 }
    ensures goes_on { KeepsOrderFor images.now store.old regions.old store.new regions.new }
    ensures device { KeepsDevice S.blocks S.told S.faults swap.old swap.new
        (result ≡ Roomed.SwapFault) }
    ensures kept { (k : ℕ) → named_in store.old.entries keep.now k ≡ true
        → IsSome (place_of store.old k) → IsSome (place_of store.new k) }
    ensures no_room { result ≡ Roomed.NoRoom → IfSome (if is_local sel then held_at regions.old pid (sel / 8) else None)
        (λ h. store.old.places.size < all_wanted store.old h.id.key keep.now) }
    // Room lacks exactly at a first lock that isn't refused, of a segment that is out of memory and doesn't fit.
    ensures absent { result ≡ Roomed.NoRoom → IfSome (if is_local sel then held_at regions.old pid (sel / 8) else None)
        (λ h. place_of store.old h.id.key ≡ None) }
    ensures always_no_room { IsUnrefused result → IfSome (if is_local sel then held_at regions.old pid (sel / 8) else None)
        (λ h. (entry store.old h.id.key).attr.lock ≡ 0 → place_of store.old h.id.key ≡ None
        → store.old.places.size < all_wanted store.old h.id.key keep.now → result ≡ Roomed.NoRoom) }
    ensures loads { result ≡ Roomed.SwapFull
        → (all_of store.old.swap < swap_load store.old)
        × (store.old.places.size < live_load store.old) }
    // Where nothing is in swap blocks, the device isn't touched, unless all that lives doesn't fit the memory.
    ensures idle { NoneTaken store.old.swap → IsIdle store.new swap.old swap.new
        ⊎ (IsUnrefused result × (store.old.places.size < live_load store.old)) }
{
    match held_under(regions, pid, sel) {
        Some(held) => lock(store, regions, held.id, keep, images, swap),
        None => Roomed::Done(refusal(ACCESS_DENIED)),
    }
}

// A live segment is locked once more, where it may be.
#[tactic(auto, using(o2_changes::proofs::KeepingHolds::holds_refl))]
fn lock<S: SwapDevice>(
    store: &mut Store,
    regions: &mut Regions,
    id: SegId,
    keep: &[SegId],
    images: &Images,
    swap: &mut S,
) -> Roomed
    requires live { IsSome (entry_of store.old id) }
    requires order { IsInOrder store.old regions.old }
    requires pictures { HasAll (HasPicture images.now) store.old }
    requires backed { IsBacked store.old images.now (S.blocks swap.old) }

    ensures answer { (m : Marks) → IsMarked (entry store.old id.key).attr m
        → AnswersRoomed (locking_with id.age (Some m)) result }
    ensures matches { (m : Marks) (p : Parts) (w : World) → IsMarked (entry store.old id.key).attr m → p.shelf ≡ store.old
        → p.maps ≡ regions.old → p.images ≡ images.now → p.block ≡ S.block swap.old → IsTrue (S.told swap.new)
        → Matches p w → Matches (moved p store.new regions.new (S.block swap.new))
        (with_all w (changes_roomed (locking_with id.age (Some m)) result)) }
    ensures stops { IsStop result → (entry store.old id.key).attr.lock ≡ 0 }
    ensures holds { KeepsHolds regions.old regions.new }
    ensures limits { KeepsLimits store.old regions.old store.new regions.new 0 }
    ensures goes_on { KeepsOrderFor images.now store.old regions.old store.new regions.new }
    ensures device { KeepsDevice S.blocks S.told S.faults swap.old swap.new
        (result ≡ Roomed.SwapFault) }
    ensures kept { (k : ℕ) → named_in store.old.entries keep.now k ≡ true
        → IsSome (place_of store.old k) → IsSome (place_of store.new k) }
    ensures no_room { result ≡ Roomed.NoRoom → store.old.places.size < all_wanted store.old id.key keep.now }
    ensures absent { result ≡ Roomed.NoRoom → place_of store.old id.key ≡ None }
    ensures always_no_room { IsUnrefused result → (entry store.old id.key).attr.lock ≡ 0 → place_of store.old id.key ≡ None
        → store.old.places.size < all_wanted store.old id.key keep.now → result ≡ Roomed.NoRoom }
    ensures loads { result ≡ Roomed.SwapFull
        → (all_of store.old.swap < swap_load store.old)
        × (store.old.places.size < live_load store.old) }
    ensures idle { NoneTaken store.old.swap → IsIdle store.new swap.old swap.new
        ⊎ (IsUnrefused result × (store.old.places.size < live_load store.old)) }
{
    store.law();
    match store.attr(id) {
        Some(attr) => {
            if !is_discardable(attr) {
                return Roomed::Done(refusal(ACCESS_DENIED));
            }
            if is_discarded(store, id) {
                return Roomed::Done(refusal(DISCARDED));
            }
            if 0 < attr.lock {
                set_lock(store, regions, id, attr.lock.saturating_add(1));
                return Roomed::Done(done(0));
            }
            match stop_of(bring_in(store, regions, id, keep, images, swap)) {
                Some(stop) => stop,
                None => {
                    set_lock(store, regions, id, attr.lock.saturating_add(1));
                    Roomed::Done(done(0))
                }
            }
        }
        None => Roomed::Done(refusal(ACCESS_DENIED)),
    }
}
