// A discarded segment is made anew.
ghost use Rattle.std.specs.Prelude.{◌≡◌, ◌≢◌, ℕ, List, ◌<◌, ◌≤◌, None, IsSome, IsTrue, true};
ghost use Rattle.o2_changes.specs.Frames.{KeepsOrder, KeepsOrderFor};
ghost use Rattle.o2_changes.specs.Order.{IsInOrder};
ghost use Rattle.o2_segs.specs.Answers.{AnswersRoomed, changes_roomed};
ghost use Rattle.o2_segs.specs.Limits.{KeepsLimits};
ghost use Rattle.o2_segs.specs.Remade.{IsRemade, MatchesBegun, MatchesUndone};
ghost use Rattle.o2_service.specs.Told.{OnlyTables};
ghost use Rattle.o2_stands.specs.Moves.{moved};
ghost use Rattle.o2_stands.specs.Parts.{Parts};
ghost use Rattle.o2_stands.specs.Stands.{Matches};
ghost use Rattle.o2_store.specs.Frames.{IsBacked, KeepsDevice};
ghost use Rattle.o2_store.specs.Idle.{Idles};
ghost use Rattle.o2_store.specs.Loads.{live_load_at, swap_load};
ghost use Rattle.o2_store.specs.Needs.{named_in};
ghost use Rattle.o2_store.specs.Pictures.{HasPicture};
ghost use Rattle.o2_store.specs.Shelf.{HasAll, IsDiscardable, entry, entry_of, place_of};
ghost use Rattle.o2_store.specs.Sizes.{all_wanted_at};
ghost use Rattle.o2_swapmap.specs.Piles.{all_of};
ghost use Rattle.o2_world.specs.Changes.{Change, with_all};
ghost use Rattle.o2_world.specs.Rulings.{grants, resizes_with};
ghost use Rattle.o2_world.specs.World.{World};

use crate::asking::{done, stop_of};
use o2_changes::{bring_in, discard, resize_out, revive, set_lock};
use o2_image::Images;
use o2_outer::SwapDevice;
use o2_place::SegId;
use o2_regions::{Regions, Roomed};
use o2_store::Store;

/// Whether a live segment is discarded.
pub fn is_discarded(store: &Store, id: SegId) -> bool
    requires { IsSome (entry_of store.now id) }
    ensures { result ≡ (entry store.now id.key).attr.gone }
{
    match store.attr(id) {
        Some(attr) => attr.gone,
        None => false,
    }
}

// A live segment's size.
fn size_of(store: &Store, id: SegId) -> u32
    requires { IsSome (entry_of store.now id) }
    ensures size { result ≡ (entry store.now id.key).size }
    ensures sizes { (0 < result) × (result ≤ 65536) }
{
    store.law();
    match store.size(id) {
        Some(size) => size,
        None => 1,
    }
}

// A discarded segment is so no more, and has zeros of a size. It stays out of memory.
fn begin(store: &mut Store, regions: &mut Regions, id: SegId, size: u32)
    requires live { IsSome (entry_of store.old id) }
    requires gone { (entry store.old id.key).attr.gone ≡ true }
    requires sizes { (0 < size) × (size ≤ 65536) }
    requires order { IsInOrder store.old regions.old }

    ensures remade { IsRemade store.old store.new id.key size }
    ensures live { IsSome (entry_of store.new id) }
    ensures out { place_of store.new id.key ≡ None }
    ensures maps { OnlyTables regions.old regions.new }
    ensures goes_on { KeepsOrder store.old regions.old store.new regions.new }
    ensures limits { KeepsLimits store.old regions.old store.new regions.new 0 }
    ensures matches { MatchesBegun store.old store.new regions.old regions.new id size }
{
    store.law();
    revive(store, regions, id);
    resize_out(store, regions, id, size);
}

// A segment out of memory that may be discarded is so, at a size.
fn undo(store: &mut Store, regions: &mut Regions, id: SegId, size: u32)
    requires live { IsSome (entry_of store.old id) }
    requires out { place_of store.old id.key ≡ None }
    requires kind { IsDiscardable (entry store.old id.key).attr }
    requires sizes { (0 < size) × (size ≤ 65536) }
    requires order { IsInOrder store.old regions.old }

    ensures places { (k : ℕ) → k ≢ id.key → place_of store.new k ≡ place_of store.old k }
    ensures maps { OnlyTables regions.old regions.new }
    ensures goes_on { KeepsOrder store.old regions.old store.new regions.new }
    ensures limits { KeepsLimits store.old regions.old store.new regions.new 0 }
    ensures matches { MatchesUndone store.old store.new regions.old regions.new id size }
{
    resize_out(store, regions, id, size);
    store.law();
    discard(store, regions, id);
    store.law();
}

/// A discarded segment is made anew at a size: it is discarded no more, has zeros, comes into memory together with those of `keep`
/// and the locked ones, and is locked once. At a stop it is discarded as before, with its old size.
pub(crate) fn remake<S: SwapDevice>(
    store: &mut Store,
    regions: &mut Regions,
    id: SegId,
    size: u32,
    keep: &[SegId],
    images: &Images,
    swap: &mut S,
) -> Roomed
    requires live { IsSome (entry_of store.old id) }
    requires gone { (entry store.old id.key).attr.gone ≡ true }
    requires sizes { (0 < size) × (size ≤ 65536) }
    requires order { IsInOrder store.old regions.old }
    requires pictures { HasAll (HasPicture images.now) store.old }
    requires backed { IsBacked store.old images.now (S.blocks swap.old) }

    ensures answer { (cs : List Change) → AnswersRoomed (grants 0 cs) result }
    ensures matches { (p : Parts) (w : World) → p.shelf ≡ store.old → p.maps ≡ regions.old
        → p.images ≡ images.now → p.block ≡ S.block swap.old → IsTrue (S.told swap.new) → Matches p w
        → Matches (moved p store.new regions.new (S.block swap.new))
        (with_all w (changes_roomed (grants 0 (resizes_with id.age size true)) result)) }
    ensures maps { OnlyTables regions.old regions.new }
    ensures limits { KeepsLimits store.old regions.old store.new regions.new 0 }
    ensures goes_on { KeepsOrderFor images.now store.old regions.old store.new regions.new }
    ensures device { KeepsDevice S.blocks S.told S.faults swap.old swap.new
        (result ≡ Roomed.SwapFault) }
    ensures kept { (k : ℕ) → named_in store.old.entries keep.now k ≡ true
        → IsSome (place_of store.old k) → IsSome (place_of store.new k) }

    ensures no_room { result ≡ Roomed.NoRoom
        → store.old.places.size < all_wanted_at store.old id.key keep.now size }
    ensures always_no_room { store.old.places.size < all_wanted_at store.old id.key keep.now size
        → result ≡ Roomed.NoRoom }
    ensures loads { result ≡ Roomed.SwapFull → (all_of store.old.swap < swap_load store.old)
        × (store.old.places.size < live_load_at store.old id.key size) }
    ensures idle { Idles (live_load_at store.old id.key size) store.old store.new swap.old swap.new }
{
    store.law();
    let old = size_of(store, id);
    begin(store, regions, id, size);
    match stop_of(bring_in(store, regions, id, keep, images, swap)) {
        Some(stop) => {
            store.law();
            undo(store, regions, id, old);
            stop
        }
        None => {
            set_lock(store, regions, id, 1);
            Roomed::Done(done(0))
        }
    }
}
