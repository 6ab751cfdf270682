// DosReallocSeg.
ghost use Rattle.std.specs.Prelude.{◌≡◌, ℕ, ◌<◌, ◌≤◌, ◌/◌, ◌==◌, ◌&&◌, ◌||◌, nat_lt, not, None, IfSome, IsSome, IsTrue, true, if◌then◌else◌, ◌⊎◌};
ghost use Rattle.o2_desc.specs.Bits.{has_bit};
ghost use Rattle.o2_isa.specs.View.{is_local};
ghost use Rattle.o2_regions.specs.Maps.{held_at};
ghost use Rattle.o2_store.specs.Loads.{live_load_at, swap_load};
ghost use Rattle.o2_store.specs.Needs.{named_in};
ghost use Rattle.o2_store.specs.Pictures.{HasPicture};
ghost use Rattle.o2_store.specs.Shelf.{HasAll, entry, entry_of, place_of};
ghost use Rattle.o2_store.specs.Sizes.{all_wanted_at};
ghost use Rattle.o2_swapmap.specs.Piles.{all_of};
ghost use Rattle.o2_store.specs.Frames.{IsBacked, KeepsDevice};
ghost use Rattle.o2_changes.specs.Frames.{KeepsOrderFor};
ghost use Rattle.o2_segs.specs.Callers.{IsCaller};
ghost use Rattle.o2_changes.specs.Holding.{KeepsHolds};
ghost use Rattle.o2_stands.specs.Stands.{Matches};
ghost use Rattle.o2_stands.specs.Knows.{Others, known_in};
ghost use Rattle.o2_stands.specs.Moves.{moved};
ghost use Rattle.o2_stands.specs.Parts.{Parts, cause_of};
ghost use Rattle.o2_world.specs.Changes.{with_all};
ghost use Rattle.o2_world.specs.Rulings.{full_size, is_alias, reallocation};
ghost use Rattle.o2_world.specs.World.{World};
ghost use Rattle.o2_segs.specs.Answers.{AnswersRoomed, changes_roomed, IsUnrefused};
ghost use Rattle.o2_segs.specs.Limits.{KeepsLimits};
ghost use Rattle.o2_segs.specs.Remade.{wants_room};
ghost use Rattle.o2_store.specs.Idle.{IsIdle, NoneTaken};

use crate::asking::{ACCESS_DENIED, done, held_under, refusal, stop_of};
use crate::remaking::{is_discarded, remake};
use o2_changes::resize;
use o2_image::Images;
use o2_outer::SwapDevice;
use o2_place::SegId;
use o2_regions::{Cause, Held, Regions, Roomed};
use o2_store::Store;

/// The size in bytes that a call is given as a word, where 0 is 65,536.
#[tactic(auto, using(crate::proofs::Resizing::full_zero, crate::proofs::Resizing::full_some))]
pub(crate) fn full_size(size: u16) -> u32
    ensures size { result ≡ full_size size }
    ensures some { 0 < result }
    ensures most { result ≤ 65536 }
{
    if size == 0 { 65536 } else { u32::from(size) }
}

// Whether a segment is held as an alias.
fn is_alias(cause: Cause) -> bool
    ensures { result ≡ is_alias (cause_of cause) }
{
    match cause {
        Cause::Loaded => false,
        Cause::Called => false,
        Cause::Alias => true,
    }
}

// Whether what is held is an alias, or in a run.
fn is_fixed(held: Held) -> bool
    ensures { result ≡ (is_alias (cause_of held.cause) || not (held.reserved == 0)) }
{
    is_alias(held.cause) || held.reserved != 0
}

// Whether a segment's flags say that it may be made smaller while it is shared.
fn is_sizeable(flags: u8) -> bool
    ensures { result ≡ has_bit flags 3 }
{
    flags / 8 % 2 == 1
}

// Whether a live segment may not get a size: it is clean, or it is shared and would shrink, which its flags don't allow.
fn keeps_its_size(store: &Store, id: SegId, size: u32) -> bool
    requires { IsSome (entry_of store.now id) }
    ensures { result ≡ ((entry store.now id.key).attr.clean || ((entry store.now id.key).attr.shared
        && (not (has_bit (entry store.now id.key).attr.flags 3) && nat_lt size (entry store.now id.key).size))) }
{
    match (store.attr(id), store.size(id)) {
        (Some(attr), Some(old)) => {
            attr.clean || (attr.shared && (!is_sizeable(attr.flags) && size < old))
        }
        _ => false,
    }
}

/// DosReallocSeg(size, sel): a segment that the caller holds gets another size, 0 for 65,536 bytes; grown bytes are zero. 5 where
/// it isn't held, is an alias, lies in a run, is clean, or is shared and would shrink without flag 8. One in memory that is locked or
/// in `keep` stays there. One that was discarded is made anew: it has zeros, comes into memory and is locked once. At a stop no
/// segment has changed.
#[tactic(auto, using(o2_changes::proofs::KeepingHolds::holds_refl))]
pub fn realloc_seg<S: SwapDevice>(
    store: &mut Store,
    regions: &mut Regions,
    pid: u16,
    size: u16,
    sel: u16,
    keep: &[SegId],
    images: &Images,
    swap: &mut S,
) -> Roomed
    requires caller { IsCaller store.old regions.old pid }
    requires pictures { HasAll (HasPicture images.now) store.old }
    requires backed { IsBacked store.old images.now (S.blocks swap.old) }

    ensures answer { (p : Parts) (o : Others) → p.shelf ≡ store.old → p.maps ≡ regions.old
        → AnswersRoomed (reallocation (known_in p o) pid size sel) result }
    ensures matches { (p : Parts) (o : Others) (w : World) → p.shelf ≡ store.old → p.maps ≡ regions.old
        → p.images ≡ images.now → p.block ≡ S.block swap.old → IsTrue (S.told swap.new) → Matches p w
        → Matches (moved p store.new regions.new (S.block swap.new))
        (with_all w (changes_roomed (reallocation (known_in p o) pid size sel) result)) }
    ensures holds { KeepsHolds regions.old regions.new }
    ensures limits { KeepsLimits store.old regions.old store.new regions.new 0 }
    ensures goes_on { KeepsOrderFor images.now store.old regions.old store.new regions.new }
    ensures device { KeepsDevice S.blocks S.told S.faults swap.old swap.new
        (result ≡ Roomed.SwapFault) }
    ensures kept { (k : ℕ) → named_in store.old.entries keep.now k ≡ true
        → IsSome (place_of store.old k) → IsSome (place_of store.new k) }

    ensures no_room { result ≡ Roomed.NoRoom → IfSome (if is_local sel then held_at regions.old pid (sel / 8) else None)
        (λ h. (wants_room store.old h.id.key keep.now ≡ true)
        × (store.old.places.size < all_wanted_at store.old h.id.key keep.now (full_size size))) }
    // Room lacks exactly where the size isn't refused, and one that is to be in memory behind the call doesn't fit with it.
    ensures always_no_room { IsUnrefused result → IfSome (if is_local sel then held_at regions.old pid (sel / 8) else None)
        (λ h. wants_room store.old h.id.key keep.now ≡ true
        → store.old.places.size < all_wanted_at store.old h.id.key keep.now (full_size size) → result ≡ Roomed.NoRoom) }
    ensures all_load { result ≡ Roomed.SwapFull → IfSome (if is_local sel then held_at regions.old pid (sel / 8) else None)
        (λ h. store.old.places.size < live_load_at store.old h.id.key (full_size size)) }
    ensures load { result ≡ Roomed.SwapFull → all_of store.old.swap < swap_load store.old }
    // Where nothing is in swap blocks, the device isn't touched, unless all that lives with the new size doesn't fit the memory.
    ensures idle { NoneTaken store.old.swap → IsIdle store.new swap.old swap.new
        ⊎ (IsUnrefused result × IfSome (if is_local sel then held_at regions.old pid (sel / 8) else None)
        (λ h. store.old.places.size < live_load_at store.old h.id.key (full_size size))) }
{
    match held_under(regions, pid, sel) {
        Some(held) => {
            if is_fixed(held) {
                return Roomed::Done(refusal(ACCESS_DENIED));
            }
            let bytes = full_size(size);
            if keeps_its_size(store, held.id, bytes) {
                return Roomed::Done(refusal(ACCESS_DENIED));
            }
            if is_discarded(store, held.id) {
                return remake(store, regions, held.id, bytes, keep, images, swap);
            }
            match stop_of(resize(store, regions, held.id, bytes, keep, images, swap)) {
                Some(stop) => stop,
                None => Roomed::Done(done(0)),
            }
        }
        None => Roomed::Done(refusal(ACCESS_DENIED)),
    }
}
