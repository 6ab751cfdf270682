// Segments are made, locked, sized and brought into memory, and descriptors say where they are.
ghost use Rattle.std.specs.Prelude.{◌≡◌, ℕ, Bool, List, ◌-◌, ◌<◌, ◌≤◌, ◌^◌, length, IsSome, IfSome, None, true, false};
ghost use Rattle.std.specs.Option.{IfNone};
ghost use Rattle.o2_entries.specs.Tables.{live_numbers};
ghost use Rattle.o2_service.specs.Told.{OnlyTables};
ghost use Rattle.o2_store.specs.Leaving.{IsStuck};
ghost use Rattle.o2_store.specs.Loads.{live_load, live_load_at, swap_load};
ghost use Rattle.o2_store.specs.Needs.{all_wanted, named_in};
ghost use Rattle.o2_store.specs.Pictures.{picture, HasPicture};
ghost use Rattle.o2_store.specs.Shelf.{Adds, Discards, HasAll, IsDiscardable, KeepsAll, Pictures, Removes, byte_at, entry, entry_of, place_of};
ghost use Rattle.o2_store.specs.Sizes.{Resizes, all_wanted_at, stays};
ghost use Rattle.o2_swapmap.specs.Piles.{all_of};
ghost use Rattle.o2_store.specs.Frames.{IsBacked, KeepsDevice};
ghost use Rattle.o2_changes.specs.Frames.{KeepsOrder, KeepsOrderFor};
ghost use Rattle.o2_changes.specs.Holding.{IsUnheld};
ghost use Rattle.o2_changes.specs.Order.{IsInOrder};
ghost use Rattle.o2_changes.specs.Segments.{IsNewest, Revives, SetsLock};
ghost use Rattle.o2_changes.specs.Worlds.{MatchesLock, MatchesMake, MatchesMark, MatchesMove, MatchesOutSize, MatchesSize, MatchesUnmake, new_segment};
ghost use Rattle.o2_store.specs.Idle.{Idles};

use o2_image::Images;
use o2_outer::SwapDevice;
use o2_place::SegId;
use o2_regions::Regions;
use o2_service::{bring, settle, settle_moved};
use o2_store::{Attr, Brought, Store};

/// A new segment of zeros, out of memory, of 1 to 65,536 bytes, with the flags of the call that makes it. It isn't locked, and
/// nobody holds it yet. None exactly where no more may live.
pub fn make(
    store: &mut Store,
    regions: &Regions,
    size: u32,
    flags: u8,
    shared: bool,
) -> Option<SegId>
    requires size { (0 < size) × (size ≤ 65536) }
    requires made { store.old.made < 2 ^ 64 - 1 }
    requires order { IsInOrder store.old regions.now }

    ensures none { IfNone result ((length (live_numbers 0 store.old.entries) ≡ length store.old.entries) × (store.new ≡ store.old)) }
    ensures added { IfSome result (λ id. Adds store.old store.new id (record { age = store.old.made; size = size; kept = 0; image = None; attr = record { flags = flags; lock = 0; clean = false; shared = shared; gone = false } })) }
    ensures zeros { IfSome result (λ id. (pic : Pictures) (block : ℕ → List ℕ) (j : ℕ)
        → byte_at store.new pic block id.key j ≡ 0) }
    ensures goes_on { KeepsOrder store.old regions.now store.new regions.now }
    ensures unheld { IfSome result (λ id. IsUnheld regions.now id) }
    ensures live { IfSome result (λ id. IsSome (entry_of store.new id)) }
    ensures newest { IfSome result (λ id. IsNewest store.new id) }
    ensures matches { IfSome result (λ id. MatchesMake store.old store.new regions.now (new_segment size flags shared)) }
{
    store.law();
    store.add_zero(
        size,
        Attr {
            flags,
            lock: 0,
            clean: false,
            shared,
            gone: false,
        },
    )
}

/// Removes the segment that was made last and that nobody holds, with its range and its blocks, as if it had never been made: the
/// next one has its age.
pub fn unmake(store: &mut Store, regions: &Regions, id: SegId)
    requires live { IsSome (entry_of store.old id) }
    requires unheld { IsUnheld regions.now id }
    requires newest { IsNewest store.old id }
    requires order { IsInOrder store.old regions.now }

    ensures removed { Removes store.old (record store.new { made = store.old.made }) id.key }
    ensures made { store.new.made ≡ id.age }
    ensures goes_on { KeepsOrder store.old regions.now store.new regions.now }
    ensures matches { MatchesUnmake store.old store.new regions.now id }
{
    store.law();
    store.remove(id);
    store.unmake();
}

/// Sets how often a live segment is locked that isn't discarded. One that gets a lock is in memory.
pub fn set_lock(store: &mut Store, regions: &Regions, id: SegId, lock: u8)
    requires live { IsSome (entry_of store.old id) }
    requires present { 0 < lock → IsSome (place_of store.old id.key) }
    requires whole { (entry store.old id.key).attr.gone ≡ false }
    requires order { IsInOrder store.old regions.now }

    ensures sets { SetsLock store.old store.new id lock }
    ensures goes_on { KeepsOrder store.old regions.now store.new regions.now }
    ensures matches { MatchesLock store.old store.new regions.now id lock }
{
    if let Some(attr) = store.attr(id) {
        store.set_attr(id, Attr { lock, ..attr });
    }
}

/// Discards a live segment that may be, and says so in the descriptors of those who hold it: it leaves the memory, and its bytes are
/// zeros that are kept nowhere. Its size and its other attributes stay, and no other segment changes or moves. The work is that of
/// going over its holders.
pub fn discard(store: &mut Store, regions: &mut Regions, id: SegId)
    requires live { IsSome (entry_of store.old id) }
    requires kind { IsDiscardable (entry store.old id.key).attr }
    requires order { IsInOrder store.old regions.old }

    ensures discards { Discards store.old store.new id.key }
    ensures maps { OnlyTables regions.old regions.new }
    ensures goes_on { KeepsOrder store.old regions.old store.new regions.new }
    ensures matches { MatchesMark store.old store.new regions.old regions.new id true }
{
    store.law();
    store.discard(id);
    settle_moved(store, regions, id);
}

/// Makes a live segment anew that was discarded: it is so no more, and has zeros. It stays out of memory, and all else stays.
pub fn revive(store: &mut Store, regions: &Regions, id: SegId)
    requires live { IsSome (entry_of store.old id) }
    requires order { IsInOrder store.old regions.now }

    ensures revives { Revives store.old store.new id }
    ensures goes_on { KeepsOrder store.old regions.now store.new regions.now }
    ensures matches { MatchesMark store.old store.new regions.now regions.now id false }
{
    store.law();
    if let Some(attr) = store.attr(id) {
        let anew = Attr {
            gone: false,
            ..attr
        };
        store.set_attr(id, anew);
    }
}

/// Gives a live segment that is out of memory another size of 1 to 65,536 bytes, and says so in the descriptors of those who hold it.
/// Its bytes below both sizes stay, grown ones are zero, and it stays out of memory. No device is asked. The work is that of going
/// over its holders.
pub fn resize_out(store: &mut Store, regions: &mut Regions, id: SegId, size: u32)
    requires live { IsSome (entry_of store.old id) }
    requires out { place_of store.old id.key ≡ None }
    requires sizes { (0 < size) × (size ≤ 65536) }
    requires order { IsInOrder store.old regions.old }

    ensures resizes { (told : Bool) (pic : Pictures) (block : ℕ → List ℕ) → Resizes told pic store.old block store.new block id.key size }
    ensures places { store.new.places ≡ store.old.places }
    ensures kept { (entry store.new id.key).kept ≤ (entry store.old id.key).kept }
    ensures maps { OnlyTables regions.old regions.new }
    ensures goes_on { KeepsOrder store.old regions.old store.new regions.new }
    ensures matches { MatchesOutSize store.old store.new regions.old regions.new id size }
{
    store.law();
    store.resize_out(id, size);
    settle_moved(store, regions, id);
}

/// Brings a live segment that isn't discarded into memory together with those of `keep` and the locked ones, and says in all descriptors where
/// segments are. Whatever the answer, each segment keeps its bytes, its size and its attributes, and those of `keep` that are
/// in memory stay there.
pub fn bring_in<S: SwapDevice>(
    store: &mut Store,
    regions: &mut Regions,
    id: SegId,
    keep: &[SegId],
    images: &Images,
    swap: &mut S,
) -> Brought
    requires live { IsSome (entry_of store.old id) }
    requires whole { (entry store.old id.key).attr.gone ≡ false }
    requires order { IsInOrder store.old regions.old }
    requires pictures { HasAll (HasPicture images.now) store.old }
    requires backed { IsBacked store.old images.now (S.blocks swap.old) }

    ensures keeps { KeepsAll (S.told swap.new) (picture images.now)
        store.old (S.block swap.old) store.new (S.block swap.new) }
    ensures device { KeepsDevice S.blocks S.told S.faults swap.old swap.new
        (result ≡ Brought.SwapFault) }
    ensures maps { OnlyTables regions.old regions.new }
    ensures goes_on { KeepsOrderFor images.now store.old regions.old store.new regions.new }
    ensures matches { MatchesMove store.old store.new regions.old regions.new images.now
        (S.told swap.new) (S.block swap.old) (S.block swap.new) }
    ensures kept { (k : ℕ) → named_in store.old.entries keep.now k ≡ true
        → IsSome (place_of store.old k) → IsSome (place_of store.new k) }

    ensures here { result ≡ Brought.Here → IsSome (place_of store.new id.key) }
    ensures out { (result ≡ Brought.Here → ⊥) → place_of store.old id.key ≡ None
        → place_of store.new id.key ≡ None }
    ensures no_room { result ≡ Brought.NoRoom
        → store.old.places.size < all_wanted store.old id.key keep.now }
    ensures absent { result ≡ Brought.NoRoom → place_of store.old id.key ≡ None }
    ensures always_no_room { place_of store.old id.key ≡ None
        → store.old.places.size < all_wanted store.old id.key keep.now → result ≡ Brought.NoRoom }
    ensures loads { result ≡ Brought.SwapFull
        → (all_of store.old.swap < swap_load store.old)
        × (store.old.places.size < live_load store.old) }
    ensures stuck { result ≡ Brought.SwapFull → IsStuck store.old store.new id.key }
    ensures never { result ≡ Brought.Stale → ⊥ }
    // Where nothing is in swap blocks and all that lives fits the memory, the device isn't touched.
    ensures idle { Idles (live_load store.old) store.old store.new swap.old swap.new }
{
    bring(id, keep, store, regions, images, swap)
}

/// Gives a live segment another size of 1 to 65,536 bytes, and says in all descriptors where segments are. Its bytes below both
/// sizes stay, and grown ones are zero. Where the answer isn't `Here`, all segments stay as they are.
pub fn resize<S: SwapDevice>(
    store: &mut Store,
    regions: &mut Regions,
    id: SegId,
    size: u32,
    keep: &[SegId],
    images: &Images,
    swap: &mut S,
) -> Brought
    requires live { IsSome (entry_of store.old id) }
    requires sizes { (0 < size) × (size ≤ 65536) }
    requires order { IsInOrder store.old regions.old }
    requires backed { IsBacked store.old images.now (S.blocks swap.old) }

    ensures resized { result ≡ Brought.Here → Resizes (S.told swap.new) (picture images.now)
        store.old (S.block swap.old) store.new (S.block swap.new) id.key size }
    ensures keeps { (result ≡ Brought.Here → ⊥) → KeepsAll (S.told swap.new) (picture images.now)
        store.old (S.block swap.old) store.new (S.block swap.new) }
    ensures device { KeepsDevice S.blocks S.told S.faults swap.old swap.new
        (result ≡ Brought.SwapFault) }
    ensures maps { OnlyTables regions.old regions.new }
    ensures goes_on { KeepsOrderFor images.now store.old regions.old store.new regions.new }
    ensures matches { result ≡ Brought.Here → MatchesSize store.old store.new regions.old regions.new images.now
        (S.told swap.new) (S.block swap.old) (S.block swap.new) id size }
    ensures stays { (result ≡ Brought.Here → ⊥) → MatchesMove store.old store.new regions.old regions.new images.now
        (S.told swap.new) (S.block swap.old) (S.block swap.new) }
    ensures kept { (k : ℕ) → named_in store.old.entries keep.now k ≡ true
        → IsSome (place_of store.old k) → IsSome (place_of store.new k) }

    ensures outside { place_of store.old id.key ≡ None → result ≡ Brought.Here }
    ensures no_room { result ≡ Brought.NoRoom → IsSome (place_of store.old id.key)
        × (stays store.old id.key keep.now ≡ true)
        × (store.old.places.size < all_wanted_at store.old id.key keep.now size) }
    ensures always_no_room { IsSome (place_of store.old id.key) → stays store.old id.key keep.now ≡ true
        → store.old.places.size < all_wanted_at store.old id.key keep.now size → result ≡ Brought.NoRoom }
    ensures loads { result ≡ Brought.SwapFull → (all_of store.old.swap < swap_load store.old)
        × (store.old.places.size < live_load_at store.old id.key size) }
    ensures never { result ≡ Brought.Stale → ⊥ }
    // Where nothing is in swap blocks and all that lives, with the new size, fits the memory, the device isn't touched.
    ensures idle { Idles (live_load_at store.old id.key size) store.old store.new swap.old swap.new }
{
    store.law();
    let answer = store.resize(id, size, keep, images, swap);
    settle(store, regions);
    answer
}
