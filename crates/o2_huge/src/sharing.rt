// New members of a run for all processes that hold it.
ghost use Rattle.std.specs.Prelude.{◌⊎◌, ◌≡◌, ◌≢◌, ℕ, ◌+◌, ◌<◌, ◌≤◌, ◌∷◌, [], false, true, flat_map, replicate, None};
ghost use Rattle.o2_desc.specs.Bits.{has_bit};
ghost use Rattle.o2_regions.specs.Maps.{IsProcess, held_at, is_reserved, region_of};
ghost use Rattle.o2_world.specs.HugeRulings.{all_hold, new_members, segments_of, sizes_of};
ghost use Rattle.o2_world.specs.Rulings.{indexes};
ghost use Rattle.o2_huge.specs.Growth.{AreVacant, IsVacant, is_of_run, share_by, shares_in};
ghost use Rattle.o2_segs.specs.Sharing.{KeepsShares};
ghost use Rattle.o2_huge.specs.Members.{Brings, Grows, MatchesWith, MayMake, MayShare};

use crate::members::{Run, add_member};
use o2_changes::hold_more;
use o2_desc::Access;
use o2_place::SegId;
use o2_regions::{Cause, Held, Regions};
use o2_store::Store;

/// The first index that all processes share.
pub(crate) const SHARED: u16 = 4096;

/// Whether what is held is in the run from an index on.
pub fn is_of_run(first: u16, held: Held) -> bool
    ensures { result ≡ is_of_run first held }
{
    held.reserved != 0 && held.first == first
}

// Another process that holds a run holds a new member, too, as often as its first one.
fn share_with(
    store: &Store,
    regions: &mut Regions,
    pid: u16,
    other: u16,
    run: Run,
    index: u16,
    id: SegId,
)
    requires may_share { MayShare store.now regions.old index id }
    requires process { IsProcess regions.old other }
    requires first { run.first < 8192 }
    requires reserved { is_reserved regions.old (region_of other index) index ≡ true }
    requires free { other ≢ pid → held_at regions.old other index ≡ None }

    ensures grows { Grows store.now store.now regions.old regions.new 0 0 }
    ensures brings { Brings regions.old regions.new index id }
    ensures reserved { regions.new.reserved ≡ regions.old.reserved }
    ensures others { (q i : ℕ) → (q ≡ other → i ≢ index) → held_at regions.new q i ≡ held_at regions.old q i }
    ensures own { other ≡ pid → held_at regions.new pid index ≡ held_at regions.old pid index }
    ensures matches { MatchesWith store.now store.now regions.old regions.new pid
        (all_hold id.age run.first run.count index (share_by regions.old pid run.first other)) }
{
    if other == pid {
        return;
    }
    regions.law();
    match regions.held(other, run.first) {
        Some(first) => {
            if is_of_run(run.first, first) {
                let held = Held {
                    id,
                    holds: first.holds,
                    cause: Cause::Called,
                    first: run.first,
                    reserved: run.count,
                };
                hold_more(store, regions, other, index, held, Access::WRITABLE_DATA.0);
            }
        }
        None => {}
    }
}

// All other processes that hold a run hold a new member.
fn share_member(store: &Store, regions: &mut Regions, pid: u16, run: Run, index: u16, id: SegId)
    requires may_share { MayShare store.now regions.old index id }
    requires process { IsProcess regions.old pid }
    requires apart { run.first < index }
    requires reserved { is_reserved regions.old (region_of pid index) index ≡ true }
    requires free { (q : ℕ) → q ≢ pid → held_at regions.old q index ≡ None }

    ensures grows { Grows store.now store.now regions.old regions.new 0 0 }
    ensures brings { Brings regions.old regions.new index id }
    ensures reserved { regions.new.reserved ≡ regions.old.reserved }
    ensures others { (q i : ℕ) → i ≢ index → held_at regions.new q i ≡ held_at regions.old q i }
    ensures matches { MatchesWith store.now store.now regions.old regions.new pid
        (all_hold id.age run.first run.count index (flat_map (share_by regions.old pid run.first) (indexes 1 regions.old.processes))) }
{
    for before in 0..regions.processes() {
        share_with(store, regions, pid, before + 1, run, index, id);
    }
}

/// A new segment of zeros, of a size as a word, is held so often by a process at a vacant index of a run, and by all others that hold
/// the run as often as its first member.
pub(crate) fn add_shared(
    store: &mut Store,
    regions: &mut Regions,
    pid: u16,
    run: Run,
    index: u16,
    size: u16,
    flags: u8,
    holds: u32,
)
    requires may_make { MayMake store.old regions.old pid 1 }
    requires index { index < 8192 }
    requires apart { run.first < index }
    requires vacant { IsVacant regions.old pid index }
    requires some { 0 < holds }

    ensures grows { Grows store.old store.new regions.old regions.new 1 holds }
    ensures shares { KeepsShares store.old regions.old store.new regions.new store.old.made }
    ensures reserved { regions.new.reserved ≡ regions.old.reserved }
    ensures others { (q i : ℕ) → i ≢ index → held_at regions.new q i ≡ held_at regions.old q i }
    ensures matches { has_bit flags 2 ≡ false → MatchesWith store.old store.new regions.old regions.new pid
        (new_members store.old.made run.first run.count flags ((pid, holds) ∷ shares_in regions.old pid run.first) (index ∷ []) (size ∷ [])) }
{
    match add_member(store, regions, pid, run, index, size, flags, holds) {
        Some(id) => {
            if SHARED <= run.first {
                share_member(store, regions, pid, run, index, id);
            }
        }
        None => {}
    }
}

// Full members from one on.
fn grow_full(
    store: &mut Store,
    regions: &mut Regions,
    pid: u16,
    run: Run,
    from: u16,
    count: u16,
    flags: u8,
    holds: u32,
)
    requires may_make { MayMake store.old regions.old pid count }
    requires inside { from + count ≤ 8192 }
    requires apart { run.first < from }
    requires vacant { AreVacant regions.old pid from (from + count) }
    requires some { 0 < holds }

    ensures grows { Grows store.old store.new regions.old regions.new count holds }
    ensures shares { KeepsShares store.old regions.old store.new regions.new store.old.made }
    ensures reserved { regions.new.reserved ≡ regions.old.reserved }
    ensures others { (q i : ℕ) → (i < from) ⊎ (from + count ≤ i) → held_at regions.new q i ≡ held_at regions.old q i }
    ensures matches { has_bit flags 2 ≡ false → MatchesWith store.old store.new regions.old regions.new pid
        (new_members store.old.made run.first run.count flags ((pid, holds) ∷ shares_in regions.old pid run.first) (indexes from count) (replicate count 0)) }
{
    for place in 0..count {
        add_shared(store, regions, pid, run, from + place, 0, flags, holds);
    }
}

/// So many new members of 65,536 bytes from one index of a run on, and one of `part` bytes behind them where that isn't 0.
pub(crate) fn grow(
    store: &mut Store,
    regions: &mut Regions,
    pid: u16,
    run: Run,
    from: u16,
    count: u16,
    part: u16,
    flags: u8,
    holds: u32,
)
    requires may_make { MayMake store.old regions.old pid (segments_of count part) }
    requires inside { from + segments_of count part ≤ 8192 }
    requires apart { run.first < from }
    requires vacant { AreVacant regions.old pid from (from + segments_of count part) }
    requires some { 0 < holds }

    ensures grows { Grows store.old store.new regions.old regions.new (segments_of count part) holds }
    ensures shares { KeepsShares store.old regions.old store.new regions.new store.old.made }
    ensures matches { has_bit flags 2 ≡ false → MatchesWith store.old store.new regions.old regions.new pid
        (new_members store.old.made run.first run.count flags ((pid, holds) ∷ shares_in regions.old pid run.first)
        (indexes from (segments_of count part)) (sizes_of count part)) }
{
    grow_full(store, regions, pid, run, from, count, flags, holds);
    if part != 0 {
        add_shared(store, regions, pid, run, from + count, part, flags, holds);
    }
}
