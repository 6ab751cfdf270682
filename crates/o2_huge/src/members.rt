// New members of a run of indexes.
ghost use Rattle.std.specs.Prelude.{◌≡◌, ◌≢◌, ℕ, ◌+◌, ◌<◌, ◌≤◌, ◌∷◌, [], ◌||◌, false, replicate, IfSome, IsSome, None};
ghost use Rattle.o2_desc.specs.Bits.{has_bit};
ghost use Rattle.o2_regions.specs.Maps.{held_at};
ghost use Rattle.o2_world.specs.HugeRulings.{new_members};
ghost use Rattle.o2_world.specs.Rulings.{full_size, indexes};
ghost use Rattle.o2_segs.specs.Sharing.{KeepsShares};
ghost use Rattle.o2_huge.specs.Members.{AreOpen, Grows, IsNew, IsOpenAt, MatchesWith, MayMake};

use o2_changes::{hold_more, make};
use o2_desc::Access;
use o2_place::SegId;
use o2_regions::{Cause, Held, Regions};
use o2_store::Store;

/// A run of indexes: its first one, and how many are reserved for it.
#[derive(Clone, Copy, Debug, PartialEq, Eq)]
pub(crate) struct Run {
    pub(crate) first: u16,
    pub(crate) count: u16,
}

/// The size in bytes that a call is given as a word, where 0 is 65,536.
#[tactic(auto, using(o2_segs::proofs::Resizing::full_zero, o2_segs::proofs::Resizing::full_some))]
pub(crate) fn full_size(size: u16) -> u32
    ensures size { result ≡ full_size size }
    ensures some { 0 < result }
    ensures most { result ≤ 65536 }
{
    if size == 0 { 65536 } else { u32::from(size) }
}

// Whether other processes may get a segment of these flags, by giving or by getting.
fn is_shared(flags: u8) -> bool
    ensures { result ≡ (has_bit flags 0 || has_bit flags 1) }
{
    flags % 2 == 1 || flags / 2 % 2 == 1
}

/// A new segment of zeros, of a size as a word, is held so often at an index that is reserved for a run, as data that can be
/// written. It is the answer.
pub(crate) fn add_member(
    store: &mut Store,
    regions: &mut Regions,
    pid: u16,
    run: Run,
    index: u16,
    size: u16,
    flags: u8,
    holds: u32,
) -> Option<SegId>
    requires may_make { MayMake store.old regions.old pid 1 }
    requires index { index < 8192 }
    requires open { IsOpenAt regions.old pid index }
    requires some { 0 < holds }

    ensures made { IsSome result }
    ensures adds { IfSome result (λ id. IsNew store.old store.new regions.old regions.new index id) }
    ensures grows { Grows store.old store.new regions.old regions.new 1 holds }
    ensures shares { (4096 ≤ index → (q : ℕ) → held_at regions.old q index ≡ None)
        → KeepsShares store.old regions.old store.new regions.new store.old.made }
    ensures reserved { regions.new.reserved ≡ regions.old.reserved }
    ensures others { (q i : ℕ) → (q ≡ pid → i ≢ index) → held_at regions.new q i ≡ held_at regions.old q i }
    ensures matches { has_bit flags 2 ≡ false → MatchesWith store.old store.new regions.old regions.new pid
        (new_members store.old.made run.first run.count flags ((pid, holds) ∷ []) (index ∷ []) (size ∷ [])) }
{
    regions.law();
    match make(store, regions, full_size(size), flags, is_shared(flags)) {
        Some(id) => {
            let held = Held {
                id,
                holds,
                cause: Cause::Called,
                first: run.first,
                reserved: run.count,
            };
            hold_more(store, regions, pid, index, held, Access::WRITABLE_DATA.0);
            Some(id)
        }
        None => None,
    }
}

/// So many new segments of 65,536 zeros are each held once, at the indexes from the first of a run on.
pub(crate) fn add_full(
    store: &mut Store,
    regions: &mut Regions,
    pid: u16,
    run: Run,
    segs: u16,
    flags: u8,
)
    requires may_make { MayMake store.old regions.old pid segs }
    requires inside { run.first + segs ≤ 8192 }
    requires open { AreOpen regions.old pid run.first segs }
    requires unlocked { has_bit flags 2 ≡ false }

    ensures grows { Grows store.old store.new regions.old regions.new segs 1 }
    ensures shares { ((q i : ℕ) → run.first ≤ i → i < run.first + segs → 4096 ≤ i → held_at regions.old q i ≡ None)
        → KeepsShares store.old regions.old store.new regions.new store.old.made }
    ensures reserved { regions.new.reserved ≡ regions.old.reserved }
    ensures others { (q i : ℕ) → run.first + segs ≤ i → held_at regions.new q i ≡ held_at regions.old q i }
    ensures matches { MatchesWith store.old store.new regions.old regions.new pid
        (new_members store.old.made run.first run.count flags ((pid, 1) ∷ []) (indexes run.first segs) (replicate segs 0)) }
{
    for place in 0..segs {
        add_member(store, regions, pid, run, run.first + place, 0, flags, 1);
    }
}
