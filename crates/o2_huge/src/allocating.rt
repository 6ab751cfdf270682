// DosAllocHuge.
ghost use Rattle.std.specs.Prelude.{◌≡◌, ℕ, ◌+◌, ◌-◌, ◌<◌, ◌≤◌, ◌^◌, ◌∷◌, ◌++◌, [], false, length, nat_lt, IfSome, IsSome, Some};
ghost use Rattle.o2_base.specs.Selectors.{selector_of};
ghost use Rattle.o2_desc.specs.Bits.{has_bit};
ghost use Rattle.o2_desc.specs.Choice.{IsRun, chosen};
ghost use Rattle.o2_entries.specs.Tables.{live_numbers};
ghost use Rattle.o2_regions.specs.Maps.{IsProcess, IsRegion, end_of, first_of, is_taken};
ghost use Rattle.o2_store.specs.Shelf.{place_of};
ghost use Rattle.o2_changes.specs.Frames.{KeepsOrder};
ghost use Rattle.o2_changes.specs.Holding.{KeepsHolds};
ghost use Rattle.o2_changes.specs.Order.{IsInOrder};
ghost use Rattle.o2_stands.specs.Knows.{Others, known_in};
ghost use Rattle.o2_stands.specs.Parts.{Parts};
ghost use Rattle.o2_stands.specs.Stands.{Matches, number_of};
ghost use Rattle.o2_world.specs.Changes.{Reserves, with_all};
ghost use Rattle.o2_world.specs.Holders.{process_at};
ghost use Rattle.o2_world.specs.HugeRulings.{huge_allocation, is_huge_fault, new_members, run_reserve, segments_of, sizes_of};
ghost use Rattle.o2_world.specs.Rulings.{indexes};
ghost use Rattle.o2_world.specs.World.{Process, World};
ghost use Rattle.o2_segs.specs.Answers.{Answers};
ghost use Rattle.o2_segs.specs.Limits.{KeepsEntries, KeepsLimitsBy};
ghost use Rattle.o2_segs.specs.Made.{region_for};
ghost use Rattle.o2_segs.specs.Sharing.{KeepsShares};
ghost use Rattle.o2_huge.specs.Members.{Grows, MatchesWith, MayMake};

use crate::members::{Run, add_full, add_member};
use o2_base::Selector;
use o2_regions::{Answer, Region, Regions};
use o2_segs::{INVALID_PARAMETER, NOT_ENOUGH_MEMORY, done, refusal};
use o2_store::Store;

/// All flags of an allocation.
const FLAGS: u16 = 15;

/// The most indexes of a region.
const REGION: u32 = 4096;

/// How many segments a huge allocation has: so many of 65,536 bytes, and one of `part` bytes where that isn't 0.
pub fn segments_of(segs: u16, part: u16) -> u32
    ensures { result ≡ segments_of segs part }
{
    if part == 0 {
        u32::from(segs)
    } else {
        u32::from(segs) + 1
    }
}

// Whether the words of an allocation are none: its flags, no segments at all, or a most below their number.
fn is_fault(segments: u32, most: u16, flags: u16) -> bool
    ensures { result ≡ is_huge_fault segments most flags }
{
    FLAGS < flags
        || flags / 4 % 2 == 1
        || segments == 0
        || (most != 0 && u32::from(most) < segments)
}

/// Whether so many segments more would be more than may live.
pub(crate) fn is_too_many(store: &Store, segments: u32) -> bool
    ensures { result ≡ nat_lt (length store.now.entries) (length (live_numbers 0 store.now.entries) + segments) }
{
    u64::from(store.segments()) < u64::from(store.live()) + u64::from(segments)
}

// The region of a new run of these flags.
fn region_for(pid: u16, flags: u16) -> Region
    ensures { result ≡ region_for pid flags }
{
    if flags % 4 == 0 {
        Region::Private(pid)
    } else {
        Region::Shared
    }
}

// The lowest index of a region from which so many aren't taken.
fn free_run(regions: &Regions, region: Region, count: u32) -> Option<u16>
    requires region { IsRegion regions.now region }
    requires some { 0 < count }
    ensures chosen { result ≡ chosen (is_taken regions.now region) (first_of region) (end_of region) count }
    ensures free { IfSome result (λ i. IsRun (is_taken regions.now region) (first_of region) (end_of region) count i) }
    ensures few { IfSome result (λ i. count ≤ 4096) }
    ensures index { IfSome result (λ i. i < 8192) }
{
    if REGION < count {
        return None;
    }
    regions.lowest(region, count as u16)
}

// The selector of an index, as a value.
fn selector_at(index: u16) -> u32
    requires { index < 8192 }
    ensures { result ≡ selector_of index }
{
    u32::from(Selector::local(u32::from(index)).0)
}

/// DosAllocHuge(segs, part, psel, max, flags): so many new segments of 65,536 zeros, and one more of `part` where that isn't 0,
/// which the caller holds as data that can be written at indexes in a row; further ones behind them are reserved up to `most`.
/// The value is the first selector. With flag 1 or 2 they are shared and have shared selectors. 87 for other flags than 1, 2
/// and 8, for no segment, and where `most` isn't 0 and is below their number; 8 where no indexes of the region are free in a row,
/// or more segments would live than may.
pub fn alloc_huge(
    store: &mut Store,
    regions: &mut Regions,
    pid: u16,
    segs: u16,
    part: u16,
    most: u16,
    flags: u16,
) -> Answer
    requires process { IsProcess regions.old pid }
    requires made { store.old.made + 4096 < 2 ^ 64 }
    requires order { IsInOrder store.old regions.old }

    ensures answer { (p : Parts) (o : Others) → p.shelf ≡ store.old → p.maps ≡ regions.old
        → Answers (huge_allocation (known_in p o) pid segs part most flags) result }
    ensures word { result.value ≤ 65535 }
    ensures matches { (p : Parts) (o : Others) (w : World) (x : Process) → p.shelf ≡ store.old → p.maps ≡ regions.old
        → process_at w.processes pid ≡ Some x → Matches p w
        → Matches (record p { shelf = store.new; maps = regions.new })
        (with_all w (huge_allocation (known_in p o) pid segs part most flags).changes) }
    ensures holds { KeepsHolds regions.old regions.new }
    ensures limits { KeepsLimitsBy store.old regions.old store.new regions.new 4096 1 }
    ensures entries { KeepsEntries store.old store.new }
    ensures kept { (k : ℕ) → IsSome (place_of store.old k) → IsSome (place_of store.new k) }
    ensures goes_on { KeepsOrder store.old regions.old store.new regions.new }
{
    let segments = segments_of(segs, part);
    if is_fault(segments, most, flags) {
        return refusal(INVALID_PARAMETER);
    }
    if is_too_many(store, segments) {
        return refusal(NOT_ENOUGH_MEMORY);
    }
    let count = segments.max(u32::from(most));
    match free_run(regions, region_for(pid, flags), count) {
        Some(first) => {
            let run = Run {
                first,
                count: count as u16,
            };
            make_run(store, regions, pid, run, segs, part, flags);
            done(selector_at(first))
        }
        None => refusal(NOT_ENOUGH_MEMORY),
    }
}

// The indexes of a run that is free are reserved, and its first ones are held.
fn make_run(
    store: &mut Store,
    regions: &mut Regions,
    pid: u16,
    run: Run,
    segs: u16,
    part: u16,
    flags: u16,
)
    requires may_make { MayMake store.old regions.old pid (segments_of segs part) }
    requires free { IsRun (is_taken regions.old (region_for pid flags)) (first_of (region_for pid flags)) (end_of (region_for pid flags)) run.count run.first }
    requires few { segments_of segs part ≤ run.count }
    requires flags { flags ≤ 15 }
    requires unlocked { has_bit flags 2 ≡ false }

    ensures matches { MatchesWith store.old store.new regions.old regions.new pid
        (new_members store.old.made run.first run.count flags ((pid, 1) ∷ []) (indexes run.first (segments_of segs part)) (sizes_of segs part)
        ++ Reserves (run_reserve (number_of (region_for pid flags)) run.first run.count) ∷ []) }
    ensures grows { Grows store.old store.new regions.old regions.new (segments_of segs part) 1 }
    ensures shares { KeepsShares store.old regions.old store.new regions.new store.old.made }
{
    regions.law();
    regions.reserve(region_for(pid, flags), run.first, run.count);
    regions.law();
    add_full(store, regions, pid, run, segs, flags as u8);
    if part != 0 {
        add_member(
            store,
            regions,
            pid,
            run,
            run.first + segs,
            part,
            flags as u8,
            1,
        );
    }
}
