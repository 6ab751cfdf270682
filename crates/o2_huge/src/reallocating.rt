// DosReallocHuge.
ghost use Rattle.std.specs.Prelude.{◌⊎◌, ◌≡◌, ◌++◌, ℕ, ◌+◌, ◌-◌, ◌*◌, ◌/◌, ◌<◌, ◌≤◌, ◌^◌, ◌==◌, ◌&&◌, ◌||◌, false, true, length, min, nat_le, nat_lt, IfSome, IsSome, Option, Some, None, if◌then◌else◌};
ghost use Rattle.std.specs.List.{list_any};
ghost use Rattle.std.specs.Option.{IfNone};
ghost use Rattle.o2_entries.specs.Tables.{live_numbers, slot_at};
ghost use Rattle.o2_isa.specs.View.{is_local};
ghost use Rattle.o2_regions.specs.Maps.{IsProcess, end_of, held_at, is_held, is_reserved, region_of};
ghost use Rattle.o2_service.specs.Told.{OnlyTables};
ghost use Rattle.o2_store.specs.Idle.{IsIdle};
ghost use Rattle.o2_store.specs.Loads.{swap_load};
ghost use Rattle.o2_store.specs.Needs.{named_in};
ghost use Rattle.o2_store.specs.Shelf.{entry, entry_of, place_of};
ghost use Rattle.o2_swapmap.specs.Piles.{all_of};
ghost use Rattle.o2_store.specs.Frames.{IsBacked, KeepsDevice};
ghost use Rattle.o2_changes.specs.Frames.{KeepsOrder, KeepsOrderFor};
ghost use Rattle.o2_segs.specs.Callers.{IsCaller};
ghost use Rattle.o2_changes.specs.Holding.{KeepsHolds};
ghost use Rattle.o2_changes.specs.Order.{IsInOrder};
ghost use Rattle.o2_changes.specs.Worlds.{MatchesMove};
ghost use Rattle.o2_regions.specs.declared.answer.Answer.{Answer};
ghost use Rattle.o2_stands.specs.Knows.{Others, known_in};
ghost use Rattle.o2_stands.specs.Parts.{Parts};
ghost use Rattle.o2_world.specs.Changes.{takes};
ghost use Rattle.o2_world.specs.HugeRulings.{bytes_of, huge_reallocation, segments_of, without};
ghost use Rattle.o2_world.specs.SharedRulings.{shared_from};
ghost use Rattle.o2_world.specs.Rulings.{full_size, indexes};
ghost use Rattle.o2_segs.specs.Answers.{stop_of};
ghost use Rattle.o2_segs.specs.Limits.{KeepsLimits};
ghost use Rattle.o2_segs.specs.Made.{IsStop};
ghost use Rattle.o2_huge.specs.Frames.{FollowsRuling, HoldsRun, IsKnownBy, MayHave, SizesRun, StopsFor};
ghost use Rattle.o2_huge.specs.Growth.{AreMembers, AreVacant, EachFirstSized, IsVacant, bytes_there, LacksRoomFor, is_of_run, last_kept, last_size, size_there, sized_there};
ghost use Rattle.o2_huge.specs.Members.{MayMake};
ghost use Rattle.o2_huge.specs.Resized.{KeepsRest, MatchesChanged, MatchesResized, MatchesSized, changed_in, is_done, is_member_in, run_count, run_fault, sized_last};

use crate::allocating::{is_too_many, segments_of};
use crate::losing::{clear, cut, names_one};
use crate::members::{Run, full_size};
use crate::sharing::{SHARED, grow, is_of_run};
use o2_base::Selector;
use o2_changes::{is_shared_held, region_of, resize};
use o2_image::Images;
use o2_isa::Cpu;
use o2_outer::SwapDevice;
use o2_place::SegId;
use o2_regions::{Held, Regions, Roomed};
use o2_segs::{
    ACCESS_DENIED, INVALID_PARAMETER, NOT_ENOUGH_MEMORY, done, held_under, refusal, stop_of,
};
use o2_store::Store;

/// How many indexes a table has.
const INDEXES: u16 = 8192;

// The index behind the last one of an index's region.
fn region_end(index: u16) -> u16
    requires { index < 8192 }
    ensures end { (pid : ℕ) → result ≡ end_of (region_of pid index) }
    ensures behind { index ≤ result }
{
    if index < SHARED { SHARED } else { INDEXES }
}

// The run of which an index is the first one, by what is held there: no more of its indexes than the region has.
fn run_at(index: u16, held: Held) -> Option<Run>
    requires { index < 8192 }
    ensures run { (IfSome result (λ r. (is_of_run index held ≡ true) × (r ≡ record { first = index; count = run_count index held }))) }
    ensures none { IfNone result (is_of_run index held ≡ false) }
{
    if is_of_run(index, held) {
        let count = held.reserved.min(region_end(index) - index);
        return Some(Run {
            first: index,
            count,
        });
    }
    None
}

// Whether a process holds a member of a run at an index.
fn is_member(regions: &Regions, pid: u16, first: u16, index: u16) -> bool
    requires process { IsProcess regions.now pid }
    requires index { index < 8192 }
    ensures { result ≡ is_member_in regions.now pid first index }
{
    match regions.held(pid, index) {
        Some(held) => is_of_run(first, held),
        None => false,
    }
}

// How many members of a run a process holds from its first index on, one behind the other.
fn members_of(regions: &Regions, pid: u16, run: Run) -> u16
    requires process { IsProcess regions.now pid }
    requires inside { run.first + run.count ≤ 8192 }
    ensures few { result ≤ run.count }
    ensures members { AreMembers regions.now pid run.first run.first (run.first + result) }
    ensures last { result < run.count → is_member_in regions.now pid run.first (run.first + result) ≡ false }
{
    for place in 0..run.count {
        if !is_member(regions, pid, run.first, run.first + place) {
            return place;
        }
    }
    run.count
}

// The size in bytes of a live segment.
fn size_of(store: &Store, id: SegId) -> u32
    requires { IsSome (entry_of store.now id) }
    ensures { result ≡ (entry store.now id.key).size }
{
    match store.size(id) {
        Some(size) => size,
        None => 0,
    }
}

// The size in bytes of what a process holds at an index.
fn size_at(store: &Store, regions: &Regions, pid: u16, index: u16) -> u32
    requires process { IsProcess regions.now pid }
    requires index { index < 8192 }
    requires order { IsInOrder store.now regions.now }
    ensures { result ≡ size_there store.now (held_at regions.now pid index) }
{
    match regions.held(pid, index) {
        Some(held) => size_of(store, held.id),
        None => 0,
    }
}

// The bytes of so many segments of 65,536 and of one of `part`.
fn bytes_of(segs: u16, part: u16) -> u64
    ensures { result ≡ bytes_of segs part }
{
    u64::from(segs) * 65536 + u64::from(part)
}

// Whether a shared run of so many members has more bytes than it would have.
fn would_shrink(
    store: &Store,
    regions: &Regions,
    pid: u16,
    run: Run,
    there: u16,
    segs: u16,
    part: u16,
) -> bool
    requires process { IsProcess regions.now pid }
    requires inside { run.first + there ≤ 8192 }
    requires some { 0 < there }
    requires order { IsInOrder store.now regions.now }
    ensures { result ≡ (nat_le shared_from run.first && nat_lt (bytes_of segs part) (bytes_there there (size_there store.now (held_at regions.now pid (run.first + (there - 1)))))) }
{
    if run.first < SHARED {
        return false;
    }
    let last = size_at(store, regions, pid, run.first + (there - 1));
    let bytes = u64::from(there - 1) * 65536 + u64::from(last);
    bytes_of(segs, part) < bytes
}

// How many segments new sizes have, where that is a word.
fn wanted_of(segs: u16, part: u16) -> u16
    requires { segments_of segs part < 65536 }
    ensures { result ≡ segments_of segs part }
{
    segments_of(segs, part) as u16
}

// The error of new sizes, where it isn't that too many segments would live.
fn fault_of(
    store: &Store,
    regions: &Regions,
    pid: u16,
    run: Run,
    there: u16,
    segs: u16,
    part: u16,
    cpu: &Cpu,
) -> Option<u16>
    requires process { IsProcess regions.now pid }
    requires inside { run.first + run.count ≤ 8192 }
    requires some { 0 < there }
    requires few { there ≤ run.count }
    requires order { IsInOrder store.now regions.now }
    ensures { result ≡ run_fault store.now regions.now pid run.first run.count there segs part cpu.now }
{
    let segments = segments_of(segs, part);
    if segments == 0 {
        return Some(INVALID_PARAMETER);
    }
    if u32::from(run.count) < segments {
        return Some(NOT_ENOUGH_MEMORY);
    }
    let wanted = wanted_of(segs, part);
    let from = run.first + wanted;
    let gone = there.saturating_sub(wanted);
    if would_shrink(store, regions, pid, run, there, segs, part)
        || names_one(cpu.cs, from, gone)
        || names_one(cpu.ss, from, gone)
    {
        return Some(ACCESS_DENIED);
    }
    None
}

// Whether an index is reserved, and nobody who could hold it holds it.
fn is_vacant(regions: &Regions, pid: u16, index: u16) -> bool
    requires process { IsProcess regions.now pid }
    requires index { index < 8192 }
    ensures vacant { result ≡ true → IsVacant regions.now pid index }
    ensures taken { result ≡ false → (is_reserved regions.now (region_of pid index) index ≡ false) ⊎ (is_held regions.now (region_of pid index) index ≡ true) }
{
    regions.law();
    if !regions.is_reserved(region_of(pid, index), index) {
        return false;
    }
    if SHARED <= index {
        return !is_shared_held(regions, index);
    }
    regions.held(pid, index).is_none()
}

// Whether so many indexes from one on are reserved, and held by nobody who could hold them.
fn are_vacant(regions: &Regions, pid: u16, from: u16, count: u16) -> bool
    requires process { IsProcess regions.now pid }
    requires inside { from + count ≤ 8192 }
    ensures vacant { result ≡ true → AreVacant regions.now pid from (from + count) }
    ensures taken { result ≡ false → (i : ℕ) × ((from ≤ i) × (i < from + count)
        × ((is_reserved regions.now (region_of pid i) i ≡ false) ⊎ (is_held regions.now (region_of pid i) i ≡ true))) }
{
    for place in 0..count {
        if !is_vacant(regions, pid, from + place) {
            return false;
        }
    }
    true
}

// Whether a live segment has a size.
fn has_size(store: &Store, id: SegId, size: u32) -> bool
    requires { IsSome (entry_of store.now id) }
    ensures { result ≡ ((entry store.now id.key).size == size) }
{
    size_of(store, id) == size
}

// The size as a word of the last member that stays, where 0 stands for 65,536.
fn size_of_last(there: u16, segs: u16, part: u16) -> u16
    ensures { result ≡ last_size there segs part }
{
    if u32::from(there) < segments_of(segs, part) {
        return 0;
    }
    part
}

// The index of the last member that stays.
fn last_of(first: u16, there: u16, segs: u16, part: u16) -> u16
    requires inside { first + there ≤ 8192 }
    requires some { 0 < there }
    requires wanted { 0 < segments_of segs part }
    requires word { segments_of segs part < 65536 }
    ensures { result ≡ last_kept first there segs part }
{
    let kept = there.min(wanted_of(segs, part));
    first + (kept - 1)
}

// Whether so many members more from an index on are too many: more segments would live than may, or an index isn't vacant.
fn is_full(store: &Store, regions: &Regions, pid: u16, from: u16, more: u16) -> bool
    requires process { IsProcess regions.now pid }
    requires inside { from + more ≤ 8192 }
    ensures few { result ≡ false → nat_lt (length store.now.entries) (length (live_numbers 0 store.now.entries) + more) ≡ false }
    ensures vacant { result ≡ false → AreVacant regions.now pid from (from + more) }
    ensures cause { result ≡ true → (nat_lt (length store.now.entries) (length (live_numbers 0 store.now.entries) + more) ≡ true)
        ⊎ ((i : ℕ) × ((from ≤ i) × (i < from + more)
        × ((is_reserved regions.now (region_of pid i) i ≡ false) ⊎ (is_held regions.now (region_of pid i) i ≡ true)))) }
{
    if is_too_many(store, u32::from(more)) {
        return true;
    }
    !are_vacant(regions, pid, from, more)
}

// What a process holds at an index gets a size as a word, where it has another one.
fn resize_member<S: SwapDevice>(
    store: &mut Store,
    regions: &mut Regions,
    pid: u16,
    index: u16,
    size: u16,
    keep: &[SegId],
    images: &Images,
    swap: &mut S,
) -> Option<Roomed>
    requires process { IsProcess regions.old pid }
    requires index { index < 8192 }
    requires order { IsInOrder store.old regions.old }
    requires backed { IsBacked store.old images.now (S.blocks swap.old) }

    ensures matches { result ≡ None → MatchesSized store.old store.new regions.old regions.new images.now
        (S.told swap.new) (S.block swap.old) (S.block swap.new) (sized_there store.old size (held_at regions.old pid index)) }
    ensures stays { IsSome result → MatchesMove store.old store.new regions.old regions.new images.now
        (S.told swap.new) (S.block swap.old) (S.block swap.new) }
    ensures stop { IfSome result (λ r. IsStop r) }
    ensures rest { KeepsRest store.old store.new }
    ensures limits { KeepsLimits store.old regions.old store.new regions.new 0 }
    ensures maps { OnlyTables regions.old regions.new }
    ensures goes_on { KeepsOrderFor images.now store.old regions.old store.new regions.new }
    ensures device { KeepsDevice S.blocks S.told S.faults swap.old swap.new
        (result ≡ Some Roomed.SwapFault) }
    ensures kept { (k : ℕ) → named_in store.old.entries keep.now k ≡ true
        → IsSome (place_of store.old k) → IsSome (place_of store.new k) }

    ensures stops { StopsFor store.old keep.now (sized_there store.old size (held_at regions.old pid index))
        (result ≡ Some Roomed.NoRoom) (result ≡ Some Roomed.SwapFull) (IsIdle store.new swap.old swap.new) }
    ensures always_no_room { EachFirstSized store.old (sized_there store.old size (held_at regions.old pid index)) (LacksRoomFor store.old keep.now)
        → result ≡ Some Roomed.NoRoom }
    ensures load { result ≡ Some Roomed.SwapFull → all_of store.old.swap < swap_load store.old }
{
    regions.law();
    match regions.held(pid, index) {
        Some(held) => {
            let bytes = full_size(size);
            if has_size(store, held.id, bytes) {
                return None;
            }
            match stop_of(resize(store, regions, held.id, bytes, keep, images, swap)) {
                Some(stop) => Some(stop),
                None => None,
            }
        }
        None => None,
    }
}

// New members of a run come, or the last ones go, until it has so many of 65,536 bytes and one of `part` behind them where that
// isn't 0.
fn change_members(
    store: &mut Store,
    regions: &mut Regions,
    pid: u16,
    run: Run,
    there: u16,
    segs: u16,
    part: u16,
    first: Held,
    cpu: &mut Cpu,
)
    requires holds_run { HoldsRun regions.old pid run.first run.count there first }
    requires may_have { MayHave regions.old pid run.first run.count there (segments_of segs part) }
    requires may_make { MayMake store.old regions.old pid (segments_of segs part - there) }

    ensures matches { MatchesChanged store.old store.new regions.old regions.new pid run.first run.count there segs part }
    ensures registers { cpu.new ≡ without cpu.old (indexes (run.first + segments_of segs part) (there - segments_of segs part)) }
    ensures limits { KeepsLimits store.old regions.old store.new regions.new 4096 }
    ensures processes { regions.new.processes ≡ regions.old.processes }
    ensures holds { KeepsHolds regions.old regions.new
        ⊎ (list_any takes (changed_in store.old regions.old pid run.first run.count there segs part) ≡ true) }
    ensures kept { (k : ℕ) → IsSome (slot_at store.new.entries k) → IsSome (place_of store.old k) → IsSome (place_of store.new k) }
    ensures goes_on { KeepsOrder store.old regions.old store.new regions.new }
{
    regions.law();
    let wanted = wanted_of(segs, part);
    if there < wanted {
        let flags = flags_of(store, first.id);
        grow(
            store,
            regions,
            pid,
            run,
            run.first + there,
            segs - there,
            part,
            flags,
            first.holds,
        );
        return;
    }
    cut(
        store,
        regions,
        pid,
        run.first,
        run.first + wanted,
        there - wanted,
    );
    clear(cpu, run.first + wanted, there - wanted);
}

// The flags of a live segment.
fn flags_of(store: &Store, id: SegId) -> u8
    requires { IsSome (entry_of store.now id) }
    ensures { result ≡ (entry store.now id.key).attr.flags }
{
    match store.attr(id) {
        Some(attr) => attr.flags,
        None => 0,
    }
}

// The last member that stays gets its size, and then members come or go.
fn resize_run<S: SwapDevice>(
    store: &mut Store,
    regions: &mut Regions,
    pid: u16,
    run: Run,
    there: u16,
    segs: u16,
    part: u16,
    first: Held,
    cpu: &mut Cpu,
    keep: &[SegId],
    images: &Images,
    swap: &mut S,
) -> Roomed
    requires holds_run { HoldsRun regions.old pid run.first run.count there first }
    requires may_have { MayHave regions.old pid run.first run.count there (segments_of segs part) }
    requires may_make { MayMake store.old regions.old pid (segments_of segs part - there) }
    requires backed { IsBacked store.old images.now (S.blocks swap.old) }

    ensures done { (a : Answer) → result ≡ Roomed.Done a → a ≡ record { error = 0; value = 0 } }
    ensures matches { MatchesResized store.old store.new regions.old regions.new images.now (S.told swap.new) (S.block swap.old) (S.block swap.new)
        pid run.first run.count there segs part result }
    ensures registers { cpu.new ≡ (if is_done result then without cpu.old (indexes (run.first + segments_of segs part) (there - segments_of segs part)) else cpu.old) }
    ensures holds { KeepsHolds regions.old regions.new
        ⊎ (list_any takes (sized_last store.old regions.old pid run.first there segs part ++ changed_in store.old regions.old pid run.first run.count there segs part) ≡ true) }
    ensures sizes { SizesRun images.now keep.now store.old regions.old store.new regions.new (if is_done result then 4096 else 0) }
    ensures device { KeepsDevice S.blocks S.told S.faults swap.old swap.new
        (result ≡ Roomed.SwapFault) }

    ensures stops { StopsFor store.old keep.now (sized_last store.old regions.old pid run.first there segs part)
        (result ≡ Roomed.NoRoom) (result ≡ Roomed.SwapFull) (IsIdle store.new swap.old swap.new) }
    ensures always_no_room { EachFirstSized store.old (sized_last store.old regions.old pid run.first there segs part) (LacksRoomFor store.old keep.now)
        → result ≡ Roomed.NoRoom }
    ensures load { result ≡ Roomed.SwapFull → all_of store.old.swap < swap_load store.old }
{
    let last = last_of(run.first, there, segs, part);
    let size = size_of_last(there, segs, part);
    match resize_member(store, regions, pid, last, size, keep, images, swap) {
        Some(stop) => stop,
        None => {
            change_members(store, regions, pid, run, there, segs, part, first, cpu);
            Roomed::Done(done(0))
        }
    }
}

/// DosReallocHuge(segs, part, sel): the run of which the selector is the first one gets so many segments of 65,536 bytes, and one of
/// `part` behind them where that isn't 0. Members that stay get their sizes; new ones are of zeros, and each process that holds the
/// run holds them as often as its first one; those that go are the caller's alone, their indexes stay reserved, and DS and ES that
/// named one are 0. 5 where the selector isn't the first one of a run that the caller holds; 87 for no segment; 8 for more of them than
/// indexes are reserved; 5 where the run is shared and has more bytes than it would have, and where a member that goes is that of CS or
/// SS; 8 where more segments would live than may. Only one segment gets another size, which may want room: one in memory that is locked
/// or in `keep` stays there. At a stop nothing has changed.
pub fn realloc_huge<S: SwapDevice>(
    store: &mut Store,
    regions: &mut Regions,
    pid: u16,
    segs: u16,
    part: u16,
    sel: u16,
    cpu: &mut Cpu,
    keep: &[SegId],
    images: &Images,
    swap: &mut S,
) -> Roomed
    requires caller { IsCaller store.old regions.old pid }
    requires made { store.old.made + 4096 < 2 ^ 64 }
    requires backed { IsBacked store.old images.now (S.blocks swap.old) }

    ensures row { (p : Parts) (o : Others) → IsKnownBy store.old regions.old p o
        → FollowsRuling (huge_reallocation (known_in p o) pid segs part sel cpu.old) p pid store.old store.new regions.old regions.new
        images.now (S.told swap.new) (S.block swap.old) (S.block swap.new) cpu.old cpu.new result }
    ensures stops { (p : Parts) (o : Others) → IsKnownBy store.old regions.old p o
        → StopsFor store.old keep.now (huge_reallocation (known_in p o) pid segs part sel cpu.old).changes
        (result ≡ Roomed.NoRoom) (result ≡ Roomed.SwapFull) (IsIdle store.new swap.old swap.new) }
    // It stops for room exactly where the ruling's first change is that of a size, and its segment lacks room for it.
    ensures always_no_room { (p : Parts) (o : Others) → IsKnownBy store.old regions.old p o
        → EachFirstSized store.old (huge_reallocation (known_in p o) pid segs part sel cpu.old).changes (LacksRoomFor store.old keep.now)
        → result ≡ Roomed.NoRoom }
    ensures load { result ≡ Roomed.SwapFull → all_of store.old.swap < swap_load store.old }
    ensures sizes { SizesRun images.now keep.now store.old regions.old store.new regions.new (if is_done result then 4096 else 0) }
    ensures device { KeepsDevice S.blocks S.told S.faults swap.old swap.new
        (result ≡ Roomed.SwapFault) }
{
    match held_under(regions, pid, sel) {
        Some(held) => match run_at(Selector(sel).index(), held) {
            Some(run) => realloc_run(
                store, regions, pid, segs, part, sel, held, run, cpu, keep, images, swap,
            ),
            None => Roomed::Done(refusal(ACCESS_DENIED)),
        },
        None => Roomed::Done(refusal(ACCESS_DENIED)),
    }
}

// What is asked of a run that the caller holds.
fn realloc_run<S: SwapDevice>(
    store: &mut Store,
    regions: &mut Regions,
    pid: u16,
    segs: u16,
    part: u16,
    sel: u16,
    held: Held,
    run: Run,
    cpu: &mut Cpu,
    keep: &[SegId],
    images: &Images,
    swap: &mut S,
) -> Roomed
    requires held { (if is_local sel then held_at regions.old pid (sel / 8) else None) ≡ Some held }
    requires first { is_of_run (sel / 8) held ≡ true }
    requires run { run ≡ record { first = sel / 8; count = run_count (sel / 8) held } }
    requires caller { IsCaller store.old regions.old pid }
    requires made { store.old.made + 4096 < 2 ^ 64 }
    requires backed { IsBacked store.old images.now (S.blocks swap.old) }

    ensures row { (p : Parts) (o : Others) → IsKnownBy store.old regions.old p o
        → FollowsRuling (huge_reallocation (known_in p o) pid segs part sel cpu.old) p pid store.old store.new regions.old regions.new
        images.now (S.told swap.new) (S.block swap.old) (S.block swap.new) cpu.old cpu.new result }
    ensures stops { (p : Parts) (o : Others) → IsKnownBy store.old regions.old p o
        → StopsFor store.old keep.now (huge_reallocation (known_in p o) pid segs part sel cpu.old).changes
        (result ≡ Roomed.NoRoom) (result ≡ Roomed.SwapFull) (IsIdle store.new swap.old swap.new) }
    ensures always_no_room { (p : Parts) (o : Others) → IsKnownBy store.old regions.old p o
        → EachFirstSized store.old (huge_reallocation (known_in p o) pid segs part sel cpu.old).changes (LacksRoomFor store.old keep.now)
        → result ≡ Roomed.NoRoom }
    ensures load { result ≡ Roomed.SwapFull → all_of store.old.swap < swap_load store.old }
    ensures sizes { SizesRun images.now keep.now store.old regions.old store.new regions.new (if is_done result then 4096 else 0) }
    ensures device { KeepsDevice S.blocks S.told S.faults swap.old swap.new
        (result ≡ Roomed.SwapFault) }
{
    regions.law();
    let there = members_of(regions, pid, run);
    match fault_of(store, regions, pid, run, there, segs, part, cpu) {
        Some(error) => Roomed::Done(refusal(error)),
        None => {
            let more = wanted_of(segs, part).saturating_sub(there);
            if is_full(store, regions, pid, run.first + there, more) {
                return Roomed::Done(refusal(NOT_ENOUGH_MEMORY));
            }
            resize_run(
                store, regions, pid, run, there, segs, part, held, cpu, keep, images, swap,
            )
        }
    }
}
