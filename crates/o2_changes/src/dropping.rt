// A process holds a segment less often, and what nobody holds any more goes.
ghost use Rattle.std.specs.Prelude.{◌≡◌, ◌≢◌, ℕ, ◌-◌, ◌<◌, ◌≤◌, Some, None, IsSome, is_some, true, false};
ghost use Rattle.o2_regions.specs.declared.held.Held.{Held as HeldThere};
ghost use Rattle.o2_regions.specs.Maps.{IsProcess, held_at, is_held, is_of, region_of, some_holds};
ghost use Rattle.o2_store.specs.Shelf.{entry_of};
ghost use Rattle.o2_changes.specs.Frames.{KeepsOrder};
ghost use Rattle.o2_changes.specs.Holding.{FreesIndex, FreesRun, IsUnheld, KeepsPlaces, Sweeps, Takes};
ghost use Rattle.o2_changes.specs.Order.{IsInOrder};
ghost use Rattle.o2_changes.specs.Worlds.{MatchesDrop};

use crate::holding::region_of;
use o2_place::SegId;
use o2_regions::{Held, Region, Regions};
use o2_store::Store;

/// Takes one hold of a process at an index that it holds, and answers how many are left. Where none is, its descriptor is
/// empty.
pub fn drop_hold(store: &Store, regions: &mut Regions, pid: u16, index: u16) -> u32
    requires process { IsProcess regions.old pid }
    requires index { index < 8192 }
    requires held { IsSome (held_at regions.old pid index) }
    requires order { IsInOrder store.now regions.old }

    ensures takes { Takes regions.old regions.new pid index }
    ensures left { (h : HeldThere) → held_at regions.old pid index ≡ Some h → result ≡ h.holds - 1 }
    ensures none { result ≡ 0 → held_at regions.new pid index ≡ None }
    ensures some { result ≢ 0 → IsSome (held_at regions.new pid index) }
    ensures reserved { regions.new.reserved ≡ regions.old.reserved }
    ensures order { IsInOrder store.now regions.new }
{
    regions.law();
    regions.drop_one(pid, index).unwrap_or(0)
}

// Whether a process holds something at an index.
fn holds_at(regions: &Regions, pid: u16, index: u16) -> bool
    requires process { IsProcess regions.now pid }
    requires index { index < 8192 }
    ensures { result ≡ is_some (held_at regions.now pid index) }
{
    regions.held(pid, index).is_some()
}

/// Whether a process holds an index of those that all share.
pub fn is_shared_held(regions: &Regions, index: u16) -> bool
    requires { index < 8192 }
    ensures { result ≡ some_holds regions.now index regions.now.processes }
{
    regions.law();
    for before in 0..regions.processes() {
        if holds_at(regions, before + 1, index) {
            return true;
        }
    }
    false
}

// Whether an index is held by a process of its region.
fn is_index_held(regions: &Regions, pid: u16, index: u16) -> bool
    requires process { IsProcess regions.now pid }
    requires index { index < 8192 }
    ensures { result ≡ is_held regions.now (region_of pid index) index }
{
    match region_of(pid, index) {
        Region::Private(_) => holds_at(regions, pid, index),
        Region::Shared => is_shared_held(regions, index),
    }
}

/// An index that nobody of its region holds any more may be chosen again. One that is held stays reserved. It isn't reserved for
/// more than those who held it. Index 0 is in no region.
pub fn free_index(store: &Store, regions: &mut Regions, pid: u16, index: u16)
    requires process { IsProcess regions.old pid }
    requires index { index < 8192 }
    requires order { IsInOrder store.now regions.old }

    ensures frees { FreesIndex regions.old regions.new pid index }
    ensures tables { regions.new ≡ record regions.old { reserved = regions.new.reserved } }
    ensures order { IsInOrder store.now regions.new }
{
    regions.law();
    if index == 0 {
        return;
    }
    if is_index_held(regions, pid, index) {
        return;
    }
    regions.release(region_of(pid, index), index, 1);
}

/// The indexes of a run from `first` to the one before `end` may be chosen again where nobody of its region holds them, if
/// nobody holds the first one.
pub fn free_run(store: &Store, regions: &mut Regions, pid: u16, first: u16, end: u16)
    requires process { IsProcess regions.old pid }
    requires end { end ≤ 8192 }
    requires order { IsInOrder store.now regions.old }

    ensures frees { FreesRun regions.old regions.new pid first end }
    ensures tables { regions.new ≡ record regions.old { reserved = regions.new.reserved } }
    ensures order { IsInOrder store.now regions.new }
{
    if end <= first {
        return;
    }
    if is_index_held(regions, pid, first) {
        return;
    }
    for index in first..end {
        free_index(store, regions, pid, index);
    }
}

/// Whether nobody holds a segment.
pub fn is_unheld(regions: &Regions, id: SegId) -> bool
    ensures none { result ≡ true → IsUnheld regions.now id }
    ensures some { result ≡ false → (pid : ℕ) × ((i : ℕ) × (is_of id (held_at regions.now pid i) ≡ true)) }
{
    match regions.holder(id, 0) {
        Some(_) => false,
        None => true,
    }
}

/// Removes a live segment with its range and its blocks where nobody holds it any more.
pub fn sweep(store: &mut Store, regions: &Regions, id: SegId)
    requires live { IsSome (entry_of store.old id) }
    requires order { IsInOrder store.old regions.now }

    ensures sweeps { Sweeps store.old store.new regions.now id }
    ensures places { KeepsPlaces store.old store.new }
    ensures goes_on { KeepsOrder store.old regions.now store.new regions.now }
{
    store.law();
    if is_unheld(regions, id) {
        store.remove(id);
    }
}

/// Takes one hold of a process at an index that it holds, of a segment alone, and answers how many are left. Where nobody holds
/// the index any more, it may be chosen again, and where nobody holds the segment, it is gone with its range and its blocks.
pub fn let_go(store: &mut Store, regions: &mut Regions, pid: u16, index: u16, held: Held) -> u32
    requires process { IsProcess regions.old pid }
    requires index { index < 8192 }
    requires held { held_at regions.old pid index ≡ Some held }
    requires order { IsInOrder store.old regions.old }

    ensures none { result ≡ 0 → held_at regions.new pid index ≡ None }
    ensures some { result ≢ 0 → IsSome (held_at regions.new pid index) }
    ensures left { result ≡ held.holds - 1 }
    ensures takes { Takes regions.old regions.new pid index }
    ensures sweeps { Sweeps store.old store.new regions.new held.id }
    ensures places { KeepsPlaces store.old store.new }
    ensures processes { regions.new.processes ≡ regions.old.processes }
    ensures goes_on { KeepsOrder store.old regions.old store.new regions.new }
    ensures matches { MatchesDrop store.old store.new regions.old regions.new pid index }
{
    store.law();
    regions.law();
    let left = drop_hold(store, regions, pid, index);
    free_index(store, regions, pid, index);
    regions.law();
    sweep(store, regions, held.id);
    left
}
