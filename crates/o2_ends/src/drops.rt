// All holds of one index go.
ghost use Rattle.std.specs.Prelude.{◌≡◌, ◌≤◌, ℕ, ◌<◌, ◌&&◌, ◌==◌, None, IsSome, IfSome};
ghost use Rattle.o2_regions.specs.Maps.{IsProcess, held_at};
ghost use Rattle.o2_ends.specs.Drops.{Empties};
ghost use Rattle.o2_ends.specs.LetsGo.{FreesOwn, FreesShared, end_in, goes_with, is_last_member, is_left, is_left_of, is_loaded};

use o2_changes::is_shared_held;
use o2_regions::{Cause, Held, Region, Regions};

/// The index from which on indexes are the same for all processes.
const SHARED: u16 = 4096;

/// How many indexes there are.
const INDEXES: u32 = 8192;

/// A process drops all that it holds at an index, so many holds.
pub(crate) fn drop_all(regions: &mut Regions, pid: u16, index: u16, holds: u32)
    requires process { IsProcess regions.old pid }
    requires index { index < 8192 }
    requires some { IsSome (held_at regions.old pid index) }
    requires all { IfSome (held_at regions.old pid index) (λ h. h.holds ≡ holds) }
    ensures { Empties regions.old regions.new pid index }
{
    regions.law();
    for _hold in 0..holds {
        regions.law();
        regions.drop_one(pid, index);
    }
}

/// No index of its own is reserved any more for a process that holds nothing.
pub(crate) fn release_own(regions: &mut Regions, pid: u16)
    requires process { IsProcess regions.old pid }
    requires none { (i : ℕ) → held_at regions.old pid i ≡ None }
    ensures { FreesOwn regions.old regions.new pid }
{
    regions.law();
    regions.release(Region::Private(pid), 1, SHARED - 1);
}

// Whether what is held is held by load.
fn is_loaded(cause: Cause) -> bool
    ensures { result ≡ is_loaded cause }
{
    match cause {
        Cause::Loaded => true,
        Cause::Called => false,
        Cause::Alias => false,
    }
}

/// A shared index is no longer reserved where nobody holds it any more, unless it was held by load: then it is a library's, and
/// stays.
fn release_shared(regions: &mut Regions, index: u16, cause: Cause)
    requires high { 4096 ≤ index }
    requires index { index < 8192 }
    ensures { FreesShared regions.old regions.new (λ j. (j == index) && is_left regions.old index cause) }
{
    regions.law();
    if is_loaded(cause) {
        return;
    }
    if is_shared_held(regions, index) {
        return;
    }
    regions.release(Region::Shared, index, 1);
}

/// The index behind the last one of the stretch of a run, as far as there are indexes.
fn end_of_run(held: Held) -> u16
    ensures end { result ≡ end_in held }
    ensures most { result ≤ 8192 }
{
    let end = u32::from(held.first) + u32::from(held.reserved);
    end.min(INDEXES) as u16
}

/// The shared indexes of a run are no longer reserved where nobody holds them, nor the run's first index.
fn release_stretch(regions: &mut Regions, held: Held)
    ensures { FreesShared regions.old regions.new (λ j. is_left_of regions.old held j) }
{
    let end = end_of_run(held);
    let from = held.first.max(SHARED);
    if end <= from {
        return;
    }
    if is_shared_held(regions, held.first) {
        return;
    }
    for index in from..end {
        release_shared(regions, index, Cause::Called);
    }
}

// Whether what a process held at an index, which it doesn't hold any more, was the last member of its run that it held.
fn is_last_member(regions: &Regions, pid: u16, index: u16, held: Held) -> bool
    requires process { IsProcess regions.now pid }
    requires index { index < 8192 }
    ensures { result ≡ is_last_member regions.now pid index held }
{
    let next = index + 1;
    held.first <= index && !(next < end_of_run(held) && regions.held(pid, next).is_some())
}

/// What a process held at an index, which it doesn't hold any more, is no longer reserved where it is shared: the index alone, unless
/// a module came with it or somebody holds it, or the indexes of the run of which that was the last member.
pub(crate) fn release_held(regions: &mut Regions, pid: u16, index: u16, held: Held)
    requires process { IsProcess regions.old pid }
    requires index { index < 8192 }
    ensures { FreesShared regions.old regions.new (λ j. goes_with regions.old pid index held j) }
{
    if index < SHARED {
        return;
    }
    if held.reserved == 0 {
        release_shared(regions, index, held.cause);
        return;
    }
    if is_last_member(regions, pid, index, held) {
        release_stretch(regions, held);
    }
}
