// A process loses holds of a member of a run.
ghost use Rattle.std.specs.Prelude.{◌≡◌, ◌<◌, ◌≤◌, Some};
ghost use Rattle.o2_regions.specs.Maps.{IsProcess, held_at};
ghost use Rattle.o2_changes.specs.Frames.{KeepsOrder};
ghost use Rattle.o2_changes.specs.Holding.{KeepsPlaces, Sweeps, TakesSome};
ghost use Rattle.o2_changes.specs.Order.{IsInOrder};
ghost use Rattle.o2_changes.specs.Worlds.{MatchesLoss};

use crate::dropping::{drop_hold, sweep};
use o2_regions::{Held, Regions};
use o2_store::Store;

// Takes so many holds of a process at an index.
fn drop_some(store: &Store, regions: &mut Regions, pid: u16, index: u16, held: Held, count: u32)
    requires process { IsProcess regions.old pid }
    requires index { index < 8192 }
    requires held { held_at regions.old pid index ≡ Some held }
    requires few { count ≤ held.holds }
    requires order { IsInOrder store.now regions.old }

    ensures takes { TakesSome regions.old regions.new pid index count }
    ensures reserved { regions.new.reserved ≡ regions.old.reserved }
    ensures order { IsInOrder store.now regions.new }
{
    regions.law();
    for _hold in 0..count {
        drop_hold(store, regions, pid, index);
    }
}

/// Takes so many holds of a process, no more than it has, at an index that stays reserved, as those of a run do. Where nobody holds the
/// segment any more, it is gone with its range and its blocks.
pub fn lose(store: &mut Store, regions: &mut Regions, pid: u16, index: u16, held: Held, count: u32)
    requires process { IsProcess regions.old pid }
    requires index { index < 8192 }
    requires held { held_at regions.old pid index ≡ Some held }
    requires few { count ≤ held.holds }
    requires order { IsInOrder store.old regions.old }

    ensures takes { TakesSome regions.old regions.new pid index count }
    ensures reserved { regions.new.reserved ≡ regions.old.reserved }
    ensures sweeps { Sweeps store.old store.new regions.new held.id }
    ensures places { KeepsPlaces store.old store.new }
    ensures goes_on { KeepsOrder store.old regions.old store.new regions.new }
    ensures matches { MatchesLoss store.old store.new regions.old regions.new pid index count }
{
    store.law();
    regions.law();
    drop_some(store, regions, pid, index, held, count);
    regions.law();
    sweep(store, regions, held.id);
}
