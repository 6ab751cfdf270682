// A process holds a segment more often.
ghost use Rattle.std.specs.Prelude.{◌≡◌, ◌+◌, ◌<◌, ◌^◌, IfSome, IsSome, true};
ghost use Rattle.o2_desc.specs.Choice.{IsRun};
ghost use Rattle.o2_regions.specs.Maps.{IsProcess, end_of, first_of, held_at, holds_of, is_reserved, is_taken, region_of};
ghost use Rattle.o2_store.specs.Shelf.{entry_of};
ghost use Rattle.o2_changes.specs.Holding.{Grants, IsGuard, KeepsHolds, TakesIndex};
ghost use Rattle.o2_changes.specs.Order.{IsGuarded, IsInOrder};
ghost use Rattle.o2_changes.specs.Worlds.{MatchesHold};

use o2_regions::{Held, Region, Regions};
use o2_service::settle_one;
use o2_store::Store;

/// The first index that all processes share.
const SHARED: u16 = 4096;

/// The region of an index, for a process.
pub fn region_of(pid: u16, index: u16) -> Region
    ensures { result ≡ region_of pid index }
{
    if index < SHARED {
        Region::Private(pid)
    } else {
        Region::Shared
    }
}

/// A process holds a live segment more often at an index that is reserved. Where it held nothing there, its descriptor says
/// where the segment is, with the rights of this access byte.
pub fn hold_more(store: &Store, regions: &mut Regions, pid: u16, index: u16, held: Held, access: u8)
    requires process { IsProcess regions.old pid }
    requires index { index < 8192 }
    requires reserved { is_reserved regions.old (region_of pid index) index ≡ true }
    requires same { IfSome (held_at regions.old pid index) (λ h. h.id ≡ held.id) }
    requires few { holds_of (held_at regions.old pid index) + held.holds < 2 ^ 32 }
    requires live { IsSome (entry_of store.now held.id) }
    requires some { 0 < held.holds }
    requires order { IsInOrder store.now regions.old }

    ensures grants { Grants regions.old regions.new pid index held access }
    ensures reserved { regions.new.reserved ≡ regions.old.reserved }
    ensures order { IsInOrder store.now regions.new }
    ensures guards { IsGuard store.now held.id access → IsGuarded store.now regions.old
        → IsGuarded store.now regions.new }
    ensures matches { MatchesHold store.now regions.old regions.new pid index held access }
{
    store.law();
    regions.law();
    regions.grant(pid, index, held, access);
    settle_one(store, regions, held.id);
    regions.law();
}

/// A process holds a live segment at an index of its region which nobody holds and which isn't reserved. It is reserved from
/// then on, and its descriptor says where the segment is, with the rights of this access byte.
pub fn hold_new(store: &Store, regions: &mut Regions, pid: u16, index: u16, held: Held, access: u8)
    requires process { IsProcess regions.old pid }
    requires free { IsRun (is_taken regions.old (region_of pid index)) (first_of (region_of pid index)) (end_of (region_of pid index)) 1 index }
    requires live { IsSome (entry_of store.now held.id) }
    requires some { 0 < held.holds }
    requires order { IsInOrder store.now regions.old }

    ensures grants { Grants regions.old regions.new pid index held access }
    ensures taken { TakesIndex regions.old regions.new pid index }
    ensures holds { KeepsHolds regions.old regions.new }
    ensures order { IsInOrder store.now regions.new }
    ensures guards { IsGuard store.now held.id access → IsGuarded store.now regions.old
        → IsGuarded store.now regions.new }
    ensures matches { MatchesHold store.now regions.old regions.new pid index held access }
{
    regions.law();
    regions.reserve(region_of(pid, index), index, 1);
    hold_more(store, regions, pid, index, held, access);
    regions.law();
}
