// DosUnlockSeg.
ghost use Rattle.std.specs.Prelude.{◌≡◌, ◌-◌, ◌<◌, ◌==◌, if◌then◌else◌, nat_lt, IsSome, Some};
ghost use Rattle.o2_desc.specs.Bits.{has_bit};
ghost use Rattle.o2_store.specs.Shelf.{entry, entry_of};
ghost use Rattle.o2_changes.specs.Frames.{KeepsOrder};
ghost use Rattle.o2_segs.specs.Callers.{IsCaller};
ghost use Rattle.o2_changes.specs.Holding.{KeepsPlaces};
ghost use Rattle.o2_changes.specs.Order.{IsInOrder};
ghost use Rattle.o2_stands.specs.Stands.{Matches};
ghost use Rattle.o2_segs.specs.Answers.{Answers};
ghost use Rattle.o2_segs.specs.Limits.{KeepsLimits};
ghost use Rattle.o2_stands.specs.Knows.{Others, known_in};
ghost use Rattle.o2_stands.specs.Parts.{Parts};
ghost use Rattle.o2_world.specs.Changes.{with_all};
ghost use Rattle.o2_world.specs.Known.{Marks};
ghost use Rattle.o2_world.specs.Rulings.{unlocking, unlocking_with};
ghost use Rattle.o2_world.specs.World.{World};
ghost use Rattle.o2_locks.specs.Marked.{IsMarked};

use o2_changes::set_lock;
use o2_place::SegId;
use o2_regions::{Answer, Regions};
use o2_segs::{ACCESS_DENIED, done, held_under, refusal};
use o2_store::{Attr, Store};

/// ERROR_NOT_LOCKED: the segment isn't locked.
pub const NOT_LOCKED: u16 = 158;

/// How often a segment may be locked; one that is locked so often stays locked.
pub(crate) const MOST: u8 = 255;

/// The flag of a segment that may be discarded.
const DISCARDABLE: u8 = 4;

/// Whether a segment may be discarded, and so be locked.
pub(crate) fn is_discardable(attr: Attr) -> bool
    ensures { result ≡ has_bit attr.flags 2 }
{
    attr.flags / DISCARDABLE % 2 == 1
}

// A lock count less one, but for the highest.
fn one_less(lock: u8) -> u8
    ensures { result ≡ (if nat_lt lock 255 then lock - 1 else lock) }
{
    if lock < MOST {
        lock.saturating_sub(1)
    } else {
        lock
    }
}

/// DosUnlockSeg(sel): a discardable segment that the caller holds is locked once less; one that is locked 255 times stays so. 5
/// where no such segment is held, 158 where it isn't locked.
pub fn unlock_seg(store: &mut Store, regions: &mut Regions, pid: u16, sel: u16) -> Answer
    requires caller { IsCaller store.old regions.old pid }

    ensures answer { (p : Parts) (o : Others) → p.shelf ≡ store.old → p.maps ≡ regions.old
        → Answers (unlocking (known_in p o) pid sel) result }
    ensures limits { KeepsLimits store.old regions.old store.new regions.new 0 }
    ensures places { KeepsPlaces store.old store.new }
    ensures regions { regions.new ≡ regions.old }
    ensures goes_on { KeepsOrder store.old regions.old store.new regions.new }
    ensures matches { (p : Parts) (o : Others) (w : World) → p.shelf ≡ store.old
        → p.maps ≡ regions.old → Matches p w → Matches (record p { shelf = store.new })
        (with_all w (unlocking (known_in p o) pid sel).changes) }
{
    match held_under(regions, pid, sel) {
        Some(held) => unlock(store, regions, held.id),
        None => refusal(ACCESS_DENIED),
    }
}

// A live segment is locked once less, where it may be.
fn unlock(store: &mut Store, regions: &Regions, id: SegId) -> Answer
    requires live { IsSome (entry_of store.old id) }
    requires order { IsInOrder store.old regions.now }

    ensures answer { (m : Marks) → IsMarked (entry store.old id.key).attr m
        → Answers (unlocking_with id.age (Some m)) result }
    ensures limits { KeepsLimits store.old regions.now store.new regions.now 0 }
    ensures places { KeepsPlaces store.old store.new }
    ensures goes_on { KeepsOrder store.old regions.now store.new regions.now }
    ensures matches { (m : Marks) (p : Parts) (w : World) → IsMarked (entry store.old id.key).attr m → p.shelf ≡ store.old
        → p.maps ≡ regions.now → Matches p w → Matches (record p { shelf = store.new })
        (with_all w (unlocking_with id.age (Some m)).changes) }
{
    store.law();
    match store.attr(id) {
        Some(attr) => {
            if !is_discardable(attr) {
                return refusal(ACCESS_DENIED);
            }
            if attr.lock == 0 {
                return refusal(NOT_LOCKED);
            }
            set_lock(store, regions, id, one_less(attr.lock));
            done(0)
        }
        None => refusal(ACCESS_DENIED),
    }
}
