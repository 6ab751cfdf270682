// A process holds a segment from its start on.
ghost use Rattle.std.specs.Prelude.{◌≡◌, ◌≤◌, ◌<◌, false, true, length, None, IfSome, is_some};
ghost use Rattle.o2_regions.specs.declared.held.Region.TheVariants.{Private, Shared};
ghost use Rattle.o2_regions.specs.Maps.{IsProcess, held_at, is_reserved, table_of, with_reserved};
ghost use Rattle.o2_opening.specs.Loads.{Clears, Loads};

use crate::reserving::FIRST_SHARED;
use o2_place::SegId;
use o2_regions::{Cause, Held, Region, Regions};

/// Reserves an index of a process that it doesn't hold, where it is one of its own.
fn reserve_own(regions: &mut Regions, pid: u16, index: u16)
    requires process { IsProcess regions.old pid }
    requires some { 1 ≤ index }
    requires unheld { held_at regions.old pid index ≡ None }
    requires free { index < 4096 → is_reserved regions.old (Private pid) index ≡ false }
    ensures own { index < 4096 → regions.new ≡ with_reserved regions.old (Private pid) index 1 true }
    ensures shared { 4096 ≤ index → regions.new ≡ regions.old }
{
    if index < FIRST_SHARED {
        regions.reserve(Region::Private(pid), index, 1);
    }
}

/// Takes away what a process holds once at an index, which is reserved then, whether it was or not.
fn clear(regions: &mut Regions, pid: u16, index: u16)
    requires process { IsProcess regions.old pid }
    requires some { 1 ≤ index }
    requires index { index < 8192 }
    requires once { IfSome (held_at regions.old pid index) (λ h. h.holds ≡ 1) }
    requires own { index < 4096 → is_reserved regions.old (Private pid) index ≡ is_some (held_at regions.old pid index) }
    requires shared { 4096 ≤ index → is_reserved regions.old Shared index ≡ true }
    ensures { Clears regions.old regions.new pid index }
{
    regions.law();
    match regions.drop_one(pid, index) {
        Some(_) => {}
        None => {
            regions.law();
            reserve_own(regions, pid, index);
        }
    }
}

/// A process holds a segment by load, once, under an index, in place of what it held there. The descriptors of all who hold it
/// say that it has this limit and isn't in memory.
pub(crate) fn load(regions: &mut Regions, pid: u16, index: u16, id: SegId, rights: u8, limit: u16)
    requires process { IsProcess regions.old pid }
    requires some { 1 ≤ index }
    requires index { index < 8192 }
    requires once { IfSome (held_at regions.old pid index) (λ h. h.holds ≡ 1) }
    requires own { index < 4096 → is_reserved regions.old (Private pid) index ≡ is_some (held_at regions.old pid index) }
    requires shared { 4096 ≤ index → is_reserved regions.old Shared index ≡ true }
    requires within { index < length (table_of regions.old pid) }
    ensures { Loads regions.old regions.new pid index id rights limit }
{
    clear(regions, pid, index);
    regions.law();
    let held = Held {
        id,
        holds: 1,
        cause: Cause::Loaded,
        first: 0,
        reserved: 0,
    };
    regions.grant(pid, index, held, rights);
    regions.describe(id, None, limit);
}
