// The clock learns which segments were used.
ghost use Rattle.std.specs.Prelude.{◌≡◌, ◌<◌, Some, IsSome, true, false};
ghost use Rattle.o2_regions.specs.Accessed.{NoneAccessed};
ghost use Rattle.o2_place.specs.declared.seg_id.SegId.{SegId as SegIdThere};
ghost use Rattle.o2_regions.specs.declared.held.Held.{Held as HeldThere};
ghost use Rattle.o2_regions.specs.Accessed.{is_used_at};
ghost use Rattle.o2_regions.specs.Maps.{IsProcess, held_at};
ghost use Rattle.o2_regions.specs.Uses.{segment_in};
ghost use Rattle.o2_store.specs.Shelf.{entry_of};
ghost use Rattle.o2_regions.specs.declared.regions.Used.TheVariants as UsedThere;
ghost use Rattle.o2_segbus.specs.Settled.{IsSettled};
ghost use Rattle.o2_service.specs.Learned.{AreUnused, AreUnusedBelow, Learns, Touches, TouchesOne};
ghost use Rattle.o2_service.specs.Told.{IsHeldWell};

use o2_desc::Access;
use o2_place::SegId;
use o2_regions::{Regions, Used};
use o2_store::Store;

/// How often the list of accessed bits is asked at most: it has room for 256, and then says that it is at its end.
const ROUNDS: u32 = 257;

// Asks the list of accessed bits for the next one, and tells the clock.
fn learn_next(store: &mut Store, regions: &mut Regions) -> Used
    requires held { IsHeldWell store.old regions.old }
    ensures learned { Learns store.old store.new regions.old regions.new }
    ensures clear { result ≡ UsedThere.Clear → NoneAccessed regions.new.tables }
{
    store.law();
    let used = regions.next_used();
    touch_used(store, used);
    used
}

// Tells the clock of the segment of a use.
fn touch_used(store: &mut Store, used: Used)
    requires live { (id : SegIdThere)
        → segment_in used ≡ Some (Some id) → IsSome (entry_of store.old id) }
    ensures { Touches store.old store.new (segment_in used) }
{
    match used {
        Used::Segment(id) => touch(store, id),
        _ => {}
    }
}

// Tells the clock of a live segment.
fn touch(store: &mut Store, id: SegId)
    requires { IsSome (entry_of store.old id) }
    ensures { TouchesOne store.old store.new id }
{
    let _live = store.touch(id);
}

// Tells the clock of all that the list of accessed bits has, and whether these were all.
fn learn_listed(store: &mut Store, regions: &mut Regions) -> bool
    requires held { IsHeldWell store.old regions.old }
    ensures learned { Learns store.old store.new regions.old regions.new }
    ensures clear { result ≡ true → NoneAccessed regions.new.tables }
{
    for _round in 0..ROUNDS {
        match learn_next(store, regions) {
            Used::Clear => return true,
            Used::More => return false,
            _ => {}
        }
    }
    false
}

// Tells the clock of an index at which a process holds something, where its accessed bit is set.
fn learn_at(store: &mut Store, regions: &mut Regions, pid: u16, index: u16)
    requires process { IsProcess regions.old pid }
    requires index { index < 8192 }
    requires held { IsHeldWell store.old regions.old }
    ensures learned { Learns store.old store.new regions.old regions.new }
    ensures clear { (h : HeldThere)
        → held_at regions.old pid index ≡ Some h → is_used_at regions.new pid index ≡ false }
{
    store.law();
    let Some(held) = regions.held(pid, index) else {
        return;
    };
    let Some(descriptor) = regions.descriptor(pid, index) else {
        return;
    };
    if Access(descriptor.access).is_accessed() {
        regions.unmark(pid, index);
        touch(store, held.id);
    }
}

// Tells the clock of all that a process holds and whose accessed bit is set.
fn learn_process(store: &mut Store, regions: &mut Regions, pid: u16)
    requires process { IsProcess regions.old pid }
    requires held { IsHeldWell store.old regions.old }
    ensures learned { Learns store.old store.new regions.old regions.new }
    ensures clear { AreUnusedBelow regions.new pid 8192 }
{
    let mut from: u16 = 0;
    for _round in 0..8192u32 {
        let Some(index) = regions.next_held(pid, from) else {
            return;
        };
        learn_at(store, regions, pid, index);
        from = index + 1;
    }
}

// Tells the clock of all that is held and whose accessed bit is set.
fn learn_held(store: &mut Store, regions: &mut Regions)
    requires held { IsHeldWell store.old regions.old }
    ensures learned { Learns store.old store.new regions.old regions.new }
    ensures clear { AreUnused regions.new }
{
    regions.law();
    for pid in 1..regions.processes() + 1 {
        learn_process(store, regions, pid);
    }
}

/// Tells the clock which segments were used, by the accessed bits of the indexes at which they are held, and clears these
/// bits. The work is that of those bits that were set since the last time; where there were more than a list of fixed size
/// has room for, it is that of going over all that is held.
pub fn learn(store: &mut Store, regions: &mut Regions)
    requires held { IsHeldWell store.old regions.old }
    requires settled { IsSettled store.old regions.old }
    ensures learned { Learns store.old store.new regions.old regions.new }
    ensures clear { AreUnused regions.new }
{
    if learn_listed(store, regions) {
        return;
    }
    learn_held(store, regions);
    regions.list_anew();
}
