// The segments that a step needs, as far as they are known before it.
ghost use Rattle.std.specs.Prelude.{◌≡◌, ◌<◌, ◌≤◌, ◌+◌, ◌++◌, ◌∷◌, [], length, take, option_map, Some, None, IsSome, true, false, ◌⊎◌};
ghost use Rattle.o2_regions.specs.declared.held.Held.{Held as HeldThere};
ghost use Rattle.o2_regions.specs.Maps.{IsProcess};
ghost use Rattle.o2_segbus.specs.Bus.{held_under};
ghost use Rattle.o2_gate.specs.Targets.{targets};
ghost use Rattle.o2_stepping.specs.Rooms.{aimed_in, pair_of, seated_in};
ghost use Rattle.o2_stepping.specs.Here.{are_here, is_here};
ghost use Rattle.o2_stepping.specs.Seated.{HasWholeSeats, are_whole, is_whole};
ghost use Rattle.o2_segbus.specs.Guards.{AreAged};
ghost use Rattle.o2_segbus.specs.Seen.{AreNamed};
ghost use Rattle.o2_segbus.specs.Settled.{IsSettled};
ghost use Rattle.o2_segbus.specs.Words.{is_gone};
ghost use Rattle.o2_store.specs.Shelf.{entry_of};
ghost use Rattle.o2_service.specs.Needs.{AreWhole};
ghost use Rattle.o2_service.specs.Told.{IsHeldWell};

use o2_base::Selector;
use o2_desc::Access;
use o2_gate::{Arguments, selectors_of};
use o2_isa::Cpu;
use o2_place::SegId;
use o2_regions::Regions;
use o2_service::Need;
use o2_store::Store;

/// The segment that a selector names for a process, and none where it is null or names none.
pub fn named_segment(regions: &Regions, pid: u16, sel: u16) -> Option<SegId>
    requires { IsProcess regions.now pid }
    ensures { result ≡ option_map (λ h. h.id) (held_under regions.now pid sel) }
{
    if sel < 4 || sel / 4 % 2 != 1 {
        return None;
    }
    match regions.held(pid, sel / 8) {
        Some(held) => Some(held.id),
        None => None,
    }
}

/// One more segment, that of a selector, where it names one.
fn seat(need: &mut Need, regions: &Regions, pid: u16, sel: u16)
    requires process { IsProcess regions.now pid }
    requires room { length need.old < 16 }
    ensures seated { need.new ≡ need.old ++ pair_of (held_under regions.now pid sel) }
    ensures few { length need.new ≤ length need.old + 1 }
{
    if let Some(id) = named_segment(regions, pid, sel) {
        need.push(id, 0);
    }
}

/// The segments in the segment registers.
pub(crate) fn seats(regions: &Regions, pid: u16, cpu: &Cpu) -> Need
    requires { IsProcess regions.now pid }
    ensures seated { result ≡ seated_in regions.now pid cpu.now }
    ensures few { length result ≤ 4 }
{
    let mut need = Need::none();
    seat(&mut need, regions, pid, cpu.es);
    seat(&mut need, regions, pid, cpu.cs);
    seat(&mut need, regions, pid, cpu.ss);
    seat(&mut need, regions, pid, cpu.ds);
    need
}

/// The segments that a call on segments keeps in memory: those in the segment registers, and those behind its pointers.
pub fn call_need(arguments: Arguments, regions: &Regions, pid: u16, cpu: &Cpu) -> Need
    requires { IsProcess regions.now pid }
    ensures { result ≡ seated_in regions.now pid cpu.now ++ aimed_in regions.now pid arguments }
{
    let mut need = seats(regions, pid, cpu);
    let aims = selectors_of(arguments);
    for selector in aims.as_slice() {
        seat(&mut need, regions, pid, *selector);
    }
    need
}

/// Whether a selector names nothing, or a segment that is in memory.
#[inline(always)]
fn is_here(regions: &Regions, pid: u16, sel: u16) -> bool
    requires { IsProcess regions.now pid }
    ensures { result ≡ is_here regions.now pid sel }
{
    if sel < 4 || sel / 4 % 2 != 1 {
        return true;
    }
    match regions.descriptor(pid, sel / 8) {
        Some(descriptor) => Access(descriptor.access).is_present(),
        None => true,
    }
}

/// Whether all segments in the segment registers are in memory.
#[inline(always)]
pub fn are_here(regions: &Regions, pid: u16, cpu: &Cpu) -> bool
    requires { IsProcess regions.now pid }
    ensures { result ≡ are_here regions.now pid cpu.now }
{
    is_here(regions, pid, cpu.es)
        && is_here(regions, pid, cpu.cs)
        && is_here(regions, pid, cpu.ss)
        && is_here(regions, pid, cpu.ds)
}

/// Whether a segment that isn't stale was discarded.
#[tactic(auto, using(crate::proofs::SeatMarks::mark_tells, crate::proofs::SeatMarks::no_mark))]
fn is_gone(store: &Store, id: SegId) -> bool
    ensures { result ≡ is_gone (entry_of store.now id) }
{
    match store.attr(id) {
        Some(attr) => attr.gone,
        None => false,
    }
}

/// Whether a selector names nothing, or a segment that wasn't discarded.
#[tactic(auto, using(crate::proofs::SeatMarks::whole_tells, crate::proofs::SeatMarks::none_whole))]
fn is_whole(store: &Store, regions: &Regions, pid: u16, sel: u16) -> bool
    requires { IsProcess regions.now pid }
    ensures { result ≡ is_whole store.now regions.now pid sel }
{
    match named_segment(regions, pid, sel) {
        Some(id) => !is_gone(store, id),
        None => true,
    }
}

/// Whether none of the segments in the segment registers was discarded.
fn are_whole(store: &Store, regions: &Regions, pid: u16, cpu: &Cpu) -> bool
    requires { IsProcess regions.now pid }
    ensures { result ≡ are_whole store.now regions.now pid cpu.now }
{
    is_whole(store, regions, pid, cpu.es)
        && is_whole(store, regions, pid, cpu.cs)
        && is_whole(store, regions, pid, cpu.ss)
        && is_whole(store, regions, pid, cpu.ds)
}

/// Whether the segments in the segment registers may come into memory together, as none of them was discarded. Where all of them are
/// there, none was.
#[inline(always)]
pub(crate) fn may_serve(here: bool, store: &Store, regions: &Regions, pid: u16, cpu: &Cpu) -> bool
    requires process { IsProcess regions.now pid }
    requires aged { AreAged store.now }
    requires named { AreNamed store.now regions.now }
    requires held { IsHeldWell store.now regions.now }
    requires settled { IsSettled store.now regions.now }
    requires here { here ≡ true → are_here regions.now pid cpu.now ≡ true }
    ensures whole { result ≡ true → AreWhole store.now (seated_in regions.now pid cpu.now) }
    ensures gone { result ≡ false → HasWholeSeats store.now regions.now pid cpu.now → ⊥ }
{
    store.law();
    if here {
        return true;
    }
    are_whole(store, regions, pid, cpu)
}

/// The segment that was missed, too. False where nothing is held under its selector, or all places are taken.
pub(crate) fn add_missed(need: &mut Need, regions: &Regions, pid: u16, sel: Selector) -> bool
    requires { IsProcess regions.now pid }
    ensures added { result ≡ true → need.new ≡ need.old ++ pair_of (held_under regions.now pid sel.0) }
    ensures held { result ≡ true → IsSome (held_under regions.now pid sel.0) }
    ensures room { result ≡ true → length need.old < 16 }
    ensures none { result ≡ false → need.new ≡ need.old }
    ensures full { result ≡ false → (held_under regions.now pid sel.0 ≡ None) ⊎ (length need.old ≡ 16) }
{
    match named_segment(regions, pid, sel.0) {
        Some(id) => need.push(id, 0),
        None => false,
    }
}
