// The script's word `discard` over a store.
ghost use Rattle.std.specs.Prelude.{◌≡◌, ℕ, List, length, IsSome};
ghost use Rattle.o2_isa.specs.View.{bound_in};
ghost use Rattle.o2_regions.specs.Maps.{IsProcess};
ghost use Rattle.o2_segbus.specs.Seen.{hold_in};
ghost use Rattle.o2_changes.specs.Frames.{KeepsOrder};
ghost use Rattle.o2_changes.specs.Order.{IsInOrder};
ghost use Rattle.o2_service.specs.Told.{OnlyTables};
ghost use Rattle.o2_shared.specs.Texts.{IsBehind};
ghost use Rattle.o2_stands.specs.Parts.{Parts};
ghost use Rattle.o2_stands.specs.Stands.{Matches, Stands};
ghost use Rattle.o2_entries.specs.Tables.{slot_at};
ghost use Rattle.o2_segs.specs.Limits.{KeepsLimits};
ghost use Rattle.o2_store.specs.Idle.{NoneTaken};
ghost use Rattle.o2_store.specs.Needs.{has_age};
ghost use Rattle.o2_store.specs.Shelf.{entry, entry_of};
ghost use Rattle.o2_swapmap.specs.Piles.{all_of};
ghost use Rattle.o2_calls.specs.SharedActs.{AreSpelled};
ghost use Rattle.o2_world.specs.Discards.{is_of};
ghost use Rattle.o2_world.specs.Run.{with_word};
ghost use Rattle.o2_world.specs.World.{World};
ghost use Rattle.o2_space.specs.Frames.{AddsNone, KeepsSpace};
ghost use Rattle.o2_space.specs.Parts.{parts_in, running_at};
ghost use Rattle.o2_space.specs.Stands.{GoTogether};
ghost use Rattle.o2_space.specs.Words.{are_seated, discarded_where, goes_by, is_at, seats_in};

use crate::acting::is_live;
use crate::space::{Proc, Space};
use o2_changes::discard;
use o2_place::SegId;
use o2_regions::Regions;
use o2_stands::lawful;
use o2_stepping::named_segment;
use o2_store::Store;

// Whether the selector in a segment register of a process names this segment.
fn is_named(regions: &Regions, pid: u16, sel: u16, id: SegId) -> bool
    requires { IsProcess regions.now pid }
    ensures { result ≡ is_of id.age (bound_in (hold_in regions.now pid) sel) }
{
    match named_segment(regions, pid, sel) {
        Some(it) => it.age == id.age,
        None => false,
    }
}

// Whether a process goes on and has this segment in a segment register.
fn seats(regions: &Regions, pid: u16, process: &Proc, id: SegId) -> bool
    requires { IsProcess regions.now pid }
    ensures { result ≡ seats_in regions.now pid process.now id.age }
{
    is_live(process.state)
        && ((is_named(regions, pid, process.cpu.es, id)
            || is_named(regions, pid, process.cpu.cs, id))
            || (is_named(regions, pid, process.cpu.ss, id)
                || is_named(regions, pid, process.cpu.ds, id)))
}

// Whether a segment stands in a segment register of a process that goes on.
fn is_seated(regions: &Regions, procs: &[Proc], id: SegId) -> bool
    requires numbers { length procs.now ≡ regions.now.processes }
    ensures { result ≡ are_seated regions.now 1 procs.now id.age }
{
    for k in 0..regions.processes() {
        if seats(regions, k + 1, &procs[k as usize], id) {
            return true;
        }
    }
    false
}

// Whether a live segment goes at the word.
fn goes(store: &Store, regions: &Regions, procs: &[Proc], id: SegId) -> bool
    requires live { IsSome (entry_of store.now id) }
    requires numbers { length procs.now ≡ regions.now.processes }
    ensures { result ≡ goes_by (entry store.now id.key).attr (are_seated regions.now 1 procs.now id.age) }
{
    match store.attr(id) {
        Some(attr) => {
            (!attr.gone && (attr.flags / 4 % 2 == 1 && !attr.clean))
                && (attr.lock == 0 && !is_seated(regions, procs, id))
        }
        None => false,
    }
}

// The segment of a number, where it has one that goes.
fn discard_at(store: &mut Store, regions: &mut Regions, procs: &[Proc], key: u32)
    requires order { IsInOrder store.old regions.old }
    requires numbers { length procs.now ≡ regions.old.processes }
    ensures limits { KeepsLimits store.old regions.old store.new regions.new 0 }
    ensures ages { (k q : ℕ) → has_age (slot_at store.new.entries k) q ≡ has_age (slot_at store.old.entries k) q }
    ensures maps { OnlyTables regions.old regions.new }
    ensures goes_on { KeepsOrder store.old regions.old store.new regions.new }
    ensures matches { (p : Parts) (w : World) → p.shelf ≡ store.old → p.maps ≡ regions.old → p.running ≡ running_at procs.now
        → Matches p w → Matches (record p { shelf = store.new; maps = regions.new })
        (record w { names = discarded_where (is_at store.old key) w.processes w.names }) }
{
    store.law();
    match store.numbered(key) {
        Some(id) => {
            if goes(store, regions, procs, id) {
                discard(store, regions, id);
                store.law();
            }
        }
        None => {}
    }
}

// All segments that go.
fn discard_each(store: &mut Store, regions: &mut Regions, procs: &[Proc])
    requires order { IsInOrder store.old regions.old }
    requires numbers { length procs.now ≡ regions.old.processes }
    ensures limits { KeepsLimits store.old regions.old store.new regions.new 0 }
    ensures ages { (k q : ℕ) → has_age (slot_at store.new.entries k) q ≡ has_age (slot_at store.old.entries k) q }
    ensures maps { OnlyTables regions.old regions.new }
    ensures goes_on { KeepsOrder store.old regions.old store.new regions.new }
    ensures matches { (p : Parts) (w : World) → p.shelf ≡ store.old → p.maps ≡ regions.old → p.running ≡ running_at procs.now
        → Matches p w → Matches (record p { shelf = store.new; maps = regions.new }) (with_word w) }
{
    store.law();
    for key in 0..store.segments() {
        discard_at(store, regions, procs, key);
    }
}

impl Space {
    /// The script's word `discard`: each segment goes that is discardable, neither clean nor locked, and stands in no segment register of
    /// a process that goes on. It leaves the memory, its bytes are zeros that are kept nowhere, and all else of it stays. No device is
    /// asked, nothing is put, and no process takes a step. The work is that of going over all segments.
    pub fn discard_all(&mut self)
        requires together { GoTogether self.old (all_of self.old.store.swap) }

        // From a machine that stands for a world, and keeps the names of its texts, the world behind the word.
        ensures stands { (device : ℕ) (block : ℕ → List ℕ) (w : World)
            → Stands (parts_in self.old device block) w → Stands (parts_in self.new device block) (with_word w) }
        ensures spells { (w : World) → AreSpelled self.old.store self.old.names w
            → AreSpelled self.new.store self.new.names (with_word w) }

        // The parts go on to go together, and all but store and descriptors is as before.
        ensures together { (device : ℕ) → GoTogether self.old device → GoTogether self.new device }
        ensures keeps { KeepsSpace self.old self.new }
        ensures adds { AddsNone self.old self.new }
        ensures behind { IsBehind self.old.store self.new.store }
        ensures unused { NoneTaken self.old.store.swap → NoneTaken self.new.store.swap }
        ensures procs { self.new.procs ≡ self.old.procs }
        ensures ends { self.new.ends ≡ self.old.ends }
        ensures names { self.new.names ≡ self.old.names }
        ensures services { self.new.services ≡ self.old.services }
    {
        lawful(&self.store, &self.regions);
        discard_each(&mut self.store, &mut self.regions, &self.procs);
        lawful(&self.store, &self.regions);
    }
}
