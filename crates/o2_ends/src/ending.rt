// The end of a process.
ghost use Rattle.std.specs.Prelude.{◌≡◌, ◌==◌, ℕ, ◌<◌, ◌≤◌, IsSome, Some, true, false, if◌then◌else◌};
ghost use Rattle.o2_regions.specs.declared.held.Held.{Held as HeldThere};
ghost use Rattle.o2_regions.specs.Lives.{lives};
ghost use Rattle.o2_regions.specs.Maps.{IsProcess, held_at};
ghost use Rattle.o2_segbus.specs.Settled.{IsSettled};
ghost use Rattle.o2_service.specs.Told.{IsHeldWell};
ghost use Rattle.o2_world.specs.World.{is_live};
ghost use Rattle.o2_stands.specs.Moves.{with_running};
ghost use Rattle.o2_stands.specs.Parts.{Parts, Running};
ghost use Rattle.o2_stands.specs.Stands.{AreMarked};
ghost use Rattle.o2_ends.specs.Ended.{StandsBehind};
ghost use Rattle.o2_ends.specs.LetsGo.{FreesAll, FreesAt, LetsGo, Sheds, goes_with};
ghost use Rattle.o2_store.specs.Idle.{NoneTaken};

use crate::drops::{drop_all, release_held, release_own};
use o2_regions::{Ends, Regions};
use o2_store::Store;

/// A process lets go of what it holds at an index: its holds there and its descriptor. A shared index may be chosen again where the
/// process didn't hold it by load and nobody holds it any more; of a run, all shared indexes may with the last member that the
/// process held, where nobody holds the run any more. The segment goes too, with its range and its blocks, where nobody holds it
/// any more.
fn let_go_at(pid: u16, index: u16, store: &mut Store, regions: &mut Regions)
    requires process { IsProcess regions.old pid }
    requires index { index < 8192 }
    requires some { IsSome (held_at regions.old pid index) }
    requires held { IsHeldWell store.old regions.old }
    ensures maps { LetsGo regions.old regions.new pid (λ i. i == index) }
    ensures frees { (h : HeldThere) → held_at regions.old pid index ≡ Some h
        → FreesAt regions.old regions.new (λ j. goes_with regions.new pid index h j) }
    ensures store { Sheds store.old regions.old store.new regions.new }
    ensures unused { NoneTaken store.old.swap → NoneTaken store.new.swap }
{
    store.law();
    regions.law();
    let Some(held) = regions.held(pid, index) else {
        return;
    };
    drop_all(regions, pid, index, held.holds);
    release_held(regions, pid, index, held);
    regions.law();
    if regions.holder(held.id, 0).is_none() {
        store.remove(held.id);
    }
    store.law();
}

/// A process lets go of all that it holds. Segments that nobody holds any more go, with their ranges and their blocks, and the
/// process's own indexes are free, with those shared ones of calls and of runs that nobody holds. The work is that of going over
/// what it holds and over those who hold the same segments and indexes.
pub fn let_go(pid: u16, store: &mut Store, regions: &mut Regions)
    requires process { IsProcess regions.old pid }
    requires held { IsHeldWell store.old regions.old }
    requires settled { IsSettled store.old regions.old }
    ensures maps { LetsGo regions.old regions.new pid (λ i. true) }
    ensures frees { FreesAll regions.old regions.new pid }
    ensures store { Sheds store.old regions.old store.new regions.new }
    ensures unused { NoneTaken store.old.swap → NoneTaken store.new.swap }
    ensures behind { StandsBehind pid store.old regions.old store.new regions.new }
{
    store.law();
    regions.law();
    let mut from = 0;
    while let Some(index) = regions.next_held(pid, from) {
        let_go_at(pid, index, store, regions);
        from = index + 1;
    }
    release_own(regions, pid);
    regions.law();
}

/// A process ends: it lives no more, and lets go of all that it holds.
pub fn end(pid: u16, store: &mut Store, regions: &mut Regions, ends: &mut Ends)
    requires process { IsProcess regions.old pid }
    requires most { pid ≤ 64 }
    requires held { IsHeldWell store.old regions.old }
    requires settled { IsSettled store.old regions.old }
    ensures marks { (n : ℕ) → lives ends.new n ≡ (if n == pid then false else lives ends.old n) }
    ensures marked { (p : Parts) (r : Running) → is_live r.state ≡ false → AreMarked ends.old p
        → AreMarked ends.new (with_running p pid r) }
    ensures maps { LetsGo regions.old regions.new pid (λ i. true) }
    ensures frees { FreesAll regions.old regions.new pid }
    ensures store { Sheds store.old regions.old store.new regions.new }
    ensures unused { NoneTaken store.old.swap → NoneTaken store.new.swap }
    ensures behind { StandsBehind pid store.old regions.old store.new regions.new }
{
    ends.end(pid);
    let_go(pid, store, regions);
}
