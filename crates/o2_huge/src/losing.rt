// Members of a run that a process loses.
ghost use Rattle.std.specs.Prelude.{◌≡◌, ◌≢◌, ℕ, ◌+◌, ◌<◌, ◌≤◌, ◌∷◌, [], ◌/◌, ◌&&◌, nat_le, nat_lt, not, None, if◌then◌else◌};
ghost use Rattle.o2_isa.specs.View.{is_local, is_null};
ghost use Rattle.o2_regions.specs.Maps.{held_at};
ghost use Rattle.o2_changes.specs.Holding.{KeepsHolds};
ghost use Rattle.o2_world.specs.HugeRulings.{names_one, without};
ghost use Rattle.o2_world.specs.Rulings.{indexes};
ghost use Rattle.o2_huge.specs.Cuts.{MatchesCut, MayCut, Shrinks};
ghost use Rattle.o2_huge.specs.Growth.{AreMembers, IsMemberAt};

use o2_base::Selector;
use o2_changes::lose;
use o2_isa::Cpu;
use o2_regions::Regions;
use o2_store::Store;

// All holds of a member go, and its segment with them where nobody else holds it.
fn cut_one(store: &mut Store, regions: &mut Regions, pid: u16, first: u16, index: u16)
    requires may_cut { MayCut store.old regions.old pid first index }
    requires index { index < 8192 }
    requires member { IsMemberAt regions.old pid first index }

    ensures shrinks { Shrinks store.old store.new regions.old regions.new }
    ensures others { (q i : ℕ) → (q ≡ pid → i ≢ index) → held_at regions.new q i ≡ held_at regions.old q i }
    ensures gone { held_at regions.new pid index ≡ None }
    ensures matches { MatchesCut store.old store.new regions.old regions.new pid (index ∷ []) }
{
    regions.law();
    store.law();
    match regions.held(pid, index) {
        Some(held) => {
            lose(store, regions, pid, index, held, held.holds);
            store.law();
        }
        None => {}
    }
}

/// A process loses so many members of the run from `first` on, behind its first one; their indexes stay reserved. Segments that nobody
/// holds any more go with their ranges and their blocks.
pub(crate) fn cut(
    store: &mut Store,
    regions: &mut Regions,
    pid: u16,
    first: u16,
    from: u16,
    count: u16,
)
    requires may_cut { MayCut store.old regions.old pid first from }
    requires inside { from + count ≤ 8192 }
    requires members { AreMembers regions.old pid first from (from + count) }

    ensures shrinks { Shrinks store.old store.new regions.old regions.new }
    ensures none { count ≡ 0 → KeepsHolds regions.old regions.new }
    ensures matches { MatchesCut store.old store.new regions.old regions.new pid (indexes from count) }
{
    for place in 0..count {
        cut_one(store, regions, pid, first, from + place);
    }
}

// Whether a selector of the local table has an index from one on, of so many.
fn is_between(selector: u16, from: u16, count: u16) -> bool
    requires { from + count ≤ 8192 }
    ensures { result ≡ (not (is_null selector) && (is_local selector && (nat_le from (selector / 8) && nat_lt (selector / 8) (from + count)))) }
{
    let selector = Selector(selector);
    let index = selector.index();
    selector.0 > 3 && selector.is_local() && from <= index && index < from + count
}

/// Whether a selector names one of so many indexes from one on.
pub(crate) fn names_one(selector: u16, from: u16, count: u16) -> bool
    requires { from + count ≤ 8192 }
    ensures { result ≡ names_one selector (indexes from count) }
{
    is_between(selector, from, count)
}

// A selector as it is behind the loss of so many indexes from one on.
fn behind(selector: u16, from: u16, count: u16) -> u16
    requires { from + count ≤ 8192 }
    ensures { result ≡ (if names_one selector (indexes from count) then 0 else selector) }
{
    if names_one(selector, from, count) {
        return 0;
    }
    selector
}

/// DS and ES are 0 where they named one of so many indexes from one on.
pub(crate) fn clear(cpu: &mut Cpu, from: u16, count: u16)
    requires { from + count ≤ 8192 }
    ensures { cpu.new ≡ without cpu.old (indexes from count) }
{
    cpu.ds = behind(cpu.ds, from, count);
    cpu.es = behind(cpu.es, from, count);
}
