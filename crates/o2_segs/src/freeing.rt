// DosFreeSeg.
ghost use Rattle.std.specs.Prelude.{◌≡◌, ◌≢◌, ℕ, ◌≤◌, ◌<◌, ◌/◌, ◌==◌, ◌&&◌, ◌||◌, nat_le, nat_lt, not, Some, None, IsSome, is_some, if◌then◌else◌};
ghost use Rattle.o2_isa.specs.View.{is_local, is_null};
ghost use Rattle.std.specs.List.{list_any};
ghost use Rattle.o2_entries.specs.Tables.{slot_at};
ghost use Rattle.o2_regions.specs.Maps.{IsProcess, held_at};
ghost use Rattle.o2_changes.specs.Frames.{KeepsOrder};
ghost use Rattle.o2_segs.specs.Callers.{IsCaller};
ghost use Rattle.o2_changes.specs.Holding.{KeepsPlaces};
ghost use Rattle.o2_changes.specs.Order.{IsInOrder};
ghost use Rattle.o2_changes.specs.Holding.{TakesSome};
ghost use Rattle.o2_changes.specs.Worlds.{MatchesLoss};
ghost use Rattle.o2_stands.specs.Stands.{Matches};
ghost use Rattle.o2_stands.specs.Knows.{Others, known_in};
ghost use Rattle.o2_stands.specs.Parts.{Parts, cause_of};
ghost use Rattle.o2_world.specs.Changes.{with_all};
ghost use Rattle.o2_world.specs.Holders.{process_at};
ghost use Rattle.o2_world.specs.Rulings.{by_load, freeing, freeing_cpu, in_use, is_index};
ghost use Rattle.o2_world.specs.World.{Process, World};
ghost use Rattle.o2_segs.specs.Answers.{Answers};
ghost use Rattle.o2_segs.specs.Limits.{KeepsLimits};
ghost use Rattle.o2_segs.specs.Members.{MatchesFree, MatchesMembers, MayLose, TakesRun, end_in, freed_in, is_gone_in, is_last_in, is_later_in, members_in};

use crate::asking::{ACCESS_DENIED, done, held_under, refusal};
use o2_base::Selector;
use o2_changes::{free_run, let_go, lose};
use o2_isa::Cpu;
use o2_regions::{Answer, Cause, Held, Regions};
use o2_store::Store;

/// How many indexes there are.
const INDEXES: u32 = 8192;

/// DosFreeSeg(sel): takes one of the caller's holds of a segment, or of each member of the run that begins there. Where that was
/// the last one, the selector is gone, and DS and ES that named it are 0. 5 where the segment isn't held, came with a module, is in
/// a run but not its first, or is that of CS or SS, or a member of its run is.
pub fn free_seg(
    store: &mut Store,
    regions: &mut Regions,
    pid: u16,
    sel: u16,
    cpu: &mut Cpu,
) -> Answer
    requires caller { IsCaller store.old regions.old pid }

    ensures answer { (p : Parts) (o : Others) → p.shelf ≡ store.old → p.maps ≡ regions.old
        → Answers (freeing (known_in p o) pid sel cpu.old) result }
    ensures registers { (p : Parts) (o : Others) → p.shelf ≡ store.old → p.maps ≡ regions.old
        → cpu.new ≡ freeing_cpu (known_in p o) pid sel cpu.old }
    ensures limits { KeepsLimits store.old regions.old store.new regions.new 0 }
    ensures places { KeepsPlaces store.old store.new }
    ensures processes { regions.new.processes ≡ regions.old.processes }
    ensures goes_on { KeepsOrder store.old regions.old store.new regions.new }
    ensures matches { (p : Parts) (o : Others) (w : World) (x : Process) → p.shelf ≡ store.old
        → p.maps ≡ regions.old → process_at w.processes pid ≡ Some x
        → ((freeing (known_in p o) pid sel cpu.old).error ≡ 0 → MayLose w pid (sel / 8))
        → Matches p w → Matches (record p { shelf = store.new; maps = regions.new })
        (with_all w (freeing (known_in p o) pid sel cpu.old).changes) }
{
    regions.law();
    store.law();
    match held_under(regions, pid, sel) {
        Some(held) => {
            let index = Selector(sel).index();
            if is_kept(regions, cpu, pid, index, held) {
                return refusal(ACCESS_DENIED);
            }
            free_held(store, regions, pid, index, held, cpu);
            done(0)
        }
        None => refusal(ACCESS_DENIED),
    }
}

// Whether what is held at an index isn't freed: it came with a module, is in a run but not its first, or is that of CS or SS, or a
// member of its run is.
fn is_kept(regions: &Regions, cpu: &Cpu, pid: u16, index: u16, held: Held) -> bool
    requires process { IsProcess regions.now pid }
    ensures { result ≡ (by_load (cause_of held.cause) || is_later_in index held || in_use cpu.now (members_in regions.now pid index held)) }
{
    is_loaded(held.cause) || is_later(index, held) || is_used(regions, cpu, pid, index, held)
}

// Whether CS or SS names a member of what a process holds at an index.
fn is_used(regions: &Regions, cpu: &Cpu, pid: u16, index: u16, held: Held) -> bool
    requires process { IsProcess regions.now pid }
    ensures { result ≡ in_use cpu.now (members_in regions.now pid index held) }
{
    let code = names_one(regions, pid, cpu.cs, index, held);
    if code {
        return true;
    }
    names_one(regions, pid, cpu.ss, index, held)
}

/// Whether what is held at an index is in a run, but not its first.
pub fn is_later(index: u16, held: Held) -> bool
    ensures { result ≡ is_later_in index held }
{
    held.reserved != 0 && held.first != index
}

/// The index behind the last one of the stretch of a run, as far as there are indexes.
pub fn end_of_run(held: Held) -> u16
    ensures end { result ≡ end_in held }
    ensures most { result ≤ 8192 }
{
    let end = u32::from(held.first) + u32::from(held.reserved);
    end.min(INDEXES) as u16
}

// Whether a selector names a member of what a process holds at an index: the index alone, or one of its run.
fn names_one(regions: &Regions, pid: u16, selector: u16, index: u16, held: Held) -> bool
    requires process { IsProcess regions.now pid }
    ensures { result ≡ list_any (is_index selector) (members_in regions.now pid index held) }
{
    if held.reserved == 0 {
        return names(selector, index);
    }
    let local = is_of_table(selector);
    if local {
        return is_member(regions, pid, Selector(selector).index(), held);
    }
    false
}

// Whether a selector names an index of the local table.
fn is_of_table(selector: u16) -> bool
    ensures { result ≡ (not (is_null selector) && is_local selector) }
{
    let selector = Selector(selector);
    selector.0 > 3 && selector.is_local()
}

// Whether an index is that of a member of a run that a process holds.
fn is_member(regions: &Regions, pid: u16, index: u16, held: Held) -> bool
    requires process { IsProcess regions.now pid }
    requires index { index < 8192 }
    ensures { result ≡ (nat_le held.first index && (nat_lt index (end_in held) && is_some (held_at regions.now pid index))) }
{
    held.first <= index && index < end_of_run(held) && holds_at(regions, pid, index)
}

// Whether a process holds something at an index.
fn holds_at(regions: &Regions, pid: u16, index: u16) -> bool
    requires process { IsProcess regions.now pid }
    requires index { index < 8192 }
    ensures { result ≡ is_some (held_at regions.now pid index) }
{
    regions.held(pid, index).is_some()
}

// Whether a selector names a member of what a process holds at an index, of which only one hold is left.
fn names_last(regions: &Regions, pid: u16, selector: u16, index: u16, held: Held) -> bool
    requires process { IsProcess regions.now pid }
    ensures { result ≡ is_gone_in regions.now pid (members_in regions.now pid index held) selector }
{
    let named = names_one(regions, pid, selector, index, held);
    if named {
        return is_last(regions, pid, Selector(selector).index());
    }
    false
}

// Whether no hold is left of what a process holds at an index, once one goes.
fn is_last(regions: &Regions, pid: u16, index: u16) -> bool
    requires process { IsProcess regions.now pid }
    requires index { index < 8192 }
    ensures { result ≡ is_last_in (held_at regions.now pid index) }
{
    match regions.held(pid, index) {
        Some(held) => held.holds <= 1,
        None => false,
    }
}

// A selector as it is behind the free of what a process holds at an index: 0 where it named a member of which no hold is left.
fn behind_run(regions: &Regions, pid: u16, selector: u16, index: u16, held: Held) -> u16
    requires process { IsProcess regions.now pid }
    ensures { result ≡ (if is_gone_in regions.now pid (members_in regions.now pid index held) selector then 0 else selector) }
{
    if names_last(regions, pid, selector, index, held) {
        return 0;
    }
    selector
}

// DS and ES are 0 where they name a member of which only one hold is left.
fn clear_run(cpu: &mut Cpu, regions: &Regions, pid: u16, index: u16, held: Held)
    requires process { IsProcess regions.now pid }
    ensures { cpu.new ≡ freed_in regions.now pid (members_in regions.now pid index held) cpu.old }
{
    cpu.ds = behind_run(regions, pid, cpu.ds, index, held);
    cpu.es = behind_run(regions, pid, cpu.es, index, held);
}

// One hold goes of what a process holds at an index, or of each member of its run, and DS and ES are 0 where they named one that is
// gone. What nobody holds any more is gone.
fn free_held(
    store: &mut Store,
    regions: &mut Regions,
    pid: u16,
    index: u16,
    held: Held,
    cpu: &mut Cpu,
)
    requires process { IsProcess regions.old pid }
    requires index { index < 8192 }
    requires held { held_at regions.old pid index ≡ Some held }
    requires order { IsInOrder store.old regions.old }

    ensures registers { cpu.new ≡ freed_in regions.old pid (members_in regions.old pid index held) cpu.old }
    ensures limits { KeepsLimits store.old regions.old store.new regions.new 0 }
    ensures places { KeepsPlaces store.old store.new }
    ensures processes { regions.new.processes ≡ regions.old.processes }
    ensures goes_on { KeepsOrder store.old regions.old store.new regions.new }
    ensures matches { MatchesFree store.old store.new regions.old regions.new pid index held }
{
    if held.reserved == 0 {
        free_alone(store, regions, pid, index, held, cpu);
        return;
    }
    clear_run(cpu, regions, pid, index, held);
    free_members(store, regions, pid, index, held);
}

// The same of a segment alone.
fn free_alone(
    store: &mut Store,
    regions: &mut Regions,
    pid: u16,
    index: u16,
    held: Held,
    cpu: &mut Cpu,
)
    requires alone { held.reserved ≡ 0 }
    requires process { IsProcess regions.old pid }
    requires index { index < 8192 }
    requires held { held_at regions.old pid index ≡ Some held }
    requires order { IsInOrder store.old regions.old }

    ensures registers { cpu.new ≡ freed_in regions.old pid (members_in regions.old pid index held) cpu.old }
    ensures limits { KeepsLimits store.old regions.old store.new regions.new 0 }
    ensures places { KeepsPlaces store.old store.new }
    ensures processes { regions.new.processes ≡ regions.old.processes }
    ensures goes_on { KeepsOrder store.old regions.old store.new regions.new }
    ensures matches { MatchesFree store.old store.new regions.old regions.new pid index held }
{
    regions.law();
    store.law();
    let left = let_go(store, regions, pid, index, held);
    store.law();
    clear(cpu, index, left);
}

// One hold goes of each member of the run in which a process holds an index. Where nobody holds the run any more, its indexes are
// free.
fn free_members(store: &mut Store, regions: &mut Regions, pid: u16, index: u16, held: Held)
    requires process { IsProcess regions.old pid }
    requires held { held_at regions.old pid index ≡ Some held }
    requires run { held.reserved ≢ 0 }
    requires order { IsInOrder store.old regions.old }

    ensures limits { KeepsLimits store.old regions.old store.new regions.new 0 }
    ensures places { KeepsPlaces store.old store.new }
    ensures processes { regions.new.processes ≡ regions.old.processes }
    ensures goes_on { KeepsOrder store.old regions.old store.new regions.new }
    ensures matches { MatchesFree store.old store.new regions.old regions.new pid index held }
{
    regions.law();
    drop_members(store, regions, pid, held);
    regions.law();
    free_run(store, regions, pid, held.first, end_of_run(held));
    regions.law();
}

// One hold goes of each member of a run that a process holds, and its indexes stay reserved.
fn drop_members(store: &mut Store, regions: &mut Regions, pid: u16, held: Held)
    requires process { IsProcess regions.old pid }
    requires order { IsInOrder store.old regions.old }

    ensures takes { TakesRun regions.old regions.new pid held }
    ensures reserved { regions.new.reserved ≡ regions.old.reserved }
    ensures limits { KeepsLimits store.old regions.old store.new regions.new 0 }
    ensures places { KeepsPlaces store.old store.new }
    ensures goes_on { KeepsOrder store.old regions.old store.new regions.new }
    ensures matches { MatchesMembers store.old store.new regions.old regions.new pid held }
{
    let end = end_of_run(held).max(held.first);
    for index in held.first..end {
        drop_at(store, regions, pid, index);
    }
}

// One hold goes of what a process holds at an index, if it holds something there. The index stays reserved.
fn drop_at(store: &mut Store, regions: &mut Regions, pid: u16, index: u16)
    requires process { IsProcess regions.old pid }
    requires index { index < 8192 }
    requires order { IsInOrder store.old regions.old }

    ensures takes { TakesSome regions.old regions.new pid index 1 }
    ensures reserved { regions.new.reserved ≡ regions.old.reserved }
    ensures limits { KeepsLimits store.old regions.old store.new regions.new 0 }
    ensures places { KeepsPlaces store.old store.new }
    ensures goes_on { KeepsOrder store.old regions.old store.new regions.new }
    ensures lives { (k : ℕ) → IsSome (slot_at store.new.entries k) → IsSome (slot_at store.old.entries k) }
    ensures held { IsSome (held_at regions.old pid index)
        → MatchesLoss store.old store.new regions.old regions.new pid index 1 }
    ensures none { held_at regions.old pid index ≡ None
        → (store.new ≡ store.old) × (regions.new ≡ regions.old) }
{
    if let Some(member) = regions.held(pid, index) {
        drop_member(store, regions, pid, index, member);
        return;
    }
}

// One hold goes of what a process holds at an index that stays reserved.
fn drop_member(store: &mut Store, regions: &mut Regions, pid: u16, index: u16, member: Held)
    requires process { IsProcess regions.old pid }
    requires index { index < 8192 }
    requires held { held_at regions.old pid index ≡ Some member }
    requires order { IsInOrder store.old regions.old }

    ensures takes { TakesSome regions.old regions.new pid index 1 }
    ensures reserved { regions.new.reserved ≡ regions.old.reserved }
    ensures limits { KeepsLimits store.old regions.old store.new regions.new 0 }
    ensures places { KeepsPlaces store.old store.new }
    ensures goes_on { KeepsOrder store.old regions.old store.new regions.new }
    ensures lives { (k : ℕ) → IsSome (slot_at store.new.entries k) → IsSome (slot_at store.old.entries k) }
    ensures matches { MatchesLoss store.old store.new regions.old regions.new pid index 1 }
{
    regions.law();
    store.law();
    lose(store, regions, pid, index, member, 1);
    store.law();
}

// Whether a segment came with a module.
fn is_loaded(cause: Cause) -> bool
    ensures { result ≡ by_load (cause_of cause) }
{
    match cause {
        Cause::Loaded => true,
        Cause::Called => false,
        Cause::Alias => false,
    }
}

// Whether a selector names an index of the local table.
fn names(selector: u16, index: u16) -> bool
    ensures { result ≡ is_index selector index }
{
    let selector = Selector(selector);
    selector.0 > 3 && selector.is_local() && selector.index() == index
}

// A selector as it is behind a drop with so many holds left: 0 where it named the index and none is left.
fn behind(selector: u16, index: u16, left: u32) -> u16
    ensures { result ≡ (if is_index selector index && left == 0 then 0 else selector) }
{
    if names(selector, index) && left == 0 {
        return 0;
    }
    selector
}

// DS and ES are 0 where they name an index at which no hold is left.
fn clear(cpu: &mut Cpu, index: u16, left: u32)
    ensures { cpu.new ≡ record cpu.old { ds = (if is_index cpu.old.ds index && left == 0 then 0 else cpu.old.ds); es = (if is_index cpu.old.es index && left == 0 then 0 else cpu.old.es) } }
{
    cpu.ds = behind(cpu.ds, index, left);
    cpu.es = behind(cpu.es, index, left);
}
