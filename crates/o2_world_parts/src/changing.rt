// The changes that calls make, as values, and what each does to the lists of a world.
ghost use Rattle.std.specs.Prelude.{◌≡◌, ◌∷◌, [], false, IfOk, Some, None};
ghost use Rattle.std.specs.List.{list_any};
ghost use Rattle.o2_world.specs.Changes.{Makes};
ghost use Rattle.std.specs.Option.{option_copied};
ghost use Rattle.o2_world.specs.Map.{put, at_key};
ghost use Rattle.o2_world.specs.Holders.{kept};
ghost use Rattle.o2_world.specs.Changes.{more, fewer, resized, at_number, used, told_of, takes, swept, marked, with_change, with_changes, with_all};
ghost use Rattle.o2_world_parts.specs.Edits.{change_of, changes_of};
ghost use Rattle.o2_world_parts.specs.Pairs.{keyed, with_size, with_lock, with_more, with_fewer, ended};

use crate::look::{held_under, is_held, is_used};
use crate::{Held, Process, Reserve, Segment};
use o2_base::{Bytes, NoMemory};
use o2_world::State;
use std::alloc::Global;

/// A change of the world.
#[derive(Drop)]
pub enum Edit {
    /// A segment with the next name.
    Makes(Segment),
    /// A name's bytes are cut, or zeros come behind them.
    Resizes(u64, u32),
    /// A name's lock count.
    Locks(u64, u8),
    /// A name is discarded no more.
    Revives(u64),
    /// So many holds more of a process and index; where there were none, all that is held.
    Holds(u16, u16, Held),
    /// So many holds less of a process and index.
    Drops(u16, u16, u32),
    /// A process has ended, and holds nothing more.
    Finishes(u16, State),
    /// Indexes are reserved.
    Reserves(Reserve),
    /// A text is that of a name.
    Names(Bytes, u64),
}

pub fn put_first<T: Drop>(items: &mut Vec<T>, item: T) -> Result<(), NoMemory>
    ensures { IfOk result (λ _. items.new.items ≡ item ∷ items.old.items) }
{
    items.insert(0, item)?;
    Ok(())
}

// Segments.

fn resize(segment: &mut Segment, size: u32) -> Result<(), NoMemory>
    ensures { IfOk result (λ _. segment.new ≡ with_size size segment.old) }
{
    if size > 65536 {
        return Err(NoMemory);
    }
    segment.bytes.resize(size as usize, 0)?;
    Ok(())
}

fn resize_pair(pair: &mut (u64, Segment), name: u64, size: u32) -> Result<(), NoMemory>
    ensures { IfOk result (λ _. pair.new ≡ keyed name (with_size size) pair.old) }
{
    if pair.0 == name {
        resize(&mut pair.1, size)?;
    }
    Ok(())
}

#[tactic(auto, using(crate::proofs::Mapped::mapped))]
pub fn resize_in(names: &mut Vec<(u64, Segment)>, name: u64, size: u32) -> Result<(), NoMemory>
    ensures { IfOk result (λ _. names.new.items ≡ at_key name (with_size size) names.old.items) }
{
    for k in 0..names.len() {
        resize_pair(&mut names[k], name, size)?;
    }
    Ok(())
}

fn lock_pair(pair: &mut (u64, Segment), name: u64, count: u8)
    ensures { pair.new ≡ keyed name (with_lock count) pair.old }
{
    if pair.0 == name {
        pair.1.lock = count;
    }
}

#[tactic(auto, using(crate::proofs::Mapped::mapped))]
pub fn lock_in(names: &mut Vec<(u64, Segment)>, name: u64, count: u8)
    ensures { names.new.items ≡ at_key name (with_lock count) names.old.items }
{
    for k in 0..names.len() {
        lock_pair(&mut names[k], name, count);
    }
}

fn revive_pair(pair: &mut (u64, Segment), name: u64)
    ensures { pair.new ≡ keyed name (marked false) pair.old }
{
    if pair.0 == name {
        pair.1.discarded = false;
    }
}

#[tactic(auto, using(crate::proofs::Mapped::mapped))]
pub fn revive_in(names: &mut Vec<(u64, Segment)>, name: u64)
    ensures { names.new.items ≡ at_key name (marked false) names.old.items }
{
    for k in 0..names.len() {
        revive_pair(&mut names[k], name);
    }
}

// Holds.

fn more(held: &Held, old: Option<&Held>) -> Result<Held, NoMemory>
    ensures { IfOk result (λ h. Some h ≡ more held.now (option_copied old.entry)) }
{
    match old {
        None => Ok(held.copy()),
        Some(old) => {
            let Some(holds) = old.holds.checked_add(held.holds) else {
                return Err(NoMemory);
            };
            let mut all = old.copy();
            all.holds = holds;
            Ok(all)
        }
    }
}

fn fewer(count: u32, old: Option<&Held>) -> Option<Held>
    ensures { result ≡ fewer count (option_copied old.entry) }
{
    let old = old?;
    if count < old.holds {
        let mut left = old.copy();
        left.holds -= count;
        Some(left)
    } else {
        None
    }
}

fn without(held: &mut Vec<(u16, Held)>, index: u16)
    ensures { held.new.items ≡ put index None held.old.items }
{
    held.retain(|pair| pair.0 != index);
}

fn hold(process: &mut Process, index: u16, held: &Held) -> Result<(), NoMemory>
    ensures { IfOk result (λ _. process.new ≡ with_more index held.now process.old) }
{
    let all = more(held, held_under(&process.held, index))?;
    put_first(&mut process.held, (index, all))
}

fn drop_holds(process: &mut Process, index: u16, count: u32) -> Result<(), NoMemory>
    ensures { IfOk result (λ _. process.new ≡ with_fewer index count process.old) }
{
    match fewer(count, held_under(&process.held, index)) {
        Some(left) => put_first(&mut process.held, (index, left)),
        None => {
            without(&mut process.held, index);
            Ok(())
        }
    }
}

fn end(process: &mut Process, state: State)
    ensures { process.new ≡ ended state process.old }
{
    process.state = state;
    process.held.clear();
}

#[tactic(auto, using(crate::proofs::Places::places))]
pub fn hold_at(
    processes: &mut Vec<Process>,
    number: u16,
    index: u16,
    held: &Held,
) -> Result<(), NoMemory>
    ensures { IfOk result (λ _. processes.new.items ≡ at_number number (with_more index held.now) processes.old.items) }
{
    if number == 0 || number as usize > processes.len() {
        return Ok(());
    }
    hold(&mut processes[number as usize - 1], index, held)
}

#[tactic(auto, using(crate::proofs::Places::places))]
pub fn drop_at(
    processes: &mut Vec<Process>,
    number: u16,
    index: u16,
    count: u32,
) -> Result<(), NoMemory>
    ensures { IfOk result (λ _. processes.new.items ≡ at_number number (with_fewer index count) processes.old.items) }
{
    if number == 0 || number as usize > processes.len() {
        return Ok(());
    }
    drop_holds(&mut processes[number as usize - 1], index, count)
}

#[tactic(auto, using(crate::proofs::Places::places))]
pub fn end_at(processes: &mut Vec<Process>, number: u16, state: State)
    ensures { processes.new.items ≡ at_number number (ended state) processes.old.items }
{
    if number != 0 && number as usize <= processes.len() {
        end(&mut processes[number as usize - 1], state);
    }
}

// What nobody holds.

pub fn keep_held(names: &mut Vec<(u64, Segment)>, processes: &[Process])
    ensures { names.new.items ≡ kept processes.now names.old.items }
{
    names.retain(|pair| is_held(processes, pair.0));
}

pub fn keep_used(reserved: &mut Vec<Reserve>, processes: &[Process])
    ensures { reserved.new.items ≡ used processes.now reserved.old.items }
{
    reserved.retain(|reserve| is_used(processes, reserve));
}

pub fn keep_told(texts: &mut Vec<(Bytes, u64)>, processes: &[Process])
    ensures { texts.new.items ≡ told_of processes.now texts.old.items }
{
    texts.retain(|text| is_held(processes, text.1));
}

fn takes(edit: &Edit) -> bool
    ensures { result ≡ takes (change_of edit.now) }
{
    match edit {
        Edit::Makes(_) => false,
        Edit::Resizes(_, _) => false,
        Edit::Locks(_, _) => false,
        Edit::Revives(_) => false,
        Edit::Holds(_, _, _) => false,
        Edit::Drops(_, _, _) => true,
        Edit::Finishes(_, _) => true,
        Edit::Reserves(_) => false,
        Edit::Names(_, _) => false,
    }
}

pub fn any_takes(edits: &[Edit]) -> bool
    ensures { result ≡ list_any (λ e. takes (change_of e)) edits.now }
{
    edits.iter().any(|edit| takes(edit))
}
