// What a process holds, copied before its step.
ghost use Rattle.std.specs.Prelude.{◌≡◌, ◌≤◌, ◌<◌, length};
ghost use Rattle.o2_outer.specs.Devices.{swap_blocks};
ghost use Rattle.os2trace.specs.Going.{AreShown};

use crate::reading::bytes_of;
use o2_base::NoMemory;
use o2_bus::Plain;
use o2_desc::Access;
use o2_machine::Machine;
use o2_outer::SureSwap;
use o2_place::SegId;
use o2_trace::{Change, add_changes};
use std::alloc::{AllocError, Global};

/// A segment that is copied, and the lowest index by which its process holds it.
#[derive(Clone, Copy)]
struct Named {
    id: SegId,
    index: u16,
}

/// A memory in which a process holds what it holds in the machine.
#[derive(Drop)]
pub struct Copied {
    /// The process; 0 where nothing is copied that still stands.
    pub process: u16,
    pub memory: Plain,
    /// What each name of the memory is in the machine.
    named: Vec<Named>,
    /// The bytes that the last step changed.
    pub changes: Vec<Change>,
}

impl Copied {
    /// Nothing is copied.
    pub fn new(alloc: Global) -> Result<Copied, NoMemory> {
        Ok(Copied {
            process: 0,
            memory: Plain::new(alloc)?,
            named: Vec::new(alloc),
            changes: Vec::new(alloc),
        })
    }
}

/// The segment that a process holds at an index, and the rights to it; none where it holds none.
pub fn held(machine: &Machine, process: u16, index: u16) -> Option<(SegId, u8)>
    requires index { index < 8192 }
{
    let regions = &machine.space.regions;
    if process == 0 || process > regions.processes() {
        return None;
    }
    let held = regions.held(process, index)?;
    let descriptor = regions.descriptor(process, index)?;
    Some((held.id, Access(descriptor.access).rights().0))
}

/// The name of a segment that is copied already.
fn name_of(named: &[Named], id: SegId) -> Option<u32> {
    for (name, one) in named.iter().enumerate() {
        if one.id == id {
            return Some((name % 4_294_967_296) as u32);
        }
    }
    None
}

/// Whether a segment was discarded.
fn is_discarded(machine: &Machine, id: SegId) -> bool {
    match machine.space.store.attr(id) {
        Some(attr) => attr.gone,
        None => false,
    }
}

/// The bytes of one more segment. A load of one that was discarded misses.
fn add_segment(
    copied: &mut Copied,
    named: Named,
    is_whole: bool,
    bytes: Vec<u8>,
) -> Result<u32, NoMemory>
    requires small { length bytes.items ≤ 65536 }
{
    copied.named.push(named)?;
    let name = copied.memory.add(bytes)?;
    if !is_whole {
        copied.memory.show(name, false);
    }
    Ok(name)
}

/// The name of a segment that the process holds at an index, which is copied where it isn't yet.
fn copied_name(
    alloc: Global,
    machine: &Machine,
    swap: &mut SureSwap,
    copied: &mut Copied,
    id: SegId,
    index: u16,
) -> Result<Option<u32>, NoMemory>
    requires shown { AreShown machine.now }
    ensures blocks { swap_blocks swap.new ≡ swap_blocks swap.old }
{
    let known = name_of(copied.named.as_slice(), id);
    if known.is_some() {
        return Ok(known);
    }
    match bytes_of(alloc, &machine.space, id, swap)? {
        Some(bytes) => {
            if bytes.len() > 65536 {
                return Ok(None);
            }
            let is_whole = !is_discarded(machine, id);
            Ok(Some(add_segment(copied, Named { id, index }, is_whole, bytes)?))
        }
        None => Ok(None),
    }
}

/// The process holds in a copy what it holds at an index of the machine.
fn copy_one(
    alloc: Global,
    machine: &Machine,
    swap: &mut SureSwap,
    copied: &mut Copied,
    index: u16,
) -> Result<(), NoMemory>
    requires index { index < 8192 }
    requires shown { AreShown machine.now }
    ensures blocks { swap_blocks swap.new ≡ swap_blocks swap.old }
{
    let Some((id, access)) = held(machine, copied.process, index) else {
        return Ok(());
    };
    let Some(name) = copied_name(alloc, machine, swap, copied, id, index)? else {
        return Ok(());
    };
    if copied.memory.bytes(name).is_empty() {
        return Ok(());
    }
    copied
        .memory
        .hold(alloc, copied.process, index, name, access)
}

/// A process holds in a copy what it holds in the machine, unless it does already.
pub fn copy_of(
    alloc: Global,
    machine: &Machine,
    swap: &mut SureSwap,
    copied: &mut Copied,
    process: u16,
) -> Result<(), NoMemory>
    requires shown { AreShown machine.now }
    ensures blocks { swap_blocks swap.new ≡ swap_blocks swap.old }
{
    if copied.process == process {
        return Ok(());
    }
    copied.memory = Plain::new(alloc)?;
    copied.named.clear();
    copied.process = process;
    for index in 0..=8191u16 {
        copy_one(alloc, machine, swap, copied, index)?;
    }
    Ok(())
}

/// Adds the bytes that aren't what they were, as far as both go.
fn add_common(
    out: &mut Vec<Change>,
    selector: u16,
    old: &[u8],
    new: &[u8],
) -> Result<(), AllocError> {
    let count = old.len().min(new.len()).min(65536);
    add_changes(out, selector, &old[..count], &new[..count])
}

/// Adds the bytes of a segment that aren't what they were.
fn add_segment_changes(
    alloc: Global,
    machine: &Machine,
    swap: &mut SureSwap,
    named: Named,
    old: &[u8],
    out: &mut Vec<Change>,
) -> Result<(), AllocError>
    requires shown { AreShown machine.now }
    ensures blocks { swap_blocks swap.new ≡ swap_blocks swap.old }
{
    let selector = named.index % 8192 * 8 + 7;
    if let Some(window) = machine.space.store.window(named.id) {
        return add_common(out, selector, old, window);
    }
    match bytes_of(alloc, &machine.space, named.id, swap)? {
        Some(bytes) => add_common(out, selector, old, bytes.as_slice()),
        None => Ok(()),
    }
}

/// Whether a process still holds a segment at its index.
fn is_held(machine: &Machine, process: u16, named: Named) -> bool {
    match held(machine, process, named.index % 8192) {
        Some((id, _)) => id == named.id,
        None => false,
    }
}

/// What the step changed of what its process held before it and still holds.
pub fn changes_of(
    alloc: Global,
    machine: &Machine,
    swap: &mut SureSwap,
    copied: &mut Copied,
) -> Result<(), AllocError>
    requires shown { AreShown machine.now }
    ensures blocks { swap_blocks swap.new ≡ swap_blocks swap.old }
{
    copied.changes.clear();
    for (name, named) in copied.named.iter().enumerate() {
        if is_held(machine, copied.process, *named) {
            let old = copied.memory.bytes((name % 4_294_967_296) as u32);
            add_segment_changes(alloc, machine, swap, *named, old, &mut copied.changes)?;
        }
    }
    Ok(())
}
