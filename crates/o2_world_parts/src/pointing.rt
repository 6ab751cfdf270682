// Ranges behind the pointers that a call is given.
ghost use Rattle.std.specs.Prelude.{◌≡◌, ◌+◌, ◌≤◌, ℕ, length, take, drop, nat_le, option_map, IfOk, if◌then◌else◌};
ghost use Rattle.std.specs.Option.{option_copied};
ghost use Rattle.o2_isa.specs.View.{bound_in, is_local, is_null};
ghost use Rattle.o2_isa.specs.Pointers.{may_read, may_write, range_of};
ghost use Rattle.o2_isa.specs.Parts.{put_part};
ghost use Rattle.o2_world.specs.Slots.{may_have_heap};
ghost use Rattle.o2_world.specs.Views.{view_of, hold_of, holds_in, segment_bytes, bytes_in, discarded_in, with_bytes};
ghost use Rattle.o2_world_parts.specs.Effects.{written, is_behind, reaches};

use crate::look::{held_under, segment_of};
use crate::{Held, Process, Segment};
use o2_base::{Bytes, NoMemory};
use o2_desc::Access;
use o2_isa::Cpu;
use std::alloc::Global;

// Selectors.

/// A selector with which a register names nothing.
pub fn is_null(selector: u16) -> bool
    ensures { result ≡ is_null selector }
{
    selector < 4
}

/// A selector into a process's own table.
pub fn is_local(selector: u16) -> bool
    ensures { result ≡ is_local selector }
{
    selector / 4 % 2 == 1
}

/// What a segment register with this selector holds.
pub fn bound(held: &[(u16, Held)], selector: u16) -> Option<&Held>
    ensures { option_map hold_of (option_copied result) ≡ bound_in (holds_in held.now) selector }
{
    if is_null(selector) || !is_local(selector) {
        None
    } else {
        held_under(held, selector / 8)
    }
}

/// Whether so many bytes from an offset on are those of a name.
#[tactic(auto, using(crate::proofs::Pointers::bytes))]
fn has_bytes(names: &[(u64, Segment)], name: u64, offset: u16, count: u32) -> bool
    ensures { result ≡ nat_le (offset + count) (length (bytes_in names.now name)) }
{
    let end = offset as usize + count as usize;
    match segment_of(names, name) {
        None => end == 0,
        Some(segment) => end <= segment.size(),
    }
}

/// Whether a name is discarded.
#[tactic(auto, using(crate::proofs::Pointers::marks))]
fn is_discarded(names: &[(u64, Segment)], name: u64) -> bool
    ensures { result ≡ discarded_in names.now name }
{
    match segment_of(names, name) {
        None => false,
        Some(segment) => segment.discarded,
    }
}

/// Whether so many bytes from an offset on lie in what is held, which isn't discarded and may be written, or else read.
fn reaches(
    names: &[(u64, Segment)],
    writes: bool,
    offset: u16,
    count: u32,
    held: Option<&Held>,
) -> bool
    ensures { result ≡ reaches (bytes_in names.now) (discarded_in names.now) writes offset count (option_map hold_of (option_copied held.entry)) }
{
    match held {
        None => false,
        Some(held) => {
            Access(held.rights).is_readable()
                && (!is_discarded(names, held.name)
                    && ((!writes || Access(held.rights).is_writable())
                        && has_bytes(names, held.name, offset, count)))
        }
    }
}

/// Whether a pointer is good to write through.
#[tactic(auto, using(crate::proofs::Pointers::good))]
pub fn may_write(
    names: &[(u64, Segment)],
    process: &Process,
    selector: u16,
    offset: u16,
    count: u32,
) -> bool
    ensures { result ≡ may_write (view_of names.now process.now) selector offset count }
{
    count == 0 || reaches(names, true, offset, count, bound(&process.held, selector))
}

/// Whether a pointer is good to read through.
#[tactic(auto, using(crate::proofs::Pointers::good))]
pub fn may_read(
    names: &[(u64, Segment)],
    process: &Process,
    selector: u16,
    offset: u16,
    count: u32,
) -> bool
    ensures { result ≡ may_read (view_of names.now process.now) selector offset count }
{
    count == 0 || reaches(names, false, offset, count, bound(&process.held, selector))
}

/// Whether a heap may lie behind a selector.
#[tactic(auto, using(crate::proofs::Pointers::heaps))]
pub fn may_have_heap(names: &[(u64, Segment)], process: &Process, selector: u16) -> bool
    ensures { result ≡ may_have_heap (view_of names.now process.now) selector }
{
    reaches(names, true, 0, 0, bound(&process.held, selector))
}

/// The registers of a process.
pub fn registers(process: &Process) -> Cpu
    ensures { result ≡ process.now.cpu }
{
    process.cpu
}

fn copied_bytes(alloc: Global, segment: Option<&Segment>) -> Result<Vec<u8>, NoMemory>
    ensures { IfOk result (λ v. v.items ≡ segment_bytes (option_copied segment.entry)) }
{
    match segment {
        None => Ok(Vec::new(alloc)),
        Some(segment) => Ok(Vec::from_slice(alloc, &segment.bytes)?),
    }
}

pub fn bytes_of(alloc: Global, names: &[(u64, Segment)], name: u64) -> Result<Vec<u8>, NoMemory>
    ensures { IfOk result (λ v. v.items ≡ bytes_in names.now name) }
{
    copied_bytes(alloc, segment_of(names, name))
}

fn part_of(alloc: Global, bytes: &[u8], offset: u16, count: u16) -> Result<Vec<u8>, NoMemory>
    ensures { IfOk result (λ v. v.items ≡ take count (drop offset bytes.now)) }
{
    let from = offset as usize;
    let to = from + count as usize;
    if to > bytes.len() {
        return Err(NoMemory);
    }
    Ok(Vec::from_slice(alloc, &bytes[from..to])?)
}

/// The bytes of a range, which lies in its segment.
#[tactic(auto, unfolding(o2_isa::specs::Pointers::range_of), using(crate::proofs::Pointers::ranges))]
pub fn range(
    alloc: Global,
    names: &[(u64, Segment)],
    process: &Process,
    selector: u16,
    offset: u16,
    count: u16,
) -> Result<Vec<u8>, NoMemory>
    ensures { IfOk result (λ v. v.items ≡ range_of (holds_in process.now.held) (bytes_in names.now) selector offset count) }
{
    if count == 0 {
        return Ok(Vec::new(alloc));
    }
    match bound(&process.held, selector) {
        None => Ok(Vec::new(alloc)),
        Some(held) => {
            let bytes = bytes_of(alloc, names, held.name)?;
            part_of(alloc, &bytes, offset, count)
        }
    }
}

/// The first bytes, or all of fewer.
#[tactic(auto, using(std::proofs::lemmas::List::take_all))]
pub fn first(bytes: &[u8], count: u16) -> &[u8]
    ensures front { result.now ≡ take count bytes.now }
    ensures most { length result.now ≤ count }
{
    if (count as usize) < bytes.len() {
        &bytes[..count as usize]
    } else {
        bytes
    }
}

/// The first bytes of a segment, so many at most.
#[tactic(auto, unfolding(o2_isa::specs::Pointers::range_of), using(crate::proofs::Pointers::ranges))]
pub fn front(
    alloc: Global,
    names: &[(u64, Segment)],
    process: &Process,
    selector: u16,
    most: u16,
) -> Result<Vec<u8>, NoMemory>
    ensures { IfOk result (λ v. v.items ≡ range_of (holds_in process.now.held) (bytes_in names.now) selector 0 most) }
{
    if most == 0 {
        return Ok(Vec::new(alloc));
    }
    match bound(&process.held, selector) {
        None => Ok(Vec::new(alloc)),
        Some(held) => {
            let bytes = bytes_of(alloc, names, held.name)?;
            Ok(Vec::from_slice(alloc, first(&bytes, most))?)
        }
    }
}

// What is written.

fn put_part(alloc: Global, bytes: &[u8], at: u16, part: &[u8]) -> Result<Vec<u8>, NoMemory>
    ensures { IfOk result (λ v. v.items ≡ put_part bytes.now at part.now) }
{
    let from = at as usize;
    if from > bytes.len() || part.len() > bytes.len() - from {
        return Err(NoMemory);
    }
    let mut after = Vec::from_slice(alloc, &bytes[..from])?;
    after.extend_from_slice(part)?;
    after.extend_from_slice(&bytes[from + part.len()..])?;
    Ok(after)
}

fn is_name(held: Option<&Held>, name: u64) -> bool
    ensures { result ≡ is_behind (option_map hold_of (option_copied held.entry)) name }
{
    match held {
        None => false,
        Some(held) => name == held.name,
    }
}

fn is_behind(held: &[(u16, Held)], selector: u16, name: u64) -> bool
    ensures { result ≡ is_behind (bound_in (holds_in held.now) selector) name }
{
    is_name(bound(held, selector), name)
}

fn put_behind(
    alloc: Global,
    behind: bool,
    bytes: &[u8],
    offset: u16,
    part: &[u8],
) -> Result<Vec<u8>, NoMemory>
    ensures { IfOk result (λ v. v.items ≡ (if behind then put_part bytes.now offset part.now else bytes.now)) }
{
    if behind {
        put_part(alloc, bytes, offset, part)
    } else {
        Ok(Vec::from_slice(alloc, bytes)?)
    }
}

fn bytes_after(
    alloc: Global,
    names: &[(u64, Segment)],
    held: &[(u16, Held)],
    targets: &[(u16, u16)],
    parts: &[Bytes],
    name: u64,
) -> Result<Vec<u8>, NoMemory>
    ensures { IfOk result (λ v. v.items ≡ written (holds_in held.now) targets.now parts.now (bytes_in names.now) name) }
{
    let mut bytes = bytes_of(alloc, names, name)?;
    let count = targets.len().min(parts.len());
    for k in 0..count {
        let target = targets[k];
        let part = parts[k].as_slice();
        let behind = is_behind(held, target.0, name);
        bytes = put_behind(alloc, behind, &bytes, target.1, part)?;
    }
    Ok(bytes)
}

fn with(segment: &Segment, bytes: Vec<u8>) -> Result<Segment, NoMemory>
    ensures { IfOk result (λ s. s ≡ record segment.now { bytes = bytes.items }) }
{
    if bytes.len() > 65536 {
        return Err(NoMemory);
    }
    Ok(Segment {
        bytes,
        clean: segment.clean,
        code: segment.code,
        flags: segment.flags,
        lock: segment.lock,
        shared: segment.shared,
        discarded: segment.discarded,
    })
}

/// The names behind what is written.
#[tactic(auto, using(crate::proofs::Writing::rewriting, std::proofs::lemmas::Grind::common_steps))]
pub fn with_parts(
    alloc: Global,
    names: &[(u64, Segment)],
    held: &[(u16, Held)],
    targets: &[(u16, u16)],
    parts: &[Bytes],
) -> Result<Vec<(u64, Segment)>, NoMemory>
    ensures { IfOk result (λ v. v.items ≡ with_bytes names.now (written (holds_in held.now) targets.now parts.now (bytes_in names.now))) }
{
    let mut after = Vec::new(alloc);
    for pair in names {
        let bytes = bytes_after(alloc, names, held, targets, parts, pair.0)?;
        let segment = with(&pair.1, bytes)?;
        after.push((pair.0, segment))?;
    }
    Ok(after)
}
