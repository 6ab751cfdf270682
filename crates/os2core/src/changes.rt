// What differs in two images.

use crate::facts::Told;
use crate::segment::bytes_of;
use o2_dump::{Core, Held, Process};
use o2_tool::unallocated;
use std::alloc::{AllocError, Global};
use std::io;
use std::process::ExitCode;

/// A number of an image with what stands around it, behind a mark, where the other image has another; how many lines that is.
fn tell_number(
    rt: &HostRuntime,
    mark: &str,
    front: &str,
    (one, other): (u64, u64),
    rest: &str,
) -> io::Result<u64> {
    if one == other {
        return Ok(0);
    }
    println!(rt; "{mark} {front}{one} {rest}")?;
    Ok(1)
}

/// The sizes and counts.
fn tell_head(rt: &HostRuntime, mark: &str, one: &Core, other: &Core) -> io::Result<u64> {
    let sizes = (one.memory.len() as u64, other.memory.len() as u64);
    let blocks = (u64::from(one.blocks), u64::from(other.blocks));
    let memory = tell_number(rt, mark, "memory ", sizes, "bytes")?;
    let blocks = tell_number(rt, mark, "swap device ", blocks, "blocks")?;
    let steps = tell_number(rt, mark, "", (one.steps, other.steps), "steps")?;
    let console = (one.console, other.console);
    let console = tell_number(rt, mark, "", console, "console bytes")?;
    Ok(
        memory
            .saturating_add(blocks)
            .saturating_add(steps)
            .saturating_add(console),
    )
}

/// Whether both are told by the same words.
fn is_same(alloc: Global, one: Told<'_>, other: Told<'_>) -> Result<bool, AllocError> {
    let one = format!(in alloc; "{one}")?;
    let other = format!(in alloc; "{other}")?;
    Ok(one.as_str() == other.as_str())
}

/// A line of an image behind a mark, where the other image has it otherwise or doesn't have it; how many lines that is. The line begins
/// with a word, a number and what parts these from the rest.
fn tell(
    rt: &HostRuntime,
    mark: &str,
    (word, number, part): (&str, u32, &str),
    one: Told<'_>,
    other: Option<Told<'_>>,
) -> io::Result<u64> {
    if let Some(other) = other {
        match is_same(rt.alloc(), one, other) {
            Ok(false) => {}
            Ok(true) => return Ok(0),
            Err(_) => return Err(unallocated()),
        }
    }
    println!(rt; "{mark} {word} {number}{part} {one}")?;
    Ok(1)
}

/// The segments.
fn tell_segments(rt: &HostRuntime, mark: &str, one: &Core, other: &Core) -> io::Result<u64> {
    let mut count = 0u64;
    let mut number = 0u32;
    for entry in one.segments.as_slice() {
        let same = match other.segments.as_slice().get(number as usize) {
            Some(entry) => Some(Told::Entry(entry)),
            None => None,
        };
        let line = ("segment", number, ":");
        count = count.saturating_add(tell(rt, mark, line, Told::Entry(entry), same)?);
        number = number.saturating_add(1);
    }
    Ok(count)
}

/// What the process of a number holds at an index, if it holds something there.
fn held_at(process: Option<&Process>, index: u16) -> Option<Told<'_>> {
    let held = process?.held.as_slice();
    let place = held.partition_point(|one| one.index < index);
    let found = held.get(place)?;
    if found.index == index {
        Some(Told::Held(found))
    } else {
        None
    }
}

/// What a process holds.
fn tell_held(
    rt: &HostRuntime,
    mark: &str,
    one: &Process,
    other: Option<&Process>,
) -> io::Result<u64> {
    let line = ("process", u32::from(one.number), ":");
    let mut count = 0u64;
    for held in one.held.as_slice() {
        let same = held_at(other, held.index);
        count = count.saturating_add(tell(rt, mark, line, Told::Held(held), same)?);
    }
    Ok(count)
}

/// A process.
fn tell_process(
    rt: &HostRuntime,
    mark: &str,
    one: &Process,
    other: Option<&Process>,
) -> io::Result<u64> {
    let number = u32::from(one.number);
    let (state, words, pointers) = match other {
        Some(other) => (
            Some(Told::State(other)),
            Some(Told::Words(other)),
            Some(Told::Pointers(other)),
        ),
        None => (None, None, None),
    };
    let first = tell(rt, mark, ("process", number, ""), Told::State(one), state)?;
    let line = ("process", number, ":");
    let second = tell(rt, mark, line, Told::Words(one), words)?;
    let third = tell(rt, mark, line, Told::Pointers(one), pointers)?;
    let held = tell_held(rt, mark, one, other)?;
    Ok(
        first
            .saturating_add(second)
            .saturating_add(third)
            .saturating_add(held),
    )
}

/// The process of this number, if there is one.
fn process_of(core: &Core, number: u16) -> Option<&Process> {
    for process in core.processes.as_slice() {
        if process.number == number {
            return Some(process);
        }
    }
    None
}

/// The lines of an image that the other has otherwise or doesn't have, behind a mark; how many there are.
fn tell_lines(rt: &HostRuntime, mark: &str, one: &Core, other: &Core) -> io::Result<u64> {
    let head = tell_head(rt, mark, one, other)?;
    let mut count = head.saturating_add(tell_segments(rt, mark, one, other)?);
    for process in one.processes.as_slice() {
        let same = process_of(other, process.number);
        count = count.saturating_add(tell_process(rt, mark, process, same)?);
    }
    Ok(count)
}

/// How many bytes differ in the part that both have, and the first place where they do.
fn differing(old: &[u8], new: &[u8]) -> (u64, u64) {
    let mut count = 0u64;
    let mut first = 0u64;
    for (at, (one, other)) in old.iter().zip(new).enumerate() {
        if one != other {
            if count == 0 {
                first = at as u64;
            }
            count = count.saturating_add(1);
        }
    }
    (count, first)
}

/// The bytes of a segment that both images have, where they differ; how many do.
fn list_bytes(rt: &HostRuntime, number: u32, old: &[u8], new: &[u8]) -> io::Result<u64> {
    let (count, first) = differing(old, new);
    if count > 0 {
        println!(rt; "  segment {number}: {count} bytes differ, the first at {first:04X}h")?;
    }
    Ok(count)
}

/// The bytes of a segment, where they differ from those of the second image; how many do, or none where that doesn't have it.
fn list_second(rt: &HostRuntime, number: u32, one: &[u8], new: &Core) -> io::Result<Option<u64>> {
    match bytes_of(rt, new, number) {
        Ok(Some(other)) => match list_bytes(rt, number, one, other.as_slice()) {
            Ok(count) => Ok(Some(count)),
            Err(error) => Err(error),
        },
        Ok(None) => Ok(None),
        Err(error) => Err(error),
    }
}

/// The bytes of a segment, where they differ; how many do, or none where one image doesn't have it.
fn list_content(rt: &HostRuntime, number: u32, old: &Core, new: &Core) -> io::Result<Option<u64>> {
    match bytes_of(rt, old, number) {
        Ok(Some(one)) => list_second(rt, number, one.as_slice(), new),
        Ok(None) => Ok(None),
        Err(error) => Err(error),
    }
}

/// The bytes of the segments that both images have, where they differ; how many do.
fn list_contents(rt: &HostRuntime, old: &Core, new: &Core) -> io::Result<u64> {
    let mut count = 0u64;
    for number in 0..u32::MAX {
        match list_content(rt, number, old, new)? {
            Some(more) => count = count.saturating_add(more),
            None => return Ok(count),
        }
    }
    Ok(count)
}

/// What differs: lines of the first image behind `-`, lines of the second behind `+`, and bytes of segments.
pub fn list(rt: &HostRuntime, old: &Core, new: &Core) -> io::Result<ExitCode> {
    let gone = tell_lines(rt, "-", old, new)?;
    let come = tell_lines(rt, "+", new, old)?;
    let bytes = list_contents(rt, old, new)?;
    if gone == 0 && come == 0 && bytes == 0 {
        println!(rt; "nothing differs")?;
    }
    Ok(ExitCode::SUCCESS)
}
