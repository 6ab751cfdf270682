// The memory, the segments that aren't in it, and the swap device, as text.

use crate::facts::Told;
use crate::holders::{HeldBy, Holder, of_segment};
use crate::spans::{Span, spans};
use o2_dump::{Block, Core, Place, SegmentEntry};
use o2_tool::unallocated;
use std::alloc::AllocError;
use std::io;

/// The sizes and counts.
pub fn list_head(rt: &HostRuntime, core: &Core) -> io::Result<()> {
    println!(rt;
        "memory {} bytes, swap device {} blocks, {} segments, {} processes",
        core.memory.len(),
        core.blocks,
        core.segments.as_slice().len(),
        core.processes.as_slice().len()
    )?;
    println!(rt; "{} steps, {} console bytes", core.steps, core.console)
}

/// A part of the memory that a segment has.
fn list_segment(
    rt: &HostRuntime,
    holders: &[Holder],
    number: u32,
    entry: &SegmentEntry,
    span: &Span,
) -> io::Result<()> {
    let held = HeldBy(of_segment(holders, number));
    println!(rt;
        "  {:06X}h {:06X}h  segment {number}: {}; held by {held}",
        span.from,
        span.to,
        Told::Segment(entry)
    )
}

/// A part of the memory.
fn list_span(rt: &HostRuntime, core: &Core, holders: &[Holder], span: &Span) -> io::Result<()> {
    if span.from == span.to {
        return Ok(());
    }
    let Some(number) = span.segment else {
        return println!(rt; "  {:06X}h {:06X}h  free", span.from, span.to);
    };
    match core.segments.as_slice().get(number as usize) {
        Some(entry) => list_segment(rt, holders, number, entry, span),
        None => Ok(()),
    }
}

/// The parts of the memory.
fn list_spans(rt: &HostRuntime, core: &Core, holders: &[Holder], spans: &[Span]) -> io::Result<()> {
    for span in spans {
        list_span(rt, core, holders, span)?;
    }
    Ok(())
}

/// The memory by its addresses.
pub fn list_memory(rt: &HostRuntime, core: &Core, holders: &[Holder]) -> io::Result<()> {
    println!(rt; "\nmemory")?;
    let memory = core.memory.len() as u64;
    match spans(rt.alloc(), memory, core.segments.as_slice()) {
        Ok(parts) => list_spans(rt, core, holders, parts.as_slice()),
        Err(_) => Err(unallocated()),
    }
}

/// A segment that isn't in memory.
fn list_entry(
    rt: &HostRuntime,
    holders: &[Holder],
    number: u32,
    entry: &SegmentEntry,
) -> io::Result<()> {
    let held = HeldBy(of_segment(holders, number));
    println!(rt;
        "  segment {number}: {}; held by {held}",
        Told::Entry(entry)
    )
}

/// The segments that aren't in memory.
pub fn list_absent(rt: &HostRuntime, core: &Core, holders: &[Holder]) -> io::Result<()> {
    println!(rt; "\nnot in memory")?;
    let mut number = 0u32;
    for entry in core.segments.as_slice() {
        match &entry.place {
            Place::Memory(_) => {}
            _ => list_entry(rt, holders, number, entry)?,
        }
        number = number.saturating_add(1);
    }
    Ok(())
}

/// A block that holds bytes of a segment: the numbers of block and segment, and the offset of its first byte there.
pub type Use = (u32, u32, u64);

/// Adds the blocks of a segment.
fn add(uses: &mut Vec<Use>, segment: u32, blocks: &[Block]) -> Result<(), AllocError> {
    let mut offset = 0u64;
    for block in blocks {
        uses.push((block.number, segment, offset))?;
        offset = offset.saturating_add(512);
    }
    Ok(())
}

/// Adds the blocks of all segments.
fn add_all(uses: &mut Vec<Use>, core: &Core) -> Result<(), AllocError> {
    let mut number = 0u32;
    for entry in core.segments.as_slice() {
        if let Place::Swap(blocks) = &entry.place {
            add(uses, number, blocks.as_slice())?;
        }
        number = number.saturating_add(1);
    }
    Ok(())
}

/// The blocks that hold something, by their numbers.
pub fn uses(rt: &HostRuntime, core: &Core) -> Result<Vec<Use>, AllocError> {
    let mut uses = Vec::new(rt.alloc());
    add_all(&mut uses, core)?;
    uses.sort()?;
    Ok(uses)
}

/// A block that holds something.
fn list_use(rt: &HostRuntime, block: u32, segment: u32, offset: u64) -> io::Result<()> {
    println!(rt; "  {block:>5} segment {segment} from {offset:04X}h")
}

/// Blocks that hold something.
fn list_uses(rt: &HostRuntime, uses: &[Use], blocks: u32) -> io::Result<()> {
    println!(rt; "\nswap device, {} of {blocks} blocks in use", uses.len())?;
    for (block, segment, offset) in uses {
        list_use(rt, *block, *segment, *offset)?;
    }
    Ok(())
}

/// The swap device by its blocks.
pub fn list_blocks(rt: &HostRuntime, core: &Core) -> io::Result<()> {
    match uses(rt, core) {
        Ok(uses) => list_uses(rt, uses.as_slice(), core.blocks),
        Err(_) => Err(unallocated()),
    }
}
