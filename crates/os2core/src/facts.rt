// What is told of segments and processes, as words.

use crate::holders::selector;
use o2_dump::{Block, Held, Place, Process, SegmentEntry, State};
use std::fmt;

/// What is told.
#[derive(Clone, Copy)]
pub enum Told<'a> {
    /// A segment, without its place.
    Segment(&'a SegmentEntry),
    /// A segment, and where its kept bytes are.
    Entry(&'a SegmentEntry),
    /// What became of a process.
    State(&'a Process),
    /// The registers of a process but for the segment registers and the instruction pointer.
    Words(&'a Process),
    /// The segment registers and the instruction pointer of a process.
    Pointers(&'a Process),
    /// What a process holds at an index.
    Held(&'a Held),
}

impl fmt::Display for Told<'_> {
    fn fmt<W: fmt::Write>(&self, f: &mut fmt::Formatter<W>) -> fmt::Result {
        match *self {
            Told::Segment(entry) => put_segment(f, entry),
            Told::Entry(entry) => {
                put_segment(f, entry)?;
                put_place(f, &entry.place)
            }
            Told::State(process) => put_state(f, process),
            Told::Words(process) => put_words(f, process),
            Told::Pointers(process) => put_pointers(f, process),
            Told::Held(held) => put_held(f, held),
        }
    }
}

/// A segment, without its place.
fn put_segment<W: fmt::Write>(f: &mut fmt::Formatter<W>, entry: &SegmentEntry) -> fmt::Result {
    let clean = if entry.clean { ", clean" } else { "" };
    let gone = if entry.gone { ", discarded" } else { "" };
    write!(
        f,
        "{} bytes, {} kept, flags {:02X}h, lock {}{clean}{gone}",
        entry.size, entry.kept, entry.flags, entry.lock
    )
}

/// Where the kept bytes of a segment are, behind what is told of it.
fn put_place<W: fmt::Write>(f: &mut fmt::Formatter<W>, place: &Place) -> fmt::Result {
    match place {
        Place::Zeros => f.write_str("; zeros"),
        Place::Image(0, process) => write!(f, "; environment of process {process}"),
        Place::Image(module, segment) => write!(f, "; image {module}:{segment}"),
        Place::Memory(base) => write!(f, "; memory {base:06X}h"),
        Place::Swap(blocks) => put_blocks(f, blocks.as_slice()),
    }
}

/// The numbers of some blocks.
fn put_blocks<W: fmt::Write>(f: &mut fmt::Formatter<W>, blocks: &[Block]) -> fmt::Result {
    f.write_str("; blocks")?;
    for block in blocks {
        write!(f, " {}", block.number)?;
    }
    Ok(())
}

/// What became of a process.
fn put_state<W: fmt::Write>(f: &mut fmt::Formatter<W>, process: &Process) -> fmt::Result {
    match process.state {
        State::Live => f.write_str("lives"),
        State::Exited => write!(f, "has ended with code {}", process.code),
        State::Trapped => write!(f, "was ended by exception {}", process.code),
    }
}

/// The registers of a process but for the segment registers and the instruction pointer.
fn put_words<W: fmt::Write>(f: &mut fmt::Formatter<W>, process: &Process) -> fmt::Result {
    let r = &process.registers;
    write!(f, "AX={:04X} BX={:04X} CX={:04X}", r.ax, r.bx, r.cx)?;
    write!(f, " DX={:04X} SI={:04X} DI={:04X}", r.dx, r.si, r.di)?;
    write!(f, " BP={:04X} SP={:04X} FL={:04X}", r.bp, r.sp, r.flags)
}

/// The segment registers and the instruction pointer of a process.
fn put_pointers<W: fmt::Write>(f: &mut fmt::Formatter<W>, process: &Process) -> fmt::Result {
    let r = &process.registers;
    write!(f, "CS:IP={:04X}:{:04X} DS={:04X}", r.cs, r.ip, r.ds)?;
    write!(f, " ES={:04X} SS={:04X}", r.es, r.ss)
}

/// What a process holds at an index.
fn put_held<W: fmt::Write>(f: &mut fmt::Formatter<W>, held: &Held) -> fmt::Result {
    let d = &held.descriptor;
    let present = if d.access >= 128 { ", present" } else { "" };
    write!(
        f,
        "{:04X}h segment {}, held {} times",
        selector(held.index),
        held.segment,
        held.holds
    )?;
    write!(
        f,
        ", base {:06X}h, limit {:04X}h, access {:02X}h{present}",
        d.base, d.limit, d.access
    )
}
