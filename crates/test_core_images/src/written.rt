// Images that are written, and what their reader finds in them.
use crate::images::{Trial, filled_passes, sink, write_empty};
use o2_base::{Bytes, Fail, NoMemory};
use o2_dump::{Core, Place};
use o2_dumping::Wrote;
use std::alloc::Global;
use test_fixtures::{Wrong, want};

/// The head of the image of a machine without segments, and its process with what is behind.
static FRONT: [u8; 25] = [
    0x4F, 0x53, 0x32, 0x43, 0x4F, 0x52, 0x45, 0x32, 0x00, 0x10, 0, 0, 0, 0, 0, 0, 0, 0, 0, 0, 1, 0,
    0, 0, 0x0A,
];

static BEHIND: [u8; 42] = [
    1, 0, 1, 0, 7, 0, 2, 1, 4, 3, 6, 5, 8, 7, 10, 9, 12, 11, 14, 13, 16, 15, 18, 17, 20, 19, 22,
    21, 24, 23, 26, 25, 28, 27, 0, 0, 0, 0, b'E', b'N', b'D', b'!',
];

/// Whether the image of a memory without segments is right.
fn empty_is_right(alloc: Global) -> Result<bool, NoMemory> {
    let mut console = sink(alloc, 0)?;
    let wrote = write_empty(alloc, &mut console)?;
    let bytes = console.taken();
    Ok(
        wrote == Wrote::Done
            && bytes.len() == 4_178
            && bytes.starts_with(&FRONT)
            && bytes.ends_with(&BEHIND),
    )
}

/// How many segments an image has, how many of them lie where, and of how many the bytes are those that were put in.
#[derive(Clone, Copy, Debug, PartialEq, Eq)]
struct Seen {
    segments: usize,
    zeros: u32,
    memory: u32,
    swap: u32,
    same: u32,
}

/// Whether all of some bytes are this one.
fn are_all(bytes: &[u8], byte: u8) -> bool {
    for other in bytes {
        if *other != byte {
            return false;
        }
    }
    true
}

/// Adds a segment, which has 2,000 times this byte, or 300 zeros.
fn look(seen: &mut Seen, place: &Place, bytes: &Bytes, byte: u8) {
    match place {
        Place::Zeros => seen.zeros = seen.zeros.saturating_add(1),
        Place::Memory(_) => seen.memory = seen.memory.saturating_add(1),
        Place::Swap(_) => seen.swap = seen.swap.saturating_add(1),
        Place::Image(_, _) => {}
    }
    let (size, held) = if byte == 0 { (300, 0) } else { (2_000, byte) };
    if bytes.len() == size && are_all(bytes.as_slice(), held) {
        seen.same = seen.same.saturating_add(1);
    }
}

/// Adds the segment of this number, where there is one.
fn look_at(
    alloc: Global,
    core: &Core,
    number: u32,
    byte: u8,
    seen: &mut Seen,
) -> Result<(), NoMemory> {
    if let Some(entry) = core.segments.as_slice().get(number as usize) {
        if let Some(bytes) = core.segment(alloc, number)? {
            look(seen, &entry.place, &bytes, byte);
        }
    }
    Ok(())
}

/// What an image shows.
fn what_is_seen(alloc: Global, core: &Core) -> Result<Seen, NoMemory> {
    let mut seen = Seen {
        segments: core.segments.as_slice().len(),
        zeros: 0,
        memory: 0,
        swap: 0,
        same: 0,
    };
    for (number, byte) in [(0u32, b'a'), (1, b'b'), (2, b'c'), (3, 0)] {
        look_at(alloc, core, number, byte, &mut seen)?;
    }
    Ok(seen)
}

/// What some bytes show; none where they are no image.
fn seen_in(alloc: Global, bytes: &[u8]) -> Result<Option<Seen>, NoMemory> {
    match Core::read(alloc, bytes) {
        Ok(core) => Ok(Some(what_is_seen(alloc, &core)?)),
        Err(Fail::NoMemory) => Err(NoMemory),
        Err(Fail::Bad(_)) => Ok(None),
    }
}

/// What the image of the filled memory shows.
const WANTED: Seen = Seen {
    segments: 4,
    zeros: 1,
    memory: 2,
    swap: 1,
    same: 4,
};

/// Whether the image of the filled memory shows that.
fn shows_wanted(alloc: Global) -> Result<bool, NoMemory> {
    let mut console = sink(alloc, 0)?;
    if !filled_passes(alloc, &mut console, Trial::Image)? {
        return Ok(false);
    }
    Ok(seen_in(alloc, console.taken())? == Some(WANTED))
}

/// Whether the filled memory passes a trial.
fn passes(alloc: Global, trial: Trial) -> Result<bool, NoMemory> {
    let mut console = sink(alloc, 0)?;
    filled_passes(alloc, &mut console, trial)
}

/// Images without segments and with segments wherever they lie, one of which each put fails, and one of which each read fails.
pub fn images_that_are_written(alloc: Global) -> Result<(), Wrong> {
    want(empty_is_right(alloc)?, 0)?;
    want(shows_wanted(alloc)?, 1)?;
    want(passes(alloc, Trial::Puts)?, 2)?;
    want(passes(alloc, Trial::Reads)?, 3)
}
