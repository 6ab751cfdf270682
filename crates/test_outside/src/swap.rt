// The swap device over a file in memory, whose writes fail, and a folder's file that may not be read.

use crate::blocks::{gives, is_lost, knows, write};
use crate::system::System;
use o2_base::{Bytes, NoMemory};
use o2_outer::{Dev, Fetch, FileSwap, Files, FolderFiles, SwapDevice};
use std::alloc::Global;
use test_fixtures::{Wrong, want};

/// Whether blocks that are written one after another and apart come back, each from its place.
fn gives_each<S: SwapDevice>(swap: &mut S) -> bool {
    let is_new = !knows(swap, 0);
    let first = [write(swap, 0, 1), write(swap, 1, 2)] == [Dev::Done; 2] && gives(swap, 0, 1);
    let again = write(swap, 0, 3) == Dev::Done && gives(swap, 1, 2);
    is_new && first && again && gives(swap, 0, 3)
}

/// Whether a device whose file fails at one write of the first block has it still, doesn't know the second one until that is written,
/// and writes both once there is room.
fn loses_nothing<S: SwapDevice>(swap: &mut S) -> bool {
    let answers = [write(swap, 0, 1), write(swap, 2, 2)];
    let is_unknown = !knows(swap, 2);
    let again = write(swap, 2, 3) == Dev::Done;
    answers == [Dev::Done, Dev::Failed]
        && is_unknown
        && again
        && gives(swap, 0, 1)
        && gives(swap, 2, 3)
}

/// The same where the write fails as the block is read.
fn gives_later<S: SwapDevice>(swap: &mut S) -> bool {
    write(swap, 5, 7) == Dev::Done && is_lost(swap, 5) && gives(swap, 5, 7)
}

/// Whether a device over a file that fails at this write, or at none, does as it must.
fn is_right(fails: usize, is_read: bool) -> bool {
    let mut swap = FileSwap::new(System {
        may_read: true,
        fails,
    });
    if fails == 0 {
        gives_each(&mut swap)
    } else if is_read {
        gives_later(&mut swap)
    } else {
        loses_nothing(&mut swap)
    }
}

/// Writes that fail, of one byte each, and whether the block is read then.
static TRIALS: [(usize, bool); 7] = [
    (0, false),
    (1, false),
    (100, false),
    (512, false),
    (1, true),
    (100, true),
    (512, true),
];

pub fn a_write_that_fails_and_then_has_room_loses_nothing_that_waits() -> Result<(), Wrong> {
    for (row, (fails, is_read)) in TRIALS.iter().enumerate() {
        want(is_right(*fails, *is_read), row)?;
    }
    Ok(())
}

/// Whether a fetch of a file that may not be read, and one of a file that may, come to what they must.
fn is_refused(alloc: Global, may_read: bool) -> Result<bool, NoMemory> {
    let name = Bytes::from_slice(alloc, b"file.exe".as_slice())?;
    let mut files = FolderFiles::new(System { may_read, fails: 0 });
    Ok(match files.fetch(alloc, &name, 4096) {
        Fetch::Got(bytes) => may_read && bytes.as_slice().len() == 4096,
        Fetch::Failed => !may_read,
        _ => false,
    })
}

pub fn a_file_that_may_not_be_read_is_a_fault(alloc: Global) -> Result<(), Wrong> {
    let refused = [is_refused(alloc, false)?, is_refused(alloc, true)?];
    want(refused == [true, true], 0)
}
