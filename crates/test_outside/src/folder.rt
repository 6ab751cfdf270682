// Files of the folder that a command runs in.

use crate::blocks::{gives, is_lost, write};
use o2_base::{Bytes, NoMemory};
use o2_outer::{Dev, Fetch, FileSwap, Files, FolderFiles, SwapDevice};
use std::{fs, io};
use test_fixtures::{Wrong, want};

/// What a fetch came to, in a word.
fn word_of(fetch: &Fetch) -> &'static str {
    match fetch {
        Fetch::Got(bytes) => {
            if bytes.as_slice() == b"abc".as_slice() {
                "got"
            } else {
                "other bytes"
            }
        }
        Fetch::NoFile => "no file",
        Fetch::TooLong => "too long",
        Fetch::Failed => "failed",
        Fetch::NoMemory => "no memory",
    }
}

/// What a fetch of the folder's file comes to, in a word.
fn fetched(rt: &HostRuntime, name: &[u8], most: u32) -> Result<&'static str, NoMemory> {
    let name = Bytes::from_slice(rt.alloc(), name)?;
    let fetch = FolderFiles::new(rt).fetch(rt.alloc(), &name, most);
    Ok(word_of(&fetch))
}

pub fn a_file_of_the_folder(rt: &HostRuntime) -> Result<(), Wrong> {
    fs::write(rt, "fetched.bin", "abc")?;
    let words = [
        fetched(rt, b"fetched.bin", 3)?,
        fetched(rt, b"fetched.bin", 2)?,
        fetched(rt, b"not_there.bin", 3)?,
    ];
    fs::remove_file(rt, "fetched.bin")?;
    want(words == ["got", "too long", "no file"], 0)
}

/// The name of the swap device's file.
const SWAP_FILE: &str = "os2run.swp";

/// Whether a device of 65,536 blocks gives two back that were written.
fn gives_back<S: SwapDevice>(swap: &mut S) -> bool {
    swap.count() == 65_536
        && [write(swap, 3, 3), write(swap, 1, 1)] == [Dev::Done; 2]
        && gives(swap, 3, 3)
        && gives(swap, 1, 1)
}

/// Whether a device that has no file yet gives blocks back, its file has four blocks then, and the last is lost where that is cut short.
fn is_cut<S: SwapDevice>(rt: &HostRuntime, swap: &mut S) -> io::Result<bool> {
    let gives_back = gives_back(swap);
    let len = fs::metadata(rt, SWAP_FILE)?.len();
    fs::write(rt, SWAP_FILE, "short")?;
    let is_lost = is_lost(swap, 3);
    fs::remove_file(rt, SWAP_FILE)?;
    Ok(gives_back && len == 2048 && is_lost)
}

/// Whether a device can't be written where a folder has the name of its file.
fn is_hindered<S: SwapDevice>(rt: &HostRuntime, swap: &mut S) -> io::Result<bool> {
    fs::create_dir(rt, SWAP_FILE)?;
    let fails = swap.count() > 0 && swap.write(0, &[0u8; 512]) == Dev::Failed;
    fs::remove_dir(rt, SWAP_FILE)?;
    Ok(fails)
}

/// What somebody else does to the file of a device in use. A file that is replaced or removed stays as it was for who has it open.
#[derive(Clone, Copy)]
enum Change {
    Cut,
    CutAndGrown,
    Overwritten,
    Replaced,
    Removed,
}

/// Does it.
fn make_change(rt: &HostRuntime, what: Change) -> io::Result<()> {
    match what {
        Change::Cut | Change::CutAndGrown => fs::write(rt, SWAP_FILE, ""),
        Change::Overwritten => fs::write(rt, SWAP_FILE, [b'x'; 4096].as_slice()),
        Change::Replaced => {
            fs::write(rt, "other.swp", [b'x'; 4096].as_slice())?;
            fs::rename(rt, "other.swp", SWAP_FILE)
        }
        Change::Removed => fs::remove_file(rt, SWAP_FILE),
    }
}

/// Whether a device whose file was changed tells that, or gives what was written.
fn tells<S: SwapDevice>(swap: &mut S, is_grown: bool, is_told: bool) -> bool {
    if is_grown && [write(swap, 5, 5), write(swap, 7, 7)] != [Dev::Done; 2] {
        return false;
    }
    if is_told {
        is_lost(swap, 3)
    } else {
        gives(swap, 3, 3)
    }
}

/// The same of a device that has no file yet. Behind a cut the file grows by what is written then, so a hole of zeros is in front.
fn is_changed<S: SwapDevice>(
    rt: &HostRuntime,
    swap: &mut S,
    what: Change,
    is_told: bool,
) -> io::Result<bool> {
    let is_written = [write(swap, 3, 3), write(swap, 1, 1)] == [Dev::Done; 2];
    make_change(rt, what)?;
    let is_grown = matches!(what, Change::CutAndGrown);
    let tells = tells(swap, is_grown, is_told);
    if !matches!(what, Change::Removed) {
        fs::remove_file(rt, SWAP_FILE)?;
    }
    Ok(is_written && tells)
}

/// What is tried of a device over the folder, and whether a block that was in its file is lost by a change.
#[derive(Clone, Copy)]
enum Trial {
    Cut,
    Hindered,
    Changed(Change, bool),
}

static TRIALS: [Trial; 7] = [
    Trial::Cut,
    Trial::Hindered,
    Trial::Changed(Change::Cut, true),
    Trial::Changed(Change::CutAndGrown, true),
    Trial::Changed(Change::Overwritten, true),
    Trial::Changed(Change::Replaced, false),
    Trial::Changed(Change::Removed, false),
];

/// Whether it comes to what it must.
fn passes(rt: &HostRuntime, trial: Trial) -> io::Result<bool> {
    let mut swap = FileSwap::new(rt);
    match trial {
        Trial::Cut => is_cut(rt, &mut swap),
        Trial::Hindered => is_hindered(rt, &mut swap),
        Trial::Changed(what, is_told) => is_changed(rt, &mut swap, what, is_told),
    }
}

pub fn a_swap_device_in_a_file_of_the_folder(rt: &HostRuntime) -> Result<(), Wrong> {
    for (row, trial) in TRIALS.iter().enumerate() {
        want(passes(rt, *trial)?, row)?;
    }
    Ok(())
}
