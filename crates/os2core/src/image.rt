// The image of a file.

use o2_base::{Bytes, Fail};
use o2_dump::{Core, CoreFault};
use o2_outer::{Fetch, Files, FolderFiles};
use o2_tool::{file_name, unallocated};
use std::{fmt, io};

/// What a file came to.
#[derive(Drop)]
pub enum Opened {
    /// It is a core image.
    Core(Core),
    /// It is none.
    Refused(CoreFault),
    /// It has more bytes than any core image.
    TooLong,
    /// It isn't there.
    NoFile,
    /// It can't be read.
    Failed,
    /// There is no memory.
    NoMemory,
}

/// How many bytes a file has at most: more than the image of a machine with all the memory, blocks and segments that a machine file
/// may ask for.
const MOST: u32 = 67_108_864;

/// The file of this name.
fn fetched(rt: &HostRuntime, name: &Bytes) -> Fetch {
    let mut files = FolderFiles::new(rt);
    files.fetch(rt.alloc(), name, MOST)
}

/// The image in a file.
fn image_of(rt: &HostRuntime, file: &Bytes) -> Opened {
    match Core::read(rt.alloc(), file.as_slice()) {
        Ok(core) => Opened::Core(core),
        Err(Fail::Bad(fault)) => Opened::Refused(fault),
        Err(Fail::NoMemory) => Opened::NoMemory,
    }
}

/// The image in the file of this name.
fn open_named(rt: &HostRuntime, name: &Bytes) -> Opened {
    match fetched(rt, name) {
        Fetch::Got(file) => image_of(rt, &file),
        Fetch::NoFile => Opened::NoFile,
        Fetch::TooLong => Opened::TooLong,
        Fetch::Failed => Opened::Failed,
        Fetch::NoMemory => Opened::NoMemory,
    }
}

/// The image in the file of this name, which is a word of the command.
pub fn open(rt: &HostRuntime, word: &str) -> io::Result<Opened> {
    match file_name(rt.alloc(), word) {
        Ok(name) => Ok(open_named(rt, &name)),
        Err(_) => Err(unallocated()),
    }
}

/// Why a file is refused, as a sentence.
#[derive(Clone, Copy)]
pub struct Reason(pub CoreFault);

impl fmt::Display for Reason {
    fn fmt<W: fmt::Write>(&self, f: &mut fmt::Formatter<W>) -> fmt::Result {
        match self.0 {
            CoreFault::NotCore => f.write_str("it doesn't begin with OS2CORE1 or OS2CORE2"),
            CoreFault::Truncated(at) => write!(f, "it ends at {at:X}h, within a field"),
            CoreFault::BadEntry(at) => write!(f, "what begins at {at:X}h is bad"),
            CoreFault::TooLong(at) => write!(f, "it goes on behind its end at {at:X}h"),
        }
    }
}
