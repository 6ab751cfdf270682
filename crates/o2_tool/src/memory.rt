// Want of memory, told as an error of the output is.

use std::io;

/// A text or a list wasn't given its memory.
pub fn unallocated() -> io::Error {
    io::Error::new(io::ErrorKind::OutOfMemory, "memory allocation failed")
}

/// Reading or opening wasn't given its memory.
pub fn no_memory() -> io::Error {
    io::Error::new(io::ErrorKind::OutOfMemory, "there is no memory")
}
