// What is printed.

use crate::wording::Wording;
use std::{fmt, io};

/// Says something in a line.
pub fn say<T: fmt::Display>(rt: &HostRuntime, text: &T) -> io::Result<()> {
    println!(rt; "{text}")
}

/// Says something without a line's end.
pub fn put(rt: &HostRuntime, text: Wording<'_>) -> io::Result<()> {
    print!(rt; "{text}")
}

/// Says what is wrong, on the standard error.
pub fn complain(rt: &HostRuntime, text: Wording<'_>) -> io::Result<()> {
    eprintln!(rt; "os2why: {text}")
}
