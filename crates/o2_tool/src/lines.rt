// Texts of many lines.

use crate::shown::Shown;
use std::io;

/// Prints bytes line by line, each behind a mark and a blank. A last line without an end gets one.
pub fn print_lines(rt: &HostRuntime, mark: &str, bytes: &[u8]) -> io::Result<()> {
    let mut start = 0usize;
    for (at, byte) in bytes.iter().enumerate() {
        if *byte == b'\n' && start <= at {
            println!(rt; "{mark} {}", Shown(&bytes[start..at]))?;
            start = at + 1;
        }
    }
    if start < bytes.len() {
        println!(rt; "{mark} {}", Shown(&bytes[start..]))?;
    }
    Ok(())
}
