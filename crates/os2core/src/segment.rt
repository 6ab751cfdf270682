// The bytes of a segment.

use crate::facts::Told;
use crate::printable::Letters;
use o2_base::Bytes;
use o2_dump::{Core, NoMemory};
use o2_tool::{Hex, MISUSED, REFUSED, Shown, no_memory};
use std::io;
use std::process::ExitCode;

/// The bytes of a segment, if the image has it.
pub fn bytes_of(rt: &HostRuntime, core: &Core, number: u32) -> io::Result<Option<Bytes>> {
    match core.segment(rt.alloc(), number) {
        Ok(found) => Ok(found),
        Err(NoMemory) => Err(no_memory()),
    }
}

/// The bytes in lines of sixteen: the offset, digits and letters.
fn list_bytes(rt: &HostRuntime, bytes: &[u8]) -> io::Result<()> {
    let mut at = 0u64;
    for line in bytes.chunks(16) {
        println!(rt; "  {at:04X}  {}  {}", Hex(line), Letters(line))?;
        at = at.saturating_add(16);
    }
    Ok(())
}

/// The bytes of a segment in lines, if the image has it.
fn list_segment(rt: &HostRuntime, core: &Core, number: u32) -> io::Result<()> {
    match bytes_of(rt, core, number) {
        Ok(Some(bytes)) => list_bytes(rt, bytes.as_slice()),
        Ok(None) => Ok(()),
        Err(error) => Err(error),
    }
}

/// The segment of this number, which is a word of the command.
pub fn list(rt: &HostRuntime, core: &Core, word: &str) -> io::Result<ExitCode> {
    let Ok(number) = word.parse::<u32>() else {
        eprintln!(rt;
            "os2core: {} is no number of a segment",
            Shown(word.as_bytes())
        )?;
        return Ok(ExitCode::from(MISUSED));
    };
    let Some(entry) = core.segments.as_slice().get(number as usize) else {
        eprintln!(rt; "os2core: there is no segment {number}")?;
        return Ok(ExitCode::from(REFUSED));
    };
    println!(rt; "segment {number}: {}", Told::Entry(entry))?;
    list_segment(rt, core, number)?;
    Ok(ExitCode::SUCCESS)
}
