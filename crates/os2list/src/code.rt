// The relocations and the code of a segment.

use crate::lines::{CodeLine, code_lines};
use crate::relocations::{Mark, mark_of, source_text, wanted};
use o2_image::Module;
use o2_ne_segs::{Kind, Reloc, Segment};
use o2_tool::{Hex, Shown, filling, unallocated};
use std::alloc::AllocError;
use std::collections::BTreeMap;
use std::io;

/// What is patched at which place.
type Notes = BTreeMap<usize, Mark>;

/// The word at a place, where both bytes are there.
fn word_at(bytes: &[u8], at: usize) -> Option<usize> {
    let low = *bytes.get(at)?;
    let high = *bytes.get(at.saturating_add(1))?;
    Some(low as usize + 256 * (high as usize))
}

/// Adds the places of a record: one, or its chain.
fn add_notes(bytes: &[u8], reloc: &Reloc, notes: &mut Notes) -> Result<(), AllocError> {
    let mut at = reloc.place as usize;
    for _ in 0..65_536u32 {
        notes.insert(at, mark_of(reloc))?;
        if reloc.flags & 4 != 0 || reloc.source == 0 {
            return Ok(());
        }
        match word_at(bytes, at) {
            Some(next) if next != 0xFFFF => at = next,
            _ => return Ok(()),
        }
    }
    Ok(())
}

/// A relocation.
fn list_relocation(rt: &HostRuntime, module: &Module, reloc: &Reloc) -> io::Result<()> {
    let target = wanted(module, mark_of(reloc));
    let added = if reloc.flags & 4 != 0 { ", added" } else { "" };
    println!(rt;
        "  {:04X}h {} to {target}{added}",
        reloc.place,
        source_text(reloc)
    )
}

/// The relocations of a segment, and what is patched where.
fn list_relocations(
    rt: &HostRuntime,
    module: &Module,
    number: u16,
    bytes: &[u8],
    notes: &mut Notes,
) -> io::Result<()> {
    for k in 0..module.segment_relocs(number) {
        if let Some(reloc) = module.reloc(number, k) {
            list_relocation(rt, module, &reloc)?;
            if add_notes(bytes, &reloc, notes).is_err() {
                return Err(unallocated());
            }
        }
    }
    Ok(())
}

/// The note at the first of these places that has one.
fn note_in(notes: &Notes, at: usize, count: usize) -> Option<Mark> {
    for place in at..at.saturating_add(count) {
        if let Some(note) = notes.get(&place) {
            return Some(*note);
        }
    }
    None
}

/// One line: the offset, the bytes, their text, and what is patched in them.
fn list_line(
    rt: &HostRuntime,
    module: &Module,
    bytes: &[u8],
    line: &CodeLine,
    notes: &Notes,
) -> io::Result<()> {
    let end = line.at.saturating_add(line.count).min(bytes.len());
    let at = line.at.min(end);
    let shown = &bytes[at..end];
    let (code, rest, text) = (
        Hex(shown),
        filling(shown.len()),
        Shown(line.text.as_slice()),
    );
    match note_in(notes, at, shown.len()) {
        None => println!(rt; "  {at:04X}  {code}{rest}  {text}"),
        Some(mark) => {
            let note = wanted(module, mark);
            println!(rt; "  {at:04X}  {code}{rest}  {text}  ; {note}")
        }
    }
}

/// Lines of code.
fn list_lines(
    rt: &HostRuntime,
    module: &Module,
    bytes: &[u8],
    lines: &[CodeLine],
    notes: &Notes,
) -> io::Result<()> {
    for line in lines {
        list_line(rt, module, bytes, line, notes)?;
    }
    Ok(())
}

/// The code of a segment, from its first byte to its last in the file, one instruction behind the other.
fn list_code(rt: &HostRuntime, module: &Module, bytes: &[u8], notes: &Notes) -> io::Result<()> {
    match code_lines(rt.alloc(), bytes) {
        Ok(lines) => list_lines(rt, module, bytes, lines.as_slice(), notes),
        Err(_) => Err(unallocated()),
    }
}

/// The bytes of a segment in its file.
fn bytes_of<'a>(file: &'a [u8], segment: &Segment) -> &'a [u8] {
    match file.split_at_checked(segment.file_at as usize) {
        None => &[],
        Some((_, rest)) => match rest.split_at_checked(segment.file_len as usize) {
            None => &[],
            Some((bytes, _)) => bytes,
        },
    }
}

/// The relocations of a segment of these bytes, and its code where it has some; it notes what is patched where.
fn list_parts(
    rt: &HostRuntime,
    module: &Module,
    number: u16,
    kind: Kind,
    bytes: &[u8],
    notes: &mut Notes,
) -> io::Result<()> {
    list_relocations(rt, module, number, bytes, notes)?;
    match kind {
        Kind::Code | Kind::CodeOnly => list_code(rt, module, bytes, notes),
        Kind::Writable | Kind::ReadOnly => Ok(()),
    }
}

/// The relocations of a segment, and its code where it has some.
pub fn list_segment(rt: &HostRuntime, file: &[u8], module: &Module, number: u16) -> io::Result<()> {
    let Some(segment) = module.segment(number) else {
        return Ok(());
    };
    println!(rt; "\nsegment {number}")?;
    let mut notes = BTreeMap::new(rt.alloc());
    let bytes = bytes_of(file, &segment);
    list_parts(rt, module, number, segment.kind, bytes, &mut notes)
}
