// The names that a module exports, as they stand in the file.

use o2_ne::Head;
use o2_tool::Shown;
use std::io;

/// A row of a table of names at a place: the name, and its ordinal. None at the end of the table, or of the file.
fn name_at(file: &[u8], at: usize) -> Option<(&[u8], u16)> {
    let count = *file.get(at)? as usize;
    if count == 0 {
        return None;
    }
    let (_, rest) = file.split_at_checked(at + 1)?;
    let (name, behind) = rest.split_at_checked(count)?;
    match behind {
        [low, high, ..] => Some((name, *low as u16 + 256 * (*high as u16))),
        _ => None,
    }
}

/// The rows of a table of names, from a place on. In both tables the first row names the module itself.
fn list_table(rt: &HostRuntime, file: &[u8], start: usize) -> io::Result<()> {
    let mut at = start;
    for number in 0..file.len() {
        match name_at(file, at) {
            None => return Ok(()),
            Some((name, ordinal)) => {
                if number == 0 {
                    println!(rt; "    {}", Shown(name))?;
                } else {
                    println!(rt; "  {ordinal:>5} {}", Shown(name))?;
                }
                at = at.saturating_add(name.len() + 3);
            }
        }
    }
    Ok(())
}

/// Both tables of names.
pub fn list_names(rt: &HostRuntime, file: &[u8], head: &Head) -> io::Result<()> {
    println!(rt; "\nresident names")?;
    list_table(rt, file, head.at as usize + head.resident_at as usize)?;
    if head.nonresident_len > 0 {
        println!(rt; "\nnonresident names")?;
        list_table(rt, file, head.nonresident_at as usize)?;
    }
    Ok(())
}
