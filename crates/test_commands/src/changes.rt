// Statements that change bytes.

use o2_base::NoMemory;
use test_fixtures::{add_bytes, hex};

/// A decimal number, 0 where it is none.
pub fn decimal(text: &str) -> usize {
    text.trim().parse().unwrap_or(0)
}

/// Puts a line behind them.
fn add_line(bytes: &mut Vec<u8>, line: &str) -> Result<(), NoMemory> {
    bytes.extend_from_slice(line.as_bytes())?;
    bytes.push(b'\n')?;
    Ok(())
}

/// Puts lines behind them, which ` / ` parts.
fn add_lines(bytes: &mut Vec<u8>, lines: &str) -> Result<(), NoMemory> {
    for line in lines.split(" / ") {
        if !line.trim().is_empty() {
            add_line(bytes, line.trim())?;
        }
    }
    Ok(())
}

/// Sets bytes, `40=4F 3D=1`: places and bytes, hexadecimal.
fn set_bytes(bytes: &mut [u8], changes: &str) {
    for change in changes.split_ascii_whitespace() {
        if let Some((place, byte)) = change.split_once('=') {
            if let Some(at) = bytes.get_mut(hex(place)) {
                *at = (hex(byte) % 256) as u8;
            }
        }
    }
}

/// Turns the bits of a mask in one byte, `17 80`: a decimal place, and a hexadecimal mask.
fn flip(bytes: &mut [u8], change: &str) {
    if let Some((place, mask)) = change.split_once(' ') {
        if let Some(byte) = bytes.get_mut(decimal(place)) {
            *byte ^= (hex(mask) % 256) as u8;
        }
    }
}

/// Changes bytes by a statement, and tells whether it is one: `bytes` with hexadecimal numbers behind them, `text` with a line, `part`
/// with a text, `lines` with lines that ` / ` parts, `set` with places and bytes, `flip` with a place and a mask, `cut` to a length, `fill` with zeros up to a length.
pub fn change(bytes: &mut Vec<u8>, verb: &str, rest: &str) -> Result<bool, NoMemory> {
    match verb {
        "bytes" => add_bytes(bytes, rest)?,
        "text" => add_line(bytes, rest)?,
        "part" => bytes.extend_from_slice(rest.as_bytes())?,
        "lines" => add_lines(bytes, rest)?,
        "set" => set_bytes(bytes.as_mut_slice(), rest),
        "flip" => flip(bytes.as_mut_slice(), rest),
        "cut" => bytes.truncate(decimal(rest)),
        "fill" => bytes.resize(decimal(rest), 0)?,
        _ => return Ok(false),
    }
    Ok(true)
}
