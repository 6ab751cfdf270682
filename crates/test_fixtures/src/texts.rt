// Bytes as texts: hexadecimal numbers with blanks between them, where `00*3A` is so many bytes in a row.

use o2_base::NoMemory;
use std::alloc::Global;

/// A hexadecimal number; DEADh where it is none, which no row wants.
pub fn hex(text: &str) -> usize {
    usize::from_str_radix(text, 16).unwrap_or(0xDEAD)
}

/// Adds the bytes of a text.
pub fn add_bytes(bytes: &mut Vec<u8>, text: &str) -> Result<(), NoMemory> {
    for token in text.split_ascii_whitespace() {
        let (byte, times) = token.split_once('*').unwrap_or((token, "1"));
        let len = bytes.len().saturating_add(hex(times));
        bytes.resize(len, (hex(byte) % 256) as u8)?;
    }
    Ok(())
}

/// The bytes of a text.
pub fn bytes_in(alloc: Global, text: &str) -> Result<Vec<u8>, NoMemory> {
    let mut bytes = Vec::new(alloc);
    add_bytes(&mut bytes, text)?;
    Ok(bytes)
}
