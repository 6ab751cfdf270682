// What processes do, as code: a call, a text that is written, or instructions.

use o2_base::NoMemory;
use test_fixtures::hex;

/// A word by its hexadecimal digits.
fn word(text: &str) -> u16 {
    (hex(text) % 65_536) as u16
}

/// PUSH of a word.
fn push_word(code: &mut Vec<u8>, value: u16) -> Result<(), NoMemory> {
    code.push(0x68)?;
    code.extend_from_slice(&value.to_le_bytes())?;
    Ok(())
}

/// MOV of a word to DS.
fn move_word(code: &mut Vec<u8>, at: u16, value: u16) -> Result<(), NoMemory> {
    code.extend_from_slice(&[0xC7, 0x06])?;
    code.extend_from_slice(&at.to_le_bytes())?;
    code.extend_from_slice(&value.to_le_bytes())?;
    Ok(())
}

/// The code of a call, `5 0 17 0 0` for DosAllocSeg(0, 0017:0000, 0), by its gate; how many steps it takes.
fn write_call(code: &mut Vec<u8>, service: &str, words: &str) -> Result<u32, NoMemory> {
    let mut steps = 1u32;
    for text in words.split_ascii_whitespace() {
        push_word(code, word(text))?;
        steps = steps.saturating_add(1);
    }
    code.extend_from_slice(&[0x9A, 0, 0])?;
    code.extend_from_slice(&((word(service) % 64) * 8 + 0x83).to_le_bytes())?;
    Ok(steps)
}

/// The code that writes a text and a zero to DS, `20 \SHAREMEM\A`; how many steps it takes.
fn write_text(code: &mut Vec<u8>, place: &str, text: &str) -> Result<u32, NoMemory> {
    let bytes = text.as_bytes();
    let mut steps = 0u32;
    let mut at = word(place);
    for pair in bytes.chunks(2) {
        let low = pair.first().copied().unwrap_or(0);
        let high = pair.get(1).copied().unwrap_or(0);
        move_word(code, at, u16::from_le_bytes([low, high]))?;
        at = at.wrapping_add(2);
        steps = steps.saturating_add(1);
    }
    move_word(code, at, 0)?;
    Ok(steps.saturating_add(1))
}

/// So many instructions, `2 B8 07 80 8E D8`.
fn write_instructions(code: &mut Vec<u8>, count: &str, bytes: &str) -> Result<u32, NoMemory> {
    for byte in bytes.split_ascii_whitespace() {
        code.push((hex(byte) % 256) as u8)?;
    }
    Ok((hex(count) % 256) as u32)
}

/// What a process does: a call, `n` and a text, or `x` and instructions; how many steps it takes.
pub fn write_act(code: &mut Vec<u8>, act: &str) -> Result<u32, NoMemory> {
    let (front, rest) = act.split_once(' ').unwrap_or((act, ""));
    let (second, last) = rest.split_once(' ').unwrap_or((rest, ""));
    match front {
        "n" => write_text(code, second, last),
        "x" => write_instructions(code, second, last),
        _ => write_call(code, front, rest),
    }
}
