// The lines of a segment's code: where each begins, how many bytes it shows, and their text.
ghost use Rattle.std.specs.Prelude.{◌≡◌, ◌+◌, ◌≤◌, ◌<◌, length, drop, take, slice_index, IfOk};
ghost use Rattle.o2_text.specs.Text.{text_of};
ghost use Rattle.os2list.specs.Listing.{spelled, byte_text, line_text, line_count, Shows};

use o2_base::NoMemory;
use o2_decode::decode;
use o2_isa::{Decoded, Instr};
use o2_text::line;
use std::alloc::{AllocError, Global};

/// A line of code.
#[derive(Drop)]
pub struct CodeLine {
    /// Where it begins.
    pub at: usize,
    /// How many bytes it shows.
    pub count: usize,
    /// Their text.
    pub text: Vec<u8>,
}

/// How many bytes are looked at, of those from a place on.
fn front(bytes: &[u8], at: usize) -> &[u8]
    requires { at ≤ length bytes.now }
    ensures is { result.now ≡ take 10 (drop at bytes.now) }
    ensures within { at + length result.now ≤ length bytes.now }
{
    let rest = &bytes[at..];
    if rest.len() > 10 { &rest[..10] } else { rest }
}

/// A line for one byte.
#[tactic(auto, using(std::proofs::lemmas::Fmt::hex_byte))]
fn byte_line(alloc: Global, byte: u8, at: usize) -> Result<CodeLine, AllocError>
    ensures at { IfOk result (λ l. l.at ≡ at) }
    ensures count { IfOk result (λ l. l.count ≡ 1) }
    ensures text { IfOk result (λ l. l.text.items ≡ byte_text byte) }
{
    let text = format!(in alloc; "db 0x{byte:02X}")?;
    let text = text.into_bytes();
    Ok(CodeLine { at, count: 1, text })
}

/// The text of an instruction.
fn instruction_text(alloc: Global, instr: &Instr, next: u16) -> Result<Vec<u8>, AllocError>
    ensures { IfOk result (λ v. v.items ≡ text_of instr.now next) }
{
    match line(alloc, instr, next) {
        Ok(text) => Ok(text),
        Err(NoMemory) => Err(AllocError),
    }
}

/// The line at a place: of the instruction there, or of one byte where there is none.
fn line_at(alloc: Global, bytes: &[u8], at: usize) -> Result<CodeLine, AllocError>
    requires { at < length bytes.now }
    ensures at { IfOk result (λ l. l.at ≡ at) }
    ensures count { IfOk result (λ l. l.count ≡ line_count (spelled bytes.now at)) }
    ensures text { IfOk result (λ l. l.text.items
        ≡ line_text at (slice_index bytes.now at) (spelled bytes.now at)) }
    ensures some { IfOk result (λ l. 1 ≤ l.count) }
    ensures within { IfOk result (λ l. at + l.count ≤ length bytes.now) }
{
    match decode(front(bytes, at)) {
        Decoded::One(instr, count) => {
            let next = ((at + count as usize) % 65536) as u16;
            let text = instruction_text(alloc, &instr, next)?;
            Ok(CodeLine {
                at,
                count: count as usize,
                text,
            })
        }
        Decoded::Invalid => byte_line(alloc, bytes[at], at),
        Decoded::TooLong => byte_line(alloc, bytes[at], at),
        Decoded::Need => byte_line(alloc, bytes[at], at),
    }
}

/// The lines of a segment's code, from its first byte to its last, each from where the one before it ends.
pub fn code_lines(alloc: Global, bytes: &[u8]) -> Result<Vec<CodeLine>, AllocError>
    ensures { IfOk result (λ v. Shows bytes.now 0 v.items (length bytes.now)) }
{
    let mut lines = Vec::new(alloc);
    let mut next = 0usize;
    'listing: while next < bytes.len() {
        let line = line_at(alloc, bytes, next)?;
        next += line.count;
        lines.push(line)?;
    }
    Ok(lines)
}
