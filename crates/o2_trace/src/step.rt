// The line of a step.
ghost use Rattle.std.specs.Prelude.{◌≡◌, ◌≤◌, ◌++◌, [], IfOk, IfNone, IfSome, OnOk, codes, string_bytes};
ghost use Rattle.o2_text.specs.Text.{text_of};
ghost use Rattle.o2_tool.specs.Text.{shown_text};
ghost use Rattle.o2_trace.specs.Registers.{change_text, general_text, pointers_text, segments_text, changes_text};
ghost use Rattle.o2_trace.specs.Lines.{at_ip, code_text, front_text, next_ip, rest_text, shown_count, step_text};

use o2_base::NoMemory;
use o2_decode::decode;
use o2_isa::{Cpu, Decoded, Instr};
use o2_text::line;
use o2_tool::{Hex, Shown, blanks, filling};
use std::alloc::{AllocError, Global};

/// A step before it is taken: its process, the registers, and the bytes at CS:IP.
#[derive(Clone, Copy)]
pub struct Before {
    pub process: u16,
    pub cpu: Cpu,
    pub bytes: [u8; 10],
    pub count: usize,
}

/// What the bytes at CS:IP spell.
pub(crate) fn spelled(before: &Before) -> Decoded
    ensures { result ≡ at_ip before.now }
{
    decode(&before.bytes[..before.count.min(10)])
}

/// Adds a register that has changed.
fn add_change(
    out: &mut String,
    alloc: Global,
    name: &str,
    old: u16,
    new: u16,
) -> Result<(), AllocError>
    ensures { OnOk result
        (string_bytes out.new ≡ string_bytes out.old ++ change_text name.now old new) }
{
    if old != new {
        let text = format!(in alloc; " {name}={new:04X}")?;
        out.push_str(text.as_str())?;
    }
    Ok(())
}

/// Adds those of AX, BX, CX and DX that have changed.
#[tactic(auto, using(std::proofs::Common::append_assoc))]
fn add_general(out: &mut String, alloc: Global, old: &Cpu, new: &Cpu) -> Result<(), AllocError>
    ensures { OnOk result
        (string_bytes out.new ≡ string_bytes out.old ++ general_text old.now new.now) }
{
    add_change(out, alloc, "AX", old.ax, new.ax)?;
    add_change(out, alloc, "BX", old.bx, new.bx)?;
    add_change(out, alloc, "CX", old.cx, new.cx)?;
    add_change(out, alloc, "DX", old.dx, new.dx)
}

/// Adds those of SI, DI, BP and SP that have changed.
#[tactic(auto, using(std::proofs::Common::append_assoc))]
fn add_pointers(out: &mut String, alloc: Global, old: &Cpu, new: &Cpu) -> Result<(), AllocError>
    ensures { OnOk result
        (string_bytes out.new ≡ string_bytes out.old ++ pointers_text old.now new.now) }
{
    add_change(out, alloc, "SI", old.si, new.si)?;
    add_change(out, alloc, "DI", old.di, new.di)?;
    add_change(out, alloc, "BP", old.bp, new.bp)?;
    add_change(out, alloc, "SP", old.sp, new.sp)
}

/// Adds the segment registers that have changed.
#[tactic(auto, using(std::proofs::Common::append_assoc))]
fn add_segments(out: &mut String, alloc: Global, old: &Cpu, new: &Cpu) -> Result<(), AllocError>
    ensures { OnOk result
        (string_bytes out.new ≡ string_bytes out.old ++ segments_text old.now new.now) }
{
    add_change(out, alloc, "CS", old.cs, new.cs)?;
    add_change(out, alloc, "DS", old.ds, new.ds)?;
    add_change(out, alloc, "ES", old.es, new.es)?;
    add_change(out, alloc, "SS", old.ss, new.ss)
}

/// The registers that have changed. IP is told where it isn't that of the next instruction.
#[tactic(auto, using(std::proofs::Common::append_assoc))]
fn changes(alloc: Global, old: &Cpu, new: &Cpu, next: u16) -> Result<String, AllocError>
    ensures { IfOk result (λ s. string_bytes s ≡ changes_text old.now new.now next) }
{
    let mut out = String::new(alloc);
    add_general(&mut out, alloc, old, new)?;
    add_pointers(&mut out, alloc, old, new)?;
    add_segments(&mut out, alloc, old, new)?;
    add_change(&mut out, alloc, "IP", next, new.ip)?;
    add_change(&mut out, alloc, "F", old.flags, new.flags)?;
    Ok(out)
}

/// The text of an instruction with this IP behind it.
fn text_of(alloc: Global, instr: &Instr, next: u16) -> Result<String, AllocError>
    ensures { IfOk result (λ s. string_bytes s ≡ shown_text (text_of instr.now next)) }
{
    match line(alloc, instr, next) {
        Ok(text) => format!(in alloc; "{}", Shown(text.as_slice())),
        Err(NoMemory) => Err(AllocError),
    }
}

/// The IP behind the instruction at this one.
#[tactic(auto, unfolding(crate::specs::Lines::next_ip))]
fn next_ip(ip: u16, decoded: &Decoded) -> u16
    ensures { result ≡ next_ip ip decoded.now }
{
    match decoded {
        Decoded::One(_, count) => ((ip as u32 + *count as u32) % 65536) as u16,
        Decoded::Invalid => ip,
        Decoded::TooLong => ip,
        Decoded::Need => ip,
    }
}

/// The text of the instruction, or that there is none.
#[tactic(auto, unfolding(crate::specs::Lines::code_text))]
pub(crate) fn code_text(alloc: Global, ip: u16, decoded: &Decoded) -> Result<String, AllocError>
    ensures { IfOk result (λ s. string_bytes s ≡ code_text ip decoded.now) }
{
    match decoded {
        Decoded::One(instr, count) => {
            let next = ((ip as u32 + *count as u32) % 65536) as u16;
            text_of(alloc, instr, next)
        }
        Decoded::Invalid => String::from_str(alloc, "no instruction"),
        Decoded::TooLong => String::from_str(alloc, "no instruction"),
        Decoded::Need => String::from_str(alloc, "no instruction"),
    }
}

/// How many bytes are shown: those of the instruction, or all that were looked at.
#[tactic(auto, unfolding(crate::specs::Lines::shown_count))]
pub(crate) fn shown_count(known: usize, decoded: &Decoded) -> usize
    ensures exact { result ≡ shown_count known decoded.now }
    ensures within { result ≤ known }
{
    match decoded {
        Decoded::One(_, count) => known.min(*count as usize),
        Decoded::Invalid => known,
        Decoded::TooLong => known,
        Decoded::Need => known,
    }
}

/// Process, CS:IP, and bytes in a column of twenty digits.
fn front_line(alloc: Global, before: &Before, count: usize) -> Result<String, AllocError>
    requires { count ≤ 10 }
    ensures { IfOk result (λ s. string_bytes s ≡ front_text before.now count) }
{
    let (process, cs, ip) = (before.process, before.cpu.cs, before.cpu.ip);
    let (code, rest) = (Hex(&before.bytes[..count]), filling(count));
    format!(in alloc; "{process} {cs:04X}:{ip:04X} {code}{rest} ")
}

/// The text of an instruction, and behind it in a column what has changed.
fn rest_line(alloc: Global, text: &str, changed: &str) -> Result<String, AllocError>
    ensures { IfOk result (λ s. string_bytes s ≡ rest_text text.now changed.now) }
{
    if changed.is_empty() {
        return format!(in alloc; "{text}");
    }
    let gap = blanks(32 - text.len().min(32));
    format!(in alloc; "{text}{gap}{changed}")
}

/// The line of a step: process, CS:IP, bytes, text, and what the step changed.
fn step_line(alloc: Global, before: &Before, changed: &str) -> Result<String, AllocError>
    ensures { IfOk result (λ s. string_bytes s ≡ step_text before.now changed.now) }
{
    let decoded = spelled(before);
    let text = code_text(alloc, before.cpu.ip, &decoded)?;
    let count = shown_count(before.count.min(10), &decoded);
    let front = front_line(alloc, before, count)?;
    let rest = rest_line(alloc, text.as_str(), changed)?;
    let line = format!(in alloc; "{front}{rest}")?;
    Ok(line)
}

/// The line of a step that waits, by which no register changes.
pub fn wait_text(alloc: Global, before: &Before) -> Result<String, AllocError>
    ensures { IfOk result (λ s. string_bytes s ≡ step_text before.now (codes " waits")) }
{
    step_line(alloc, before, " waits")
}

/// The registers that a step changed; of one that ended its process, none.
fn changes_behind(alloc: Global, before: &Before, after: Option<&Cpu>) -> Result<String, AllocError>
    ensures ended { IfOk result (λ s. IfNone after.entry (string_bytes s ≡ [])) }
    ensures done { IfOk result (λ s. IfSome after.entry (λ new. string_bytes s
        ≡ changes_text before.now.cpu new.now (next_ip before.now.cpu.ip (at_ip before.now)))) }
{
    match after {
        None => Ok(String::new(alloc)),
        Some(new) => {
            let next = next_ip(before.cpu.ip, &spelled(before));
            changes(alloc, &before.cpu, new, next)
        }
    }
}

/// The line of a step that was taken: process, CS:IP, the bytes and the text of the instruction, and the registers that it changed; of one
/// that ended its process, none.
pub fn step_text(alloc: Global, before: &Before, after: Option<&Cpu>) -> Result<String, AllocError>
    ensures ended { IfOk result (λ s. IfNone after.entry (string_bytes s ≡ step_text before.now [])) }
    ensures done { IfOk result (λ s. IfSome after.entry (λ new. string_bytes s ≡ step_text before.now
        (changes_text before.now.cpu new.now (next_ip before.now.cpu.ip (at_ip before.now))))) }
{
    let changed = changes_behind(alloc, before, after)?;
    step_line(alloc, before, changed.as_str())
}
