// The exception by which a step ended its process.
ghost use Rattle.std.specs.Prelude.{◌≡◌, ◌≢◌, ◌++◌, IfOk, OnOk, None, string_bytes};
ghost use Rattle.std.specs.Fmt.{decimal};
ghost use Rattle.o2_tool.specs.Text.{hex4};
ghost use Rattle.o2_trace.specs.Exceptions.{code_of, exception_text, name_of, numbers_text, place_text, segment_text, selector_of, vector_of};

use crate::step::{Before, spelled};
use o2_isa::{Arg, Cpu, Decoded, Instr, Op, Outcome, Sreg};
use std::alloc::{AllocError, Global};

/// Where an exception came.
#[derive(Clone, Copy)]
pub enum Place {
    Instruction,
    /// In a service, whose exceptions have the error code 0.
    Service,
    /// Behind a step that is done, by the trap flag.
    Behind,
}

/// An exception: its number, its error code, where it came, and the segment registers by which it may have come, where there are any.
#[derive(Clone, Copy)]
pub struct Exception {
    pub vector: u16,
    pub code: u16,
    pub place: Place,
    pub first: Option<Sreg>,
    pub second: Option<Sreg>,
}

/// The segment registers of an instruction's operands in memory. A string instruction that writes one writes it in ES.
fn segments_of(instr: &Instr) -> (Option<Sreg>, Option<Sreg>) {
    match instr.op {
        Op::OpMovs | Op::OpCmps => (Some(instr.seg), Some(Sreg::Es)),
        Op::OpLods | Op::OpXlat => (Some(instr.seg), None),
        Op::OpStos | Op::OpScas => (Some(Sreg::Es), None),
        // what only a system may do is refused before its operand is looked at
        Op::OpLgdt | Op::OpLidt | Op::OpLldt | Op::OpLtr | Op::OpLmsw => (None, None),
        // the target that is read may be what is refused
        Op::OpCallAt | Op::OpJmpAt | Op::OpCallFarAt | Op::OpJmpFarAt => (None, None),
        _ => match (&instr.left, &instr.right) {
            // so may an empty selector for SS
            (Arg::S(Sreg::Ss), _) => (None, None),
            (Arg::M(ea), _) => (Some(ea.seg), None),
            (_, Arg::M(ea)) => (Some(ea.seg), None),
            _ => (None, None),
        },
    }
}

/// The segment registers by which an instruction may have ended in an exception: that of the stack, or those of its operands. There is
/// none where the error code is a selector, where LOCK isn't allowed, and where it may have ended so by something else, too.
fn segments_by(vector: u8, code: u16, instr: &Instr) -> (Option<Sreg>, Option<Sreg>)
    ensures selector { code ≢ 0 → (result.0 ≡ None) × (result.1 ≡ None) }
{
    if code != 0 {
        return (None, None);
    }
    if vector == 12 {
        return (Some(Sreg::Ss), None);
    }
    if vector != 13 || instr.lock {
        return (None, None);
    }
    segments_of(instr)
}

/// The exception of an instruction.
fn trap(before: &Before, vector: u8, code: u16) -> Exception
    ensures vector { result.vector ≡ vector }
    ensures code { result.code ≡ code }
    ensures selector { code ≢ 0 → (result.first ≡ None) × (result.second ≡ None) }
{
    let (first, second) = match spelled(before) {
        Decoded::One(instr, _) => segments_by(vector, code, &instr),
        _ => (None, None),
    };
    Exception {
        vector: vector as u16,
        code,
        place: Place::Instruction,
        first,
        second,
    }
}

/// The exception with this number by which a step ended its process, where the processor answered so to the step: of an instruction with
/// its error code and its segments, which are named only where the code is no selector; of a service; and that of the trap flag, which
/// comes behind a step that is done.
pub fn exception_of(before: &Before, number: u16, answer: Outcome) -> Exception
    ensures vector { result.vector ≡ vector_of number answer }
    ensures code { result.code ≡ code_of answer }
    ensures selector { code_of answer ≢ 0 → (result.first ≡ None) × (result.second ≡ None) }
{
    let place = match answer {
        Outcome::Trap(vector, code) => return trap(before, vector, code),
        Outcome::Gate { .. } => Place::Service,
        Outcome::Done => Place::Behind,
        Outcome::Miss(_) => Place::Behind,
    };
    Exception {
        vector: number,
        code: 0,
        place,
        first: None,
        second: None,
    }
}

/// A segment register's name.
pub(crate) fn name_of(reg: Sreg) -> &'static str
    ensures { result.now ≡ name_of reg }
{
    match reg {
        Sreg::Es => "ES",
        Sreg::Cs => "CS",
        Sreg::Ss => "SS",
        Sreg::Ds => "DS",
    }
}

/// What a segment register holds.
fn selector_of(cpu: &Cpu, reg: Sreg) -> u16
    ensures { result ≡ selector_of cpu.now reg }
{
    match reg {
        Sreg::Es => cpu.es,
        Sreg::Cs => cpu.cs,
        Sreg::Ss => cpu.ss,
        Sreg::Ds => cpu.ds,
    }
}

/// Adds a segment register and what it holds, behind a mark.
fn add_segment(
    out: &mut String,
    alloc: Global,
    mark: &str,
    cpu: &Cpu,
    reg: Option<Sreg>,
) -> Result<(), AllocError>
    ensures { OnOk result
        (string_bytes out.new ≡ string_bytes out.old ++ segment_text mark.now cpu.now reg) }
{
    match reg {
        None => Ok(()),
        Some(reg) => {
            let (name, selector) = (name_of(reg), selector_of(cpu, reg));
            let text = format!(in alloc; "{mark}{name}={selector:04X}")?;
            out.push_str(text.as_str())
        }
    }
}

/// Where an exception came, behind its code.
fn place_text(place: Place) -> &'static str
    ensures { result.now ≡ place_text place }
{
    match place {
        Place::Instruction => "",
        Place::Service => ", in the service",
        Place::Behind => ", behind the step",
    }
}

/// Two numbers behind a text each, the first in decimal digits, the second in four hexadecimal ones.
fn numbers(
    alloc: Global,
    front: &str,
    first: u16,
    between: &str,
    second: u16,
) -> Result<String, AllocError>
    ensures { IfOk result
        (λ s. string_bytes s ≡ front.now ++ (decimal first ++ (between.now ++ hex4 second))) }
{
    format!(in alloc; "{front}{first}{between}{second:04X}")
}

/// An exception's number and its error code.
#[tactic(auto, unfolding(crate::specs::Exceptions::numbers_text))]
fn numbers_line(alloc: Global, vector: u16, code: u16) -> Result<String, AllocError>
    ensures { IfOk result (λ s. string_bytes s ≡ numbers_text vector code) }
{
    numbers(alloc, "exception ", vector, ", error code ", code)
}

/// An exception's text, with the registers before its step.
#[tactic(auto, using(std::proofs::Common::append_assoc))]
pub fn exception_text(alloc: Global, exception: &Exception, cpu: &Cpu) -> Result<String, AllocError>
    ensures { IfOk result (λ s. string_bytes s ≡ exception_text exception.now cpu.now) }
{
    let mut out = numbers_line(alloc, exception.vector, exception.code)?;
    out.push_str(place_text(exception.place))?;
    add_segment(&mut out, alloc, ", segment ", cpu, exception.first)?;
    add_segment(&mut out, alloc, " or ", cpu, exception.second)?;
    Ok(out)
}
