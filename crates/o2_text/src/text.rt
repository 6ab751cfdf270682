// The text of an instruction.
ghost use Rattle.std.specs.Prelude.{◌≡◌, ◌++◌, OnOk, IfOk};
ghost use Rattle.o2_isa.specs.Canonical.{is_string, compares};
ghost use Rattle.o2_text.specs.Text.{is_relative, is_return, first_of, operands_text, lock_text, repeat_text, source_text, suffix, head_text, text_of};

use crate::names::mnemonic;
use crate::operands::{put, put_behind, size};
use o2_base::NoMemory;
use o2_isa::{Arg, Instr, Op, Rep, Sreg, Width};
use std::alloc::Global;

/// Whether the number of the instruction is the distance of a jump.
fn is_jump(op: Op) -> bool
    ensures { result ≡ is_relative op }
{
    matches!(
        op,
        Op::OpJo
            | Op::OpJno
            | Op::OpJb
            | Op::OpJae
            | Op::OpJe
            | Op::OpJne
            | Op::OpJbe
            | Op::OpJa
            | Op::OpJs
            | Op::OpJns
            | Op::OpJp
            | Op::OpJnp
            | Op::OpJl
            | Op::OpJge
            | Op::OpJle
            | Op::OpJg
            | Op::OpLoop
            | Op::OpLoope
            | Op::OpLoopne
            | Op::OpJcxz
            | Op::OpCall
            | Op::OpJmp
    )
}

fn is_string_instruction(op: Op) -> bool
    ensures { result ≡ is_string op }
{
    matches!(
        op,
        Op::OpIns | Op::OpOuts | Op::OpMovs | Op::OpCmps | Op::OpStos | Op::OpLods | Op::OpScas
    )
}

/// The first operand: a return that takes no arguments away says no number.
fn first(op: Op, left: Arg) -> Arg
    ensures { result ≡ first_of (is_return op) left }
{
    match left {
        Arg::Imm(n) => {
            if n == 0 && matches!(op, Op::OpRet | Op::OpRetf) {
                Arg::No
            } else {
                left
            }
        }
        _ => left,
    }
}

fn lock_name(lock: bool) -> &'static [u8]
    ensures { result.now ≡ lock_text lock }
{
    if lock { b"lock " } else { b"" }
}

fn repeat_name(op: Op, rep: Rep) -> &'static [u8]
    ensures { result.now ≡ repeat_text (compares op) rep }
{
    match rep {
        Rep::No => b"",
        Rep::Equal => {
            if matches!(op, Op::OpCmps | Op::OpScas) {
                b"repe "
            } else {
                b"rep "
            }
        }
        Rep::NotEqual => b"repne ",
    }
}

fn source_name(seg: Sreg) -> &'static [u8]
    ensures { result.now ≡ source_text seg }
{
    match seg {
        Sreg::Es => b"es ",
        Sreg::Cs => b"cs ",
        Sreg::Ss => b"ss ",
        Sreg::Ds => b"",
    }
}

fn letter(op: Op, width: Width) -> &'static [u8]
    ensures { result.now ≡ suffix (is_string op) width }
{
    if !is_string_instruction(op) {
        return b"";
    }
    match width {
        Width::Byte => b"b",
        Width::Word => b"w",
    }
}

/// Adds the prefixes and the mnemonic.
#[tactic(auto, using(std::proofs::Common::append_assoc))]
fn put_head(out: &mut Vec<u8>, instr: &Instr) -> Result<(), NoMemory>
    ensures { OnOk result (out.new.items ≡ out.old.items ++ head_text instr.now) }
{
    put(out, lock_name(instr.lock))?;
    put(out, repeat_name(instr.op, instr.rep))?;
    put(out, source_name(instr.seg))?;
    put(out, mnemonic(instr.op))?;
    put(out, letter(instr.op, instr.width))
}

/// Adds all operands.
#[tactic(auto, using(std::proofs::Common::append_assoc))]
fn put_operands(out: &mut Vec<u8>, instr: &Instr, next: u16) -> Result<(), NoMemory>
    ensures { OnOk result (out.new.items ≡ out.old.items ++ operands_text instr.now next) }
{
    let relative = is_jump(instr.op);
    let size = size(instr.op, instr.width);
    put_behind(
        out,
        b' ',
        relative,
        size,
        next,
        &first(instr.op, instr.left),
    )?;
    put_behind(out, b',', relative, size, next, &instr.right)?;
    put_behind(out, b',', relative, size, next, &instr.third)
}

/// The text of an instruction, in the syntax of the Intel manual as the assembler nasm reads it: `mov ax,word [bp+0x04]`. `next` is
/// the IP behind the instruction, from which a jump's distance is counted: its text says where the jump goes.
#[tactic(auto, unfolding(crate::specs::Text::text_of))]
pub fn line(alloc: Global, instr: &Instr, next: u16) -> Result<Vec<u8>, NoMemory>
    ensures { IfOk result (λ v. v.items ≡ text_of instr.now next) }
{
    let mut out = Vec::new(alloc);
    put_head(&mut out, instr)?;
    put_operands(&mut out, instr, next)?;
    Ok(out)
}
