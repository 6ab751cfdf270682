// Checks and operands over any bus, each as the definitions of the instruction set have it.
ghost use Rattle.std.specs.Prelude.{◌≡◌, ◌<◌, true, OnOk, IsOk, IfOk};
ghost use Rattle.o2_isa.specs.declared.instr.Width.TheVariants.{Byte};
ghost use Rattle.o2_isa.specs.Widths.{IsOfWidth};
ghost use Rattle.o2_isa.specs.View.{probe_of, read_of, room_of, size_at, is_loadable};
ghost use Rattle.o2_isa.specs.Meaning.{unlocked};
ghost use Rattle.o2_isa.specs.Steps.{Gives, SameCheck, state, or_trap, passed, target, value_of, stored, selector, narrow};

use crate::Bus;
use crate::registers::{
    byte_register, offset, segment_register, set_byte_register, set_word_register, word_register,
};
use o2_base::Selector;
use o2_isa::{Arg, Cpu, Instr, Loaded, Purpose, Sreg, Stop, Width};

/// Whether an instruction has no LOCK prefix, which is trap 13 before all else.
#[inline]
pub fn check_unlocked(i: &Instr) -> Result<(), Stop>
    ensures { SameCheck result (unlocked i.now) }
{
    if i.lock {
        Err(Stop::Trap(13, 0))
    } else {
        Ok(())
    }
}

/// A byte or word through a segment register, or a trap.
#[inline(always)]
pub fn read<B: Bus>(bus: &B, reg: Sreg, off: u16, width: Width) -> Result<u16, Stop>
    ensures value { result ≡ or_trap (read_of (B.view bus.now) reg off width) }
    ensures fits { IfOk result (λ x. IsOfWidth width x) }
{
    match bus.read(reg, off, width) {
        Ok(value) => Ok(value),
        Err((vector, code)) => Err(Stop::Trap(vector, code)),
    }
}

/// Whether there is room for a write, or a trap.
#[inline(always)]
pub fn room<B: Bus>(bus: &B, reg: Sreg, off: u16, width: Width) -> Result<(), Stop>
    ensures trap { SameCheck result (or_trap (room_of (B.view bus.now) reg off width)) }
    ensures room { OnOk result (IsOk (room_of (B.view bus.now) reg off width)) }
{
    match bus.room(reg, off, width) {
        Ok(()) => Ok(()),
        Err((vector, code)) => Err(Stop::Trap(vector, code)),
    }
}

/// The load rules and the present test, as a check. `next` is the IP to which a service returns.
#[inline(always)]
pub fn check_load<B: Bus>(bus: &mut B, purpose: Purpose, sel: u16, next: u16) -> Result<(), Stop>
    ensures check { SameCheck result (passed next (probe_of (B.view bus.old) purpose (selector sel))) }
    ensures loadable { OnOk result (is_loadable (B.view bus.old) (selector sel) ≡ true) }
    ensures same { B.view bus.new ≡ B.view bus.old }
{
    match bus.probe(purpose, Selector(sel)) {
        Loaded::Done => Ok(()),
        Loaded::Miss(s) => Err(Stop::Miss(s)),
        Loaded::Trap(vector, code) => Err(Stop::Trap(vector, code)),
        Loaded::Gate(service) => Err(Stop::Gate(service, next)),
    }
}

/// Whether an IP lies in the segment that a selector names, or trap 13.
#[inline(always)]
pub fn check_target<B: Bus>(bus: &B, cs: u16, ip: u16) -> Result<(), Stop>
    ensures { SameCheck result (target (size_at (B.view bus.now) cs) ip) }
{
    match bus.size_of(Selector(cs)) {
        Some(size) => {
            if (ip as u32) < size {
                Ok(())
            } else {
                Err(Stop::Trap(13, 0))
            }
        }
        None => Err(Stop::Trap(13, 0)),
    }
}

/// What of a value the width has room for.
#[inline(always)]
pub(crate) fn narrowed(width: Width, x: u16) -> u16
    ensures value { result ≡ narrow width x }
    ensures of_width { IsOfWidth width result }
    ensures fits { width ≡ Width.Byte → result < 256 }
{
    match width {
        Width::Byte => x % 256,
        Width::Word => x,
    }
}

/// The value of an operand: 0 where there is none.
#[inline(always)]
pub fn value<B: Bus>(cpu: &Cpu, bus: &B, width: Width, arg: &Arg) -> Result<u16, Stop>
    ensures { result ≡ value_of (state cpu.now (B.view bus.now)) width arg.now }
{
    match arg {
        Arg::R8(n) => Ok(byte_register(cpu, *n)),
        Arg::R16(n) => Ok(word_register(cpu, *n)),
        Arg::S(reg) => Ok(segment_register(cpu, *reg)),
        Arg::M(ea) => read(bus, ea.seg, offset(cpu, ea), width),
        Arg::Imm(n) => Ok(narrowed(width, *n)),
        _ => Ok(0),
    }
}

/// Puts a value into a register or memory operand; any other keeps all as it is.
#[inline(always)]
pub fn store<B: Bus>(
    cpu: &mut Cpu,
    bus: &mut B,
    width: Width,
    arg: &Arg,
    value: u16,
) -> Result<(), Stop>
    ensures { Gives result (state cpu.new (B.view bus.new)) (state cpu.old (B.view bus.old)) (stored (state cpu.old (B.view bus.old)) width arg.now value) }
{
    match arg {
        Arg::R8(n) => set_byte_register(cpu, *n, value % 256),
        Arg::R16(n) => set_word_register(cpu, *n, value),
        Arg::M(ea) => {
            let off = offset(cpu, ea);
            room(bus, ea.seg, off, width)?;
            bus.write(ea.seg, off, width, narrowed(width, value));
        }
        _ => {}
    }
    Ok(())
}
