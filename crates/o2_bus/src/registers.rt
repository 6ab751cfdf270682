// Registers by number, and the offset of a memory operand.
ghost use Rattle.std.specs.Prelude.{◌≡◌, ◌<◌};
ghost use Rattle.o2_isa.specs.Registers.{reg16, with_reg16, reg8, with_reg8, sreg, with_sreg, offset_of, accumulator as accumulator_of, with_accumulator};
ghost use Rattle.o2_isa.specs.Widths.{IsOfWidth};

use o2_isa::{Cpu, Ea, Sreg, Width};

#[inline(always)]
#[tactic(auto, unfolding(o2_isa::specs::Registers::reg16))]
pub fn word_register(cpu: &Cpu, n: u8) -> u16
    ensures { result ≡ reg16 cpu.now n }
{
    match n {
        0 => cpu.ax,
        1 => cpu.cx,
        2 => cpu.dx,
        3 => cpu.bx,
        4 => cpu.sp,
        5 => cpu.bp,
        6 => cpu.si,
        _ => cpu.di,
    }
}

#[inline(always)]
#[tactic(auto, unfolding(o2_isa::specs::Registers::with_reg16))]
pub fn set_word_register(cpu: &mut Cpu, n: u8, value: u16)
    ensures { cpu.new ≡ with_reg16 cpu.old n value }
{
    match n {
        0 => cpu.ax = value,
        1 => cpu.cx = value,
        2 => cpu.dx = value,
        3 => cpu.bx = value,
        4 => cpu.sp = value,
        5 => cpu.bp = value,
        6 => cpu.si = value,
        _ => cpu.di = value,
    }
}

#[inline(always)]
#[tactic(auto, unfolding(o2_isa::specs::Registers::reg8))]
pub fn byte_register(cpu: &Cpu, n: u8) -> u16
    ensures { result ≡ reg8 cpu.now n }
{
    if n < 4 {
        word_register(cpu, n) % 256
    } else {
        word_register(cpu, n % 4) / 256
    }
}

#[inline(always)]
#[tactic(auto, unfolding(o2_isa::specs::Registers::with_reg8))]
pub fn set_byte_register(cpu: &mut Cpu, n: u8, value: u16)
    requires { value < 256 }
    ensures { cpu.new ≡ with_reg8 cpu.old n value }
{
    if n < 4 {
        let old = word_register(cpu, n);
        set_word_register(cpu, n, old / 256 * 256 + value);
    } else {
        let old = word_register(cpu, n % 4);
        set_word_register(cpu, n % 4, value * 256 + old % 256);
    }
}

/// AL or AX.
#[inline(always)]
#[tactic(auto, unfolding(o2_isa::specs::Registers::reg8))]
pub fn accumulator(width: Width, cpu: &Cpu) -> u16
    ensures value { result ≡ accumulator_of width cpu.now }
    ensures fits { IsOfWidth width result }
{
    match width {
        Width::Byte => byte_register(cpu, 0),
        Width::Word => word_register(cpu, 0),
    }
}

/// Puts an element into AL or AX.
#[inline(always)]
pub fn set_accumulator(width: Width, cpu: &mut Cpu, value: u16)
    requires { IsOfWidth width value }
    ensures { cpu.new ≡ with_accumulator width cpu.old value }
{
    match width {
        Width::Byte => set_byte_register(cpu, 0, value),
        Width::Word => set_word_register(cpu, 0, value),
    }
}

#[inline(always)]
pub fn segment_register(cpu: &Cpu, reg: Sreg) -> u16
    ensures { result ≡ sreg cpu.now reg }
{
    match reg {
        Sreg::Es => cpu.es,
        Sreg::Cs => cpu.cs,
        Sreg::Ss => cpu.ss,
        Sreg::Ds => cpu.ds,
    }
}

#[inline(always)]
pub fn set_segment_register(cpu: &mut Cpu, reg: Sreg, value: u16)
    ensures { cpu.new ≡ with_sreg cpu.old reg value }
{
    match reg {
        Sreg::Es => cpu.es = value,
        Sreg::Cs => cpu.cs = value,
        Sreg::Ss => cpu.ss = value,
        Sreg::Ds => cpu.ds = value,
    }
}

#[inline(always)]
#[tactic(auto, unfolding(o2_isa::specs::Registers::offset_of))]
pub fn offset(cpu: &Cpu, ea: &Ea) -> u16
    ensures { result ≡ offset_of cpu.now ea.now }
{
    let base = match ea.base {
        0 => cpu.bx as u32 + cpu.si as u32,
        1 => cpu.bx as u32 + cpu.di as u32,
        2 => cpu.bp as u32 + cpu.si as u32,
        3 => cpu.bp as u32 + cpu.di as u32,
        4 => cpu.si as u32,
        5 => cpu.di as u32,
        6 => cpu.bp as u32,
        7 => cpu.bx as u32,
        _ => 0,
    };
    ((base + ea.disp as u32) % 65536) as u16
}
