// MUL, IMUL, DIV and IDIV.
ghost use Rattle.std.specs.Prelude.{◌≡◌, ◌<◌};
ghost use Rattle.o2_isa.specs.Widths.{IsOfWidth, IsOfTwice};
ghost use Rattle.o2_isa.specs.Steps.{Gives, state, run};
ghost use Rattle.o2_isa.specs.DataArith.{wide, with_wide, with_quotient, mul as mul_steps, imul_three, div as div_steps};

use o2_bus::{Bus, accumulator, finish, operand};
use o2_isa::{Cpu, Instr, Stop, Width};

/// The dividend in AX or DX:AX.
#[inline]
fn dividend(cpu: &Cpu, width: Width) -> u32
    ensures value { result ≡ wide cpu.now width }
    ensures fits { IsOfTwice width result }
{
    match width {
        Width::Byte => cpu.ax as u32,
        Width::Word => cpu.ax as u32 + 65536 * cpu.dx as u32,
    }
}

/// A product into AX or DX:AX.
#[inline]
fn set_product(cpu: &mut Cpu, width: Width, x: u32)
    ensures { cpu.new ≡ with_wide cpu.old width x }
{
    cpu.ax = (x % 65536) as u16;
    match width {
        Width::Byte => {}
        Width::Word => cpu.dx = (x / 65536) as u16,
    }
}

/// Quotient and remainder into AL and AH, or AX and DX.
#[inline]
fn set_quotient(cpu: &mut Cpu, width: Width, q: u16, r: u16)
    requires quotient { IsOfWidth width q }
    requires remainder { IsOfWidth width r }
    ensures { cpu.new ≡ with_quotient cpu.old width q r }
{
    match width {
        Width::Byte => cpu.ax = r * 256 + q,
        Width::Word => {
            cpu.ax = q;
            cpu.dx = r;
        }
    }
}

#[tactic(auto, using(o2_isa::proofs::FinishRuns::run_taking), unfolding(o2_isa::specs::DataArith::mul))]
pub fn execute_mul<B: Bus>(
    cpu: &mut Cpu,
    bus: &mut B,
    signed: bool,
    i: &Instr,
    next: u16,
) -> Result<(), Stop>
    ensures { Gives result (state cpu.new (B.view bus.new)) (state cpu.old (B.view bus.old)) (run (mul_steps signed cpu.old i.now next) (B.view bus.old)) }
{
    let b = operand(cpu, bus, i.width, &i.left)?;
    let (r, f) = o2_alu::mul(i.width, signed, accumulator(i.width, cpu), b, cpu.flags);
    set_product(cpu, i.width, r);
    cpu.flags = f;
    cpu.ip = next;
    Ok(())
}

#[tactic(auto, using(o2_isa::proofs::FinishRuns::run_taking), unfolding(o2_isa::specs::DataArith::imul_three))]
pub fn execute_imul_three<B: Bus>(
    cpu: &mut Cpu,
    bus: &mut B,
    i: &Instr,
    next: u16,
) -> Result<(), Stop>
    ensures { Gives result (state cpu.new (B.view bus.new)) (state cpu.old (B.view bus.old)) (run (imul_three cpu.old i.now next) (B.view bus.old)) }
{
    let a = operand(cpu, bus, Width::Word, &i.right)?;
    let b = operand(cpu, bus, Width::Word, &i.third)?;
    let (r, f) = o2_alu::mul_low(a, b, cpu.flags);
    finish(cpu, bus, Width::Word, &i.left, r, f, next)
}

#[tactic(auto, using(o2_isa::proofs::FinishRuns::run_taking), unfolding(o2_isa::specs::DataArith::div))]
pub fn execute_div<B: Bus>(
    cpu: &mut Cpu,
    bus: &mut B,
    signed: bool,
    i: &Instr,
    next: u16,
) -> Result<(), Stop>
    ensures { Gives result (state cpu.new (B.view bus.new)) (state cpu.old (B.view bus.old)) (run (div_steps signed cpu.old i.now next) (B.view bus.old)) }
{
    let b = operand(cpu, bus, i.width, &i.left)?;
    match o2_alu::div(i.width, signed, dividend(cpu, i.width), b) {
        Some((q, r)) => {
            set_quotient(cpu, i.width, q, r);
            cpu.ip = next;
            Ok(())
        }
        None => Err(Stop::Trap(0, 0)),
    }
}
