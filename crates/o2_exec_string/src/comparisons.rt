// CMPS and SCAS.
ghost use Rattle.std.specs.Prelude.{◌≡◌};
ghost use Rattle.o2_isa.specs.Widths.{IsOfWidth};
ghost use Rattle.o2_isa.specs.Steps.{Gives, state, run};
ghost use Rattle.o2_isa.specs.StringRows.{compared, cmps, scas};

use crate::parts::{move_source, move_target, repeat};
use o2_alu::sub;
use o2_bus::{Bus, accumulator, read};
use o2_isa::{Cpu, Instr, Sreg, Stop, Width};

/// The flags of a comparison.
fn compare(cpu: &mut Cpu, width: Width, a: u16, b: u16)
    requires left { IsOfWidth width a }
    requires right { IsOfWidth width b }
    ensures { cpu.new ≡ compared width a b cpu.old }
{
    let (_, flags) = sub(width, a, b, false, cpu.flags);
    cpu.flags = flags;
}

#[tactic(auto, unfolding(o2_isa::specs::StringRows::cmps))]
pub fn execute_cmps<B: Bus>(cpu: &mut Cpu, bus: &B, i: &Instr, next: u16) -> Result<(), Stop>
    ensures { Gives result (state cpu.new (B.view bus.now)) (state cpu.old (B.view bus.now)) (run (cmps cpu.old i.now next) (B.view bus.now)) }
{
    let a = read(bus, i.seg, cpu.si, i.width)?;
    let b = read(bus, Sreg::Es, cpu.di, i.width)?;
    move_source(cpu, i.width);
    move_target(cpu, i.width);
    compare(cpu, i.width, a, b);
    repeat(cpu, i.rep, true, next);
    Ok(())
}

#[tactic(auto, unfolding(o2_isa::specs::StringRows::scas))]
pub fn execute_scas<B: Bus>(cpu: &mut Cpu, bus: &B, i: &Instr, next: u16) -> Result<(), Stop>
    ensures { Gives result (state cpu.new (B.view bus.now)) (state cpu.old (B.view bus.now)) (run (scas cpu.old i.now next) (B.view bus.now)) }
{
    let x = read(bus, Sreg::Es, cpu.di, i.width)?;
    let a = accumulator(i.width, cpu);
    move_target(cpu, i.width);
    compare(cpu, i.width, a, x);
    repeat(cpu, i.rep, true, next);
    Ok(())
}
