// MOVS, STOS and LODS. The width is looked at once, so that what follows is made for each width.
ghost use Rattle.o2_isa.specs.Steps.{Gives, state, run};
ghost use Rattle.o2_isa.specs.StringRows.{movs as movs_steps, stos as stos_steps, lods as lods_steps};

use crate::parts::{move_source, move_target, repeat};
use o2_bus::{Bus, accumulator, read, room, set_accumulator};
use o2_isa::{Cpu, Instr, Sreg, Stop, Width};

/// MOVS as an instruction of this width.
#[inline(always)]
#[tactic(auto, unfolding(o2_isa::specs::StringRows::movs))]
fn movs<B: Bus>(cpu: &mut Cpu, bus: &mut B, width: Width, i: &Instr, next: u16) -> Result<(), Stop>
    ensures { Gives result (state cpu.new (B.view bus.new)) (state cpu.old (B.view bus.old)) (run (movs_steps cpu.old (record i.now { width = width }) next) (B.view bus.old)) }
{
    let x = read(bus, i.seg, cpu.si, width)?;
    room(bus, Sreg::Es, cpu.di, width)?;
    bus.write(Sreg::Es, cpu.di, width, x);
    move_source(cpu, width);
    move_target(cpu, width);
    repeat(cpu, i.rep, false, next);
    Ok(())
}

pub fn execute_movs<B: Bus>(cpu: &mut Cpu, bus: &mut B, i: &Instr, next: u16) -> Result<(), Stop>
    ensures { Gives result (state cpu.new (B.view bus.new)) (state cpu.old (B.view bus.old)) (run (movs_steps cpu.old i.now next) (B.view bus.old)) }
{
    match i.width {
        Width::Word => movs(cpu, bus, Width::Word, i, next),
        Width::Byte => movs(cpu, bus, Width::Byte, i, next),
    }
}

/// STOS as an instruction of this width.
#[inline(always)]
#[tactic(auto, unfolding(o2_isa::specs::StringRows::stos))]
fn stos<B: Bus>(cpu: &mut Cpu, bus: &mut B, width: Width, i: &Instr, next: u16) -> Result<(), Stop>
    ensures { Gives result (state cpu.new (B.view bus.new)) (state cpu.old (B.view bus.old)) (run (stos_steps cpu.old (record i.now { width = width }) next) (B.view bus.old)) }
{
    room(bus, Sreg::Es, cpu.di, width)?;
    bus.write(Sreg::Es, cpu.di, width, accumulator(width, cpu));
    move_target(cpu, width);
    repeat(cpu, i.rep, false, next);
    Ok(())
}

pub fn execute_stos<B: Bus>(cpu: &mut Cpu, bus: &mut B, i: &Instr, next: u16) -> Result<(), Stop>
    ensures { Gives result (state cpu.new (B.view bus.new)) (state cpu.old (B.view bus.old)) (run (stos_steps cpu.old i.now next) (B.view bus.old)) }
{
    match i.width {
        Width::Word => stos(cpu, bus, Width::Word, i, next),
        Width::Byte => stos(cpu, bus, Width::Byte, i, next),
    }
}

/// LODS as an instruction of this width.
#[inline(always)]
#[tactic(auto, unfolding(o2_isa::specs::StringRows::lods))]
fn lods<B: Bus>(cpu: &mut Cpu, bus: &mut B, width: Width, i: &Instr, next: u16) -> Result<(), Stop>
    ensures { Gives result (state cpu.new (B.view bus.new)) (state cpu.old (B.view bus.old)) (run (lods_steps cpu.old (record i.now { width = width }) next) (B.view bus.old)) }
{
    let x = read(bus, i.seg, cpu.si, width)?;
    set_accumulator(width, cpu, x);
    move_source(cpu, width);
    repeat(cpu, i.rep, false, next);
    Ok(())
}

pub fn execute_lods<B: Bus>(cpu: &mut Cpu, bus: &mut B, i: &Instr, next: u16) -> Result<(), Stop>
    ensures { Gives result (state cpu.new (B.view bus.new)) (state cpu.old (B.view bus.old)) (run (lods_steps cpu.old i.now next) (B.view bus.old)) }
{
    match i.width {
        Width::Word => lods(cpu, bus, Width::Word, i, next),
        Width::Byte => lods(cpu, bus, Width::Byte, i, next),
    }
}
