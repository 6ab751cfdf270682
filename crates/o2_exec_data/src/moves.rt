// MOV, XCHG, XLAT, CBW and CWD.
ghost use Rattle.o2_isa.specs.Steps.{Gives, state, run};
ghost use Rattle.o2_isa.specs.DataMoves.{mov as mov_steps, mov_sreg, mov_into, exchanging, xchg, xlat, cbw, cwd};

use crate::pointers::load_selector;
use o2_bus::{Bus, place, read, store, value};
use o2_isa::{Arg, Cpu, Instr, Sreg, Stop, Width};

#[tactic(auto, using(o2_isa::proofs::Runs::run_valued), unfolding(o2_isa::specs::DataMoves::mov_sreg))]
fn execute_mov_sreg<B: Bus>(
    cpu: &mut Cpu,
    bus: &mut B,
    reg: Sreg,
    arg: &Arg,
    next: u16,
) -> Result<(), Stop>
    ensures { Gives result (state cpu.new (B.view bus.new)) (state cpu.old (B.view bus.old)) (run (mov_sreg cpu.old reg arg.now next) (B.view bus.old)) }
{
    let x = value(cpu, bus, Width::Word, arg)?;
    load_selector(cpu, bus, reg, x, next)
}

/// MOV but for a segment register's, as one of this width.
#[inline(always)]
#[tactic(auto, using(o2_isa::proofs::Runs::run_valued, o2_isa::proofs::Runs::run_storing), unfolding(o2_isa::specs::DataMoves::mov_into))]
fn mov<B: Bus>(cpu: &mut Cpu, bus: &mut B, width: Width, i: &Instr, next: u16) -> Result<(), Stop>
    ensures { Gives result (state cpu.new (B.view bus.new)) (state cpu.old (B.view bus.old)) (run (mov_into cpu.old (record i.now { width = width }) next) (B.view bus.old)) }
{
    let x = value(cpu, bus, width, &i.right)?;
    store(cpu, bus, width, &i.left, x)?;
    cpu.ip = next;
    Ok(())
}

fn execute_mov_into<B: Bus>(cpu: &mut Cpu, bus: &mut B, i: &Instr, next: u16) -> Result<(), Stop>
    ensures { Gives result (state cpu.new (B.view bus.new)) (state cpu.old (B.view bus.old)) (run (mov_into cpu.old i.now next) (B.view bus.old)) }
{
    match i.width {
        Width::Word => mov(cpu, bus, Width::Word, i, next),
        Width::Byte => mov(cpu, bus, Width::Byte, i, next),
    }
}

pub fn execute_mov<B: Bus>(cpu: &mut Cpu, bus: &mut B, i: &Instr, next: u16) -> Result<(), Stop>
    ensures { Gives result (state cpu.new (B.view bus.new)) (state cpu.old (B.view bus.old)) (run (mov_steps cpu.old i.now i.now.left next) (B.view bus.old)) }
{
    match i.left {
        Arg::S(reg) => execute_mov_sreg(cpu, bus, reg, &i.right, next),
        _ => execute_mov_into(cpu, bus, i, next),
    }
}

/// The right operand of XCHG is a register; the left one is written first, so that its offset is that of the old registers.
#[tactic(auto, using(o2_isa::proofs::FinishRuns::run_exchanging))]
fn exchange<B: Bus>(
    cpu: &mut Cpu,
    bus: &mut B,
    i: &Instr,
    a: u16,
    b: u16,
    next: u16,
) -> Result<(), Stop>
    ensures { Gives result (state cpu.new (B.view bus.new)) (state cpu.old (B.view bus.old)) (run (exchanging cpu.old i.now.width i.now.left b i.now.right a next) (B.view bus.old)) }
{
    store(cpu, bus, i.width, &i.left, b)?;
    place(cpu, &i.right, a);
    cpu.ip = next;
    Ok(())
}

#[tactic(auto, using(o2_isa::proofs::Runs::run_valued), unfolding(o2_isa::specs::DataMoves::xchg))]
pub fn execute_xchg<B: Bus>(cpu: &mut Cpu, bus: &mut B, i: &Instr, next: u16) -> Result<(), Stop>
    ensures { Gives result (state cpu.new (B.view bus.new)) (state cpu.old (B.view bus.old)) (run (xchg cpu.old i.now next) (B.view bus.old)) }
{
    let a = value(cpu, bus, i.width, &i.left)?;
    let b = value(cpu, bus, i.width, &i.right)?;
    exchange(cpu, bus, i, a, b, next)
}

#[tactic(auto, using(o2_isa::proofs::Runs::run_storing), unfolding(o2_isa::specs::DataMoves::xlat))]
pub fn execute_xlat<B: Bus>(cpu: &mut Cpu, bus: &mut B, i: &Instr, next: u16) -> Result<(), Stop>
    ensures { Gives result (state cpu.new (B.view bus.new)) (state cpu.old (B.view bus.old)) (run (xlat cpu.old i.now next) (B.view bus.old)) }
{
    let off = cpu.bx.wrapping_add(cpu.ax % 256);
    let x = read(bus, i.seg, off, Width::Byte)?;
    store(cpu, bus, Width::Byte, &Arg::R8(0), x)?;
    cpu.ip = next;
    Ok(())
}

#[tactic(auto, unfolding(o2_isa::specs::DataMoves::cbw))]
pub fn execute_cbw<B: Bus>(cpu: &mut Cpu, bus: &mut B, next: u16) -> Result<(), Stop>
    ensures { Gives result (state cpu.new (B.view bus.new)) (state cpu.old (B.view bus.old)) (run (cbw cpu.old next) (B.view bus.old)) }
{
    let al = cpu.ax % 256;
    cpu.ax = if al < 128 { al } else { al + 0xFF00 };
    cpu.ip = next;
    Ok(())
}

#[tactic(auto, unfolding(o2_isa::specs::DataMoves::cwd))]
pub fn execute_cwd<B: Bus>(cpu: &mut Cpu, bus: &mut B, next: u16) -> Result<(), Stop>
    ensures { Gives result (state cpu.new (B.view bus.new)) (state cpu.old (B.view bus.old)) (run (cwd cpu.old next) (B.view bus.old)) }
{
    cpu.dx = if cpu.ax < 0x8000 { 0 } else { 0xFFFF };
    cpu.ip = next;
    Ok(())
}
