// DAA, DAS, AAA, AAS, AAM and AAD.
ghost use Rattle.o2_isa.specs.Steps.{Gives, state, run};
ghost use Rattle.o2_isa.specs.DataArith.{adjust as adjust_steps};

use o2_bus::{Bus, operand};
use o2_isa::{AdjustOp, Cpu, Instr, Stop, Width};

#[tactic(auto, using(o2_isa::proofs::FinishRuns::run_taking), unfolding(o2_isa::specs::DataArith::adjust))]
pub fn execute_adjust<B: Bus>(
    cpu: &mut Cpu,
    bus: &mut B,
    op: AdjustOp,
    i: &Instr,
    next: u16,
) -> Result<(), Stop>
    ensures { Gives result (state cpu.new (B.view bus.new)) (state cpu.old (B.view bus.old)) (run (adjust_steps op cpu.old i.now next) (B.view bus.old)) }
{
    let base = operand(cpu, bus, Width::Byte, &i.left)?;
    match o2_alu::adjust(op, cpu.ax, base as u8, cpu.flags) {
        Some((ax, flags)) => {
            cpu.ax = ax;
            cpu.flags = flags;
            cpu.ip = next;
            Ok(())
        }
        None => Err(Stop::Trap(0, 0)),
    }
}
