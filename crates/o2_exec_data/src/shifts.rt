// ROL, ROR, RCL, RCR, SHL, SHR and SAR.
ghost use Rattle.std.specs.Prelude.{◌≡◌};
ghost use Rattle.o2_isa.specs.Steps.{Gives, state, run};
ghost use Rattle.o2_isa.specs.DataArith.{shift as shift_steps, shifted_into};

use o2_bus::{Bus, finish, operand};
use o2_isa::{Arg, Cpu, Instr, ShiftOp, Stop, Width};

/// Where the result goes: a count of 0 modulo 32 stores none.
#[inline]
fn target(count: u16, arg: &Arg) -> Arg
    ensures { result ≡ shifted_into count arg.now }
{
    if count % 32 == 0 { Arg::No } else { *arg }
}

#[tactic(auto, using(o2_isa::proofs::FinishRuns::run_taking), unfolding(o2_isa::specs::DataArith::shift))]
pub fn execute_shift<B: Bus>(
    cpu: &mut Cpu,
    bus: &mut B,
    op: ShiftOp,
    i: &Instr,
    next: u16,
) -> Result<(), Stop>
    ensures { Gives result (state cpu.new (B.view bus.new)) (state cpu.old (B.view bus.old)) (run (shift_steps op cpu.old i.now next) (B.view bus.old)) }
{
    let a = operand(cpu, bus, i.width, &i.left)?;
    let count = operand(cpu, bus, Width::Byte, &i.right)?;
    let (r, f) = o2_alu::shift(op, i.width, a, count as u8, cpu.flags);
    finish(cpu, bus, i.width, &target(count, &i.left), r, f, next)
}
