// INT, INTO and BOUND.
ghost use Rattle.std.specs.Prelude.{◌≡◌};
ghost use Rattle.o2_isa.specs.Steps.{Gives, state, run};
ghost use Rattle.o2_isa.specs.FlowInterrupts.{interrupt as interrupt_of, into, trap_if as trap_if_of, is_beyond as is_beyond_of, bound};

use crate::operands::pair;
use o2_alu::{is_set, signed_value};
use o2_bus::{Bus, value};
use o2_isa::{Cpu, Flag, Instr, Stop, Width};

/// What INT with this number ends in.
pub fn interrupt(n: u16) -> Stop
    ensures { result ≡ interrupt_of n }
{
    match n {
        3 => Stop::Trap(3, 0),
        4 => Stop::Trap(4, 0),
        _ => Stop::Trap(13, n.wrapping_mul(8).wrapping_add(2)),
    }
}

fn trap_if<B: Bus>(cpu: &mut Cpu, bus: &B, on: bool, vector: u8, next: u16) -> Result<(), Stop>
    ensures { Gives result (state cpu.new (B.view bus.now)) (state cpu.old (B.view bus.now)) (run (trap_if_of on vector cpu.old next) (B.view bus.now)) }
{
    if on {
        Err(Stop::Trap(vector, 0))
    } else {
        cpu.ip = next;
        Ok(())
    }
}

pub fn execute_into<B: Bus>(cpu: &mut Cpu, bus: &B, next: u16) -> Result<(), Stop>
    ensures { Gives result (state cpu.new (B.view bus.now)) (state cpu.old (B.view bus.now)) (run (into cpu.old next) (B.view bus.now)) }
{
    let overflows = is_set(cpu.flags, Flag::Overflow);
    trap_if(cpu, bus, overflows, 4, next)
}

/// Whether a signed word lies below the first or above the second.
fn is_beyond(x: u16, low: u16, high: u16) -> bool
    ensures { result ≡ is_beyond_of x low high }
{
    let signed = signed_value(Width::Word, x);
    signed < signed_value(Width::Word, low) || signed_value(Width::Word, high) < signed
}

#[tactic(auto, using(o2_isa::proofs::Runs::run_valued, o2_isa::proofs::Runs::run_pair), unfolding(o2_isa::specs::FlowInterrupts::bound))]
pub fn execute_bound<B: Bus>(cpu: &mut Cpu, bus: &B, i: &Instr, next: u16) -> Result<(), Stop>
    ensures { Gives result (state cpu.new (B.view bus.now)) (state cpu.old (B.view bus.now)) (run (bound cpu.old i.now next) (B.view bus.now)) }
{
    let x = value(cpu, bus, Width::Word, &i.left)?;
    let (low, high) = pair(cpu, bus, &i.right)?;
    trap_if(cpu, bus, is_beyond(x, low, high), 5, next)
}
