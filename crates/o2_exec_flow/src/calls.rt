// Calls.
ghost use Rattle.o2_isa.specs.declared.instr.Width.TheVariants.{Word};
ghost use Rattle.o2_isa.specs.Steps.{Gives, state, run, valued, pair_valued};
ghost use Rattle.o2_isa.specs.FlowCalls.{call, call_far};

use crate::operands::pair;
use o2_bus::{Bus, check_load, check_target, room, value};
use o2_isa::{Arg, Cpu, Purpose, Selector, Sreg, Stop, Width};

#[tactic(auto, using(o2_isa::proofs::Runs::run_within), unfolding(o2_isa::specs::FlowCalls::call))]
pub fn execute_call<B: Bus>(cpu: &mut Cpu, bus: &mut B, ip: u16, next: u16) -> Result<(), Stop>
    ensures { Gives result (state cpu.new (B.view bus.new)) (state cpu.old (B.view bus.old)) (run (call cpu.old ip next) (B.view bus.old)) }
{
    check_target(bus, cpu.cs, ip)?;
    let sp = cpu.sp.wrapping_sub(2);
    room(bus, Sreg::Ss, sp, Width::Word)?;
    bus.write(Sreg::Ss, sp, Width::Word, next);
    cpu.sp = sp;
    cpu.ip = ip;
    Ok(())
}

/// CALL of an offset in a register or in memory.
#[tactic(auto, using(o2_isa::proofs::Runs::run_valued))]
pub fn execute_call_at<B: Bus>(cpu: &mut Cpu, bus: &mut B, arg: &Arg, next: u16) -> Result<(), Stop>
    ensures { Gives result (state cpu.new (B.view bus.new)) (state cpu.old (B.view bus.old)) (run (valued cpu.old Word arg.now (λ ip. call cpu.old ip next)) (B.view bus.old)) }
{
    let ip = value(cpu, bus, Width::Word, arg)?;
    execute_call(cpu, bus, ip, next)
}

#[tactic(auto, using(o2_isa::proofs::Runs::run_within, o2_isa::proofs::Pokes::room_of_poke, o2_isa::proofs::Pokes::is_loadable_poke, o2_isa::proofs::Loads::loadable_ring3), unfolding(o2_isa::specs::FlowCalls::call_far))]
fn execute_call_to<B: Bus>(
    cpu: &mut Cpu,
    bus: &mut B,
    ip: u16,
    cs: u16,
    next: u16,
) -> Result<(), Stop>
    ensures { Gives result (state cpu.new (B.view bus.new)) (state cpu.old (B.view bus.old)) (run (call_far cpu.old ip cs next) (B.view bus.old)) }
{
    check_load(bus, Purpose::Call, cs, next)?;
    check_target(bus, cs, ip)?;
    let first = cpu.sp.wrapping_sub(2);
    let second = first.wrapping_sub(2);
    room(bus, Sreg::Ss, first, Width::Word)?;
    room(bus, Sreg::Ss, second, Width::Word)?;
    bus.write(Sreg::Ss, first, Width::Word, cpu.cs);
    bus.write(Sreg::Ss, second, Width::Word, next);
    let outer = cs / 4 * 4 + 3;
    bus.load(Sreg::Cs, Selector(outer));
    cpu.cs = outer;
    cpu.sp = second;
    cpu.ip = ip;
    Ok(())
}

/// CALL of a far address in the instruction or in memory, or of a service through its gate.
#[tactic(auto, using(o2_isa::proofs::Runs::run_pair))]
pub fn execute_call_far<B: Bus>(
    cpu: &mut Cpu,
    bus: &mut B,
    arg: &Arg,
    next: u16,
) -> Result<(), Stop>
    ensures { Gives result (state cpu.new (B.view bus.new)) (state cpu.old (B.view bus.old)) (run (pair_valued cpu.old arg.now (λ ip cs. call_far cpu.old ip cs next)) (B.view bus.old)) }
{
    let (ip, cs) = pair(cpu, bus, arg)?;
    execute_call_to(cpu, bus, ip, cs, next)
}
