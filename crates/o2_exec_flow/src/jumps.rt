// Jumps.
ghost use Rattle.std.specs.Prelude.{◌≡◌, ◌&&◌};
ghost use Rattle.o2_isa.specs.declared.instr.Width.TheVariants.{Word};
ghost use Rattle.o2_isa.specs.Steps.{Gives, state, run, valued, pair_valued};
ghost use Rattle.o2_isa.specs.FlowJumps.{is_less as is_less_of, jmp, jmp_if, loop_if, jmp_far};

use crate::operands::pair;
use o2_alu::is_set;
use o2_bus::{Bus, check_load, check_target, value};
use o2_isa::{Arg, Cpu, Flag, Purpose, Selector, Sreg, Stop, Width};

/// Whether the signed comparison that set these flags said less.
pub fn is_less(flags: u16) -> bool
    ensures { result ≡ is_less_of flags }
{
    if is_set(flags, Flag::Sign) {
        !is_set(flags, Flag::Overflow)
    } else {
        is_set(flags, Flag::Overflow)
    }
}

#[tactic(auto, using(o2_isa::proofs::Runs::run_within), unfolding(o2_isa::specs::FlowJumps::jmp))]
pub fn execute_jmp<B: Bus>(cpu: &mut Cpu, bus: &B, ip: u16) -> Result<(), Stop>
    ensures { Gives result (state cpu.new (B.view bus.now)) (state cpu.old (B.view bus.now)) (run (jmp cpu.old ip) (B.view bus.now)) }
{
    check_target(bus, cpu.cs, ip)?;
    cpu.ip = ip;
    Ok(())
}

#[tactic(auto, unfolding(o2_isa::specs::FlowJumps::jmp_if))]
pub fn execute_jmp_if<B: Bus>(
    cpu: &mut Cpu,
    bus: &B,
    taken: bool,
    ip: u16,
    next: u16,
) -> Result<(), Stop>
    ensures { Gives result (state cpu.new (B.view bus.now)) (state cpu.old (B.view bus.now)) (run (jmp_if taken cpu.old ip next) (B.view bus.now)) }
{
    if taken {
        execute_jmp(cpu, bus, ip)
    } else {
        cpu.ip = next;
        Ok(())
    }
}

/// LOOP and, with a test of ZF, LOOPE and LOOPNE.
#[tactic(auto, unfolding(o2_isa::specs::FlowJumps::loop_if))]
pub fn execute_loop<B: Bus>(
    cpu: &mut Cpu,
    bus: &B,
    more: bool,
    ip: u16,
    next: u16,
) -> Result<(), Stop>
    ensures { Gives result (state cpu.new (B.view bus.now)) (state cpu.old (B.view bus.now)) (run (loop_if more cpu.old ip next) (B.view bus.now)) }
{
    let mut counted = *cpu;
    counted.cx = cpu.cx.wrapping_sub(1);
    let taken = more && counted.cx != 0;
    execute_jmp_if(&mut counted, bus, taken, ip, next)?;
    *cpu = counted;
    Ok(())
}

/// JMP to an offset in a register or in memory.
#[tactic(auto, using(o2_isa::proofs::Runs::run_valued))]
pub fn execute_jmp_at<B: Bus>(cpu: &mut Cpu, bus: &B, arg: &Arg) -> Result<(), Stop>
    ensures { Gives result (state cpu.new (B.view bus.now)) (state cpu.old (B.view bus.now)) (run (valued cpu.old Word arg.now (jmp cpu.old)) (B.view bus.now)) }
{
    let ip = value(cpu, bus, Width::Word, arg)?;
    execute_jmp(cpu, bus, ip)
}

#[tactic(auto, using(o2_isa::proofs::Runs::run_within, o2_isa::proofs::Loads::loadable_ring3), unfolding(o2_isa::specs::FlowJumps::jmp_far))]
fn execute_jmp_to<B: Bus>(
    cpu: &mut Cpu,
    bus: &mut B,
    ip: u16,
    cs: u16,
    next: u16,
) -> Result<(), Stop>
    ensures { Gives result (state cpu.new (B.view bus.new)) (state cpu.old (B.view bus.old)) (run (jmp_far cpu.old ip cs next) (B.view bus.old)) }
{
    check_load(bus, Purpose::Jump, cs, next)?;
    check_target(bus, cs, ip)?;
    let outer = cs / 4 * 4 + 3;
    bus.load(Sreg::Cs, Selector(outer));
    cpu.cs = outer;
    cpu.ip = ip;
    Ok(())
}

/// JMP to a far address in the instruction or in memory.
#[tactic(auto, using(o2_isa::proofs::Runs::run_pair))]
pub fn execute_jmp_far<B: Bus>(cpu: &mut Cpu, bus: &mut B, arg: &Arg, next: u16) -> Result<(), Stop>
    ensures { Gives result (state cpu.new (B.view bus.new)) (state cpu.old (B.view bus.old)) (run (pair_valued cpu.old arg.now (λ ip cs. jmp_far cpu.old ip cs next)) (B.view bus.old)) }
{
    let (ip, cs) = pair(cpu, bus, arg)?;
    execute_jmp_to(cpu, bus, ip, cs, next)
}
