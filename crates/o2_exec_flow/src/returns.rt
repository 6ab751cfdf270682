// Returns.
ghost use Rattle.o2_isa.specs.Steps.{Gives, state, run};
ghost use Rattle.o2_isa.specs.FlowCalls.{ret, retf, iret, iret_unnested};

use o2_alu::is_set;
use o2_bus::{Bus, check_load, check_target, read};
use o2_desc::FlagsWord;
use o2_isa::{Cpu, Flag, Purpose, Selector, Sreg, Stop, Width};

#[tactic(auto, using(o2_isa::proofs::Runs::run_within), unfolding(o2_isa::specs::FlowCalls::ret))]
pub fn execute_ret<B: Bus>(cpu: &mut Cpu, bus: &B, dropped: u16) -> Result<(), Stop>
    ensures { Gives result (state cpu.new (B.view bus.now)) (state cpu.old (B.view bus.now)) (run (ret cpu.old dropped) (B.view bus.now)) }
{
    let ip = read(bus, Sreg::Ss, cpu.sp, Width::Word)?;
    check_target(bus, cpu.cs, ip)?;
    cpu.sp = cpu.sp.wrapping_add(2).wrapping_add(dropped);
    cpu.ip = ip;
    Ok(())
}

#[tactic(auto, using(o2_isa::proofs::Runs::run_within), unfolding(o2_isa::specs::FlowCalls::retf))]
pub fn execute_retf<B: Bus>(cpu: &mut Cpu, bus: &mut B, dropped: u16, next: u16) -> Result<(), Stop>
    ensures { Gives result (state cpu.new (B.view bus.new)) (state cpu.old (B.view bus.old)) (run (retf cpu.old dropped next) (B.view bus.old)) }
{
    let at = cpu.sp;
    let ip = read(bus, Sreg::Ss, at, Width::Word)?;
    let cs = read(bus, Sreg::Ss, at.wrapping_add(2), Width::Word)?;
    check_load(bus, Purpose::Return, cs, next)?;
    check_target(bus, cs, ip)?;
    bus.load(Sreg::Cs, Selector(cs));
    cpu.cs = cs;
    cpu.sp = cpu.sp.wrapping_add(4).wrapping_add(dropped);
    cpu.ip = ip;
    Ok(())
}

#[tactic(auto, using(o2_isa::proofs::Runs::run_within), unfolding(o2_isa::specs::FlowCalls::iret_unnested))]
fn execute_unnested<B: Bus>(cpu: &mut Cpu, bus: &mut B, next: u16) -> Result<(), Stop>
    ensures { Gives result (state cpu.new (B.view bus.new)) (state cpu.old (B.view bus.old)) (run (iret_unnested cpu.old next) (B.view bus.old)) }
{
    let second = cpu.sp.wrapping_add(2);
    let ip = read(bus, Sreg::Ss, cpu.sp, Width::Word)?;
    let cs = read(bus, Sreg::Ss, second, Width::Word)?;
    let word = read(bus, Sreg::Ss, second.wrapping_add(2), Width::Word)?;
    check_load(bus, Purpose::Return, cs, next)?;
    check_target(bus, cs, ip)?;
    bus.load(Sreg::Cs, Selector(cs));
    cpu.cs = cs;
    cpu.sp = cpu.sp.wrapping_add(6);
    cpu.ip = ip;
    cpu.flags = FlagsWord(cpu.flags).popped(word).0;
    Ok(())
}

pub fn execute_iret<B: Bus>(cpu: &mut Cpu, bus: &mut B, next: u16) -> Result<(), Stop>
    ensures { Gives result (state cpu.new (B.view bus.new)) (state cpu.old (B.view bus.old)) (run (iret cpu.old next) (B.view bus.old)) }
{
    if is_set(cpu.flags, Flag::Nested) {
        Err(Stop::Trap(13, 0))
    } else {
        execute_unnested(cpu, bus, next)
    }
}
