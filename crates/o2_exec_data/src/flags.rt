// CLC, STC, CMC, CLD, STD, SAHF and LAHF.
ghost use Rattle.o2_isa.specs.Steps.{Gives, state, run};
ghost use Rattle.o2_isa.specs.DataFlags.{flagging, sahf, lahf, wait};

use o2_alu::with_flag;
use o2_bus::{Bus, set_byte_register};
use o2_desc::FlagsWord;
use o2_isa::{Cpu, Flag, Stop};

/// CLC, STC, CMC, CLD and STD: one flag is put.
#[tactic(auto, unfolding(o2_isa::specs::DataFlags::flagging))]
pub fn execute_flag<B: Bus>(
    cpu: &mut Cpu,
    bus: &mut B,
    flag: Flag,
    on: bool,
    next: u16,
) -> Result<(), Stop>
    ensures { Gives result (state cpu.new (B.view bus.new)) (state cpu.old (B.view bus.old)) (run (flagging flag on cpu.old next) (B.view bus.old)) }
{
    cpu.flags = with_flag(cpu.flags, flag, on);
    cpu.ip = next;
    Ok(())
}

#[tactic(auto, unfolding(o2_isa::specs::DataFlags::sahf))]
pub fn execute_sahf<B: Bus>(cpu: &mut Cpu, bus: &mut B, next: u16) -> Result<(), Stop>
    ensures { Gives result (state cpu.new (B.view bus.new)) (state cpu.old (B.view bus.old)) (run (sahf cpu.old next) (B.view bus.old)) }
{
    cpu.flags = FlagsWord(cpu.flags).loaded((cpu.ax / 256) as u8).0;
    cpu.ip = next;
    Ok(())
}

#[tactic(auto, unfolding(o2_isa::specs::DataFlags::lahf))]
pub fn execute_lahf<B: Bus>(cpu: &mut Cpu, bus: &mut B, next: u16) -> Result<(), Stop>
    ensures { Gives result (state cpu.new (B.view bus.new)) (state cpu.old (B.view bus.old)) (run (lahf cpu.old next) (B.view bus.old)) }
{
    let low = FlagsWord(cpu.flags).shown().0 % 256;
    set_byte_register(cpu, 4, low);
    cpu.ip = next;
    Ok(())
}

#[tactic(auto, unfolding(o2_isa::specs::DataFlags::wait))]
pub fn execute_wait<B: Bus>(cpu: &mut Cpu, bus: &mut B, next: u16) -> Result<(), Stop>
    ensures { Gives result (state cpu.new (B.view bus.new)) (state cpu.old (B.view bus.old)) (run (wait cpu.old next) (B.view bus.old)) }
{
    cpu.ip = next;
    Ok(())
}
