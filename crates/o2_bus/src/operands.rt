// How most instructions begin and end: an operand as a number of the width, and a result with its flags.
ghost use Rattle.std.specs.Prelude.{◌≡◌, IfOk};
ghost use Rattle.o2_isa.specs.Widths.{IsOfWidth};
ghost use Rattle.o2_isa.specs.Steps.{Gives, state, run};
ghost use Rattle.o2_isa.specs.Finishing.{taken_of, placed, finishing};

use crate::Bus;
use crate::access::{narrowed, store, value};
use crate::registers::{set_byte_register, set_word_register};
use o2_isa::{Arg, Cpu, Stop, Width};

/// The value of an operand as a number of the width: 0 where there is none.
#[inline(always)]
pub fn operand<B: Bus>(cpu: &Cpu, bus: &B, width: Width, arg: &Arg) -> Result<u16, Stop>
    ensures value { result ≡ taken_of (state cpu.now (B.view bus.now)) width arg.now }
    ensures fits { IfOk result (λ x. IsOfWidth width x) }
{
    let x = value(cpu, bus, width, arg)?;
    Ok(narrowed(width, x))
}

/// Puts a value into a register; any other operand keeps all as it is.
#[inline(always)]
#[tactic(auto, unfolding(o2_isa::specs::Finishing::placed))]
pub fn place(cpu: &mut Cpu, arg: &Arg, x: u16)
    ensures { cpu.new ≡ placed cpu.old arg.now x }
{
    match arg {
        Arg::R8(n) => set_byte_register(cpu, *n, x % 256),
        Arg::R16(n) => set_word_register(cpu, *n, x),
        _ => {}
    }
}

/// Puts a result into a register or into memory, and then the flags word and IP. Where there is no room, all stays.
#[inline(always)]
#[tactic(auto, using(o2_isa::proofs::FinishRuns::run_finishing))]
pub fn finish<B: Bus>(
    cpu: &mut Cpu,
    bus: &mut B,
    width: Width,
    arg: &Arg,
    x: u16,
    flags: u16,
    next: u16,
) -> Result<(), Stop>
    ensures { Gives result (state cpu.new (B.view bus.new)) (state cpu.old (B.view bus.old)) (run (finishing cpu.old width arg.now x flags next) (B.view bus.old)) }
{
    store(cpu, bus, width, arg, x)?;
    cpu.flags = flags;
    cpu.ip = next;
    Ok(())
}
