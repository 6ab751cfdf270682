// Operands of the flow instructions.
ghost use Rattle.std.specs.Prelude.{◌≡◌};
ghost use Rattle.o2_isa.specs.Steps.{state, pair_of};
ghost use Rattle.o2_isa.specs.FlowJumps.{immediate as immediate_of, relative as relative_of};

use o2_bus::{Bus, offset, read};
use o2_isa::{Arg, Cpu, Stop, Width};

/// An immediate operand, and 0 where there is none.
pub fn immediate(arg: &Arg) -> u16
    ensures { result ≡ immediate_of arg.now }
{
    match arg {
        Arg::Imm(n) => *n,
        _ => 0,
    }
}

/// The target of a relative jump or call: so far behind the next IP.
pub fn relative(arg: &Arg, next: u16) -> u16
    ensures { result ≡ relative_of arg.now next }
{
    next.wrapping_add(immediate(arg))
}

/// Two words of an operand in memory, the lower first, or the offset and the selector in the instruction.
pub fn pair<B: Bus>(cpu: &Cpu, bus: &B, arg: &Arg) -> Result<(u16, u16), Stop>
    ensures { result ≡ pair_of (state cpu.now (B.view bus.now)) arg.now }
{
    match arg {
        Arg::M(ea) => {
            let at = offset(cpu, ea);
            let low = read(bus, ea.seg, at, Width::Word)?;
            let high = read(bus, ea.seg, at.wrapping_add(2), Width::Word)?;
            Ok((low, high))
        }
        Arg::Far(offset, selector) => Ok((*offset, *selector)),
        _ => Ok((0, 0)),
    }
}
