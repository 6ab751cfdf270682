// LEA, LES and LDS, and loads of segment registers.
ghost use Rattle.std.specs.Prelude.{◌≡◌};
ghost use Rattle.o2_isa.specs.Steps.{Gives, state, run};
ghost use Rattle.o2_isa.specs.DataMoves.{purpose_of as load_purpose, loading, address_of, lea, load_pointer};

use o2_bus::{Bus, check_load, offset, place, read, set_segment_register, store};
use o2_isa::{Arg, Cpu, Instr, Purpose, Selector, Sreg, Stop, Width};

/// What a segment register is loaded for.
pub fn purpose_of(reg: Sreg) -> Purpose
    ensures { result ≡ load_purpose reg }
{
    match reg {
        Sreg::Es => Purpose::DataReg,
        Sreg::Cs => Purpose::DataReg,
        Sreg::Ss => Purpose::StackReg,
        Sreg::Ds => Purpose::DataReg,
    }
}

/// A selector into a segment register.
#[tactic(auto, unfolding(o2_isa::specs::DataMoves::loading))]
pub fn load_selector<B: Bus>(
    cpu: &mut Cpu,
    bus: &mut B,
    reg: Sreg,
    sel: u16,
    next: u16,
) -> Result<(), Stop>
    ensures { Gives result (state cpu.new (B.view bus.new)) (state cpu.old (B.view bus.old)) (run (loading cpu.old reg sel next) (B.view bus.old)) }
{
    check_load(bus, purpose_of(reg), sel, next)?;
    bus.load(reg, Selector(sel));
    set_segment_register(cpu, reg, sel);
    cpu.ip = next;
    Ok(())
}

/// The offset of an operand in memory.
#[inline]
fn address(cpu: &Cpu, arg: &Arg) -> u16
    ensures { result ≡ address_of cpu.now arg.now }
{
    match arg {
        Arg::M(ea) => offset(cpu, ea),
        _ => 0,
    }
}

#[tactic(auto, using(o2_isa::proofs::Runs::run_storing), unfolding(o2_isa::specs::DataMoves::lea))]
pub fn execute_lea<B: Bus>(cpu: &mut Cpu, bus: &mut B, i: &Instr, next: u16) -> Result<(), Stop>
    ensures { Gives result (state cpu.new (B.view bus.new)) (state cpu.old (B.view bus.old)) (run (lea cpu.old i.now next) (B.view bus.old)) }
{
    let off = address(cpu, &i.right);
    store(cpu, bus, Width::Word, &i.left, off)?;
    cpu.ip = next;
    Ok(())
}

#[tactic(auto, unfolding(o2_isa::specs::DataMoves::load_pointer))]
pub fn execute_load_pointer<B: Bus>(
    cpu: &mut Cpu,
    bus: &mut B,
    reg: Sreg,
    i: &Instr,
    next: u16,
) -> Result<(), Stop>
    ensures { Gives result (state cpu.new (B.view bus.new)) (state cpu.old (B.view bus.old)) (run (load_pointer cpu.old reg i.now.left i.now.right next) (B.view bus.old)) }
{
    match &i.right {
        Arg::M(ea) => {
            let off = offset(cpu, ea);
            let pointer = read(bus, ea.seg, off, Width::Word)?;
            let sel = read(bus, ea.seg, off.wrapping_add(2), Width::Word)?;
            let mut after = *cpu;
            place(&mut after, &i.left, pointer);
            load_selector(&mut after, bus, reg, sel, next)?;
            *cpu = after;
            Ok(())
        }
        _ => Err(Stop::Trap(6, 0)),
    }
}
