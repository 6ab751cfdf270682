// LAR, LSL, VERR, VERW and ARPL.
ghost use Rattle.std.specs.Prelude.{◌≡◌, true};
ghost use Rattle.o2_isa.specs.declared.instr.Width.TheVariants.{Word};
ghost use Rattle.o2_isa.specs.Steps.{Gives, state, run, storing};
ghost use Rattle.o2_isa.specs.FlowProtection.{with_zero, told, high_half as high_half_of, limit_of, lar, lsl, has_rights as has_rights_of, verify, adjusted, arpl};
ghost use Rattle.o2_exec_flow.specs.Asked.{asked};

use o2_alu::with_flag;
use o2_bus::{Bus, store, value};
use o2_desc::Access;
use o2_isa::{Arg, Cpu, Flag, Instr, Selector, Stop, Width};

fn set_zero(cpu: &mut Cpu, on: bool)
    ensures { cpu.new ≡ with_zero cpu.old on }
{
    cpu.flags = with_flag(cpu.flags, Flag::Zero, on);
}

/// A word put into an operand, with ZF 1.
#[tactic(auto, using(o2_isa::proofs::Runs::run_storing))]
fn store_found<B: Bus>(cpu: &mut Cpu, bus: &mut B, arg: &Arg, x: u16, next: u16) -> Result<(), Stop>
    ensures { Gives result (state cpu.new (B.view bus.new)) (state cpu.old (B.view bus.old)) (run (storing (with_zero cpu.old true) Word arg.now x next) (B.view bus.old)) }
{
    let mut found = *cpu;
    set_zero(&mut found, true);
    store(&mut found, bus, Width::Word, arg, x)?;
    found.ip = next;
    *cpu = found;
    Ok(())
}

/// What a selector's descriptor says goes to the left operand, with ZF 1; where there is nothing, ZF 0.
fn tell<B: Bus>(
    cpu: &mut Cpu,
    bus: &mut B,
    i: &Instr,
    next: u16,
    said: Option<u16>,
) -> Result<(), Stop>
    ensures { Gives result (state cpu.new (B.view bus.new)) (state cpu.old (B.view bus.old)) (run (told cpu.old i.now next said) (B.view bus.old)) }
{
    match said {
        Some(x) => store_found(cpu, bus, &i.left, x, next),
        None => {
            set_zero(cpu, false);
            cpu.ip = next;
            Ok(())
        }
    }
}

fn high_half(rights: Option<u8>) -> Option<u16>
    ensures { result ≡ high_half_of rights }
{
    match rights {
        Some(rights) => Some(rights as u16 * 256),
        None => None,
    }
}

fn limit(size: Option<u32>) -> Option<u16>
    ensures { result ≡ limit_of size }
{
    match size {
        Some(size) => Some(((size as u64 + 65535) % 65536) as u16),
        None => None,
    }
}

#[tactic(auto, using(o2_isa::proofs::Runs::run_valued), unfolding(o2_isa::specs::FlowProtection::lar))]
pub fn execute_lar<B: Bus>(cpu: &mut Cpu, bus: &mut B, i: &Instr, next: u16) -> Result<(), Stop>
    ensures { Gives result (state cpu.new (B.view bus.new)) (state cpu.old (B.view bus.old)) (run (lar cpu.old i.now next) (B.view bus.old)) }
{
    let s = value(cpu, bus, Width::Word, &i.right)?;
    let said = high_half(bus.rights_of(Selector(s)));
    tell(cpu, bus, i, next, said)
}

#[tactic(auto, using(o2_isa::proofs::Runs::run_valued), unfolding(o2_isa::specs::FlowProtection::lsl))]
pub fn execute_lsl<B: Bus>(cpu: &mut Cpu, bus: &mut B, i: &Instr, next: u16) -> Result<(), Stop>
    ensures { Gives result (state cpu.new (B.view bus.new)) (state cpu.old (B.view bus.old)) (run (lsl cpu.old i.now next) (B.view bus.old)) }
{
    let s = value(cpu, bus, Width::Word, &i.right)?;
    let said = limit(bus.size_of(Selector(s)));
    tell(cpu, bus, i, next, said)
}

/// Whether an access byte allows writes or else reads.
fn has_rights(writes: bool, rights: Option<u8>) -> bool
    ensures { result ≡ has_rights_of (asked writes) rights }
{
    match rights {
        Some(rights) => {
            let allowed = Access(rights).rights();
            if writes {
                allowed.is_writable()
            } else {
                allowed.is_readable()
            }
        }
        None => false,
    }
}

/// VERW and, without `writes`, VERR.
#[tactic(auto, using(o2_isa::proofs::Runs::run_valued), unfolding(o2_isa::specs::FlowProtection::verify))]
pub fn execute_verify<B: Bus>(
    cpu: &mut Cpu,
    bus: &B,
    i: &Instr,
    writes: bool,
    next: u16,
) -> Result<(), Stop>
    ensures { Gives result (state cpu.new (B.view bus.now)) (state cpu.old (B.view bus.now)) (run (verify (asked writes) cpu.old i.now next) (B.view bus.now)) }
{
    let s = value(cpu, bus, Width::Word, &i.left)?;
    let allowed = has_rights(writes, bus.rights_of(Selector(s)));
    set_zero(cpu, allowed);
    cpu.ip = next;
    Ok(())
}

fn adjust<B: Bus>(
    cpu: &mut Cpu,
    bus: &mut B,
    i: &Instr,
    next: u16,
    a: u16,
    b: u16,
) -> Result<(), Stop>
    ensures { Gives result (state cpu.new (B.view bus.new)) (state cpu.old (B.view bus.old)) (run (adjusted cpu.old i.now next a b) (B.view bus.old)) }
{
    if a % 4 < b % 4 {
        store_found(cpu, bus, &i.left, a / 4 * 4 + b % 4, next)
    } else {
        set_zero(cpu, false);
        cpu.ip = next;
        Ok(())
    }
}

#[tactic(auto, using(o2_isa::proofs::Runs::run_valued), unfolding(o2_isa::specs::FlowProtection::arpl))]
pub fn execute_arpl<B: Bus>(cpu: &mut Cpu, bus: &mut B, i: &Instr, next: u16) -> Result<(), Stop>
    ensures { Gives result (state cpu.new (B.view bus.new)) (state cpu.old (B.view bus.old)) (run (arpl cpu.old i.now next) (B.view bus.old)) }
{
    let a = value(cpu, bus, Width::Word, &i.left)?;
    let b = value(cpu, bus, Width::Word, &i.right)?;
    adjust(cpu, bus, i, next, a, b)
}
