// One step over any bus.
ghost use Rattle.std.specs.Prelude.{◌≡◌, ℕ, true, false};
ghost use Rattle.o2_isa.specs.Reading.{decoded};
ghost use Rattle.o2_isa.specs.View.{Filling, IsBound, KeepsFrame, Agrees, fetched};
ghost use Rattle.o2_isa.specs.Steps.{run, state};
ghost use Rattle.o2_isa.specs.Meaning.{meaning};
ghost use Rattle.o2_isa.specs.Presence.{whole_state, is_in};
ghost use Rattle.o2_isa.specs.Sizes.{KeepsLengths};
ghost use Rattle.o2_isa.specs.Writes.{WritesData};
ghost use Rattle.o2_isa.specs.Step.{steps_at, Answers, AsBoundless, stepped, step_names, is_miss};

use o2_bus::{Bus, Cpu, Outcome};
use o2_decode::decode;
use o2_isa::{Decoded, Group, Instr, instruction_group};

/// One instruction, by its group.
#[inline(always)]
fn execute<B: Bus>(cpu: &mut Cpu, bus: &mut B, i: &Instr, next: u16) -> Outcome
    ensures { Answers result (state cpu.new (B.view bus.new)) (state cpu.old (B.view bus.old)) (meaning (state cpu.old (B.view bus.old)) i.now next) }
{
    match instruction_group(i.op) {
        Group::Data => o2_exec_data::execute(cpu, bus, i, next),
        Group::Flow => o2_exec_flow::execute(cpu, bus, i, next),
        Group::Strings => o2_exec_string::execute(cpu, bus, i, next),
    }
}

// What was decoded is executed where it stands: a copy would cost as much as the step.
#[inline(always)]
#[tactic(auto, unfolding(o2_isa::specs::Meaning::meaning))]
fn finished<B: Bus>(cpu: &mut Cpu, bus: &mut B, spelled: &Decoded) -> Outcome
    ensures { Answers result (state cpu.new (B.view bus.new)) (state cpu.old (B.view bus.old)) (run (steps_at cpu.old spelled.now) (B.view bus.old)) }
{
    match spelled {
        Decoded::One(i, n) => {
            let next = cpu.ip.wrapping_add(*n as u16);
            execute(cpu, bus, i, next)
        }
        Decoded::Invalid => Outcome::Trap(6, 0),
        _ => Outcome::Trap(13, 0),
    }
}

/// One step whose bytes at CS:IP are decoded already: what they spell, where it stands. Whoever decodes them, the step is the same.
#[inline(always)]
#[tactic(auto, unfolding(o2_isa::specs::Step::stepped))]
pub fn step_decoded<B: Bus>(cpu: &mut Cpu, bus: &mut B, spelled: &Decoded) -> Outcome
    requires { spelled.now ≡ decoded (fetched (B.view bus.old) cpu.old.ip) }
    ensures { Answers result (state cpu.new (B.view bus.new)) (state cpu.old (B.view bus.old)) (stepped (state cpu.old (B.view bus.old))) }
{
    finished(cpu, bus, spelled)
}

#[inline(always)]
fn one_step<B: Bus>(cpu: &mut Cpu, bus: &mut B) -> Outcome
    ensures { Answers result (state cpu.new (B.view bus.new)) (state cpu.old (B.view bus.old)) (stepped (state cpu.old (B.view bus.old))) }
{
    let mut bytes = [0u8; 10];
    let count = bus.fetch(cpu.ip, &mut bytes);
    let spelled = decode(&bytes[..count]);
    step_decoded(cpu, bus, &spelled)
}

/// One instruction, or one repetition of a string instruction.
///
/// It answers what the bytes at CS:IP mean, in the order of checks of the 80286. A miss, a trap and a call of a service leave
/// the registers and all bytes as they were; at most accessed bits are set.
pub fn step_one<B: Bus>(cpu: &mut Cpu, bus: &mut B) -> Outcome
    ensures step { Answers result (state cpu.new (B.view bus.new)) (state cpu.old (B.view bus.old)) (stepped (state cpu.old (B.view bus.old))) }
    ensures boundless { (f : Filling) → IsBound (B.view bus.old) → AsBoundless f result (state cpu.new (B.view bus.new)) (state cpu.old (B.view bus.old)) }
    ensures frame { KeepsFrame (B.view bus.old) (B.view bus.new) }
    ensures lengths { KeepsLengths (B.view bus.old).bytes (B.view bus.new).bytes }
    ensures writes { WritesData (B.view bus.old) (B.view bus.new) }
    ensures agrees { Agrees cpu.old (B.view bus.old) → Agrees cpu.new (B.view bus.new) }
    ensures present { (f : Filling) → IsBound (B.view bus.old) → is_miss result ≡ false → (n : ℕ) → is_in n (step_names (whole_state f (state cpu.old (B.view bus.old)))) ≡ true → (B.view bus.old).present n ≡ true }
{
    one_step(cpu, bus)
}
