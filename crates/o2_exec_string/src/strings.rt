// One string instruction.
ghost use Rattle.std.specs.Prelude.{◌≡◌};
ghost use Rattle.o2_isa.specs.declared.groups.Group.TheVariants.{Strings};
ghost use Rattle.o2_isa.specs.Steps.{Gives, state, run};
ghost use Rattle.o2_isa.specs.OpRows.{op_steps};
ghost use Rattle.o2_isa.specs.Meaning.{meaning, group_of};
ghost use Rattle.o2_isa.specs.Step.{Answers};

use crate::comparisons::{execute_cmps, execute_scas};
use crate::moves::{execute_lods, execute_movs, execute_stos};
use crate::parts::is_over;
use o2_bus::{Bus, check_unlocked, outcome_of};
use o2_isa::{Cpu, Instr, Op, Outcome, Stop};

/// One repetition, or none where CX is 0 behind a repeat prefix.
// In line with the step, as the two below: calls and answers on the way would cost a fifth of it.
#[inline(always)]
#[tactic(auto, unfolding(o2_isa::specs::Meaning::group_of))]
fn execute_counted<B: Bus>(cpu: &mut Cpu, bus: &mut B, i: &Instr, next: u16) -> Result<(), Stop>
    requires group { group_of i.now.op ≡ Strings }
    ensures { Gives result (state cpu.new (B.view bus.new)) (state cpu.old (B.view bus.old)) (run (op_steps i.now.op cpu.old i.now next) (B.view bus.old)) }
{
    let over = is_over(i.rep, cpu.cx);
    match i.op {
        Op::OpMovs | Op::OpCmps | Op::OpStos | Op::OpLods | Op::OpScas if over => {
            cpu.ip = next;
            Ok(())
        }
        Op::OpMovs => execute_movs(cpu, bus, i, next),
        Op::OpCmps => execute_cmps(cpu, bus, i, next),
        Op::OpStos => execute_stos(cpu, bus, i, next),
        Op::OpLods => execute_lods(cpu, bus, i, next),
        Op::OpScas => execute_scas(cpu, bus, i, next),
        _ => unreachable!(),
    }
}

#[inline(always)]
#[tactic(auto, unfolding(o2_isa::specs::Meaning::meaning, o2_isa::specs::Meaning::steps_of))]
fn execute_unlocked<B: Bus>(cpu: &mut Cpu, bus: &mut B, i: &Instr, next: u16) -> Result<(), Stop>
    requires group { group_of i.now.op ≡ Strings }
    ensures { Gives result (state cpu.new (B.view bus.new)) (state cpu.old (B.view bus.old)) (meaning (state cpu.old (B.view bus.old)) i.now next) }
{
    check_unlocked(i)?;
    execute_counted(cpu, bus, i, next)
}

/// One repetition of a string instruction, with the IP behind it: what it means; a trap leaves registers and bytes as they
/// were. IP stays where more repetitions follow.
#[inline(always)]
#[tactic(auto, using(o2_isa::proofs::StepLaws::answers_from))]
pub fn execute<B: Bus>(cpu: &mut Cpu, bus: &mut B, i: &Instr, next: u16) -> Outcome
    requires group { group_of i.now.op ≡ Strings }
    ensures { Answers result (state cpu.new (B.view bus.new)) (state cpu.old (B.view bus.old)) (meaning (state cpu.old (B.view bus.old)) i.now next) }
{
    outcome_of(execute_unlocked(cpu, bus, i, next))
}
