// One flow instruction. What always traps: the numeric processor isn't there, ports and the processor's own state are
// privileged at this level, and the instructions that show that state aren't there either.
ghost use Rattle.std.specs.Prelude.{◌≡◌};
ghost use Rattle.o2_isa.specs.declared.groups.Group.TheVariants.{Flow};
ghost use Rattle.o2_isa.specs.Steps.{Gives, state, run};
ghost use Rattle.o2_isa.specs.FlowJumps.{jcc};
ghost use Rattle.o2_isa.specs.OpRows.{op_steps};
ghost use Rattle.o2_isa.specs.Meaning.{meaning, group_of};
ghost use Rattle.o2_isa.specs.Step.{Answers};

use crate::calls::{execute_call, execute_call_at, execute_call_far};
use crate::frames::{execute_enter, execute_leave};
use crate::interrupts::{execute_bound, execute_into, interrupt};
use crate::jumps::{
    execute_jmp, execute_jmp_at, execute_jmp_far, execute_jmp_if, execute_loop, is_less,
};
use crate::operands::{immediate, relative};
use crate::protection::{execute_arpl, execute_lar, execute_lsl, execute_verify};
use crate::returns::{execute_iret, execute_ret, execute_retf};
use o2_alu::is_set;
use o2_bus::{Bus, check_unlocked, outcome_of};
use o2_isa::{Cpu, Flag, Instr, Op, Outcome, Stop};

/// A conditional jump.
fn execute_jcc<B: Bus>(
    cpu: &mut Cpu,
    bus: &mut B,
    taken: bool,
    i: &Instr,
    next: u16,
) -> Result<(), Stop>
    ensures { Gives result (state cpu.new (B.view bus.new)) (state cpu.old (B.view bus.old)) (run (jcc taken cpu.old i.now next) (B.view bus.old)) }
{
    execute_jmp_if(cpu, bus, taken, relative(&i.left, next), next)
}

// In line with the step, as the two below: calls and answers on the way would cost a fifth of it.
#[inline(always)]
#[tactic(auto, unfolding(o2_isa::specs::Meaning::group_of))]
fn execute_one<B: Bus>(cpu: &mut Cpu, bus: &mut B, i: &Instr, next: u16) -> Result<(), Stop>
    requires group { group_of i.now.op ≡ Flow }
    ensures { Gives result (state cpu.new (B.view bus.new)) (state cpu.old (B.view bus.old)) (run (op_steps i.now.op cpu.old i.now next) (B.view bus.old)) }
{
    let f = cpu.flags;
    match i.op {
        Op::OpJo => execute_jcc(cpu, bus, is_set(f, Flag::Overflow), i, next),
        Op::OpJno => execute_jcc(cpu, bus, !is_set(f, Flag::Overflow), i, next),
        Op::OpJb => execute_jcc(cpu, bus, is_set(f, Flag::Carry), i, next),
        Op::OpJae => execute_jcc(cpu, bus, !is_set(f, Flag::Carry), i, next),
        Op::OpJe => execute_jcc(cpu, bus, is_set(f, Flag::Zero), i, next),
        Op::OpJne => execute_jcc(cpu, bus, !is_set(f, Flag::Zero), i, next),
        Op::OpJbe => execute_jcc(
            cpu,
            bus,
            is_set(f, Flag::Carry) || is_set(f, Flag::Zero),
            i,
            next,
        ),
        Op::OpJa => execute_jcc(
            cpu,
            bus,
            !(is_set(f, Flag::Carry) || is_set(f, Flag::Zero)),
            i,
            next,
        ),
        Op::OpJs => execute_jcc(cpu, bus, is_set(f, Flag::Sign), i, next),
        Op::OpJns => execute_jcc(cpu, bus, !is_set(f, Flag::Sign), i, next),
        Op::OpJp => execute_jcc(cpu, bus, is_set(f, Flag::Parity), i, next),
        Op::OpJnp => execute_jcc(cpu, bus, !is_set(f, Flag::Parity), i, next),
        Op::OpJl => execute_jcc(cpu, bus, is_less(f), i, next),
        Op::OpJge => execute_jcc(cpu, bus, !is_less(f), i, next),
        Op::OpJle => execute_jcc(cpu, bus, is_set(f, Flag::Zero) || is_less(f), i, next),
        Op::OpJg => execute_jcc(cpu, bus, !(is_set(f, Flag::Zero) || is_less(f)), i, next),
        Op::OpLoop => execute_loop(cpu, bus, true, relative(&i.left, next), next),
        Op::OpLoope => {
            let equal = is_set(f, Flag::Zero);
            execute_loop(cpu, bus, equal, relative(&i.left, next), next)
        }
        Op::OpLoopne => {
            let differs = !is_set(f, Flag::Zero);
            execute_loop(cpu, bus, differs, relative(&i.left, next), next)
        }
        Op::OpJcxz => {
            let taken = cpu.cx == 0;
            execute_jmp_if(cpu, bus, taken, relative(&i.left, next), next)
        }
        Op::OpJmp => execute_jmp(cpu, bus, relative(&i.left, next)),
        Op::OpJmpAt => execute_jmp_at(cpu, bus, &i.left),
        Op::OpJmpFar | Op::OpJmpFarAt => execute_jmp_far(cpu, bus, &i.left, next),
        Op::OpCall => execute_call(cpu, bus, relative(&i.left, next), next),
        Op::OpCallAt => execute_call_at(cpu, bus, &i.left, next),
        Op::OpCallFar | Op::OpCallFarAt => execute_call_far(cpu, bus, &i.left, next),
        Op::OpRet => execute_ret(cpu, bus, immediate(&i.left)),
        Op::OpRetf => execute_retf(cpu, bus, immediate(&i.left), next),
        Op::OpIret => execute_iret(cpu, bus, next),
        Op::OpInt => Err(interrupt(immediate(&i.left))),
        Op::OpIntThree => Err(Stop::Trap(3, 0)),
        Op::OpInto => execute_into(cpu, bus, next),
        Op::OpBound => execute_bound(cpu, bus, i, next),
        Op::OpEnter => execute_enter(cpu, bus, immediate(&i.left), immediate(&i.right), next),
        Op::OpLeave => execute_leave(cpu, bus, next),
        Op::OpLar => execute_lar(cpu, bus, i, next),
        Op::OpLsl => execute_lsl(cpu, bus, i, next),
        Op::OpVerr => execute_verify(cpu, bus, i, false, next),
        Op::OpVerw => execute_verify(cpu, bus, i, true, next),
        Op::OpArpl => execute_arpl(cpu, bus, i, next),
        Op::OpEsc => Err(Stop::Trap(7, 0)),
        Op::OpIn
        | Op::OpOut
        | Op::OpIns
        | Op::OpOuts
        | Op::OpCli
        | Op::OpSti
        | Op::OpHlt
        | Op::OpLldt
        | Op::OpLtr
        | Op::OpLgdt
        | Op::OpLidt
        | Op::OpLmsw
        | Op::OpClts => Err(Stop::Trap(13, 0)),
        Op::OpSldt | Op::OpStr | Op::OpSgdt | Op::OpSidt | Op::OpSmsw => Err(Stop::Trap(6, 0)),
        _ => unreachable!(),
    }
}

#[inline(always)]
#[tactic(auto, unfolding(o2_isa::specs::Meaning::meaning, o2_isa::specs::Meaning::steps_of))]
fn execute_unlocked<B: Bus>(cpu: &mut Cpu, bus: &mut B, i: &Instr, next: u16) -> Result<(), Stop>
    requires group { group_of i.now.op ≡ Flow }
    ensures { Gives result (state cpu.new (B.view bus.new)) (state cpu.old (B.view bus.old)) (meaning (state cpu.old (B.view bus.old)) i.now next) }
{
    check_unlocked(i)?;
    execute_one(cpu, bus, i, next)
}

/// One flow instruction, with the IP behind it: what it means, or a miss that leaves registers and bytes as they were.
#[inline(always)]
#[tactic(auto, using(o2_isa::proofs::StepLaws::answers_from))]
pub fn execute<B: Bus>(cpu: &mut Cpu, bus: &mut B, i: &Instr, next: u16) -> Outcome
    requires group { group_of i.now.op ≡ Flow }
    ensures { Answers result (state cpu.new (B.view bus.new)) (state cpu.old (B.view bus.old)) (meaning (state cpu.old (B.view bus.old)) i.now next) }
{
    outcome_of(execute_unlocked(cpu, bus, i, next))
}
