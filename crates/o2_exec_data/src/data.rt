// One data instruction.
ghost use Rattle.std.specs.Prelude.{◌≡◌};
ghost use Rattle.o2_isa.specs.declared.groups.Group.TheVariants.{Data};
ghost use Rattle.o2_isa.specs.Steps.{Gives, state, run};
ghost use Rattle.o2_isa.specs.OpRows.{op_steps};
ghost use Rattle.o2_isa.specs.Meaning.{meaning, group_of};
ghost use Rattle.o2_isa.specs.Step.{Answers};

use crate::arithmetic::{execute_binary, execute_unary};
use crate::decimal::execute_adjust;
use crate::flags::{execute_flag, execute_lahf, execute_sahf, execute_wait};
use crate::moves::{execute_cbw, execute_cwd, execute_mov, execute_xchg, execute_xlat};
use crate::pointers::{execute_lea, execute_load_pointer};
use crate::products::{execute_div, execute_imul_three, execute_mul};
use crate::shifts::execute_shift;
use crate::stack::{
    execute_pop, execute_popa, execute_popf, execute_push, execute_pusha, execute_pushf,
};
use o2_alu::is_set;
use o2_bus::{Bus, check_unlocked, outcome_of};
use o2_isa::{AdjustOp, BinaryOp, Cpu, Flag, Instr, Op, Outcome, ShiftOp, Sreg, Stop, UnaryOp};

// In line with the step, as the two below: calls and answers on the way would cost a fifth of it.
#[inline(always)]
#[tactic(auto, unfolding(o2_isa::specs::Meaning::group_of))]
fn execute_one<B: Bus>(cpu: &mut Cpu, bus: &mut B, i: &Instr, next: u16) -> Result<(), Stop>
    requires group { group_of i.now.op ≡ Data }
    ensures { Gives result (state cpu.new (B.view bus.new)) (state cpu.old (B.view bus.old)) (run (op_steps i.now.op cpu.old i.now next) (B.view bus.old)) }
{
    match i.op {
        Op::OpAdd => execute_binary(cpu, bus, BinaryOp::Add, i, next),
        Op::OpOr => execute_binary(cpu, bus, BinaryOp::Or, i, next),
        Op::OpAdc => execute_binary(cpu, bus, BinaryOp::Adc, i, next),
        Op::OpSbb => execute_binary(cpu, bus, BinaryOp::Sbb, i, next),
        Op::OpAnd => execute_binary(cpu, bus, BinaryOp::And, i, next),
        Op::OpSub => execute_binary(cpu, bus, BinaryOp::Sub, i, next),
        Op::OpXor => execute_binary(cpu, bus, BinaryOp::Xor, i, next),
        Op::OpCmp => execute_binary(cpu, bus, BinaryOp::Cmp, i, next),
        Op::OpTest => execute_binary(cpu, bus, BinaryOp::Test, i, next),
        Op::OpInc => execute_unary(cpu, bus, UnaryOp::Inc, i, next),
        Op::OpDec => execute_unary(cpu, bus, UnaryOp::Dec, i, next),
        Op::OpNeg => execute_unary(cpu, bus, UnaryOp::Neg, i, next),
        Op::OpNot => execute_unary(cpu, bus, UnaryOp::Not, i, next),
        Op::OpMov => execute_mov(cpu, bus, i, next),
        Op::OpPush => execute_push(cpu, bus, &i.left, next),
        Op::OpPop => execute_pop(cpu, bus, &i.left, next),
        Op::OpRol => execute_shift(cpu, bus, ShiftOp::Rol, i, next),
        Op::OpRor => execute_shift(cpu, bus, ShiftOp::Ror, i, next),
        Op::OpRcl => execute_shift(cpu, bus, ShiftOp::Rcl, i, next),
        Op::OpRcr => execute_shift(cpu, bus, ShiftOp::Rcr, i, next),
        Op::OpShl => execute_shift(cpu, bus, ShiftOp::Shl, i, next),
        Op::OpShr => execute_shift(cpu, bus, ShiftOp::Shr, i, next),
        Op::OpSar => execute_shift(cpu, bus, ShiftOp::Sar, i, next),
        Op::OpMul => execute_mul(cpu, bus, false, i, next),
        Op::OpImul => execute_mul(cpu, bus, true, i, next),
        Op::OpImulThree => execute_imul_three(cpu, bus, i, next),
        Op::OpDiv => execute_div(cpu, bus, false, i, next),
        Op::OpIdiv => execute_div(cpu, bus, true, i, next),
        Op::OpDaa => execute_adjust(cpu, bus, AdjustOp::Daa, i, next),
        Op::OpDas => execute_adjust(cpu, bus, AdjustOp::Das, i, next),
        Op::OpAaa => execute_adjust(cpu, bus, AdjustOp::Aaa, i, next),
        Op::OpAas => execute_adjust(cpu, bus, AdjustOp::Aas, i, next),
        Op::OpAam => execute_adjust(cpu, bus, AdjustOp::Aam, i, next),
        Op::OpAad => execute_adjust(cpu, bus, AdjustOp::Aad, i, next),
        Op::OpXchg => execute_xchg(cpu, bus, i, next),
        Op::OpLea => execute_lea(cpu, bus, i, next),
        Op::OpLes => execute_load_pointer(cpu, bus, Sreg::Es, i, next),
        Op::OpLds => execute_load_pointer(cpu, bus, Sreg::Ds, i, next),
        Op::OpXlat => execute_xlat(cpu, bus, i, next),
        Op::OpCbw => execute_cbw(cpu, bus, next),
        Op::OpCwd => execute_cwd(cpu, bus, next),
        Op::OpPusha => execute_pusha(cpu, bus, next),
        Op::OpPopa => execute_popa(cpu, bus, next),
        Op::OpPushf => execute_pushf(cpu, bus, next),
        Op::OpPopf => execute_popf(cpu, bus, next),
        Op::OpClc => execute_flag(cpu, bus, Flag::Carry, false, next),
        Op::OpStc => execute_flag(cpu, bus, Flag::Carry, true, next),
        Op::OpCmc => {
            let on = !is_set(cpu.flags, Flag::Carry);
            execute_flag(cpu, bus, Flag::Carry, on, next)
        }
        Op::OpCld => execute_flag(cpu, bus, Flag::Direction, false, next),
        Op::OpStd => execute_flag(cpu, bus, Flag::Direction, true, next),
        Op::OpSahf => execute_sahf(cpu, bus, next),
        Op::OpLahf => execute_lahf(cpu, bus, next),
        Op::OpWait => execute_wait(cpu, bus, next),
        _ => unreachable!(),
    }
}

#[inline(always)]
#[tactic(auto, unfolding(o2_isa::specs::Meaning::meaning, o2_isa::specs::Meaning::steps_of))]
fn execute_unlocked<B: Bus>(cpu: &mut Cpu, bus: &mut B, i: &Instr, next: u16) -> Result<(), Stop>
    requires group { group_of i.now.op ≡ Data }
    ensures { Gives result (state cpu.new (B.view bus.new)) (state cpu.old (B.view bus.old)) (meaning (state cpu.old (B.view bus.old)) i.now next) }
{
    check_unlocked(i)?;
    execute_one(cpu, bus, i, next)
}

/// One data instruction, with the IP behind it: what it means, or a miss that leaves registers and bytes as they were.
#[inline(always)]
#[tactic(auto, using(o2_isa::proofs::StepLaws::answers_from))]
pub fn execute<B: Bus>(cpu: &mut Cpu, bus: &mut B, i: &Instr, next: u16) -> Outcome
    requires group { group_of i.now.op ≡ Data }
    ensures { Answers result (state cpu.new (B.view bus.new)) (state cpu.old (B.view bus.old)) (meaning (state cpu.old (B.view bus.old)) i.now next) }
{
    outcome_of(execute_unlocked(cpu, bus, i, next))
}
