// ADD, OR, ADC, SBB, AND, SUB, XOR, CMP and TEST; INC, DEC, NEG and NOT. The width is looked at once, so that what follows is
// made for each width.
ghost use Rattle.std.specs.Prelude.{◌≡◌};
ghost use Rattle.o2_isa.specs.Steps.{Gives, state, run};
ghost use Rattle.o2_isa.specs.DataArith.{binary as binary_steps, unary as unary_steps, result_into};

use o2_bus::{Bus, finish, operand};
use o2_isa::{Arg, BinaryOp, Cpu, Instr, Stop, UnaryOp, Width};

/// Where the result goes: CMP and TEST store none.
#[inline(always)]
fn target(op: BinaryOp, arg: &Arg) -> Arg
    ensures { result ≡ result_into op arg.now }
{
    match op {
        BinaryOp::Cmp | BinaryOp::Test => Arg::No,
        BinaryOp::Add
        | BinaryOp::Or
        | BinaryOp::Adc
        | BinaryOp::Sbb
        | BinaryOp::And
        | BinaryOp::Sub
        | BinaryOp::Xor => *arg,
    }
}

/// The instruction as one of this width.
#[inline(always)]
#[tactic(auto, using(o2_isa::proofs::FinishRuns::run_taking), unfolding(o2_isa::specs::DataArith::binary))]
fn binary<B: Bus>(
    cpu: &mut Cpu,
    bus: &mut B,
    op: BinaryOp,
    width: Width,
    i: &Instr,
    next: u16,
) -> Result<(), Stop>
    ensures { Gives result (state cpu.new (B.view bus.new)) (state cpu.old (B.view bus.old)) (run (binary_steps op cpu.old (record i.now { width = width }) next) (B.view bus.old)) }
{
    let a = operand(cpu, bus, width, &i.left)?;
    let b = operand(cpu, bus, width, &i.right)?;
    let (r, f) = o2_alu::binary(op, width, a, b, cpu.flags);
    finish(cpu, bus, width, &target(op, &i.left), r, f, next)
}

pub fn execute_binary<B: Bus>(
    cpu: &mut Cpu,
    bus: &mut B,
    op: BinaryOp,
    i: &Instr,
    next: u16,
) -> Result<(), Stop>
    ensures { Gives result (state cpu.new (B.view bus.new)) (state cpu.old (B.view bus.old)) (run (binary_steps op cpu.old i.now next) (B.view bus.old)) }
{
    match i.width {
        Width::Word => binary(cpu, bus, op, Width::Word, i, next),
        Width::Byte => binary(cpu, bus, op, Width::Byte, i, next),
    }
}

/// The instruction as one of this width.
#[inline(always)]
#[tactic(auto, using(o2_isa::proofs::FinishRuns::run_taking), unfolding(o2_isa::specs::DataArith::unary))]
fn unary<B: Bus>(
    cpu: &mut Cpu,
    bus: &mut B,
    op: UnaryOp,
    width: Width,
    i: &Instr,
    next: u16,
) -> Result<(), Stop>
    ensures { Gives result (state cpu.new (B.view bus.new)) (state cpu.old (B.view bus.old)) (run (unary_steps op cpu.old (record i.now { width = width }) next) (B.view bus.old)) }
{
    let a = operand(cpu, bus, width, &i.left)?;
    let (r, f) = o2_alu::unary(op, width, a, cpu.flags);
    finish(cpu, bus, width, &i.left, r, f, next)
}

pub fn execute_unary<B: Bus>(
    cpu: &mut Cpu,
    bus: &mut B,
    op: UnaryOp,
    i: &Instr,
    next: u16,
) -> Result<(), Stop>
    ensures { Gives result (state cpu.new (B.view bus.new)) (state cpu.old (B.view bus.old)) (run (unary_steps op cpu.old i.now next) (B.view bus.old)) }
{
    match i.width {
        Width::Word => unary(cpu, bus, op, Width::Word, i, next),
        Width::Byte => unary(cpu, bus, op, Width::Byte, i, next),
    }
}
