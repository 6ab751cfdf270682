// Sums, differences and bitwise results.

ghost use Rattle.std.specs.Prelude.{◌≡◌, ◌≤◌, ◌+ℤ◌, ◌-ℤ◌, pos};
ghost use Rattle.o2_isa.specs.Widths.{IsOfWidth, signed};
ghost use Rattle.o2_isa.specs.Sums.{bit, sum_value, sum_carries, sum_adjusts, sum_overflows, add_of, difference_value, difference_borrows, difference_overflows, sub_of, logic_value, logic_of, increment_of, decrement_of, negate_of, complement_of};
ghost use Rattle.o2_isa.specs.Alu.{binary_of, unary_of};

use crate::flags::{carries, is_set, szp, with_flag};
use crate::widths::{half_size, is_outside, signed_value, size};
use o2_isa::{BinaryOp, Flag, LogicOp, UnaryOp, Width};

/// A carry as a number.
#[inline(always)]
#[tactic(auto, unfolding(o2_isa::specs::Sums::bit))]
pub fn bit_of(carry: bool) -> u16
    ensures value { result ≡ bit carry }
    ensures small { result ≤ 1 }
{
    if carry { 1 } else { 0 }
}

#[inline(always)]
#[tactic(auto, unfolding(o2_isa::specs::Sums::sum_value, o2_isa::specs::Sums::sum_carries))]
fn sum(w: Width, a: u16, b: u16, carry: bool) -> (u16, bool)
    ensures value { result.0 ≡ sum_value w a b carry }
    ensures carry { result.1 ≡ sum_carries w a b carry }
    ensures fits { IsOfWidth w result.0 }
{
    let sum = a as u32 + b as u32 + bit_of(carry) as u32;
    ((sum % size(w)) as u16, size(w) <= sum)
}

#[inline(always)]
#[tactic(auto, unfolding(o2_isa::specs::Sums::sum_adjusts))]
fn sum_adjust(a: u16, b: u16, carry: bool) -> bool
    ensures { result ≡ sum_adjusts a b carry }
{
    16 <= a % 16 + b % 16 + bit_of(carry)
}

#[inline(always)]
fn signed_sum(w: Width, a: u16, b: u16, carry: bool) -> i64
    requires left { IsOfWidth w a }
    requires right { IsOfWidth w b }
    ensures { result ≡ signed w a +ℤ signed w b +ℤ pos (bit carry) }
{
    signed_value(w, a) + signed_value(w, b) + bit_of(carry) as i64
}

#[inline(always)]
#[tactic(auto, unfolding(o2_isa::specs::Sums::sum_overflows))]
fn sum_overflow(w: Width, a: u16, b: u16, carry: bool) -> bool
    requires left { IsOfWidth w a }
    requires right { IsOfWidth w b }
    ensures { result ≡ sum_overflows w a b carry }
{
    is_outside(w, signed_sum(w, a, b, carry))
}

/// ADD and, with CF for `carry`, ADC: the sum and the flags word.
#[inline]
#[tactic(auto, unfolding(o2_isa::specs::Sums::add_of))]
pub fn add(w: Width, a: u16, b: u16, carry: bool, f: u16) -> (u16, u16)
    requires left { IsOfWidth w a }
    requires right { IsOfWidth w b }
    ensures value { result ≡ add_of w a b carry f }
    ensures fits { IsOfWidth w result.0 }
{
    let (r, out) = sum(w, a, b, carry);
    let f = carries(
        f,
        out,
        sum_adjust(a, b, carry),
        sum_overflow(w, a, b, carry),
    );
    (r, szp(w, r, f))
}

#[inline(always)]
#[tactic(auto, unfolding(o2_isa::specs::Sums::difference_value))]
fn difference(w: Width, a: u16, b: u16, borrow: bool) -> u16
    requires left { IsOfWidth w a }
    requires right { IsOfWidth w b }
    ensures value { result ≡ difference_value w a b borrow }
    ensures fits { IsOfWidth w result }
{
    ((a as u32 + size(w) - b as u32 - bit_of(borrow) as u32) % size(w)) as u16
}

#[inline(always)]
#[tactic(auto, unfolding(o2_isa::specs::Sums::difference_borrows))]
fn borrows(a: u16, b: u16, borrow: bool) -> bool
    ensures { result ≡ difference_borrows a b borrow }
{
    (a as u32) < b as u32 + bit_of(borrow) as u32
}

#[inline(always)]
fn signed_difference(w: Width, a: u16, b: u16, borrow: bool) -> i64
    requires left { IsOfWidth w a }
    requires right { IsOfWidth w b }
    ensures { result ≡ signed w a -ℤ signed w b -ℤ pos (bit borrow) }
{
    signed_value(w, a) - signed_value(w, b) - bit_of(borrow) as i64
}

#[inline(always)]
#[tactic(auto, unfolding(o2_isa::specs::Sums::difference_overflows))]
fn difference_overflow(w: Width, a: u16, b: u16, borrow: bool) -> bool
    requires left { IsOfWidth w a }
    requires right { IsOfWidth w b }
    ensures { result ≡ difference_overflows w a b borrow }
{
    is_outside(w, signed_difference(w, a, b, borrow))
}

/// SUB, CMP and, with CF for `borrow`, SBB: the difference and the flags word.
#[inline]
#[tactic(auto, unfolding(o2_isa::specs::Sums::sub_of))]
pub fn sub(w: Width, a: u16, b: u16, borrow: bool, f: u16) -> (u16, u16)
    requires left { IsOfWidth w a }
    requires right { IsOfWidth w b }
    ensures value { result ≡ sub_of w a b borrow f }
    ensures fits { IsOfWidth w result.0 }
{
    let r = difference(w, a, b, borrow);
    let f = carries(
        f,
        borrows(a, b, borrow),
        borrows(a % 16, b % 16, borrow),
        difference_overflow(w, a, b, borrow),
    );
    (r, szp(w, r, f))
}

/// INC: one more, and the flags word with CF as it is.
#[inline]
#[tactic(auto, unfolding(o2_isa::specs::Sums::increment_of))]
pub fn increment(w: Width, a: u16, f: u16) -> (u16, u16)
    requires { IsOfWidth w a }
    ensures value { result ≡ increment_of w a f }
    ensures fits { IsOfWidth w result.0 }
{
    let (r, _) = sum(w, a, 1, false);
    let f = with_flag(f, Flag::Auxiliary, sum_adjust(a, 1, false));
    let f = with_flag(f, Flag::Overflow, sum_overflow(w, a, 1, false));
    (r, szp(w, r, f))
}

/// DEC: one less, and the flags word with CF as it is.
#[inline]
#[tactic(auto, unfolding(o2_isa::specs::Sums::decrement_of))]
pub fn decrement(w: Width, a: u16, f: u16) -> (u16, u16)
    requires { IsOfWidth w a }
    ensures value { result ≡ decrement_of w a f }
    ensures fits { IsOfWidth w result.0 }
{
    let r = difference(w, a, 1, false);
    let f = with_flag(f, Flag::Auxiliary, borrows(a % 16, 1, false));
    let f = with_flag(f, Flag::Overflow, difference_overflow(w, a, 1, false));
    (r, szp(w, r, f))
}

/// NEG: the number with the other sign, and the flags word.
#[inline]
#[tactic(auto, unfolding(o2_isa::specs::Sums::negate_of))]
pub fn negate(w: Width, a: u16, f: u16) -> (u16, u16)
    requires { IsOfWidth w a }
    ensures value { result ≡ negate_of w a f }
    ensures fits { IsOfWidth w result.0 }
{
    let r = ((size(w) - a as u32) % size(w)) as u16;
    let f = carries(f, a != 0, a % 16 != 0, a as u32 == half_size(w));
    (r, szp(w, r, f))
}

/// NOT: each bit turned over. It changes no flag.
#[inline(always)]
#[tactic(auto, unfolding(o2_isa::specs::Sums::complement_of))]
pub fn complement(w: Width, a: u16) -> u16
    requires { IsOfWidth w a }
    ensures value { result ≡ complement_of w a }
    ensures fits { IsOfWidth w result }
{
    (size(w) - 1 - a as u32) as u16
}

#[inline(always)]
#[tactic(auto, using(crate::proofs::Bounds::or_fits, crate::proofs::Bounds::xor_fits))]
fn logic_result(op: LogicOp, w: Width, a: u16, b: u16) -> u16
    requires left { IsOfWidth w a }
    requires right { IsOfWidth w b }
    ensures value { result ≡ logic_value op a b }
    ensures fits { IsOfWidth w result }
{
    match op {
        LogicOp::And => a & b,
        LogicOp::Or => a | b,
        LogicOp::Xor => a ^ b,
    }
}

/// AND, OR and XOR: the result and the flags word. TEST gives the flags word of AND.
#[inline]
#[tactic(auto, unfolding(o2_isa::specs::Sums::logic_of))]
pub fn logic(op: LogicOp, w: Width, a: u16, b: u16, f: u16) -> (u16, u16)
    requires left { IsOfWidth w a }
    requires right { IsOfWidth w b }
    ensures value { result ≡ logic_of op w a b f }
    ensures fits { IsOfWidth w result.0 }
{
    let r = logic_result(op, w, a, b);
    let f = with_flag(f, Flag::Carry, false);
    let f = with_flag(f, Flag::Overflow, false);
    (r, szp(w, r, f))
}

/// ADD, ADC, SUB, SBB, CMP, AND, TEST, OR and XOR: the result and the flags word.
#[inline(always)]
#[tactic(auto, unfolding(o2_isa::specs::Alu::binary_of))]
pub fn binary(op: BinaryOp, w: Width, a: u16, b: u16, f: u16) -> (u16, u16)
    requires left { IsOfWidth w a }
    requires right { IsOfWidth w b }
    ensures value { result ≡ binary_of op w a b f }
    ensures fits { IsOfWidth w result.0 }
{
    match op {
        BinaryOp::Add => add(w, a, b, false, f),
        BinaryOp::Adc => add(w, a, b, is_set(f, Flag::Carry), f),
        BinaryOp::Sub | BinaryOp::Cmp => sub(w, a, b, false, f),
        BinaryOp::Sbb => sub(w, a, b, is_set(f, Flag::Carry), f),
        BinaryOp::And | BinaryOp::Test => logic(LogicOp::And, w, a, b, f),
        BinaryOp::Or => logic(LogicOp::Or, w, a, b, f),
        BinaryOp::Xor => logic(LogicOp::Xor, w, a, b, f),
    }
}

/// INC, DEC, NEG and NOT: the result and the flags word.
#[inline(always)]
#[tactic(auto, unfolding(o2_isa::specs::Alu::unary_of))]
pub fn unary(op: UnaryOp, w: Width, a: u16, f: u16) -> (u16, u16)
    requires { IsOfWidth w a }
    ensures value { result ≡ unary_of op w a f }
    ensures fits { IsOfWidth w result.0 }
{
    match op {
        UnaryOp::Inc => increment(w, a, f),
        UnaryOp::Dec => decrement(w, a, f),
        UnaryOp::Neg => negate(w, a, f),
        UnaryOp::Not => (complement(w, a), f),
    }
}
