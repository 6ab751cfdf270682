// Shifts and rotations.

ghost use Rattle.std.specs.Prelude.{◌≡◌, ◌<◌, ◌≤◌, ◌*◌, ◌/◌, ◌^◌, ◌%◌};
ghost use Rattle.o2_isa.specs.Widths.{modulus, IsOfWidth};
ghost use Rattle.o2_alu.specs.AtOnce.{bits, rolled, unrolled, lowered, is_at_once, IsAtOnce};
ghost use Rattle.o2_isa.specs.Shifts.{once, repeated, differs, shift_overflow, shift_flags, shift_of};

use crate::flags::{is_set, szp, with_flag};
use crate::widths::{half_size, size};
use o2_isa::{Flag, ShiftOp, Width};

/// Whether the two differ.
#[inline]
pub fn differ(a: bool, b: bool) -> bool
    ensures { result ≡ differs a b }
{
    a != b
}

/// One bit of a shift or rotation.
#[tactic(auto, unfolding(o2_isa::specs::Sums::bit))]
fn one_bit(op: ShiftOp, w: Width, a: u16, carry: bool) -> (u16, bool)
    requires { IsOfWidth w a }
    ensures value { result ≡ once op w (a, carry) }
    ensures fits { IsOfWidth w result.0 }
{
    let m = size(w);
    let h = half_size(w) as u16;
    let top = h <= a;
    let low = a % 2 == 1;
    let doubled = (a as u32 * 2 % m) as u16;
    match op {
        ShiftOp::Rol => (doubled + (if top { 1 } else { 0 }), top),
        ShiftOp::Ror => (a / 2 + (if low { h } else { 0 }), low),
        ShiftOp::Rcl => (doubled + (if carry { 1 } else { 0 }), top),
        ShiftOp::Rcr => (a / 2 + (if carry { h } else { 0 }), low),
        ShiftOp::Shl => (doubled, top),
        ShiftOp::Shr => (a / 2, low),
        ShiftOp::Sar => (a / 2 + (if top { h } else { 0 }), low),
    }
}

/// How many bits a number of the width has.
#[inline]
fn bit_count(w: Width) -> u8
    ensures value { result ≡ bits w }
    ensures below { result ≤ 16 }
    ensures some { 0 < result }
{
    match w {
        Width::Byte => 8,
        Width::Word => 16,
    }
}

/// `x` times 2 to the `k`.
#[inline]
#[tactic(auto, using(crate::proofs::RotateLaws::raised_small))]
fn raised(x: u32, k: u8) -> u64
    requires small { x < 2 ^ 17 }
    requires count { k < 32 }
    ensures { result ≡ x * 2 ^ k }
{
    (x as u64) << k
}

#[inline]
fn wide_left(w: Width, a: u16, k: u8) -> u64
    requires { k < bits w }
    ensures { result ≡ rolled w k a }
{
    let down = bit_count(w) - k;
    raised(a as u32 % (1 << down), k) + (a as u64 >> down)
}

/// ROL of the value by `k` bits, fewer than it has.
#[inline]
#[tactic(auto, using(crate::proofs::RotateLaws::rolled_small))]
fn rolled_left(w: Width, a: u16, k: u8) -> u16
    requires width { IsOfWidth w a }
    requires count { k < bits w }
    ensures value { result ≡ rolled w k a }
    ensures fits { IsOfWidth w result }
{
    wide_left(w, a, k) as u16
}

#[inline]
fn wide_right(w: Width, a: u16, k: u8) -> u64
    requires { k < bits w }
    ensures { result ≡ unrolled w k a }
{
    let up = bit_count(w) - k;
    raised(a as u32 % (1 << k), up) + (a as u64 >> k)
}

/// ROR of the value by `k` bits, fewer than it has.
#[inline]
#[tactic(auto, using(crate::proofs::RotateLaws::unrolled_small))]
fn rolled_right(w: Width, a: u16, k: u8) -> u16
    requires width { IsOfWidth w a }
    requires count { k < bits w }
    ensures value { result ≡ unrolled w k a }
    ensures fits { IsOfWidth w result }
{
    wide_right(w, a, k) as u16
}

/// SHL of the value by `n` bits.
#[inline]
fn shifted_left(w: Width, a: u16, n: u8) -> u16
    requires count { n < 32 }
    ensures value { result ≡ a * 2 ^ n % modulus w }
    ensures fits { IsOfWidth w result }
{
    (raised(a as u32, n) % size(w) as u64) as u16
}

/// SHR of the value by `n` bits.
#[inline]
#[tactic(auto, using(crate::proofs::RotateLaws::divided_small))]
fn shifted_right(w: Width, a: u16, n: u8) -> u16
    requires width { IsOfWidth w a }
    requires count { n < 32 }
    ensures value { result ≡ a / 2 ^ n }
    ensures fits { IsOfWidth w result }
{
    (a as u32 >> n) as u16
}

/// SAR of the value by `n` bits.
#[inline]
#[tactic(auto, using(crate::proofs::RotateLaws::divided_small))]
fn lowered_by(w: Width, a: u16, n: u8) -> u16
    requires width { IsOfWidth w a }
    requires count { n < 32 }
    ensures value { result ≡ lowered w n a }
    ensures fits { IsOfWidth w result }
{
    if half_size(w) <= a as u32 {
        let most = size(w) - 1;
        (most - ((most - a as u32) >> n)) as u16
    } else {
        (a as u32 >> n) as u16
    }
}

/// The value after `n` bits of ROL, ROR, SHL, SHR or SAR.
#[inline]
#[tactic(auto, using(crate::proofs::RotateLaws::rol_value, crate::proofs::RotateLaws::ror_value, crate::proofs::RotateLaws::shl_value, crate::proofs::RotateLaws::shr_value, crate::proofs::RotateLaws::sar_value))]
fn value_after(op: ShiftOp, w: Width, a: u16, carry: bool, n: u8) -> u16
    requires width { IsOfWidth w a }
    requires count { n < 32 }
    requires group { IsAtOnce op }
    ensures value { result ≡ (repeated n op w (a, carry)).0 }
    ensures fits { IsOfWidth w result }
{
    match op {
        ShiftOp::Rol => rolled_left(w, a, n % bit_count(w)),
        ShiftOp::Ror => rolled_right(w, a, n % bit_count(w)),
        ShiftOp::Shl => shifted_left(w, a, n),
        ShiftOp::Shr => shifted_right(w, a, n),
        _ => lowered_by(w, a, n),
    }
}

/// Whether the result of the shift or rotation doesn't depend on CF.
#[inline]
fn goes_at_once(op: ShiftOp) -> bool
    ensures { result ≡ is_at_once op }
{
    matches!(
        op,
        ShiftOp::Rol | ShiftOp::Ror | ShiftOp::Shl | ShiftOp::Shr | ShiftOp::Sar
    )
}

/// The value and CF after `n` bits of ROL, ROR, SHL, SHR or SAR: all but the last at once, and the last.
#[inline]
#[tactic(auto, using(crate::proofs::ShiftLaws::once_more))]
fn bits_at_once(op: ShiftOp, w: Width, a: u16, carry: bool, n: u8) -> (u16, bool)
    requires width { IsOfWidth w a }
    requires some { 0 < n }
    requires count { n < 32 }
    requires group { IsAtOnce op }
    ensures value { result ≡ repeated n op w (a, carry) }
    ensures fits { IsOfWidth w result.0 }
{
    one_bit(op, w, value_after(op, w, a, carry, n - 1), carry)
}

/// The value and CF after `n` bits, one by one.
fn bits_one_by_one(op: ShiftOp, w: Width, a: u16, carry: bool, n: u8) -> (u16, bool)
    requires { IsOfWidth w a }
    ensures value { result ≡ repeated n op w (a, carry) }
    ensures fits { IsOfWidth w result.0 }
{
    let mut value = a;
    let mut out = carry;
    for k in 0..n {
        (value, out) = one_bit(op, w, value, out);
    }
    (value, out)
}

/// The value and CF after `n` bits.
#[inline]
fn many_bits(op: ShiftOp, w: Width, a: u16, carry: bool, n: u8) -> (u16, bool)
    requires width { IsOfWidth w a }
    requires some { 0 < n }
    requires count { n < 32 }
    ensures value { result ≡ repeated n op w (a, carry) }
    ensures fits { IsOfWidth w result.0 }
{
    if goes_at_once(op) {
        bits_at_once(op, w, a, carry, n)
    } else {
        bits_one_by_one(op, w, a, carry, n)
    }
}

/// OF at count 1.
fn overflow_of(op: ShiftOp, w: Width, a: u16, r: u16, c: bool) -> bool
    ensures { result ≡ shift_overflow op w a r c }
{
    let h = half_size(w) as u16;
    let top = h <= r;
    let next = h as u32 <= r as u32 * 2 % size(w);
    match op {
        ShiftOp::Shr => h <= a,
        ShiftOp::Sar => false,
        ShiftOp::Ror | ShiftOp::Rcr => differ(top, next),
        ShiftOp::Rol | ShiftOp::Rcl | ShiftOp::Shl => differ(top, c),
    }
}

#[tactic(auto, unfolding(o2_isa::specs::Shifts::shift_flags))]
fn flags_after(op: ShiftOp, w: Width, n: u8, a: u16, r: u16, c: bool, f: u16) -> u16
    ensures { result ≡ shift_flags op w n a r c f }
{
    let g = with_flag(f, Flag::Carry, c);
    let h = if n == 1 {
        with_flag(g, Flag::Overflow, overflow_of(op, w, a, r, c))
    } else {
        g
    };
    match op {
        ShiftOp::Rol | ShiftOp::Ror | ShiftOp::Rcl | ShiftOp::Rcr => h,
        ShiftOp::Shl | ShiftOp::Shr | ShiftOp::Sar => szp(w, r, h),
    }
}

/// ROL, ROR, RCL, RCR, SHL, SHR and SAR by `count` modulo 32: the result and the flags word.
#[tactic(auto, unfolding(o2_isa::specs::Shifts::shift_of))]
pub fn shift(op: ShiftOp, w: Width, a: u16, count: u8, f: u16) -> (u16, u16)
    requires { IsOfWidth w a }
    ensures value { result ≡ shift_of op w a count f }
    ensures fits { IsOfWidth w result.0 }
{
    let n = count % 32;
    if n == 0 {
        return (a, f);
    }
    let (r, c) = many_bits(op, w, a, is_set(f, Flag::Carry), n);
    (r, flags_after(op, w, n, a, r, c, f))
}
