// What a reader expects of the definitions. Each law is a function with nothing to do: its clauses are the law.

ghost use Rattle.std.specs.Prelude.{◌≡◌, ◌≢◌, ◌<◌, ◌+◌, ◌-◌, ◌*◌, ◌/◌, ◌%◌, ◌^◌, ◌==◌, ◌+ℤ◌, ◌*ℤ◌, false, true, nat_le, nat_lt, int_lt, unsigned_abs, IfSome, option_map, Some};
ghost use Rattle.o2_isa.specs.declared.flags.Flag.{Flag};
ghost use Rattle.o2_isa.specs.Widths.{modulus, IsOfWidth, signed, signed_of_twice};
ghost use Rattle.o2_isa.specs.Flags.{put, is_set, is_status};
ghost use Rattle.o2_isa.specs.Sums.{bit, add_of, sub_of, increment_of, decrement_of, negate_of};
ghost use Rattle.o2_isa.specs.Shifts.{differs, shift_of, shift_times};
ghost use Rattle.o2_alu.specs.AtOnce.{bits};
ghost use Rattle.o2_alu.specs.Decimal.{packed};
ghost use Rattle.o2_isa.specs.Products.{mul_value, mul_of, div_of};
ghost use Rattle.o2_isa.specs.Adjust.{aam_value, aad_value, adjust_of};
ghost use Rattle.o2_isa.specs.Alu.{binary_of, unary_of};

use o2_isa::{AdjustOp, BinaryOp, Flag, ShiftOp, UnaryOp, Width};

/// A flag that is put has that value, and every other flag is as it was.
#[tactic(auto, using(crate::proofs::FlagLaws::put_same, crate::proofs::FlagLaws::put_other))]
pub fn flag_is_put(f: u16, flag: Flag, on: bool)
    ensures same { is_set (put f flag on) flag ≡ on }
    ensures others { (j : Flag) → j ≢ flag → is_set (put f flag on) j ≡ is_set f j }
{}

/// ADD of the low words and ADC of the high ones add double words, with the carry out of 32 bits.
#[tactic(auto, using(crate::proofs::SumLaws::long_sum))]
pub fn adc_chains(low: u16, high: u16, other_low: u16, other_high: u16, f: u16)
    ensures { let first = add_of Width.Word low other_low false f in
        let second = add_of Width.Word high other_high (is_set first.1 Flag.Carry) first.1 in
        let sum = low + 65536 * high + (other_low + 65536 * other_high) in
        (first.0 + 65536 * second.0 ≡ sum % (65536 * 65536))
        × (is_set second.1 Flag.Carry ≡ nat_le (65536 * 65536) sum) }
{}

/// SUB of the low words and SBB of the high ones subtract double words, with the borrow out of 32 bits.
#[tactic(auto, using(crate::proofs::SumLaws::long_difference))]
pub fn sbb_chains(low: u16, high: u16, other_low: u16, other_high: u16, f: u16)
    ensures { let first = sub_of Width.Word low other_low false f in
        let second = sub_of Width.Word high other_high (is_set first.1 Flag.Carry) first.1 in
        let left = low + 65536 * high in
        let right = other_low + 65536 * other_high in
        (first.0 + 65536 * second.0 ≡ (left + 65536 * 65536 - right) % (65536 * 65536))
        × (is_set second.1 Flag.Carry ≡ nat_lt left right) }
{}

/// NEG is 0 minus the operand, flags included.
#[tactic(auto, using(crate::proofs::SumLaws::neg_is_minus))]
pub fn neg_is_zero_minus(w: Width, a: u16, f: u16)
    requires { IsOfWidth w a }
    ensures { negate_of w a f ≡ sub_of w 0 a false f }
{}

/// After CMP, CF says that the left number is below, ZF that they are equal,
/// and SF other than OF that the left signed number is below.
#[tactic(auto, using(crate::proofs::SumLaws::compared_carry, crate::proofs::SumLaws::compared_zero, crate::proofs::SumLaws::compared_less))]
pub fn cmp_compares(w: Width, a: u16, b: u16, f: u16)
    requires left { IsOfWidth w a }
    requires right { IsOfWidth w b }
    ensures below { is_set (sub_of w a b false f).1 Flag.Carry ≡ nat_lt a b }
    ensures equal { is_set (sub_of w a b false f).1 Flag.Zero ≡ (a == b) }
    ensures less { let g = (sub_of w a b false f).1 in differs (is_set g Flag.Sign) (is_set g Flag.Overflow) ≡ int_lt (signed w a) (signed w b) }
{}

/// The product of IMUL is, as a signed number of twice the width, the product of the signed numbers.
#[tactic(auto, using(crate::proofs::SignLaws::signed_times))]
pub fn imul_multiplies(w: Width, a: u16, b: u16)
    requires left { IsOfWidth w a }
    requires right { IsOfWidth w b }
    ensures { signed_of_twice w (mul_value w true a b) ≡ signed w a *ℤ signed w b }
{}

/// DIV's quotient times the divisor plus the remainder is the dividend, and the remainder is below the divisor.
#[tactic(auto, using(crate::proofs::SignLaws::unsigned_division))]
pub fn div_divides(w: Width, a: u32, b: u16)
    ensures { IfSome (div_of w false a b) (λ r. (r.0 * b + r.1 ≡ a) × (r.1 < b)) }
{}

/// The same of IDIV and the signed numbers; the remainder is smaller than the divisor.
#[tactic(auto, using(crate::proofs::SignLaws::signed_division))]
pub fn idiv_divides(w: Width, a: u32, b: u16)
    requires { IsOfWidth w b }
    ensures { IfSome (div_of w true a b) (λ r. (signed w r.0 *ℤ signed w b +ℤ signed w r.1 ≡ signed_of_twice w a) × (unsigned_abs (signed w r.1) < unsigned_abs (signed w b))) }
{}

/// AAD takes back what AAM did to AL, with any base.
#[tactic(auto, using(crate::proofs::SumLaws::aad_after_aam))]
pub fn aad_undoes_aam(ax: u16, base: u8)
    requires { 0 < base }
    ensures { aad_value (aam_value ax base) base ≡ ax % 256 }
{}

/// DAA after ADD or ADC of two packed decimals: AL is their decimal sum, CF says that it needs a third digit, and AH stays.
pub fn daa_adds(a: u8, b: u8, carry: bool, ah: u8, f: u16)
    requires left { a < 100 }
    requires right { b < 100 }
    ensures { let sum = add_of Width.Byte (packed a) (packed b) carry f in
        let r = adjust_of AdjustOp.Daa (256 * ah + sum.0) 0 sum.1 in
        (option_map (λ x. x.0) r ≡ Some (256 * ah + packed ((a + b + bit carry) % 100)))
        × (option_map (λ x. is_set x.1 Flag.Carry) r ≡ Some (nat_le 100 (a + b + bit carry))) }
{}

/// DAS after SUB or SBB of two packed decimals: AL is their decimal difference modulo 100, CF says that it is below 0, and AH
/// stays.
pub fn das_subtracts(a: u8, b: u8, borrow: bool, ah: u8, f: u16)
    requires left { a < 100 }
    requires right { b < 100 }
    ensures { let difference = sub_of Width.Byte (packed a) (packed b) borrow f in
        let r = adjust_of AdjustOp.Das (256 * ah + difference.0) 0 difference.1 in
        (option_map (λ x. x.0) r ≡ Some (256 * ah + packed ((a + 100 - b - bit borrow) % 100)))
        × (option_map (λ x. is_set x.1 Flag.Carry) r ≡ Some (nat_lt a (b + bit borrow))) }
{}

/// A shift or rotation by `n` gives the value and CF of `n` single ones.
#[tactic(auto, using(crate::proofs::ShiftLaws::counted_shift))]
pub fn shift_repeats(op: ShiftOp, w: Width, a: u16, n: u8, f: u16)
    requires { n < 32 }
    ensures value { (shift_of op w a n f).0 ≡ (shift_times n op w (a, f)).0 }
    ensures carry { is_set (shift_of op w a n f).1 Flag.Carry ≡ is_set (shift_times n op w (a, f)).1 Flag.Carry }
{}

/// SHL by `n` multiplies by 2 to the `n`, and SHR divides by it.
#[tactic(auto, using(crate::proofs::ShiftLaws::shl_multiplies, crate::proofs::ShiftLaws::shr_divides))]
pub fn shl_multiplies(w: Width, a: u16, n: u8, f: u16)
    requires width { IsOfWidth w a }
    requires count { n < 32 }
    ensures left { (shift_of ShiftOp.Shl w a n f).0 ≡ a * 2 ^ n % modulus w }
    ensures right { (shift_of ShiftOp.Shr w a n f).0 ≡ a / 2 ^ n }
{}

/// A rotation by as many bits as the value has gives the value.
#[tactic(auto, using(crate::proofs::ShiftLaws::rol_returns, crate::proofs::ShiftLaws::ror_returns))]
pub fn rotation_returns(w: Width, a: u16, f: u16)
    requires { IsOfWidth w a }
    ensures left { (shift_of ShiftOp.Rol w a (bits w) f).0 ≡ a }
    ensures right { (shift_of ShiftOp.Ror w a (bits w) f).0 ≡ a }
{}

/// Arithmetic leaves every flag but CF, PF, AF, ZF, SF and OF as it is.
#[tactic(auto, using(crate::proofs::ControlLaws::binary_control, crate::proofs::ControlLaws::unary_control, crate::proofs::ControlLaws::shift_control, crate::proofs::ControlLaws::mul_control, crate::proofs::ControlLaws::adjust_control))]
pub fn control_flags_stay(w: Width, a: u16, b: u16, n: u8, signed: bool, f: u16)
    ensures binary { (op : BinaryOp) (j : Flag) → is_status j ≡ false → is_set (binary_of op w a b f).1 j ≡ is_set f j }
    ensures unary { (op : UnaryOp) (j : Flag) → is_status j ≡ false → is_set (unary_of op w a f).1 j ≡ is_set f j }
    ensures shift { (op : ShiftOp) (j : Flag) → is_status j ≡ false → is_set (shift_of op w a n f).1 j ≡ is_set f j }
    ensures mul { (j : Flag) → is_status j ≡ false → is_set (mul_of w signed a b f).1 j ≡ is_set f j }
    ensures adjust { (op : AdjustOp) (j : Flag) → is_status j ≡ false → IfSome (adjust_of op a n f) (λ r. is_set r.1 j ≡ is_set f j) }
{}

/// INC and DEC leave CF as it is.
#[tactic(auto, using(crate::proofs::ControlLaws::increment_keeps_carry, crate::proofs::ControlLaws::decrement_keeps_carry))]
pub fn inc_and_dec_keep_carry(w: Width, a: u16, f: u16)
    ensures inc { is_set (increment_of w a f).1 Flag.Carry ≡ is_set f Flag.Carry }
    ensures dec { is_set (decrement_of w a f).1 Flag.Carry ≡ is_set f Flag.Carry }
{}
