// Numbers of 8 and 16 bits.

ghost use Rattle.std.specs.Prelude.{◌≡◌, ◌<◌, ◌≤◌, ◌*◌, ◌^◌, ◌-ℤ◌, ◌≤ℤ◌, ◌<ℤ◌, pos, false, unsigned_abs};
ghost use Rattle.o2_isa.specs.Widths.{modulus, half, IsOfWidth, IsOfTwice, signed_modulo, signed, signed_of_twice, residue, overflows};

use o2_isa::Width;

/// How many numbers the width has.
#[inline(always)]
pub fn size(w: Width) -> u32
    ensures { result ≡ modulus w }
{
    match w {
        Width::Byte => 0x100,
        Width::Word => 0x1_0000,
    }
}

/// The place value of the top bit.
#[inline(always)]
pub fn half_size(w: Width) -> u32
    ensures { result ≡ half w }
{
    match w {
        Width::Byte => 0x80,
        Width::Word => 0x8000,
    }
}

#[inline(always)]
#[tactic(auto, unfolding(o2_isa::specs::Widths::signed_modulo))]
fn signed_below(m: u64, x: u32) -> i64
    requires below { x < m }
    requires small { m ≤ 2 ^ 32 }
    ensures value { result ≡ signed_modulo m x }
    ensures size { 2 * unsigned_abs result ≤ m }
    ensures above { (pos 0 -ℤ pos (2 ^ 31)) ≤ℤ result }
    ensures below { result <ℤ pos (2 ^ 31) }
    ensures nonzero { 0 < x → 0 < unsigned_abs result }
{
    if x as u64 * 2 < m {
        x as i64
    } else {
        x as i64 - m as i64
    }
}

/// The signed number that `x` is in two's complement.
#[inline(always)]
#[tactic(auto, unfolding(o2_isa::specs::Widths::signed))]
pub fn signed_value(w: Width, x: u16) -> i64
    requires { IsOfWidth w x }
    ensures value { result ≡ signed w x }
    ensures size { unsigned_abs result ≤ 32768 }
    ensures half { 2 * unsigned_abs result ≤ modulus w }
    ensures above { (pos 0 -ℤ pos (2 ^ 31)) ≤ℤ result }
    ensures below { result <ℤ pos (2 ^ 31) }
    ensures nonzero { 0 < x → 0 < unsigned_abs result }
{
    signed_below(size(w) as u64, x as u32)
}

/// The signed number that `x` is in two's complement of twice the width.
#[inline(always)]
#[tactic(auto, unfolding(o2_isa::specs::Widths::signed_of_twice))]
pub fn signed_value_of_twice(w: Width, x: u32) -> i64
    requires { IsOfTwice w x }
    ensures value { result ≡ signed_of_twice w x }
    ensures size { unsigned_abs result ≤ 2 ^ 31 }
{
    signed_below(size(w) as u64 * size(w) as u64, x)
}

/// The number from 0 that is `z` modulo `m`.
#[inline(always)]
#[tactic(auto, unfolding(o2_isa::specs::Widths::residue))]
pub fn wrapped(m: u64, z: i64) -> u32
    requires some { 0 < m }
    requires small { m ≤ 2 ^ 32 }
    requires near { unsigned_abs z < m }
    ensures value { result ≡ residue m z }
    ensures below { result < m }
{
    if 0 <= z {
        z as u32
    } else {
        (z + m as i64) as u32
    }
}

/// Whether `z` is no signed number of the width.
#[inline(always)]
#[tactic(auto, unfolding(o2_isa::specs::Widths::overflows))]
pub fn is_outside(w: Width, z: i64) -> bool
    ensures value { result ≡ overflows w z }
    ensures size { result ≡ false → unsigned_abs z ≤ 32768 }
    ensures near { result ≡ false → unsigned_abs z < modulus w }
{
    let h = half_size(w) as i64;
    z < -h || !(z < h)
}
