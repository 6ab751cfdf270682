// Values from the Intel manuals and from sums written another way.

ghost use Rattle.std.specs.Prelude.{◌<◌, IsTrue};
ghost use Rattle.o2_isa.specs.Widths.{IsOfWidth, IsOfTwice};

use o2_alu::{add, adjust, binary, div, mul, shift, sub, unary};
use o2_isa::{AdjustOp, BinaryOp, ShiftOp, UnaryOp, Width};
use test_fixtures::{Wrong, want};

/// What a byte addition leaves in the flags word 0202h, by the bits of operands and sum.
fn flags_by_bits(a: u16, b: u16, sum: u16) -> u16 {
    let crossed = a ^ b ^ sum;
    let folded = sum ^ (sum >> 4);
    let folded = folded ^ (folded >> 2);
    let even = !(folded ^ (folded >> 1)) & 1;
    let zero = if sum & 0xFF == 0 { 0x40 } else { 0 };
    let overflow = (crossed ^ (crossed >> 1)) & 0x80;
    0x202 | (sum >> 8) & 1 | even << 2 | crossed & 0x10 | zero | sum & 0x80 | overflow << 4
}

pub fn all_byte_additions() -> Result<(), Wrong> {
    for n in 0..0x2_0000u32 {
        let a = (n % 256) as u16;
        let b = (n / 256 % 256) as u16;
        let carry = n / 65536;
        let sum = a + b + carry as u16;
        let (r, f) = add(Width::Byte, a, b, carry == 1, 0x202);
        let is_right = r == sum & 0xFF && f == flags_by_bits(a, b, sum);
        want(is_right, n as usize)?;
    }
    Ok(())
}

/// A number below 100 as two decimal digits in a byte.
fn packed(n: u16) -> u16
    requires { n < 100 }
    ensures { result < 256 }
{
    n / 10 * 16 + n % 10
}

pub fn daa_of_all_packed_decimals() -> Result<(), Wrong> {
    for n in 0..20_000u32 {
        let a = (n % 100) as u16;
        let b = (n / 100 % 100) as u16;
        let carry = n / 10_000 == 1;
        let total = a + b + (if carry { 1 } else { 0 });
        let (sum, f) = add(Width::Byte, packed(a), packed(b), carry, 0x202);
        let (ax, g) = adjust(AdjustOp::Daa, 0x1200 + sum, 0, f).unwrap_or((0, 0));
        let is_right = ax == 0x1200 + packed(total % 100) && g % 2 == total / 100;
        want(is_right, n as usize)?;
    }
    Ok(())
}

pub fn das_of_all_packed_decimals() -> Result<(), Wrong> {
    for n in 0..20_000u32 {
        let a = (n % 100) as u16;
        let b = (n / 100 % 100) as u16;
        let borrow = n / 10_000 == 1;
        let taken = b + (if borrow { 1 } else { 0 });
        let (difference, f) = sub(Width::Byte, packed(a), packed(b), borrow, 0x202);
        let (ax, g) = adjust(AdjustOp::Das, 0x1200 + difference, 0, f).unwrap_or((0, 0));
        let carries = (g % 2 == 1) == (a < taken);
        let is_right = ax == 0x1200 + packed((a + 100 - taken) % 100);
        want(is_right && carries, n as usize)?;
    }
    Ok(())
}

/// A mnemonic with two operands, the flags word before, and the result and the flags word after.
static SUMS: [(BinaryOp, Width, u16, u16, u16, u16, u16); 12] = [
    // MOV AL, 7Fh; ADD AL, 1
    (BinaryOp::Add, Width::Byte, 0x7F, 0x01, 0x0202, 0x80, 0x0A92),
    (
        BinaryOp::Add,
        Width::Word,
        0xFFFF,
        0x0001,
        0x0202,
        0x0000,
        0x0257,
    ),
    (BinaryOp::Adc, Width::Byte, 0xFF, 0x00, 0x0203, 0x00, 0x0257),
    (BinaryOp::Adc, Width::Byte, 0x80, 0x80, 0x0202, 0x00, 0x0A47),
    // The pair of the manual's DAS: 35h - 47h.
    (BinaryOp::Sub, Width::Byte, 0x35, 0x47, 0x0202, 0xEE, 0x0297),
    (
        BinaryOp::Sub,
        Width::Word,
        0x8000,
        0x0001,
        0x0202,
        0x7FFF,
        0x0A16,
    ),
    (
        BinaryOp::Sbb,
        Width::Word,
        0x0000,
        0xFFFF,
        0x0203,
        0x0000,
        0x0257,
    ),
    (BinaryOp::Cmp, Width::Byte, 0x05, 0x05, 0x0ED7, 0x00, 0x0646),
    (
        BinaryOp::And,
        Width::Word,
        0xF0F0,
        0x8FF0,
        0x0AD7,
        0x80F0,
        0x0296,
    ),
    (BinaryOp::Or, Width::Byte, 0x00, 0x00, 0x0203, 0x00, 0x0246),
    (BinaryOp::Xor, Width::Byte, 0xAA, 0x55, 0x0202, 0xFF, 0x0286),
    (
        BinaryOp::Test,
        Width::Byte,
        0x81,
        0x01,
        0x0202,
        0x01,
        0x0202,
    ),
];

pub fn sums_of_the_manual() -> Result<(), Wrong> {
    for (row, &(op, w, a, b, f, r, g)) in SUMS.iter().enumerate() {
        if fits(w, a) && fits(w, b) {
            want(binary(op, w, a, b, f) == (r, g), row)?;
        }
    }
    Ok(())
}

/// Whether `x` is a number of the width.
fn fits(w: Width, x: u16) -> bool
    ensures { IsTrue result → IsOfWidth w x }
{
    match w {
        Width::Byte => x < 256,
        Width::Word => true,
    }
}

static ONES: [(UnaryOp, Width, u16, u16, u16, u16); 7] = [
    // INC and DEC leave CF.
    (UnaryOp::Inc, Width::Byte, 0x7F, 0x0203, 0x80, 0x0A93),
    (UnaryOp::Inc, Width::Word, 0xFFFF, 0x0202, 0x0000, 0x0256),
    (UnaryOp::Dec, Width::Byte, 0x80, 0x0202, 0x7F, 0x0A12),
    (UnaryOp::Dec, Width::Word, 0x0000, 0x0203, 0xFFFF, 0x0297),
    (UnaryOp::Neg, Width::Byte, 0x80, 0x0202, 0x80, 0x0A83),
    (UnaryOp::Neg, Width::Word, 0x0000, 0x0203, 0x0000, 0x0246),
    (UnaryOp::Not, Width::Byte, 0x0F, 0x0ED7, 0xF0, 0x0ED7),
];

pub fn one_operand() -> Result<(), Wrong> {
    for (row, &(op, w, a, f, r, g)) in ONES.iter().enumerate() {
        if fits(w, a) {
            want(unary(op, w, a, f) == (r, g), row)?;
        }
    }
    Ok(())
}

/// A shift of a value by a count, the flags word before, and the result and the flags word after.
static SHIFTS: [(ShiftOp, Width, u16, u8, u16, u16, u16); 16] = [
    (ShiftOp::Shl, Width::Byte, 0x81, 1, 0x0202, 0x02, 0x0A03),
    (ShiftOp::Shl, Width::Byte, 0x81, 2, 0x0202, 0x04, 0x0202),
    (
        ShiftOp::Shl,
        Width::Word,
        0x0001,
        16,
        0x0202,
        0x0000,
        0x0247,
    ),
    (
        ShiftOp::Shl,
        Width::Word,
        0x0001,
        31,
        0x0203,
        0x0000,
        0x0246,
    ),
    (ShiftOp::Shr, Width::Byte, 0x81, 1, 0x0202, 0x40, 0x0A03),
    (ShiftOp::Sar, Width::Byte, 0x81, 1, 0x0A02, 0xC0, 0x0287),
    (
        ShiftOp::Sar,
        Width::Word,
        0x8000,
        31,
        0x0202,
        0xFFFF,
        0x0287,
    ),
    (ShiftOp::Rol, Width::Byte, 0x81, 1, 0x0202, 0x03, 0x0A03),
    (ShiftOp::Rol, Width::Byte, 0x81, 8, 0x0202, 0x81, 0x0203),
    (ShiftOp::Rol, Width::Word, 0x1234, 4, 0x0202, 0x2341, 0x0203),
    (ShiftOp::Ror, Width::Word, 0x1234, 4, 0x0202, 0x4123, 0x0202),
    (ShiftOp::Ror, Width::Byte, 0x01, 1, 0x0202, 0x80, 0x0A03),
    (ShiftOp::Rcl, Width::Byte, 0x80, 1, 0x0203, 0x01, 0x0A03),
    (ShiftOp::Rcl, Width::Byte, 0xA5, 9, 0x0203, 0xA5, 0x0203),
    (
        ShiftOp::Rcr,
        Width::Word,
        0x0001,
        17,
        0x0202,
        0x0001,
        0x0202,
    ),
    // A count of 32 is a count of 0, which changes nothing.
    (ShiftOp::Rcr, Width::Byte, 0xA5, 32, 0x0AD7, 0xA5, 0x0AD7),
];

pub fn shifts_by_hand() -> Result<(), Wrong> {
    for (row, &(op, w, a, n, f, r, g)) in SHIFTS.iter().enumerate() {
        if fits(w, a) {
            want(shift(op, w, a, n, f) == (r, g), row)?;
        }
    }
    Ok(())
}

/// Factors, whether they are signed, the product and the flags word after 0202h.
static PRODUCTS: [(Width, bool, u16, u16, u32, u16); 7] = [
    (Width::Byte, false, 0xFF, 0xFF, 0xFE01, 0x0A03),
    (Width::Byte, false, 0x0F, 0x11, 0x00FF, 0x0202),
    (Width::Byte, true, 0xFF, 0xFF, 0x0001, 0x0202),
    (Width::Byte, true, 0x80, 0x80, 0x4000, 0x0A03),
    (Width::Byte, true, 0x80, 0x01, 0xFF80, 0x0202),
    (Width::Word, true, 0x8000, 0x0002, 0xFFFF_0000, 0x0A03),
    (Width::Word, true, 0x8000, 0x8000, 0x4000_0000, 0x0A03),
];

pub fn products_by_hand() -> Result<(), Wrong> {
    for (row, &(w, signed, a, b, r, g)) in PRODUCTS.iter().enumerate() {
        if fits(w, a) && fits(w, b) {
            want(mul(w, signed, a, b, 0x202) == (r, g), row)?;
        }
    }
    Ok(())
}

/// Signed dividends and divisors, quotients and remainders: None is a divide error.
static QUOTIENTS: [(Width, u32, u16, Option<(u16, u16)>); 12] = [
    (Width::Byte, 0xFF80, 0x01, Some((0x80, 0x00))),
    (Width::Byte, 0x0080, 0x01, None),
    (Width::Byte, 0x0080, 0xFF, Some((0x80, 0x00))),
    (Width::Byte, 0xFF80, 0xFF, None),
    (Width::Byte, 0x8000, 0xFF, None),
    (Width::Byte, 0xFFF9, 0x02, Some((0xFD, 0xFF))),
    (Width::Byte, 0x0007, 0xFE, Some((0xFD, 0x01))),
    (Width::Byte, 0x0007, 0x00, None),
    (Width::Word, 0x8000_0000, 0xFFFF, None),
    (Width::Word, 0xFFFF_8000, 0x0001, Some((0x8000, 0x0000))),
    (Width::Word, 0xFFFF_FFF9, 0x0002, Some((0xFFFD, 0xFFFF))),
    (Width::Word, 0x3FFF_FFFF, 0x7FFF, None),
];

pub fn signed_quotients_by_hand() -> Result<(), Wrong> {
    for (row, &(w, a, b, wanted)) in QUOTIENTS.iter().enumerate() {
        if fits(w, b) && fits_twice(w, a) {
            want(div(w, true, a, b) == wanted, row)?;
        }
    }
    Ok(())
}

/// Whether `x` is a number of twice the width.
fn fits_twice(w: Width, x: u32) -> bool
    ensures { IsTrue result → IsOfTwice w x }
{
    match w {
        Width::Byte => x < 0x1_0000,
        Width::Word => true,
    }
}

/// Whether this is the outcome of dividing `a` by `b` in bytes.
fn is_quotient(a: u32, b: u16, outcome: Option<(u16, u16)>) -> bool
    requires byte { b < 256 }
    requires word { a < 65536 }
{
    match outcome {
        None => b as u32 * 256 <= a,
        Some((q, r)) => q < 256 && r < b && q as u32 * b as u32 + r as u32 == a,
    }
}

pub fn all_byte_quotients_of_some_divisors() -> Result<(), Wrong> {
    for n in 0..0x6_0000u32 {
        let a = n % 0x1_0000;
        let b = [0, 1, 3, 10, 0x80, 0xFF][(n / 0x1_0000) as usize];
        if b < 256 {
            want(is_quotient(a, b, div(Width::Byte, false, a, b)), n as usize)?;
        }
    }
    Ok(())
}

/// AX, the base and the flags word, and both after.
static DECIMALS: [(AdjustOp, u16, u8, u16, Option<(u16, u16)>); 12] = [
    // 79h + 35h = AEh, in decimal 79 + 35 = 114: the manual's example.
    (AdjustOp::Daa, 0x00AE, 10, 0x0A82, Some((0x0014, 0x0A17))),
    // 35h - 47h = EEh, in decimal 35 - 47 = 88 with a borrow: the manual's example.
    (AdjustOp::Das, 0x00EE, 10, 0x0297, Some((0x0088, 0x0297))),
    (AdjustOp::Daa, 0x1200, 10, 0x0203, Some((0x1260, 0x0207))),
    (AdjustOp::Daa, 0x009A, 10, 0x0202, Some((0x0000, 0x0257))),
    (AdjustOp::Aaa, 0x000E, 10, 0x0202, Some((0x0104, 0x0213))),
    (AdjustOp::Aaa, 0x0005, 10, 0x0203, Some((0x0005, 0x0202))),
    (AdjustOp::Aas, 0x02FF, 10, 0x0212, Some((0x0109, 0x0213))),
    (AdjustOp::Aam, 0x003F, 10, 0x0202, Some((0x0603, 0x0206))),
    (AdjustOp::Aam, 0x003F, 0, 0x0202, None),
    (AdjustOp::Aam, 0x00FF, 16, 0x0202, Some((0x0F0F, 0x0206))),
    (AdjustOp::Aad, 0x0207, 10, 0x0202, Some((0x001B, 0x0206))),
    (AdjustOp::Aad, 0xFFFF, 0xFF, 0x0202, Some((0x0000, 0x0246))),
];

pub fn decimals_of_the_manual() -> Result<(), Wrong> {
    for (row, &(op, ax, base, f, wanted)) in DECIMALS.iter().enumerate() {
        want(adjust(op, ax, base, f) == wanted, row)?;
    }
    Ok(())
}
