// The flags word.

ghost use Rattle.std.specs.Prelude.{◌≡◌};
ghost use Rattle.o2_isa.specs.Flags.{flag_number, put, is_set as is_set_of, is_even, with_szp, with_carries};

use crate::widths::half_size;
use o2_isa::{Flag, Width};

/// The place of a flag in the flags word, from 0 at the lowest bit.
#[inline(always)]
pub fn bit_number(flag: Flag) -> u8
    ensures { result ≡ flag_number flag }
{
    flag as u8
}

/// The flags word with one flag put, all other bits as they are.
// A hint alone, as for the sums: an order is dropped where it makes who calls very large, and that took the orders from `binary`
// and `unary`.
#[inline]
pub fn with_flag(f: u16, flag: Flag, on: bool) -> u16
    ensures { result ≡ put f flag on }
{
    match flag {
        Flag::Carry => f / 2 * 2 + (if on { 1 } else { 0 }),
        Flag::Parity => f / 8 * 8 + (if on { 4 } else { 0 }) + f % 4,
        Flag::Auxiliary => f / 0x20 * 0x20 + (if on { 0x10 } else { 0 }) + f % 0x10,
        Flag::Zero => f / 0x80 * 0x80 + (if on { 0x40 } else { 0 }) + f % 0x40,
        Flag::Sign => f / 0x100 * 0x100 + (if on { 0x80 } else { 0 }) + f % 0x80,
        Flag::Trap => f / 0x200 * 0x200 + (if on { 0x100 } else { 0 }) + f % 0x100,
        Flag::Interrupt => f / 0x400 * 0x400 + (if on { 0x200 } else { 0 }) + f % 0x200,
        Flag::Direction => f / 0x800 * 0x800 + (if on { 0x400 } else { 0 }) + f % 0x400,
        Flag::Overflow => f / 0x1000 * 0x1000 + (if on { 0x800 } else { 0 }) + f % 0x800,
        Flag::PrivilegeLow => f / 0x2000 * 0x2000 + (if on { 0x1000 } else { 0 }) + f % 0x1000,
        Flag::PrivilegeHigh => f / 0x4000 * 0x4000 + (if on { 0x2000 } else { 0 }) + f % 0x2000,
        Flag::Nested => f / 0x8000 * 0x8000 + (if on { 0x4000 } else { 0 }) + f % 0x4000,
    }
}

/// Whether a flag is set.
#[inline]
pub fn is_set(f: u16, flag: Flag) -> bool
    ensures { result ≡ is_set_of f flag }
{
    let shifted = match flag {
        Flag::Carry => f,
        Flag::Parity => f / 4,
        Flag::Auxiliary => f / 0x10,
        Flag::Zero => f / 0x40,
        Flag::Sign => f / 0x80,
        Flag::Trap => f / 0x100,
        Flag::Interrupt => f / 0x200,
        Flag::Direction => f / 0x400,
        Flag::Overflow => f / 0x800,
        Flag::PrivilegeLow => f / 0x1000,
        Flag::PrivilegeHigh => f / 0x2000,
        Flag::Nested => f / 0x4000,
    };
    shifted % 2 == 1
}

#[inline(always)]
#[tactic(auto, unfolding(o2_isa::specs::Flags::is_even))]
fn is_even_parity(r: u16) -> bool
    ensures { result ≡ is_even r }
{
    (r % 256).count_ones() % 2 == 0
}

/// SF, ZF and PF as the result `r` says.
#[inline(always)]
#[tactic(auto, unfolding(o2_isa::specs::Flags::with_szp))]
pub fn szp(w: Width, r: u16, f: u16) -> u16
    ensures { result ≡ with_szp w r f }
{
    let f = with_flag(f, Flag::Sign, half_size(w) <= r as u32);
    let f = with_flag(f, Flag::Zero, r == 0);
    with_flag(f, Flag::Parity, is_even_parity(r))
}

/// CF, AF and OF put.
#[inline(always)]
#[tactic(auto, unfolding(o2_isa::specs::Flags::with_carries))]
pub fn carries(f: u16, carry: bool, auxiliary: bool, overflow: bool) -> u16
    ensures { result ≡ with_carries f carry auxiliary overflow }
{
    let f = with_flag(f, Flag::Carry, carry);
    let f = with_flag(f, Flag::Auxiliary, auxiliary);
    with_flag(f, Flag::Overflow, overflow)
}
