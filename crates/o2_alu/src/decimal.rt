// Decimal adjustment. AX is 256 times AH plus AL.

ghost use Rattle.std.specs.Prelude.{◌≡◌, ◌<◌, ◌≤◌, ◌↔◌, IsNone};
ghost use Rattle.o2_isa.specs.Adjust.{digit_adjusts, digits_adjust, n_where, aaa_value, aas_value, unpacked_flags, daa_value, das_value, packed_flags, aam_value, aad_value, adjust_of};

use crate::flags::{is_set, szp, with_flag};
use o2_isa::{AdjustOp, Flag, Width};

/// The low four bits of AL are no decimal digit, or AF says so.
#[tactic(auto, unfolding(o2_isa::specs::Adjust::digit_adjusts))]
fn units_adjust(al: u16, f: u16) -> bool
    ensures { result ≡ digit_adjusts al f }
{
    9 < al % 16 || is_set(f, Flag::Auxiliary)
}

/// AL is no two decimal digits, or CF says so.
#[tactic(auto, unfolding(o2_isa::specs::Adjust::digits_adjust))]
fn tens_adjust(al: u16, f: u16) -> bool
    ensures { result ≡ digits_adjust al f }
{
    0x99 < al || is_set(f, Flag::Carry)
}

#[tactic(auto, unfolding(o2_isa::specs::Adjust::n_where))]
fn number_where(on: bool, n: u16) -> u16
    ensures value { result ≡ n_where on n }
    ensures small { result ≤ n }
{
    if on { n } else { 0 }
}

#[tactic(auto, unfolding(o2_isa::specs::Adjust::aaa_value))]
fn aaa(ax: u16, on: bool) -> u16
    ensures { result ≡ aaa_value ax on }
{
    (ax / 256 + number_where(on, 1)) % 256 * 256 + (ax % 256 + number_where(on, 6)) % 16
}

#[tactic(auto, unfolding(o2_isa::specs::Adjust::aas_value))]
fn aas(ax: u16, on: bool) -> u16
    ensures { result ≡ aas_value ax on }
{
    (ax / 256 + 256 - number_where(on, 1)) % 256 * 256 + (ax % 256 + 256 - number_where(on, 6)) % 16
}

#[tactic(auto, unfolding(o2_isa::specs::Adjust::unpacked_flags))]
fn flags_unpacked(on: bool, f: u16) -> u16
    ensures { result ≡ unpacked_flags on f }
{
    with_flag(with_flag(f, Flag::Auxiliary, on), Flag::Carry, on)
}

#[tactic(auto, unfolding(o2_isa::specs::Adjust::daa_value))]
fn daa(ax: u16, units: bool, tens: bool) -> u16
    ensures value { result ≡ daa_value ax units tens }
    ensures byte { result < 256 }
{
    (ax % 256 + number_where(units, 6) + number_where(tens, 0x60)) % 256
}

#[tactic(auto, unfolding(o2_isa::specs::Adjust::das_value))]
fn das(ax: u16, units: bool, tens: bool) -> u16
    ensures value { result ≡ das_value ax units tens }
    ensures byte { result < 256 }
{
    (ax % 256 + 256 - number_where(units, 6) - number_where(tens, 0x60)) % 256
}

#[tactic(auto, unfolding(o2_isa::specs::Adjust::packed_flags))]
fn flags_packed(al: u16, units: bool, tens: bool, f: u16) -> u16
    ensures { result ≡ packed_flags al units tens f }
{
    let f = with_flag(f, Flag::Auxiliary, units);
    szp(Width::Byte, al, with_flag(f, Flag::Carry, tens))
}

#[tactic(auto, unfolding(o2_isa::specs::Adjust::aam_value))]
fn aam(ax: u16, base: u8) -> u16
    requires { 0 < base }
    ensures { result ≡ aam_value ax base }
{
    let base = base as u16;
    ax % 256 / base * 256 + ax % 256 % base
}

#[tactic(auto, unfolding(o2_isa::specs::Adjust::aad_value))]
fn aad(ax: u16, base: u8) -> u16
    ensures { result ≡ aad_value ax base }
{
    (ax % 256 + ax / 256 * base as u16) % 256
}

/// DAA, DAS, AAA, AAS, and with `base` AAM and AAD: AX and the flags word.
/// None for AAM with base 0, a divide error.
#[tactic(auto, unfolding(o2_isa::specs::Adjust::adjust_of))]
pub fn adjust(op: AdjustOp, ax: u16, base: u8, f: u16) -> Option<(u16, u16)>
    ensures value { result ≡ adjust_of op ax base f }
    ensures refused { IsNone result ↔ ((op ≡ AdjustOp.Aam) × (base ≡ 0)) }
{
    let units = units_adjust(ax % 256, f);
    let tens = tens_adjust(ax % 256, f);
    match op {
        AdjustOp::Aaa => Some((aaa(ax, units), flags_unpacked(units, f))),
        AdjustOp::Aas => Some((aas(ax, units), flags_unpacked(units, f))),
        AdjustOp::Daa => {
            let al = daa(ax, units, tens);
            Some((ax / 256 * 256 + al, flags_packed(al, units, tens, f)))
        }
        AdjustOp::Das => {
            let al = das(ax, units, tens);
            Some((ax / 256 * 256 + al, flags_packed(al, units, tens, f)))
        }
        AdjustOp::Aam if base == 0 => None,
        AdjustOp::Aam => {
            let al = ax % 256 % base as u16;
            Some((aam(ax, base), szp(Width::Byte, al, f)))
        }
        AdjustOp::Aad => {
            let al = aad(ax, base);
            Some((al, szp(Width::Byte, al, f)))
        }
    }
}
