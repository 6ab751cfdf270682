// Bytes and words of a segment, and the exception of an access that doesn't lie in it, wherever its bytes are kept.
ghost use Rattle.std.specs.Prelude.{◌≡◌, ◌<◌, ◌≤◌, ◌+◌, length, take, drop};
ghost use Rattle.o2_isa.specs.declared.instr.Width.TheVariants.{Byte};
ghost use Rattle.o2_isa.specs.View.{outside, width_len, value_at, put_at};

use o2_isa::{Sreg, Width};

/// The exception, with its error code, of an access outside the segment in a register: 12 through SS, and 13 through the others.
#[inline(always)]
pub fn outside_of(reg: Sreg) -> (u8, u16)
    ensures { result ≡ outside reg }
{
    match reg {
        Sreg::Es => (13, 0),
        Sreg::Cs => (13, 0),
        Sreg::Ss => (12, 0),
        Sreg::Ds => (13, 0),
    }
}

/// How many bytes a byte or word has.
#[inline(always)]
pub fn len_of(width: Width) -> u32
    ensures value { result ≡ width_len width }
    ensures small { result ≤ 2 }
{
    match width {
        Width::Byte => 1,
        Width::Word => 2,
    }
}

/// The byte or word at a place, low byte first.
#[inline(always)]
pub fn value_in(bytes: &[u8], at: usize, width: Width) -> u16
    requires room { at + width_len width ≤ length bytes.now }
    ensures value { result ≡ value_at bytes.now at width }
    ensures fits { width ≡ Width.Byte → result < 256 }
{
    match width {
        Width::Byte => bytes[at] as u16,
        Width::Word => bytes[at] as u16 + 256 * bytes[at + 1] as u16,
    }
}

/// Puts a byte or word at a place, low byte first.
#[inline(always)]
pub fn put_in(bytes: &mut [u8], at: usize, width: Width, value: u16)
    requires room { at + width_len width ≤ length bytes.old }
    requires fits { width ≡ Width.Byte → value < 256 }
    ensures { bytes.new ≡ put_at bytes.old at width value }
{
    match width {
        Width::Byte => bytes[at] = value as u8,
        Width::Word => {
            bytes[at] = (value % 256) as u8;
            bytes[at + 1] = (value / 256) as u8;
        }
    }
}

/// Up to ten bytes from a place on, to the front of `into`, and how many.
#[inline]
pub fn first_bytes(bytes: &[u8], at: usize, into: &mut [u8; 10]) -> usize
    ensures count { result ≡ length (take 10 (drop at bytes.now)) }
    ensures within { result ≤ 10 }
    ensures bytes { take result into.new ≡ take 10 (drop at bytes.now) }
    ensures rest { drop result into.new ≡ drop result into.old }
{
    if bytes.len() <= at {
        return 0;
    }
    if 10 <= bytes.len() - at {
        into.copy_from_slice(&bytes[at..at + 10]);
        return 10;
    }
    let count = bytes.len() - at;
    into[..count].copy_from_slice(&bytes[at..at + count]);
    count
}
