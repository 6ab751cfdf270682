// Reading an instruction from its bytes, from left to right.

ghost use Rattle.std.specs.Prelude.{◌≡◌, List, [], ◌++◌, ◌+◌, ◌<◌, ◌≤◌, ◌↔◌, ℕ, length, take};
ghost use Rattle.o2_isa.specs.Spelling.{is_prefix, mark, no_prefixes, Spells, IsFront, IsUndefined};
ghost use Rattle.o2_isa.specs.Reading.{Whole, head_of, read_tail, read, limited, decoded, IsWithin};
ghost use Rattle.o2_isa.specs.Canonical.{IsCanonical};
ghost use Rattle.o2_isa.specs.declared.instr.Instr.{Instr};

use crate::heads::{Head, head_at};
use crate::operands::{instruction, rest_len};
use o2_isa::{Decoded, Prefixes, Rep, Row, Sreg};

#[inline(always)]
fn is_prefix_byte(b: u8) -> bool
    ensures { result ≡ is_prefix b }
{
    matches!(b, 0x26 | 0x2E | 0x36 | 0x3E | 0xF0 | 0xF2 | 0xF3)
}

#[tactic(auto, unfolding(o2_isa::specs::Spelling::mark))]
#[inline(always)]
fn marked(prefixes: Prefixes, b: u8) -> Prefixes
    ensures { result ≡ mark prefixes b }
{
    let mut p = prefixes;
    match b {
        0x26 => p.seg = Some(Sreg::Es),
        0x2E => p.seg = Some(Sreg::Cs),
        0x36 => p.seg = Some(Sreg::Ss),
        0x3E => p.seg = Some(Sreg::Ds),
        0xF0 => p.lock = true,
        0xF2 => p.rep = Rep::NotEqual,
        0xF3 => p.rep = Rep::Equal,
        _ => {}
    }
    p
}

// `len` bytes are the head of the row
#[inline(always)]
fn read_row(
    row: &Row,
    modrm: u8,
    len: usize,
    prefixes: &Prefixes,
    at: usize,
    bytes: &[u8],
) -> Decoded
    requires head { len ≤ 3 }
    requires before { at ≤ 10 }
    ensures { result ≡ read_tail (Whole (record { row = row.now; modrm = modrm }) len) prefixes.now at bytes.now }
{
    let rest = rest_len(row, modrm);
    if bytes.len() < len + rest {
        return Decoded::Need;
    }
    let (_, after) = bytes.split_at(len);
    let (tail, _) = after.split_at(rest);
    Decoded::One(
        instruction(prefixes, row, modrm, tail),
        (at + (len + rest)) as u8,
    )
}

// the bytes behind `at` bytes of prefixes
#[inline(always)]
fn after_prefixes(prefixes: &Prefixes, at: usize, bytes: &[u8]) -> Decoded
    requires { at ≤ 10 }
    ensures { result ≡ read_tail (head_of bytes.now) prefixes.now at bytes.now }
{
    match head_at(bytes) {
        Head::More => Decoded::Need,
        Head::Bad => Decoded::Invalid,
        Head::Whole(row, modrm, len) => read_row(row, modrm, len, prefixes, at, bytes),
    }
}

#[inline(always)]
fn read_bytes(bytes: &[u8]) -> Decoded
    requires { length bytes.now ≤ 10 }
    ensures { result ≡ read no_prefixes 0 bytes.now }
{
    let mut prefixes = Prefixes {
        seg: None,
        rep: Rep::No,
        lock: false,
    };
    for (i, b) in bytes.iter().enumerate() {
        if !is_prefix_byte(*b) {
            return after_prefixes(&prefixes, i, &bytes[i..]);
        }
        prefixes = marked(prefixes, *b);
    }
    Decoded::Need
}

#[inline(always)]
fn limited_bytes(bytes: &[u8]) -> Decoded
    requires { length bytes.now ≤ 10 }
    ensures { result ≡ limited (length bytes.now) (read no_prefixes 0 bytes.now) }
{
    match read_bytes(bytes) {
        Decoded::Need => {
            if bytes.len() < 10 {
                Decoded::Need
            } else {
                Decoded::TooLong
            }
        }
        other => other,
    }
}

/// The instruction at the front of at most ten bytes, by the opcode table of the Intel 80286 Programmer's Reference
/// Manual. `One` has the instruction and how many of the bytes it has. `Need` says that fewer than ten bytes are a
/// proper front of an instruction, and `TooLong` that ten are, so that it is longer than the processor allows.
/// `Invalid` says that no instruction begins with the bytes, whatever follows them. It takes no memory.
pub fn decode(bytes: &[u8]) -> Decoded
    requires { length bytes.now ≤ 10 }
    // the reading from left to right, by which a step of the machine is defined
    ensures is { result ≡ decoded bytes.now }
    ensures one { (i : Instr) (n : ℕ) →
        (result ≡ Decoded.One i n) ↔ ((n ≤ length bytes.now) × Spells (take n bytes.now) i) }
    ensures within { IsWithin result (length bytes.now) }
    ensures need { (result ≡ Decoded.Need) ↔ ((length bytes.now < 10) × IsFront bytes.now) }
    ensures too_long { (result ≡ Decoded.TooLong) ↔ ((10 ≤ length bytes.now) × IsFront bytes.now) }
    ensures invalid { (result ≡ Decoded.Invalid) ↔ IsUndefined bytes.now }
{
    limited_bytes(bytes)
}

/// What holds of every spelling: bytes spell one instruction at most, no spelling begins another, and the fields of an
/// instruction that mean nothing for its mnemonic have one value.
pub fn one_spelling()
    ensures unique { (bytes : List ℕ) (i j : Instr) → Spells bytes i → Spells bytes j → i ≡ j }
    ensures no_front { (a b : List ℕ) (i j : Instr) → Spells a i → Spells (a ++ b) j → b ≡ [] }
    ensures canonical { (bytes : List ℕ) (i : Instr) → Spells bytes i → IsCanonical i }
{}
