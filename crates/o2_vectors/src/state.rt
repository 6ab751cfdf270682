// The states that vectors begin with.
ghost use Rattle.std.specs.Prelude.{◌≡◌, ◌<◌, ◌≤◌, ◌+◌, ◌/◌, ◌%◌, ℕ, length, take, drop, slice_index, Some};

use crate::wanted::Wanted;
use o2_isa::Cpu;
use rand_core::Rng;
use rand_pcg::Pcg32;

/// A state: the registers, and the bytes of four segments of 64 bytes.
#[derive(Drop)]
pub struct Snapshot {
    pub cpu: Cpu,
    /// Index 1 of the local descriptor table: code that can be read.
    pub code: [u8; 64],
    /// Index 2: data that can be written, as those behind it.
    pub data: [u8; 64],
    /// Index 3.
    pub extra: [u8; 64],
    /// Index 4.
    pub stack: [u8; 64],
}

/// A word, which is mostly small, so that sums of two are places in a segment.
fn word(random: &mut Pcg32) -> u16 {
    let number = random.next_u32();
    let word = (number % 65536) as u16;
    if number / 65536 % 4 == 0 {
        word
    } else {
        word % 32
    }
}

/// The flags that a program can have: those of arithmetic and the direction, and bit 1, which is always set.
fn flags(random: &mut Pcg32) -> u16 {
    (random.next_u32() % 65536) as u16 & 0x0CD5 | 0x0002
}

/// Registers, with CS:IP in the first half of the code, and the other segment registers at the other segments.
fn registers(random: &mut Pcg32) -> Cpu
    ensures ip { result.ip < 32 }
    ensures cs { result.cs ≡ 0x000F }
    ensures ds { result.ds ≡ 0x0017 }
    ensures es { result.es ≡ 0x001F }
    ensures ss { result.ss ≡ 0x0027 }
{
    Cpu {
        ax: word(random),
        cx: word(random),
        dx: word(random),
        bx: word(random),
        sp: word(random),
        bp: word(random),
        si: word(random),
        di: word(random),
        ip: (random.next_u32() % 32) as u16,
        flags: flags(random),
        cs: 0x000F,
        ds: 0x0017,
        es: 0x001F,
        ss: 0x0027,
    }
}

/// A byte, which is often small or 0, as the second byte of a word mostly has to be where that is a place in a segment.
fn small_byte(random: &mut Pcg32) -> u8 {
    let number = random.next_u32();
    match number / 256 % 3 {
        0 => (number % 256) as u8,
        1 => (number % 32) as u8,
        _ => 0,
    }
}

/// The bytes of a segment.
fn block(random: &mut Pcg32) -> [u8; 64] {
    let mut bytes = [0u8; 64];
    for byte in bytes.iter_mut() {
        *byte = small_byte(random);
    }
    bytes
}

/// Bytes with others in place of those from a place on.
fn over(bytes: &mut [u8], at: usize, part: &[u8])
    requires { at + length part.now ≤ length bytes.old }
    ensures part { take (length part.now) (drop at bytes.new) ≡ part.now }
    ensures behind { (k : ℕ) → at + length part.now ≤ k
        → slice_index bytes.new k ≡ slice_index bytes.old k }
{
    bytes[at..at + part.len()].copy_from_slice(part);
}

/// A byte with other bits 3 to 5.
fn with_reg(byte: u8, reg: u8) -> u8
    requires { reg < 8 }
    ensures { result / 8 % 8 ≡ reg }
{
    byte / 64 * 64 + reg * 8 + byte % 8
}

/// A state whose instruction begins as wanted.
pub fn opening(random: &mut Pcg32, wanted: &Wanted) -> Snapshot
    ensures within { result.cpu.ip < 32 }
    ensures begins { take (length wanted.now.opcode.items) (drop result.cpu.ip result.code)
        ≡ wanted.now.opcode.items }
    ensures reg { (r : ℕ) → wanted.now.reg ≡ Some r
        → slice_index result.code (result.cpu.ip + length wanted.now.opcode.items) / 8 % 8 ≡ r % 8 }
    ensures cs { result.cpu.cs ≡ 0x000F }
    ensures ss { result.cpu.ss ≡ 0x0027 }
{
    let cpu = registers(random);
    let mut code = block(random);
    let at = cpu.ip as usize;
    let count = wanted.opcode.len();
    code[at + count] = (random.next_u32() % 256) as u8;
    if let Some(reg) = wanted.reg {
        code[at + count] = with_reg(code[at + count], reg % 8);
    }
    over(&mut code, at, wanted.opcode.as_slice());
    Snapshot {
        cpu,
        code,
        data: block(random),
        extra: block(random),
        stack: block(random),
    }
}
