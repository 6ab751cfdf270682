ghost use Rattle.std.specs.Prelude.{◌≤◌, length};

use crate::cases::CASES;
use crate::map::{Reading, expected};
use o2_decode::decode;
use o2_isa::Decoded;
use test_fixtures::{Wrong, want};

// Each instruction is read from its bytes, and wants the last of them.
pub fn reads_instructions() -> Result<(), Wrong> {
    for (row, ((bytes, length), instr)) in CASES.iter().enumerate() {
        if *length == 0 || *length > 10 {
            return Err(Wrong::Row(row));
        }
        let whole = decode(bytes) == Decoded::One(*instr, *length as u8);
        let front = decode(&bytes[..*length - 1]) == Decoded::Need;
        want(whole && front, row)?;
    }
    Ok(())
}

// What is wanted and what is refused, by the bytes alone.
pub fn reads_fronts() -> Result<(), Wrong> {
    let cases: [(&[u8], Decoded); 12] = [
        (&[], Decoded::Need),
        (&[0x82, 0xC0, 0x01], Decoded::Invalid),
        (&[0xFF, 0xF8], Decoded::Invalid),
        (&[0xF0, 0x82], Decoded::Invalid),
        (&[0x0F], Decoded::Need),
        (&[0x0F, 0x05], Decoded::Invalid),
        (&[0x69, 0x06, 0x34, 0x12], Decoded::Need),
        (&[0x8E, 0xC8], Decoded::Invalid),
        (&[0x2E; 9], Decoded::Need),
        (&[0x2E; 10], Decoded::TooLong),
        (
            &[0x2E, 0x2E, 0x2E, 0x2E, 0x2E, 0x2E, 0x2E, 0x2E, 0x2E, 0x82],
            Decoded::Invalid,
        ),
        (
            &[0x2E, 0x2E, 0x2E, 0x2E, 0x2E, 0x2E, 0x2E, 0x2E, 0x9A, 0x00],
            Decoded::TooLong,
        ),
    ];
    for (row, (bytes, wanted)) in cases.iter().enumerate() {
        if bytes.len() > 10 {
            return Err(Wrong::Row(row));
        }
        want(decode(bytes) == *wanted, row)?;
    }
    Ok(())
}

fn reading_of(decoded: Decoded) -> Reading {
    match decoded {
        Decoded::One(_, length) => Reading::One(length as usize),
        Decoded::Invalid => Reading::Invalid,
        Decoded::TooLong => Reading::TooLong,
        Decoded::Need => Reading::Need,
    }
}

// Whether bytes are read as the opcode map has them.
fn is_read(bytes: &[u8]) -> bool
    requires { length bytes.now ≤ 10 }
{
    reading_of(decode(bytes)) == expected(bytes)
}

// All first bytes, and all pairs of them, alone and with bytes behind them, against the opcode map.
pub fn reads_pairs() -> Result<(), Wrong> {
    for a in 0..=255u8 {
        want(is_read(&[a]), a as usize)?;
        for b in 0..=255u8 {
            let ten = [a, b, 0x34, 0x92, 0x56, 0x78, 0x9A, 0xBC, 0xDE, 0xF1];
            want(
                is_read(&[a, b]) && is_read(&ten),
                a as usize * 256 + b as usize,
            )?;
        }
    }
    Ok(())
}
