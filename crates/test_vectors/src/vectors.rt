// Vectors, read back from their text and replayed.
ghost use Rattle.std.specs.Prelude.{◌≤◌, length};

use crate::replay::replays;
use o2_vectors::{Wanted, made, opening};
use rand_pcg::Pcg32;
use serde_json::Value;
use std::alloc::Global;
use std::test::Fail;

/// Whether the vector in a text replays.
fn is_right(alloc: Global, text: &str) -> Result<bool, Fail> {
    let value = Value::from_str(alloc, text)?;
    Ok(replays(alloc, &value)?)
}

/// Whether vectors whose instructions begin with these bytes replay.
fn all_replay(alloc: Global, opcode: &[u8], seed: u64) -> Result<bool, Fail>
    requires { length opcode.now ≤ 10 }
{
    let wanted = Wanted {
        opcode: opcode.to_vec(alloc)?,
        reg: None,
        count: 8,
        seed,
    };
    let mut random = Pcg32::new(seed, 54);
    let mut same = true;
    for _ in 0..wanted.count {
        let before = opening(&mut random, &wanted);
        let text = made(alloc, &before)?.to_string(alloc)?;
        same = same && is_right(alloc, text.as_str())?;
    }
    Ok(same)
}

#[test]
fn vectors_of_each_opcode_replay(rt: HostRuntime) -> Result<(), Fail> {
    for first in 0..=255u8 {
        assert!(rt; all_replay(rt.alloc(), &[first], first as u64)?, "{first}");
    }
    for second in 0..=6u8 {
        assert!(rt; all_replay(rt.alloc(), &[0x0F, second], 300)?, "{second}");
    }
    for pair in [[0xF3, 0xA4], [0xF2, 0xAE], [0xF0, 0x01], [0x26, 0x8B]] {
        assert!(rt; all_replay(rt.alloc(), &pair, 400)?, "{pair:?}");
    }
    Ok(())
}
