// A source and a device in memory that never fail.
ghost use Rattle.std.specs.Prelude.{◌≡◌, ◌≤◌, ◌<◌, Some, drop, take, length, true, IfOk, replicate};
ghost use Rattle.o2_outer.specs.Contents.{block_of};

use crate::blocks::zero_blocks;
use crate::history::History;
use crate::{Dev, Source, SwapDevice, Took};
use o2_base::{Bytes, NoMemory};
use std::alloc::Global;

/// Bytes in memory.
#[derive(Drop)]
pub struct SureSource {
    bytes: Bytes,
    at: usize,
    ghost within: { at ≤ length bytes },
}

impl SureSource {
    ghost use Rattle.o2_outer.specs.Sources.{source_left};

    /// A source of these bytes.
    pub fn new(bytes: Bytes) -> SureSource
        ensures { source_left result ≡ bytes }
    {
        SureSource { bytes, at: 0 }
    }
}

impl Source for SureSource {
    ghost use Rattle.o2_outer.specs.Sources.{past_at};

    ghost left = { λ s. Some (drop s.at s.bytes) };

    ghost past = { λ s. past_at s.at s.bytes };

    ghost faults = { λ _. 0 };

    fn take(&mut self, into: &mut [u8]) -> Took {
        let rest = &self.bytes.as_slice()[self.at..];
        let count = into.len().min(rest.len());
        into[..count].copy_from_slice(&rest[..count]);
        self.at += count;
        Took::Done(count)
    }
}

/// Blocks in memory, 65,536 at most.
#[derive(Drop)]
pub struct SureSwap {
    blocks: Vec<[u8; 512]>,
    // which blocks were asked for, for proofs
    asked: History<u32, u32, u32>,
    ghost few: { length blocks.items ≤ 65536 },
}

impl SureSwap {
    ghost use Rattle.o2_outer.specs.Devices.{swap_blocks, swap_contents};

    /// A device of so many blocks of zeros.
    pub fn new(alloc: Global, blocks: u32) -> Result<SureSwap, NoMemory>
        requires { blocks ≤ 65536 }
        ensures blocks { IfOk result (λ s. swap_blocks s ≡ blocks) }
        ensures zeros { IfOk result (λ s. swap_contents s ≡ replicate blocks (replicate 512 0)) }
    {
        let blocks = zero_blocks(alloc, blocks)?;
        Ok(SureSwap {
            blocks,
            asked: History::new(),
        })
    }
}

impl SwapDevice for SureSwap {
    ghost use Rattle.o2_outer.specs.Asked.{asked_for};

    ghost blocks = { λ s. length s.blocks.items };

    ghost told = { λ _. true };

    ghost block = { λ s. block_of s.blocks.items };

    ghost known = { λ _ _. true };

    ghost asked = { λ s. asked_for s.asked.items };

    ghost faults = { λ _. 0 };

    fn count(&self) -> u32 {
        self.blocks.len() as u32
    }

    // each holds zeros at first
    fn knows(&self, _i: u32) -> bool {
        true
    }

    fn read(&mut self, i: u32, into: &mut [u8; 512]) -> Dev {
        self.asked = self.asked.and(&i, &i, &i);
        *into = self.blocks[i as usize];
        Dev::Done
    }

    fn write(&mut self, i: u32, from: &[u8; 512]) -> Dev {
        self.blocks[i as usize] = *from;
        Dev::Done
    }
}
