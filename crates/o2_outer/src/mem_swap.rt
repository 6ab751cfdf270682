// A swap device in memory, which fails when told to.
ghost use Rattle.std.specs.Prelude.{◌≡◌, ◌≤◌, ◌<◌, ◌||◌, Option, Some, None, length, true, IfOk, replicate};

use crate::blocks::zero_blocks;
use crate::history::History;
use crate::plan::fails_now;
use crate::{Dev, SwapDevice};
use o2_base::NoMemory;
use std::alloc::Global;

/// Blocks in memory, 65,536 at most. The calls of `fails` fail, counted from 1, reads and writes together, and so does the write
/// that `fail_write` names. No other call fails, and a call that fails changes no block.
#[derive(Drop)]
pub struct MemSwap {
    blocks: Vec<[u8; 512]>,
    fails: Vec<u64>,
    calls: u64,
    failing_write: Option<u64>,
    tries: u64,
    writes: u64,
    faults: u64,
    // which blocks were asked for, for proofs
    asked: History<u32, u32, u32>,
    ghost few: { length blocks.items ≤ 65536 },
}

impl MemSwap {
    ghost use Rattle.o2_outer.specs.Devices.{mem_blocks, mem_calls, mem_calls_to_fail, mem_failing_write, mem_write_tries, mem_writes, mem_swap_faults};

    /// A device of so many blocks of zeros, and the calls that are to fail.
    pub fn new(alloc: Global, blocks: u32, fails: Vec<u64>) -> Result<MemSwap, NoMemory>
        requires { blocks ≤ 65536 }
        ensures blocks { IfOk result (λ s. mem_blocks s ≡ replicate blocks (replicate 512 0)) }
        ensures fails { IfOk result (λ s. mem_calls_to_fail s ≡ fails.items) }
        ensures calls { IfOk result (λ s. mem_calls s ≡ 0) }
        ensures sure { IfOk result (λ s. mem_failing_write s ≡ None) }
        ensures tries { IfOk result (λ s. mem_write_tries s ≡ 0) }
        ensures writes { IfOk result (λ s. mem_writes s ≡ 0) }
        ensures faultless { IfOk result (λ s. mem_swap_faults s ≡ 0) }
    {
        let blocks = zero_blocks(alloc, blocks)?;
        Ok(MemSwap {
            blocks,
            fails,
            calls: 0,
            failing_write: None,
            tries: 0,
            writes: 0,
            faults: 0,
            asked: History::new(),
        })
    }

    /// Makes the k-th write fail, counted from 1 over all writes that are tried, and no other one by this.
    pub fn fail_write(&mut self, k: u64)
        ensures failing { mem_failing_write self.new ≡ Some k }
        ensures blocks { mem_blocks self.new ≡ mem_blocks self.old }
        ensures tries { mem_write_tries self.new ≡ mem_write_tries self.old }
        ensures calls { mem_calls self.new ≡ mem_calls self.old }
        ensures plan { mem_calls_to_fail self.new ≡ mem_calls_to_fail self.old }
        ensures writes { mem_writes self.new ≡ mem_writes self.old }
        ensures faults { mem_swap_faults self.new ≡ mem_swap_faults self.old }
    {
        self.failing_write = Some(k);
    }

    /// How many writes were done.
    pub fn writes(&self) -> u64
        ensures { result ≡ mem_writes self.now }
    {
        self.writes
    }

    /// How often it has failed.
    pub fn faults(&self) -> u64
        ensures { result ≡ mem_swap_faults self.now }
    {
        self.faults
    }
}

impl SwapDevice for MemSwap {
    ghost use Rattle.std.specs.Prelude.{◌++◌, ◌∷◌, []};
    ghost use Rattle.o2_outer.specs.Answers.{HasCause, CountsDev};
    ghost use Rattle.o2_outer.specs.Contents.{block_of};
    ghost use Rattle.o2_outer.specs.Planned.{next_call};
    ghost use Rattle.o2_outer.specs.Devices.{mem_asked, mem_blocks, mem_calls, mem_calls_to_fail, mem_failing_write, mem_write_tries, mem_writes, mem_swap_faults, read_fails, write_fails, device_answer, blocks_written, writes_after};

    ghost blocks = { λ s. length (mem_blocks s) };

    ghost told = { λ _. true };

    ghost block = { λ s. block_of (mem_blocks s) };

    ghost known = { λ _ _. true };

    ghost asked = { λ s. mem_asked s };

    ghost faults = { λ s. mem_swap_faults s };

    fn count(&self) -> u32 {
        self.blocks.len() as u32
    }

    // each holds zeros at first
    fn knows(&self, _i: u32) -> bool {
        true
    }

    fn read(&mut self, i: u32, into: &mut [u8; 512]) -> Dev
        requires { i < length (mem_blocks self.old) }
        ensures same { mem_blocks self.new ≡ mem_blocks self.old }
        ensures read { result ≡ Dev.Done → into.new ≡ block_of (mem_blocks self.old) i }
        ensures asked { mem_asked self.new ≡ mem_asked self.old ++ i ∷ [] }
        ensures cause { HasCause (mem_swap_faults self.old) (mem_swap_faults self.new) result }
        ensures counts { CountsDev (mem_swap_faults self.old) (mem_swap_faults self.new) result }

        ensures answer { result ≡ device_answer (read_fails self.old) }
        ensures calls { mem_calls self.new ≡ next_call (mem_calls self.old) }
        ensures tries { mem_write_tries self.new ≡ mem_write_tries self.old }
        ensures plan { mem_calls_to_fail self.new ≡ mem_calls_to_fail self.old }
        ensures failing { mem_failing_write self.new ≡ mem_failing_write self.old }
        ensures writes { mem_writes self.new ≡ mem_writes self.old }
    {
        self.asked = self.asked.and(&i, &i, &i);
        if fails_now(&mut self.calls, &self.fails) {
            self.faults = self.faults.saturating_add(1);
            return Dev::Failed;
        }
        *into = self.blocks[i as usize];
        Dev::Done
    }

    fn write(&mut self, i: u32, from: &[u8; 512]) -> Dev
        requires { i < length (mem_blocks self.old) }
        ensures written { mem_blocks self.new ≡ blocks_written self.old i from.now }
        ensures unasked { mem_asked self.new ≡ mem_asked self.old }
        ensures cause { HasCause (mem_swap_faults self.old) (mem_swap_faults self.new) result }
        ensures counts { CountsDev (mem_swap_faults self.old) (mem_swap_faults self.new) result }

        ensures answer { result ≡ device_answer (write_fails self.old) }
        ensures calls { mem_calls self.new ≡ next_call (mem_calls self.old) }
        ensures tries { mem_write_tries self.new ≡ next_call (mem_write_tries self.old) }
        ensures plan { mem_calls_to_fail self.new ≡ mem_calls_to_fail self.old }
        ensures failing { mem_failing_write self.new ≡ mem_failing_write self.old }
        ensures writes { mem_writes self.new ≡ writes_after self.old }
    {
        self.tries = self.tries.saturating_add(1);
        let planned = fails_now(&mut self.calls, &self.fails);
        if planned || self.failing_write == Some(self.tries) {
            self.faults = self.faults.saturating_add(1);
            return Dev::Failed;
        }
        self.blocks[i as usize] = *from;
        self.writes = self.writes.saturating_add(1);
        Dev::Done
    }
}
