// Calls on a RAM semaphore: four bytes behind a pointer that may be written.
ghost use Rattle.std.specs.Prelude.{◌≡◌, ◌≤◌, ℕ, IfOk, length, slice_index};
ghost use Rattle.o2_ramsem.specs.Ruled.{ruled};
ghost use Rattle.o2_world.specs.CallParts.{Before};
ghost use Rattle.o2_world.specs.Calls.{by_semaphore, clearing_semaphore, requesting_semaphore, setting_semaphore, timeout_in, waiting_for_semaphore};
ghost use Rattle.o2_world.specs.Heaps.{word};
ghost use Rattle.o2_world.specs.SemRulings.{number_in};
ghost use Rattle.o2_world.specs.Views.{bytes_in, holds_in};
ghost use Rattle.o2_isa.specs.Pointers.{range_of};
ghost use Rattle.o2_boundless.specs.Outcomes.{outcome_of, written_of};
ghost use Rattle.o2_boundless.specs.Shown.{before_call};

use crate::World;
use crate::outcome::Outcome;
use o2_base::{Bytes, NoMemory};
use o2_ramsem::{Sem, clear, request, set, wait};
use o2_world_parts::{Done, Process, long_bytes};
use std::alloc::Global;

/// The byte at a place, or 0 past the last one.
fn byte(bytes: &[u8], place: usize) -> u32
    ensures value { result ≡ slice_index bytes.now place }
    ensures most { result ≤ 255 }
{
    if place < bytes.len() {
        u32::from(bytes[place])
    } else {
        0
    }
}

/// The word at a place, the low byte first.
#[tactic(auto, unfolding(o2_world::specs::Heaps::word))]
fn word(bytes: &[u8], place: u16) -> u32
    ensures value { result ≡ word bytes.now place }
    ensures most { result ≤ 65535 }
{
    let low = place as usize;
    byte(bytes, low) + 256 * byte(bytes, low + 1)
}

/// The number of a semaphore with these bytes.
fn number_in(bytes: &[u8]) -> u32
    ensures { result ≡ number_in bytes.now }
{
    word(bytes, 0) + 65536 * word(bytes, 2)
}

/// The timeout of a call, whose words are the last two.
fn timeout_in(words: &[u16]) -> u32
    requires { 6 ≤ length words.now }
    ensures { result ≡ timeout_in (slice_index words.now) }
{
    u32::from(words[0]) + 65536 * u32::from(words[1])
}

/// What a call writes of the number that it leaves.
fn written(alloc: Global, writes: bool, number: u32) -> Result<Vec<Bytes>, NoMemory>
    ensures { IfOk result (λ v. v.items ≡ written_of writes number) }
{
    if writes {
        Ok(vec![in alloc; long_bytes(alloc, number)?]?)
    } else {
        Ok(Vec::new(alloc))
    }
}

/// How a call comes out that does this.
fn by_semaphore(alloc: Global, writes: bool, sem: Sem) -> Result<Outcome, NoMemory>
    ensures { IfOk result (λ x. (b : Before) → outcome_of b.input x ≡ by_semaphore (written_of writes) b (ruled sem)) }
{
    match sem {
        Sem::Waits => Ok(Outcome::Waits),
        Sem::Error(error) => Ok(Outcome::Fails(error, Vec::new(alloc))),
        Sem::Word(number) => Ok(Outcome::Does(Done {
            values: Vec::new(alloc),
            parts: written(alloc, writes, number)?,
            edits: Vec::new(alloc),
            read: 0,
            piece: Vec::new(alloc),
        })),
    }
}

// DosSemClear(psem) and DosSemSet(psem)

pub(crate) fn clearing(alloc: Global) -> Result<Outcome, NoMemory>
    ensures { IfOk result (λ x. (b : Before) (a : ℕ → ℕ) → outcome_of b.input x ≡ clearing_semaphore b a) }
{
    by_semaphore(alloc, true, Sem::Word(clear()))
}

pub(crate) fn setting(alloc: Global) -> Result<Outcome, NoMemory>
    ensures { IfOk result (λ x. (b : Before) (a : ℕ → ℕ) → outcome_of b.input x ≡ setting_semaphore b a) }
{
    by_semaphore(alloc, true, Sem::Word(set()))
}

impl World {
    /// The number of the semaphore behind a pointer.
    fn semaphore_at(
        &self,
        alloc: Global,
        process: &Process,
        selector: u16,
        offset: u16,
    ) -> Result<u32, NoMemory>
        ensures { IfOk result (λ n. n ≡ number_in (range_of (holds_in process.now.held) (bytes_in self.now.world.names) selector offset 4)) }
    {
        let bytes = self.range(alloc, process, selector, offset, 4)?;
        Ok(number_in(&bytes))
    }

    /// DosSemRequest(psem, timeout), by the words of the call from the top of the stack.
    pub(crate) fn requesting(
        &self,
        alloc: Global,
        n: u16,
        process: &Process,
        words: &[u16],
    ) -> Result<Outcome, NoMemory>
        requires { 6 ≤ length words.now }
        ensures { IfOk result (λ x. let b = before_call self.now n process.now in outcome_of b.input x ≡ requesting_semaphore b (slice_index words.now)) }
    {
        let number = self.semaphore_at(alloc, process, words[3], words[2])?;
        by_semaphore(alloc, true, request(number, n, timeout_in(words)))
    }

    /// DosSemWait(psem, timeout), by the same words.
    pub(crate) fn waiting(
        &self,
        alloc: Global,
        n: u16,
        process: &Process,
        words: &[u16],
    ) -> Result<Outcome, NoMemory>
        requires { 6 ≤ length words.now }
        ensures { IfOk result (λ x. let b = before_call self.now n process.now in outcome_of b.input x ≡ waiting_for_semaphore b (slice_index words.now)) }
    {
        let number = self.semaphore_at(alloc, process, words[3], words[2])?;
        by_semaphore(alloc, false, wait(number, timeout_in(words)))
    }
}
