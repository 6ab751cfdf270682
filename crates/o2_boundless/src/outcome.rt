// How a call comes out whose words lie in the stack and whose pointers are good.
ghost use Rattle.std.specs.Prelude.{◌≡◌, ◌∷◌, [], ◌≤◌, ℕ, List, IfOk, length, slice_index};
ghost use Rattle.o2_world.specs.declared.types.Argument.TheVariants.{Word as Shown};
ghost use Rattle.o2_world.specs.Calls.{by_heap, is_console, on_heap, pid_bytes, reading, row_of, telling_pid, writing};
ghost use Rattle.o2_world.specs.CallParts.{Before};
ghost use Rattle.o2_world.specs.Outcomes.{Fails, by_ruling};
ghost use Rattle.o2_world.specs.Rulings.{Ruling};
ghost use Rattle.o2_boundless.specs.Outcomes.{heap_ruling, outcome_by, outcome_of, slots_by};
ghost use Rattle.o2_boundless.specs.Shown.{before_call};
ghost use Rattle.o2_boundless.specs.Verdicts.{ruling_of};

use crate::World;
use crate::rulings::{Verdict, grants};
use crate::semaphores::{clearing, setting};
use o2_base::{Bytes, NoMemory};
use o2_regions::Answer;
use o2_subseg::{sub_alloc, sub_free, sub_set};
use o2_world::{Argument, Slot};
use o2_world_parts::{Done, Process, first, put_value, registers, word_bytes};
use std::alloc::Global;

/// The selectors of a run rise by 8, which is 1 shifted left by so many bits.
const SHIFT: u32 = 3;

/// The most bytes that a heap has.
const MOST: u16 = 65_532;

/// The selector of a heap isn't that of data that can be written.
const NO_SEGMENT: u16 = 315;

/// How a call comes out.
#[derive(Drop)]
pub enum Outcome {
    /// An error, with the values of its line.
    Fails(u16, Vec<Argument>),
    Does(Done),
    /// The call waits: all stays as it is.
    Waits,
    /// The process ends, by this action, with this code.
    Leaves(u16, u16),
}

fn one_value(alloc: Global, value: u16) -> Result<Vec<Argument>, NoMemory>
    ensures { IfOk result (λ v. v.items ≡ Shown value ∷ []) }
{
    Ok(vec![in alloc; Argument::Word(value)]?)
}

/// An error, with a word that its line has.
fn fails(alloc: Global, error: u16, value: u16) -> Result<Outcome, NoMemory>
    ensures { IfOk result (λ x. (input : List ℕ) → outcome_of input x ≡ Fails error (Shown value ∷ [])) }
{
    Ok(Outcome::Fails(error, one_value(alloc, value)?))
}

/// A call by its ruling: its value goes to the slot that is for it.
fn granted(alloc: Global, slots: &[Slot], verdict: Verdict) -> Result<Outcome, NoMemory>
    ensures { IfOk result (λ x. (b : Before) → outcome_of b.input x ≡ by_ruling slots.now b (ruling_of verdict)) }
{
    if verdict.error != 0 {
        return Ok(Outcome::Fails(verdict.error, Vec::new(alloc)));
    }
    let mut values = Vec::new(alloc);
    let mut parts = Vec::new(alloc);
    for slot in slots {
        put_value(alloc, &mut values, &mut parts, *slot, verdict.value)?;
    }
    Ok(Outcome::Does(Done {
        values,
        parts,
        edits: verdict.edits,
        read: 0,
        piece: Vec::new(alloc),
    }))
}

fn ruled(
    alloc: Global,
    slots: &[Slot],
    verdict: Result<Verdict, NoMemory>,
) -> Result<Outcome, NoMemory>
    ensures { (b : Before) (r : Ruling) → IfOk verdict (λ v. ruling_of v ≡ r) → IfOk result (λ x. outcome_of b.input x ≡ by_ruling slots.now b r) }
{
    granted(alloc, slots, verdict?)
}

// DosGetPID(pinfo)

fn telling_pid(alloc: Global, number: u16) -> Result<Outcome, NoMemory>
    ensures { (b : Before) (a : ℕ → ℕ) → b.number ≡ number → IfOk result (λ x. outcome_of b.input x ≡ telling_pid b a) }
{
    let values = vec![in alloc;
        Argument::Word(number),
        Argument::Word(1),
        Argument::Word(0),
    ]?;
    let bytes = vec![in alloc; (number % 256) as u8, (number / 256) as u8, 1, 0, 0, 0]?;
    let parts = vec![in alloc; Bytes::new(bytes)]?;
    Ok(Outcome::Does(Done {
        values,
        parts,
        edits: Vec::new(alloc),
        read: 0,
        piece: Vec::new(alloc),
    }))
}

// DosRead(handle, buffer, count, pdone)

fn reading(alloc: Global, input: &[u8], words: &[u16]) -> Result<Outcome, NoMemory>
    requires { 6 ≤ length words.now }
    ensures { (b : Before) → b.input ≡ input.now → IfOk result (λ x. outcome_of b.input x ≡ reading b (slice_index words.now)) }
{
    if words[5] != 0 {
        return fails(alloc, 6, 0);
    }
    let got = first(input, words[2]);
    let count = got.len() as u16;
    let values = one_value(alloc, count)?;
    let parts = vec![in alloc;
        Bytes::from_slice(alloc, got)?,
        word_bytes(alloc, u32::from(count))?,
    ]?;
    Ok(Outcome::Does(Done {
        values,
        parts,
        edits: Vec::new(alloc),
        read: words[2] as usize,
        piece: Vec::new(alloc),
    }))
}

// DosWrite(handle, buffer, count, pdone)

fn is_console(handle: u16) -> bool
    ensures { result ≡ is_console handle }
{
    handle == 1 || handle == 2
}

// Heaps inside a segment.

/// What a call on a heap answers, by its words; the bytes are those behind it.
fn heap_call(service: u16, words: &[u16], bytes: &mut [u8]) -> Answer
    requires first { 20 ≤ service }
    requires last { service ≤ 22 }
    requires words { 6 ≤ length words.now }
    ensures error { result.error ≡ (heap_ruling service (slice_index words.now) bytes.old).error }
    ensures value { result.value ≡ (heap_ruling service (slice_index words.now) bytes.old).value }
    ensures bytes { bytes.new ≡ (heap_ruling service (slice_index words.now) bytes.old).bytes }
{
    match service {
        20 => sub_set(bytes, words[1], words[0]),
        21 => sub_alloc(bytes, words[0]),
        22 => sub_free(bytes, words[1], words[0]),
        _ => unreachable!(),
    }
}

/// The same over bytes of its own.
fn heap_call_on(service: u16, words: &[u16], bytes: &mut Vec<u8>) -> Answer
    requires first { 20 ≤ service }
    requires last { service ≤ 22 }
    requires words { 6 ≤ length words.now }
    ensures error { result.error ≡ (heap_ruling service (slice_index words.now) bytes.old.items).error }
    ensures value { result.value ≡ (heap_ruling service (slice_index words.now) bytes.old.items).value }
    ensures bytes { bytes.new.items ≡ (heap_ruling service (slice_index words.now) bytes.old.items).bytes }
{
    heap_call(service, words, bytes.as_mut_slice())
}

/// A call by what it answers: the heap comes first among what is written.
fn by_heap(
    alloc: Global,
    slots: &[Slot],
    answer: Answer,
    bytes: Vec<u8>,
) -> Result<Outcome, NoMemory>
    ensures { IfOk result (λ x. (b : Before) → outcome_of b.input x ≡ by_heap slots.now b (record { error = answer.error; value = answer.value; bytes = bytes.items })) }
{
    if answer.error != 0 {
        return Ok(Outcome::Fails(answer.error, Vec::new(alloc)));
    }
    let mut values = Vec::new(alloc);
    let mut parts = vec![in alloc; Bytes::new(bytes)]?;
    for slot in slots {
        put_value(alloc, &mut values, &mut parts, *slot, answer.value)?;
    }
    Ok(Outcome::Does(Done {
        values,
        parts,
        edits: Vec::new(alloc),
        read: 0,
        piece: Vec::new(alloc),
    }))
}

impl World {
    fn on_heap(
        &self,
        alloc: Global,
        number: u16,
        process: &Process,
        service: u16,
        slots: &[Slot],
        selector: u16,
        words: &[u16],
    ) -> Result<Outcome, NoMemory>
        requires first { 20 ≤ service }
        requires last { service ≤ 22 }
        requires words { 6 ≤ length words.now }
        ensures { IfOk result (λ x. let b = before_call self.now number process.now in
            outcome_of b.input x ≡ on_heap slots.now b selector (heap_ruling service (slice_index words.now))) }
    {
        if !self.may_have_heap(process, selector) {
            return Ok(Outcome::Fails(NO_SEGMENT, Vec::new(alloc)));
        }
        let mut bytes = self.front(alloc, process, selector, MOST)?;
        let answer = heap_call_on(service, words, &mut bytes);
        by_heap(alloc, slots, answer, bytes)
    }

    fn writing(
        &self,
        alloc: Global,
        number: u16,
        process: &Process,
        words: &[u16],
    ) -> Result<Outcome, NoMemory>
        requires { 6 ≤ length words.now }
        ensures { IfOk result (λ x. let b = before_call self.now number process.now in outcome_of b.input x ≡ writing b (slice_index words.now)) }
    {
        let count = words[2];
        if !is_console(words[5]) {
            return fails(alloc, 6, count);
        }
        let values = one_value(alloc, count)?;
        let parts = vec![in alloc; word_bytes(alloc, u32::from(count))?]?;
        let piece = self.range(alloc, process, words[4], words[3], count)?;
        Ok(Outcome::Does(Done {
            values,
            parts,
            edits: Vec::new(alloc),
            read: 0,
            piece,
        }))
    }

    fn left(&self) -> &[u8]
        ensures { result.now ≡ self.now.world.input }
    {
        self.input.as_slice()
    }

    fn available(&self) -> u32
        ensures { result ≡ self.now.avail }
    {
        self.avail
    }

    /// How the call of a service comes out, by its words from the top of the stack.
    #[tactic(auto, unfolding(o2_world::specs::Calls::row_of))]
    pub(crate) fn outcome(
        &self,
        alloc: Global,
        n: u16,
        process: &Process,
        service: u16,
        slots: &[Slot],
        a: &[u16],
    ) -> Result<Outcome, NoMemory>
        requires words { 6 ≤ length a.now }
        requires slots { slots.now ≡ slots_by (row_of service) }
        ensures { IfOk result (λ x. let b = before_call self.now n process.now in outcome_of b.input x ≡ outcome_by (row_of service) b (slice_index a.now)) }
    {
        let cpu = registers(process);
        match service {
            1 => Ok(Outcome::Leaves(a[1], a[0])),
            2 => telling_pid(alloc, n),
            3 => reading(alloc, self.left(), a),
            4 => self.writing(alloc, n, process, a),
            5 => ruled(alloc, slots, self.allocation(alloc, n, a[3], a[0])),
            6 => ruled(alloc, slots, self.reallocation(alloc, n, a[1], a[0])),
            7 => ruled(alloc, slots, self.freeing(alloc, n, a[0], &cpu)),
            8 => ruled(alloc, slots, Ok(self.sizing(alloc, n, a[2]))),
            9 => ruled(alloc, slots, self.locking(alloc, n, a[0])),
            10 => ruled(alloc, slots, self.unlocking(alloc, n, a[0])),
            11 => ruled(alloc, slots, self.aliasing(alloc, n, a[2])),
            12 => ruled(
                alloc,
                slots,
                self.naming_by(alloc, n, process, a[4], a[3], a[2]),
            ),
            13 => ruled(alloc, slots, self.sharing_by(alloc, n, process, a[3], a[2])),
            14 => ruled(alloc, slots, self.giving(alloc, n, a[3], a[2])),
            15 => ruled(alloc, slots, self.getting(alloc, n, a[0])),
            16 => {
                let verdict = self.huge_allocation(alloc, n, a[5], a[4], a[1], a[0]);
                ruled(alloc, slots, verdict)
            }
            17 => {
                let verdict = self.huge_reallocation(alloc, n, a[2], a[1], a[0], &cpu);
                ruled(alloc, slots, verdict)
            }
            18 => ruled(alloc, slots, Ok(grants(SHIFT, Vec::new(alloc)))),
            19 => ruled(alloc, slots, Ok(grants(self.available(), Vec::new(alloc)))),
            20 => self.on_heap(alloc, n, process, service, slots, a[2], a),
            21 => self.on_heap(alloc, n, process, service, slots, a[3], a),
            22 => self.on_heap(alloc, n, process, service, slots, a[2], a),
            25 => self.requesting(alloc, n, process, a),
            26 => clearing(alloc),
            27 => self.waiting(alloc, n, process, a),
            28 => setting(alloc),
            _ => Ok(Outcome::Fails(0, Vec::new(alloc))),
        }
    }
}
