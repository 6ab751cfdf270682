// A program that is made call by call, and the boundless machine's world behind each call.
ghost use Rattle.std.specs.Prelude.{◌≤◌, ◌<◌};

use crate::dice::Dice;
use crate::opening::{add_process, first_name, front};
use o2_base::{Bytes, NoMemory};
use o2_boundless::{Process, Segment, World};
use o2_isa::Cpu;
use std::alloc::Global;

/// A word that is pushed: a register by the byte of its PUSH, or else a number.
#[derive(Clone, Copy)]
pub struct Word {
    pub value: u16,
    pub register: Option<u8>,
}

/// A number.
pub fn number(value: u16) -> Word {
    Word {
        value,
        register: None,
    }
}

/// Programs of processes that take slices of the script in turn, each up to the end of a call.
#[derive(Drop)]
pub struct Sequence {
    pub dice: Dice,
    pub world: World,
    pub input: Vec<u8>,
    /// The code of each process.
    pub codes: Vec<Vec<u8>>,
    pub script: String,
    /// How many calls there are, and which of them the world misses; 0 for none.
    pub calls: u32,
    misses: u32,
    /// What processes held when that was noted: process, selector, and how often; and how long the lines were then.
    pub noted: Vec<(u16, u16, u32)>,
    pub told: usize,
}

/// Adds so many bytes, none of them a zero.
fn add_input(input: &mut Vec<u8>, count: u16) -> Result<(), NoMemory> {
    for k in 0..count {
        input.push((k % 251 + 1) as u8)?;
    }
    Ok(())
}

fn write_slice(
    alloc: Global,
    script: &mut String,
    process: u16,
    steps: usize,
) -> Result<(), NoMemory> {
    let word = format!(in alloc; "\"{process}:{steps}\",")?;
    script.push_str(word.as_str())?;
    Ok(())
}

fn poke(segment: &mut Segment, at: u16, byte: u8) {
    if (at as usize) < segment.bytes.len() {
        segment.bytes[at as usize] = byte;
    }
}

fn poke_word(segment: &mut Segment, at: u16, word: u16) {
    poke(segment, at, (word % 256) as u8);
    poke(segment, at.wrapping_add(1), (word / 256) as u8);
}

/// Writes a PUSH.
fn write_push(code: &mut Vec<u8>, word: Word) -> Result<(), NoMemory> {
    match word.register {
        Some(register) => code.push(register)?,
        None => {
            let [low, high] = word.value.to_le_bytes();
            code.extend_from_slice(&[0x68, low, high])?;
        }
    }
    Ok(())
}

/// Writes the PUSH of each word.
fn write_pushes(code: &mut Vec<u8>, words: &[Word]) -> Result<(), NoMemory> {
    for word in words {
        write_push(code, *word)?;
    }
    Ok(())
}

/// The values of up to six words, and zeros behind them.
fn values(words: &[Word]) -> [u16; 6] {
    let mut values = [0; 6];
    for (to, from) in values.iter_mut().zip(words) {
        *to = from.value;
    }
    values
}

/// The place of a process in a list.
fn place(process: u16) -> usize {
    (process as usize).wrapping_sub(1)
}

impl Sequence {
    /// The start of so many processes. The world misses the call of a number, from 1, or none for 0.
    pub fn new(
        alloc: Global,
        seed: u32,
        processes: u16,
        misses: u32,
    ) -> Result<Sequence, NoMemory> {
        let segments = u32::from(processes).saturating_mul(3).saturating_add(10);
        Ok(Sequence {
            dice: Dice::new(seed),
            world: World::new(alloc, segments, crate::opening::AVAIL)?,
            input: Vec::new(alloc),
            codes: Vec::new(alloc),
            script: String::new(alloc),
            calls: 0,
            misses,
            noted: Vec::new(alloc),
            told: 0,
        })
    }

    /// Adds the input.
    pub fn add_input(&mut self, alloc: Global) -> Result<(), NoMemory> {
        add_input(&mut self.input, 400)?;
        self.world.input = Bytes::from_slice(alloc, &self.input)?;
        Ok(())
    }

    /// Adds the process of a number, with its first step.
    pub fn add_process(&mut self, alloc: Global, process: u16) -> Result<(), NoMemory> {
        add_process(alloc, &mut self.world, process)?;
        self.codes.push(front(alloc)?)?;
        write_slice(alloc, &mut self.script, process, 1)
    }

    /// A process.
    pub fn process(&self, process: u16) -> Option<&Process> {
        self.world.processes.get(place(process))
    }

    /// The registers of a process.
    pub fn cpu(&self, process: u16) -> Option<Cpu> {
        match self.process(process) {
            Some(process) => Some(process.cpu),
            None => None,
        }
    }

    fn set_cpu(&mut self, process: u16, cpu: Cpu) {
        let place = place(process);
        if place < self.world.processes.len() {
            self.world.processes[place].cpu = cpu;
        }
    }

    /// Has the system discard what it may.
    pub fn discard(&mut self) -> Result<(), NoMemory> {
        self.script.push_str("\"discard\",")?;
        self.world.discard();
        Ok(())
    }

    /// How many processes there are.
    pub fn processes(&self) -> u16 {
        (self.codes.len() % 65_536) as u16
    }

    fn is_noted(&self, process: u16, selector: u16) -> bool {
        for row in self.noted.iter() {
            if row.0 == process && row.1 == selector {
                return true;
            }
        }
        false
    }

    // Of two pairs of one index the first counts.
    fn note_process(&mut self, process: u16) -> Result<(), NoMemory> {
        for k in 0..self.holds(process) {
            if let Some(place) = self.held(process, k) {
                let selector = place.selector();
                if !self.is_noted(process, selector) {
                    self.noted.push((process, selector, place.holds))?;
                }
            }
        }
        Ok(())
    }

    /// Notes what each process holds.
    pub fn note(&mut self) -> Result<(), NoMemory> {
        for before in 0..self.processes() {
            self.note_process(before.saturating_add(1))?;
        }
        self.told = self.world.lines.len();
        Ok(())
    }

    /// Writes code of a process.
    fn write(&mut self, process: u16, code: &[u8]) -> Result<(), NoMemory> {
        let place = place(process);
        if place < self.codes.len() {
            self.codes[place].extend_from_slice(code)?;
        }
        Ok(())
    }

    /// How many bytes of code a process has.
    pub fn len(&self, process: u16) -> usize {
        match self.codes.get(place(process)) {
            Some(code) => code.len(),
            None => 0,
        }
    }

    fn set_word(&mut self, name: u64, at: u16, word: u16) {
        for k in 0..self.world.names.len() {
            if k < self.world.names.len() && self.world.names[k].0 == name {
                poke_word(&mut self.world.names[k].1, at, word);
            }
        }
    }

    /// Puts words onto the stack of a process, which lies in its own data, and answers where its top is.
    fn stack(&mut self, process: u16, top: u16, words: &[Word]) -> u16 {
        let name = first_name(process).saturating_add(1);
        let mut sp = top;
        for word in words {
            sp = sp.wrapping_sub(2);
            self.set_word(name, sp, word.value);
        }
        sp
    }

    /// Loads DS, or ES, with a selector that may be loaded: a slice of two steps.
    pub fn load(
        &mut self,
        alloc: Global,
        process: u16,
        into_ds: bool,
        selector: u16,
    ) -> Result<(), NoMemory> {
        let Some(mut cpu) = self.cpu(process) else {
            return Ok(());
        };
        cpu.ax = selector;
        if into_ds {
            cpu.ds = selector;
        } else {
            cpu.es = selector;
        }
        self.set_cpu(process, cpu);
        let [low, high] = selector.to_le_bytes();
        let register = if into_ds { 0xD8 } else { 0xC0 };
        self.write(process, &[0xB8, low, high, 0x8E, register])?;
        write_slice(alloc, &mut self.script, process, 2)
    }

    /// Writes the code of a call, and the slice of it.
    fn write_call(
        &mut self,
        alloc: Global,
        process: u16,
        service: u16,
        words: &[Word],
    ) -> Result<(), NoMemory> {
        let place = place(process);
        if place < self.codes.len() {
            write_pushes(&mut self.codes[place], words)?;
        }
        let [low, high] = ((service % 64) * 8 + 0x83).to_le_bytes();
        self.write(process, &[0x9A, 0, 0, low, high])?;
        write_slice(
            alloc,
            &mut self.script,
            process,
            words.len().saturating_add(1),
        )
    }

    /// The registers of a process at a call whose code has been written, and its words on the stack.
    fn begin_call(&mut self, process: u16, words: &[Word]) {
        if let Some(mut cpu) = self.cpu(process) {
            cpu.sp = self.stack(process, cpu.sp, words);
            cpu.ip = (self.len(process).saturating_sub(5) % 65_536) as u16;
            self.set_cpu(process, cpu);
        }
    }

    /// The world behind a call.
    fn answer(
        &mut self,
        alloc: Global,
        process: u16,
        service: u16,
        words: &[Word],
    ) -> Result<(), NoMemory> {
        self.calls = self.calls.saturating_add(1);
        if self.calls != self.misses && self.world.lives(process) {
            self.world.call(alloc, process, service, &values(words))?;
        }
        Ok(())
    }

    /// Calls a service with up to six words, which ends the slice of the process.
    pub fn call(
        &mut self,
        alloc: Global,
        process: u16,
        service: u16,
        words: &[Word],
    ) -> Result<(), NoMemory> {
        self.write_call(alloc, process, service, words)?;
        self.begin_call(process, words);
        self.answer(alloc, process, service, words)
    }
}
