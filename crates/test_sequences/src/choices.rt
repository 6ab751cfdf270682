// What calls are given: words, selectors and pointers, chosen by what a process holds.
ghost use Rattle.std.specs.Prelude.{◌≤◌};

use crate::sequence::{Sequence, Word, number};
use o2_boundless::Held;
use o2_desc::Access;
use o2_isa::Cpu;

/// PUSH of each register but SP.
static PUSHES: [u8; 12] = [
    0x50, 0x51, 0x52, 0x53, 0x55, 0x56, 0x57, 0x9C, 0x0E, 0x16, 0x1E, 0x06,
];

/// A register by the place of its PUSH.
fn register(cpu: &Cpu, which: u16) -> Word {
    let values = [
        cpu.ax, cpu.cx, cpu.dx, cpu.bx, cpu.bp, cpu.si, cpu.di, cpu.flags, cpu.cs, cpu.ss, cpu.ds,
        cpu.es,
    ];
    let k = (which % 12) as usize;
    Word {
        value: values[k],
        register: Some(PUSHES[k]),
    }
}

/// Sizes at an edge.
static SIZES: [u16; 5] = [0, 1, 2, 65_535, 512];

/// What is held, and where.
#[derive(Clone, Copy)]
pub struct Place {
    pub index: u16,
    pub is_writable: bool,
    pub size: usize,
    pub is_discarded: bool,
    /// How often.
    pub holds: u32,
}

impl Place {
    /// A selector of it, with all low bits.
    pub fn selector(&self) -> u16
        ensures { 7 ≤ result }
    {
        (self.index % 8192) * 8 + 7
    }
}

/// A pointer to so many bytes.
#[derive(Clone, Copy)]
pub struct Pointer {
    pub selector: Word,
    pub offset: Word,
}

/// A pointer by two numbers.
fn far(selector: u16, offset: u16) -> Pointer {
    Pointer {
        selector: number(selector),
        offset: number(offset),
    }
}

impl Sequence {
    fn size_of(&self, name: u64) -> usize {
        match self.world.names.iter().find(|pair| pair.0 == name) {
            Some(pair) => pair.1.size(),
            None => 0,
        }
    }

    fn is_discarded(&self, name: u64) -> bool {
        match self.world.names.iter().find(|pair| pair.0 == name) {
            Some(pair) => pair.1.discarded,
            None => false,
        }
    }

    fn place_of(&self, pair: &(u16, Held)) -> Place {
        Place {
            index: pair.0,
            is_writable: pair.1.rights == Access::WRITABLE_DATA.0,
            size: self.size_of(pair.1.name),
            is_discarded: self.is_discarded(pair.1.name),
            holds: pair.1.holds,
        }
    }

    /// What a process holds under the k-th of its indexes.
    pub fn held(&self, process: u16, k: usize) -> Option<Place> {
        let process = self.process(process)?;
        let pair = process.held.get(k)?;
        Some(self.place_of(pair))
    }

    /// How many indexes it holds.
    pub fn holds(&self, process: u16) -> usize {
        match self.process(process) {
            Some(process) => process.held.len(),
            None => 0,
        }
    }

    /// Something that a process holds.
    pub fn any_held(&mut self, process: u16) -> Option<Place> {
        let count = self.holds(process).saturating_sub(1);
        let k = self.dice.up_to((count % 65_536) as u16);
        self.held(process, k as usize)
    }

    /// A register.
    pub fn any_register(&mut self, process: u16) -> Word {
        match self.cpu(process) {
            Some(cpu) => register(&cpu, self.dice.roll(12)),
            None => number(0),
        }
    }

    /// A word.
    pub fn any_word(&mut self, process: u16) -> Word {
        match self.dice.roll(4) {
            0 => self.any_register(process),
            1 => number(self.dice.roll(5)),
            _ => number(self.dice.up_to(65_535)),
        }
    }

    /// A selector: mostly of something that the process holds, with any low bits, at times with that of the other table, of something
    /// beside it, of a shared index, or any word.
    pub fn selector(&mut self, process: u16) -> Word {
        let index = match self.any_held(process) {
            Some(place) => place.index % 8192,
            None => 0,
        };
        let low = self.dice.roll(4);
        match self.dice.roll(16) {
            0 => number(index * 8 + low),
            1 => number((index + 1) % 8192 * 8 + 4 + low),
            2 => number(0x8004 + self.dice.roll(6) * 8 + low),
            3 => self.any_word(process),
            _ => number(index * 8 + 4 + low),
        }
    }

    /// A size: one at an edge, a small one, or any.
    pub fn size(&mut self) -> Word {
        let k = self.dice.roll(12);
        number(match SIZES.get(k as usize) {
            Some(size) => *size,
            None => match k {
                5 => self.dice.up_to(65_535),
                6 => self.dice.up_to(4096),
                _ => self.dice.roll(100) + 1,
            },
        })
    }

    /// An offset of so many bytes in a segment, at an edge or anywhere.
    fn offset_in(&mut self, size: usize, count: u16) -> u16 {
        let most = (size.saturating_sub(count as usize) % 65_536) as u16;
        match self.dice.roll(4) {
            0 => 0,
            1 => most,
            _ => self.dice.up_to(most),
        }
    }

    fn good_place(&mut self, process: u16, writes: bool, count: u16) -> Option<Place> {
        let place = self.any_held(process)?;
        // the code of a module is known in its front alone
        let is_bad = place.index == 1 || place.is_discarded;
        if place.size < count as usize || (writes && !place.is_writable) || is_bad {
            None
        } else {
            Some(place)
        }
    }

    /// A pointer to so many bytes that is good, where one is found.
    fn good_pointer(&mut self, process: u16, writes: bool, count: u16) -> Pointer {
        for _ in 0..6 {
            if let Some(place) = self.good_place(process, writes, count) {
                let selector = place.selector() - self.dice.roll(4);
                return far(selector, self.offset_in(place.size, count));
            }
        }
        far(0x17, 0)
    }

    /// A pointer that ends by a byte too late.
    fn late_pointer(&self, place: Place, count: u16) -> Pointer {
        let end = place.size.saturating_add(1).saturating_sub(count as usize);
        far(place.selector(), (end % 65_536) as u16)
    }

    /// A pointer at which a call may end its process: past the end by a byte, to code that is to be written, or anywhere.
    fn bad_pointer(&mut self, process: u16, count: u16) -> Pointer {
        let which = self.dice.roll(3);
        let held = self.any_held(process);
        if which == 1 {
            return far(0x0F, crate::opening::CODE);
        }
        if let Some(place) = held {
            if which == 0 {
                return self.late_pointer(place, count);
            }
        }
        Pointer {
            selector: self.selector(process),
            offset: number(0xFFF0 + self.dice.roll(16)),
        }
    }

    /// A pointer to so many bytes that a call reads, or writes. One in a hundred may be bad.
    pub fn pointer(&mut self, process: u16, writes: bool, count: u16) -> Pointer {
        if self.dice.once_in(100) {
            self.bad_pointer(process, count)
        } else {
            self.good_pointer(process, writes, count)
        }
    }

    /// A pointer to a text: mostly to one of those in the code, at times to any bytes.
    pub fn text(&mut self, process: u16) -> Pointer {
        let which = self.dice.roll(6) as usize;
        match crate::opening::TEXTS.get(which) {
            Some(offset) => far(0x0F - self.dice.roll(4), *offset),
            None => self.pointer(process, false, 1),
        }
    }
}
