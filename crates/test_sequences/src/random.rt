// Sequences of calls at random.
use crate::choices::Place;
use crate::sequence::{Sequence, Word, number};
use o2_base::NoMemory;
use std::alloc::Global;

// The services by their numbers.
const EXIT: u16 = 1;

const GET_PID: u16 = 2;

const READ: u16 = 3;

const WRITE: u16 = 4;

const ALLOC: u16 = 5;

const REALLOC: u16 = 6;

const FREE: u16 = 7;

const SIZE: u16 = 8;

const LOCK: u16 = 9;

const UNLOCK: u16 = 10;

const ALIAS: u16 = 11;

const NAME: u16 = 12;

const SHARE: u16 = 13;

const GIVE: u16 = 14;

const GET: u16 = 15;

const ALLOC_HUGE: u16 = 16;

const REALLOC_HUGE: u16 = 17;

const SHIFT: u16 = 18;

const AVAILABLE: u16 = 19;

const SET_HEAP: u16 = 20;

const TAKE_OF_HEAP: u16 = 21;

const FREE_OF_HEAP: u16 = 22;

const REQUEST: u16 = 25;

const CLEAR: u16 = 26;

const WAIT: u16 = 27;

const SET: u16 = 28;

/// Both words of a timeout that never ends.
const FOREVER: u16 = 0xFFFF;

/// How long a code may be before its last calls.
const LONG: usize = 0x5000;

/// How many bytes one DosWrite takes of a segment.
fn first_bytes(size: usize) -> u16 {
    if size < 65_536 { size as u16 } else { 65_535 }
}

impl Sequence {
    /// The flags of an allocation.
    fn flags(&mut self, process: u16) -> Word {
        match self.dice.roll(24) {
            0 => self.any_word(process),
            1 => number(16),
            k => number(k % 16),
        }
    }

    fn alloc_seg(&mut self, alloc: Global, process: u16) -> Result<(), NoMemory> {
        let size = self.size();
        let to = self.pointer(process, true, 2);
        let flags = self.flags(process);
        self.call(
            alloc,
            process,
            ALLOC,
            &[size, to.selector, to.offset, flags],
        )
    }

    /// The data keeps its stack.
    fn realloc_seg(&mut self, alloc: Global, process: u16) -> Result<(), NoMemory> {
        let selector = self.selector(process);
        let mut size = self.size();
        if selector.value / 4 == 5 && size.value != 0 {
            size = number(size.value.saturating_add(600));
        }
        self.call(alloc, process, REALLOC, &[size, selector])
    }

    /// A call with a selector alone.
    fn on_selector(&mut self, alloc: Global, process: u16, service: u16) -> Result<(), NoMemory> {
        let selector = self.selector(process);
        self.call(alloc, process, service, &[selector])
    }

    /// A call with a selector and a pointer to so many bytes that it writes.
    fn to_pointer(
        &mut self,
        alloc: Global,
        process: u16,
        service: u16,
        count: u16,
    ) -> Result<(), NoMemory> {
        let selector = self.selector(process);
        let to = self.pointer(process, true, count);
        self.call(alloc, process, service, &[selector, to.selector, to.offset])
    }

    /// A call that writes so many bytes behind its only pointer.
    fn tells(
        &mut self,
        alloc: Global,
        process: u16,
        service: u16,
        count: u16,
    ) -> Result<(), NoMemory> {
        let to = self.pointer(process, true, count);
        self.call(alloc, process, service, &[to.selector, to.offset])
    }

    /// A new segment with a name.
    fn name_seg(&mut self, alloc: Global, process: u16) -> Result<(), NoMemory> {
        let size = self.size();
        let text = self.text(process);
        let to = self.pointer(process, true, 2);
        self.call(
            alloc,
            process,
            NAME,
            &[size, text.selector, text.offset, to.selector, to.offset],
        )
    }

    /// The segment of a name.
    fn share_seg(&mut self, alloc: Global, process: u16) -> Result<(), NoMemory> {
        let text = self.text(process);
        let to = self.pointer(process, true, 2);
        self.call(
            alloc,
            process,
            SHARE,
            &[text.selector, text.offset, to.selector, to.offset],
        )
    }

    /// The number of a process.
    fn any_process(&mut self) -> Word {
        let processes = self.processes().max(1);
        number(self.dice.roll(processes).saturating_add(1))
    }

    /// The number of any process, and at times one that is none's.
    fn receiver(&mut self, process: u16) -> Word {
        match self.dice.roll(8) {
            0 => self.any_word(process),
            _ => self.any_process(),
        }
    }

    fn give_seg(&mut self, alloc: Global, process: u16) -> Result<(), NoMemory> {
        let selector = self.selector(process);
        let receiver = self.receiver(process);
        let to = self.pointer(process, true, 2);
        self.call(
            alloc,
            process,
            GIVE,
            &[selector, receiver, to.selector, to.offset],
        )
    }

    /// How many full segments a run has: mostly few.
    fn segments(&mut self) -> Word {
        number(match self.dice.roll(16) {
            0 => 65_535,
            1 => self.dice.up_to(65_535),
            k => k % 4,
        })
    }

    /// How many members a run may have: a few, or any.
    fn most(&mut self, process: u16) -> Word {
        match self.dice.roll(8) {
            0 => self.any_word(process),
            k => number(k),
        }
    }

    /// The flags of a run.
    fn huge_flags(&mut self, process: u16) -> Word {
        match self.dice.roll(24) {
            0 => self.any_word(process),
            k => number(k % 4 + k / 12 * 8),
        }
    }

    /// A run, with room for a few members more, or any.
    fn alloc_huge(&mut self, alloc: Global, process: u16) -> Result<(), NoMemory> {
        let segments = self.segments();
        let part = self.size();
        let to = self.pointer(process, true, 2);
        let most = self.most(process);
        let flags = self.huge_flags(process);
        self.call(
            alloc,
            process,
            ALLOC_HUGE,
            &[segments, part, to.selector, to.offset, most, flags],
        )
    }

    fn realloc_huge(&mut self, alloc: Global, process: u16) -> Result<(), NoMemory> {
        let segments = self.segments();
        let part = self.size();
        let selector = self.selector(process);
        self.call(alloc, process, REALLOC_HUGE, &[segments, part, selector])
    }

    /// The handle of a DosRead or a DosWrite.
    fn handle(&mut self, process: u16, reads: bool) -> Word {
        match self.dice.roll(8) {
            0 => self.any_word(process),
            k => number(if reads { 0 } else { 1 + k % 2 }),
        }
    }

    /// A DosRead or a DosWrite.
    fn transfer(&mut self, alloc: Global, process: u16, reads: bool) -> Result<(), NoMemory> {
        let handle = self.handle(process, reads);
        let count = self.dice.roll(60);
        let buffer = self.pointer(process, reads, count);
        let done = self.pointer(process, true, 2);
        self.call(
            alloc,
            process,
            if reads { READ } else { WRITE },
            &[
                handle,
                buffer.selector,
                buffer.offset,
                number(count),
                done.selector,
                done.offset,
            ],
        )
    }

    /// 0, or a selector of something that the process holds.
    fn loaded(&mut self, process: u16) -> u16 {
        let low = self.dice.roll(4);
        match self.any_held(process) {
            Some(place) => {
                if place.is_discarded || self.dice.once_in(5) {
                    low
                } else {
                    place.selector() - low
                }
            }
            None => low,
        }
    }

    /// Loads DS or ES.
    fn load_any(&mut self, alloc: Global, process: u16) -> Result<(), NoMemory> {
        let into_ds = self.dice.once_in(2);
        let selector = self.loaded(process);
        self.load(alloc, process, into_ds, selector)
    }

    /// Locks one selector up to 255 and beyond, and unlocks it.
    fn lock_often(&mut self, alloc: Global, process: u16) -> Result<(), NoMemory> {
        let selector = number(self.selector(process).value);
        for k in 0..261u16 {
            let service = if k < 257 { LOCK } else { UNLOCK };
            self.call(alloc, process, service, &[selector])?;
        }
        Ok(())
    }

    /// A heap's size, an offset in it, or how many bytes of it: mostly few.
    fn part_of_heap(&mut self, process: u16) -> Word {
        match self.dice.roll(16) {
            0 => self.any_word(process),
            1 => self.size(),
            _ => number(self.dice.roll(96)),
        }
    }

    /// Mostly a new heap, or one that reaches further.
    fn set_heap(&mut self, alloc: Global, process: u16) -> Result<(), NoMemory> {
        let selector = self.selector(process);
        let flags = match self.dice.roll(12) {
            0 => self.any_word(process),
            1 | 2 => number(0),
            _ => number(1),
        };
        let size = self.part_of_heap(process);
        self.call(alloc, process, SET_HEAP, &[selector, flags, size])
    }

    fn take_of_heap(&mut self, alloc: Global, process: u16) -> Result<(), NoMemory> {
        let selector = self.selector(process);
        let to = self.pointer(process, true, 2);
        let size = self.part_of_heap(process);
        self.call(
            alloc,
            process,
            TAKE_OF_HEAP,
            &[selector, to.selector, to.offset, size],
        )
    }

    fn free_of_heap(&mut self, alloc: Global, process: u16) -> Result<(), NoMemory> {
        let selector = self.selector(process);
        let offset = self.part_of_heap(process);
        let size = self.part_of_heap(process);
        self.call(alloc, process, FREE_OF_HEAP, &[selector, offset, size])
    }

    /// The timeout of a call on a semaphore, which doesn't wait.
    fn timeout(&mut self, process: u16) -> (Word, Word) {
        if !self.dice.once_in(6) {
            return (number(0), number(0));
        }
        let high = self.any_word(process);
        let low = self.any_word(process);
        if high.value == FOREVER && low.value == FOREVER {
            return (high, number(0));
        }
        (high, low)
    }

    fn want_semaphore(
        &mut self,
        alloc: Global,
        process: u16,
        service: u16,
    ) -> Result<(), NoMemory> {
        let to = self.pointer(process, true, 4);
        let (high, low) = self.timeout(process);
        self.call(
            alloc,
            process,
            service,
            &[to.selector, to.offset, high, low],
        )
    }

    /// A call on a segment, by a number below 80.
    fn act_on_segment(&mut self, alloc: Global, process: u16, k: u16) -> Result<(), NoMemory> {
        match k {
            0..=23 => self.alloc_seg(alloc, process),
            24..=36 => self.realloc_seg(alloc, process),
            37..=48 => self.on_selector(alloc, process, FREE),
            49..=55 => self.to_pointer(alloc, process, SIZE, 4),
            56..=62 => self.on_selector(alloc, process, LOCK),
            63..=71 => self.on_selector(alloc, process, UNLOCK),
            _ => self.to_pointer(alloc, process, ALIAS, 2),
        }
    }

    /// A transfer, a load, or a call between processes, by a number from 80 to 114.
    fn act_with_others(&mut self, alloc: Global, process: u16, k: u16) -> Result<(), NoMemory> {
        match k {
            80..=84 => self.transfer(alloc, process, false),
            85..=91 => self.transfer(alloc, process, true),
            92..=97 => self.load_any(alloc, process),
            98..=105 => self.on_selector(alloc, process, GET),
            _ => self.give_seg(alloc, process),
        }
    }

    /// A call on a run or on a name, or one that tells, by a number from 115 to 151.
    fn act_on_more(&mut self, alloc: Global, process: u16, k: u16) -> Result<(), NoMemory> {
        match k {
            115..=122 => self.alloc_huge(alloc, process),
            123..=132 => self.realloc_huge(alloc, process),
            133 => self.tells(alloc, process, SHIFT, 2),
            134 => self.tells(alloc, process, GET_PID, 6),
            135..=142 => self.name_seg(alloc, process),
            143..=150 => self.share_seg(alloc, process),
            _ => self.tells(alloc, process, AVAILABLE, 4),
        }
    }

    /// A call on a heap, by a number from 152 to 175.
    fn act_on_heap(&mut self, alloc: Global, process: u16, k: u16) -> Result<(), NoMemory> {
        match k {
            152..=157 => self.set_heap(alloc, process),
            158..=167 => self.take_of_heap(alloc, process),
            _ => self.free_of_heap(alloc, process),
        }
    }

    /// A call on a semaphore, by a number from 176 to 189.
    fn act_on_semaphore(&mut self, alloc: Global, process: u16, k: u16) -> Result<(), NoMemory> {
        match k {
            176..=181 => self.want_semaphore(alloc, process, REQUEST),
            182..=184 => self.tells(alloc, process, CLEAR, 4),
            185..=187 => self.want_semaphore(alloc, process, WAIT),
            _ => self.tells(alloc, process, SET, 4),
        }
    }

    /// Unlocks something, has the system discard what it may, and may ask for something to be made anew.
    fn let_go(&mut self, alloc: Global, process: u16) -> Result<(), NoMemory> {
        self.on_selector(alloc, process, UNLOCK)?;
        self.discard()?;
        if self.dice.once_in(2) {
            self.realloc_seg(alloc, process)?;
        }
        Ok(())
    }

    fn act(&mut self, alloc: Global, process: u16) -> Result<(), NoMemory> {
        let k = self.dice.roll(240);
        if k < 80 {
            self.act_on_segment(alloc, process, k)
        } else if k < 115 {
            self.act_with_others(alloc, process, k)
        } else if k < 152 {
            self.act_on_more(alloc, process, k)
        } else if k < 176 {
            self.act_on_heap(alloc, process, k)
        } else if k < 190 {
            self.act_on_semaphore(alloc, process, k)
        } else {
            self.let_go(alloc, process)
        }
    }

    fn is_going(&self, process: u16) -> bool {
        self.world.lives(process) && self.len(process) < LONG
    }

    /// Writes the first bytes of something that a process holds to the console.
    fn show_place(&mut self, alloc: Global, process: u16, place: Place) -> Result<(), NoMemory> {
        self.call(
            alloc,
            process,
            WRITE,
            &[
                number(1),
                number(place.selector()),
                number(0),
                number(first_bytes(place.size)),
                number(0x17),
                number(0),
            ],
        )
    }

    /// Writes what the process holds but its code to the console.
    fn show(&mut self, alloc: Global, process: u16) -> Result<(), NoMemory> {
        for k in 0..self.holds(process) {
            if let Some(place) = self.held(process, k) {
                if place.index != 1 && !place.is_discarded && self.world.lives(process) {
                    self.show_place(alloc, process, place)?;
                }
            }
        }
        Ok(())
    }

    fn exit(&mut self, alloc: Global, process: u16) -> Result<(), NoMemory> {
        if !self.world.lives(process) {
            return Ok(());
        }
        let action = self.any_word(process);
        let code = self.any_register(process);
        self.call(alloc, process, EXIT, &[action, code])
    }

    /// The start of so many processes.
    fn start(&mut self, alloc: Global, processes: u16) -> Result<(), NoMemory> {
        self.add_input(alloc)?;
        for k in 0..processes {
            self.add_process(alloc, k.saturating_add(1))?;
        }
        Ok(())
    }

    /// So many calls, each of any process.
    fn act_often(&mut self, alloc: Global, calls: u32) -> Result<(), NoMemory> {
        for _ in 0..calls {
            let process = self.any_process().value;
            if self.is_going(process) {
                self.act(alloc, process)?;
            }
        }
        Ok(())
    }

    /// Has each process show what it holds, and end.
    fn end(&mut self, alloc: Global) -> Result<(), NoMemory> {
        for k in 0..self.processes() {
            let process = k.saturating_add(1);
            self.show(alloc, process)?;
            self.exit(alloc, process)?;
        }
        Ok(())
    }

    /// A start, calls of any process, and the end of each.
    fn fill(
        &mut self,
        alloc: Global,
        processes: u16,
        calls: u32,
        locks: bool,
    ) -> Result<(), NoMemory> {
        self.start(alloc, processes)?;
        self.act_often(alloc, calls)?;
        if locks && self.is_going(1) {
            self.lock_often(alloc, 1)?;
        }
        self.note()?;
        self.end(alloc)
    }
}

/// A sequence of so many calls for each of one to eight processes, of the world of which one call may be missing.
pub fn random_sequence(
    alloc: Global,
    seed: u32,
    calls: u32,
    misses: u32,
) -> Result<Sequence, NoMemory> {
    let processes = (seed % 8 + 1) as u16;
    let calls = calls.saturating_mul(u32::from(processes));
    let mut sequence = Sequence::new(alloc, seed, processes, misses)?;
    sequence.fill(alloc, processes, calls, seed == 0)?;
    Ok(sequence)
}
