// The forms in memory and the adapters over the standard library's readers and writers.

use crate::blocks::are_all;
use o2_base::NoMemory;
use o2_outer::{Dev, MemSwap, Put, Sink, Source, StreamSink, StreamSource, SwapDevice, Took};
use std::alloc::Global;
use std::io;
use std::io::{Read, Write};
use test_fixtures::{Wrong, want};

/// A writer of five bytes that takes one at a time, fails at one write, and takes nothing at all once it is full.
#[derive(Drop)]
struct Narrow {
    bytes: [u8; 5],
    len: usize,
    writes: usize,
    fails: usize,
}

impl Narrow {
    /// Whether it has taken these bytes.
    fn holds(&self, bytes: &[u8]) -> bool {
        self.len == bytes.len() && self.bytes.starts_with(bytes)
    }
}

impl Write for Narrow {
    fn write(&mut self, buf: &[u8]) -> io::Result<usize> {
        self.writes = self.writes.saturating_add(1);
        if self.writes == self.fails {
            return Err(io::Error::from(io::ErrorKind::BrokenPipe));
        }
        match (buf.first(), self.bytes.get_mut(self.len)) {
            (Some(byte), Some(place)) => {
                *place = *byte;
                self.len = self.len.saturating_add(1);
                Ok(1)
            }
            _ => Ok(0),
        }
    }

    fn flush(&mut self) -> io::Result<()> {
        Ok(())
    }
}

/// Whether a sink of five bytes takes a piece whole, nothing of an empty one, and of the next one what it has room for.
fn takes_five(sink: &mut StreamSink<Narrow>, first: &[u8], five: &[u8]) -> bool {
    let puts = [sink.put(first), sink.put(b""), sink.put(b"def")];
    puts == [Put::Done, Put::Done, Put::Failed] && sink.stream().holds(five)
}

/// Whether a sink fails at a piece of which it has this front then, and takes the next one whole.
fn holds_front(sink: &mut StreamSink<Narrow>, front: &[u8], both: &[u8]) -> bool {
    let failed = sink.put(b"abc") == Put::Failed;
    let held = sink.stream().holds(front);
    let done = sink.put(b"de") == Put::Done;
    failed && held && done && sink.stream().holds(both)
}

/// Writes that fail, or none, and what a sink has taken of its first piece then, and behind the last one.
static FRONTS: [(usize, &str, &str); 4] = [
    (0, "abc", "abcde"),
    (1, "", "de"),
    (2, "a", "ade"),
    (3, "ab", "abde"),
];

/// Whether a new sink over a writer that fails at this write, or at none, has taken that. Where none fails, it has room for five bytes alone.
fn has_taken(fails: usize, front: &str, both: &str) -> bool {
    let mut sink = StreamSink::new(Narrow {
        bytes: [0; 5],
        len: 0,
        writes: 0,
        fails,
    });
    if fails == 0 {
        takes_five(&mut sink, front.as_bytes(), both.as_bytes())
    } else {
        holds_front(&mut sink, front.as_bytes(), both.as_bytes())
    }
}

pub fn a_sink_writes_byte_by_byte_and_holds_what_was_taken_before_it_fails() -> Result<(), Wrong> {
    for (row, (fails, front, both)) in FRONTS.iter().enumerate() {
        want(has_taken(*fails, front, both), row)?;
    }
    Ok(())
}

/// What a call of a device does to its block.
#[derive(Clone, Copy)]
enum Act {
    Read,
    Write,
}

/// Calls of a device whose third call and third write fail: the block, the byte that it holds everywhere, and what the call comes to.
static CALLS: [(Act, u32, u8, Dev); 7] = [
    (Act::Write, 1, 7, Dev::Done),
    (Act::Read, 0, 0, Dev::Done),
    (Act::Read, 1, 7, Dev::Failed),
    (Act::Read, 1, 7, Dev::Done),
    (Act::Write, 0, 7, Dev::Done),
    (Act::Write, 0, 7, Dev::Failed),
    (Act::Write, 0, 7, Dev::Done),
];

/// Whether a read comes to this, and where it is done gives a block of this byte.
fn is_read(swap: &mut MemSwap, block: u32, byte: u8, answer: Dev) -> bool {
    let mut bytes = [!byte; 512];
    block < swap.count()
        && swap.read(block, &mut bytes) == answer
        && (answer == Dev::Failed || are_all(&bytes, byte))
}

/// Whether a write of a block of this byte comes to this.
fn is_written(swap: &mut MemSwap, block: u32, byte: u8, answer: Dev) -> bool {
    block < swap.count() && swap.write(block, &[byte; 512]) == answer
}

/// Whether each call comes to what it must, and the device has counted them.
fn is_as_told(swap: &mut MemSwap) -> bool {
    for (act, block, byte, answer) in CALLS.iter() {
        let is_right = match act {
            Act::Read => is_read(swap, *block, *byte, *answer),
            Act::Write => is_written(swap, *block, *byte, *answer),
        };
        if !is_right {
            return false;
        }
    }
    (swap.writes(), swap.faults()) == (3, 2)
}

pub fn a_device_fails_at_its_calls_and_at_one_write(alloc: Global) -> Result<(), Wrong> {
    let mut swap = MemSwap::new(alloc, 2, vec![in alloc; 3]?)?;
    swap.fail_write(3);
    want(is_as_told(&mut swap), 0)
}

/// A reader of `abcdefg` that gives one byte at a time, fails at one read, and gives nothing at another.
#[derive(Drop)]
struct Halting {
    at: usize,
    reads: usize,
    fails: usize,
    pauses: usize,
}

impl Read for Halting {
    fn read(&mut self, buf: &mut [u8]) -> io::Result<usize> {
        self.reads = self.reads.saturating_add(1);
        if self.reads == self.fails {
            return Err(io::Error::from(io::ErrorKind::BrokenPipe));
        }
        if buf.is_empty() || self.reads == self.pauses {
            return Ok(0);
        }
        match b"abcdefg".get(self.at) {
            None => Ok(0),
            Some(byte) => {
                buf[0] = *byte;
                self.at = self.at.saturating_add(1);
                Ok(1)
            }
        }
    }
}

/// Whether a take that fails loses nothing of seven bytes.
fn gives_later(source: &mut StreamSource<Halting>) -> bool {
    let mut two = [0u8; 2];
    let mut five = [0u8; 5];
    let takes = [
        source.take(&mut [0u8; 5]),
        source.take(&mut two),
        source.take(&mut five),
        source.take(&mut [0u8; 5]),
    ];
    takes == [Took::Failed, Took::Done(2), Took::Done(5), Took::Done(0)]
        && two == *b"ab"
        && five == *b"cdefg"
}

/// Whether a source has these bytes left, which are fewer than wanted, and then none.
fn gives(source: &mut StreamSource<Halting>, into: &mut [u8], bytes: &[u8]) -> bool {
    let takes = [source.take(into), source.take(&mut [0u8; 5])];
    takes == [Took::Done(bytes.len()), Took::Done(0)] && into.starts_with(bytes)
}

/// Whether a source whose reader gives a byte and then fails gives that byte at once, and fails where it's asked for more.
fn gives_at_once(source: &mut StreamSource<Halting>) -> bool {
    let mut one = [0u8; 1];
    source.take(&mut one) == Took::Done(1) && one == *b"a" && source.take(&mut one) == Took::Failed
}

/// Whether a source over a reader that fails at this read loses nothing then, and where it fails at none ends early at its end alone:
/// behind all bytes, or behind two where the third read gives nothing. One that is asked for a byte reads no more than that.
fn is_right(alloc: Global, fails: usize, pauses: usize, is_one: bool) -> Result<bool, NoMemory> {
    let reader = Halting {
        at: 0,
        reads: 0,
        fails,
        pauses,
    };
    let mut source = StreamSource::new(alloc, reader)?;
    Ok(match (fails, pauses, is_one) {
        (_, _, true) => gives_at_once(&mut source),
        (0, 0, _) => gives(&mut source, &mut [0u8; 9], b"abcdefg"),
        (0, _, _) => gives(&mut source, &mut [0u8; 5], b"ab"),
        _ => gives_later(&mut source),
    })
}

/// Reads that fail, and reads that give nothing; and whether a byte alone is asked for.
static HALTS: [(usize, usize, bool); 8] = [
    (1, 0, false),
    (2, 0, false),
    (3, 0, false),
    (4, 0, false),
    (5, 0, false),
    (0, 0, false),
    (0, 3, false),
    (2, 0, true),
];

pub fn a_source_gives_later_what_was_before_an_error_and_reads_no_more(
    alloc: Global,
) -> Result<(), Wrong> {
    for (row, (fails, pauses, is_one)) in HALTS.iter().enumerate() {
        want(is_right(alloc, *fails, *pauses, *is_one)?, row)?;
    }
    Ok(())
}
