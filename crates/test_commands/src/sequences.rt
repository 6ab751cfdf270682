// Sequences of calls at random, of one to eight processes: the program's texts must be those that the calls come to in the world of the boundless
// machine, in ample memory and in the least, and their lines must tell what is held behind the calls.

use crate::outside::{Outside, words_in};
use o2_base::{Bytes, NoMemory};
use o2_cli::number;
use o2_outer::{MemFiles, MemSink, MemSource, MemSwap};
use std::alloc::Global;
use test_fixtures::Files;
use test_sequences::{Sequence, add_files, is_told, random_sequence, write_report};

/// A memory for 32 segments of 65,536 bytes, in paragraphs of 16: more than a step names and all that processes can lock.
const AMPLE: u32 = 131_072;

/// Blocks for all segments that may live.
const BLOCKS: u32 = 4608;

/// What a run goes to, with these files.
fn outside(alloc: Global, files: Files, input: &[u8]) -> Result<Outside, NoMemory> {
    let input = Bytes::from_slice(alloc, input)?;
    let console = MemSink::new(alloc, 4_194_304, Vec::new(alloc))?;
    let report = MemSink::new(alloc, 1_048_576, Vec::new(alloc))?;
    Ok(Outside {
        files: MemFiles::new(files, Vec::new(alloc)),
        input: MemSource::new(input, Vec::new(alloc)),
        console,
        report,
    })
}

/// The status of `run m`.
fn run(alloc: Global, outside: &mut Outside) -> Result<u8, NoMemory> {
    let words = words_in(alloc, "run,m")?;
    let mut swap = MemSwap::new(alloc, BLOCKS, Vec::new(alloc))?;
    let status = outside.run(alloc, words.as_slice(), &mut swap);
    Ok(number(&status))
}

/// How a run came out against the world of its sequence.
#[derive(Clone, Copy)]
enum Outcome {
    /// At its end, with both texts.
    Whole,
    /// It stopped for want of room, with fronts of both texts.
    Front,
    Wrong,
}

/// Whether these are front lines of a report, and then the line of a stop for want of room.
fn is_front(taken: &[u8], report: &[u8]) -> bool {
    match taken.strip_suffix(b"stop room\n") {
        Some(lines) => report.starts_with(lines),
        None => false,
    }
}

/// The outcome of a run that came to this status, console and report.
fn outcome_of(status: u8, outside: &Outside, console: &[u8], report: &[u8]) -> Outcome {
    let shown = outside.console.taken();
    let told = outside.report.taken();
    if status == 0 && shown == console && told == report {
        return Outcome::Whole;
    }
    if status == 8 && console.starts_with(shown) && is_front(told, report) {
        return Outcome::Front;
    }
    Outcome::Wrong
}

/// The outcome of a run in a memory of so many paragraphs of 16 bytes, where the whole report is this.
fn outcome_in(
    alloc: Global,
    sequence: &Sequence,
    report: &[u8],
    memory: u32,
) -> Result<Outcome, NoMemory> {
    let mut files = Vec::new(alloc);
    add_files(alloc, &mut files, sequence, memory.saturating_mul(16))?;
    let mut outside = outside(alloc, files, &sequence.input)?;
    let status = run(alloc, &mut outside)?;
    let console = sequence.world.console.as_slice();
    Ok(outcome_of(status, &outside, console, report))
}

/// Whether runs come to the report or to a front of it, each in a memory in the middle between one that was too small and one that wasn't. The
/// last two of these differ by a paragraph.
fn narrows(alloc: Global, sequence: &Sequence, report: &[u8]) -> Result<bool, NoMemory> {
    let mut small = 255u32;
    let mut large = AMPLE;
    for _ in 0..17 {
        let middle = small / 2 + large / 2 + (small % 2 + large % 2) / 2;
        match outcome_in(alloc, sequence, report, middle)? {
            Outcome::Whole => large = middle,
            Outcome::Front => small = middle,
            Outcome::Wrong => return Ok(false),
        }
    }
    Ok(true)
}

/// Whether the program comes to its report in ample memory, and in the least.
fn comes_to(alloc: Global, sequence: &Sequence, report: &[u8]) -> Result<bool, NoMemory> {
    match outcome_in(alloc, sequence, report, AMPLE)? {
        Outcome::Whole => narrows(alloc, sequence, report),
        _ => Ok(false),
    }
}

/// Whether the lines of a sequence tell what is held behind its calls, and the program comes to what they come to, in ample memory and in the least,
/// or to something else if that is wanted.
fn shows(alloc: Global, sequence: &Sequence, wanted: bool) -> Result<bool, NoMemory> {
    let mut report = Vec::new(alloc);
    write_report(&mut report, sequence)?;
    let comes = comes_to(alloc, sequence, &report)?;
    Ok(is_told(sequence, &report) && comes == wanted)
}

/// Whether that is so of a sequence at random of so many calls for each process, of which the world misses each of the given number; 0 is none, and
/// then the program must come to what the calls come to, else to something else.
pub fn is_shown(alloc: Global, seed: u32, calls: u32, misses: u32) -> Result<bool, NoMemory> {
    let sequence = random_sequence(alloc, seed, calls, misses)?;
    shows(alloc, &sequence, misses == 0)
}
