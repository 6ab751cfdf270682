// The reader of a core image.
ghost use Rattle.std.specs.Prelude.{◌≡◌, ◌+◌, ◌≤◌, ◌<◌, length, IfOk, OnOk};
ghost use Rattle.o2_ne.specs.Checks.{all_hold};
ghost use Rattle.o2_ne.specs.Steps.{Gives};
ghost use Rattle.o2_dump.specs.Readings.{processes_so_far, segments_so_far};
ghost use Rattle.o2_dump.specs.CoreImage.{begins_as, core_of, end_checks, fields_of, has_end, head_checks, is_marked, processes_of, segment_bytes, segments_of};

use crate::content::bytes_of;
use crate::fault::CoreFault;
use crate::fields::{need, u64_at};
use crate::found::Found;
use crate::parts::{Processes, Segments};
use crate::processes::ProcessReading;
use crate::segments::SegmentReading;
use o2_base::{Bytes, Fail, NoMemory};
use o2_ne::u32_at;
use std::alloc::Global;

/// What a core image tells of a machine.
#[derive(Debug, Drop)]
pub struct Core {
    /// The bytes of the memory.
    pub memory: Bytes,
    /// How many blocks of 512 bytes the swap device has for the machine.
    pub blocks: u32,
    /// How many steps were done.
    pub steps: u64,
    /// How many bytes the programs wrote to the console.
    pub console: u64,
    /// The segments, by their numbers from 0.
    pub segments: Segments,
    /// The processes, by rising number.
    pub processes: Processes,
}

// Whether the first eight bytes of a file are those of a mark, as far as it has them.
fn is_marked(file: &[u8]) -> bool
    ensures { result ≡ is_marked file.now }
{
    begins_as(b"OS2CORE1", file) || begins_as(b"OS2CORE2", file)
}

// Whether they are those of this mark.
fn begins_as(mark: &[u8; 8], file: &[u8]) -> bool
    ensures { result ≡ begins_as mark.now file.now }
{
    let told = file.len().min(8);
    let front = &file[..told];
    front == &mark[..told]
}

// How long the fields of a segment's entry are, in a file with a head.
fn fields_of(file: &[u8]) -> usize
    requires { 40 ≤ length file.now }
    ensures fields { result ≡ fields_of file.now }
    ensures few { (12 ≤ result) × (result ≤ 13) }
{
    if file[7] == b'2' { 13 } else { 12 }
}

// Whether a file begins as a core image and has a head.
fn check_head(file: &[u8]) -> Result<(), CoreFault>
    ensures exact { result ≡ all_hold (head_checks file.now) }
    ensures inside { OnOk result (40 ≤ length file.now) }
{
    if !is_marked(file) {
        return Err(CoreFault::NotCore);
    }
    need(file, 0, 40)?;
    Ok(())
}

// The segments of a file with a head.
fn segments_of(alloc: Global, file: &[u8]) -> Result<SegmentReading, Fail<CoreFault>>
    requires head { 40 ≤ length file.now }
    ensures exact { Gives (λ r. segments_so_far r) result (segments_of file.now) }
    ensures inside { IfOk result (λ r. r.place ≤ length file.now) }
{
    let reading = SegmentReading {
        found: Found::new(alloc),
        place: 40,
    };
    reading.all(
        alloc,
        file,
        fields_of(file),
        u32_at(file, 8),
        u32_at(file, 12),
        u32_at(file, 16),
    )
}

// The processes whose entries begin at a place.
fn processes_of(alloc: Global, file: &[u8], at: usize) -> Result<ProcessReading, Fail<CoreFault>>
    requires head { 40 ≤ length file.now }
    requires place { at ≤ length file.now }
    ensures exact { Gives (λ r. processes_so_far r) result (processes_of file.now at) }
    ensures inside { IfOk result (λ r. r.place ≤ length file.now) }
{
    let mut reading = ProcessReading {
        found: Vec::new(alloc),
        least: 0,
        place: at,
    };
    reading.all(alloc, file, u32_at(file, 16), u32_at(file, 20))?;
    Ok(reading)
}

// Whether the end mark stands at a place.
fn has_end(file: &[u8], at: usize) -> bool
    requires { at + 4 ≤ length file.now }
    ensures { result ≡ has_end file.now at }
{
    let mark = &file[at..at + 4];
    mark == b"END!".as_slice()
}

// Whether the file ends at a place, with the end mark.
fn check_end(file: &[u8], at: usize) -> Result<(), CoreFault>
    requires place { at ≤ length file.now }
    ensures { result ≡ all_hold (end_checks file.now at) }
{
    need(file, at, 4)?;
    if !has_end(file, at) {
        return Err(CoreFault::BadEntry(at as u64));
    }
    if file.len() != at + 4 {
        return Err(CoreFault::TooLong(at as u64 + 4));
    }
    Ok(())
}

impl Core {
    /// What a core image tells, or the fault of the first of its bytes that can't be.
    #[tactic(auto, unfolding(crate::specs::CoreImage::core_of))]
    pub fn read(alloc: Global, file: &[u8]) -> Result<Core, Fail<CoreFault>>
        ensures exact { Gives (λ c. c) result (core_of file.now) }
    {
        check_head(file)?;
        let SegmentReading { found, place } = segments_of(alloc, file)?;
        let memory = u32_at(file, 8) as usize;
        need(file, place, memory)?;
        let behind = place + memory;
        let ProcessReading {
            found: processes,
            place: end,
            ..
        } = processes_of(alloc, file, behind)?;
        check_end(file, end)?;
        Ok(Core {
            memory: Bytes::from_slice(alloc, &file[place..behind])?,
            blocks: u32_at(file, 12),
            steps: u64_at(file, 24),
            console: u64_at(file, 32),
            segments: Segments::new(found.into_vec()),
            processes: Processes::new(processes),
        })
    }

    /// The bytes of a segment by its number from 0, with zeros for those that stay with an image. None exactly past the last.
    pub fn segment(&self, alloc: Global, number: u32) -> Result<Option<Bytes>, NoMemory>
        ensures { IfOk result (λ b. b ≡ segment_bytes self.now number) }
    {
        match self.segments.as_slice().get(number as usize) {
            Some(entry) => {
                let bytes = bytes_of(alloc, self.memory.as_slice(), entry)?;
                Ok(Some(Bytes::new(bytes)))
            }
            None => Ok(None),
        }
    }
}
