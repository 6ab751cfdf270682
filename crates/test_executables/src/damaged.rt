// Random executables with a record that leads nowhere: the first such record is told.
use crate::made::{Made, Placed, len_of, make, set_word, unmade};
use o2_base::{Bytes, Fail as ReadFail, ModuleFault, NoMemory};
use o2_image::Module;
use std::alloc::Global;
use test_fixtures::{Wrong, next, want};

// What is told of a record: its segment, with a place that it patches or with its number.
#[derive(Clone, Copy, PartialEq, Eq)]
enum Told {
    Place(u16, u16),
    Number(u16, u16),
}

// A word of a file changed: where it stands, what it becomes, and what is then told.
#[derive(Clone, Copy)]
struct Change {
    at: u32,
    word: u32,
    told: Told,
}

// A word of a record changed, by its place in the record, so that the record has no target.
fn untargeted(placed: &Placed, place: u32, word: u32) -> Option<Change> {
    Some(Change {
        at: placed.at.wrapping_add(place),
        word,
        told: Told::Number(placed.segment, placed.number),
    })
}

// A place outside the segment, or where the record before it patches.
fn misplaced(placed: &Placed, before: Option<Placed>) -> Option<Change> {
    if placed.reloc.flags & 3 == 3 {
        return None;
    }
    let place = match before {
        Some(other) if other.segment == placed.segment && other.reloc.flags & 3 != 3 => other
            .reloc
            .place,
        _ => 0xFFF0,
    };
    Some(Change {
        at: placed.at.wrapping_add(2),
        word: u32::from(place),
        told: Told::Place(placed.segment, place),
    })
}

// Another second word of a target, in a file of this length: no ordinal, or no name.
fn unnamed(placed: &Placed, len: u32) -> Option<Change> {
    match placed.reloc.flags & 3 {
        0 if placed.reloc.first % 256 == 255 => untargeted(placed, 6, 4),
        2 => untargeted(placed, 6, len.wrapping_sub(200)),
        _ => None,
    }
}

// A word of a record changed so that it leads nowhere, in a file of this length; none where it can't be changed so.
fn damaged(placed: &Placed, before: Option<Placed>, place: u32, len: u32) -> Option<Change> {
    match place {
        0 => untargeted(placed, 0, u32::from(placed.reloc.flags) % 256 * 256 + 4),
        2 => misplaced(placed, before),
        4 if placed.reloc.flags & 3 != 3 => untargeted(placed, 4, 0),
        6 => unnamed(placed, len),
        _ => None,
    }
}

// What is told of a file's record; none where it passes its checks, or something else is told.
fn told_of(alloc: Global, file: Vec<u8>) -> Option<Told> {
    if file.len() > 4_194_304 {
        return None;
    }
    match Module::check(alloc, Bytes::new(file)) {
        Err(ReadFail::Bad(ModuleFault::BadChain(segment, place))) => {
            Some(Told::Place(segment, place))
        }
        Err(ReadFail::Bad(ModuleFault::BadTarget(segment, number))) => {
            Some(Told::Number(segment, number))
        }
        _ => None,
    }
}

// Whether a file with a word changed is refused as it must be.
fn is_told(alloc: Global, file: &Vec<u8>, change: Change) -> Result<bool, NoMemory> {
    let mut file = file.clone()?;
    set_word(&mut file, change.at, change.word);
    Ok(told_of(alloc, file) == Some(change.told))
}

// How many changes there are of a record, and how many are told as they must be.
fn told_record(
    alloc: Global,
    file: &Vec<u8>,
    placed: &Placed,
    before: Option<Placed>,
) -> Result<(u32, u32), NoMemory> {
    let mut all = 0u32;
    let mut right = 0u32;
    for place in [0u32, 2, 4, 6] {
        if let Some(change) = damaged(placed, before, place, len_of(file)) {
            all = all.wrapping_add(1);
            if is_told(alloc, file, change)? {
                right = right.wrapping_add(1);
            }
        }
    }
    Ok((all, right))
}

// The same of all records of a file.
fn told_records(alloc: Global, made: &Made) -> Result<(u32, u32), NoMemory> {
    let mut counts = (0u32, 0u32);
    let mut before = None;
    for placed in made.records.as_slice() {
        let (all, right) = told_record(alloc, &made.file, placed, before)?;
        counts = (counts.0.wrapping_add(all), counts.1.wrapping_add(right));
        before = Some(*placed);
    }
    Ok(counts)
}

// The same of so many files.
fn told_files(alloc: Global, made: &mut Made, count: u32) -> Result<(u32, u32), NoMemory> {
    let mut counts = (0u32, 0u32);
    for n in 0..count {
        make(made, next(n.wrapping_mul(51_031)))?;
        let (all, right) = told_records(alloc, made)?;
        counts = (counts.0.wrapping_add(all), counts.1.wrapping_add(right));
    }
    Ok(counts)
}

// The same of 12 files.
fn told_all(alloc: Global) -> Result<(u32, u32), NoMemory> {
    let mut made = unmade(alloc);
    told_files(alloc, &mut made, 12)
}

pub fn each_record_that_leads_nowhere_is_told(alloc: Global) -> Result<(), Wrong> {
    let (all, right) = told_all(alloc)?;
    want(all > 100 && right == all, 0)?;
    Ok(())
}
