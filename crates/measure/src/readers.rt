// The check of a module, its names, and the image of its segment, for so many records or names.
ghost use Rattle.std.specs.Prelude.{◌≡◌, length};

use o2_base::{Bytes, NoMemory};
use o2_image::{Module, Resolved};
use std::alloc::Global;

/// How often a module is read.
const ROUNDS: u64 = 10;

// The head of a library of one segment of 65,536 bytes at place 512 of the file, with records behind it. Its name table begins
// at its end.
static HEAD: [u8; 146] = [
    0x4d, 0x5a, 0x00, 0x00, 0x00, 0x00, 0x00, 0x00, 0x00, 0x00, 0x00, 0x00, 0x00, 0x00, 0x00, 0x00,
    0x00, 0x00, 0x00, 0x00, 0x00, 0x00, 0x00, 0x00, 0x00, 0x00, 0x00, 0x00, 0x00, 0x00, 0x00, 0x00,
    0x00, 0x00, 0x00, 0x00, 0x00, 0x00, 0x00, 0x00, 0x00, 0x00, 0x00, 0x00, 0x00, 0x00, 0x00, 0x00,
    0x00, 0x00, 0x00, 0x00, 0x00, 0x00, 0x00, 0x00, 0x00, 0x00, 0x00, 0x00, 0x40, 0x00, 0x00, 0x00,
    0x4e, 0x45, 0x00, 0x00, 0x4a, 0x00, 0x06, 0x00, 0x00, 0x00, 0x00, 0x00, 0x00, 0x80, 0x00, 0x00,
    0x00, 0x00, 0x00, 0x00, 0x00, 0x00, 0x00, 0x00, 0x00, 0x00, 0x00, 0x00, 0x01, 0x00, 0x01, 0x00,
    0x00, 0x00, 0x40, 0x00, 0x00, 0x00, 0x52, 0x00, 0x48, 0x00, 0x50, 0x00, 0x00, 0x00, 0x00, 0x00,
    0x00, 0x00, 0x09, 0x00, 0x00, 0x00, 0x01, 0x00, 0x00, 0x00, 0x00, 0x00, 0x00, 0x00, 0x00, 0x00,
    0x01, 0x00, 0x00, 0x00, 0x01, 0x01, 0x00, 0x00, 0x00, 0x00, 0x01, 0x01, 0x01, 0x00, 0x00, 0x00,
    0x01, 0x4d,
];

// Adds so many records behind the head of a file, each for the low byte at a place of its own.
fn add_records(file: &mut Vec<u8>, count: u16) -> Result<(), NoMemory> {
    file.extend_from_slice(&[1, 0x4d, 0, 0, 0])?;
    file.resize(512 + 65536, 0)?;
    file.extend_from_slice(&count.to_le_bytes())?;
    for place in 0..count {
        let [low, high] = place.to_le_bytes();
        file.extend_from_slice(&[0, 0, low, high, 1, 0, 0, 0])?;
    }
    Ok(())
}

/// Checks a module of so many records; how many were checked.
pub fn check_many(alloc: Global, count: u16) -> Result<u64, NoMemory> {
    let mut done: u64 = 0;
    for _ in 0..ROUNDS {
        let module = module_of(alloc, false, count)?;
        done = done.wrapping_add(u64::from(module.reloc_count()));
    }
    Ok(done)
}

// Writes the image of the only segment.
fn fill_once(module: &Module, targets: &Resolved, into: &mut [u8]) -> bool
    ensures { length into.new ≡ length into.old }
{
    if module.segment_count() != 1 || !module.is_resolved_by(targets) {
        return false;
    }
    module.fill(1, targets, into);
    true
}

/// Writes the image of a segment of so many records; how many patches were written.
pub fn fill_many(alloc: Global, count: u16) -> Result<u64, NoMemory> {
    let mut lists = Vec::new(alloc);
    lists.push(vec![in alloc; (7u16, 1u16); usize::from(count)]?)?;
    let mut into = vec![in alloc; 0u8; 65536]?;
    let module = module_of(alloc, false, count)?;
    let targets = Resolved::new(lists);
    let mut done: u64 = 0;
    for _ in 0..ROUNDS {
        if fill_once(&module, &targets, into.as_mut_slice()) {
            done = done.wrapping_add(u64::from(count));
        }
    }
    Ok(done)
}

// A byte of a name: no letter, so that no two names are the same.
fn mark(n: u16) -> u8 {
    (n % 61) as u8 + 1
}

// The name of a number below 226,981.
fn name_of(n: u16) -> [u8; 3] {
    [mark(n), mark(n / 61), mark(n / 3721)]
}

// Adds so many names of three bytes behind the head of a file.
fn add_names(file: &mut Vec<u8>, count: u16) -> Result<(), NoMemory> {
    // the segment has no records
    if let Some(high) = file.get_mut(133) {
        *high = 0;
    }
    file.extend_from_slice(&[1, 0x4d, 0, 0])?;
    for n in 0..count {
        let [a, b, c] = name_of(n);
        file.extend_from_slice(&[3, a, b, c, 1, 0])?;
    }
    file.push(0)?;
    if file.len() < 512 + 65536 {
        file.resize(512 + 65536, 0)?;
    }
    Ok(())
}

// A module of so many names, or of so many records.
fn module_of(alloc: Global, named: bool, count: u16) -> Result<Module, NoMemory> {
    let mut file = HEAD.to_vec(alloc)?;
    if named {
        add_names(&mut file, count)?;
    } else {
        add_records(&mut file, count)?;
    }
    if file.len() > 4_194_304 {
        return Err(NoMemory);
    }
    match Module::check(alloc, Bytes::new(file)) {
        Ok(module) => Ok(module),
        Err(_) => Err(NoMemory),
    }
}

/// Reads a module of so many names and looks each of them up; how many were found.
pub fn name_many(alloc: Global, count: u16) -> Result<u64, NoMemory> {
    let module = module_of(alloc, true, count)?;
    let mut done: u64 = 0;
    for n in 0..count {
        if module.names().ordinal(&name_of(n)) == Some(1) {
            done = done.wrapping_add(1);
        }
    }
    Ok(done)
}
