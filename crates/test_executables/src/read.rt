// Whether random executables are read as they were written.
use crate::image::{is_text, module_in};
use crate::made::{CALLED, ENTRIES, Made, Named, make, unmade};
use o2_base::NoMemory;
use o2_image::Module;
use std::alloc::Global;
use test_fixtures::{Wrong, next, want};

fn has_segments(module: &Module, made: &Made) -> bool {
    let mut number = 0u16;
    for segment in made.segments.as_slice() {
        number = number.wrapping_add(1);
        if module.segment(number) != Some(*segment) {
            return false;
        }
    }
    module.segment_count() == number && module.segment(0).is_none()
}

fn has_records(module: &Module, made: &Made) -> bool {
    for placed in made.records.as_slice() {
        if module.reloc(placed.segment, placed.number) != Some(placed.reloc) {
            return false;
        }
    }
    module.reloc_count() as usize == made.records.len()
}

// Whether names are found as they stand in these bytes.
fn are_found(module: &Module, names: &[Named], bytes: &[u8]) -> bool {
    for named in names {
        let Some(text) = bytes.get(named.at..named.at.wrapping_add(named.len)) else {
            return false;
        };
        if module.names().ordinal(text) != Some(named.ordinal) {
            return false;
        }
    }
    true
}

fn has_names(module: &Module, made: &Made) -> bool {
    are_found(module, made.names.as_slice(), made.file.as_slice())
        && module.names().ordinal(b"?").is_none()
        && module.name().as_slice() == b"MADE".as_slice()
}

// Whether the names are found in capital letters too.
fn has_capitals(alloc: Global, module: &Module, made: &Made) -> Result<bool, NoMemory> {
    let bytes = made.file.as_slice().to_ascii_uppercase(alloc)?;
    Ok(are_found(module, made.names.as_slice(), bytes.as_slice()))
}

// The text of a name by its offset among the imported ones.
fn called(at: u16) -> &'static str {
    for (offset, text) in CALLED {
        if offset == at {
            return text;
        }
    }
    ""
}

fn has_references(module: &Module, made: &Made) -> bool {
    let mut k = 0u16;
    for at in made.references.as_slice() {
        k = k.wrapping_add(1);
        if !is_text(module.reference(k), called(*at).as_bytes()) {
            return false;
        }
    }
    module.reference(0).is_none() && module.reference(k.wrapping_add(1)).is_none()
}

fn has_entries(module: &Module) -> bool {
    for (ordinal, segment, offset) in ENTRIES {
        if module.entries().get(ordinal) != Some((segment, offset)) {
            return false;
        }
    }
    for other in [0u16, 3, 4, 7, 259, 261] {
        if module.entries().get(other).is_some() {
            return false;
        }
    }
    module.entry_count() == 5
}

// Whether a module is what was made.
fn is_as_made(alloc: Global, module: &Module, made: &Made) -> Result<bool, NoMemory> {
    let is_so = has_segments(module, made)
        && has_records(module, made)
        && has_references(module, made)
        && has_entries(module)
        && has_names(module, made);
    Ok(is_so && has_capitals(alloc, module, made)?)
}

// Whether a file is read as it was made.
fn is_read(alloc: Global, made: &Made) -> Result<bool, NoMemory> {
    match module_in(alloc, made.file.clone()?) {
        Some(module) => is_as_made(alloc, &module, made),
        None => Ok(false),
    }
}

// How many files are read as they were made.
fn read_files(alloc: Global, made: &mut Made, count: u32) -> Result<u32, NoMemory> {
    let mut read = 0u32;
    for n in 0..count {
        make(made, next(n.wrapping_mul(86_243)))?;
        if is_read(alloc, made)? {
            read = read.wrapping_add(1);
        }
    }
    Ok(read)
}

// The same of 60 files.
fn read_all(alloc: Global) -> Result<u32, NoMemory> {
    let mut made = unmade(alloc);
    read_files(alloc, &mut made, 60)
}

pub fn random_files_are_read_as_they_were_written(alloc: Global) -> Result<(), Wrong> {
    want(read_all(alloc)? == 60, 0)?;
    Ok(())
}
