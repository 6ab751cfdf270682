use o2_ne::{Entries, Head, Names, NeFault, NoMemory};
use std::alloc::Global;
use test_fixtures::{Wrong, want};

pub mod random;

// A header at place 64, with so many bytes of entries at place 128 and the resident names behind them.
fn with_tables(alloc: Global, entries: &[u8], names: &[u8]) -> Result<Vec<u8>, NoMemory> {
    let mut file = vec![in alloc; 0u8; 128]?;
    file[0] = b'M';
    file[1] = b'Z';
    file[60] = 64;
    file[64] = b'N';
    file[65] = b'E';
    file[68] = 64;
    file[70] = (entries.len() % 256) as u8;
    file[92] = 2;
    file[102] = ((64 + entries.len() % 128) % 256) as u8;
    file[118] = 1;
    file.extend_from_slice(entries)?;
    file.extend_from_slice(names)?;
    Ok(file)
}

// The entries in a table.
fn entries_in(alloc: Global, table: &[u8]) -> Option<Entries> {
    let Ok(file) = with_tables(alloc, table, b"") else {
        return None;
    };
    if file.len() > 4_194_304 {
        return None;
    }
    let Ok(head) = Head::read(file.as_slice()) else {
        return None;
    };
    match Entries::read(alloc, file.as_slice(), &head) {
        Ok(entries) => Some(entries),
        Err(_) => None,
    }
}

// The names in a table.
fn names_in(alloc: Global, table: &[u8]) -> Option<Names> {
    let Ok(file) = with_tables(alloc, b"", table) else {
        return None;
    };
    if file.len() > 4_194_304 {
        return None;
    }
    let Ok(head) = Head::read(file.as_slice()) else {
        return None;
    };
    match Names::read(alloc, file.as_slice(), &head) {
        Ok(names) => Some(names),
        Err(_) => None,
    }
}

// Whether an ordinal is there, and is this one.
fn is_ordinal(found: Option<u16>, wanted: u16) -> bool {
    match found {
        Some(ordinal) => ordinal == wanted,
        None => false,
    }
}

// Two ordinals that aren't defined, then one in segment 2 at 0010h.
fn skips_two(entries: &Entries) -> bool {
    entries.len() == 1
        && entries.get(1).is_none()
        && entries.get(2).is_none()
        && random::is_entry(entries.get(3), 2, 16)
}

pub fn skipped_ordinals_are_not_defined(alloc: Global) -> Result<(), Wrong> {
    let table = [2, 0, 1, 0xFF, 3, 0xCD, 0x3F, 2, 0x10, 0, 0];
    match entries_in(alloc, &table) {
        Some(entries) => want(skips_two(&entries), 0)?,
        None => return Err(Wrong::Row(1)),
    }
    Ok(())
}

pub fn the_first_missing_byte_is_told(alloc: Global) -> Result<(), Wrong> {
    let mut file = vec![in alloc; 0u8; 64]?;
    file[0] = b'M';
    file[1] = b'Z';
    file[61] = 1;
    want(
        Head::read(file.as_slice()) == Err(NeFault::Truncated(256)),
        0,
    )?;
    Ok(())
}

// A table of resident names: the module's own, then one that it exports, with the module's name again.
fn has_names_of_foo(names: &Names) -> bool {
    names.module().as_slice() == b"FOO".as_slice()
        && is_ordinal(names.ordinal(b"Foo"), 1)
        && is_ordinal(names.ordinal(b"HELLO"), 2)
        && names.ordinal(b"HELL").is_none()
}

pub fn names_are_folded_and_the_first_counts(alloc: Global) -> Result<(), Wrong> {
    match names_in(
        alloc,
        b"\x03FOO\x00\x00\x03foo\x01\x00\x05hello\x02\x00\x00",
    ) {
        Some(names) => want(has_names_of_foo(&names), 0)?,
        None => return Err(Wrong::Row(1)),
    }
    Ok(())
}

// Names that differ only in case, or by 20h in what isn't a letter.
static ALIKE: &str =
    "\x03FOO\x00\x00\x02ab\x05\x00\x02{z\x06\x00\x02AB\x07\x00\x02[Z\x08\x00\x01b\x09\x00\x02aB\x0A\x00\x03abc\x0B\x00\x01B\x0C\x00\x00";

fn has_first_alike(names: &Names) -> bool {
    is_ordinal(names.ordinal(b"Ab"), 5)
        && is_ordinal(names.ordinal(b"{Z"), 6)
        && is_ordinal(names.ordinal(b"[z"), 8)
        && is_ordinal(names.ordinal(b"B"), 9)
        && is_ordinal(names.ordinal(b"ABC"), 11)
        && names.ordinal(b"A").is_none()
        && names.ordinal(b"").is_none()
}

pub fn the_first_of_like_names_counts(alloc: Global) -> Result<(), Wrong> {
    match names_in(alloc, ALIKE.as_bytes()) {
        Some(names) => want(has_first_alike(&names), 0)?,
        None => return Err(Wrong::Row(1)),
    }
    Ok(())
}
