// Rows and records by hand: lengths and sizes of 0, and records behind the bytes of a segment.
use o2_ne_segs::{Kind, Reloc, Relocs, SegTable, Segment};
use random::table_in;
use std::alloc::Global;
use test_fixtures::{Wrong, want};

pub mod random;

// Two rows: position 5 and length 0, then position 0 and length 0; both have minimum allocation 0.
static ROWS: [u8; 16] = [5, 0, 0, 0, 0, 1, 0, 0, 0, 0, 0, 0, 1, 0, 0, 0];

// What they are read as, with a shift of 4.
const FIRST: Segment = Segment {
    file_at: 80,
    file_len: 65_536,
    size: 65_536,
    kind: Kind::Code,
    relocs: true,
    flags: 0x100,
};

const SECOND: Segment = Segment {
    file_at: 0,
    file_len: 0,
    size: 65_536,
    kind: Kind::Writable,
    relocs: false,
    flags: 1,
};

fn has_both(table: &SegTable) -> bool {
    let found = [table.get(0), table.get(1), table.get(2), table.get(3)];
    found == [None, Some(FIRST), Some(SECOND), None]
}

pub fn lengths_of_zero(alloc: Global) -> Result<(), Wrong> {
    let mut file = ROWS.to_vec(alloc)?;
    file.resize(70_000, 1)?;
    match table_in(alloc, file.as_slice(), 2, 4) {
        Ok(table) => want(has_both(&table), 0)?,
        Err(_) => return Err(Wrong::Row(1)),
    }
    Ok(())
}

// A record to the 138th entry of the first reference.
const RECORD: Reloc = Reloc {
    source: 3,
    flags: 1,
    place: 12,
    first: 1,
    second: 138,
};

// Whether this record alone stands behind the bytes of a segment.
fn has_record(alloc: Global, file: &[u8], segment: &Segment) -> bool {
    let end = segment.file_at as usize + segment.file_len as usize;
    if file.len() > 4_194_304 || end > file.len() {
        return false;
    }
    match Relocs::read(alloc, file, segment) {
        Ok(records) => [records.get(0), records.get(1)] == [Some(RECORD), None],
        Err(_) => false,
    }
}

// Whether the first segment lies from place 80 on, in three bytes with this record behind them.
fn has_first_record(alloc: Global, file: &[u8]) -> bool {
    let Ok(table) = table_in(alloc, file, 1, 4) else {
        return false;
    };
    match table.get(1) {
        Some(segment) => {
            segment.file_at == 80 && segment.file_len == 3 && has_record(alloc, file, &segment)
        }
        None => false,
    }
}

pub fn records_follow_the_bytes(alloc: Global) -> Result<(), Wrong> {
    let mut file = ROWS.to_vec(alloc)?;
    file[2] = 3;
    file.resize(83, 0)?;
    file.extend_from_slice(&[1, 0, 3, 1, 0x0C, 0, 1, 0, 138, 0])?;
    want(has_first_record(alloc, file.as_slice()), 0)?;
    Ok(())
}
