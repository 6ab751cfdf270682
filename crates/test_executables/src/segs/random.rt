// Random rows and records, written from what they must be read as.
use o2_base::NoMemory;
use o2_ne_segs::{Kind, Part, Reloc, Relocs, SegFault, SegTable, Segment};
use std::alloc::Global;
use test_fixtures::{Wrong, below, next, want};

// The sizes of units, each with the shift that stands for it.
static UNITS: [(u32, u16); 5] = [(512, 0), (2, 1), (16, 4), (512, 9), (1024, 10)];

// A kind and its bits in the flags word.
fn kind_of(seed: u32) -> (Kind, u16) {
    match below(seed, 4) {
        0 => (Kind::Code, 0),
        1 => (Kind::CodeOnly, 0x80),
        2 => (Kind::Writable, 1),
        _ => (Kind::ReadOnly, 0x81),
    }
}

// How many bytes a segment has in the file, and how many in all: the whole 65,536, as many, or more.
fn sizes_of(seed: u32) -> (u32, u32) {
    let len = below(seed, 500).wrapping_add(1);
    match below(next(seed), 4) {
        0 => (65_536, 65_536),
        1 => (len, 65_536),
        2 => (len, len),
        _ => (len, len.wrapping_add(below(seed, 300))),
    }
}

// A segment with bytes in the file from a multiple of so many bytes on, or with none. Its flags may have bits that say how it is
// loaded, and ring 3.
fn segment_of(seed: u32, unit: u32) -> Segment {
    let (kind, bits) = kind_of(seed);
    let (file_len, size) = sizes_of(next(seed));
    let place = below(next(next(seed)), 60).wrapping_add(1);
    let others = if below(seed, 3) == 0 { 0xC50 } else { 0 };
    let has_records = below(seed, 5) < 3;
    let is_there = below(seed, 7) != 0;
    Segment {
        file_at: if is_there {
            place.wrapping_mul(unit)
        } else {
            0
        },
        file_len: if is_there { file_len } else { 0 },
        size,
        kind,
        relocs: is_there && has_records,
        flags: bits | others | if has_records { 0x100 } else { 0 },
    }
}

// A number of two bytes; 65,536 is written as 0.
fn word(n: u32) -> [u8; 2] {
    ((n % 65_536) as u16).to_le_bytes()
}

// The row of a segment. One without bytes in the file has any length; a minimum below the bytes in the file adds none.
fn add_row(table: &mut Vec<u8>, segment: &Segment, unit: u32) -> Result<(), NoMemory> {
    let position = segment.file_at.checked_div(unit).unwrap_or(0);
    let len = if position == 0 { 77 } else { segment.file_len };
    let least = if segment.size == segment.file_len {
        1
    } else {
        segment.size
    };
    table.extend_from_slice(&word(position))?;
    table.extend_from_slice(&word(len))?;
    table.extend_from_slice(&segment.flags.to_le_bytes())?;
    table.extend_from_slice(&word(least))?;
    Ok(())
}

// So many random segments, in a list and as the table of a file in which all their bytes lie.
fn random_table(
    alloc: Global,
    first: u32,
    unit: u32,
    count: u32,
) -> Result<(Vec<Segment>, Vec<u8>), NoMemory> {
    let mut seed = first;
    let mut list = Vec::new(alloc);
    let mut file = Vec::new(alloc);
    for _ in 0..count {
        seed = next(seed);
        let segment = segment_of(seed, unit);
        add_row(&mut file, &segment, unit)?;
        list.push(segment)?;
    }
    file.resize(130_000, 7)?;
    Ok((list, file))
}

// The table at the beginning of a file, or its first fault.
pub fn table_in(alloc: Global, file: &[u8], count: u16, shift: u16) -> Result<SegTable, SegFault> {
    if file.len() > 4_194_304 || shift > 15 {
        return Err(SegFault::NoMemory);
    }
    SegTable::read(alloc, file, 0, count, shift)
}

// Whether a table has exactly these segments.
fn has_all(table: &SegTable, list: &[Segment]) -> bool {
    let mut number = 0u16;
    for segment in list {
        number = number.wrapping_add(1);
        if table.get(number) != Some(*segment) {
            return false;
        }
    }
    table.get(0).is_none() && table.get(number.wrapping_add(1)).is_none()
}

// How many tables of 30 segments are read as they were written.
fn read_tables(alloc: Global) -> Result<u32, NoMemory> {
    let mut count = 0u32;
    for (unit, shift) in UNITS {
        for seed in 0..6u32 {
            let (list, file) = random_table(alloc, seed.wrapping_mul(97_711), unit, 30)?;
            if let Ok(table) = table_in(alloc, file.as_slice(), 30, shift) {
                if has_all(&table, list.as_slice()) {
                    count = count.wrapping_add(1);
                }
            }
        }
    }
    Ok(count)
}

pub fn random_segments_are_read_as_they_were_written(alloc: Global) -> Result<(), Wrong> {
    want(read_tables(alloc)? == 30, 0)?;
    Ok(())
}

// Bits of the flags that aren't run here, in the order in which they are looked for, each with its name.
static REFUSED: [(u16, Part); 5] = [
    (8, Part::Iterated),
    (0x200, Part::Conforming),
    (0x400, Part::Ring),
    (0x800, Part::Ring),
    (0x2000, Part::Wide),
];

// Sets bits in the flags of a row, by its number from 0.
fn set_flags(file: &mut Vec<u8>, row: u32, bits: u16) {
    let [low, high] = bits.to_le_bytes();
    let at = row as usize * 8 + 4;
    if let Some(byte) = file.get_mut(at) {
        *byte |= low;
    }
    if let Some(byte) = file.get_mut(at + 1) {
        *byte = *byte & 0xF3 | high;
    }
}

// Whether a table is refused for this part.
fn is_refused(read: Result<SegTable, SegFault>, part: Part) -> bool {
    match read {
        Err(SegFault::OutOfProfile(found)) => found == part,
        _ => false,
    }
}

// How many tables are refused for the first bits of the first row that has such ones.
fn refused_tables(alloc: Global) -> Result<u32, NoMemory> {
    let mut count = 0u32;
    for (bits, part) in REFUSED {
        for seed in 0..6u32 {
            let (_, mut file) = random_table(alloc, next(seed), 16, 20)?;
            let row = below(next(next(seed)), 19);
            set_flags(&mut file, row, bits | 0x2000);
            set_flags(&mut file, row.wrapping_add(1), 8);
            if is_refused(table_in(alloc, file.as_slice(), 20, 4), part) {
                count = count.wrapping_add(1);
            }
        }
    }
    Ok(count)
}

pub fn the_first_bits_that_are_not_run_are_told(alloc: Global) -> Result<(), Wrong> {
    want(refused_tables(alloc)? == 30, 0)?;
    Ok(())
}

// A random record.
fn record_of(seed: u32) -> Reloc {
    let [source, flags] = word(below(seed, 65_536));
    Reloc {
        source,
        flags,
        place: (below(next(seed), 65_536) % 65_536) as u16,
        first: (below(next(next(seed)), 65_536) % 65_536) as u16,
        second: (below(seed.wrapping_mul(31), 65_536) % 65_536) as u16,
    }
}

// The eight bytes of a record.
fn add_record(file: &mut Vec<u8>, record: &Reloc) -> Result<(), NoMemory> {
    file.extend_from_slice(&[record.source, record.flags])?;
    for part in [record.place, record.first, record.second] {
        file.extend_from_slice(&part.to_le_bytes())?;
    }
    Ok(())
}

// So many random records, in a list and behind so many bytes of a file.
fn random_records(
    alloc: Global,
    front: usize,
    count: u16,
) -> Result<(Vec<Reloc>, Vec<u8>), NoMemory> {
    let mut seed = u32::from(count);
    let mut list = Vec::new(alloc);
    let mut file = vec![in alloc; 9u8; front]?;
    file.extend_from_slice(&count.to_le_bytes())?;
    for _ in 0..count {
        seed = next(seed);
        let record = record_of(seed);
        add_record(&mut file, &record)?;
        list.push(record)?;
    }
    Ok((list, file))
}

// A segment of 50 bytes from place 30 on, with records behind them.
static SEGMENT: Segment = Segment {
    file_at: 30,
    file_len: 50,
    size: 60,
    kind: Kind::Code,
    relocs: true,
    flags: 0x100,
};

// Its records in a file, or the first fault.
fn records_in(alloc: Global, file: &[u8]) -> Result<Relocs, SegFault> {
    if file.len() > 4_194_304 || file.len() < 80 {
        return Err(SegFault::NoMemory);
    }
    Relocs::read(alloc, file, &SEGMENT)
}

// Whether there are exactly these records.
fn are_all(records: &Relocs, list: &[Reloc]) -> bool {
    let mut k = 0u16;
    for record in list {
        if records.get(k) != Some(*record) {
            return false;
        }
        k = k.wrapping_add(1);
    }
    records.get(k).is_none()
}

// How many lists of records are read as they were written, with other bytes behind them.
fn read_records(alloc: Global) -> Result<u32, NoMemory> {
    let mut count = 0u32;
    for many in [0u16, 1, 2, 17, 300] {
        let (list, mut file) = random_records(alloc, 80, many)?;
        file.extend_from_slice(&[1, 2, 3])?;
        if let Ok(records) = records_in(alloc, file.as_slice()) {
            if are_all(&records, list.as_slice()) {
                count = count.wrapping_add(1);
            }
        }
    }
    Ok(count)
}

pub fn random_records_are_read_as_they_were_written(alloc: Global) -> Result<(), Wrong> {
    want(read_records(alloc)? == 5, 0)?;
    Ok(())
}

// Whether records are refused for this byte, the first that isn't there.
fn lacks(read: Result<Relocs, SegFault>, place: u32) -> bool {
    match read {
        Err(SegFault::Truncated(found)) => found == place,
        _ => false,
    }
}

// How many fronts of a file with three records are refused for the byte behind them.
fn cut_records(alloc: Global) -> Result<u32, NoMemory> {
    let mut count = 0u32;
    for len in 80..106u32 {
        let (_, mut file) = random_records(alloc, 80, 3)?;
        file.truncate(len as usize);
        if lacks(records_in(alloc, file.as_slice()), len) {
            count = count.wrapping_add(1);
        }
    }
    Ok(count)
}

pub fn the_first_byte_that_is_missing_of_records_is_told(alloc: Global) -> Result<(), Wrong> {
    want(cut_records(alloc)? == 26, 0)?;
    Ok(())
}
