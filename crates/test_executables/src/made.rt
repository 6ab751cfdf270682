// Random executables with every feature of the format, written from what they must be read as.
use o2_base::NoMemory;
use o2_ne_segs::{Kind, Reloc, Segment};
use std::alloc::Global;
use test_fixtures::{add_bytes, below, next, word_below};

// A file up to its resident names: its header at 64, its segment table at 128, for up to 8 rows, its references at 192, for up to 4,
// the imported names at 200, the entries at 224, and its own name. Then come the other resident names, the segments with their
// records, and the nonresident names.
static FRONT: &str = "
4D 5A 00*3A 40 00 00 00
4E 45 00 00 A0 00 22 00 00*4 00 80 00*14 40 00 00 00 C2 00 80 00 88 00 00*6 04 00 00 00 01 00*9
00*48
00 08 44 4F 53 43 41 4C 4C 53 05 4F 54 48 45 52 03 61 62 63 01 7A 00 00
02 01 01 02 01 00 04 03 02 00 02 FF 01 CD 3F 02 06 05 00 CD 3F 01 08 07 FA 00 03 00 01 01 03 09 00 00
04 4D 41 44 45 00 00
";

/// The imported names, with their offsets.
pub static CALLED: [(u16, &str); 4] = [(1, "DOSCALLS"), (10, "OTHER"), (16, "abc"), (20, "z")];

/// The ordinals that the entry table defines, each with its segment and its offset: two of segment 1, two that aren't defined, two
/// movable ones, 253 that aren't defined in two bundles, and one of segment 1.
pub static ENTRIES: [(u16, u8, u16); 5] = [
    (1, 1, 0x0102),
    (2, 1, 0x0304),
    (5, 2, 0x0506),
    (6, 1, 0x0708),
    (260, 1, 9),
];

// The kinds of segments, with their flags.
static KINDS: [(Kind, u16); 4] = [
    (Kind::Code, 0),
    (Kind::CodeOnly, 0x80),
    (Kind::Writable, 1),
    (Kind::ReadOnly, 0x81),
];

/// A record by its segment from 1 and its number from 0, and where it stands in the file.
#[derive(Clone, Copy)]
pub struct Placed {
    pub segment: u16,
    pub number: u16,
    pub at: u32,
    pub reloc: Reloc,
}

/// A name by where it stands in the file and how long it is, with its ordinal.
#[derive(Clone, Copy)]
pub struct Named {
    pub at: usize,
    pub len: usize,
    pub ordinal: u16,
}

/// What a file must be read as.
#[derive(Drop)]
pub struct Made {
    pub file: Vec<u8>,
    pub segments: Vec<Segment>,
    pub records: Vec<Placed>,
    pub names: Vec<Named>,
    pub references: Vec<u16>,
}

/// Nothing yet.
pub fn unmade(alloc: Global) -> Made {
    Made {
        file: Vec::new(alloc),
        segments: Vec::new(alloc),
        records: Vec::new(alloc),
        names: Vec::new(alloc),
        references: Vec::new(alloc),
    }
}

fn clear(made: &mut Made) {
    made.file.clear();
    made.segments.clear();
    made.records.clear();
    made.names.clear();
    made.references.clear();
}

fn set_byte(file: &mut Vec<u8>, at: u32, byte: u8) {
    if let Some(held) = file.get_mut(at as usize) {
        *held = byte;
    }
}

/// Writes a word, of at most 65,535, at a place of a file.
pub fn set_word(file: &mut Vec<u8>, at: u32, n: u32) {
    let [low, high] = ((n % 65_536) as u16).to_le_bytes();
    set_byte(file, at, low);
    set_byte(file, at.wrapping_add(1), high);
}

/// The length of a file, which is short.
pub fn len_of(file: &Vec<u8>) -> u32 {
    (file.len() % 65_536) as u32
}

// A name of 1 to 9 letters with its length before it and its ordinal behind: no two of a file are the same where their numbers differ.
fn add_name(made: &mut Made, seed: u32, number: u16) -> Result<(), NoMemory> {
    let more = below(seed, 9) % 9;
    made.file.push((more + 1) as u8)?;
    let at = made.file.len();
    made.file.push(b'A' + (number % 26) as u8)?;
    for i in 0..more {
        made.file
            .push(b'a' + (below(seed.wrapping_mul(i), 26) % 26) as u8)?;
    }
    let ordinal = word_below(next(seed), 65_536);
    made.file.extend_from_slice(&ordinal.to_le_bytes())?;
    made.names.push(Named {
        at,
        len: (more + 1) as usize,
        ordinal,
    })?;
    Ok(())
}

// So many names from a number on, and the end of their table.
fn add_names(made: &mut Made, seed: u32, from: u16, count: u16) -> Result<(), NoMemory> {
    let mut seed = seed;
    for number in from..from.wrapping_add(count) {
        seed = next(seed);
        add_name(made, seed, number)?;
    }
    made.file.push(0)?;
    Ok(())
}

// The references of a file, each to one of the first two names.
fn add_references(made: &mut Made, seed: u32, count: u32) -> Result<(), NoMemory> {
    for k in 0..count {
        let at = if below(seed.wrapping_mul(k.wrapping_add(1)), 2) == 0 {
            1u16
        } else {
            10
        };
        set_word(
            &mut made.file,
            k.wrapping_mul(2).wrapping_add(192),
            u32::from(at),
        );
        made.references.push(at)?;
    }
    Ok(())
}

// A target of this kind: its two words.
fn target_of(seed: u32, kind: u32, segments: u32, references: u32) -> (u16, u16) {
    let any = word_below(next(seed), 65_536);
    let reference = word_below(seed, references).wrapping_add(1);
    match kind {
        0 if any % 2 == 0 => (word_below(seed, segments).wrapping_add(1), any),
        0 => {
            let (ordinal, _, _) = ENTRIES[(any / 2 % 5) as usize];
            (255 + any / 256 % 4 * 256, ordinal)
        }
        1 => (reference, any),
        2 => {
            let (at, _) = CALLED[(any % 4) as usize];
            (reference, at)
        }
        _ => (any, any),
    }
}

// A record for the eight bytes from a place on: a low byte, an additive one, or a chain over two places.
fn record_of(seed: u32, place: u16, segments: u32, references: u32) -> Reloc {
    let kind = below(next(seed), 4);
    let (first, second) = target_of(next(next(seed)), kind, segments, references);
    let source = [0u8, 2, 3, 5][(below(seed, 4) % 4) as usize];
    let additive = [4u8, 0][(below(seed.wrapping_mul(7), 2) % 2) as usize];
    Reloc {
        source,
        flags: (kind % 4) as u8 | additive,
        place,
        first,
        second,
    }
}

// The bytes of a segment with so many records: a chain over the first and the fifth of eight bytes for each.
fn add_content(file: &mut Vec<u8>, count: u32, more: u32) -> Result<(), NoMemory> {
    for k in 0..count {
        let [low, high] = ((k.wrapping_mul(8).wrapping_add(4) % 65_536) as u16).to_le_bytes();
        file.extend_from_slice(&[low, high, 0xEE, 0xEE, 0xFF, 0xFF, 0xEE, 0xEE])?;
    }
    for k in 0..more {
        file.push((k % 256) as u8)?;
    }
    Ok(())
}

// A record in the file and in a list.
fn add_record(made: &mut Made, segment: u16, number: u16, reloc: Reloc) -> Result<(), NoMemory> {
    let at = len_of(&made.file);
    made.file.extend_from_slice(&[reloc.source, reloc.flags])?;
    for part in [reloc.place, reloc.first, reloc.second] {
        made.file.extend_from_slice(&part.to_le_bytes())?;
    }
    made.records.push(Placed {
        segment,
        number,
        at,
        reloc,
    })?;
    Ok(())
}

// The records of a segment, with their number before them.
fn add_records(
    made: &mut Made,
    seed: u32,
    segment: u16,
    count: u32,
    of: (u32, u32),
) -> Result<(), NoMemory> {
    let (segments, references) = of;
    let mut seed = seed;
    made.file
        .extend_from_slice(&((count % 256) as u16).to_le_bytes())?;
    for k in 0..count {
        seed = next(next(seed));
        let number = (k % 256) as u16;
        let reloc = record_of(seed, 8 * number, segments, references);
        add_record(made, segment, number, reloc)?;
    }
    Ok(())
}

// The row of a segment, by its number from 0, and the segment in a list.
fn add_row(made: &mut Made, k: u32, segment: Segment) -> Result<(), NoMemory> {
    let row = 128 + 8 * (k % 8);
    set_word(&mut made.file, row, segment.file_at / 16);
    set_word(&mut made.file, row + 2, segment.file_len);
    set_word(&mut made.file, row + 4, u32::from(segment.flags));
    set_word(&mut made.file, row + 6, segment.size);
    made.segments.push(segment)?;
    Ok(())
}

// A segment without bytes in the file: a kind, with flags that say how it is loaded.
fn segment_of(seed: u32) -> Segment {
    let others = if below(next(seed), 2) == 0 { 0xC50 } else { 0 };
    let (kind, flags) = KINDS[(below(seed, 4) % 4) as usize];
    Segment {
        file_at: 0,
        file_len: 0,
        size: below(next(seed), 400).wrapping_add(1),
        kind,
        relocs: false,
        flags: flags | others,
    }
}

// The bytes of a segment, from a place of 16 bytes on, for so many records: where they begin, and how many they are.
fn add_bytes_of(file: &mut Vec<u8>, seed: u32, count: u32) -> Result<(u32, u32), NoMemory> {
    let places = file.len().div_ceil(16) * 16;
    file.resize(places, 0)?;
    let at = len_of(file);
    add_content(file, count, below(next(seed), 20).wrapping_add(1))?;
    Ok((at, len_of(file).wrapping_sub(at)))
}

// A segment without bytes in the file, or with some and with up to 6 records behind them.
fn add_segment(made: &mut Made, seed: u32, k: u32, of: (u32, u32)) -> Result<(), NoMemory> {
    let mut segment = segment_of(seed);
    if below(seed, 6) == 5 {
        return add_row(made, k, segment);
    }
    let count = below(seed, 7);
    let (at, len) = add_bytes_of(&mut made.file, seed, count)?;
    segment.file_at = at;
    segment.file_len = len;
    segment.size = segment.size.max(len);
    if count > 0 {
        segment.relocs = true;
        segment.flags |= 0x100;
        add_records(made, seed, (k % 8 + 1) as u16, count, of)?;
    }
    add_row(made, k, segment)
}

// The segments of a file; what the generator is at behind them.
fn add_segments(made: &mut Made, seed: u32, of: (u32, u32)) -> Result<u32, NoMemory> {
    let mut seed = seed;
    for k in 0..of.0 {
        seed = next(next(next(seed)));
        add_segment(made, seed, k, of)?;
    }
    Ok(seed)
}

// The nonresident names of a file, in half of them.
fn add_others(made: &mut Made, seed: u32) -> Result<(), NoMemory> {
    if below(seed, 2) == 0 {
        return Ok(());
    }
    let at = len_of(&made.file);
    set_word(&mut made.file, 96, 1);
    set_word(&mut made.file, 108, at);
    add_names(made, seed, 14, (below(next(seed), 12) % 12) as u16)
}

/// Makes a random file, with what it must be read as.
pub fn make(made: &mut Made, seed: u32) -> Result<(), NoMemory> {
    let segments = below(seed, 5).wrapping_add(2);
    let references = below(next(seed), 3).wrapping_add(1);
    clear(made);
    add_bytes(&mut made.file, FRONT)?;
    set_word(&mut made.file, 92, segments);
    set_word(&mut made.file, 94, references);
    add_references(made, seed, references)?;
    add_names(made, next(seed), 0, (below(seed, 14) % 14) as u16)?;
    let seed = add_segments(made, seed, (segments, references))?;
    add_others(made, seed)
}
