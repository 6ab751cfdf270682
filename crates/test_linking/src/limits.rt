// Small libraries made as those at the limits of the format are: their segments overlap in the file, and their rows stand in any order.
use o2_base::{Bytes, NoMemory};
use o2_conf::Conf;
use o2_dynlink::{Linked, link};
use o2_image::{Images, Module};
use std::alloc::Global;
use std::test::Fail;

// How many records stand behind one another in the file, and where the first segment begins.
const RECORDS: u16 = 24;

const FIRST: usize = 256;

// How many bytes a segment has in the file, and how many segments there are. Each begins two records behind the one before it.
const LENGTH: u16 = 32;

const SEGMENTS: u16 = 6;

// Which of the segments, in the order of the file, the rows of the table are.
static ORDERS: [[u16; 6]; 4] = [
    [0, 1, 2, 3, 4, 5],
    [5, 4, 3, 2, 1, 0],
    [2, 5, 0, 3, 1, 4],
    [3, 3, 5, 0, 5, 1],
];

// Whether a record is a system fixup.
fn is_fixup(record: u16) -> bool {
    record % 5 == 4
}

// The offset that a record leads to: where the records of a segment begin behind it, their number stands there.
fn offset_of(record: u16) -> u16 {
    if record % 2 == 1 && record / 2 < SEGMENTS - 1 {
        RECORDS.wrapping_sub(record).wrapping_sub(1)
    } else {
        record.wrapping_add(0x1280)
    }
}

// A record that patches the byte at the place of its number.
fn record_of(record: u16) -> [u8; 8] {
    let [low, high] = offset_of(record).to_le_bytes();
    let flags = if is_fixup(record) { 3 } else { 0 };
    [0, flags, (record % 256) as u8, 0, 1, 0, low, high]
}

fn set_word(file: &mut Vec<u8>, at: usize, n: u16) {
    for (i, byte) in n.to_le_bytes().iter().enumerate() {
        if let Some(held) = file.get_mut(at.wrapping_add(i)) {
            *held = *byte;
        }
    }
}

// The headers and the tables of a library of so many segments, up to its first segment.
fn front(alloc: Global, segments: u16) -> Result<Vec<u8>, NoMemory> {
    let mut file = vec![in alloc; 0u8; FIRST]?;
    for (at, n) in [
        (0usize, 0x5A4Du16),
        (60, 64),
        (64, 0x454E),
        (68, 135),
        (76, 0x8000),
        (92, segments),
        (98, 64),
        (102, 128),
        (104, 135),
        (106, 135),
        (114, 4),
        (118, 1),
        (192, 0x4C03),
        (194, 0x4249),
    ] {
        set_word(&mut file, at, n);
    }
    Ok(file)
}

// The row of a segment that begins so many times 16 bytes behind the first.
fn set_row(file: &mut Vec<u8>, row: usize, begin: u16, length: u16) {
    let at = row.wrapping_mul(8).wrapping_add(128);
    set_word(file, at, begin.wrapping_add(16));
    set_word(file, at.wrapping_add(2), length);
    set_word(file, at.wrapping_add(4), 0x101);
    set_word(file, at.wrapping_add(6), length);
}

// A library whose rows are these segments.
fn overlapping(alloc: Global, order: &[u16; 6]) -> Result<Vec<u8>, NoMemory> {
    let mut file = front(alloc, SEGMENTS)?;
    for (row, begin) in order.iter().enumerate() {
        set_row(&mut file, row, *begin, LENGTH);
    }
    file.resize(FIRST + LENGTH as usize, 0x90)?;
    file.extend_from_slice(&RECORDS.to_le_bytes())?;
    for record in 0..RECORDS {
        file.extend_from_slice(&record_of(record))?;
    }
    Ok(file)
}

// A byte of the image of the segment that begins so many times 16 bytes behind the first.
fn byte_of(file: &[u8], begin: u16, place: u16) -> u8 {
    if place / 2 >= begin && place < RECORDS && !is_fixup(place) {
        return (offset_of(place) % 256) as u8;
    }
    let at = FIRST + 16 * usize::from(begin) + usize::from(place);
    file.get(at).copied().unwrap_or(0)
}

// Writes the first bytes of the image of a segment of the first module, if there is one.
fn fill(images: &Images, segment: u16, into: &mut [u8]) -> bool {
    let Some(module) = images.module(1) else {
        return false;
    };
    if segment < 1 || segment > module.segment_count() {
        return false;
    }
    images.fill(1, segment, into);
    true
}

// Whether the image of a segment by its row is that of the segment there.
fn is_filled(images: &Images, file: &[u8], row: u16, begin: u16) -> bool {
    let mut into = [0xEEu8; 32];
    if !fill(images, row.wrapping_add(1), &mut into) {
        return false;
    }
    let mut place = 0u16;
    for byte in into {
        if byte != byte_of(file, begin, place) {
            return false;
        }
        place = place.wrapping_add(1);
    }
    true
}

// Whether all images of a library are those of its segments, in the order of the rows.
fn are_filled(images: &Images, file: &[u8], order: &[u16; 6]) -> bool {
    let mut row = 0u16;
    for begin in order {
        if !is_filled(images, file, row, *begin) {
            return false;
        }
        row = row.wrapping_add(1);
    }
    true
}

// The setting of one process of this module.
fn setting(alloc: Global, name: &str) -> Result<Conf, Fail> {
    let file = Bytes::from_slice(alloc, b"f")?;
    let name = Bytes::from_slice(alloc, name.as_bytes())?;
    Ok(Conf::exe(alloc, &file, &name)?)
}

// The module of a file.
fn checked(alloc: Global, file: Vec<u8>) -> Result<Module, Fail> {
    if file.len() > 16384 {
        return Err("too long".into());
    }
    Ok(Module::check(alloc, Bytes::new(file))?)
}

// A library alone, linked.
fn linked_alone(alloc: Global, file: Vec<u8>) -> Result<Linked, Fail> {
    let conf = setting(alloc, "LIB")?;
    let mut modules = Vec::new(alloc);
    modules.push(checked(alloc, file)?)?;
    match link(alloc, modules, &conf) {
        Ok(linked) => Ok(linked),
        Err(_) => Err("refused".into()),
    }
}

#[test]
fn segments_that_overlap_are_linked_in_any_order(rt: HostRuntime) -> Result<(), Fail> {
    for order in &ORDERS {
        let file = overlapping(rt.alloc(), order)?;
        let linked = linked_alone(rt.alloc(), file.clone()?)?;
        assert!(rt; are_filled(linked.images(), file.as_slice(), order));
    }
    Ok(())
}

// A library of which each byte behind the tables is 3, so that each eight bytes are a system fixup, and each two the number 771: its
// segments begin at each place of eight bytes.
fn fixups(alloc: Global) -> Result<Vec<u8>, NoMemory> {
    let mut file = front(alloc, 8)?;
    for (row, length) in [32u16, 33, 34, 35, 36, 37, 38, 39].iter().enumerate() {
        set_row(&mut file, row, 0, *length);
    }
    file.resize(FIRST + 6400, 3)?;
    Ok(file)
}

#[test]
fn fixups_at_each_place_patch_nothing(rt: HostRuntime) -> Result<(), Fail> {
    let linked = linked_alone(rt.alloc(), fixups(rt.alloc())?)?;
    let mut into = [0xEEu8; 40];
    for segment in 1..9u16 {
        assert!(rt; fill(linked.images(), segment, &mut into));
        assert_eq!(rt; into[31], 3);
    }
    Ok(())
}
