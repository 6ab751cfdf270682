// Random tables, read and then compared with a list that is kept beside them.
use crate::ne::{entries_in, is_ordinal, names_in};
use o2_ne::{Entries, Names, NoMemory};
use std::alloc::Global;
use test_fixtures::{Wrong, next, want};

// The bytes of names: letters in both cases, bytes that differ by 20h and are no letters, and a zero. The eighth is missing.
static LETTERS: &str = "aAbB{[\0";

// What names begin with: they are put in order by four bytes at a time.
static FRONTS: &str = "zz|exports_|Exports_ByName16|exports_byname16_and_behind_it_";

// A number below 8 of a generator's.
fn below_8(seed: u32) -> usize {
    (seed / 65_536 % 8) as usize
}

// The name of three numbers, with none, one or two bytes behind what it begins with.
fn name_of(alloc: Global, front: u32, first: u32, second: u32) -> Result<Vec<u8>, NoMemory> {
    let mut name = Vec::new(alloc);
    for (i, text) in FRONTS.split('|').enumerate() {
        if i == below_8(front) % 4 {
            name.extend_from_slice(text.as_bytes())?;
        }
    }
    for seed in [first, second] {
        if let Some(letter) = LETTERS.as_bytes().get(below_8(seed)) {
            name.push(*letter)?;
        }
    }
    Ok(name)
}

// The place of the first of some names that is the same, by one look after the other.
fn first_of(names: &[Vec<u8>], name: &[u8]) -> Option<u16> {
    let mut place = 0u16;
    for other in names {
        if other.as_slice().eq_ignore_ascii_case(name) {
            return Some(place);
        }
        place = place.wrapping_add(1);
    }
    None
}

// Whether a name is found, or not, as in the list.
fn is_found_as_in(names: &Names, list: &[Vec<u8>], name: &[u8]) -> bool {
    match first_of(list, name) {
        Some(ordinal) => is_ordinal(names.ordinal(name), ordinal),
        None => names.ordinal(name).is_none(),
    }
}

// A row of a name table.
fn add_row(table: &mut Vec<u8>, name: &[u8], ordinal: u16) -> Result<(), NoMemory> {
    table.push((name.len() % 256) as u8)?;
    table.extend_from_slice(name)?;
    table.extend_from_slice(&ordinal.to_le_bytes())?;
    Ok(())
}

// So many random names, in a list and as a table whose ordinals are their places.
fn random_names(alloc: Global, count: u16) -> Result<(Vec<Vec<u8>>, Vec<u8>), NoMemory> {
    let mut seed = 24u32;
    let mut list = Vec::new(alloc);
    let mut table = Vec::new(alloc);
    add_row(&mut table, b"FOO", 0)?;
    for ordinal in 0..count {
        let first = next(seed);
        let second = next(first);
        seed = next(second);
        let name = name_of(alloc, seed, first, second)?;
        add_row(&mut table, name.as_slice(), ordinal)?;
        list.push(name)?;
    }
    table.push(0)?;
    Ok((list, table))
}

// How many of the names of these numbers are found as in a list.
fn found_as_in(alloc: Global, names: &Names, list: &[Vec<u8>]) -> Result<u32, NoMemory> {
    let mut count = 0u32;
    for n in 0..256u32 {
        let name = name_of(alloc, n / 64 * 65_536, n / 8 * 65_536, n * 65_536)?;
        if is_found_as_in(names, list, name.as_slice()) {
            count = count.wrapping_add(1);
        }
    }
    Ok(count)
}

pub fn random_names_are_found_as_by_a_search_in_order(alloc: Global) -> Result<(), Wrong> {
    for count in [0u16, 1, 19, 120, 400] {
        let (list, table) = random_names(alloc, count)?;
        match names_in(alloc, table.as_slice()) {
            Some(names) => {
                want(found_as_in(alloc, &names, list.as_slice())? == 256, 0)?;
            }
            None => return Err(Wrong::Row(1)),
        }
    }
    Ok(())
}

// Whether an entry is there, and is this one.
pub fn is_entry(found: Option<(u8, u16)>, segment: u8, offset: u16) -> bool {
    match found {
        Some((number, place)) => number == segment && place == offset,
        None => false,
    }
}

// A random bundle: two ordinals that aren't defined, a fixed segment's, or a movable one's.
fn add_bundle(
    table: &mut Vec<u8>,
    list: &mut Vec<(u8, u16)>,
    seed: u32,
    n: u8,
) -> Result<(), NoMemory> {
    match below_8(seed) {
        0 | 1 => {
            table.extend_from_slice(&[2, 0])?;
            list.push((0, 0))?;
            list.push((0, 0))?;
        }
        2 | 3 | 4 => {
            table.extend_from_slice(&[1, 1, 1, n, 1])?;
            list.push((1, 256 + u16::from(n)))?;
        }
        _ => {
            table.extend_from_slice(&[1, 255, 3, 0xCD, 0x3F, 2, 7, n])?;
            list.push((2, 7 + 256 * u16::from(n)))?;
        }
    }
    Ok(())
}

// Whether each ordinal is defined as in the list, where segment 0 stands for one that isn't.
fn are_defined_as_in(entries: &Entries, list: &[(u8, u16)]) -> bool {
    let mut ordinal = 0u16;
    for (segment, offset) in list {
        ordinal = ordinal.wrapping_add(1);
        let found = entries.get(ordinal);
        if *segment == 0 && found.is_some() {
            return false;
        }
        if *segment != 0 && !is_entry(found, *segment, *offset) {
            return false;
        }
    }
    entries.get(0).is_none() && entries.get(ordinal.wrapping_add(1)).is_none()
}

pub fn random_bundles_are_numbered_in_order(alloc: Global) -> Result<(), Wrong> {
    let mut seed = 25u32;
    let mut table = Vec::new(alloc);
    let mut list = Vec::new(alloc);
    for n in 0..12u8 {
        seed = next(seed);
        add_bundle(&mut table, &mut list, seed, n)?;
    }
    table.push(0)?;
    match entries_in(alloc, table.as_slice()) {
        Some(entries) => want(are_defined_as_in(&entries, list.as_slice()), 0)?,
        None => return Err(Wrong::Row(1)),
    }
    Ok(())
}
