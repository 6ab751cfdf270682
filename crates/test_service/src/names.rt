// The names of shared segments: as many as there is room for, each found, and each given anew at another index.
ghost use Rattle.std.specs.Prelude.{◌<◌};

use o2_base::NoMemory;
use o2_entries::Attr;
use o2_place::SegId;
use o2_shared::Shared;
use o2_store::Store;
use std::alloc::Global;
use test_fixtures::{Wrong, want};

/// How many names there is room for.
const ALL: u16 = 4096;

/// The name of a number, which ends in one to four digits; as the numbers rise, the names come in no order.
fn name_of(alloc: Global, number: u16) -> Result<Vec<u8>, NoMemory> {
    let mut name = Vec::new(alloc);
    name.extend_from_slice(b"\\SHAREMEM\\")?;
    let mut rest = 1 + u32::from(number) * 2503 % 4096;
    for _ in 0..4 {
        if rest > 0 {
            name.push(b'0' + (rest % 10) as u8)?;
            rest /= 10;
        }
    }
    Ok(name)
}

/// A new segment of 16 bytes.
fn segment(store: &mut Store) -> Option<SegId> {
    if store.made() >= 65536 {
        return None;
    }
    store.add_zero(
        16,
        Attr {
            flags: 0,
            lock: 0,
            clean: false,
            shared: true,
            gone: false,
        },
    )
}

/// A new segment, which has the name of a number at a place.
fn make(store: &mut Store, names: &mut Shared, place: u16, name: &[u8]) -> Option<SegId>
    requires { place < 4096 }
{
    if name.len() > 128 {
        return None;
    }
    let id = segment(store)?;
    names.put(4096 + place, name, id);
    Some(id)
}

/// Whether what was found is a segment that was made, at an index.
fn is_at(found: Option<(u16, SegId)>, index: u16, made: Option<SegId>) -> bool {
    match (found, made) {
        (Some((at, id)), Some(made)) => at == index && id == made,
        _ => false,
    }
}

/// Whether the name of each number is found at the place so far behind it, with the segment that it was given.
fn are_found(
    alloc: Global,
    store: &Store,
    names: &Shared,
    ids: &[Option<SegId>],
    behind: u16,
) -> Result<bool, NoMemory>
    requires { behind < 4096 }
{
    for number in 0..ALL {
        let name = name_of(alloc, number)?;
        let found = names.find(store, name.as_slice());
        let index = 4096 + (number + behind) % ALL;
        if !is_at(found, index, ids.get(number as usize).copied().flatten()) {
            return Ok(false);
        }
    }
    Ok(true)
}

/// Whether the name of no number is found.
fn none_is_found(alloc: Global, store: &Store, names: &Shared) -> Result<bool, NoMemory> {
    for number in 0..ALL {
        let name = name_of(alloc, number)?;
        if names.find(store, name.as_slice()).is_some() {
            return Ok(false);
        }
    }
    Ok(true)
}

/// Gives each number's name to a new segment, at the place so far behind it.
fn make_all(
    alloc: Global,
    store: &mut Store,
    names: &mut Shared,
    behind: u16,
) -> Result<Vec<Option<SegId>>, NoMemory>
    requires { behind < 4096 }
{
    let mut ids = Vec::new(alloc);
    for number in 0..ALL {
        let name = name_of(alloc, number)?;
        ids.push(make(store, names, (number + behind) % ALL, name.as_slice()))?;
    }
    Ok(ids)
}

/// Takes the segments that were made away.
fn remove_all(store: &mut Store, ids: &[Option<SegId>]) {
    for id in ids {
        if let Some(id) = id {
            store.remove(*id);
        }
    }
}

/// Whether each number's name is found at the place so far behind it, once it is given to a new segment there, and no name once
/// these segments are gone.
fn come_and_go(
    alloc: Global,
    store: &mut Store,
    names: &mut Shared,
    behind: u16,
) -> Result<bool, NoMemory>
    requires { behind < 4096 }
{
    let ids = make_all(alloc, store, names, behind)?;
    let found = are_found(alloc, store, names, ids.as_slice(), behind)?;
    remove_all(store, ids.as_slice());
    let gone = none_is_found(alloc, store, names)?;
    Ok(found && gone)
}

pub fn all_names_are_found_and_given_anew(alloc: Global) -> Result<(), Wrong> {
    let mut store = Store::make(alloc, 1024, 16, 4096)?;
    let mut names = Shared::new(alloc)?;
    let first = come_and_go(alloc, &mut store, &mut names, 0)?;
    let anew = come_and_go(alloc, &mut store, &mut names, 1)?;
    want(first && anew, 0)
}
