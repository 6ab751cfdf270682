// Calls on the parts of a memory, for so many ranges, bytes, segments or blocks.
ghost use Rattle.std.specs.Prelude.{◌≡◌, ◌<◌, ◌≤◌, length};

use o2_base::NoMemory;
use o2_phys::Phys;
use o2_place::{Clock, Places};
use o2_swapmap::SwapMap;
use std::alloc::Global;

// Gives an id 16 bytes at the lowest place; whether it has got them.
fn put_next(places: &mut Places, id: u32) -> bool
    requires { id < places.old.most }
    ensures { places.new.most ≡ places.old.most }
{
    let Some(at) = places.fit(16) else {
        return false;
    };
    if places.find(id).is_some() {
        return false;
    }
    places.put(id, at, 16);
    true
}

/// Fills a memory with ranges, each at the lowest place; how many ranges all these searches passed.
pub fn fit_many(alloc: Global, count: u16) -> Result<u64, NoMemory> {
    let most = u32::from(count);
    let mut places = Places::new(alloc, most, 16 * most)?;
    let mut done: u64 = 0;
    for id in 0..most {
        if put_next(&mut places, id) {
            done = done.wrapping_add(u64::from(id));
        }
    }
    Ok(done)
}

// Uses each id.
fn touch_all(clock: &mut Clock, count: u32)
    requires { count ≤ length clock.old.marks }
    ensures { length clock.new.marks ≡ length clock.old.marks }
{
    for id in 0..count {
        clock.touch(id);
    }
}

/// Uses all ids and asks which goes next, a hundred times; how many ids were used.
pub fn victim_many(alloc: Global, count: u16) -> Result<u64, NoMemory> {
    let most = u32::from(count);
    let mut clock = Clock::new(alloc, most)?;
    let mut done: u64 = 0;
    for _round in 0..100 {
        touch_all(&mut clock, most);
        if clock.victim(&[]).is_some() {
            done = done.wrapping_add(u64::from(count));
        }
    }
    Ok(done)
}

/// Slides so many KiB by 16 bytes, down and up again, ten times; how many KiB were slid.
pub fn slide_many(alloc: Global, count: u16) -> Result<u64, NoMemory> {
    let size = 1024 * u32::from(count);
    let mut phys = Phys::new(alloc, size + 16)?;
    for _round in 0..10 {
        phys.slide(16, 0, size);
        phys.slide(0, 16, size);
    }
    Ok(20 * u64::from(count))
}

/// Lists the blocks of an owner of so many, a hundred times; how many were listed.
pub fn list_many(alloc: Global, count: u16) -> Result<u64, NoMemory> {
    let mut map = SwapMap::new(alloc, u32::from(count), 1)?;
    let mut into = vec![in alloc; 0u32; usize::from(count)]?;
    let mut done: u64 = 0;
    if map.take(0, u32::from(count)).is_some() {
        for _round in 0..100 {
            let listed = map.list(0, into.as_mut_slice());
            done = done.wrapping_add(listed as u64);
        }
    }
    Ok(done)
}
