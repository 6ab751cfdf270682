// Calls on who holds which index.
ghost use Rattle.std.specs.Prelude.{◌≡◌, ◌<◌, true};
ghost use Rattle.o2_regions.specs.Maps.{IsProcess, is_reserved, region_of};

use o2_base::NoMemory;
use o2_desc::Access;
use o2_place::SegId;
use o2_regions::{Cause, Held, Region, Regions};
use std::alloc::Global;

/// How many processes the tables are for.
const PROCESSES: u16 = 64;

// One hold of a segment, by a call.
fn one_hold(key: u32) -> Held
    ensures { result.holds ≡ 1 }
{
    Held {
        id: SegId { key, age: 0 },
        holds: 1,
        cause: Cause::Called,
        first: 0,
        reserved: 0,
    }
}

// Whether the number is that of a process.
fn is_process(regions: &Regions, pid: u16) -> bool
    ensures { result ≡ true → IsProcess regions.now pid }
{
    1 <= pid && pid <= regions.processes()
}

// Reserves the lowest index of a process's own and grants a hold of a segment at it.
fn hold(regions: &mut Regions, pid: u16, key: u32) -> Option<u16> {
    if !is_process(regions, pid) {
        return None;
    }
    let index = regions.lowest(Region::Private(pid), 1)?;
    regions.reserve(Region::Private(pid), index, 1);
    if regions.held(pid, index).is_none() {
        regions.grant(pid, index, one_hold(key), Access::WRITABLE_DATA.0);
    }
    Some(index)
}

/// Makes the tables of 64 processes so many times.
pub fn make_many(alloc: Global, rounds: u64) -> Result<u64, NoMemory> {
    let mut done: u64 = 0;
    for _ in 0..rounds {
        let regions = Regions::new(alloc, PROCESSES)?;
        done = done.wrapping_add(u64::from(regions.processes()));
    }
    Ok(done)
}

// Takes the first 2,000 of a process's indexes, and looks so many times for its lowest run of so many.
fn lowest_in(regions: &mut Regions, rounds: u64, count: u16) -> u64
    requires { 0 < count }
{
    for key in 0..2000 {
        let _ = hold(regions, 1, key);
    }
    let mut done: u64 = 0;
    if is_process(regions, 1) {
        for _ in 0..rounds {
            if regions.lowest(Region::Private(1), count).is_some() {
                done = done.wrapping_add(1);
            }
        }
    }
    done
}

// Grants a hold at an index and takes it again.
fn grant_and_drop(regions: &mut Regions, pid: u16, index: u16, key: u32)
    requires process { IsProcess regions.old pid }
    requires index { index < 8192 }
    requires reserved { is_reserved regions.old (region_of pid index) index ≡ true }
    ensures processes { regions.new.processes ≡ regions.old.processes }
    ensures reserved { regions.new.reserved ≡ regions.old.reserved }
{
    if regions.held(pid, index).is_none() {
        regions.grant(pid, index, one_hold(key), Access::WRITABLE_DATA.0);
        let _ = regions.drop_one(pid, index);
    }
}

// Grants so many holds at an index where nothing is held, and takes each again.
fn grants_in(regions: &mut Regions, rounds: u64) -> u64
    requires { regions.old.processes ≡ 64 }
{
    let mut done: u64 = 0;
    if let Some(4096) = regions.lowest(Region::Shared, 1) {
        regions.reserve(Region::Shared, 4096, 1);
        for _round in 0..rounds {
            grant_and_drop(regions, 9, 4096, 77);
            done = done.wrapping_add(1);
        }
    }
    done
}

// How many indexes a process holds.
fn walk(regions: &Regions, pid: u16) -> u64
    requires { IsProcess regions.now pid }
{
    let mut from = 0;
    let mut done: u64 = 0;
    for _ in 0..8192u16 {
        match regions.next_held(pid, from) {
            Some(index) => {
                if index < 8191
                    && regions.held(pid, index).is_some()
                    && regions.descriptor(pid, index).is_some()
                {
                    done = done.wrapping_add(1);
                    from = index + 1;
                } else {
                    return done;
                }
            }
            None => return done,
        }
    }
    done
}

// Has a process hold 100 segments, and walks so many times over them, each with its descriptor.
fn walks_in(regions: &mut Regions, rounds: u64) -> u64 {
    for key in 0..100 {
        let _ = hold(regions, 9, key);
    }
    let mut done: u64 = 0;
    if is_process(regions, 9) {
        for _ in 0..rounds {
            done = done.wrapping_add(walk(regions, 9));
        }
    }
    done
}

// Has 64 processes hold a segment, and asks so many times for each holder.
fn holders_in(regions: &mut Regions, rounds: u64) -> u64 {
    for pid in 1..PROCESSES + 1 {
        let _ = hold(regions, pid, 77);
    }
    let id = SegId { key: 77, age: 0 };
    let mut done: u64 = 0;
    for _ in 0..rounds {
        for k in 0..64 {
            if regions.holder(id, k).is_some() {
                done = done.wrapping_add(1);
            }
        }
    }
    done
}

/// What is done with the tables of 64 processes.
#[derive(Clone, Copy)]
pub enum Act {
    /// Looks for the lowest index of a process, of which the first 2,000 are taken.
    Lowest,
    /// Looks for the lowest run of 500 indexes.
    Runs,
    /// Grants a hold at an index where nothing is held, and takes it again.
    Grants,
    /// Walks over the 100 indexes that a process holds, and looks up what is held there and its descriptor.
    Walks,
    /// Asks for each holder of a segment that 64 processes hold.
    Holders,
}

/// Does something so many times with the tables of 64 processes; how often it was done.
pub fn act_many(alloc: Global, act: Act, rounds: u64) -> Result<u64, NoMemory> {
    let mut regions = Regions::new(alloc, PROCESSES)?;
    Ok(match act {
        Act::Lowest => lowest_in(&mut regions, rounds, 1),
        Act::Runs => lowest_in(&mut regions, rounds, 500),
        Act::Grants => grants_in(&mut regions, rounds),
        Act::Walks => walks_in(&mut regions, rounds),
        Act::Holders => holders_in(&mut regions, rounds),
    })
}
