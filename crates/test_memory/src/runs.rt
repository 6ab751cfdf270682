// The lowest free runs of a region, beside a plain list; which processes live; and accessed bits, each told once.
use crate::regions::is_process;
use o2_regions::{Ends, Region, Regions, Used};
use std::alloc::Global;
use test_fixtures::{Wrong, want};

// Reserves the lowest run of the first process's own, and releases so many of its indexes again, from the first one on.
fn leave_gap(regions: &mut Regions, gap: u16, rest: u16) -> Option<u16> {
    if !is_process(regions, 1) || gap > 100 || rest == 0 || rest > 100 {
        return None;
    }
    let first = regions.lowest(Region::Private(1), gap + rest)?;
    regions.reserve(Region::Private(1), first, gap + rest);
    regions.release(Region::Private(1), first, gap);
    Some(first)
}

// The lowest run of places that aren't taken, by trying each.
fn plain_run(taken: &[bool], count: u16) -> Option<u16> {
    if count == 0 {
        return None;
    }
    let place = taken
        .windows(count as usize)
        .position(|run| !run.contains(&true))?;
    Some((place % 65_536) as u16)
}

// The same as `leave_gap`, on a list that has which indexes are taken.
fn leave_plain_gap(taken: &mut [bool], gap: u16, rest: u16) -> Option<u16> {
    let first = plain_run(taken, gap.saturating_add(rest))?;
    let behind = first.saturating_add(gap);
    for place in taken.iter_mut().skip(behind as usize).take(rest as usize) {
        *place = true;
    }
    Some(first)
}

// Whether the lowest runs of some lengths are those of the list.
fn are_lowest(regions: &Regions, taken: &[bool]) -> bool {
    if !is_process(regions, 1) {
        return false;
    }
    for count in [1u16, 2, 3, 7, 20, 64] {
        if regions.lowest(Region::Private(1), count) != plain_run(taken, count) {
            return false;
        }
    }
    true
}

pub fn runs_in_a_fragmented_region(alloc: Global) -> Result<(), Wrong> {
    let mut regions = Regions::new(alloc, 1)?;
    let mut taken = Vec::new(alloc);
    for index in 0..4096u16 {
        taken.push(index == 0)?;
    }
    let mut seed = 1u32;
    for _round in 0..300u16 {
        seed = seed.wrapping_mul(1_103_515_245).wrapping_add(12_345);
        let (gap, rest) = ((seed / 65_536 % 7) as u16, (seed / 256 % 5) as u16 + 1);
        let found = leave_gap(&mut regions, gap, rest);
        let wanted = leave_plain_gap(taken.as_mut_slice(), gap, rest);
        want(found == wanted && are_lowest(&regions, taken.as_slice()), 0)?;
    }
    Ok(())
}

pub fn ended_processes_stay_ended(alloc: Global) -> Result<(), Wrong> {
    let mut ends = Ends::new(alloc, 3)?;
    ends.end(2);
    ends.begin(64);
    for (pid, live) in [
        (0, false),
        (1, true),
        (2, false),
        (3, true),
        (4, false),
        (64, true),
        (65, false),
    ] {
        want(ends.is_live(pid) == live, 0)?;
    }
    Ok(())
}

// Sets the accessed bits of the first indexes of process 1.
fn mark_first(regions: &mut Regions, count: u16) {
    for index in 0..count {
        if is_process(regions, 1) && index < 8192 {
            regions.mark(1, index);
        }
    }
}

// How many accessed bits the list tells, and what it says behind them.
fn told(regions: &mut Regions) -> (u32, Used) {
    let mut count = 0u32;
    for _round in 0..300u32 {
        match regions.next_used() {
            Used::Segment(_) => count = count.wrapping_add(1),
            Used::Free => count = count.wrapping_add(1),
            Used::Stale => {}
            end => return (count, end),
        }
    }
    (count, Used::Stale)
}

pub fn a_list_tells_256_accessed_bits_once_each(alloc: Global) -> Result<(), Wrong> {
    let mut regions = Regions::new(alloc, 1)?;
    for (marked, again, says) in [
        (3, 2, (3, Used::Clear)),
        (256, 256, (256, Used::Clear)),
        (257, 0, (256, Used::More)),
    ] {
        mark_first(&mut regions, marked);
        mark_first(&mut regions, again);
        want(told(&mut regions) == says, 0)?;
    }
    Ok(())
}
