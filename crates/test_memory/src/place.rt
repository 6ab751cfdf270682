// Ranges of ids, and who leaves next.
ghost use Rattle.std.specs.Prelude.{◌≡◌, ◌<◌, length};

use o2_place::{Clock, Places};
use std::alloc::Global;
use test_fixtures::{Wrong, want};

// Takes the range of an id away where the length is 0, and otherwise gives the id the lowest one of this length. The
// answer is its place.
fn step(places: &mut Places, id: u32, len: u32) -> Option<u32>
    requires { id < places.old.most }
    ensures { places.new.most ≡ places.old.most }
{
    if len == 0 {
        let (at, _) = places.take(id)?;
        return Some(at);
    }
    let at = places.fit(len)?;
    if places.find(id).is_none() {
        places.put(id, at, len);
    }
    Some(at)
}

// Ids, lengths, and the places that are answered, in a memory of 32 bytes.
static STEPS: [(u32, u32, Option<u32>); 18] = [
    (0, 8, Some(0)),
    (1, 4, Some(8)),
    (2, 16, Some(12)),
    (3, 8, None),
    (3, 4, Some(28)),
    (1, 0, Some(8)),
    (4, 3, Some(8)),
    (5, 1, Some(11)),
    (0, 0, Some(0)),
    (6, 9, None),
    (6, 8, Some(0)),
    (2, 0, Some(12)),
    (7, 16, Some(12)),
    (2, 1, None),
    (7, 0, Some(12)),
    (3, 0, Some(28)),
    (3, 20, Some(12)),
    (1, 0, None),
];

// Whether these ranges are left.
fn are_left(places: &Places) -> bool {
    let left = [
        Some((6, 0, 8)),
        Some((4, 8, 3)),
        Some((5, 11, 1)),
        Some((3, 12, 20)),
        None,
    ];
    (0u32..5)
        .zip(left.iter())
        .all(|(k, range)| places.range(k) == *range)
}

pub fn ranges_come_and_go(alloc: Global) -> Result<(), Wrong> {
    let mut places = Places::new(alloc, 8, 32)?;
    for (id, len, at) in &STEPS {
        if *id < 8 {
            want(step(&mut places, *id, *len) == *at, 0)?;
        }
    }
    want(
        places.count() == 4 && places.free_bytes() == 0 && are_left(&places),
        1,
    )?;
    Ok(())
}

// Who goes next, but for these, once these ids were used.
fn victim_of(clock: &mut Clock, used: &[u32], keep: &[u32]) -> Option<u32>
    requires { length clock.old.marks ≡ 6 }
    ensures { length clock.new.marks ≡ 6 }
{
    for id in used {
        if *id < 6 {
            clock.touch(*id);
        }
    }
    clock.victim(keep)
}

pub fn unused_ids_go_first(alloc: Global) -> Result<(), Wrong> {
    let mut clock = Clock::new(alloc, 6)?;
    let first = [
        victim_of(&mut clock, &[1, 3, 5], &[1]),
        victim_of(&mut clock, &[3], &[1]),
        victim_of(&mut clock, &[5], &[1]),
    ];
    want(first == [Some(3), Some(5), Some(3)], 0)?;
    clock.leave(3);
    let second = [clock.victim(&[1]), clock.victim(&[5, 1])];
    want(second == [Some(5), None], 1)?;
    clock.leave(5);
    let last = clock.victim(&[]);
    clock.leave(1);
    want(last == Some(1) && clock.victim(&[]).is_none(), 2)?;
    Ok(())
}

pub fn used_ids_go_in_turn(alloc: Global) -> Result<(), Wrong> {
    let mut clock = Clock::new(alloc, 6)?;
    let first = victim_of(&mut clock, &[0, 1, 2], &[]);
    let second = victim_of(&mut clock, &[0, 1, 2], &[]);
    clock.leave(1);
    want(
        [first, second, clock.victim(&[])] == [Some(0), Some(1), Some(2)],
        0,
    )?;
    Ok(())
}
