// The clock: who is present, and who goes next.
ghost use Rattle.std.specs.Prelude.{◌≡◌, ◌≢◌, ◌⊎◌, ℕ, ◌+◌, ◌-◌, ◌<◌, ◌≤◌, ◌^◌, length, IfOk, IfSome, true, false, replicate, slice_index, slice_set, nat_lt, ◌==◌, if◌then◌else◌};
ghost use Rattle.std.specs.Option.{IfNone};
ghost use Rattle.o2_place.specs.Marks.{no_mark, mark_of, IsPresent, IsUnused, IsOutside, IsKept, OnlyUnmarks, IsVictim, IsRing, IsClock, HasPassed, IsChosen, Turns, place_in, IsNext, NoneUnused, AllUnused, turn_after};

use o2_base::NoMemory;
use std::alloc::{AllocError, Global};
use std::marker::Model;

/// Whether an id is present, and whether it was used since the hand last passed it.
#[derive(Clone, Copy, Debug, PartialEq, Eq)]
pub struct Mark {
    pub present: bool,
    pub used: bool,
}

/// A clock over the ids that are present. Contracts see the marks by id, the place of each id in the ring in which the
/// hand goes round, and the place that the hand stands before.
#[derive(Debug, Drop)]
pub struct Clock {
    marks: Vec<Mark>,
    // every id, the present ones first
    ring: Vec<u32>,
    // where each id stands in the ring
    turns: Vec<u32>,
    // how many ids are present
    count: u32,
    // the place of the ring from which the next victim is sought, at most the count
    hand: u32,
}

impl Model for Clock {
    ghost use Rattle.std.specs.Prelude.{◌<◌, ◌^◌, length};
    ghost use Rattle.o2_place.specs.Marks.{Turns, IsClock};

    ghost Value = { Turns };

    ghost view = { λ c. record { marks = c.marks.items; places = c.turns.items; hand = c.hand } };

    ghost invariant = { λ c. IsClock c.marks.items c.ring.items c.turns.items c.count c.hand × (length c.marks.items < 2 ^ 32) };
}

impl Clock {
    /// A clock for the ids below `most`, of which none is present.
    pub fn new(alloc: Global, most: u32) -> Result<Clock, NoMemory>
        ensures { IfOk result (λ c. c.marks ≡ replicate most no_mark) }
    {
        let absent = Mark {
            present: false,
            used: false,
        };
        let marks = Vec::from_elem(alloc, absent, most as usize)?;
        let ring = numbers_below(alloc, most)?;
        let turns = numbers_below(alloc, most)?;
        Ok(Clock {
            marks,
            ring,
            turns,
            count: 0,
            hand: 0,
        })
    }

    /// Marks an id as present and used. One that wasn't present comes last before the hand is at place 0 again.
    pub fn touch(&mut self, id: u32)
        requires { id < length self.old.marks }
        ensures marks { self.new.marks ≡ slice_set self.old.marks id (record { present = true; used = true }) }
        ensures hand { self.new.hand ≡ self.old.hand }
        ensures places { (k : ℕ) → k < length self.old.marks → IsPresent self.old.marks k → place_in self.new k ≡ place_in self.old k }
    {
        self.count = enter(&mut self.ring, &mut self.turns, self.count, id);
        self.marks[id as usize] = Mark {
            present: true,
            used: true,
        };
    }

    /// Marks an id as no longer present. Those that the hand has yet to pass before it is at place 0 again stay the same.
    pub fn leave(&mut self, id: u32)
        requires { id < length self.old.marks }
        ensures marks { self.new.marks ≡ slice_set self.old.marks id no_mark }
        ensures ahead { (k : ℕ) → IsPresent self.old.marks k → k ≢ id → nat_lt (place_in self.new k) self.new.hand ≡ nat_lt (place_in self.old k) self.old.hand }
    {
        self.hand = step_back(&mut self.ring, &mut self.turns, self.hand, id);
        self.count = quit(&mut self.ring, &mut self.turns, self.count, id);
        self.marks[id as usize] = Mark {
            present: false,
            used: false,
        };
    }

    /// A present id outside `keep`, and none exactly where every present id is in it. It is the first such one from the
    /// hand on that is unused, and where all are used the first one. The hand passes those before it, where all are used
    /// it passes all, and stands behind the answer then. Those that it passed are unused from now on, but for `keep`.
    pub fn victim(&mut self, keep: &[u32]) -> Option<u32>
        ensures unmarks { OnlyUnmarks self.old.marks self.new.marks }
        ensures some { IfSome result (λ id. IsVictim self.old.marks keep.now id) }
        ensures none { IfNone result ((id : ℕ) → IsPresent self.old.marks id → IsKept keep.now id) }
        ensures next { IfSome result (λ id. IsNext self.old self.new.marks keep.now id) }
        ensures round { NoneUnused self.old.marks keep.now → AllUnused self.old.marks self.new.marks keep.now }
        ensures hand { IfSome result (λ id. self.new.hand ≡ place_in self.old id + 1) }
        ensures stays { IfNone result (self.new.hand ≡ self.old.hand) }
        ensures places { self.new.places ≡ self.old.places }
    {
        let (hand, end) = (self.hand as usize, self.count as usize);
        let Some(place) = choose(&mut self.marks, &self.ring, keep, hand, end) else {
            return None;
        };
        self.hand = place as u32 + 1;
        Some(self.ring[place])
    }
}

// 0, 1, 2 and so on.
fn numbers_below(alloc: Global, most: u32) -> Result<Vec<u32>, AllocError>
    ensures { IfOk result (λ v. (length v.items ≡ most) × ((k : ℕ) → k < most → slice_index v.items k ≡ k)) }
{
    let mut numbers = Vec::with_capacity(alloc, most as usize)?;
    for k in 0..most {
        numbers.push_reserved(k);
    }
    Ok(numbers)
}

// The ids at two places of the ring change places.
fn exchange(ring: &mut Vec<u32>, turns: &mut Vec<u32>, i: usize, j: usize)
    requires ring { IsRing ring.old.items turns.old.items (length ring.old.items) }
    requires i_in { i < length ring.old.items }
    requires j_in { j < length ring.old.items }
    requires few { length ring.old.items < 2 ^ 32 }
    ensures ring { IsRing ring.new.items turns.new.items (length ring.old.items) }
    ensures turns { (id : ℕ) → id < length ring.old.items → slice_index turns.new.items id ≡ turn_after (slice_index turns.old.items id) i j }
{
    let first = ring[i];
    let second = ring[j];
    ring[i] = second;
    ring[j] = first;
    turns[first as usize] = j as u32;
    turns[second as usize] = i as u32;
}

// Brings an id among the first ones of the ring, and answers how many these are now.
fn enter(ring: &mut Vec<u32>, turns: &mut Vec<u32>, count: u32, id: u32) -> u32
    requires ring { IsRing ring.old.items turns.old.items (length ring.old.items) }
    requires id { id < length ring.old.items }
    requires few { length ring.old.items < 2 ^ 32 }
    requires count { count ≤ length ring.old.items }
    ensures ring { IsRing ring.new.items turns.new.items (length ring.old.items) }
    ensures count { (count ≤ result) × (result ≤ length ring.old.items) }
    ensures first { (k : ℕ) → k < length ring.old.items → nat_lt (slice_index turns.new.items k) result ≡ (if k == id then true else nat_lt (slice_index turns.old.items k) count) }
    ensures stay { (k : ℕ) → k < length ring.old.items → slice_index turns.old.items k < count → slice_index turns.new.items k ≡ slice_index turns.old.items k }
{
    let turn = turns[id as usize];
    if turn < count {
        return count;
    }
    exchange(ring, turns, turn as usize, count as usize);
    count + 1
}

// Brings an id that the hand has passed to the last place before the hand, and the hand before it.
fn step_back(ring: &mut Vec<u32>, turns: &mut Vec<u32>, hand: u32, id: u32) -> u32
    requires ring { IsRing ring.old.items turns.old.items (length ring.old.items) }
    requires id { id < length ring.old.items }
    requires few { length ring.old.items < 2 ^ 32 }
    requires hand { hand ≤ length ring.old.items }
    ensures ring { IsRing ring.new.items turns.new.items (length ring.old.items) }
    ensures hand { (result ≤ hand) × (hand ≤ result + 1) }
    ensures last { result ≤ slice_index turns.new.items id }
    ensures before { result < hand → slice_index turns.new.items id ≡ result }
    ensures far { (k : ℕ) → k < length ring.old.items → hand ≤ slice_index turns.old.items k → slice_index turns.new.items k ≡ slice_index turns.old.items k }
    ensures near { (k : ℕ) → k < length ring.old.items → slice_index turns.old.items k < hand → slice_index turns.new.items k < hand }
{
    let turn = turns[id as usize];
    if hand <= turn {
        return hand;
    }
    exchange(ring, turns, turn as usize, hand as usize - 1);
    hand - 1
}

// Brings an id behind the first ones of the ring, and answers how many these are now. The last one of them comes to its place.
fn quit(ring: &mut Vec<u32>, turns: &mut Vec<u32>, count: u32, id: u32) -> u32
    requires ring { IsRing ring.old.items turns.old.items (length ring.old.items) }
    requires id { id < length ring.old.items }
    requires few { length ring.old.items < 2 ^ 32 }
    requires count { count ≤ length ring.old.items }
    ensures ring { IsRing ring.new.items turns.new.items (length ring.old.items) }
    ensures count { (result ≤ count) × (count ≤ result + 1) }
    ensures less { slice_index turns.old.items id < count → result < count }
    ensures same { count ≤ slice_index turns.old.items id → result ≡ count }
    ensures first { (k : ℕ) → k < length ring.old.items → nat_lt (slice_index turns.new.items k) result ≡ (if k == id then false else nat_lt (slice_index turns.old.items k) count) }
    ensures stay { (k : ℕ) → k < length ring.old.items → slice_index turns.old.items k < slice_index turns.old.items id → slice_index turns.old.items k < count → slice_index turns.new.items k ≡ slice_index turns.old.items k }
    ensures beyond { (k : ℕ) → k < length ring.old.items → slice_index turns.old.items id < slice_index turns.old.items k → slice_index turns.old.items k < count → slice_index turns.old.items id ≤ slice_index turns.new.items k }
{
    let turn = turns[id as usize];
    if count <= turn {
        return count;
    }
    exchange(ring, turns, turn as usize, count as usize - 1);
    count - 1
}

// Whether an id stands in the list.
fn holds(keep: &[u32], id: u32) -> bool
    ensures yes { result ≡ true → IsKept keep.now id }
    ensures no { result ≡ false → IsOutside keep.now id }
{
    for k in keep {
        if *k == id {
            return true;
        }
    }
    false
}

// Marks an id as unused.
fn pass(marks: &mut Vec<Mark>, id: usize)
    requires { id < length marks.old.items }
    ensures { marks.new.items ≡ slice_set marks.old.items id (record (mark_of marks.old.items id) { used = false }) }
{
    let present = marks[id].present;
    marks[id] = Mark {
        present,
        used: false,
    };
}

// The place of the first unused id outside the list among those at the places of the ring from one up to another. Used
// ones before it are marked as unused.
fn sweep(marks: &mut Vec<Mark>, ring: &[u32], keep: &[u32], from: usize, to: usize) -> Option<usize>
    requires order { from ≤ to }
    requires to_in { to ≤ length ring.now }
    requires once { (i j : ℕ) → i < length ring.now → j < length ring.now → slice_index ring.now i ≡ slice_index ring.now j → i ≡ j }
    requires within { (j : ℕ) → j < length ring.now → slice_index ring.now j < length marks.old.items }
    ensures unmarks { OnlyUnmarks marks.old.items marks.new.items }
    ensures some { IfSome result (λ p. (from ≤ p) × (p < to) × IsOutside keep.now (slice_index ring.now p) × IsUnused marks.old.items (slice_index ring.now p)) }
    ensures passed { IfSome result (λ p. HasPassed marks.old.items marks.new.items ring.now keep.now from p) }
    ensures none { IfNone result (HasPassed marks.old.items marks.new.items ring.now keep.now from to) }
    ensures rest { (j : ℕ) → j < length ring.now → ((j < from) ⊎ (to ≤ j)) → mark_of marks.new.items (slice_index ring.now j) ≡ mark_of marks.old.items (slice_index ring.now j) }
{
    for i in from..to {
        let id = ring[i];
        if !holds(keep, id) {
            if !marks[id as usize].used {
                return Some(i);
            }
            pass(marks, id as usize);
        }
    }
    None
}

// The place of the first id outside the list among those at the places of the ring from one up to another.
fn first_outside(ring: &[u32], keep: &[u32], from: usize, to: usize) -> Option<usize>
    requires order { from ≤ to }
    requires to_in { to ≤ length ring.now }
    ensures some { IfSome result (λ p. (from ≤ p) × (p < to) × IsOutside keep.now (slice_index ring.now p) × ((j : ℕ) → from ≤ j → j < p → IsKept keep.now (slice_index ring.now j))) }
    ensures none { IfNone result ((j : ℕ) → from ≤ j → j < to → IsKept keep.now (slice_index ring.now j)) }
{
    for i in from..to {
        if !holds(keep, ring[i]) {
            return Some(i);
        }
    }
    None
}

// The place of the one that goes next among those at the first so many places.
fn choose(
    marks: &mut Vec<Mark>,
    ring: &[u32],
    keep: &[u32],
    hand: usize,
    end: usize,
) -> Option<usize>
    requires hand { hand ≤ end }
    requires end { end ≤ length ring.now }
    requires once { (i j : ℕ) → i < length ring.now → j < length ring.now → slice_index ring.now i ≡ slice_index ring.now j → i ≡ j }
    requires within { (j : ℕ) → j < length ring.now → slice_index ring.now j < length marks.old.items }
    ensures unmarks { OnlyUnmarks marks.old.items marks.new.items }
    ensures some { IfSome result (λ p. IsChosen marks.old.items marks.new.items ring.now keep.now hand end p) }
    ensures none { IfNone result ((j : ℕ) → j < end → IsKept keep.now (slice_index ring.now j)) }
{
    if let Some(place) = sweep(marks, ring, keep, hand, end) {
        return Some(place);
    }
    if let Some(place) = sweep(marks, ring, keep, 0, hand) {
        return Some(place);
    }
    if let Some(place) = first_outside(ring, keep, hand, end) {
        return Some(place);
    }
    first_outside(ring, keep, 0, hand)
}
