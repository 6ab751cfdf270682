//! Moves the ranges of a memory with their bytes, so that no gap lies between them, or so that one of them can grow.
#![tactic(auto)]

ghost use Rattle.std.specs.Prelude.{◌≡◌, ℕ, ◌+◌, ◌<◌, ◌≤◌, ◌-◌, Some, length, IsSome, take};
ghost use Rattle.o2_place.specs.Layout.{IsFree, IsPacked, find_in, used, end_before, start_of, range_at, reshaped};
ghost use Rattle.o2_compact.specs.Parts.{KeepsParts, OpensGap, length_of, GrowsInPlace, MovesAlone, SlideBehind, StayBut, StayInFront};

use o2_phys::Phys;
use o2_place::{Places, Range};

/// Moves the ranges down, in order, until they lie one behind the other from 0 on. Each id's bytes stay. The answer is how many
/// ranges lie so already: they stay where they are, and each one behind them moves down. The work is that of the others, beside
/// one look at each of the first.
pub fn close_up(phys: &mut Phys, places: &mut Places) -> u32
    requires memory { places.old.size ≤ length phys.old }
    ensures kept { KeepsParts phys.old places.old phys.new places.new }
    ensures packed { IsPacked places.new.ranges (length places.new.ranges) }
    ensures room { (len : ℕ) → used places.new.ranges + len ≤ places.new.size → IsFree places.new.size places.new.ranges (used places.new.ranges) len }
    ensures stay { StayInFront places.old places.new result }
    ensures slide { SlideBehind places.old places.new result }
{
    places.law();
    let front = packed_front(places);
    let mut end = end_below(places, front);
    for k in front..places.count() {
        places.law();
        end = move_range(phys, places, k, end);
    }
    places.law();
    front
}

// How many ranges lie one behind the other from 0 on.
fn packed_front(places: &Places) -> u32
    ensures within { result ≤ length places.now.ranges }
    ensures packed { IsPacked places.now.ranges result }
    ensures gap { result < length places.now.ranges
        → end_before 0 places.now.ranges result < (range_at places.now.ranges result).at }
{
    places.law();
    let mut end = 0;
    for k in 0..places.count() {
        let range = places.range_at(k);
        if range.at > end {
            return k;
        }
        end = range.at + range.len;
    }
    places.count()
}

// Where the range before the k-th ends, and 0 before the first.
fn end_below(places: &Places, k: u32) -> u32
    requires { k ≤ length places.now.ranges }
    ensures { result ≡ end_before 0 places.now.ranges k }
{
    if k == 0 {
        return 0;
    }
    places.law();
    let below = places.range_at(k - 1);
    below.at + below.len
}

/// Gives an id that has a range one of `len` bytes, whose first bytes are its old ones. The others keep their bytes and
/// their order. The range grows where it lies if there is room behind it, else it goes to the lowest gap that is long
/// enough, and where none is, the gaps are closed first. The growth is at most what is free.
pub fn open_gap(phys: &mut Phys, places: &mut Places, id: u32, len: u32)
    requires memory { places.old.size ≤ length phys.old }
    requires id { id < places.old.most }
    requires placed { IsSome (find_in places.old.ranges id) }
    requires longer { length_of places.old id ≤ len }
    requires room { used places.old.ranges + len ≤ places.old.size + length_of places.old id }
    ensures opens { OpensGap phys.old places.old phys.new places.new id len }
    ensures in_place { GrowsInPlace places.old places.new id len }
    ensures alone { MovesAlone places.old places.new id len }
{
    let Some(k) = places.rank(id) else {
        return;
    };
    places.law();
    let was = places.range_at(k);
    if len <= gap_end(places, k) - was.at {
        places.reshape(k, was.at, len);
        return;
    }
    if let Some(to) = places.fit(len) {
        move_away(phys, places, was, to, len);
        return;
    }
    close_up(phys, places);
    widen(phys, places, id, len);
}

// Where the gap behind the k-th range ends.
fn gap_end(places: &Places, k: u32) -> u32
    requires { k < length places.now.ranges }
    ensures { result ≡ start_of places.now.size places.now.ranges (k + 1) }
{
    let next = places.count() - k;
    if next > 1 {
        places.range_at(k + 1).at
    } else {
        places.size()
    }
}

// Gives an id the range of so many bytes from a free place on, and moves its bytes there.
fn move_away(phys: &mut Phys, places: &mut Places, old: Range, to: u32, len: u32)
    requires memory { places.old.size ≤ length phys.old }
    requires id { old.id < places.old.most }
    requires placed { find_in places.old.ranges old.id ≡ Some (old.at, old.len) }
    requires longer { old.len ≤ len }
    requires free { IsFree places.old.size places.old.ranges to len }
    ensures opens { OpensGap phys.old places.old phys.new places.new old.id len }
    ensures alone { StayBut places.old places.new old.id }
{
    places.law();
    phys.slide(old.at, to, old.len);
    places.take(old.id);
    places.put(old.id, to, len);
}

// Moves the k-th range with its bytes to another place between its neighbours, and answers where it ends there.
fn move_range(phys: &mut Phys, places: &mut Places, k: u32, to: u32) -> u32
    requires memory { places.old.size ≤ length phys.old }
    requires within { k < length places.old.ranges }
    requires above { end_before 0 places.old.ranges k ≤ to }
    requires below { to + (range_at places.old.ranges k).len ≤ start_of places.old.size places.old.ranges (k + 1) }
    ensures kept { KeepsParts phys.old places.old phys.new places.new }
    ensures moved { places.new ≡ reshaped places.old k (range_at places.old.ranges k).id to (range_at places.old.ranges k).len }
    ensures end { result ≡ to + (range_at places.old.ranges k).len }
{
    places.law();
    let was = places.range_at(k);
    places.reshape(k, to, was.len);
    places.law();
    phys.slide(was.at, to, was.len);
    to + was.len
}

// Where the ranges are packed, moves those behind that of an id up, and gives it the length.
fn widen(phys: &mut Phys, places: &mut Places, id: u32, len: u32)
    requires memory { places.old.size ≤ length phys.old }
    requires packed { IsPacked places.old.ranges (length places.old.ranges) }
    requires id { id < places.old.most }
    requires placed { IsSome (find_in places.old.ranges id) }
    requires longer { length_of places.old id ≤ len }
    requires room { used places.old.ranges + len ≤ places.old.size + length_of places.old id }
    ensures { OpensGap phys.old places.old phys.new places.new id len }
{
    let Some(i) = places.rank(id) else {
        return;
    };
    places.law();
    let was = places.range_at(i);
    let growth = len - was.len;
    let count = places.count();
    for k in (i + 1..count).rev() {
        lift(phys, places, k, growth);
    }
    places.law();
    places.reshape(i, was.at, len);
}

// Moves the k-th range up by a growth, where those below it are packed and there is so much room above it.
fn lift(phys: &mut Phys, places: &mut Places, k: u32, growth: u32)
    requires memory { places.old.size ≤ length phys.old }
    requires within { k < length places.old.ranges }
    requires packed { IsPacked places.old.ranges (k + 1) }
    requires room { used (take (k + 1) places.old.ranges) + growth ≤ start_of places.old.size places.old.ranges (k + 1) }
    ensures kept { KeepsParts phys.old places.old phys.new places.new }
    ensures packed { IsPacked places.new.ranges k }
    ensures room { used (take k places.new.ranges) + growth ≤ start_of places.new.size places.new.ranges k }
    ensures before { (j : ℕ) → j < k → range_at places.new.ranges j ≡ range_at places.old.ranges j }
{
    places.law();
    let was = places.range_at(k);
    move_range(phys, places, k, was.at + growth);
}
