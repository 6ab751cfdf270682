// Targets of which many lead nowhere, as system fixups do: a byte for each of them, and the others one behind the other.
ghost use Rattle.std.specs.Prelude.{◌≡◌, ◌+◌, ◌-◌, ◌*◌, ◌<◌, get_or, length, IfOk, IsTrue, OnOk};
ghost use Rattle.o2_image.specs.Marked.{IsPacked, last_of, placed, unpacked};

use o2_base::NoMemory;
use std::alloc::Global;

/// Targets by their index from 0. One of (0, 0) takes a byte, another one five.
#[derive(Drop)]
pub(crate) struct Packed {
    // 0 for one that leads nowhere, else the number from 1 of one of those that lead somewhere, from the first of its group on
    marks: Vec<u8>,
    // for each group of 128 marks how many lead somewhere before it
    firsts: Vec<usize>,
    some: Vec<(u16, u16)>,
}

// Whether a target is nowhere.
fn is_nowhere(target: (u16, u16)) -> bool
    ensures { IsTrue result → target ≡ (0, 0) }
{
    let (selector, offset) = target;
    selector == 0 && offset == 0
}

// Where the marks of the last group count from.
fn last_of(firsts: &[usize]) -> usize
    ensures { result ≡ last_of firsts.now }
{
    if firsts.is_empty() {
        return 0;
    }
    firsts[firsts.len() - 1]
}

// A target by its index, (0, 0) past the last.
fn target_or_none(some: &[(u16, u16)], i: usize) -> (u16, u16)
    ensures { result ≡ get_or some.now i (0, 0) }
{
    match some.get(i) {
        Some(target) => *target,
        None => (0, 0),
    }
}

// A target by its number from 0 behind a place, (0, 0) past the last.
fn target_behind(some: &[(u16, u16)], first: usize, n: usize) -> (u16, u16)
    ensures { result ≡ get_or some.now (first + n) (0, 0) }
{
    if first >= some.len() {
        return (0, 0);
    }
    let (_, group) = some.split_at(first);
    target_or_none(group, n)
}

// What a mark stands for, in a group whose marks count from a place.
fn target_at(some: &[(u16, u16)], first: usize, mark: u8) -> (u16, u16)
    ensures { result ≡ placed some.now first mark }
{
    if mark == 0 {
        return (0, 0);
    }
    target_behind(some, first, usize::from(mark) - 1)
}

// A number by its index, 0 past the last.
fn number_at(numbers: &[usize], i: usize) -> usize
    ensures { result ≡ get_or numbers.now i 0 }
{
    numbers.get(i).copied().unwrap_or(0)
}

// A mark by its index, 0 past the last.
fn mark_at(marks: &[u8], i: usize) -> u8
    ensures { result ≡ get_or marks.now i 0 }
{
    marks.get(i).copied().unwrap_or(0)
}

impl Packed {
    // None of these targets yet.
    fn new(alloc: Global, targets: &[(u16, u16)]) -> Result<Packed, NoMemory>
        ensures { IfOk result (IsPacked targets.now 0) }
    {
        let marks = Vec::with_capacity(alloc, targets.len())?;
        let firsts = Vec::new(alloc);
        let some = Vec::new(alloc);
        Ok(Packed {
            marks,
            firsts,
            some,
        })
    }

    // Begins a group of marks where the last one is full.
    fn begin(&mut self, targets: &[(u16, u16)], k: usize) -> Result<(), NoMemory>
        requires { IsPacked targets.now k self.old }
        ensures packed { OnOk result (IsPacked targets.now k self.new) }
        ensures room { OnOk result (k < 128 * length self.new.firsts.items) }
    {
        if self.firsts.len() != k / 128 {
            return Ok(());
        }
        self.firsts.push(self.some.len())?;
        Ok(())
    }

    // Marks the next target as one that leads nowhere.
    fn add_nowhere(&mut self, targets: &[(u16, u16)], k: usize) -> Result<(), NoMemory>
        requires packed { IsPacked targets.now k self.old }
        requires room { k < 128 * length self.old.firsts.items }
        requires nowhere { get_or targets.now k (0, 0) ≡ (0, 0) }
        ensures { OnOk result (IsPacked targets.now (k + 1) self.new) }
    {
        self.marks.push(0)?;
        Ok(())
    }

    // The mark of the next target that leads somewhere.
    fn next_mark(&self, targets: &[(u16, u16)], k: usize) -> u8
        requires packed { IsPacked targets.now k self.now }
        requires room { k < 128 * length self.now.firsts.items }
        ensures { result ≡ length self.now.some.items - last_of self.now.firsts.items + 1 }
    {
        let first = last_of(self.firsts.as_slice());
        (self.some.len() - first + 1) as u8
    }

    // Marks the next target, which leads somewhere.
    fn add_somewhere(
        &mut self,
        targets: &[(u16, u16)],
        k: usize,
        target: (u16, u16),
    ) -> Result<(), NoMemory>
        requires packed { IsPacked targets.now k self.old }
        requires room { k < 128 * length self.old.firsts.items }
        requires at { get_or targets.now k (0, 0) ≡ target }
        ensures { OnOk result (IsPacked targets.now (k + 1) self.new) }
    {
        let mark = self.next_mark(targets, k);
        self.some.push(target)?;
        self.marks.push(mark)?;
        Ok(())
    }

    // Packs the next target.
    fn add(&mut self, targets: &[(u16, u16)], k: usize) -> Result<(), NoMemory>
        requires below { k < length targets.now }
        requires packed { IsPacked targets.now k self.old }
        ensures { OnOk result (IsPacked targets.now (k + 1) self.new) }
    {
        self.begin(targets, k)?;
        let target = targets[k];
        if is_nowhere(target) {
            return self.add_nowhere(targets, k);
        }
        self.add_somewhere(targets, k, target)
    }

    // Gives back memory that isn't used.
    fn shrink(&mut self)
        ensures { unpacked self.new ≡ unpacked self.old }
    {
        self.some.shrink_to_fit();
    }

    /// How many there are.
    pub(crate) fn len(&self) -> usize
        ensures { result ≡ length (unpacked self.now) }
    {
        self.marks.len()
    }

    /// A target by its index, (0, 0) past the last.
    pub(crate) fn at(&self, i: usize) -> (u16, u16)
        ensures { result ≡ get_or (unpacked self.now) i (0, 0) }
    {
        let first = number_at(self.firsts.as_slice(), i / 128);
        let mark = mark_at(self.marks.as_slice(), i);
        target_at(self.some.as_slice(), first, mark)
    }
}

/// These targets.
pub(crate) fn pack(alloc: Global, targets: &[(u16, u16)]) -> Result<Packed, NoMemory>
    ensures { IfOk result (λ p. unpacked p ≡ targets.now) }
{
    let mut packed = Packed::new(alloc, targets)?;
    for k in 0..targets.len() {
        packed.add(targets, k)?;
    }
    packed.shrink();
    Ok(packed)
}
