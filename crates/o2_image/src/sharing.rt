// Targets gathered segment by segment, where segments share records of the file.
ghost use Rattle.std.specs.Prelude.{◌≡◌, ◌≤◌, ◌<◌, ◌+◌, ◌++◌, ◌∷◌, [], ℕ, drop, get_or, length, map, take, OnOk, IfOk, if◌then◌else◌};
ghost use Rattle.o2_image.specs.Alike.{behind, chosen, no_part};

use crate::images::Resolved;
use crate::packed::pack;
use o2_base::NoMemory;
use std::alloc::Global;
use std::marker::Model;

/// Which of the targets of a module are those of a segment.
#[derive(Clone, Copy, Debug)]
pub(crate) struct Part {
    pub(crate) from: usize,
    pub(crate) count: usize,
}

// The part at a place, none past the last.
fn part_or_none(parts: &[Part], place: u16) -> Part
    ensures { result ≡ get_or parts.now place no_part }
{
    match parts.get(usize::from(place)) {
        Some(part) => *part,
        None => Part { from: 0, count: 0 },
    }
}

// The parts at these places.
fn chosen(alloc: Global, parts: &[Part], places: &[u16]) -> Result<Vec<Part>, NoMemory>
    ensures { IfOk result (λ v. v.items ≡ chosen parts.now places.now) }
{
    let mut found = Vec::with_capacity(alloc, places.len())?;
    for i in 0..places.len() {
        found.push(part_or_none(parts, places[i]))?;
    }
    Ok(found)
}

/// The targets of a module's records so far, by segment and number from 0. Those that segments share are held once.
#[derive(Drop)]
pub struct SharedTargets {
    targets: Vec<(u16, u16)>,
    parts: Vec<Part>,
}

impl Model for SharedTargets {
    ghost use Rattle.std.specs.Prelude.{ℕ, List, length};
    ghost use Rattle.o2_image.specs.Alike.{parts_of, AreWithin};

    ghost Value = { List (List (ℕ × ℕ)) };

    ghost view = { λ s. parts_of s.targets.items s.parts.items };

    ghost invariant = { λ s. AreWithin (length s.targets.items) s.parts.items };
}

#[tactic(auto, using(crate::proofs::PartLists::part_length))]
impl SharedTargets {
    /// No list.
    pub fn new(alloc: Global) -> SharedTargets
        ensures { result ≡ [] }
    {
        SharedTargets {
            targets: Vec::new(alloc),
            parts: Vec::new(alloc),
        }
    }

    /// The targets of the next segment.
    pub fn add(&mut self, targets: Vec<(u16, u16)>) -> Result<(), NoMemory>
        ensures { OnOk result (self.new ≡ self.old ++ targets.items ∷ []) }
    {
        let mut more = targets;
        let part = Part {
            from: self.targets.len(),
            count: more.len(),
        };
        self.targets.append(&mut more)?;
        self.parts.push(part)?;
        Ok(())
    }

    /// The next segment has so many of the targets of an earlier one, by its number from 0, behind the first `skip`.
    pub fn add_within(&mut self, earlier: u16, skip: u16, count: u16) -> Result<(), NoMemory>
        requires earlier { earlier < length self.old }
        requires within { skip + count ≤ length (get_or self.old earlier []) }
        ensures { OnOk result (self.new ≡ self.old ++ take count (drop skip (get_or self.old earlier [])) ∷ []) }
    {
        let part = self.parts[usize::from(earlier)];
        let next = Part {
            from: part.from + usize::from(skip),
            count: usize::from(count),
        };
        self.parts.push(next)?;
        Ok(())
    }

    /// The next segment has those of an earlier one, by its number from 0, but for the first so many, and these behind them.
    /// It is told whether they could be held behind the others; if not, nothing is changed.
    pub fn add_behind(
        &mut self,
        earlier: u16,
        skip: u16,
        targets: Vec<(u16, u16)>,
    ) -> Result<bool, NoMemory>
        requires earlier { earlier < length self.old }
        requires skip { skip ≤ length (get_or self.old earlier []) }
        ensures { IfOk result (λ held. self.new ≡ (if held then self.old ++ behind (get_or self.old earlier []) skip targets.items ∷ [] else self.old)) }
    {
        let mut more = targets;
        let part = self.parts[usize::from(earlier)];
        let skip = usize::from(skip);
        if part.from + part.count != self.targets.len() || part.count < skip {
            return Ok(false);
        }
        let next = Part {
            from: part.from + skip,
            count: part.count - skip + more.len(),
        };
        self.targets.append(&mut more)?;
        self.parts.push(next)?;
        Ok(true)
    }

    /// All of them.
    pub fn finish(self, alloc: Global) -> Result<Resolved, NoMemory>
        ensures { IfOk result (λ r. r ≡ self) }
    {
        let SharedTargets { targets, parts } = self;
        let packed = pack(alloc, targets.as_slice())?;
        Ok(Resolved::of_parts(packed, parts))
    }

    /// The lists at these places from 0, in the order of the places. There is none past the last.
    #[tactic(auto, using(crate::proofs::PartLists::chosen_parts))]
    pub fn finish_in(self, alloc: Global, places: &[u16]) -> Result<Resolved, NoMemory>
        ensures { IfOk result (λ r. r ≡ map (λ p. get_or self p []) places.now) }
    {
        let SharedTargets { targets, parts } = self;
        let packed = pack(alloc, targets.as_slice())?;
        let found = chosen(alloc, parts.as_slice(), places)?;
        Ok(Resolved::of_parts(packed, found))
    }
}
