// What the calls come to by which processes share segments.
ghost use Rattle.std.specs.Prelude.{◌≡◌, ◌<◌, ◌++◌, ◌∷◌, [], IfOk, IfSome, if◌then◌else◌};
ghost use Rattle.std.specs.Option.{option_copied};
ghost use Rattle.o2_world.specs.World.{ByCall};
ghost use Rattle.o2_world.specs.SharedRulings.{each_more, getting, getting_at, getting_from, giving, giving_of, index_of, is_share, is_shared, is_shared_with, lacks_flag, marks_by_call, naming, naming_at, one_more, shared_segment, sharing, sharing_at, sharing_from, sharing_of};
ghost use Rattle.o2_world.specs.SharedNames.{name_by, text_at};
ghost use Rattle.o2_world.specs.Views.{view_of};
ghost use Rattle.o2_boundless.specs.Shown.{known_by};
ghost use Rattle.o2_world_parts.specs.Edits.{changes_of};
ghost use Rattle.o2_boundless.specs.Verdicts.{ruling_of, marks_in};
ghost use Rattle.o2_boundless.specs.Sharing.{holder_among, is_share_at, lacks_at};

use crate::World;
use crate::rulings::{Verdict, by_load, grants, held_by_call, is_later, made_segment, refusal};
use o2_base::{Bytes, NoMemory};
use o2_world_parts::{
    Edit, Held, How, Process, Segment, held_by, is_alive, is_held_under, is_local, name_of,
};
use std::alloc::Global;

/// The first process that holds an index, by its number.
#[tactic(auto, using(crate::proofs::Walks::holders))]
pub(crate) fn holder(processes: &[Process], index: u16) -> Result<Option<u16>, NoMemory>
    ensures { IfOk result (λ n. n ≡ holder_among processes.now index) }
{
    if processes.len() > 65535 {
        return Err(NoMemory);
    }
    for k in 0..processes.len() as u16 {
        if is_held_under(processes, k + 1, index) {
            return Ok(Some(k + 1));
        }
    }
    Ok(None)
}

/// A hold more, by a call.
fn once_more(held: &Held) -> Held
    ensures { result ≡ record held.now { holds = 1; cause = ByCall } }
{
    Held {
        name: held.name,
        rights: held.rights,
        holds: 1,
        how: How::Call,
        first: held.first,
        reserved: held.reserved,
    }
}

#[tactic(auto, using(crate::proofs::Lists::drops))]
fn put_one_more(
    edits: &mut Vec<Edit>,
    to: u16,
    index: u16,
    held: Option<&Held>,
) -> Result<(), NoMemory>
    ensures { IfOk result (λ _. changes_of edits.new.items ≡ changes_of edits.old.items ++ one_more to index (option_copied held.entry)) }
{
    if let Some(held) = held {
        edits.push(Edit::Holds(to, index, once_more(held)))?;
    }
    Ok(())
}

fn is_shared(segment: Option<&Segment>) -> bool
    ensures { result ≡ is_shared (marks_in (option_copied segment.entry)) }
{
    match segment {
        None => false,
        Some(segment) => segment.shared,
    }
}

/// Whether a segment is shared and can be got, or else given.
fn is_shared_with(gettable: bool, segment: Option<&Segment>) -> bool
    ensures { result ≡ is_shared_with (if gettable then 1 else 0) (marks_in (option_copied segment.entry)) }
{
    match segment {
        None => false,
        Some(segment) => {
            segment.shared
                && (if gettable {
                    segment.flags / 2 % 2 == 1
                } else {
                    segment.flags % 2 == 1
                })
        }
    }
}

impl World {
    fn held_there(&self, number: u16, index: u16) -> Option<&Held>
        ensures { option_copied result ≡ (known_by self.now).held number index }
    {
        held_by(&self.processes, number, index)
    }

    /// Holds that a process gets more of what another holds under the same indexes.
    fn each_more(
        &self,
        alloc: Global,
        from: u16,
        to: u16,
        indexes: &[u16],
    ) -> Result<Vec<Edit>, NoMemory>
        ensures { IfOk result (λ v. changes_of v.items ≡ each_more (known_by self.now) from to indexes.now) }
    {
        let mut edits = Vec::new(alloc);
        for index in indexes {
            put_one_more(&mut edits, to, *index, self.held_there(from, *index))?;
        }
        Ok(edits)
    }

    fn marks_by_call(&self, held: Option<&Held>) -> Option<&Segment>
        ensures { marks_in (option_copied result) ≡ marks_by_call (known_by self.now) (option_copied held.entry) }
    {
        match held {
            None => None,
            Some(held) => {
                if by_load(held) {
                    None
                } else {
                    self.segment(held.name)
                }
            }
        }
    }

    fn lacks_at(&self, gettable: bool, number: u16, index: u16) -> bool
        ensures { result ≡ lacks_at (known_by self.now) (if gettable then 1 else 0) number index }
    {
        let held = held_by(&self.processes, number, index);
        !(4096 <= index && is_shared_with(gettable, self.marks_by_call(held)))
    }

    fn lacks_flag(&self, gettable: bool, number: u16, indexes: &[u16]) -> bool
        ensures { result ≡ lacks_flag (known_by self.now) (if gettable then 1 else 0) number indexes.now }
    {
        indexes
            .iter()
            .any(|index| self.lacks_at(gettable, number, *index))
    }
}

// DosAllocShrSeg(size, name, psel)

fn shared_segment(alloc: Global, size: u16) -> Result<Segment, NoMemory>
    ensures { IfOk result (λ s. s ≡ shared_segment size) }
{
    let mut segment = made_segment(alloc, size, 0)?;
    segment.shared = true;
    Ok(segment)
}

fn three(alloc: Global, first: Edit, second: Edit, third: Edit) -> Result<Vec<Edit>, NoMemory>
    ensures { IfOk result (λ v. v.items ≡ first ∷ second ∷ third ∷ []) }
{
    let mut edits = Vec::new(alloc);
    edits.push(first)?;
    edits.push(second)?;
    edits.push(third)?;
    Ok(edits)
}

impl World {
    fn naming_at(
        &self,
        alloc: Global,
        number: u16,
        size: u16,
        name: Bytes,
        index: Option<u16>,
    ) -> Result<Verdict, NoMemory>
        requires { IfSome index (λ i. i < 8192) }
        ensures { IfOk result (λ v. ruling_of v ≡ naming_at (known_by self.now) number size name index) }
    {
        let Some(index) = index else {
            return Ok(refusal(alloc, 8));
        };
        let segment = shared_segment(alloc, size)?;
        let held = held_by_call(self.next_name);
        let edits = three(
            alloc,
            Edit::Makes(segment),
            Edit::Holds(number, index, held),
            Edit::Names(name, self.next_name),
        )?;
        Ok(grants(8 * index as u32 + 7, edits))
    }

    fn naming(
        &self,
        alloc: Global,
        number: u16,
        size: u16,
        name: Option<Bytes>,
    ) -> Result<Verdict, NoMemory>
        ensures { IfOk result (λ v. ruling_of v ≡ naming (known_by self.now) number size name) }
    {
        let Some(name) = name else {
            return Ok(refusal(alloc, 123));
        };
        if name_of(&self.texts, name.as_slice()).is_some() {
            return Ok(refusal(alloc, 183));
        }
        if self.segments as u64 <= self.count() {
            return Ok(refusal(alloc, 8));
        }
        self.naming_at(alloc, number, size, name, self.free_index(0))
    }

    /// By the text behind a pointer.
    pub(crate) fn naming_by(
        &self,
        alloc: Global,
        number: u16,
        process: &Process,
        size: u16,
        selector: u16,
        offset: u16,
    ) -> Result<Verdict, NoMemory>
        ensures { IfOk result (λ v. ruling_of v ≡ naming (known_by self.now) number size (name_by (text_at (view_of self.now.world.names process.now) selector offset))) }
    {
        let name = self.name_at(alloc, process, selector, offset)?;
        self.naming(alloc, number, size, name)
    }

    // DosGetShrSeg(name, psel)

    fn is_share(&self, name: u64, held: Option<&Held>) -> bool
        ensures { result ≡ is_share (known_by self.now) name (option_copied held.entry) }
    {
        match held {
            None => false,
            Some(held) => held.name == name && is_shared(self.marks_by_call(Some(held))),
        }
    }

    fn is_share_at(&self, name: u64, index: u16) -> Result<bool, NoMemory>
        ensures { IfOk result (λ b. b ≡ is_share_at (known_by self.now) name index) }
    {
        match holder(&self.processes, index)? {
            None => Ok(false),
            Some(from) => Ok(self.is_share(name, held_by(&self.processes, from, index))),
        }
    }

    /// The shared index of a name.
    fn index_of(&self, name: u64) -> Result<Option<u16>, NoMemory>
        ensures index { IfOk result (λ o. o ≡ index_of (known_by self.now) name) }
        ensures local { IfOk result (λ o. IfSome o (λ i. i < 8192)) }
    {
        for index in 4096..8192u16 {
            let is_share = self.is_share_at(name, index)?;
            if is_share {
                return Ok(Some(index));
            }
        }
        Ok(None)
    }

    fn sharing_from(
        &self,
        alloc: Global,
        number: u16,
        index: u16,
        from: Option<u16>,
    ) -> Result<Verdict, NoMemory>
        requires { index < 8192 }
        ensures { IfOk result (λ v. ruling_of v ≡ sharing_from (known_by self.now) number index from) }
    {
        match from {
            None => Ok(refusal(alloc, 2)),
            Some(from) => {
                let edits = self.each_more(alloc, from, number, &[index])?;
                Ok(grants(8 * index as u32 + 7, edits))
            }
        }
    }

    fn sharing_at(
        &self,
        alloc: Global,
        number: u16,
        index: Option<u16>,
    ) -> Result<Verdict, NoMemory>
        requires { IfSome index (λ i. i < 8192) }
        ensures { IfOk result (λ v. ruling_of v ≡ sharing_at (known_by self.now) number index) }
    {
        match index {
            None => Ok(refusal(alloc, 2)),
            Some(index) => {
                let from = holder(&self.processes, index)?;
                self.sharing_from(alloc, number, index, from)
            }
        }
    }

    fn sharing_of(&self, alloc: Global, number: u16, name: Option<u64>) -> Result<Verdict, NoMemory>
        ensures { IfOk result (λ v. ruling_of v ≡ sharing_of (known_by self.now) number name) }
    {
        match name {
            None => Ok(refusal(alloc, 2)),
            Some(name) => {
                let index = self.index_of(name)?;
                self.sharing_at(alloc, number, index)
            }
        }
    }

    fn sharing(&self, alloc: Global, number: u16, name: Option<Bytes>) -> Result<Verdict, NoMemory>
        ensures { IfOk result (λ v. ruling_of v ≡ sharing (known_by self.now) number name) }
    {
        match name {
            None => Ok(refusal(alloc, 123)),
            Some(name) => {
                let there = name_of(&self.texts, name.as_slice());
                self.sharing_of(alloc, number, there)
            }
        }
    }

    /// By the text behind a pointer.
    pub(crate) fn sharing_by(
        &self,
        alloc: Global,
        number: u16,
        process: &Process,
        selector: u16,
        offset: u16,
    ) -> Result<Verdict, NoMemory>
        ensures { IfOk result (λ v. ruling_of v ≡ sharing (known_by self.now) number (name_by (text_at (view_of self.now.world.names process.now) selector offset))) }
    {
        let name = self.name_at(alloc, process, selector, offset)?;
        self.sharing(alloc, number, name)
    }

    // DosGiveSeg(sel, pid, psel)

    fn giving_of(
        &self,
        alloc: Global,
        number: u16,
        index: u16,
        pid: u16,
        held: Option<&Held>,
    ) -> Result<Verdict, NoMemory>
        requires { index < 8192 }
        ensures { IfOk result (λ v. ruling_of v ≡ giving_of (known_by self.now) number index pid (option_copied held.entry)) }
    {
        match held {
            None => Ok(refusal(alloc, 5)),
            Some(held) => {
                let indexes = self.members(alloc, number, index, held)?;
                if is_later(index, held) || self.lacks_flag(false, number, &indexes) {
                    return Ok(refusal(alloc, 5));
                }
                if !is_alive(&self.processes, pid) {
                    return Ok(refusal(alloc, 303));
                }
                let edits = self.each_more(alloc, number, pid, &indexes)?;
                Ok(grants(8 * index as u32 + 7, edits))
            }
        }
    }

    pub(crate) fn giving(
        &self,
        alloc: Global,
        number: u16,
        selector: u16,
        pid: u16,
    ) -> Result<Verdict, NoMemory>
        ensures { IfOk result (λ v. ruling_of v ≡ giving (known_by self.now) number selector pid) }
    {
        let held = self.held_under(number, selector);
        self.giving_of(alloc, number, selector / 8, pid, held)
    }

    // DosGetSeg(sel)

    fn getting_from(
        &self,
        alloc: Global,
        number: u16,
        index: u16,
        from: u16,
        held: Option<&Held>,
    ) -> Result<Verdict, NoMemory>
        ensures { IfOk result (λ v. ruling_of v ≡ getting_from (known_by self.now) number index from (option_copied held.entry)) }
    {
        match held {
            None => Ok(refusal(alloc, 5)),
            Some(held) => {
                let indexes = self.members(alloc, from, index, held)?;
                if is_later(index, held) || self.lacks_flag(true, from, &indexes) {
                    return Ok(refusal(alloc, 5));
                }
                let edits = self.each_more(alloc, from, number, &indexes)?;
                Ok(grants(0, edits))
            }
        }
    }

    fn getting_at(
        &self,
        alloc: Global,
        number: u16,
        index: u16,
        from: Option<u16>,
    ) -> Result<Verdict, NoMemory>
        ensures { IfOk result (λ v. ruling_of v ≡ getting_at (known_by self.now) number index from) }
    {
        match from {
            None => Ok(refusal(alloc, 5)),
            Some(from) => {
                let held = held_by(&self.processes, from, index);
                self.getting_from(alloc, number, index, from, held)
            }
        }
    }

    pub(crate) fn getting(
        &self,
        alloc: Global,
        number: u16,
        selector: u16,
    ) -> Result<Verdict, NoMemory>
        ensures { IfOk result (λ v. ruling_of v ≡ getting (known_by self.now) number selector) }
    {
        if !is_local(selector) {
            return Ok(refusal(alloc, 5));
        }
        let from = holder(&self.processes, selector / 8)?;
        self.getting_at(alloc, number, selector / 8, from)
    }
}
