// What the calls on segments come to: error number, value and changes.
ghost use Rattle.std.specs.Prelude.{◌≡◌, ◌≤◌, ◌<◌, ◌||◌, ◌∷◌, ◌++◌, [], ℕ, IfOk, IfSome, is_some, map};
ghost use Rattle.std.specs.Option.{option_copied};
ghost use Rattle.o2_base.specs.Selectors.{selector_of};
ghost use Rattle.o2_desc.specs.Bits.{has_bit};
ghost use Rattle.o2_isa.specs.View.{is_local, is_null};
ghost use Rattle.o2_world.specs.Changes.{Drops};
ghost use Rattle.o2_world.specs.Rulings.{refusal, grants, held_under, free_index, full_size, made_segment, held_by_call, region_by, allocation_at, allocation, is_alias};
ghost use Rattle.o2_world.specs.Rulings.{is_in_run, is_sizeable, keeps_its_size, reallocation_with, reallocation_of, reallocation, members, is_later, is_index, in_use, by_load};
ghost use Rattle.o2_world.specs.Rulings.{freeing_with, freeing_of, freeing, sizing_with, sizing_of};
ghost use Rattle.o2_world.specs.Rulings.{sizing, is_discardable, locking_with, locking_of, locking, unlocking_with, unlocking_of, unlocking, held_as_code, aliasing_at};
ghost use Rattle.o2_world.specs.Rulings.{aliasing_of, aliasing};
ghost use Rattle.o2_world.specs.Known.{marks_of};
ghost use Rattle.o2_boundless.specs.Shown.{known_by};
ghost use Rattle.o2_world_parts.specs.declared.changing.Edit.TheVariants.{Resizes, Locks, Revives};
ghost use Rattle.o2_world_parts.specs.Edits.{changes_of};
ghost use Rattle.o2_boundless.specs.Verdicts.{ruling_of, marks_in};

use crate::World;
use o2_base::NoMemory;
use o2_desc::Access;
use o2_isa::Cpu;
use o2_world_parts::{Edit, Held, How, Segment, held_by, is_local, is_null, segment_of};
use std::alloc::Global;

/// What a call comes to.
#[derive(Drop)]
pub struct Verdict {
    pub error: u16,
    /// What is written behind the call's last pointer, where it has one.
    pub value: u32,
    pub edits: Vec<Edit>,
}

pub(crate) fn refusal(alloc: Global, error: u16) -> Verdict
    ensures { ruling_of result ≡ refusal error }
{
    Verdict {
        error,
        value: 0,
        edits: Vec::new(alloc),
    }
}

pub(crate) fn grants(value: u32, edits: Vec<Edit>) -> Verdict
    ensures { ruling_of result ≡ grants value (changes_of edits.items) }
{
    Verdict {
        error: 0,
        value,
        edits,
    }
}

pub(crate) fn one(alloc: Global, edit: Edit) -> Result<Vec<Edit>, NoMemory>
    ensures { IfOk result (λ v. v.items ≡ edit ∷ []) }
{
    let mut edits = Vec::new(alloc);
    edits.push(edit)?;
    Ok(edits)
}

pub(crate) fn two(alloc: Global, first: Edit, second: Edit) -> Result<Vec<Edit>, NoMemory>
    ensures { IfOk result (λ v. v.items ≡ first ∷ second ∷ []) }
{
    let mut edits = Vec::new(alloc);
    edits.push(first)?;
    edits.push(second)?;
    Ok(edits)
}

// Selectors.

pub(crate) fn is_index(selector: u16, index: u16) -> bool
    ensures { result ≡ is_index selector index }
{
    !is_null(selector) && (is_local(selector) && selector / 8 == index)
}

pub(crate) fn in_use(cpu: &Cpu, indexes: &[u16]) -> bool
    ensures { result ≡ in_use cpu.now indexes.now }
{
    indexes
        .iter()
        .any(|i| is_index(cpu.cs, *i) || is_index(cpu.ss, *i))
}

// Marks.

pub(crate) fn is_discardable(segment: &Segment) -> bool
    ensures { result ≡ is_discardable (marks_of segment.now) }
{
    segment.flags / 4 % 2 == 1
}

pub(crate) fn is_alias(held: &Held) -> bool
    ensures { result ≡ is_alias held.now.cause }
{
    match held.how {
        How::Load => false,
        How::Call => false,
        How::Alias => true,
    }
}

pub(crate) fn by_load(held: &Held) -> bool
    ensures { result ≡ by_load held.now.cause }
{
    match held.how {
        How::Load => true,
        How::Call => false,
        How::Alias => false,
    }
}

pub(crate) fn is_in_run(held: &Held) -> bool
    ensures { result ≡ is_in_run held.now }
{
    held.reserved != 0
}

pub(crate) fn is_later(index: u16, held: &Held) -> bool
    ensures { result ≡ is_later index held.now }
{
    held.reserved != 0 && held.first != index
}

// DosAllocSeg(size, psel, flags)

pub(crate) fn full_size(size: u16) -> u32
    ensures size { result ≡ full_size size }
    ensures most { result ≤ 65536 }
{
    if size == 0 { 65536 } else { size as u32 }
}

pub(crate) fn made_segment(alloc: Global, size: u16, flags: u8) -> Result<Segment, NoMemory>
    ensures { IfOk result (λ s. s ≡ made_segment size flags) }
{
    let size = full_size(size) as usize;
    let bytes = vec![in alloc; 0; size]?;
    Ok(Segment {
        bytes,
        clean: false,
        code: false,
        flags,
        lock: if flags / 4 % 2 == 1 { 1 } else { 0 },
        shared: flags % 2 == 1 || flags / 2 % 2 == 1,
        discarded: false,
    })
}

pub(crate) fn held_by_call(name: u64) -> Held
    ensures { result ≡ held_by_call name }
{
    Held {
        name,
        rights: Access::WRITABLE_DATA.0,
        holds: 1,
        how: How::Call,
        first: 0,
        reserved: 0,
    }
}

pub(crate) fn region_by(number: u16, flags: u16) -> u16
    ensures { result ≡ region_by number flags }
{
    if flags % 4 == 0 { number } else { 0 }
}

impl World {
    pub(crate) fn held_under(&self, number: u16, selector: u16) -> Option<&Held>
        ensures { option_copied result ≡ held_under (known_by self.now) number selector }
    {
        if is_local(selector) {
            held_by(&self.processes, number, selector / 8)
        } else {
            None
        }
    }

    pub(crate) fn segment(&self, name: u64) -> Option<&Segment>
        ensures { marks_in (option_copied result) ≡ (known_by self.now).segment name }
    {
        segment_of(&self.names, name)
    }

    fn allocation_at(
        &self,
        alloc: Global,
        number: u16,
        size: u16,
        flags: u8,
        index: Option<u16>,
    ) -> Result<Verdict, NoMemory>
        requires { IfSome index (λ i. i < 8192) }
        ensures { IfOk result (λ v. ruling_of v ≡ allocation_at (known_by self.now) number size flags index) }
    {
        let Some(index) = index else {
            return Ok(refusal(alloc, 8));
        };
        let segment = made_segment(alloc, size, flags)?;
        let held = held_by_call(self.next_name);
        let edits = two(
            alloc,
            Edit::Makes(segment),
            Edit::Holds(number, index, held),
        )?;
        Ok(grants(8 * index as u32 + 7, edits))
    }

    pub(crate) fn allocation(
        &self,
        alloc: Global,
        number: u16,
        size: u16,
        flags: u16,
    ) -> Result<Verdict, NoMemory>
        ensures { IfOk result (λ v. ruling_of v ≡ allocation (known_by self.now) number size flags) }
    {
        if flags > 15 {
            return Ok(refusal(alloc, 87));
        }
        if self.segments as u64 <= self.count() {
            return Ok(refusal(alloc, 8));
        }
        let index = self.free_index(region_by(number, flags));
        self.allocation_at(alloc, number, size, flags as u8, index)
    }
}

// DosReallocSeg(size, sel)

/// Whether others don't hinder it from shrinking (flag 8).
fn is_sizeable(segment: &Segment) -> bool
    ensures { result ≡ is_sizeable (marks_of segment.now) }
{
    segment.flags / 8 % 2 == 1
}

fn keeps_its_size(size: u32, segment: &Segment) -> bool
    ensures { result ≡ keeps_its_size size (marks_of segment.now) }
{
    segment.clean || (segment.shared && (!is_sizeable(segment) && (size as usize) < segment.size()))
}

/// A discarded segment is made anew, locked once.
fn anew(alloc: Global, name: u64, size: u32) -> Result<Vec<Edit>, NoMemory>
    ensures { IfOk result (λ v. v.items ≡ Revives name ∷ Resizes name size ∷ Locks name 1 ∷ []) }
{
    let mut edits = two(alloc, Edit::Revives(name), Edit::Resizes(name, size))?;
    edits.push(Edit::Locks(name, 1))?;
    Ok(edits)
}

fn reallocation_with(
    alloc: Global,
    name: u64,
    size: u32,
    segment: Option<&Segment>,
) -> Result<Verdict, NoMemory>
    ensures { IfOk result (λ v. ruling_of v ≡ reallocation_with name size (marks_in (option_copied segment.entry))) }
{
    match segment {
        None => Ok(refusal(alloc, 5)),
        Some(segment) => {
            if keeps_its_size(size, segment) {
                return Ok(refusal(alloc, 5));
            }
            let edits = if segment.discarded {
                anew(alloc, name, size)?
            } else {
                one(alloc, Edit::Resizes(name, size))?
            };
            Ok(grants(0, edits))
        }
    }
}

impl World {
    fn reallocation_of(
        &self,
        alloc: Global,
        size: u32,
        held: Option<&Held>,
    ) -> Result<Verdict, NoMemory>
        ensures { IfOk result (λ v. ruling_of v ≡ reallocation_of (known_by self.now) size (option_copied held.entry)) }
    {
        match held {
            None => Ok(refusal(alloc, 5)),
            Some(held) => {
                if is_alias(held) || is_in_run(held) {
                    return Ok(refusal(alloc, 5));
                }
                reallocation_with(alloc, held.name, size, self.segment(held.name))
            }
        }
    }

    pub(crate) fn reallocation(
        &self,
        alloc: Global,
        number: u16,
        size: u16,
        selector: u16,
    ) -> Result<Verdict, NoMemory>
        ensures { IfOk result (λ v. ruling_of v ≡ reallocation (known_by self.now) number size selector) }
    {
        self.reallocation_of(alloc, full_size(size), self.held_under(number, selector))
    }
}

// DosFreeSeg(sel)

#[tactic(auto, using(std::proofs::lemmas::Grind::common_steps, crate::proofs::Lists::drops))]
fn drops(alloc: Global, number: u16, indexes: &[u16]) -> Result<Vec<Edit>, NoMemory>
    ensures { IfOk result (λ v. changes_of v.items ≡ map (λ i. Drops number i 1) indexes.now) }
{
    let mut edits = Vec::new(alloc);
    for index in indexes {
        edits.push(Edit::Drops(number, *index, 1))?;
    }
    Ok(edits)
}

fn freeing_with(alloc: Global, number: u16, cpu: &Cpu, indexes: &[u16]) -> Result<Verdict, NoMemory>
    ensures { IfOk result (λ v. ruling_of v ≡ freeing_with number cpu.now indexes.now) }
{
    if in_use(cpu, indexes) {
        return Ok(refusal(alloc, 5));
    }
    Ok(grants(0, drops(alloc, number, indexes)?))
}

impl World {
    /// The members of a run that a process holds, or the index of a segment alone.
    #[tactic(auto, using(crate::proofs::Lists::members_of))]
    pub(crate) fn members(
        &self,
        alloc: Global,
        number: u16,
        index: u16,
        held: &Held,
    ) -> Result<Vec<u16>, NoMemory>
        ensures { IfOk result (λ v. v.items ≡ members (known_by self.now) number index held.now) }
    {
        let mut indexes = Vec::new(alloc);
        if held.reserved == 0 {
            indexes.push(index)?;
            return Ok(indexes);
        }
        if held.first as u32 + held.reserved as u32 > 65536 {
            return Err(NoMemory);
        }
        for k in 0..held.reserved {
            let member = (held.first as u32 + k as u32) as u16;
            if held_by(&self.processes, number, member).is_some() {
                indexes.push(member)?;
            }
        }
        Ok(indexes)
    }

    fn freeing_of(
        &self,
        alloc: Global,
        number: u16,
        selector: u16,
        cpu: &Cpu,
        held: Option<&Held>,
    ) -> Result<Verdict, NoMemory>
        ensures { IfOk result (λ v. ruling_of v ≡ freeing_of (known_by self.now) number selector cpu.now (option_copied held.entry)) }
    {
        match held {
            None => Ok(refusal(alloc, 5)),
            Some(held) => {
                if by_load(held) || is_later(selector / 8, held) {
                    return Ok(refusal(alloc, 5));
                }
                let indexes = self.members(alloc, number, selector / 8, held)?;
                freeing_with(alloc, number, cpu, &indexes)
            }
        }
    }

    pub(crate) fn freeing(
        &self,
        alloc: Global,
        number: u16,
        selector: u16,
        cpu: &Cpu,
    ) -> Result<Verdict, NoMemory>
        ensures { IfOk result (λ v. ruling_of v ≡ freeing (known_by self.now) number selector cpu.now) }
    {
        self.freeing_of(
            alloc,
            number,
            selector,
            cpu,
            self.held_under(number, selector),
        )
    }
}

// DosSizeSeg(sel, psize)

fn sizing_with(alloc: Global, segment: Option<&Segment>) -> Verdict
    ensures { ruling_of result ≡ sizing_with (marks_in (option_copied segment.entry)) }
{
    match segment {
        None => refusal(alloc, 5),
        Some(segment) => grants(segment.size() as u32, Vec::new(alloc)),
    }
}

impl World {
    fn sizing_of(&self, alloc: Global, held: Option<&Held>) -> Verdict
        ensures { ruling_of result ≡ sizing_of (known_by self.now) (option_copied held.entry) }
    {
        match held {
            None => refusal(alloc, 5),
            Some(held) => sizing_with(alloc, self.segment(held.name)),
        }
    }

    pub(crate) fn sizing(&self, alloc: Global, number: u16, selector: u16) -> Verdict
        ensures { ruling_of result ≡ sizing (known_by self.now) number selector }
    {
        self.sizing_of(alloc, self.held_under(number, selector))
    }
}

// DosLockSeg(sel), DosUnlockSeg(sel)

fn locking_with(alloc: Global, name: u64, segment: Option<&Segment>) -> Result<Verdict, NoMemory>
    ensures { IfOk result (λ v. ruling_of v ≡ locking_with name (marks_in (option_copied segment.entry))) }
{
    match segment {
        None => Ok(refusal(alloc, 5)),
        Some(segment) => {
            if !is_discardable(segment) {
                return Ok(refusal(alloc, 5));
            }
            if segment.discarded {
                return Ok(refusal(alloc, 157));
            }
            let count = if segment.lock < 255 {
                segment.lock + 1
            } else {
                255
            };
            Ok(grants(0, one(alloc, Edit::Locks(name, count))?))
        }
    }
}

fn unlocking_with(alloc: Global, name: u64, segment: Option<&Segment>) -> Result<Verdict, NoMemory>
    ensures { IfOk result (λ v. ruling_of v ≡ unlocking_with name (marks_in (option_copied segment.entry))) }
{
    match segment {
        None => Ok(refusal(alloc, 5)),
        Some(segment) => {
            if !is_discardable(segment) {
                return Ok(refusal(alloc, 5));
            }
            if segment.lock == 0 {
                return Ok(refusal(alloc, 158));
            }
            let count = if segment.lock < 255 {
                segment.lock - 1
            } else {
                segment.lock
            };
            Ok(grants(0, one(alloc, Edit::Locks(name, count))?))
        }
    }
}

impl World {
    fn locking_of(&self, alloc: Global, held: Option<&Held>) -> Result<Verdict, NoMemory>
        ensures { IfOk result (λ v. ruling_of v ≡ locking_of (known_by self.now) (option_copied held.entry)) }
    {
        match held {
            None => Ok(refusal(alloc, 5)),
            Some(held) => locking_with(alloc, held.name, self.segment(held.name)),
        }
    }

    pub(crate) fn locking(
        &self,
        alloc: Global,
        number: u16,
        selector: u16,
    ) -> Result<Verdict, NoMemory>
        ensures { IfOk result (λ v. ruling_of v ≡ locking (known_by self.now) number selector) }
    {
        self.locking_of(alloc, self.held_under(number, selector))
    }

    fn unlocking_of(&self, alloc: Global, held: Option<&Held>) -> Result<Verdict, NoMemory>
        ensures { IfOk result (λ v. ruling_of v ≡ unlocking_of (known_by self.now) (option_copied held.entry)) }
    {
        match held {
            None => Ok(refusal(alloc, 5)),
            Some(held) => unlocking_with(alloc, held.name, self.segment(held.name)),
        }
    }

    pub(crate) fn unlocking(
        &self,
        alloc: Global,
        number: u16,
        selector: u16,
    ) -> Result<Verdict, NoMemory>
        ensures { IfOk result (λ v. ruling_of v ≡ unlocking (known_by self.now) number selector) }
    {
        self.unlocking_of(alloc, self.held_under(number, selector))
    }
}

// DosCreateCSAlias(sel, psel)

fn held_as_code(name: u64) -> Held
    ensures { result ≡ held_as_code name }
{
    Held {
        name,
        rights: Access::READABLE_CODE.0,
        holds: 1,
        how: How::Alias,
        first: 0,
        reserved: 0,
    }
}

fn aliasing_at(
    alloc: Global,
    number: u16,
    name: u64,
    index: Option<u16>,
) -> Result<Verdict, NoMemory>
    requires { IfSome index (λ i. i < 8192) }
    ensures { IfOk result (λ v. ruling_of v ≡ aliasing_at number name index) }
{
    match index {
        None => Ok(refusal(alloc, 8)),
        Some(index) => {
            let edit = Edit::Holds(number, index, held_as_code(name));
            Ok(grants(8 * index as u32 + 7, one(alloc, edit)?))
        }
    }
}

impl World {
    fn aliasing_of(
        &self,
        alloc: Global,
        number: u16,
        index: u16,
        held: Option<&Held>,
    ) -> Result<Verdict, NoMemory>
        ensures { IfOk result (λ v. ruling_of v ≡ aliasing_of (known_by self.now) number index (option_copied held.entry)) }
    {
        match held {
            None => Ok(refusal(alloc, 5)),
            Some(held) => {
                if index >= 4096 || (!Access(held.rights).is_writable() || is_in_run(held)) {
                    return Ok(refusal(alloc, 5));
                }
                aliasing_at(alloc, number, held.name, self.free_index(number))
            }
        }
    }

    pub(crate) fn aliasing(
        &self,
        alloc: Global,
        number: u16,
        selector: u16,
    ) -> Result<Verdict, NoMemory>
        ensures { IfOk result (λ v. ruling_of v ≡ aliasing (known_by self.now) number selector) }
    {
        self.aliasing_of(
            alloc,
            number,
            selector / 8,
            self.held_under(number, selector),
        )
    }
}
