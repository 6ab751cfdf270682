// What the calls on huge allocations come to: error number, value and changes.
ghost use Rattle.std.specs.Prelude.{◌≡◌, ◌≤◌, ◌<◌, ◌+◌, ◌==◌, ◌&&◌, ◌++◌, ◌∷◌, [], IfOk, IfSome, drop, if◌then◌else◌, nat_le, nat_lt};
ghost use Rattle.std.specs.Option.{option_copied};
ghost use Rattle.o2_world.specs.HugeRulings.{all_bytes, all_dropped, all_hold, bytes_of, dropped_members, flags_in, held_in_run, huge_allocation, huge_at};
ghost use Rattle.o2_world.specs.HugeRulings.{huge_reallocation, huge_reallocation_of, is_first, is_huge_fault, is_unheld, left_in_run, names_one, new_members};
ghost use Rattle.o2_world.specs.HugeRulings.{other_shares, resized_members, resized_one, run_changes, run_reserve, run_resized, segments_of, share_of, size_in, sizes_of};
ghost use Rattle.o2_world.specs.HugeRulings.{without};
ghost use Rattle.o2_world.specs.Rulings.{indexes};
ghost use Rattle.o2_world.specs.SharedRulings.{marks_under, shared_from};
ghost use Rattle.o2_world_parts.specs.Edits.{changes_of};
ghost use Rattle.o2_boundless.specs.Shown.{known_by};
ghost use Rattle.o2_boundless.specs.Verdicts.{marks_in, ruling_of};

use crate::World;
use crate::rulings::{
    Verdict, full_size, grants, in_use, is_in_run, is_index, made_segment, refusal, region_by,
};
use crate::sharing::holder;
use o2_base::NoMemory;
use o2_desc::Access;
use o2_isa::Cpu;
use o2_world_parts::{Edit, Held, How, Reserve, Segment, held_by, is_held_under};
use std::alloc::Global;

/// A run of indexes: its first one, and how many are reserved for it.
#[derive(Clone, Copy, Debug, PartialEq, Eq)]
pub(crate) struct Run {
    first: u16,
    count: u16,
}

/// How many segments: so many of 65,536 bytes, and one of `part` bytes where that isn't 0.
fn segments_of(segs: u16, part: u16) -> u32
    ensures segments { result ≡ segments_of segs part }
    ensures most { result ≤ 65536 }
{
    if part == 0 {
        u32::from(segs)
    } else {
        u32::from(segs) + 1
    }
}

/// Their sizes as words, of which 0 stands for 65,536.
fn sizes_of(alloc: Global, segs: u16, part: u16) -> Result<Vec<u16>, NoMemory>
    ensures { IfOk result (λ v. v.items ≡ sizes_of segs part) }
{
    let mut sizes = vec![in alloc; 0; segs as usize]?;
    if part != 0 {
        sizes.push(part)?;
    }
    Ok(sizes)
}

/// So many indexes in a row.
#[tactic(auto, using(crate::proofs::Lists::rising))]
fn indexes(alloc: Global, first: u16, count: u16) -> Result<Vec<u16>, NoMemory>
    requires { first + count ≤ 65536 }
    ensures { IfOk result (λ v. v.items ≡ indexes first count) }
{
    let mut all = Vec::new(alloc);
    for k in 0..count {
        all.push((u32::from(first) + u32::from(k)) as u16)?;
    }
    Ok(all)
}

/// What a process holds of a run.
fn held_in_run(name: u64, run: Run, holds: u32) -> Held
    ensures { result ≡ held_in_run name run.first run.count holds }
{
    Held {
        name,
        rights: Access::WRITABLE_DATA.0,
        holds,
        how: How::Call,
        first: run.first,
        reserved: run.count,
    }
}

/// Each of these processes holds a member so often.
#[tactic(auto, using(crate::proofs::Runs::holding))]
fn put_holds(
    edits: &mut Vec<Edit>,
    name: u64,
    run: Run,
    index: u16,
    holders: &[(u16, u32)],
) -> Result<(), NoMemory>
    ensures { IfOk result (λ _. changes_of edits.new.items ≡ changes_of edits.old.items ++ all_hold name run.first run.count index holders.now) }
{
    for k in 0..holders.len() {
        let (process, holds) = holders[k];
        edits.push(Edit::Holds(process, index, held_in_run(name, run, holds)))?;
    }
    Ok(())
}

/// A new member of a run.
#[tactic(auto, using(crate::proofs::Runs::holding))]
fn put_member(
    alloc: Global,
    edits: &mut Vec<Edit>,
    name: u64,
    run: Run,
    flags: u8,
    holders: &[(u16, u32)],
    index: u16,
    size: u16,
) -> Result<(), NoMemory>
    ensures { IfOk result (λ _. changes_of edits.new.items
        ≡ changes_of edits.old.items ++ new_members name run.first run.count flags holders.now (index ∷ []) (size ∷ [])) }
{
    let segment = made_segment(alloc, size, flags)?;
    edits.push(Edit::Makes(segment))?;
    put_holds(edits, name, run, index, holders)
}

/// New members of a run, with the next names.
#[tactic(auto, using(crate::proofs::Runs::members))]
fn put_members(
    alloc: Global,
    edits: &mut Vec<Edit>,
    name: u64,
    run: Run,
    flags: u8,
    holders: &[(u16, u32)],
    indexes: &[u16],
    sizes: &[u16],
) -> Result<(), NoMemory>
    ensures { IfOk result (λ _. changes_of edits.new.items
        ≡ changes_of edits.old.items ++ new_members name run.first run.count flags holders.now indexes.now sizes.now) }
{
    let most = indexes.len().min(sizes.len());
    for k in 0..most {
        let Some(next) = name.checked_add(k as u64) else {
            return Err(NoMemory);
        };
        put_member(
            alloc, edits, next, run, flags, holders, indexes[k], sizes[k],
        )?;
    }
    Ok(())
}

// DosAllocHuge(segs, part, psel, max, flags)

fn is_huge_fault(count: u32, most: u16, flags: u16) -> bool
    ensures { result ≡ is_huge_fault count most flags }
{
    15 < flags || flags / 4 % 2 == 1 || count == 0 || (most != 0 && u32::from(most) < count)
}

/// As many indexes in a row from the first one on are reserved.
fn run_reserve(region: u16, run: Run) -> Reserve
    ensures { result ≡ run_reserve region run.first run.count }
{
    Reserve {
        region,
        first: run.first,
        count: run.count,
        stays: false,
    }
}

fn one_holder(alloc: Global, number: u16, holds: u32) -> Result<Vec<(u16, u32)>, NoMemory>
    ensures { IfOk result (λ v. v.items ≡ (number, holds) ∷ []) }
{
    let mut holders = Vec::new(alloc);
    holders.push((number, holds))?;
    Ok(holders)
}

impl World {
    /// Whether so many names more would be more than may live.
    fn is_too_many(&self, more: u32) -> bool
        ensures { result ≡ nat_lt (known_by self.now).most ((known_by self.now).count + more) }
    {
        let most = u64::from(self.segments);
        let more = u64::from(more);
        most < more || most - more < self.count()
    }

    fn huge_at(
        &self,
        alloc: Global,
        number: u16,
        segs: u16,
        part: u16,
        count: u32,
        flags: u8,
        index: Option<u16>,
    ) -> Result<Verdict, NoMemory>
        requires local { IfSome index (λ i. i < 8192) }
        requires few { IfSome index (λ i. count ≤ 4096) }
        requires enough { segments_of segs part ≤ count }
        ensures { IfOk result (λ v. ruling_of v ≡ huge_at (known_by self.now) number segs part count flags index) }
    {
        let Some(first) = index else {
            return Ok(refusal(alloc, 8));
        };
        let run = Run {
            first,
            count: count as u16,
        };
        let holders = one_holder(alloc, number, 1)?;
        let members = indexes(alloc, first, segments_of(segs, part) as u16)?;
        let sizes = sizes_of(alloc, segs, part)?;
        let mut edits = Vec::new(alloc);
        put_members(
            alloc,
            &mut edits,
            self.next_name,
            run,
            flags,
            &holders,
            &members,
            &sizes,
        )?;
        let reserve = run_reserve(region_by(number, u16::from(flags)), run);
        edits.push(Edit::Reserves(reserve))?;
        Ok(grants(8 * u32::from(first) + 7, edits))
    }

    pub(crate) fn huge_allocation(
        &self,
        alloc: Global,
        number: u16,
        segs: u16,
        part: u16,
        most: u16,
        flags: u16,
    ) -> Result<Verdict, NoMemory>
        ensures { IfOk result (λ v. ruling_of v ≡ huge_allocation (known_by self.now) number segs part most flags) }
    {
        let segments = segments_of(segs, part);
        if is_huge_fault(segments, most, flags) {
            return Ok(refusal(alloc, 87));
        }
        if self.is_too_many(segments) {
            return Ok(refusal(alloc, 8));
        }
        let count = segments.max(u32::from(most));
        let index = self.free_run(region_by(number, flags), count);
        self.huge_at(alloc, number, segs, part, count, flags as u8, index)
    }
}

// DosReallocHuge(segs, part, sel)

fn is_first(index: u16, held: &Held) -> bool
    ensures { result ≡ is_first index held.now }
{
    is_in_run(held) && held.first == index
}

fn size_in(segment: Option<&Segment>) -> u64
    ensures { result ≡ size_in (marks_in (option_copied segment.entry)) }
{
    match segment {
        None => 0,
        Some(segment) => segment.size() as u64,
    }
}

fn flags_in(segment: Option<&Segment>) -> u8
    ensures { result ≡ flags_in (marks_in (option_copied segment.entry)) }
{
    match segment {
        None => 0,
        Some(segment) => segment.flags,
    }
}

/// A member gets a size, where it has another one.
fn put_resized(
    edits: &mut Vec<Edit>,
    size: u16,
    held: Option<&Held>,
    segment: Option<&Segment>,
) -> Result<(), NoMemory>
    ensures { IfOk result (λ _. changes_of edits.new.items
        ≡ changes_of edits.old.items ++ resized_one size (option_copied held.entry) (marks_in (option_copied segment.entry))) }
{
    let bytes = full_size(size);
    if let Some(held) = held {
        if let Some(segment) = segment {
            if segment.size() != bytes as usize {
                edits.push(Edit::Resizes(held.name, bytes))?;
            }
        }
    }
    Ok(())
}

/// All holds of a member go.
fn put_all_dropped(
    edits: &mut Vec<Edit>,
    number: u16,
    index: u16,
    held: Option<&Held>,
) -> Result<(), NoMemory>
    ensures { IfOk result (λ _. changes_of edits.new.items ≡ changes_of edits.old.items ++ all_dropped number index (option_copied held.entry)) }
{
    if let Some(held) = held {
        edits.push(Edit::Drops(number, index, held.holds))?;
    }
    Ok(())
}

/// A process that holds a run, with how often it holds its first member.
fn put_share(
    shares: &mut Vec<(u16, u32)>,
    first: u16,
    process: u16,
    held: Option<&Held>,
) -> Result<(), NoMemory>
    ensures { IfOk result (λ _. shares.new.items ≡ shares.old.items ++ share_of first process (option_copied held.entry)) }
{
    if let Some(held) = held {
        if is_first(first, held) {
            shares.push((process, held.holds))?;
        }
    }
    Ok(())
}

/// What is behind so many items.
fn behind(items: &[u16], count: usize) -> &[u16]
    ensures { result.now ≡ drop count items.now }
{
    if items.len() <= count {
        return &items[items.len()..];
    }
    &items[count..]
}

impl World {
    fn held_at(&self, number: u16, index: u16) -> Option<&Held>
        ensures { option_copied result ≡ (known_by self.now).held number index }
    {
        held_by(&self.processes, number, index)
    }

    /// The segment of what a process holds at an index.
    fn segment_at(&self, number: u16, index: u16) -> Option<&Segment>
        ensures { marks_in (option_copied result) ≡ marks_under (known_by self.now) ((known_by self.now).held number index) }
    {
        match self.held_at(number, index) {
            None => None,
            Some(held) => self.segment(held.name),
        }
    }

    /// The bytes of all members together.
    #[tactic(auto, using(crate::proofs::Runs::bytes))]
    fn all_bytes(&self, number: u16, indexes: &[u16]) -> Result<u64, NoMemory>
        ensures { IfOk result (λ n. n ≡ all_bytes (known_by self.now) number indexes.now) }
    {
        let mut bytes = 0u64;
        for k in 0..indexes.len() {
            let size = size_in(self.segment_at(number, indexes[k]));
            let Some(more) = bytes.checked_add(size) else {
                return Err(NoMemory);
            };
            bytes = more;
        }
        Ok(bytes)
    }

    /// Whether nobody holds an index: below the shared ones the process itself doesn't.
    fn is_unheld(&self, number: u16, index: u16) -> Result<bool, NoMemory>
        ensures { IfOk result (λ b. b ≡ is_unheld (known_by self.now) number index) }
    {
        if 4096 <= index {
            let holder = holder(&self.processes, index)?;
            return Ok(holder.is_none());
        }
        Ok(!is_held_under(&self.processes, number, index))
    }

    /// The reserved indexes that are still free for new members.
    #[tactic(auto, using(crate::proofs::Lists::members_of))]
    fn left_in_run(&self, alloc: Global, number: u16, held: &Held) -> Result<Vec<u16>, NoMemory>
        ensures { IfOk result (λ v. v.items ≡ left_in_run (known_by self.now) number held.now) }
    {
        let mut left = Vec::new(alloc);
        if u32::from(held.first) + u32::from(held.reserved) > 65536 {
            return Err(NoMemory);
        }
        for k in 0..held.reserved {
            let index = (u32::from(held.first) + u32::from(k)) as u16;
            let is_free = self.is_unheld(number, index)?;
            if is_free {
                left.push(index)?;
            }
        }
        Ok(left)
    }

    fn put_share_of(
        &self,
        shares: &mut Vec<(u16, u32)>,
        number: u16,
        first: u16,
        process: u16,
    ) -> Result<(), NoMemory>
        ensures { IfOk result (λ _. shares.new.items ≡ shares.old.items
            ++ (if process == number then [] else share_of first process ((known_by self.now).held process first))) }
    {
        if process == number {
            return Ok(());
        }
        put_share(shares, first, process, self.held_at(process, first))
    }

    /// The caller, and the other processes that hold a shared run.
    #[tactic(auto, using(crate::proofs::Runs::sharing))]
    fn holders(
        &self,
        alloc: Global,
        number: u16,
        first: u16,
        holds: u32,
    ) -> Result<Vec<(u16, u32)>, NoMemory>
        ensures { IfOk result (λ v. v.items ≡ (number, holds) ∷ other_shares (known_by self.now) number first) }
    {
        let mut shares = one_holder(alloc, number, holds)?;
        if first < 4096 {
            return Ok(shares);
        }
        if self.processes.len() > 65535 {
            return Err(NoMemory);
        }
        for k in 0..self.processes.len() as u16 {
            self.put_share_of(&mut shares, number, first, k + 1)?;
        }
        Ok(shares)
    }

    #[tactic(auto, using(crate::proofs::Runs::sizing))]
    fn put_resized_members(
        &self,
        edits: &mut Vec<Edit>,
        number: u16,
        indexes: &[u16],
        sizes: &[u16],
    ) -> Result<(), NoMemory>
        ensures { IfOk result (λ _. changes_of edits.new.items
            ≡ changes_of edits.old.items ++ resized_members (known_by self.now) number indexes.now sizes.now) }
    {
        let most = indexes.len().min(sizes.len());
        for k in 0..most {
            let index = indexes[k];
            put_resized(
                edits,
                sizes[k],
                self.held_at(number, index),
                self.segment_at(number, index),
            )?;
        }
        Ok(())
    }

    #[tactic(auto, using(crate::proofs::Runs::dropping))]
    fn put_dropped_members(
        &self,
        edits: &mut Vec<Edit>,
        number: u16,
        indexes: &[u16],
    ) -> Result<(), NoMemory>
        ensures { IfOk result (λ _. changes_of edits.new.items
            ≡ changes_of edits.old.items ++ dropped_members (known_by self.now) number indexes.now) }
    {
        for k in 0..indexes.len() {
            put_all_dropped(edits, number, indexes[k], self.held_at(number, indexes[k]))?;
        }
        Ok(())
    }

    /// The changes of a run whose members are to be of these sizes.
    fn run_changes(
        &self,
        alloc: Global,
        number: u16,
        held: &Held,
        members: &[u16],
        sizes: &[u16],
    ) -> Result<Vec<Edit>, NoMemory>
        ensures { IfOk result (λ v. changes_of v.items ≡ run_changes (known_by self.now) number held.now members.now sizes.now) }
    {
        let run = Run {
            first: held.first,
            count: held.reserved,
        };
        let flags = flags_in(self.segment(held.name));
        let holders = self.holders(alloc, number, held.first, held.holds)?;
        let left = self.left_in_run(alloc, number, held)?;
        let mut edits = Vec::new(alloc);
        self.put_resized_members(&mut edits, number, members, sizes)?;
        put_members(
            alloc,
            &mut edits,
            self.next_name,
            run,
            flags,
            &holders,
            &left,
            behind(sizes, members.len()),
        )?;
        self.put_dropped_members(&mut edits, number, behind(members, sizes.len()))?;
        Ok(edits)
    }

    /// Whether a shared run would have fewer bytes than it has.
    fn would_shrink(
        &self,
        number: u16,
        segs: u16,
        part: u16,
        first: u16,
        members: &[u16],
    ) -> Result<bool, NoMemory>
        ensures { IfOk result (λ b. b ≡ (nat_le shared_from first && nat_lt (bytes_of segs part) (all_bytes (known_by self.now) number members.now))) }
    {
        let bytes = self.all_bytes(number, members)?;
        Ok(4096 <= first && u64::from(segs) * 65536 + u64::from(part) < bytes)
    }

    fn run_resized(
        &self,
        alloc: Global,
        number: u16,
        segs: u16,
        part: u16,
        cpu: &Cpu,
        held: &Held,
        members: &[u16],
    ) -> Result<Verdict, NoMemory>
        ensures { IfOk result (λ v. ruling_of v ≡ run_resized (known_by self.now) number segs part cpu.now held.now members.now) }
    {
        let segments = segments_of(segs, part);
        if segments == 0 {
            return Ok(refusal(alloc, 87));
        }
        if u32::from(held.reserved) < segments {
            return Ok(refusal(alloc, 8));
        }
        let shrinks = self.would_shrink(number, segs, part, held.first, members)?;
        if shrinks || in_use(cpu, behind(members, segments as usize)) {
            return Ok(refusal(alloc, 5));
        }
        let left = self.left_in_run(alloc, number, held)?;
        if members.len() > 65536 || left.len() > 65536 {
            return Err(NoMemory);
        }
        let there = members.len() as u32;
        if self.is_too_many(segments.saturating_sub(there))
            || there + (left.len() as u32) < segments
        {
            return Ok(refusal(alloc, 8));
        }
        let sizes = sizes_of(alloc, segs, part)?;
        let edits = self.run_changes(alloc, number, held, members, &sizes)?;
        Ok(grants(0, edits))
    }

    fn huge_reallocation_of(
        &self,
        alloc: Global,
        number: u16,
        index: u16,
        segs: u16,
        part: u16,
        cpu: &Cpu,
        held: Option<&Held>,
    ) -> Result<Verdict, NoMemory>
        ensures { IfOk result (λ v. ruling_of v ≡ huge_reallocation_of (known_by self.now) number index segs part cpu.now (option_copied held.entry)) }
    {
        match held {
            None => Ok(refusal(alloc, 5)),
            Some(held) => {
                if !is_first(index, held) {
                    return Ok(refusal(alloc, 5));
                }
                let members = self.members(alloc, number, index, held)?;
                self.run_resized(alloc, number, segs, part, cpu, held, &members)
            }
        }
    }

    pub(crate) fn huge_reallocation(
        &self,
        alloc: Global,
        number: u16,
        segs: u16,
        part: u16,
        selector: u16,
        cpu: &Cpu,
    ) -> Result<Verdict, NoMemory>
        ensures { IfOk result (λ v. ruling_of v ≡ huge_reallocation (known_by self.now) number segs part selector cpu.now) }
    {
        self.huge_reallocation_of(
            alloc,
            number,
            selector / 8,
            segs,
            part,
            cpu,
            self.held_under(number, selector),
        )
    }
}

fn names_one(selector: u16, indexes: &[u16]) -> bool
    ensures { result ≡ names_one selector indexes.now }
{
    indexes.iter().any(|i| is_index(selector, *i))
}

/// The registers behind it: DS and ES are 0 where they named a member that is gone.
pub(crate) fn without(cpu: &Cpu, indexes: &[u16]) -> Cpu
    ensures { result ≡ without cpu.now indexes.now }
{
    let mut after = *cpu;
    if names_one(cpu.ds, indexes) {
        after.ds = 0;
    }
    if names_one(cpu.es, indexes) {
        after.es = 0;
    }
    after
}
