// What came to processes by a call, or went from them.
ghost use Rattle.std.specs.Prelude.{◌≡◌, ◌<◌, ◌≤◌, ◌+◌, ◌-◌, ◌/◌, ◌++◌, ◌∷◌, [], Some, flat_map, length};
ghost use Rattle.o2_regions.specs.declared.answer.Roomed.TheVariants.{Done};
ghost use Rattle.o2_regions.specs.Maps.{IsProcess, held_at};
ghost use Rattle.o2_world.specs.Rulings.{indexes};
ghost use Rattle.o2_gate.specs.MovedLines.{AreInside};
ghost use Rattle.o2_huge.specs.Resized.{is_member_in};
ghost use Rattle.o2_calls.specs.Noted.{blocks_of, came, counted_by, counted_there, counted_under, grown, huge_blocks, in_table, members_from, noted, share_block, shared_blocks, sized_blocks, went};

use o2_base::Selector;
use o2_gate::{Block, HugeArguments, Moves, SegmentArguments, SharedArguments};
use o2_huge::{is_of_run, segments_of};
use o2_regions::{Answer, Held, Regions};

/// The first index that all processes share, and how many indexes a table has.
const SHARED: u16 = 4096;

const INDEXES: u16 = 8192;

/// What a call names by an index that is held: how many indexes from that on, and how often it is held.
#[derive(Clone, Copy, Debug, PartialEq, Eq)]
pub struct Counted {
    pub members: u16,
    pub holds: u32,
}

const NONE: Counted = Counted {
    members: 0,
    holds: 0,
};

fn is_member(regions: &Regions, pid: u16, first: u16, index: u16) -> bool
    requires process { IsProcess regions.now pid }
    requires index { index < 8192 }
    ensures { result ≡ is_member_in regions.now pid first index }
{
    match regions.held(pid, index) {
        Some(held) => is_of_run(first, held),
        None => false,
    }
}

/// How many members of a run a process holds from an index on, one behind the other, of so many indexes.
fn members_from(regions: &Regions, pid: u16, first: u16, index: u16, count: u16) -> u16
    requires process { IsProcess regions.now pid }
    requires inside { index + count ≤ 8192 }
    ensures { result ≡ members_from regions.now pid first index count }
{
    for place in 0..count {
        if !is_member(regions, pid, first, index + place) {
            return place;
        }
    }
    count
}

fn counted_there(regions: &Regions, pid: u16, index: u16, held: Held) -> Counted
    requires process { IsProcess regions.now pid }
    requires index { index < 8192 }
    requires held { held_at regions.now pid index ≡ Some held }
    ensures { result ≡ counted_there regions.now pid index (Some held) }
{
    let end = if index < SHARED { SHARED } else { INDEXES };
    let members = if is_of_run(index, held) {
        members_from(regions, pid, index, index, end - index)
    } else {
        1
    };
    Counted {
        members,
        holds: held.holds,
    }
}

fn counted_under(regions: &Regions, pid: u16, selector: u16) -> Counted
    requires process { IsProcess regions.now pid }
    ensures { result ≡ counted_under regions.now pid selector }
{
    let index = Selector(selector).index();
    if !Selector(selector).is_local() {
        return NONE;
    }
    match regions.held(pid, index) {
        Some(held) => counted_there(regions, pid, index, held),
        None => NONE,
    }
}

/// What a call that frees, gives, or sizes a run names before it.
pub fn count(arguments: SegmentArguments, regions: &Regions, pid: u16) -> Counted
    requires process { IsProcess regions.now pid }
    ensures { result ≡ counted_by arguments regions.now pid }
{
    match arguments {
        SegmentArguments::Free(selector) => counted_under(regions, pid, selector),
        SegmentArguments::Shared(SharedArguments::Give { selector, .. }) => {
            counted_under(regions, pid, selector)
        }
        SegmentArguments::Huge(HugeArguments::Realloc { selector, .. }) => {
            counted_under(regions, pid, selector)
        }
        _ => NONE,
    }
}

// One block.
fn came(process: u16, index: u16, count: u16, holds: u32) -> Block
    ensures { result ≡ came process index count holds }
{
    Block {
        process,
        index,
        count,
        holds,
        came: true,
    }
}

fn went(process: u16, index: u16, count: u16, holds: u32) -> Block
    ensures { result ≡ went process index count holds }
{
    Block {
        process,
        index,
        count,
        holds,
        came: false,
    }
}

// A block is noted where it lies in the table.
fn note_block(moves: &mut Moves, block: Block)
    requires none { moves.old ≡ [] }
    ensures { moves.new ≡ in_table (block ∷ []) }
{
    if u32::from(block.index) + u32::from(block.count) <= 8192 {
        moves.add(block);
    }
}

// So many indexes that came to a process once, by the selector of the first one.
#[tactic(auto, using(crate::proofs::NotedMaps::one_outside))]
fn note_new(moves: &mut Moves, pid: u16, value: u32, count: u32)
    requires none { moves.old ≡ [] }
    ensures { moves.new ≡ in_table (came pid (value / 8) count 1 ∷ []) }
{
    let end = u64::from(value / 8) + u64::from(count);
    if end > 8192 {
        return;
    }
    moves.add(came(pid, (value / 8) as u16, count as u16, 1));
}

// New members of a run for a process, where it holds the first one.
fn note_share(
    moves: &mut Moves,
    process: u16,
    first: u16,
    index: u16,
    count: u16,
    held: Option<Held>,
)
    requires room { length moves.old < 64 }
    ensures adds { moves.new ≡ moves.old ++ share_block first index count process held }
    ensures most { length moves.new ≤ length moves.old + 1 }
{
    match held {
        Some(held) => {
            if is_of_run(first, held) {
                moves.add(came(process, index, count, held.holds));
            }
        }
        None => {}
    }
}

// The same for each process.
#[tactic(auto, using(crate::proofs::NotedMaps::next_shares))]
fn note_shares(moves: &mut Moves, regions: &Regions, first: u16, index: u16, count: u16)
    requires first { first < 8192 }
    requires most { regions.now.processes ≤ 64 }
    requires none { moves.old ≡ [] }
    ensures { moves.new ≡ flat_map (λ q. share_block first index count q (held_at regions.now q first)) (indexes 1 regions.now.processes) }
{
    for before in 0..regions.processes() {
        let held = regions.held(before + 1, first);
        note_share(moves, before + 1, first, index, count, held);
    }
}

// New members of a run from an index on, where they lie in the table.
fn note_grown(
    moves: &mut Moves,
    regions: &Regions,
    pid: u16,
    first: u16,
    there: u16,
    wanted: u32,
    holds: u32,
)
    requires first { first < 8192 }
    requires more { there < wanted }
    requires most { regions.now.processes ≤ 64 }
    requires none { moves.old ≡ [] }
    ensures { moves.new ≡ in_table (grown regions.now pid first (first + there) (wanted - there) holds) }
{
    let end = u64::from(first) + u64::from(wanted);
    if end > 8192 {
        return;
    }
    let count = wanted as u16 - there;
    if first < SHARED {
        moves.add(came(pid, first + there, count, holds));
    } else {
        note_shares(moves, regions, first, first + there, count);
    }
}

// A run of so many members gets so many.
fn note_sized(
    moves: &mut Moves,
    regions: &Regions,
    pid: u16,
    first: u16,
    counted: Counted,
    wanted: u32,
)
    requires first { first < 8192 }
    requires most { regions.now.processes ≤ 64 }
    requires none { moves.old ≡ [] }
    ensures { moves.new ≡ in_table (sized_blocks regions.now pid first counted wanted) }
{
    let there = counted.members;
    if u32::from(there) < wanted {
        note_grown(moves, regions, pid, first, there, wanted, counted.holds);
    } else if wanted < u32::from(there) && u32::from(first) + u32::from(there) <= 8192 {
        let kept = wanted as u16;
        moves.add(went(pid, first + kept, there - kept, counted.holds));
    }
}

fn note_shared(
    moves: &mut Moves,
    arguments: &SharedArguments,
    pid: u16,
    counted: Counted,
    regions: &Regions,
    value: u32,
)
    requires process { IsProcess regions.now pid }
    requires none { moves.old ≡ [] }
    ensures { moves.new ≡ in_table (shared_blocks arguments.now pid counted regions.now value) }
{
    match arguments {
        SharedArguments::Name { .. } => note_new(moves, pid, value, 1),
        SharedArguments::Share(_) => note_new(moves, pid, value, 1),
        SharedArguments::Give { selector, to, .. } => {
            let index = Selector(*selector).index();
            note_block(moves, came(*to, index, counted.members, 1));
        }
        SharedArguments::Get(selector) => {
            let members = counted_under(regions, pid, *selector).members;
            note_block(moves, came(pid, Selector(*selector).index(), members, 1));
        }
    }
}

fn note_huge(
    moves: &mut Moves,
    arguments: &HugeArguments,
    pid: u16,
    counted: Counted,
    regions: &Regions,
    value: u32,
)
    requires most { regions.now.processes ≤ 64 }
    requires none { moves.old ≡ [] }
    ensures { moves.new ≡ in_table (huge_blocks arguments.now pid counted regions.now value) }
{
    match arguments {
        HugeArguments::Alloc { segs, part, .. } => {
            note_new(moves, pid, value, segments_of(*segs, *part));
        }
        HugeArguments::Realloc {
            segs,
            part,
            selector,
        } => {
            let first = Selector(*selector).index();
            let wanted = segments_of(*segs, *part);
            note_sized(moves, regions, pid, first, counted, wanted);
        }
        HugeArguments::Shift => {}
    }
}

fn note_done(
    moves: &mut Moves,
    arguments: SegmentArguments,
    pid: u16,
    counted: Counted,
    regions: &Regions,
    value: u32,
)
    requires process { IsProcess regions.now pid }
    requires most { regions.now.processes ≤ 64 }
    requires none { moves.old ≡ [] }
    ensures { moves.new ≡ in_table (blocks_of arguments pid counted regions.now value) }
{
    match arguments {
        SegmentArguments::Alloc { .. } => note_new(moves, pid, value, 1),
        SegmentArguments::Alias(_) => note_new(moves, pid, value, 1),
        SegmentArguments::Free(selector) => {
            let index = Selector(selector).index();
            note_block(moves, went(pid, index, counted.members, 1));
        }
        SegmentArguments::Shared(shared) => {
            note_shared(moves, &shared, pid, counted, regions, value);
        }
        SegmentArguments::Huge(huge) => note_huge(moves, &huge, pid, counted, regions, value),
        SegmentArguments::Realloc { .. } => {}
        SegmentArguments::Size(_) => {}
        SegmentArguments::Lock(_) => {}
        SegmentArguments::Unlock(_) => {}
    }
}

/// What came to processes by a call, or went from them, by what was counted before it and what is held behind it: at an error or a
/// stop nothing.
pub fn note(
    moves: &mut Moves,
    arguments: SegmentArguments,
    pid: u16,
    counted: Counted,
    regions: &Regions,
    answer: &Answer,
)
    requires process { IsProcess regions.now pid }
    requires most { regions.now.processes ≤ 64 }
    ensures notes { moves.new ≡ noted arguments pid counted regions.now (Done answer.now) }
    ensures inside { AreInside moves.new }
{
    moves.clear();
    if answer.error == 0 {
        note_done(moves, arguments, pid, counted, regions, answer.value);
    }
}
