// Look-ups in the lists of a world.
ghost use Rattle.std.specs.Prelude.{◌≡◌, ◌≤◌, is_some, find};
ghost use Rattle.std.specs.Option.{option_copied};
ghost use Rattle.o2_world.specs.Map.{get};
ghost use Rattle.o2_world_parts.specs.Keys.{has_key};
ghost use Rattle.o2_world.specs.Holders.{names_it, holds_name, is_held, process_at};
ghost use Rattle.o2_world.specs.Known.{held_at, holds_index, reserves, lives_at, live_below};
ghost use Rattle.o2_world.specs.Changes.{runs_from, holds_run, run_held, own_run_held, is_used};

use crate::{Held, Process, Reserve, Segment};
use o2_world::State;

fn pair_of(names: &[(u64, Segment)], name: u64) -> Option<&(u64, Segment)>
    ensures { option_copied result ≡ find (has_key name) names.now }
{
    names.iter().find(|pair| pair.0 == name)
}

/// The segment of a name.
#[tactic(auto, using(crate::proofs::Lookups::lookups))]
pub fn segment_of(names: &[(u64, Segment)], name: u64) -> Option<&Segment>
    ensures { option_copied result ≡ get names.now name }
{
    match pair_of(names, name) {
        Some(pair) => Some(&pair.1),
        None => None,
    }
}

fn pair_under(held: &[(u16, Held)], index: u16) -> Option<&(u16, Held)>
    ensures { option_copied result ≡ find (has_key index) held.now }
{
    held.iter().find(|pair| pair.0 == index)
}

/// What is held under an index.
#[tactic(auto, using(crate::proofs::Lookups::lookups))]
pub fn held_under(held: &[(u16, Held)], index: u16) -> Option<&Held>
    ensures { option_copied result ≡ get held.now index }
{
    match pair_under(held, index) {
        Some(pair) => Some(&pair.1),
        None => None,
    }
}

/// The process of a number.
#[tactic(auto, using(crate::proofs::Lookups::lookups))]
pub fn process_of(processes: &[Process], number: u16) -> Option<&Process>
    ensures { option_copied result ≡ process_at processes.now number }
{
    if number == 0 {
        None
    } else {
        processes.get(number as usize - 1)
    }
}

/// What a process holds under an index.
pub fn held_by(processes: &[Process], number: u16, index: u16) -> Option<&Held>
    ensures { option_copied result ≡ held_at processes.now number index }
{
    match process_of(processes, number) {
        Some(process) => held_under(&process.held, index),
        None => None,
    }
}

/// Whether a process holds an index.
pub fn is_held_under(processes: &[Process], number: u16, index: u16) -> bool
    ensures { result ≡ is_some (held_at processes.now number index) }
{
    held_by(processes, number, index).is_some()
}

/// Whether a process is one that has not ended.
pub fn is_alive(processes: &[Process], number: u16) -> bool
    ensures { result ≡ lives_at (process_at processes.now number) }
{
    match process_of(processes, number) {
        Some(process) => match process.state {
            State::Live => true,
            State::Exited(_) => false,
            State::Trapped(_) => false,
        },
        None => false,
    }
}

// Who holds a name.

fn names_it(held: Option<&Held>, name: u64) -> bool
    ensures { result ≡ names_it name (option_copied held.entry) }
{
    match held {
        Some(held) => held.name == name,
        None => false,
    }
}

#[tactic(auto, unfolding(o2_world::specs::Holders::holds_name))]
fn holds_name(held: &[(u16, Held)], name: u64) -> bool
    ensures { result ≡ holds_name held.now name }
{
    held.iter()
        .any(|pair| names_it(held_under(held, pair.0), name))
}

fn names(process: &Process, name: u64) -> bool
    ensures { result ≡ holds_name process.now.held name }
{
    holds_name(&process.held, name)
}

/// Whether some process holds a name.
pub fn is_held(processes: &[Process], name: u64) -> bool
    ensures { result ≡ is_held processes.now name }
{
    processes.iter().any(|process| names(process, name))
}

// Who holds a run.

fn runs_from(held: Option<&Held>, first: u16) -> bool
    ensures { result ≡ runs_from first (option_copied held.entry) }
{
    match held {
        Some(held) => held.first == first && held.reserved != 0,
        None => false,
    }
}

#[tactic(auto, unfolding(o2_world::specs::Changes::holds_run))]
fn holds_run(held: &[(u16, Held)], first: u16) -> bool
    ensures { result ≡ holds_run held.now first }
{
    held.iter()
        .any(|pair| runs_from(held_under(held, pair.0), first))
}

fn runs(process: &Process, first: u16) -> bool
    ensures { result ≡ holds_run process.now.held first }
{
    holds_run(&process.held, first)
}

fn run_held(processes: &[Process], first: u16) -> bool
    ensures { result ≡ run_held processes.now first }
{
    processes.iter().any(|process| runs(process, first))
}

fn own_run_held(process: Option<&Process>, first: u16) -> bool
    ensures { result ≡ own_run_held (option_copied process.entry) first }
{
    match process {
        Some(process) => runs(process, first),
        None => false,
    }
}

/// Whether a reserved run is held by somebody, or stays.
pub fn is_used(processes: &[Process], reserve: &Reserve) -> bool
    ensures { result ≡ is_used processes.now reserve.now }
{
    if reserve.region == 0 {
        reserve.stays || run_held(processes, reserve.first)
    } else {
        own_run_held(process_of(processes, reserve.region), reserve.first)
    }
}

// Which indexes are taken.

fn holds(process: &Process, index: u16) -> bool
    ensures { result ≡ is_some (get process.now.held index) }
{
    held_under(&process.held, index).is_some()
}

/// Whether some process holds an index.
pub fn holds_index(processes: &[Process], index: u16) -> bool
    ensures { result ≡ holds_index processes.now index }
{
    processes.iter().any(|process| holds(process, index))
}

/// Whether an index of a region is among those reserved.
pub fn reserves(reserve: &Reserve, region: u16, index: u16) -> bool
    ensures { result ≡ reserves region index reserve.now }
{
    reserve.region == region
        && reserve.first <= index
        && (index as u32) < reserve.first as u32 + reserve.count as u32
}

/// How many names below a number live.
#[tactic(auto, unfolding(o2_world::specs::Known::live_below), using(crate::proofs::Lookups::lookups))]
pub fn live_below(names: &[(u64, Segment)], number: u64) -> u64
    ensures count { result ≡ live_below names.now number }
    ensures most { result ≤ number }
{
    let mut count = 0;
    for name in 0..number {
        if segment_of(names, name).is_some() {
            count += 1;
        }
    }
    count
}
