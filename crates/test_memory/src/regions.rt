// Who holds which index, by texts of calls with their answers.
ghost use Rattle.std.specs.Prelude.{◌≡◌, true};
ghost use Rattle.o2_regions.specs.Maps.{IsProcess, is_reserved};
ghost use Rattle.o2_regions.specs.declared.held.Region.TheVariants.{Shared as SharedThere};

use o2_desc::Descriptor;
use o2_place::SegId;
use o2_regions::{Cause, Held, Region, Regions};
use std::alloc::Global;
use test_fixtures::{Wrong, want_line};

// Whether the number is that of a process.
pub fn is_process(regions: &Regions, pid: u16) -> bool
    ensures { result ≡ true → IsProcess regions.now pid }
{
    1 <= pid && pid <= regions.processes()
}

// Reserves the lowest run of a region.
fn take(regions: &mut Regions, region: Region, count: u16) -> Option<u16> {
    if let Region::Private(pid) = region {
        if !is_process(regions, pid) {
            return None;
        }
    }
    if count == 0 {
        return None;
    }
    let first = regions.lowest(region, count)?;
    regions.reserve(region, first, count);
    Some(first)
}

// Holds of a segment, outside a run.
fn holds_of(key: u32, holds: u32) -> Held {
    Held {
        id: SegId { key, age: 7 },
        holds,
        cause: Cause::Called,
        first: 0,
        reserved: 0,
    }
}

// Reserves the lowest index of a process's own, and grants holds at it.
fn hold(regions: &mut Regions, pid: u16, key: u32, holds: u32) -> Option<u16> {
    if !is_process(regions, pid) {
        return None;
    }
    let index = regions.lowest(Region::Private(pid), 1)?;
    regions.reserve(Region::Private(pid), index, 1);
    if regions.held(pid, index).is_none() {
        regions.grant(pid, index, holds_of(key, holds), 0xF2);
    }
    Some(index)
}

// Grants a hold at the first shared index, where the process doesn't hold it.
fn share(regions: &mut Regions, pid: u16, key: u32)
    requires process { IsProcess regions.old pid }
    requires reserved { is_reserved regions.old SharedThere 4096 ≡ true }
    ensures processes { regions.new.processes ≡ regions.old.processes }
    ensures reserved { regions.new.reserved ≡ regions.old.reserved }
{
    if regions.held(pid, 4096).is_none() {
        regions.grant(pid, 4096, holds_of(key, 1), 0xFA);
    }
}

// Reserves the first shared index, and grants a hold at it to each process, the last one first.
fn share_all(regions: &mut Regions, key: u32) {
    if let Some(4096) = regions.lowest(Region::Shared, 1) {
        regions.reserve(Region::Shared, 4096, 1);
        for back in 0..regions.processes() {
            share(regions, regions.processes() - back, key);
        }
    }
}

fn drop_at(regions: &mut Regions, pid: u16, index: u16) -> Option<u32> {
    if !is_process(regions, pid) || index >= 8192 {
        return None;
    }
    regions.drop_one(pid, index)
}

// What is held at an index, and its descriptor's access byte.
fn seen_at(regions: &Regions, pid: u16, index: u16) -> Option<(u32, u8)> {
    if !is_process(regions, pid) || index >= 8192 {
        return None;
    }
    let held = regions.held(pid, index)?;
    let entry = regions.descriptor(pid, index)?;
    Some((held.holds, entry.access))
}

fn next_at(regions: &Regions, pid: u16, from: u16) -> Option<u16> {
    if !is_process(regions, pid) {
        return None;
    }
    regions.next_held(pid, from)
}

// The entry of a process's table, after another access byte was written to it.
fn rewritten(regions: &mut Regions, pid: u16, index: u16, access: u8) -> Option<Descriptor> {
    if !is_process(regions, pid) || index >= 8192 {
        return None;
    }
    let table = regions.table(pid);
    if (index as usize) < table.len() {
        let entry = Descriptor {
            base: 16,
            limit: 3,
            access,
        };
        table.set(index, entry);
    }
    regions.descriptor(pid, index)
}

// The entry of a process's table where it holds something.
fn entry_at(regions: &Regions, pid: u16, index: u16) -> Option<Descriptor> {
    if !is_process(regions, pid) || index >= 8192 {
        return None;
    }
    regions.descriptor(pid, index)
}

// How many indexes of a process's own are taken in turn, one by one from 1 on.
fn fill(regions: &mut Regions, pid: u16) -> u16 {
    let mut count = 0u16;
    for index in 1..8192u16 {
        if take(regions, Region::Private(pid), 1) != Some(index) {
            return count;
        }
        count = index;
    }
    count
}

// How many processes hold a segment in turn at the first shared index, from process 1 on.
fn sharers(regions: &Regions, id: SegId) -> u16 {
    for k in 0..100u16 {
        if regions.holder(id, u32::from(k)) != Some((k + 1, 4096)) {
            return k;
        }
    }
    100
}

// What a call answers: up to three numbers.
type Answer = Option<(u32, u32, u32)>;

fn one(number: u16) -> Answer {
    Some((u32::from(number), 0, 0))
}

fn word(number: u32) -> u16 {
    (number % 65_536) as u16
}

fn region_of(number: u32) -> Region {
    match word(number) {
        0 => Region::Shared,
        pid => Region::Private(pid),
    }
}

// A call that looks: its name and three numbers.
fn look(regions: &Regions, call: &str, n: [u32; 3]) -> Answer {
    match call {
        "seen" => {
            let (holds, access) = seen_at(regions, word(n[0]), word(n[1]))?;
            Some((holds, u32::from(access), 0))
        }
        "next" => one(next_at(regions, word(n[0]), word(n[1]))?),
        "holder" => {
            let (pid, index) = regions.holder(
                SegId {
                    key: n[0],
                    age: u64::from(n[1]),
                },
                n[2],
            )?;
            Some((u32::from(pid), u32::from(index), 0))
        }
        "sharers" => one(sharers(regions, SegId { key: n[0], age: 7 })),
        _ => {
            let entry = entry_at(regions, word(n[0]), word(n[1]))?;
            Some((entry.base, u32::from(entry.limit), u32::from(entry.access)))
        }
    }
}

// A call that changes something.
fn change(regions: &mut Regions, call: &str, n: [u32; 3]) -> Answer {
    match call {
        "take" => one(take(regions, region_of(n[0]), word(n[1]))?),
        "fill" => one(fill(regions, word(n[0]))),
        "hold" => one(hold(regions, word(n[0]), n[1], n[2])?),
        "drop" => Some((drop_at(regions, word(n[0]), word(n[1]))?, 0, 0)),
        "rewrite" => {
            let entry = rewritten(regions, word(n[0]), word(n[1]), (n[2] % 256) as u8)?;
            Some((entry.base, u32::from(entry.access), 0))
        }
        "share" => {
            share_all(regions, n[0]);
            one(0)
        }
        "away" => {
            regions.describe(SegId { key: n[0], age: 7 }, None, word(n[1]));
            one(0)
        }
        _ => {
            regions.describe(SegId { key: n[0], age: 7 }, Some(n[2]), word(n[1]));
            one(0)
        }
    }
}

fn number(text: &str) -> u32 {
    match text.strip_prefix("0x") {
        Some(digits) => u32::from_str_radix(digits, 16).unwrap_or(0xDEAD),
        None => text.parse::<u32>().unwrap_or(0xDEAD),
    }
}

// Up to three numbers, with 0 for those that are missing.
fn numbers(text: &str) -> [u32; 3] {
    let mut found = [0u32; 3];
    for (word, place) in text.split_ascii_whitespace().zip(found.iter_mut()) {
        *place = number(word);
    }
    found
}

// Whether a line's call answers what the line says.
fn is_right(regions: &mut Regions, call: &str, wanted: &str) -> bool {
    let (name, rest) = call.split_once(' ').unwrap_or((call, ""));
    let answer = match name {
        "seen" | "next" | "holder" | "sharers" | "entry" => look(regions, name, numbers(rest)),
        _ => change(regions, name, numbers(rest)),
    };
    let [a, b, c] = numbers(wanted);
    match answer {
        Some(found) => found == (a, b, c),
        None => wanted == "none",
    }
}

// The first line of a text of calls that answers something else, or no text.
fn first_wrong<'a>(regions: &mut Regions, text: &'a str) -> &'a str {
    for line in text.lines() {
        if let Some((call, wanted)) = line.split_once(" = ") {
            if !is_right(regions, call, wanted) {
                return line;
            }
        }
    }
    ""
}

// The lowest run of indexes of a region, where 0 is the shared one, is taken.
static FULL: &str = "
fill 1 = 4095
take 1 1 = none
take 2 4096 = none
take 2 4095 = 1
take 0 4000 = 4096
take 0 97 = none
take 0 96 = 8096
take 0 1 = none
";

// Process, key and number of holds; process and index; the holds and the access byte; process, index and access byte, with the
// base that is written beside it; process and the index from which on it holds something.
static COUNTED: &str = "
hold 2 5 4000000000 = 1
hold 2 6 2 = 2
drop 2 1 = 3999999999
drop 2 2 = 1
drop 2 2 = 0
drop 2 2 = none
drop 2 3 = none
seen 2 1 = 3999999999 0xF2
seen 2 2 = none
seen 1 1 = none
rewrite 2 2 0xF0 = none
rewrite 2 1 0xF0 = 16 0xF0
next 2 0 = 1
next 2 1 = 1
next 2 2 = none
next 2 65535 = none
next 3 0 = none
";

// A holder's key, age and number, with process and index.
static SHARED: &str = "
share 3 = 0
sharers 3 = 64
holder 3 7 64 = none
take 0 1 = 4097
hold 5 3 1 = 1
hold 5 65539 1 = 2
holder 3 7 3 = 4 4096
holder 3 7 4 = 5 1
holder 3 7 5 = 5 4096
holder 3 7 64 = 64 4096
drop 5 1 = 0
drop 64 4096 = 0
holder 3 7 62 = 63 4096
holder 3 7 63 = none
holder 3 8 0 = none
holder 65539 7 0 = 5 2
";

// A key with limit and base, or with the limit alone; and a process's index, with base, limit and access byte.
static TOLD: &str = "
share 5 = 0
hold 2 5 1 = 1
hold 2 65541 1 = 2
hold 3 6 1 = 1
here 5 0x0FFF 0x1230 = 0
entry 1 4096 = 0x1230 0x0FFF 0xFA
entry 2 1 = 0x1230 0x0FFF 0xF2
entry 2 4096 = 0x1230 0x0FFF 0xFA
entry 3 4096 = 0x1230 0x0FFF 0xFA
entry 2 2 = 0 0 0xF2
entry 3 1 = 0 0 0xF2
away 5 0x0FFF = 0
entry 1 4096 = 0 0x0FFF 0x7A
entry 2 1 = 0 0x0FFF 0x72
entry 2 4096 = 0 0x0FFF 0x7A
entry 3 4096 = 0 0x0FFF 0x7A
entry 2 2 = 0 0 0xF2
entry 3 1 = 0 0 0xF2
here 5 0x0FFF 0x40 = 0
entry 1 4096 = 0x40 0x0FFF 0xFA
entry 2 1 = 0x40 0x0FFF 0xF2
entry 2 4096 = 0x40 0x0FFF 0xFA
entry 3 4096 = 0x40 0x0FFF 0xFA
entry 2 2 = 0 0 0xF2
entry 3 1 = 0 0 0xF2
";

// The first wrong line of calls on this many processes.
fn wrong(alloc: Global, processes: u16, text: &'static str) -> Result<&'static str, Wrong> {
    if processes == 0 || processes > 64 {
        return Ok("processes");
    }
    let mut regions = Regions::new(alloc, processes)?;
    Ok(first_wrong(&mut regions, text))
}

pub fn calls_and_their_answers(alloc: Global) -> Result<(), Wrong> {
    for (processes, text) in [(2u16, FULL), (3, COUNTED), (64, SHARED), (3, TOLD)] {
        let line = wrong(alloc, processes, text)?;
        want_line(line.is_empty(), line)?;
    }
    Ok(())
}
