// Times the calls that its arguments name, each by one line: the name, how many were done, and milliseconds.
//
// The names are `decode`; `loop`, `moves`, `sums`, `calls` and `strings` of steps over one bus of a plain memory, which with
// `-each` behind them have a bus for each step, and with `-store` or `-store-each` run over a store; `tables`, `lowest`, `runs`,
// `grants`, `walks` and `holders` of who holds which index; and `swaps`, `halves` and `copies` of segments that leave the memory.
// Those of the readers, `check`, `fill` and `names`, of the parts of a memory, `fit`, `victim`, `slide` and `blocks`, and of what a
// step needs, `serve`, have a size of at most 65,535, as in `fit=65535`; it is 1,000 where it is missing. Without arguments it
// prints nothing.
#![tactic(auto)]

mod decoding;
mod memory;
mod readers;
mod regions;
mod serving;
mod stepping;
mod store;
mod stored;

use decoding::decode_many;
use memory::{fit_many, list_many, slide_many, victim_many};
use o2_base::NoMemory;
use readers::{check_many, fill_many, name_many};
use regions::{Act, act_many, make_many};
use serving::serve_many;
use std::alloc::Global;
use std::time::Instant;
use std::{env, io};
use stepping::{CALLS, LOOP, MOVES, STRINGS, SUMS, step_many};
use store::{copy_many, swap_many};
use stored::store_many;

const STEPS: u64 = 3_000_000;

const ROUNDS: u64 = 300_000;

/// The code that a name stands for.
fn code_of(name: &str) -> Option<&'static [u8]> {
    match name {
        "loop" => Some(LOOP.as_slice()),
        "moves" => Some(MOVES.as_slice()),
        "sums" => Some(SUMS.as_slice()),
        "calls" => Some(CALLS.as_slice()),
        "strings" => Some(STRINGS.as_slice()),
        _ => None,
    }
}

/// Steps of code, over the memory that is named behind it.
fn measure_steps(alloc: Global, code: &[u8], over: &str) -> Result<u64, NoMemory> {
    match over {
        "" => step_many(alloc, code, STEPS, false),
        "each" => step_many(alloc, code, STEPS, true),
        "store" => store_many(alloc, code, STEPS, false),
        "store-each" => store_many(alloc, code, STEPS, true),
        _ => Ok(0),
    }
}

/// Calls on who holds which index, and segments that leave the memory.
fn measure_tables(alloc: Global, name: &str) -> Result<u64, NoMemory> {
    match name {
        "tables" => make_many(alloc, 20),
        "lowest" => act_many(alloc, Act::Lowest, STEPS),
        "runs" => act_many(alloc, Act::Runs, STEPS),
        "grants" => act_many(alloc, Act::Grants, STEPS),
        "walks" => act_many(alloc, Act::Walks, 10_000),
        "holders" => act_many(alloc, Act::Holders, 10_000),
        "swaps" => swap_many(alloc, 500, 65_536, 100_000),
        "halves" => swap_many(alloc, 1000, 32_768, 100_000),
        "copies" => copy_many(alloc, 67_108_864, 65_536, 200_000),
        _ => Ok(0),
    }
}

/// Calls that have a size; none for another name.
fn measure_sized(alloc: Global, name: &str, size: u16) -> Option<Result<u64, NoMemory>> {
    Some(match name {
        "check" => check_many(alloc, size),
        "fill" => fill_many(alloc, size),
        "names" => name_many(alloc, size),
        "fit" => fit_many(alloc, size),
        "victim" => victim_many(alloc, size),
        "slide" => slide_many(alloc, size),
        "blocks" => list_many(alloc, size),
        "serve" => serve_many(alloc, size),
        _ => return None,
    })
}

/// What the name stands for, done many times; 0 for another name, and where there is no memory.
fn measure(alloc: Global, name: &str) -> u64 {
    let (sized, size) = name.split_once('=').unwrap_or((name, "1000"));
    let (first, over) = name.split_once('-').unwrap_or((name, ""));
    if first == "decode" {
        return decode_many(ROUNDS);
    }
    let done = match code_of(first) {
        Some(code) => measure_steps(alloc, code, over),
        None => match measure_sized(alloc, sized, size.parse().unwrap_or(0)) {
            Some(done) => done,
            None => measure_tables(alloc, name),
        },
    };
    done.unwrap_or(0)
}

fn main(rt: HostRuntime) -> io::Result<()> {
    for name in env::args(&rt)?.skip(1) {
        let start = Instant::now(&rt)?;
        let done = measure(rt.alloc(), name.as_str());
        let spent = start.elapsed(&rt)?;
        println!(rt; "{name} {done} {}", spent.as_millis())?;
    }
    Ok(())
}
