//! Tests of the parts of a memory, `o2_phys`, `o2_place`, `o2_compact` and `o2_swapmap`, and of descriptor tables, `o2_regions`: who holds
//! which index, the lowest free runs of indexes, which processes live, and accessed bits.
#![tactic(auto)]

mod compact;
mod phys;
mod place;
mod regions;
mod runs;
mod swapmap;

use std::io;
use test_fixtures::tell;

fn main(rt: HostRuntime) -> io::Result<()> {
    let alloc = rt.alloc();
    let answers = [
        ("each call of a memory", phys::each_call_once(alloc)),
        ("slides", phys::slides_both_ways(alloc)),
        ("ranges that come and go", place::ranges_come_and_go(alloc)),
        (
            "unused segments go first",
            place::unused_ids_go_first(alloc),
        ),
        (
            "used segments go in turn",
            place::used_ids_go_in_turn(alloc),
        ),
        ("compaction", compact::ranges_close_up_and_open(alloc)),
        ("blocks of swap", swapmap::blocks_come_and_go(alloc)),
        (
            "calls and their answers",
            regions::calls_and_their_answers(alloc),
        ),
        ("free runs", runs::runs_in_a_fragmented_region(alloc)),
        (
            "processes that have ended",
            runs::ended_processes_stay_ended(alloc),
        ),
        (
            "256 accessed bits",
            runs::a_list_tells_256_accessed_bits_once_each(alloc),
        ),
    ];
    for (name, answer) in answers {
        tell(&rt, name, answer)?;
    }
    Ok(())
}
