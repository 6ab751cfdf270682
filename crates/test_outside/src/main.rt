//! Tests of `o2_outer` and `o2_run`: sinks, sources and devices that fail, files of the folder, and runs that are stopped.
#![tactic(auto)]

mod blocks;
mod folder;
mod outer;
mod run;
mod swap;
mod system;

use std::io;
use test_fixtures::tell;

fn main(rt: HostRuntime) -> io::Result<()> {
    let alloc = rt.alloc();
    let answers = [
        (
            "4 sinks byte by byte",
            outer::a_sink_writes_byte_by_byte_and_holds_what_was_taken_before_it_fails(),
        ),
        (
            "8 sources over reads that fail",
            outer::a_source_gives_later_what_was_before_an_error_and_reads_no_more(alloc),
        ),
        (
            "7 calls of a device that fails",
            outer::a_device_fails_at_its_calls_and_at_one_write(alloc),
        ),
        ("a file of the folder", folder::a_file_of_the_folder(&rt)),
        (
            "7 trials of a swap device in a file",
            folder::a_swap_device_in_a_file_of_the_folder(&rt),
        ),
        (
            "7 writes of a swap device that fail",
            swap::a_write_that_fails_and_then_has_room_loses_nothing_that_waits(),
        ),
        (
            "a file that may not be read",
            swap::a_file_that_may_not_be_read_is_a_fault(alloc),
        ),
        ("4 stops", run::each_stop(alloc)),
    ];
    for (name, answer) in answers {
        tell(&rt, name, answer)?;
    }
    Ok(())
}
