//! Tests of `o2_conf`, `o2_gen` and `o2_sched`: machine files with what they say or are refused for, the executable and the setting of a
//! bench, and whose steps come by a machine file.
#![tactic(auto)]

mod bench;
mod conf;
mod sched;

use std::io;
use test_fixtures::tell;

fn main(rt: HostRuntime) -> io::Result<()> {
    let alloc = rt.alloc();
    let answers = [
        ("201 machine files", conf::machine_file_faults(alloc)),
        (
            "bytes that are no text",
            conf::bytes_that_are_no_text(alloc),
        ),
        (
            "the longest file",
            conf::a_file_of_the_longest_length(alloc),
        ),
        ("a setting", conf::a_setting(alloc)),
        ("the default ordinals", conf::the_default_ordinals(alloc)),
        (
            "the file of a bench",
            bench::the_file_is_that_of_the_tools(alloc),
        ),
        ("its checks", bench::the_file_passes_its_checks(alloc)),
        (
            "its setting",
            bench::the_setting_is_that_of_a_machine_file(alloc),
        ),
        ("whose steps come", sched::whose_steps_come(alloc)),
    ];
    for (name, answer) in answers {
        tell(&rt, name, answer)?;
    }
    Ok(())
}
