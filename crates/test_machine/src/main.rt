//! Tests of `o2_machine`: machines that are taken turn by turn, with ample memory, over swap devices that change or fail.
#![tactic(auto)]

mod changed;
mod counts;
mod files;
mod finals;
mod outside;
mod rows;
mod trials;
mod turns;

use std::io;
use test_fixtures::tell;

fn main(rt: HostRuntime) -> io::Result<()> {
    tell(
        &rt,
        "turns and counts",
        counts::counts_and_a_turn_after_a_stop(rt.alloc()),
    )?;
    tell(
        &rt,
        "devices that change or fail",
        rows::machines_over_devices_that_change_or_fail(rt.alloc()),
    )
}
