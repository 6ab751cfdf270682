//! Tests of `o2_service` and `o2_shared`: what is needed comes into small memories, over a device that may fail, and all names of segments.
#![tactic(auto)]

mod calls;
mod names;
mod scripts;
mod service;

use std::io;
use test_fixtures::tell;

fn main(rt: HostRuntime) -> io::Result<()> {
    let alloc = rt.alloc();
    tell(&rt, "a need", service::a_need_has_sixteen_segments())?;
    tell(
        &rt,
        "3 scripts",
        service::what_is_needed_comes_in_or_nothing_changes(alloc),
    )?;
    tell(
        &rt,
        "4096 names",
        names::all_names_are_found_and_given_anew(alloc),
    )
}
