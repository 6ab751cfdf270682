//! Tests of `o2_store`: segments that share a small memory, and calls at random beside a plain model, over devices that fail.
#![tactic(auto)]

mod plain;
mod sharing;

use std::io;
use test_fixtures::tell;

fn main(rt: HostRuntime) -> io::Result<()> {
    tell(
        &rt,
        "segments that share a memory",
        sharing::segments_share_the_memory(rt.alloc()),
    )?;
    tell(
        &rt,
        "calls at random",
        plain::segments_are_byte_lists(rt.alloc()),
    )
}
