//! Tests of `o2_words` and `o2_cli`: words with their command, and statuses with their lines.
#![tactic(auto)]

mod status;
mod words;

use std::io;
use test_fixtures::tell;

fn main(rt: HostRuntime) -> io::Result<()> {
    let alloc = rt.alloc();
    let answers = [
        ("12 statuses", status::statuses(alloc)),
        ("23 commands", words::words_of_a_command(alloc)),
        ("52 words that are none", words::other_words(alloc)),
        ("want of memory", words::want_of_memory_alone(alloc)),
    ];
    for (name, answer) in answers {
        tell(&rt, name, answer)?;
    }
    Ok(())
}
