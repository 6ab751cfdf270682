// Each call of the swap device fails in turn.

use crate::parts::Parts;
use crate::runs::{Devices, run_command};
use o2_base::NoMemory;
use std::alloc::Global;

/// Where the calls of the swap device are in a run.
#[derive(Clone, Copy)]
pub struct Walked {
    /// How many there are.
    pub calls: u64,
    /// Behind how many lines the last one is.
    pub lines: usize,
}

/// Runs a command with the first call failing, the second one, and so on, until it is done, and tells where these calls are. None if it isn't done with all
/// that it must write, or a run that stops is behind fewer lines than the one before it, the first one behind fewer than these, or writes on.
pub fn walk(
    alloc: Global,
    words: &str,
    parts: &Parts,
    devices: &Devices,
    first: usize,
) -> Result<Option<Walked>, NoMemory> {
    let mut walked = Walked {
        calls: 0,
        lines: first,
    };
    for call in 1..=5000u64 {
        let failing = Devices {
            swap: call,
            ..*devices
        };
        let answer = run_command(alloc, words, parts, &failing)?;
        if answer.is_fine() {
            return Ok(if answer.is_whole(parts) {
                Some(walked)
            } else {
                None
            });
        }
        match answer.lines_behind(parts) {
            Some(lines) if walked.lines <= lines && answer.writes < call => {
                walked = Walked { calls: call, lines };
            }
            _ => return Ok(None),
        }
    }
    Ok(None)
}
