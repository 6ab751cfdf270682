// The rows: machines, and what they come to.

use crate::files::add_files;
use crate::outside::Outside;
use crate::trials::{Plan, Trial, first_wrong};
use crate::{changed, finals};
use o2_base::NoMemory;
use o2_machine::{Machine, Turn};
use o2_outer::SwapDevice;
use std::alloc::Global;
use test_fixtures::{Files, Wrong};

/// What a machine must come to.
#[derive(Clone, Copy)]
enum Wanted {
    /// It reads what was written behind its back.
    Change,
    /// It stops with this answer and this last line.
    Stop(Turn, &'static str),
}

/// A machine by the keys of its file.
struct Row {
    plan: Plan,
    keys: &'static str,
    wanted: Wanted,
}

static ROWS: [Row; 4] = [
    Row {
        plan: Plan {
            name: "a segment holds what its blocks hold",
            takes: &[],
            console: &[],
            report: &[],
            device: &[],
        },
        keys: "memory = 20480\nswap = 2048\nbudget = 100",
        wanted: Wanted::Change,
    },
    Row {
        plan: Plan {
            name: "no room is final",
            takes: &[],
            console: &[],
            report: &[],
            device: &[],
        },
        keys: "memory = 16384\nswap = 2048\nbudget = 100",
        wanted: Wanted::Stop(Turn::NoRoom, "\nstop room\n"),
    },
    Row {
        plan: Plan {
            name: "a full swap file is final",
            takes: &[],
            console: &[],
            report: &[],
            device: &[],
        },
        keys: "memory = 20480\nswap = 0\nbudget = 100",
        wanted: Wanted::Stop(Turn::SwapFull, "\nstop swap full\n"),
    },
    Row {
        plan: Plan {
            name: "a fault of the swap file is final",
            takes: &[],
            console: &[],
            report: &[],
            device: &[1],
        },
        keys: "memory = 20480\nswap = 2048\nbudget = 100",
        wanted: Wanted::Stop(Turn::SwapFault, "\nstop swap fault\n"),
    },
];

impl Trial for Row {
    fn plan(&self) -> &Plan {
        &self.plan
    }

    fn add_files(&self, alloc: Global, files: &mut Files) -> Result<(), NoMemory> {
        add_files(alloc, files, self.keys)
    }

    fn wrong_of<S: SwapDevice>(
        &self,
        machine: &mut Machine,
        outside: &mut Outside,
        later: &mut Outside,
        swap: &mut S,
    ) -> &'static str {
        match self.wanted {
            Wanted::Change => changed::wrong_of(machine, outside, swap),
            Wanted::Stop(answer, line) => {
                finals::wrong_of(machine, outside, later, swap, answer, line)
            }
        }
    }
}

pub fn machines_over_devices_that_change_or_fail(alloc: Global) -> Result<(), Wrong> {
    first_wrong(alloc, &ROWS)
}
