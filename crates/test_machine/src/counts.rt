// Machines turn by turn: what they count, and that a stop or an end is final.

use crate::outside::Outside;
use crate::trials::{Plan, Trial, first_wrong};
use crate::turns::{is_final, other_answer};
use o2_base::NoMemory;
use o2_machine::{Machine, Steps, Turn};
use o2_outer::SwapDevice;
use std::alloc::Global;
use test_fixtures::hello::changed;
use test_fixtures::{Files, Wrong, add_file, add_text};

const KEYS: &str =
    "memory = 4096\nswap = 0\nsegments = 3\nquantum = 1000\nmodules = [\"a.exe\"]\nprocess = [{ module = \"HELLO\" }]\nbudget = ";

/// A machine, and what it comes to.
struct Row {
    plan: Plan,
    budget: &'static str,
    changes: &'static [(usize, u8)],
    answer: Turn,
    steps: u64,
    console_bytes: u64,
    report_lines: u128,
    line_put: bool,
    /// The state of the process, and its code.
    state: (u16, u16),
}

/// DosRead of 8 bytes from handle 0 in place of DosWrite.
const READ: &[(usize, u8)] = &[(0xD1, 137), (0xB1, 0), (0xB7, 8), (0xBA, 8)];

/// PUSH 0302h, POPF, NOP: exception 1 follows the third instruction.
const SINGLE_STEP: &[(usize, u8)] = &[
    (0xB0, 0x68),
    (0xB1, 0x02),
    (0xB2, 0x03),
    (0xB3, 0x9D),
    (0xB4, 0x90),
];

static ROWS: [Row; 8] = [
    Row {
        plan: Plan {
            name: "an end of all processes",
            takes: &[],
            console: &[],
            report: &[],
            device: &[],
        },
        budget: "1000",
        changes: &[],
        answer: Turn::AllEnded,
        steps: 10,
        console_bytes: 5,
        report_lines: 8,
        line_put: false,
        state: (1, 0),
    },
    Row {
        plan: Plan {
            name: "a budget that is spent",
            takes: &[],
            console: &[],
            report: &[],
            device: &[],
        },
        budget: "9",
        changes: &[],
        answer: Turn::BudgetSpent,
        steps: 9,
        console_bytes: 5,
        report_lines: 6,
        line_put: false,
        state: (0, 0),
    },
    Row {
        plan: Plan {
            name: "an input that fails",
            takes: &[1],
            console: &[],
            report: &[],
            device: &[],
        },
        budget: "1000",
        changes: READ,
        answer: Turn::InputFault,
        steps: 6,
        console_bytes: 0,
        report_lines: 4,
        line_put: true,
        state: (0, 0),
    },
    Row {
        plan: Plan {
            name: "an input that fails, and the put of the stop line with it",
            takes: &[1],
            console: &[],
            report: &[(5, 3)],
            device: &[],
        },
        budget: "1000",
        changes: READ,
        answer: Turn::InputFault,
        steps: 6,
        console_bytes: 0,
        report_lines: 4,
        line_put: false,
        state: (0, 0),
    },
    Row {
        plan: Plan {
            name: "a console that fails",
            takes: &[],
            console: &[(1, 2)],
            report: &[],
            device: &[],
        },
        budget: "1000",
        changes: &[],
        answer: Turn::SinkFault,
        steps: 6,
        console_bytes: 0,
        report_lines: 4,
        line_put: false,
        state: (0, 0),
    },
    Row {
        plan: Plan {
            name: "a report that fails in the last line",
            takes: &[],
            console: &[],
            report: &[(8, 4)],
            device: &[],
        },
        budget: "1000",
        changes: &[],
        answer: Turn::SinkFault,
        steps: 10,
        console_bytes: 5,
        report_lines: 7,
        line_put: false,
        state: (1, 0),
    },
    Row {
        plan: Plan {
            name: "exception 1 behind a step",
            takes: &[],
            console: &[],
            report: &[],
            device: &[],
        },
        budget: "3",
        changes: SINGLE_STEP,
        answer: Turn::AllEnded,
        steps: 3,
        console_bytes: 0,
        report_lines: 6,
        line_put: false,
        state: (2, 1),
    },
    Row {
        plan: Plan {
            name: "a report that fails in the line of that exception",
            takes: &[],
            console: &[],
            report: &[(5, 1)],
            device: &[],
        },
        budget: "3",
        changes: SINGLE_STEP,
        answer: Turn::SinkFault,
        steps: 3,
        console_bytes: 0,
        report_lines: 5,
        line_put: false,
        state: (2, 1),
    },
];

/// Whether a machine tells what a row has.
fn is_told(machine: &Machine, row: &Row) -> bool {
    machine.stopped() == Some(row.answer)
        && machine.steps() == row.steps
        && machine.console_bytes() == row.console_bytes
        && machine.report_lines() == row.report_lines
        && machine.line_put() == row.line_put
}

/// Whether its only process has the state and the code of a row.
fn is_left_so(machine: &Machine, row: &Row) -> bool {
    let Some((_, state, code)) = machine.process(1) else {
        return false;
    };
    (state, code) == row.state && machine.process(0).is_none() && machine.process(2).is_none()
}

impl Trial for Row {
    fn plan(&self) -> &Plan {
        &self.plan
    }

    /// The machine file of one process with this budget, and the program that writes `hello` with some bytes changed.
    fn add_files(&self, alloc: Global, files: &mut Files) -> Result<(), NoMemory> {
        add_text(alloc, files, "a.toml", KEYS, self.budget)?;
        add_file(alloc, files, "a.exe", changed(alloc, self.changes)?)
    }

    fn wrong_of<S: SwapDevice>(
        &self,
        machine: &mut Machine,
        outside: &mut Outside,
        later: &mut Outside,
        swap: &mut S,
    ) -> &'static str {
        if machine.stopped().is_some() {
            return "it has stopped before its first turn";
        }
        if other_answer(machine, outside, swap, 100, Turn::Ran) != self.answer {
            return "it comes to another answer";
        }
        if !is_told(machine, self) || !is_left_so(machine, self) {
            return "other counts, another state or other processes";
        }
        if !is_final(machine, later, swap, self.answer) || !is_told(machine, self) {
            return "a later turn isn't the same";
        }
        ""
    }
}

pub fn counts_and_a_turn_after_a_stop(alloc: Global) -> Result<(), Wrong> {
    first_wrong(alloc, &ROWS)
}
