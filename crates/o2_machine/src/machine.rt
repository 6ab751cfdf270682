// The machine.
ghost use Rattle.std.specs.Prelude.{◌≡◌, ◌≤◌, ◌+◌, ◌*◌, ◌^◌, length};

use crate::last::Last;
use o2_sched::Sched;
use o2_space::Space;

/// Processes over a store, with the schedule of their steps, and how much is put.
#[derive(Drop)]
pub struct Machine {
    /// The processes, the store of their segments, and what each holds.
    pub space: Space,
    pub sched: Sched,
    /// The steps of the whole run at most.
    pub budget: u32,
    /// The bytes put to the console.
    pub console_bytes: u64,
    /// The lines put to the report, without the last line of a run.
    pub lines: u128,
    /// The answer from its end or its stop on.
    pub last: Option<Last>,
    ghost same: { length sched.flags ≡ length space.procs.items },
    ghost few_bytes: { console_bytes + 65535 * sched.dispatch.budget ≤ 65535 * budget },
    ghost few_lines: { lines + 2 ^ 64 * sched.dispatch.budget ≤ 2 ^ 96 + 2 ^ 64 * budget },
}
