// What a machine tells of itself.
ghost use Rattle.std.specs.Prelude.{◌≡◌, ◌+◌, ◌-◌, ℕ, List, length, option_map};
ghost use Rattle.o2_world.specs.World.{World, Setting};
ghost use Rattle.o2_world.specs.Run.{steps_done};
ghost use Rattle.o2_machine.specs.Lasts.{last_lines, stopped_of, put_of};
ghost use Rattle.o2_machine.specs.Shown.{numbered, shown_proc, shown_process, state_number, end_code};
ghost use Rattle.o2_machine.specs.StandsFor.{StandsFor};

use crate::last::{Last, answer};
use crate::machine::Machine;
use o2_isa::Cpu;
use o2_regions::Regions;
use o2_run::Turn;
use o2_store::Store;
use o2_world::State;

/// 0 where a process lives, 1 where it exited, and 2 where an exception ended it.
fn state_number(state: State) -> u16
    ensures { result ≡ state_number state }
{
    match state {
        State::Live => 0,
        State::Exited(_) => 1,
        State::Trapped(_) => 2,
    }
}

/// The exit code or the vector, and 0 where a process lives.
fn end_code(state: State) -> u16
    ensures { result ≡ end_code state }
{
    match state {
        State::Live => 0,
        State::Exited(code) => code,
        State::Trapped(vector) => vector as u16,
    }
}

impl Machine {
    /// The steps done so far.
    pub fn steps(&self) -> u64
        ensures value { result ≡ self.now.budget - self.now.sched.dispatch.budget }
        ensures world { (device : ℕ) (block : ℕ → List ℕ) (s : Setting) (w : World)
            → StandsFor self.now device block s w → result ≡ steps_done s w }
    {
        (self.budget - self.sched.budget()) as u64
    }

    /// The bytes of the console so far.
    pub fn console_bytes(&self) -> u64
        ensures value { result ≡ self.now.console_bytes }
        ensures world { (device : ℕ) (block : ℕ → List ℕ) (s : Setting) (w : World)
            → StandsFor self.now device block s w → result ≡ length w.console }
    {
        self.console_bytes
    }

    /// The lines of the report so far: `all ended` and `budget spent` count once they are put, and a stop line doesn't.
    pub fn report_lines(&self) -> u128
        ensures value { result ≡ self.now.lines + last_lines self.now.last }
        ensures world { (device : ℕ) (block : ℕ → List ℕ) (s : Setting) (w : World)
            → StandsFor self.now device block s w → result ≡ length w.lines + last_lines self.now.last }
    {
        match self.last {
            Some(Last::AllEnded) => self.lines + 1,
            Some(Last::BudgetSpent) => self.lines + 1,
            _ => self.lines,
        }
    }

    /// The segments, in memory and out of it.
    pub fn store(&self) -> &Store
        ensures { result.now ≡ self.now.space.store }
    {
        &self.space.store
    }

    /// What each process holds, and its descriptors.
    pub fn regions(&self) -> &Regions
        ensures { result.now ≡ self.now.space.regions }
    {
        &self.space.regions
    }

    /// The registers of process `pid`, the number of its state (0 where it lives, 1 where it exited, 2 where an exception ended
    /// it), and its exit code or vector, 0 where it lives. None exactly where `pid` is the number of no process.
    pub fn process(&self, pid: u16) -> Option<(Cpu, u16, u16)>
        ensures value { result ≡ option_map shown_proc (numbered self.now.space.procs.items pid) }
        ensures world { (device : ℕ) (block : ℕ → List ℕ) (s : Setting) (w : World)
            → StandsFor self.now device block s w → result ≡ option_map shown_process (numbered w.processes pid) }
    {
        if pid == 0 {
            return None;
        }
        match self.space.procs.get(pid as usize - 1) {
            None => None,
            Some(process) => Some((
                process.cpu,
                state_number(process.state),
                end_code(process.state),
            )),
        }
    }

    /// The answer of the first turn that ended or stopped the run, which every later turn repeats; none before.
    pub fn stopped(&self) -> Option<Turn>
        ensures { result ≡ stopped_of self.now.last }
    {
        match self.last {
            None => None,
            Some(_) => Some(answer(self.last)),
        }
    }

    /// Whether the stop line was put whole. False before a stop, and at an end, which has no stop line.
    pub fn line_put(&self) -> bool
        ensures { result ≡ put_of self.now.last }
    {
        match self.last {
            Some(Last::Stopped(_, put)) => put,
            _ => false,
        }
    }
}
