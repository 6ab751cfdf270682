// Many steps of the process over what is in memory.
ghost use Rattle.test_bus_parts.specs.Trials.{IsReady};

use crate::Bench;
use crate::seats::are_seated;
use o2_bus::{Bus, Cpu, Outcome};
use o2_core::step_one;
use o2_segbus::attempt;

/// So many steps over a bus; the answer is how many were done.
pub fn count_done<B: Bus>(cpu: &mut Cpu, bus: &mut B, steps: u64) -> u64 {
    let mut done = 0u64;
    for _ in 0..steps {
        match step_one(cpu, bus) {
            Outcome::Done => done = done.wrapping_add(1),
            _ => {}
        }
    }
    done
}

impl Bench {
    /// So many steps of process 1 over one bus; the answer is how many were done, 0 where a segment register names what isn't in
    /// memory.
    pub fn run(&mut self, cpu: &mut Cpu, steps: u64) -> u64
        requires { IsReady self.old }
    {
        match self.bus(cpu) {
            Some(mut bus) => count_done(cpu, &mut bus, steps),
            None => 0,
        }
    }

    /// The same with a bus for each step.
    pub fn run_each(&mut self, cpu: &mut Cpu, steps: u64) -> u64
        requires { IsReady self.old }
    {
        if !are_seated(&self.store, &self.regions, cpu) {
            return 0;
        }
        let mut done = 0u64;
        for _step in 0..steps {
            match attempt(cpu, &mut self.store, &mut self.regions, 1) {
                Outcome::Done => done = done.wrapping_add(1),
                _ => {}
            }
        }
        done
    }
}
