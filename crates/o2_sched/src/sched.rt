// The schedule of a run.
ghost use Rattle.std.specs.Prelude.{◌≡◌, ◌≤◌, ◌<◌, ◌+◌, ◌-◌, true, false, length, slice_set, replicate, IfOk};
ghost use Rattle.std.specs.List.{list_any};
ghost use Rattle.o2_conf.specs.Dispatch.{counted};

use crate::place::{Place, advanced, fill_turns, to_discard};
use o2_base::NoMemory;
use o2_conf::{Conf, Word};
use std::alloc::Global;
use std::marker::Model;

/// What comes next.
#[derive(Clone, Copy, Debug, PartialEq, Eq)]
pub enum Pick {
    /// A step of this process.
    Step(u16),
    /// A word `discard`, before that step.
    Discard,
    /// Nothing: all processes have ended.
    AllEnded,
    /// Nothing: the budget is spent.
    BudgetSpent,
}

/// Steps of one turn that may be taken at once: whose they are, and how many at most.
#[derive(Clone, Copy, Debug, PartialEq, Eq)]
pub struct Ahead {
    pub process: u16,
    pub most: u32,
}

/// The schedule of a run of 1 to 64 processes. After `new` no call takes memory.
#[derive(Drop)]
pub struct Sched {
    script: Vec<Word>,
    place: Place,
    budget: u32,
    quantum: u32,
    flags: Vec<bool>,
    turns: Vec<u16>,
    any_lives: bool,
}

impl Model for Sched {
    ghost use Rattle.std.specs.Prelude.{length};
    ghost use Rattle.o2_sched.specs.Places.{place_dispatch, IsWithin};
    ghost use Rattle.o2_sched.specs.Schedule.{Schedule};

    ghost Value = { Schedule };

    ghost view = { λ s. record { dispatch = place_dispatch s.script.items s.place s.budget; flags = s.flags.items; quantum = s.quantum } };

    ghost invariant = { λ s. IsWithin (length s.script.items) s.place s.flags.items s.turns.items s.any_lives };
}

impl Sched {
    ghost use Rattle.o2_sched.specs.declared.sched.Pick.TheVariants.{Discard};
    ghost use Rattle.o2_sched.specs.Schedule.{Schedule, has_word, ahead_of, behind_pick, next_of, pick_of, is_step, taken, PicksLive, opening_dispatch};

    /// The schedule of so many processes, before their first step. The budget is the steps of the whole run, and the quantum
    /// those of a turn.
    pub fn new(
        alloc: Global,
        processes: u16,
        script: Vec<Word>,
        budget: u32,
        quantum: u32,
    ) -> Result<Sched, NoMemory>
        requires { processes ≤ 64 }
        ensures { IfOk result (λ s. s ≡ record { dispatch = opening_dispatch script.items budget; flags = replicate processes true; quantum = quantum }) }
    {
        let flags = vec![in alloc; true; processes as usize]?;
        let mut turns = vec![in alloc; 0u16; processes as usize + 1]?;
        fill_turns(&mut turns, &flags);
        Ok(Sched {
            script,
            place: Place {
                at: 0,
                current: 0,
                left: 0,
                turn: 0,
            },
            budget,
            quantum,
            any_lives: any(&flags),
            flags,
            turns,
        })
    }

    /// The schedule of a setting, before the first step.
    pub fn make(alloc: Global, conf: &Conf) -> Result<Sched, NoMemory>
        requires { length conf.now.process ≤ 64 }
        ensures { IfOk result (λ s. s ≡ record { dispatch = opening_dispatch conf.now.script conf.now.budget; flags = replicate (length conf.now.process) true; quantum = conf.now.quantum }) }
    {
        let script = conf.script.to_vec(alloc)?;
        Sched::new(
            alloc,
            conf.process.len() as u16,
            script,
            conf.budget,
            conf.quantum,
        )
    }

    /// The steps that are left of the whole run.
    pub fn budget(&self) -> u32
        ensures { result ≡ self.now.dispatch.budget }
    {
        self.budget
    }

    /// Whether a word `discard` comes before the next step.
    fn has_word(&self) -> bool
        ensures { result ≡ has_word self.now }
    {
        to_discard(self.place, &self.script, &self.flags) > 0
    }

    /// What comes next. A step is one of a process that lives.
    pub fn coming(&self) -> Pick
        ensures pick { result ≡ pick_of self.now }
        ensures live { PicksLive self.now.flags result }
    {
        if !self.any_lives {
            return Pick::AllEnded;
        }
        if self.budget == 0 {
            return Pick::BudgetSpent;
        }
        if self.has_word() {
            return Pick::Discard;
        }
        let place = advanced(
            self.place,
            &self.script,
            &self.flags,
            &self.turns,
            self.quantum,
        );
        Pick::Step(place.current)
    }

    /// Takes the word that comes before the next step.
    fn take_word(&mut self)
        requires { has_word self.old ≡ true }
        ensures { self.new ≡ behind_pick self.old Discard }
    {
        let words = to_discard(self.place, &self.script, &self.flags);
        self.place = Place {
            at: self.place.at + words,
            ..self.place
        };
    }

    /// What comes next, where a word `discard` is taken: behind it comes what the script goes on with.
    pub fn next(&mut self) -> Pick
        ensures pick { result ≡ pick_of self.old }
        ensures live { PicksLive self.old.flags result }
        ensures behind { self.new ≡ behind_pick self.old result }
    {
        match self.coming() {
            Pick::Step(pid) => Pick::Step(pid),
            Pick::AllEnded => Pick::AllEnded,
            Pick::BudgetSpent => Pick::BudgetSpent,
            Pick::Discard => {
                self.take_word();
                Pick::Discard
            }
        }
    }

    /// The step that was next is done.
    pub fn stepped(&mut self)
        requires { is_step (pick_of self.old) ≡ true }
        ensures { self.new ≡ record self.old { dispatch = counted (next_of self.old) } }
    {
        let place = advanced(
            self.place,
            &self.script,
            &self.flags,
            &self.turns,
            self.quantum,
        );
        self.place = Place {
            left: place.left.saturating_sub(1),
            ..place
        };
        self.budget -= 1;
    }

    /// The steps that may be taken at once: all that are left of the turn that the next step is of, within the budget. None where all
    /// processes have ended, or a word `discard` comes before them.
    pub fn ahead(&mut self) -> Ahead
        ensures most { result.most ≡ ahead_of self.old }
        ensures process { result.process ≡ (next_of self.old).current }
        ensures same { self.new ≡ self.old }
    {
        let place = advanced(
            self.place,
            &self.script,
            &self.flags,
            &self.turns,
            self.quantum,
        );
        let process = place.current;
        if !self.any_lives || self.has_word() {
            return Ahead { process, most: 0 };
        }
        Ahead {
            process,
            most: place.left.min(self.budget),
        }
    }

    /// So many steps of the turn that the next step is of are done.
    pub fn take(&mut self, steps: u32)
        requires turn { steps ≤ (next_of self.old).left }
        requires budget { steps ≤ self.old.dispatch.budget }
        ensures taken { self.new ≡ record self.old { dispatch = taken steps (next_of self.old) } }
        ensures left { self.new.dispatch.budget + steps ≡ self.old.dispatch.budget }
    {
        let place = advanced(
            self.place,
            &self.script,
            &self.flags,
            &self.turns,
            self.quantum,
        );
        self.place = Place {
            left: place.left - steps,
            ..place
        };
        self.budget -= steps;
    }

    /// A process has ended.
    pub fn ended(&mut self, pid: u16)
        requires first { 0 < pid }
        requires there { pid ≤ length self.old.flags }
        ensures { self.new ≡ record self.old { flags = slice_set self.old.flags (pid - 1) false } }
    {
        self.flags[pid as usize - 1] = false;
        fill_turns(&mut self.turns, &self.flags);
        self.any_lives = any(&self.flags);
    }
}

/// Whether any process lives.
fn any(flags: &[bool]) -> bool
    ensures { result ≡ list_any (λ b. b) flags.now }
{
    flags.iter().any(|live| *live)
}
