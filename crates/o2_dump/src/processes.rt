// The processes.
ghost use Rattle.std.specs.Prelude.{◌≡◌, ◌+◌, ◌≤◌, ◌<◌, length, IfOk, OnOk};
ghost use Rattle.o2_ne.specs.Checks.{all_hold};
ghost use Rattle.o2_ne.specs.Steps.{Gives, steps};
ghost use Rattle.o2_dump.specs.Readings.{held_so_far, processes_so_far};
ghost use Rattle.o2_dump.specs.ProcessEntries.{held_of, process_checks, process_step, state_of};

use crate::fault::CoreFault;
use crate::fields::{need, registers_at};
use crate::held::HeldReading;
use crate::parts::{HeldList, Process, State};
use o2_base::Fail;
use o2_ne::{u16_at, u32_at};
use std::alloc::Global;

// Whether the fields of the process at a place are right and whole, behind those with a number below `least`.
fn check_process(file: &[u8], least: u32, at: usize) -> Result<(), CoreFault>
    requires place { at ≤ length file.now }
    ensures exact { result ≡ all_hold (process_checks file.now least at) }
    ensures inside { OnOk result (at + 38 ≤ length file.now) }
{
    need(file, at, 2)?;
    if u32::from(u16_at(file, at)) < least {
        return Err(CoreFault::BadEntry(at as u64));
    }
    need(file, at + 2, 2)?;
    if u16_at(file, at + 2) > 2 {
        return Err(CoreFault::BadEntry(at as u64));
    }
    need(file, at + 4, 34)?;
    Ok(())
}

fn state_of(number: u16) -> State
    ensures { result ≡ state_of number }
{
    match number {
        0 => State::Live,
        1 => State::Exited,
        _ => State::Trapped,
    }
}

// The entries of the process at a place.
fn held_of(
    alloc: Global,
    file: &[u8],
    segments: u32,
    at: usize,
) -> Result<HeldReading, Fail<CoreFault>>
    requires place { at + 38 ≤ length file.now }
    ensures exact { Gives (λ h. held_so_far h) result (held_of file.now segments at) }
    ensures inside { IfOk result (λ h. h.place ≤ length file.now) }
{
    let mut reading = HeldReading {
        found: Vec::new(alloc),
        least: 0,
        place: at + 38,
    };
    reading.all(file, segments, u32_at(file, at + 34))?;
    Ok(reading)
}

// The processes so far.
#[derive(Drop)]
pub(crate) struct ProcessReading {
    pub(crate) found: Vec<Process>,
    // the least number that may come next
    pub(crate) least: u32,
    pub(crate) place: usize,
}

impl ProcessReading {
    // The next process.
    #[tactic(auto, unfolding(crate::specs::ProcessEntries::process_step))]
    fn next(&mut self, alloc: Global, file: &[u8], segments: u32) -> Result<(), Fail<CoreFault>>
        requires place { self.old.place ≤ length file.now }
        ensures step { Gives (λ _. processes_so_far self.new) result (process_step file.now segments (processes_so_far self.old)) }
        ensures inside { OnOk result (self.new.place ≤ length file.now) }
    {
        let at = self.place;
        check_process(file, self.least, at)?;
        let HeldReading { found, place, .. } = held_of(alloc, file, segments, at)?;
        let number = u16_at(file, at);
        self.found.push(Process {
            number,
            state: state_of(u16_at(file, at + 2)),
            code: u16_at(file, at + 4),
            registers: registers_at(file, at + 6),
            held: HeldList::new(found),
        })?;
        self.least = u32::from(number) + 1;
        self.place = place;
        Ok(())
    }

    // All processes, of which there are `count`.
    pub(crate) fn all(
        &mut self,
        alloc: Global,
        file: &[u8],
        segments: u32,
        count: u32,
    ) -> Result<(), Fail<CoreFault>>
        requires place { self.old.place ≤ length file.now }
        ensures exact { Gives (λ _. processes_so_far self.new) result (steps (process_step file.now segments) count (processes_so_far self.old)) }
        ensures inside { OnOk result (self.new.place ≤ length file.now) }
    {
        for _ in 0..count {
            self.next(alloc, file, segments)?;
        }
        Ok(())
    }
}
