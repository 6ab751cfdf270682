// What a process holds.
ghost use Rattle.std.specs.Prelude.{◌≡◌, ◌+◌, ◌≤◌, ◌<◌, length, OnOk};
ghost use Rattle.o2_ne.specs.Checks.{all_hold};
ghost use Rattle.o2_ne.specs.Steps.{Gives, steps};
ghost use Rattle.o2_dump.specs.Readings.{held_so_far};
ghost use Rattle.o2_dump.specs.ProcessEntries.{held_at, held_checks, held_step};

use crate::fault::CoreFault;
use crate::fields::{descriptor_at, need};
use crate::parts::Held;
use o2_base::Fail;
use o2_ne::{u16_at, u32_at};

// Whether the entry at a place is right and whole, behind those with an index below `least`.
fn check_held(file: &[u8], segments: u32, least: u32, at: usize) -> Result<(), CoreFault>
    requires place { at ≤ length file.now }
    ensures exact { result ≡ all_hold (held_checks file.now segments least at) }
    ensures inside { OnOk result (at + 18 ≤ length file.now) }
{
    need(file, at, 2)?;
    if u32::from(u16_at(file, at)) < least {
        return Err(CoreFault::BadEntry(at as u64));
    }
    need(file, at + 2, 8)?;
    if file[at + 8] != 0 || file[at + 9] != 0 {
        return Err(CoreFault::BadEntry(at as u64));
    }
    need(file, at + 10, 4)?;
    if u32_at(file, at + 10) >= segments {
        return Err(CoreFault::BadEntry(at as u64));
    }
    need(file, at + 14, 4)?;
    if u32_at(file, at + 14) == 0 {
        return Err(CoreFault::BadEntry(at as u64));
    }
    Ok(())
}

// The entry at a place.
fn held_at(file: &[u8], at: usize) -> Held
    requires { at + 18 ≤ length file.now }
    ensures { result ≡ held_at file.now at }
{
    Held {
        index: u16_at(file, at),
        descriptor: descriptor_at(file, at + 2),
        segment: u32_at(file, at + 10),
        holds: u32_at(file, at + 14),
    }
}

// What a process holds so far.
#[derive(Drop)]
pub(crate) struct HeldReading {
    pub(crate) found: Vec<Held>,
    // the least index that may come next
    pub(crate) least: u32,
    pub(crate) place: usize,
}

impl HeldReading {
    // The next entry.
    #[tactic(auto, unfolding(crate::specs::ProcessEntries::held_step))]
    fn next(&mut self, file: &[u8], segments: u32) -> Result<(), Fail<CoreFault>>
        requires place { self.old.place ≤ length file.now }
        ensures step { Gives (λ _. held_so_far self.new) result (held_step file.now segments (held_so_far self.old)) }
        ensures inside { OnOk result (self.new.place ≤ length file.now) }
    {
        check_held(file, segments, self.least, self.place)?;
        let held = held_at(file, self.place);
        self.found.push(held)?;
        self.least = u32::from(held.index) + 1;
        self.place += 18;
        Ok(())
    }

    // All entries, of which there are `count`.
    pub(crate) fn all(
        &mut self,
        file: &[u8],
        segments: u32,
        count: u32,
    ) -> Result<(), Fail<CoreFault>>
        requires place { self.old.place ≤ length file.now }
        ensures exact { Gives (λ _. held_so_far self.new) result (steps (held_step file.now segments) count (held_so_far self.old)) }
        ensures inside { OnOk result (self.new.place ≤ length file.now) }
    {
        for _ in 0..count {
            self.next(file, segments)?;
        }
        Ok(())
    }
}
