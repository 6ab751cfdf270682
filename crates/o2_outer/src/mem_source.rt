// A source in memory, which fails when told to.
ghost use Rattle.std.specs.Prelude.{◌≡◌, ◌≤◌, ◌<◌, Some, drop, take, length, true, false};

use crate::plan::fails_now;
use crate::{Source, Took};
use o2_base::Bytes;

/// Bytes in memory. The takes of `fails`, counted from 1, fail, and no other.
#[derive(Drop)]
pub struct MemSource {
    bytes: Bytes,
    at: usize,
    fails: Vec<u64>,
    calls: u64,
    faults: u64,
    ghost within: { at ≤ length bytes },
}

impl MemSource {
    ghost use Rattle.o2_outer.specs.Sources.{mem_left, mem_faults};
    ghost use Rattle.o2_outer.specs.Plans.{mem_takes, mem_takes_to_fail};

    /// A source of these bytes, and the takes that are to fail.
    pub fn new(bytes: Bytes, fails: Vec<u64>) -> MemSource
        ensures left { mem_left result ≡ bytes }
        ensures faultless { mem_faults result ≡ 0 }
        ensures fails { mem_takes_to_fail result ≡ fails.items }
        ensures calls { mem_takes result ≡ 0 }
    {
        MemSource {
            bytes,
            at: 0,
            fails,
            calls: 0,
            faults: 0,
        }
    }

    /// The bytes left.
    pub fn left(&self) -> &[u8]
        ensures { result.now ≡ mem_left self.now }
    {
        &self.bytes.as_slice()[self.at..]
    }

    /// How often it has failed.
    pub fn faults(&self) -> u64
        ensures { result ≡ mem_faults self.now }
    {
        self.faults
    }
}

impl Source for MemSource {
    ghost use Rattle.o2_outer.specs.Answers.{Gives, TookAtMost, TookHasCause, CountsTook};
    ghost use Rattle.o2_outer.specs.Inputs.{Adds};
    ghost use Rattle.o2_outer.specs.Sources.{mem_left, mem_past, mem_faults, past_at};
    ghost use Rattle.o2_outer.specs.Planned.{fails_next, next_call};
    ghost use Rattle.o2_outer.specs.Plans.{mem_takes, mem_takes_to_fail};

    ghost left = { λ s. Some (drop s.at s.bytes) };

    ghost past = { λ s. past_at s.at s.bytes };

    ghost faults = { λ s. s.faults };

    fn take(&mut self, into: &mut [u8]) -> Took
        ensures takes { Gives (Some (mem_left self.old)) (Some (mem_left self.new)) into.new result }
        ensures adds { Adds (mem_past self.old) (mem_past self.new) into.new result }
        ensures bounded { TookAtMost (length into.old) result }
        ensures count { mem_faults self.old ≤ mem_faults self.new }
        ensures cause { TookHasCause (mem_faults self.old) (mem_faults self.new) result }
        ensures counts { CountsTook (mem_faults self.old) (mem_faults self.new) result }

        ensures fails { fails_next (mem_takes self.old) (mem_takes_to_fail self.old) ≡ true
            → result ≡ Took.Failed }
        ensures sure { fails_next (mem_takes self.old) (mem_takes_to_fail self.old) ≡ false
            → result ≡ Took.Failed → ⊥ }
        ensures calls { mem_takes self.new ≡ next_call (mem_takes self.old) }
        ensures plan { mem_takes_to_fail self.new ≡ mem_takes_to_fail self.old }
    {
        if fails_now(&mut self.calls, &self.fails) {
            self.faults = self.faults.saturating_add(1);
            return Took::Failed;
        }
        let rest = &self.bytes.as_slice()[self.at..];
        let count = into.len().min(rest.len());
        into[..count].copy_from_slice(&rest[..count]);
        self.at += count;
        Took::Done(count)
    }
}
