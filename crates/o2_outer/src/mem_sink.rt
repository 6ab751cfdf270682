// A sink in memory, with its room reserved.
ghost use Rattle.std.specs.Prelude.{◌≡◌, ◌≤◌, ◌+◌, ◌<◌, ◌++◌, [], Some, length, vec_len, vec_capacity, IfOk, refl};

use crate::log::Log;
use crate::plan::planned;
use crate::{Put, Sink};
use o2_base::NoMemory;
use std::alloc::Global;

/// A sink in memory with room for a number of bytes, which it takes when it is made. Each pair of `fails` is a call,
/// counted from 1, that is to fail, and how many bytes it takes before. A piece that is longer than the room left takes
/// the front that fits, and fails. No other call fails.
#[derive(Drop)]
pub struct MemSink {
    bytes: Vec<u8>,
    log: Log,
    room: usize,
    calls: u64,
    fails: Vec<(u64, usize)>,
    faults: u64,
    ghost within: { vec_len bytes ≤ room },
    ghost reserved: { room ≤ vec_capacity bytes },
}

/// Adds bytes to a vector that has the room.
fn append(bytes: &mut Vec<u8>, more: &[u8])
    requires { vec_len bytes.old + length more.now ≤ vec_capacity bytes.old }
    ensures items { bytes.new.items ≡ bytes.old.items ++ more.now }
    ensures len { vec_len bytes.new ≡ vec_len bytes.old + length more.now }
    ensures capacity { vec_capacity bytes.old ≤ vec_capacity bytes.new }
{
    let _ = bytes.extend_from_slice(more);
}

impl MemSink {
    ghost use Rattle.o2_outer.specs.Sinks.{sink_bytes, sink_puts, sink_faults};
    ghost use Rattle.o2_outer.specs.Plans.{mem_room, mem_puts, mem_puts_to_fail};

    /// An empty sink.
    pub fn new(alloc: Global, room: usize, fails: Vec<(u64, usize)>) -> Result<MemSink, NoMemory>
        ensures empty { IfOk result (λ s. sink_bytes s ≡ []) }
        ensures puts { IfOk result (λ s. sink_puts s ≡ 0) }
        ensures faultless { IfOk result (λ s. sink_faults s ≡ 0) }
        ensures room { IfOk result (λ s. mem_room s ≡ room) }
        ensures fails { IfOk result (λ s. mem_puts_to_fail s ≡ fails.items) }
        ensures calls { IfOk result (λ s. mem_puts s ≡ 0) }
    {
        let bytes = Vec::with_capacity(alloc, room)?;
        Ok(MemSink {
            bytes,
            log: Log::new(),
            room,
            calls: 0,
            fails,
            faults: 0,
        })
    }

    /// The bytes taken.
    pub fn taken(&self) -> &[u8]
        ensures { result.now ≡ sink_bytes self.now }
    {
        self.bytes.as_slice()
    }

    /// How often it has failed.
    pub fn faults(&self) -> u64
        ensures { result ≡ sink_faults self.now }
    {
        self.faults
    }
}

impl Sink for MemSink {
    ghost use Rattle.o2_outer.specs.Texts.{Rose};
    ghost use Rattle.o2_outer.specs.Answers.{Takes, OnFailed, CountsPut};
    ghost use Rattle.o2_outer.specs.Sinks.{sink_bytes, sink_puts, sink_faults};
    ghost use Rattle.o2_outer.specs.Planned.{next_call};
    ghost use Rattle.o2_outer.specs.Plans.{mem_room, mem_puts, mem_puts_to_fail, put_answer, put_front};

    ghost taken = { λ s. Some s.bytes.items };

    ghost puts = { λ s. s.log.puts };

    ghost faults = { λ s. s.faults };

    ghost tells = { λ s. (s.bytes.items, refl) };

    fn put(&mut self, piece: &[u8]) -> Put
        ensures takes { Takes (Some (sink_bytes self.old)) (Some (sink_bytes self.new)) piece.now result }
        ensures puts { sink_puts self.new ≡ sink_puts self.old + 1 }
        ensures count { sink_faults self.old ≤ sink_faults self.new }
        ensures cause { OnFailed result (Rose (sink_faults self.old) (sink_faults self.new)) }
        ensures counts { CountsPut (sink_faults self.old) (sink_faults self.new) result }

        ensures front { sink_bytes self.new ≡ sink_bytes self.old ++ put_front self.old piece.now }
        ensures answer { result ≡ put_answer self.old piece.now }
        ensures calls { mem_puts self.new ≡ next_call (mem_puts self.old) }
        ensures plan { mem_puts_to_fail self.new ≡ mem_puts_to_fail self.old }
        ensures room { mem_room self.new ≡ mem_room self.old }
    {
        self.calls = self.calls.saturating_add(1);
        let plan = planned(&self.fails, self.calls);
        let left = self.room - self.bytes.len();
        let wanted = match plan {
            None => piece.len(),
            Some(count) => count.min(piece.len()),
        };
        let taken = left.min(wanted);
        append(&mut self.bytes, &piece[..taken]);
        self.log.note(&piece[..taken]);
        if plan.is_none() && taken == piece.len() {
            Put::Done
        } else {
            self.faults = self.faults.saturating_add(1);
            Put::Failed
        }
    }
}
