// The standard input as a source.
ghost use Rattle.std.specs.Prelude.{◌≡◌, ◌≤◌, ◌<◌, List, ℕ, Some, true, false, take, length, IfOk};

use crate::log::Log;
use crate::reading::{give, read_on};
use crate::{Source, Took};
use o2_base::NoMemory;
use std::alloc::Global;
use std::io::{Read, StdinLock};

/// How many bytes a take may ask for at most.
const ROOM: usize = 65_536;

/// A reader as a source: it has left what the reader tells that it gives. Each error of the reader is a fault, and what was read
/// before it is kept for the next take. Where a read gives nothing the reader has ended, and is read no more. A take of more than
/// 65,536 bytes is a fault that reads nothing.
#[derive(Drop)]
pub struct StreamSource<R: Read + Drop> {
    reader: R,
    buffer: Vec<u8>,
    held: usize,
    ended: bool,
    log: Log,
    faults: u64,
    ghost room: { length buffer.items ≡ 65536 },
    ghost within: { held ≤ 65536 },
}

/// The standard input.
pub type StdinSource = StreamSource<StdinLock<'static>>;

impl<R: Read + Drop> StreamSource<R> {
    ghost use Rattle.std.specs.Prelude.{[]};
    ghost use Rattle.o2_outer.specs.Reads.{left_behind};
    ghost use Rattle.o2_outer.specs.Streams.{source_reader, source_held, source_ended, source_past, source_faults};

    /// A source over this reader.
    pub fn new(alloc: Global, reader: R) -> Result<StreamSource<R>, NoMemory>
        ensures reader { IfOk result (λ s. source_reader s ≡ reader) }
        ensures held { IfOk result (λ s. source_held s ≡ []) }
        ensures going { IfOk result (λ s. source_ended s ≡ false) }
        ensures given { IfOk result (λ s. (source_past s).given ≡ []) }
        ensures faultless { IfOk result (λ s. source_faults s ≡ 0) }
    {
        let buffer = Vec::from_elem(alloc, 0, ROOM)?;
        Ok(StreamSource {
            reader,
            buffer,
            held: 0,
            ended: false,
            log: Log::new(),
            faults: 0,
        })
    }

    /// Holds so many bytes, or all that the reader has; tells whether no read failed.
    fn hold(&mut self, wanted: usize) -> bool
        requires { wanted ≤ 65536 }
        ensures left { (t : List ℕ)
            → left_behind self.old.ended (take self.old.held self.old.buffer.items) (R.remaining self.old.reader) ≡ Some t
            → left_behind self.new.ended (take self.new.held self.new.buffer.items) (R.remaining self.new.reader) ≡ Some t }
        ensures end { result ≡ true → self.new.held < wanted → self.new.ended ≡ true }
        ensures over { self.old.ended ≡ true → self.new ≡ self.old }
        ensures failed { result ≡ false → source_past self.new ≡ source_past self.old }
        ensures log { self.new.log ≡ self.old.log }
        ensures faults { self.new.faults ≡ self.old.faults }
    {
        if self.ended || wanted <= self.held {
            return true;
        }
        let (held, whole) = read_on(
            &mut self.reader,
            self.buffer.as_mut_slice(),
            self.held,
            wanted,
        );
        self.held = held;
        if !whole {
            return false;
        }
        self.ended = held < wanted;
        true
    }
}

impl<R: Read + Drop> Source for StreamSource<R> {
    ghost use Rattle.o2_outer.specs.Reads.{left_behind};
    ghost use Rattle.o2_outer.specs.Answers.{Gives, TookAtMost, TookHasCause, CountsTook};
    ghost use Rattle.o2_outer.specs.Inputs.{Adds};
    ghost use Rattle.o2_outer.specs.Streams.{source_reader, source_held, source_ended, source_past, source_faults};

    ghost left = { λ s. left_behind (source_ended s) (source_held s) (R.remaining (source_reader s)) };

    ghost past = { λ s. source_past s };

    ghost faults = { λ s. source_faults s };

    fn take(&mut self, into: &mut [u8]) -> Took
        ensures takes { Gives (left_behind (source_ended self.old) (source_held self.old) (R.remaining (source_reader self.old)))
            (left_behind (source_ended self.new) (source_held self.new) (R.remaining (source_reader self.new))) into.new result }
        ensures adds { Adds (source_past self.old) (source_past self.new) into.new result }
        ensures bounded { TookAtMost (length into.old) result }
        ensures count { source_faults self.old ≤ source_faults self.new }
        ensures cause { TookHasCause (source_faults self.old) (source_faults self.new) result }
        ensures counts { CountsTook (source_faults self.old) (source_faults self.new) result }
    {
        if into.len() > ROOM || !self.hold(into.len()) {
            self.faults = self.faults.saturating_add(1);
            return Took::Failed;
        }
        let count = give(&mut self.buffer, self.held, into);
        self.held -= count;
        self.log.note(&into[..count]);
        Took::Done(count)
    }
}
