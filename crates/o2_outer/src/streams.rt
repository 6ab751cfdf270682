// The standard streams as sinks.
ghost use Rattle.std.specs.Prelude.{◌≡◌, ◌≤◌, length, take};
ghost use Rattle.o2_outer.specs.Texts.{Gains};
ghost use Rattle.o2_outer.specs.Answers.{Takes};

use crate::log::Log;
use crate::{Put, Sink};
use std::io::{Stderr, Stdout, Write};

/// A writer as a sink. It tells the bytes that the writes were answered as taken, and what the writer tells that it holds has
/// grown by just these. Each error of the writer, and a write that takes nothing, is a fault.
#[derive(Drop)]
pub struct StreamSink<W: Write + Drop> {
    stream: W,
    log: Log,
    faults: u64,
}

/// The standard output.
pub type StdoutSink = StreamSink<Stdout>;

/// The standard error.
pub type StderrSink = StreamSink<Stderr>;

/// Writes a piece, by as many writes as it takes, and tells how many bytes were taken: all, unless a write failed or took nothing.
fn write_on<W: Write>(stream: &mut W, piece: &[u8]) -> usize
    ensures most { result ≤ length piece.now }
    ensures gains { Gains (W.contents stream.old) (W.contents stream.new) (take result piece.now) }
{
    let mut written = 0;
    while written < piece.len() {
        match stream.write(&piece[written..]) {
            Err(_) => return written,
            Ok(0) => return written,
            Ok(count) => written += count,
        }
    }
    written
}

/// Writes a piece, by as many writes as it takes.
pub fn write_whole<W: Write>(stream: &mut W, piece: &[u8]) -> Put
    ensures takes { Takes (W.contents stream.old) (W.contents stream.new) piece.now result }
{
    if write_on(stream, piece) == piece.len() {
        Put::Done
    } else {
        Put::Failed
    }
}

impl<W: Write + Drop> StreamSink<W> {
    ghost use Rattle.std.specs.Prelude.{[]};
    ghost use Rattle.o2_outer.specs.Streams.{sink_stream, stream_taken, stream_puts, stream_faults};

    /// A sink over this stream.
    pub fn new(stream: W) -> StreamSink<W>
        ensures stream { sink_stream result ≡ stream }
        ensures empty { stream_taken result ≡ [] }
        ensures puts { stream_puts result ≡ 0 }
        ensures faultless { stream_faults result ≡ 0 }
    {
        StreamSink {
            stream,
            log: Log::new(),
            faults: 0,
        }
    }

    /// The stream.
    pub fn stream(&self) -> &W
        ensures { result.now ≡ sink_stream self.now }
    {
        &self.stream
    }
}

impl<W: Write + Drop> Sink for StreamSink<W> {
    ghost use Rattle.std.specs.Prelude.{◌+◌, Some, refl};
    ghost use Rattle.o2_outer.specs.Texts.{Rose};
    ghost use Rattle.o2_outer.specs.Answers.{OnFailed, CountsPut};
    ghost use Rattle.o2_outer.specs.Streams.{sink_stream, stream_taken, stream_puts, stream_faults, Sends};

    ghost taken = { λ s. Some (stream_taken s) };

    ghost puts = { λ s. stream_puts s };

    ghost faults = { λ s. stream_faults s };

    ghost tells = { λ s. (stream_taken s, refl) };

    fn put(&mut self, piece: &[u8]) -> Put
        ensures takes { Takes (Some (stream_taken self.old)) (Some (stream_taken self.new)) piece.now result }
        ensures sends { Sends (stream_taken self.old) (stream_taken self.new)
            (W.contents (sink_stream self.old)) (W.contents (sink_stream self.new)) piece.now result }
        ensures puts { stream_puts self.new ≡ stream_puts self.old + 1 }
        ensures count { stream_faults self.old ≤ stream_faults self.new }
        ensures cause { OnFailed result (Rose (stream_faults self.old) (stream_faults self.new)) }
        ensures counts { CountsPut (stream_faults self.old) (stream_faults self.new) result }
    {
        let written = write_on(&mut self.stream, piece);
        self.log.note(&piece[..written]);
        if written == piece.len() {
            Put::Done
        } else {
            self.faults = self.faults.saturating_add(1);
            Put::Failed
        }
    }
}
