// A sink that drops what it takes.
ghost use Rattle.std.specs.Prelude.{Some, refl};

use crate::log::Log;
use crate::{Put, Sink};

/// Takes each piece and drops it. It tells what it has taken, though it keeps none of it, and never fails.
#[derive(Drop)]
pub struct NoSink {
    log: Log,
}

impl NoSink {
    ghost use Rattle.std.specs.Prelude.{◌≡◌, []};
    ghost use Rattle.o2_outer.specs.Sinks.{dropped_bytes, dropped_puts};

    /// A sink that drops what it takes.
    pub fn new() -> NoSink
        ensures empty { dropped_bytes result ≡ [] }
        ensures puts { dropped_puts result ≡ 0 }
    {
        NoSink { log: Log::new() }
    }
}

impl Sink for NoSink {
    ghost taken = { λ s. Some s.log.bytes };

    ghost puts = { λ s. s.log.puts };

    ghost faults = { λ _. 0 };

    ghost tells = { λ s. (s.log.bytes, refl) };

    fn put(&mut self, piece: &[u8]) -> Put {
        self.log.note(piece);
        Put::Done
    }
}
