// What the services work on beside the segments.
ghost use Rattle.std.specs.Prelude.{◌≡◌, IfOk, vec_len};

use crate::moves::Moves;
use o2_base::NoMemory;
use o2_report::LineBuffer;
use std::alloc::Global;

/// The bytes of the buffer: more than a call of DosRead takes.
const BUFFER: usize = 65_536;

/// What the services need beside the segments of their process: the number that DosMemAvail tells, a buffer for the input and one
/// for a line, and what came or went by a call. All room is taken when it is made.
#[derive(Drop)]
pub struct State {
    pub avail: u32,
    pub line: LineBuffer,
    pub buffer: Vec<u8>,
    pub moves: Moves,
    ghost full: { vec_len buffer ≡ 65536 },
}

impl State {
    /// The services of a machine with so much free memory to tell of.
    pub fn new(alloc: Global, avail: u32) -> Result<State, NoMemory>
        ensures avail { IfOk result (λ s. s.avail ≡ avail) }
    {
        let line = LineBuffer::new(alloc)?;
        let buffer = vec![in alloc; 0u8; BUFFER]?;
        let moves = Moves::new(alloc)?;
        Ok(State {
            avail,
            line,
            buffer,
            moves,
        })
    }
}
