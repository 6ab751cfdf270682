// The stop line of a run.
ghost use Rattle.std.specs.Prelude.{◌≡◌, ◌≤◌, ◌+◌, true, false};
ghost use Rattle.o2_outer.specs.Texts.{Rose, Gains, GainsSome, IsPrefix};
ghost use Rattle.o2_run.specs.Stops.{stop_line};
ghost use Rattle.o2_run.specs.Faults.{turn_of};

use crate::{Stop, Turn};
use o2_outer::{Put, Sink};

impl Stop {
    /// The line that a run ends with where it stops so.
    pub fn line(self) -> &'static [u8]
        ensures { result.now ≡ stop_line self }
    {
        match self {
            Stop::Input => b"stop input fault\n",
            Stop::NoRoom => b"stop room\n",
            Stop::SwapFull => b"stop swap full\n",
            Stop::SwapFault => b"stop swap fault\n",
        }
    }

    /// The answer of a turn that stops so.
    pub fn answer(self) -> Turn
        ensures { result ≡ turn_of self }
    {
        match self {
            Stop::Input => Turn::InputFault,
            Stop::NoRoom => Turn::NoRoom,
            Stop::SwapFull => Turn::SwapFull,
            Stop::SwapFault => Turn::SwapFault,
        }
    }
}

/// Puts the line of a stop, by one put, and tells whether it was put whole. Where that fails the run is stopped all the same.
pub fn put_stop<R: Sink>(why: Stop, report: &mut R) -> bool
    ensures text { GainsSome (R.taken report.old) (R.taken report.new) (λ front. IsPrefix front (stop_line why)) }
    ensures whole { result ≡ true → Gains (R.taken report.old) (R.taken report.new) (stop_line why) }
    ensures puts { R.puts report.new ≡ R.puts report.old + 1 }
    ensures report_count { R.faults report.old ≤ R.faults report.new }
    ensures cause { result ≡ false → Rose (R.faults report.old) (R.faults report.new) }
{
    match report.put(why.line()) {
        Put::Done => true,
        Put::Failed => false,
    }
}
