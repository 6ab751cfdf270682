// All that the program does with its words and its streams.
ghost use Rattle.o2_cli.specs.Performs.{Performs, Tells};
ghost use Rattle.o2_cli.specs.Sides.{file_sides, input_sides, sink_sides, swap_sides};

use crate::{Status, number, os2run, text};
use o2_outer::{Files, Sink, Source, SwapDevice};
use std::alloc::Global;

/// Puts the line of a status, where it has one and there is memory for it. A failure there has nobody left to tell.
pub fn tell<L: Sink>(alloc: Global, status: &Status, last: &mut L)
    ensures tells { Tells (sink_sides last.old last.new L.taken L.puts L.faults) status.now }
{
    let Ok(line) = text(alloc, status) else {
        return;
    };
    if line.len() == 0 {
        return;
    }
    let _ = last.put(line.as_slice());
}

/// Runs a command and puts the line of its status to the last sink. It answers the number of the status, from 0 to 11, with which the program ends.
pub fn perform<F: Files, I: Source, C: Sink, R: Sink, S: SwapDevice, L: Sink>(
    alloc: Global,
    words: &[String],
    files: &mut F,
    input: &mut I,
    console: &mut C,
    report: &mut R,
    swap: &mut S,
    last: &mut L,
) -> u8
    ensures performs { Performs words.now (file_sides files.old files.new F.may_hold F.asked F.faults) (input_sides input.old input.new I.left I.past I.faults)
        (sink_sides console.old console.new C.taken C.puts C.faults) (sink_sides report.old report.new R.taken R.puts R.faults)
        (swap_sides swap.old swap.new S.blocks S.told S.faults) (sink_sides last.old last.new L.taken L.puts L.faults) result }
{
    let status = os2run(alloc, words, files, input, console, report, swap);
    tell(alloc, &status, last);
    number(&status)
}
