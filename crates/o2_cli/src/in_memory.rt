// The top call over files in memory and a device that always tells.
ghost use Rattle.std.specs.Prelude.{IsTrue, true};
ghost use Rattle.o2_outer.specs.Contents.{file_in};
ghost use Rattle.o2_outer.specs.Plans.{mem_files, mem_fetch_faults, mem_names_asked};
ghost use Rattle.o2_cli.specs.Promises.{Promises};
ghost use Rattle.o2_cli.specs.Sides.{file_sides, input_sides, sink_sides, swap_sides};
ghost use Rattle.o2_cli.specs.Top.{holding};

use crate::{Status, os2run};
use o2_outer::{MemFiles, Sink, Source, SwapDevice};
use std::alloc::Global;

/// `os2run` over files that are told before they are read and a device whose reads always give what was written last: what it says
/// holds over just these files, with nothing supposed of the device.
pub fn os2run_in_memory<I: Source, C: Sink, R: Sink, S: SwapDevice>(
    alloc: Global,
    words: &[String],
    files: &mut MemFiles,
    input: &mut I,
    console: &mut C,
    report: &mut R,
    swap: &mut S,
) -> Status
    requires tells { (d : S) → IsTrue (S.told d) }
    ensures promises { Promises words.now (file_sides files.old files.new (λ f. holding (file_in (mem_files files.old))) mem_names_asked mem_fetch_faults)
        (input_sides input.old input.new I.left I.past I.faults) (sink_sides console.old console.new C.taken C.puts C.faults)
        (sink_sides report.old report.new R.taken R.puts R.faults) (swap_sides swap.old swap.new S.blocks (λ d. true) S.faults) result }
{
    os2run(alloc, words, files, input, console, report, swap)
}
