// The top call over the files of a system and a swap device in one of them.
ghost use Rattle.o2_outer.specs.Accesses.{all_agree};
ghost use Rattle.o2_outer.specs.Asked.{asked_for};
ghost use Rattle.o2_outer.specs.Fetches.{AreOver};
ghost use Rattle.o2_outer.specs.Streams.{folder_faults, folder_fetches, swap_faults, swap_history};
ghost use Rattle.o2_cli.specs.Promises.{Promises};
ghost use Rattle.o2_cli.specs.Sides.{file_sides, input_sides, sink_sides, swap_sides};

use crate::{Status, os2run};
use o2_outer::{FileSwap, FolderFiles, Sink, Source};
use std::alloc::Global;
use std::rt;

/// `os2run` as the program calls it. What it says holds over all files that agree with each fetch so far, and over each text that may
/// be the whole of the input; of both texts it says so where each read of a block gave what was written to it last.
pub fn os2run_on_system<F: rt::Files + Drop, I: Source, C: Sink, R: Sink>(
    alloc: Global,
    words: &[String],
    files: &mut FolderFiles<F>,
    input: &mut I,
    console: &mut C,
    report: &mut R,
    swap: &mut FileSwap<F>,
) -> Status
    ensures promises { Promises words.now
        (file_sides files.old files.new (λ f contents. AreOver contents (folder_fetches f)) (λ f. asked_for (folder_fetches f)) folder_faults)
        (input_sides input.old input.new I.left I.past I.faults) (sink_sides console.old console.new C.taken C.puts C.faults)
        (sink_sides report.old report.new R.taken R.puts R.faults)
        (swap_sides swap.old swap.new (λ d. 65536) (λ d. all_agree (swap_history d)) swap_faults) result }
{
    os2run(alloc, words, files, input, console, report, swap)
}
