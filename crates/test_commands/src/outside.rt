// What commands go to in memory, and their words.

use o2_base::NoMemory;
use o2_cli::{Status, os2run};
use o2_outer::{MemFiles, MemSink, MemSource, SwapDevice};
use std::alloc::Global;

/// What a command goes to beside its swap device.
#[derive(Drop)]
pub struct Outside {
    pub files: MemFiles,
    pub input: MemSource,
    pub console: MemSink,
    pub report: MemSink,
}

impl Outside {
    /// What a command over all of it and a device comes to.
    pub fn run<S: SwapDevice>(&mut self, alloc: Global, words: &[String], swap: &mut S) -> Status {
        os2run(
            alloc,
            words,
            &mut self.files,
            &mut self.input,
            &mut self.console,
            &mut self.report,
            swap,
        )
    }
}

/// The words of a command, which commas part.
pub fn words_in(alloc: Global, text: &str) -> Result<Vec<String>, NoMemory> {
    let mut words = Vec::new(alloc);
    for word in text.split(',') {
        words.push(String::from_str(alloc, word)?)?;
    }
    Ok(words)
}
