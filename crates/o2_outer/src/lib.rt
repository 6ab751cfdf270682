//! What lies outside the machine: files, an input, sinks and a swap device, each with a count of its faults.
#![tactic(auto)]

mod access;
mod blocks;
mod file_swap;
mod files;
mod folder;
mod history;
mod log;
mod mem_files;
mod mem_sink;
mod mem_source;
mod mem_swap;
mod no_sink;
mod noted;
mod placed;
mod plan;
mod reading;
mod sink;
mod source;
mod stdin;
mod streams;
mod sums;
mod sure;
mod swap;
mod window;

pub use file_swap::FileSwap;
pub use files::{Fetch, Files};
pub use folder::FolderFiles;
pub use history::History;
pub use log::Log;
pub use mem_files::{MemFiles, SureFiles};
pub use mem_sink::MemSink;
pub use mem_source::MemSource;
pub use mem_swap::MemSwap;
pub use no_sink::NoSink;
pub use sink::{Put, Sink};
pub use source::{Source, Took};
pub use stdin::{StdinSource, StreamSource};
pub use streams::{StderrSink, StdoutSink, StreamSink};
pub use sure::{SureSource, SureSwap};
pub use swap::{Dev, SwapDevice, read_block};
