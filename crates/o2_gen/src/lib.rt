//! What a bench runs: an executable, and the setting of a machine with 1 to 64 of its processes, whose segments its memory can't hold at once.
//!
//! [`module`] makes the executable, and [`machine`] the setting, as a machine file would give it. The program makes eight segments of
//! 8,192 bytes by DosAllocSeg and adds one to the first word of each, fifty times in turn. Then it writes `.` by DosWrite where each of
//! these words is 50, else `!`, and ends by DosExit with code 0. So a process takes 1,927 steps, writes one byte, and has 23 lines in
//! the report.
#![tactic(auto)]

mod bench;
mod laws;
mod setting;

pub use bench::module;
pub use laws::bench_file_is_read;
pub use o2_base::{Bytes, NoMemory};
pub use o2_conf::Conf;
pub use setting::machine;
