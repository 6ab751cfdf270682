//! The machine file: a TOML document that says which programs run, in how much memory, and by which script.
//!
//! It has at most 1,048,576 bytes. Its keys are read in this order, and unknown ones are ignored. For each key it is refused
//! first where the key is missing, then for a value of another type or form, and then for a value outside its limits. No
//! string has a zero byte.
//!
//! | key | value |
//! |---|---|
//! | `memory` | bytes, a multiple of 16 from 4,096 to 16,777,216 |
//! | `swap` | blocks of 512 bytes, 0 to 65,536 |
//! | `segments` | segments that live at once, 1 to 65,535 |
//! | `budget` | steps of the whole run, 0 to 4,000,000,000 |
//! | `quantum` | steps of a turn, 1 to 1,000,000 |
//! | `avail` | what DosMemAvail answers, 0 to 4,294,967,295; 0 where it is absent |
//! | `modules` | 1 to 64 file names of 1 to 255 bytes |
//! | `process` | 1 to 64 tables with `module`, a name of 1 to 255 bytes, and, if wanted, `arguments`, a string, and `environment`, an array of strings; the environment segment has at most 65,536 bytes |
//! | `ordinals` | a table of service names with their ordinals, 1 to 65,535, no ordinal twice; the table of services where it is absent |
//! | `script` | at most 100,000 words; each is `discard`, or `P:N`, process P from 1 to 65,535 and N steps from 1 to 4,000,000,000, in decimal without leading zeros; none where it is absent |
//! | `shim` | the name of a library, 1 to 255 bytes, that answers for DOSCALLS where the services don't; none where it is absent |
#![tactic(auto)]

mod alone;
mod arrays;
mod conf;
mod keys;
mod laws;
mod lists;
mod numbers;
mod ordinals;
mod process;
mod script;
mod shim;
mod table;

pub use conf::Conf;
pub use laws::services_rise;
pub use lists::{Ordinals, Processes, Script, Texts};
pub use o2_base::{Key, MachineFault};
pub use process::Process;
pub use script::Word;
