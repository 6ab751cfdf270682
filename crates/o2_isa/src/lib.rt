//! The 80286's instruction set: instructions, their spelling, and what they mean.
#![tactic(auto)]

mod cpu;
mod families;
mod flags;
mod groups;
mod instr;
mod laws;
mod places;
mod rows;

pub use cpu::{Cpu, Loaded, Outcome, Purpose, Stop};
pub use families::{AdjustOp, BinaryOp, LogicOp, ShiftOp, UnaryOp};
pub use flags::Flag;
pub use groups::{Group, instruction_group};
pub use instr::{Arg, Ea, Instr, Op, Rep, Sreg, Width};
pub use laws::{
    presence_is_invisible, rows_are_rows, segment_registers_are_loaded_by_rules,
    steps_bind_what_they_load, steps_keep, steps_write_data_alone,
};
pub use o2_base::Selector;
pub use places::flag_places_agree;
pub use rows::{Decoded, Entry, Prefixes, Repeat, Row, Slot};
