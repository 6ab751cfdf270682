//! The processor's view of a process's segments: the trait of a bus, what instructions want of it, and a plain bus.
#![tactic(auto)]

mod access;
mod bus;
mod bytes;
mod loading;
mod operands;
mod outcome;
mod plain;
mod plain_bus;
mod plain_edit;
mod plain_end;
mod plain_parts;
mod plain_ranges;
mod ranges;
mod registers;
mod segment;
mod ten_bytes;

pub use access::{check_load, check_target, check_unlocked, read, room, store, value};
pub use bus::{Bus, Caches};
pub use bytes::{first_bytes, len_of, outside_of, put_in, value_in};
pub use loading::{LoadTarget, load_by, service, shown};
pub use o2_base::{NoMemory, Selector};
pub use o2_isa::{Cpu, Loaded, Outcome, Purpose, Stop};
pub use operands::{finish, operand, place};
pub use outcome::outcome_of;
pub use plain::{Grant, Plain};
pub use plain_bus::PlainBus;
pub use ranges::Ranges;
pub use registers::{
    accumulator, byte_register, offset, segment_register, set_accumulator, set_byte_register,
    set_segment_register, set_word_register, word_register,
};
pub use ten_bytes::TenBytes;
