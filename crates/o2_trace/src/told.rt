// What is told of a step.

use crate::changes::Change;
use crate::exception::Exception;
use crate::step::Before;
use o2_isa::Cpu;

/// A step that was taken. Its text and its JSON are made of it.
#[derive(Clone, Copy)]
pub struct Told<'a> {
    /// The number of the step in its run, from 1.
    pub number: u64,
    pub before: Before,
    /// The registers after the step; none where it ended its process.
    pub after: Option<Cpu>,
    /// The exception that ended its process.
    pub exception: Option<Exception>,
    /// The name of the call in which its process waits behind it; empty where it doesn't wait.
    pub waits: &'a [u8],
    /// The bytes that it changed in what its process holds before and after it.
    pub changes: &'a [Change],
    /// What it put to the console.
    pub console: &'a [u8],
    /// The lines that it put to the report.
    pub report: &'a [u8],
}
