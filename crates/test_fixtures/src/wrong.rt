// What a test comes to, and how it is told.

use o2_base::{Fail, NoMemory};
use std::alloc::{AllocError, AllocFailed};
use std::io;

/// Why a test isn't right.
#[derive(Clone, Copy, Debug, PartialEq, Eq)]
pub enum Wrong {
    /// Memory was wanted and not given.
    NoMemory,
    /// This row is wrong, counted from 0.
    Row(usize),
    /// This line of a table is wrong, or what this says.
    Line(&'static str),
    /// This is wrong with the row of this name.
    Of(&'static str, &'static str),
}

impl From<NoMemory> for Wrong {
    fn from(_: NoMemory) -> Self {
        Wrong::NoMemory
    }
}

impl From<AllocError> for Wrong {
    fn from(_: AllocError) -> Self {
        Wrong::NoMemory
    }
}

impl<T: Drop> From<AllocFailed<T>> for Wrong {
    fn from(_: AllocFailed<T>) -> Self {
        Wrong::NoMemory
    }
}

impl From<io::Error> for Wrong {
    fn from(_: io::Error) -> Self {
        Wrong::Line("an error of the system")
    }
}

impl From<&'static str> for Wrong {
    fn from(line: &'static str) -> Self {
        Wrong::Line(line)
    }
}

impl<F: Drop> From<Fail<F>> for Wrong {
    fn from(fail: Fail<F>) -> Self {
        match fail {
            Fail::Bad(_) => Wrong::Line("a refusal"),
            Fail::NoMemory => Wrong::NoMemory,
        }
    }
}

/// Refuses a row that isn't right.
pub fn want(is_right: bool, row: usize) -> Result<(), Wrong> {
    if is_right {
        Ok(())
    } else {
        Err(Wrong::Row(row))
    }
}

/// Refuses a line that isn't right.
pub fn want_line(is_right: bool, line: &'static str) -> Result<(), Wrong> {
    if is_right {
        Ok(())
    } else {
        Err(Wrong::Line(line))
    }
}

/// Prints what a test comes to, behind its name.
pub fn tell(rt: &HostRuntime, name: &str, answer: Result<(), Wrong>) -> io::Result<()> {
    match answer {
        Ok(()) => println!(rt; "{name}: right"),
        Err(Wrong::NoMemory) => println!(rt; "{name}: no memory"),
        Err(Wrong::Row(row)) => println!(rt; "{name}: row {row} is wrong"),
        Err(Wrong::Line(line)) => println!(rt; "{name}: wrong is {line}"),
        Err(Wrong::Of(row, text)) => println!(rt; "{name}: {row} is wrong: {text}"),
    }
}
