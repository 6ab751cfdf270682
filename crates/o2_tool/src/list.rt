// The words of `os2list`.

use crate::arguments::answered;
use crate::memory::unallocated;
use clap::{Arg, Command};
use std::alloc::{AllocError, Global};
use std::io;
use std::process::ExitCode;

/// What the words of `os2list` ask for.
#[derive(Clone, Copy)]
pub enum ListWords<'a> {
    /// The listing of this file.
    File(&'a str),
    /// Nothing: they are no command, or ask for help or the version. That is said, and the program ends with this.
    Answered(ExitCode),
}

/// The program's words.
fn program<'a>(alloc: Global) -> Result<Command<'a>, AllocError> {
    Command::new(alloc, "os2list")
        .version("1.0.0")
        .about(
            "Lists a segmented executable: its tables, and its code as the assembler nasm reads it",
        )
        .arg(Arg::new(alloc, "FILE").required(true))
}

/// What these words ask for, where the program takes others like this.
fn matched<'a>(
    rt: &HostRuntime,
    program: Command<'a>,
    words: &'a [String],
) -> io::Result<ListWords<'a>> {
    match program.try_get_matches_from(words) {
        Ok(matches) => Ok(ListWords::File(matches.get_str("FILE").unwrap_or(""))),
        Err(error) => match answered(rt, &error) {
            Ok(code) => Ok(ListWords::Answered(code)),
            Err(error) => Err(error),
        },
    }
}

/// What these words ask for, of which the first is the program's name.
pub fn list_words<'a>(rt: &HostRuntime, words: &'a [String]) -> io::Result<ListWords<'a>> {
    match program(rt.alloc()) {
        Ok(program) => matched(rt, program, words),
        Err(_) => Err(unallocated()),
    }
}
