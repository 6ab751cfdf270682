// Parts of a program's words.

use clap::{Arg, Command};
use std::alloc::{AllocError, Global};

/// A subcommand with one file.
pub fn with_file<'a>(
    alloc: Global,
    name: &'a str,
    about: &'a str,
) -> Result<Command<'a>, AllocError> {
    Command::new(alloc, name)
        .about(about)
        .arg(Arg::new(alloc, "FILE").required(true))
}

/// The command with this subcommand more.
pub fn with_subcommand<'a>(
    command: Command<'a>,
    added: Result<Command<'a>, AllocError>,
) -> Result<Command<'a>, AllocError> {
    command.subcommand(added?)
}
