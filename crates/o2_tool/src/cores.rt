// The words of `os2core`.

use crate::arguments::answered;
use crate::commands::{with_file, with_subcommand};
use crate::memory::unallocated;
use clap::{Arg, ArgMatches, Command};
use std::alloc::{AllocError, Global};
use std::io;
use std::process::ExitCode;

/// What the words of `os2core` ask for.
#[derive(Clone, Copy)]
pub enum CoreWords<'a> {
    /// The image in this file as text.
    Show(&'a str),
    /// A picture of the image in this file.
    Draw(&'a str),
    /// The bytes of the segment of this number in the image of the file.
    Segment(&'a str, &'a str),
    /// What differs in the image of the second file.
    Difference(&'a str, &'a str),
    /// Nothing: they are no command, or ask for help or the version. That is said, and the program ends with this.
    Answered(ExitCode),
}

/// A subcommand with a file and one more word.
fn with_word<'a>(
    alloc: Global,
    name: &'a str,
    about: &'a str,
    word: &'a str,
) -> Result<Command<'a>, AllocError> {
    with_file(alloc, name, about)?.arg(Arg::new(alloc, word).required(true))
}

/// What the subcommands are about.
const ABOUT_SHOW: &str = "Shows memory, segments, swap device and processes as text";

const ABOUT_DRAW: &str = "Draws memory and swap device as SVG";

const ABOUT_SEGMENT: &str = "Shows the bytes of a segment by its number";

const ABOUT_DIFFERENCE: &str = "Shows what differs in a second image";

/// The program's words.
fn program<'a>(alloc: Global) -> Result<Command<'a>, AllocError> {
    let plain = Command::new(alloc, "os2core")
        .version("1.0.0")
        .about("Shows a core image, which tells where a machine's memory was")
        .subcommand_required(true);
    let command = with_subcommand(plain, with_file(alloc, "show", ABOUT_SHOW))?;
    let command = with_subcommand(command, with_file(alloc, "svg", ABOUT_DRAW))?;
    let segment = with_word(alloc, "segment", ABOUT_SEGMENT, "NUMBER");
    let command = with_subcommand(command, segment)?;
    let difference = with_word(alloc, "difference", ABOUT_DIFFERENCE, "OTHER");
    with_subcommand(command, difference)
}

/// What words that are matched ask for.
fn asked<'a>(matches: &ArgMatches<'a>) -> CoreWords<'a> {
    let Some((verb, found)) = matches.subcommand() else {
        return CoreWords::Answered(ExitCode::SUCCESS);
    };
    let file = found.get_str("FILE").unwrap_or("");
    match verb {
        "show" => CoreWords::Show(file),
        "svg" => CoreWords::Draw(file),
        "segment" => CoreWords::Segment(file, found.get_str("NUMBER").unwrap_or("")),
        _ => CoreWords::Difference(file, found.get_str("OTHER").unwrap_or("")),
    }
}

/// What these words ask for, where the program takes others like this.
fn matched<'a>(
    rt: &HostRuntime,
    program: Command<'a>,
    words: &'a [String],
) -> io::Result<CoreWords<'a>> {
    match program.try_get_matches_from(words) {
        Ok(matches) => Ok(asked(&matches)),
        Err(error) => match answered(rt, &error) {
            Ok(code) => Ok(CoreWords::Answered(code)),
            Err(error) => Err(error),
        },
    }
}

/// What these words ask for, of which the first is the program's name.
pub fn core_words<'a>(rt: &HostRuntime, words: &'a [String]) -> io::Result<CoreWords<'a>> {
    match program(rt.alloc()) {
        Ok(program) => matched(rt, program, words),
        Err(_) => Err(unallocated()),
    }
}
