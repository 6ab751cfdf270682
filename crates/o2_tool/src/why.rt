// The words of `os2why`.

use crate::arguments::answered;
use crate::commands::{with_file, with_subcommand};
use crate::memory::unallocated;
use clap::{Arg, ArgAction, ArgMatches, Command};
use std::alloc::{AllocError, Global};
use std::io;
use std::process::ExitCode;

/// What the words of `os2why` ask for.
#[derive(Drop)]
pub enum WhyWords<'a> {
    /// Whether `os2run exe` opens this file.
    Exe(&'a str),
    /// Whether `os2run run` opens this file.
    Run(&'a str),
    /// What these files import, behind the machine file that it is looked up in, where one is named.
    Imports(Option<&'a str>, Vec<&'a str>),
    /// Nothing: they are no command, or ask for help or the version. That is said, and the program ends with this.
    Answered(ExitCode),
}

/// The subcommand with many files.
fn with_files<'a>(alloc: Global) -> Result<Command<'a>, AllocError> {
    let files = Arg::new(alloc, "FILE")
        .required(true)
        .action(ArgAction::Append)
        .num_args(1..);
    let machine = Arg::new(alloc, "machine")
        .short('m')
        .long("machine")
        .value_name("MACHINE")
        .help("Looks imports up in the setting and the libraries of this machine file, too");
    Command::new(alloc, "imports")
        .about("Lists what executables import, what of it is built, and how many of them open")
        .arg(machine)?
        .arg(files)
}

/// What the subcommands with one file are about.
const ABOUT_EXE: &str = "Says whether `os2run exe FILE` opens, or why not";

const ABOUT_RUN: &str =
    "Says whether `os2run run FILE` opens, or why not, and what is odd in the machine file";

/// The program's words.
fn program<'a>(alloc: Global) -> Result<Command<'a>, AllocError> {
    let plain = Command::new(alloc, "os2why")
        .version("1.0.0")
        .about("Says why os2run doesn't run a program, and runs nothing")
        .subcommand_required(true);
    let with_exe = with_subcommand(plain, with_file(alloc, "exe", ABOUT_EXE))?;
    let with_run = with_subcommand(with_exe, with_file(alloc, "run", ABOUT_RUN))?;
    with_subcommand(with_run, with_files(alloc))
}

/// The files of a subcommand with many.
fn files_of<'a>(alloc: Global, found: &ArgMatches<'a>) -> Result<Vec<&'a str>, AllocError> {
    let mut files = Vec::new(alloc);
    if let Some(words) = found.get_raw("FILE") {
        for word in words {
            files.push(*word)?;
        }
    }
    Ok(files)
}

/// What words that are matched ask for.
fn asked<'a>(alloc: Global, matches: &ArgMatches<'a>) -> io::Result<WhyWords<'a>> {
    let Some((verb, found)) = matches.subcommand() else {
        return Ok(WhyWords::Answered(ExitCode::SUCCESS));
    };
    if verb == "imports" {
        return match files_of(alloc, found) {
            Ok(files) => Ok(WhyWords::Imports(found.get_str("machine"), files)),
            Err(_) => Err(unallocated()),
        };
    }
    let file = found.get_str("FILE").unwrap_or("");
    if verb == "run" {
        Ok(WhyWords::Run(file))
    } else {
        Ok(WhyWords::Exe(file))
    }
}

/// What these words ask for, where the program takes others like this.
fn matched<'a>(
    rt: &HostRuntime,
    program: Command<'a>,
    words: &'a [String],
) -> io::Result<WhyWords<'a>> {
    match program.try_get_matches_from(words) {
        Ok(matches) => asked(rt.alloc(), &matches),
        Err(error) => match answered(rt, &error) {
            Ok(code) => Ok(WhyWords::Answered(code)),
            Err(error) => Err(error),
        },
    }
}

/// What these words ask for, of which the first is the program's name.
pub fn why_words<'a>(rt: &HostRuntime, words: &'a [String]) -> io::Result<WhyWords<'a>> {
    match program(rt.alloc()) {
        Ok(program) => matched(rt, program, words),
        Err(_) => Err(unallocated()),
    }
}
