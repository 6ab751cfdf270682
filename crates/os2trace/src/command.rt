// The words of the program.

use clap::{Arg, ArgAction, ArgMatches, Command, value_parser};
use std::alloc::{AllocError, Global};

/// Which steps are shown.
#[derive(Clone, Copy)]
pub struct Choice {
    /// The first step, from 1.
    pub from: u64,
    /// The last step, behind which the trace ends.
    pub to: u64,
    /// The only process, or 0 for all.
    pub process: u16,
    /// The selector that CS has at the step, or 0 for any.
    pub selector: u16,
    /// Whether the bytes that a step changed are shown, too.
    pub has_writes: bool,
    /// Whether each step is an object of JSON.
    pub is_json: bool,
}

/// An option that is the number of a step, from 1.
fn step<'a>(alloc: Global, name: &'a str, help: &'a str) -> Arg<'a> {
    Arg::new(alloc, name)
        .long(name)
        .value_name("STEP")
        .value_parser(value_parser!(u64).range(1..))
        .help(help)
}

/// The option `--process`.
fn process<'a>(alloc: Global) -> Arg<'a> {
    Arg::new(alloc, "process")
        .long("process")
        .value_name("NUMBER")
        .value_parser(value_parser!(u16).range(1..65))
        .help("Shows the steps of this process alone")
}

/// The option `--selector`.
fn selector<'a>(alloc: Global) -> Arg<'a> {
    Arg::new(alloc, "selector")
        .long("selector")
        .value_name("HEX")
        .help("Shows the steps in this code segment alone, as 000F")
}

/// An option without a value.
fn flag<'a>(alloc: Global, name: &'a str, help: &'a str) -> Arg<'a> {
    Arg::new(alloc, name)
        .long(name)
        .action(ArgAction::SetTrue)
        .help(help)
}

/// A command with one more word.
fn with<'a>(
    command: Result<Command<'a>, AllocError>,
    word: Arg<'a>,
) -> Result<Command<'a>, AllocError> {
    command?.arg(word)
}

/// What the options that take a step say.
const FROM: &str = "Shows the steps of the run from this one on, counted from 1";

const TO: &str = "Ends behind this step";

/// What the options that say how a step is shown say.
const WRITES: &str = "Shows the bytes that each step changed, too";

const JSON: &str = "Shows each step as an object of JSON in a line, with the bytes that it changed";

/// A subcommand with one file and the choices.
fn with_file<'a>(alloc: Global, name: &'a str, about: &'a str) -> Result<Command<'a>, AllocError> {
    let command = Command::new(alloc, name).about(about);
    let command = with(Ok(command), step(alloc, "from", FROM));
    let command = with(command, step(alloc, "to", TO));
    let command = with(command, process(alloc));
    let command = with(command, selector(alloc));
    let command = with(command, Arg::new(alloc, "FILE").required(true));
    let command = with(command, flag(alloc, "writes", WRITES));
    with(command, flag(alloc, "json", JSON))
}

/// A command with one more subcommand.
fn with_verb<'a>(
    command: Result<Command<'a>, AllocError>,
    verb: Result<Command<'a>, AllocError>,
) -> Result<Command<'a>, AllocError> {
    command?.subcommand(verb?)
}

/// The program's words.
pub fn program<'a>(alloc: Global) -> Result<Command<'a>, AllocError> {
    let command = Command::new(alloc, "os2trace")
        .version("1.0.0")
        .about(
            "Runs what os2run runs, and shows each step: the process, CS:IP, the instruction, and the registers that it changed",
        )
        .subcommand_required(true);
    let exe = with_file(alloc, "exe", "Traces an executable");
    let command = with_verb(Ok(command), exe);
    with_verb(command, with_file(alloc, "run", "Traces a machine file"))
}

/// The choices in the words; none where the selector is no hexadecimal number from 1 to FFFF.
pub fn wish(matches: &ArgMatches<'_>) -> Option<Choice> {
    let selector = match matches.get_str("selector") {
        None => 0,
        Some(text) => match u16::from_str_radix(text, 16) {
            Ok(0) => return None,
            Ok(selector) => selector,
            Err(_) => return None,
        },
    };
    Some(Choice {
        from: matches.get_one::<u64>("from").unwrap_or(1),
        to: matches.get_one::<u64>("to").unwrap_or(u64::MAX),
        process: matches.get_one::<u16>("process").unwrap_or(0),
        selector,
        has_writes: matches.get_flag("writes") || matches.get_flag("json"),
        is_json: matches.get_flag("json"),
    })
}
