// Makes test vectors out of the proved step: `os2vectors OPCODE COUNT SEED`.
#![tactic(auto)]

mod command;

use clap::ArgMatches;
use o2_tool::{MISUSED, answered, ended, words};
use o2_vectors::{Wanted, text};
use rand_pcg::Pcg32;
use std::process::ExitCode;

/// Prints all vectors, as an array with one on each line.
fn print_all(rt: &HostRuntime, wanted: &Wanted) -> anyhow::Result<ExitCode> {
    let mut random = Pcg32::new(wanted.seed, 54);
    println!(rt; "[")?;
    for number in 0..wanted.count {
        let vector = text(rt.alloc(), &mut random, wanted)?;
        let end = if number + 1 < wanted.count { "," } else { "" };
        println!(rt; "{vector}{end}")?;
    }
    println!(rt; "]")?;
    Ok(ExitCode::SUCCESS)
}

/// Does what matched words ask for.
fn obey(rt: &HostRuntime, matches: &ArgMatches<'_>) -> anyhow::Result<ExitCode> {
    match command::wish(rt.alloc(), matches)? {
        Some(wanted) => print_all(rt, &wanted),
        None => {
            eprintln!(rt; "os2vectors: OPCODE is 1 to 10 bytes in hexadecimal, as F7 or F7.4")?;
            Ok(ExitCode::from(MISUSED))
        }
    }
}

/// Does what the words ask for.
fn asked(rt: &HostRuntime, words: &[String]) -> anyhow::Result<ExitCode> {
    match command::program(rt.alloc())?.try_get_matches_from(words) {
        Err(error) => Ok(answered(rt, &error)?),
        Ok(matches) => obey(rt, &matches),
    }
}

fn run(rt: &HostRuntime) -> anyhow::Result<ExitCode> {
    match words(rt, "os2vectors")? {
        Some(words) => asked(rt, words.as_slice()),
        None => Ok(ExitCode::from(MISUSED)),
    }
}

fn main(rt: HostRuntime) -> ExitCode {
    let done = run(&rt);
    ended(&rt, "os2vectors", done)
}
