// Runs what os2run runs, and shows each step: `os2trace exe FILE`, `os2trace run FILE`.
#![tactic(auto)]

ghost use Rattle.std.specs.Prelude.{IfOk};
ghost use Rattle.o2_conf.specs.Limits.{IsWithinLimits};
ghost use Rattle.o2_open.specs.Loads.{HasEnvironments, IsLinked};
ghost use Rattle.o2_words.specs.Words.{HasCount};

mod command;
mod copied;
mod follow;
mod output;
mod reading;

use clap::ArgMatches;
use command::{Choice, wish};
use follow::follow;
use o2_base::Bytes;
use o2_open::{OpenFault, Session, open};
use o2_outer::FolderFiles;
use o2_tool::{MISUSED, REFUSED, answered, ended, file_name, words};
use o2_words::Verb;
use std::io;
use std::process::ExitCode;

/// The end where a word is wrong, which says why.
fn misused(rt: &HostRuntime, why: &str) -> io::Result<ExitCode> {
    eprintln!(rt; "os2trace: {why}")?;
    Ok(ExitCode::from(MISUSED))
}

/// What the command opens, over the folder's files.
fn opened(rt: &HostRuntime, verb: Verb, name: &Bytes) -> Result<Session, OpenFault>
    requires { HasCount verb }
    ensures within { IfOk result (λ s. IsWithinLimits s.conf) }
    ensures environments { IfOk result HasEnvironments }
    ensures linked { IfOk result (λ s. IsLinked s.conf s.linked) }
{
    let mut files = FolderFiles::new(rt);
    open(rt.alloc(), verb, &mut files, name)
}

/// What is said of a command that isn't opened.
fn not_opened(rt: &HostRuntime, fault: OpenFault) -> anyhow::Result<ExitCode> {
    match fault {
        OpenFault::FileFault => anyhow::bail!("a file can't be read"),
        OpenFault::NoMemory => anyhow::bail!("there is no memory"),
        _ => {
            eprintln!(rt; "os2trace: it isn't opened: `os2why` with the same words says why")?;
            Ok(ExitCode::from(REFUSED))
        }
    }
}

/// Traces what the command opens.
fn trace(rt: &HostRuntime, verb: Verb, name: &Bytes, choice: Choice) -> anyhow::Result<ExitCode>
    requires { HasCount verb }
{
    match opened(rt, verb, name) {
        Ok(session) => follow(rt, session, choice),
        Err(fault) => not_opened(rt, fault),
    }
}

/// Does what a subcommand's words ask for.
fn obey(rt: &HostRuntime, verb: Verb, found: &ArgMatches<'_>) -> anyhow::Result<ExitCode>
    requires { HasCount verb }
{
    let Some(choice) = wish(found) else {
        return Ok(misused(
            rt,
            "a selector is a hexadecimal number from 1 to FFFF, as 000F",
        )?);
    };
    let file = found.get_str("FILE").unwrap_or("");
    if file.is_empty() || file.starts_with('-') {
        return Ok(misused(
            rt,
            "a name that is empty or begins with - is none of a file",
        )?);
    }
    let name = file_name(rt.alloc(), file)?;
    trace(rt, verb, &name, choice)
}

/// Does what matched words ask for.
fn matched(rt: &HostRuntime, matches: &ArgMatches<'_>) -> anyhow::Result<ExitCode> {
    match matches.subcommand() {
        Some(("run", found)) => obey(rt, Verb::Run, found),
        Some((_, found)) => obey(rt, Verb::Exe, found),
        None => Ok(ExitCode::SUCCESS),
    }
}

/// Does what the words ask for.
fn asked(rt: &HostRuntime, words: &[String]) -> anyhow::Result<ExitCode> {
    match command::program(rt.alloc())?.try_get_matches_from(words) {
        Err(error) => Ok(answered(rt, &error)?),
        Ok(matches) => matched(rt, &matches),
    }
}

fn run(rt: &HostRuntime) -> anyhow::Result<ExitCode> {
    match words(rt, "os2trace")? {
        Some(words) => asked(rt, words.as_slice()),
        None => Ok(ExitCode::from(MISUSED)),
    }
}

fn main(rt: HostRuntime) -> ExitCode {
    let done = run(&rt);
    ended(&rt, "os2trace", done)
}
