// Says why a program isn't run: `os2why exe FILE`, `os2why run FILE`, `os2why imports FILE..`. It runs nothing.
#![tactic(auto)]

ghost use Rattle.o2_words.specs.Words.{HasCount};

mod context;
mod imports;
mod inventory;
mod judge;
mod lines;
mod machine;
mod output;
mod scope;
mod sentences;
mod services;
mod verdict;
mod wording;

use context::{Context, read_context};
use o2_base::{Bytes, NoMemory};
use o2_open::OpenFault;
use o2_outer::FolderFiles;
use o2_tool::{
    MISUSED, REFUSED, WhyWords, ended, file_name, no_memory, unallocated, why_words, words,
};
use o2_words::{Verb, is_command};
use output::{complain, say};
use std::io;
use std::process::ExitCode;
use wording::Wording;

/// What the sentence of a refusal goes by beside it.
fn context_of(
    rt: &HostRuntime,
    verb: Verb,
    name: &Bytes,
    refusal: Option<&OpenFault>,
) -> io::Result<Context> {
    if verb != Verb::Run {
        return Ok(Context::none());
    }
    let Some(refusal) = refusal else {
        return Ok(Context::none());
    };
    let mut files = FolderFiles::new(rt);
    match read_context(rt.alloc(), &mut files, name, refusal) {
        Ok(found) => Ok(found),
        Err(NoMemory) => Err(no_memory()),
    }
}

/// Says what the command in this file comes to, where its refusal goes by this.
fn say_with(
    rt: &HostRuntime,
    verb: Verb,
    name: &Bytes,
    refusal: Option<&OpenFault>,
    context: &Context,
) -> io::Result<ExitCode> {
    let verdict = sentences::verdict(refusal, context.asked, context.listed, &context.shim);
    say(rt, &verdict)?;
    if verb == Verb::Run {
        machine::tell(rt, name, refusal, context.asked)?;
    }
    if refusal.is_none() {
        Ok(ExitCode::SUCCESS)
    } else {
        Ok(ExitCode::from(REFUSED))
    }
}

/// Says what the command in this file comes to, which opens, or is refused for this.
fn say_of(
    rt: &HostRuntime,
    verb: Verb,
    name: &Bytes,
    refusal: Option<&OpenFault>,
) -> io::Result<ExitCode> {
    if let Some(OpenFault::NoMemory) = refusal {
        return Err(no_memory());
    }
    match context_of(rt, verb, name, refusal) {
        Ok(context) => say_with(rt, verb, name, refusal, &context),
        Err(error) => Err(error),
    }
}

/// Says what the command in the file of this name comes to.
fn say_named(rt: &HostRuntime, verb: Verb, name: &Bytes) -> io::Result<ExitCode>
    requires { HasCount verb }
{
    let mut files = FolderFiles::new(rt);
    let refusal = judge::refusal(rt.alloc(), verb, &mut files, name);
    say_of(rt, verb, name, refusal.as_ref())
}

/// Says what the command in this file comes to.
fn say_file(rt: &HostRuntime, verb: Verb, file: &str) -> io::Result<ExitCode>
    requires { HasCount verb }
{
    match file_name(rt.alloc(), file) {
        Ok(name) => say_named(rt, verb, &name),
        Err(_) => Err(unallocated()),
    }
}

/// The words behind the program's name.
fn behind_name(words: &[String]) -> &[String] {
    match words {
        [_, rest @ ..] => rest,
        [] => &[],
    }
}

/// Says what the command in this file comes to. A name that is empty or begins with a dash is none to `os2run`.
fn say_checked(rt: &HostRuntime, words: &[String], verb: Verb, file: &str) -> io::Result<ExitCode>
    requires { HasCount verb }
{
    if is_command(behind_name(words)) {
        return say_file(rt, verb, file);
    }
    complain(rt, Wording::plain("these words are no command of os2run"))?;
    Ok(ExitCode::from(MISUSED))
}

/// Does what these words ask for.
fn obey(rt: &HostRuntime, words: &[String]) -> io::Result<ExitCode> {
    match why_words(rt, words)? {
        WhyWords::Exe(file) => say_checked(rt, words, Verb::Exe, file),
        WhyWords::Run(file) => say_checked(rt, words, Verb::Run, file),
        WhyWords::Imports(machine, files) => inventory::inventory(rt, machine, files.as_slice()),
        WhyWords::Answered(code) => Ok(code),
    }
}

fn run(rt: &HostRuntime) -> io::Result<ExitCode> {
    match words(rt, "os2why")? {
        Some(words) => obey(rt, words.as_slice()),
        None => Ok(ExitCode::from(MISUSED)),
    }
}

fn main(rt: HostRuntime) -> ExitCode {
    let done = run(&rt);
    ended(&rt, "os2why", done)
}
