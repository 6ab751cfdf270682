// Lists a segmented executable: `os2list FILE`. Header, segments, names, entries, imports, relocations, and the code as an assembler
// writes it.
#![tactic(auto)]

ghost use Rattle.std.specs.Prelude.{◌≤◌, length};

mod code;
mod lines;
mod names;
mod relocations;
mod tables;

use o2_base::{Bytes, Fail};
use o2_image::Module;
use o2_outer::{Fetch, Files, FolderFiles};
use o2_tool::{
    FAILED, ListWords, MISUSED, REFUSED, Shown, ended, file_name, list_words, no_memory,
    unallocated, words,
};
use std::io;
use std::process::ExitCode;

/// Lists a module, of which these are the bytes.
fn list(rt: &HostRuntime, file: &[u8], module: &Module) -> io::Result<ExitCode> {
    tables::list_head(rt, module)?;
    tables::list_segments(rt, module)?;
    names::list_names(rt, file, module.head())?;
    tables::list_entries(rt, module)?;
    relocations::list_imports(rt, module)?;
    for segment in 1..=module.segment_count() {
        code::list_segment(rt, file, module, segment)?;
    }
    Ok(ExitCode::SUCCESS)
}

/// The end where the file is no module that is read here.
fn refused(rt: &HostRuntime, word: &str) -> io::Result<ExitCode> {
    let name = Shown(word.as_bytes());
    eprintln!(rt; "os2list: {name} is refused: `os2why exe` says why")?;
    Ok(ExitCode::from(REFUSED))
}

/// The end where there is no such file, or it can't be read.
fn unread(rt: &HostRuntime, word: &str, why: &str) -> io::Result<ExitCode> {
    let name = Shown(word.as_bytes());
    eprintln!(rt; "os2list: the file {name} {why}")?;
    Ok(ExitCode::from(FAILED))
}

/// Lists these bytes, of which this is a copy.
fn list_copied(rt: &HostRuntime, word: &str, file: &[u8], copy: Bytes) -> io::Result<ExitCode>
    requires { length copy ≤ 4194304 }
{
    match Module::check(rt.alloc(), copy) {
        Ok(module) => list(rt, file, &module),
        Err(Fail::NoMemory) => Err(no_memory()),
        Err(Fail::Bad(_)) => refused(rt, word),
    }
}

/// Lists these bytes of a file.
fn list_bytes(rt: &HostRuntime, word: &str, file: &[u8]) -> io::Result<ExitCode>
    requires { length file.now ≤ 4194304 }
{
    match Bytes::from_slice(rt.alloc(), file) {
        Ok(copy) => list_copied(rt, word, file, copy),
        Err(_) => Err(no_memory()),
    }
}

/// Lists the file of this name.
fn list_named(rt: &HostRuntime, word: &str, name: &Bytes) -> io::Result<ExitCode> {
    let mut files = FolderFiles::new(rt);
    match files.fetch(rt.alloc(), name, 4_194_304) {
        Fetch::Got(file) => list_bytes(rt, word, file.as_slice()),
        Fetch::NoFile => unread(rt, word, "isn't there"),
        Fetch::TooLong => refused(rt, word),
        Fetch::Failed => unread(rt, word, "can't be read"),
        Fetch::NoMemory => Err(no_memory()),
    }
}

/// Lists the file that this word names.
fn list_file(rt: &HostRuntime, word: &str) -> io::Result<ExitCode> {
    match file_name(rt.alloc(), word) {
        Ok(name) => list_named(rt, word, &name),
        Err(_) => Err(unallocated()),
    }
}

/// Does what these words ask for.
fn obey(rt: &HostRuntime, words: &[String]) -> io::Result<ExitCode> {
    match list_words(rt, words)? {
        ListWords::File(file) => list_file(rt, file),
        ListWords::Answered(code) => Ok(code),
    }
}

fn run(rt: &HostRuntime) -> io::Result<ExitCode> {
    match words(rt, "os2list")? {
        Some(words) => obey(rt, words.as_slice()),
        None => Ok(ExitCode::from(MISUSED)),
    }
}

fn main(rt: HostRuntime) -> ExitCode {
    let done = run(&rt);
    ended(&rt, "os2list", done)
}
