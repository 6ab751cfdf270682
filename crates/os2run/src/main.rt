// Runs segmented executables (NE) of OS/2 1.x: `os2run exe FILE`, `os2run run FILE`.
//
// The program's input is the standard input, and its console the standard output. The report, and the line of a status other
// than 0, go to the standard error; the status is the exit status. What is swapped goes to the file `os2run.swp`.
#![tactic(auto)]

ghost use Rattle.std.specs.Prelude.{◌≡◌, ◌≢◌, [], MatchResult};
ghost use Rattle.std.specs.IoError.{error_kind};

use o2_base::NoMemory;
use o2_cli::{Status, number, perform, tell};
use o2_outer::{FileSwap, FolderFiles, StderrSink, StdinSource, StdoutSink};
use std::alloc::Global;
use std::env;
use std::fs::{File, OpenOptions};
use std::io::{Error, ErrorKind};
use std::process::ExitCode;

/// The words that are there in place of those that can't be read: none, which is no command, unless memory was wanting.
fn words_in_place(alloc: Global, error: &Error) -> Result<Vec<String>, NoMemory>
    ensures { MatchResult result (λ v. (error_kind error.now ≢ ErrorKind.OutOfMemory) × (v.items ≡ [])) (λ _. error_kind error.now ≡ ErrorKind.OutOfMemory) }
{
    if error.kind() == ErrorKind::OutOfMemory {
        return Err(NoMemory);
    }
    Ok(Vec::new(alloc))
}

/// The words behind the program's name.
fn words(rt: &HostRuntime) -> Result<Vec<String>, NoMemory> {
    let args = match env::args(rt) {
        Ok(args) => args,
        Err(error) => return words_in_place(rt.alloc(), &error),
    };
    let mut words = Vec::new(rt.alloc());
    for word in args.skip(1) {
        words.push(word)?;
    }
    Ok(words)
}

/// Makes the folder's files, the standard streams and a swap file, and performs the command over them. It answers the number of the status.
fn run(rt: &HostRuntime) -> Result<u8, NoMemory> {
    let words = words(rt)?;
    let mut input = StdinSource::new(rt.alloc(), rt.reader())?;
    Ok(perform(
        rt.alloc(),
        words.as_slice(),
        &mut FolderFiles::new(rt),
        &mut input,
        &mut StdoutSink::new(rt.stdout()),
        &mut StderrSink::new(rt.stderr()),
        &mut FileSwap::new(rt),
        &mut StderrSink::new(rt.stderr()),
    ))
}

/// Tells that there was no memory for the words or for the input. It answers the number of that status.
fn tell_no_memory(rt: &HostRuntime) -> u8 {
    tell(
        rt.alloc(),
        &Status::NoMemory,
        &mut StderrSink::new(rt.stderr()),
    );
    number(&Status::NoMemory)
}

/// Opens the root folder, once for each standard stream. A stream that is closed has its place taken by that, which can neither be read
/// nor written, so it is a fault, and no file that is opened later, as the swap file, is taken for it.
fn placeholders(rt: &HostRuntime) -> [Option<File>; 3] {
    let mut options = OpenOptions::new();
    options.read(true);
    [
        options.open(rt, "/").ok(),
        options.open(rt, "/").ok(),
        options.open(rt, "/").ok(),
    ]
}

fn main(rt: HostRuntime) -> ExitCode {
    let _placeholders = placeholders(&rt);
    let code = match run(&rt) {
        Ok(code) => code,
        Err(NoMemory) => tell_no_memory(&rt),
    };
    ExitCode::from(code)
}
