// The words of a program, and what clap says of them.
ghost use Rattle.std.specs.Prelude.{◌≡◌, ◌≢◌, IfOk};
ghost use Rattle.std.specs.Process.{exit_status};
ghost use Rattle.clap.specs.Words.{kind_of};

use crate::end::MISUSED;
use clap::error::ErrorKind;
use o2_base::{Bytes, NoMemory};
use std::alloc::{AllocError, Global};
use std::process::ExitCode;
use std::{env, io};

/// The program's words, its own name first. None where one of them isn't UTF-8, as the standard error then says; the status is to be
/// `MISUSED`.
pub fn words(rt: &HostRuntime, name: &str) -> io::Result<Option<Vec<String>>> {
    let all = match env::args(rt) {
        Ok(all) => all,
        Err(error) => {
            if error.kind() != io::ErrorKind::InvalidData {
                return Err(error);
            }
            eprintln!(rt; "{name}: a word isn't UTF-8")?;
            return Ok(None);
        }
    };
    let mut words = Vec::new(rt.alloc());
    for word in all {
        if words.push(word).is_err() {
            return Err(io::Error::from(io::ErrorKind::OutOfMemory));
        }
    }
    Ok(Some(words))
}

/// What a program ends with where its words are no command, or ask for help or the version: the text goes to the standard error or to
/// the standard output, and the status is 2 or 0.
pub fn answered(rt: &HostRuntime, error: &clap::Error) -> io::Result<ExitCode>
    ensures help { IfOk result
        (λ c. kind_of error.now ≡ ErrorKind.DisplayHelp → exit_status c ≡ 0) }
    ensures version { IfOk result
        (λ c. kind_of error.now ≡ ErrorKind.DisplayVersion → exit_status c ≡ 0) }
    ensures misused { IfOk result (λ c. kind_of error.now ≢ ErrorKind.DisplayHelp
        → kind_of error.now ≢ ErrorKind.DisplayVersion → exit_status c ≡ MISUSED) }
{
    error.print(rt)?;
    if error.use_stderr() {
        Ok(ExitCode::from(MISUSED))
    } else {
        Ok(ExitCode::SUCCESS)
    }
}

/// A word as the name of a file.
pub fn file_name(alloc: Global, word: &str) -> Result<Bytes, AllocError>
    ensures { IfOk result (λ b. b ≡ word.now) }
{
    match Bytes::from_slice(alloc, word.as_bytes()) {
        Ok(name) => Ok(name),
        Err(NoMemory) => Err(AllocError),
    }
}
