// How a program ends.
ghost use Rattle.std.specs.Prelude.{◌≡◌, MatchResult};
ghost use Rattle.std.specs.Process.{exit_status};

use std::process::ExitCode;
use std::{fmt, io};

/// The status of a program that said why something is refused.
pub const REFUSED: u8 = 1;

/// The status of a program whose words are no command.
pub const MISUSED: u8 = 2;

/// The status of a program that has failed: a file can't be read, there is no memory, or the output fails.
pub const FAILED: u8 = 3;

/// The system's number of the error that a write to a pipe gives where nobody reads any more.
const EPIPE: i32 = 32;

/// Whether an error is that of a pipe that nobody reads any more, as behind `| head`. An error may have its text alone, as an `anyhow::Error` has.
fn is_closed_pipe<E: fmt::Display>(rt: &HostRuntime, error: &E) -> bool {
    let closed = io::Error::from_raw_os_error(EPIPE);
    let Ok(text) = format!(in rt.alloc(); "{error}") else {
        return false;
    };
    let Ok(wanted) = format!(in rt.alloc(); "{closed}") else {
        return false;
    };
    text.as_str() == wanted.as_str()
}

/// The end of a program: its status, or 3 with a line on the standard error. Nothing is said where nobody reads the output any more.
pub fn ended<E: fmt::Display + Drop>(
    rt: &HostRuntime,
    name: &str,
    done: Result<ExitCode, E>,
) -> ExitCode
    ensures { MatchResult done (λ code. result ≡ code) (λ _. exit_status result ≡ FAILED) }
{
    match done {
        Ok(code) => code,
        Err(error) => {
            if !is_closed_pipe(rt, &error) {
                let _ = eprintln!(rt; "{name}: {error}");
            }
            ExitCode::from(FAILED)
        }
    }
}
