// A process that waits at the end of a run.
ghost use Rattle.std.specs.Prelude.{◌≡◌, IfOk, string_bytes};
ghost use Rattle.o2_trace.specs.Lines.{waiter_text};

use o2_tool::Shown;
use std::alloc::{AllocError, Global};

/// A process that lives at the end of a run, and whose last step waited: where, and in which call.
#[derive(Clone, Copy)]
pub struct Waiter<'a> {
    pub process: u16,
    pub cs: u16,
    pub ip: u16,
    pub call: &'a [u8],
}

/// Where it waits, as `process 1 waits at 000F:0018 in DosSemRequest`.
pub fn waiter_text(alloc: Global, waiter: &Waiter<'_>) -> Result<String, AllocError>
    ensures { IfOk result (λ s. string_bytes s ≡ waiter_text waiter.now) }
{
    let (process, cs, ip) = (waiter.process, waiter.cs, waiter.ip);
    let call = Shown(waiter.call);
    format!(in alloc; "process {process} waits at {cs:04X}:{ip:04X} in {call}")
}
