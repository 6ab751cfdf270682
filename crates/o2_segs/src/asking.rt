// What a call is asked about, and what it answers.
ghost use Rattle.std.specs.Prelude.{◌≡◌, ◌/◌, None, if◌then◌else◌};
ghost use Rattle.o2_isa.specs.View.{is_local};
ghost use Rattle.o2_regions.specs.Maps.{IsProcess, held_at};
ghost use Rattle.o2_segs.specs.Answers.{stop_of};

use o2_base::Selector;
use o2_regions::{Answer, Held, Regions, Roomed};
use o2_store::Brought;

/// ERROR_ACCESS_DENIED: the selector isn't one of which this may be asked.
pub const ACCESS_DENIED: u16 = 5;

/// ERROR_NOT_ENOUGH_MEMORY: no index is free, or no more segments may live.
pub const NOT_ENOUGH_MEMORY: u16 = 8;

/// ERROR_INVALID_PARAMETER: the flags are none of the call's.
pub const INVALID_PARAMETER: u16 = 87;

/// The first index that all processes share.
pub(crate) const SHARED: u16 = 4096;

/// An error, at which nothing is given.
pub fn refusal(error: u16) -> Answer
    ensures { result ≡ record { error = error; value = 0 } }
{
    Answer { error, value: 0 }
}

/// No error, and this value.
pub fn done(value: u32) -> Answer
    ensures { result ≡ record { error = 0; value = value } }
{
    Answer { error: 0, value }
}

/// What a process holds under a selector of the local table, whose two low bits don't count.
pub fn held_under(regions: &Regions, pid: u16, selector: u16) -> Option<Held>
    requires { IsProcess regions.now pid }
    ensures { result ≡ (if is_local selector then held_at regions.now pid (selector / 8) else None) }
{
    let selector = Selector(selector);
    if !selector.is_local() {
        return None;
    }
    regions.held(pid, selector.index())
}

/// The stop of a call by what the store answered, and none where it was done.
pub fn stop_of(answer: Brought) -> Option<Roomed>
    ensures { result ≡ stop_of answer }
{
    match answer {
        Brought::Here => None,
        Brought::NoRoom => Some(Roomed::NoRoom),
        Brought::SwapFull => Some(Roomed::SwapFull),
        Brought::SwapFault => Some(Roomed::SwapFault),
        Brought::Stale => None,
    }
}
