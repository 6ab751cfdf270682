// The arguments of a call on segments.
ghost use Rattle.std.specs.Prelude.{◌≡◌};
ghost use Rattle.o2_gate.specs.Requests.{request_of};

use crate::requests::SegmentArguments;

/// The arguments of a call that isn't made over the bus: it changes what processes hold, or segments, or reads more of them than the
/// process sees.
#[derive(Clone, Copy, Debug, PartialEq, Eq)]
pub struct Arguments {
    /// The number of the service.
    pub service: u16,
    /// From the top of the stack, and zeros behind them.
    pub words: [u16; 6],
    pub request: SegmentArguments,
    ghost same: { service ≡ (request_of request).service },
}
