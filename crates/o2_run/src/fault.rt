// Why a step isn't done.
ghost use Rattle.std.specs.Prelude.{◌≡◌};
ghost use Rattle.o2_run.specs.Faults.{fault_turn, went_on};

use crate::{Stop, Turn};

/// Why a step isn't done, or isn't told whole: the one error from the services up to the run.
#[derive(Clone, Copy, Debug, PartialEq, Eq)]
pub enum Fault {
    /// A sink failed.
    Sink,
    /// The run stops before the step.
    Stopped(Stop),
}

impl From<Stop> for Fault {
    ghost use Rattle.o2_run.specs.declared.fault.Fault.TheVariants.{Stopped};

    ghost from_gives = { λ why f. f ≡ Stopped why };

    fn from(why: Stop) -> Fault {
        Fault::Stopped(why)
    }
}

impl Fault {
    /// The answer of a turn whose step has this fault.
    pub fn answer(self) -> Turn
        ensures { result ≡ fault_turn self }
    {
        match self {
            Fault::Sink => Turn::SinkFault,
            Fault::Stopped(why) => why.answer(),
        }
    }
}

impl Turn {
    /// Whether the run goes on behind this answer: it doesn't behind its end.
    pub fn goes_on(self) -> Result<bool, Fault>
        ensures { result ≡ went_on self }
    {
        match self {
            Turn::Ran | Turn::Discarded => Ok(true),
            Turn::AllEnded | Turn::BudgetSpent => Ok(false),
            Turn::SinkFault => Err(Fault::Sink),
            Turn::InputFault => Err(Fault::from(Stop::Input)),
            Turn::NoRoom => Err(Fault::from(Stop::NoRoom)),
            Turn::SwapFull => Err(Fault::from(Stop::SwapFull)),
            Turn::SwapFault => Err(Fault::from(Stop::SwapFault)),
        }
    }
}
