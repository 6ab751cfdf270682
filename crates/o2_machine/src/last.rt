// The answer that is final.
ghost use Rattle.std.specs.Prelude.{◌≡◌};
ghost use Rattle.o2_machine.specs.Lasts.{answer_of};

use o2_run::{Stop, Turn};

/// The answer of a machine from its end or its stop on.
#[derive(Clone, Copy, Debug, PartialEq, Eq)]
pub enum Last {
    /// All processes have ended.
    AllEnded,
    /// The budget is spent.
    BudgetSpent,
    /// A sink failed.
    SinkFault,
    /// The run stopped before a step, and whether the stop line was put whole.
    Stopped(Stop, bool),
}

/// The answer of a turn: a step where the machine goes on.
pub fn answer(last: Option<Last>) -> Turn
    ensures { result ≡ answer_of last }
{
    match last {
        None => Turn::Ran,
        Some(Last::AllEnded) => Turn::AllEnded,
        Some(Last::BudgetSpent) => Turn::BudgetSpent,
        Some(Last::SinkFault) => Turn::SinkFault,
        Some(Last::Stopped(why, _)) => why.answer(),
    }
}
