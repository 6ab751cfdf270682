// From what an instruction gives to what a step answers.
ghost use Rattle.std.specs.Prelude.{◌≡◌};
ghost use Rattle.o2_isa.specs.Step.{outcome_from};

use o2_isa::{Outcome, Stop};

/// Done, or why the instruction doesn't complete.
#[inline(always)]
pub fn outcome_of(done: Result<(), Stop>) -> Outcome
    ensures { result ≡ outcome_from done }
{
    match done {
        Ok(()) => Outcome::Done,
        Err(Stop::Miss(s)) => Outcome::Miss(s),
        Err(Stop::Trap(vector, code)) => Outcome::Trap(vector, code),
        Err(Stop::Gate(service, next)) => Outcome::Gate { service, next },
    }
}
