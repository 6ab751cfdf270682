// What a call answers, and the words that it writes.
ghost use Rattle.std.specs.Prelude.{◌≡◌};

use o2_regions::Answer;

/// What a call answers, and the words that it writes into the segment.
#[derive(Clone, Copy)]
pub struct Plan {
    /// What the call answers.
    pub answer: Answer,
    /// The words that are written, each behind its offset, in this order; those past `count` say nothing.
    pub words: [(u16, u16); 6],
    /// How many words are written, from 0 to 6; 0 where the answer has an error.
    pub count: usize,
}

/// A word that isn't written.
pub(crate) const UNUSED: (u16, u16) = (0, 0);

impl Plan {
    /// The plan of a call that is refused, which writes nothing.
    pub(crate) fn refused(error: u16) -> Plan
        ensures error { result.answer.error ≡ error }
        ensures value { result.answer.value ≡ 0 }
        ensures count { result.count ≡ 0 }
    {
        let answer = Answer { error, value: 0 };
        Plan {
            answer,
            words: [UNUSED; 6],
            count: 0,
        }
    }
}
