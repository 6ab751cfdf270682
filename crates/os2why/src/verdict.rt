// What a command comes to, and how it is written.
ghost use Rattle.std.specs.Prelude.{Some};
ghost use Rattle.os2why.specs.Wordings.{verdict_text};

use crate::wording::Wording;
use std::fmt;

/// What a command comes to.
#[derive(Clone, Copy)]
pub enum Verdict<'a> {
    /// It opens.
    Opens,
    /// The machine file is refused: the reason's number as `os2run` tells it, the key that it is about, empty where it is about none, and
    /// a sentence.
    Machine(&'a str, &'a str, Wording<'a>),
    /// A module is refused: which, the reason's number, a sentence, and what is told beside it.
    Module(Wording<'a>, &'a str, Wording<'a>, Wording<'a>),
    /// It isn't opened for something else, as this says.
    Other(Wording<'a>),
}

impl fmt::Display for Verdict<'_> {
    ghost output = { λ v. Some (verdict_text v) };

    fn fmt<W: fmt::Write>(&self, f: &mut fmt::Formatter<W>) -> fmt::Result {
        match *self {
            Verdict::Opens => f.write_str("it opens"),
            Verdict::Machine(number, key, why) => {
                write!(
                    f,
                    "it isn't opened: the machine file is refused\n  reason {number}{key}: {why}"
                )
            }
            Verdict::Module(head, number, why, beside) => {
                write!(
                    f,
                    "it isn't opened: {head}\n  reason {number}: {why}{beside}"
                )
            }
            Verdict::Other(why) => write!(f, "it isn't opened: {why}"),
        }
    }
}
