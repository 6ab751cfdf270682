// A sentence: texts, and what stands between them.
ghost use Rattle.std.specs.Prelude.{◌≡◌, ◌++◌, Some};
ghost use Rattle.os2why.specs.Wordings.{part_text, wording_text};

use o2_tool::Shown;
use std::fmt;

/// What stands between the texts of a sentence.
#[derive(Clone, Copy)]
pub enum Part<'a> {
    /// Nothing.
    Nothing,
    /// A text.
    Text(&'a str),
    /// A name, as any terminal shows it.
    Name(&'a [u8]),
    /// A number in decimal digits.
    Number(u64),
    /// A number in hexadecimal digits.
    Hexadecimal(u32),
    /// An offset in four hexadecimal digits.
    Offset(u16),
    /// The line where something stands, from 1.
    Line(u64),
    /// The first and the last line of what stands in several.
    Lines(u64, u64),
}

impl fmt::Display for Part<'_> {
    ghost output = { λ p. Some (part_text p) };

    fn fmt<W: fmt::Write>(&self, f: &mut fmt::Formatter<W>) -> fmt::Result {
        match *self {
            Part::Nothing => Ok(()),
            Part::Text(text) => f.write_str(text),
            Part::Name(name) => write!(f, "{}", Shown(name)),
            Part::Number(number) => write!(f, "{number}"),
            Part::Hexadecimal(number) => write!(f, "{number:X}"),
            Part::Offset(place) => write!(f, "{place:04X}"),
            Part::Line(number) => write!(f, " (line {number})"),
            Part::Lines(first, last) => write!(f, " (lines {first} to {last})"),
        }
    }
}

/// A sentence, or an import: up to four parts, with texts before and between them.
#[derive(Clone, Copy)]
pub struct Wording<'a> {
    pub front: &'a str,
    pub first: Part<'a>,
    pub middle: &'a str,
    pub second: Part<'a>,
    pub end: &'a str,
    pub third: Part<'a>,
    pub rest: Part<'a>,
}

impl<'a> Wording<'a> {
    /// A part behind a text.
    pub fn behind(front: &'a str, rest: Part<'a>) -> Wording<'a>
        ensures { wording_text result ≡ front.now ++ part_text rest.entry }
    {
        Wording {
            front,
            first: Part::Nothing,
            middle: "",
            second: Part::Nothing,
            end: "",
            third: Part::Nothing,
            rest,
        }
    }

    /// A text.
    pub fn plain(text: &'a str) -> Wording<'a>
        ensures { wording_text result ≡ text.now }
    {
        Wording::behind("", Part::Text(text))
    }

    /// Two parts, with texts before and between them.
    pub fn pair(front: &'a str, first: Part<'a>, middle: &'a str, rest: Part<'a>) -> Wording<'a>
        ensures { wording_text result ≡ front.now ++ (part_text first.entry ++ (middle.now ++ part_text rest.entry)) }
    {
        Wording {
            front,
            first,
            middle,
            second: Part::Nothing,
            end: "",
            third: Part::Nothing,
            rest,
        }
    }

    /// A part between two texts.
    pub fn one(front: &'a str, first: Part<'a>, rest: &'a str) -> Wording<'a>
        ensures { wording_text result ≡ front.now ++ (part_text first.entry ++ rest.now) }
    {
        Wording::pair(front, first, "", Part::Text(rest))
    }

    /// Three parts and a text.
    pub fn three(
        front: &'a str,
        first: Part<'a>,
        middle: &'a str,
        second: Part<'a>,
        end: &'a str,
        third: Part<'a>,
        rest: &'a str,
    ) -> Wording<'a>
        ensures { wording_text result ≡ front.now
            ++ (part_text first.entry ++ (middle.now ++ (part_text second.entry ++ (end.now ++ (part_text third.entry ++ rest.now))))) }
    {
        Wording {
            front,
            first,
            middle,
            second,
            end,
            third,
            rest: Part::Text(rest),
        }
    }

    /// Two parts and a text.
    pub fn two(
        front: &'a str,
        first: Part<'a>,
        middle: &'a str,
        second: Part<'a>,
        rest: &'a str,
    ) -> Wording<'a>
        ensures { wording_text result ≡ front.now ++ (part_text first.entry ++ (middle.now ++ (part_text second.entry ++ rest.now))) }
    {
        Wording::three(front, first, middle, second, "", Part::Nothing, rest)
    }
}

impl fmt::Display for Wording<'_> {
    ghost output = { λ w. Some (wording_text w) };

    fn fmt<W: fmt::Write>(&self, f: &mut fmt::Formatter<W>) -> fmt::Result {
        let Wording {
            front,
            first,
            middle,
            second,
            end,
            third,
            rest,
        } = *self;
        write!(f, "{front}{first}{middle}{second}{end}{third}{rest}")
    }
}
