// A segment as it is drawn: its colour and its words.
ghost use Rattle.std.specs.Prelude.{◌≡◌, ◌+◌, ◌*◌, ◌%◌};

use crate::holders::{Holder, of_segment, selector};
use o2_dump::Core;
use std::fmt;

/// A segment as it is drawn.
#[derive(Clone, Copy)]
pub struct Drawn {
    pub number: u32,
    /// How many bytes it has.
    pub size: u32,
    /// Whether it was discarded.
    pub discarded: bool,
    /// Its first holder, by the numbers of processes and the selectors; none where no process holds it.
    pub holder: Option<Holder>,
}

impl Drawn {
    /// Whether this process holds it first, at this index.
    pub fn is_first(&self, process: u16, index: u16) -> bool {
        match self.holder {
            Some((_, first, at)) => first == process && at == index,
            None => false,
        }
    }
}

/// The segment of a number, where segments are held so.
pub fn one_of(core: &Core, holders: &[Holder], number: u32) -> Drawn {
    let (size, discarded) = match core.segments.as_slice().get(number as usize) {
        Some(entry) => (entry.size, entry.gone),
        None => (0, false),
    };
    let holder = match of_segment(holders, number) {
        [first, ..] => Some(*first),
        _ => None,
    };
    Drawn {
        number,
        size,
        discarded,
        holder,
    }
}

/// The number of the colour of what a process holds at an index: another one for each of 16 indexes of 4 processes, one behind the other.
fn colour_number(process: u16, index: u16) -> u32
    ensures { result ≡ (16 * process + index) % 64 }
{
    (16 * u32::from(process) + u32::from(index)) % 64
}

/// The colour of what is held so: one of 64 that are light enough for black words, and grey where no process holds it.
#[derive(Clone, Copy)]
pub struct Colour(pub Option<Holder>);

impl fmt::Display for Colour {
    fn fmt<W: fmt::Write>(&self, f: &mut fmt::Formatter<W>) -> fmt::Result {
        let Some((_, process, index)) = self.0 else {
            return f.write_str("#999999");
        };
        let number = colour_number(process, index);
        // Neighbours lie far apart on the wheel.
        write!(
            f,
            "hsl({},65%,{}%)",
            number % 16 * 7 % 16 * 45 / 2 + number / 16 * 5,
            82 - number / 16 * 10
        )
    }
}

/// How a segment's square in the legend is drawn: full of its colour, and hollow where it was discarded, for it has no bytes.
#[derive(Clone, Copy)]
pub struct Square<'a>(pub &'a Drawn);

impl fmt::Display for Square<'_> {
    fn fmt<W: fmt::Write>(&self, f: &mut fmt::Formatter<W>) -> fmt::Result {
        let colour = Colour(self.0.holder);
        if self.0.discarded {
            write!(f, "fill=\"none\" stroke=\"{colour}\" stroke-width=\"2\"")
        } else {
            write!(f, "fill=\"{colour}\"")
        }
    }
}

/// The first holder as a text: the number of its process and the selector.
#[derive(Clone, Copy)]
pub struct Name(pub Option<Holder>);

impl fmt::Display for Name {
    fn fmt<W: fmt::Write>(&self, f: &mut fmt::Formatter<W>) -> fmt::Result {
        match self.0 {
            Some((_, process, index)) => write!(f, "{process}:{:04X}", selector(index)),
            None => f.write_str("no process"),
        }
    }
}

impl fmt::Display for Drawn {
    fn fmt<W: fmt::Write>(&self, f: &mut fmt::Formatter<W>) -> fmt::Result {
        let discarded = if self.discarded { ", discarded" } else { "" };
        write!(
            f,
            "{}, segment {}, {} bytes{discarded}",
            Name(self.holder),
            self.number,
            self.size
        )
    }
}

/// What a picture shows, as its title.
#[derive(Clone, Copy)]
pub struct Title<'a>(pub &'a Core);

impl fmt::Display for Title<'_> {
    fn fmt<W: fmt::Write>(&self, f: &mut fmt::Formatter<W>) -> fmt::Result {
        write!(
            f,
            "Memory of {} bytes and {} swap blocks after {} steps",
            self.0.memory.len(),
            self.0.blocks,
            self.0.steps
        )
    }
}
