// Core images, with what they tell or the place that they are refused for, by the rules of the format.
use o2_base::{Fail, NoMemory};
use o2_dump::{Core, CoreFault};
use std::alloc::Global;
use test_fixtures::{Wrong, want, want_line};

/// An image: a key and a text a line. In a text `l`, `w` and `b` stand before a number of four bytes, of two and of one, `t`
/// before letters, `z` before how many zeros there are, and `a` before how many letters a.
static MACHINE: &str = "mark|tOS2CORE1
head|l64 l3 l4 l2 l7 l0 l5 l0
zeros|l10 l0 b1 b2 b0 b0
image|l600 l512 b0 b0 b1 b1 w1 w2
memory|l20 l20 b0 b0 b0 b2 l16
swap|l600 l513 b0 b0 b0 b3 l2 l2 a512 l0 a512
bytes|z16 tabcdefghijklmnopqrst z28
first|w1 w0 w0 z28 l2
code|w1 w19 w16 b0 b250 w0 l2 l1
data|w5 w9 w0 b0 b114 w0 l0 l3
second|w3 w2 w13 z28 l0
end|tEND!";

/// A text in place of the line of a key, and how the image is judged. The entries of the segments begin at 40, 52, 68 and 84,
/// the memory at 1132, the processes at 1196 and 1270, the entries of the first one at 1234 and 1252, and the end at 1308.
static CASES: &str = "none:  => ok
mark: tOS2CORE3 => NotCore
mark: tOS2CORE2 => BadEntry 40
mark: tOS2 => NotCore
zeros: l0 l0 b1 b2 b0 b0 => BadEntry 40
zeros: l65537 l0 b0 b0 b0 b0 => BadEntry 40
zeros: l65536 l0 b0 b0 b0 b0 => ok
zeros: l10 l1 b0 b0 b0 b0 => BadEntry 40
zeros: l10 l0 b255 b255 b1 b0 => ok
zeros: l10 l0 b1 b2 b2 b0 => BadEntry 40
zeros: l10 l0 b1 b2 b0 b4 => BadEntry 40
image: l600 l601 b0 b0 b1 b1 w1 w2 => BadEntry 52
image: l600 l600 b0 b0 b1 b1 w0 w2 => ok
image: l16 l16 b0 b0 b0 b2 l0 => ok
image: l16 l16 b0 b0 b0 b2 l48 => ok
image: l16 l16 b0 b0 b0 b2 l1 => BadEntry 68
image: l16 l16 b0 b0 b0 b2 l47 => BadEntry 68
image: l1 l1 b0 b0 b0 b2 l1 => BadEntry 68
image: l16 l16 b0 b0 b0 b2 l49 => BadEntry 52
image: l16 l15 b0 b0 b0 b2 l0 => BadEntry 52
image: l512 l512 b0 b0 b0 b3 l1 l1 z512 => ok
image: l512 l512 b0 b0 b0 b3 l1 l2 z512 => BadEntry 600
image: l512 l512 b0 b0 b0 b3 l1 l3 z512 => BadEntry 52
image: l512 l512 b0 b0 b0 b3 l2 l1 z512 => BadEntry 52
swap: l600 l513 b0 b0 b0 b3 l2 l2 z512 l2 z512 => BadEntry 84
swap: l600 l512 b0 b0 b0 b3 l2 l2 z512 l0 z512 => BadEntry 84
swap: l600 l513 b0 b0 b0 b3 l1 l2 z512 => BadEntry 84
first: w1 w3 w0 z28 l2 => BadEntry 1196
first: w3 w0 w0 z28 l2 => BadEntry 1270
first: w0 w0 w9 z28 l2 => ok
code: w5 w19 w16 b0 b250 w0 l2 l1 => BadEntry 1252
code: w1 w19 w16 b0 b250 w1 l2 l1 => BadEntry 1234
code: w1 w19 w16 b0 b250 w256 l2 l1 => BadEntry 1234
code: w1 w19 w16 b0 b250 w0 l4 l1 => BadEntry 1234
code: w1 w19 w16 b0 b250 w0 l2 l0 => BadEntry 1234
end: tEND? => BadEntry 1308
end: tEND! b0 => TooLong 1312
end: tEN => Truncated 1310
hello: tEND! => ok
hello: tEND? => BadEntry 4174
hello: tEND! b0 => TooLong 4178
marked: l16 l0 b4 b0 b0 b0 b1 tEND! => ok
marked: l16 l0 b4 b0 b0 b0 b0 tEND! => ok
marked: l16 l0 b4 b0 b0 b0 b2 tEND! => BadEntry 40
marked: l16 l0 b3 b0 b0 b0 b1 tEND! => BadEntry 40
marked: l16 l0 b4 b1 b0 b0 b1 tEND! => BadEntry 40
marked: l16 l16 b4 b0 b0 b1 b1 w1 w1 tEND! => BadEntry 40
marked: l16 l16 b4 b0 b0 b1 b0 w1 w1 tEND! => ok
marked: l16 l0 b4 b0 b0 b0 => Truncated 52
marked: l16 l0 b7 b0 b1 b0 b1 tEND! => ok
marked: l16 l0 b251 b0 b0 b0 b1 tEND! => BadEntry 40
pair: l16 l0 b4 b0 b0 b0 b1 l16 l0 b4 b0 b0 b0 b1 z16 tEND! => ok
pair: l16 l0 b4 b0 b0 b0 b1 l16 l0 b4 b0 b0 b0 b2 z16 tEND! => BadEntry 53
pair: l16 l16 b4 b0 b0 b1 b0 w1 w1 l16 l0 b4 b9 b0 b0 b1 z16 tEND! => BadEntry 57
pair: l16 l16 b4 b0 b0 b2 b0 l0 l16 l16 b4 b0 b0 b3 b0 l1 l0 z512 z16 tEND! => ok
pair: l16 l0 b4 b0 b0 b0 b1 l16 l16 b4 b0 b0 b2 b1 l0 z16 tEND! => BadEntry 53
pair: l16 l0 b4 b0 b0 b0 b1 l16 l16 b4 b0 b0 b3 b1 l1 l0 z512 z16 tEND! => BadEntry 53
pair: l16 l0 b4 b0 b0 b0 b1 l16 l0 b4 b0 b0 b0 => Truncated 65";

/// The image of a machine of 4,096 bytes without swapping, whose one process has ended after ten steps, but for its end.
static HELLO: &str = "tOS2CORE1 l4096 l0 l0 l1 l10 l0 l14 l0 z4096 w1 w1 w0 z28 l0";

/// The image of a machine without memory, which has one segment and no process, in the form that tells of discarded segments, but for its
/// segment and its end.
static MARKED: &str = "tOS2CORE2 l0 l0 l1 l0 l7 l0 l5 l0";

/// The same of a machine with 16 bytes of memory, one swap block and two segments.
static PAIR: &str = "tOS2CORE2 l16 l1 l2 l0 l7 l0 l5 l0";

/// Adds what a word of a text stands for.
fn write_word(file: &mut Vec<u8>, word: &str) -> Result<(), NoMemory> {
    let Some((kind, rest)) = word.split_at_checked(1) else {
        return Ok(());
    };
    let number = rest.parse::<u32>().unwrap_or(0);
    let [first, second, third, fourth] = number.to_le_bytes();
    match kind {
        "l" => file.extend_from_slice(&[first, second, third, fourth])?,
        "w" => file.extend_from_slice(&[first, second])?,
        "b" => file.push(first)?,
        "t" => file.extend_from_slice(rest.as_bytes())?,
        _ => {
            for _ in 0..number {
                file.push(if kind == "a" { b'a' } else { 0 })?;
            }
        }
    }
    Ok(())
}

/// Adds what a text stands for.
fn write_text(file: &mut Vec<u8>, text: &str) -> Result<(), NoMemory> {
    for word in text.split(' ') {
        write_word(file, word)?;
    }
    Ok(())
}

/// Adds a line, with this text in place of that of the key.
fn write_line(file: &mut Vec<u8>, line: &str, key: &str, text: &str) -> Result<(), NoMemory> {
    let Some((name, usual)) = line.split_once('|') else {
        return Ok(());
    };
    if key == name {
        return write_text(file, text);
    }
    write_text(file, usual)
}

/// Adds the image, with this text in place of the line of a key; with the keys `hello`, `marked` and `pair` the text is the end of HELLO, of
/// MARKED and of PAIR.
fn write_image(file: &mut Vec<u8>, key: &str, text: &str) -> Result<(), NoMemory> {
    if key == "hello" {
        write_text(file, HELLO)?;
        return write_text(file, text);
    }
    if key == "marked" {
        write_text(file, MARKED)?;
        return write_text(file, text);
    }
    if key == "pair" {
        write_text(file, PAIR)?;
        return write_text(file, text);
    }
    for line in MACHINE.lines() {
        write_line(file, line, key, text)?;
    }
    Ok(())
}

/// What a file is refused for, if it is.
fn judged(alloc: Global, file: &[u8]) -> Result<Option<CoreFault>, NoMemory> {
    match Core::read(alloc, file) {
        Ok(_) => Ok(None),
        Err(Fail::NoMemory) => Err(NoMemory),
        Err(Fail::Bad(fault)) => Ok(Some(fault)),
    }
}

/// What an answer tells; none of `ok`.
fn fault_of(answer: &str) -> Option<CoreFault> {
    let (word, place) = answer.split_once(' ').unwrap_or((answer, ""));
    let place = place.parse::<u64>().unwrap_or(0);
    match word {
        "NotCore" => Some(CoreFault::NotCore),
        "Truncated" => Some(CoreFault::Truncated(place)),
        "BadEntry" => Some(CoreFault::BadEntry(place)),
        "TooLong" => Some(CoreFault::TooLong(place)),
        _ => None,
    }
}

/// Whether an image is judged so.
fn is_judged(alloc: Global, key: &str, text: &str, answer: &str) -> Result<bool, NoMemory> {
    let mut file = Vec::new(alloc);
    write_image(&mut file, key, text)?;
    Ok(judged(alloc, file.as_slice())? == fault_of(answer))
}

/// The key, the text and the answer of a line.
fn parts(line: &str) -> Option<(&str, &str, &str)> {
    let (key, rest) = line.split_once(": ")?;
    let (text, answer) = rest.split_once(" => ")?;
    Some((key, text, answer))
}

pub fn faults_of_images(alloc: Global) -> Result<(), Wrong> {
    let mut count = 0u32;
    for line in CASES.lines() {
        if let Some((key, text, answer)) = parts(line) {
            want_line(is_judged(alloc, key, text, answer)?, line)?;
            count = count.saturating_add(1);
        }
    }
    want(count == 58, 1)
}

/// Whether each front of an image is refused for its length.
fn are_cut(alloc: Global, file: &[u8]) -> Result<(), Wrong> {
    want(file.len() == 1312, 0)?;
    for length in 0..file.len() {
        let fault = judged(alloc, &file[..length])?;
        want(fault == Some(CoreFault::Truncated(length as u64)), length)?;
    }
    Ok(())
}

/// The bytes of the segments of the image, by number.
static BYTES: &str = "z10
z600
tabcdefghijklmnopqrst
a513 z87
none";

/// Whether a segment of the image has the bytes that a text stands for. The text `none` stands for no segment.
fn has_bytes(alloc: Global, core: &Core, number: u32, text: &str) -> Result<bool, NoMemory> {
    let mut wanted = Vec::new(alloc);
    write_text(&mut wanted, text)?;
    match core.segment(alloc, number)? {
        Some(bytes) => Ok(bytes.as_slice() == wanted.as_slice()),
        None => Ok(text == "none"),
    }
}

/// Whether each of them has.
fn have_bytes(alloc: Global, core: &Core) -> Result<(), Wrong> {
    let mut number = 0u32;
    for text in BYTES.lines() {
        want_line(has_bytes(alloc, core, number, text)?, text)?;
        number = number.saturating_add(1);
    }
    want(number == 5, 0)
}

/// Whether each front of the image is refused, and its segments have their bytes.
pub fn fronts_and_bytes(alloc: Global) -> Result<(), Wrong> {
    let mut file = Vec::new(alloc);
    write_image(&mut file, "none", "")?;
    are_cut(alloc, file.as_slice())?;
    let core = Core::read(alloc, file.as_slice())?;
    have_bytes(alloc, &core)
}
