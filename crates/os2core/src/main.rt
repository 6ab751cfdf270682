// Shows a core image: `os2core show FILE`, `os2core svg FILE`, `os2core segment FILE NUMBER`, `os2core difference FILE FILE`.
#![tactic(auto)]

mod changes;
mod drawn;
mod facts;
mod holders;
mod image;
mod picture;
mod printable;
mod processes;
mod segment;
mod spans;
mod tables;

use holders::Holder;
use image::{Opened, open};
use o2_dump::Core;
use o2_tool::{
    CoreWords, FAILED, MISUSED, REFUSED, Shown, core_words, ended, no_memory, unallocated, words,
};
use std::io;
use std::process::ExitCode;

/// The image as text: the memory, the segments that aren't in it, the swap device, and the processes.
fn show(rt: &HostRuntime, core: &Core) -> io::Result<ExitCode> {
    match holders::holders(rt.alloc(), core) {
        Ok(holders) => show_tables(rt, core, holders.as_slice()),
        Err(_) => Err(unallocated()),
    }
}

/// The tables of an image, whose segments are held so.
fn show_tables(rt: &HostRuntime, core: &Core, holders: &[Holder]) -> io::Result<ExitCode> {
    tables::list_head(rt, core)?;
    tables::list_memory(rt, core, holders)?;
    tables::list_absent(rt, core, holders)?;
    tables::list_blocks(rt, core)?;
    processes::list_processes(rt, core)?;
    Ok(ExitCode::SUCCESS)
}

/// The end where a file isn't shown, which says why.
fn unread(rt: &HostRuntime, word: &str, why: &Opened) -> io::Result<ExitCode> {
    let name = Shown(word.as_bytes());
    match why {
        Opened::Refused(fault) => {
            eprintln!(rt;
                "os2core: {name} is no core image: {}",
                image::Reason(*fault)
            )?;
            Ok(ExitCode::from(REFUSED))
        }
        Opened::TooLong => {
            eprintln!(rt; "os2core: {name} is no core image: it has more than 64 MiB")?;
            Ok(ExitCode::from(REFUSED))
        }
        Opened::NoFile => {
            eprintln!(rt; "os2core: the file {name} isn't there")?;
            Ok(ExitCode::from(FAILED))
        }
        Opened::Failed => {
            eprintln!(rt; "os2core: the file {name} can't be read")?;
            Ok(ExitCode::from(FAILED))
        }
        _ => Err(no_memory()),
    }
}

/// What is shown of an image.
#[derive(Clone, Copy)]
enum View<'a> {
    /// All of it, as text.
    Text,
    /// A picture.
    Picture,
    /// The bytes of the segment of this number.
    Segment(&'a str),
}

/// Shows an image.
fn shown(rt: &HostRuntime, core: &Core, view: View<'_>) -> io::Result<ExitCode> {
    match view {
        View::Text => show(rt, core),
        View::Picture => picture::draw(rt, core),
        View::Segment(number) => segment::list(rt, core, number),
    }
}

/// Shows the image in a file.
fn show_one(rt: &HostRuntime, word: &str, view: View<'_>) -> io::Result<ExitCode> {
    match open(rt, word)? {
        Opened::Core(core) => shown(rt, &core, view),
        other => unread(rt, word, &other),
    }
}

/// Shows what differs in the image of a second file.
fn compare_with(rt: &HostRuntime, old: &Core, second: &str) -> io::Result<ExitCode> {
    match open(rt, second)? {
        Opened::Core(new) => changes::list(rt, old, &new),
        other => unread(rt, second, &other),
    }
}

/// Shows what differs in the images of two files.
fn compare(rt: &HostRuntime, first: &str, second: &str) -> io::Result<ExitCode> {
    match open(rt, first)? {
        Opened::Core(old) => compare_with(rt, &old, second),
        other => unread(rt, first, &other),
    }
}

/// Does what these words ask for.
fn obey(rt: &HostRuntime, words: &[String]) -> io::Result<ExitCode> {
    match core_words(rt, words)? {
        CoreWords::Show(file) => show_one(rt, file, View::Text),
        CoreWords::Draw(file) => show_one(rt, file, View::Picture),
        CoreWords::Segment(file, number) => show_one(rt, file, View::Segment(number)),
        CoreWords::Difference(first, second) => compare(rt, first, second),
        CoreWords::Answered(code) => Ok(code),
    }
}

fn run(rt: &HostRuntime) -> io::Result<ExitCode> {
    match words(rt, "os2core")? {
        Some(words) => obey(rt, words.as_slice()),
        None => Ok(ExitCode::from(MISUSED)),
    }
}

fn main(rt: HostRuntime) -> ExitCode {
    let done = run(&rt);
    ended(&rt, "os2core", done)
}
