// Machine files, with what they say or what they are refused for, by the rules of the machine file.
mod cases;

use cases::{CASES, USUAL};
use o2_base::{Bytes, Fail, NoMemory};
use o2_conf::{Conf, Word};
use std::alloc::{AllocError, Global};
use test_fixtures::{Wrong, want, want_line};

/// What a file is refused for, or `ok`.
fn judged(alloc: Global, file: &[u8]) -> Result<String, AllocError> {
    match Conf::read(alloc, file) {
        Ok(_) => String::from_str(alloc, "ok"),
        Err(Fail::NoMemory) => String::from_str(alloc, "no memory"),
        Err(Fail::Bad(fault)) => format!(in alloc; "{fault:?}"),
    }
}

/// Writes what a text of the table stands for.
fn write_text(file: &mut String, text: &str) -> Result<(), NoMemory> {
    let mut parts = text.split('~');
    for (k, line) in parts.next().unwrap_or("").split(" / ").enumerate() {
        file.push_str(if k == 0 { "" } else { "\n" })?;
        file.push_str(line)?;
    }
    let item = parts.next().unwrap_or("");
    for _ in 0..parts.next().unwrap_or("").parse::<u32>().unwrap_or(0) {
        file.push_str(item)?;
    }
    file.push_str(parts.next().unwrap_or(""))?;
    Ok(())
}

/// Writes the usual file, with this text in place of the line of a key. The text of `file` stands alone.
fn write_file(file: &mut String, key: &str, text: &str) -> Result<(), NoMemory> {
    if key == "file" {
        return write_text(file, text);
    }
    for line in USUAL.lines() {
        if let Some((name, usual)) = line.split_once('|') {
            write_text(file, if key.starts_with(name) { text } else { usual })?;
            file.push('\n')?;
        }
    }
    Ok(())
}

/// Whether a file is judged so.
fn is_judged(alloc: Global, key: &str, text: &str, fault: &str) -> Result<bool, AllocError> {
    let mut file = String::new(alloc);
    write_file(&mut file, key, text).map_err(|_| AllocError)?;
    let answer = judged(alloc, file.as_bytes())?;
    Ok(answer.as_str() == fault)
}

/// The key, the text and the fault of a line.
fn parts(line: &str) -> Option<(&str, &str, &str)> {
    let (key, rest) = line.split_once(": ")?;
    let (text, fault) = rest.split_once(" => ")?;
    Some((key, text, fault))
}

pub fn machine_file_faults(alloc: Global) -> Result<(), Wrong> {
    let mut count = 0u32;
    for line in CASES.lines() {
        if let Some((key, text, fault)) = parts(line) {
            want_line(is_judged(alloc, key, text, fault)?, line)?;
            count = count.saturating_add(1);
        }
    }
    want(count == 201, 1)?;
    Ok(())
}

pub fn bytes_that_are_no_text(alloc: Global) -> Result<(), Wrong> {
    for file in [b"\xFF".as_slice(), b"memory = 4096\n# \xC3(".as_slice()] {
        let answer = judged(alloc, file)?;
        want(answer.as_str() == "BadToml", 0)?;
    }
    Ok(())
}

pub fn a_file_of_the_longest_length(alloc: Global) -> Result<(), Wrong> {
    let mut file = String::new(alloc);
    write_file(&mut file, "", "")?;
    for _ in file.len()..1048576 {
        file.push('#')?;
    }
    let longest = judged(alloc, file.as_bytes())?;
    file.push('#')?;
    let longer = judged(alloc, file.as_bytes())?;
    want(
        longest.as_str() == "ok" && longer.as_str() == "Limit(File)",
        0,
    )?;
    Ok(())
}

static SETTING: &str = "memory = 32768
swap = 3
segments = 20
budget = 1_000
quantum = 0x10
avail = 4294967295
modules = ['hello.exe', 'lib/two.dll']
script = ['9:5', '1:10', '65535:4000000000']
unknown = 1979-05-27
[[process]]
module = 'HELLO'
[[process]]
module = 'TWO'
arguments = '-v x'
environment = ['A=1', 'B=']
[ordinals]
DosWrite = 7
DosExit = 65535
";

/// What a file says that isn't refused.
fn read(alloc: Global, file: &str) -> Result<Conf, NoMemory> {
    match Conf::read(alloc, file.as_bytes()) {
        Ok(conf) => Ok(conf),
        Err(_) => Err(NoMemory),
    }
}

fn has_numbers(conf: &Conf) -> bool {
    let found = [
        conf.memory,
        conf.swap,
        conf.segments,
        conf.budget,
        conf.quantum,
        conf.avail,
    ];
    found == [32768, 3, 20, 1000, 16, 4294967295]
}

fn is_text(found: Option<&Bytes>, text: &[u8]) -> bool {
    match found {
        Some(bytes) => bytes.as_slice() == text,
        None => false,
    }
}

fn has_modules(conf: &Conf) -> bool {
    conf.modules.len() == 2
        && is_text(conf.modules.get(0), b"hello.exe")
        && is_text(conf.modules.get(1), b"lib/two.dll")
        && conf.modules.get(2).is_none()
}

fn has_processes(conf: &Conf) -> bool {
    let (Some(first), Some(second)) = (conf.process.get(0), conf.process.get(1)) else {
        return false;
    };
    conf.process.len() == 2
        && first.module.as_slice() == b"HELLO".as_slice()
        && (first.arguments.len(), first.environment.len()) == (0, 0)
        && second.arguments.as_slice() == b"-v x".as_slice()
        && is_text(second.environment.get(1), b"B=")
}

fn has_ordinals(conf: &Conf) -> bool {
    conf.ordinals.len() == 2
        && conf.ordinals.get(0).copied() == Some((1, 65535))
        && conf.ordinals.get(1).copied() == Some((4, 7))
}

fn has_script(alloc: Global, conf: &Conf) -> Result<bool, NoMemory> {
    let words = [
        Word::Slice(9, 5),
        Word::Slice(1, 10),
        Word::Slice(65535, 4000000000),
    ];
    let list = conf.script.to_vec(alloc)?;
    Ok(
        conf.script.len() == 3
            && conf.script.get(2).copied() == Some(Word::Slice(65535, 4000000000))
            && list.as_slice() == words.as_slice(),
    )
}

pub fn a_setting(alloc: Global) -> Result<(), Wrong> {
    let conf = read(alloc, SETTING)?;
    want(
        has_numbers(&conf) && has_modules(&conf) && has_processes(&conf),
        0,
    )?;
    want(has_ordinals(&conf) && has_script(alloc, &conf)?, 1)?;
    Ok(())
}

/// Whether a setting names none of what may be left out. Some ordinals are those of DosAllocHuge, DosExit and DosWrite.
fn has_defaults(conf: &Conf) -> bool {
    (conf.avail, conf.script.len(), conf.ordinals.len()) == (0, 0, 31)
        && conf.shim.is_none()
        && conf.ordinals.get(0).copied() == Some((16, 40))
        && conf.ordinals.get(6).copied() == Some((1, 5))
        && conf.ordinals.get(30).copied() == Some((4, 138))
}

pub fn the_default_ordinals(alloc: Global) -> Result<(), Wrong> {
    let mut file = String::new(alloc);
    write_file(&mut file, "", "")?;
    let conf = read(alloc, file.as_str())?;
    want(has_defaults(&conf), 0)?;
    Ok(())
}
