// An inventory of what executables import.
ghost use Rattle.std.specs.Prelude.{◌≤◌, length};

use crate::context::{modules_in, setting};
use crate::imports::{State, Tally, gather};
use crate::judge::refusal;
use crate::output::{complain, put, say};
use crate::scope::Scope;
use crate::wording::{Part, Wording};
use o2_base::{Bytes, Fail, NoMemory};
use o2_conf::Conf;
use o2_image::Module;
use o2_open::OpenFault;
use o2_outer::{Fetch, Files, FolderFiles};
use o2_tool::{FAILED, file_name, no_memory, unallocated};
use o2_words::Verb;
use std::alloc::{AllocError, Global};
use std::collections::BTreeMap;
use std::io;
use std::process::ExitCode;

/// One file more for each of these imports.
fn count_in(all: &mut Tally, one: Tally) -> Result<(), AllocError> {
    for (import, _) in one {
        let before = all.get(&import).copied().unwrap_or(0);
        all.insert(import, before.saturating_add(1))?;
    }
    Ok(())
}

/// How many imports are of this state.
fn count_of(found: &Tally, wanted: State) -> u64 {
    let mut count = 0u64;
    for ((state, _), _) in found.iter() {
        if *state == wanted {
            count = count.saturating_add(1);
        }
    }
    count
}

/// What is found in a file.
#[derive(Clone, Copy)]
enum Found {
    /// A module.
    Module,
    /// No module that is read here.
    Refused,
    /// There is no such file.
    Nothing,
    /// It can't be read.
    Unread,
    /// Memory was wanted and not given.
    NoMemory,
}

/// Adds the imports of the module in these bytes.
fn gather_bytes(
    alloc: Global,
    scope: &Scope,
    bytes: Bytes,
    found: &mut Tally,
) -> Result<Found, AllocError>
    requires { length bytes ≤ 4194304 }
{
    match Module::check(alloc, bytes) {
        Err(Fail::NoMemory) => Ok(Found::NoMemory),
        Err(Fail::Bad(_)) => Ok(Found::Refused),
        Ok(module) => match gather(alloc, scope, &module, found) {
            Ok(()) => Ok(Found::Module),
            Err(error) => Err(error),
        },
    }
}

/// Adds the imports of the module in the file of this name.
fn gather_named(
    rt: &HostRuntime,
    scope: &Scope,
    name: &Bytes,
    found: &mut Tally,
) -> Result<Found, AllocError> {
    let mut files = FolderFiles::new(rt);
    match files.fetch(rt.alloc(), name, 4_194_304) {
        Fetch::Got(bytes) => gather_bytes(rt.alloc(), scope, bytes, found),
        Fetch::TooLong => Ok(Found::Refused),
        Fetch::NoFile => Ok(Found::Nothing),
        Fetch::Failed => Ok(Found::Unread),
        Fetch::NoMemory => Ok(Found::NoMemory),
    }
}

/// Adds what a file imports.
fn gather_file(
    rt: &HostRuntime,
    scope: &Scope,
    file: &str,
    found: &mut Tally,
) -> Result<Found, AllocError> {
    match file_name(rt.alloc(), file) {
        Ok(name) => gather_named(rt, scope, &name, found),
        Err(error) => Err(error),
    }
}

/// What stands before an item of a list.
fn mark(is_first: bool) -> &'static str {
    if is_first { ":" } else { "," }
}

/// Imports of this state in a line, behind a sentence on how many there are.
fn tell_imports(
    rt: &HostRuntime,
    sentence: Wording<'_>,
    found: &Tally,
    wanted: State,
) -> io::Result<()> {
    put(rt, sentence)?;
    let mut is_first = true;
    for ((state, text), _) in found.iter() {
        if *state == wanted {
            print!(rt; "{} {text}", mark(is_first))?;
            is_first = false;
        }
    }
    println!(rt; "")
}

/// Says what the shim of this name gives of these imports, or lacks.
fn tell_of_shim<'a>(
    rt: &HostRuntime,
    name: &'a [u8],
    verb: &'a str,
    found: &Tally,
    wanted: State,
) -> io::Result<()> {
    let count = count_of(found, wanted);
    if count == 0 {
        return Ok(());
    }
    let sentence = Wording::three(
        "  the shim ",
        Part::Name(name),
        " ",
        Part::Text(verb),
        " ",
        Part::Number(count),
        " of them",
    );
    tell_imports(rt, sentence, found, wanted)
}

/// Says which of these imports a shim would have to give.
fn tell_wanted(rt: &HostRuntime, found: &Tally) -> io::Result<()> {
    let count = count_of(found, State::Wanted);
    if count == 0 {
        return Ok(());
    }
    let sentence = Wording::one(
        "  a shim would have to give ",
        Part::Number(count),
        " of them",
    );
    tell_imports(rt, sentence, found, State::Wanted)
}

/// Says which of these imports a library gives that answers for DOSCALLS, or would have to give.
fn tell_shim(rt: &HostRuntime, shim: &Option<Bytes>, found: &Tally) -> io::Result<()> {
    match shim {
        None => tell_wanted(rt, found),
        Some(name) => {
            tell_of_shim(rt, name.as_slice(), "gives", found, State::Shim)?;
            tell_of_shim(rt, name.as_slice(), "lacks", found, State::Wanted)
        }
    }
}

/// How many imports are given, where some are, and missing.
fn counts(given: u64, missing: u64) -> Wording<'static> {
    let missing = Part::Number(missing);
    if given > 0 {
        Wording::two(
            "",
            Part::Number(given),
            " are given by libraries, ",
            missing,
            " are missing",
        )
    } else {
        Wording::one("", missing, " are missing")
    }
}

/// Says how many of a file's imports are built, given and missing.
fn tell_counts(rt: &HostRuntime, file: Part<'_>, found: &Tally) -> io::Result<()> {
    let built = Part::Number(count_of(found, State::Built));
    let given = count_of(found, State::Given).saturating_add(count_of(found, State::Shim));
    let missing = count_of(found, State::Missing).saturating_add(count_of(found, State::Wanted));
    let front = Wording::two("", file, ": ", built, " of its imports are built, ");
    put(rt, front)?;
    say(rt, &counts(given, missing))
}

/// Says what a file imports.
fn tell(rt: &HostRuntime, scope: &Scope, file: Part<'_>, found: &Tally) -> io::Result<()> {
    tell_counts(rt, file, found)?;
    tell_shim(rt, &scope.conf.shim, found)
}

/// Whether a file was read of which this is said.
fn said(done: io::Result<()>, is_read: bool) -> io::Result<bool> {
    match done {
        Ok(()) => Ok(is_read),
        Err(error) => Err(error),
    }
}

/// Says what is found in a file, which has these imports; whether it was read.
fn say_found(
    rt: &HostRuntime,
    scope: &Scope,
    file: &str,
    found: Found,
    imports: &Tally,
) -> io::Result<bool> {
    let shown = Part::Name(file.as_bytes());
    match found {
        Found::Module => said(tell(rt, scope, shown, imports), true),
        Found::Refused => {
            let why = ": no module that is read here; `os2why exe` says why";
            said(say(rt, &Wording::one("", shown, why)), true)
        }
        Found::Nothing => {
            let why = Wording::behind("there is no file ", shown);
            said(complain(rt, why), false)
        }
        Found::Unread => {
            let why = Wording::one("the file ", shown, " can't be read");
            said(complain(rt, why), false)
        }
        Found::NoMemory => Err(no_memory()),
    }
}

/// What is found in a file, and whether it was read; its imports are gathered in a tally that is empty.
fn read_into(rt: &HostRuntime, scope: &Scope, file: &str, one: &mut Tally) -> io::Result<bool> {
    match gather_file(rt, scope, file, one) {
        Ok(found) => say_found(rt, scope, file, found, one),
        Err(_) => Err(unallocated()),
    }
}

/// Says what a file imports, and counts it; whether it was read.
fn take(rt: &HostRuntime, scope: &Scope, file: &str, all: &mut Tally) -> io::Result<bool> {
    let mut one = BTreeMap::new(rt.alloc());
    let is_read = read_into(rt, scope, file, &mut one)?;
    match count_in(all, one) {
        Ok(()) => Ok(is_read),
        Err(_) => Err(unallocated()),
    }
}

/// An import, behind what its count lacks to the largest number: so the most wanted is sorted first.
type Row<'a> = (u64, &'a str);

/// Adds a row for each import of one of these states.
fn add_rows<'a>(
    all: &'a Tally,
    states: (State, State),
    rows: &mut Vec<Row<'a>>,
) -> Result<(), AllocError> {
    for ((state, text), count) in all.iter() {
        if *state == states.0 || *state == states.1 {
            rows.push((u64::MAX - *count, text.as_str()))?;
        }
    }
    rows.sort()
}

/// Says rows of imports that are so.
fn say_rows(rt: &HostRuntime, rows: &[Row<'_>], how: &str) -> io::Result<()> {
    for (rest, text) in rows {
        println!(rt; "{:>6} {text} is {how}", u64::MAX - *rest)?;
    }
    Ok(())
}

/// Lists the imports that are so, with how many files have each, the most wanted first.
fn list(rt: &HostRuntime, all: &Tally, states: (State, State), how: &str) -> io::Result<()> {
    let mut rows = Vec::new(rt.alloc());
    match add_rows(all, states, &mut rows) {
        Ok(()) => say_rows(rt, rows.as_slice(), how),
        Err(_) => Err(unallocated()),
    }
}

/// Whether the file of this name opens as a program of its own; none where there is no memory.
fn opens_named(rt: &HostRuntime, name: &Bytes) -> Option<bool> {
    let mut files = FolderFiles::new(rt);
    match refusal(rt.alloc(), Verb::Exe, &mut files, name) {
        None => Some(true),
        Some(OpenFault::NoMemory) => None,
        Some(_) => Some(false),
    }
}

/// Whether a file opens as a program of its own.
fn opens(rt: &HostRuntime, file: &str) -> io::Result<bool> {
    let Ok(name) = file_name(rt.alloc(), file) else {
        return Err(unallocated());
    };
    match opens_named(rt, &name) {
        Some(does) => Ok(does),
        None => Err(no_memory()),
    }
}

/// Says how many of the files open, each as a program of its own.
fn tell_open(rt: &HostRuntime, files: &[&str]) -> io::Result<()> {
    let mut open = 0u64;
    for file in files {
        if opens(rt, file)? {
            open = open.saturating_add(1);
        }
    }
    let opened = Wording::two(
        "",
        Part::Number(open),
        " of ",
        Part::Number(files.len() as u64),
        " files open",
    );
    say(rt, &opened)
}

/// Lists all that is missing, given and built.
fn list_all(rt: &HostRuntime, all: &Tally) -> io::Result<()> {
    list(rt, all, (State::Missing, State::Wanted), "missing")?;
    list(rt, all, (State::Given, State::Shim), "given")?;
    list(rt, all, (State::Built, State::Built), "built")
}

/// Says what each of the files imports, and counts it; whether all files were read.
fn take_all(rt: &HostRuntime, scope: &Scope, files: &[&str], all: &mut Tally) -> io::Result<bool> {
    let mut all_read = true;
    for file in files {
        let is_read = take(rt, scope, file, all)?;
        all_read = all_read && is_read;
    }
    Ok(all_read)
}

/// What `tell_all` says, over a tally that is empty.
fn tell_into(
    rt: &HostRuntime,
    scope: &Scope,
    files: &[&str],
    alone: bool,
    all: &mut Tally,
) -> io::Result<bool> {
    let all_read = take_all(rt, scope, files, all)?;
    if alone {
        tell_open(rt, files)?;
    }
    list_all(rt, all)?;
    Ok(all_read)
}

/// Says what each of the files imports, and lists all that is missing, given and built; whether all files were read.
fn tell_all(rt: &HostRuntime, scope: &Scope, files: &[&str], alone: bool) -> io::Result<bool> {
    let mut all = BTreeMap::new(rt.alloc());
    tell_into(rt, scope, files, alone, &mut all)
}

/// The setting of a program that is run alone.
fn alone(alloc: Global) -> Result<Conf, NoMemory> {
    let name = Bytes::from_slice(alloc, b"")?;
    Conf::exe(alloc, &name, &name)
}

/// The same of each file on its own; whether all were read.
fn tell_alone(rt: &HostRuntime, files: &[&str]) -> io::Result<bool> {
    match alone(rt.alloc()) {
        Ok(conf) => {
            let scope = Scope {
                conf: &conf,
                modules: &[],
            };
            tell_all(rt, &scope, files, true)
        }
        Err(_) => Err(no_memory()),
    }
}

/// Says that a machine file isn't read, or a module of it.
fn tell_unread(rt: &HostRuntime, file: &str) -> io::Result<bool> {
    let why = Wording::one(
        "the machine file ",
        Part::Name(file.as_bytes()),
        " isn't read, or a module of it: `os2why run` says why",
    );
    said(complain(rt, why), false)
}

/// The same of the files in this setting of a machine file; whether that, its modules and all files were read.
fn tell_in(rt: &HostRuntime, file: &str, conf: &Conf, files: &[&str]) -> io::Result<bool> {
    let mut folder = FolderFiles::new(rt);
    match modules_in(rt.alloc(), &mut folder, conf.modules.as_slice()) {
        Ok(Some(modules)) => {
            let scope = Scope {
                conf,
                modules: modules.as_slice(),
            };
            tell_all(rt, &scope, files, false)
        }
        Ok(None) => tell_unread(rt, file),
        Err(_) => Err(no_memory()),
    }
}

/// The same of the files in the setting of the machine file of this name.
fn tell_named(rt: &HostRuntime, file: &str, name: &Bytes, files: &[&str]) -> io::Result<bool> {
    let mut folder = FolderFiles::new(rt);
    match setting(rt.alloc(), &mut folder, name) {
        Ok(Some(conf)) => tell_in(rt, file, &conf, files),
        Ok(None) => tell_unread(rt, file),
        Err(_) => Err(no_memory()),
    }
}

/// The same of the files in a machine file's setting; whether that and all of them were read.
fn tell_within(rt: &HostRuntime, file: &str, files: &[&str]) -> io::Result<bool> {
    match file_name(rt.alloc(), file) {
        Ok(name) => tell_named(rt, file, &name, files),
        Err(_) => Err(unallocated()),
    }
}

/// The status where all files were read, or one of them wasn't.
fn status(all_read: bool) -> ExitCode {
    if all_read {
        ExitCode::SUCCESS
    } else {
        ExitCode::from(FAILED)
    }
}

/// Lists what the files import, what of it is missing most, and how many of them open. The status is 3 where one of them isn't read.
pub fn inventory(rt: &HostRuntime, machine: Option<&str>, files: &[&str]) -> io::Result<ExitCode> {
    let done = match machine {
        None => tell_alone(rt, files),
        Some(file) => tell_within(rt, file, files),
    };
    match done {
        Ok(all_read) => Ok(status(all_read)),
        Err(error) => Err(error),
    }
}
