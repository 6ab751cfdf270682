// What is odd in a machine file: the lines of a refused key, keys that nothing reads, keys below a process that are the file's, and
// names of files where a module's name is wanted.
ghost use Rattle.std.specs.Prelude.{◌<◌};

use crate::lines::{Lines, Search, Spot, process_of};
use crate::output::say;
use crate::sentences::key_text;
use crate::wording::{Part, Wording};
use o2_base::{Bytes, Key, MachineFault, ModuleFault};
use o2_open::OpenFault;
use o2_outer::{Fetch, Files, FolderFiles};
use o2_tool::{print_lines, unallocated};
use std::io;
use toml::{Table, Value};

/// The keys of a machine file.
const TOP_KEYS: [&str; 11] = [
    "memory", "swap", "segments", "budget", "quantum", "avail", "modules", "process", "ordinals",
    "script", "shim",
];

/// The keys of a process.
const PROCESS_KEYS: [&str; 3] = ["module", "arguments", "environment"];

fn is_among(name: &str, keys: &[&str]) -> bool {
    let mut found = false;
    for key in keys {
        found = found || *key == name;
    }
    found
}

/// A machine file that is read as a document, and what is refused of it.
#[derive(Clone, Copy)]
struct Document<'a> {
    text: &'a [u8],
    table: &'a Table,
    refused: bool,
    /// The module that a process asks for, and that isn't there.
    lost: Option<&'a [u8]>,
}

/// The lines of a key as a part of a sentence.
fn part_of(lines: Option<Lines>) -> Part<'static> {
    match lines {
        None => Part::Nothing,
        Some(Lines { first, last }) => {
            if first == last {
                Part::Line(last as u64)
            } else {
                Part::Lines(first as u64, last as u64)
            }
        }
    }
}

/// Where a key stands.
fn place_of(
    rt: &HostRuntime,
    lookup: &mut Search,
    text: &[u8],
    spot: Spot<'_>,
) -> io::Result<Part<'static>> {
    match lookup.lines_of(rt.alloc(), text, spot) {
        Ok(lines) => Ok(part_of(lines)),
        Err(error) => Err(error),
    }
}

/// Says of a key that nobody reads it.
fn tell_key_unread(
    rt: &HostRuntime,
    lookup: &mut Search,
    text: &[u8],
    name: &str,
) -> io::Result<()> {
    let place = place_of(rt, lookup, text, Spot::Top(name))?;
    let shown = Part::Name(name.as_bytes());
    let rest = " is none of a machine file, and is ignored";
    say(rt, &Wording::two("  the key `", shown, "`", place, rest))
}

/// Says which keys nobody reads.
fn tell_top(rt: &HostRuntime, lookup: &mut Search, file: &Document<'_>) -> io::Result<()> {
    for (name, _) in file.table.iter() {
        if !is_among(name.as_str(), &TOP_KEYS) {
            tell_key_unread(rt, lookup, file.text, name.as_str())?;
        }
    }
    Ok(())
}

/// Whether a name ends as that of a file.
fn has_file_end(name: &str) -> bool {
    let bytes = name.as_bytes();
    if bytes.len() <= 4 {
        return false;
    }
    let end = &bytes[bytes.len() - 4..];
    end.eq_ignore_ascii_case(b".exe") || end.eq_ignore_ascii_case(b".dll")
}

/// Whether a name is one of `modules`.
fn is_listed(table: &Table, name: &str) -> bool {
    let mut found = false;
    if let Some(files) = table.get("modules").and_then(Value::as_array) {
        for file in files {
            found = found || file.as_str() == Some(name);
        }
    }
    found
}

/// Whether a process asks for a module by the name of a file: one of `modules` that is no module's name, or what ends as one in a
/// command that is refused.
fn is_file_name(file: &Document<'_>, name: &str) -> bool {
    if has_file_end(name) {
        return file.refused;
    }
    match file.lost {
        Some(lost) => lost == name.as_bytes() && is_listed(file.table, name),
        None => false,
    }
}

/// Says of the key `module` of a process that it is the name of a file, where it is.
fn tell_module(
    rt: &HostRuntime,
    lookup: &mut Search,
    file: &Document<'_>,
    number: usize,
    module: &str,
) -> io::Result<()>
    requires { number < 64 }
{
    if !is_file_name(file, module) {
        return Ok(());
    }
    let place = place_of(rt, lookup, file.text, Spot::Within(number, "module"))?;
    let told = Wording::three(
        "  `module` of process ",
        Part::Number(number as u64 + 1),
        "",
        place,
        " is ",
        Part::Name(module.as_bytes()),
        ", which is the name of a file: it is to be the name in the executable",
    );
    say(rt, &told)
}

/// That nobody reads a key of a process.
fn unread_key<'a>(number: usize, name: &'a str, place: Part<'a>) -> Wording<'a>
    requires { number < 64 }
{
    let shown = Part::Name(name.as_bytes());
    if is_among(name, &TOP_KEYS) {
        Wording::three(
            "  the key `",
            shown,
            "`",
            place,
            " stands below [[process]] and so belongs to process ",
            Part::Number(number as u64 + 1),
            ", which doesn't read it: put it above the first [[process]]",
        )
    } else {
        let rest = " is none of a process, and is ignored";
        Wording::two("  the key `", shown, "`", place, rest)
    }
}

/// Says of a key of a process that nobody reads it.
fn tell_unread(
    rt: &HostRuntime,
    lookup: &mut Search,
    file: &Document<'_>,
    number: usize,
    name: &str,
) -> io::Result<()>
    requires { number < 64 }
{
    let place = place_of(rt, lookup, file.text, Spot::Within(number, name))?;
    say(rt, &unread_key(number, name, place))
}

/// Says what is odd in a process.
fn tell_process(
    rt: &HostRuntime,
    lookup: &mut Search,
    file: &Document<'_>,
    number: usize,
    process: &Table,
) -> io::Result<()>
    requires { number < 64 }
{
    for (name, value) in process.iter() {
        if !is_among(name.as_str(), &PROCESS_KEYS) {
            tell_unread(rt, lookup, file, number, name.as_str())?;
        }
        if name.as_str() == "module" {
            if let Some(module) = value.as_str() {
                tell_module(rt, lookup, file, number, module)?;
            }
        }
    }
    Ok(())
}

/// Says what is odd in all processes.
fn tell_processes(rt: &HostRuntime, lookup: &mut Search, file: &Document<'_>) -> io::Result<()> {
    for number in 0..64usize {
        if let Some(process) = process_of(file.table, number) {
            tell_process(rt, lookup, file, number, process)?;
        }
    }
    Ok(())
}

/// The key that a refusal is about.
fn key_of(refusal: Option<&OpenFault>) -> Option<Key> {
    match refusal {
        Some(OpenFault::BadMachine(MachineFault::Missing(key))) => Some(*key),
        Some(OpenFault::BadMachine(MachineFault::BadValue(key))) => Some(*key),
        Some(OpenFault::BadMachine(MachineFault::Limit(key))) => Some(*key),
        _ => None,
    }
}

/// Whether a value is a text without a zero byte.
fn is_text(value: &Value) -> bool {
    match value.as_str() {
        Some(text) => !text.as_bytes().contains(&0),
        None => false,
    }
}

/// Whether a value is an array of texts without zero bytes.
fn are_texts(value: &Value) -> bool {
    match value.as_array() {
        None => false,
        Some(items) => {
            let mut fine = true;
            for item in items {
                fine = fine && is_text(item);
            }
            fine
        }
    }
}

/// How many bytes a text of a process has, 0 where it has none of this name.
fn text_size(process: &Table, name: &str) -> usize {
    match process.get(name).and_then(Value::as_str) {
        Some(text) => text.len(),
        None => 0,
    }
}

/// How many bytes the environment segment of a process has: its texts with a zero byte each, one more, the module's name with one, and
/// the arguments with two.
fn environment_size(process: &Table) -> usize {
    let mut size = text_size(process, "module")
        .saturating_add(text_size(process, "arguments"))
        .saturating_add(4);
    if let Some(items) = process.get("environment").and_then(Value::as_array) {
        for item in items {
            if let Some(text) = item.as_str() {
                size = size.saturating_add(text.len()).saturating_add(1);
            }
        }
    }
    size
}

/// Whether a value is the name of a module.
fn is_module(value: &Value) -> bool {
    match value.as_str() {
        Some(text) => is_text(value) && !text.is_empty() && text.len() <= 255,
        None => false,
    }
}

/// Whether a process has this key as it is to be. What the environment may be hangs on the other two, too.
fn is_well(process: &Table, key: Key) -> bool {
    let value = process.get(member_of(key));
    match key {
        Key::ProcessModule => match value {
            Some(value) => is_module(value),
            None => false,
        },
        Key::ProcessArguments => match value {
            Some(value) => is_text(value),
            None => true,
        },
        _ => match value {
            Some(value) => are_texts(value) && environment_size(process) <= 65_536,
            None => environment_size(process) <= 65_536,
        },
    }
}

/// A key of a process, as it stands below it.
fn member_of(key: Key) -> &'static str {
    match key {
        Key::ProcessModule => "module",
        Key::ProcessArguments => "arguments",
        _ => "environment",
    }
}

/// Where the first process stands whose key isn't as it is to be.
fn process_spot(table: &Table, key: Key) -> Option<Spot<'static>> {
    for number in 0..64usize {
        if let Some(process) = process_of(table, number) {
            if !is_well(process, key) {
                return match process.get(member_of(key)) {
                    None => Some(Spot::Process(number)),
                    Some(_) => Some(Spot::Within(number, member_of(key))),
                };
            }
        }
    }
    None
}

/// Where a key of a refusal stands.
fn spot_of(table: &Table, key: Key) -> Option<Spot<'static>> {
    match key {
        Key::File => None,
        Key::ProcessModule | Key::ProcessArguments | Key::ProcessEnvironment => {
            process_spot(table, key)
        }
        _ => Some(Spot::Top(key_text(key))),
    }
}

/// Says where the key of a refusal stands.
fn tell_key(
    rt: &HostRuntime,
    lookup: &mut Search,
    file: &Document<'_>,
    key: Key,
) -> io::Result<()> {
    let Some(spot) = spot_of(file.table, key) else {
        return Ok(());
    };
    match lookup.lines_of(rt.alloc(), file.text, spot)? {
        None => Ok(()),
        Some(Lines { first, last }) => {
            let end = Part::Number(last as u64);
            if first == last {
                say(rt, &Wording::behind("  that is in line ", end))
            } else {
                let begin = Part::Number(first as u64);
                say(
                    rt,
                    &Wording::pair("  that is in lines ", begin, " to ", end),
                )
            }
        }
    }
}

/// The module that isn't there.
fn lost_of(refusal: Option<&OpenFault>) -> Option<&[u8]> {
    match refusal {
        Some(OpenFault::BadModule(_, ModuleFault::NoModule(name))) => Some(name.as_slice()),
        _ => None,
    }
}

/// Says why a machine file is no document.
fn tell_error(rt: &HostRuntime, error: &toml::de::Error) -> io::Result<()> {
    match format!(in rt.alloc(); "{error}") {
        Ok(why) => print_lines(rt, " ", why.as_str().as_bytes()),
        Err(_) => Err(unallocated()),
    }
}

/// Says what is odd in a document, and where this key of a refusal stands.
fn tell_document(rt: &HostRuntime, file: &Document<'_>, key: Option<Key>) -> io::Result<()> {
    let mut lookup = Search::new();
    if let Some(key) = key {
        tell_key(rt, &mut lookup, file, key)?;
    }
    tell_top(rt, &mut lookup, file)?;
    tell_processes(rt, &mut lookup, file)
}

/// Says what is odd in this text of a machine file, and where the key of a refusal stands.
fn tell_text(
    rt: &HostRuntime,
    text: &[u8],
    refusal: Option<&OpenFault>,
    asked: bool,
) -> io::Result<()> {
    match toml::table_from_slice(rt.alloc(), text) {
        Err(error) => tell_error(rt, &error),
        Ok(table) => {
            let document = Document {
                text,
                table: &table,
                refused: refusal.is_some(),
                lost: if asked { lost_of(refusal) } else { None },
            };
            tell_document(rt, &document, key_of(refusal))
        }
    }
}

/// Says what is odd in the machine file of this name, and where the key of a refusal stands. `asked` says of a module that isn't there
/// that a process asks for it.
pub fn tell(
    rt: &HostRuntime,
    name: &Bytes,
    refusal: Option<&OpenFault>,
    asked: bool,
) -> io::Result<()> {
    let mut files = FolderFiles::new(rt);
    match files.fetch(rt.alloc(), name, 1_048_576) {
        Fetch::Got(file) => tell_text(rt, file.as_slice(), refusal, asked),
        _ => Ok(()),
    }
}
