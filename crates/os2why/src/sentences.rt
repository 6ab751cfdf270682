// Refusals in sentences.
ghost use Rattle.std.specs.Prelude.{◌≡◌, ◌≤◌, ◌++◌, IfSome, codes, None};
ghost use Rattle.o2_cli.specs.StatusTexts.{module_reason, key_text as text_of_key};
ghost use Rattle.o2_tool.specs.Text.{shown_text};
ghost use Rattle.os2why.specs.Sentences.{import_text, call_name, which_text, unbuilt_text, known_text, usual_text, service_of, ordinal_text, name_text, lost_text, shim_text, target_text, taken_text, words_of, asks_system, gift_text, beside_text};
ghost use Rattle.os2why.specs.Sentences.{form_text, limits_text, machine_words, machine_sentence, place_text, head_text, module_text, cause_text};
ghost use Rattle.os2why.specs.Wordings.{wording_text, verdict_text};

use crate::services::{call_name, in_table, is_system, service_called, service_of};
use crate::verdict::Verdict;
use crate::wording::{Part, Wording};
use o2_base::{Bytes, Key, MachineFault, ModuleFault, SERVICE_COUNT, Which, is_built};
use o2_open::OpenFault;

/// What a table or a limit is about.
fn which_text(which: Which) -> &'static str
    ensures { result.now ≡ which_text which }
{
    match which {
        Which::DataMode => "its header's data mode (bits 0 and 1 of the flags) is 3, which is none",
        Which::Shift => "its alignment shift is above 15",
        Which::AutoData => {
            "its automatic data segment isn't in the segment table, or isn't writable data"
        }
        Which::Names => "it has no module name, or one with a line end in it",
        Which::Entries => "an entry's segment isn't in the segment table",
        Which::FileLength => "the file has more than 4,194,304 bytes",
        Which::Segments => "it has more than 254 segments",
        Which::References => "it has more than 255 module references",
        Which::Iterated => {
            "a segment is iterated (LINK /EXEPACK): link the program again without packing"
        }
        Which::Conforming => "a segment is conforming code or expand-down data",
        Which::Ring => "a segment has privilege level 1 or 2 (IOPL)",
        Which::Wide => "a segment is one of 32 bits",
        Which::AutoSize => {
            "automatic data, stack and heap together have more than 65,536 bytes: link it with less stack or heap"
        }
        Which::Constant => "its entry table has constants",
    }
}

/// An import of a service by its ordinal, and what is said of it.
fn service_sentence<'a>(name: &'a [u8], ordinal: u16, number: u16, rest: &'a str) -> Wording<'a>
    requires low { 1 ≤ number }
    requires high { number ≤ SERVICE_COUNT }
    ensures { wording_text result ≡ import_text name.now ordinal (codes " (" ++ (shown_text (call_name number) ++ rest.now)) }
{
    Wording::three(
        "it imports ",
        Part::Name(name),
        ".",
        Part::Number(ordinal as u64),
        " (",
        Part::Name(call_name(number)),
        rest,
    )
}

/// Why an import of a service by its ordinal isn't there: it isn't built.
fn unbuilt_sentence(name: &[u8], ordinal: u16, number: u16) -> Wording<'_>
    requires low { 1 ≤ number }
    requires high { number ≤ SERVICE_COUNT }
    ensures { wording_text result ≡ unbuilt_text name.now ordinal number }
{
    service_sentence(name, ordinal, number, "), which isn't built yet")
}

/// Why an import of a service by its ordinal isn't there: it isn't built, or the machine file leaves it out.
fn known_sentence(name: &[u8], ordinal: u16, number: u16) -> Wording<'_>
    requires low { 1 ≤ number }
    requires high { number ≤ SERVICE_COUNT }
    ensures { wording_text result ≡ known_text name.now ordinal number }
{
    if !is_built(number) {
        return unbuilt_sentence(name, ordinal, number);
    }
    service_sentence(
        name,
        ordinal,
        number,
        "), which the table [ordinals] of the machine file leaves out",
    )
}

/// Why an import of an ordinal isn't there under which the machine file has no service.
fn usual_sentence(name: &[u8], ordinal: u16) -> Wording<'_>
    ensures { wording_text result ≡ usual_text name.now ordinal (service_of ordinal) }
{
    match service_of(ordinal) {
        Some(number) => known_sentence(name, ordinal, number),
        None => Wording::two(
            "it imports ",
            Part::Name(name),
            ".",
            Part::Number(ordinal as u64),
            ", and this machine has no call of that ordinal",
        ),
    }
}

/// Why an import by an ordinal isn't there. The machine file has the service `listed` under it.
fn ordinal_sentence(name: &[u8], ordinal: u16, listed: Option<u16>) -> Wording<'_>
    ensures { wording_text result ≡ ordinal_text name.now ordinal listed }
{
    if !is_system(name) {
        return Wording::three(
            "it imports ",
            Part::Name(name),
            ".",
            Part::Number(ordinal as u64),
            ", and ",
            Part::Name(name),
            " has no entry of that ordinal",
        );
    }
    match in_table(listed) {
        Some(number) => unbuilt_sentence(name, ordinal, number),
        None => usual_sentence(name, ordinal),
    }
}

/// Why an import by a name isn't there.
fn name_sentence<'a>(name: &'a [u8], symbol: &'a [u8]) -> Wording<'a>
    ensures { wording_text result ≡ name_text name.now symbol.now }
{
    let (module, call) = (Part::Name(name), Part::Name(symbol));
    if !is_system(name) {
        return Wording::three(
            "it imports ",
            module,
            ".",
            call,
            ", and ",
            module,
            " exports no such name",
        );
    }
    match service_called(symbol) {
        Some(_) => Wording::two("it imports ", module, ".", call, ", which isn't built yet"),
        None => Wording::two(
            "it imports ",
            module,
            ".",
            call,
            ", and this machine has no call of that name",
        ),
    }
}

/// Why a name is none of a module that is there. `asked` says that a process asks for it, and else another module does.
fn module_sentence(name: &[u8], asked: bool) -> Wording<'_>
    ensures { wording_text result ≡ lost_text asked name.now }
{
    if asked {
        Wording::one(
            "a process runs the module ",
            Part::Name(name),
            ", which no file of `modules` is. `module` is the name in the executable, and not the file's",
        )
    } else {
        Wording::one(
            "it refers to the module ",
            Part::Name(name),
            ", which is neither DOSCALLS nor a library among the files that are named",
        )
    }
}

/// Which relocation of a segment isn't done.
fn target_sentence(segment: u16, number: u16) -> Wording<'static>
    ensures { wording_text result ≡ target_text segment number }
{
    Wording::two(
        "segment ",
        Part::Number(segment as u64),
        ": its relocation ",
        Part::Number(number as u64),
        ", from 0, is of an unknown kind, or what it leads to isn't there",
    )
}

/// Why a module's name isn't its own.
fn taken_sentence(name: &[u8]) -> Wording<'_>
    ensures { wording_text result ≡ taken_text name.now }
{
    Wording::one(
        "another module has its name, ",
        Part::Name(name),
        ", or it is named DOSCALLS",
    )
}

/// Why the key `shim` is refused.
fn shim_sentence(name: &[u8]) -> Wording<'_>
    ensures { wording_text result ≡ shim_text name.now }
{
    Wording::one(
        "no library among the files that are named has the name ",
        Part::Name(name),
        ", which the key `shim` gives",
    )
}

/// The number of a reason, as `os2run` tells it.
fn reason(fault: &ModuleFault) -> &'static str
    ensures { result.now ≡ module_reason fault.now }
{
    match fault {
        ModuleFault::NotMz => "1",
        ModuleFault::NotNe => "2",
        ModuleFault::Truncated(_) => "3",
        ModuleFault::NotOs2 => "4",
        ModuleFault::LinkErrors => "5",
        ModuleFault::BadTable(_) => "6",
        ModuleFault::OutOfProfile(_) => "7",
        ModuleFault::BadChain(_, _) => "8",
        ModuleFault::BadTarget(_, _) => "9",
        ModuleFault::NoModule(_) => "10",
        ModuleFault::NoOrdinal(_, _) => "11",
        ModuleFault::NoName(_, _) => "12",
        ModuleFault::TwoModules(_) => "13",
        ModuleFault::NoSelector(_) => "14",
        ModuleFault::NoStack => "15",
        ModuleFault::NoEntry => "16",
        ModuleFault::NoSegment => "17",
        ModuleFault::NoShim(_) => "18",
    }
}

/// Whether an import of DOSCALLS is refused.
fn asks_system(fault: &ModuleFault) -> bool
    ensures { result ≡ asks_system fault.now }
{
    match fault {
        ModuleFault::NoOrdinal(name, _) => is_system(name.as_slice()),
        ModuleFault::NoName(name, _) => is_system(name.as_slice()),
        _ => false,
    }
}

/// What is told of an import of DOSCALLS: a library may give it, or the one that the machine file names hasn't it.
fn gift(shim: &Option<Bytes>) -> Wording<'_>
    ensures { wording_text result ≡ gift_text shim.now }
{
    match shim {
        None => Wording::plain(
            ". A library that answers for DOSCALLS (the key `shim`) may give it",
        ),
        Some(name) => Wording::one(
            ", and the shim ",
            Part::Name(name.as_slice()),
            " has none either",
        ),
    }
}

/// What is told of a refusal beside its sentence.
fn beside<'a>(fault: &ModuleFault, shim: &'a Option<Bytes>) -> Wording<'a>
    ensures { wording_text result ≡ beside_text shim.now fault.now }
{
    if asks_system(fault) {
        gift(shim)
    } else {
        Wording::plain("")
    }
}

/// Why a module is refused, with every field of the refusal. `asked` says that a process asks for it, and no file has it; the machine
/// file has the service `listed` under an ordinal that isn't there.
fn words(fault: &ModuleFault, asked: bool, listed: Option<u16>) -> Wording<'_>
    ensures { wording_text result ≡ words_of asked listed fault.now }
{
    match fault {
        ModuleFault::NotMz => Wording::plain("it doesn't begin with MZ: it is no executable"),
        ModuleFault::NotNe => Wording::plain(
            "there is no NE where the four bytes at 3Ch say: it is a program of DOS, or one of 32 bits",
        ),
        ModuleFault::Truncated(place) => Wording::two(
            "it ends early: byte ",
            Part::Number(*place as u64),
            " (",
            Part::Hexadecimal(*place),
            "h), from 0, isn't there. It is cut off, or was copied as text",
        ),
        ModuleFault::NotOs2 => Wording::plain(
            "it is for another system, as Windows: byte 36h of its NE header is neither 0 nor 1",
        ),
        ModuleFault::LinkErrors => Wording::plain(
            "its linker marked it as having errors (flag 2000h): link it again",
        ),
        ModuleFault::BadTable(which) => Wording::plain(which_text(*which)),
        ModuleFault::OutOfProfile(which) => Wording::plain(which_text(*which)),
        ModuleFault::BadChain(segment, place) => Wording::two(
            "segment ",
            Part::Number(*segment as u64),
            ": at offset ",
            Part::Offset(*place),
            "h a relocation's chain leaves the segment's bytes, or meets a byte that is patched already",
        ),
        ModuleFault::BadTarget(segment, number) => target_sentence(*segment, *number),
        ModuleFault::NoModule(name) => module_sentence(name.as_slice(), asked),
        ModuleFault::NoOrdinal(name, ordinal) => {
            ordinal_sentence(name.as_slice(), *ordinal, listed)
        }
        ModuleFault::NoName(name, symbol) => name_sentence(name.as_slice(), symbol.as_slice()),
        ModuleFault::TwoModules(name) => taken_sentence(name.as_slice()),
        ModuleFault::NoSelector(name) => Wording::behind(
            "no selectors are left for the segments of the library ",
            Part::Name(name.as_slice()),
        ),
        ModuleFault::NoStack => Wording::plain(
            "it has no stack: SS names no writable data, or there is neither a stack segment nor automatic data",
        ),
        ModuleFault::NoEntry => Wording::plain(
            "it has no entry point: CS:IP lies in no code of it, or past its end, or it is a library",
        ),
        ModuleFault::NoSegment => Wording::plain(
            "its processes want more segments than the key `segments` allows: raise it",
        ),
        ModuleFault::NoShim(name) => shim_sentence(name.as_slice()),
    }
}

/// A key as the machine file spells it, with its table.
pub fn key_text(key: Key) -> &'static str
    ensures { result.now ≡ text_of_key key }
{
    match key {
        Key::File => "file",
        Key::Memory => "memory",
        Key::Swap => "swap",
        Key::Segments => "segments",
        Key::Budget => "budget",
        Key::Quantum => "quantum",
        Key::Avail => "avail",
        Key::Modules => "modules",
        Key::Process => "process",
        Key::ProcessModule => "process.module",
        Key::ProcessArguments => "process.arguments",
        Key::ProcessEnvironment => "process.environment",
        Key::Ordinals => "ordinals",
        Key::Script => "script",
        Key::Shim => "shim",
    }
}

/// What a key has to be.
fn form(key: Key) -> &'static str
    ensures { result.now ≡ form_text key }
{
    match key {
        Key::File => "a TOML document",
        Key::Memory | Key::Swap | Key::Segments | Key::Budget | Key::Quantum | Key::Avail => {
            "a number, without quotes and without a point"
        }
        Key::Modules => "an array of texts without zero bytes, as [\"hello.exe\"]",
        Key::Process => "an array of tables, each below a line [[process]]",
        Key::ProcessModule | Key::ProcessArguments | Key::Shim => "one text without a zero byte",
        Key::ProcessEnvironment => "an array of texts without zero bytes",
        Key::Ordinals => {
            "a table with the names of calls, in exactly their letters, each with an ordinal of its own"
        }
        Key::Script =>
            "an array of texts, each discard, or P:N without blanks, signs or leading zeros",
    }
}

/// The limits of a key.
fn limits(key: Key) -> &'static str
    ensures { result.now ≡ limits_text key }
{
    match key {
        Key::File => "the file has at most 1,048,576 bytes",
        Key::Memory => "it is a multiple of 16 from 4,096 to 16,777,216",
        Key::Swap => "it is 0 to 65,536",
        Key::Segments => "it is 1 to 65,535",
        Key::Budget => "it is 0 to 4,000,000,000",
        Key::Quantum => "it is 1 to 1,000,000",
        Key::Avail => "it is 0 to 4,294,967,295",
        Key::Modules => "there are 1 to 64, each of 1 to 255 bytes",
        Key::Process => "there are 1 to 64",
        Key::ProcessModule => "it has 1 to 255 bytes",
        Key::ProcessArguments => "it has no zero byte",
        Key::ProcessEnvironment => {
            "with the module's name and the arguments it makes a segment of at most 65,536 bytes"
        }
        Key::Ordinals => "an ordinal is 1 to 65,535",
        Key::Script => {
            "there are at most 100,000 words, of a process 1 to 65,535 with 1 to 4,000,000,000 steps"
        }
        Key::Shim => "it has 1 to 255 bytes",
    }
}

/// Why a machine file is refused.
fn machine_words(fault: MachineFault) -> Wording<'static>
    ensures { wording_text result ≡ machine_words fault }
{
    match fault {
        MachineFault::BadToml => Wording::plain("it is no TOML document"),
        MachineFault::Missing(key) => {
            Wording::one("the key `", Part::Text(key_text(key)), "` is missing")
        }
        MachineFault::BadValue(key) => Wording::pair(
            "the key `",
            Part::Text(key_text(key)),
            "` has another type or form: it is ",
            Part::Text(form(key)),
        ),
        MachineFault::Limit(key) => Wording::pair(
            "the key `",
            Part::Text(key_text(key)),
            "` is outside its limits: ",
            Part::Text(limits(key)),
        ),
    }
}

/// That a machine file is refused, with the reason's number, its key, and a sentence.
fn machine_refusal(fault: MachineFault) -> Verdict<'static>
    ensures { verdict_text result ≡ codes "it isn't opened: " ++ (codes "the machine file is refused\n  " ++ machine_sentence fault) }
{
    let why = machine_words(fault);
    match fault {
        MachineFault::BadToml => Verdict::Machine("1 ", "", why),
        MachineFault::Missing(key) => Verdict::Machine("2 ", key_text(key), why),
        MachineFault::BadValue(key) => Verdict::Machine("3 ", key_text(key), why),
        MachineFault::Limit(key) => Verdict::Machine("4 ", key_text(key), why),
    }
}

/// What is refused: the module in a file, or a process whose module no file has.
fn place(name: &Bytes, asked: bool) -> Wording<'_>
    ensures { wording_text result ≡ place_text asked name.now }
{
    if asked {
        Wording::plain("a process has no module")
    } else {
        Wording::one("the module in ", Part::Name(name.as_slice()), " is refused")
    }
}

/// What is refused: the key `shim`, or else a module or a process.
fn head<'a>(name: &'a Bytes, fault: &ModuleFault, asked: bool) -> Wording<'a>
    ensures { wording_text result ≡ head_text asked name.now fault.now }
{
    match fault {
        ModuleFault::NoShim(_) => Wording::plain("the key `shim` names no listed library"),
        _ => place(name, asked),
    }
}

/// That a module is refused, with the file that it is in, the reason's number, and a sentence with every field of the refusal. `asked`
/// says that a process asks for it, and no file has it; the machine file has the service `listed` under an ordinal that isn't there, and
/// names the library `shim`.
fn module_refusal<'a>(
    name: &'a Bytes,
    fault: &'a ModuleFault,
    asked: bool,
    listed: Option<u16>,
    shim: &'a Option<Bytes>,
) -> Verdict<'a>
    ensures { verdict_text result
        ≡ codes "it isn't opened: " ++ module_text asked listed shim.now name.now fault.now }
{
    Verdict::Module(
        head(name, fault, asked),
        reason(fault),
        words(fault, asked, listed),
        beside(fault, shim),
    )
}

/// That a command isn't opened, and why.
fn refused<'a>(
    fault: &'a OpenFault,
    asked: bool,
    listed: Option<u16>,
    shim: &'a Option<Bytes>,
) -> Verdict<'a>
    ensures { verdict_text result
        ≡ codes "it isn't opened: " ++ cause_text asked listed shim.now fault.now }
{
    match fault {
        OpenFault::NoFile(name) => Verdict::Other(Wording::behind(
            "there is no file ",
            Part::Name(name.as_slice()),
        )),
        OpenFault::BadMachine(fault) => machine_refusal(*fault),
        OpenFault::BadModule(name, fault) => module_refusal(name, fault, asked, listed, shim),
        OpenFault::FileFault => Verdict::Other(Wording::plain("a file can't be read")),
        OpenFault::NoMemory => Verdict::Other(Wording::plain("there is no memory for it")),
    }
}

/// What a command comes to: that it opens, or why not. `asked` says of a module that isn't there that a process asks for it, and not a
/// module; `listed` is the service that the machine file has under an ordinal that isn't there, and `shim` the library that it names.
pub fn verdict<'a>(
    refusal: Option<&'a OpenFault>,
    asked: bool,
    listed: Option<u16>,
    shim: &'a Option<Bytes>,
) -> Verdict<'a>
    // "it opens" exactly where there is no refusal
    ensures opens { refusal.entry ≡ None → verdict_text result ≡ codes "it opens" }
    // and else the cause, with each name and number of the refusal
    ensures refused { IfSome refusal.entry (λ fault.
        verdict_text result ≡ codes "it isn't opened: " ++ cause_text asked listed shim.now fault.now) }
{
    match refusal {
        None => Verdict::Opens,
        Some(fault) => refused(fault, asked, listed, shim),
    }
}
