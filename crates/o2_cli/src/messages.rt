// The numbers and the lines of the statuses.
ghost use Rattle.std.specs.Prelude.{◌≡◌, ◌++◌, IfOk};
ghost use Rattle.o2_cli.specs.StatusTexts.{status_number, key_text, machine_text, module_reason, line_of, status_text};

use crate::Status;
use o2_base::{Bytes, Key, MachineFault, ModuleFault, NoMemory};
use std::alloc::Global;

/// The number of a status, with which the program ends.
pub fn number(status: &Status) -> u8
    ensures { result ≡ status_number status.now }
{
    match status {
        Status::Fine => 0,
        Status::BadWords => 1,
        Status::NoFile(_) => 2,
        Status::BadMachine(_) => 3,
        Status::BadModule(_, _) => 4,
        Status::FileFault => 5,
        Status::InputFault => 6,
        Status::SinkFault => 7,
        Status::NoRoom => 8,
        Status::SwapFull => 9,
        Status::SwapFault => 10,
        Status::NoMemory => 11,
    }
}

/// A key as the machine file spells it.
fn key_name(key: Key) -> &'static [u8]
    ensures { result.now ≡ key_text key }
{
    match key {
        Key::File => b"file",
        Key::Memory => b"memory",
        Key::Swap => b"swap",
        Key::Segments => b"segments",
        Key::Budget => b"budget",
        Key::Quantum => b"quantum",
        Key::Avail => b"avail",
        Key::Modules => b"modules",
        Key::Process => b"process",
        Key::ProcessModule => b"process.module",
        Key::ProcessArguments => b"process.arguments",
        Key::ProcessEnvironment => b"process.environment",
        Key::Ordinals => b"ordinals",
        Key::Script => b"script",
        Key::Shim => b"shim",
    }
}

/// The number of a reason.
fn reason(fault: &ModuleFault) -> &'static [u8]
    ensures { result.now ≡ module_reason fault.now }
{
    match fault {
        ModuleFault::NotMz => b"1",
        ModuleFault::NotNe => b"2",
        ModuleFault::Truncated(_) => b"3",
        ModuleFault::NotOs2 => b"4",
        ModuleFault::LinkErrors => b"5",
        ModuleFault::BadTable(_) => b"6",
        ModuleFault::OutOfProfile(_) => b"7",
        ModuleFault::BadChain(_, _) => b"8",
        ModuleFault::BadTarget(_, _) => b"9",
        ModuleFault::NoModule(_) => b"10",
        ModuleFault::NoOrdinal(_, _) => b"11",
        ModuleFault::NoName(_, _) => b"12",
        ModuleFault::TwoModules(_) => b"13",
        ModuleFault::NoSelector(_) => b"14",
        ModuleFault::NoStack => b"15",
        ModuleFault::NoEntry => b"16",
        ModuleFault::NoSegment => b"17",
        ModuleFault::NoShim(_) => b"18",
    }
}

/// A line of three parts behind the program's name.
#[tactic(auto, using(std::proofs::Common::append_assoc))]
fn line(alloc: Global, first: &[u8], second: &[u8], third: &[u8]) -> Result<Bytes, NoMemory>
    ensures { IfOk result (λ b. b ≡ line_of (first.now ++ (second.now ++ third.now))) }
{
    let mut bytes = Vec::new(alloc);
    bytes.extend_from_slice(b"os2run: ")?;
    bytes.extend_from_slice(first)?;
    bytes.extend_from_slice(second)?;
    bytes.extend_from_slice(third)?;
    bytes.push(b'\n')?;
    Ok(Bytes::new(bytes))
}

/// The line of a status for standard error, none where all is fine.
#[tactic(auto, using(std::proofs::Common::append_assoc))]
pub fn text(alloc: Global, status: &Status) -> Result<Bytes, NoMemory>
    ensures { IfOk result (λ b. b ≡ status_text status.now) }
{
    match status {
        Status::Fine => Ok(Bytes::new(Vec::new(alloc))),
        Status::BadWords => line(
            alloc,
            b"usage: os2run exe FILE, run FILE, check FILE, bench N or dump FILE",
            &[],
            &[],
        ),
        Status::NoFile(name) => line(alloc, b"no file ", name.as_slice(), &[]),
        Status::BadMachine(fault) => machine_line(alloc, *fault),
        Status::BadModule(name, fault) => module_line(alloc, name, fault),
        Status::FileFault => line(alloc, b"file fault", &[], &[]),
        Status::InputFault => line(alloc, b"input fault", &[], &[]),
        Status::SinkFault => line(alloc, b"output fault", &[], &[]),
        Status::NoRoom => line(alloc, b"no room", &[], &[]),
        Status::SwapFull => line(alloc, b"swap full", &[], &[]),
        Status::SwapFault => line(alloc, b"swap fault", &[], &[]),
        Status::NoMemory => line(alloc, b"no memory", &[], &[]),
    }
}

/// The line of a machine file's refusal.
#[tactic(auto, using(std::proofs::Common::append_assoc))]
fn machine_line(alloc: Global, fault: MachineFault) -> Result<Bytes, NoMemory>
    ensures { IfOk result (λ b. b ≡ status_text (Status.BadMachine fault)) }
{
    match fault {
        MachineFault::BadToml => line(alloc, b"machine file: reason ", b"1 ", &[]),
        MachineFault::Missing(key) => line(alloc, b"machine file: reason ", b"2 ", key_name(key)),
        MachineFault::BadValue(key) => line(alloc, b"machine file: reason ", b"3 ", key_name(key)),
        MachineFault::Limit(key) => line(alloc, b"machine file: reason ", b"4 ", key_name(key)),
    }
}

/// The line of a module's refusal.
#[tactic(auto, using(std::proofs::Common::append_assoc))]
fn module_line(alloc: Global, name: &Bytes, fault: &ModuleFault) -> Result<Bytes, NoMemory>
    ensures { IfOk result (λ b. b ≡ status_text (Status.BadModule name.now fault.now)) }
{
    let mut bytes = Vec::new(alloc);
    bytes.extend_from_slice(b"os2run: ")?;
    bytes.extend_from_slice(b"module ")?;
    bytes.extend_from_slice(name.as_slice())?;
    bytes.extend_from_slice(b": reason ")?;
    bytes.extend_from_slice(reason(fault))?;
    bytes.push(b'\n')?;
    Ok(Bytes::new(bytes))
}
