// The setting that a machine file gives.
ghost use Rattle.std.specs.Prelude.{◌≡◌, length, IfOk};
ghost use Rattle.toml.specs.View.{table_view};
ghost use Rattle.o2_conf.specs.Steps.{Gives};
ghost use Rattle.o2_conf.specs.Values.{document_of};
ghost use Rattle.o2_conf.specs.Limits.{IsFrom, NumbersLimits, IsWithinLimits};
ghost use Rattle.o2_conf.specs.Setting.{are_short, modules_at, numbers_at, setting};

use crate::arrays::texts;
use crate::lists::{Ordinals, Processes, Script, Texts};
use crate::numbers::{Numbers, read_numbers};
use crate::ordinals::ordinals;
use crate::process::processes;
use crate::script::script;
use crate::shim::shim;
use crate::table::value;
use o2_base::{Bytes, Fail, Key, MachineFault};
use std::alloc::Global;
use toml::Table;

/// What a machine file says.
#[derive(Debug, Drop)]
pub struct Conf {
    /// The memory's size in bytes, a multiple of 16 from 4,096 to 16,777,216.
    pub memory: u32,
    /// How many blocks of 512 bytes may be swapped out, 0 to 65,536.
    pub swap: u32,
    /// How many segments may live at once, 1 to 65,535.
    pub segments: u32,
    /// The steps of the whole run, 0 to 4,000,000,000.
    pub budget: u32,
    /// The steps of a turn, 1 to 1,000,000.
    pub quantum: u32,
    /// What DosMemAvail answers.
    pub avail: u32,
    /// The names of the 1 to 64 module files, each of 1 to 255 bytes.
    pub modules: Texts,
    /// The 1 to 64 processes.
    pub process: Processes,
    /// Services (1 to 31) with their ordinals (1 to 65,535), by rising names of the services.
    pub ordinals: Ordinals,
    /// The script, at most 100,000 words.
    pub script: Script,
    /// The name of the library, 1 to 255 bytes, that answers for the services' module where the services don't.
    pub shim: Option<Bytes>,
}

/// The integers at the top of a machine file.
fn integers(table: &Table) -> Result<Numbers, Fail<MachineFault>>
    ensures exact { Gives (λ n. n) result (numbers_at (table_view table.now)) }
    ensures within { IfOk result NumbersLimits }
{
    match read_numbers(table) {
        Ok(numbers) => Ok(numbers),
        Err(fault) => Err(Fail::Bad(fault)),
    }
}

/// Whether each name has 1 to 255 bytes.
fn all_short(names: &[Bytes]) -> bool
    ensures { result ≡ are_short names.now }
{
    names.iter().all(|name| name.as_slice().len() >= 1 && name.as_slice().len() <= 255)
}

/// The names of the module files.
#[tactic(auto, unfolding(crate::specs::Setting::modules_at))]
fn modules(alloc: Global, table: &Table) -> Result<Texts, Fail<MachineFault>>
    ensures exact { Gives (λ t. t) result (modules_at (table_view table.now)) }
    ensures count { IfOk result (λ t. IsFrom 1 64 (length t)) }
{
    let Some(found) = value(table, Key::Modules) else {
        return Err(Fail::Bad(MachineFault::Missing(Key::Modules)));
    };
    let names = texts(alloc, Key::Modules, found)?;
    if names.len() < 1 || names.len() > 64 {
        return Err(Fail::Bad(MachineFault::Limit(Key::Modules)));
    }
    if !all_short(names.as_slice()) {
        return Err(Fail::Bad(MachineFault::Limit(Key::Modules)));
    }
    Ok(Texts::new(names))
}

/// The table that the bytes are a TOML document of.
fn document(alloc: Global, file: &[u8]) -> Result<Table, Fail<MachineFault>>
    ensures { Gives table_view result (document_of file.now) }
{
    match toml::table_from_slice(alloc, file) {
        Ok(table) => Ok(table),
        Err(e) => {
            if e.is_memory() {
                return Err(Fail::NoMemory);
            }
            Err(Fail::Bad(MachineFault::BadToml))
        }
    }
}

impl Conf {
    /// What a machine file says, or the first fault in it, in the order of the crate's page: a file of more than 1,048,576
    /// bytes, bytes that are no TOML document, and then the faults key by key. The setting is within its limits.
    #[tactic(auto, unfolding(crate::specs::Setting::setting))]
    pub fn read(alloc: Global, file: &[u8]) -> Result<Conf, Fail<MachineFault>>
        ensures exact { Gives (λ c. c) result (setting file.now) }
        ensures within { IfOk result IsWithinLimits }
    {
        if file.len() > 1048576 {
            return Err(Fail::Bad(MachineFault::Limit(Key::File)));
        }
        let table = document(alloc, file)?;
        let numbers = integers(&table)?;
        let modules = modules(alloc, &table)?;
        let process = Processes::new(processes(alloc, &table)?);
        let ordinals = Ordinals::new(ordinals(alloc, &table)?);
        let script = Script::new(script(alloc, &table)?);
        let shim = shim(alloc, &table)?;
        Ok(Conf {
            memory: numbers.memory,
            swap: numbers.swap,
            segments: numbers.segments,
            budget: numbers.budget,
            quantum: numbers.quantum,
            avail: numbers.avail,
            modules,
            process,
            ordinals,
            script,
            shim,
        })
    }
}
