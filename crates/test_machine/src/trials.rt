// Machines of rows: they begin, and are looked at.

ghost use Rattle.std.specs.Prelude.{IfSome};
ghost use Rattle.test_machine.specs.Going.{IsGoing};

use crate::outside::{Outside, made_outside};
use o2_base::{Bytes, NoMemory};
use o2_machine::Machine;
use o2_open::{Session, open};
use o2_outer::{MemFiles, MemSink, MemSwap, SwapDevice};
use o2_words::Verb;
use std::alloc::Global;
use test_fixtures::{Files, Wrong};

/// The name of a row, and the calls that fail in it, counted from 1, those of a sink each with the number of bytes that it takes before.
pub struct Plan {
    pub name: &'static str,
    pub takes: &'static [u64],
    pub console: &'static [(u64, usize)],
    pub report: &'static [(u64, usize)],
    pub device: &'static [u64],
}

/// Nothing fails.
static SURE: Plan = Plan {
    name: "",
    takes: &[],
    console: &[],
    report: &[],
    device: &[],
};

/// A row: a machine, and what it comes to.
pub trait Trial {
    fn plan(&self) -> &Plan;

    /// Adds its files, of which `a.toml` is the machine file.
    fn add_files(&self, alloc: Global, files: &mut Files) -> Result<(), NoMemory>;

    /// What is wrong with its machine, which has just begun, or no text. `later` is another outside, in which no call fails.
    fn wrong_of<S: SwapDevice>(
        &self,
        machine: &mut Machine,
        outside: &mut Outside,
        later: &mut Outside,
        swap: &mut S,
    ) -> &'static str
        requires { IsGoing machine.old (S.blocks swap.old) };
}

/// The machine of these files, over a device; none where it doesn't begin.
fn begun<S: SwapDevice>(
    alloc: Global,
    files: &mut MemFiles,
    name: &Bytes,
    report: &mut MemSink,
    swap: &S,
) -> Option<Machine>
    ensures { IfSome result (λ m. IsGoing m (S.blocks swap.now)) }
{
    let Ok(session) = open(alloc, Verb::Run, files, name) else {
        return None;
    };
    let Session { conf, linked } = session;
    match Machine::begin(alloc, &conf, linked, swap.count(), report) {
        Ok(machine) => Some(machine),
        Err(_) => None,
    }
}

/// The files of a row.
fn files_of<T: Trial>(alloc: Global, row: &T) -> Result<MemFiles, NoMemory> {
    let mut files = Vec::new(alloc);
    row.add_files(alloc, &mut files)?;
    Ok(MemFiles::new(files, Vec::new(alloc)))
}

/// What is wrong with a row over these, or no text.
fn wrong_over<T: Trial>(
    alloc: Global,
    row: &T,
    outside: &mut Outside,
    later: &mut Outside,
    swap: &mut MemSwap,
) -> Result<&'static str, NoMemory> {
    let mut files = files_of(alloc, row)?;
    let name = Bytes::from_slice(alloc, b"a.toml")?;
    Ok(
        match begun(alloc, &mut files, &name, &mut outside.report, swap) {
            Some(mut machine) => row.wrong_of(&mut machine, outside, later, swap),
            None => "it doesn't begin",
        },
    )
}

/// The same over a device of 2,048 blocks that fails where the plan says.
fn wrong<T: Trial>(alloc: Global, row: &T) -> Result<&'static str, NoMemory> {
    let plan = row.plan();
    let mut outside = made_outside(alloc, plan)?;
    let mut later = made_outside(alloc, &SURE)?;
    let mut swap = MemSwap::new(alloc, 2048, plan.device.to_vec(alloc)?)?;
    wrong_over(alloc, row, &mut outside, &mut later, &mut swap)
}

/// Refuses the first row that is wrong.
pub fn first_wrong<T: Trial>(alloc: Global, rows: &[T]) -> Result<(), Wrong> {
    for row in rows {
        let text = wrong(alloc, row)?;
        if !text.is_empty() {
            return Err(Wrong::Of(row.plan().name, text));
        }
    }
    Ok(())
}
