// What `check` writes of the modules that were linked.
ghost use Rattle.std.specs.Prelude.{◌≡◌, ◌++◌, decimal, option_map, IfOk, OnOk};
ghost use Rattle.o2_image.specs.Getters.{nth};
ghost use Rattle.o2_dynlink.specs.Outcome.{modules_of};
ghost use Rattle.o2_dynlink.specs.Reached.{answers};
ghost use Rattle.o2_cli.specs.Checks.{kind_text, counts_text, entries_text, module_line, with_line, module_lines};

use o2_base::{Bytes, NoMemory};
use o2_dynlink::{Linked, answers};
use o2_image::{Images, Module};
use std::alloc::Global;

/// The most modules of a machine file.
const MOST_MODULES: u16 = 64;

/// What a module is.
fn kind(module: &Module) -> &'static [u8]
    ensures { result.now ≡ kind_text «module».now }
{
    if module.is_library() {
        b" library, "
    } else {
        b" program, "
    }
}

/// A decimal number and what it counts.
#[tactic(auto, using(std::proofs::Common::append_assoc))]
fn add_count(alloc: Global, text: &mut Vec<u8>, count: u32, what: &[u8]) -> Result<(), NoMemory>
    ensures { OnOk result (text.new.items ≡ text.old.items ++ decimal count ++ what.now) }
{
    let digits = count.to_string(alloc)?;
    text.extend_from_slice(digits.as_bytes())?;
    text.extend_from_slice(what)?;
    Ok(())
}

/// What stands behind the number of entries: whose they are.
fn entries(shim: &Option<Bytes>, module: &Module) -> &'static [u8]
    ensures { result.now ≡ entries_text (answers shim.now «module».now) }
{
    if answers(shim, module) {
        b" entries for DOSCALLS"
    } else {
        b" entries"
    }
}

/// What is counted of a module.
#[tactic(auto, using(std::proofs::Common::append_assoc))]
fn add_counts(
    alloc: Global,
    text: &mut Vec<u8>,
    shim: &Option<Bytes>,
    module: &Module,
) -> Result<(), NoMemory>
    ensures { OnOk result (text.new.items ≡ text.old.items ++ counts_text shim.now «module».now) }
{
    let segments = u32::from(module.segment_count());
    add_count(alloc, text, segments, b" segments, ")?;
    add_count(alloc, text, module.reloc_count(), b" relocations, ")?;
    add_count(alloc, text, module.entry_count(), entries(shim, module))?;
    Ok(())
}

/// The line of a module.
#[tactic(auto, using(std::proofs::Common::append_assoc))]
fn add_line(
    alloc: Global,
    text: &mut Vec<u8>,
    shim: &Option<Bytes>,
    module: &Module,
) -> Result<(), NoMemory>
    ensures { OnOk result (text.new.items ≡ text.old.items ++ module_line shim.now «module».now) }
{
    text.extend_from_slice(module.name().as_slice())?;
    text.extend_from_slice(kind(module))?;
    add_counts(alloc, text, shim, module)?;
    text.push(b'\n')?;
    Ok(())
}

/// The line of the module at a place from 1, where there is one.
fn add_module(
    alloc: Global,
    text: &mut Vec<u8>,
    shim: &Option<Bytes>,
    images: &Images,
    place: u16,
) -> Result<(), NoMemory>
    ensures { OnOk result (text.new.items ≡ with_line shim.now text.old.items (option_map (λ p. p.0) (nth images.now.modules place))) }
{
    match images.module(place) {
        Some(module) => add_line(alloc, text, shim, module),
        None => Ok(()),
    }
}

/// The lines of all modules, in the order of the machine file. The line of the library that answers for DOSCALLS says so.
pub(crate) fn lines(
    alloc: Global,
    shim: &Option<Bytes>,
    linked: &Linked,
) -> Result<Vec<u8>, NoMemory>
    ensures { IfOk result (λ t. t.items ≡ module_lines shim.now (modules_of linked.now.images)) }
{
    let images = linked.images();
    let mut text = Vec::new(alloc);
    for k in 0..MOST_MODULES {
        add_module(alloc, &mut text, shim, images, k + 1)?;
    }
    Ok(text)
}
