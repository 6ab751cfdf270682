// Refusals, which own the names that they tell.
ghost use Rattle.std.specs.Prelude.{ℕ, List, Option, Err};
ghost use Rattle.o2_base.specs.declared.faults.ModuleFault.TheVariants as fault;
ghost use Rattle.o2_ne.specs.Steps.{Gives};
ghost use Rattle.o2_image.specs.Images.{Target};
ghost use Rattle.o2_dynlink.specs.Linking.{refusal};

use crate::fault::LinkFault;
use o2_base::{Bytes, Fail, ModuleFault};
use o2_image::Resolved;
use std::alloc::Global;

// The module has no entry of this ordinal.
pub(crate) fn no_ordinal(
    alloc: Global,
    module: &[u8],
    ordinal: u16,
) -> Result<(u16, u16), Fail<ModuleFault>>
    ensures { Gives {Y = Target} (λ t. t) result (Err (fault.NoOrdinal «module».now ordinal)) }
{
    let module = Bytes::from_slice(alloc, module)?;
    Err(Fail::Bad(ModuleFault::NoOrdinal(module, ordinal)))
}

// The module exports no such name.
pub(crate) fn no_name(
    alloc: Global,
    module: &[u8],
    name: &[u8],
) -> Result<(u16, u16), Fail<ModuleFault>>
    ensures { Gives {Y = Target} (λ t. t) result (Err (fault.NoName «module».now name.now)) }
{
    let module = Bytes::from_slice(alloc, module)?;
    let name = Bytes::from_slice(alloc, name)?;
    Err(Fail::Bad(ModuleFault::NoName(module, name)))
}

// No listed library has this name.
pub(crate) fn no_module(alloc: Global, name: &[u8]) -> Result<(u16, u16), Fail<ModuleFault>>
    ensures { Gives {Y = Target} (λ t. t) result (Err (fault.NoModule name.now)) }
{
    let name = Bytes::from_slice(alloc, name)?;
    Err(Fail::Bad(ModuleFault::NoModule(name)))
}

// A reference is to no listed module.
pub(crate) fn no_reference(alloc: Global, name: &[u8]) -> Result<Resolved, Fail<ModuleFault>>
    ensures { Gives {Y = List (List Target)} (λ r. r) result (Err (fault.NoModule name.now)) }
{
    let name = Bytes::from_slice(alloc, name)?;
    Err(Fail::Bad(ModuleFault::NoModule(name)))
}

// The module at a place has a name that is taken.
pub(crate) fn two_modules(alloc: Global, place: u16, name: &[u8]) -> Result<(), Fail<LinkFault>>
    ensures { Gives {Y = ℕ} (λ _. 0) result (Err (refusal place (fault.TwoModules name.now))) }
{
    let name = Bytes::from_slice(alloc, name)?;
    Err(Fail::Bad(LinkFault {
        file: place,
        fault: ModuleFault::TwoModules(name),
    }))
}

// The segments of the module at a place don't lie in the table.
pub(crate) fn no_selector(alloc: Global, place: u16, name: &[u8]) -> Result<(), Fail<LinkFault>>
    ensures { Gives {Y = ℕ} (λ _. 0) result (Err (refusal place (fault.NoSelector name.now))) }
{
    let name = Bytes::from_slice(alloc, name)?;
    Err(Fail::Bad(LinkFault {
        file: place,
        fault: ModuleFault::NoSelector(name),
    }))
}

// The module that a process runs isn't listed.
pub(crate) fn not_listed(alloc: Global, name: &[u8]) -> Result<u16, Fail<LinkFault>>
    ensures { Gives {Y = ℕ} (λ p. p) result (Err (refusal 0 (fault.NoModule name.now))) }
{
    let name = Bytes::from_slice(alloc, name)?;
    Err(Fail::Bad(LinkFault {
        file: 0,
        fault: ModuleFault::NoModule(name),
    }))
}

// No listed library has the name that is to answer for the services' module.
pub(crate) fn no_shim(alloc: Global, name: &[u8]) -> Result<Option<u16>, Fail<LinkFault>>
    ensures { Gives {Y = Option ℕ} (λ p. p) result (Err (refusal 0 (fault.NoShim name.now))) }
{
    let name = Bytes::from_slice(alloc, name)?;
    Err(Fail::Bad(LinkFault {
        file: 0,
        fault: ModuleFault::NoShim(name),
    }))
}
