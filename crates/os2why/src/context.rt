// What sentences go by beside a refusal: who asks for the module that isn't there, and which service the machine file has under the
// ordinal that isn't there.
ghost use Rattle.std.specs.Prelude.{◌≡◌, ◌≤◌, ℕ, List, length, IfOk, IfSome};
ghost use Rattle.o2_base.specs.declared.faults.ModuleFault.TheVariants as fault;
ghost use Rattle.o2_dynlink.specs.Imports.{service_with};
ghost use Rattle.o2_dynlink.specs.Linking.{linked_of};
ghost use Rattle.os2why.specs.Judges.{asks};

use crate::services::service_in;
use o2_base::{Bytes, Fail, ModuleFault, NoMemory};
use o2_conf::Conf;
use o2_dynlink::link;
use o2_image::Module;
use o2_open::OpenFault;
use o2_outer::{Fetch, Files};
use std::alloc::Global;

/// What a sentence goes by beside the refusal.
#[derive(Drop)]
pub struct Context {
    /// Whether a process asks for the module that isn't there, and not a module.
    pub asked: bool,
    /// The service that the machine file has under the ordinal that isn't there.
    pub listed: Option<u16>,
    /// The name of the library that answers for DOSCALLS.
    pub shim: Option<Bytes>,
}

impl Context {
    /// Where there is no machine file, or the refusal is of another kind.
    pub fn none() -> Context {
        Context {
            asked: false,
            listed: None,
            shim: None,
        }
    }
}

/// The service that a machine file has under the ordinal that isn't there.
fn listed(conf: &Conf, refusal: &ModuleFault) -> Option<u16>
    ensures { (name : List ℕ) (ordinal : ℕ) → refusal.now ≡ fault.NoOrdinal name ordinal
        → result ≡ service_with conf.now.ordinals ordinal }
{
    match refusal {
        ModuleFault::NoOrdinal(_, ordinal) => service_in(conf.ordinals.as_slice(), *ordinal),
        _ => None,
    }
}

/// A file of at most so many bytes; none where it isn't there, is longer, or can't be read.
fn file_in<F: Files>(
    alloc: Global,
    files: &mut F,
    name: &Bytes,
    most: u32,
) -> Result<Option<Bytes>, NoMemory>
    ensures { IfOk result (λ o. IfSome o (λ b. length b ≤ most)) }
{
    match files.fetch(alloc, name, most) {
        Fetch::Got(file) => Ok(Some(file)),
        Fetch::NoMemory => Err(NoMemory),
        Fetch::NoFile | Fetch::TooLong | Fetch::Failed => Ok(None),
    }
}

/// The setting of a machine file; none where it has none.
pub fn setting<F: Files>(
    alloc: Global,
    files: &mut F,
    name: &Bytes,
) -> Result<Option<Conf>, NoMemory> {
    match file_in(alloc, files, name, 1_048_576)? {
        None => Ok(None),
        Some(file) => match Conf::read(alloc, file.as_slice()) {
            Ok(conf) => Ok(Some(conf)),
            Err(Fail::NoMemory) => Err(NoMemory),
            Err(Fail::Bad(_)) => Ok(None),
        },
    }
}

/// The module in a file; none where it has none.
fn module_in<F: Files>(
    alloc: Global,
    files: &mut F,
    name: &Bytes,
) -> Result<Option<Module>, NoMemory> {
    match file_in(alloc, files, name, 4_194_304)? {
        None => Ok(None),
        Some(file) => match Module::check(alloc, file) {
            Ok(found) => Ok(Some(found)),
            Err(Fail::NoMemory) => Err(NoMemory),
            Err(Fail::Bad(_)) => Ok(None),
        },
    }
}

/// The modules in these files; none where one of them has none.
pub fn modules_in<F: Files>(
    alloc: Global,
    files: &mut F,
    names: &[Bytes],
) -> Result<Option<Vec<Module>>, NoMemory> {
    let mut modules = Vec::new(alloc);
    for name in names {
        match module_in(alloc, files, name)? {
            Some(found) => modules.push(found)?,
            None => return Ok(None),
        }
    }
    Ok(Some(modules))
}

/// Whether linking is refused since a process asks for a module that isn't listed.
fn is_asked(alloc: Global, conf: &Conf, modules: Vec<Module>) -> Result<bool, NoMemory>
    requires { length modules.items ≤ 64 }
    ensures { IfOk result (λ a. a ≡ asks (linked_of modules.items conf.now)) }
{
    match link(alloc, modules, conf) {
        Ok(_) => Ok(false),
        Err(Fail::NoMemory) => Err(NoMemory),
        Err(Fail::Bad(refusal)) => Ok(refusal.file == 0),
    }
}

/// Whether a process asks for the module that isn't there, where this is the machine file.
fn asked_in<F: Files>(alloc: Global, files: &mut F, conf: &Conf) -> Result<bool, NoMemory> {
    match modules_in(alloc, files, conf.modules.as_slice())? {
        None => Ok(false),
        Some(modules) => {
            if modules.len() > 64 {
                return Ok(false);
            }
            is_asked(alloc, conf, modules)
        }
    }
}

/// Whether a process asks for the module that isn't there, where it is one that isn't there.
fn is_asked_for<F: Files>(
    alloc: Global,
    files: &mut F,
    conf: &Conf,
    refusal: &ModuleFault,
) -> Result<bool, NoMemory> {
    match refusal {
        ModuleFault::NoModule(_) => asked_in(alloc, files, conf),
        _ => Ok(false),
    }
}

/// What the sentence of a refusal goes by beside it, where this is the setting of the machine file.
fn context_in<F: Files>(
    alloc: Global,
    files: &mut F,
    conf: Conf,
    refusal: &ModuleFault,
) -> Result<Context, NoMemory> {
    let listed = listed(&conf, refusal);
    let asked = is_asked_for(alloc, files, &conf, refusal)?;
    let Conf { shim, .. } = conf;
    Ok(Context {
        asked,
        listed,
        shim,
    })
}

/// What the sentence of a refusal goes by beside it, where this is the machine file.
pub fn read_context<F: Files>(
    alloc: Global,
    files: &mut F,
    name: &Bytes,
    refusal: &OpenFault,
) -> Result<Context, NoMemory> {
    let OpenFault::BadModule(_, refusal) = refusal else {
        return Ok(Context::none());
    };
    match setting(alloc, files, name)? {
        None => Ok(Context::none()),
        Some(conf) => context_in(alloc, files, conf, refusal),
    }
}
