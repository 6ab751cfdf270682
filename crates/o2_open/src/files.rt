// The files that a command names: the machine file, and the modules.
ghost use Rattle.std.specs.Prelude.{◌≡◌, ◌≤◌, ℕ, IfOk, IfErr, OnOk, length, [], ◌∷◌, ◌++◌};
ghost use Rattle.o2_image.specs.Modules.{module_of};
ghost use Rattle.o2_conf.specs.Setting.{setting};
ghost use Rattle.o2_open.specs.declared.fault.OpenFault.TheVariants as open_fault;
ghost use Rattle.o2_open.specs.Loads.{Contents, Loads, Tells, Refuses, under, module_in, modules_in, machine_in};
ghost use Rattle.o2_conf.specs.Limits.{IsWithinLimits};
ghost use Rattle.o2_open.specs.Names.{AsksFirst};

use crate::OpenFault;
use o2_base::{Bytes, Fail, Key, MachineFault, ModuleFault, NoMemory, Which};
use o2_conf::Conf;
use o2_image::Module;
use o2_outer::{Fetch, Files};
use std::alloc::Global;

/// The most bytes of an executable.
const MODULE_BYTES: u32 = 4_194_304;

/// The most bytes of a machine file.
const MACHINE_BYTES: u32 = 1_048_576;

/// There is no file of this name.
fn no_file(alloc: Global, name: &Bytes) -> OpenFault
    ensures { Tells result (open_fault.NoFile name.now) }
{
    match Bytes::from_slice(alloc, name.as_slice()) {
        Ok(name) => OpenFault::NoFile(name),
        Err(NoMemory) => OpenFault::NoMemory,
    }
}

/// The module in this file is refused.
pub fn bad_module(alloc: Global, name: &[u8], fault: ModuleFault) -> OpenFault
    ensures { Tells result (open_fault.BadModule name.now fault) }
{
    match Bytes::from_slice(alloc, name) {
        Ok(name) => OpenFault::BadModule(name, fault),
        Err(NoMemory) => OpenFault::NoMemory,
    }
}

/// The module of these bytes.
fn checked(alloc: Global, name: &Bytes, file: Bytes) -> Result<Module, OpenFault>
    requires { length file ≤ 4194304 }
    ensures exact { Loads (λ m. m) result (under (open_fault.BadModule name.now) (module_of file)) }
    ensures refuses { (faults : ℕ) → IfErr result (Refuses faults faults) }
{
    match Module::check(alloc, file) {
        Ok(module) => Ok(module),
        Err(Fail::NoMemory) => Err(OpenFault::NoMemory),
        Err(Fail::Bad(fault)) => Err(bad_module(alloc, name.as_slice(), fault)),
    }
}

/// The module in a file.
#[tactic(auto, unfolding(crate::specs::Loads::module_in))]
pub fn module<F: Files>(alloc: Global, files: &mut F, name: &Bytes) -> Result<Module, OpenFault>
    ensures exact { (contents : Contents) → F.may_hold files.new contents → Loads (λ m. m) result (module_in contents name.now) }
    ensures asks { F.asked files.new ≡ F.asked files.old ++ name.now ∷ [] }
    ensures refuses { IfErr result (Refuses (F.faults files.old) (F.faults files.new)) }
    ensures earlier { (contents : Contents) → F.may_hold files.new contents → F.may_hold files.old contents }
    ensures count { F.faults files.old ≤ F.faults files.new }
{
    match files.fetch(alloc, name, MODULE_BYTES) {
        Fetch::NoFile => Err(no_file(alloc, name)),
        Fetch::TooLong => Err(bad_module(
            alloc,
            name.as_slice(),
            ModuleFault::OutOfProfile(Which::FileLength),
        )),
        Fetch::Failed => Err(OpenFault::FileFault),
        Fetch::NoMemory => Err(OpenFault::NoMemory),
        Fetch::Got(file) => checked(alloc, name, file),
    }
}

/// One more module.
fn add(modules: &mut Vec<Module>, one: Module) -> Result<(), OpenFault>
    ensures added { OnOk result (modules.new.items ≡ modules.old.items ++ one ∷ []) }
    ensures refuses { (faults : ℕ) → IfErr result (Refuses faults faults) }
    ensures memory { IfErr result (λ s. s ≡ open_fault.NoMemory) }
{
    match modules.push(one) {
        Ok(()) => Ok(()),
        Err(_) => Err(OpenFault::NoMemory),
    }
}

/// The modules in these files, one after the other.
pub fn modules<F: Files>(
    alloc: Global,
    files: &mut F,
    names: &[Bytes],
) -> Result<Vec<Module>, OpenFault>
    ensures exact { (contents : Contents) → F.may_hold files.new contents → Loads (λ v. v.items) result (modules_in contents names.now []) }
    ensures asks { AsksFirst names.now (F.asked files.old) (F.asked files.new) }
    ensures earlier { (contents : Contents) → F.may_hold files.new contents → F.may_hold files.old contents }
    ensures count_of { IfOk result (λ v. length v.items ≡ length names.now) }
    ensures refuses { IfErr result (Refuses (F.faults files.old) (F.faults files.new)) }
    ensures count { F.faults files.old ≤ F.faults files.new }
{
    let mut modules = Vec::new(alloc);
    for name in names {
        let one = module(alloc, files, name)?;
        add(&mut modules, one)?;
    }
    Ok(modules)
}

/// The setting of these bytes.
fn setting_of(alloc: Global, file: &Bytes) -> Result<Conf, OpenFault>
    ensures exact { Loads (λ c. c) result (under open_fault.BadMachine (setting file.now)) }
    ensures within { IfOk result IsWithinLimits }
    ensures refuses { (faults : ℕ) → IfErr result (Refuses faults faults) }
{
    match Conf::read(alloc, file.as_slice()) {
        Ok(conf) => Ok(conf),
        Err(Fail::NoMemory) => Err(OpenFault::NoMemory),
        Err(Fail::Bad(fault)) => Err(OpenFault::BadMachine(fault)),
    }
}

/// The setting in a machine file.
#[tactic(auto, unfolding(crate::specs::Loads::machine_in))]
pub fn machine<F: Files>(alloc: Global, files: &mut F, name: &Bytes) -> Result<Conf, OpenFault>
    ensures exact { (contents : Contents) → F.may_hold files.new contents → Loads (λ c. c) result (machine_in contents name.now) }
    ensures asks { F.asked files.new ≡ F.asked files.old ++ name.now ∷ [] }
    ensures within { IfOk result IsWithinLimits }
    ensures refuses { IfErr result (Refuses (F.faults files.old) (F.faults files.new)) }
    ensures earlier { (contents : Contents) → F.may_hold files.new contents → F.may_hold files.old contents }
    ensures count { F.faults files.old ≤ F.faults files.new }
{
    match files.fetch(alloc, name, MACHINE_BYTES) {
        Fetch::NoFile => Err(no_file(alloc, name)),
        Fetch::TooLong => Err(OpenFault::BadMachine(MachineFault::Limit(Key::File))),
        Fetch::Failed => Err(OpenFault::FileFault),
        Fetch::NoMemory => Err(OpenFault::NoMemory),
        Fetch::Got(file) => setting_of(alloc, &file),
    }
}
