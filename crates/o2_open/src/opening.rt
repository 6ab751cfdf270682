// Opening what a command runs.
ghost use Rattle.std.specs.Prelude.{◌≡◌, ◌≤◌, ℕ, All, IfOk, IfErr, length, map, unwrap_or, [], ◌∷◌, ◌++◌};
ghost use Rattle.o2_open.specs.declared.fault.OpenFault.TheVariants as open_fault;
ghost use Rattle.o2_open.specs.Loads.{Contents, Loads, Tells, Refuses, under, asked, machine_in, link_refusal, linked_in, HasEnvironments, IsLinked, start_refusal, exe_loaded, run_loaded, bench_loaded, loaded};
ghost use Rattle.o2_open.specs.Names.{AsksFirst, listed, names_in};
ghost use Rattle.o2_dynlink.specs.Linking.{linked_of};
ghost use Rattle.o2_image.specs.Getters.{nth, nth_list};
ghost use Rattle.o2_image.specs.Whole.{IsRunnable};
ghost use Rattle.o2_words.specs.Words.{HasCount};
ghost use Rattle.o2_words.specs.declared.words.Verb.TheVariants.{Bench};
ghost use Rattle.o2_conf.specs.Alone.{exe_setting};
ghost use Rattle.o2_conf.specs.Limits.{IsWithinLimits};
ghost use Rattle.o2_conf.specs.Environments.{environment_bytes};

use crate::files::{bad_module, machine, module, modules};
use crate::{OpenFault, Session, bench};
use o2_base::{Bytes, Fail, ModuleFault, NoMemory};
use o2_conf::Conf;
use o2_dynlink::{LinkFault, Linked, link};
use o2_image::Module;
use o2_outer::Files;
use o2_words::Verb;
use std::alloc::Global;

/// A process, or the key `shim`, asks for a module that isn't listed.
fn asked_for(alloc: Global, fault: ModuleFault) -> OpenFault
    ensures { Tells result (open_fault.BadModule (asked fault) fault) }
{
    let name = match &fault {
        ModuleFault::NoModule(name) | ModuleFault::NoShim(name) => {
            Bytes::from_slice(alloc, name.as_slice())
        }
        _ => Bytes::from_slice(alloc, &[]),
    };
    match name {
        Ok(name) => OpenFault::BadModule(name, fault),
        Err(NoMemory) => OpenFault::NoMemory,
    }
}

/// The file of the module at a place from 1; no bytes for any other place.
fn file_name(conf: &Conf, place: u16) -> &[u8]
    ensures { result.now ≡ nth_list conf.now.modules place }
{
    if place == 0 {
        return &[];
    }
    match conf.modules.get(place as usize - 1) {
        Some(name) => name.as_slice(),
        None => &[],
    }
}

/// Why linking is refused.
fn link_refusal(alloc: Global, conf: &Conf, refusal: LinkFault) -> OpenFault
    ensures { Tells result (link_refusal conf.now refusal) }
{
    let LinkFault { file, fault } = refusal;
    if file == 0 {
        asked_for(alloc, fault)
    } else {
        bad_module(alloc, file_name(conf, file), fault)
    }
}

/// Each module passed its checks.
fn all_checked(modules: &[Module])
    ensures { All IsRunnable modules.now }
{
    for one in modules {
        one.is_runnable();
    }
}

/// What links the modules, or why they are refused.
fn link_all(alloc: Global, conf: &Conf, modules: Vec<Module>) -> Result<Linked, OpenFault>
    requires few { length modules.items ≤ 64 }
    ensures exact { Loads (λ l. l) result (under (link_refusal conf.now) (linked_of modules.items conf.now)) }
    ensures environments { IfOk result (λ l. l.images.environments ≡ map environment_bytes conf.now.process) }
    ensures linked { IfOk result (IsLinked conf.now) }
    ensures refuses { (faults : ℕ) → IfErr result (Refuses faults faults) }
{
    all_checked(&modules);
    match link(alloc, modules, conf) {
        Ok(linked) => Ok(linked),
        Err(Fail::NoMemory) => Err(OpenFault::NoMemory),
        Err(Fail::Bad(fault)) => Err(link_refusal(alloc, conf, fault)),
    }
}

/// The modules of a setting, linked.
fn linked(alloc: Global, conf: Conf, modules: Vec<Module>) -> Result<Session, OpenFault>
    requires few { length modules.items ≤ 64 }
    requires within { IsWithinLimits conf }
    ensures exact { Loads (λ s. s) result (linked_in conf modules.items) }
    ensures within { IfOk result (λ s. IsWithinLimits s.conf) }
    ensures environments { IfOk result HasEnvironments }
    ensures linked { IfOk result (λ s. IsLinked s.conf s.linked) }
    ensures refuses { (faults : ℕ) → IfErr result (Refuses faults faults) }
{
    match link_all(alloc, &conf, modules) {
        Ok(linked) => Ok(Session { conf, linked }),
        Err(fault) => Err(fault),
    }
}

/// The setting of a program that is run alone.
fn alone(alloc: Global, file: &Bytes, program: &Module) -> Result<Conf, OpenFault>
    ensures exact { IfOk result (λ c. c ≡ exe_setting file.now program.now.names.own) }
    ensures within { IfOk result IsWithinLimits }
    ensures memory { IfErr result (λ s. s ≡ open_fault.NoMemory) }
{
    program.is_runnable();
    match Conf::exe(alloc, file, program.name()) {
        Ok(conf) => Ok(conf),
        Err(NoMemory) => Err(OpenFault::NoMemory),
    }
}

/// The list of one module.
fn only(alloc: Global, program: Module) -> Result<Vec<Module>, OpenFault>
    ensures one { IfOk result (λ v. v.items ≡ program ∷ []) }
    ensures memory { IfErr result (λ s. s ≡ open_fault.NoMemory) }
{
    let mut modules = Vec::new(alloc);
    match modules.push(program) {
        Ok(()) => Ok(modules),
        Err(_) => Err(OpenFault::NoMemory),
    }
}

/// What `exe` opens: the module in a file, as the only one.
fn open_exe<F: Files>(alloc: Global, files: &mut F, name: &Bytes) -> Result<Session, OpenFault>
    ensures exact { (contents : Contents) → F.may_hold files.new contents → Loads (λ s. s) result (exe_loaded contents name.now) }
    ensures asks { F.asked files.new ≡ F.asked files.old ++ name.now ∷ [] }
    ensures within { IfOk result (λ s. IsWithinLimits s.conf) }
    ensures environments { IfOk result HasEnvironments }
    ensures linked { IfOk result (λ s. IsLinked s.conf s.linked) }
    ensures refuses { IfErr result (Refuses (F.faults files.old) (F.faults files.new)) }
    ensures earlier { (contents : Contents) → F.may_hold files.new contents → F.may_hold files.old contents }
    ensures count { F.faults files.old ≤ F.faults files.new }
{
    let program = module(alloc, files, name)?;
    let conf = alone(alloc, name, &program)?;
    let modules = only(alloc, program)?;
    linked(alloc, conf, modules)
}

/// What `run`, `check` and `dump` open: a machine file, and the modules that it names.
fn open_run<F: Files>(alloc: Global, files: &mut F, name: &Bytes) -> Result<Session, OpenFault>
    ensures exact { (contents : Contents) → F.may_hold files.new contents → Loads (λ s. s) result (run_loaded contents name.now) }
    ensures asks { (contents : Contents) → F.may_hold files.new contents
        → AsksFirst (name.now ∷ listed (machine_in contents name.now)) (F.asked files.old) (F.asked files.new) }
    ensures within { IfOk result (λ s. IsWithinLimits s.conf) }
    ensures environments { IfOk result HasEnvironments }
    ensures linked { IfOk result (λ s. IsLinked s.conf s.linked) }
    ensures refuses { IfErr result (Refuses (F.faults files.old) (F.faults files.new)) }
    ensures earlier { (contents : Contents) → F.may_hold files.new contents → F.may_hold files.old contents }
    ensures count { F.faults files.old ≤ F.faults files.new }
{
    let conf = machine(alloc, files, name)?;
    let modules = modules(alloc, files, conf.modules.as_slice())?;
    linked(alloc, conf, modules)
}

/// What `bench` opens: its own module, as so many processes. It reads no file.
fn open_bench(alloc: Global, count: u16) -> Result<Session, OpenFault>
    requires some { 1 ≤ count }
    requires few { count ≤ 64 }
    ensures exact { Loads (λ s. s) result (bench_loaded count) }
    ensures within { IfOk result (λ s. IsWithinLimits s.conf) }
    ensures environments { IfOk result HasEnvironments }
    ensures linked { IfOk result (λ s. IsLinked s.conf s.linked) }
    ensures refuses { (faults : ℕ) → IfErr result (Refuses faults faults) }
{
    let conf = bench::setting(alloc, count)?;
    let program = bench::program(alloc)?;
    let modules = only(alloc, program)?;
    linked(alloc, conf, modules)
}

/// What a command opens, by its verb and the name of its file; a bench opens what it makes itself. The first refusal is the answer:
/// of the machine file, of each module in its order, of linking. Want of memory may come at any point.
#[tactic(auto, unfolding(crate::specs::Loads::loaded))]
pub fn open<F: Files>(
    alloc: Global,
    verb: Verb,
    files: &mut F,
    name: &Bytes,
) -> Result<Session, OpenFault>
    // a bench has 1 to 64 processes
    requires count { HasCount verb }
    // exactly what the definition says, over all files that would have given what came
    ensures exact { (contents : Contents) → F.may_hold files.new contents → Loads (λ s. s) result (loaded verb contents name.now) }
    // it asks for its operand and for the modules that a machine file lists, for each once, and for no other file
    ensures asks { (contents : Contents) → F.may_hold files.new contents
        → AsksFirst (names_in verb contents name.now) (F.asked files.old) (F.asked files.new) }
    // the setting is within its limits
    ensures within { IfOk result (λ s. IsWithinLimits s.conf) }
    ensures environments { IfOk result HasEnvironments }
    // its modules passed their checks, and are linked as the setting says
    ensures linked { IfOk result (λ s. IsLinked s.conf s.linked) }
    // a fault of the files is told only where their count rose
    ensures refuses { IfErr result (Refuses (F.faults files.old) (F.faults files.new)) }
    ensures earlier { (contents : Contents) → F.may_hold files.new contents → F.may_hold files.old contents }
    ensures count { F.faults files.old ≤ F.faults files.new }
    // a bench fetches nothing
    ensures unread { (n : ℕ) → verb ≡ Bench n → files.new ≡ files.old }
{
    match verb {
        Verb::Exe => open_exe(alloc, files, name),
        Verb::Run => open_run(alloc, files, name),
        Verb::Check => open_run(alloc, files, name),
        Verb::Dump => open_run(alloc, files, name),
        Verb::Bench(count) => open_bench(alloc, count),
    }
}

/// The places of the programs that the processes run, one for each process.
pub fn program_places(alloc: Global, linked: &Linked) -> Result<Vec<u16>, NoMemory>
    requires few { length linked.now.programs ≤ 64 }
    ensures { IfOk result (λ v. v.items ≡ linked.now.programs) }
{
    let mut places = Vec::new(alloc);
    for k in 0..linked.process_count() {
        let place = linked.program(k as u16 + 1).unwrap_or(0);
        places.push(place)?;
    }
    Ok(places)
}

/// Why a start is refused: that of process `pid`, for this reason, where the processes' programs lie at these places.
pub fn refused_start(
    alloc: Global,
    conf: &Conf,
    programs: &[u16],
    pid: u16,
    fault: ModuleFault,
) -> OpenFault
    ensures { Tells result (start_refusal conf.now programs.now pid fault) }
{
    bad_module(alloc, file_name(conf, place_of(programs, pid)), fault)
}

/// The place of the program of a process, 0 where there is no such process.
fn place_of(programs: &[u16], pid: u16) -> u16
    ensures { result ≡ unwrap_or (nth programs.now pid) 0 }
{
    if pid == 0 {
        return 0;
    }
    match programs.get(pid as usize - 1) {
        Some(place) => *place,
        None => 0,
    }
}
