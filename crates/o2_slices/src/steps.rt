// Steps of a process over a store that are done at once, one behind another.
ghost use Rattle.std.specs.Prelude.{◌≡◌, ◌≤◌, ℕ, List, Option, Some, true, false};
ghost use Rattle.o2_isa.specs.View.{Agrees, Filling, IsBound, KeepsFrame, bound_registers, whole};
ghost use Rattle.o2_isa.specs.Writes.{WritesData};
ghost use Rattle.o2_regions.specs.Maps.{IsProcess};
ghost use Rattle.o2_segbus.specs.Bus.{registers_of};
ghost use Rattle.o2_segbus.specs.Frames.{CanStep};
ghost use Rattle.o2_segbus.specs.Opening.{opened_registers};
ghost use Rattle.o2_segbus.specs.Seen.{AreNamed, hold_in};
ghost use Rattle.o2_segbus.specs.Settled.{IsSettled};
ghost use Rattle.o2_world.specs.Known.{Known};
ghost use Rattle.o2_world.specs.CallParts.{waiting};
ghost use Rattle.o2_world.specs.Calls.{row_of, serviced};
ghost use Rattle.o2_world.specs.Effect.{effect, has_trap_flag as trap_flag_of};
ghost use Rattle.o2_gate.specs.Befores.{before_call, boundless};
ghost use Rattle.o2_gate.specs.Pointed.{ArePresent};
ghost use Rattle.o2_run.specs.Room.{call_names, touched};
ghost use Rattle.o2_stepping.specs.Here.{are_here as all_here};
ghost use Rattle.o2_stepping.specs.Ran.{IsDone};
ghost use Rattle.o2_slices.specs.Slices.{AreSliced, IsStep, IsTry, is_step, is_still, quiet, seat};

use o2_bus::Ranges;
use o2_cache::{DecodeCache, step_cached};
use o2_gate::waits;
use o2_isa::{Cpu, Outcome};
use o2_regions::Regions;
use o2_segbus::{SegBus, SegmentRegisters, are_shown, registers_for};
use o2_stands::lawful;
use o2_stepping::{are_here, has_trap_flag};
use o2_store::Store;

/// What a try of one step at once came to.
#[derive(Clone, Copy, Debug, PartialEq, Eq)]
pub enum AtOnce {
    /// It is done.
    Done,
    /// It is done, and is a call that waits: all is as before, so the process's next step is the same one.
    Waits,
    /// It isn't done, and all is as before.
    Undone,
}

/// A call of a service, as a step at once: it is one where it waits.
fn call_at_once<B: Ranges>(service: u16, pid: u16, cpu: &Cpu, bus: &mut B) -> AtOnce
    ensures effect { is_step result ≡ true → (f : Filling) (bytes : List ℕ) (known : Known) (next : ℕ) → IsBound (B.view bus.old)
        → let b = before_call (boundless f (B.view bus.old)) pid cpu.now bytes known in
        serviced b service next ≡ waiting b }
    ensures present { is_step result ≡ true → (f : Filling) (bytes : List ℕ) (known : Known) → IsBound (B.view bus.old)
        → ArePresent (B.view bus.old)
        (call_names (before_call (boundless f (B.view bus.old)) pid cpu.now bytes known) (row_of service)) }
    ensures same { B.view bus.new ≡ B.view bus.old }
{
    if waits(service, pid, cpu, bus) {
        AtOnce::Waits
    } else {
        AtOnce::Undone
    }
}

/// One step of process `pid`, where it is done at once. It isn't where it misses a segment, raises an exception, or calls a service and
/// doesn't wait: registers and bytes are then as before.
#[inline(always)]
fn done_at_once<B: Ranges>(pid: u16, cpu: &mut Cpu, bus: &mut B, cache: &mut DecodeCache) -> AtOnce
    requires clear { trap_flag_of cpu.old.flags ≡ false }
    ensures done { is_step result ≡ true → (f : Filling) (bytes : List ℕ) (known : Known)
        (console report : Option (List ℕ)) → IsBound (B.view bus.old)
        → IsDone (effect (before_call (boundless f (B.view bus.old)) pid cpu.old bytes known)) quiet
        cpu.new (whole f (B.view bus.new)).bytes (Some bytes) console console report report }
    ensures present { is_step result ≡ true → (f : Filling) (bytes : List ℕ) (known : Known) → IsBound (B.view bus.old)
        → ArePresent (B.view bus.old) (touched (before_call (boundless f (B.view bus.old)) pid cpu.old bytes known)) }
    ensures still { is_still result ≡ true → (cpu.new ≡ cpu.old) × (B.view bus.new ≡ B.view bus.old) }
    ensures frame { KeepsFrame (B.view bus.old) (B.view bus.new) }
    ensures writes { WritesData (B.view bus.old) (B.view bus.new) }
    ensures agrees { Agrees cpu.old (B.view bus.old) → Agrees cpu.new (B.view bus.new) }
{
    match step_cached(cpu, bus, cache) {
        Outcome::Done => AtOnce::Done,
        Outcome::Gate { service, .. } => call_at_once(service, pid, cpu, bus),
        _ => AtOnce::Undone,
    }
}

/// The same over the bus of a store, said of store and tables.
#[inline(always)]
fn step_in(pid: u16, cpu: &mut Cpu, bus: &mut SegBus<'_, '_>, cache: &mut DecodeCache) -> AtOnce
    requires clear { trap_flag_of cpu.old.flags ≡ false }
    requires process { IsProcess bus.old.regions.now pid }
    requires holds { hold_in bus.old.regions.now bus.old.pid ≡ hold_in bus.old.regions.now pid }
    requires agrees { registers_of bus.old.regions.now bus.old.pid bus.old.registers
        ≡ bound_registers (hold_in bus.old.regions.now bus.old.pid) cpu.old }
    ensures step { is_step result ≡ true → IsStep pid (seat bus.old.store.now bus.old.regions.now cpu.old)
        (seat bus.new.store.now bus.new.regions.now cpu.new) }
    ensures still { is_still result ≡ true → IsTry pid (seat bus.old.store.now bus.old.regions.now cpu.old)
        (seat bus.new.store.now bus.new.regions.now cpu.new) }
    // Where it waits, the next step is the same one.
    ensures again { result ≡ AtOnce.Waits → let s = seat bus.new.store.now bus.new.regions.now cpu.new in IsStep pid s s }
    ensures same_store { bus.new.store.ghost_name ≡ bus.old.store.ghost_name }
    ensures same_regions { bus.new.regions.ghost_name ≡ bus.old.regions.ghost_name }
    ensures process { IsProcess bus.new.regions.now pid }
    ensures holds { hold_in bus.new.regions.now bus.new.pid ≡ hold_in bus.new.regions.now pid }
    ensures agrees { registers_of bus.new.regions.now bus.new.pid bus.new.registers
        ≡ bound_registers (hold_in bus.new.regions.now bus.new.pid) cpu.new }
{
    let done = done_at_once(pid, cpu, bus, cache);
    bus.store.law();
    lawful(bus.store, bus.regions);
    done
}

/// So many steps over the bus at most; how many are done. Where one waits, so do all that are left.
fn steps_in(
    pid: u16,
    cpu: &mut Cpu,
    bus: &mut SegBus<'_, '_>,
    cache: &mut DecodeCache,
    most: u32,
) -> u32
    requires process { IsProcess bus.old.regions.now pid }
    requires holds { hold_in bus.old.regions.now bus.old.pid ≡ hold_in bus.old.regions.now pid }
    requires agrees { registers_of bus.old.regions.now bus.old.pid bus.old.registers
        ≡ bound_registers (hold_in bus.old.regions.now bus.old.pid) cpu.old }
    ensures sliced { AreSliced pid result (seat bus.old.store.now bus.old.regions.now cpu.old)
        (seat bus.new.store.now bus.new.regions.now cpu.new) }
    ensures within { result ≤ most }
    ensures same_store { bus.new.store.ghost_name ≡ bus.old.store.ghost_name }
    ensures same_regions { bus.new.regions.ghost_name ≡ bus.old.regions.ghost_name }
{
    let mut done = 0u32;
    'steps: while done < most && !has_trap_flag(cpu.flags) {
        match step_in(pid, cpu, bus, cache) {
            AtOnce::Done => done += 1,
            AtOnce::Waits => return most,
            AtOnce::Undone => return done,
        }
    }
    done
}

/// Such steps over store and tables, where what the segment registers name is in memory. Their descriptors were looked up once for
/// all these steps.
fn slice_here(
    pid: u16,
    cpu: &mut Cpu,
    registers: SegmentRegisters,
    store: &mut Store,
    regions: &mut Regions,
    cache: &mut DecodeCache,
    most: u32,
) -> u32
    requires ready { CanStep store.old regions.old pid cpu.old }
    requires registers { registers ≡ opened_registers regions.old pid cpu.old }
    ensures sliced { AreSliced pid result (seat store.old regions.old cpu.old) (seat store.new regions.new cpu.new) }
    ensures within { result ≤ most }
{
    let mut bus = SegBus::over_registers(store, regions, pid, registers);
    steps_in(pid, cpu, &mut bus, cache, most)
}

/// Whether what the segment registers name is in memory: by what was looked up for them, or by the tables, where one of them names
/// nothing.
#[inline(always)]
fn are_seated(registers: &SegmentRegisters, regions: &Regions, pid: u16, cpu: &Cpu) -> bool
    requires process { IsProcess regions.now pid }
    requires registers { registers.now ≡ opened_registers regions.now pid cpu.now }
    ensures { result ≡ true → all_here regions.now pid cpu.now ≡ true }
{
    if are_shown(registers) {
        true
    } else {
        are_here(regions, pid, cpu)
    }
}

/// So many steps of process `pid` at most, over what is in memory, one behind another; how many are done. They end before a step
/// that isn't done at once, as it misses a segment, raises an exception, or calls a service and doesn't wait, and where the trap flag
/// is set. A call that waits is looked at once, and takes all steps that are left. There are none where a segment register names what
/// is out of memory. What the cache knows isn't decoded anew.
pub fn slice_in_store(
    pid: u16,
    cpu: &mut Cpu,
    store: &mut Store,
    regions: &mut Regions,
    cache: &mut DecodeCache,
    most: u32,
) -> u32
    requires process { IsProcess regions.old pid }
    requires named { AreNamed store.old regions.old }
    requires settled { IsSettled store.old regions.old }
    ensures sliced { AreSliced pid result (seat store.old regions.old cpu.old) (seat store.new regions.new cpu.new) }
    ensures within { result ≤ most }
{
    let registers = registers_for(regions, pid, cpu);
    if !are_seated(&registers, regions, pid, cpu) {
        return 0;
    }
    slice_here(pid, cpu, registers, store, regions, cache, most)
}
