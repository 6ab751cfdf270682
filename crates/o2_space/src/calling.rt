// A call on segments by a process over a store.
ghost use Rattle.std.specs.Prelude.{◌≡◌, ◌<◌, ◌≤◌, ◌+◌, ◌-◌, ◌^◌, ℕ, Err, IfOk, List, OnOk, length, Option, Some, IsTrue, true};
ghost use Rattle.o2_outer.specs.Texts.{Rose};
ghost use Rattle.o2_isa.specs.View.{bound_registers};
ghost use Rattle.o2_regions.specs.Lives.{lives};
ghost use Rattle.o2_regions.specs.Maps.{IsProcess};
ghost use Rattle.o2_segbus.specs.Bus.{registers_of};
ghost use Rattle.o2_segbus.specs.Frames.{CanStep, KeepsClean, KeepsMaps, KeepsStore};
ghost use Rattle.o2_segbus.specs.Seen.{AreNamed, hold_in, seen};
ghost use Rattle.o2_segbus.specs.Settled.{IsSettled};
ghost use Rattle.o2_world.specs.Effect.{effect, single_stepped};
ghost use Rattle.o2_world.specs.Run.{before};
ghost use Rattle.o2_world.specs.Tied.{IsTied};
ghost use Rattle.o2_world.specs.World.{Process, Setting, World, is_live as lives_on};
ghost use Rattle.o2_gate.specs.Targets.{asked, targets};
ghost use Rattle.o2_gate.specs.Pointed.{are_ready};
ghost use Rattle.o2_gate.specs.MovedLines.{AreInside, all_lines};
ghost use Rattle.o2_gate.specs.Replies.{IsValue, bytes_of};
ghost use Rattle.o2_gate.specs.Targets.{name_of};
ghost use Rattle.o2_stands.specs.Stands.{Stands};
ghost use Rattle.o2_run.specs.Pieces.{counts, told_counts};
ghost use Rattle.o2_stepping.specs.Pieces.{RanHands, RanPart};
ghost use Rattle.o2_stepping.specs.Ran.{IsCallOf};
ghost use Rattle.o2_stepping.specs.Rooms.{all_names, room_in};
ghost use Rattle.o2_stepping.specs.Taken.{IsSwapStop, OnErr, OnNoStep, OnBegun, TakenFor};
ghost use Rattle.o2_stepping.specs.Worlds.{bytes_with};
ghost use Rattle.o2_world.specs.Changes.{moved_lines, with_all};
ghost use Rattle.o2_world.specs.Known.{known_of};
ghost use Rattle.o2_shared.specs.Shares.{AreFew};
ghost use Rattle.o2_shared.specs.Texts.{IsBehind};
ghost use Rattle.o2_calls.specs.Acts.{ruling_of};
ghost use Rattle.o2_space.specs.Acts.{Acts, AreMarkedBehind, SpellsBehind, holds_by, made_by};
ghost use Rattle.o2_space.specs.Begins.{AgreesWith, HasTurn, StandsAt};
ghost use Rattle.o2_space.specs.Calls.{Makes, MakesNames, SaysCall, no_registers};
ghost use Rattle.o2_space.specs.Frames.{AddsAtMost, KeepsSpace};
ghost use Rattle.o2_space.specs.Nexts.{SaysRoom};
ghost use Rattle.o2_space.specs.Parts.{parts_in};
ghost use Rattle.o2_space.specs.Stands.{GoTogether};
ghost use Rattle.o2_store.specs.Frames.{KeepsDevice};
ghost use Rattle.o2_store.specs.Idle.{IsIdle, NoneTaken};
ghost use Rattle.o2_run.specs.Room.{AllFits};

use crate::acting::is_live;
use crate::space::Space;
use o2_calls::{act, count, note};
use o2_gate::{Arguments, come_back, give_value};
use o2_isa::Cpu;
use o2_outer::{Sink, SwapDevice};
use o2_regions::{Answer, Regions, Roomed};
use o2_run::{Fault, Stop};
use o2_segbus::SegBus;
use o2_stands::lawful;
use o2_stepping::{Ran, call_need, reply};
use o2_store::Store;
use o2_world::State;

/// The value of a call on segments, said of store and tables.
fn give_in(bus: &mut SegBus<'_, '_>, arguments: Arguments, answer: &Answer)
    requires agrees { registers_of bus.old.regions.now bus.old.pid bus.old.registers
        ≡ bound_registers (hold_in bus.old.regions.now bus.old.pid) no_registers }
    requires ready { are_ready (seen bus.old.store.now bus.old.regions.now bus.old.pid no_registers) (targets arguments) ≡ true }
    requires value { IsValue arguments answer.now.value }
    ensures same_store { bus.new.store.ghost_name ≡ bus.old.store.ghost_name }
    ensures same_regions { bus.new.regions.ghost_name ≡ bus.old.regions.ghost_name }
    ensures bytes { (away : ℕ → List ℕ) (n : ℕ) → bytes_with away bus.new.store.now n
        ≡ bytes_of arguments answer.now.error answer.now.value (hold_in bus.old.regions.now bus.old.pid)
        (bytes_with away bus.old.store.now) n }
    ensures store { KeepsStore bus.old.store.now bus.new.store.now }
    ensures maps { KeepsMaps bus.old.regions.now bus.new.regions.now }
    ensures clean { KeepsClean bus.old.store.now bus.old.regions.now bus.new.store.now }
    ensures next { CanStep bus.new.store.now bus.new.regions.now bus.old.pid no_registers }
{
    give_value(bus, arguments, answer.error, answer.value);
}

/// Writes the value of a call on segments behind its pointer, where it has one and came to no error. No segment register is
/// looked at.
fn give(store: &mut Store, regions: &mut Regions, pid: u16, arguments: Arguments, answer: &Answer)
    requires process { IsProcess regions.old pid }
    requires named { AreNamed store.old regions.old }
    requires settled { IsSettled store.old regions.old }
    requires ready { are_ready (seen store.old regions.old pid no_registers) (targets arguments) ≡ true }
    requires value { IsValue arguments answer.now.value }
    ensures bytes { (away : ℕ → List ℕ) (n : ℕ) → bytes_with away store.new n
        ≡ bytes_of arguments answer.now.error answer.now.value (hold_in regions.old pid) (bytes_with away store.old) n }
    ensures store { KeepsStore store.old store.new }
    ensures maps { KeepsMaps regions.old regions.new }
    ensures clean { KeepsClean store.old regions.old store.new }
    ensures settled { IsSettled store.new regions.new }
{
    let nothing = Cpu {
        ax: 0,
        cx: 0,
        dx: 0,
        bx: 0,
        sp: 0,
        bp: 0,
        si: 0,
        di: 0,
        ip: 0,
        flags: 0,
        cs: 0,
        ds: 0,
        es: 0,
        ss: 0,
    };
    let mut bus = SegBus::new(store, regions, pid, &nothing);
    give_in(&mut bus, arguments, answer);
}

impl Space {
    /// A call on segments, with its value behind its pointer; its registers aren't written back, and its lines aren't put yet.
    fn make_call<S: SwapDevice>(
        &mut self,
        pid: u16,
        cpu: &mut Cpu,
        arguments: Arguments,
        next: u16,
        swap: &mut S,
    ) -> Result<Answer, Fault>
        requires together { GoTogether self.old (S.blocks swap.old) }
        requires made { self.old.store.made + 4096 < 2 ^ 64 }
        requires few { AreFew self.old.regions }
        requires can_step { CanStep self.old.store self.old.regions pid cpu.old }
        requires aimed { are_ready (seen self.old.store self.old.regions pid cpu.old) (targets arguments) ≡ true }
        ensures makes { (s : Setting) (w : World) (x : Process) → IsTrue (S.told swap.new)
            → StandsAt self.old (S.blocks swap.old) (S.block swap.old) w pid x
            → AgreesWith self.old (S.blocks swap.old) (S.block swap.old) s w
            → IsTied w → cpu.old ≡ x.cpu
            → Makes s w pid x arguments next cpu.new (parts_in self.new (S.blocks swap.new) (S.block swap.new)) result }
        ensures room { (s : Setting) (w : World) (x : Process) → IsTrue (S.told swap.new)
            → StandsAt self.old (S.blocks swap.old) (S.block swap.old) w pid x
            → HasTurn self.old (S.blocks swap.old) (S.block swap.old) s w pid
            → lives_on x.state ≡ true → cpu.old ≡ x.cpu
            → let b = before s w pid x in IsCallOf b arguments next
            → room_in self.old.store (all_names b (bound_registers (hold_in self.old.regions pid) b.cpu)) ≤ self.old.store.places.size
            → SaysCall (S.blocks swap.old) s w result }
        ensures idle { (s : Setting) (w : World) (x : Process)
            → StandsAt self.old (S.blocks swap.old) (S.block swap.old) w pid x
            → HasTurn self.old (S.blocks swap.old) (S.block swap.old) s w pid
            → lives_on x.state ≡ true → cpu.old ≡ x.cpu
            → IsCallOf (before s w pid x) arguments next → AllFits s w
            → NoneTaken self.old.store.swap → IsIdle self.new.store swap.old swap.new }
        ensures spells { (s : Setting) (w : World) (x : Process)
            → Stands (parts_in self.old (S.blocks swap.old) (S.block swap.old)) w
            → AgreesWith self.old (S.blocks swap.old) (S.block swap.old) s w
            → cpu.old ≡ x.cpu
            → MakesNames arguments.request self.new.store self.old.names self.new.names
            (with_all w (ruling_of arguments.request (known_of s w) pid x.cpu).changes) result }
        ensures behind { IsBehind self.old.store self.new.store }
        ensures stops { OnErr result (λ f. IsSwapStop f) }
        ensures value { IfOk result (λ a. IsValue arguments a.value) }
        // What came and what went has the lines of what the call changes.
        ensures moves { (s : Setting) (w : World) (x : Process) → IsTrue (S.told swap.new)
            → StandsAt self.old (S.blocks swap.old) (S.block swap.old) w pid x
            → AgreesWith self.old (S.blocks swap.old) (S.block swap.old) s w
            → IsTied w → cpu.old ≡ x.cpu
            → OnOk result (all_lines (name_of arguments) self.new.services.moves
            ≡ moved_lines (name_of arguments) (ruling_of arguments.request (known_of s w) pid x.cpu).changes) }
        ensures inside { OnOk result (AreInside self.new.services.moves) }
        ensures together { GoTogether self.new (S.blocks swap.new) }
        ensures keeps { KeepsSpace self.old self.new }
        ensures adds { AddsAtMost (made_by result) (holds_by result) self.old self.new }
        ensures procs { self.new.procs ≡ self.old.procs }
        ensures ends { self.new.ends ≡ self.old.ends }
        ensures device { KeepsDevice S.blocks S.told S.faults swap.old swap.new
            (result ≡ Err (Fault.Stopped Stop.SwapFault)) }
    {
        lawful(&self.store, &self.regions);
        let need = call_need(arguments, &self.regions, pid, cpu);
        let counted = count(arguments.request, &self.regions, pid);
        match act(
            arguments.request,
            pid,
            cpu,
            &mut self.store,
            &mut self.regions,
            &mut self.names,
            &self.ends,
            need.ids(),
            &self.images,
            swap,
        ) {
            Roomed::NoRoom => Err(Fault::Stopped(Stop::NoRoom)),
            Roomed::SwapFull => Err(Fault::Stopped(Stop::SwapFull)),
            Roomed::SwapFault => Err(Fault::Stopped(Stop::SwapFault)),
            Roomed::Done(answer) => {
                let moves = &mut self.services.moves;
                note(
                    moves,
                    arguments.request,
                    pid,
                    counted,
                    &self.regions,
                    &answer,
                );
                lawful(&self.store, &self.regions);
                give(&mut self.store, &mut self.regions, pid, arguments, &answer);
                lawful(&self.store, &self.regions);
                come_back(cpu, arguments, answer.error, next);
                Ok(answer)
            }
        }
    }

    /// A call on segments by a process that lives, with these registers and arguments, whose pointer is good: what it changes, its
    /// value, its registers and then its lines. Where the trap flag was set before it, exception 1 follows.
    ///
    /// Where what it needs doesn't come in, it isn't made: `Stop::NoRoom`, `Stop::SwapFull` or `Stop::SwapFault`. Where a sink fails in
    /// one of its lines, it is made all the same, and its lines aren't whole.
    pub(crate) fn call<R: Sink, S: SwapDevice>(
        &mut self,
        pid: u16,
        registers: Cpu,
        arguments: Arguments,
        next: u16,
        report: &mut R,
        swap: &mut S,
    ) -> Result<Ran, Fault>
        requires there { pid ≤ length self.old.procs.items }
        requires most { pid ≤ 64 }
        requires live { lives self.old.ends pid ≡ true }
        requires together { GoTogether self.old (S.blocks swap.old) }
        requires made { self.old.store.made + 4096 < 2 ^ 64 }
        requires few { AreFew self.old.regions }
        requires can_step { CanStep self.old.store self.old.regions pid registers }
        requires aimed { are_ready (seen self.old.store self.old.regions pid registers) (targets arguments) ≡ true }
        ensures acts { (s : Setting) (w : World) (x : Process) (i c : Option (List ℕ)) → IsTrue (S.told swap.new)
            → StandsAt self.old (S.blocks swap.old) (S.block swap.old) w pid x
            → HasTurn self.old (S.blocks swap.old) (S.block swap.old) s w pid
            → registers ≡ x.cpu → i ≡ Some w.input
            → let b = before s w pid x in effect b ≡ single_stepped b (asked arguments b next)
            → Acts b w x (parts_in self.new (S.blocks swap.new) (S.block swap.new))
            i i c c (R.taken report.old) (R.taken report.new) result }
        ensures next_room { (s : Setting) (w : World) (x : Process) → IsTrue (S.told swap.new)
            → StandsAt self.old (S.blocks swap.old) (S.block swap.old) w pid x
            → HasTurn self.old (S.blocks swap.old) (S.block swap.old) s w pid
            → registers ≡ x.cpu
            → let b = before s w pid x in IsCallOf b arguments next
            → room_in self.old.store (all_names b (bound_registers (hold_in self.old.regions pid) b.cpu)) ≤ self.old.store.places.size
            → SaysRoom (S.blocks swap.old) s w result }
        ensures idle { (s : Setting) (w : World) (x : Process)
            → StandsAt self.old (S.blocks swap.old) (S.block swap.old) w pid x
            → HasTurn self.old (S.blocks swap.old) (S.block swap.old) s w pid
            → registers ≡ x.cpu
            → IsCallOf (before s w pid x) arguments next → AllFits s w
            → NoneTaken self.old.store.swap → IsIdle self.new.store swap.old swap.new }
        ensures spells { (s : Setting) (w : World) (x : Process) → IsTrue (S.told swap.new)
            → StandsAt self.old (S.blocks swap.old) (S.block swap.old) w pid x
            → HasTurn self.old (S.blocks swap.old) (S.block swap.old) s w pid
            → registers ≡ x.cpu
            → let b = before s w pid x in effect b ≡ single_stepped b (asked arguments b next)
            → SpellsBehind b w x self.new.store self.new.names result }
        ensures still { OnNoStep result (report.new ≡ report.old) }
        ensures not_begun { OnBegun result ⊥ }
        ensures together { GoTogether self.new (S.blocks swap.new) }
        ensures keeps { KeepsSpace self.old self.new }
        ensures adds { AddsAtMost (made_by result) (holds_by result) self.old self.new }
        ensures marks { AreMarkedBehind self.old.ends self.new.ends pid result }
        ensures device { KeepsDevice S.blocks S.told S.faults swap.old swap.new
            (result ≡ Err (Fault.Stopped Stop.SwapFault)) }
        ensures cause { TakenFor (Rose (R.faults report.old) (R.faults report.new)) ⊥ result }
        ensures report_count { R.faults report.old ≤ R.faults report.new }
        ensures puts { (c : ℕ) → RanHands (counts c c (R.puts report.old) (R.puts report.new) 0) result }
        // Where a line failed, those in front of it were put whole.
        ensures part { (s : Setting) (w : World) (x : Process) (c : ℕ) → IsTrue (S.told swap.new)
            → StandsAt self.old (S.blocks swap.old) (S.block swap.old) w pid x
            → HasTurn self.old (S.blocks swap.old) (S.block swap.old) s w pid
            → registers ≡ x.cpu
            → let b = before s w pid x in effect b ≡ single_stepped b (asked arguments b next)
            → RanPart (effect b) (told_counts c c (R.puts report.old) (R.puts report.new) 0 (R.taken report.old) (R.taken report.new)) result }
    {
        let mut cpu = registers;
        match self.make_call(pid, &mut cpu, arguments, next, swap) {
            Err(fault) => Err(fault),
            Ok(answer) => {
                let services = &mut self.services;
                let moves = &services.moves;
                let line = &mut services.line;
                let ran = reply(pid, &registers, arguments, &answer, moves, line, report);
                self.commit(pid, &cpu, State::Live);
                if !is_live(ran.state) {
                    self.commit(pid, &cpu, ran.state);
                }
                Ok(ran)
            }
        }
    }
}
