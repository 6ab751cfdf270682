// One step of a process over a store.
ghost use Rattle.std.specs.Prelude.{◌≡◌, ◌<◌, ◌≤◌, ◌+◌, ◌-◌, ◌^◌, ◌==◌, ◌⊎◌, ℕ, List, length, Option, Err, Some, true, false, if◌then◌else◌, IsTrue};
ghost use Rattle.o2_outer.specs.Texts.{Rose};
ghost use Rattle.o2_outer.specs.Inputs.{GoesOn, IsSeenAs, left_as};
ghost use Rattle.o2_isa.specs.View.{bound_registers};
ghost use Rattle.o2_regions.specs.Lives.{lives};
ghost use Rattle.o2_regions.specs.Maps.{IsProcess};
ghost use Rattle.o2_segbus.specs.Frames.{CanStep};
ghost use Rattle.o2_segbus.specs.Seen.{hold_in, seen};
ghost use Rattle.o2_segbus.specs.Settled.{IsSettled};
ghost use Rattle.o2_service.specs.Told.{IsHeldWell};
ghost use Rattle.o2_store.specs.Loads.{live_load, swap_load};
ghost use Rattle.o2_swapmap.specs.Piles.{all_of};
ghost use Rattle.o2_world.specs.Effect.{effect};
ghost use Rattle.o2_world.specs.Holders.{process_at};
ghost use Rattle.o2_world.specs.Run.{before, next_dispatch, words_coming};
ghost use Rattle.o2_world.specs.Tied.{IsSound};
ghost use Rattle.o2_world.specs.Map.{Map};
ghost use Rattle.o2_world.specs.World.{Process, Reserve, Segment, Setting, World, is_live as lives_on};
ghost use Rattle.o2_gate.specs.Targets.{targets};
ghost use Rattle.o2_gate.specs.Pointed.{are_ready};
ghost use Rattle.o2_stands.specs.Moves.{with_running};
ghost use Rattle.o2_stands.specs.Parts.{Running as RunningThere};
ghost use Rattle.o2_stands.specs.Stands.{IsSetTo, Stands, StandsIn};
ghost use Rattle.o2_run.specs.Pieces.{counts, told_counts};
ghost use Rattle.o2_stepping.specs.Pieces.{RanHands, RanPart, StepHands, StepPart};
ghost use Rattle.o2_stepping.specs.Shapes.{SameShape};
ghost use Rattle.o2_stepping.specs.Rooms.{all_names, needed_names, room_in, whole_names};
ghost use Rattle.o2_stepping.specs.Taken.{OnAsks, OnDone, OnNoStep, OnBegun, OnStep, OnSwapStop, SteppedFor, TakenFor};
ghost use Rattle.o2_shared.specs.Shares.{AreFew};
ghost use Rattle.o2_shared.specs.Texts.{IsBehind};
ghost use Rattle.o2_space.specs.Acts.{Acts, AreMarkedBehind, SpellsBehind, holds_by, made_by};
ghost use Rattle.o2_space.specs.Begins.{Begins, HasTurn, StandsAt};
ghost use Rattle.o2_space.specs.Between.{Steps};
ghost use Rattle.o2_space.specs.Frames.{AddsAtMost, AddsNone, KeepsSpace};
ghost use Rattle.o2_space.specs.Nexts.{SaysRoom, SaysStep};
ghost use Rattle.o2_space.specs.Parts.{parts_in};
ghost use Rattle.o2_space.specs.Stands.{GoTogether, StandsCommitted};
ghost use Rattle.o2_store.specs.Frames.{KeepsDevice};
ghost use Rattle.o2_store.specs.Idle.{IsIdle, NoneTaken};
ghost use Rattle.o2_run.specs.Room.{AllFits};

use crate::space::{Proc, Space};
use o2_ends::end;
use o2_isa::Cpu;
use o2_outer::{Sink, Source, SwapDevice};
use o2_run::{Fault, Stop};
use o2_stands::lawful;
use o2_stepping::{Ran, Stepped, step_in_store};
use o2_world::State;

/// Whether a process goes on.
pub fn is_live(state: State) -> bool
    ensures { result ≡ lives_on state }
{
    matches!(state, State::Live)
}

impl Space {
    /// Registers and state of a process behind its step; where it has ended it lets go of all that it holds.
    pub(crate) fn commit(&mut self, pid: u16, cpu: &Cpu, state: State)
        requires there { pid ≤ length self.old.procs.items }
        requires process { IsProcess self.old.regions pid }
        requires most { pid ≤ 64 }
        requires held { IsHeldWell self.old.store self.old.regions }
        requires settled { IsSettled self.old.store self.old.regions }
        ensures stands { (device : ℕ) (block : ℕ → List ℕ) (ps : List Process) (names : Map Segment) (next : ℕ)
            (reserved : List Reserve) (x : Process) (r : RunningThere)
            → StandsIn (parts_in self.old device block) ps names next reserved
            → process_at ps pid ≡ Some x → lives_on x.state ≡ true
            → cpu.now ≡ r.cpu → r.state ≡ state
            → StandsCommitted ps names next reserved pid x r (parts_in self.new device block) }
        ensures put { lives_on state ≡ true → (device : ℕ) (block : ℕ → List ℕ)
            → parts_in self.new device block
            ≡ with_running (parts_in self.old device block) pid (record { cpu = cpu.now; state = state }) }
        ensures together { (device : ℕ) → lives self.old.ends pid ≡ true
            → GoTogether self.old device → GoTogether self.new device }
        ensures keeps { KeepsSpace self.old self.new }
        ensures adds { AddsNone self.old self.new }
        ensures marks { (n : ℕ) → lives self.new.ends n
            ≡ (if lives_on state then lives self.old.ends n else (if n == pid then false else lives self.old.ends n)) }
        ensures names { self.new.names ≡ self.old.names }
        ensures behind { IsBehind self.old.store self.new.store }
        ensures unused { NoneTaken self.old.store.swap → NoneTaken self.new.store.swap }
    {
        self.procs[pid as usize - 1] = Proc { cpu: *cpu, state };
        if !is_live(state) {
            end(pid, &mut self.store, &mut self.regions, &mut self.ends);
        }
    }

    /// A step of a process with these registers, which aren't written back; what an end takes isn't taken yet, and a call on
    /// segments isn't made yet.
    fn step<I: Source, C: Sink, R: Sink, S: SwapDevice>(
        &mut self,
        pid: u16,
        cpu: &mut Cpu,
        input: &mut I,
        console: &mut C,
        report: &mut R,
        swap: &mut S,
    ) -> Result<Stepped, Fault>
        requires process { IsProcess self.old.regions pid }
        requires together { GoTogether self.old (S.blocks swap.old) }
        ensures steps { (text : Option (List ℕ)) → IsSeenAs text (I.past input.new)
            → (s : Setting) (w : World) (x : Process) → IsTrue (S.told swap.new)
            → Begins self.old (S.blocks swap.old) (S.block swap.old) s w pid x
            (left_as text (I.left input.old) (I.past input.old)) → cpu.old ≡ x.cpu
            → Steps (before s w pid x) w cpu.new
            (parts_in self.new (S.blocks swap.new) (S.block swap.new))
            (left_as text (I.left input.old) (I.past input.old))
            (left_as text (I.left input.new) (I.past input.new)) (C.taken console.old) (C.taken console.new)
            (R.taken report.old) (R.taken report.new) result }
        ensures still { OnNoStep result
            ((input.new ≡ input.old) × (console.new ≡ console.old) × (report.new ≡ report.old)) }
        ensures asks { OnAsks result (λ a. (cpu.new ≡ cpu.old)
            × (input.new ≡ input.old) × (console.new ≡ console.old) × (report.new ≡ report.old)) }
        ensures aimed { OnAsks result (λ a.
            are_ready (seen self.new.store self.new.regions pid cpu.new) (targets a) ≡ true) }
        ensures next { OnDone result (CanStep self.new.store self.new.regions pid cpu.new) }
        ensures goes_on { GoesOn (I.past input.old) (I.past input.new) }
        ensures room { (text : Option (List ℕ)) → IsSeenAs text (I.past input.new)
            → (s : Setting) (w : World) (x : Process) → IsTrue (S.told swap.new)
            → Begins self.old (S.blocks swap.old) (S.block swap.old) s w pid x
            (left_as text (I.left input.old) (I.past input.old)) → cpu.old ≡ x.cpu
            → let b = before s w pid x in
            OnStep result (λ c. room_in self.old.store
            (all_names b (bound_registers (hold_in self.old.regions pid) c))
            ≤ self.old.store.places.size) (effect b).cpu b.cpu }
        ensures room_in_part { (text : Option (List ℕ)) → IsSeenAs text (I.past input.new)
            → (s : Setting) (w : World) (x : Process) → IsTrue (S.told swap.new)
            → Begins self.old (S.blocks swap.old) (S.block swap.old) s w pid x
            (left_as text (I.left input.old) (I.past input.old)) → cpu.old ≡ x.cpu
            → let b = before s w pid x in
            OnBegun result (room_in self.old.store
            (all_names b (bound_registers (hold_in self.old.regions pid) b.cpu))
            ≤ self.old.store.places.size) }
        ensures no_room { (s : Setting) (w : World) (x : Process) → IsTrue (S.told swap.new)
            → StandsAt self.old (S.blocks swap.old) (S.block swap.old) w pid x → cpu.old ≡ x.cpu
            → lives_on x.state ≡ true → IsSound w
            → OnSwapStop result (self.old.store.places.size
            < room_in self.old.store (whole_names self.old.store (needed_names (before s w pid x)))) (Unit {0}) (Unit {0}) }
        ensures loads { OnSwapStop result (Unit {0})
            ((all_of self.old.store.swap < swap_load self.old.store)
            × (self.old.store.places.size < live_load self.old.store)) (Unit {0}) }
        ensures idle { (s : Setting) (w : World)
            → Stands (parts_in self.old (S.blocks swap.old) (S.block swap.old)) w
            → IsSetTo (parts_in self.old (S.blocks swap.old) (S.block swap.old)) s → words_coming w ≡ 0 → AllFits s w
            → NoneTaken self.old.store.swap → IsIdle self.new.store swap.old swap.new }
        ensures next_room { (text : Option (List ℕ)) → IsSeenAs text (I.past input.new)
            → (s : Setting) (w : World) (x : Process) → IsTrue (S.told swap.new)
            → Begins self.old (S.blocks swap.old) (S.block swap.old) s w pid x
            (left_as text (I.left input.old) (I.past input.old)) → cpu.old ≡ x.cpu
            → IsSetTo (parts_in self.old (S.blocks swap.old) (S.block swap.old)) s
            → lives_on x.state ≡ true → IsSound w → words_coming w ≡ 0
            → (next_dispatch s w).current ≡ pid → SaysStep (S.blocks swap.old) s w result }
        ensures together { GoTogether self.new (S.blocks swap.new) }
        ensures keeps { KeepsSpace self.old self.new }
        ensures shape { SameShape self.old.store self.old.regions self.new.store self.new.regions }
        ensures procs { self.new.procs ≡ self.old.procs }
        ensures ends { self.new.ends ≡ self.old.ends }
        ensures names { self.new.names ≡ self.old.names }
        ensures most { self.new.regions.processes ≤ 64 }
        ensures device { KeepsDevice S.blocks S.told S.faults swap.old swap.new
            (result ≡ Err (Fault.Stopped Stop.SwapFault)) }
        ensures cause { SteppedFor
            (Rose (C.faults console.old) (C.faults console.new)
            ⊎ Rose (R.faults report.old) (R.faults report.new))
            (Rose (I.faults input.old) (I.faults input.new)) result }
        ensures input_count { I.faults input.old ≤ I.faults input.new }
        ensures console_count { C.faults console.old ≤ C.faults console.new }
        ensures report_count { R.faults report.old ≤ R.faults report.new }
        ensures puts { StepHands (counts (C.puts console.old) (C.puts console.new)
            (R.puts report.old) (R.puts report.new) 0) result }
        ensures part { (text : Option (List ℕ)) → IsSeenAs text (I.past input.new)
            → (s : Setting) (w : World) (x : Process) → IsTrue (S.told swap.new)
            → Begins self.old (S.blocks swap.old) (S.block swap.old) s w pid x
            (left_as text (I.left input.old) (I.past input.old)) → cpu.old ≡ x.cpu
            → StepPart (effect (before s w pid x))
            (told_counts (C.puts console.old) (C.puts console.new)
            (R.puts report.old) (R.puts report.new) 0 (R.taken report.old) (R.taken report.new)) result }
    {
        lawful(&self.store, &self.regions);
        let result = step_in_store(
            pid,
            cpu,
            &mut self.store,
            &mut self.regions,
            &self.images,
            &mut self.cache,
            &mut self.services,
            input,
            console,
            report,
            swap,
        );
        lawful(&self.store, &self.regions);
        result
    }

    /// One step of a process that lives: what it needs comes into memory together, and it is the step of the boundless machine;
    /// where it ends the process, all that this holds goes.
    ///
    /// Where what it needs doesn't come in, the step isn't taken: `Stop::NoRoom`, `Stop::SwapFull` or `Stop::SwapFault`. Nor is
    /// it where the input fails, `Stop::Input`, or a sink, `Fault::Sink`. Where the report fails in the line of exception 1
    /// that follows a step, or in a line of a call on segments, the step is done all the same, and its lines aren't whole.
    pub fn act<I: Source, C: Sink, R: Sink, S: SwapDevice>(
        &mut self,
        pid: u16,
        input: &mut I,
        console: &mut C,
        report: &mut R,
        swap: &mut S,
    ) -> Result<Ran, Fault>
        requires some { 1 ≤ pid }
        requires there { pid ≤ length self.old.procs.items }
        requires live { lives self.old.ends pid ≡ true }
        requires together { GoTogether self.old (S.blocks swap.old) }
        requires made { self.old.store.made + 4096 < 2 ^ 64 }
        requires few { AreFew self.old.regions }

        // From a machine that stands for a world, and keeps the names of its texts, the step of the boundless machine; or it stands for
        // the same world. However the input is seen: by what it tells, or as a text that the whole of it may be.
        ensures acts { (text : Option (List ℕ)) → IsSeenAs text (I.past input.new)
            → (s : Setting) (w : World) (x : Process) → IsTrue (S.told swap.new)
            → Begins self.old (S.blocks swap.old) (S.block swap.old) s w pid x
            (left_as text (I.left input.old) (I.past input.old))
            → HasTurn self.old (S.blocks swap.old) (S.block swap.old) s w pid
            → Acts (before s w pid x) w x (parts_in self.new (S.blocks swap.new) (S.block swap.new))
            (left_as text (I.left input.old) (I.past input.old))
            (left_as text (I.left input.new) (I.past input.new)) (C.taken console.old) (C.taken console.new)
            (R.taken report.old) (R.taken report.new) result }
        ensures spells { (text : Option (List ℕ)) → IsSeenAs text (I.past input.new)
            → (s : Setting) (w : World) (x : Process) → IsTrue (S.told swap.new)
            → Begins self.old (S.blocks swap.old) (S.block swap.old) s w pid x
            (left_as text (I.left input.old) (I.past input.old))
            → HasTurn self.old (S.blocks swap.old) (S.block swap.old) s w pid
            → SpellsBehind (before s w pid x) w x self.new.store self.new.names result }
        ensures still { OnNoStep result
            ((input.new ≡ input.old) × (console.new ≡ console.old) × (report.new ≡ report.old)) }
        ensures goes_on { GoesOn (I.past input.old) (I.past input.new) }

        // The room of the world's next step, where it is one of this process, is at most the memory where it is taken, and also where a
        // sink or the input fails in it; it is more than the memory at NoRoom. At SwapFull what swapping has to hold exceeds blocks and memory.
        ensures next_room { (text : Option (List ℕ)) → IsSeenAs text (I.past input.new)
            → (s : Setting) (w : World) (x : Process) → IsTrue (S.told swap.new)
            → Begins self.old (S.blocks swap.old) (S.block swap.old) s w pid x
            (left_as text (I.left input.old) (I.past input.old))
            → HasTurn self.old (S.blocks swap.old) (S.block swap.old) s w pid
            → SaysRoom (S.blocks swap.old) s w result }
        // Where nothing is in swap blocks and all that lives in the world's next step fits the memory, the device isn't touched.
        ensures idle { (text : Option (List ℕ)) → IsSeenAs text (I.past input.new)
            → (s : Setting) (w : World) (x : Process) → IsTrue (S.told swap.old)
            → Begins self.old (S.blocks swap.old) (S.block swap.old) s w pid x
            (left_as text (I.left input.old) (I.past input.old))
            → HasTurn self.old (S.blocks swap.old) (S.block swap.old) s w pid → AllFits s w
            → NoneTaken self.old.store.swap → IsIdle self.new.store swap.old swap.new }

        // The parts go on to go together, whatever the device gives, and what a setting fixes stays. Who is marked live stays so, but
        // for the process, where its step ended it. The swap device failed at SwapFault.
        ensures together { GoTogether self.new (S.blocks swap.new) }
        ensures keeps { KeepsSpace self.old self.new }
        ensures adds { AddsAtMost (made_by result) (holds_by result) self.old self.new }
        ensures marks { AreMarkedBehind self.old.ends self.new.ends pid result }
        ensures device { KeepsDevice S.blocks S.told S.faults swap.old swap.new
            (result ≡ Err (Fault.Stopped Stop.SwapFault)) }

        ensures cause { TakenFor
            (Rose (C.faults console.old) (C.faults console.new)
            ⊎ Rose (R.faults report.old) (R.faults report.new))
            (Rose (I.faults input.old) (I.faults input.new)) result }
        ensures input_count { I.faults input.old ≤ I.faults input.new }
        ensures console_count { C.faults console.old ≤ C.faults console.new }
        ensures report_count { R.faults report.old ≤ R.faults report.new }

        // Each line is one put, and so is the piece where it has bytes. Where a line failed, those in front of it were put whole.
        ensures puts { RanHands (counts (C.puts console.old) (C.puts console.new)
            (R.puts report.old) (R.puts report.new) 0) result }
        ensures part { (text : Option (List ℕ)) → IsSeenAs text (I.past input.new)
            → (s : Setting) (w : World) (x : Process) → IsTrue (S.told swap.new)
            → Begins self.old (S.blocks swap.old) (S.block swap.old) s w pid x
            (left_as text (I.left input.old) (I.past input.old))
            → HasTurn self.old (S.blocks swap.old) (S.block swap.old) s w pid
            → RanPart (effect (before s w pid x))
            (told_counts (C.puts console.old) (C.puts console.new)
            (R.puts report.old) (R.puts report.new) 0 (R.taken report.old) (R.taken report.new)) result }
    {
        let mut cpu = self.procs[pid as usize - 1].cpu;
        match self.step(pid, &mut cpu, input, console, report, swap) {
            Err(fault) => Err(fault),
            Ok(Stepped::Ran(ran)) => {
                self.commit(pid, &cpu, ran.state);
                Ok(ran)
            }
            Ok(Stepped::Asked { arguments, next }) => {
                self.call(pid, cpu, arguments, next, report, swap)
            }
        }
    }
}
