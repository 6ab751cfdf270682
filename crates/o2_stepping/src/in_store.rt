// A step of a process over a store: it is tried until it misses nothing, once what it needs is in memory.
ghost use Rattle.std.specs.Prelude.{◌≡◌, ◌<◌, ◌≤◌, ◌⊎◌, ◌++◌, ℕ, List, Option, Err, Some, false, true, IsTrue, IsOk};
ghost use Rattle.o2_outer.specs.Texts.{Rose};
ghost use Rattle.o2_outer.specs.Inputs.{GoesOn, IsSeenAs, left_as};
ghost use Rattle.o2_isa.specs.View.{bound_registers};
ghost use Rattle.o2_isa.specs.Presence.{is_in};
ghost use Rattle.o2_swapmap.specs.Piles.{all_of};
ghost use Rattle.o2_regions.specs.Maps.{IsProcess};
ghost use Rattle.o2_place.specs.Layout.{used};
ghost use Rattle.o2_store.specs.Frames.{KeepsDevice};
ghost use Rattle.o2_store.specs.Loads.{live_load, swap_load};
ghost use Rattle.o2_segbus.specs.Frames.{CanStep};
ghost use Rattle.o2_segbus.specs.Seen.{hold_in, present_in, seen};
ghost use Rattle.o2_service.specs.Needs.{AreLive, AreWhole, OnlyNeededComes, Stays, all_needed};
ghost use Rattle.o2_stands.specs.Stands.{IsReady};
ghost use Rattle.o2_world.specs.Known.{Known};
ghost use Rattle.o2_world.specs.Effect.{effect};
ghost use Rattle.o2_gate.specs.Befores.{IsKnown};
ghost use Rattle.o2_gate.specs.Targets.{targets};
ghost use Rattle.o2_gate.specs.Pointed.{ArePresent, are_ready};
ghost use Rattle.o2_run.specs.Pieces.{counts, told_counts};
ghost use Rattle.o2_run.specs.Room.{touched};
ghost use Rattle.o2_stepping.specs.Goings.{GoForRoom, OnlyNamedCome};
ghost use Rattle.o2_stepping.specs.Pieces.{AttemptHands, AttemptPart, StepHands, StepPart};
ghost use Rattle.o2_stepping.specs.Ran.{OnAsked, OnMissed, OnUndone};
ghost use Rattle.o2_stepping.specs.Rooms.{AreNeeded, IsWanted, ages_of, all_names, needed_names, room_in, seated_in, whole_names};
ghost use Rattle.o2_stepping.specs.Seated.{HasWholeSeats, IsWholeUnder};
ghost use Rattle.o2_stepping.specs.Shapes.{SameShape};
ghost use Rattle.o2_stepping.specs.Taken.{IsSwapStop, OnAsks, OnDone, OnErr, OnNoStep, OnRan, OnBegun, OnSwapStop, SteppedFor, Takes, TriedFor, Tries};
ghost use Rattle.o2_stepping.specs.Worlds.{away_of, before_in, bytes_with, parts_of};
ghost use Rattle.o2_store.specs.Idle.{Idles};

use crate::one_step::{Attempt, Stepped};
use crate::seats::{add_missed, are_here, may_serve, seats};
use crate::trying::try_step;
use o2_cache::DecodeCache;
use o2_gate::State as Services;
use o2_image::Images;
use o2_isa::Cpu;
use o2_outer::{Sink, Source, SwapDevice};
use o2_regions::Regions;
use o2_run::{Fault, Stop};
use o2_service::{Need, Served, serve};
use o2_store::Store;

/// Serves what is known to be needed, said of what the process sees.
fn bring<S: SwapDevice>(
    need: &Need,
    pid: u16,
    cpu: &Cpu,
    store: &mut Store,
    regions: &mut Regions,
    images: &Images,
    swap: &mut S,
) -> Served
    requires process { IsProcess regions.old pid }
    requires ready { IsReady (parts_of store.old regions.old images.now (S.blocks swap.old) (S.block swap.old)) }
    requires live { AreLive store.old need.now }
    requires whole { AreWhole store.old need.now }
    requires seats { AreNeeded need.now (seated_in regions.old pid cpu.now) }
    ensures bytes { IsTrue (S.told swap.new) → (n : ℕ)
        → bytes_with (away_of store.new regions.new images.now (S.blocks swap.new) (S.block swap.new)) store.new n
        ≡ bytes_with (away_of store.old regions.old images.now (S.blocks swap.old) (S.block swap.old)) store.old n }
    ensures shape { SameShape store.old regions.old store.new regions.new }
    ensures ready { IsReady (parts_of store.new regions.new images.now (S.blocks swap.new) (S.block swap.new)) }
    ensures device { (S.blocks swap.new ≡ S.blocks swap.old) × (IsTrue (S.told swap.new) → IsTrue (S.told swap.old)) }
    ensures can_step { result ≡ Served.Here → CanStep store.new regions.new pid cpu.now }
    ensures here { result ≡ Served.Here → (n : ℕ) → is_in n (ages_of need.now) ≡ true → present_in store.new n ≡ true }
    ensures only { OnlyNeededComes need.now store.old store.new }
    ensures stays { Stays need.now store.old store.new }
    ensures leave { result ≡ Served.Here → GoForRoom store.old store.new }
    ensures room { used store.new.places.ranges ≤ store.new.places.size }
    ensures no_room { result ≡ Served.NoRoom → store.old.places.size < all_needed store.old need.now }
    ensures loads { result ≡ Served.SwapFull
        → (all_of store.old.swap < swap_load store.old) × (store.old.places.size < live_load store.old) }
    ensures cause { result ≡ Served.SwapFault → Rose (S.faults swap.old) (S.faults swap.new) }
    ensures count { S.faults swap.old ≤ S.faults swap.new }
    ensures idle { Idles (live_load store.old) store.old store.new swap.old swap.new }
{
    store.law();
    let served = serve(need, store, regions, images, swap);
    store.law();
    served
}

/// What is known to be needed comes into memory, where not all of it is there; or why not.
fn bring_in<S: SwapDevice>(
    here: bool,
    need: &Need,
    pid: u16,
    cpu: &Cpu,
    store: &mut Store,
    regions: &mut Regions,
    images: &Images,
    swap: &mut S,
) -> Result<(), Fault>
    requires process { IsProcess regions.old pid }
    requires ready { IsReady (parts_of store.old regions.old images.now (S.blocks swap.old) (S.block swap.old)) }
    requires live { AreLive store.old need.now }
    requires whole { AreWhole store.old need.now }
    requires seats { AreNeeded need.now (seated_in regions.old pid cpu.now) }
    requires can_step { here ≡ true → CanStep store.old regions.old pid cpu.now }
    requires here { here ≡ true → (n : ℕ) → is_in n (ages_of need.now) ≡ true → present_in store.old n ≡ true }
    ensures bytes { IsTrue (S.told swap.new) → (n : ℕ)
        → bytes_with (away_of store.new regions.new images.now (S.blocks swap.new) (S.block swap.new)) store.new n
        ≡ bytes_with (away_of store.old regions.old images.now (S.blocks swap.old) (S.block swap.old)) store.old n }
    ensures shape { SameShape store.old regions.old store.new regions.new }
    ensures ready { IsReady (parts_of store.new regions.new images.now (S.blocks swap.new) (S.block swap.new)) }
    ensures device { (S.blocks swap.new ≡ S.blocks swap.old) × (IsTrue (S.told swap.new) → IsTrue (S.told swap.old)) }
    ensures can_step { IsOk result → CanStep store.new regions.new pid cpu.now }
    ensures here { IsOk result → (n : ℕ) → is_in n (ages_of need.now) ≡ true → present_in store.new n ≡ true }
    ensures only { OnlyNeededComes need.now store.old store.new }
    ensures stays { Stays need.now store.old store.new }
    ensures leave { IsOk result → GoForRoom store.old store.new }
    ensures room { used store.new.places.ranges ≤ store.new.places.size }
    ensures causes { OnSwapStop result (store.old.places.size < all_needed store.old need.now)
        ((all_of store.old.swap < swap_load store.old) × (store.old.places.size < live_load store.old))
        (Rose (S.faults swap.old) (S.faults swap.new)) }
    ensures kind { OnErr result (λ f. IsSwapStop f) }
    ensures count { S.faults swap.old ≤ S.faults swap.new }
    ensures idle { Idles (live_load store.old) store.old store.new swap.old swap.new }
{
    store.law();
    if here {
        return Ok(());
    }
    match bring(need, pid, cpu, store, regions, images, swap) {
        Served::Here => Ok(()),
        Served::NoRoom => Err(Fault::Stopped(Stop::NoRoom)),
        Served::SwapFull => Err(Fault::Stopped(Stop::SwapFull)),
        Served::SwapFault => Err(Fault::Stopped(Stop::SwapFault)),
    }
}

/// One try of a step, once all that is known to be needed is in memory.
#[tactic(auto, using(o2_outer::proofs::Inputs::goes_same))]
fn serve_and_try<S: SwapDevice, I: Source, C: Sink, R: Sink>(
    here: bool,
    need: &Need,
    pid: u16,
    cpu: &mut Cpu,
    store: &mut Store,
    regions: &mut Regions,
    images: &Images,
    cache: &mut DecodeCache,
    services: &mut Services,
    input: &mut I,
    console: &mut C,
    report: &mut R,
    swap: &mut S,
) -> Result<Attempt, Fault>
    requires process { IsProcess regions.old pid }
    requires ready { IsReady (parts_of store.old regions.old images.now (S.blocks swap.old) (S.block swap.old)) }
    requires live { AreLive store.old need.now }
    requires whole { AreWhole store.old need.now }
    requires seats { AreNeeded need.now (seated_in regions.old pid cpu.old) }
    requires can_step { here ≡ true → CanStep store.old regions.old pid cpu.old }
    requires here { here ≡ true → (n : ℕ) → is_in n (ages_of need.now) ≡ true → present_in store.old n ≡ true }

    // The step of the boundless machine; where a segment is missed or cannot come in, nothing that it sees is changed.
    // However the input is seen: by what it tells, or as a text that the whole of it may be.
    ensures tries { (text : Option (List ℕ)) → IsSeenAs text (I.past input.new) → (bytes : List ℕ) (known : Known)
        → IsTrue (S.told swap.new) → left_as text (I.left input.old) (I.past input.old) ≡ Some bytes → IsKnown known services.old
        → let away = away_of store.old regions.old images.now (S.blocks swap.old) (S.block swap.old) in
        let b = before_in away store.old regions.old pid cpu.old bytes known in
        Tries b (effect b) cpu.new (bytes_with away store.old)
        (bytes_with (away_of store.new regions.new images.now (S.blocks swap.new) (S.block swap.new)) store.new)
        (left_as text (I.left input.old) (I.past input.old)) (left_as text (I.left input.new) (I.past input.new))
        (C.taken console.old) (C.taken console.new) (R.taken report.old) (R.taken report.new) result }
    ensures goes_on { GoesOn (I.past input.old) (I.past input.new) }
    ensures missed { (bytes : List ℕ) (known : Known) → IsTrue (S.told swap.new)
        → let b = before_in (away_of store.old regions.old images.now (S.blocks swap.old) (S.block swap.old)) store.old regions.old pid cpu.old bytes known in
        OnMissed result (λ s. IsWanted regions.new pid need.now (touched b) s) }
    ensures together { (bytes : List ℕ) (known : Known) → IsTrue (S.told swap.new)
        → let b = before_in (away_of store.old regions.old images.now (S.blocks swap.old) (S.block swap.old)) store.old regions.old pid cpu.old bytes known in
        OnRan result (ArePresent (seen store.new regions.new pid cpu.new) (all_names b (bound_registers (hold_in regions.new pid) cpu.new))) }
    ensures in_part { (bytes : List ℕ) (known : Known) → IsTrue (S.told swap.new)
        → let b = before_in (away_of store.old regions.old images.now (S.blocks swap.old) (S.block swap.old)) store.old regions.old pid cpu.old bytes known in
        OnBegun result (ArePresent (seen store.new regions.new pid cpu.new) (all_names b (bound_registers (hold_in regions.new pid) cpu.new))) }
    ensures still { OnUndone result ((cpu.new ≡ cpu.old)
        × (input.new ≡ input.old) × (console.new ≡ console.old) × (report.new ≡ report.old)) }
    ensures same { IsTrue (S.told swap.new) → OnUndone result ((n : ℕ)
        → bytes_with (away_of store.new regions.new images.now (S.blocks swap.new) (S.block swap.new)) store.new n
        ≡ bytes_with (away_of store.old regions.old images.now (S.blocks swap.old) (S.block swap.old)) store.old n) }
    // Nothing else comes into memory, what is needed stays there, and none leaves that could have stayed.
    ensures only { OnlyNeededComes need.now store.old store.new }
    ensures stays { Stays need.now store.old store.new }
    ensures leave { IsOk result → GoForRoom store.old store.new }
    ensures room { used store.new.places.ranges ≤ store.new.places.size }
    ensures aimed { OnAsked result (λ a. are_ready (seen store.new regions.new pid cpu.new) (targets a) ≡ true) }
    ensures stopped { OnNoStep result ((cpu.new ≡ cpu.old)
        × (input.new ≡ input.old) × (console.new ≡ console.old) × (report.new ≡ report.old)) }

    // Each segment keeps its size and its attributes, each process what it holds, and all goes on to agree.
    ensures shape { SameShape store.old regions.old store.new regions.new }
    ensures ready { IsReady (parts_of store.new regions.new images.now (S.blocks swap.new) (S.block swap.new)) }
    ensures next { OnRan result (CanStep store.new regions.new pid cpu.new) }
    ensures whole { OnMissed result (λ z. IsWholeUnder store.new regions.new pid z.0) }
    ensures avail { services.new.avail ≡ services.old.avail }
    ensures device { (S.blocks swap.new ≡ S.blocks swap.old) × (IsTrue (S.told swap.new) → IsTrue (S.told swap.old)) }

    ensures causes { OnSwapStop result (store.old.places.size < all_needed store.old need.now)
        ((all_of store.old.swap < swap_load store.old) × (store.old.places.size < live_load store.old))
        (Rose (S.faults swap.old) (S.faults swap.new)) }
    ensures idle { Idles (live_load store.old) store.old store.new swap.old swap.new }
    ensures cause { TriedFor (Rose (C.faults console.old) (C.faults console.new) ⊎ Rose (R.faults report.old) (R.faults report.new))
        (Rose (I.faults input.old) (I.faults input.new)) result }
    ensures input_count { I.faults input.old ≤ I.faults input.new }
    ensures console_count { C.faults console.old ≤ C.faults console.new }
    ensures report_count { R.faults report.old ≤ R.faults report.new }
    ensures swap_count { S.faults swap.old ≤ S.faults swap.new }

    ensures puts { AttemptHands (counts (C.puts console.old) (C.puts console.new) (R.puts report.old) (R.puts report.new) 0) result }
    ensures part { (text : Option (List ℕ)) → IsSeenAs text (I.past input.new) → (bytes : List ℕ) (known : Known)
        → IsTrue (S.told swap.new) → left_as text (I.left input.old) (I.past input.old) ≡ Some bytes → IsKnown known services.old
        → let b = before_in (away_of store.old regions.old images.now (S.blocks swap.old) (S.block swap.old)) store.old regions.old pid cpu.old bytes known in
        AttemptPart (effect b) (told_counts (C.puts console.old) (C.puts console.new) (R.puts report.old) (R.puts report.new) 0
        (R.taken report.old) (R.taken report.new)) result }
{
    match bring_in(here, need, pid, cpu, store, regions, images, swap) {
        Ok(()) => {}
        Err(fault) => return Err(fault),
    }
    try_step(
        pid, cpu, store, regions, cache, services, input, console, report,
    )
}

/// One step of process `pid`, all but what an end takes from it, over a store. Where all that its segment registers name is in
/// memory, it is tried at once. Otherwise, and where the try misses a segment, what it needs comes into memory together, as far as
/// it is known, and the step is tried; what it misses is needed too, and it is tried again. A try that misses puts nothing and
/// takes nothing. What is known to be needed stays in memory from one try to the next, and no more leaves than must.
///
/// Where what it needs doesn't come in, the step isn't taken: `Stop::NoRoom`, `Stop::SwapFull` or `Stop::SwapFault`. `Stop::NoRoom` comes
/// also where a segment register names what was discarded, which never comes in; no step leaves one so. A call on segments isn't made
/// yet: it is asked for, with all that it needs beside its own segment in memory.
pub fn step_in_store<S: SwapDevice, I: Source, C: Sink, R: Sink>(
    pid: u16,
    cpu: &mut Cpu,
    store: &mut Store,
    regions: &mut Regions,
    images: &Images,
    cache: &mut DecodeCache,
    services: &mut Services,
    input: &mut I,
    console: &mut C,
    report: &mut R,
    swap: &mut S,
) -> Result<Stepped, Fault>
    requires process { IsProcess regions.old pid }
    requires ready { IsReady (parts_of store.old regions.old images.now (S.blocks swap.old) (S.block swap.old)) }

    // The step of the boundless machine, or nothing where what it needs doesn't come in.
    ensures takes { (bytes : List ℕ) (known : Known) → IsTrue (S.told swap.new) → I.left input.old ≡ Some bytes → IsKnown known services.old
        → let away = away_of store.old regions.old images.now (S.blocks swap.old) (S.block swap.old) in
        let b = before_in away store.old regions.old pid cpu.old bytes known in
        Takes b (effect b) cpu.new (bytes_with away store.old)
        (bytes_with (away_of store.new regions.new images.now (S.blocks swap.new) (S.block swap.new)) store.new)
        (I.left input.old) (I.left input.new) (C.taken console.old) (C.taken console.new) (R.taken report.old) (R.taken report.new) result }
    // The same, however the input is seen: by what it tells, or as a text that the whole of it may be.
    ensures takes_as { (text : Option (List ℕ)) → IsSeenAs text (I.past input.new) → (bytes : List ℕ) (known : Known)
        → IsTrue (S.told swap.new) → left_as text (I.left input.old) (I.past input.old) ≡ Some bytes → IsKnown known services.old
        → let away = away_of store.old regions.old images.now (S.blocks swap.old) (S.block swap.old) in
        let b = before_in away store.old regions.old pid cpu.old bytes known in
        Takes b (effect b) cpu.new (bytes_with away store.old)
        (bytes_with (away_of store.new regions.new images.now (S.blocks swap.new) (S.block swap.new)) store.new)
        (left_as text (I.left input.old) (I.past input.old)) (left_as text (I.left input.new) (I.past input.new))
        (C.taken console.old) (C.taken console.new) (R.taken report.old) (R.taken report.new) result }
    ensures goes_on { GoesOn (I.past input.old) (I.past input.new) }
    ensures still { OnNoStep result ((cpu.new ≡ cpu.old)
        × (input.new ≡ input.old) × (console.new ≡ console.old) × (report.new ≡ report.old)) }
    // Where a call on segments is asked for, nothing is changed, taken or put, and its pointer is ready for a write.
    ensures asks { OnAsks result (λ a. (cpu.new ≡ cpu.old)
        × (input.new ≡ input.old) × (console.new ≡ console.old) × (report.new ≡ report.old)) }
    ensures aimed { OnAsks result (λ a. are_ready (seen store.new regions.new pid cpu.new) (targets a) ≡ true) }

    // All that a step needs is in memory together, so that its room is at most the memory; and more than it at NoRoom, where what was
    // discarded doesn't count and no segment register names it.
    ensures together { (bytes : List ℕ) (known : Known) → IsTrue (S.told swap.new)
        → let b = before_in (away_of store.old regions.old images.now (S.blocks swap.old) (S.block swap.old)) store.old regions.old pid cpu.old bytes known in
        OnDone result (ArePresent (seen store.new regions.new pid cpu.new) (all_names b (bound_registers (hold_in regions.new pid) cpu.new))) }
    ensures room { (bytes : List ℕ) (known : Known) → IsTrue (S.told swap.new)
        → let b = before_in (away_of store.old regions.old images.now (S.blocks swap.old) (S.block swap.old)) store.old regions.old pid cpu.old bytes known in
        OnDone result (room_in store.old (all_names b (bound_registers (hold_in regions.new pid) cpu.new)) ≤ store.old.places.size) }
    ensures room_in_part { (bytes : List ℕ) (known : Known) → IsTrue (S.told swap.new)
        → let b = before_in (away_of store.old regions.old images.now (S.blocks swap.old) (S.block swap.old)) store.old regions.old pid cpu.old bytes known in
        OnBegun result (room_in store.old (all_names b (bound_registers (hold_in regions.new pid) cpu.new)) ≤ store.old.places.size) }
    ensures no_room { HasWholeSeats store.old regions.old pid cpu.old → (bytes : List ℕ) (known : Known) → IsTrue (S.told swap.new)
        → let b = before_in (away_of store.old regions.old images.now (S.blocks swap.old) (S.block swap.old)) store.old regions.old pid cpu.old bytes known in
        OnSwapStop result (store.old.places.size < room_in store.old (whole_names store.old (needed_names b))) (Unit {0}) (Unit {0}) }
    // Over all its tries nothing comes into memory that it doesn't need, and none leaves that could have stayed.
    ensures only { (bytes : List ℕ) (known : Known) → IsTrue (S.told swap.new)
        → let b = before_in (away_of store.old regions.old images.now (S.blocks swap.old) (S.block swap.old)) store.old regions.old pid cpu.old bytes known in
        OnlyNamedCome (needed_names b) store.old store.new }
    ensures leave { IsOk result → GoForRoom store.old store.new }
    ensures loads { OnSwapStop result (Unit {0})
        ((all_of store.old.swap < swap_load store.old) × (store.old.places.size < live_load store.old)) (Unit {0}) }
    // Where nothing is in swap blocks and all that lives fits the memory, the device isn't touched.
    ensures idle { Idles (live_load store.old) store.old store.new swap.old swap.new }

    // Each segment keeps its size and its attributes, each process what it holds, and all goes on to agree.
    ensures shape { SameShape store.old regions.old store.new regions.new }
    ensures ready { IsReady (parts_of store.new regions.new images.now (S.blocks swap.new) (S.block swap.new)) }
    ensures next { OnDone result (CanStep store.new regions.new pid cpu.new) }
    ensures avail { services.new.avail ≡ services.old.avail }
    ensures device { KeepsDevice S.blocks S.told S.faults swap.old swap.new
        (result ≡ Err (Fault.Stopped Stop.SwapFault)) }

    ensures cause { SteppedFor (Rose (C.faults console.old) (C.faults console.new) ⊎ Rose (R.faults report.old) (R.faults report.new))
        (Rose (I.faults input.old) (I.faults input.new)) result }
    ensures input_count { I.faults input.old ≤ I.faults input.new }
    ensures console_count { C.faults console.old ≤ C.faults console.new }
    ensures report_count { R.faults report.old ≤ R.faults report.new }

    // Each line is one put, and so is the piece where it has bytes. Where a line failed, those in front of it were put whole.
    ensures puts { StepHands (counts (C.puts console.old) (C.puts console.new) (R.puts report.old) (R.puts report.new) 0) result }
    ensures part { (text : Option (List ℕ)) → IsSeenAs text (I.past input.new) → (bytes : List ℕ) (known : Known)
        → IsTrue (S.told swap.new) → left_as text (I.left input.old) (I.past input.old) ≡ Some bytes → IsKnown known services.old
        → let b = before_in (away_of store.old regions.old images.now (S.blocks swap.old) (S.block swap.old)) store.old regions.old pid cpu.old bytes known in
        StepPart (effect b) (told_counts (C.puts console.old) (C.puts console.new) (R.puts report.old) (R.puts report.new) 0
        (R.taken report.old) (R.taken report.new)) result }
{
    let mut need = seats(regions, pid, cpu);
    let mut here = are_here(regions, pid, cpu);
    if !may_serve(here, store, regions, pid, cpu) {
        return Err(Fault::Stopped(Stop::NoRoom));
    }
    'tries: loop {
        match serve_and_try(
            here, &need, pid, cpu, store, regions, images, cache, services, input, console, report,
            swap,
        ) {
            Err(fault) => {
                store.law();
                return Err(fault);
            }
            Ok(Attempt::Stepped(stepped)) => {
                store.law();
                return Ok(stepped);
            }
            Ok(Attempt::Missed(sel)) => {
                if !add_missed(&mut need, regions, pid, sel) {
                    return Err(Fault::Stopped(Stop::NoRoom));
                }
                here = false;
            }
        }
    }
}
