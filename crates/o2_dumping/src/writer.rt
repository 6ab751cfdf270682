// The writer of a core image.
ghost use Rattle.std.specs.Prelude.{◌≡◌, ℕ, ◌+◌, ◌<◌, ◌≤◌, ◌^◌, ◌++◌, List, length, flat_map, slice_get, IsTrue, Ok, Some, codes};
ghost use Rattle.o2_outer.specs.Texts.{Rose};
ghost use Rattle.o2_outer.specs.Answers.{Takes, OnFailed};
ghost use Rattle.o2_swapmap.specs.Piles.{all_of};
ghost use Rattle.o2_segbus.specs.Settled.{IsSettled};
ghost use Rattle.o2_dump.specs.CoreBytes.{core_bytes, long, process_bytes, quad};
ghost use Rattle.o2_dump.specs.declared.reader.Core.{Core};
ghost use Rattle.o2_dump.specs.CoreImage.{core_of};
ghost use Rattle.o2_dump_laws.specs.Whole.{IsWhole};
ghost use Rattle.o2_regions.specs.Maps.{held_at};
ghost use Rattle.o2_service.specs.Told.{IsHeldWell};
ghost use Rattle.o2_dumping.specs.Apart.{IsApart};
ghost use Rattle.o2_dumping.specs.Fits.{IsFitHold, IsFitRow};
ghost use Rattle.o2_dumping.specs.Puts.{HasCauses, IsRead, Writes};
ghost use Rattle.o2_dumping.specs.Told.{core_told, descriptor_at, numbers, processes_from, Row};
ghost use Rattle.o2_store.specs.Idle.{NoneTaken};

use crate::parts::{Parts, Wrote};
use crate::piece::Piece;
use crate::processes::put_processes;
use crate::segments::put_segments;
use o2_outer::{Put, Sink, SwapDevice};

// The head: sizes and counts.
fn head_piece(machine: &Parts<'_>) -> Piece
    requires { length machine.now.processes.now < 2 ^ 32 }
    ensures blocks { machine.now.blocks < 2 ^ 32 }
    ensures steps { machine.now.steps < 2 ^ 64 }
    ensures console { machine.now.console < 2 ^ 64 }
    ensures text { result ≡ codes "OS2CORE2" ++ long (length machine.now.store.now.memory) ++ long machine.now.blocks
        ++ long (length (numbers machine.now.store.now)) ++ long (length machine.now.processes.now)
        ++ quad machine.now.steps ++ quad machine.now.console }
    // Whatever the blocks hold, the segments of what is told lie apart.
    ensures apart { all_of machine.now.store.now.swap ≤ machine.now.blocks → (block : ℕ → List ℕ) (c : Core)
        → c ≡ core_told machine.now.store.now machine.now.regions.now machine.now.processes.now
        block machine.now.blocks machine.now.steps machine.now.console → IsApart c }
{
    machine.store.law();
    let mut piece = Piece::new();
    piece.push_all(b"OS2CORE2");
    piece.push_long(machine.store.memory().len() as u32);
    piece.push_long(machine.blocks);
    piece.push_long(machine.store.live());
    piece.push_long(machine.processes.len() as u32);
    piece.push_quad(machine.steps);
    piece.push_quad(machine.console);
    piece
}

// Puts what stands behind the segments: the memory, the processes and the end mark.
fn put_behind<C: Sink>(machine: &Parts<'_>, console: &mut C) -> Put
    requires processes { length machine.now.processes.now ≤ machine.now.regions.now.processes }
    requires few { length machine.now.processes.now < 65535 }
    requires base { (pid i : ℕ) → (descriptor_at machine.now.regions.now pid i).base < 2 ^ 24 }
    ensures text { Takes (C.taken console.old) (C.taken console.new)
        (machine.now.store.now.memory
        ++ (flat_map process_bytes
        (processes_from machine.now.store.now machine.now.regions.now 1 machine.now.processes.now)
        ++ codes "END!")) result }
    ensures rows { result ≡ Put.Done → (k : ℕ) (p : Row)
        → slice_get machine.now.processes.now k ≡ Some p → IsFitRow p }
    ensures fits { result ≡ Put.Done → (k i : ℕ) → k < length machine.now.processes.now → i < 8192
        → IsFitHold (held_at machine.now.regions.now (k + 1) i) }
    ensures count { C.faults console.old ≤ C.faults console.new }
    ensures cause { OnFailed result (Rose (C.faults console.old) (C.faults console.new)) }
{
    match console.put(machine.store.memory()) {
        Put::Failed => return Put::Failed,
        Put::Done => {}
    }
    match put_processes(machine.store, machine.regions, machine.processes, console) {
        Put::Failed => return Put::Failed,
        Put::Done => {}
    }
    console.put(b"END!")
}

/// Puts the core image of a machine to a console, piece by piece. It takes no memory, and reads the blocks of segments one by one.
/// At a fault of the console or of the device a front of the image was put. A whole image is read back as what was told, where all
/// that is held lives and the machine has as many blocks as the store knows.
pub fn write<C: Sink, S: SwapDevice>(machine: &Parts<'_>, console: &mut C, swap: &mut S) -> Wrote
    requires processes { length machine.now.processes.now ≤ machine.now.regions.now.processes }
    requires settled { IsSettled machine.now.store.now machine.now.regions.now }
    requires device { all_of machine.now.store.now.swap ≤ S.blocks swap.old }

    ensures text { IsTrue (S.told swap.new) → Writes (C.taken console.old) (C.taken console.new)
        (core_bytes (core_told machine.now.store.now machine.now.regions.now machine.now.processes.now
        (S.block swap.old) machine.now.blocks machine.now.steps machine.now.console)) result }
    ensures read_back { IsHeldWell machine.now.store.now machine.now.regions.now
        → all_of machine.now.store.now.swap ≤ machine.now.blocks
        → IsTrue (S.told swap.new) → result ≡ Wrote.Done → (c : Core)
        → c ≡ core_told machine.now.store.now machine.now.regions.now machine.now.processes.now
        (S.block swap.old) machine.now.blocks machine.now.steps machine.now.console
        → IsWhole c × (core_of (core_bytes c) ≡ Ok c) }
    // Whole or not, and whatever the blocks hold: the ranges of its segments share no byte, and no block is named twice.
    ensures apart { all_of machine.now.store.now.swap ≤ machine.now.blocks → (block : ℕ → List ℕ) (c : Core)
        → c ≡ core_told machine.now.store.now machine.now.regions.now machine.now.processes.now
        block machine.now.blocks machine.now.steps machine.now.console → IsApart c }
    ensures read { IsRead (S.blocks swap.old) (S.blocks swap.new)
        (S.told swap.old) (S.told swap.new) (S.block swap.old) (S.block swap.new) }
    // Where no segment has blocks the device isn't read.
    ensures idle { NoneTaken machine.now.store.now.swap → swap.new ≡ swap.old }
    ensures causes { HasCauses (C.faults console.old) (C.faults console.new)
        (S.faults swap.old) (S.faults swap.new) result }
{
    machine.store.law();
    machine.regions.law();
    let head = head_piece(machine);
    match console.put(head.as_slice()) {
        Put::Failed => return Wrote::SinkFault,
        Put::Done => {}
    }
    match put_segments(machine.store, console, swap) {
        Wrote::Done => {}
        fault => return fault,
    }
    match put_behind(machine, console) {
        Put::Done => Wrote::Done,
        Put::Failed => Wrote::SinkFault,
    }
}
