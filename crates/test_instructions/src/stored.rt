// Rows over a store, with all segments out of memory before them.
ghost use Rattle.std.specs.Prelude.{IfSome};
ghost use Rattle.test_bus_parts.specs.Trials.{IsReady};

use crate::layouts::{Layout, Part};
use crate::row::{Row, bytes_in};
use o2_base::Selector;
use o2_bus::{Cpu, Outcome};
use o2_place::SegId;
use std::alloc::Global;
use test_bus_parts::Bench;

/// How many bytes the memory has.
const MEMORY: u32 = 320;

/// Process 1 holds the segments of a row, before it, at its indexes from 1 on.
fn hold_parts(bench: &mut Bench, row: &Row, layout: &Layout) -> bool
    requires { IsReady bench.old }
    ensures { IsReady bench.new }
{
    for Part(access, which, _) in layout.parts {
        if bench
            .insert(bytes_in(&*row, &*layout, *which), *access)
            .is_none()
        {
            return false;
        }
    }
    true
}

/// Whether nothing that process 1 holds at the indexes from 1 to 8 is in memory.
fn are_out(bench: &Bench) -> bool
    requires { IsReady bench.now }
{
    for index in 1..9u16 {
        if let Some(id) = bench.named(8 * index + 7) {
            if bench.store.base(id).is_some() {
                return false;
            }
        }
    }
    true
}

/// The segments of a row, before it, all of which have left the memory for one that is as long.
fn fill(bench: &mut Bench, row: &Row, layout: &Layout) -> bool
    requires { IsReady bench.old }
    ensures { IsReady bench.new }
{
    if !hold_parts(bench, row, layout) {
        return false;
    }
    match bench.add(MEMORY) {
        Some(whole) => bench.bring(&[(whole, 0)]) && are_out(bench),
        None => false,
    }
}

/// A store whose process 1 holds the segments of a row, before it, all out of memory.
pub fn memory(alloc: Global, row: &Row, layout: &Layout) -> Option<Bench>
    ensures { IfSome result (λ b. IsReady b) }
{
    match Bench::new(alloc, MEMORY, 16, 16) {
        Ok(mut bench) => {
            if fill(&mut bench, row, layout) {
                return Some(bench);
            }
            None
        }
        Err(_) => None,
    }
}

/// The segment that a selector names, as a step needs it; where there is none, the code.
fn needed(bench: &Bench, sel: u16, code: SegId) -> (SegId, u32)
    requires { IsReady bench.now }
{
    (bench.named(sel).unwrap_or(code), 0)
}

/// One try of a step, with what the segment registers and one more selector name in memory. None where that doesn't come in.
fn try_with(bench: &mut Bench, cpu: &mut Cpu, also: u16) -> Option<Outcome>
    requires { IsReady bench.old }
    ensures { IsReady bench.new }
{
    let code = bench.named(cpu.cs)?;
    let need = [
        (code, 0),
        needed(bench, cpu.es, code),
        needed(bench, cpu.ss, code),
        needed(bench, cpu.ds, code),
        needed(bench, also, code),
    ];
    if bench.bring(&need) {
        return bench.try_step(cpu);
    }
    None
}

/// One step: what it misses at first, if it does, and what it comes to once that is in memory too. None where a miss changes a
/// register.
fn take_step(bench: &mut Bench, cpu: &mut Cpu) -> Option<(Option<Selector>, Outcome)>
    requires { IsReady bench.old }
    ensures { IsReady bench.new }
{
    let before = *cpu;
    let first = try_with(bench, cpu, before.cs)?;
    let Outcome::Miss(sel) = first else {
        return Some((None, first));
    };
    if *cpu != before {
        return None;
    }
    let then = try_with(bench, cpu, sel.0)?;
    Some((Some(sel), then))
}

/// The bytes of the segment that a selector names, which comes into memory if it isn't there.
fn bytes_of(bench: &mut Bench, sel: u16) -> Option<&[u8]>
    requires { IsReady bench.old }
{
    let id = bench.named(sel)?;
    if !bench.bring(&[(id, 0)]) {
        return None;
    }
    bench.store.window(id)
}

/// Whether the step of a row comes to what it says over this store.
fn comes_right(bench: &mut Bench, row: &Row, layout: &Layout) -> Option<bool>
    requires { IsReady bench.old }
{
    let mut scene = row.before;
    let (missed, outcome) = take_step(bench, &mut scene.cpu)?;
    scene.take_data(bytes_of(bench, layout.data)?)?;
    let is_missed = row.missed.is_none() || missed == row.missed;
    Some(is_missed && outcome == row.answer && scene.is(&row.after))
}

/// Whether the step of a row comes to what it says. What the segment registers name is in memory as it is tried, and nothing else;
/// what it misses comes in, and it is tried again.
pub fn is_right(alloc: Global, row: &Row, layout: &Layout) -> Option<bool> {
    match memory(alloc, row, layout) {
        Some(mut bench) => comes_right(&mut bench, row, layout),
        None => None,
    }
}
