// One step over any bus, by instructions that were decoded before.
ghost use Rattle.std.specs.Prelude.{◌≡◌, ℕ, true, false};
ghost use Rattle.o2_isa.specs.Reading.{decoded};
ghost use Rattle.o2_isa.specs.View.{Filling, IsBound, KeepsFrame, Agrees, fetched};
ghost use Rattle.o2_isa.specs.Steps.{state};
ghost use Rattle.o2_isa.specs.Presence.{whole_state, is_in};
ghost use Rattle.o2_isa.specs.Sizes.{KeepsLengths};
ghost use Rattle.o2_isa.specs.Writes.{WritesData};
ghost use Rattle.o2_isa.specs.Step.{Answers, AsBoundless, stepped, step_names, is_miss};

use crate::DecodeCache;
use o2_bus::{Bus, Cpu, Outcome, TenBytes};
use o2_core::step_decoded;
use o2_isa::Decoded;

/// What the bytes at CS:IP spell, where there may be fewer than ten.
#[cold]
#[inline(never)]
fn spelled_at_end<'c, B: Bus>(cpu: &Cpu, bus: &B, cache: &'c mut DecodeCache) -> &'c Decoded
    ensures { result.now ≡ decoded (fetched (B.view bus.now) cpu.now.ip) }
{
    let mut bytes = [0, 0, 0, 0, 0, 0, 0, 0, 0, 0];
    let count = bus.fetch(cpu.ip, &mut bytes);
    cache.fewer(cpu.cs, cpu.ip, TenBytes::of(&bytes), count as u8)
}

/// What the bytes at CS:IP spell.
#[inline(always)]
fn spelled<'c, B: Bus>(cpu: &Cpu, bus: &B, cache: &'c mut DecodeCache) -> &'c Decoded
    ensures { result.now ≡ decoded (fetched (B.view bus.now) cpu.now.ip) }
{
    match bus.ten(cpu.ip) {
        Some(bytes) => cache.ten(cpu.cs, cpu.ip, bytes),
        None => spelled_at_end(cpu, bus, cache),
    }
}

#[inline(always)]
fn one_step<B: Bus>(cpu: &mut Cpu, bus: &mut B, cache: &mut DecodeCache) -> Outcome
    ensures { Answers result (state cpu.new (B.view bus.new)) (state cpu.old (B.view bus.old)) (stepped (state cpu.old (B.view bus.old))) }
{
    let spelled = spelled(cpu, bus, cache);
    step_decoded(cpu, bus, spelled)
}

/// One instruction, or one repetition of a string instruction, as `step_one` of `o2_core` makes it. The bytes at CS:IP are decoded
/// only where the cache doesn't know them.
#[inline(always)]
pub fn step_cached<B: Bus>(cpu: &mut Cpu, bus: &mut B, cache: &mut DecodeCache) -> Outcome
    ensures step { Answers result (state cpu.new (B.view bus.new)) (state cpu.old (B.view bus.old)) (stepped (state cpu.old (B.view bus.old))) }
    ensures boundless { (f : Filling) → IsBound (B.view bus.old) → AsBoundless f result (state cpu.new (B.view bus.new)) (state cpu.old (B.view bus.old)) }
    ensures frame { KeepsFrame (B.view bus.old) (B.view bus.new) }
    ensures lengths { KeepsLengths (B.view bus.old).bytes (B.view bus.new).bytes }
    ensures writes { WritesData (B.view bus.old) (B.view bus.new) }
    ensures agrees { Agrees cpu.old (B.view bus.old) → Agrees cpu.new (B.view bus.new) }
    ensures present { (f : Filling) → IsBound (B.view bus.old) → is_miss result ≡ false → (n : ℕ) → is_in n (step_names (whole_state f (state cpu.old (B.view bus.old)))) ≡ true → (B.view bus.old).present n ≡ true }
{
    one_step(cpu, bus, cache)
}
