// The words of a call's arguments, on the caller's stack.
ghost use Rattle.std.specs.Prelude.{◌≡◌, ◌<◌, ◌≤◌};
ghost use Rattle.o2_isa.specs.View.{Filling, IsBound};
ghost use Rattle.o2_world.specs.Calls.{word_of, returned};
ghost use Rattle.o2_gate.specs.Befores.{boundless, given};
ghost use Rattle.o2_gate.specs.Given.{AreWords};

use o2_bus::Bus;
use o2_isa::{Cpu, Sreg, Width};

/// The i-th word from the top of the stack, where it lies in SS.
fn word<B: Bus>(bus: &B, cpu: &Cpu, i: u16) -> Option<u16>
    requires { i < 16 }
    ensures { (f : Filling) → IsBound (B.view bus.now) → result ≡ given (word_of (boundless f (B.view bus.now)) cpu.now i) }
{
    match bus.read(Sreg::Ss, cpu.sp.wrapping_add(2 * i), Width::Word) {
        Ok(word) => Some(word),
        Err(_) => None,
    }
}

/// So many words from the top of the stack, and zeros behind them. None exactly where they don't lie in SS.
pub fn words<B: Bus>(bus: &B, cpu: &Cpu, count: usize) -> Option<[u16; 6]>
    requires { count ≤ 6 }
    ensures { (f : Filling) → IsBound (B.view bus.now) → AreWords (boundless f (B.view bus.now)) cpu.now count result }
{
    let mut words = [0; 6];
    for i in 0..count {
        match word(bus, cpu, i as u16) {
            Some(word) => words[i] = word,
            None => return None,
        }
    }
    Some(words)
}

/// The registers as a call comes back to `next`, which takes its arguments away.
pub fn give_back(cpu: &mut Cpu, next: u16, words: u16, error: u16)
    requires { words ≤ 16 }
    ensures { cpu.new ≡ returned cpu.old next words error }
{
    cpu.ax = error;
    cpu.sp = cpu.sp.wrapping_add(2 * words);
    cpu.ip = next;
}
