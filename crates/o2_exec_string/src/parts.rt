// What the string instructions share: the indexes and the count.
ghost use Rattle.std.specs.Prelude.{◌≡◌, ◌&&◌};
ghost use Rattle.o2_isa.specs.StringRows.{moved, ends_by_zero, counted, repeated, source_moved, target_moved, is_over as is_over_of};

use o2_alu::is_set;
use o2_isa::{Cpu, Flag, Rep, Width};

/// An index one element on: up, or down with DF.
#[inline(always)]
#[tactic(auto, unfolding(o2_isa::specs::StringRows::moved))]
pub fn index_after(flags: u16, width: Width, index: u16) -> u16
    ensures { result ≡ moved flags width index }
{
    let len = match width {
        Width::Byte => 1,
        Width::Word => 2,
    };
    if is_set(flags, Flag::Direction) {
        index.wrapping_sub(len)
    } else {
        index.wrapping_add(len)
    }
}

/// SI goes on by an element.
#[inline(always)]
pub fn move_source(cpu: &mut Cpu, width: Width)
    ensures { cpu.new ≡ source_moved width cpu.old }
{
    cpu.si = index_after(cpu.flags, width, cpu.si);
}

/// DI goes on by an element.
#[inline(always)]
pub fn move_target(cpu: &mut Cpu, width: Width)
    ensures { cpu.new ≡ target_moved width cpu.old }
{
    cpu.di = index_after(cpu.flags, width, cpu.di);
}

/// Whether a comparison with these flags ends the repetition.
#[inline(always)]
fn is_ended(rep: Rep, flags: u16) -> bool
    ensures { result ≡ ends_by_zero rep flags }
{
    match rep {
        Rep::No => true,
        Rep::Equal => !is_set(flags, Flag::Zero),
        Rep::NotEqual => is_set(flags, Flag::Zero),
    }
}

#[inline(always)]
fn count(cpu: &mut Cpu, ends: bool, next: u16)
    ensures { cpu.new ≡ counted ends cpu.old next }
{
    cpu.cx = cpu.cx.wrapping_sub(1);
    if ends || cpu.cx == 0 {
        cpu.ip = next;
    }
}

/// After one repetition: with a repeat prefix CX falls by 1, and IP moves on where CX is 0 or a comparison ends it; without
/// one IP moves on.
#[inline(always)]
#[tactic(auto, unfolding(o2_isa::specs::StringRows::repeated))]
pub fn repeat(cpu: &mut Cpu, rep: Rep, compares: bool, next: u16)
    ensures { cpu.new ≡ repeated rep compares cpu.old next }
{
    match rep {
        Rep::No => cpu.ip = next,
        Rep::Equal | Rep::NotEqual => {
            let ends = compares && is_ended(rep, cpu.flags);
            count(cpu, ends, next);
        }
    }
}

/// Whether a repeat prefix has nothing left to do.
#[inline(always)]
pub fn is_over(rep: Rep, cx: u16) -> bool
    ensures { result ≡ is_over_of rep cx }
{
    match rep {
        Rep::No => false,
        Rep::Equal | Rep::NotEqual => cx == 0,
    }
}
