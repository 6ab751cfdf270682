// PUSH, POP, PUSHA, POPA, PUSHF and POPF.
ghost use Rattle.o2_isa.specs.Steps.{Gives, state, run};
ghost use Rattle.o2_isa.specs.DataStack.{pushing, push, pushf, pop, pop_sreg, pop_into, popf, pusha, popa};

use crate::pointers::load_selector;
use o2_bus::{Bus, read, room, store, value};
use o2_desc::FlagsWord;
use o2_isa::{Arg, Cpu, Sreg, Stop, Width};

#[inline]
#[tactic(auto, unfolding(o2_isa::specs::DataStack::pushing))]
fn push_word<B: Bus>(cpu: &mut Cpu, bus: &mut B, x: u16, next: u16) -> Result<(), Stop>
    ensures { Gives result (state cpu.new (B.view bus.new)) (state cpu.old (B.view bus.old)) (run (pushing cpu.old x next) (B.view bus.old)) }
{
    let sp = cpu.sp.wrapping_sub(2);
    room(bus, Sreg::Ss, sp, Width::Word)?;
    bus.write(Sreg::Ss, sp, Width::Word, x);
    cpu.sp = sp;
    cpu.ip = next;
    Ok(())
}

#[tactic(auto, using(o2_isa::proofs::Runs::run_valued), unfolding(o2_isa::specs::DataStack::push))]
pub fn execute_push<B: Bus>(cpu: &mut Cpu, bus: &mut B, arg: &Arg, next: u16) -> Result<(), Stop>
    ensures { Gives result (state cpu.new (B.view bus.new)) (state cpu.old (B.view bus.old)) (run (push cpu.old arg.now next) (B.view bus.old)) }
{
    let x = value(cpu, bus, Width::Word, arg)?;
    push_word(cpu, bus, x, next)
}

#[tactic(auto, unfolding(o2_isa::specs::DataStack::pushf))]
pub fn execute_pushf<B: Bus>(cpu: &mut Cpu, bus: &mut B, next: u16) -> Result<(), Stop>
    ensures { Gives result (state cpu.new (B.view bus.new)) (state cpu.old (B.view bus.old)) (run (pushf cpu.old next) (B.view bus.old)) }
{
    let x = FlagsWord(cpu.flags).shown().0;
    push_word(cpu, bus, x, next)
}

#[tactic(auto, unfolding(o2_isa::specs::DataStack::pop_sreg))]
fn execute_pop_sreg<B: Bus>(cpu: &mut Cpu, bus: &mut B, reg: Sreg, next: u16) -> Result<(), Stop>
    ensures { Gives result (state cpu.new (B.view bus.new)) (state cpu.old (B.view bus.old)) (run (pop_sreg cpu.old reg next) (B.view bus.old)) }
{
    let x = read(bus, Sreg::Ss, cpu.sp, Width::Word)?;
    let mut raised = *cpu;
    raised.sp = cpu.sp.wrapping_add(2);
    load_selector(&mut raised, bus, reg, x, next)?;
    *cpu = raised;
    Ok(())
}

#[tactic(auto, using(o2_isa::proofs::Runs::run_storing), unfolding(o2_isa::specs::DataStack::pop_into))]
fn execute_pop_into<B: Bus>(cpu: &mut Cpu, bus: &mut B, arg: &Arg, next: u16) -> Result<(), Stop>
    ensures { Gives result (state cpu.new (B.view bus.new)) (state cpu.old (B.view bus.old)) (run (pop_into cpu.old arg.now next) (B.view bus.old)) }
{
    let x = read(bus, Sreg::Ss, cpu.sp, Width::Word)?;
    let mut raised = *cpu;
    raised.sp = cpu.sp.wrapping_add(2);
    store(&mut raised, bus, Width::Word, arg, x)?;
    *cpu = raised;
    cpu.ip = next;
    Ok(())
}

pub fn execute_pop<B: Bus>(cpu: &mut Cpu, bus: &mut B, arg: &Arg, next: u16) -> Result<(), Stop>
    ensures { Gives result (state cpu.new (B.view bus.new)) (state cpu.old (B.view bus.old)) (run (pop cpu.old arg.now next) (B.view bus.old)) }
{
    match arg {
        Arg::S(reg) => execute_pop_sreg(cpu, bus, *reg, next),
        _ => execute_pop_into(cpu, bus, arg, next),
    }
}

#[tactic(auto, unfolding(o2_isa::specs::DataStack::popf))]
pub fn execute_popf<B: Bus>(cpu: &mut Cpu, bus: &mut B, next: u16) -> Result<(), Stop>
    ensures { Gives result (state cpu.new (B.view bus.new)) (state cpu.old (B.view bus.old)) (run (popf cpu.old next) (B.view bus.old)) }
{
    let x = read(bus, Sreg::Ss, cpu.sp, Width::Word)?;
    cpu.sp = cpu.sp.wrapping_add(2);
    cpu.flags = FlagsWord(cpu.flags).popped(x).0;
    cpu.ip = next;
    Ok(())
}

#[tactic(auto, using(o2_isa::proofs::Pokes::room_of_poke), unfolding(o2_isa::specs::DataStack::pusha))]
pub fn execute_pusha<B: Bus>(cpu: &mut Cpu, bus: &mut B, next: u16) -> Result<(), Stop>
    ensures { Gives result (state cpu.new (B.view bus.new)) (state cpu.old (B.view bus.old)) (run (pusha cpu.old next) (B.view bus.old)) }
{
    let a = cpu.sp.wrapping_sub(2);
    let b = a.wrapping_sub(2);
    let c = b.wrapping_sub(2);
    let d = c.wrapping_sub(2);
    let e = d.wrapping_sub(2);
    let f = e.wrapping_sub(2);
    let g = f.wrapping_sub(2);
    let h = g.wrapping_sub(2);
    room(bus, Sreg::Ss, a, Width::Word)?;
    room(bus, Sreg::Ss, b, Width::Word)?;
    room(bus, Sreg::Ss, c, Width::Word)?;
    room(bus, Sreg::Ss, d, Width::Word)?;
    room(bus, Sreg::Ss, e, Width::Word)?;
    room(bus, Sreg::Ss, f, Width::Word)?;
    room(bus, Sreg::Ss, g, Width::Word)?;
    room(bus, Sreg::Ss, h, Width::Word)?;
    bus.write(Sreg::Ss, a, Width::Word, cpu.ax);
    bus.write(Sreg::Ss, b, Width::Word, cpu.cx);
    bus.write(Sreg::Ss, c, Width::Word, cpu.dx);
    bus.write(Sreg::Ss, d, Width::Word, cpu.bx);
    bus.write(Sreg::Ss, e, Width::Word, cpu.sp);
    bus.write(Sreg::Ss, f, Width::Word, cpu.bp);
    bus.write(Sreg::Ss, g, Width::Word, cpu.si);
    bus.write(Sreg::Ss, h, Width::Word, cpu.di);
    cpu.sp = h;
    cpu.ip = next;
    Ok(())
}

#[tactic(auto, unfolding(o2_isa::specs::DataStack::popa))]
pub fn execute_popa<B: Bus>(cpu: &mut Cpu, bus: &mut B, next: u16) -> Result<(), Stop>
    ensures { Gives result (state cpu.new (B.view bus.new)) (state cpu.old (B.view bus.old)) (run (popa cpu.old next) (B.view bus.old)) }
{
    let mut c = *cpu;
    c.di = read(bus, Sreg::Ss, c.sp, Width::Word)?;
    c.sp = c.sp.wrapping_add(2);
    c.si = read(bus, Sreg::Ss, c.sp, Width::Word)?;
    c.sp = c.sp.wrapping_add(2);
    c.bp = read(bus, Sreg::Ss, c.sp, Width::Word)?;
    c.sp = c.sp.wrapping_add(2);
    read(bus, Sreg::Ss, c.sp, Width::Word)?;
    c.sp = c.sp.wrapping_add(2);
    c.bx = read(bus, Sreg::Ss, c.sp, Width::Word)?;
    c.sp = c.sp.wrapping_add(2);
    c.dx = read(bus, Sreg::Ss, c.sp, Width::Word)?;
    c.sp = c.sp.wrapping_add(2);
    c.cx = read(bus, Sreg::Ss, c.sp, Width::Word)?;
    c.sp = c.sp.wrapping_add(2);
    c.ax = read(bus, Sreg::Ss, c.sp, Width::Word)?;
    c.sp = c.sp.wrapping_add(2);
    c.ip = next;
    *cpu = c;
    Ok(())
}
