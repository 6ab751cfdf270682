// ENTER and LEAVE.
ghost use Rattle.std.specs.Prelude.{◌≡◌, ◌<◌, ◌+◌, Ok, OnOk, IsOk};
ghost use Rattle.o2_isa.specs.declared.instr.Width.TheVariants.{Word};
ghost use Rattle.o2_isa.specs.declared.instr.Sreg.TheVariants.{Ss};
ghost use Rattle.o2_isa.specs.View.{room_of, poke};
ghost use Rattle.o2_isa.specs.Steps.{Gives, SameCheck, state, run, changed, word_there, below};
ghost use Rattle.o2_isa.specs.FlowFrames.{frames, pushed_frames, entering, enter, leave};
ghost use Rattle.o2_exec_flow.specs.Checks.{reads_down, rooms_down};

use o2_bus::{Bus, read, room};
use o2_isa::{Cpu, Sreg, Stop, Width};

/// Whether so many words of the stack segment can be read, one below the other.
#[tactic(auto, using(crate::proofs::Stacked::reads_step))]
fn check_reads<B: Bus>(bus: &B, mut at: u16, mut count: u16) -> Result<(), Stop>
    ensures { SameCheck result (reads_down count at (B.view bus.now)) }
{
    while count > 0 {
        read(bus, Sreg::Ss, at, Width::Word)?;
        at = at.wrapping_sub(2);
        count -= 1;
    }
    Ok(())
}

/// Whether there is room for so many words in the stack segment, one below the other.
#[tactic(auto, using(crate::proofs::Stacked::rooms_step))]
fn check_rooms<B: Bus>(bus: &B, mut at: u16, mut count: u16) -> Result<(), Stop>
    ensures check { SameCheck result (rooms_down count at (B.view bus.now)) }
    ensures room { OnOk result (rooms_down count at (B.view bus.now) ≡ Ok 0) }
{
    while count > 0 {
        room(bus, Sreg::Ss, at, Width::Word)?;
        at = at.wrapping_sub(2);
        count -= 1;
    }
    Ok(())
}

/// The word at one place of the stack segment goes to another.
#[tactic(auto, unfolding(o2_isa::specs::Steps::word_there))]
fn copy_word<B: Bus>(bus: &mut B, from: u16, to: u16)
    requires { IsOk (room_of (B.view bus.old) Ss to Word) }
    ensures { B.view bus.new ≡ poke (B.view bus.old) Ss to Word (word_there (B.view bus.old) Ss from) }
{
    let word = match bus.read(Sreg::Ss, from, Width::Word) {
        Ok(word) => word,
        Err(_) => 0,
    };
    bus.write(Sreg::Ss, to, Width::Word, word);
}

/// Pushes so many words of the old frame, and then the address of the new one.
#[tactic(auto, using(crate::proofs::Stacked::frames_step, crate::proofs::Stacked::rooms_first, crate::proofs::Stacked::rooms_rest, crate::proofs::Stacked::rooms_poke))]
fn push_frames<B: Bus>(bus: &mut B, mut count: u16, mut from: u16, mut to: u16, frame: u16)
    requires { rooms_down (count + 1) to (B.view bus.old) ≡ Ok 0 }
    ensures { B.view bus.new ≡ changed (frames count from to frame) (B.view bus.old) }
{
    while count > 0 {
        copy_word(bus, from, to);
        from = from.wrapping_sub(2);
        to = to.wrapping_sub(2);
        count -= 1;
    }
    bus.write(Sreg::Ss, to, Width::Word, frame);
}

/// What ENTER pushes after BP.
fn push_level<B: Bus>(bus: &mut B, level: u16, cpu: &Cpu)
    requires { rooms_down level (below (below cpu.now.sp)) (B.view bus.old) ≡ Ok 0 }
    ensures { B.view bus.new ≡ changed (pushed_frames level cpu.now) (B.view bus.old) }
{
    if level > 0 {
        let frame = cpu.sp.wrapping_sub(2);
        push_frames(
            bus,
            level - 1,
            cpu.bp.wrapping_sub(2),
            frame.wrapping_sub(2),
            frame,
        );
    }
}

#[tactic(auto, using(crate::proofs::Stacked::run_reading, crate::proofs::Stacked::run_room, crate::proofs::Stacked::rooms_first, crate::proofs::Stacked::rooms_rest, crate::proofs::Stacked::rooms_poke))]
fn enter_level<B: Bus>(
    cpu: &mut Cpu,
    bus: &mut B,
    level: u16,
    size: u16,
    next: u16,
) -> Result<(), Stop>
    requires { level < 32 }
    ensures { Gives result (state cpu.new (B.view bus.new)) (state cpu.old (B.view bus.old)) (run (entering level cpu.old size next) (B.view bus.old)) }
{
    let frame = cpu.sp.wrapping_sub(2);
    check_reads(bus, cpu.bp.wrapping_sub(2), level.saturating_sub(1))?;
    check_rooms(bus, frame, level + 1)?;
    bus.write(Sreg::Ss, frame, Width::Word, cpu.bp);
    push_level(bus, level, cpu);
    cpu.sp = frame.wrapping_sub(2 * level).wrapping_sub(size);
    cpu.bp = frame;
    cpu.ip = next;
    Ok(())
}

#[tactic(auto, unfolding(o2_isa::specs::FlowFrames::enter))]
pub fn execute_enter<B: Bus>(
    cpu: &mut Cpu,
    bus: &mut B,
    size: u16,
    level: u16,
    next: u16,
) -> Result<(), Stop>
    ensures { Gives result (state cpu.new (B.view bus.new)) (state cpu.old (B.view bus.old)) (run (enter cpu.old size level next) (B.view bus.old)) }
{
    enter_level(cpu, bus, level % 32, size, next)
}

#[tactic(auto, unfolding(o2_isa::specs::FlowFrames::leave))]
pub fn execute_leave<B: Bus>(cpu: &mut Cpu, bus: &B, next: u16) -> Result<(), Stop>
    ensures { Gives result (state cpu.new (B.view bus.now)) (state cpu.old (B.view bus.now)) (run (leave cpu.old next) (B.view bus.now)) }
{
    let x = read(bus, Sreg::Ss, cpu.bp, Width::Word)?;
    cpu.sp = cpu.bp.wrapping_add(2);
    cpu.bp = x;
    cpu.ip = next;
    Ok(())
}
