// What goes at the script's word `discard`.
ghost use Rattle.std.specs.Prelude.{◌≡◌, true, option_map};
ghost use Rattle.std.specs.Option.{option_copied};
ghost use Rattle.o2_isa.specs.View.{bound_registers};
ghost use Rattle.o2_world.specs.Changes.{marked};
ghost use Rattle.o2_world.specs.Discards.{all_discarded, behind_discard, goes, has_seated, is_of, is_seated, may_be_discarded, seats};
ghost use Rattle.o2_world.specs.Views.{hold_of, holds_in};

use crate::pointing::bound;
use crate::{Held, Process, Segment};
use o2_isa::Cpu;
use o2_world::State;

fn is_of(name: u64, held: Option<&Held>) -> bool
    ensures { result ≡ is_of name (option_map hold_of (option_copied held.entry)) }
{
    match held {
        None => false,
        Some(held) => held.name == name,
    }
}

/// Whether a name stands in a segment register.
fn has_seated(held: &[(u16, Held)], cpu: &Cpu, name: u64) -> bool
    ensures { result ≡ has_seated (bound_registers (holds_in held.now) cpu.now) name }
{
    (is_of(name, bound(held, cpu.es)) || is_of(name, bound(held, cpu.cs)))
        || (is_of(name, bound(held, cpu.ss)) || is_of(name, bound(held, cpu.ds)))
}

/// Whether it stands in one of a process that lives.
fn seats(process: &Process, name: u64) -> bool
    ensures { result ≡ seats process.now name }
{
    match process.state {
        State::Live => has_seated(&process.held, &process.cpu, name),
        State::Exited(_) => false,
        State::Trapped(_) => false,
    }
}

#[tactic(auto, unfolding(o2_world::specs::Discards::is_seated))]
fn is_seated(processes: &[Process], name: u64) -> bool
    ensures { result ≡ is_seated processes.now name }
{
    processes.iter().any(|process| seats(process, name))
}

fn may_be_discarded(processes: &[Process], name: u64, segment: &Segment) -> bool
    ensures { result ≡ may_be_discarded processes.now name segment.now }
{
    (segment.flags / 4 % 2 == 1 && !segment.clean)
        && (segment.lock == 0 && !is_seated(processes, name))
}

fn goes(processes: &[Process], name: u64, segment: &Segment) -> bool
    ensures { result ≡ goes processes.now name segment.now }
{
    may_be_discarded(processes, name, segment) && !segment.discarded
}

fn discard(segment: &mut Segment)
    ensures { segment.new ≡ marked true segment.old }
{
    segment.bytes.as_mut_slice().fill(0);
    segment.discarded = true;
}

fn discard_where_it_goes(processes: &[Process], pair: &mut (u64, Segment))
    ensures { pair.new ≡ (pair.old.0, behind_discard processes.now pair.old.0 pair.old.1) }
{
    if goes(processes, pair.0, &pair.1) {
        discard(&mut pair.1);
    }
}

/// Of the segments those go that may be discarded and aren't yet.
#[tactic(auto, unfolding(o2_world::specs::Discards::all_discarded), using(crate::proofs::Mapped::over))]
pub fn discard_all(names: &mut Vec<(u64, Segment)>, processes: &[Process])
    ensures { names.new.items ≡ all_discarded processes.now names.old.items }
{
    for k in 0..names.len() {
        discard_where_it_goes(processes, &mut names[k]);
    }
}
