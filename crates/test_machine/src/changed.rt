// A swap block that changes between two turns: what a segment holds that was swapped out is what its blocks hold.

ghost use Rattle.test_machine.specs.Going.{IsGoing};

use crate::outside::Outside;
use crate::turns::other_answer;
use o2_machine::{Machine, Turn};
use o2_outer::{Dev, SwapDevice};

/// The index of the first of the two segments.
const FIRST: u16 = 3;

/// The first swap block of a segment that is out of memory, none where it is in memory or has no blocks.
fn first_block(machine: &Machine) -> Option<u32> {
    if machine.regions().processes() == 0 {
        return None;
    }
    let held = machine.regions().held(1, FIRST)?;
    match machine.store().base(held.id) {
        None => machine.store().block(held.id, 0),
        Some(_) => None,
    }
}

/// Fills that block with bytes of 2, and tells whether that was done.
fn change<S: SwapDevice>(machine: &Machine, swap: &mut S) -> bool
    requires { IsGoing machine.now (S.blocks swap.old) }
    ensures { IsGoing machine.now (S.blocks swap.new) }
{
    let Some(block) = first_block(machine) else {
        return false;
    };
    if swap.count() <= block {
        return false;
    }
    swap.write(block, &[2u8; 512]) == Dev::Done
}

/// What is wrong with such a machine, or no text.
pub fn wrong_of<S: SwapDevice>(
    machine: &mut Machine,
    outside: &mut Outside,
    swap: &mut S,
) -> &'static str
    requires { IsGoing machine.old (S.blocks swap.old) }
{
    if other_answer(machine, outside, swap, 7, Turn::Ran) != Turn::Ran {
        return "one of the first turns is no step";
    }
    if !change(machine, swap) {
        return "the segment is in memory, or has no blocks";
    }
    if other_answer(machine, outside, swap, 5, Turn::Ran) != Turn::Ran {
        return "one of the turns behind is no step";
    }
    match machine.process(1) {
        Some((cpu, _, _)) if cpu.ax == 2 => "",
        _ => "another byte was read",
    }
}
