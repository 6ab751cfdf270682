// Turns of a machine.

ghost use Rattle.test_machine.specs.Going.{IsGoing};

use crate::outside::{Outside, is_untouched};
use o2_machine::{Machine, Steps, Turn};
use o2_outer::SwapDevice;

/// One turn.
fn turn<S: SwapDevice>(machine: &mut Machine, outside: &mut Outside, swap: &mut S) -> Turn
    requires { IsGoing machine.old (S.blocks swap.old) }
    ensures { IsGoing machine.new (S.blocks swap.new) }
{
    machine.turn(
        &mut outside.input,
        &mut outside.console,
        &mut outside.report,
        swap,
    )
}

/// The first other answer than this of so many turns, or this one.
pub fn other_answer<S: SwapDevice>(
    machine: &mut Machine,
    outside: &mut Outside,
    swap: &mut S,
    turns: u32,
    answer: Turn,
) -> Turn
    requires { IsGoing machine.old (S.blocks swap.old) }
    ensures { IsGoing machine.new (S.blocks swap.new) }
{
    for _turn in 0..turns {
        let other = turn(machine, outside, swap);
        if other != answer {
            return other;
        }
    }
    answer
}

/// Whether a machine gives this answer at three turns more, which touch nothing of what it goes to now.
pub fn is_final<S: SwapDevice>(
    machine: &mut Machine,
    later: &mut Outside,
    swap: &mut S,
    answer: Turn,
) -> bool
    requires { IsGoing machine.old (S.blocks swap.old) }
    ensures { IsGoing machine.new (S.blocks swap.new) }
{
    other_answer(machine, later, swap, 3, answer) == answer && is_untouched(later)
}
