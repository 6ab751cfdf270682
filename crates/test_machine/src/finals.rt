// Machines that stop for what the next step needs, or for their device: each later turn gives the same answer, and writes nothing.

ghost use Rattle.test_machine.specs.Going.{IsGoing};

use crate::outside::Outside;
use crate::turns::{is_final, other_answer};
use o2_machine::{Machine, Turn};
use o2_outer::SwapDevice;

/// What is wrong with a machine that is to stop so, or no text.
pub fn wrong_of<S: SwapDevice>(
    machine: &mut Machine,
    outside: &mut Outside,
    later: &mut Outside,
    swap: &mut S,
    answer: Turn,
    line: &str,
) -> &'static str
    requires { IsGoing machine.old (S.blocks swap.old) }
{
    if other_answer(machine, outside, swap, 100, Turn::Ran) != answer {
        return "it comes to another answer";
    }
    if !outside.report.taken().ends_with(line.as_bytes()) {
        return "another line is the last one";
    }
    if !is_final(machine, later, swap, answer) {
        return "a later turn isn't the same";
    }
    ""
}
