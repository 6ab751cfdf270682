// The lines of the report.
ghost use Rattle.std.specs.Prelude.{◌≡◌, ◌≤◌, ◌<◌, ◌+◌, ◌*◌, ◌++◌, length, flat_map};
ghost use Rattle.o2_world.specs.Text.{argument_text, line_text};
ghost use Rattle.o2_world.specs.World.{Starts, HoldsBy, DropsBy, Calls, Exits, Ends, Traps};

use crate::LineBuffer;
use o2_world::Argument;

/// Adds an argument or a value, behind a blank.
#[tactic(auto, using(std::proofs::Common::append_assoc))]
fn push_argument(line: &mut LineBuffer, argument: Argument)
    requires { length line.old + 10 ≤ 640 }
    ensures text { line.new ≡ line.old ++ argument_text argument }
    ensures most { length line.new ≤ length line.old + 10 }
{
    line.push_byte(b' ');
    match argument {
        Argument::Word(n) => line.push_hex4(n),
        Argument::Long(high, low) => {
            line.push_hex4(high);
            line.push_hex4(low);
        }
        Argument::Far(selector, offset) => line.push_far(selector, offset),
    }
}

/// Adds arguments or values, each behind a blank.
fn push_arguments(line: &mut LineBuffer, arguments: &[Argument])
    requires { length line.old + 10 * length arguments.now ≤ 640 }
    ensures text { line.new ≡ line.old ++ flat_map argument_text arguments.now }
    ensures most { length line.new ≤ length line.old + 10 * length arguments.now }
{
    for argument in arguments {
        push_argument(line, *argument);
    }
}

/// The line of a start.
#[tactic(auto, unfolding(o2_world::specs::Text::line_text), using(std::proofs::Common::append_assoc))]
pub fn set_starts(line: &mut LineBuffer, process: u16, name: &[u8])
    requires { length name.now ≤ 255 }
    ensures { line.new ≡ line_text (Starts process name.now) }
{
    line.clear();
    line.push_number(process as u64);
    line.push_text(b" start ");
    line.push_text(name);
    line.push_byte(b'\n');
}

/// The line of a hold that is added.
#[tactic(auto, unfolding(o2_world::specs::Text::line_text), using(std::proofs::Common::append_assoc))]
pub fn set_holds(line: &mut LineBuffer, process: u16, selector: u16, cause: &[u8])
    requires { length cause.now ≤ 20 }
    ensures { line.new ≡ line_text (HoldsBy process selector cause.now) }
{
    line.clear();
    line.push_number(process as u64);
    line.push_text(b" hold ");
    line.push_hex4(selector);
    line.push_text(b" by ");
    line.push_text(cause);
    line.push_byte(b'\n');
}

/// The line of a hold that is dropped.
#[tactic(auto, unfolding(o2_world::specs::Text::line_text), using(std::proofs::Common::append_assoc))]
pub fn set_drops(line: &mut LineBuffer, process: u16, selector: u16, cause: &[u8])
    requires { length cause.now ≤ 20 }
    ensures { line.new ≡ line_text (DropsBy process selector cause.now) }
{
    line.clear();
    line.push_number(process as u64);
    line.push_text(b" drop ");
    line.push_hex4(selector);
    line.push_text(b" by ");
    line.push_text(cause);
    line.push_byte(b'\n');
}

/// The line of a call that comes back. The values stand in it only where the error is 0.
#[tactic(auto, unfolding(o2_world::specs::Text::line_text), using(std::proofs::Common::append_assoc))]
pub fn set_calls(
    line: &mut LineBuffer,
    process: u16,
    name: &[u8],
    args: &[Argument],
    error: u16,
    values: &[Argument],
)
    requires short_name { length name.now ≤ 20 }
    requires few_args { length args.now ≤ 12 }
    requires few_values { length values.now ≤ 4 }
    ensures { line.new ≡ line_text (Calls process name.now args.now error values.now) }
{
    line.clear();
    line.push_number(process as u64);
    line.push_text(b" call ");
    line.push_text(name);
    push_arguments(line, args);
    line.push_text(b" = ");
    line.push_number(error as u64);
    if error == 0 {
        push_arguments(line, values);
    }
    line.push_byte(b'\n');
}

/// The line of DosExit.
#[tactic(auto, unfolding(o2_world::specs::Text::line_text), using(std::proofs::Common::append_assoc))]
pub fn set_exits(line: &mut LineBuffer, process: u16, action: u16, code: u16)
    ensures { line.new ≡ line_text (Exits process action code) }
{
    line.clear();
    line.push_number(process as u64);
    line.push_text(b" call DosExit ");
    line.push_hex4(action);
    line.push_byte(b' ');
    line.push_hex4(code);
    line.push_byte(b'\n');
}

/// The line of an end by DosExit.
#[tactic(auto, unfolding(o2_world::specs::Text::line_text), using(std::proofs::Common::append_assoc))]
pub fn set_ends(line: &mut LineBuffer, process: u16, code: u16)
    ensures { line.new ≡ line_text (Ends process code) }
{
    line.clear();
    line.push_number(process as u64);
    line.push_text(b" end exit ");
    line.push_number(code as u64);
    line.push_byte(b'\n');
}

/// The line of an end by an exception, at the CS:IP of its instruction.
#[tactic(auto, unfolding(o2_world::specs::Text::line_text), using(std::proofs::Common::append_assoc))]
pub fn set_traps(line: &mut LineBuffer, process: u16, vector: u8, selector: u16, offset: u16)
    ensures { line.new ≡ line_text (Traps process vector selector offset) }
{
    line.clear();
    line.push_number(process as u64);
    line.push_text(b" end trap ");
    line.push_number(vector as u64);
    line.push_text(b" at ");
    line.push_far(selector, offset);
    line.push_byte(b'\n');
}
