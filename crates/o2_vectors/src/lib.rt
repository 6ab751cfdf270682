//! Test vectors of the proved step, as JSON: random states, the step from each, and its text.
#![tactic(auto)]

ghost use Rattle.std.specs.Prelude.{◌≡◌, ◌<◌, IfOk, string_bytes};
ghost use Rattle.o2_isa.specs.declared.cpu.Outcome.{Outcome};
ghost use Rattle.serde_json.specs.View.{view};
ghost use Rattle.o2_vectors.specs.declared.state.Snapshot.{Snapshot as State};
ghost use Rattle.o2_vectors.specs.Sight.{Steps, instruction_bytes, name_text};
ghost use Rattle.o2_vectors.specs.Json.{vector_data};

mod state;
mod step;
mod vector;
mod wanted;

use o2_base::NoMemory;
use o2_decode::decode;
use o2_isa::Decoded;
use o2_text::line;
use o2_tool::Shown;
use rand_pcg::Pcg32;
use serde_json::Value;
pub use state::{Snapshot, opening};
use std::alloc::{AllocError, Global};
use step::step;
use vector::vector;
pub use wanted::Wanted;

/// The text of the instruction that a state begins with, or that there is none.
fn name_of(alloc: Global, before: &Snapshot) -> Result<String, AllocError>
    requires { before.now.cpu.ip < 32 }
    ensures { IfOk result (λ s. string_bytes s ≡ name_text before.now.cpu.ip before.now.code) }
{
    let at = before.cpu.ip as usize;
    if let Decoded::One(instr, count) = decode(&before.code[at..at + 10]) {
        match line(alloc, &instr, before.cpu.ip + count as u16) {
            Ok(text) => format!(in alloc; "{}", Shown(text.as_slice())),
            Err(NoMemory) => Err(AllocError),
        }
    } else {
        String::from_str(alloc, "no instruction")
    }
}

/// The bytes of the instruction that a state begins with, none where it begins with none.
fn bytes_of(before: &Snapshot) -> &[u8]
    requires { before.now.cpu.ip < 32 }
    ensures { result.now ≡ instruction_bytes before.now.cpu.ip before.now.code }
{
    let at = before.cpu.ip as usize;
    let front = &before.code[at..at + 10];
    if let Decoded::One(_, count) = decode(front) {
        &front[..count as usize]
    } else {
        &[]
    }
}

/// The vector of a state: the step that its data tell is that of the processor's definition.
pub fn made(alloc: Global, before: &Snapshot) -> Result<Value, AllocError>
    requires { before.now.cpu.ip < 32 }
    ensures { IfOk result (λ v. (after : State) × (outcome : Outcome)
        × Steps before.now after outcome
        × (view v ≡ vector_data (name_text before.now.cpu.ip before.now.code)
        (instruction_bytes before.now.cpu.ip before.now.code) before.now after outcome)) }
{
    let name = name_of(alloc, before)?;
    let taken = match step(alloc, before) {
        Ok(taken) => taken,
        Err(NoMemory) => return Err(AllocError),
    };
    let value = vector(alloc, name.as_str(), bytes_of(before), before, &taken)?;
    Ok(value)
}

/// The vector of a state whose instruction begins as wanted, as `made` makes it, as a text of JSON.
pub fn text(alloc: Global, random: &mut Pcg32, wanted: &Wanted) -> Result<String, AllocError> {
    let before = opening(random, wanted);
    made(alloc, &before)?.to_string(alloc)
}
