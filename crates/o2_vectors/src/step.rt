// A step from a state.
ghost use Rattle.std.specs.Prelude.{◌≡◌, ◌+◌, ◌==◌, ◌&&◌, length, IfOk, OnOk, Some, if◌then◌else◌};
ghost use Rattle.o2_bus.specs.Plain.{held_in, bytes_in, count_in};
ghost use Rattle.o2_bus.specs.Frames.{IsSeenAs, memory};
ghost use Rattle.o2_vectors.specs.Sight.{IsMemory, Steps, segments_of};

use crate::state::Snapshot;
use o2_base::NoMemory;
use o2_bus::Plain;
use o2_core::step_plain;
use o2_desc::Access;
use o2_isa::Outcome;
use std::alloc::Global;

/// A step: the state behind it, and what it answered.
#[derive(Drop)]
pub struct Taken {
    pub after: Snapshot,
    pub outcome: Outcome,
}

/// Process 1 holds the bytes of one more segment under an index.
fn hold(
    plain: &mut Plain,
    alloc: Global,
    index: u16,
    bytes: &[u8; 64],
    access: Access,
) -> Result<(), NoMemory>
    ensures { OnOk result (IsSeenAs plain.new (record (memory plain.old) {
      held = λ p i. if p == 1 && i == index
          then Some (record { name = count_in plain.old; rights = access.0 }) else held_in plain.old p i;
      bytes = λ n. if n == count_in plain.old then bytes.now else bytes_in plain.old n;
      count = count_in plain.old + 1;
    })) }
{
    let name = plain.add(bytes.to_vec(alloc)?)?;
    plain.hold(alloc, 1, index, name, access.0)
}

/// The memory of a state.
fn filled(alloc: Global, before: &Snapshot) -> Result<Plain, NoMemory>
    ensures { IfOk result (λ p. IsMemory p (segments_of before.now)) }
{
    let mut plain = Plain::new(alloc)?;
    hold(&mut plain, alloc, 1, &before.code, Access::READABLE_CODE)?;
    hold(&mut plain, alloc, 2, &before.data, Access::WRITABLE_DATA)?;
    hold(&mut plain, alloc, 3, &before.extra, Access::WRITABLE_DATA)?;
    hold(&mut plain, alloc, 4, &before.stack, Access::WRITABLE_DATA)?;
    Ok(plain)
}

/// The bytes of a name.
fn segment(plain: &Plain, name: u32) -> [u8; 64]
    requires { length (bytes_in plain.now name) ≡ 64 }
    ensures { result ≡ bytes_in plain.now name }
{
    let mut bytes = [0u8; 64];
    bytes.copy_from_slice(plain.bytes(name));
    bytes
}

/// One step of the processor, as its definition has it.
pub fn step(alloc: Global, before: &Snapshot) -> Result<Taken, NoMemory>
    ensures { IfOk result (λ t. Steps before.now t.after t.outcome) }
{
    let mut plain = filled(alloc, before)?;
    let mut cpu = before.cpu;
    let outcome = step_plain(&mut plain, 1, &mut cpu);
    let after = Snapshot {
        cpu,
        code: segment(&plain, 0),
        data: segment(&plain, 1),
        extra: segment(&plain, 2),
        stack: segment(&plain, 3),
    };
    Ok(Taken { after, outcome })
}
