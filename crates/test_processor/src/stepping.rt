// What the rows of `test_instructions` don't see: a step that is taken again behind its miss, and reads through a register that is null.
ghost use Rattle.std.specs.Prelude.{◌≤◌, length};

use o2_base::{NoMemory, Selector};
use o2_core::{Bus, Cpu, Outcome, Plain, step_one, step_plain};
use o2_isa::{Sreg, Width};
use std::alloc::Global;
use test_fixtures::{Wrong, want};

/// Access bytes of the indexes 1 to 8; the names behind 5 to 8 are hidden.
static ACCESS: [u8; 8] = [0xFA, 0xF8, 0xF2, 0xF0, 0xFA, 0xF8, 0xF2, 0xF0];

fn one(plain: &mut Plain, alloc: Global, index: u16, bytes: &[u8]) -> Result<(), NoMemory>
    requires { length bytes.now ≤ 65536 }
{
    let access = match ACCESS.get(index.saturating_sub(1) as usize) {
        Some(access) => *access,
        None => 0,
    };
    if bytes.len() == 0 {
        return Err(NoMemory);
    }
    let name = plain.add(bytes.to_vec(alloc)?)?;
    if index >= 5 {
        plain.show(name, false);
    }
    plain.hold(alloc, 1, index, name, access)
}

/// Process 1 holds this code and data under the indexes 1 to 8.
fn memory(alloc: Global, code: &[u8], content: &[u8]) -> Result<Plain, NoMemory>
    requires code { length code.now ≤ 65536 }
    requires content { length content.now ≤ 65536 }
{
    let mut plain = Plain::new(alloc)?;
    for index in 1..9u16 {
        let is_code = index % 4 == 1 || index % 4 == 2;
        one(
            &mut plain,
            alloc,
            index,
            if is_code { code } else { content },
        )?;
    }
    Ok(plain)
}

fn start() -> Cpu {
    Cpu {
        ax: 0,
        cx: 0x1234,
        dx: 0,
        bx: 0,
        sp: 16,
        bp: 0,
        si: 0,
        di: 0,
        ip: 0,
        flags: 2,
        cs: 0x0F,
        ds: 0x27,
        es: 0,
        ss: 0x1F,
    }
}

pub fn a_miss_is_tried_again(alloc: Global) -> Result<(), Wrong> {
    let mut data = [0u8; 32];
    data[16] = 0x3F;
    let mut plain = memory(alloc, &[0x07], &data)?;
    let mut cpu = start();
    let missed = step_plain(&mut plain, 1, &mut cpu);
    let stays = cpu == start();
    if plain.count() > 6 {
        plain.show(6, true);
    }
    let taken = step_plain(&mut plain, 1, &mut cpu);
    let after = Cpu {
        es: 0x3F,
        sp: 18,
        ip: 1,
        ..start()
    };
    want(missed == Outcome::Miss(Selector(0x3F)) && stays, 0)?;
    want(taken == Outcome::Done && cpu == after, 1)?;
    Ok(())
}

pub fn a_null_register_reads_nothing(alloc: Global) -> Result<(), Wrong> {
    let mut plain = memory(alloc, &[0x8E, 0xD8], &[0; 32])?;
    let mut cpu = start();
    let mut bus = plain.bus(1, &cpu);
    let before = bus.read(Sreg::Ds, 0, Width::Byte);
    let done = step_one(&mut cpu, &mut bus) == Outcome::Done;
    let null = bus.read(Sreg::Ds, 0, Width::Byte);
    let behind = bus.read(Sreg::Ss, 31, Width::Word);
    want(
        [before, null, behind] == [Ok(0), Err((13, 0)), Err((12, 0))] && done,
        0,
    )?;
    want(bus.room(Sreg::Ss, 30, Width::Word) == Ok(()), 1)?;
    Ok(())
}
