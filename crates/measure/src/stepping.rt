// Steps over a plain memory.
ghost use Rattle.std.specs.Prelude.{◌<◌, ◌≤◌, length};

use o2_bus::{Cpu, NoMemory, Outcome, Plain};
use o2_core::step_plain;
use o2_desc::Access;
use std::alloc::Global;
use test_bus_parts::count_done;

/// A jump to itself.
pub static LOOP: [u8; 2] = [0xEB, 0xFE];

/// Moves, pushes and pops, and a jump to the first.
pub static MOVES: [u8; 23] = [
    0xB8, 0x34, 0x12, // MOV AX, 1234h
    0x50, 0x51, 0x1E, // PUSH AX, PUSH CX, PUSH DS
    0x1F, 0x5B, 0x5A, // POP DS, POP BX, POP DX
    0x8C, 0xD9, // MOV CX, DS
    0xBE, 0x05, 0x00, // MOV SI, 5
    0x6A, 0x07, 0x5F, // PUSH 7, POP DI
    0x8E, 0xC1, // MOV ES, CX
    0x57, 0x5D, // PUSH DI, POP BP
    0xEB, 0xE9, // JMP to the first
];

/// Arithmetic on registers and memory, shifts and moves, and a jump to the first.
pub static SUMS: [u8; 39] = [
    0xB8, 0x34, 0x12, // MOV AX, 1234h
    0x03, 0x06, 0x10, 0x00, // ADD AX, [16]
    0x29, 0xC3, 0x31, 0xC1, // SUB BX, AX; XOR CX, AX
    0x42, 0x39, 0xD8, // INC DX; CMP AX, BX
    0x11, 0x06, 0x12, 0x00, // ADC [18], AX
    0xD1, 0xE0, // SHL AX, 1
    0xC1, 0xE9, 0x03, // SHR CX, 3
    0x6B, 0xF0, 0x03, // IMUL SI, AX, 3
    0xA3, 0x14, 0x00, // MOV [20], AX
    0x8B, 0x3E, 0x14, 0x00, // MOV DI, [20]
    0xA8, 0x01, 0xF7, 0xDA, // TEST AL, 1; NEG DX
    0xEB, 0xD9, // JMP to the first
];

/// Calls and returns, near and far, and a frame, and a jump to the first.
pub static CALLS: [u8; 16] = [
    0xE8, 0x0B, 0x00, // CALL the RET
    0x0E, 0xE8, 0x08, 0x00, // PUSH CS, CALL the RETF
    0xC8, 0x04, 0x00, 0x00, // ENTER 4, 0
    0xC9, // LEAVE
    0xEB, 0xF2, // JMP to the first
    0xC3, // RET
    0xCB, // RETF
];

/// REP MOVSW of 64 words, and a jump to the first; each repetition is a step.
pub static STRINGS: [u8; 13] = [
    0xBE, 0x00, 0x00, // MOV SI, 0
    0xBF, 0x00, 0x04, // MOV DI, 1024
    0xB9, 0x40, 0x00, // MOV CX, 64
    0xF3, 0xA5, // REP MOVSW
    0xEB, 0xF3, // JMP to the first
];

/// Code at 000F, data at 0017 and a stack at 001F, of which all is free.
pub fn start() -> Cpu {
    Cpu {
        ax: 0,
        cx: 0,
        dx: 0,
        bx: 0,
        sp: 4096,
        bp: 0,
        si: 0,
        di: 0,
        ip: 0,
        flags: 2,
        cs: 15,
        ds: 23,
        es: 23,
        ss: 31,
    }
}

/// Process 1 holds these bytes under an index.
fn hold(
    plain: &mut Plain,
    alloc: Global,
    index: u16,
    bytes: Vec<u8>,
    access: Access,
) -> Result<(), NoMemory>
    requires some { 0 < length bytes.items }
    requires small { length bytes.items ≤ 65536 }
{
    let name = plain.add(bytes)?;
    plain.hold(alloc, 1, index, name, access.0)
}

/// Process 1 holds this code, data and a stack.
fn hold_all(plain: &mut Plain, alloc: Global, code: &[u8]) -> Result<(), NoMemory> {
    if code.len() == 0 || code.len() > 4096 {
        return Err(NoMemory);
    }
    let code = code.to_vec(alloc)?;
    hold(plain, alloc, 1, code, Access::READABLE_CODE)?;
    for index in 2u16..4 {
        let zeros = vec![in alloc; 0u8; 4096]?;
        hold(plain, alloc, index, zeros, Access::WRITABLE_DATA)?;
    }
    Ok(())
}

// So many steps with a bus for each; the answer is how many were done.
fn each_in(plain: &mut Plain, cpu: &mut Cpu, steps: u64) -> u64 {
    let mut done = 0u64;
    for _ in 0..steps {
        match step_plain(plain, 1, cpu) {
            Outcome::Done => done = done.wrapping_add(1),
            _ => {}
        }
    }
    done
}

/// So many steps of this code, over one bus or with a bus for each; the answer is how many were done.
pub fn step_many(alloc: Global, code: &[u8], steps: u64, each: bool) -> Result<u64, NoMemory> {
    let mut plain = Plain::new(alloc)?;
    hold_all(&mut plain, alloc, code)?;
    let mut cpu = start();
    if each {
        return Ok(each_in(&mut plain, &mut cpu, steps));
    }
    let mut bus = plain.bus(1, &cpu);
    Ok(count_done(&mut cpu, &mut bus, steps))
}
