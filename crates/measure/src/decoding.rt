// Decoding of an instruction.

use o2_decode::{Decoded, decode};

/// Code as a compiler of the time writes it, with each kind of operand, and zeros behind it.
static CODE: [u8; 87] = [
    0x55, // PUSH BP
    0x8B, 0xEC, // MOV BP, SP
    0x83, 0xEC, 0x10, // SUB SP, 16
    0x56, // PUSH SI
    0x57, // PUSH DI
    0x8B, 0x76, 0x04, // MOV SI, [BP+4]
    0x8B, 0x86, 0x34, 0x12, // MOV AX, [BP+1234h]
    0x26, 0x8A, 0x07, // MOV AL, ES:[BX]
    0x3D, 0x05, 0x00, // CMP AX, 5
    0x74, 0x10, // JE
    0x33, 0xC0, // XOR AX, AX
    0xA1, 0x20, 0x01, // MOV AX, [0120h]
    0xC7, 0x46, 0xFE, 0x01, 0x00, // MOV WORD PTR [BP-2], 1
    0xF3, 0xA5, // REP MOVSW
    0xC4, 0x5E, 0x06, // LES BX, [BP+6]
    0x9A, 0x00, 0x00, 0xA3, 0x00, // CALL FAR 00A3:0000
    0xE8, 0x10, 0x00, // CALL
    0xFF, 0x76, 0x08, // PUSH WORD PTR [BP+8]
    0xD1, 0xE0, // SHL AX, 1
    0xC1, 0xE8, 0x04, // SHR AX, 4
    0x69, 0x06, 0x34, 0x12, 0x0A, 0x00, // IMUL AX, [1234h], 10
    0xF7, 0xF1, // DIV CX
    0x8E, 0xC0, // MOV ES, AX
    0x40, // INC AX
    0xE2, 0xF0, // LOOP
    0x0F, 0x02, 0xC0, // LAR AX, AX
    0x5F, // POP DI
    0x5E, // POP SI
    0xC9, // LEAVE
    0xCB, // RETF
    0x00, 0x00, 0x00, 0x00, 0x00, 0x00, 0x00, 0x00, 0x00, 0x00, 0x00, 0x00, 0x00,
];

const LENGTH: usize = 74;

/// Decodes the code so many times, and counts the instructions.
pub fn decode_many(rounds: u64) -> u64 {
    let mut done: u64 = 0;
    for _ in 0..rounds {
        let mut at: usize = 0;
        for _ in 0..80u8 {
            if at >= LENGTH {
                break;
            }
            match decode(&CODE[at..at + 10]) {
                Decoded::One(_, length) => {
                    at += length as usize;
                    done = done.wrapping_add(1);
                }
                _ => break,
            }
        }
    }
    done
}
