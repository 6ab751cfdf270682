// The executable whose processes a bench runs.
ghost use Rattle.std.specs.Prelude.{◌≡◌, IfOk, Ok};
ghost use Rattle.o2_image.specs.Modules.{module_of};
ghost use Rattle.o2_gen.specs.BenchFile.{bench_file};
ghost use Rattle.o2_gen.specs.BenchModule.{bench_module};

use o2_base::{Bytes, NoMemory};
use std::alloc::Global;

/// The file, part by part: the segments stand at 176 and 320.
static FILE: [u8; 384] = [
    // the MZ header: the NE header stands at 64
    b'M', b'Z', 0, 0, 0, 0, 0, 0, 0, 0, 0, 0, 0, 0, 0, 0, 0, 0, 0, 0, 0, 0, 0, 0, 0, 0, 0, 0, 0, 0,
    0, 0, 0, 0, 0, 0, 0, 0, 0, 0, 0, 0, 0, 0, 0, 0, 0, 0, 0, 0, 0, 0, 0, 0, 0, 0, 0, 0, 0, 0, 64,
    0, 0, 0,
    // the NE header: the linker's version; entry table; no checksum
    b'N', b'E', 5, 0, 101, 0, 0, 0, 0, 0, 0, 0,
    // a program with data for each process, which is segment 2; heap 0, stack 512
    2, 0, 2, 0, 0, 0, 0, 2,
    // IP and CS, SP and SS; how many segments and references; no nonresident names
    0, 0, 1, 0, 0, 0, 2, 0, 2, 0, 1, 0, 0, 0,
    // segments, resources, resident names, references, imported names, nonresident names
    64, 0, 80, 0, 80, 0, 89, 0, 91, 0, 0, 0, 0, 0,
    // movable entries, shift, resources, OS/2
    0, 0, 4, 0, 0, 0, 1, 0, 0, 0, 0, 0, 0, 0, 0, 0,
    // segment 1, code of 105 bytes with relocations at 176; segment 2, data of 64 bytes at 320
    11, 0, 105, 0, 0x00, 0x0D, 105, 0, 20, 0, 64, 0, 0x01, 0x0C, 64, 0,
    // the resident names, the reference, the imported names
    5, b'B', b'E', b'N', b'C', b'H', 0, 0, 0, 1, 0, 0, 8, b'D', b'O', b'S', b'C', b'A', b'L', b'L',
    b'S', 0, 0, 0, 0, 0, 0, 0, 0, 0, 0, 0,
    // mov cx,8; mov di,16
    0xB9, 8, 0, 0xBF, 16, 0,
    // A: push 2000h; push ds; push 0; push 0; call far DosAllocSeg
    0x68, 0x00, 0x20, 0x1E, 0x6A, 0, 0x6A, 0, 0x9A, 0xFF, 0xFF, 0, 0,
    // mov ax,[0]; mov [di],ax; add di,2; loop A
    0xA1, 0, 0, 0x89, 0x05, 0x83, 0xC7, 2, 0xE2, 0xE9,
    // mov dx,50; B: mov si,16; mov cx,8
    0xBA, 50, 0, 0xBE, 16, 0, 0xB9, 8, 0,
    // C: mov es,[si]; inc word es:[0]; add si,2; loop C
    0x8E, 0x04, 0x26, 0xFF, 0x06, 0, 0, 0x83, 0xC6, 2, 0xE2, 0xF4,
    // dec dx; jnz B
    0x4A, 0x75, 0xEB,
    // mov si,16; mov cx,8
    0xBE, 16, 0, 0xB9, 8, 0,
    // D: mov es,[si]; cmp word es:[0],50; jne F; add si,2; loop D
    0x8E, 0x04, 0x26, 0x83, 0x3E, 0, 0, 50, 0x75, 0x1D, 0x83, 0xC6, 2, 0xE2, 0xF1,
    // E: push 1; push ds; push 6; push 1; push ds; push 4; call far DosWrite
    0x6A, 1, 0x1E, 0x6A, 6, 0x6A, 1, 0x1E, 0x6A, 4, 0x9A, 0xFF, 0xFF, 0, 0,
    // push 1; push 0; call far DosExit
    0x6A, 1, 0x6A, 0, 0x9A, 0xFF, 0xFF, 0, 0,
    // F: mov byte [6],'!'; jmp E
    0xC6, 0x06, 6, 0, b'!', 0xEB, 0xE1,
    // three far imports by ordinal from the reference: DosAllocSeg, DosWrite, DosExit
    3, 0, 3, 1, 0x0F, 0, 1, 0, 34, 0, 3, 1, 0x55, 0, 1, 0, 138, 0, 3, 1, 0x5E, 0, 1, 0, 5, 0, 0, 0,
    0, 0, 0, 0, 0, 0, 0, 0, 0, 0, 0,
    // the data: the byte at 6 is written
    0, 0, 0, 0, 0, 0, b'.', 0, 0, 0, 0, 0, 0, 0, 0, 0, 0, 0, 0, 0, 0, 0, 0, 0, 0, 0, 0, 0, 0, 0, 0,
    0, 0, 0, 0, 0, 0, 0, 0, 0, 0, 0, 0, 0, 0, 0, 0, 0, 0, 0, 0, 0, 0, 0, 0, 0, 0, 0, 0, 0, 0, 0, 0,
    0,
];

/// The bytes of `bench.exe`: the program BENCH, with a code segment of 105 bytes and automatic data of 64, by the segmented executable
/// format. Memory for them may be wanted.
#[tactic(auto, unfolding(crate::specs::BenchFile::bench_file, crate::specs::BenchCode::bench_code, crate::specs::BenchCode::bench_data))]
pub fn module(alloc: Global) -> Result<Bytes, NoMemory>
    ensures exact { IfOk result (λ b. b ≡ bench_file) }
    ensures reads { IfOk result (λ b. module_of b ≡ Ok bench_module) }
{
    Bytes::from_slice(alloc, &FILE)
}
