// What the process holds in each table, and its registers before a row.

use o2_bus::Cpu;

/// Which bytes a segment has.
#[derive(Clone, Copy)]
pub enum Content {
    /// Those of the instruction.
    Code,
    /// Those of the row.
    Data,
    /// Those that the table's data have.
    Filler,
}

/// A segment: its access byte, its bytes, and whether it is present in the plain memory.
#[derive(Clone, Copy)]
pub struct Part(pub u8, pub Content, pub bool);

/// What the process holds.
#[derive(Clone, Copy)]
pub struct Layout {
    /// The segments of the indexes from 1 on.
    pub parts: &'static [Part],
    /// The selector of the data.
    pub data: u16,
    /// The bytes of the data, but for those that a row names.
    pub bytes: &'static [u8; 64],
    /// How many bytes the code has; 0 for those of the instruction.
    pub code: usize,
    /// How many bytes a filler has.
    pub filler: usize,
    /// The registers, but for those that a row names.
    pub cpu: Cpu,
}

static PATTERN: [u8; 64] = [
    1, 4, 7, 10, 13, 16, 19, 22, 25, 28, 31, 34, 37, 40, 43, 46, 49, 52, 55, 58, 61, 64, 67, 70,
    73, 76, 79, 82, 85, 88, 91, 94, 97, 100, 103, 106, 109, 112, 115, 118, 121, 124, 127, 130, 133,
    136, 139, 142, 145, 148, 151, 154, 157, 160, 163, 166, 169, 172, 175, 178, 181, 184, 187, 190,
];

static ZEROS: [u8; 64] = [0; 64];

/// The word 003F at 0 and at 16.
static WORDS: [u8; 64] = [
    63, 0, 0, 0, 0, 0, 0, 0, 0, 0, 0, 0, 0, 0, 0, 0, 63, 0, 0, 0, 0, 0, 0, 0, 0, 0, 0, 0, 0, 0, 0,
    0, 0, 0, 0, 0, 0, 0, 0, 0, 0, 0, 0, 0, 0, 0, 0, 0, 0, 0, 0, 0, 0, 0, 0, 0, 0, 0, 0, 0, 0, 0, 0,
    0,
];

/// Code, data, read-only data, data that isn't present, code that can't be read, and data.
static DATA_PARTS: [Part; 6] = [
    Part(0xFA, Content::Code, true),
    Part(0xF2, Content::Data, true),
    Part(0xF0, Content::Filler, true),
    Part(0xF2, Content::Filler, false),
    Part(0xF8, Content::Filler, true),
    Part(0xF2, Content::Filler, true),
];

/// Code, data, read-only data, code, code that can't be read, and data and code that aren't present.
static FLOW_PARTS: [Part; 7] = [
    Part(0xFA, Content::Code, true),
    Part(0xF2, Content::Data, true),
    Part(0xF0, Content::Filler, true),
    Part(0xFA, Content::Filler, true),
    Part(0xF8, Content::Filler, true),
    Part(0xF2, Content::Filler, false),
    Part(0xFA, Content::Filler, false),
];

/// Code that can be read and that can't, data that can be written and that can't, and the same again, not present.
static STEP_PARTS: [Part; 8] = [
    Part(0xFA, Content::Code, true),
    Part(0xF8, Content::Code, true),
    Part(0xF2, Content::Data, true),
    Part(0xF0, Content::Data, true),
    Part(0xFA, Content::Code, false),
    Part(0xF8, Content::Code, false),
    Part(0xF2, Content::Data, false),
    Part(0xF0, Content::Data, false),
];

/// The table of the data instructions.
pub fn data_table() -> Layout {
    Layout {
        parts: &DATA_PARTS,
        data: 0x17,
        bytes: &PATTERN,
        code: 10,
        filler: 64,
        cpu: Cpu {
            ax: 0x1234,
            cx: 0x5678,
            dx: 0x9ABC,
            bx: 0x10,
            sp: 0x20,
            bp: 0x30,
            si: 8,
            di: 4,
            ip: 0,
            flags: 0x202,
            cs: 0x0F,
            ds: 0x17,
            es: 0x1F,
            ss: 0x17,
        },
    }
}

/// The table of the flow and string instructions.
pub fn flow_table() -> Layout {
    Layout {
        parts: &FLOW_PARTS,
        data: 0x17,
        bytes: &ZEROS,
        code: 64,
        filler: 16,
        cpu: Cpu {
            ax: 0,
            cx: 0,
            dx: 0,
            bx: 0,
            sp: 0x20,
            bp: 0x30,
            si: 8,
            di: 0x10,
            ip: 0,
            flags: 2,
            cs: 0x0F,
            ds: 0x17,
            es: 0x17,
            ss: 0x17,
        },
    }
}

/// The table of steps of code that is as long as its instruction.
pub fn steps_table() -> Layout {
    Layout {
        parts: &STEP_PARTS,
        data: 0x1F,
        bytes: &WORDS,
        code: 0,
        filler: 0,
        cpu: Cpu {
            ax: 0,
            cx: 0x1234,
            dx: 0,
            bx: 0,
            sp: 16,
            bp: 0,
            si: 0,
            di: 0,
            ip: 0,
            flags: 2,
            cs: 0x0F,
            ds: 0x27,
            es: 0,
            ss: 0x1F,
        },
    }
}

/// The table of loads, over the segments of the steps.
pub fn loads_table() -> Layout {
    Layout {
        code: 8,
        ..steps_table()
    }
}
