// The opcode map of the Intel 80286 Programmer's Reference Manual, as kinds and lengths.

ghost use Rattle.std.specs.Prelude.{◌≤◌, length, IfOk};

/// What bytes begin with.
#[derive(Clone, Copy, Debug, PartialEq, Eq)]
pub enum Reading {
    One(usize),
    Invalid,
    TooLong,
    Need,
}

/// For each opcode of one byte how many bytes follow it: a number, or with a ModRM byte `m` none, `b` one or `w` two
/// behind it, `t` one or `T` two behind it where reg is 0 or 1 and none else; `.` is no instruction, `p` a prefix,
/// and `x` has a second byte.
static MAP: [&[u8; 16]; 16] = [
    // 0 1 2 3 4 5 6 7 8 9 A B C D E F
    b"mmmm1200mmmm120x",
    b"mmmm1200mmmm1200",
    b"mmmm12p0mmmm12p0",
    b"mmmm12p0mmmm12p0",
    b"0000000000000000",
    b"0000000000000000",
    b"00mm....2w1b0000",
    b"1111111111111111",
    b"bw.bmmmmmmmmmmmm",
    b"0000000000400000",
    b"2222000012000000",
    b"1111111122222222",
    b"bb20mmbw30200100",
    b"mmmm11.0mmmmmmmm",
    b"1111111122410000",
    b"p.pp00tT000000mm",
];

/// The opcodes that take not each ModRM byte: a mask of the numbers that reg may be, and one of those with memory alone.
static REGS: [(u8, u8, u8); 18] = [
    (0x62, 0xFF, 0xFF), // BOUND
    (0x8C, 0x0F, 0x00), // MOV Ew, segment register
    (0x8D, 0xFF, 0xFF), // LEA
    (0x8E, 0x0D, 0x00), // MOV segment register, Ew
    (0x8F, 0x01, 0x00), // POP
    (0xC0, 0xBF, 0x00), // shifts
    (0xC1, 0xBF, 0x00),
    (0xC4, 0xFF, 0xFF), // LES
    (0xC5, 0xFF, 0xFF), // LDS
    (0xC6, 0x01, 0x00), // MOV
    (0xC7, 0x01, 0x00),
    (0xD0, 0xBF, 0x00), // shifts
    (0xD1, 0xBF, 0x00),
    (0xD2, 0xBF, 0x00),
    (0xD3, 0xBF, 0x00),
    (0xF6, 0xFD, 0x00), // TEST and the mnemonics of one operand
    (0xF7, 0xFD, 0x00),
    (0xFE, 0x03, 0x00), // INC and DEC
];

fn masks(first: u8, second: u8) -> (u8, u8) {
    match (first, second) {
        (0xFF, _) => return (0x7F, 0x28),
        (0x0F, 0) => return (0x3F, 0x00),
        (0x0F, 1) => return (0x5F, 0x0F),
        _ => {}
    }
    for (opcode, numbers, memory) in &REGS {
        if *opcode == first {
            return (*numbers, *memory);
        }
    }
    (0xFF, 0x00)
}

fn bit(mask: u8, number: u8) -> bool {
    (mask >> (number % 8)) % 2 == 1
}

// how many bytes come behind the ModRM byte for its displacement
fn displacement(modrm: u8) -> usize
    ensures { result ≤ 2 }
{
    match (modrm / 64, modrm % 8) {
        (0, 6) => 2,
        (1, _) => 1,
        (2, _) => 2,
        _ => 0,
    }
}

// how many bytes follow an opcode of this kind, by its ModRM byte
fn following(kind: u8, first: u8, second: u8, modrm: Option<&u8>) -> Result<usize, Reading>
    ensures { IfOk result (λ n. n ≤ 5) }
{
    let plain = match kind {
        b'.' => return Err(Reading::Invalid),
        b'0'..=b'4' => return Ok((kind - b'0') as usize),
        b'b' => 1,
        b'w' => 2,
        _ => 0,
    };
    let m = match modrm {
        None => return Err(Reading::Need),
        Some(m) => *m,
    };
    let reg = m / 8 % 8;
    let (numbers, memory) = masks(first, second);
    if !bit(numbers, reg) || (bit(memory, reg) && m >= 0xC0) {
        return Err(Reading::Invalid);
    }
    let immediate = match (kind, reg) {
        (b't', 0) => 1,
        (b'T', 0) => 2,
        _ => plain,
    };
    Ok(1 + displacement(m) + immediate)
}

// how many bytes the opcode and what follows it have
fn whole(bytes: &[u8]) -> Result<usize, Reading>
    ensures { IfOk result (λ n. n ≤ 7) }
{
    match bytes {
        [] | [0x0F] => Err(Reading::Need),
        [0x0F, b, ..] => {
            let kind = match *b {
                0..=3 => b'm',
                6 => b'0',
                _ => b'.',
            };
            Ok(2 + following(kind, 0x0F, *b, bytes.get(2))?)
        }
        [b, ..] => {
            let kind = MAP[(*b / 16) as usize][(*b % 16) as usize];
            Ok(1 + following(kind, *b, 0, bytes.get(1))?)
        }
    }
}

fn prefixes(bytes: &[u8]) -> usize
    ensures { result ≤ length bytes.now }
{
    for (i, b) in bytes.iter().enumerate() {
        if MAP[(*b / 16) as usize][(*b % 16) as usize] != b'p' {
            return i;
        }
    }
    bytes.len()
}

/// What at most ten bytes begin with.
pub fn expected(bytes: &[u8]) -> Reading
    requires { length bytes.now ≤ 10 }
{
    let before = prefixes(bytes);
    let want = match whole(&bytes[before..]) {
        Ok(length) if before + length <= bytes.len() => Reading::One(before + length),
        Ok(_) => Reading::Need,
        Err(reading) => reading,
    };
    if want == Reading::Need && bytes.len() == 10 {
        Reading::TooLong
    } else {
        want
    }
}
