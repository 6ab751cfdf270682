// A row of a table of instructions: from what one step begins, and what it comes to.

use crate::layouts::{Content, Layout};
use o2_base::Selector;
use o2_bus::{Cpu, Outcome};

/// Registers, and the bytes of the data.
#[derive(Clone, Copy)]
pub struct Scene {
    pub cpu: Cpu,
    pub data: [u8; 64],
}

impl Scene {
    pub fn is(&self, other: &Scene) -> bool {
        self.cpu == other.cpu && self.data == other.data
    }

    /// Takes these bytes as the data. None where there aren't 64.
    pub fn take_data(&mut self, bytes: &[u8]) -> Option<()> {
        if bytes.len() != 64 {
            return None;
        }
        self.data.copy_from_slice(bytes);
        Some(())
    }
}

/// One step.
#[derive(Clone, Copy)]
pub struct Row {
    /// The first bytes of the code.
    pub code: [u8; 64],
    /// How many there are.
    pub length: usize,
    pub before: Scene,
    /// The selector that is missed where what the step loads isn't present.
    pub missed: Option<Selector>,
    /// What the step comes to where all is present.
    pub answer: Outcome,
    pub after: Scene,
}

/// The first bytes, and none where there are fewer.
fn front(bytes: &[u8; 64], count: usize) -> &[u8] {
    match bytes.get(..count) {
        Some(front) => front,
        None => &[],
    }
}

/// The bytes of a segment.
pub fn bytes_in<'a>(row: &'a Row, layout: &'a Layout, which: Content) -> &'a [u8] {
    match which {
        Content::Code => front(&row.code, row.length),
        Content::Data => &row.before.data,
        Content::Filler => front(layout.bytes, layout.filler),
    }
}

/// A number in hexadecimal.
pub fn word(token: &str) -> u16 {
    u16::from_str_radix(token, 16).unwrap_or(0xDEAD)
}

/// A word into the data.
fn put_word(data: &mut [u8; 64], at: u16, value: u16) {
    let at = at as usize;
    if at < 63 {
        data[at] = (value % 256) as u8;
        data[at + 1] = (value / 256) as u8;
    }
}

fn put_register(cpu: &mut Cpu, place: &str, value: u16) {
    match place {
        "AX" => cpu.ax = value,
        "CX" => cpu.cx = value,
        "DX" => cpu.dx = value,
        "BX" => cpu.bx = value,
        "SP" => cpu.sp = value,
        "BP" => cpu.bp = value,
        "SI" => cpu.si = value,
        "DI" => cpu.di = value,
        "IP" => cpu.ip = value,
        "F" => cpu.flags = value,
        "CS" => cpu.cs = value,
        "DS" => cpu.ds = value,
        "ES" => cpu.es = value,
        "SS" => cpu.ss = value,
        _ => {}
    }
}

fn put(scene: &mut Scene, place: &str, value: u16) {
    match place.strip_prefix("M") {
        Some(at) => put_word(&mut scene.data, word(at), value),
        None => put_register(&mut scene.cpu, place, value),
    }
}

/// A scene with other values at places, as `AX=1234`.
fn with(scene: &Scene, changes: &str) -> Scene {
    let mut next = *scene;
    for token in changes.split_ascii_whitespace() {
        if let Some((place, value)) = token.split_once('=') {
            put(&mut next, place, word(value));
        }
    }
    next
}

/// The bytes of an instruction at a place, with NOP around it, and the place behind it.
fn code_of(ip: u16, text: &str) -> ([u8; 64], u16) {
    let mut code = [0x90u8; 64];
    let mut at = ip;
    for token in text.split_ascii_whitespace() {
        if at < 64 {
            code[at as usize] = (word(token) % 256) as u8;
            at += 1;
        }
    }
    (code, at)
}

fn outcome_of(text: &str) -> Outcome {
    let mut tokens = text.split_ascii_whitespace();
    match (tokens.next(), tokens.next(), tokens.next()) {
        (Some("trap"), Some(vector), Some(code)) => {
            Outcome::Trap((word(vector) % 256) as u8, word(code))
        }
        (Some("gate"), Some(service), Some(next)) => Outcome::Gate {
            service: word(service),
            next: word(next),
        },
        _ => Outcome::Done,
    }
}

fn missed_of(text: &str) -> Option<Selector> {
    let sel = text.trim().strip_prefix("miss ")?;
    Some(Selector(word(sel)))
}

/// What is missed, as `miss 27; ..`, and what the step comes to, as `trap D 0` or `gate 4 5`.
fn answer_of(text: &str) -> (Option<Selector>, Outcome) {
    match text.split_once(';') {
        Some((first, then)) => (missed_of(first), outcome_of(then)),
        None => (None, outcome_of(text)),
    }
}

/// The row of a line.
pub fn row_of(line: &str, layout: &Layout) -> Option<Row> {
    let (_, rest) = line.split_once('|')?;
    let (instruction, rest) = rest.split_once('|')?;
    let (begin, rest) = rest.split_once('|')?;
    let (answer, end) = rest.split_once('|')?;
    let base = Scene {
        cpu: layout.cpu,
        data: *layout.bytes,
    };
    let before = with(&base, begin);
    let (code, next) = code_of(before.cpu.ip, instruction);
    let (missed, answer) = answer_of(answer);
    Some(Row {
        code,
        length: if layout.code == 0 {
            next as usize
        } else {
            layout.code
        },
        before,
        missed,
        answer,
        after: with(&before, end),
    })
}
