// One line of the report, in room that is reserved once.
ghost use Rattle.std.specs.Prelude.{◌≡◌, ◌≤◌, ◌<◌, ◌+◌, ◌++◌, [], ◌∷◌, List, ℕ, length, decimal, IfOk, vec_capacity};
ghost use Rattle.o2_world.specs.Text.{hex_digit as glyph, hex4, far};

use o2_base::NoMemory;
use std::alloc::Global;
use std::marker::Model;

/// How many bytes a line has at most: a number, a module's name of 255 bytes, or a call's name with its arguments and values.
const ROOM: usize = 640;

/// The bytes of one line, 640 at most. Its room is taken when it is made, and no later call takes memory.
#[derive(Drop)]
pub struct LineBuffer {
    bytes: Vec<u8>,
}

impl Model for LineBuffer {
    ghost Value = { List ℕ };

    ghost view = { λ b. b.bytes.items };

    ghost invariant = { λ b. 640 ≤ vec_capacity b.bytes };
}

fn hex_digit(d: u16) -> u8
    requires { d < 16 }
    ensures { result ≡ glyph d }
{
    let d = d as u8;
    if d < 10 { b'0' + d } else { b'A' + (d - 10) }
}

impl LineBuffer {
    /// An empty line.
    pub fn new(alloc: Global) -> Result<Self, NoMemory>
        ensures { IfOk result (λ b. b ≡ []) }
    {
        let bytes = Vec::with_capacity(alloc, ROOM)?;
        Ok(LineBuffer { bytes })
    }

    /// Its bytes.
    pub fn as_slice(&self) -> &[u8]
        ensures { result.now ≡ self.now }
    {
        &self.bytes
    }

    /// Takes all bytes away.
    pub fn clear(&mut self)
        ensures { self.new ≡ [] }
    {
        self.bytes.clear();
    }

    /// Adds bytes.
    pub fn push_text(&mut self, text: &[u8])
        requires { length self.old + length text.now ≤ 640 }
        ensures text { self.new ≡ self.old ++ text.now }
        ensures len { length self.new ≡ length self.old + length text.now }
    {
        let _ = self.bytes.extend_from_slice(text);
    }

    /// Adds a byte.
    pub fn push_byte(&mut self, byte: u8)
        requires { length self.old < 640 }
        ensures text { self.new ≡ self.old ++ byte ∷ [] }
        ensures len { length self.new ≡ length self.old + 1 }
    {
        let _ = self.bytes.push(byte);
    }

    /// Adds four upper-case hexadecimal digits.
    #[tactic(auto, unfolding(o2_world::specs::Text::hex4), using(std::proofs::lemmas::Grind::common_steps))]
    pub fn push_hex4(&mut self, n: u16)
        requires { length self.old + 4 ≤ 640 }
        ensures text { self.new ≡ self.old ++ hex4 n }
        ensures len { length self.new ≡ length self.old + 4 }
    {
        self.push_byte(hex_digit(n / 4096));
        self.push_byte(hex_digit(n / 256 % 16));
        self.push_byte(hex_digit(n / 16 % 16));
        self.push_byte(hex_digit(n % 16));
    }

    /// Adds a far pointer, selector and offset.
    pub fn push_far(&mut self, selector: u16, offset: u16)
        requires { length self.old + 9 ≤ 640 }
        ensures text { self.new ≡ self.old ++ far selector offset }
        ensures len { length self.new ≡ length self.old + 9 }
    {
        self.push_hex4(selector);
        self.push_byte(b':');
        self.push_hex4(offset);
    }

    /// Adds a decimal number.
    #[tactic(auto, using(crate::proofs::Decimal::length_most))]
    pub fn push_number(&mut self, n: u64)
        requires { length self.old + 20 ≤ 640 }
        ensures text { self.new ≡ self.old ++ decimal n }
        ensures most { length self.new ≤ length self.old + 20 }
    {
        self.push_decimal(n);
    }

    #[tactic(auto, using(crate::proofs::Decimal::decimal_more, crate::proofs::Decimal::length_more, crate::proofs::Decimal::decimal_one, crate::proofs::Decimal::length_one))]
    fn push_decimal(&mut self, n: u64)
        requires { length self.old + length (decimal n) ≤ 640 }
        ensures { self.new ≡ self.old ++ decimal n }
    {
        if n < 10 {
            self.push_byte(b'0' + n as u8);
        } else {
            self.push_decimal(n / 10);
            self.push_byte(b'0' + (n % 10) as u8);
        }
    }
}
