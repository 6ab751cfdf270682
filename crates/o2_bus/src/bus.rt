// What an instruction asks of the segments of its process.
ghost use Rattle.std.specs.Prelude.{◌≡◌, ◌<◌, ◌≤◌, true, length, take, drop, IsOk, IfOk, IfNone, IfSome};
ghost use Rattle.o2_isa.specs.declared.instr.Width.TheVariants.{Byte};
ghost use Rattle.o2_bus.specs.Tens.{ten_of};
ghost use Rattle.o2_isa.specs.Sizes.{IsSized};
ghost use Rattle.o2_isa.specs.View.{View, probe_of, is_loadable, bind, read_of, room_of, poke, size_at, rights_at, fetched, SameRoom};

use crate::TenBytes;
use o2_base::Selector;
use o2_isa::{Loaded, Purpose, Sreg, Width};

/// The hidden parts of the four segment registers, in the order of `Sreg`.
#[derive(Clone, Copy, Debug, PartialEq, Eq)]
pub struct Caches {
    /// The place of the first byte in memory.
    pub base: [u32; 4],
    /// The size less 1.
    pub limit: [u16; 4],
    /// The access byte.
    pub access: [u8; 4],
}

/// The segments of one process, as its processor sees them. Contracts see a bus as its `view`. By the law `sized` each name that
/// is present has as many bytes as its size says, 65,536 at most.
pub trait Bus {
    ghost view: { Self → View };

    /// The bytes that CS has from `ip` on, ten at most, go to the front of `into`; the answer is their number. The rest of
    /// `into` stays.
    fn fetch(&self, ip: u16, into: &mut [u8; 10]) -> usize
        ensures count { result ≡ length (fetched (view self.now) ip) }
        ensures within { result ≤ 10 }
        ensures bytes { take result into.new ≡ fetched (view self.now) ip }
        ensures rest { drop result into.new ≡ drop result into.old };

    /// The ten bytes that CS has from `ip` on. None exactly where there are fewer.
    fn ten(&self, ip: u16) -> Option<TenBytes>
        ensures some { IfSome result (λ t. ten_of t ≡ fetched (view self.now) ip) }
        ensures none { IfNone result (length (fetched (view self.now) ip) < 10) };

    /// The load rules, and then the present test. Accessed bits alone may change, and the view has none.
    fn probe(&mut self, purpose: Purpose, sel: Selector) -> Loaded
        ensures value { result ≡ probe_of (view self.old) purpose sel }
        ensures same { view self.new ≡ view self.old };

    /// Puts a selector that `probe` has passed into a segment register.
    fn load(&mut self, reg: Sreg, sel: Selector)
        requires { is_loadable (view self.old) sel ≡ true }
        ensures { view self.new ≡ bind (view self.old) reg sel };

    /// The byte or word at an offset, or the exception and its error code.
    fn read(&self, reg: Sreg, off: u16, width: Width) -> Result<u16, (u8, u16)>
        ensures value { result ≡ read_of (view self.now) reg off width }
        ensures fits { IfOk result (λ x. width ≡ Width.Byte → x < 256) };

    /// Whether a byte or word may be written there; if not, the exception and its error code.
    fn room(&self, reg: Sreg, off: u16, width: Width) -> Result<(), (u8, u16)>
        ensures { SameRoom result (room_of (view self.now) reg off width) };

    /// Writes a byte or word where `room` has found room, and changes nothing else.
    fn write(&mut self, reg: Sreg, off: u16, width: Width, value: u16)
        requires room { IsOk (room_of (view self.old) reg off width) }
        requires fits { width ≡ Width.Byte → value < 256 }
        ensures { view self.new ≡ poke (view self.old) reg off width value };

    /// The size in bytes of the segment that a selector names, 65,536 at most. None exactly where it names none.
    fn size_of(&self, sel: Selector) -> Option<u32>
        ensures { result ≡ size_at (view self.now) sel.0 };

    /// The access byte of the segment that a selector names, with present and accessed read as 1, and E4 for a gate. None
    /// exactly where it names neither.
    fn rights_of(&self, sel: Selector) -> Option<u8>
        ensures { result ≡ rights_at (view self.now) sel.0 };

    ghost sized: { (b : Self) → IsSized (view b) };
}
