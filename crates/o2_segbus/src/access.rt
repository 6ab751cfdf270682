// Accesses to memory through the descriptor in a register.
ghost use Rattle.std.specs.Prelude.{◌≡◌, ◌+◌, ◌≤◌, ◌<◌, ◌^◌, length, take, drop, IfNone, IfOk, IfSome, true};
ghost use Rattle.o2_bus.specs.Tens.{ten_of};
ghost use Rattle.o2_isa.specs.declared.instr.Width.TheVariants.{Byte};
ghost use Rattle.o2_isa.specs.View.{is_readable, width_len, put_at, SameRoom};
ghost use Rattle.o2_phys.specs.Bytes.{part, with_part};
ghost use Rattle.o2_segbus.specs.Words.{read_by, room_by, bytes_by, IsInside};

use o2_bus::{TenBytes, first_bytes, len_of, outside_of, put_in, value_in};
use o2_desc::{Access, Descriptor};
use o2_isa::{Sreg, Width};
use o2_store::Store;

/// How many bytes a byte or word has behind its first one.
#[inline(always)]
fn behind_first(width: Width) -> u32
    ensures value { result + 1 ≡ width_len width }
    ensures few { result ≤ 1 }
{
    match width {
        Width::Byte => 0,
        Width::Word => 1,
    }
}

/// Whether a byte or word may be written through a descriptor; if not, the exception and its error code.
#[inline(always)]
pub(crate) fn room(d: &Descriptor, reg: Sreg, off: u16, width: Width) -> Result<(), (u8, u16)>
    ensures { SameRoom result (room_by d.now reg off width) }
{
    if !Access(d.access).is_writable() {
        return Err((13, 0));
    }
    if off as u32 + behind_first(width) <= d.limit as u32 {
        Ok(())
    } else {
        Err(outside_of(reg))
    }
}

/// The byte or word at an offset of the segment of a descriptor, or the exception and its error code.
#[inline(always)]
pub(crate) fn read(
    memory: &[u8],
    d: &Descriptor,
    reg: Sreg,
    off: u16,
    width: Width,
) -> Result<u16, (u8, u16)>
    requires inside { is_readable d.now.access ≡ true → d.now.base + (d.now.limit + 1) ≤ length memory.now }
    ensures value { result ≡ read_by memory.now d.now reg off width }
    ensures fits { IfOk result (λ x. width ≡ Width.Byte → x < 256) }
{
    if !Access(d.access).is_readable() {
        return Err((13, 0));
    }
    if off as u32 + behind_first(width) <= d.limit as u32 {
        Ok(value_in(memory, d.base as usize + off as usize, width))
    } else {
        Err(outside_of(reg))
    }
}

/// Up to ten bytes from an offset on, to the front of `into`.
pub(crate) fn front(memory: &[u8], d: &Descriptor, ip: u16, into: &mut [u8; 10]) -> usize
    requires inside { IsInside memory.now d.now }
    ensures count { result ≡ length (take 10 (drop ip (bytes_by memory.now d.now))) }
    ensures within { result ≤ 10 }
    ensures bytes { take result into.new ≡ take 10 (drop ip (bytes_by memory.now d.now)) }
    ensures rest { drop result into.new ≡ drop result into.old }
{
    if !Access(d.access).is_present() {
        return 0;
    }
    let bytes = &memory[d.base as usize..d.base as usize + (d.limit as usize + 1)];
    first_bytes(bytes, ip as usize, into)
}

/// The ten bytes from an offset on, and none exactly where there are fewer.
#[inline(always)]
pub(crate) fn ten(memory: &[u8], d: &Descriptor, ip: u16) -> Option<TenBytes>
    requires inside { IsInside memory.now d.now }
    ensures some { IfSome result (λ t. ten_of t ≡ take 10 (drop ip (bytes_by memory.now d.now))) }
    ensures none { IfNone result (length (take 10 (drop ip (bytes_by memory.now d.now))) < 10) }
{
    if !Access(d.access).is_present() {
        return None;
    }
    let bytes = &memory[d.base as usize..d.base as usize + (d.limit as usize + 1)];
    TenBytes::at(bytes, ip)
}

/// Writes a byte or word to an address of the memory.
#[inline(always)]
pub(crate) fn write(store: &mut Store, at: u32, width: Width, value: u16)
    requires room { at + width_len width ≤ length store.old.memory }
    requires fits { width ≡ Width.Byte → value < 256 }
    ensures { store.new ≡ record store.old { memory = put_at store.old.memory at width value } }
{
    let bytes = store.lend(at, len_of(width));
    put_in(bytes, 0, width, value);
}

/// Some bytes of the segment of a descriptor, from an offset on.
pub(crate) fn range<'m>(memory: &'m [u8], d: &Descriptor, offset: u16, count: u16) -> &'m [u8]
    requires inside { d.now.base + offset + count ≤ length memory.now }
    ensures { result.now ≡ part memory.now (d.now.base + offset) count }
{
    let from = d.base as usize + offset as usize;
    &memory[from..from + count as usize]
}

/// Writes some bytes to an address of the memory.
pub(crate) fn write_bytes(store: &mut Store, at: u32, bytes: &[u8])
    requires room { at + length bytes.now ≤ length store.old.memory }
    requires small { length store.old.memory ≤ 2 ^ 24 }
    ensures { store.new ≡ record store.old { memory = with_part store.old.memory at bytes.now } }
{
    let into = store.lend(at, bytes.len() as u32);
    into.copy_from_slice(bytes);
}
