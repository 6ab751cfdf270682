// The fields of a core image.
ghost use Rattle.std.specs.Prelude.{◌≡◌, ◌+◌, ◌≤◌, ◌<◌, ◌^◌, [], ◌∷◌, length, OnOk};
ghost use Rattle.o2_ne.specs.Checks.{all_hold};
ghost use Rattle.o2_dump.specs.FileFields.{quad_at, whole, descriptor_at, registers_at};

use crate::fault::CoreFault;
use o2_desc::Descriptor;
use o2_isa::Cpu;
use o2_ne::{u16_at, u32_at};

// The file has the `len` bytes from a place.
pub(crate) fn need(file: &[u8], at: usize, len: usize) -> Result<(), CoreFault>
    requires small { at + len < 2 ^ 64 }
    ensures exact { result ≡ all_hold (whole file.now at len ∷ []) }
    ensures inside { OnOk result (at + len ≤ length file.now) }
{
    if at + len <= file.len() {
        return Ok(());
    }
    Err(CoreFault::Truncated(file.len() as u64))
}

// The number of eight bytes at a place, the lowest byte first.
pub(crate) fn u64_at(file: &[u8], at: usize) -> u64
    requires { at + 8 ≤ length file.now }
    ensures { result ≡ quad_at file.now at }
{
    u64::from(u32_at(file, at)) + 4_294_967_296 * u64::from(u32_at(file, at + 4))
}

// The descriptor whose eight bytes stand at a place; the last two aren't looked at.
pub(crate) fn descriptor_at(file: &[u8], at: usize) -> Descriptor
    requires { at + 8 ≤ length file.now }
    ensures { result ≡ descriptor_at file.now at }
{
    Descriptor {
        base: u32::from(u16_at(file, at + 2)) + 65536 * u32::from(file[at + 4]),
        limit: u16_at(file, at),
        access: file[at + 5],
    }
}

// The fourteen registers whose words stand at a place.
pub(crate) fn registers_at(file: &[u8], at: usize) -> Cpu
    requires { at + 28 ≤ length file.now }
    ensures { result ≡ registers_at file.now at }
{
    Cpu {
        ax: u16_at(file, at),
        cx: u16_at(file, at + 2),
        dx: u16_at(file, at + 4),
        bx: u16_at(file, at + 6),
        sp: u16_at(file, at + 8),
        bp: u16_at(file, at + 10),
        si: u16_at(file, at + 12),
        di: u16_at(file, at + 14),
        ip: u16_at(file, at + 16),
        flags: u16_at(file, at + 18),
        cs: u16_at(file, at + 20),
        ds: u16_at(file, at + 22),
        es: u16_at(file, at + 24),
        ss: u16_at(file, at + 26),
    }
}
