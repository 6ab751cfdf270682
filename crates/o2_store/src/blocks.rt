// Segments' bytes go to swap blocks and come back.
ghost use Rattle.std.specs.Prelude.{◌≡◌, ◌≢◌, ◌⊎◌, ℕ, ◌+◌, ◌-◌, ◌*◌, ◌<◌, ◌≤◌, ◌^◌, length, slice_index, IsTrue, []};
ghost use Rattle.o2_outer.specs.Answers.{HasCause};
ghost use Rattle.o2_swapmap.specs.Piles.{blocks_of, all_of};
ghost use Rattle.o2_store.specs.Asked.{AsksFor};
ghost use Rattle.o2_store.specs.Shelf.{blocks_for, stored_byte, IsOther};

use o2_outer::{Dev, SwapDevice, read_block};
use o2_phys::Phys;
use o2_swapmap::SwapMap;

/// How many bytes there are up to the last one that isn't zero.
pub(crate) fn trimmed(bytes: &[u8]) -> u32
    requires { length bytes.now ≤ 65536 }
    ensures within { result ≤ length bytes.now }
    ensures zeros { (j : ℕ) → result ≤ j → slice_index bytes.now j ≡ 0 }
    ensures last { 0 < result → slice_index bytes.now (result - 1) ≢ 0 }
{
    let mut n = bytes.len();
    while n > 0 {
        if bytes[n - 1] != 0 {
            break;
        }
        n -= 1;
    }
    n as u32
}

/// Writes the bytes of a range to the blocks of an owner that has as many as they take.
pub(crate) fn write_out<S: SwapDevice>(
    phys: &Phys,
    map: &SwapMap,
    key: u32,
    at: u32,
    size: u32,
    swap: &mut S,
) -> Dev
    requires key { key < map.now.most }
    requires range { at + size ≤ length phys.now }
    requires fits { (at + size < 2 ^ 31) × (size ≤ 65536) }
    requires blocks { length (blocks_of map.now key) ≡ blocks_for size }
    requires device { all_of map.now ≤ S.blocks swap.old }
    ensures device { (S.blocks swap.new ≡ S.blocks swap.old) × (IsTrue (S.told swap.new) → IsTrue (S.told swap.old)) }
    ensures others { IsTrue (S.told swap.new) → (b : ℕ) → IsOther map.now key b → S.block swap.new b ≡ S.block swap.old b }
    ensures unasked { S.asked swap.new ≡ S.asked swap.old }
    ensures written { IsTrue (S.told swap.new) → result ≡ Dev.Done → (j : ℕ) → j < size → stored_byte map.now (S.block swap.new) key j ≡ slice_index phys.now (at + j) }
    ensures cause { HasCause (S.faults swap.old) (S.faults swap.new) result }
{
    let mut buffer = [0u8; 512];
    let mut list = [0u32; 128];
    map.none_twice();
    map.list(key, &mut list);
    for k in 0..(size + 511) / 512 {
        let start = 512 * k;
        let n = (size - start).min(512);
        buffer[..n as usize].copy_from_slice(phys.bytes(at + start, n));
        if let Dev::Failed = swap.write(list[k as usize], &buffer) {
            return Dev::Failed;
        }
    }
    Dev::Done
}

/// Reads so many bytes from the blocks of an owner into a range, of each block what the device knows.
pub(crate) fn read_in<S: SwapDevice>(
    phys: &mut Phys,
    map: &SwapMap,
    key: u32,
    at: u32,
    kept: u32,
    swap: &mut S,
) -> Dev
    requires key { key < map.now.most }
    requires range { at + kept ≤ length phys.old }
    requires fits { (at + kept < 2 ^ 31) × (kept ≤ 65536) }
    requires blocks { length (blocks_of map.now key) ≡ blocks_for kept }
    requires device { all_of map.now ≤ S.blocks swap.old }
    ensures device { (S.blocks swap.new ≡ S.blocks swap.old) × (IsTrue (S.told swap.new) → IsTrue (S.told swap.old)) }
    ensures same { IsTrue (S.told swap.new) → (b : ℕ) → S.block swap.new b ≡ S.block swap.old b }
    ensures none { blocks_of map.now key ≡ [] → swap.new ≡ swap.old }
    ensures asks { AsksFor (S.known swap.new) (blocks_of map.now key) (S.asked swap.old) (S.asked swap.new) (result ≡ Dev.Done) }
    ensures length { length phys.new ≡ length phys.old }
    ensures outside { (i : ℕ) → (i < at) ⊎ (at + kept ≤ i) → slice_index phys.new i ≡ slice_index phys.old i }
    ensures read { IsTrue (S.told swap.new) → result ≡ Dev.Done → (j : ℕ) → j < kept → slice_index phys.new (at + j) ≡ stored_byte map.now (S.block swap.old) key j }
    ensures cause { HasCause (S.faults swap.old) (S.faults swap.new) result }
{
    let mut buffer = [0u8; 512];
    let mut list = [0u32; 128];
    map.list(key, &mut list);
    for k in 0..(kept + 511) / 512 {
        let start = 512 * k;
        let n = (kept - start).min(512);
        if let Dev::Failed = read_block(list[k as usize], &mut buffer, swap) {
            return Dev::Failed;
        }
        phys.write(at + start, &buffer[..n as usize]);
    }
    Dev::Done
}
