// Ranges with their bytes, closed up and opened.
ghost use Rattle.std.specs.Prelude.{◌≡◌, ◌<◌, ◌≤◌, length};

use o2_compact::{close_up, open_gap};
use o2_phys::Phys;
use o2_place::Places;
use std::alloc::Global;
use test_fixtures::{Wrong, want};

fn size() -> u32
    ensures { result ≡ 32 }
{
    32
}

// Gives an id the lowest range of this length, and writes these bytes there.
fn give(phys: &mut Phys, places: &mut Places, id: u32, bytes: &[u8])
    requires id { id < places.old.most }
    requires memory { length phys.old ≡ 32 }
    requires some { length bytes.now < 16 }
    ensures most { places.new.most ≡ places.old.most }
    ensures size { places.new.size ≡ places.old.size }
    ensures memory { length phys.new ≡ 32 }
{
    let len = bytes.len() as u32;
    if len == 0 || places.find(id).is_some() {
        return;
    }
    if let Some(at) = places.fit(len) {
        places.put(id, at, len);
        if at <= 32 - len {
            phys.write(at, bytes);
        }
    }
}

// Whether an id's range could be lengthened.
fn grow(phys: &mut Phys, places: &mut Places, id: u32, len: u32) -> bool
    requires id { id < places.old.most }
    requires memory { places.old.size ≤ length phys.old }
    ensures most { places.new.most ≡ places.old.most }
    ensures size { places.new.size ≡ places.old.size }
    ensures memory { length phys.new ≡ length phys.old }
{
    if let Some((_, was)) = places.find(id) {
        if was <= len && len - was <= places.free_bytes() {
            open_gap(phys, places, id, len);
            return true;
        }
    }
    false
}

// Ranges of the first three ids between others, which are taken away.
fn lay_out(phys: &mut Phys, places: &mut Places)
    requires most { places.old.most ≡ 6 }
    requires size { places.old.size ≡ 32 }
    requires memory { length phys.old ≡ 32 }
    ensures most { places.new.most ≡ 6 }
    ensures size { places.new.size ≡ 32 }
    ensures memory { length phys.new ≡ 32 }
{
    give(phys, places, 3, b"--");
    give(phys, places, 0, b"abc");
    give(phys, places, 4, b"---");
    give(phys, places, 1, b"de");
    give(phys, places, 5, b"----------");
    give(phys, places, 2, b"fghi");
    let _ = places.take(3);
    let _ = places.take(4);
    let _ = places.take(5);
}

// Whether the first three ids have these ranges.
fn lie_at(places: &Places, ranges: [Option<(u32, u32)>; 3]) -> bool
    requires { places.now.most ≡ 6 }
{
    [places.find(0), places.find(1), places.find(2)] == ranges
}

// The ranges move together, with their bytes.
fn closes(phys: &mut Phys, places: &mut Places) -> bool
    requires most { places.old.most ≡ 6 }
    requires size { places.old.size ≡ 32 }
    requires memory { length phys.old ≡ 32 }
    ensures most { places.new.most ≡ 6 }
    ensures size { places.new.size ≡ 32 }
    ensures memory { length phys.new ≡ 32 }
{
    let open = places.find(2);
    close_up(phys, places);
    open == Some((20, 4))
        && lie_at(places, [Some((0, 3)), Some((3, 2)), Some((5, 4))])
        && phys.bytes(0, 9) == b"abcdefghi".as_slice()
}

// A range grows behind the others, then in place, and another moves the others up.
fn opens(phys: &mut Phys, places: &mut Places) -> bool
    requires most { places.old.most ≡ 6 }
    requires size { places.old.size ≡ 32 }
    requires memory { length phys.old ≡ 32 }
    ensures memory { length phys.new ≡ 32 }
{
    let behind = grow(phys, places, 1, 6) && places.find(1) == Some((9, 6));
    let alone = grow(phys, places, 1, 8)
        && lie_at(places, [Some((0, 3)), Some((9, 8)), Some((5, 4))]);
    let widened = grow(phys, places, 0, 19)
        && lie_at(places, [Some((0, 19)), Some((23, 8)), Some((19, 4))]);
    behind && alone && widened
}

pub fn ranges_close_up_and_open(alloc: Global) -> Result<(), Wrong> {
    let mut phys = Phys::new(alloc, size())?;
    let mut places = Places::new(alloc, 6, size())?;
    lay_out(&mut phys, &mut places);
    let moved = closes(&mut phys, &mut places) && opens(&mut phys, &mut places);
    let bytes = (phys.bytes(0, 3), phys.bytes(19, 6));
    want(
        moved && bytes == (b"abc".as_slice(), b"fghide".as_slice()),
        0,
    )?;
    Ok(())
}
