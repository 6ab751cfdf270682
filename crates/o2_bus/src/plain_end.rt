// The end of a process, and the names that nobody holds.
ghost use Rattle.std.specs.Prelude.{◌≡◌, ◌<◌, ◌==◌, ℕ, [], length, slice_get, None, if◌then◌else◌};
ghost use Rattle.o2_bus.specs.Plain.{held_in, bytes_in, segment_bytes, is_shown, in_map, PutsBytes};
ghost use Rattle.o2_bus.specs.Frames.{IsSeenAs, memory};
ghost use Rattle.o2_bus.specs.Ends.{grants_name, map_names, maps_name, is_held_in};

use crate::plain::Map;
use crate::segment::Segment;
use crate::{Grant, Plain};

/// Whether a place of a map holds this name.
fn is_of(grant: &Option<Grant>, name: usize) -> bool
    ensures { result ≡ grants_name name grant.now }
{
    match grant {
        Some(grant) => grant.name as usize == name,
        None => false,
    }
}

fn holds(map: &Map, name: usize) -> bool
    ensures { result ≡ map_names name map.now }
{
    map.grants.iter().any(|grant| is_of(grant, name))
}

/// Whether any process holds this name.
fn any_holds(maps: &[Map], name: usize) -> bool
    ensures { result ≡ maps_name maps.now name }
{
    maps.iter().any(|map| holds(map, name))
}

/// Takes the bytes of a name away, where it isn't kept.
fn keep_if(segments: &mut Vec<Segment>, name: usize, kept: bool)
    requires { name < length segments.old.items }
    ensures { PutsBytes segments.old.items segments.new.items name (if kept then segment_bytes (slice_get segments.old.items name) else []) }
{
    if !kept {
        let segment = &mut segments[name];
        segment.bytes.clear();
    }
}

/// Takes the bytes of all names away that nobody holds.
fn drop_unheld(segments: &mut Vec<Segment>, maps: &[Map])
    ensures bytes { (n : ℕ) → segment_bytes (slice_get segments.new.items n) ≡ (if maps_name maps.now n then segment_bytes (slice_get segments.old.items n) else []) }
    ensures shown { (n : ℕ) → is_shown (slice_get segments.new.items n) ≡ is_shown (slice_get segments.old.items n) }
    ensures count { length segments.new.items ≡ length segments.old.items }
{
    for name in 0..segments.len() {
        let kept = any_holds(maps, name);
        keep_if(segments, name, kept);
    }
}

/// Empties a map.
fn clear(maps: &mut Vec<Map>, pid: usize)
    ensures { (p i : ℕ) → in_map (slice_get maps.new.items p) i ≡ (if p == pid then None else in_map (slice_get maps.old.items p) i) }
{
    if pid < maps.len() {
        let map = &mut maps[pid];
        map.grants.clear();
    }
}

impl Plain {
    /// A process ends: it holds nothing any more, and a name that nobody holds has no bytes any more.
    pub fn end(&mut self, pid: u16)
        ensures { IsSeenAs self.new (record (memory self.old) {
          held = λ p i. if p == pid then None else held_in self.old p i;
          bytes = λ n. if is_held_in self.new n then bytes_in self.old n else [];
        }) }
    {
        clear(&mut self.maps, pid as usize);
        drop_unheld(&mut self.segments, &self.maps);
    }
}
