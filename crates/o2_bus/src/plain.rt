// Segments as byte vectors, with a map for each process.
ghost use Rattle.o2_bus.specs.Maps.{AreFilled};

use crate::segment::Segment;

/// What an index of a map holds.
#[derive(Clone, Copy, Debug, PartialEq, Eq)]
pub struct Grant {
    /// The number of a name.
    pub name: u32,
    /// The access byte, without its accessed bit.
    pub access: u8,
}

/// What a process holds, by index in its local descriptor table.
#[derive(Drop)]
pub struct Map {
    pub grants: Vec<Option<Grant>>,
}

/// Segments as byte vectors by name, with one map for each process. What is held has at least one byte.
#[derive(Drop)]
pub struct Plain {
    pub segments: Vec<Segment>,
    pub maps: Vec<Map>,
    ghost filled: { AreFilled segments.items maps.items },
}

impl Plain {
    ghost use Rattle.std.specs.Prelude.{◌≡◌, ◌≤◌, length, option_map};
    ghost use Rattle.o2_isa.specs.View.{bound_in, found_in};
    ghost use Rattle.o2_bus.specs.Plain.{hold_of, held_in, bytes_in, shown_in, count_in};

    /// How many names were added: they are numbered from 0.
    #[tactic(auto, unfolding(crate::specs::Plain::count_in))]
    pub fn count(&self) -> usize
        ensures { result ≡ count_in self.now }
    {
        self.segments.len()
    }

    /// The bytes of a name: none where it was never added.
    #[tactic(auto, unfolding(crate::specs::Plain::bytes_in))]
    pub fn bytes(&self, name: u32) -> &[u8]
        ensures value { result.now ≡ bytes_in self.now name }
        ensures small { length result.now ≤ 65536 }
    {
        match self.segments.get(name as usize) {
            Some(segment) => segment.bytes.as_slice(),
            None => &[],
        }
    }

    /// Whether a name is present.
    #[tactic(auto, unfolding(crate::specs::Plain::shown_in))]
    pub fn is_shown(&self, name: u32) -> bool
        ensures { result ≡ shown_in self.now name }
    {
        match self.segments.get(name as usize) {
            Some(segment) => !segment.hidden,
            None => true,
        }
    }

    /// What an index of a process's map holds.
    #[tactic(auto, unfolding(crate::specs::Plain::held_in))]
    pub fn held(&self, pid: u16, index: u16) -> Option<Grant>
        ensures { option_map hold_of result ≡ held_in self.now pid index }
    {
        match self.maps.get(pid as usize) {
            Some(map) => match map.grants.get(index as usize) {
                Some(grant) => *grant,
                None => None,
            },
            None => None,
        }
    }

    /// What a selector names in a process's map.
    pub fn found(&self, pid: u16, sel: u16) -> Option<Grant>
        ensures { option_map hold_of result ≡ found_in (held_in self.now pid) sel }
    {
        if sel / 4 % 2 == 1 {
            self.held(pid, sel / 8)
        } else {
            None
        }
    }

    /// What a segment register holds after the load of a selector: nothing where it is null.
    pub fn bound(&self, pid: u16, sel: u16) -> Option<Grant>
        ensures { option_map hold_of result ≡ bound_in (held_in self.now pid) sel }
    {
        if sel < 4 { None } else { self.found(pid, sel) }
    }
}
