// The targets of records, and the images of a run.
ghost use Rattle.std.specs.Prelude.{[], ◌≡◌, ◌+◌, ◌<◌, ◌↔◌, ◌^◌, ℕ, get_or, length, map, option_map, slice_get, IsTrue, Some};
ghost use Rattle.o2_ne_segs.specs.declared.segment.Segment.{Segment};
ghost use Rattle.o2_ne_segs.specs.Records.{relocs_in};
ghost use Rattle.o2_image.specs.Alike.{part_of, parts_of, row_of};
ghost use Rattle.o2_image.specs.Getters.{nth, nth_list};
ghost use Rattle.o2_image.specs.ImageList.{AllBelong, Belongs, Exists, HasImage, image_front, same_shape};
ghost use Rattle.o2_image.specs.Images.{segment_image};
ghost use Rattle.o2_image.specs.Marked.{unpacked};
ghost use Rattle.o2_image.specs.Whole.{HasSegment};

use crate::fill::{fill_bytes, fill_segment};
use crate::module::Module;
use crate::packed::Packed;
use crate::records::reloc_count;
use crate::sharing::Part;
use o2_base::Bytes;
use o2_ne_segs::Segment;
use std::marker::Model;

// Targets by segment: the list of each, or all of them and which are those of a segment.
#[derive(Drop)]
pub(crate) enum Kept {
    Lists(Vec<Vec<(u16, u16)>>),
    Parts(Packed, Vec<Part>),
}

// The targets of a segment: a list, or a part of those of all.
#[derive(Drop)]
pub(crate) enum Row<'a> {
    One(&'a [(u16, u16)]),
    Piece(&'a Packed, Part),
}

/// Where each record of a module leads: a selector and an offset, by segment from 1 and number from 0.
#[derive(Drop)]
pub struct Resolved {
    kept: Kept,
}

impl Model for Resolved {
    ghost use Rattle.std.specs.Prelude.{List, ℕ};
    ghost use Rattle.o2_image.specs.Alike.{lists_of};

    ghost Value = { List (List (ℕ × ℕ)) };

    ghost view = { λ r. lists_of r.kept };
}

// The list at an index, of which there is none past the last.
fn list_at(lists: &[Vec<(u16, u16)>], i: usize) -> Row<'_>
    ensures { row_of result ≡ get_or (map (λ v. v.items) lists.now) i [] }
{
    match lists.get(i) {
        Some(list) => Row::One(list.as_slice()),
        None => Row::One(&[]),
    }
}

// The part at an index, of which there is none past the last.
fn part_at<'a>(targets: &'a Packed, parts: &[Part], i: usize) -> Row<'a>
    ensures { row_of result ≡ get_or (parts_of (unpacked targets.now) parts.now) i [] }
{
    match parts.get(i) {
        Some(part) => Row::Piece(targets, *part),
        None => Row::One(&[]),
    }
}

// How many targets a part has.
fn part_len(targets: &Packed, part: &Part) -> usize
    ensures value { result ≡ length (part_of (unpacked targets.now) part.now) }
    ensures within { 0 < result → part.now.from + result < 2 ^ 64 }
{
    let rest = targets.len().saturating_sub(part.from);
    if part.count < rest {
        return part.count;
    }
    rest
}

// A target of a part, None exactly past the last.
fn target_in(targets: &Packed, part: &Part, k: usize) -> Option<(u16, u16)>
    ensures { result ≡ slice_get (part_of (unpacked targets.now) part.now) k }
{
    if k >= part_len(targets, part) {
        return None;
    }
    Some(targets.at(part.from + k))
}

impl Row<'_> {
    // How many there are.
    pub(crate) fn len(&self) -> usize
        ensures { result ≡ length (row_of self.now) }
    {
        match self {
            Row::One(list) => list.len(),
            Row::Piece(targets, part) => part_len(targets, part),
        }
    }

    // One of them, None exactly past the last.
    pub(crate) fn get(&self, k: usize) -> Option<(u16, u16)>
        ensures { result ≡ slice_get (row_of self.now) k }
    {
        match self {
            Row::One(list) => list.get(k).copied(),
            Row::Piece(targets, part) => target_in(targets, part, k),
        }
    }
}

impl Resolved {
    /// These targets, the lists in the order of the segments.
    pub fn new(targets: Vec<Vec<(u16, u16)>>) -> Resolved
        ensures { result ≡ map (λ v. v.items) targets.items }
    {
        Resolved {
            kept: Kept::Lists(targets),
        }
    }

    // The targets of which each segment has a part.
    pub(crate) fn of_parts(targets: Packed, parts: Vec<Part>) -> Resolved
        ensures { result ≡ parts_of (unpacked targets) parts.items }
    {
        Resolved {
            kept: Kept::Parts(targets, parts),
        }
    }

    // How many segments have a list.
    fn len(&self) -> usize
        ensures { result ≡ length self.now }
    {
        match &self.kept {
            Kept::Lists(lists) => lists.len(),
            Kept::Parts(_, parts) => parts.len(),
        }
    }

    // The targets of a segment by its number from 0.
    fn at(&self, i: usize) -> Row<'_>
        ensures { row_of result ≡ get_or self.now i [] }
    {
        match &self.kept {
            Kept::Lists(lists) => list_at(lists.as_slice(), i),
            Kept::Parts(targets, parts) => part_at(targets, parts.as_slice(), i),
        }
    }

    // The targets of a segment, of which there are none where there is no such segment.
    pub(crate) fn of_segment(&self, seg: u16) -> Row<'_>
        ensures { row_of result ≡ nth_list self.now seg }
    {
        if seg == 0 {
            return Row::One(&[]);
        }
        self.at(usize::from(seg) - 1)
    }

    /// The target of a record. None exactly where there is none of this segment and number.
    pub fn get(&self, seg: u16, k: u16) -> Option<(u16, u16)>
        ensures { result ≡ slice_get (nth_list self.now seg) k }
    {
        self.of_segment(seg).get(usize::from(k))
    }
}

// Whether each segment from one on has as many targets as records, and there is no other list.
fn are_targets(file: &[u8], segments: &[Segment], targets: &Resolved) -> bool
    requires { (k : ℕ) (d : Segment) → k < length segments.now → HasSegment file.now (get_or segments.now k d) }
    ensures { result ≡ same_shape targets.now (map (relocs_in file.now) segments.now) }
{
    if segments.len() != targets.len() {
        return false;
    }
    for (i, segment) in segments.iter().enumerate() {
        let count = usize::from(reloc_count(file, segment));
        let found = targets.at(i).len();
        if found != count {
            return false;
        }
    }
    true
}

impl Module {
    /// Whether these are targets of its records: for each segment as many as it has records.
    pub fn is_resolved_by(&self, r: &Resolved) -> bool
        ensures { IsTrue result ↔ Belongs self.now r.now }
    {
        are_targets(self.names.file().as_slice(), self.segments.as_slice(), r)
    }

    /// Writes the first bytes of a segment's image into a slice, as many as it has, with zeros behind the image's end.
    /// It takes no memory.
    pub fn fill(&self, seg: u16, r: &Resolved, into: &mut [u8])
        requires exists { Exists self.now.segments seg }
        requires belongs { Belongs self.now r.now }
        ensures { into.new ≡ segment_image self.now r.now seg (length into.old) }
    {
        let Some(segment) = self.segments.get(seg) else {
            unreachable!()
        };
        fill_segment(
            self.names.file().as_slice(),
            &segment,
            &r.of_segment(seg),
            into,
        );
    }
}

/// The images of a run: modules with the targets of their records, at places from 1, and for each process the bytes of
/// its environment segment.
#[derive(Drop)]
pub struct Images {
    modules: Vec<(Module, Resolved)>,
    environments: Vec<Bytes>,
}

impl Model for Images {
    ghost use Rattle.o2_image.specs.ImageList.{AllBelong, ImageList};

    ghost Value = { ImageList };

    ghost view = { λ i. record { modules = i.modules.items; environments = i.environments.items } };

    ghost invariant = { λ i. AllBelong i.modules.items };
}

impl Images {
    /// These modules with their targets, and these environments by process from 1.
    pub fn new(modules: Vec<(Module, Resolved)>, environments: Vec<Bytes>) -> Images
        requires { AllBelong modules.items }
        ensures { result ≡ record { modules = modules.items; environments = environments.items } }
    {
        Images {
            modules,
            environments,
        }
    }

    // The module at a place that exists, with its targets.
    fn pair(&self, m: u16) -> &(Module, Resolved)
        requires { Exists self.now.modules m }
        ensures there { nth self.now.modules m ≡ Some result.now }
        ensures belongs { Belongs result.now.0 result.now.1 }
    {
        &self.modules[usize::from(m) - 1]
    }

    // The environment of a process that exists.
    fn environment_of(&self, pid: u16) -> &[u8]
        requires { Exists self.now.environments pid }
        ensures { result.now ≡ nth_list self.now.environments pid }
    {
        self.environments[usize::from(pid) - 1].as_slice()
    }

    /// The module at a place from 1. None exactly where there is no such place.
    pub fn module(&self, m: u16) -> Option<&Module>
        ensures { option_map (λ b. b.now) result ≡ option_map (λ p. p.0) (nth self.now.modules m) }
    {
        if m == 0 {
            return None;
        }
        match self.modules.get(usize::from(m) - 1) {
            Some(pair) => Some(&pair.0),
            None => None,
        }
    }

    /// The environment of a process from 1. None exactly where there is no such process.
    pub fn environment(&self, pid: u16) -> Option<&[u8]>
        ensures { option_map (λ b. b.now) result ≡ nth self.now.environments pid }
    {
        if pid == 0 {
            return None;
        }
        match self.environments.get(usize::from(pid) - 1) {
            Some(bytes) => Some(bytes.as_slice()),
            None => None,
        }
    }

    /// Writes the first bytes of an image into a slice, as many as it has, with zeros behind the image's end: that of
    /// segment `seg` of the module at place `module`, or, where that is 0, of the environment of process `seg`. It takes
    /// no memory.
    pub fn fill(&self, module: u16, seg: u16, into: &mut [u8])
        requires { HasImage self.now «module» seg }
        ensures { into.new ≡ image_front self.now «module» seg (length into.old) }
    {
        if module == 0 {
            fill_bytes(self.environment_of(seg), into);
            return;
        }
        let pair = self.pair(module);
        pair.0.fill(seg, &pair.1, into);
    }
}
