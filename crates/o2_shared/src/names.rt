// The names of shared segments.
ghost use Rattle.std.specs.Prelude.{◌≡◌, ◌-◌, ◌<◌, ◌≤◌, List, length, replicate, IfOk, IfSome, Some, None, Option, slice_set};
ghost use Rattle.std.specs.Option.{IfNone};
ghost use Rattle.std.specs.List.{insert};
ghost use Rattle.std.specs.Vec.{vec_capacity};
ghost use Rattle.o2_world.specs.SharedNames.{folded};
ghost use Rattle.o2_shared.specs.NameOrder.{against, name_at, place_at, HasText, IsFoundAt, IsOrdered, LacksText};
ghost use Rattle.o2_shared.specs.Texts.{found_from, live_of, without, AreDistinct};

use crate::text::{NAME_MOST, Text};
use o2_base::NoMemory;
use o2_place::SegId;
use o2_store::Store;
use std::alloc::Global;
use std::cmp::Ordering;
use std::marker::Model;

/// The first index that all processes share.
const SHARED: u16 = 4096;

/// How many indexes all processes share.
const INDEXES: u16 = 4096;

// A folded name, and its segment.
#[derive(Debug, Drop)]
struct Name {
    text: Text,
    id: SegId,
}

/// The names of shared segments: of each shared index that of the segment that was last named under it, or nothing, and no text
/// twice. Contracts see the list of these. Nothing is allocated after the opening.
#[derive(Debug, Drop)]
pub struct Shared {
    names: Vec<Option<Name>>,
    // the places that have a name, by rising texts
    order: Vec<u16>,
}

impl Model for Shared {
    ghost use Rattle.std.specs.Prelude.{◌≡◌, ◌≤◌, List, Option, length};
    ghost use Rattle.std.specs.Vec.{vec_capacity};
    ghost use Rattle.o2_shared.specs.declared.names.Name.{Name};
    ghost use Rattle.o2_shared.specs.NameOrder.{IsOrdered};

    ghost Value = { List (Option Name) };

    ghost view = { λ s. s.names.items };

    ghost invariant = { λ s. (length s.names.items ≡ 4096) × IsOrdered s.names.items s.order.items × (4096 ≤ vec_capacity s.order) };
}

impl Shared {
    /// Room for 4,096 names, and no name.
    pub fn new(alloc: Global) -> Result<Shared, NoMemory>
        ensures { IfOk result (λ s. s ≡ replicate 4096 None) }
    {
        let mut names = Vec::with_capacity(alloc, INDEXES as usize)?;
        let order = Vec::with_capacity(alloc, INDEXES as usize)?;
        for _ in 0..INDEXES {
            names.push_reserved(None);
        }
        Ok(Shared { names, order })
    }

    /// What is true of every value: each shared index has a name or none, and no two names have one text.
    pub fn law(&self)
        ensures indexes { length self.now ≡ 4096 }
        ensures distinct { AreDistinct self.now }
    {
        let _names = &self.names;
    }

    /// The index and the live segment of a name, whose ASCII letters may be of either case; none exactly where none has it.
    pub fn find(&self, store: &Store, name: &[u8]) -> Option<(u16, SegId)>
        ensures found { result ≡ found_from store.now (folded name.now) self.now 4096 }
        ensures index { IfSome result (λ f. (4096 ≤ f.0) × (f.0 < 8192)) }
    {
        let names = self.names.as_slice();
        if NAME_MOST < name.len() {
            return None;
        }
        let text = Text::folded(name);
        let place = place_of(names, self.order.as_slice(), &text)?;
        let id = live_segment(&names[place as usize], store)?;
        Some((SHARED + place, id))
    }

    /// A shared index has a name of 128 bytes at most, for a segment; the name that it had is gone, and so is that of any other
    /// index which has this text.
    pub fn put(&mut self, index: u16, name: &[u8], id: SegId)
        requires first { 4096 ≤ index }
        requires last { index < 8192 }
        requires short { length name.now ≤ 128 }
        ensures { self.new ≡ slice_set (without (folded name.now) self.old) (index - 4096) (Some (record { text = folded name.now; id = id })) }
    {
        let place = index - SHARED;
        let text = Text::folded(name);
        drop_text(&mut self.names, &mut self.order, &text);
        drop_place(&mut self.names, &mut self.order, place);
        add(&mut self.names, &mut self.order, place, Name { text, id });
    }
}

// How the text of a place's name compares with a text; where there is no name it is below.
fn compare(names: &[Option<Name>], place: u16, text: &Text) -> Ordering
    ensures { result ≡ against (name_at names.now place) text.now }
{
    match names.get(place as usize) {
        Some(Some(name)) => name.text.compare(text),
        _ => Ordering::Less,
    }
}

// Where a text stands in the order, or would stand.
fn look_up(names: &[Option<Name>], order: &[u16], text: &Text) -> Result<usize, usize>
    requires { IsOrdered names.now order.now }
    ensures { IsFoundAt names.now order.now text.now result }
{
    order.binary_search_by(|place| compare(names, *place, text))
}

// The place whose name has a text.
fn place_of(names: &[Option<Name>], order: &[u16], text: &Text) -> Option<u16>
    requires { IsOrdered names.now order.now }
    ensures some { IfSome result (HasText names.now text.now) }
    ensures none { IfNone result (LacksText names.now text.now) }
{
    match look_up(names, order, text) {
        Ok(at) => Some(order[at]),
        Err(_) => None,
    }
}

// The segment of the name of an index, where it has one and the segment lives.
fn live_segment(name: &Option<Name>, store: &Store) -> Option<SegId>
    ensures { result ≡ live_of store.now name.now }
{
    match name {
        Some(name) => {
            if store.size(name.id).is_some() {
                return Some(name.id);
            }
            None
        }
        None => None,
    }
}

// Takes the name at a place of the order away.
fn take_out(names: &mut Vec<Option<Name>>, order: &mut Vec<u16>, at: usize)
    requires ordered { IsOrdered names.old.items order.old.items }
    requires within { at < length order.old.items }
    ensures names { names.new.items ≡ slice_set names.old.items (place_at order.old.items at) None }
    ensures ordered { IsOrdered names.new.items order.new.items }
    ensures room { vec_capacity order.new ≡ vec_capacity order.old }
{
    let place = order.remove(at);
    names[place as usize] = None;
}

// Takes the name of a text away, if there is one.
fn drop_text(names: &mut Vec<Option<Name>>, order: &mut Vec<u16>, text: &Text)
    requires { IsOrdered names.old.items order.old.items }
    ensures names { names.new.items ≡ without text.now names.old.items }
    ensures ordered { IsOrdered names.new.items order.new.items }
    ensures room { vec_capacity order.new ≡ vec_capacity order.old }
{
    if let Ok(at) = look_up(names.as_slice(), order.as_slice(), text) {
        take_out(names, order, at);
    }
}

// Where the name of a place stands in the order, if the place has one.
fn rank_of(names: &[Option<Name>], order: &[u16], place: u16) -> Option<usize>
    requires ordered { IsOrdered names.now order.now }
    requires within { place < length names.now }
    ensures some { IfSome result (λ at. (at < length order.now) × (place_at order.now at ≡ place)) }
    ensures none { IfNone result (name_at names.now place ≡ None) }
{
    match &names[place as usize] {
        Some(name) => match look_up(names, order, &name.text) {
            Ok(at) => Some(at),
            Err(_) => None,
        },
        None => None,
    }
}

// Takes the name of a place away, if there is one.
fn drop_place(names: &mut Vec<Option<Name>>, order: &mut Vec<u16>, place: u16)
    requires ordered { IsOrdered names.old.items order.old.items }
    requires within { place < length names.old.items }
    ensures names { names.new.items ≡ slice_set names.old.items place None }
    ensures ordered { IsOrdered names.new.items order.new.items }
    ensures room { vec_capacity order.new ≡ vec_capacity order.old }
{
    if let Some(at) = rank_of(names.as_slice(), order.as_slice(), place) {
        take_out(names, order, at);
    }
}

// Writes a place into a vector that has room for it.
fn insert_at(order: &mut Vec<u16>, at: usize, place: u16)
    requires within { at ≤ length order.old.items }
    requires room { length order.old.items < vec_capacity order.old }
    ensures items { order.new.items ≡ insert order.old.items at place }
    ensures capacity { vec_capacity order.old ≤ vec_capacity order.new }
{
    let _ = order.insert(at, place);
}

// Gives a place that has no name one whose text no place has.
fn add(names: &mut Vec<Option<Name>>, order: &mut Vec<u16>, place: u16, name: Name)
    requires ordered { IsOrdered names.old.items order.old.items }
    requires within { place < length names.old.items }
    requires room { length names.old.items ≤ vec_capacity order.old }
    requires free { name_at names.old.items place ≡ None }
    requires new { LacksText names.old.items name.text }
    requires short { length name.text ≤ 128 }
    ensures names { names.new.items ≡ slice_set names.old.items place (Some name) }
    ensures ordered { IsOrdered names.new.items order.new.items }
    ensures room { vec_capacity order.old ≤ vec_capacity order.new }
{
    if let Err(at) = look_up(names.as_slice(), order.as_slice(), &name.text) {
        insert_at(order, at, place);
        names[place as usize] = Some(name);
    }
}
