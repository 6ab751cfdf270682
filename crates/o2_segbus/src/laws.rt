// What keeps names and segments together.
ghost use Rattle.std.specs.Prelude.{◌≡◌, ℕ, None};
ghost use Rattle.o2_entries.specs.declared.Entry.{Entry as EntryThere};
ghost use Rattle.o2_entries.specs.Tables.{slot_at};
ghost use Rattle.o2_place.specs.declared.seg_id.SegId.{SegId as SegIdThere};
ghost use Rattle.o2_regions.specs.Maps.{Maps};
ghost use Rattle.o2_store.specs.Shelf.{Shelf, IsShelf, SameTables, Adds, Removes};
ghost use Rattle.o2_isa.specs.View.{IsBound, KeepsFrame};
ghost use Rattle.o2_segbus.specs.declared.seg_bus.SegBus.{SegBus as SegBusThere};
ghost use Rattle.o2_segbus.specs.Calls.{LeavesBus, view_of};
ghost use Rattle.o2_segbus.specs.Seen.{AreNamed, gone_in, hold_in, present_in, size_in};
ghost use Rattle.o2_segbus.specs.Guards.{AreAged, AreGuarded, AreLive};
ghost use Rattle.o2_segbus.specs.Frames.{KeepsMaps, KeepsStore};

/// A segment's age is its name: no two live segments ever have one age, and a live one that is held is found by its age. Nothing
/// that keeps ages changes what a name stands for.
pub fn ages_are_names()
    ensures named { (s : Shelf) (m : Maps) → AreAged s → AreLive s m → AreNamed s m }
    ensures names { (s t : Shelf) (m n : Maps) → SameTables s t → n.held ≡ m.held
        → AreNamed s m → AreNamed t n }
    ensures ages { (s t : Shelf) → SameTables s t → AreAged s → AreAged t }
    ensures empty { (s : Shelf) → ((k : ℕ) → slot_at s.entries k ≡ None) → AreAged s }
    ensures added { (s t : Shelf) (id : SegIdThere) (e : EntryThere) → IsShelf s → Adds s t id e
        → e.age ≡ s.made → AreAged s → AreAged t }
    ensures removed { (s t : Shelf) (key : ℕ) → Removes s t key → AreAged s → AreAged t }
{}

/// What a step leaves of store and tables: what each process holds, with which rights, each segment's size, whether it is in
/// memory and whether it was discarded, and what keeps names apart and clean segments unwritten.
pub fn frames_keep()
    ensures holds { (m n : Maps) → KeepsMaps m n → (pid i : ℕ) → hold_in n pid i ≡ hold_in m pid i }
    ensures sizes { (s t : Shelf) → KeepsStore s t → (name : ℕ) → size_in t name ≡ size_in s name }
    ensures present { (s t : Shelf) → KeepsStore s t
        → (name : ℕ) → present_in t name ≡ present_in s name }
    ensures gone { (s t : Shelf) → KeepsStore s t → (name : ℕ) → gone_in t name ≡ gone_in s name }
    ensures ages { (s t : Shelf) → KeepsStore s t → AreAged s → AreAged t }
    ensures guards { (s t : Shelf) (m n : Maps) → KeepsStore s t → KeepsMaps m n
        → AreGuarded s m → AreGuarded t n }
{}

/// What a call leaves that was handed a bus and kept the frame of its view, whatever the call is: the store changed in bytes of
/// the memory alone, and the tables in accessed bits; and what the segment registers hold is in memory, before it and behind it.
pub fn calls_keep()
    ensures leaves { (a b : SegBusThere) → KeepsFrame (view_of a) (view_of b) → LeavesBus a b }
    ensures bound { (b : SegBusThere) → IsBound (view_of b) }
{}
