// What holds of the segments that processes share, where a machine matches a world.
ghost use Rattle.std.specs.Prelude.{◌≤◌, ℕ, List, Option};
ghost use Rattle.o2_regions.specs.Maps.{Maps};
ghost use Rattle.o2_segbus.specs.Guards.{AreAged};
ghost use Rattle.o2_store.specs.Shelf.{Shelf};
ghost use Rattle.o2_stands.specs.Parts.{Parts};
ghost use Rattle.o2_stands.specs.Stands.{IsTidy, Matches};
ghost use Rattle.o2_world.specs.Changes.{told_of};
ghost use Rattle.o2_world.specs.Known.{text_name};
ghost use Rattle.o2_world.specs.Tied.{IsTied};
ghost use Rattle.o2_world.specs.World.{World};
ghost use Rattle.o2_segs.specs.Sharing.{KeepsShares};
ghost use Rattle.o2_shared.specs.declared.names.Name.{Name};
ghost use Rattle.o2_shared.specs.Shares.{ShareOne};
ghost use Rattle.o2_shared.specs.Texts.{AreInPlace, AreOnce, AreTexts, IsBehind};

/// Under a shared index all that a call gave is one segment, where what is held under it is one in the world.
pub fn a_tied_world_shares_one()
    ensures { (p : Parts) (w : World) → IsTied w → Matches p w → ShareOne p.maps }
{}

/// A text dies with its segment: the names of a store that were those of a world's texts are those of the texts of names that are
/// held, over a store in which segments have come and gone, and of which the machine matches a tidy world.
pub fn texts_die_with_their_segments()
    ensures { (s : Shelf) (m : Maps) (names : List (Option Name)) (p : Parts) (w : World) (texts : List (List ℕ × ℕ))
        → AreAged s → AreInPlace s m names → IsBehind s p.shelf → AreTexts s names (text_name texts) → AreOnce texts
        → IsTidy w.processes w.names w.reserved → Matches p w
        → AreTexts p.shelf names (text_name (told_of w.processes texts)) × AreOnce (told_of w.processes texts) }
{}

/// Names stay in place where each segment that is held at a shared index alone goes on to be held so as long as it lives.
pub fn names_stay_in_place()
    ensures { (s t : Shelf) (m n : Maps) (names : List (Option Name))
        → AreInPlace s m names → KeepsShares s m t n s.made → s.made ≤ t.made → AreInPlace t n names }
{}
