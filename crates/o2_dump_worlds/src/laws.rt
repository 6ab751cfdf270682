// Images and worlds.
ghost use Rattle.std.specs.Prelude.{◌≡◌, ℕ, false, length, map, option_map, slice_get, Some};
ghost use Rattle.o2_dump.specs.declared.parts.SegmentEntry.{SegmentEntry as SegmentEntryThere};
ghost use Rattle.o2_dump.specs.declared.reader.Core.{Core as CoreThere};
ghost use Rattle.o2_dump.specs.CoreImage.{segment_bytes};
ghost use Rattle.o2_dump_laws.specs.Whole.{IsWhole};
ghost use Rattle.o2_dumping.specs.Told.{core_told};
ghost use Rattle.o2_store.specs.Pictures.{picture};
ghost use Rattle.o2_store.specs.Shelf.{Pictures};
ghost use Rattle.o2_stands.specs.Parts.{Parts};
ghost use Rattle.o2_stands.specs.Stands.{AreLawful, IsSetTo, Stands};
ghost use Rattle.o2_swapmap.specs.Piles.{all_of};
ghost use Rattle.o2_world.specs.World.{Segment, Setting, World};
ghost use Rattle.o2_world.specs.Map.{get};
ghost use Rattle.o2_dump_worlds.specs.Rows.{row_of};
ghost use Rattle.o2_dump_worlds.specs.StandsFor.{ImageStandsFor, stays};

/// The image of a machine that stands for a world stands for that world: that which is told of its store and tables, of the world's
/// processes, of all its swap blocks, and of as many steps and console bytes.
pub fn images_stand_for_worlds()
    ensures { (p : Parts) (s : Setting) (w : World) (done : ℕ)
        → AreLawful p.shelf p.maps → Stands p w → IsSetTo p s
        → ImageStandsFor (picture p.images) s p.device done
        (core_told p.shelf p.maps (map row_of w.processes) p.block
        (all_of p.shelf.swap) done (length w.console)) w }
{}

/// What the reader gives of a segment of a whole image that stands for a world are the bytes that the world has under its name,
/// but for segments whose bytes stay with a module's image.
pub fn segments_are_read()
    ensures { (pic : Pictures) (s : Setting) (device done : ℕ) (c : CoreThere) (w : World)
        (k : ℕ) (e : SegmentEntryThere) (h : ImageStandsFor pic s device done c w)
        → IsWhole c → slice_get c.segments k ≡ Some e → stays e.place ≡ false
        → segment_bytes c k ≡ option_map (λ (x : Segment). x.bytes) (get w.names (h.name k)) }
{}
