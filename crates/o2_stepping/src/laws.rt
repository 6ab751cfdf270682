// What a step in a store needs is what the world's next step needs.
ghost use Rattle.std.specs.Prelude.{◌≡◌, ◌<◌, ◌≤◌, [], true};
ghost use Rattle.o2_isa.specs.declared.cpu.Cpu.{Cpu as CpuThere};
ghost use Rattle.o2_isa.specs.Presence.{SameSelectors};
ghost use Rattle.o2_isa.specs.View.{bound_registers};
ghost use Rattle.o2_regions.specs.Maps.{Maps};
ghost use Rattle.o2_run.specs.Room.{Fits, room};
ghost use Rattle.o2_run.specs.Stops.{IsSwapFull};
ghost use Rattle.o2_segbus.specs.Seen.{hold_in};
ghost use Rattle.o2_stands.specs.Parts.{Parts};
ghost use Rattle.o2_stands.specs.Stands.{AreLawful, IsSetTo, Stands};
ghost use Rattle.o2_store.specs.Loads.{live_load, swap_load};
ghost use Rattle.o2_swapmap.specs.Piles.{all_of};
ghost use Rattle.o2_world.specs.Effect.{effect};
ghost use Rattle.o2_world.specs.Known.{known_of};
ghost use Rattle.o2_world.specs.Run.{words_coming};
ghost use Rattle.o2_world.specs.World.{Process, Setting, World};
ghost use Rattle.o2_stepping.specs.Nexts.{IsNext, next_start};
ghost use Rattle.o2_stepping.specs.Rooms.{all_names, needed_names, room_in, whole_names};
ghost use Rattle.o2_stepping.specs.Shapes.{SameHolds};
ghost use Rattle.o2_stepping.specs.Worlds.{away_of, before_in};

/// Where a machine over a store stands for a world, a step in the store starts from what the world's next step starts from.
pub fn steps_start_alike()
    ensures { (p : Parts) (s : Setting) (w : World) (q : Process) → IsNext p s w q → let b = next_start s w q in
        before_in (away_of p.shelf p.maps p.images p.device p.block) p.shelf p.maps b.number q.cpu w.input (known_of s w) ≡ b }
{}

/// Where what a step that changes nothing but bytes needed in a store, behind it, is no more than the memory, the world's next
/// step fits, also where a sink failed in it, which leaves the segment registers as they were; where what any step needs is
/// more, as far as that is known before it and without what was discarded, the room of that step is more than the memory of the setting.
/// Where the store's load is more than its blocks, and all that lives more than its memory, so it is in the world before whose next step
/// no word comes.
pub fn rooms_are_those_of_the_world()
    ensures fits { (p : Parts) (s : Setting) (w : World) (q : Process) (m : Maps) (c : CpuThere) → IsNext p s w q
        → SameHolds p.maps m → let b = next_start s w q in c ≡ (effect b).cpu → (effect b).changes ≡ []
        → room_in p.shelf (all_names b (bound_registers (hold_in m b.number) c)) ≤ p.shelf.places.size
        → Fits true s w }
    ensures fits_in_part { (p : Parts) (s : Setting) (w : World) (q : Process) (m : Maps) (c : CpuThere) → IsNext p s w q
        → SameHolds p.maps m → let b = next_start s w q in c ≡ b.cpu → SameSelectors (effect b).cpu b.cpu → (effect b).changes ≡ []
        → room_in p.shelf (all_names b (bound_registers (hold_in m b.number) c)) ≤ p.shelf.places.size
        → Fits true s w }
    ensures lacks { (p : Parts) (s : Setting) (w : World) (q : Process) → IsNext p s w q
        → p.shelf.places.size < room_in p.shelf (whole_names p.shelf (needed_names (next_start s w q))) → s.memory < room s w }
    ensures full { (p : Parts) (s : Setting) (w : World) → AreLawful p.shelf p.maps → IsSetTo p s → Stands p w
        → words_coming w ≡ 0 → (all_of p.shelf.swap < swap_load p.shelf) × (p.shelf.places.size < live_load p.shelf)
        → IsSwapFull p.device s w }
{}
