// What grants, drops and reservations leave, index by index.
ghost use Rattle.std.specs.Prelude.{◌≡◌, ℕ, ◌+◌, ◌<◌, ◌≤◌, ◌&&◌, ◌==◌, nat_le, nat_lt, Bool, if◌then◌else◌};
ghost use Rattle.o2_regions.specs.declared.held.Held.{Held as HeldThere};
ghost use Rattle.o2_regions.specs.declared.held.Region.{Region as RegionThere};
ghost use Rattle.o2_regions.specs.Kept.{AreKept};
ghost use Rattle.o2_regions.specs.Maps.{IsProcess, IsRegion, Maps, dropped, emptied, end_of, entered, granted, held_at, is_reserved, less_of, more_of, same_region, table_of, with_reserved};

/// A grant changes what one process holds at one index, and its descriptor where nothing was held.
pub fn grants_are_exact()
    ensures held { (m : Maps) (pid i access q j : ℕ) (h : HeldThere) → AreKept m → IsProcess m pid → i < 8192
        → held_at (granted m pid i h access) q j ≡ (if (q == pid) && (j == i) then more_of (held_at m pid i) h else held_at m q j) }
    ensures tables { (m : Maps) (pid i access q : ℕ) (h : HeldThere) → AreKept m → IsProcess m pid
        → table_of (granted m pid i h access) q ≡ (if q == pid then entered (held_at m pid i) h (table_of m pid) i access else table_of m q) }
    ensures reserved { (m : Maps) (pid i access : ℕ) (h : HeldThere) → (granted m pid i h access).reserved ≡ m.reserved }
    ensures processes { (m : Maps) (pid i access : ℕ) (h : HeldThere) → (granted m pid i h access).processes ≡ m.processes }
{}

/// A drop changes what one process holds at one index, and with the last hold its descriptor.
pub fn drops_are_exact()
    ensures held { (m : Maps) (pid i q j : ℕ) → AreKept m → IsProcess m pid → i < 8192
        → held_at (dropped m pid i) q j ≡ (if (q == pid) && (j == i) then less_of (held_at m pid i) else held_at m q j) }
    ensures tables { (m : Maps) (pid i q : ℕ) → AreKept m → IsProcess m pid
        → table_of (dropped m pid i) q ≡ (if q == pid then emptied (held_at m pid i) (table_of m pid) i else table_of m q) }
    ensures reserved { (m : Maps) (pid i : ℕ) → (dropped m pid i).reserved ≡ m.reserved }
    ensures processes { (m : Maps) (pid i : ℕ) → (dropped m pid i).processes ≡ m.processes }
{}

/// A reservation, or its end, changes the indexes of its run in its region.
pub fn reservations_are_exact()
    ensures { (m : Maps) (g h : RegionThere) (first count i : ℕ) (mark : Bool) → AreKept m → IsRegion m g → IsRegion m h → first + count ≤ end_of g
        → is_reserved (with_reserved m g first count mark) h i ≡ (if same_region h g && (nat_le first i && nat_lt i (first + count)) then mark else is_reserved m h i) }
{}
