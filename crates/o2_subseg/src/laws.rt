// What holds of every heap, and over any calls on one.
ghost use Rattle.std.specs.Prelude.{◌≡◌, ◌≢◌, ℕ, ◌+◌, ◌-◌, ◌/◌, ◌<◌, ◌≤◌, ◌&&◌, ◌||◌, not, nat_le, List, ◌∷◌, [], Some};
ghost use Rattle.o2_world.specs.Heaps.{AreBytes, Heap, controls, heap_of, units};
ghost use Rattle.o2_world.specs.HeapRulings.{HeapRuling, area_of, giving_back, rounded, setting_up, taking};
ghost use Rattle.o2_subseg.specs.Laws.{AreFree, HasHeap, HasReturn, HeapCall, Runs, TakesUnit, is_among, ruling_of, unit_at};

/// Two good heaps of one size and one list of units have the same control words.
pub fn forms_are_unique()
    ensures { (b c : List ℕ) (g h : Heap) → AreBytes b → AreBytes c → heap_of b ≡ Some g → heap_of c ≡ Some h
        → g.size ≡ h.size → units g ≡ units h → controls g ≡ controls h }
{}

/// Behind a call that answers 0 the heap is good, its units are the old ones with exactly those changed that were taken, freed or new, and
/// no byte outside its control words changes.
pub fn calls_change_units()
    ensures fresh { (bytes : List ℕ) (size : ℕ) → (setting_up 1 size bytes).error ≡ 0
        → HasHeap bytes (setting_up 1 size bytes).bytes (area_of size) (λ k. nat_le 2 k) }
    ensures grown { (bytes : List ℕ) (size : ℕ) (h : Heap) → AreBytes bytes → heap_of bytes ≡ Some h → (setting_up 0 size bytes).error ≡ 0
        → HasHeap bytes (setting_up 0 size bytes).bytes (area_of size) (λ k. unit_at h k || nat_le (h.size / 4) k) }
    ensures taken { (bytes : List ℕ) (size : ℕ) (h : Heap) → AreBytes bytes → heap_of bytes ≡ Some h → (taking size bytes).error ≡ 0
        → HasHeap bytes (taking size bytes).bytes h.size (λ k. unit_at h k && not (is_among ((taking size bytes).value / 4) (rounded size / 4) k)) }
    ensures freed { (bytes : List ℕ) (offset size : ℕ) (h : Heap) → AreBytes bytes → heap_of bytes ≡ Some h → (giving_back offset size bytes).error ≡ 0
        → HasHeap bytes (giving_back offset size bytes).bytes h.size (λ k. unit_at h k || is_among (offset / 4) (rounded size / 4) k) }
{}

/// A call that answers an error changes no byte.
pub fn refusals_change_nothing()
    ensures set { (bytes : List ℕ) (flags size : ℕ) → (setting_up flags size bytes).error ≢ 0 → (setting_up flags size bytes).bytes ≡ bytes }
    ensures taken { (bytes : List ℕ) (size : ℕ) → (taking size bytes).error ≢ 0 → (taking size bytes).bytes ≡ bytes }
    ensures freed { (bytes : List ℕ) (offset size : ℕ) → (giving_back offset size bytes).error ≢ 0 → (giving_back offset size bytes).bytes ≡ bytes }
{}

/// DosSubAlloc takes the lowest place with enough free units in a row, and answers 311 exactly where there is none.
pub fn takes_the_lowest()
    ensures free { (bytes : List ℕ) (size : ℕ) (h : Heap) → AreBytes bytes → heap_of bytes ≡ Some h → (taking size bytes).error ≡ 0
        → AreFree h ((taking size bytes).value / 4) (rounded size / 4) }
    ensures lowest { (bytes : List ℕ) (size p : ℕ) (h : Heap) → AreBytes bytes → heap_of bytes ≡ Some h → (taking size bytes).error ≡ 0
        → AreFree h p (rounded size / 4) → (taking size bytes).value / 4 ≤ p }
    ensures none { (bytes : List ℕ) (size p : ℕ) (h : Heap) → AreBytes bytes → heap_of bytes ≡ Some h → (taking size bytes).error ≡ 311
        → AreFree h p (rounded size / 4) → ⊥ }
    ensures some { (bytes : List ℕ) (size : ℕ) (h : Heap) → AreBytes bytes → heap_of bytes ≡ Some h → size ≢ 0 → size ≤ h.size - 8
        → ((p : ℕ) → AreFree h p (rounded size / 4) → ⊥) → (taking size bytes).error ≡ 311 }
{}

/// Over any calls that make no new heap, between which nobody changes the heap, no unit is taken twice without a DosSubFree of it in
/// between that answers 0.
pub fn nothing_is_taken_twice()
    ensures { (k : ℕ) (first next last : List ℕ) (a b : HeapCall) (calls : List (HeapCall × HeapRuling)) → AreBytes first → AreBytes next
        → TakesUnit k a (ruling_of a first) → heap_of next ≡ heap_of (ruling_of a first).bytes → Runs next calls last
        → TakesUnit k b (ruling_of b last) → HasReturn k calls }
{}
