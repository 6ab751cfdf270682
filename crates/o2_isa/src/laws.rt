// Laws over the meanings of all instructions.
ghost use Rattle.std.specs.Prelude.{◌≡◌, ◌≤◌, ℕ, true, false, [], length, Err};
ghost use Rattle.o2_base.specs.declared.selector.Selector.{Selector};
ghost use Rattle.o2_isa.specs.declared.cpu.Cpu.{Cpu};
ghost use Rattle.o2_isa.specs.declared.cpu.Outcome.{Outcome};
ghost use Rattle.o2_isa.specs.declared.cpu.Stop.TheVariants.{Gate, Miss};
ghost use Rattle.o2_isa.specs.declared.instr.Instr.{Instr};
ghost use Rattle.o2_isa.specs.View.{Filling, Rest, Hidden, IsBound, Agrees, KeepsFrame};
ghost use Rattle.o2_isa.specs.Steps.{State};
ghost use Rattle.o2_isa.specs.Meaning.{steps_of};
ghost use Rattle.o2_isa.specs.Presence.{IsMissed, IsRow, whole_state, unseen, is_in};
ghost use Rattle.o2_isa.specs.SegmentLoads.{LoadsByRules, BindsLoaded};
ghost use Rattle.o2_isa.specs.Sizes.{KeepsLengths};
ghost use Rattle.o2_isa.specs.Writes.{WritesData};
ghost use Rattle.o2_isa.specs.Step.{Answers, AsBoundless, stepped, step_names, is_miss};

/// Every mnemonic checks before it changes anything, writes before it binds, binds the selectors that it leaves, and has one
/// load at most.
pub fn rows_are_rows()
    ensures { (c : Cpu) (i : Instr) (next : ℕ) → IsRow c 1 (steps_of c i next) }
{}

/// Where nothing is missed a step does the same whatever is present, and both views are alike again after its changes; what
/// is missed isn't present and is one of the names that the step loads. A step that comes to a gate loads none.
pub fn presence_is_invisible()
    ensures boundless { (f : Filling) (o : Outcome) (new old : State) → IsBound old.view → Answers o new old (stepped old) → AsBoundless f o new old }
    ensures missed { (f : Filling) (s : State) (t : Selector) → IsBound s.view → stepped s ≡ Err (Miss t) → IsMissed s.view t (step_names (whole_state f s)) }
    ensures present { (f : Filling) (o : Outcome) (new old : State) → IsBound old.view → Answers o new old (stepped old) → is_miss o ≡ false → (n : ℕ) → is_in n (step_names (whole_state f old)) ≡ true → old.view.present n ≡ true }
    ensures few { (s : State) → length (step_names s) ≤ 1 }
    ensures gates { (s : State) (service next : ℕ) → stepped s ≡ Err (Gate service next) → step_names s ≡ [] }
{}

/// What a step leaves as it is: the map, sizes, marks, and what no instruction sees, which doesn't matter either. Each name
/// keeps as many bytes as it has, and the segment registers hold what their selectors name.
pub fn steps_keep()
    ensures frame { (o : Outcome) (new old : State) → Answers o new old (stepped old) → KeepsFrame old.view new.view }
    ensures agrees { (o : Outcome) (new old : State) → Answers o new old (stepped old) → Agrees old.cpu old.view → Agrees new.cpu new.view }
    ensures lengths { (o : Outcome) (new old : State) → Answers o new old (stepped old) → KeepsLengths old.view.bytes new.view.bytes }
    ensures unseen { (r : Rest) (h : Hidden) (o : Outcome) (new old : State) → Answers o new old (stepped old) → Answers o (unseen r h new) (unseen r h old) (stepped (unseen r h old)) }
{}

/// A step puts a selector into a segment register only by the load rules of that register: DS and ES are as before, null, or
/// name data or readable code; SS is as before or names writable data, and CS is as before or names code, both with privilege
/// level 3.
pub fn segment_registers_are_loaded_by_rules()
    ensures { (o : Outcome) (new old : State) → Answers o new old (stepped old) → LoadsByRules old.view old.cpu new.cpu }
{}

/// A step changes the bytes of a name only where a segment register held it as data that can be written: code and data that can
/// only be read never change.
pub fn steps_write_data_alone()
    ensures { (o : Outcome) (new old : State) → Answers o new old (stepped old) → WritesData old.view new.view }
{}

/// What a step leaves in a segment register was there before, or is a name that the step loads: so a step needs the names in its
/// registers before it and those that it loads, and no other.
pub fn steps_bind_what_they_load()
    ensures { (o : Outcome) (new old : State) → Answers o new old (stepped old) → BindsLoaded old.view (step_names old) old.cpu new.cpu }
{}
