// Laws of a call.
ghost use Rattle.std.specs.Prelude.{◌≡◌, ◌-◌, ◌<◌, ℕ, List, [], slice_index, true};
ghost use Rattle.o2_world.specs.World.{Process};
ghost use Rattle.o2_world.specs.CallParts.{Before, Effect, argument, has_arguments};
ghost use Rattle.o2_world.specs.Calls.{row_of, serviced};
ghost use Rattle.o2_world.specs.Run.{changed};
ghost use Rattle.o2_boundless.specs.Shown.{Shown};
ghost use Rattle.o2_boundless.specs.Called.{behind_effect, with_row, words_by};

/// The call of a number with its arguments is that which a step takes where they lie on the stack, the last one at its top; and what a
/// call leaves is the world behind a step with its effect, but for the dispatch, which a step counts, and the lines, which are kept as bytes.
pub fn a_call_is_that_of_a_step()
    ensures rows { (service : ℕ) (b : Before) (next : ℕ) (args : List ℕ)
        → let words = words_by (row_of service) in has_arguments b.view b.cpu words ≡ true
        → ((i : ℕ) → i < words → slice_index args i ≡ argument b.view b.cpu (words - 1 - i))
        → with_row (row_of service) b next args ≡ serviced b service next }
    ensures world { (v : Shown) (n : ℕ) (p : Process) (e : Effect) → (behind_effect v n p e).world
        ≡ record (changed v.world (record v.world.dispatch { current = n }) p e) { dispatch = v.world.dispatch; lines = [] } }
{}
