// Laws of the definitions.
ghost use Rattle.std.specs.Prelude.{◌≡◌, ◌+◌, ◌<◌, ℕ, Bool, List, true, map, length};
ghost use Rattle.o2_conf.specs.Dispatch.{Dispatch, dispatched, is_word_next, word_taken, words_ahead};
ghost use Rattle.o2_conf.specs.Ordinals.{by_name, name_of, rises, has_all_services};

/// The services by rising names are all services, and their names rise, byte by byte.
#[tactic(auto, unfolding(o2_base::specs::Services::services))]
pub fn services_rise()
    ensures rise { rises (map name_of by_name) ≡ true }
    ensures all { has_all_services by_name ≡ true }
{}

/// A word `discard` takes no step: behind it the same step is next, with the same budget, one word less comes before that step, and
/// the script is shorter.
pub fn a_word_leaves_whose_step_is_next()
    ensures same { (quantum : ℕ) (flags : List Bool) (d : Dispatch) → is_word_next flags d ≡ true
        → dispatched quantum flags (word_taken flags d) ≡ dispatched quantum flags d }
    ensures fewer { (flags : List Bool) (d : Dispatch) → is_word_next flags d ≡ true
        → words_ahead flags (word_taken flags d) + 1 ≡ words_ahead flags d }
    ensures shorter { (flags : List Bool) (d : Dispatch) → is_word_next flags d ≡ true
        → length (word_taken flags d).script < length d.script }
{}
