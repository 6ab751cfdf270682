// What a reader expects of the definitions. Each law is a function with nothing to do: its clauses are the law.
ghost use Rattle.std.specs.Prelude.{◌≡◌, ℕ, List};
ghost use Rattle.o2_words.specs.Words.{IsCommandFor};
ghost use Rattle.o2_words.specs.declared.words.Verb.{Verb};

/// Words are one command at most: the same verb with the same name.
pub fn one_command(words: &[String])
    ensures verb { (verb verb_too : Verb) → (name name_too : List ℕ) → IsCommandFor words.now verb name
        → IsCommandFor words.now verb_too name_too → verb ≡ verb_too }
    ensures name { (verb verb_too : Verb) → (name name_too : List ℕ) → IsCommandFor words.now verb name
        → IsCommandFor words.now verb_too name_too → name ≡ name_too }
{}
