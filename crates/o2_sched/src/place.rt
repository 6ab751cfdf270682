// The place in the script and in the turns.
ghost use Rattle.std.specs.Prelude.{◌≡◌, ◌≤◌, ◌<◌, ◌+◌, ◌⊎◌, ◌∷◌, ℕ, List, true, false, length, drop, position, nat_lt, is_some, slice_index_or, ◌&&◌, IfSome};
ghost use Rattle.o2_conf.specs.declared.script.Word.{Word as ScriptWord};
ghost use Rattle.o2_conf.specs.declared.script.Word.TheVariants.{Discard};
ghost use Rattle.o2_conf.specs.Dispatch.{lives, next_live, turn_after, is_due, live_script, dispatched, words_before, behind_word, is_word_next, word_taken};
ghost use Rattle.o2_sched.specs.Places.{place_dispatch, AreTurns};

use o2_conf::Word;

/// How many words of the script are behind, the process of the slice or turn with its steps left, and the process of the
/// last turn (0 before the first).
#[derive(Clone, Copy)]
pub struct Place {
    pub at: usize,
    pub current: u16,
    pub left: u32,
    pub turn: u16,
}

/// Whether a process lives.
pub fn is_live(flags: &[bool], number: u16) -> bool
    ensures { result ≡ lives flags.now number }
{
    number > 0 && flags.get(number as usize - 1).copied().unwrap_or(false)
}

fn first_live(flags: &[bool]) -> Option<usize>
    ensures value { result ≡ position (λ b. b) flags.now }
    ensures bound { IfSome result (λ i. i < length flags.now) }
{
    flags.iter().position(|live| *live)
}

/// The lowest live number above another.
fn live_above(flags: &[bool], number: u16) -> Option<u16>
    requires few { length flags.now < 65 }
    requires inside { number ≤ length flags.now }
    ensures { result ≡ next_live flags.now number }
{
    let from = number as usize;
    match first_live(&flags[from..]) {
        None => None,
        Some(i) => Some((i + from + 1) as u16),
    }
}

/// The next higher live number, or the lowest.
fn next_turn(flags: &[bool], number: u16) -> u16
    requires few { length flags.now < 65 }
    requires inside { number ≤ length flags.now }
    ensures value { result ≡ turn_after flags.now number }
    ensures bound { result ≤ length flags.now }
{
    match live_above(flags, number) {
        Some(next) => next,
        None => live_above(flags, 0).unwrap_or(0),
    }
}

/// Fills in the process whose turn comes behind each process's, and at place 0 the first: once for each that ends, so that
/// no step looks for it.
pub fn fill_turns(turns: &mut Vec<u16>, flags: &[bool])
    requires few { length flags.now < 65 }
    requires count { length turns.old.items ≡ length flags.now + 1 }
    ensures { AreTurns turns.new.items flags.now }
{
    for number in 0..turns.len() {
        turns[number] = next_turn(flags, number as u16);
    }
}

/// Whether a word starts a slice: its process lives.
fn is_due(flags: &[bool], word: &Word) -> bool
    ensures { result ≡ is_due flags.now word.now }
{
    match *word {
        Word::Slice(process, _) => is_live(flags, process),
        Word::Discard => false,
    }
}

/// How many words stand before the first that starts a slice.
fn passed(flags: &[bool], words: &[Word]) -> usize
    ensures within { result ≤ length words.now }
    ensures script { drop result words.now ≡ live_script flags.now words.now }
{
    let mut count = 0;
    while count < words.len() && !is_due(flags, &words[count]) {
        count += 1;
    }
    count
}

/// Whether the slice or turn goes on: it has steps left, and its process lives.
fn goes_on(place: &Place, flags: &[bool]) -> bool
    ensures { result ≡ (nat_lt 0 place.now.left && lives flags.now place.now.current) }
{
    place.left > 0 && is_live(flags, place.current)
}

/// Whether a word is a slice of a process that doesn't live.
fn is_idle(flags: &[bool], word: &Word) -> bool
    ensures before { result ≡ true → (words : List ScriptWord) → words_before flags.now (word.now ∷ words) ≡ words_before flags.now words }
    ensures behind { result ≡ true → (words : List ScriptWord) → behind_word flags.now (word.now ∷ words) ≡ behind_word flags.now words }
    ensures due { result ≡ false → (word.now ≡ Discard) ⊎ ((words : List ScriptWord) → words_before flags.now (word.now ∷ words) ≡ 0) }
{
    match *word {
        Word::Slice(process, _) => !is_live(flags, process),
        Word::Discard => false,
    }
}

/// How many words there are up to the next `discard` and with it, where that comes before a word that starts a slice; 0 where none does.
fn to_word(flags: &[bool], words: &[Word]) -> usize
    ensures within { result ≤ length words.now }
    ensures next { nat_lt 0 result ≡ nat_lt 0 (words_before flags.now words.now) }
    ensures behind { 0 < result → drop result words.now ≡ behind_word flags.now words.now }
{
    let mut count = 0;
    while count < words.len() && is_idle(flags, &words[count]) {
        count += 1;
    }
    match words.get(count) {
        Some(Word::Discard) => count + 1,
        _ => 0,
    }
}

/// How many words of the script there are from a place up to the `discard` that comes before the next step, and with it; 0 where none
/// does.
pub fn to_discard(place: Place, script: &[Word], flags: &[bool]) -> usize
    requires within { place.at ≤ length script.now }
    ensures next { (budget : ℕ) → nat_lt 0 result ≡ is_word_next flags.now (place_dispatch script.now place budget) }
    ensures taken { 0 < result → (budget : ℕ) → place_dispatch script.now (record place { at = place.at + result }) budget
        ≡ word_taken flags.now (place_dispatch script.now place budget) }
    ensures within { place.at + result ≤ length script.now }
{
    let runs = goes_on(&place, flags);
    if runs {
        return 0;
    }
    to_word(flags, &script[place.at..])
}

/// The turn passes on: the place behind which the script stays as it is.
fn turned(place: Place, at: usize, turns: &[u16], quantum: u32) -> Place
    requires { place.turn < length turns.now }
    ensures { result ≡ record { at = at; current = slice_index_or turns.now place.turn 0; left = quantum; turn = slice_index_or turns.now place.turn 0 } }
{
    let number = turns[place.turn as usize];
    Place {
        at,
        current: number,
        left: quantum,
        turn: number,
    }
}

/// The place of the next step.
pub fn advanced(place: Place, script: &[Word], flags: &[bool], turns: &[u16], quantum: u32) -> Place
    requires within { place.at ≤ length script.now }
    requires few { length flags.now < 65 }
    requires inside { place.turn ≤ length flags.now }
    requires turns { AreTurns turns.now flags.now }
    ensures dispatch { (budget : ℕ) → place_dispatch script.now result budget ≡ dispatched quantum flags.now (place_dispatch script.now place budget) }
    ensures within { result.at ≤ length script.now }
    ensures inside { result.turn ≤ length flags.now }
{
    if goes_on(&place, flags) {
        return place;
    }
    let at = place.at + passed(flags, &script[place.at..]);
    if at < script.len() {
        match script[at] {
            Word::Slice(current, left) => Place {
                at: at + 1,
                current,
                left,
                turn: place.turn,
            },
            Word::Discard => turned(place, at, turns, quantum),
        }
    } else {
        turned(place, at, turns, quantum)
    }
}
