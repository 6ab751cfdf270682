// What a call on segments asks for, by its words.
ghost use Rattle.std.specs.Prelude.{◌≡◌, ◌≤◌, ◌≢◌, Some};
ghost use Rattle.o2_isa.specs.View.{View, Filling};
ghost use Rattle.o2_world.specs.Calls.{Before, row_of as row_there};
ghost use Rattle.o2_world.specs.Outcomes.{CallRow, by_ruling};
ghost use Rattle.o2_world.specs.Slots.{pointers_in};
ghost use Rattle.o2_gate.specs.Befores.{boundless};
ghost use Rattle.o2_gate.specs.Given.{IsTextIn, word_in};
ghost use Rattle.o2_gate.specs.Requests.{request_of as request_there, ruling_of};
ghost use Rattle.o2_gate.specs.Targets.{looked_in, target_in};

use crate::arguments::Arguments;
use crate::given::Given;
use crate::requests::{HugeArguments, SegmentArguments, SharedArguments};

/// What a call on segments asks for: its ruling is that of the row.
fn request_of(service: u16, given: &Given) -> SegmentArguments
    requires first { 5 ≤ service }
    requires last { service ≤ 18 }
    ensures service { (request_there result).service ≡ service }
    ensures ruled { (v : View) (f : Filling) (b : Before) (r : CallRow) → row_there service ≡ Some r
        → IsTextIn v (word_in given.now.words) given.now.text r.slots → b.view ≡ boundless f v
        → r.outcome b (word_in given.now.words) ≡ by_ruling r.slots b (ruling_of result b.known b.number b.cpu) }
    ensures aims { (v : View) (f : Filling) (r : CallRow) → row_there service ≡ Some r
        → IsTextIn v (word_in given.now.words) given.now.text r.slots
        → pointers_in r.slots (boundless f v) (word_in given.now.words) ≡ target_in r.slots (looked_in result) (word_in given.now.words) }
{
    let words = given.words;
    let text = given.text;
    match service {
        5 => SegmentArguments::Alloc {
            size: words[3],
            flags: words[0],
        },
        6 => SegmentArguments::Realloc {
            size: words[1],
            selector: words[0],
        },
        7 => SegmentArguments::Free(words[0]),
        8 => SegmentArguments::Size(words[2]),
        9 => SegmentArguments::Lock(words[0]),
        10 => SegmentArguments::Unlock(words[0]),
        11 => SegmentArguments::Alias(words[2]),
        12 => SegmentArguments::Shared(SharedArguments::Name {
            size: words[4],
            text,
        }),
        13 => SegmentArguments::Shared(SharedArguments::Share(text)),
        14 => SegmentArguments::Shared(SharedArguments::Give {
            selector: words[3],
            to: words[2],
        }),
        15 => SegmentArguments::Shared(SharedArguments::Get(words[0])),
        16 => SegmentArguments::Huge(HugeArguments::Alloc {
            segs: words[5],
            part: words[4],
            most: words[1],
            flags: words[0],
        }),
        17 => SegmentArguments::Huge(HugeArguments::Realloc {
            segs: words[2],
            part: words[1],
            selector: words[0],
        }),
        18 => SegmentArguments::Huge(HugeArguments::Shift),
        _ => unreachable!(),
    }
}

/// The arguments of a call on segments.
pub(crate) fn ask(service: u16, given: &Given) -> Arguments
    requires first { 5 ≤ service }
    requires last { service ≤ 18 }
    ensures service { result.service ≡ service }
    ensures words { result.words ≡ given.now.words }
    ensures ruled { (v : View) (f : Filling) (b : Before) (r : CallRow) → row_there service ≡ Some r
        → IsTextIn v (word_in given.now.words) given.now.text r.slots → b.view ≡ boundless f v
        → r.outcome b (word_in given.now.words) ≡ by_ruling r.slots b (ruling_of result.request b.known b.number b.cpu) }
    ensures aims { (v : View) (f : Filling) (r : CallRow) → row_there service ≡ Some r
        → IsTextIn v (word_in given.now.words) given.now.text r.slots
        → pointers_in r.slots (boundless f v) (word_in given.now.words) ≡ target_in r.slots (looked_in result.request) (word_in given.now.words) }
{
    Arguments {
        service,
        words: given.words,
        request: request_of(service, given),
    }
}
