// The module references and the imported names.
ghost use Rattle.std.specs.Prelude.{◌≡◌, ◌+◌, ◌*◌, ◌≤◌, ◌<◌, ℕ, length, IsTrue, OnOk, Ok};
ghost use Rattle.o2_ne.specs.Checks.{all_hold};
ghost use Rattle.o2_image.specs.Faults.{StepsTo};
ghost use Rattle.o2_image.specs.References.{all_references, counted_string, has_string, imported_place, reference_at, reference_step, reference_word, string_checks};
ghost use Rattle.o2_image.specs.Whole.{HasReference, HasString};

use o2_base::ModuleFault;
use o2_ne::{Head, lies_in, need, u16_at};

// Whether a string lies in the file: its length byte, and its bytes.
pub(crate) fn has_string(file: &[u8], at: u32) -> bool
    requires small { length file.now ≤ 4194304 }
    ensures value { result ≡ has_string file.now at }
    ensures lies { IsTrue result → HasString file.now at }
{
    lies_in(file, at, 1) && lies_in(file, at + 1, u32::from(file[at as usize]))
}

// The string lies in the file, else the first of its bytes that the file lacks.
fn need_string(file: &[u8], at: u32) -> Result<(), ModuleFault>
    requires small { length file.now ≤ 4194304 }
    ensures exact { result ≡ all_hold (string_checks file.now at) }
    ensures lies { OnOk result (HasString file.now at) }
{
    need(file, at, 1)?;
    need(file, at + 1, u32::from(file[at as usize]))?;
    Ok(())
}

// The string at a place.
pub(crate) fn string_at(file: &[u8], at: u32) -> &[u8]
    requires { HasString file.now at }
    ensures { result.now ≡ counted_string file.now at }
{
    let len = usize::from(file[at as usize]);
    let (_, rest) = file.split_at(at as usize + 1);
    let (text, _) = rest.split_at(len);
    text
}

// The place of the word of reference k, from 0.
pub(crate) fn reference_word(head: &Head, k: u16) -> u32
    requires { head.now.at ≤ 4194304 }
    ensures { result ≡ reference_word head.now k }
{
    head.at + u32::from(head.references_at) + 2 * u32::from(k)
}

// The place of the imported name at an offset.
pub(crate) fn imported_place(head: &Head, offset: u16) -> u32
    requires { head.now.at ≤ 4194304 }
    ensures { result ≡ imported_place head.now offset }
{
    head.at + u32::from(head.imported_at) + u32::from(offset)
}

// The name of reference k, from 0.
pub(crate) fn reference_at<'a>(file: &'a [u8], head: &Head, k: u16) -> &'a [u8]
    requires inside { head.now.at ≤ 4194304 }
    requires lies { HasReference file.now head.now k }
    ensures { result.now ≡ reference_at file.now head.now k }
{
    let word = reference_word(head, k);
    string_at(file, imported_place(head, u16_at(file, word as usize)))
}

// Reference k lies in the file.
fn check_reference(file: &[u8], head: &Head, k: u16) -> Result<(), ModuleFault>
    requires small { length file.now ≤ 4194304 }
    requires inside { head.now.at + 64 ≤ length file.now }
    ensures exact { StepsTo (k + 1) result (reference_step file.now head.now k) }
    ensures lies { OnOk result (HasReference file.now head.now k) }
{
    let word = reference_word(head, k);
    need(file, word, 2)?;
    let place = imported_place(head, u16_at(file, word as usize));
    need_string(file, place)
}

/// Each reference lies in the file.
pub(crate) fn check_references(file: &[u8], head: &Head) -> Result<(), ModuleFault>
    requires small { length file.now ≤ 4194304 }
    requires inside { head.now.at + 64 ≤ length file.now }
    ensures exact { StepsTo head.now.references result (all_references file.now head.now) }
    ensures lies { OnOk result ((k : ℕ) → k < head.now.references → HasReference file.now head.now k) }
{
    for k in 0..head.references {
        check_reference(file, head, k)?;
    }
    Ok(())
}
