// The names of shared segments, and the texts behind pointers.
ghost use Rattle.std.specs.Prelude.{◌≡◌, ◌≤◌, IfOk, Some, length, take, drop, find};
ghost use Rattle.std.specs.List.{list_all};
ghost use Rattle.std.specs.Option.{option_copied};
ghost use Rattle.o2_world.specs.Views.{bytes_in, view_of};
ghost use Rattle.o2_world.specs.Known.{same_text, text_name};
ghost use Rattle.o2_world.specs.SharedNames.{before_zero, bytes_at, folded, is_name, is_name_byte, looked_at, may_read_text, name_by, name_front, text_at};
ghost use Rattle.o2_world_parts.specs.Names.{has_text};

use crate::pointing::{bound, bytes_of, may_read};
use crate::{Process, Segment};
use o2_base::{Bytes, NoMemory};
use std::alloc::Global;

/// How each name begins, folded.
const FRONT: [u8; 10] = *b"\\sharemem\\";

/// The most bytes of a name, without its zero.
const NAME_MOST: usize = 128;

// Texts.

fn folded(alloc: Global, text: &[u8]) -> Result<Vec<u8>, NoMemory>
    ensures { IfOk result (λ v. v.items ≡ folded text.now) }
{
    let mut letters = Vec::new(alloc);
    for letter in text {
        letters.push(letter.to_ascii_lowercase())?;
    }
    Ok(letters)
}

fn same_text(one: &[u8], other: &[u8]) -> bool
    ensures { result ≡ same_text one.now other.now }
{
    if one.len() != other.len() {
        return false;
    }
    for k in 0..one.len() {
        let here = one[k];
        if here != other[k] {
            return false;
        }
    }
    true
}

fn pair_named<'a>(texts: &'a [(Bytes, u64)], text: &[u8]) -> Option<&'a (Bytes, u64)>
    ensures { option_copied result ≡ find (has_text text.now) texts.now }
{
    texts.iter().find(|pair| same_text(pair.0.as_slice(), text))
}

/// The name of a text.
#[tactic(auto, using(crate::proofs::Names::named))]
pub fn name_of(texts: &[(Bytes, u64)], text: &[u8]) -> Option<u64>
    ensures { result ≡ text_name texts.now text.now }
{
    match pair_named(texts, text) {
        Some(pair) => Some(pair.1),
        None => None,
    }
}

fn are_name_bytes(bytes: &[u8]) -> bool
    ensures { result ≡ list_all is_name_byte bytes.now }
{
    bytes.iter().all(|x| 0x21 <= *x && *x <= 0x7E)
}

fn has_front(letters: &[u8]) -> bool
    requires { 10 ≤ length letters.now }
    ensures { result ≡ same_text (take 10 letters.now) name_front }
{
    same_text(&letters[..FRONT.len()], &FRONT)
}

/// Whether a text, with its letters folded beside it, is a name.
fn is_name(text: &[u8], letters: &[u8]) -> bool
    requires { letters.now ≡ folded text.now }
    ensures { result ≡ is_name text.now }
{
    if text.len() <= FRONT.len() || NAME_MOST < text.len() {
        return false;
    }
    has_front(letters) && are_name_bytes(&text[FRONT.len()..])
}

fn name_by(alloc: Global, text: &[u8]) -> Result<Option<Bytes>, NoMemory>
    ensures { IfOk result (λ n. n ≡ name_by (Some text.now)) }
{
    let letters = folded(alloc, text)?;
    if is_name(text, &letters) {
        Ok(Some(Bytes::new(letters)))
    } else {
        Ok(None)
    }
}

// Texts behind pointers.

/// The bytes up to the first zero, where there is one.
fn before_zero(alloc: Global, bytes: &[u8]) -> Result<Option<Bytes>, NoMemory>
    ensures { IfOk result (λ t. t ≡ before_zero bytes.now) }
{
    let mut text = Vec::new(alloc);
    for byte in bytes {
        if *byte == 0 {
            return Ok(Some(Bytes::new(text)));
        }
        text.push(*byte)?;
    }
    Ok(None)
}

/// How many bytes are looked at, of 129 at most: up to the first zero, that one too.
fn looked_at(bytes: &[u8]) -> u16
    ensures { result ≡ looked_at 129 bytes.now }
{
    for k in 0..129u16 {
        if k as usize >= bytes.len() {
            return 129;
        }
        let here = bytes[k as usize];
        if here == 0 {
            return k + 1;
        }
    }
    129
}

/// The first 129 bytes, or all of fewer.
fn front(bytes: &[u8]) -> &[u8]
    ensures { result.now ≡ take 129 bytes.now }
{
    if bytes.len() <= 129 {
        bytes
    } else {
        &bytes[..129]
    }
}

/// The name that a text gives, folded, where there is one and it is a name.
fn name_in(alloc: Global, bytes: &[u8]) -> Result<Option<Bytes>, NoMemory>
    ensures { IfOk result (λ n. n ≡ name_by (before_zero bytes.now)) }
{
    match before_zero(alloc, bytes)? {
        None => Ok(None),
        Some(text) => name_by(alloc, text.as_slice()),
    }
}

/// The bytes of a name from an offset on.
#[tactic(auto, using(crate::proofs::Names::behind))]
fn bytes_from(
    alloc: Global,
    names: &[(u64, Segment)],
    name: u64,
    offset: u16,
) -> Result<Vec<u8>, NoMemory>
    ensures { IfOk result (λ v. v.items ≡ drop offset (bytes_in names.now name)) }
{
    let bytes = bytes_of(alloc, names, name)?;
    if bytes.len() <= offset as usize {
        return Ok(Vec::new(alloc));
    }
    Ok(Vec::from_slice(alloc, &bytes[offset as usize..])?)
}

/// The bytes behind a pointer, up to the end of its segment.
#[tactic(auto, using(crate::proofs::Names::behind))]
fn bytes_at(
    alloc: Global,
    names: &[(u64, Segment)],
    process: &Process,
    selector: u16,
    offset: u16,
) -> Result<Vec<u8>, NoMemory>
    ensures { IfOk result (λ v. v.items ≡ bytes_at (view_of names.now process.now) selector offset) }
{
    match bound(&process.held, selector) {
        None => Ok(Vec::new(alloc)),
        Some(held) => bytes_from(alloc, names, held.name, offset),
    }
}

/// Whether a pointer of a process is good for a text.
pub fn may_read_text(
    alloc: Global,
    names: &[(u64, Segment)],
    process: &Process,
    selector: u16,
    offset: u16,
) -> Result<bool, NoMemory>
    ensures { IfOk result (λ b. b ≡ may_read_text (view_of names.now process.now) selector offset) }
{
    let bytes = bytes_at(alloc, names, process, selector, offset)?;
    let size = looked_at(&bytes);
    Ok(may_read(names, process, selector, offset, u32::from(size)))
}

/// The name that the text behind a pointer gives, folded, where it is one.
pub fn name_at(
    alloc: Global,
    names: &[(u64, Segment)],
    process: &Process,
    selector: u16,
    offset: u16,
) -> Result<Option<Bytes>, NoMemory>
    ensures { IfOk result (λ n. n ≡ name_by (text_at (view_of names.now process.now) selector offset)) }
{
    let bytes = bytes_at(alloc, names, process, selector, offset)?;
    name_in(alloc, front(&bytes))
}
