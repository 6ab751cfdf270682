// The words of the program.
ghost use Rattle.std.specs.Prelude.{◌≡◌, ◌≤◌, ◌<◌, ◌+◌, ◌++◌, ◌∷◌, [], ℕ, List, length, option_map, IfNone, IfOk, IfSome, Some};
ghost use Rattle.std.specs.Option.{ForSome};
ghost use Rattle.os2vectors.specs.Words.{digit_value, pair_bytes, few, opcode_bytes};

use clap::{Arg, ArgMatches, Command, value_parser};
use o2_vectors::Wanted;
use std::alloc::{AllocError, Global};

/// The word OPCODE.
fn opcode<'a>(alloc: Global) -> Arg<'a> {
    Arg::new(alloc, "OPCODE").required(true).help(
        "The first bytes in hexadecimal, prefixes too, as 00, F3A4 or 0F02; F7.4 asks for /4 in the ModRM byte",
    )
}

/// The word COUNT.
fn count<'a>(alloc: Global) -> Arg<'a> {
    Arg::new(alloc, "COUNT")
        .required(true)
        .value_parser(value_parser!(u32).range(..=1_000_000))
        .help("How many vectors")
}

/// The word SEED.
fn seed<'a>(alloc: Global) -> Arg<'a> {
    Arg::new(alloc, "SEED")
        .required(true)
        .value_parser(value_parser!(u64))
        .help("A number; the same words give the same vectors")
}

/// The program's words.
pub fn program<'a>(alloc: Global) -> Result<Command<'a>, AllocError> {
    Command::new(alloc, "os2vectors")
        .version("1.0.0")
        .about(
            "Makes test vectors of the 80286's instructions in protected mode: the state before and after a step, as JSON",
        )
        .arg(opcode(alloc))?
        .arg(count(alloc))?
        .arg(seed(alloc))
}

/// The value of a hexadecimal digit.
fn digit(byte: u8) -> Option<u8>
    ensures within { IfSome result (λ d. d < 16) }
    ensures exact { result ≡ digit_value byte }
{
    match byte {
        b'0'..=b'9' => Some(byte - b'0'),
        b'A'..=b'F' => Some(byte - b'A' + 10),
        b'a'..=b'f' => Some(byte - b'a' + 10),
        _ => None,
    }
}

/// One digit more: the first of a pair is kept, and the second makes a byte.
#[tactic(auto, using(crate::proofs::Pairs::kept, crate::proofs::Pairs::made))]
fn add_digit(bytes: &mut Vec<u8>, high: Option<u8>, digit: u8) -> Result<Option<u8>, AllocError>
    requires digit { digit < 16 }
    requires high { ForSome high (λ h. h < 16) }
    ensures within { IfOk result (λ h. ForSome h (λ d. d < 16)) }
    ensures reads { IfOk result (λ h. (c : ℕ) (cs : List ℕ) → digit_value c ≡ Some digit
        → option_map (λ bs. bytes.new.items ++ bs) (pair_bytes cs h)
        ≡ option_map (λ bs. bytes.old.items ++ bs) (pair_bytes (c ∷ cs) high)) }
{
    match high {
        None => Ok(Some(digit)),
        Some(high) => {
            bytes.push(high * 16 + digit)?;
            Ok(None)
        }
    }
}

/// The bytes that were read, where no digit is left over and there are 1 to 10.
#[tactic(auto, using(crate::proofs::Pairs::few_some, crate::proofs::Pairs::few_not))]
fn whole(bytes: Vec<u8>, high: Option<u8>) -> Option<Vec<u8>>
    ensures exact { option_map (λ v. v.items) result
        ≡ few (option_map (λ bs. bytes.items ++ bs) (pair_bytes [] high)) }
    ensures short { IfSome result (λ v. length v.items ≤ 10) }
{
    match high {
        Some(_) => None,
        None => {
            if bytes.is_empty() || bytes.len() > 10 {
                None
            } else {
                Some(bytes)
            }
        }
    }
}

/// The bytes that pairs of hexadecimal digits write; none where they don't write 1 to 10.
#[tactic(auto, using(crate::proofs::Pairs::none_yet, crate::proofs::Pairs::undigit))]
fn bytes_of(alloc: Global, text: &[u8]) -> Result<Option<Vec<u8>>, AllocError>
    ensures exact { IfOk result (λ o. option_map (λ v. v.items) o ≡ opcode_bytes text.now) }
    ensures short { IfOk result (λ o. IfSome o (λ v. length v.items ≤ 10)) }
{
    let mut bytes = Vec::new(alloc);
    let mut high = None;
    for byte in text {
        let Some(value) = digit(*byte) else {
            return Ok(None);
        };
        high = add_digit(&mut bytes, high, value)?;
    }
    Ok(whole(bytes, high))
}

/// The digits of OPCODE, and what is asked of bits 3 to 5 behind them; none where that is no number below 8.
fn parts(text: &[u8]) -> Option<(&[u8], Option<u8>)>
    ensures all { IfSome result (λ p. IfNone p.1 (p.0.now ≡ text.now)) }
    ensures reg { IfSome result (λ p. IfSome p.1
        (λ r. (r < 8) × (text.now ≡ p.0.now ++ 46 ∷ (48 + r) ∷ []))) }
{
    match text {
        [front @ .., b'.', last] => match *last {
            b'0'..=b'7' => Some((front, Some(*last - b'0'))),
            _ => None,
        },
        all => Some((all, None)),
    }
}

/// What the words ask for; none where OPCODE has another form.
pub fn wish(alloc: Global, found: &ArgMatches<'_>) -> Result<Option<Wanted>, AllocError> {
    let text = found.get_str("OPCODE").unwrap_or("").as_bytes();
    let Some((digits, reg)) = parts(text) else {
        return Ok(None);
    };
    let Some(opcode) = bytes_of(alloc, digits)? else {
        return Ok(None);
    };
    Ok(Some(Wanted {
        opcode,
        reg,
        count: found.get_one::<u32>("COUNT").unwrap_or(0),
        seed: found.get_one::<u64>("SEED").unwrap_or(0),
    }))
}
