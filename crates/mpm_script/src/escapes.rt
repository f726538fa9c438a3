//! Texts that spell bytes, as the scripts have them. What a text spells stands in `specs/Escapes.antt`.
ghost use Rattle.std.specs.Prelude.{◌≡◌, ◌+◌, ◌*◌, ◌<◌, ℕ, List, [], true, IfSome, IfNone, IfOk, MatchOption, SomeIff, length};
ghost use Rattle.std.specs.Char.{is_ascii_hexdigit, digit_value};
ghost use Rattle.mpm_script.specs.Escapes.{is_plain, letter_value, Spells};
ghost use Rattle.mpm_script.specs.EscapesInside.{BeginsEscape, BeginsByte, WritesByte};

use mpm_base::{NoMemory, Octets};
use std::alloc::Global;

// The bytes that the text spells, or None where it spells none.
pub(crate) fn spelled(alloc: Global, text: &[u8]) -> Result<Option<Octets>, NoMemory>
    ensures { IfOk result
        (λ read. MatchOption read ((bytes : List ℕ) → ¬ Spells text.now bytes) (Spells text.now)) }
{
    let mut bytes = Octets::make(alloc);
    let mut rest = text;
    'bytes: while !rest.is_empty() {
        let Some((byte, behind)) = first_byte(rest) else {
            return Ok(None);
        };
        bytes.add(&[byte])?;
        rest = behind;
    }
    Ok(Some(bytes))
}

// The byte that the text spells first, and the text behind it.
fn first_byte(text: &[u8]) -> Option<(u8, &[u8])>
    ensures some { IfSome result (λ first. BeginsByte text.now first.0 first.1.now) }
    ensures none { IfNone result ((b : ℕ) (rest : List ℕ) → ¬ BeginsByte text.now b rest) }
    ensures shorter { IfSome result (λ first. length first.1.now < length text.now) }
{
    let (first, rest) = text.split_first()?;
    if *first == b'\\' {
        escaped_byte(rest)
    } else if is_plain(*first) {
        Some((*first, rest))
    } else {
        None
    }
}

fn is_plain(byte: u8) -> bool
    ensures { result ≡ is_plain byte }
{
    byte >= 32 && byte != b'\\' && byte != 127
}

// The byte that the text behind a backslash stands for, and the text behind that.
fn escaped_byte(text: &[u8]) -> Option<(u8, &[u8])>
    ensures some { IfSome result (λ first. BeginsEscape text.now first.0 first.1.now) }
    ensures none { IfNone result ((b : ℕ) (rest : List ℕ) → ¬ BeginsEscape text.now b rest) }
    ensures shorter { IfSome result (λ first. length first.1.now < length text.now) }
{
    let (letter, rest) = text.split_first()?;
    if *letter == b'x' {
        return hex_byte(rest);
    }
    let byte = letter_value(*letter)?;
    Some((byte, rest))
}

fn letter_value(letter: u8) -> Option<u8>
    ensures { result ≡ letter_value letter }
{
    match letter {
        b'r' => Some(b'\r'),
        b'n' => Some(b'\n'),
        b't' => Some(b'\t'),
        b'\\' => Some(b'\\'),
        _ => None,
    }
}

// The byte that two hexadecimal digits write, and the text behind them.
fn hex_byte(text: &[u8]) -> Option<(u8, &[u8])>
    ensures some { IfSome result (λ first. WritesByte text.now first.0 first.1.now) }
    ensures none { IfNone result ((b : ℕ) (rest : List ℕ) → ¬ WritesByte text.now b rest) }
{
    match text {
        [high, low, rest @ ..] => Some((16 * hex_digit(*high)? + hex_digit(*low)?, rest)),
        _ => None,
    }
}

fn hex_digit(digit: u8) -> Option<u8>
    ensures value { SomeIff result (is_ascii_hexdigit digit ≡ true) (digit_value digit) }
    ensures small { IfSome result (λ value. value < 16) }
{
    match digit {
        b'0'..=b'9' => Some(digit - b'0'),
        b'A'..=b'F' => Some(digit - b'A' + 10),
        b'a'..=b'f' => Some(digit - b'a' + 10),
        _ => None,
    }
}
