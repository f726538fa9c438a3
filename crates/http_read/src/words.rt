//! The words of the values of fields (RFC 9110, section 5.6).
ghost use Rattle.std.specs.Prelude.{◌≡◌, ◌++◌, reverse};
ghost use Rattle.httparse.specs.Grammar.{skip_ows, trim_ows};
ghost use Rattle.http_read.specs.FieldValues.{words_of, has_exactly, has_word, ends_in_word};
ghost use Rattle.http_read.specs.WordsInside.{IsSplitAt, last_word_is};

use httparse::is_space_or_tab;
use mpm_base::{is_made_of, is_same_ignoring_case};

fn trim_start(bytes: &[u8]) -> &[u8]
    ensures { result.now ≡ skip_ows bytes.now }
{
    let mut left = bytes;
    while let [first, rest @ ..] = left
        && is_space_or_tab(*first)
    {
        left = rest;
    }
    left
}

fn trim_end(bytes: &[u8]) -> &[u8]
    ensures { result.now ≡ reverse (skip_ows (reverse bytes.now)) }
{
    let mut left = bytes;
    while let [rest @ .., last] = left
        && is_space_or_tab(*last)
    {
        left = rest;
    }
    left
}

/// The bytes without the spaces and tabs at both ends.
fn trimmed(bytes: &[u8]) -> &[u8]
    ensures { result.now ≡ trim_ows bytes.now }
{
    trim_end(trim_start(bytes))
}

/// The bytes up to the first comma, and those behind it where there is one.
fn split_at_comma(bytes: &[u8]) -> (&[u8], Option<&[u8]>)
    ensures { IsSplitAt bytes.now result.0.now result.1 }
{
    match bytes.iter().position(|b| *b == b',') {
        Some(comma) => (&bytes[..comma], Some(&bytes[comma + 1..])),
        None => (bytes, None),
    }
}

/// Whether one of the words of the value is this one.
pub(crate) fn value_has_word(value: &[u8], word: &[u8]) -> bool
    ensures { result ≡ has_word word.now (words_of value.now) }
{
    let mut left = Some(value);
    while let Some(bytes) = left {
        let (part, behind) = split_at_comma(bytes);
        let found = trimmed(part);
        if !found.is_empty() && is_same_ignoring_case(found, word) {
            return true;
        }
        left = behind;
    }
    false
}

/// Whether the last word is this one, where `before` says it of the words before the value.
pub(crate) fn value_ends_in_word(value: &[u8], word: &[u8], before: bool) -> bool
    ensures { result ≡ last_word_is word.now before (words_of value.now) }
{
    let mut is_last = before;
    let mut left = Some(value);
    while let Some(bytes) = left {
        let (part, behind) = split_at_comma(bytes);
        let found = trimmed(part);
        if !found.is_empty() {
            is_last = is_same_ignoring_case(found, word);
        }
        left = behind;
    }
    is_last
}

/// Whether one of the words of the value is exactly the one that is made of the two parts.
pub(crate) fn value_has_exactly(value: &[u8], front: &[u8], back: &[u8]) -> bool
    ensures { result ≡ has_exactly (front.now ++ back.now) (words_of value.now) }
{
    let mut left = Some(value);
    while let Some(bytes) = left {
        let (part, behind) = split_at_comma(bytes);
        let found = trimmed(part);
        if !found.is_empty() && is_made_of(found, front, back) {
            return true;
        }
        left = behind;
    }
    false
}
