//! The fields of a head, looked up by their names.
ghost use Rattle.std.specs.Prelude.{◌≡◌, ◌<◌, ℕ, false, List, [], ◌∷◌, ◌++◌, length, map, All};
ghost use Rattle.httparse.specs.Spans.{IsHeaderWithin, IsWithin, header_bytes, span_bytes};
ghost use Rattle.http_read.specs.FieldValues.{values_named, words_of_all, has_word, ends_in_word};
ghost use Rattle.http_read.specs.ValuesInside.{AreFound, AreValues, values_in};
ghost use Rattle.http_read.specs.WordsInside.{last_word_is};

use crate::words::{value_ends_in_word, value_has_word};
use httparse::spans::{HeaderSpan, Span};
use mpm_base::is_same_ignoring_case;

/// The values of the fields of one name.
#[derive(Clone, Copy)]
pub(crate) enum Values {
    /// No field has the name.
    Absent,
    /// One field has it, and its value stands there.
    One(Span),
    /// Two fields or more have it.
    Several,
}

/// The values of the fields by which a head is judged.
#[derive(Clone, Copy)]
pub(crate) struct Found {
    pub host: Values,
    pub codings: Values,
    pub lengths: Values,
    pub expect: Values,
    pub connection: Values,
    pub range: Values,
}

/// The values of no field.
fn none_found() -> Found
    ensures { (head : List ℕ) → AreFound head [] result }
{
    Found {
        host: Values::Absent,
        codings: Values::Absent,
        lengths: Values::Absent,
        expect: Values::Absent,
        connection: Values::Absent,
        range: Values::Absent,
    }
}

/// The values of the fields by which a head is judged, by one walk over all fields.
pub(crate) fn find_fields(head: &[u8], headers: &[HeaderSpan]) -> Found
    requires { All (IsHeaderWithin (length head.now)) headers.now }
    ensures { AreFound head.now (map (header_bytes head.now) headers.now) result }
{
    let mut found = none_found();
    for header in headers {
        found = add_field(found, head, header);
    }
    found
}

/// The values after one field more. No two of the names have the same length.
fn add_field(found: Found, head: &[u8], header: &HeaderSpan) -> Found
    requires { IsHeaderWithin (length head.now) header.now }
    ensures { (fields : List (List ℕ × List ℕ))
        → AreFound head.now fields found
        → AreFound head.now (fields ++ header_bytes head.now header.now ∷ []) result }
{
    let mut found = found;
    match header.name.of(head).len() {
        4 => found.host = add_value(found.host, head, header, b"host"),
        5 => found.range = add_value(found.range, head, header, b"range"),
        6 => found.expect = add_value(found.expect, head, header, b"expect"),
        10 => found.connection = add_value(found.connection, head, header, b"connection"),
        14 => found.lengths = add_value(found.lengths, head, header, b"content-length"),
        17 => found.codings = add_value(found.codings, head, header, b"transfer-encoding"),
        _ => (),
    }
    found
}

/// The values after one field more.
pub(crate) fn add_value(found: Values, head: &[u8], header: &HeaderSpan, name: &[u8]) -> Values
    requires { IsHeaderWithin (length head.now) header.now }
    ensures { (fields : List (List ℕ × List ℕ))
        → AreValues head.now (values_named name.now fields) found
        → AreValues head.now
        (values_named name.now (fields ++ header_bytes head.now header.now ∷ [])) result }
{
    if is_same_ignoring_case(header.name.of(head), name) {
        one_more(found, header.value)
    } else {
        found
    }
}

/// The values after one value more.
fn one_more(found: Values, value: Span) -> Values
    ensures { (head : List ℕ) (values : List (List ℕ))
        → AreValues head values found → IsWithin (length head) value
        → AreValues head (values ++ span_bytes head value ∷ []) result }
{
    match found {
        Values::Absent => Values::One(value),
        _ => Values::Several,
    }
}

/// Whether the values of the fields of that name have this word.
pub(crate) fn fields_have_word(
    head: &[u8],
    headers: &[HeaderSpan],
    name: &[u8],
    word: &[u8],
) -> bool
    requires { All (IsHeaderWithin (length head.now)) headers.now }
    ensures { result ≡ has_word word.now (words_of_all (values_in head.now headers.now name.now)) }
{
    let mut found = false;
    for header in headers {
        found = add_word(found, head, header, name, word);
    }
    found
}

/// Whether they have it after one field more.
fn add_word(found: bool, head: &[u8], header: &HeaderSpan, name: &[u8], word: &[u8]) -> bool
    requires { IsHeaderWithin (length head.now) header.now }
    ensures { (fields : List (List ℕ × List ℕ))
        → found ≡ has_word word.now (words_of_all (values_named name.now fields))
        → result ≡ has_word word.now
        (words_of_all (values_named name.now (fields ++ header_bytes head.now header.now ∷ []))) }
{
    if is_same_ignoring_case(header.name.of(head), name) {
        found | value_has_word(header.value.of(head), word)
    } else {
        found
    }
}

/// Whether the last word of the values of the fields of that name is this one.
pub(crate) fn fields_end_in_word(
    head: &[u8],
    headers: &[HeaderSpan],
    name: &[u8],
    word: &[u8],
) -> bool
    requires within { All (IsHeaderWithin (length head.now)) headers.now }
    requires some { 0 < length word.now }
    ensures { result
        ≡ ends_in_word word.now (words_of_all (values_in head.now headers.now name.now)) }
{
    let mut is_last = false;
    for header in headers {
        is_last = add_last_word(is_last, head, header, name, word);
    }
    is_last
}

/// Whether it is after one field more.
fn add_last_word(is_last: bool, head: &[u8], header: &HeaderSpan, name: &[u8], word: &[u8]) -> bool
    requires { IsHeaderWithin (length head.now) header.now }
    ensures { (fields : List (List ℕ × List ℕ))
        → is_last ≡ last_word_is word.now false (words_of_all (values_named name.now fields))
        → result ≡ last_word_is word.now false
        (words_of_all (values_named name.now (fields ++ header_bytes head.now header.now ∷ []))) }
{
    if is_same_ignoring_case(header.name.of(head), name) {
        value_ends_in_word(header.value.of(head), word, is_last)
    } else {
        is_last
    }
}
