//! The fields that say the conditions of a request, looked up by their names.
ghost use Rattle.std.specs.Prelude.{◌≡◌, ◌<◌, ℕ, List, [], ◌∷◌, ◌++◌, length, map, All, IfOk, codes, nat_lt};
ghost use Rattle.httparse.specs.Spans.{IsHeaderWithin, IsWithin, header_bytes, span_bytes};
ghost use Rattle.http_read.specs.FieldValues.{only_value, values_named, words_where_any};
ghost use Rattle.http_read.specs.HeadRules.{conditions_in};
ghost use Rattle.http_read.specs.ValuesInside.{AreConditionsAt, AreConditionsFound, AreValues, AreValuesAt, AreWordsAt, IsValueAt, values_in};

use crate::condition_spans::{ConditionSpans, Spans};
use crate::request_fields::{Values, add_value};
use httparse::spans::{HeaderSpan, Span};
use mpm_base::{NoMemory, is_same_ignoring_case};
use std::alloc::Global;

/// The values of the fields of the conditions.
#[derive(Clone, Copy)]
pub(crate) struct FoundConditions {
    pub if_match: Values,
    pub if_none_match: Values,
    pub if_unmodified_since: Values,
    pub if_modified_since: Values,
    pub if_range: Values,
}

/// The values of no field.
fn none_found() -> FoundConditions
    ensures { (head : List ℕ) → AreConditionsFound head [] result }
{
    FoundConditions {
        if_match: Values::Absent,
        if_none_match: Values::Absent,
        if_unmodified_since: Values::Absent,
        if_modified_since: Values::Absent,
        if_range: Values::Absent,
    }
}

/// The values after one field more.
fn add_field(found: FoundConditions, head: &[u8], header: &HeaderSpan) -> FoundConditions
    requires { IsHeaderWithin (length head.now) header.now }
    ensures { (fields : List (List ℕ × List ℕ))
        → AreConditionsFound head.now fields found
        → AreConditionsFound head.now (fields ++ header_bytes head.now header.now ∷ []) result }
{
    let mut found = found;
    match header.name.of(head).len() {
        8 => {
            found.if_match = add_value(found.if_match, head, header, b"if-match");
            found.if_range = add_value(found.if_range, head, header, b"if-range");
        }
        13 => found.if_none_match = add_value(found.if_none_match, head, header, b"if-none-match"),
        17 => {
            let name = b"if-modified-since";
            found.if_modified_since = add_value(found.if_modified_since, head, header, name);
        }
        19 => {
            let name = b"if-unmodified-since";
            found.if_unmodified_since = add_value(found.if_unmodified_since, head, header, name);
        }
        _ => (),
    }
    found
}

/// The values of the fields of the conditions, by one walk over all fields.
fn find_conditions(head: &[u8], headers: &[HeaderSpan]) -> FoundConditions
    requires { All (IsHeaderWithin (length head.now)) headers.now }
    ensures { AreConditionsFound head.now (map (header_bytes head.now) headers.now) result }
{
    let mut found = none_found();
    for header in headers {
        found = add_field(found, head, header);
    }
    found
}

/// Where the value stands that is the only one.
pub(crate) fn only_value(found: Values) -> Option<Span>
    ensures { (head : List ℕ) (values : List (List ℕ)) → AreValues head values found
        → IsValueAt head (only_value values) result }
{
    match found {
        Values::One(span) => Some(span),
        _ => None,
    }
}

/// Whether a field was found.
fn is_found(found: Values) -> bool
    ensures { (head : List ℕ) (values : List (List ℕ)) → AreValues head values found
        → result ≡ nat_lt 0 (length values) }
{
    match found {
        Values::Absent => false,
        _ => true,
    }
}

/// Puts the value of a field at the end, where the field has the name.
fn add_named(
    spans: &mut Spans,
    head: &[u8],
    header: &HeaderSpan,
    name: &[u8],
) -> Result<(), NoMemory>
    requires { IsHeaderWithin (length head.now) header.now }
    ensures { IfOk result (λ done. (fields : List (List ℕ × List ℕ))
        → AreValuesAt head.now (values_named name.now fields) spans.old
        → AreValuesAt head.now
        (values_named name.now (fields ++ header_bytes head.now header.now ∷ [])) spans.new) }
{
    if is_same_ignoring_case(header.name.of(head), name) {
        spans.push(header.value)
    } else {
        Ok(())
    }
}

/// Where the values of the fields of that name stand.
fn values_of(
    alloc: Global,
    head: &[u8],
    headers: &[HeaderSpan],
    name: &[u8],
) -> Result<Spans, NoMemory>
    requires { All (IsHeaderWithin (length head.now)) headers.now }
    ensures { IfOk result (AreValuesAt head.now (values_in head.now headers.now name.now)) }
{
    let mut spans = Spans::make(alloc);
    for header in headers {
        add_named(&mut spans, head, header, name)?;
    }
    Ok(spans)
}

/// Where the values of all fields of that name stand, of which this was found; nothing where there is none.
fn listed(
    alloc: Global,
    head: &[u8],
    headers: &[HeaderSpan],
    name: &[u8],
    found: Values,
) -> Result<Option<Spans>, NoMemory>
    requires within { All (IsHeaderWithin (length head.now)) headers.now }
    requires found { AreValues head.now (values_in head.now headers.now name.now) found }
    ensures { IfOk result (AreWordsAt head.now
        (words_where_any (values_in head.now headers.now name.now))) }
{
    match found {
        Values::Absent => Ok(None),
        _ => Ok(Some(values_of(alloc, head, headers, name)?)),
    }
}

/// Where the conditions of a head stand. NoMemory where memory lacks for the places of its tags.
pub(crate) fn conditions_in(
    alloc: Global,
    head: &[u8],
    headers: &[HeaderSpan],
) -> Result<ConditionSpans, NoMemory>
    requires { All (IsHeaderWithin (length head.now)) headers.now }
    ensures { IfOk result (AreConditionsAt head.now
        (conditions_in (map (header_bytes head.now) headers.now))) }
{
    let found = find_conditions(head, headers);
    Ok(ConditionSpans {
        if_match: listed(alloc, head, headers, b"if-match", found.if_match)?,
        if_none_match: listed(alloc, head, headers, b"if-none-match", found.if_none_match)?,
        if_unmodified_since: only_value(found.if_unmodified_since),
        if_modified_since: only_value(found.if_modified_since),
        if_range: only_value(found.if_range),
        ranged_if: is_found(found.if_range),
    })
}
