//! The conditions of a request, as places in its head.
ghost use Rattle.std.specs.Prelude.{◌≡◌, ◌++◌, length, map, All, option_map};
ghost use Rattle.httparse.specs.Spans.{IsWithin, span_bytes};
ghost use Rattle.http_read.specs.FieldValues.{has_exactly, words_of_all};
ghost use Rattle.http_read.specs.Spans.{words_at};
ghost use Rattle.http_read.specs.SpansInside.{MayAllBeWithin};

use crate::words::value_has_exactly;
use httparse::spans::Span;
use mpm_base::Sequence;

/// Where the values of several fields stand.
pub(crate) type Spans = Sequence<Span>;

/// Where the values of the fields stand that say the conditions of a request (RFC 9110, section 13.1).
#[derive(Drop)]
pub(crate) struct ConditionSpans {
    /// The values of all fields If-Match, where one stands.
    pub if_match: Option<Spans>,
    /// The values of all fields If-None-Match, where one stands.
    pub if_none_match: Option<Spans>,
    /// The value of the only If-Unmodified-Since.
    pub if_unmodified_since: Option<Span>,
    /// The value of the only If-Modified-Since.
    pub if_modified_since: Option<Span>,
    /// The value of the only If-Range.
    pub if_range: Option<Span>,
    /// Whether an If-Range stands.
    pub ranged_if: bool,
}

/// Whether one of the words of the values is exactly the one that is made of the two parts.
fn spans_have(head: &[u8], spans: &[Span], front: &[u8], back: &[u8]) -> bool
    requires { All (IsWithin (length head.now)) spans.now }
    ensures { result ≡ has_exactly (front.now ++ back.now)
        (words_of_all (map (span_bytes head.now) spans.now)) }
{
    let mut found = false;
    for span in spans {
        found = found | value_has_exactly(span.of(head), front, back);
    }
    found
}

/// The same where there are such values.
pub(crate) fn words_have(
    head: &[u8],
    spans: &Option<Spans>,
    front: &[u8],
    back: &[u8],
) -> Option<bool>
    requires { MayAllBeWithin head.now spans.now }
    ensures { result
        ≡ option_map (has_exactly (front.now ++ back.now)) (words_at head.now spans.now) }
{
    match spans {
        Some(spans) => Some(spans_have(head, spans.as_slice(), front, back)),
        None => None,
    }
}
