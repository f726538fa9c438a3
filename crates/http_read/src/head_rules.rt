//! What a head of the grammar says, by the rules of RFC 9110 and RFC 9112, or the code by which it is refused.
ghost use Rattle.std.specs.Prelude.{◌≡◌, length, map, All, codes};
ghost use Rattle.httparse.specs.Spans.{IsHeaderWithin, header_bytes};
ghost use Rattle.http_read.specs.FieldValues.{words_of_all};
ghost use Rattle.http_read.specs.HeadRules.{host_in, length_of, coded_body, transfer_body, sized_body, body_of, has_content, expects_of, asks_close};
ghost use Rattle.http_read.specs.ValuesInside.{AreFound, AreValues, IsHostAt, values_in};

use crate::authority::is_host_value;
use crate::codes::{BAD_REQUEST, CONTENT_TOO_LARGE, EXPECTATION_FAILED, NOT_IMPLEMENTED};
use crate::request::BodyKind;
use crate::request_fields::{Found, Values, fields_end_in_word, fields_have_word};
use crate::sizes::GREATEST_BODY;
use httparse::spans::{HeaderSpan, Span};
use mpm_base::is_same_ignoring_case;

/// Where the Host stands; an empty span where there is none.
pub(crate) fn host_in(
    head: &[u8],
    minor: u8,
    _headers: &[HeaderSpan],
    found: &Found,
) -> Result<Span, u16>
    requires { AreFound head.now (map (header_bytes head.now) _headers.now) found.now }
    ensures { IsHostAt head.now
        (host_in minor (values_in head.now _headers.now (codes "host"))) result }
{
    match found.host {
        Values::Absent if minor == 1 => Err(BAD_REQUEST),
        Values::Absent => Ok(Span { start: 0, end: 0 }),
        Values::One(span) if is_host_value(span.of(head)) => Ok(span),
        _ => Err(BAD_REQUEST),
    }
}

/// The body of the request.
pub(crate) fn body_of(
    head: &[u8],
    minor: u8,
    headers: &[HeaderSpan],
    found: &Found,
) -> Result<BodyKind, u16>
    requires within { All (IsHeaderWithin (length head.now)) headers.now }
    requires found { AreFound head.now (map (header_bytes head.now) headers.now) found.now }
    ensures { result ≡ body_of minor (values_in head.now headers.now (codes "transfer-encoding"))
        (values_in head.now headers.now (codes "content-length")) }
{
    let codings = found.codings;
    match (codings, found.lengths) {
        (Values::Absent, Values::Absent) => Ok(BodyKind::Nothing),
        (Values::Absent, Values::One(span)) => length_of(span.of(head)),
        (Values::Absent, Values::Several) => Err(BAD_REQUEST),
        (_, Values::Absent) if minor != 0 => transfer_body(head, headers, codings),
        _ => Err(BAD_REQUEST),
    }
}

/// The body that transfer codings say.
fn transfer_body(head: &[u8], headers: &[HeaderSpan], codings: Values) -> Result<BodyKind, u16>
    requires within { All (IsHeaderWithin (length head.now)) headers.now }
    requires values { AreValues head.now
        (values_in head.now headers.now (codes "transfer-encoding")) codings }
    ensures { result ≡ transfer_body (values_in head.now headers.now (codes "transfer-encoding")) }
{
    if let Values::One(span) = codings
        && is_same_ignoring_case(span.of(head), b"chunked")
    {
        return Ok(BodyKind::Chunked);
    }
    if fields_end_in_word(head, headers, b"transfer-encoding", b"chunked") {
        Err(NOT_IMPLEMENTED)
    } else {
        Err(BAD_REQUEST)
    }
}

/// The body that a Content-Length says.
fn length_of(value: &[u8]) -> Result<BodyKind, u16>
    ensures { result ≡ length_of value.now }
{
    if value.is_empty() {
        return Err(BAD_REQUEST);
    }
    let mut number: u64 = 0;
    for b in value {
        if !b.is_ascii_digit() {
            return Err(BAD_REQUEST);
        }
        number = (number * 10 + u64::from(*b - b'0')).min(GREATEST_BODY + 1);
    }
    if number > GREATEST_BODY {
        Err(CONTENT_TOO_LARGE)
    } else {
        Ok(BodyKind::Length(number))
    }
}

/// Whether some bytes of a body are to come.
fn has_content(body: BodyKind) -> bool
    ensures { result ≡ has_content body }
{
    match body {
        BodyKind::Nothing => false,
        BodyKind::Length(length) => length > 0,
        BodyKind::Chunked => true,
    }
}

/// Whether the client waits for `100 Continue`.
pub(crate) fn expects_of(
    head: &[u8],
    minor: u8,
    _headers: &[HeaderSpan],
    found: &Found,
    body: BodyKind,
) -> Result<bool, u16>
    requires { AreFound head.now (map (header_bytes head.now) _headers.now) found.now }
    ensures { result ≡ expects_of minor body (values_in head.now _headers.now (codes "expect")) }
{
    if minor == 0 {
        return Ok(false);
    }
    match found.expect {
        Values::Absent => Ok(false),
        Values::One(span) if is_same_ignoring_case(span.of(head), b"100-continue") => Ok(
            has_content(body),
        ),
        _ => Err(EXPECTATION_FAILED),
    }
}

/// Whether the connection is to be closed after the response.
pub(crate) fn asks_close(head: &[u8], minor: u8, headers: &[HeaderSpan], found: &Found) -> bool
    requires within { All (IsHeaderWithin (length head.now)) headers.now }
    requires found { AreFound head.now (map (header_bytes head.now) headers.now) found.now }
    ensures { result
        ≡ asks_close minor (words_of_all (values_in head.now headers.now (codes "connection"))) }
{
    if let Values::Absent = found.connection {
        return minor == 0;
    }
    fields_have_word(head, headers, b"connection", b"close")
        || (minor == 0 && !fields_have_word(head, headers, b"connection", b"keep-alive"))
}
