//! A request's head, as it was read.
//!
//! Its texts are places in one copy of the head, so a request takes one allocation, and one more where it has tags in its conditions.
ghost use Rattle.std.specs.Prelude.{◌≡◌, ◌++◌, option_map};
ghost use Rattle.http_read.specs.FieldValues.{has_exactly};
ghost use Rattle.http_read.specs.Spans.{value_at};
ghost use Rattle.http_read.specs.SpansInside.{MayBeWithin};

use crate::condition_spans::{ConditionSpans, words_have};
use httparse::spans::Span;
use std::marker::Model;

/// How long the head of a request may be.
#[derive(Clone, Copy, Debug, PartialEq, Eq)]
pub struct Limits {
    /// LimitRequestLine: bytes of the first line.
    pub line: u32,
    /// LimitRequestFieldSize: bytes of a field line.
    pub field: u32,
    /// LimitRequestFields: how many field lines there may be.
    pub fields: u32,
}

/// What follows the head of a request (RFC 9112, section 6.3).
#[derive(Clone, Copy, Debug)]
pub enum BodyKind {
    /// No body.
    Nothing,
    /// A body of so many bytes.
    Length(u64),
    /// A body in chunks (RFC 9112, section 7.1).
    Chunked,
}

/// The head of a request.
#[derive(Drop)]
pub struct Request {
    pub(crate) head: Vec<u8>,
    pub(crate) method: Span,
    pub(crate) target: Span,
    pub(crate) host: Span,
    pub(crate) range: Option<Span>,
    pub(crate) conditions: ConditionSpans,
    pub(crate) minor: u8,
    pub(crate) asked_close: bool,
    pub(crate) expects: bool,
    pub(crate) body: BodyKind,
}

impl Model for Request {
    ghost use Rattle.http_read.specs.RequestParts.{RequestParts};

    ghost Value = { RequestParts };

    ghost use Rattle.httparse.specs.Spans.{span_bytes};
    ghost use Rattle.http_read.specs.Spans.{conditions_at, value_at};
    ghost use Rattle.http_read.specs.SpansInside.{AreWithin};

    ghost view = { λ r. record {
      method = span_bytes r.head.items r.method;
      target = span_bytes r.head.items r.target;
      minor = r.minor;
      host = span_bytes r.head.items r.host;
      asked_close = r.asked_close;
      expects = r.expects;
      range = value_at r.head.items r.range;
      conditions = conditions_at r.head.items r.conditions;
      body = r.body;
    } };

    ghost invariant = { λ r. AreWithin r.head.items r.method r.target r.host r.range r.conditions };
}

impl Request {
    /// The method (RFC 9112, section 3.1).
    pub fn method(&self) -> &[u8]
        ensures { result.now ≡ self.now.method }
    {
        &self.head[self.method.start..self.method.end]
    }

    /// The target, as it was sent (RFC 9112, section 3.2).
    pub fn target(&self) -> &[u8]
        ensures { result.now ≡ self.now.target }
    {
        &self.head[self.target.start..self.target.end]
    }

    /// The minor number of the HTTP version: 1 for HTTP/1.1, 0 for HTTP/1.0.
    pub fn minor(&self) -> u8
        ensures { result ≡ self.now.minor }
    {
        self.minor
    }

    /// The value of the field Host (RFC 9112, section 3.2), empty where there is none.
    pub fn host(&self) -> &[u8]
        ensures { result.now ≡ self.now.host }
    {
        &self.head[self.host.start..self.host.end]
    }

    /// Whether the connection is to be closed after the response (RFC 9112, section 9.6).
    pub fn asked_close(&self) -> bool
        ensures { result ≡ self.now.asked_close }
    {
        self.asked_close
    }

    /// Whether the client waits for `100 Continue` before it sends the body (RFC 9110, section 10.1.1).
    pub fn expects(&self) -> bool
        ensures { result ≡ self.now.expects }
    {
        self.expects
    }

    /// The value of the field Range (RFC 9110, section 14.2), where exactly one stands.
    pub fn range(&self) -> Option<&[u8]>
        ensures { option_map (λ range. range.now) result ≡ self.now.range }
    {
        value_of(&self.head, self.range)
    }

    /// Whether one of the words of all fields If-Match (RFC 9110, section 13.1.1) is exactly the one that is made of the two parts. None
    /// where no such field stands.
    pub fn if_match_has(&self, front: &[u8], back: &[u8]) -> Option<bool>
        ensures { result
            ≡ option_map (has_exactly (front.now ++ back.now)) self.now.conditions.if_match }
    {
        words_have(&self.head, &self.conditions.if_match, front, back)
    }

    /// The same of all fields If-None-Match (section 13.1.2).
    pub fn if_none_match_has(&self, front: &[u8], back: &[u8]) -> Option<bool>
        ensures { result
            ≡ option_map (has_exactly (front.now ++ back.now)) self.now.conditions.if_none_match }
    {
        words_have(&self.head, &self.conditions.if_none_match, front, back)
    }

    /// The value of the field If-Unmodified-Since (section 13.1.4), where exactly one stands.
    pub fn if_unmodified_since(&self) -> Option<&[u8]>
        ensures { option_map (λ value. value.now) result
            ≡ self.now.conditions.if_unmodified_since }
    {
        value_of(&self.head, self.conditions.if_unmodified_since)
    }

    /// The value of the field If-Modified-Since (section 13.1.3), where exactly one stands.
    pub fn if_modified_since(&self) -> Option<&[u8]>
        ensures { option_map (λ value. value.now) result ≡ self.now.conditions.if_modified_since }
    {
        value_of(&self.head, self.conditions.if_modified_since)
    }

    /// The value of the field If-Range (section 13.1.5), where exactly one stands.
    pub fn if_range(&self) -> Option<&[u8]>
        ensures { option_map (λ value. value.now) result ≡ self.now.conditions.if_range }
    {
        value_of(&self.head, self.conditions.if_range)
    }

    /// Whether an If-Range stands.
    pub fn ranged_if(&self) -> bool
        ensures { result ≡ self.now.conditions.ranged_if }
    {
        self.conditions.ranged_if
    }

    /// What follows the head.
    pub fn body(&self) -> BodyKind
        ensures { result ≡ self.now.body }
    {
        self.body
    }
}

/// The text at the span, where that is there.
fn value_of(head: &[u8], span: Option<Span>) -> Option<&[u8]>
    requires { MayBeWithin head.now span }
    ensures { option_map (λ value. value.now) result ≡ value_at head.now span }
{
    match span {
        Some(span) => Some(&head[span.start..span.end]),
        None => None,
    }
}
