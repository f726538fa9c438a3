//! The head of a request whose end was found.
ghost use Rattle.std.specs.Prelude.{◌<◌, ◌≤◌, length, map, slice_set, All, IfSome};
ghost use Rattle.httparse.specs.Spans.{IsHeaderWithin, IsWithin, header_bytes};
ghost use Rattle.http_read.specs.TextsInside.{IsWithinText, ReadsText, TextIs, IsSaid};

use crate::codes::{BAD_REQUEST, HTTP_VERSION_NOT_SUPPORTED};
use crate::found_conditions::{conditions_in, only_value};
use crate::head::HeadAnswer;
use crate::head_reader::Noted;
use crate::head_rules::{asks_close, body_of, expects_of, host_in};
use crate::request::{Limits, Request};
use crate::request_fields::find_fields;
use crate::version::Version;
use httparse::Status;
use httparse::spans::{EMPTY_HEADER_SPAN, HeaderSpan, RequestSpans, parse_request};
use std::alloc::Global;

/// Up to so many fields a head is read with little room.
const FEW_FIELDS: usize = 32;

/// Up to so many fields need no memory while they are read.
const USUAL_FIELDS: usize = 100;

/// Reads a text that ends as a head does, of whose lines this is noted.
pub(crate) fn read_head(alloc: Global, text: &[u8], limits: &Limits, noted: Noted) -> HeadAnswer
    requires { IsWithinText noted.version text.now }
    ensures { ReadsText limits.now.fields noted text.now result }
{
    match noted.version {
        Version::Written => read_text(alloc, text, limits, noted.long),
        Version::Later(digit) => read_later(alloc, text, limits, noted.long, digit),
        Version::Other => HeadAnswer::Refused(HTTP_VERSION_NOT_SUPPORTED),
    }
}

/// Reads the text with 1 as the last digit of its version, which stands there.
fn read_later(alloc: Global, text: &[u8], limits: &Limits, long: bool, digit: usize) -> HeadAnswer
    requires { digit < length text.now }
    ensures { TextIs limits.now.fields long (slice_set text.now digit 49) result }
{
    match Vec::from_slice(alloc, text) {
        Ok(mut copy) => {
            copy[digit] = b'1';
            read_text(alloc, &copy, limits, long)
        }
        Err(_) => HeadAnswer::NoMemory,
    }
}

/// Reads a text that ends as a head does; `long` says whether one of its field lines is longer than its limit. Where it isn't a head of
/// few fields it is read once more, with all the room that it may have.
fn read_text(alloc: Global, text: &[u8], limits: &Limits, long: bool) -> HeadAnswer
    ensures { TextIs limits.now.fields long text.now result }
{
    let most = limits.fields as usize;
    match read_few(alloc, text, most, long) {
        Some(answer) => answer,
        None if most <= USUAL_FIELDS => read_usual(alloc, text, most, long),
        None => read_many(alloc, text, most, long),
    }
}

/// Reads a head of few fields, and no other text.
fn read_few(alloc: Global, text: &[u8], most: usize, long: bool) -> Option<HeadAnswer>
    ensures { IfSome result (TextIs most long text.now) }
{
    let mut spans = [EMPTY_HEADER_SPAN; FEW_FIELDS];
    parse_whole(alloc, text, &mut spans[..most.min(FEW_FIELDS)], most, long)
}

fn read_usual(alloc: Global, text: &[u8], most: usize, long: bool) -> HeadAnswer
    requires { most ≤ 100 }
    ensures { TextIs most long text.now result }
{
    let mut spans = [EMPTY_HEADER_SPAN; USUAL_FIELDS];
    parse_head(alloc, text, &mut spans[..most], long)
}

fn read_many(alloc: Global, text: &[u8], most: usize, long: bool) -> HeadAnswer
    ensures { TextIs most long text.now result }
{
    match vec![in alloc; EMPTY_HEADER_SPAN; most] {
        Ok(mut spans) => parse_head(alloc, text, &mut spans, long),
        Err(_) => HeadAnswer::NoMemory,
    }
}

/// Reads a head that the text is, with room for as many fields as there are spans, where it may have `most`; None where it is none that
/// fits these.
fn parse_whole(
    alloc: Global,
    text: &[u8],
    spans: &mut [HeaderSpan],
    most: usize,
    long: bool,
) -> Option<HeadAnswer>
    requires { length spans.old ≤ most }
    ensures { IfSome result (TextIs most long text.now) }
{
    match parse_request(text, spans) {
        Ok(Status::Complete(parts)) => {
            if parts.len == text.len() {
                let fields = &spans[..parts.headers];
                Some(judge(alloc, text, &parts, fields, long))
            } else {
                None
            }
        }
        _ => None,
    }
}

/// Reads the text with room for as many fields as there are spans.
fn parse_head(alloc: Global, text: &[u8], spans: &mut [HeaderSpan], long: bool) -> HeadAnswer
    ensures { TextIs (length spans.old) long text.now result }
{
    match parse_request(text, spans) {
        Ok(Status::Complete(parts)) => {
            if parts.len == text.len() {
                judge(alloc, text, &parts, &spans[..parts.headers], long)
            } else {
                HeadAnswer::Refused(BAD_REQUEST)
            }
        }
        Ok(Status::Partial) => HeadAnswer::Refused(BAD_REQUEST),
        Err(_) => HeadAnswer::Refused(BAD_REQUEST),
    }
}

/// What the head says, or the code by which it is refused.
fn judge(
    alloc: Global,
    head: &[u8],
    parts: &RequestSpans,
    headers: &[HeaderSpan],
    long: bool,
) -> HeadAnswer
    requires method { IsWithin (length head.now) parts.now.method }
    requires path { IsWithin (length head.now) parts.now.path }
    requires within { All (IsHeaderWithin (length head.now)) headers.now }
    ensures { IsSaid head.now long parts.now (map (header_bytes head.now) headers.now) result }
{
    if long {
        return HeadAnswer::Refused(BAD_REQUEST);
    }
    let found = find_fields(head, headers);
    let host = match host_in(head, parts.version, headers, &found) {
        Ok(host) => host,
        Err(code) => return HeadAnswer::Refused(code),
    };
    let body = match body_of(head, parts.version, headers, &found) {
        Ok(body) => body,
        Err(code) => return HeadAnswer::Refused(code),
    };
    let expects = match expects_of(head, parts.version, headers, &found, body) {
        Ok(expects) => expects,
        Err(code) => return HeadAnswer::Refused(code),
    };
    let Ok(conditions) = conditions_in(alloc, head, headers) else {
        return HeadAnswer::NoMemory;
    };
    match Vec::from_slice(alloc, head) {
        Ok(copy) => HeadAnswer::Whole(
            Request {
                head: copy,
                method: parts.method,
                target: parts.path,
                host,
                range: only_value(found.range),
                conditions,
                minor: parts.version,
                asked_close: asks_close(head, parts.version, headers, &found),
                expects,
                body,
            },
            head.len() as u64,
        ),
        Err(_) => HeadAnswer::NoMemory,
    }
}
