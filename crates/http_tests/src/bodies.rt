//! Bodies as clients send them, whole and cut, at the bounds of each rule (RFC 9112, sections 6 and 7.1).
ghost use Rattle.std.specs.Prelude.{◌<◌, ◌≤◌, length};

use http_read::{BodyAnswer, BodyKind, BodyReader};
use mpm_base::NoMemory;
use std::alloc::Global;
use test_rows::{Marks, Sheet, number_of, text_of, words};

/// Reads the text as it comes: first so many bytes of it, then piece by piece. Answers as one call that got all of it would.
fn read_cut(kind: BodyKind, text: &[u8], first: usize, piece: usize) -> BodyAnswer
    requires { 0 < piece }
{
    let mut reader = BodyReader::start(kind);
    let mut taken = 0;
    let mut end = first.min(text.len());
    loop {
        match reader.feed(&text[taken..end]) {
            BodyAnswer::Took(more) => taken += more as usize,
            BodyAnswer::Done(more) => return BodyAnswer::Done(taken as u64 + more),
            BodyAnswer::Bad(code) => return BodyAnswer::Bad(code),
        }
        if end == text.len() {
            return BodyAnswer::Took(taken as u64);
        }
        end += piece.min(text.len() - end);
    }
}

/// The kind of body that the words name.
fn kind_of(text: &str) -> BodyKind {
    match words(text) {
        ("length", length) => BodyKind::Length(number_of(length)),
        ("chunked", _) => BodyKind::Chunked,
        _ => BodyKind::Nothing,
    }
}

/// Shows the answer to the body of that kind, and each other one that it has byte by byte, in pieces of seven bytes, or cut behind one of
/// its last 64 bytes; or how many bytes of a chunked one are looked at.
pub fn show_body(sheet: &mut Sheet, kind: &str, text: &[u8]) {
    if kind == "looks" {
        return println!(sheet; " {} of {}", looked_at(text), text.len());
    }
    let kind = kind_of(kind);
    let answer = read_cut(kind, text, text.len(), 1);
    println!(sheet; " {answer:?}");
    show_other(sheet, answer, read_cut(kind, text, 0, 1), 0);
    show_other(sheet, answer, read_cut(kind, text, 3, 7), 3);
    show_cuts(sheet, kind, text, answer);
}

/// Shows each other answer that the body has where it is cut behind one of its last 64 bytes.
fn show_cuts(sheet: &mut Sheet, kind: BodyKind, text: &[u8], answer: BodyAnswer) {
    let near = text.len() - text.len().min(64);
    for cut in near..text.len() {
        show_other(sheet, answer, read_cut(kind, text, cut, 16384), cut);
    }
}

/// Shows the answer where it isn't that one.
fn show_other(sheet: &mut Sheet, answer: BodyAnswer, found: BodyAnswer, cut: usize) {
    if found != answer {
        println!(sheet; "but {found:?} where it is cut behind {cut}");
    }
}

/// Shows the last answer to a body of a gibibyte of the kind of the row, which begins as the text of the row says behind the kind.
pub fn show_gibibyte(
    sheet: &mut Sheet,
    alloc: Global,
    row: &str,
    text: &[u8],
) -> Result<(), NoMemory> {
    let (kind, _) = row.split_once(": ").unwrap_or((row, ""));
    let front = &text[text.len().min(kind.len().saturating_add(2))..];
    let piece = text_of(alloc, "`4096 0123456789abcdef`", Marks::Heads)?;
    show_many(sheet, kind_of(kind), front, piece.as_slice());
    Ok(())
}

/// Shows the last answer to a body of a gibibyte that begins with the front, where that is no longer than the piece.
fn show_many(sheet: &mut Sheet, kind: BodyKind, front: &[u8], piece: &[u8]) {
    if front.len() <= piece.len() {
        let answer = read_many(kind, front, piece, 16383);
        println!(sheet; " {answer:?}");
    }
}

/// The last answer, where the front is followed by so many pieces and one more.
fn read_many(kind: BodyKind, front: &[u8], piece: &[u8], times: usize) -> BodyAnswer
    requires { length front.now ≤ length piece.now }
{
    let mut reader = BodyReader::start(kind);
    match reader.feed(front) {
        BodyAnswer::Took(_) => (),
        answer => return answer,
    }
    for _ in 0..times {
        match reader.feed(piece) {
            BodyAnswer::Took(_) => (),
            answer => return answer,
        }
    }
    reader.feed(piece)
}

/// How many bytes are looked at where a chunked body comes byte by byte.
fn looked_at(text: &[u8]) -> usize {
    let mut reader = BodyReader::start(BodyKind::Chunked);
    let mut taken = 0;
    let mut looked = 0;
    for end in 0..text.len() {
        let begun = reader.begun();
        match reader.feed(&text[taken..end + 1]) {
            BodyAnswer::Took(more) => {
                taken += more as usize;
                looked += more as usize + reader.begun() - begun;
            }
            BodyAnswer::Done(more) => return looked + more as usize - begun,
            BodyAnswer::Bad(_) => return looked,
        }
    }
    looked
}
