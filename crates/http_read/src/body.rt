//! The reader of bodies (RFC 9112, sections 6 and 7.1).
ghost use Rattle.std.specs.Prelude.{◌≡◌, ◌≤◌, List, ℕ, [], ◌++◌, length, take, drop};
ghost use Rattle.std.specs.List.{concat};
ghost use Rattle.http_read.specs.BodyForm.{BodyForm, HasForm, BeginsBody, BreaksBody};
ghost use Rattle.http_read.specs.BodyPlaces.{StandsAt, begun_len};
ghost use Rattle.http_read.specs.BodyAnswers.{AnswersBody, AnswersPieces, CountsBytes};

use crate::chunked::{ChunkedMove, ChunkedPlace, read_chunked};
use crate::request::BodyKind;
use std::marker::Model;

/// What a reader of a body says of the bytes that it was given.
#[derive(Clone, Copy, Debug, PartialEq, Eq)]
pub enum BodyAnswer {
    /// So many bytes were taken, and the body goes on.
    Took(u64),
    /// The body ended behind so many bytes.
    Done(u64),
    /// The body isn't one: the code of the response.
    Bad(u16),
}

/// Where in a body its reader stands.
#[derive(Clone, Copy)]
pub enum BodyPlace {
    /// So many bytes of a body without chunks are to come.
    Plain(u64),
    /// In a chunked body.
    Chunked(ChunkedPlace),
    /// Behind a whole body.
    Ended,
    /// Behind bytes that aren't one: the code of the response.
    Broken(u16),
}

/// Reads a body as its bytes come, and keeps none of them.
///
/// Each call of `feed` gets the bytes behind those that the earlier calls took. Of a chunk line or a trailer line that
/// isn't whole none are taken, and the next call gets them again, with more behind them; the reader remembers how far it
/// has looked into them. Behind the end of a body it takes no byte, and answers so again.
#[derive(Clone, Copy)]
pub struct BodyReader {
    place: BodyPlace,
}

impl Model for BodyReader {
    ghost use Rattle.http_read.specs.declared.body.BodyPlace.{BodyPlace};
    ghost use Rattle.http_read.specs.BodyPlacesInside.{IsSmallPlace};

    ghost Value = { BodyPlace };

    ghost view = { λ r. r.place };

    ghost invariant = { λ r. IsSmallPlace r.place };

    ghost inverse = { λ p. record { place = p } };
}

impl BodyReader {
    /// The reader of a body of that kind, before its first byte.
    pub fn start(kind: BodyKind) -> BodyReader
        ensures stands { StandsAt kind [] result }
        ensures begun { begun_len result ≡ 0 }
    {
        let place = match kind {
            BodyKind::Nothing => BodyPlace::Plain(0),
            BodyKind::Length(len) => BodyPlace::Plain(len),
            BodyKind::Chunked => BodyPlace::Chunked(ChunkedPlace::first()),
        };
        BodyReader { place }
    }

    /// How many bytes of a line that isn't whole it has looked at; it looks at none of them again.
    pub fn begun(&self) -> usize
        ensures { result ≡ begun_len self.now }
    {
        match self.place {
            BodyPlace::Chunked(place) => place.begun(),
            BodyPlace::Plain(_) | BodyPlace::Ended | BodyPlace::Broken(_) => 0,
        }
    }

    /// Reads on: the bytes are all that came behind those that were taken. Behind the end of a body none are taken, and what
    /// is no body stays none.
    pub fn feed(&mut self, bytes: &[u8]) -> BodyAnswer
        requires { begun_len self.old ≤ length bytes.now }
        ensures counts { CountsBytes (length bytes.now) result self.new }
        ensures body { (kind : BodyKind) (past : List ℕ)
            → StandsAt kind (past ++ take (begun_len self.old) bytes.now) self.old
            → AnswersBody kind past bytes.now result self.new }
        ensures done { (n : ℕ) → result ≡ BodyAnswer.Done n → self.new ≡ BodyPlace.Ended }
        ensures ended { self.old ≡ BodyPlace.Ended → result ≡ BodyAnswer.Done 0 }
        ensures bad { (code : ℕ) → result ≡ BodyAnswer.Bad code
            → self.new ≡ BodyPlace.Broken code }
        ensures broken { (code : ℕ) → self.old ≡ BodyPlace.Broken code
            → result ≡ BodyAnswer.Bad code }
    {
        match self.place {
            BodyPlace::Plain(left) => {
                let len = bytes.len() as u64;
                if left <= len {
                    self.place = BodyPlace::Ended;
                    return BodyAnswer::Done(left);
                }
                self.place = BodyPlace::Plain(left - len);
                BodyAnswer::Took(len)
            }
            BodyPlace::Chunked(from) => match read_chunked(from, bytes) {
                (ChunkedMove::On(place), _) => {
                    self.place = BodyPlace::Chunked(place);
                    BodyAnswer::Took((bytes.len() - place.begun()) as u64)
                }
                (ChunkedMove::Done, at) => {
                    self.place = BodyPlace::Ended;
                    BodyAnswer::Done(at as u64)
                }
                (ChunkedMove::Bad(code), _) => {
                    self.place = BodyPlace::Broken(code);
                    BodyAnswer::Bad(code)
                }
            },
            BodyPlace::Ended => BodyAnswer::Done(0),
            BodyPlace::Broken(code) => BodyAnswer::Bad(code),
        }
    }
}

/// Bytes have one form of a body of each kind, and no two: they begin with a whole one, are the front of one, or break
/// its form.
pub fn one_form()
    ensures some { (kind : BodyKind) (bytes : List ℕ)
        → (form : BodyForm) × HasForm kind bytes form }
    ensures one { (kind : BodyKind) (bytes : List ℕ) (form other : BodyForm)
        → HasForm kind bytes form → HasForm kind bytes other → form ≡ other }
{}

/// A whole body stays one whatever follows, and so does a break of the form.
pub fn keeps_form()
    ensures whole { (kind : BodyKind) (bytes more : List ℕ) (n : ℕ)
        → BeginsBody kind bytes n → BeginsBody kind (bytes ++ more) n }
    ensures broken { (kind : BodyKind) (bytes more : List ℕ) (code : ℕ)
        → BreaksBody kind bytes code → BreaksBody kind (bytes ++ more) code }
{}

/// Cutting never matters: a reader that gets the bytes in pieces takes as many and answers as one that gets all at once, and
/// no other answer fits the same bytes.
pub fn cuts_never_matter()
    ensures stands { (kind : BodyKind) (past bytes more : List ℕ) (n : ℕ) (place : BodyPlace)
        → CountsBytes (length bytes) (BodyAnswer.Took n) place
        → AnswersBody kind past bytes (BodyAnswer.Took n) place
        → StandsAt kind
        ((past ++ take n bytes) ++ take (begun_len place) (drop n bytes ++ more)) place }
    ensures pieces { (kind : BodyKind) (past bytes : List ℕ) (pieces : List (List ℕ))
        (answer : BodyAnswer) (new : BodyPlace)
        → AnswersPieces kind past bytes pieces answer new
        → CountsBytes (length (bytes ++ concat pieces)) answer new
        × AnswersBody kind past (bytes ++ concat pieces) answer new }
    ensures one { (kind : BodyKind) (past bytes : List ℕ) (answer other : BodyAnswer)
        (place new : BodyPlace)
        → CountsBytes (length bytes) answer place → AnswersBody kind past bytes answer place
        → CountsBytes (length bytes) other new → AnswersBody kind past bytes other new
        → answer ≡ other }
{}
