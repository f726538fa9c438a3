//! Reading a command line off a control connection.
ghost use Rattle.std.specs.Prelude.{◌≡◌, ◌+◌, ◌<◌, ◌≤◌, [], ◌∷◌, true, IfSome, length};
ghost use Rattle.socket_links.specs.Answers.{count_of_got};
ghost use Rattle.socket_outside.specs.CommandLines.{AnswersMore, HearsBy, HearsOn, IsHeard, IsLineOrNone, feed_in, gave_bytes};
ghost use Rattle.socket_outside.specs.CommandLinesInside.{HearsOnce};

use crate::speaker::Speaker;
use mpm_base::{Got, Line};
use std::marker::Model;

/// How many bytes a line has at most, its line feed with it.
const MOST: usize = 33;

/// What came on a control connection so far.
#[derive(Drop)]
pub enum Heard {
    /// The line isn't whole.
    More,
    /// This line.
    Line(Line),
    /// No line, and none comes.
    Nothing,
}

/// The bytes that came on a control connection so far, at most 33, as contracts see them.
#[derive(Drop)]
pub struct Spoken {
    bytes: [u8; 33],
    filled: usize,
}

impl Model for Spoken {
    ghost use Rattle.std.specs.Prelude.{◌≤◌, List, ℕ, take};

    ghost Value = { List ℕ };

    ghost view = { λ s. take s.filled s.bytes };

    ghost invariant = { λ s. s.filled ≤ 33 };
}

impl Spoken {
    /// Nothing came yet.
    pub fn make() -> Spoken
        ensures { result ≡ [] }
    {
        Spoken {
            bytes: [0; MOST],
            filled: 0,
        }
    }

    /// The bytes.
    fn bytes(&self) -> &[u8]
        ensures is { result.now ≡ self.now }
        ensures few { length result.now ≤ 33 }
    {
        &self.bytes[..self.filled]
    }

    /// What the bytes are.
    fn heard(&self) -> Heard
        ensures { IsHeard self.now result }
    {
        heard_in(self.bytes())
    }

    /// Reads once, behind the bytes so far.
    fn read_more<S: Speaker>(&mut self, speaker: &mut S) -> Got
        ensures bytes { HearsOn self.old self.new (S.left speaker.old) (S.left speaker.new) }
        ensures tells { AnswersMore (S.answered speaker.old) (S.answered speaker.new)
            (result ∷ []) }
        ensures count { length self.new ≡ length self.old + count_of_got result }
        ensures grows { gave_bytes result ≡ true → length self.old < 33
            → length self.old < length self.new }
    {
        match speaker.speak(&mut self.bytes[self.filled..]) {
            Got::Got(count) => {
                self.filled += count as usize;
                Got::Got(count)
            }
            Got::End => Got::End,
            Got::NotReady => Got::NotReady,
            Got::Failed => Got::Failed,
        }
    }

    /// Reads once. It answers what is heard then, or none where it gave bytes and more are to come.
    fn hear_once<S: Speaker>(&mut self, speaker: &mut S) -> Option<Heard>
        ensures once { HearsOnce (S.answered speaker.old) (S.answered speaker.new)
            self.old self.new result }
        ensures bytes { HearsOn self.old self.new (S.left speaker.old) (S.left speaker.new) }
        ensures grows { result ≡ None → length self.old < length self.new }
        ensures few { result ≡ None → length self.new < 33 }
    {
        let got = self.read_more(speaker);
        match got {
            Got::Got(_) => match self.heard() {
                Heard::More => None,
                heard => Some(heard),
            },
            Got::NotReady => Some(self.heard()),
            Got::End | Got::Failed => Some(Heard::Nothing),
        }
    }

    /// Reads what comes, up to the line's end, 33 bytes or the connection's end.
    pub fn hear<S: Speaker>(&mut self, speaker: &mut S) -> Heard
        ensures heard { HearsBy (S.answered speaker.old) (S.answered speaker.new) self.new result }
        ensures bytes { HearsOn self.old self.new (S.left speaker.old) (S.left speaker.new) }
    {
        loop {
            if let Some(heard) = self.hear_once(speaker) {
                return heard;
            }
        }
    }
}

/// How many bytes stand before the first line feed, where there is one.
fn feed_in(bytes: &[u8]) -> Option<usize>
    ensures is { result ≡ feed_in bytes.now }
    ensures within { IfSome result (λ n. n < length bytes.now) }
{
    bytes.iter().position(|byte| *byte == b'\n')
}

/// What the bytes are that came so far.
pub fn heard_in(bytes: &[u8]) -> Heard
    requires { length bytes.now ≤ 33 }
    ensures { IsHeard bytes.now result }
{
    match feed_in(bytes) {
        Some(end) => line_of(&bytes[..end]),
        None if bytes.len() < MOST => Heard::More,
        None => Heard::Nothing,
    }
}

/// The line of that text of at most 32 bytes, where it is text.
fn line_of(bytes: &[u8]) -> Heard
    requires { length bytes.now ≤ 32 }
    ensures { IsLineOrNone bytes.now result }
{
    match std::str::from_utf8(bytes) {
        Ok(text) => match Line::of(text) {
            Some(line) => Heard::Line(line),
            None => unreachable!(),
        },
        Err(_) => Heard::Nothing,
    }
}
