//! A text of at most 512 bytes that takes no memory.
ghost use Rattle.std.specs.Prelude.{◌≡◌, ◌+◌, ◌≤◌, [], ◌∷◌, ◌++◌, decimal, length, take};

use arrayvec::ArrayVec;
use itoa::Buffer;
use std::marker::Model;

/// The most bytes of an answer.
const MOST: usize = 512;

/// The text of an answer, at most 512 bytes, as contracts see it: the list of these.
#[derive(Drop)]
pub struct AnswerText {
    bytes: ArrayVec<u8, 512>,
}

impl Model for AnswerText {
    ghost use Rattle.std.specs.Prelude.{◌≤◌, List, length, ℕ};

    ghost Value = { List ℕ };

    ghost view = { λ t. t.bytes.items };

    ghost invariant = { λ t. length t.bytes.items ≤ 512 };
}

impl AnswerText {
    /// No text.
    pub(crate) fn empty() -> AnswerText
        ensures { result ≡ [] }
    {
        AnswerText {
            bytes: ArrayVec::new(),
        }
    }

    /// These bytes.
    pub(crate) fn of(bytes: &[u8]) -> AnswerText
        requires { length bytes.now ≤ 512 }
        ensures { result ≡ bytes.now }
    {
        let mut text = AnswerText::empty();
        text.add(bytes);
        text
    }

    /// Puts the bytes at the end.
    pub(crate) fn add(&mut self, bytes: &[u8])
        requires { length self.old + length bytes.now ≤ 512 }
        ensures is { self.new ≡ self.old ++ bytes.now }
        ensures len { length self.new ≡ length self.old + length bytes.now }
    {
        let _ = self.bytes.try_extend_from_slice(bytes);
    }

    /// Puts the decimal digits of the number at the end.
    pub(crate) fn add_number(&mut self, number: u64)
        requires { length self.old + 20 ≤ 512 }
        ensures is { self.new ≡ self.old ++ decimal number }
        ensures len { length self.new ≤ length self.old + 20 }
    {
        let mut buffer = Buffer::new();
        self.add(buffer.format(number).as_bytes());
    }

    /// Puts the bytes at the end, as far as there is room for them and a line feed.
    pub(crate) fn add_cut(&mut self, bytes: &[u8])
        requires { length self.old ≤ 511 }
        ensures is { self.new ≡ take 511 (self.old ++ bytes.now) }
        ensures len { length self.new ≤ 511 }
    {
        let room = MOST - 1 - self.bytes.len();
        let kept = bytes.len().min(room);
        self.add(&bytes[..kept]);
    }

    /// Ends the line.
    pub(crate) fn end_line(&mut self)
        requires { length self.old ≤ 511 }
        ensures { self.new ≡ self.old ++ 10 ∷ [] }
    {
        self.bytes.push(b'\n');
    }

    /// The bytes.
    pub fn as_slice(&self) -> &[u8]
        ensures is { result.now ≡ self.now }
        ensures few { length result.now ≤ 512 }
    {
        self.bytes.as_slice()
    }
}
