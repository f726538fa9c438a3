//! A command line, as an operator sends it to a running server.
ghost use Rattle.std.specs.Prelude.{◌≡◌, ◌<◌, ◌↔◌, length, IfSome, IsNone};

use arrayvec::ArrayString;
use std::marker::Model;

/// A command line: at most 32 bytes of text, as contracts see it. Takes no memory.
#[derive(Debug, Drop)]
pub struct Line {
    text: ArrayString<32>,
}

impl Model for Line {
    ghost use Rattle.std.specs.Prelude.{List, ℕ};

    ghost Value = { List ℕ };

    ghost view = { λ l. l.text.bytes };
}

impl Line {
    /// The line of that text. None where it has more than 32 bytes.
    pub fn of(text: &str) -> Option<Line>
        ensures some { IfSome result (λ line. line ≡ text.now) }
        ensures none { IsNone result ↔ (32 < length text.now) }
    {
        match ArrayString::from(text) {
            Ok(text) => Some(Line { text }),
            Err(_) => None,
        }
    }

    /// Its text.
    pub fn as_str(&self) -> &str
        ensures { result.now ≡ self.now }
    {
        self.text.as_str()
    }
}
