//! The words of a command line.
ghost use Rattle.std.specs.Prelude.{◌≡◌, ◌==◌, [], ◌∷◌, ◌++◌, length, OnOk, OnErr, slice_get, option_map};
ghost use Rattle.std.specs.String.{string_bytes};

use crate::memory::NoMemory;
use crate::sequence::Sequence;
use std::alloc::Global;
use std::marker::Model;

/// A list of texts, as contracts see it: each text is the list of its bytes.
#[derive(Debug, Drop)]
pub struct Words {
    alloc: Global,
    texts: Sequence<String>,
}

impl Model for Words {
    ghost use Rattle.std.specs.Prelude.{List, ℕ, map};
    ghost use Rattle.std.specs.String.{string_bytes};

    ghost Value = { List (List ℕ) };

    ghost view = { λ w. map string_bytes w.texts };
}

impl Words {
    /// The empty list, which takes no memory.
    pub fn make(alloc: Global) -> Words
        ensures { result ≡ [] }
    {
        Words {
            alloc,
            texts: Sequence::make(alloc),
        }
    }

    /// Puts a word at the end. Where memory lacks nothing changes.
    pub fn add(&mut self, word: &str) -> Result<(), NoMemory>
        ensures ok { OnOk result (self.new ≡ self.old ++ word.now ∷ []) }
        ensures err { OnErr result (self.new ≡ self.old) }
    {
        let Ok(text) = String::from_str(self.alloc, word) else {
            return Err(NoMemory);
        };
        self.texts.push(text)
    }

    /// How many words there are.
    pub fn len(&self) -> usize
        ensures { result ≡ length self.now }
    {
        self.texts.len()
    }

    /// Whether there is no word.
    pub fn is_empty(&self) -> bool
        ensures { result ≡ (length self.now == 0) }
    {
        self.texts.is_empty()
    }

    /// The word at a place, counted from 0.
    pub fn get(&self, place: usize) -> Option<&str>
        ensures { option_map (λ word. word.now) result ≡ slice_get self.now place }
    {
        match self.texts.get(place) {
            Some(word) => Some(word.as_str()),
            None => None,
        }
    }
}
