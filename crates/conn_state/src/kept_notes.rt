//! What a connection keeps of its responses.
ghost use Rattle.std.specs.Prelude.{◌≡◌, ◌==◌, [], ◌∷◌, ◌++◌, length, OnOk, OnErr};
ghost use Rattle.mpm_base.specs.Notes.{codes_in, says_last};

use http_server::Log;
use mpm_base::{NoMemory, Note, Sequence};
use std::alloc::Global;
use std::marker::Model;

/// For how many codes room is taken at first: so a connection that waits behind a few of them has little room that it doesn't use.
const FIRST_CODES: usize = 4;

/// For how many codes room is taken at once behind these: so has one with many of them.
const CODES_AT_ONCE: usize = 64;

/// For how many codes room is to be taken where there are so many.
fn room_behind(len: usize) -> usize {
    if len == 0 {
        FIRST_CODES
    } else if len == FIRST_CODES {
        CODES_AT_ONCE - FIRST_CODES
    } else if len % CODES_AT_ONCE == 0 {
        CODES_AT_ONCE
    } else {
        0
    }
}

/// The responses of a connection so far, in order: a list of notes, as contracts see it. The program keeps the code of each, 2 bytes,
/// and what the last one says: of a page nothing.
#[derive(Drop)]
pub struct KeptNotes {
    // Kept for clauses alone: it takes no memory.
    log: Log<Note, ()>,
    codes: Sequence<u16>,
    last: bool,
}

// Of a response nothing is kept but its code, so there is no room for a page.
const _: () = prove!(size_of::<KeptNotes>() <= 32);

impl Model for KeptNotes {
    ghost use Rattle.std.specs.Prelude.{◌≡◌, List};
    ghost use Rattle.mpm_base.specs.Notes.{codes_in, says_last};
    ghost use Rattle.mpm_base.specs.declared.note.Note.{Note};
    ghost use Rattle.conn_state.specs.KeptNotesInside.{logged_notes};

    ghost Value = { List Note };

    ghost view = { λ n. logged_notes n.log.items };

    ghost invariant = { λ n. (n.codes ≡ codes_in (logged_notes n.log.items))
        × (n.last ≡ says_last (logged_notes n.log.items)) };
}

impl KeptNotes {
    /// No response, which takes no memory.
    pub fn make(alloc: Global) -> KeptNotes
        ensures { result ≡ [] }
    {
        KeptNotes {
            log: Log::new(),
            codes: Sequence::make(alloc),
            last: false,
        }
    }

    /// How many responses there are.
    pub fn len(&self) -> usize
        ensures { result ≡ length self.now }
    {
        self.codes.len()
    }

    /// Whether there is no response.
    pub fn is_empty(&self) -> bool
        ensures { result ≡ (length self.now == 0) }
    {
        self.codes.is_empty()
    }

    /// Whether the last note says that it is the last response; false where there is none.
    pub fn says_last(&self) -> bool
        ensures { result ≡ says_last self.now }
    {
        self.last
    }

    /// The codes of the responses, in order.
    pub fn codes(&self) -> &[u16]
        ensures { result.now ≡ codes_in self.now }
    {
        self.codes.as_slice()
    }

    /// Puts the note of a further response at the end. Where memory lacks nothing changes.
    pub fn add(&mut self, note: &Note) -> Result<(), NoMemory>
        ensures ok { OnOk result (self.new ≡ self.old ++ note.now ∷ []) }
        ensures err { OnErr result (self.new ≡ self.old) }
    {
        self.codes.reserve_exact(room_behind(self.codes.len()))?;
        self.codes.push(note.code)?;
        self.log = self.log.and(note, &());
        self.last = note.last;
        Ok(())
    }
}
