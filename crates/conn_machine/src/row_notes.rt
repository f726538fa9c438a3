//! What a row keeps of its responses.
//! Why it is so stands in docs/DECISIONS.md: 42, A row keeps no memory for its responses.
ghost use Rattle.std.specs.Prelude.{◌≡◌, ◌==◌, [], ◌∷◌, ◌++◌, length, min};
ghost use Rattle.mpm_base.specs.Notes.{says_last};

use http_server::Log;
use mpm_base::Note;
use std::fmt;
use std::marker::Model;

/// The responses of a row so far, in order: a list of notes, as contracts see it. The program keeps their number and what
/// the last one says, and no memory for each; the connection has the notes.
#[derive(Drop)]
pub struct RowNotes {
    // Kept for clauses alone: it takes no memory.
    log: Log<Note, ()>,
    count: u32,
    last: bool,
}

impl Model for RowNotes {
    ghost use Rattle.std.specs.Prelude.{List};
    ghost use Rattle.mpm_base.specs.declared.note.Note.{Note};

    ghost Value = { List Note };

    ghost use Rattle.conn_machine.specs.NotesInside.{SumsUpNotes, logged_notes};

    ghost view = { λ n. logged_notes n.log.items };

    ghost invariant = { λ n. SumsUpNotes n.count n.last (logged_notes n.log.items) };
}

impl RowNotes {
    /// No response.
    pub fn make() -> RowNotes
        ensures { result ≡ [] }
    {
        RowNotes {
            log: Log::new(),
            count: 0,
            last: false,
        }
    }

    /// How many responses there are. The number stays at its greatest.
    pub fn count(&self) -> u32
        ensures { result ≡ min (length self.now) 4294967295 }
    {
        self.count
    }

    /// Whether there is no response.
    pub fn is_empty(&self) -> bool
        ensures { result ≡ (length self.now == 0) }
    {
        self.count == 0
    }

    /// Whether the last note says that it is the last response; false where there is none.
    pub fn says_last(&self) -> bool
        ensures { result ≡ says_last self.now }
    {
        self.last
    }

    /// Puts the note of a further response at the end.
    pub fn add(&mut self, note: &Note)
        ensures { self.new ≡ self.old ++ note.now ∷ [] }
    {
        self.log = self.log.and(note, &());
        self.count = self.count.saturating_add(1);
        self.last = note.last;
    }

    /// There is no response any more.
    pub fn clear(&mut self)
        ensures { self.new ≡ [] }
    {
        self.log = Log::new();
        self.count = 0;
        self.last = false;
    }
}

impl fmt::Debug for RowNotes {
    fn fmt<W: fmt::Write>(&self, f: &mut fmt::Formatter<W>) -> fmt::Result {
        f.debug_struct("RowNotes")
            .field("count", &self.count)
            .field("last", &self.last)
            .finish()
    }
}
