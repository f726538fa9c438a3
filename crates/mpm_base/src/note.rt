//! What the table notes of a response when it is decided, and what a status page shows.
ghost use Rattle.std.specs.Prelude.{◌≡◌, IfOk};
ghost use Rattle.mpm_base.specs.Notes.{says_last};

use crate::memory::NoMemory;
use crate::octets::Octets;
use crate::sequence::Sequence;
use std::alloc::Global;
use std::marker::Model;
use std::mem::size_of;

/// The numbers and letters of a status page.
#[derive(Debug, Drop)]
pub struct Snapshot {
    /// The newest generation.
    pub generation: u32,
    /// Workers that serve a connection.
    pub busy: u32,
    /// Workers that serve none and may be given one.
    pub idle: u32,
    /// Live connections.
    pub total: u32,
    /// Connections that wait for room to write.
    pub writing: u32,
    /// Connections that wait for a further request.
    pub keep_alive: u32,
    /// Connections in closing.
    pub closing: u32,
    /// One letter for each worker that a child has or may have.
    pub letters: Octets,
}

/// A snapshot, which contracts see as such. Few responses show one, so a note keeps it in a box.
#[derive(Debug, Drop)]
pub struct Page {
    snapshot: Box<Snapshot>,
}

impl Model for Page {
    ghost use Rattle.mpm_base.specs.declared.note.Snapshot.{Snapshot};

    ghost Value = { Snapshot };

    ghost view = { λ p. p.snapshot.value };
}

impl Page {
    /// The page that shows this. NoMemory where memory lacks for it.
    pub fn make(alloc: Global, snapshot: Snapshot) -> Result<Page, NoMemory>
        ensures { IfOk result (λ page. page ≡ snapshot) }
    {
        match Box::new(alloc, snapshot) {
            Ok(snapshot) => Ok(Page { snapshot }),
            Err(_) => Err(NoMemory),
        }
    }

    /// What it shows.
    pub fn snapshot(&self) -> &Snapshot
        ensures { result.now ≡ self.now }
    {
        &self.snapshot
    }
}

/// What was decided about one response.
#[derive(Debug, Drop)]
pub struct Note {
    /// The second of its Date field, since 1970-01-01 00:00:00 UTC.
    pub date: u64,
    /// The request asked to close, or was refused.
    pub asked_close: bool,
    /// It is the last response of its connection.
    pub last: bool,
    /// Its status code (RFC 9110, section 15).
    pub code: u16,
    /// What the status page shows, where the response is one.
    pub page: Option<Page>,
}

// What is decided is handed on by value.
const _: () = prove!(size_of::<Note>() <= 32);

/// A list of notes, as contracts see it, in the order of the responses.
pub type Notes = Sequence<Note>;

impl Sequence<Note> {
    /// Whether the last note says that it is the last response; false where there is none.
    pub fn says_last(&self) -> bool
        ensures { result ≡ says_last self.now }
    {
        match self.items.as_slice().last() {
            Some(note) => note.last,
            None => false,
        }
    }
}
