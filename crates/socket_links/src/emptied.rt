//! Which links have emptied their sockets: what a front and its links tell each other, so that no link reads where nothing can stand.
//! Why it is so stands in docs/DECISIONS.md: 85, What links, front and clock take of the system.
ghost use Rattle.std.specs.Prelude.{◌≡◌};
ghost use Rattle.socket_links.specs.Emptied.{empties, hides_more};

use crate::room::make_marks;
use mio::event::Event;
use mpm_base::{Got, NoMemory};
use std::alloc::Global;
use std::sync::atomic::{AtomicBool, Ordering};

/// Whether something may stand behind a read that was short, of which no further event tells: the event says that the client sends no
/// more, that the connection failed, or that bytes are urgent, before which a read stops.
pub fn hides_more(event: &Event) -> bool
    ensures { result ≡ hides_more event.now }
{
    event.is_error() || event.is_read_closed() || event.is_write_closed() || event.is_priority()
}

/// Whether a read into so much room, which answered this, left nothing behind: it was short of its room, or found nothing.
pub fn empties(got: Got, room: usize) -> bool
    ensures { result ≡ empties got room }
{
    match got {
        Got::Got(count) => count < room as u64,
        Got::NotReady => true,
        Got::End | Got::Failed => false,
    }
}

/// Two marks for each slot: whether the link that is watched under it emptied its socket, and whether an event said that more may be
/// hidden behind a short read.
///
/// The system tells of each thing that comes once, as it comes. So where a read left nothing behind, what comes later has an event of its
/// own, and until that one there is nothing to be read. An end alone, and what comes behind urgent bytes, may stand behind a short read
/// without a further event: once one said so each read is made.
///
/// A link sets the first mark before it reads, and then takes it off unless it emptied its socket and nothing may be hidden; the front takes
/// it off at each event of the slot, behind the second mark, which it sets where the event says so. So an event that comes during a read is
/// missed by neither.
#[derive(Drop)]
pub(crate) struct EmptiedMarks {
    emptied: Vec<AtomicBool>,
    hidden: Vec<AtomicBool>,
}

impl EmptiedMarks {
    /// Marks for so many slots, none of which is set. It takes all its memory here.
    pub(crate) fn make(alloc: Global, slots: u32) -> Result<EmptiedMarks, NoMemory> {
        Ok(EmptiedMarks {
            emptied: make_marks(alloc, slots)?,
            hidden: make_marks(alloc, slots)?,
        })
    }

    /// Another link is watched under the slot from now on, of which nothing was told.
    pub(crate) fn begin(&self, slot: u32) {
        set(&self.hidden, slot, false);
        set(&self.emptied, slot, false);
    }

    /// There was an event of the slot, behind which more may be hidden or not.
    pub(crate) fn hear(&self, slot: u32, hides: bool) {
        if hides {
            set(&self.hidden, slot, true);
        }
        set(&self.emptied, slot, false);
    }

    /// The link of the slot reads.
    pub(crate) fn begin_read(&self, slot: u32) {
        set(&self.emptied, slot, true);
    }

    /// The read is done, and left nothing behind, or may have.
    pub(crate) fn end_read(&self, slot: u32, empties: bool) {
        if !empties || is_set(&self.hidden, slot) {
            set(&self.emptied, slot, false);
        }
    }

    /// Whether the link of the slot emptied its socket, and there was no event since.
    pub(crate) fn has_emptied(&self, slot: u32) -> bool {
        is_set(&self.emptied, slot)
    }
}

/// Sets the mark of the slot, or takes it off. A slot that has none stays as it is.
fn set(marks: &[AtomicBool], slot: u32, value: bool) {
    if let Some(mark) = marks.get(slot as usize) {
        mark.store(value, Ordering::SeqCst);
    }
}

/// Whether the mark of the slot is set. That of a slot that has none isn't.
fn is_set(marks: &[AtomicBool], slot: u32) -> bool {
    match marks.get(slot as usize) {
        Some(mark) => mark.load(Ordering::SeqCst),
        None => false,
    }
}
