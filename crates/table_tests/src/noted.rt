//! The notes of the responses that a table decided, slot by slot. A row of the table keeps their number, and what the last one says.
use conn_machine::Event;
use mpm_base::{NoMemory, Note, Notes, Snapshot};
use std::alloc::Global;

/// The notes of each slot.
#[derive(Drop)]
pub struct NotesBySlot {
    items: Vec<Notes>,
}

impl NotesBySlot {
    /// No note, of so many slots.
    pub fn make(alloc: Global, slots: u32) -> Result<NotesBySlot, NoMemory> {
        let mut items = Vec::new(alloc);
        for _ in 0..slots {
            if items.push(Notes::make(alloc)).is_err() {
                return Err(NoMemory);
            }
        }
        Ok(NotesBySlot { items })
    }

    /// The notes of the slot.
    pub fn get(&self, slot: u32) -> Option<&Notes> {
        self.items.get(slot as usize)
    }

    /// The event was done. An answer has the note of its response.
    pub fn follow(&mut self, event: &Event, note: Option<Note>) -> Result<(), NoMemory> {
        let slot = match *event {
            Event::Answer(name, _) => name.slot,
            Event::Close(name, _, _) => name.slot,
            _ => return Ok(()),
        };
        let Some(notes) = self.items.get_mut(slot as usize) else {
            return Ok(());
        };
        match note {
            Some(note) => notes.push(note),
            None => {
                notes.clear();
                Ok(())
            }
        }
    }

    /// What the last response of the slot shows, where it is a status page.
    pub fn last_page(&self, slot: u32) -> Option<&Snapshot> {
        let notes = self.get(slot)?;
        let note = notes.as_slice().last()?;
        match note.page {
            Some(ref page) => Some(page.snapshot()),
            None => None,
        }
    }
}
