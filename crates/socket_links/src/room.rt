//! Which links may lack room: what a link tells the front of its writes.

use mpm_base::NoMemory;
use std::alloc::Global;
use std::sync::atomic::{AtomicBool, Ordering};

/// So many marks, none of which is set. It takes all their memory.
pub(crate) fn make_marks(alloc: Global, count: u32) -> Result<Vec<AtomicBool>, NoMemory> {
    let Ok(mut marks) = Vec::with_capacity(alloc, count as usize) else {
        return Err(NoMemory);
    };
    for _ in 0..count {
        if marks.push(AtomicBool::new(false)).is_err() {
            return Err(NoMemory);
        }
    }
    Ok(marks)
}

/// A mark for each slot: whether the last write of the link that is watched under it wasn't taken whole. The front and its links
/// share them, so that room for a link that doesn't lack any gives no slot.
#[derive(Drop)]
pub(crate) struct RoomMarks {
    marks: Vec<AtomicBool>,
}

impl RoomMarks {
    /// Marks for so many slots, none of which is set. It takes all its memory here.
    pub(crate) fn make(alloc: Global, slots: u32) -> Result<RoomMarks, NoMemory> {
        Ok(RoomMarks {
            marks: make_marks(alloc, slots)?,
        })
    }

    /// Sets the mark of the slot, or takes it off. A slot that has none stays as it is.
    pub(crate) fn set(&self, slot: u32, lacks: bool) {
        if let Some(mark) = self.marks.get(slot as usize) {
            mark.store(lacks, Ordering::SeqCst);
        }
    }

    /// Whether the link of the slot may lack room, as one does whose slot has no mark.
    pub(crate) fn lacks(&self, slot: u32) -> bool {
        match self.marks.get(slot as usize) {
            Some(mark) => mark.load(Ordering::SeqCst),
            None => true,
        }
    }
}
