//! The order in which slots were put where they stand. No clause speaks of it.
use mpm_base::NoMemory;
use std::alloc::Global;

/// Of each slot when it was put where it stands, counted over all slots.
#[derive(Drop)]
pub(crate) struct Turns {
    of: Vec<u64>,
    next: u64,
}

impl Turns {
    /// So many slots, none of which was put anywhere.
    pub(crate) fn make(alloc: Global, slots: u32) -> Result<Turns, NoMemory> {
        match vec![in alloc; 0u64; slots as usize] {
            Ok(of) => Ok(Turns { of, next: 0 }),
            Err(_) => Err(NoMemory),
        }
    }

    /// The slot is put where it stands, behind all others.
    pub(crate) fn note(&mut self, slot: u32) {
        if let Some(turn) = self.of.get_mut(slot as usize) {
            *turn = self.next;
        }
        self.next = self.next.saturating_add(1);
    }

    /// Whether the slot was put where it stands before the other was.
    pub(crate) fn is_before(&self, slot: u32, other: u32) -> bool {
        match (self.of.get(slot as usize), self.of.get(other as usize)) {
            (Some(turn), Some(later)) => turn < later,
            _ => false,
        }
    }
}
