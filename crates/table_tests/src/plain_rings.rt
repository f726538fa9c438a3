//! Slots in rings as one plain list, in the order in which they were put there, over which each look goes: what the rings of
//! slots are compared with.
use mpm_base::NoMemory;
use std::alloc::Global;

/// The slots that stand in a ring.
#[derive(Drop)]
pub struct PlainRings {
    filed: Vec<Filed>,
}

#[derive(Clone, Copy)]
struct Filed {
    slot: u32,
    ring: u32,
}

impl PlainRings {
    /// No slot stands in a ring.
    pub fn make(alloc: Global) -> PlainRings {
        PlainRings {
            filed: Vec::new(alloc),
        }
    }

    /// Puts the slot at the end of the ring, or into none. Where it stands there already it keeps its place.
    pub fn file(&mut self, slot: u32, ring: Option<u32>) -> Result<(), NoMemory> {
        if self.ring_of(slot) == ring {
            return Ok(());
        }
        self.filed.retain(|filed| filed.slot != slot);
        let Some(ring) = ring else {
            return Ok(());
        };
        match self.filed.push(Filed { slot, ring }) {
            Ok(()) => Ok(()),
            Err(_) => Err(NoMemory),
        }
    }

    /// The slot that stands first in the ring.
    pub fn first(&self, ring: u32) -> Option<u32> {
        for filed in self.filed.iter() {
            if filed.ring == ring {
                return Some(filed.slot);
            }
        }
        None
    }

    /// The ring in which the slot stands.
    pub fn ring_of(&self, slot: u32) -> Option<u32> {
        for filed in self.filed.iter() {
            if filed.slot == slot {
                return Some(filed.ring);
            }
        }
        None
    }
}
