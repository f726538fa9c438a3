//! Where names were last taken out of their rings. No clause speaks of it: it only says where to look first.
use mpm_base::NoMemory;
use std::alloc::Global;

/// Of each slot the place behind which its name was last taken out.
#[derive(Drop)]
pub(crate) struct Hints {
    places: Vec<u32>,
}

impl Hints {
    /// So many slots, of which no name was taken out.
    pub(crate) fn make(alloc: Global, slots: u32) -> Result<Hints, NoMemory> {
        match vec![in alloc; 0u32; slots as usize] {
            Ok(places) => Ok(Hints { places }),
            Err(_) => Err(NoMemory),
        }
    }

    /// The place behind which the name of the slot was taken out.
    pub(crate) fn get(&self, slot: u32) -> u32 {
        match self.places.get(slot as usize) {
            Some(place) => *place,
            None => 0,
        }
    }

    /// The name of the slot is taken out behind the place.
    pub(crate) fn note(&mut self, slot: u32, place: u32) {
        if let Some(kept) = self.places.get_mut(slot as usize) {
            *kept = place;
        }
    }
}
