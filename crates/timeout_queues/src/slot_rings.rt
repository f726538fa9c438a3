//! Slots in rings: each stands in one of 128 rings or in none, and one that stands in a ring is found at once.
ghost use Rattle.std.specs.Prelude.{◌≡◌, ◌<◌, ◌≤◌, ℕ, Some, None, length, slice_get, slice_set, slice_index_or, IfSome, IfNone, IfOk};
ghost use Rattle.timeout_queues.specs.Filed.{none_filed, StandsIn};

use crate::rings::Rings;
use crate::turns::Turns;
use mpm_base::NoMemory;
use std::alloc::Global;
use std::marker::Model;

// How many rings there are.
const RINGS: u32 = 128;

/// Slots in rings, as contracts see them: of each slot the number of the ring in which it stands, or none.
#[derive(Drop)]
pub struct SlotRings {
    filed: Vec<Option<u32>>,
    // The places are the slots, and behind them the heads of the rings.
    rings: Rings,
    turns: Turns,
}

impl Model for SlotRings {
    ghost use Rattle.std.specs.Prelude.{ℕ, List, Option};

    ghost Value = { List (Option ℕ) };

    ghost use Rattle.timeout_queues.specs.RingsInside.{IsRings, by_number};

    ghost view = { λ r. r.filed.items };

    ghost invariant = { λ r.
        IsRings by_number r.filed.items r.rings.before.items r.rings.behind.items };
}

impl SlotRings {
    /// So many slots, none of which stands in a ring. No later call needs memory.
    pub fn make(alloc: Global, slots: u32) -> Result<SlotRings, NoMemory>
        requires { slots ≤ 8192 }
        ensures { IfOk result (λ rings. rings ≡ none_filed slots) }
    {
        let Ok(filed) = vec![in alloc; None; slots as usize] else {
            return Err(NoMemory);
        };
        Ok(SlotRings {
            filed,
            rings: Rings::make(alloc, slots + RINGS)?,
            turns: Turns::make(alloc, slots)?,
        })
    }

    /// Puts the slot at the end of the ring, or into none. Where it stands there already it keeps its place.
    pub fn file(&mut self, slot: u32, ring: Option<u32>)
        requires slot { slot < length self.old }
        requires ring { IfSome ring (λ number. number < 128) }
        ensures { self.new ≡ slice_set self.old slot ring }
    {
        if self.ring_of(slot) == ring {
            return;
        }
        self.leave(slot);
        if let Some(ring) = ring {
            self.enter(slot, ring);
        }
    }

    /// The slot that stands first in the ring: the one that was put there before all others.
    pub fn first(&self, ring: u32) -> Option<u32>
        requires { ring < 128 }
        ensures stands { IfSome result (StandsIn self.now ring) }
        ensures none { IfNone result ((slot : ℕ) → ¬ StandsIn self.now ring slot) }
    {
        let slots = self.filed.len() as u32;
        let place = self.rings.behind[(slots + ring) as usize];
        if place < slots { Some(place) } else { None }
    }

    /// Whether the slot was put into its ring before the other was put into its own. No clause says so.
    pub fn is_before(&self, slot: u32, other: u32) -> bool {
        self.turns.is_before(slot, other)
    }

    /// The ring in which the slot stands.
    pub fn ring_of(&self, slot: u32) -> Option<u32>
        ensures { result ≡ slice_index_or self.now slot None }
    {
        match self.filed.get(slot as usize) {
            Some(ring) => *ring,
            None => None,
        }
    }

    // Takes the slot out of its ring, where it stands in one.
    fn leave(&mut self, slot: u32)
        requires { slot < length self.old }
        ensures { self.new ≡ slice_set self.old slot None }
    {
        if self.filed[slot as usize].is_some() {
            self.rings.remove(slot);
            self.filed[slot as usize] = None;
        }
    }

    // Puts a slot that stands in no ring at the end of one.
    fn enter(&mut self, slot: u32, ring: u32)
        requires slot { slice_get self.old slot ≡ Some None }
        requires ring { ring < 128 }
        ensures { self.new ≡ slice_set self.old slot (Some ring) }
    {
        let head = self.filed.len() as u32 + ring;
        let last = self.rings.before[head as usize];
        self.rings.insert(last, slot);
        self.turns.note(slot);
        self.filed[slot as usize] = Some(ring);
    }
}
