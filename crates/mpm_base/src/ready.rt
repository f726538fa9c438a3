//! The slots for which a wait of the front found something.
ghost use Rattle.std.specs.Prelude.{◌≡◌, ◌==◌, ◌<◌, ◌≤◌, [], ◌∷◌, ◌++◌, length, IfOk};

use crate::memory::NoMemory;
use std::alloc::Global;
use std::marker::Model;

/// How many slots one wait may give.
const MOST: usize = 256;

/// A list of at most 256 slots, as contracts see it.
#[derive(Debug, Drop)]
pub struct Ready {
    slots: Vec<u32>,
}

impl Model for Ready {
    ghost use Rattle.std.specs.Prelude.{◌≤◌, List, ℕ, length, vec_capacity};

    ghost Value = { List ℕ };

    ghost view = { λ r. r.slots.items };

    ghost invariant = { λ r. (length r.slots.items ≤ 256) × (256 ≤ vec_capacity r.slots) };
}

impl Ready {
    /// The empty list. Takes all its memory here.
    pub fn make(alloc: Global) -> Result<Ready, NoMemory>
        ensures { IfOk result (λ ready. ready ≡ []) }
    {
        match Vec::with_capacity(alloc, MOST) {
            Ok(slots) => Ok(Ready { slots }),
            Err(_) => Err(NoMemory),
        }
    }

    /// Takes all slots out.
    pub fn clear(&mut self)
        ensures { self.new ≡ [] }
    {
        self.slots.clear();
    }

    /// Whether no further slot fits.
    pub fn is_full(&self) -> bool
        ensures is { result ≡ (length self.now == 256) }
        ensures few { length self.now ≤ 256 }
    {
        self.slots.len() == MOST
    }

    /// Puts the slot at the end. Takes no memory.
    pub fn add(&mut self, slot: u32)
        requires { length self.old < 256 }
        ensures { self.new ≡ self.old ++ slot ∷ [] }
    {
        match self.slots.push(slot) {
            Ok(()) => (),
            Err(_) => unreachable!(),
        }
    }

    /// The slots, in order.
    pub fn slots(&self) -> &[u32]
        ensures is { result.now ≡ self.now }
        ensures few { length result.now ≤ 256 }
    {
        self.slots.as_slice()
    }
}
