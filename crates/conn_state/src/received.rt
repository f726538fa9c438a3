//! Bytes that were received and not taken yet.
ghost use Rattle.std.specs.Prelude.{◌≡◌, ◌==◌, [], ◌++◌, ◌≤◌, length, drop, OnOk, OnErr};

use mpm_base::NoMemory;
use std::alloc::Global;
use std::marker::Model;

/// Bytes that were received, without those that were taken.
#[derive(Drop)]
pub struct Received {
    items: Vec<u8>,
    from: usize,
}

impl Model for Received {
    ghost use Rattle.std.specs.Prelude.{List, ℕ, ◌≤◌, drop, length};

    ghost Value = { List ℕ };

    ghost view = { λ r. drop r.from r.items.items };

    ghost invariant = { λ r. r.from ≤ length r.items.items };
}

impl Received {
    /// No bytes. Takes no memory.
    pub fn make(alloc: Global) -> Received
        ensures { result ≡ [] }
    {
        Received {
            items: Vec::new(alloc),
            from: 0,
        }
    }

    /// Whether there is no byte.
    pub fn is_empty(&self) -> bool
        ensures { result ≡ (length self.now == 0) }
    {
        self.from == self.items.len()
    }

    /// The bytes, in order.
    pub fn as_slice(&self) -> &[u8]
        ensures { result.now ≡ self.now }
    {
        &self.items.as_slice()[self.from..]
    }

    /// Leaves out so many bytes at the front. No byte is moved.
    pub fn skip(&mut self, count: usize)
        requires { count ≤ length self.old }
        ensures { self.new ≡ drop count self.old }
    {
        prove!(count <= self.items.len() - self.from);
        self.from += count;
    }

    /// Holds no memory where there is no byte.
    pub fn free_empty(&mut self, alloc: Global)
        ensures { self.new ≡ self.old }
    {
        if self.is_empty() {
            *self = Received::make(alloc);
        }
    }

    /// Puts the bytes at the end, and moves those that are there to the front of the room. Where memory lacks no byte changes.
    pub fn add(&mut self, bytes: &[u8]) -> Result<(), NoMemory>
        ensures ok { OnOk result (self.new ≡ self.old ++ bytes.now) }
        ensures err { OnErr result (self.new ≡ self.old) }
    {
        if self.from > 0 {
            let _ = self.items.drain(..self.from);
            self.from = 0;
        }
        match self.items.extend_from_slice(bytes) {
            Ok(()) => Ok(()),
            Err(_) => Err(NoMemory),
        }
    }
}
