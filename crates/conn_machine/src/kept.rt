//! What is kept of a history by a value that several passes share.
//! Why it is so stands in docs/DECISIONS.md: 68, What a kept value tells.
ghost use Rattle.std.specs.Prelude.{◌≡◌, ◌+◌, ◌<◌, ◌^◌, length};

use crate::event::Entry;
use crate::folded::Folded;
use crate::state::State;
use std::collections::LinkedList;

/// What a value tells that keeps a history and may fold it. Contracts alone speak of it, and no value of it is made.
pub struct Ledger {
    /// The state before the first entry of the history.
    pub base: State,
    /// What is known of the entries before it, which were folded.
    pub folded: Folded,
    /// The entries since the last fold, oldest first.
    pub history: LinkedList<Entry>,
    /// The texts of the connections that ended since the last fold, in the order of their closes.
    pub texts: LinkedList<LinkedList<u8>>,
    /// How many passes may add entries: their numbers are below this one.
    pub passes: u64,
}

/// A value that keeps the history of a machine.
pub trait Kept: Drop {
    ghost use Rattle.conn_machine.specs.declared.kept.Ledger.{Ledger};

    /// What it tells.
    ghost ledger: { Self → Ledger };

    /// How many entries there ever were.
    fn length(&self) -> u64
        ensures is { result ≡ (ledger self.now).folded.entries + length (ledger self.now).history }
        ensures bounded { result < 2 ^ 63 };
}

impl<K: Kept> Kept for Box<K> {
    ghost ledger = { λ b. K.ledger b.value };

    fn length(&self) -> u64 {
        (**self).length()
    }
}
