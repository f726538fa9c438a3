//! What a pass knows. Contracts alone speak of it, and no value of these types is made.
use crate::trail::Step;
use conn_machine::{Entry, Folded, Ledger, State};
use mpm_base::ConnName;
use std::collections::LinkedList;

/// What a pass knows.
pub struct View {
    pub origin: Origin,
    pub who: Who,
    /// The history that it has seen, from the origin on.
    pub seen: LinkedList<Entry>,
    /// While it has the turn: what the value told when it was taken.
    pub turn: Option<Ledger>,
    /// The connection that it has.
    pub row: Option<ConnName>,
    pub hand: Hand,
    pub past: Past,
    /// What pass 0 alone has: what it left as it last gave the turn back, the credit of each child, and the numbers that
    /// it draws.
    pub left: LastLeft,
    pub credits: LinkedList<u64>,
    pub draws: Draws,
}

/// Where each history begins.
pub struct Origin {
    /// The state before all entries.
    pub state: State,
    /// How many passes there may be.
    pub passes: u64,
}

/// Who a pass is.
pub struct Who {
    pub number: u64,
    /// It rests on a perch.
    pub resting: bool,
}

/// What a pass has of the idle words.
pub struct Hand {
    /// It may carry a connection of this child.
    pub permit: Option<u32>,
    /// It found no permit of this child, and has to undo its try.
    pub trying: Option<u32>,
}

/// What a pass knows of the trail, on which the steps on idle words stand, and the looks at the turn word with which passes woke up:
/// its own look and all that it made since, or all that it ever made where it didn't rest.
pub struct Past {
    /// How many steps stood on the trail when it woke up, or 0.
    pub since: u64,
    /// The steps that it made since, in order; where it rested, the first is the look with which it woke up.
    pub steps: LinkedList<Step>,
}

/// What pass 0 left as it gave the turn back.
pub struct LastLeft {
    /// The entries that were folded.
    pub entries: LinkedList<Entry>,
    /// What the value knew of them.
    pub folded: Folded,
    /// The texts that the value had.
    pub texts: LinkedList<LinkedList<u8>>,
}

/// The numbers of passes that pass 0 draws.
pub struct Draws {
    /// The next number.
    pub next: u64,
    /// The last number has no pass yet.
    pub spare: bool,
}
