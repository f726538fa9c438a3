//! What goes through a queue, and what a seat knows of it.
use std::collections::LinkedList;

/// What goes through a queue.
#[derive(Debug, Drop, PartialEq)]
pub enum Item<T> {
    /// Something to do.
    Work(T),
    /// Nothing more comes for whoever takes it.
    End,
}

/// What a seat knows of its queue. Contracts alone speak of it, and no value of it is made.
pub struct SeatView<T> {
    /// The first of all that was put, as far as the seat knows.
    pub known: LinkedList<T>,
    /// The places of what it put.
    pub put: LinkedList<u64>,
    /// The places of what it took.
    pub taken: LinkedList<u64>,
    /// No other seat of the queue was made yet.
    pub alone: bool,
}
