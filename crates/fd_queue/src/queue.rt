//! The queue.
//! Why it is so stands in docs/DECISIONS.md: 61, What a push or a pop found.
ghost use Rattle.std.specs.Prelude.{◌≡◌, ◌<◌, ◌≤◌, ⊤, true, false, ℕ, IfOk, MatchOption, MatchResult, slice_get, Some, vec_len, vec_capacity};
ghost use Rattle.crossbeam_queue.specs.Passes.{view, IsPassOf, ruled_capacity};
ghost use Rattle.fd_queue.specs.declared.seat.Item.TheVariants.{End};
ghost use Rattle.fd_queue.specs.Seats.{new_seat, InOrder, IsNewSeat, PutsItem, PutsAll, HaveStood, TakesItem, WasHolding};

use crate::seat::{Item, SeatView};
use crossbeam_queue::protocol::{Lesson, Outcome, Protocol, Split};
use crossbeam_queue::{Pass, RuledArrayQueue};
use mpm_base::NoMemory;
use std::alloc::Global;
use std::sync::Wait;

/// The rule of a queue.
pub struct Order;

impl<T> Protocol<T, SeatView<T>> for Order {
    ghost holds = { InOrder };

    ghost first = { new_seat true };
}

/// An item is put.
struct PutStep;

impl<T> Outcome<T, SeatView<T>> for PutStep {
    ghost then = { PutsItem };
}

impl<T> Lesson<T, SeatView<T>> for PutStep {
    ghost fact = { HaveStood };
}

/// An item is taken.
struct PopStep;

impl<T> Outcome<T, SeatView<T>> for PopStep {
    ghost then = { TakesItem };
}

impl<T> Lesson<T, SeatView<T>> for PopStep {
    ghost fact = { HaveStood };
}

/// A further seat is made.
struct Seats;

impl<T> Split<SeatView<T>> for Seats {
    ghost left = { λ v. record v { alone = false } };

    ghost right = { λ v. new_seat false };
}

/// The token of a thread.
pub type FdSeat<T> = Pass<Item<T>, SeatView<Item<T>>>;

/// A queue with a number of places.
#[derive(Drop)]
pub struct FdQueue<T: Drop> {
    pub ring: RuledArrayQueue<Item<T>, SeatView<Item<T>>, Order>,
}

impl<T: Drop> FdQueue<T> {
    /// An empty queue of so many places, and so many seats.
    pub fn make(
        alloc: Global,
        places: u32,
        seats: u32,
    ) -> Result<(FdQueue<T>, Vec<FdSeat<T>>), NoMemory>
        requires places { (1 ≤ places) × (places ≤ 64) }
        requires seats { (1 ≤ seats) × (seats ≤ 66) }
        ensures places { IfOk result (λ made. ruled_capacity made.0.ring ≡ places) }
        ensures count { IfOk result (λ made. vec_len made.1 ≡ seats) }
        ensures seats { IfOk result
            (λ made. (i : ℕ) (seat : _)
            → slice_get made.1.items i ≡ Some seat
            → IsPassOf made.0.ring seat × IsNewSeat (view seat)) }
        ensures alone { IfOk result
            (λ made. seats ≡ 1
            → (i : ℕ) (seat : _)
            → slice_get made.1.items i ≡ Some seat
            → (view seat).alone ≡ true) }
    {
        let Ok(mut all) = Vec::with_capacity(alloc, seats as usize) else {
            return Err(NoMemory);
        };
        let Ok((ring, first)) = RuledArrayQueue::ruled(alloc, places as usize) else {
            return Err(NoMemory);
        };
        let queue = FdQueue { ring };
        queue.fill(first, &mut all, seats);
        Ok((queue, all))
    }

    /// Makes the seats.
    fn fill(&self, mut first: FdSeat<T>, all: &mut Vec<FdSeat<T>>, seats: u32)
        requires first { IsPassOf self.now.ring first × (view first ≡ new_seat true) }
        requires seats { 1 ≤ seats }
        requires room { (vec_len all.old ≡ 0) × (seats ≤ vec_capacity all.old) }
        ensures count { vec_len all.new ≡ seats }
        ensures seats { (i : ℕ) (seat : _)
            → slice_get all.new.items i ≡ Some seat
            → IsPassOf self.now.ring seat × IsNewSeat (view seat) }
        ensures alone { seats ≡ 1
            → (i : ℕ) (seat : _)
            → slice_get all.new.items i ≡ Some seat
            → (view seat).alone ≡ true }
    {
        for _ in 1..seats {
            let seat = self.ring.another::<Seats>(&mut first);
            all.push_reserved(seat);
        }
        all.push_reserved(first);
    }

    /// Puts an item behind all others. It comes back only where the queue was full at some moment of the call.
    pub fn push<R: Wait>(&self, rt: &R, seat: &mut FdSeat<T>, item: Item<T>) -> Result<(), Item<T>>
        requires seat { IsPassOf self.now.ring seat.old }
        ensures seat { IsPassOf self.now.ring seat.new }
        ensures put { MatchResult result (λ _. PutsItem (view seat.old) item (view seat.new))
            (λ back. (back ≡ item) × (view seat.new ≡ view seat.old)) }
        ensures full { MatchResult result (λ _. ⊤)
            (λ _. WasHolding (ruled_capacity self.now.ring) (view seat.old)) }
    {
        self.ring.push_as::<PutStep, R>(rt, seat, item)
    }

    /// Takes the first item. There is none only where the queue was empty at some moment of the call.
    pub fn pop<R: Wait>(&self, rt: &R, seat: &mut FdSeat<T>) -> Option<Item<T>>
        requires seat { IsPassOf self.now.ring seat.old }
        ensures seat { IsPassOf self.now.ring seat.new }
        ensures taken { MatchOption result (view seat.new ≡ view seat.old)
            (λ item. TakesItem (view seat.old) item (view seat.new)) }
        ensures empty { MatchOption result (WasHolding 0 (view seat.old)) (λ _. ⊤) }
    {
        self.ring.pop_as::<PopStep, R>(rt, seat)
    }

    /// How many items stood in the queue at some moment of the call.
    pub fn len<R: Wait>(&self, rt: &R, seat: &mut FdSeat<T>) -> usize
        requires seat { IsPassOf self.now.ring seat.old }
        ensures seat { IsPassOf self.now.ring seat.new }
        ensures same { view seat.new ≡ view seat.old }
        ensures few { result ≤ ruled_capacity self.now.ring }
        ensures held { WasHolding result (view seat.old) }
    {
        self.ring.len_as::<PopStep, R>(rt, seat)
    }

    /// Puts End so often, and answers how often: less only where the queue was full at some moment of the call.
    pub fn end_items<R: Wait>(&self, rt: &R, seat: &mut FdSeat<T>, n: u32) -> u32
        requires seat { IsPassOf self.now.ring seat.old }
        ensures seat { IsPassOf self.now.ring seat.new }
        ensures few { result ≤ n }
        ensures put { PutsAll End result (view seat.old) (view seat.new) }
        ensures full { result < n → WasHolding (ruled_capacity self.now.ring) (view seat.new) }
    {
        for count in 0..n {
            if self.push(rt, seat, Item::End).is_err() {
                return count;
            }
        }
        n
    }
}
