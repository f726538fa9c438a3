//! The ends of a way on which carriers travel through a queue.
ghost use Rattle.std.specs.Prelude.{◌≡◌, ℕ, Some, slice_get};
ghost use Rattle.crossbeam_queue.specs.Passes.{IsPassOf};
ghost use Rattle.recycle_perch.specs.Looking.{AllAreOf};

use crate::resters::{Parcel, Rester, last_rester};
use board_lock::Room;
use fd_queue::{FdQueue, FdSeat, Item};
use lock_examples::{Toy, last_seat};
use mpm_base::NoMemory;
use recycle_perch::{Looks, Perch};
use std::alloc::Global;
use std::sync::Wait;
use std::thread;

/// How many carriers each thread sends, or receives.
const ROUNDS: u32 = 1_000;

/// One end of the way.
#[derive(Drop)]
pub struct Post<'q, 'p, 'a, B: Room> {
    rester: Rester<'p, 'a, B>,
    queue: &'q FdQueue<Parcel<B>>,
    seat: FdSeat<Parcel<B>>,
    sends: bool,
    ghost own: { IsPassOf queue.now.ring seat },
}

impl<'q, 'p, 'a, B: Room> Post<'q, 'p, 'a, B> {
    /// Takes a carrier as soon as one rests.
    fn take<R: Wait>(&mut self, rt: &R) -> Parcel<B> {
        for _ in rt.forever() {
            if let Some(parcel) = self.rester.take() {
                return parcel;
            }
            thread::yield_now();
        }
        unreachable!()
    }

    /// Sends the carrier as soon as there is a place.
    fn send<R: Wait>(&mut self, rt: &R, parcel: Parcel<B>) {
        let mut item = Item::Work(parcel);
        for _ in rt.forever() {
            match self.queue.push(rt, &mut self.seat, item) {
                Ok(()) => return,
                Err(back) => item = back,
            }
            thread::yield_now();
        }
    }

    /// Receives a carrier as soon as there is one.
    fn receive<R: Wait>(&mut self, rt: &R) -> Item<Parcel<B>> {
        for _ in rt.forever() {
            if let Some(item) = self.queue.pop(rt, &mut self.seat) {
                return item;
            }
            thread::yield_now();
        }
        unreachable!()
    }

    /// Sends or receives a carrier, and lays down the one that comes: whether that was done.
    fn plays_once<R: Wait>(&mut self, rt: &R) -> bool {
        if self.sends {
            let parcel = self.take(rt);
            self.send(rt, parcel);
            return true;
        }
        match self.receive(rt) {
            Item::Work(parcel) => self.rester.lay_behind_try(parcel),
            Item::End => false,
        }
    }

    /// Sends carriers, or lays down those that come: whether all were.
    pub fn plays<R: Wait>(mut self, rt: &R) -> bool {
        for _ in 0..ROUNDS {
            if !self.plays_once(rt) {
                return false;
            }
        }
        true
    }
}

/// The ends of a way: half of them send, the others receive.
pub fn posts<'q, 'p, 'a, B: Room>(
    alloc: Global,
    perch: &'p Perch<'a, Box<Toy>>,
    all: &mut Vec<Looks>,
    queue: &'q FdQueue<Parcel<B>>,
    mut seats: Vec<FdSeat<Parcel<B>>>,
) -> Result<Vec<Post<'q, 'p, 'a, B>>, NoMemory>
    requires lock { perch.now.shared.now.table.shared.table_id ≡ B.table }
    requires looks { AllAreOf perch.now.places all.old.items }
    requires seats { (i : ℕ) (seat : _) → slice_get seats.items i ≡ Some seat → IsPassOf queue.now.ring seat }
{
    let mut made = Vec::new(alloc);
    for number in 0..seats.len() {
        let Some(seat) = last_seat(queue, &mut seats) else {
            return Ok(made);
        };
        let Some(rester) = last_rester(perch, all) else {
            return Ok(made);
        };
        made.push(Post {
            rester,
            queue,
            seat,
            sends: number % 2 == 0,
        })?;
    }
    Ok(made)
}
