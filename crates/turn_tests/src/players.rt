//! Who has a thread in a test: the workers, and the listener.
ghost use Rattle.crossbeam_queue.specs.Passes.{IsPassOf};
ghost use Rattle.recycle_perch.specs.Looking.{AreOf};

use crate::links::TestLink;
use crate::listener::{Listener, listens};
use crate::tally::Tally;
use board_lock::Room;
use board_turns::Pair;
use conn_state::Nothing;
use fd_queue::{FdQueue, FdSeat};
use recycle_perch::Looks;
use std::alloc::Global;
use std::sync::Wait;
use worker_threads::{Hands, Rest, worker_loop};

/// What a worker of a test has at hand.
pub type TestHands<'a, M> = Hands<'a, M, TestLink, Nothing, Tally, Tally>;

/// What is pushed in a test.
pub type TestPair<M> = Pair<M, TestLink, Nothing>;

/// A worker.
#[derive(Drop)]
pub struct Worker<'a, M: Room> {
    pub hands: &'a TestHands<'a, M>,
    pub queue: &'a FdQueue<TestPair<M>>,
    pub seat: FdSeat<TestPair<M>>,
    pub looks: Looks,
    pub rest: Rest<'a>,
    pub alloc: Global,
    ghost looks_of: { AreOf hands.now.perch.now.places looks },
    ghost seat_of: { IsPassOf queue.now.ring seat },
}

/// Who has a thread.
#[derive(Drop)]
pub enum Player<'a, M: Room> {
    Listens(Listener<'a, M>),
    Works(Worker<'a, M>),
}

/// The player does its part, and is counted where all was as it has to be.
pub fn plays<R: Wait, M: Room>(rt: &R, player: Player<'_, M>) {
    match player {
        Player::Listens(listener) => listens(rt, listener),
        Player::Works(worker) => works(rt, worker),
    }
}

/// A worker serves until its end, and is counted where no carrier came back.
fn works<R: Wait, M: Room>(rt: &R, worker: Worker<'_, M>) {
    let Worker {
        hands,
        queue,
        mut seat,
        mut looks,
        mut rest,
        alloc,
    } = worker;
    let back = Vec::new(alloc);
    let back = worker_loop(rt, hands, &mut looks, queue, &mut seat, &mut rest, back);
    if back.is_empty() {
        hands.bell.ends();
    }
}
