//! The listener of a test: it takes connections, signals them, and hands them to workers, until all are gone.
ghost use Rattle.std.specs.Prelude.{◌≡◌, true, None, IfSome};
ghost use Rattle.crossbeam_queue.specs.Passes.{IsPassOf};
ghost use Rattle.recycle_perch.specs.Looking.{AreOf};
ghost use Rattle.board_turns.specs.Turns.{IsListener};
ghost use Rattle.turn_tests.specs.Passes.{HasCredit};
ghost use Rattle.turn_tests.specs.Props.{listens_props};

use crate::clients::Client;
use crate::links::TestLink;
use crate::opening::{CHILD, SLOTS, TestBoard};
use crate::players::{TestHands, TestPair};
use crate::steps::{folds, renews, retires, signals, starts, takes_credit_back};
use crate::taking::takes;
use crate::tally::Tally;
use board_lock::{Pass, Room};
use board_turns::pair_up;
use conn_state::Nothing;
use fd_queue::{FdQueue, FdSeat, Item};
use file_table::Site;
use recycle_perch::Looks;
use std::alloc::Global;
use std::sync::{Arc, Wait};
use std::thread;
use worker_threads::{Wakes, serve_one};

/// How a service goes.
#[derive(Clone, Copy)]
pub struct Plan {
    /// How many connections are taken in all, and at once.
    pub connections: u32,
    pub window: u32,
    /// How many workers have threads. Where none has, the listener serves what it pushed.
    pub workers: u32,
    /// How many workers the listener wakes at most, as many as aren't held by their links.
    pub most: u32,
    /// It wakes workers behind a push alone.
    pub wakes_once: bool,
    /// It folds the history where that is due.
    pub folding: bool,
    /// Behind how many connections, all of which are gone then, the server restarts.
    pub restarts_behind: u32,
}

/// What the listener has for its turns.
#[derive(Drop)]
pub struct Front<'a, M: Room> {
    pub hands: &'a TestHands<'a, M>,
    pub pass: Pass<TestBoard>,
    /// How many generations have begun.
    pub begun: u32,
    /// How many workers the child has, where it has their credit.
    pub credit: u32,
    /// The slots for which something may have come.
    pub slots: Vec<u32>,
    pub site: &'a Arc<Site>,
    pub tally: &'a Arc<Tally>,
    pub alloc: Global,
    ghost own: { pass.seat.table_id ≡ M.table },
    ghost listens: { IsListener pass.seat.me } by { Prim.hlevel listens_props },
    ghost credited: { HasCredit credit pass.seat.me.0.credits },
}

/// What the listener has for its workers.
#[derive(Drop)]
pub struct Pusher<'a, M: Room> {
    pub hands: &'a TestHands<'a, M>,
    pub queue: &'a FdQueue<TestPair<M>>,
    pub seat: FdSeat<TestPair<M>>,
    pub looks: Looks,
    pub wakes: &'a Wakes,
    ghost looks_of: { AreOf hands.now.perch.now.places looks },
    ghost seat_of: { IsPassOf queue.now.ring seat },
}

/// The listener, by pass 0, for a board whose first child has begun.
#[derive(Drop)]
pub struct Listener<'a, M: Room> {
    pub front: Front<'a, M>,
    pub pusher: Pusher<'a, M>,
    pub plan: Plan,
    ghost none: { front.pass.seat.me.0.row ≡ None },
}

/// The listener goes round until all connections are gone, and puts the ends of the workers. It is counted where all could be done.
pub fn listens<R: Wait, M: Room>(rt: &R, listener: Listener<'_, M>) {
    let Listener {
        mut front,
        mut pusher,
        plan,
    } = listener;
    if goes_round(rt, &mut front, &mut pusher, plan) && end_all(rt, &mut pusher, plan.workers) {
        front.tally.ends();
    }
}

/// Takes connections, signals them, and hands them to workers, until all are gone: whether all could be done.
fn goes_round<R: Wait, M: Room>(
    rt: &R,
    front: &mut Front<'_, M>,
    pusher: &mut Pusher<'_, M>,
    plan: Plan,
) -> bool
    requires { front.old.pass.seat.me.0.row ≡ None }
{
    let mut taken = 0;
    for _ in rt.forever() {
        let Some(more) = take_more(rt, front, plan, taken) else {
            return false;
        };
        taken = more;
        if front.tally.gone() >= plan.connections as u64 {
            return true;
        }
        signal_slots(rt, front, pusher, plan.folding);
        let pushed = hand_over(rt, pusher);
        wake_workers(rt, pusher, plan, front.tally, pushed);
    }
    unreachable!()
}

/// Takes connections, while there are more and fewer are open than may be: how many were taken in all. None where one couldn't be, or the
/// server couldn't restart.
fn take_more<R: Wait, M: Room>(
    rt: &R,
    front: &mut Front<'_, M>,
    plan: Plan,
    taken: u32,
) -> Option<u32>
    requires { front.old.pass.seat.me.0.row ≡ None }
    ensures { IfSome result (λ _. front.new.pass.seat.me.0.row ≡ None) }
{
    let mut taken = taken;
    for _ in 0..plan.window {
        match next_of(plan, taken, front.begun, front.tally.gone()) {
            Next::Takes => (),
            Next::Restarts => return restarts(rt, front, taken),
            Next::Waits => return Some(taken),
        }
        let client = Client {
            number: taken,
            count: plan.connections,
        };
        if !take_one(rt, front, client)? {
            return Some(taken);
        }
        taken = taken.saturating_add(1);
    }
    Some(taken)
}

/// What the listener does next.
enum Next {
    /// It takes a connection.
    Takes,
    /// It restarts.
    Restarts,
    /// It takes none until one is gone, or none at all.
    Waits,
}

/// What the listener does next, where so many connections were taken in all, so many generations have begun, and so many connections are gone.
fn next_of(plan: Plan, taken: u32, begun: u32, gone: u64) -> Next {
    let open = (taken as u64).saturating_sub(gone);
    if taken >= plan.connections || open >= plan.window as u64 {
        return Next::Waits;
    }
    if taken / plan.restarts_behind.max(1) < begun {
        return Next::Takes;
    }
    if open == 0 {
        Next::Restarts
    } else {
        Next::Waits
    }
}

/// Takes the connection of the client: whether it was taken. None where it couldn't wait.
fn take_one<R: Wait, M: Room>(rt: &R, front: &mut Front<'_, M>, client: Client) -> Option<bool>
    requires { front.old.pass.seat.me.0.row ≡ None }
    ensures { IfSome result (λ _. front.new.pass.seat.me.0.row ≡ None) }
{
    takes(
        rt,
        front.alloc,
        front.hands.shared,
        &mut front.pass,
        front.site,
        front.tally,
        client,
    )
}

/// Once nobody has a permit of the child a new generation begins, for which the child is let go of and starts again: how many connections
/// were taken before. None where one of these couldn't be done.
fn restarts<R: Wait, M: Room>(rt: &R, front: &mut Front<'_, M>, taken: u32) -> Option<u32>
    ensures { front.new.pass.seat.me.0.row ≡ front.old.pass.seat.me.0.row }
{
    if !is_free(front) {
        return Some(taken);
    }
    if renews(rt, front.alloc, front.hands.shared, &mut front.pass)
        && retires(rt, front.hands.shared, &mut front.pass)
        && begins(rt, front)
    {
        return Some(taken);
    }
    None
}

/// Whether nobody has a permit of the child: then its credit is taken back.
fn is_free<M: Room>(front: &mut Front<'_, M>) -> bool
    ensures row { front.new.pass.seat.me.0.row ≡ front.old.pass.seat.me.0.row }
    ensures credit { result ≡ true → front.new.credit ≡ 0 }
{
    if !takes_credit_back(front.hands.shared, &mut front.pass, front.credit) {
        return false;
    }
    front.credit = 0;
    true
}

/// The child starts, and gets the credit of its workers: whether it did.
fn begins<R: Wait, M: Room>(rt: &R, front: &mut Front<'_, M>) -> bool
    requires { front.old.credit ≡ 0 }
    ensures { front.new.pass.seat.me.0.row ≡ front.old.pass.seat.me.0.row }
{
    let Some(credit) = starts(rt, front.hands.shared, &mut front.pass) else {
        return false;
    };
    front.credit = credit;
    front.begun = front.begun.saturating_add(1);
    true
}

/// Signals each slot for which something may have come, where nothing waits for the workers any more, and folds the history where that is due,
/// if it folds at all.
fn signal_slots<R: Wait, M: Room>(
    rt: &R,
    front: &mut Front<'_, M>,
    pusher: &mut Pusher<'_, M>,
    folding: bool,
)
    ensures { front.new.pass.seat.me.0.row ≡ front.old.pass.seat.me.0.row }
{
    if pusher.queue.len(rt, &mut pusher.seat) == 0 {
        front.tally.collect(&mut front.slots);
        signals(
            rt,
            front.hands.shared,
            &mut front.pass,
            front.slots.as_slice(),
        );
    }
    let turn = front.tally.begins();
    folds(rt, front.hands.shared, &mut front.pass, folding);
    front.tally.made(turn);
}

/// Hands what is signalled to the workers, while they have permits: how many connections.
fn hand_over<R: Wait, M: Room>(rt: &R, pusher: &mut Pusher<'_, M>) -> u32 {
    for count in 0..SLOTS {
        if !hand_one(rt, pusher) {
            return count;
        }
    }
    SLOTS
}

/// Hands one connection to the workers, where one is signalled and a worker is free: whether it did.
fn hand_one<R: Wait, M: Room>(rt: &R, pusher: &mut Pusher<'_, M>) -> bool {
    let Some(carrier) = pusher.hands.perch.take(&mut pusher.looks) else {
        return false;
    };
    match pair_up::<R, M, TestLink, Nothing>(rt, pusher.hands.shared, carrier, CHILD) {
        Ok(pair) => {
            let pushed = pusher.queue.push(rt, &mut pusher.seat, Item::Work(pair));
            pushed.is_ok()
        }
        Err((_, carrier)) => {
            let _ = pusher.hands.perch.give(&mut pusher.looks, carrier);
            false
        }
    }
}

/// Wakes workers, or serves what was pushed where there are none.
fn wake_workers<R: Wait, M: Room>(
    rt: &R,
    pusher: &mut Pusher<'_, M>,
    plan: Plan,
    tally: &Tally,
    pushed: u32,
) {
    if plan.workers == 0 {
        tally.pushes(pushed, 0);
        return serve_here(rt, pusher);
    }
    if pushed != 0 || !plan.wakes_once {
        let waiting = pusher.queue.len(rt, &mut pusher.seat).min(64) as u32;
        let woken = pusher.wakes.wake_for(waiting, plan.most, pushed != 0);
        tally.pushes(pushed, woken);
    }
    thread::yield_now();
}

/// Serves what stands in the queue.
fn serve_here<R: Wait, M: Room>(rt: &R, pusher: &mut Pusher<'_, M>) {
    for _ in 0..SLOTS {
        let Some(Item::Work(pair)) = pusher.queue.pop(rt, &mut pusher.seat) else {
            return;
        };
        if serve_one(rt, pusher.hands, &mut pusher.looks, pair).is_some() {
            return;
        }
    }
}

/// Puts an End item for each worker, and wakes all: whether there was room for all.
fn end_all<R: Wait, M: Room>(rt: &R, pusher: &mut Pusher<'_, M>, workers: u32) -> bool {
    let ends = pusher.queue.end_items(rt, &mut pusher.seat, workers);
    pusher.wakes.wake_all();
    ends == workers
}
