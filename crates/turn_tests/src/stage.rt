//! What all threads stand on: the carriers rest on a perch, the queue has its seats, and each thread gets what it needs.
ghost use Rattle.std.specs.Prelude.{◌≡◌, ℕ, Some, None, IfSome, slice_get};
ghost use Rattle.crossbeam_queue.specs.Passes.{IsPassOf};
ghost use Rattle.recycle_perch.specs.Looking.{AllAreOf};
ghost use Rattle.turn_tests.specs.Passes.{IsFresh};

use crate::carriers::{Zero, count_spare, next_looks, settle};
use crate::listener::{Front, Listener, Plan, Pusher};
use crate::opening::{CARRIERS, TestBoard};
use crate::players::{Player, TestHands, TestPair, Worker, plays};
use crate::steps::starts;
use crate::tally::Tally;
use board_lock::{Pass, Room, Shared};
use crossbeam_utils::sync::Parker;
use fd_queue::{FdQueue, FdSeat};
use file_table::Site;
use mpm_base::NoMemory;
use recycle_perch::{Looks, Perch};
use std::alloc::Global;
use std::marker::PhantomData;
use std::sync::{Arc, Wait};
use std::thread::{self, Threads};
use worker_threads::{Hands, Rest, Wakes};

/// How the players ended.
#[derive(Clone, Copy)]
pub struct Played {
    /// How many items stand in the queue then.
    pub left: usize,
    /// How many carriers rest then.
    pub carriers: u32,
}

/// The last of the seats.
fn next_seat<M: Room>(
    queue: &FdQueue<TestPair<M>>,
    all: &mut Vec<FdSeat<TestPair<M>>>,
) -> Option<FdSeat<TestPair<M>>>
    requires { (i : ℕ) (seat : _) → slice_get all.old.items i ≡ Some seat → IsPassOf queue.now.ring seat }
    ensures all { (i : ℕ) (seat : _) → slice_get all.new.items i ≡ Some seat → IsPassOf queue.now.ring seat }
    ensures last { IfSome result (λ seat. IsPassOf queue.now.ring seat) }
{
    all.pop()
}

/// The carriers rest on the perch, and the players play. None where one lacks what it needs.
pub fn play_named<M: Room + Send + Sync, R: Threads + Wait + Sync>(
    rt: &R,
    alloc: Global,
    shared: &Shared<TestBoard>,
    passes: &mut Vec<Pass<TestBoard>>,
    site: &Arc<Site>,
    tally: &Arc<Tally>,
    plan: Plan,
) -> Result<Option<Played>, NoMemory>
    requires lock { shared.now.table.shared.table_id ≡ M.table }
    requires own { (p : ℕ) (pass : _)
        → slice_get passes.old.items p ≡ Some pass
        → pass.seat.table_id ≡ shared.now.table.shared.table_id }
    requires fresh { (p : ℕ) (pass : _)
        → slice_get passes.old.items p ≡ Some pass
        → IsFresh pass.seat.me }
{
    let mut perch = Perch::make(alloc, shared, CARRIERS)?;
    let mut looks = perch.looks(alloc, plan.workers.min(63) + 2)?;
    let Some((zero, mut mine)) = settle::<M>(alloc, shared, passes, &mut perch, &mut looks)? else {
        return Ok(None);
    };
    let hands: TestHands<'_, M> = Hands {
        shared,
        perch: &perch,
        bell: &**tally,
        gate: &**tally,
        of: PhantomData,
    };
    let Some(left) = begin_all(rt, alloc, &hands, zero, &mut looks, site, tally, plan)? else {
        return Ok(None);
    };
    Ok(Some(Played {
        left,
        carriers: count_spare(&perch, &mut mine),
    }))
}

/// The child starts, and a listener and its workers play: how many items stand in the queue then. None where one lacks what it needs.
fn begin_all<M: Room + Send + Sync, R: Threads + Wait + Sync>(
    rt: &R,
    alloc: Global,
    hands: &TestHands<'_, M>,
    zero: Zero<M>,
    looks: &mut Vec<Looks>,
    site: &Arc<Site>,
    tally: &Arc<Tally>,
    plan: Plan,
) -> Result<Option<usize>, NoMemory>
    requires { AllAreOf hands.now.perch.now.places looks.old.items }
{
    let Zero { mut pass, of: _ } = zero;
    let Some(credit) = starts(rt, hands.shared, &mut pass) else {
        return Ok(None);
    };
    let front = Front {
        hands,
        pass,
        begun: 1,
        credit,
        slots: Vec::new(alloc),
        site,
        tally,
        alloc,
    };
    play_all(rt, front, looks, plan)
}

/// A listener and its workers play, over a queue: how many items stand in it then.
fn play_all<M: Room + Send + Sync, R: Threads + Wait + Sync>(
    rt: &R,
    front: Front<'_, M>,
    looks: &mut Vec<Looks>,
    plan: Plan,
) -> Result<Option<usize>, NoMemory>
    requires row { front.pass.seat.me.0.row ≡ None }
    requires looks { AllAreOf front.hands.now.perch.now.places looks.old.items }
{
    let count = plan.workers.min(63);
    let (queue, mut seats) = FdQueue::<TestPair<M>>::make(front.alloc, 64, count + 2)?;
    if !play_over(rt, front, looks, &queue, &mut seats, plan)? {
        return Ok(None);
    }
    match next_seat(&queue, &mut seats) {
        Some(mut seat) => Ok(Some(queue.len(rt, &mut seat))),
        None => Ok(None),
    }
}

/// They play over this queue: whether none lacked what it needs.
fn play_over<M: Room + Send + Sync, R: Threads + Wait + Sync>(
    rt: &R,
    front: Front<'_, M>,
    looks: &mut Vec<Looks>,
    queue: &FdQueue<TestPair<M>>,
    seats: &mut Vec<FdSeat<TestPair<M>>>,
    plan: Plan,
) -> Result<bool, NoMemory>
    requires row { front.pass.seat.me.0.row ≡ None }
    requires looks { AllAreOf front.hands.now.perch.now.places looks.old.items }
    requires seats { (i : ℕ) (seat : _) → slice_get seats.old.items i ≡ Some seat → IsPassOf queue.now.ring seat }
    ensures seats { (i : ℕ) (seat : _) → slice_get seats.new.items i ≡ Some seat → IsPassOf queue.now.ring seat }
{
    let alloc = front.alloc;
    let hands = front.hands;
    let (wakes, parkers) = Wakes::make(alloc, plan.workers.min(63))?;
    let players = workers(alloc, hands, queue, seats, looks, &wakes, parkers)?;
    let Some(pusher) = pusher_of(hands, queue, seats, looks, &wakes) else {
        return Ok(false);
    };
    let listener = Listener {
        front,
        pusher,
        plan,
    };
    play_with(rt, players, listener)?;
    Ok(true)
}

/// What the listener has for its workers.
fn pusher_of<'a, M: Room>(
    hands: &'a TestHands<'a, M>,
    queue: &'a FdQueue<TestPair<M>>,
    seats: &mut Vec<FdSeat<TestPair<M>>>,
    looks: &mut Vec<Looks>,
    wakes: &'a Wakes,
) -> Option<Pusher<'a, M>>
    requires looks { AllAreOf hands.now.perch.now.places looks.old.items }
    requires seats { (i : ℕ) (seat : _) → slice_get seats.old.items i ≡ Some seat → IsPassOf queue.now.ring seat }
    ensures seats { (i : ℕ) (seat : _) → slice_get seats.new.items i ≡ Some seat → IsPassOf queue.now.ring seat }
{
    let seat = next_seat(queue, seats)?;
    let looks = next_looks(hands.perch, looks)?;
    Some(Pusher {
        hands,
        queue,
        seat,
        looks,
        wakes,
    })
}

/// The listener and the workers have a thread each.
fn play_with<'a, M: Room + Send + Sync, R: Threads + Wait + Sync>(
    rt: &R,
    workers: Vec<Player<'a, M>>,
    listener: Listener<'a, M>,
) -> Result<(), NoMemory> {
    let mut players = workers;
    match players.push(Player::Listens(listener)) {
        Ok(()) => play_on_threads(rt, players),
        Err(failed) => Err(NoMemory::from(failed)),
    }
}

/// The workers, each with its seat, its looks and what it rests with.
fn workers<'a, M: Room>(
    alloc: Global,
    hands: &'a TestHands<'a, M>,
    queue: &'a FdQueue<TestPair<M>>,
    seats: &mut Vec<FdSeat<TestPair<M>>>,
    looks: &mut Vec<Looks>,
    wakes: &'a Wakes,
    mut parkers: Vec<Parker>,
) -> Result<Vec<Player<'a, M>>, NoMemory>
    requires looks { AllAreOf hands.now.perch.now.places looks.old.items }
    requires seats { (i : ℕ) (seat : _) → slice_get seats.old.items i ≡ Some seat → IsPassOf queue.now.ring seat }
    ensures looks { AllAreOf hands.now.perch.now.places looks.new.items }
    ensures seats { (i : ℕ) (seat : _) → slice_get seats.new.items i ≡ Some seat → IsPassOf queue.now.ring seat }
{
    let mut players = Vec::new(alloc);
    for _ in 0..parkers.len() {
        let Some(parker) = parkers.pop() else {
            return Ok(players);
        };
        let rest = Rest::make(wakes, parker, (parkers.len() % 64) as u32);
        let Some(worker) = worker_of(alloc, hands, queue, seats, looks, rest) else {
            return Ok(players);
        };
        if let Err(failed) = players.push(Player::Works(worker)) {
            return Err(NoMemory::from(failed));
        }
    }
    Ok(players)
}

/// A worker, with the last of the seats and of the looks.
fn worker_of<'a, M: Room>(
    alloc: Global,
    hands: &'a TestHands<'a, M>,
    queue: &'a FdQueue<TestPair<M>>,
    seats: &mut Vec<FdSeat<TestPair<M>>>,
    looks: &mut Vec<Looks>,
    rest: Rest<'a>,
) -> Option<Worker<'a, M>>
    requires looks { AllAreOf hands.now.perch.now.places looks.old.items }
    requires seats { (i : ℕ) (seat : _) → slice_get seats.old.items i ≡ Some seat → IsPassOf queue.now.ring seat }
    ensures looks { AllAreOf hands.now.perch.now.places looks.new.items }
    ensures seats { (i : ℕ) (seat : _) → slice_get seats.new.items i ≡ Some seat → IsPassOf queue.now.ring seat }
{
    let seat = next_seat(queue, seats)?;
    let looks = next_looks(hands.perch, looks)?;
    Some(Worker {
        hands,
        queue,
        seat,
        looks,
        rest,
        alloc,
    })
}

/// Each player has a thread.
fn play_on_threads<M: Room + Send + Sync, R: Threads + Wait + Sync>(
    rt: &R,
    players: Vec<Player<'_, M>>,
) -> Result<(), NoMemory> {
    // What a closure over these types gives isn't found from its body, so it is said.
    let part = |player: Player<'_, M>|
        ensures { result ≡ tt }
    { plays(rt, player) };
    match thread::map_vec(rt, players, &part) {
        Ok(_) => Ok(()),
        Err(_) => Err(NoMemory),
    }
}
