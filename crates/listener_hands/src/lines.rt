//! The queues of the children, and the listener's seat at each.
ghost use Rattle.std.specs.Prelude.{◌≡◌, ◌<◌, ◌≤◌, ◌+◌, ℕ, IfOk, Some, length, slice_get, vec_capacity, vec_len};
ghost use Rattle.crossbeam_queue.specs.Passes.{IsPassOf};

use board_lock::Room;
use board_turns::Pair;
use conn_state::Known;
use fd_queue::{FdQueue, FdSeat, Item};
use mpm_base::{Link, NoMemory};
use std::alloc::Global;
use std::sync::Wait;

/// How many connections the queue of a child has room for: one for each worker that a child may have.
const PLACES: u32 = 64;

/// A queue for each child, and a seat at each.
#[derive(Drop)]
pub struct Queues<M: Room, L: Link, N: Known> {
    pub queues: Vec<FdQueue<Pair<M, L, N>>>,
    pub seats: Vec<FdSeat<Pair<M, L, N>>>,
}

/// An empty queue for each of so many children, with one seat.
pub fn make_queues<M: Room, L: Link, N: Known>(
    alloc: Global,
    children: u32,
) -> Result<Queues<M, L, N>, NoMemory>
    requires { children ≤ 32 }
    ensures queues { IfOk result (λ made. vec_len made.queues ≡ children) }
    ensures seats { IfOk result (λ made. vec_len made.seats ≡ children) }
    ensures own { IfOk result
        (λ made. (child : ℕ) (queue : _) (seat : _)
        → slice_get made.queues.items child ≡ Some queue
        → slice_get made.seats.items child ≡ Some seat
        → IsPassOf queue.ring seat) }
{
    let mut queues = Vec::with_capacity(alloc, children as usize)?;
    let mut seats = Vec::with_capacity(alloc, children as usize)?;
    for _ in 0..children {
        let (queue, seat) = make_queue::<M, L, N>(alloc)?;
        add_queue(&mut queues, &mut seats, queue, seat);
    }
    Ok(Queues { queues, seats })
}

/// Puts a queue, and its seat, behind all others.
fn add_queue<M: Room, L: Link, N: Known>(
    queues: &mut Vec<FdQueue<Pair<M, L, N>>>,
    seats: &mut Vec<FdSeat<Pair<M, L, N>>>,
    queue: FdQueue<Pair<M, L, N>>,
    seat: FdSeat<Pair<M, L, N>>,
)
    requires room { vec_len queues.old < vec_capacity queues.old }
    requires seat_room { vec_len seats.old < vec_capacity seats.old }
    requires long { vec_len queues.old ≡ vec_len seats.old }
    requires mine { IsPassOf queue.ring seat }
    requires own { (child : ℕ) (q : _) (s : _)
        → slice_get queues.old.items child ≡ Some q
        → slice_get seats.old.items child ≡ Some s
        → IsPassOf q.ring s }
    ensures queues { vec_len queues.new ≡ vec_len queues.old + 1 }
    ensures seats { vec_len seats.new ≡ vec_len seats.old + 1 }
    ensures room { vec_capacity queues.new ≡ vec_capacity queues.old }
    ensures seat_room { vec_capacity seats.new ≡ vec_capacity seats.old }
    ensures own { (child : ℕ) (q : _) (s : _)
        → slice_get queues.new.items child ≡ Some q
        → slice_get seats.new.items child ≡ Some s
        → IsPassOf q.ring s }
{
    queues.push_reserved(queue);
    seats.push_reserved(seat);
}

/// An empty queue, with one seat.
fn make_queue<M: Room, L: Link, N: Known>(
    alloc: Global,
) -> Result<(FdQueue<Pair<M, L, N>>, FdSeat<Pair<M, L, N>>), NoMemory>
    ensures { IfOk result (λ made. IsPassOf made.0.ring made.1) }
{
    let (queue, mut seats) = FdQueue::<Pair<M, L, N>>::make(alloc, PLACES, 1)?;
    match seats.pop() {
        Some(seat) => Ok((queue, seat)),
        None => Err(NoMemory),
    }
}

/// The line to the workers of a child: its queue, and the listener's seat at it.
#[derive(Drop)]
pub struct Line<'a, M: Room, L: Link, N: Known> {
    queue: &'a FdQueue<Pair<M, L, N>>,
    seat: FdSeat<Pair<M, L, N>>,
    ghost seat_of: { IsPassOf queue.now.ring seat },
}

/// A line over each of the queues.
pub fn make_lines<'a, M: Room, L: Link, N: Known>(
    alloc: Global,
    queues: &'a [FdQueue<Pair<M, L, N>>],
    seats: Vec<FdSeat<Pair<M, L, N>>>,
) -> Result<Vec<Line<'a, M, L, N>>, NoMemory>
    requires seats { vec_len seats ≡ length queues.now }
    requires own { (child : ℕ) (queue : _) (seat : _)
        → slice_get queues.now child ≡ Some queue
        → slice_get seats.items child ≡ Some seat
        → IsPassOf queue.ring seat }
    ensures { IfOk result (λ lines. vec_len lines ≡ length queues.now) }
{
    let mut seats = seats;
    seats.reverse();
    let Ok(mut lines) = Vec::with_capacity(alloc, queues.len()) else {
        return Err(NoMemory);
    };
    for queue in queues {
        let Some(seat) = seats.pop() else {
            unreachable!()
        };
        lines.push_reserved(Line { queue, seat });
    }
    Ok(lines)
}

impl<'a, M: Room, L: Link, N: Known> Line<'a, M, L, N> {
    /// Puts a pair behind all others. It comes back where there is no room for it.
    pub fn push<R: Wait>(&mut self, rt: &R, pair: Pair<M, L, N>) -> Result<(), Pair<M, L, N>> {
        match self.queue.push(rt, &mut self.seat, Item::Work(pair)) {
            Ok(()) => Ok(()),
            Err(Item::Work(pair)) => Err(pair),
            Err(Item::End) => Ok(()),
        }
    }

    /// Takes the first pair, where one stands there.
    pub fn pop<R: Wait>(&mut self, rt: &R) -> Option<Pair<M, L, N>> {
        match self.queue.pop(rt, &mut self.seat) {
            Some(Item::Work(pair)) => Some(pair),
            Some(Item::End) => None,
            None => None,
        }
    }
}
