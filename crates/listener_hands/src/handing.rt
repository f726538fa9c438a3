//! What is signalled is handed to the workers.
ghost use Rattle.std.specs.Prelude.{◌≡◌, ◌<◌, ◌≤◌, IfErr, IfOk, IfSome, vec_len};
ghost use Rattle.recycle_perch.specs.Looking.{AreOf};
ghost use Rattle.recycle_perch.specs.Resting.{IsFreeCarrier};

use crate::lines::Line;
use board::Board;
use board_lock::{Carrier, Room};
use board_turns::pair_up;
use conn_state::Known;
use listener_parts::Credits;
use mpm_base::{Bell, Gate, Link};
use recycle_perch::Looks;
use std::sync::Wait;
use worker_threads::{Hands, serve_one};

/// Hands each connection for which something came to the workers of its child, while that has a credit and a worker is free: one carrier and
/// one turn each. What there is no room for in its queue is served at once. A carrier that couldn't be used for one child is for the next.
pub fn hand_over<R: Wait, M: Room, L: Link, N: Known, B: Bell, G: Gate>(
    rt: &R,
    hands: &Hands<'_, M, L, N, B, G>,
    looks: &mut Looks,
    lines: &mut Vec<Line<'_, M, L, N>>,
    credits: &Credits,
)
    requires looks { AreOf hands.now.perch.now.places looks.old }
    requires lines { vec_len lines.old ≤ 32 }
    ensures looks { AreOf hands.now.perch.now.places looks.new }
    ensures lines { vec_len lines.new ≡ vec_len lines.old }
{
    let mut spare = None;
    for child in 0..lines.len() {
        if credits.of(child as u32) != 0 {
            spare = hand_child(rt, hands, looks, &mut lines[child], child as u32, spare);
        }
    }
    if let Some(carrier) = spare {
        let _ = hands.perch.give(looks, carrier);
    }
}

/// Hands what is signalled of one child to its workers, beginning with that carrier, where there is one: the carrier that couldn't be used.
fn hand_child<R: Wait, M: Room, L: Link, N: Known, B: Bell, G: Gate>(
    rt: &R,
    hands: &Hands<'_, M, L, N, B, G>,
    looks: &mut Looks,
    line: &mut Line<'_, M, L, N>,
    child: u32,
    spare: Option<Carrier<Board<L, N>>>,
) -> Option<Carrier<Board<L, N>>>
    requires looks { AreOf hands.now.perch.now.places looks.old }
    requires child { child < 32 }
    requires own { IfSome spare (λ c. c.seat.table_id ≡ M.table) }
    requires free { IfSome spare (λ c. IsFreeCarrier c.seat.me) }
    ensures looks { AreOf hands.now.perch.now.places looks.new }
    ensures own { IfSome result (λ c. c.seat.table_id ≡ M.table) }
    ensures free { IfSome result (λ c. IsFreeCarrier c.seat.me) }
{
    let mut next = next_carrier(hands, looks, spare);
    for _ in rt.forever() {
        let Some(carrier) = next else {
            return None;
        };
        match hand_one(rt, hands, looks, line, child, carrier) {
            Ok(back) => next = next_carrier(hands, looks, back),
            Err(carrier) => return Some(carrier),
        }
    }
    unreachable!()
}

/// The carrier, or else one that rests.
fn next_carrier<M: Room, L: Link, N: Known, B: Bell, G: Gate>(
    hands: &Hands<'_, M, L, N, B, G>,
    looks: &mut Looks,
    spare: Option<Carrier<Board<L, N>>>,
) -> Option<Carrier<Board<L, N>>>
    requires looks { AreOf hands.now.perch.now.places looks.old }
    requires own { IfSome spare (λ c. c.seat.table_id ≡ M.table) }
    requires free { IfSome spare (λ c. IsFreeCarrier c.seat.me) }
    ensures looks { AreOf hands.now.perch.now.places looks.new }
    ensures own { IfSome result (λ c. c.seat.table_id ≡ M.table) }
    ensures free { IfSome result (λ c. IsFreeCarrier c.seat.me) }
{
    match spare {
        Some(carrier) => Some(carrier),
        None => hands.perch.take(looks),
    }
}

/// Hands one connection of the child over with the carrier, or serves it where the queue has no room: a carrier that came back behind that. An
/// Err with the carrier where it could take up none.
fn hand_one<R: Wait, M: Room, L: Link, N: Known, B: Bell, G: Gate>(
    rt: &R,
    hands: &Hands<'_, M, L, N, B, G>,
    looks: &mut Looks,
    line: &mut Line<'_, M, L, N>,
    child: u32,
    carrier: Carrier<Board<L, N>>,
) -> Result<Option<Carrier<Board<L, N>>>, Carrier<Board<L, N>>>
    requires looks { AreOf hands.now.perch.now.places looks.old }
    requires child { child < 32 }
    requires own { carrier.seat.table_id ≡ M.table }
    requires free { IsFreeCarrier carrier.seat.me }
    ensures looks { AreOf hands.now.perch.now.places looks.new }
    ensures some_own { IfOk result (λ o. IfSome o (λ c. c.seat.table_id ≡ M.table)) }
    ensures some_free { IfOk result (λ o. IfSome o (λ c. IsFreeCarrier c.seat.me)) }
    ensures own { IfErr result (λ c. c.seat.table_id ≡ M.table) }
    ensures free { IfErr result (λ c. IsFreeCarrier c.seat.me) }
{
    match pair_up::<R, M, L, N>(rt, hands.shared, carrier, child) {
        Ok(pair) => match line.push(rt, pair) {
            Ok(()) => Ok(None),
            Err(pair) => Ok(serve_one(rt, hands, looks, pair)),
        },
        Err((_, carrier)) => Err(carrier),
    }
}
