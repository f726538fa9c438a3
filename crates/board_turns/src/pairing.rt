//! A carrier that has nothing takes up a connection for a worker.
//! Why it is so stands in docs/DECISIONS.md: 106, A carrier travels with its connection.
ghost use Rattle.std.specs.Prelude.{◌≡◌, ◌<◌, IfErr, IfOk};
ghost use Rattle.recycle_perch.specs.Resting.{IsFreeCarrier};
ghost use Rattle.board_turns.specs.Pairing.{TookUp, WhyNotPaired};

use crate::pair::Pair;
use crate::worker_turns::queue;
use board::{Board, BoardFault};
use board_lock::{Carrier, Room, Shared};
use conn_state::Known;
use idle_workers::{release, reserve};
use mpm_base::Link;
use std::sync::Wait;

/// Why a carrier took up no connection.
#[derive(Clone, Copy, Debug, PartialEq, Eq)]
pub enum NotPaired {
    /// No worker of the child was free.
    NoPermit,
    /// For none of the child's connections that wait for service something may have come, or some connection is late, which is to be let go
    /// of first.
    NoneDue,
    /// The board refused it.
    Refused(BoardFault),
}

/// The carrier, which has nothing, takes up a connection of the child for which something may have come, to be put into the queue of the
/// child's workers. It comes back where there is none, and has nothing then.
pub fn pair_up<R: Wait, M: Room, L: Link, N: Known>(
    rt: &R,
    shared: &Shared<Board<L, N>>,
    carrier: Carrier<Board<L, N>>,
    child: u32,
) -> Result<Pair<M, L, N>, (NotPaired, Carrier<Board<L, N>>)>
    requires lock { shared.now.table.shared.table_id ≡ M.table }
    requires own { carrier.seat.table_id ≡ shared.now.table.shared.table_id }
    requires free { IsFreeCarrier carrier.seat.me }
    requires child { child < 32 }
    ensures paired { IfOk result (TookUp child carrier.seat.me.0) }
    ensures why { IfErr result
        (λ e. WhyNotPaired e.0 child carrier.seat.me.0 e.1.seat.me.0) }
    ensures own { IfErr result (λ e. e.1.seat.table_id ≡ carrier.seat.table_id) }
    ensures free { IfErr result (λ e. IsFreeCarrier e.1.seat.me) }
    ensures number { IfErr result
        (λ e. e.1.seat.me.0.who.number ≡ carrier.seat.me.0.who.number) }
{
    let mut carrier = carrier;
    if !reserve(shared, &mut carrier, child) {
        return Err((NotPaired::NoPermit, carrier));
    }
    match queue(rt, shared, &mut carrier, child) {
        Ok(Some(conn)) => Ok(Pair::make(carrier, conn)),
        Ok(None) => {
            release(shared, &mut carrier, child);
            Err((NotPaired::NoneDue, carrier))
        }
        Err(fault) => {
            release(shared, &mut carrier, child);
            Err((NotPaired::Refused(fault), carrier))
        }
    }
}
