//! A carrier and the connection that it carries to a worker.
ghost use Rattle.std.specs.Prelude.{◌≡◌, []};
ghost use Rattle.board_turns.specs.Carries.{IsCarried};

use board::Board;
use board_lock::{Carrier, Room};
use conn_state::{Conn, Known};
use mpm_base::Link;
use std::marker::{Model, PhantomData};

/// A carrier of the lock that `M` names, without a turn, and the connection that it carries to a worker of its child: a permit of that
/// child, the connection's row, which is on its way to a worker, the connection as it was handed out, of the edition of its generation.
#[derive(Drop)]
pub struct Pair<M: Room, L: Link, N: Known> {
    carrier: Carrier<Board<L, N>>,
    conn: Conn<L, N>,
    of: PhantomData<M>,
}

impl<M: Room, L: Link, N: Known> Model for Pair<M, L, N> {
    ghost use Rattle.std.specs.Prelude.{◌≡◌, []};
    ghost use Rattle.board_turns.specs.Carries.{IsCarried, SeenPair};

    ghost Value = { SeenPair };

    ghost view = { λ p. record { view = p.carrier.seat.me.0; conn = p.conn } };

    ghost invariant = { λ p. (p.carrier.seat.table_id ≡ M.table) × (p.carrier.seat.me.1 ≡ [])
        × IsCarried N.known p.carrier.seat.me.0 p.conn };
}

impl<M: Room, L: Link, N: Known> Pair<M, L, N> {
    /// The pair of a carrier and the connection that it carries.
    pub fn make(carrier: Carrier<Board<L, N>>, conn: Conn<L, N>) -> Pair<M, L, N>
        requires lock { carrier.seat.table_id ≡ M.table }
        requires hand { carrier.seat.me.1 ≡ [] }
        requires carried { IsCarried N.known carrier.seat.me.0 conn }
        ensures view { result.view ≡ carrier.seat.me.0 }
        ensures conn { result.conn ≡ conn }
    {
        Pair {
            carrier,
            conn,
            of: PhantomData,
        }
    }

    /// The carrier, and the connection that it carries.
    pub fn parts(self) -> (Carrier<Board<L, N>>, Conn<L, N>)
        ensures lock { result.0.seat.table_id ≡ M.table }
        ensures hand { result.0.seat.me.1 ≡ [] }
        ensures carried { IsCarried N.known result.0.seat.me.0 result.1 }
        ensures view { result.0.seat.me.0 ≡ self.view }
        ensures conn { result.1 ≡ self.conn }
    {
        let Pair {
            carrier,
            conn,
            of: _,
        } = self;
        (carrier, conn)
    }
}
