//! What a worker has at hand besides its connection.
ghost use Rattle.std.specs.Prelude.{◌≡◌};

use board::Board;
use board_lock::{Room, Shared};
use conn_state::Known;
use mpm_base::{Bell, Gate, Link};
use recycle_perch::Perch;
use std::marker::PhantomData;

/// The board under the lock that `M` names, the perch on which its carriers rest, and what each service passes and rings. No clause speaks
/// of bell and gate.
#[derive(Drop)]
pub struct Hands<'a, M: Room, L: Link, N: Known, B: Bell, G: Gate> {
    pub shared: &'a Shared<Board<L, N>>,
    pub perch: &'a Perch<'a, Board<L, N>>,
    /// It is rung behind each exit, so that the listener comes round.
    pub bell: &'a B,
    /// It is passed when a connection has its worker.
    pub gate: &'a G,
    pub of: PhantomData<M>,
    ghost lock: { shared.now.table.shared.table_id ≡ M.table },
    ghost perched: { perch.now.shared.now.table.shared.table_id ≡ M.table },
}
