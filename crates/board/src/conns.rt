//! The connections in the slots of a board: one that begins to wait, and one that is taken up.
ghost use Rattle.std.specs.Prelude.{◌≡◌, Some, None};
ghost use Rattle.conn_slots.specs.Slots.{HasItem, with_item};
ghost use Rattle.conn_state.specs.Conn.{SeenConn};
ghost use Rattle.conn_state.specs.Known.{IsOfClient};
ghost use Rattle.board.specs.Board.{conn_at};
ghost use Rattle.board.specs.Layout.{conns_in};

use conn_slots::Slots;
use conn_state::{Conn, Known, Nothing};
use mpm_base::{ConnName, Link};

/// Takes the connection of that name, which stays live, out of its slot.
pub(crate) fn take_out<L: Link, N: Known>(
    conns: &mut Slots<Option<Conn<L, Nothing>>>,
    name: ConnName,
) -> Conn<L, N>
    requires live { HasItem conns.old.slots name }
    requires there { (c : SeenConn) × (conn_at (conns_in conns.old.slots) name.slot ≡ Some c) }
    requires client { (c : SeenConn)
        → conn_at (conns_in conns.old.slots) name.slot ≡ Some c
        → IsOfClient N.known c.told }
    ensures conn { conn_at (conns_in conns.old.slots) name.slot ≡ Some result }
    ensures emptied { conns.new.slots ≡ with_item conns.old.slots name None }
{
    let Some(place) = conns.get_mut(name) else {
        unreachable!()
    };
    match place.take() {
        Some(conn) => conn.known_as(),
        None => unreachable!(),
    }
}

/// Puts the connection into the slot of that name, which is live.
pub(crate) fn put_back<L: Link, N: Known>(
    conns: &mut Slots<Option<Conn<L, Nothing>>>,
    name: ConnName,
    conn: Conn<L, N>,
)
    requires { HasItem conns.old.slots name }
    ensures { conns.new.slots ≡ with_item conns.old.slots name (Some conn) }
{
    let Some(place) = conns.get_mut(name) else {
        unreachable!()
    };
    *place = Some(conn.forget());
}
