//! When a connection may be ended.
ghost use Rattle.std.specs.Prelude.{◌≡◌, true};
ghost use Rattle.conn_state.specs.Answered.{IsShown, MayLinger, ShowsAtOnce, ShowsLingering};

use crate::turn_answers::{is_half_closed, is_usable};
use conn_state::{Conn, LastLinger, LastTurn, Nothing};
use mpm_base::{Cause, Link, Tail};

/// Whether the connection may be ended for the cause, its link left so. These were the answers of its last turns.
pub fn may_end<L: Link>(
    conn: &Conn<L, Nothing>,
    turn: LastTurn,
    linger: LastLinger,
    cause: Cause,
    tail: Tail,
) -> bool
    requires turn { conn.now.turn ≡ turn }
    requires linger { conn.now.linger ≡ linger }
    ensures { result ≡ true → IsShown cause tail conn.now }
{
    match tail {
        Tail::Direct => !is_half_closed(linger) && shows_at_once(conn, turn, linger, cause),
        Tail::Drained => matches!(linger, LastLinger::Drained) && may_linger(conn, turn, cause),
        Tail::Sated => matches!(linger, LastLinger::Sated) && may_linger(conn, turn, cause),
        Tail::Late => is_half_closed(linger) && may_linger(conn, turn, cause),
        Tail::Failed => matches!(linger, LastLinger::LinkFailed) && may_linger(conn, turn, cause),
        Tail::Halted => is_half_closed(linger) && may_linger(conn, turn, cause),
        Tail::NoMemory => is_half_closed(linger) && may_linger(conn, turn, cause),
    }
}

/// Whether the connection shows a cause with which it is closed without lingering.
fn shows_at_once<L: Link>(
    conn: &Conn<L, Nothing>,
    turn: LastTurn,
    linger: LastLinger,
    cause: Cause,
) -> bool
    requires turn { conn.now.turn ≡ turn }
    requires linger { conn.now.linger ≡ linger }
    ensures { result ≡ true → ShowsAtOnce cause conn.now }
{
    conn.show();
    match cause {
        Cause::ClientDone => matches!(turn, LastTurn::Gone),
        Cause::LinkFailed => {
            matches!(turn, LastTurn::LinkFailed) || matches!(linger, LastLinger::ShutFailed)
        }
        Cause::Stopped => true,
        Cause::NoMemory => true,
        _ => false,
    }
}

/// Whether nothing failed before the connection began to linger, and it shows the cause.
fn may_linger<L: Link>(conn: &Conn<L, Nothing>, turn: LastTurn, cause: Cause) -> bool
    requires turn { conn.now.turn ≡ turn }
    ensures { result ≡ true → MayLinger cause conn.now }
{
    is_usable(turn) && shows_lingering(conn, turn, cause)
}

/// Whether the connection shows a cause with which it lingers.
fn shows_lingering<L: Link>(conn: &Conn<L, Nothing>, turn: LastTurn, cause: Cause) -> bool
    requires turn { conn.now.turn ≡ turn }
    ensures { result ≡ true → ShowsLingering cause conn.now }
{
    match cause {
        Cause::LastSent => !conn.pending() && conn.last(),
        Cause::KeepAliveLate => !conn.pending() && conn.rest_empty(),
        Cause::ReadLate => matches!(turn, LastTurn::New | LastTurn::More),
        Cause::WriteLate => true,
        Cause::Retiring => !conn.pending() && conn.rest_empty(),
        _ => false,
    }
}
