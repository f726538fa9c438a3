//! The board comes out of its lock.
ghost use Rattle.std.specs.Prelude.{◌≡◌};
ghost use Rattle.board_book.specs.ClosedDown.{HasNoLive};
ghost use Rattle.board_turns.specs.Books.{state_of};
ghost use Rattle.board_turns.specs.Turns.{IsListener};
ghost use Rattle.listener_parts.specs.Rounds.{OpenedWithNone};
ghost use Rattle.listener_turns.specs.Folds.{HasDropped};
ghost use Rattle.listener_hands.specs.Closed.{ClosesAs};

use board::Board;
use board_lock::{Pass, Shared};
use board_turns::turns_rest_on_these;
use conn_machine::laws_between_turns::quiet_tables_are_the_listeners;
use conn_state::Known;
use mpm_base::Link;
use std::sync::Wait;

/// The board, once no connection is live: nobody else adds an entry then, so it is what the listener has seen last.
pub fn close<R: Wait, L: Link, N: Known>(
    rt: &R,
    shared: &Shared<Board<L, N>>,
    pass: Pass<Board<L, N>>,
) -> Board<L, N>
    requires own { pass.seat.table_id ≡ shared.now.table.shared.table_id }
    requires listener { IsListener pass.seat.me }
    requires opened { OpenedWithNone pass.seat.me.0 }
    requires none { HasNoLive (state_of pass.seat.me.0) }
    requires dropped { HasDropped N.known pass.seat.me.0 }
    ensures { ClosesAs N.known pass.seat.me.0 result }
{
    turns_rest_on_these();
    quiet_tables_are_the_listeners();
    let board = shared.close(rt, pass);
    board.show();
    board
}
