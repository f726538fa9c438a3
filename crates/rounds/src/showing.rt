//! What the table shows of itself. Nothing here changes it.
ghost use Rattle.std.specs.Prelude.{◌≡◌, ◌<◌};
ghost use Rattle.board_book.specs.ClosedDown.{HasNoLive};
ghost use Rattle.rounds.specs.TableInside.{NoneParked};
ghost use Rattle.rounds.specs.PartsInside.{NoneHas};
ghost use Rattle.conn_machine.specs.Runs.{after};
ghost use Rattle.conn_machine.specs.Sound.{IsSound};

use board::Board;
use conn_machine::laws::each_pass_has_its_own_connection;
use conn_state::Known;
use mpm_base::Link;

/// Shows that no connection is live where no pass has one and none waits. Does nothing.
pub fn show_none_live<L: Link, N: Known>(board: &Board<L, N>)
    ensures { NoneHas board.now.book
        → NoneParked board.now.book.state
        → HasNoLive board.now.book.state }
{
    each_pass_has_its_own_connection();
    board.show();
}

/// Shows that the state is that after the history, and sound. Does nothing.
pub fn show_state<L: Link, N: Known>(board: &Board<L, N>)
    ensures after { after board.now.book.base board.now.book.history ≡ board.now.book.state }
    ensures sound { IsSound board.now.book.state }
{
    board.show();
}
