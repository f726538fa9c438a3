//! How the server goes down behind the listener's turns: it stops for what ended them, each connection that waits is closed, and each
//! child is let go of.
ghost use Rattle.std.specs.Prelude.{◌≡◌, ◌<◌, [], ◌∷◌, None, Some, true, false};
ghost use Rattle.conn_machine.specs.Rows.{lives_and};
ghost use Rattle.conn_machine.specs.States.{is_halted, is_at_its_end};
ghost use Rattle.conn_machine.specs.declared.event.Event.TheVariants as event;
ghost use Rattle.board_book.specs.Finds.{is_waiting};
ghost use Rattle.board_book.specs.Book.{row_in};
ghost use Rattle.worker_group.specs.Acts.{Acts};
ghost use Rattle.worker_group.specs.Service.{IsUp, LeavesRest, RefusalLasts};
ghost use Rattle.rounds.specs.ClosingInside.{IsHaltedWay, LetsGo, LetsOneGo, parked_count};
ghost use Rattle.board_book.specs.ClosedDown.{HasNoLive, IsBrokenOff};
ghost use Rattle.rounds.specs.EndsInside as inside;
ghost use Rattle.rounds.specs.EndsInside.{MustHalt, HaltsAs};
ghost use Rattle.rounds.specs.TableInside.{NoneParked};
ghost use Rattle.rounds.specs.PartsInside.{GoesDown, NoneHas, halt_events};
ghost use Rattle.mpm_base.specs.declared.conn.Tail.TheVariants.{Direct};
ghost use Rattle.conn_machine.specs.declared.event.Commanded.TheVariants.{Stop};
ghost use Rattle.conn_machine.specs.declared.event.Why.TheVariants as why;

use crate::ends::{End, LISTENER};
use crate::round::retire_all;
use crate::showing::{show_none_live, show_state};
use board::{Board, BoardFault};
use conn_machine::Why;
use conn_machine::laws_of_runs::rows_change_one_at_a_time;
use conn_state::Known;
use mpm_base::{Cause, ConnName, Link, Tail};
use worker_group::close;
use worker_group::laws::{connections_in_hand_may_be_closed, passes_act_in_steps};

/// Stops the server for what ended the listener's turns, closes each connection that waits, and lets go of each child. Behind a graceful stop
/// that is at its end nothing is left to be done. Takes no memory.
pub fn close_down<L: Link, N: Known>(board: &mut Board<L, N>, turns: Result<End, BoardFault>)
    requires passes { 0 < board.old.book.passes }
    requires free { NoneHas board.old.book }
    requires must { MustHalt turns board.old.book }
    requires up { IsUp board.old.book.state.going }
    requires end { is_at_its_end board.old.book.state ≡ inside.is_at_end turns }
    ensures { GoesDown turns board.old.book board.new.book }
{
    passes_act_in_steps();
    show_state(board);
    if is_at_end(turns) {
        return;
    }
    halt(board, turns);
    show_state(board);
    close_all(board);
    retire_all(board);
}

/// Whether the listener's turns ended behind a graceful stop that is at its end.
fn is_at_end(turns: Result<End, BoardFault>) -> bool
    ensures { result ≡ inside.is_at_end turns }
{
    match turns {
        Ok(end) => end.why().is_none(),
        Err(_) => false,
    }
}

/// Closes each connection that waits, once the server has stopped; none is live then where no pass had one. Takes no memory.
fn close_all<L: Link, N: Known>(board: &mut Board<L, N>)
    requires passes { 0 < board.old.book.passes }
    requires free { row_in 0 board.old.book ≡ None }
    requires halted { is_halted board.old.book.state.going ≡ true }
    ensures gone { LetsGo IsHaltedWay board.old.book board.new.book }
    ensures none { NoneParked board.new.book.state }
    ensures live { NoneHas board.old.book → HasNoLive board.new.book.state }
    ensures going { board.new.book.state.going ≡ board.old.book.state.going }
    ensures rest { LeavesRest board.old.book board.new.book }
{
    passes_act_in_steps();
    while let Some(name) = board.parked() {
        close_one(board, name);
    }
    show_none_live(board);
}

/// Closes a connection that waits, once the server has stopped: one that lingers for its cause, and another one as stopped.
fn close_one<L: Link, N: Known>(board: &mut Board<L, N>, name: ConnName)
    requires passes { 0 < board.old.book.passes }
    requires free { row_in 0 board.old.book ≡ None }
    requires halted { is_halted board.old.book.state.going ≡ true }
    requires waits { lives_and (is_waiting name.slot) board.old.book.state.rows name ≡ true }
    ensures gone { LetsOneGo IsHaltedWay name board.old.book board.new.book }
    ensures fewer { parked_count board.new.book.state < parked_count board.old.book.state }
    ensures going { board.new.book.state.going ≡ board.old.book.state.going }
    ensures rest { LeavesRest board.old.book board.new.book }
{
    rows_change_one_at_a_time();
    passes_act_in_steps();
    connections_in_hand_may_be_closed();
    let cause = board.cause(name);
    let conn = board.hold(LISTENER, name);
    match cause {
        Some(cause) => close(board, LISTENER, conn, cause, Tail::Halted),
        None => close(board, LISTENER, conn, Cause::Stopped, Tail::Direct),
    }
}

/// Stops the server for what ended the listener's turns. Takes no memory.
fn halt<L: Link, N: Known>(board: &mut Board<L, N>, turns: Result<End, BoardFault>)
    requires passes { 0 < board.old.book.passes }
    requires free { row_in 0 board.old.book ≡ None }
    requires must { MustHalt turns board.old.book }
    requires up { IsUp board.old.book.state.going }
    ensures acts { Acts 0 (halt_events turns) None board.old.book board.new.book }
    ensures stopped { HaltsAs turns board.old.book.state.going board.new.book.state.going }
    ensures moment { board.new.book.state.moment ≡ board.old.book.state.moment }
    ensures taken { board.new.book.state.accepted ≡ board.old.book.state.accepted }
{
    passes_act_in_steps();
    match turns {
        Ok(end) => match end.why() {
            Some(why) => board.halt(LISTENER, why),
            None => (),
        },
        Err(fault) => stop(board, fault),
    }
}

/// Stops the server for the fault: for want of memory, as it has not stopped before. Takes no memory.
fn stop<L: Link, N: Known>(board: &mut Board<L, N>, fault: BoardFault)
    requires passes { 0 < board.old.book.passes }
    requires free { row_in 0 board.old.book ≡ None }
    requires must { RefusalLasts fault board.old.book }
    requires up { IsUp board.old.book.state.going }
    ensures acts { Acts 0 (event.Command (Stop why.NoMemory) ∷ []) None board.old.book
        board.new.book }
    ensures stopped { IsBrokenOff board.new.book.state.going }
    ensures moment { board.new.book.state.moment ≡ board.old.book.state.moment }
    ensures taken { board.new.book.state.accepted ≡ board.old.book.state.accepted }
{
    match fault {
        BoardFault::Halted => unreachable!(),
        BoardFault::NoMemory => board.halt(LISTENER, Why::NoMemory),
    }
}
