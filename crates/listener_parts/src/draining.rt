//! How the listener drains connections that linger: it drops what came for each, which goes on lingering then, or is closed.
ghost use Rattle.std.specs.Prelude.{◌≡◌, [], ◌∷◌, None, true, false, IfErr, IfOk, OnOk};
ghost use Rattle.conn_machine.specs.Rows.{is_linger_kind};
ghost use Rattle.conn_machine.specs.States.{is_halted};
ghost use Rattle.conn_machine.specs.Table.{is_allowed};
ghost use Rattle.conn_machine.specs.declared.event.Event.TheVariants as event;
ghost use Rattle.conn_state.specs.declared.turn.LastLinger.TheVariants as linger;
ghost use Rattle.board.specs.Backed.{BacksWait};
ghost use Rattle.board_book.specs.Finds.{FindsRow};
ghost use Rattle.board_turns.specs.Books.{state_of};
ghost use Rattle.board_turns.specs.Carries.{Lasts};
ghost use Rattle.board_turns.specs.Turns.{HadATurn, IsListener};
ghost use Rattle.listener_turns.specs.Holds.{Holds, is_taken_for};
ghost use Rattle.listener_turns.specs.declared.held.Due.TheVariants as due;
ghost use Rattle.listener_parts.specs.Did.{Did, LeavesAlone};
ghost use Rattle.listener_parts.specs.Letting as letting;
ghost use Rattle.listener_parts.specs.Letting.{DrainsUntil, GivesUpDrained, IsDrainedWay, IsLingeringFor, LetsGo, LetsOneGo, RefusedWait, lingering_give_up_events};

use board::laws::waits_are_backed_by_calls;
use board::{Board, BoardFault};
use board_lock::{Pass, Shared};
use board_turns::turns_rest_on_these;
use conn_machine::laws_between_turns::others_leave_the_rest_to_the_listener;
use conn_state::laws::lingering_connections_keep_their_cause;
use conn_state::{Conn, Known, LingerTurn};
use listener_turns::{Due, Held, close, hold, park};
use mpm_base::{Cause, Kind, Link, Tail};
use std::sync::Wait;

/// Drops what came for each connection that lingers: it goes on lingering, or is closed.
pub fn drain_all<R: Wait, L: Link, N: Known>(
    rt: &R,
    shared: &Shared<Board<L, N>>,
    pass: &mut Pass<Board<L, N>>,
) -> Result<(), BoardFault>
    requires own { pass.old.seat.table_id ≡ shared.now.table.shared.table_id }
    requires listener { IsListener pass.old.seat.me }
    requires none { pass.old.seat.me.0.row ≡ None }
    ensures own { pass.new.seat.table_id ≡ pass.old.seat.table_id }
    ensures listener { IsListener pass.new.seat.me }
    ensures drains { OnOk result
        (LetsGo IsDrainedWay pass.old.seat.me.0 pass.new.seat.me.0) }
    ensures until { IfErr result
        (λ fault. DrainsUntil fault pass.old.seat.me.0 pass.new.seat.me.0) }
    ensures no_row { pass.new.seat.me.0.row ≡ None }
    ensures credits { pass.new.seat.me.0.credits ≡ pass.old.seat.me.0.credits }
    ensures rest { LeavesAlone (state_of pass.old.seat.me.0) (state_of pass.new.seat.me.0) }
    ensures quiet { OnOk result
        (FindsRow (is_taken_for due.Lingering (state_of pass.new.seat.me.0))
        (state_of pass.new.seat.me.0) None) }
    ensures lasts { IfErr result (λ fault. Lasts fault (state_of pass.new.seat.me.0)) }
{
    turns_rest_on_these();
    others_leave_the_rest_to_the_listener();
    for _ in rt.forever() {
        if !drain_one(rt, shared, pass)? {
            return Ok(());
        }
    }
    unreachable!()
}

/// Drops what came for one of them: whether there was one. One whose time is over is closed.
fn drain_one<R: Wait, L: Link, N: Known>(
    rt: &R,
    shared: &Shared<Board<L, N>>,
    pass: &mut Pass<Board<L, N>>,
) -> Result<bool, BoardFault>
    requires own { pass.old.seat.table_id ≡ shared.now.table.shared.table_id }
    requires listener { IsListener pass.old.seat.me }
    requires none { pass.old.seat.me.0.row ≡ None }
    ensures own { pass.new.seat.table_id ≡ pass.old.seat.table_id }
    ensures listener { IsListener pass.new.seat.me }
    ensures one { IfOk result
        (λ found. found ≡ true
        → LetsOneGo IsDrainedWay pass.old.seat.me.0 pass.new.seat.me.0) }
    ensures none { IfOk result
        (λ found. found ≡ false → Did [] None pass.old.seat.me.0 pass.new.seat.me.0) }
    ensures until { IfErr result
        (λ fault. GivesUpDrained fault pass.old.seat.me.0 pass.new.seat.me.0) }
    ensures no_row { pass.new.seat.me.0.row ≡ None }
    ensures credits { pass.new.seat.me.0.credits ≡ pass.old.seat.me.0.credits }
    ensures rest { LeavesAlone (state_of pass.old.seat.me.0) (state_of pass.new.seat.me.0) }
    ensures quiet { IfOk result
        (λ found. found ≡ false
        → FindsRow (is_taken_for due.Lingering (state_of pass.new.seat.me.0))
        (state_of pass.new.seat.me.0) None) }
    ensures lasts { IfErr result (λ fault. Lasts fault (state_of pass.new.seat.me.0)) }
{
    turns_rest_on_these();
    others_leave_the_rest_to_the_listener();
    lingering_connections_keep_their_cause();
    waits_are_backed_by_calls();
    let Some(held) = hold(rt, shared, pass, Due::Lingering) else {
        return Ok(false);
    };
    let Held {
        conn,
        kind,
        cause,
        late,
    } = held;
    let mut conn = conn;
    let Some(cause) = cause else { unreachable!() };
    if late {
        close(rt, shared, pass, cause, Tail::Late, conn);
        return Ok(true);
    }
    match tail_of(conn.linger_turn()) {
        Some(tail) => {
            close(rt, shared, pass, cause, tail, conn);
            Ok(true)
        }
        None => {
            linger_on(rt, shared, pass, conn, kind, cause)?;
            Ok(true)
        }
    }
}

/// How the link of a connection is left after a turn of lingering. None where it goes on lingering.
fn tail_of(turn: LingerTurn) -> Option<Tail>
    ensures { result ≡ letting.tail_of turn }
{
    match turn {
        LingerTurn::Drained => Some(Tail::Drained),
        LingerTurn::Sated => Some(Tail::Sated),
        LingerTurn::NotReady => None,
        LingerTurn::LinkFailed => Some(Tail::Failed),
    }
}

/// The connection goes on lingering. Where that is refused it is closed.
fn linger_on<R: Wait, L: Link, N: Known>(
    rt: &R,
    shared: &Shared<Board<L, N>>,
    pass: &mut Pass<Board<L, N>>,
    conn: Conn<L, N>,
    kind: Kind,
    cause: Cause,
) -> Result<(), BoardFault>
    requires own { pass.old.seat.table_id ≡ shared.now.table.shared.table_id }
    requires hand { pass.old.seat.me.1 ≡ [] }
    requires holds { Holds N.known pass.old.seat.me.0 conn }
    requires lingers { IsLingeringFor cause (state_of pass.old.seat.me.0) conn }
    requires kind { is_linger_kind kind ≡ true }
    requires allowed { is_halted (state_of pass.old.seat.me.0).going ≡ false
        → is_allowed (state_of pass.old.seat.me.0) (event.Park conn.name kind) ≡ true }
    requires waits { conn.linger ≡ linger.NotReady }
    requires backed { BacksWait kind (state_of pass.old.seat.me.0) conn }
    ensures own { pass.new.seat.table_id ≡ pass.old.seat.table_id }
    ensures listener { IsListener pass.new.seat.me }
    ensures parked { OnOk result (HadATurn (event.Park conn.name kind ∷ []) pass.old.seat.me.0
        pass.new.seat.me.0) }
    ensures refused { IfErr result
        (λ fault. RefusedWait fault (lingering_give_up_events fault cause conn.name)
        pass.old.seat.me.0 pass.new.seat.me.0) }
    ensures none { pass.new.seat.me.0.row ≡ None }
{
    turns_rest_on_these();
    others_leave_the_rest_to_the_listener();
    conn.show();
    match park(rt, shared, pass, kind, conn) {
        Ok(()) => Ok(()),
        Err((fault, conn)) => {
            close(rt, shared, pass, cause, given_up_tail(fault), conn);
            Err(fault)
        }
    }
}

/// How the link of a connection that lingers is left, which is given up for the fault.
fn given_up_tail(fault: BoardFault) -> Tail
    ensures { result ≡ letting.given_up_tail fault }
{
    match fault {
        BoardFault::Halted => Tail::Halted,
        BoardFault::NoMemory => Tail::NoMemory,
    }
}
