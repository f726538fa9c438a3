//! How the listener lets go of connections that wait: of those that are late, whose child stops, or that linger.
//!
//! Each call says which connections it held, and how it left each (`specs/ClosingInside.antt`).
//! Why it is so stands in docs/DECISIONS.md: 82, Time and late connections.
ghost use Rattle.std.specs.Prelude.{◌≡◌, ◌<◌, [], ◌∷◌, None, Some, true, false, IfErr, OnOk};
ghost use Rattle.conn_machine.specs.Rows.{is_linger_kind, lives_and};
ghost use Rattle.conn_machine.specs.States.{is_halted};
ghost use Rattle.conn_machine.specs.Table.{is_allowed, next};
ghost use Rattle.conn_machine.specs.declared.event.Event.TheVariants as event;
ghost use Rattle.conn_state.specs.Answered.{MayLinger};
ghost use Rattle.conn_state.specs.declared.turn.LastLinger.TheVariants as linger;
ghost use Rattle.board.specs.Backed.{BacksWait};
ghost use Rattle.board_book.specs.Faults.{IsRefusedFor};
ghost use Rattle.board_book.specs.Finds.{has_to_be_drained, is_late, is_let_go};
ghost use Rattle.board_book.specs.Book.{row_in};
ghost use Rattle.board.specs.Editions.{IsOfGeneration};
ghost use Rattle.worker_group.specs.Acts.{Acts};
ghost use Rattle.worker_group.specs.InHand.{IsInHand};
ghost use Rattle.worker_group.specs.Service.{LeavesRest, RefusalLasts};
ghost use Rattle.rounds.specs.ClosingInside.{DrainsSome, DrainsUntil, GivesUpDrained, IsDrainedWay, IsLateWay, IsLingeringFor, IsRetiringWay, LetsGo, LetsGoLate, LetsLinger, LetsOneGo, cause_of_late, late_weight, lingering_give_up_events, serving_count, signal_count, tail_of};
ghost use Rattle.board_book.specs.AtRest.{NoneToDrain, NoneToLetGo};
ghost use Rattle.rounds.specs.TableInside.{NoneOverdue};

use crate::ends::LISTENER;
use crate::showing::show_state;
use board::laws::waits_are_backed_by_calls;
use board::{Board, BoardFault};
use conn_machine::laws_of_runs::{histories_join, rows_change_one_at_a_time};
use conn_state::laws::{lingering_connections_keep_their_cause, untouched_connections_may_be_late};
use conn_state::{Conn, Known, LingerTurn};
use mpm_base::{Cause, ConnName, Kind, Link, Tail};
use worker_group::laws::passes_act_in_steps;
use worker_group::{close, let_linger};

/// Lets go of each connection that is late: one that lingers is closed, and another one begins to linger, or is closed where its
/// half-close fails. Takes no memory.
pub(crate) fn let_go_late<L: Link, N: Known>(board: &mut Board<L, N>)
    requires passes { 0 < board.old.book.passes }
    requires free { row_in 0 board.old.book ≡ None }
    ensures gone { LetsGoLate board.old.book board.new.book }
    ensures none { NoneOverdue board.new.book.state }
    ensures rest { LeavesRest board.old.book board.new.book }
{
    passes_act_in_steps();
    while let Some(name) = board.overdue() {
        let_go_late_one(board, name);
    }
}
/// Lets go of a connection that is late.
fn let_go_late_one<L: Link, N: Known>(board: &mut Board<L, N>, name: ConnName)
    requires passes { 0 < board.old.book.passes }
    requires free { row_in 0 board.old.book ≡ None }
    requires late { lives_and (is_late board.old.book.state name.slot) board.old.book.state.rows
        name ≡ true }
    ensures gone { LetsOneGo IsLateWay name board.old.book board.new.book }
    ensures fewer { late_weight board.new.book.state < late_weight board.old.book.state }
    ensures rest { LeavesRest board.old.book board.new.book }
{
    untouched_connections_may_be_late();
    rows_change_one_at_a_time();
    passes_act_in_steps();
    board.show();
    let cause = board.cause(name);
    let Some(kind) = board.kind(name) else {
        unreachable!()
    };
    let conn = board.hold(LISTENER, name);
    match cause {
        Some(cause) => close(board, LISTENER, conn, cause, Tail::Late),
        None => linger_for(board, conn, cause_of_late(kind)),
    }
}
/// Why a connection ends that waited for this, and is late.
fn cause_of_late(kind: Kind) -> Cause
    requires { is_linger_kind kind ≡ false }
    ensures { result ≡ cause_of_late kind }
{
    match kind {
        Kind::Reading => Cause::ReadLate,
        Kind::KeepAlive => Cause::KeepAliveLate,
        Kind::Writing => Cause::WriteLate,
        Kind::Linger | Kind::ShortLinger => unreachable!(),
    }
}
/// A connection that is held begins to linger for the cause, or is closed where its half-close fails. Takes no memory.
fn linger_for<L: Link, N: Known>(board: &mut Board<L, N>, conn: Conn<L, N>, cause: Cause)
    requires passes { 0 < board.old.book.passes }
    requires row { row_in 0 board.old.book ≡ Some conn.name }
    requires edition { IsOfGeneration N.known board.old.book conn.generation conn.reader.limits
        conn.site }
    requires hand { IsInHand board.old.book.state conn }
    requires open { conn.linger ≡ linger.Open }
    requires allowed { is_allowed board.old.book.state (event.Linger conn.name cause) ≡ true }
    requires shows { MayLinger cause conn }
    ensures left { LetsLinger cause conn.name board.old.book board.new.book }
    ensures rest { LeavesRest board.old.book board.new.book }
{
    histories_join();
    board.show();
    let_linger(board, LISTENER, conn, cause);
    board.show();
}
/// Lets go of each connection that is kept alive by a child that stops, and for which nothing came, where all signals were given: it
/// begins to linger, or is closed where its half-close fails. Takes no memory.
pub(crate) fn let_go_retiring<L: Link, N: Known>(board: &mut Board<L, N>, all_signalled: bool)
    requires passes { 0 < board.old.book.passes }
    requires free { row_in 0 board.old.book ≡ None }
    ensures gone { LetsGo IsRetiringWay board.old.book board.new.book }
    ensures none { all_signalled ≡ true → NoneToLetGo board.new.book.state }
    ensures rest { LeavesRest board.old.book board.new.book }
{
    passes_act_in_steps();
    if !all_signalled {
        return;
    }
    while let Some(name) = board.retiring() {
        let_go_retiring_one(board, name);
    }
}
/// Lets go of such a connection.
fn let_go_retiring_one<L: Link, N: Known>(board: &mut Board<L, N>, name: ConnName)
    requires passes { 0 < board.old.book.passes }
    requires free { row_in 0 board.old.book ≡ None }
    requires retires { lives_and (is_let_go board.old.book.state name.slot)
        board.old.book.state.rows name ≡ true }
    ensures gone { LetsOneGo IsRetiringWay name board.old.book board.new.book }
    ensures fewer { serving_count board.new.book.state < serving_count board.old.book.state }
    ensures rest { LeavesRest board.old.book board.new.book }
{
    rows_change_one_at_a_time();
    passes_act_in_steps();
    board.show();
    let conn = board.hold(LISTENER, name);
    linger_for(board, conn, Cause::Retiring);
}
/// Drops what came for each connection that lingers: it goes on lingering, or is closed. None is late before.
pub(crate) fn drain_all<L: Link, N: Known>(board: &mut Board<L, N>) -> Result<(), BoardFault>
    requires passes { 0 < board.old.book.passes }
    requires free { row_in 0 board.old.book ≡ None }
    requires none_late { NoneOverdue board.old.book.state }
    ensures drains { OnOk result (DrainsSome board.old.book board.new.book) }
    ensures until { IfErr result (λ fault. DrainsUntil fault board.old.book board.new.book) }
    ensures none { OnOk result (NoneToDrain board.new.book.state) }
    ensures none_late { OnOk result (NoneOverdue board.new.book.state) }
    ensures rest { LeavesRest board.old.book board.new.book }
    ensures err { IfErr result (λ fault. RefusalLasts fault board.new.book) }
{
    passes_act_in_steps();
    while let Some(name) = board.signalled_linger() {
        drain(board, name)?;
    }
    Ok(())
}
/// Drops what came for a connection that lingers.
fn drain<L: Link, N: Known>(board: &mut Board<L, N>, name: ConnName) -> Result<(), BoardFault>
    requires passes { 0 < board.old.book.passes }
    requires free { row_in 0 board.old.book ≡ None }
    requires none_late { NoneOverdue board.old.book.state }
    requires lingers { lives_and (has_to_be_drained board.old.book.state name.slot)
        board.old.book.state.rows name ≡ true }
    ensures drains { OnOk result (LetsOneGo IsDrainedWay name board.old.book board.new.book) }
    ensures until { IfErr result (λ fault. GivesUpDrained fault board.old.book board.new.book) }
    ensures fewer { OnOk result
        (signal_count board.new.book.state < signal_count board.old.book.state) }
    ensures none_late { OnOk result (NoneOverdue board.new.book.state) }
    ensures rest { LeavesRest board.old.book board.new.book }
    ensures err { IfErr result (λ fault. RefusalLasts fault board.new.book) }
{
    rows_change_one_at_a_time();
    passes_act_in_steps();
    lingering_connections_keep_their_cause();
    waits_are_backed_by_calls();
    board.show();
    let (Some(cause), Some(kind)) = (board.cause(name), board.kind(name)) else {
        unreachable!()
    };
    let mut conn = board.hold(LISTENER, name);
    show_state(board);
    match tail_of(conn.linger_turn()) {
        Some(tail) => {
            close(board, LISTENER, conn, cause, tail);
            Ok(())
        }
        None => linger_on(board, conn, kind, cause),
    }
}
/// How the link of a connection is left after a turn of lingering. None where it goes on lingering.
fn tail_of(turn: LingerTurn) -> Option<Tail>
    ensures { result ≡ tail_of turn }
{
    match turn {
        LingerTurn::Drained => Some(Tail::Drained),
        LingerTurn::Sated => Some(Tail::Sated),
        LingerTurn::NotReady => None,
        LingerTurn::LinkFailed => Some(Tail::Failed),
    }
}
/// The connection goes on lingering. Where that is refused it is closed.
fn linger_on<L: Link, N: Known>(
    board: &mut Board<L, N>,
    conn: Conn<L, N>,
    kind: Kind,
    cause: Cause,
) -> Result<(), BoardFault>
    requires passes { 0 < board.old.book.passes }
    requires row { row_in 0 board.old.book ≡ Some conn.name }
    requires edition { IsOfGeneration N.known board.old.book conn.generation conn.reader.limits
        conn.site }
    requires lingers { IsLingeringFor cause board.old.book.state conn }
    requires kind { is_linger_kind kind ≡ true }
    requires allowed { is_halted board.old.book.state.going ≡ false
        → is_allowed board.old.book.state (event.Park conn.name kind) ≡ true }
    requires late { conn.linger ≡ linger.NotReady }
    requires backed { BacksWait kind board.old.book.state conn }
    ensures parked { OnOk result
        (Acts 0 (event.Park conn.name kind ∷ []) None board.old.book board.new.book) }
    ensures state { OnOk result
        (board.new.book.state ≡ next board.old.book.state (event.Park conn.name kind)) }
    ensures given_up { IfErr result
        (λ fault. Acts 0 (lingering_give_up_events fault cause conn.name) None board.old.book
        board.new.book) }
    ensures why { IfErr result (λ fault. IsRefusedFor fault board.old.book) }
    ensures lasts { IfErr result (λ fault. RefusalLasts fault board.new.book) }
    ensures rest { LeavesRest board.old.book board.new.book }
{
    passes_act_in_steps();
    conn.show();
    match board.park(LISTENER, kind, conn) {
        Ok(()) => Ok(()),
        Err((fault, conn)) => {
            give_up_lingering(board, conn, cause, fault);
            Err(fault)
        }
    }
}
/// Closes a connection that lingers, and whose further wait was refused. Takes no memory.
fn give_up_lingering<L: Link, N: Known>(
    board: &mut Board<L, N>,
    conn: Conn<L, N>,
    cause: Cause,
    fault: BoardFault,
)
    requires passes { 0 < board.old.book.passes }
    requires row { row_in 0 board.old.book ≡ Some conn.name }
    requires edition { IsOfGeneration N.known board.old.book conn.generation conn.reader.limits
        conn.site }
    requires lingers { IsLingeringFor cause board.old.book.state conn }
    requires why { IsRefusedFor fault board.old.book }
    ensures acts { Acts 0 (lingering_give_up_events fault cause conn.name) None board.old.book
        board.new.book }
    ensures lasts { RefusalLasts fault board.new.book }
    ensures rest { LeavesRest board.old.book board.new.book }
{
    passes_act_in_steps();
    match fault {
        BoardFault::Halted => close(board, LISTENER, conn, cause, Tail::Halted),
        BoardFault::NoMemory => close(board, LISTENER, conn, cause, Tail::NoMemory),
    }
}
