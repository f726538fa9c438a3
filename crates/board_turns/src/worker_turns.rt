//! The turns of a carrier, a pass other than pass 0 that has a permit: one for each event of the connection that it carries. What each asks
//! of the board follows from what the last one taught its pass.
//! Why it is so stands in docs/DECISIONS.md: 102, What a turn teaches; 116, Turns with a board.
ghost use Rattle.std.specs.Prelude.{◌≡◌, ◌<◌, ℕ, List, [], ◌∷◌, length, IfErr, IfNone, IfOk, IfSome, None, OnOk, Some};
ghost use Rattle.mpm_base.specs.declared.conn.Cause.TheVariants as cause_of;
ghost use Rattle.mpm_base.specs.declared.conn.Tail.TheVariants as tail;
ghost use Rattle.conn_machine.specs.Table.{cell_at};
ghost use Rattle.conn_machine.specs.declared.event.Entry.{Entry};
ghost use Rattle.conn_machine.specs.declared.event.Event.TheVariants as event;
ghost use Rattle.conn_state.specs.declared.turn.LastTurn.TheVariants as last_turn;
ghost use Rattle.board_book.specs.Faults.{IsRefusedFor};
ghost use Rattle.board_book.specs.Finds.{FindsRow, is_due_of};
ghost use Rattle.worker_group.specs.declared.service.Exit.TheVariants as exit;
ghost use Rattle.board_turns.specs.Books.{book_of, state_of};
ghost use Rattle.board_turns.specs.Carries.{HadNoResponse, HasPermitOnly, IsCarried, LeavesBy, Serves, TookResponse};
ghost use Rattle.board_turns.specs.Pairing.{HasNoneToHand};
ghost use Rattle.board_turns.specs.Turns.{HadATurn, HadTurn, state_found};
ghost use Rattle.table_rule.specs.Histories.{IsQueuedInTime};

use crate::rests::turns_rest_on_these;
use board::{Board, BoardFault};
use board_lock::{Carrier, Shared, number};
use conn_state::{Conn, Known};
use mpm_base::{Ask, Cause, ConnName, Kind, Link, NoMemory, Tail};
use std::sync::Wait;
use worker_group::Exit;

/// A connection of the child that waits for service, for which something may have come, and whose deadline is to come: None where there is
/// none, or where some connection is late, which is to be let go of first.
fn due_in_time<L: Link, N: Known>(board: &Board<L, N>, child: u32) -> Option<ConnName>
    requires { child < length board.now.book.state.children }
    ensures due { IfSome result
        (λ name. FindsRow (is_due_of child board.now.book.state) board.now.book.state (Some name)) }
    ensures in_time { IfSome result
        (λ name. IsQueuedInTime board.now.book.state (event.Queue name)) }
    ensures none { IfNone result (HasNoneToHand child board.now.book.state) }
{
    match board.overdue() {
        Some(_late) => None,
        None => board.signalled_of(child),
    }
}

/// The carrier, which has a permit of the child, takes one of its connections for which something may have come, to hand it to its workers.
/// None where no such connection waits at this turn, or where some connection is late, which the listener lets go of first; an Err where the
/// board refuses it, which stays then.
pub fn queue<R: Wait, L: Link, N: Known>(
    rt: &R,
    shared: &Shared<Board<L, N>>,
    carrier: &mut Carrier<Board<L, N>>,
    child: u32,
) -> Result<Option<Conn<L, N>>, BoardFault>
    requires own { carrier.old.seat.table_id ≡ shared.now.table.shared.table_id }
    requires hand { carrier.old.seat.me.1 ≡ [] }
    requires child { child < 32 }
    requires permit { HasPermitOnly child carrier.old.seat.me.0 }
    ensures own { carrier.new.seat.table_id ≡ carrier.old.seat.table_id }
    ensures hand { carrier.new.seat.me.1 ≡ [] }
    ensures some { IfOk result
        (λ o. IfSome o
        (λ conn. HadATurn (event.Queue conn.name ∷ []) carrier.old.seat.me.0 carrier.new.seat.me.0)) }
    ensures carried { IfOk result (λ o. IfSome o (IsCarried N.known carrier.new.seat.me.0)) }
    ensures child { IfOk result (λ o. IfSome o (λ conn. conn.child ≡ child)) }
    ensures none { IfOk result
        (λ o. IfNone o (HadATurn [] carrier.old.seat.me.0 carrier.new.seat.me.0)) }
    ensures quiet { IfOk result
        (λ o. IfNone o (HasNoneToHand child (state_of carrier.new.seat.me.0))) }
    ensures nothing { IfOk result (λ o. IfNone o (HasPermitOnly child carrier.new.seat.me.0)) }
    ensures err { IfErr result (λ _. HadATurn [] carrier.old.seat.me.0 carrier.new.seat.me.0) }
    ensures why { IfErr result (λ fault. IsRefusedFor fault (book_of carrier.new.seat.me.0)) }
    ensures refused { IfErr result (λ _. HasPermitOnly child carrier.new.seat.me.0) }
{
    turns_rest_on_these();
    let who = number(carrier);
    let mut turn = shared.turn(rt, carrier);
    turn.kept.show();
    let Some(name) = due_in_time(&turn.kept, child) else {
        shared.done(carrier, turn);
        return Ok(None);
    };
    let queued = turn.kept.queue(who, name);
    turn.kept.show();
    shared.done(carrier, turn);
    match queued {
        Ok(conn) => Ok(Some(conn)),
        Err(fault) => Err(fault),
    }
}

/// A worker begins to serve the connection that the carrier brought: its cell.
pub fn start<R: Wait, L: Link, N: Known>(
    rt: &R,
    shared: &Shared<Board<L, N>>,
    carrier: &mut Carrier<Board<L, N>>,
    conn: &Conn<L, N>,
) -> u32
    requires own { carrier.old.seat.table_id ≡ shared.now.table.shared.table_id }
    requires hand { carrier.old.seat.me.1 ≡ [] }
    requires carried { IsCarried N.known carrier.old.seat.me.0 conn.now }
    ensures own { carrier.new.seat.table_id ≡ carrier.old.seat.table_id }
    ensures hand { carrier.new.seat.me.1 ≡ [] }
    ensures served { Serves N.known carrier.new.seat.me.0 conn.now }
    ensures turn { (found : List Entry)
        × HadTurn found (event.Start conn.now.name ∷ []) carrier.old.seat.me.0
        carrier.new.seat.me.0
        × (result ≡ cell_at (state_found carrier.old.seat.me.0 found) conn.now.name.slot) }
{
    turns_rest_on_these();
    let who = number(carrier);
    let name = conn.name();
    let mut turn = shared.turn(rt, carrier);
    turn.kept.show();
    let cell = turn.kept.start(who, name);
    turn.kept.show();
    shared.done(carrier, turn);
    cell
}

/// The response to what the connection was asked is decided in the turn, and made behind it. None where it is to be sent; else how the
/// connection is left: it is closed where memory lacks for the response, and given up where the board refused to decide it.
pub fn answer<R: Wait, L: Link, N: Known>(
    rt: &R,
    shared: &Shared<Board<L, N>>,
    carrier: &mut Carrier<Board<L, N>>,
    conn: &mut Conn<L, N>,
    ask: Ask,
) -> Option<Exit>
    requires own { carrier.old.seat.table_id ≡ shared.now.table.shared.table_id }
    requires hand { carrier.old.seat.me.1 ≡ [] }
    requires served { Serves N.known carrier.old.seat.me.0 conn.old }
    requires asked { conn.old.turn ≡ last_turn.Asked ask }
    ensures own { carrier.new.seat.table_id ≡ carrier.old.seat.table_id }
    ensures hand { carrier.new.seat.me.1 ≡ [] }
    ensures took { IfNone result
        (TookResponse ask carrier.old.seat.me.0 carrier.new.seat.me.0 conn.old conn.new) }
    ensures served { IfNone result (Serves N.known carrier.new.seat.me.0 conn.new) }
    ensures why { IfSome result
        (HadNoResponse ask carrier.old.seat.me.0 carrier.new.seat.me.0 conn.old conn.new) }
    ensures may { IfSome result (LeavesBy N.known carrier.new.seat.me.0 conn.new) }
{
    turns_rest_on_these();
    conn.show();
    let who = number(carrier);
    let name = conn.name();
    let mut turn = shared.turn(rt, carrier);
    turn.kept.show();
    let decided = turn.kept.answer(who, name, ask);
    turn.kept.show();
    shared.done(carrier, turn);
    match decided {
        Ok(note) => match conn.answer(note) {
            Ok(()) => None,
            Err(NoMemory) => Some(Exit::Close(Cause::NoMemory, Tail::Direct)),
        },
        Err(fault) => Some(Exit::GiveUp(fault)),
    }
}

/// The connection that is served waits. Where the board refuses that it comes back, to be given up.
pub fn park<R: Wait, L: Link, N: Known>(
    rt: &R,
    shared: &Shared<Board<L, N>>,
    carrier: &mut Carrier<Board<L, N>>,
    kind: Kind,
    conn: Conn<L, N>,
) -> Result<(), (BoardFault, Conn<L, N>)>
    requires own { carrier.old.seat.table_id ≡ shared.now.table.shared.table_id }
    requires hand { carrier.old.seat.me.1 ≡ [] }
    requires may { LeavesBy N.known carrier.old.seat.me.0 conn (exit.Park kind) }
    ensures own { carrier.new.seat.table_id ≡ carrier.old.seat.table_id }
    ensures hand { carrier.new.seat.me.1 ≡ [] }
    ensures turn { OnOk result
        (HadATurn (event.Park conn.name kind ∷ []) carrier.old.seat.me.0 carrier.new.seat.me.0) }
    ensures left { OnOk result (HasPermitOnly conn.child carrier.new.seat.me.0) }
    ensures err { IfErr result (λ _. HadATurn [] carrier.old.seat.me.0 carrier.new.seat.me.0) }
    ensures why { IfErr result (λ e. IsRefusedFor e.0 (book_of carrier.new.seat.me.0)) }
    ensures back { IfErr result (λ e. e.1 ≡ conn) }
    ensures may { IfErr result
        (λ e. LeavesBy N.known carrier.new.seat.me.0 e.1 (exit.GiveUp e.0)) }
{
    turns_rest_on_these();
    conn.show();
    let who = number(carrier);
    let mut turn = shared.turn(rt, carrier);
    turn.kept.show();
    turn.kept.show_editions();
    let parked = turn.kept.park(who, kind, conn);
    turn.kept.show();
    shared.done(carrier, turn);
    parked
}

/// The connection, which was half-closed behind its last response, lingers. Takes no memory.
pub fn linger<R: Wait, L: Link, N: Known>(
    rt: &R,
    shared: &Shared<Board<L, N>>,
    carrier: &mut Carrier<Board<L, N>>,
    conn: Conn<L, N>,
)
    requires own { carrier.old.seat.table_id ≡ shared.now.table.shared.table_id }
    requires hand { carrier.old.seat.me.1 ≡ [] }
    requires may { LeavesBy N.known carrier.old.seat.me.0 conn (exit.Linger cause_of.LastSent) }
    ensures own { carrier.new.seat.table_id ≡ carrier.old.seat.table_id }
    ensures hand { carrier.new.seat.me.1 ≡ [] }
    ensures turn { HadATurn (event.Linger conn.name cause_of.LastSent ∷ []) carrier.old.seat.me.0
        carrier.new.seat.me.0 }
    ensures left { HasPermitOnly conn.child carrier.new.seat.me.0 }
{
    turns_rest_on_these();
    let who = number(carrier);
    let mut turn = shared.turn(rt, carrier);
    turn.kept.show();
    turn.kept.show_editions();
    turn.kept.linger(who, Cause::LastSent, conn);
    turn.kept.show();
    shared.done(carrier, turn);
}

/// The connection ends for the cause, without lingering. What it leaves is made before the turn. Takes no memory.
pub fn close<R: Wait, L: Link, N: Known>(
    rt: &R,
    shared: &Shared<Board<L, N>>,
    carrier: &mut Carrier<Board<L, N>>,
    cause: Cause,
    conn: Conn<L, N>,
)
    requires own { carrier.old.seat.table_id ≡ shared.now.table.shared.table_id }
    requires hand { carrier.old.seat.me.1 ≡ [] }
    requires may { LeavesBy N.known carrier.old.seat.me.0 conn (exit.Close cause tail.Direct) }
    ensures own { carrier.new.seat.table_id ≡ carrier.old.seat.table_id }
    ensures hand { carrier.new.seat.me.1 ≡ [] }
    ensures turn { HadATurn (event.Close conn.name cause tail.Direct ∷ []) carrier.old.seat.me.0
        carrier.new.seat.me.0 }
    ensures left { HasPermitOnly conn.child carrier.new.seat.me.0 }
{
    turns_rest_on_these();
    let who = number(carrier);
    let ended = conn.end(cause, Tail::Direct);
    let mut turn = shared.turn(rt, carrier);
    turn.kept.show();
    turn.kept.show_editions();
    turn.kept.close(who, ended);
    turn.kept.show();
    shared.done(carrier, turn);
}
