//! How the listener lets go of connections that wait, that are late, or whose child stops.
//!
//! Each connection is held in one turn, its link is half-closed behind that, and it is let go of in a further turn.
//! Why it is so stands in docs/DECISIONS.md: 140, Parts of the listener's round.
ghost use Rattle.std.specs.Prelude.{◌≡◌, [], None, true, false};
ghost use Rattle.conn_machine.specs.Rows.{is_linger_kind};
ghost use Rattle.conn_machine.specs.Table.{is_allowed};
ghost use Rattle.conn_machine.specs.declared.event.Event.TheVariants as event;
ghost use Rattle.conn_state.specs.Answered.{MayLinger};
ghost use Rattle.conn_state.specs.declared.turn.LastLinger.TheVariants as linger;
ghost use Rattle.board_book.specs.Finds.{FindsRow};
ghost use Rattle.worker_group.specs.InHand.{IsInHand};
ghost use Rattle.worker_group.specs.Service.{IsWayOut, left_events};
ghost use Rattle.worker_group.specs.declared.service.Exit.{Exit};
ghost use Rattle.board_turns.specs.Books.{state_of};
ghost use Rattle.board_turns.specs.Turns.{HadATurn, IsListener};
ghost use Rattle.listener_turns.specs.Holds.{Holds, is_taken_for};
ghost use Rattle.listener_turns.specs.declared.held.Due.TheVariants as due;
ghost use Rattle.listener_parts.specs.Did.{Did, LeavesAlone};
ghost use Rattle.listener_parts.specs.Letting as letting;
ghost use Rattle.listener_parts.specs.Letting.{IsLateWay, IsRetiringWay, LetsGo, LetsOneGo};

use board::Board;
use board_lock::{Pass, Shared};
use board_turns::turns_rest_on_these;
use conn_machine::laws_between_turns::others_leave_the_rest_to_the_listener;
use conn_state::laws::untouched_connections_may_be_late;
use conn_state::{Conn, Known};
use listener_turns::{Due, Held, close, hold, linger};
use mpm_base::{Cause, Kind, Link, Tail};
use std::sync::Wait;

/// Lets go of each connection that is late: one that lingers is closed, and another one begins to linger, or is closed where its
/// half-close fails. Takes no memory.
pub fn let_go_late<R: Wait, L: Link, N: Known>(
    rt: &R,
    shared: &Shared<Board<L, N>>,
    pass: &mut Pass<Board<L, N>>,
)
    requires own { pass.old.seat.table_id ≡ shared.now.table.shared.table_id }
    requires listener { IsListener pass.old.seat.me }
    requires none { pass.old.seat.me.0.row ≡ None }
    ensures own { pass.new.seat.table_id ≡ pass.old.seat.table_id }
    ensures listener { IsListener pass.new.seat.me }
    ensures gone { LetsGo IsLateWay pass.old.seat.me.0 pass.new.seat.me.0 }
    ensures credits { pass.new.seat.me.0.credits ≡ pass.old.seat.me.0.credits }
    ensures rest { LeavesAlone (state_of pass.old.seat.me.0) (state_of pass.new.seat.me.0) }
    ensures quiet { FindsRow (is_taken_for due.Late (state_of pass.new.seat.me.0))
        (state_of pass.new.seat.me.0) None }
{
    turns_rest_on_these();
    others_leave_the_rest_to_the_listener();
    for _ in rt.forever() {
        if !let_go_late_one(rt, shared, pass) {
            return;
        }
    }
    unreachable!()
}

/// Lets go of one that is late: whether there was one.
fn let_go_late_one<R: Wait, L: Link, N: Known>(
    rt: &R,
    shared: &Shared<Board<L, N>>,
    pass: &mut Pass<Board<L, N>>,
) -> bool
    requires own { pass.old.seat.table_id ≡ shared.now.table.shared.table_id }
    requires listener { IsListener pass.old.seat.me }
    requires none { pass.old.seat.me.0.row ≡ None }
    ensures own { pass.new.seat.table_id ≡ pass.old.seat.table_id }
    ensures listener { IsListener pass.new.seat.me }
    ensures one { result ≡ true
        → LetsOneGo IsLateWay pass.old.seat.me.0 pass.new.seat.me.0 }
    ensures none { result ≡ false → Did [] None pass.old.seat.me.0 pass.new.seat.me.0 }
    ensures credits { pass.new.seat.me.0.credits ≡ pass.old.seat.me.0.credits }
    ensures rest { LeavesAlone (state_of pass.old.seat.me.0) (state_of pass.new.seat.me.0) }
    ensures quiet { result ≡ false
        → FindsRow (is_taken_for due.Late (state_of pass.new.seat.me.0))
        (state_of pass.new.seat.me.0) None }
{
    turns_rest_on_these();
    others_leave_the_rest_to_the_listener();
    untouched_connections_may_be_late();
    let Some(held) = hold(rt, shared, pass, Due::Late) else {
        return false;
    };
    let Held {
        conn,
        kind,
        cause,
        late: _,
    } = held;
    match cause {
        Some(cause) => close(rt, shared, pass, cause, Tail::Late, conn),
        None => linger_for(rt, shared, pass, cause_of_late(kind), conn),
    }
    true
}

/// Why a connection ends that waited for this, and is late.
fn cause_of_late(kind: Kind) -> Cause
    requires { is_linger_kind kind ≡ false }
    ensures { result ≡ letting.cause_of_late kind }
{
    match kind {
        Kind::Reading => Cause::ReadLate,
        Kind::KeepAlive => Cause::KeepAliveLate,
        Kind::Writing => Cause::WriteLate,
        Kind::Linger | Kind::ShortLinger => unreachable!(),
    }
}

/// A connection that is held begins to linger for the cause, or is closed where its half-close fails. Takes no memory.
fn linger_for<R: Wait, L: Link, N: Known>(
    rt: &R,
    shared: &Shared<Board<L, N>>,
    pass: &mut Pass<Board<L, N>>,
    cause: Cause,
    conn: Conn<L, N>,
)
    requires own { pass.old.seat.table_id ≡ shared.now.table.shared.table_id }
    requires hand { pass.old.seat.me.1 ≡ [] }
    requires holds { Holds N.known pass.old.seat.me.0 conn }
    requires in_hand { IsInHand (state_of pass.old.seat.me.0) conn }
    requires is_open { conn.linger ≡ linger.Open }
    requires allowed { is_allowed (state_of pass.old.seat.me.0) (event.Linger conn.name cause)
        ≡ true }
    requires shows { MayLinger cause conn }
    ensures own { pass.new.seat.table_id ≡ pass.old.seat.table_id }
    ensures listener { IsListener pass.new.seat.me }
    ensures left { (way : Exit) × IsWayOut cause way
        × HadATurn (left_events way conn.name) pass.old.seat.me.0 pass.new.seat.me.0 }
    ensures none { pass.new.seat.me.0.row ≡ None }
{
    let mut conn = conn;
    if conn.shut() {
        linger(rt, shared, pass, cause, conn);
    } else {
        close(rt, shared, pass, Cause::LinkFailed, Tail::Direct, conn);
    }
}

/// Lets go of each connection that is kept alive by a child that stops, and for which nothing came, where all signals were given: it
/// begins to linger, or is closed where its half-close fails. Takes no memory.
pub fn let_go_retiring<R: Wait, L: Link, N: Known>(
    rt: &R,
    shared: &Shared<Board<L, N>>,
    pass: &mut Pass<Board<L, N>>,
    all_signalled: bool,
)
    requires own { pass.old.seat.table_id ≡ shared.now.table.shared.table_id }
    requires listener { IsListener pass.old.seat.me }
    requires none { pass.old.seat.me.0.row ≡ None }
    ensures own { pass.new.seat.table_id ≡ pass.old.seat.table_id }
    ensures listener { IsListener pass.new.seat.me }
    ensures gone { LetsGo IsRetiringWay pass.old.seat.me.0 pass.new.seat.me.0 }
    ensures credits { pass.new.seat.me.0.credits ≡ pass.old.seat.me.0.credits }
    ensures rest { LeavesAlone (state_of pass.old.seat.me.0) (state_of pass.new.seat.me.0) }
    ensures quiet { all_signalled ≡ true
        → FindsRow (is_taken_for due.Retiring (state_of pass.new.seat.me.0))
        (state_of pass.new.seat.me.0) None }
{
    turns_rest_on_these();
    others_leave_the_rest_to_the_listener();
    if !all_signalled {
        return;
    }
    for _ in rt.forever() {
        if !let_go_retiring_one(rt, shared, pass) {
            return;
        }
    }
    unreachable!()
}

/// Lets go of one such connection: whether there was one.
fn let_go_retiring_one<R: Wait, L: Link, N: Known>(
    rt: &R,
    shared: &Shared<Board<L, N>>,
    pass: &mut Pass<Board<L, N>>,
) -> bool
    requires own { pass.old.seat.table_id ≡ shared.now.table.shared.table_id }
    requires listener { IsListener pass.old.seat.me }
    requires none { pass.old.seat.me.0.row ≡ None }
    ensures own { pass.new.seat.table_id ≡ pass.old.seat.table_id }
    ensures listener { IsListener pass.new.seat.me }
    ensures one { result ≡ true
        → LetsOneGo IsRetiringWay pass.old.seat.me.0 pass.new.seat.me.0 }
    ensures none { result ≡ false → Did [] None pass.old.seat.me.0 pass.new.seat.me.0 }
    ensures credits { pass.new.seat.me.0.credits ≡ pass.old.seat.me.0.credits }
    ensures rest { LeavesAlone (state_of pass.old.seat.me.0) (state_of pass.new.seat.me.0) }
    ensures quiet { result ≡ false
        → FindsRow (is_taken_for due.Retiring (state_of pass.new.seat.me.0))
        (state_of pass.new.seat.me.0) None }
{
    turns_rest_on_these();
    others_leave_the_rest_to_the_listener();
    let Some(held) = hold(rt, shared, pass, Due::Retiring) else {
        return false;
    };
    let Held {
        conn,
        kind: _,
        cause: _,
        late: _,
    } = held;
    linger_for(rt, shared, pass, Cause::Retiring, conn);
    true
}
