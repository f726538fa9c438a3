//! The turns of a connection that the listener holds: it is taken up, and let go of, and between these its link is called.
//! Why it is so stands in docs/DECISIONS.md: 109, Turns of the listener.
ghost use Rattle.std.specs.Prelude.{◌≡◌, ◌<◌, [], ◌∷◌, true, None, Some, IfErr, IfNone, IfSome, OnErr, OnOk, nat_le};
ghost use Rattle.conn_machine.specs.Rows.{is_parked, live_row, lives_and};
ghost use Rattle.conn_machine.specs.States.{is_halted};
ghost use Rattle.conn_machine.specs.Table.{is_allowed};
ghost use Rattle.conn_machine.specs.declared.event.Event.TheVariants as event;
ghost use Rattle.board_book.specs.Book.{row_in};
ghost use Rattle.board.specs.Editions.{IsOfGeneration};
ghost use Rattle.board_book.specs.Faults.{IsRefusedFor};
ghost use Rattle.board_book.specs.Finds.{FindsRow};
ghost use Rattle.worker_group.specs.InHand.{IsClosable};
ghost use Rattle.worker_group.specs.InHandInside.{IsLingerable};
ghost use Rattle.board_turns.specs.Books.{book_of, state_of};
ghost use Rattle.board_turns.specs.GoesOnInside.{MadeEvent};
ghost use Rattle.board_turns.specs.Turns.{HadATurn, IsListener};
ghost use Rattle.listener_turns.specs.Holds.{Holds, HoldsFor, MayWait, TookUpFor, is_taken_for};
ghost use Rattle.listener_turns.specs.PartsInside.{TookUpRow};
ghost use Rattle.listener_turns.specs.declared.held.Due.TheVariants as due;

use board::{Board, BoardFault};
use board_lock::{Pass, Shared};
use board_turns::turns_rest_on_these;
use conn_machine::laws_between_turns::others_leave_the_rest_to_the_listener;
use conn_state::{Conn, Known};
use mpm_base::{Cause, ConnName, Kind, Link, Tail};
use std::sync::Wait;

/// The number of the pass that listens.
const LISTENER: u32 = 0;

/// Why the listener takes up a connection that waits.
#[derive(Clone, Copy, Debug, PartialEq, Eq)]
pub enum Due {
    /// Its time is over.
    Late,
    /// Its child stops, it waits for a further request, and nothing came.
    Retiring,
    /// It lingers, and something came.
    Lingering,
    /// The server has stopped.
    Halted,
}

/// A connection that the listener took up, and how it waited.
pub struct Held<L: Link, N: Known> {
    /// The connection.
    pub conn: Conn<L, N>,
    /// What it waited for.
    pub kind: Kind,
    /// Why it lingered, where it did.
    pub cause: Option<Cause>,
    /// Whether its time is over.
    pub late: bool,
}

/// A connection that is to be taken up for that.
fn find<L: Link, N: Known>(board: &Board<L, N>, why: Due) -> Option<ConnName>
    ensures { FindsRow (is_taken_for why board.now.book.state) board.now.book.state result }
{
    match why {
        Due::Late => board.overdue(),
        Due::Retiring => board.retiring(),
        Due::Lingering => board.signalled_linger(),
        Due::Halted => board.parked(),
    }
}

/// Whether the time of the connection of that name is over.
fn is_late<L: Link, N: Known>(board: &Board<L, N>, name: ConnName) -> bool
    ensures { result
        ≡ lives_and (λ r. nat_le r.deadline board.now.book.state.moment)
        board.now.book.state.rows name }
{
    let state = board.state();
    match state.rows.live(name) {
        Some(row) => row.deadline <= state.moment,
        None => false,
    }
}

/// The connection of that name, which waits, is taken up, with the board in hand. Takes no memory.
fn take_up<L: Link, N: Known>(board: &mut Board<L, N>, name: ConnName) -> Held<L, N>
    requires passes { 0 < board.old.book.passes }
    requires free { row_in 0 board.old.book ≡ None }
    requires waits { lives_and (λ r. is_parked r.place) board.old.book.state.rows name ≡ true }
    requires allowed { is_allowed board.old.book.state (event.Hold name) ≡ true }
    ensures made { MadeEvent 0 (event.Hold name) board.old board.new }
    ensures name { result.conn.name ≡ name }
    ensures row { TookUpRow board.old.book.state board.new.book.state name result.conn result.kind
        result.cause result.late }
    ensures edition { IsOfGeneration N.known board.new.book result.conn.generation
        result.conn.reader.limits result.conn.site }
{
    board.show();
    let late = is_late(board, name);
    let cause = board.cause(name);
    let Some(kind) = board.kind(name) else {
        unreachable!()
    };
    let conn = board.hold(LISTENER, name);
    Held {
        conn,
        kind,
        cause,
        late,
    }
}

/// A connection that waits is taken up for that, where there is one. Takes no memory.
pub fn hold<R: Wait, L: Link, N: Known>(
    rt: &R,
    shared: &Shared<Board<L, N>>,
    pass: &mut Pass<Board<L, N>>,
    why: Due,
) -> Option<Held<L, N>>
    requires own { pass.old.seat.table_id ≡ shared.now.table.shared.table_id }
    requires listener { IsListener pass.old.seat.me }
    requires none { pass.old.seat.me.0.row ≡ None }
    requires halted { why ≡ due.Halted
        → is_halted (state_of pass.old.seat.me.0).going ≡ true }
    ensures own { pass.new.seat.table_id ≡ pass.old.seat.table_id }
    ensures listener { IsListener pass.new.seat.me }
    ensures some { IfSome result
        (λ held. TookUpFor why held.conn.name pass.old.seat.me.0 pass.new.seat.me.0) }
    ensures held { IfSome result
        (λ held. HoldsFor why N.known pass.new.seat.me.0 held.conn held.kind held.cause
        held.late) }
    ensures none { IfNone result (HadATurn [] pass.old.seat.me.0 pass.new.seat.me.0) }
    ensures no_row { IfNone result (pass.new.seat.me.0.row ≡ None) }
    ensures quiet { IfNone result
        (FindsRow (is_taken_for why (state_of pass.new.seat.me.0))
        (state_of pass.new.seat.me.0) None) }
{
    turns_rest_on_these();
    others_leave_the_rest_to_the_listener();
    let mut turn = shared.turn(rt, pass);
    turn.kept.show();
    let Some(name) = find(&turn.kept, why) else {
        shared.done(pass, turn);
        return None;
    };
    let held = take_up(&mut turn.kept, name);
    turn.kept.show();
    shared.done(pass, turn);
    Some(held)
}

/// The connection that the listener holds waits: for its first request, or it goes on lingering. Where the board refuses that it comes
/// back, to be closed.
pub fn park<R: Wait, L: Link, N: Known>(
    rt: &R,
    shared: &Shared<Board<L, N>>,
    pass: &mut Pass<Board<L, N>>,
    kind: Kind,
    conn: Conn<L, N>,
) -> Result<(), (BoardFault, Conn<L, N>)>
    requires own { pass.old.seat.table_id ≡ shared.now.table.shared.table_id }
    requires hand { pass.old.seat.me.1 ≡ [] }
    requires holds { Holds N.known pass.old.seat.me.0 conn }
    requires may { MayWait kind (state_of pass.old.seat.me.0) conn }
    ensures own { pass.new.seat.table_id ≡ pass.old.seat.table_id }
    ensures listener { IsListener pass.new.seat.me }
    ensures turn { OnOk result
        (HadATurn (event.Park conn.name kind ∷ []) pass.old.seat.me.0 pass.new.seat.me.0) }
    ensures none { OnOk result (pass.new.seat.me.0.row ≡ None) }
    ensures err { IfErr result (λ _. HadATurn [] pass.old.seat.me.0 pass.new.seat.me.0) }
    ensures why { IfErr result (λ e. IsRefusedFor e.0 (book_of pass.new.seat.me.0)) }
    ensures back { IfErr result (λ e. e.1 ≡ conn) }
    ensures held { IfErr result (λ e. Holds N.known pass.new.seat.me.0 e.1) }
    ensures stays { OnErr result
        (live_row (state_of pass.new.seat.me.0).rows conn.name
        ≡ live_row (state_of pass.old.seat.me.0).rows conn.name) }
{
    turns_rest_on_these();
    others_leave_the_rest_to_the_listener();
    let mut turn = shared.turn(rt, pass);
    turn.kept.show();
    turn.kept.show_editions();
    let parked = turn.kept.park(LISTENER, kind, conn);
    shared.done(pass, turn);
    parked
}

/// The connection that the listener holds, which was half-closed, lingers for the cause. Takes no memory.
pub fn linger<R: Wait, L: Link, N: Known>(
    rt: &R,
    shared: &Shared<Board<L, N>>,
    pass: &mut Pass<Board<L, N>>,
    cause: Cause,
    conn: Conn<L, N>,
)
    requires own { pass.old.seat.table_id ≡ shared.now.table.shared.table_id }
    requires hand { pass.old.seat.me.1 ≡ [] }
    requires holds { Holds N.known pass.old.seat.me.0 conn }
    requires may { IsLingerable (state_of pass.old.seat.me.0) cause conn }
    ensures own { pass.new.seat.table_id ≡ pass.old.seat.table_id }
    ensures listener { IsListener pass.new.seat.me }
    ensures turn { HadATurn (event.Linger conn.name cause ∷ []) pass.old.seat.me.0
        pass.new.seat.me.0 }
    ensures none { pass.new.seat.me.0.row ≡ None }
{
    turns_rest_on_these();
    others_leave_the_rest_to_the_listener();
    let mut turn = shared.turn(rt, pass);
    turn.kept.show();
    turn.kept.show_editions();
    turn.kept.linger(LISTENER, cause, conn);
    shared.done(pass, turn);
}

/// The connection that the listener holds ends for the cause, and its link is left so. What it leaves is made before the turn. Takes no
/// memory.
pub fn close<R: Wait, L: Link, N: Known>(
    rt: &R,
    shared: &Shared<Board<L, N>>,
    pass: &mut Pass<Board<L, N>>,
    cause: Cause,
    tail: Tail,
    conn: Conn<L, N>,
)
    requires own { pass.old.seat.table_id ≡ shared.now.table.shared.table_id }
    requires hand { pass.old.seat.me.1 ≡ [] }
    requires holds { Holds N.known pass.old.seat.me.0 conn }
    requires may { IsClosable (state_of pass.old.seat.me.0) cause tail conn }
    ensures own { pass.new.seat.table_id ≡ pass.old.seat.table_id }
    ensures listener { IsListener pass.new.seat.me }
    ensures turn { HadATurn (event.Close conn.name cause tail ∷ []) pass.old.seat.me.0
        pass.new.seat.me.0 }
    ensures none { pass.new.seat.me.0.row ≡ None }
{
    turns_rest_on_these();
    others_leave_the_rest_to_the_listener();
    let ended = conn.end(cause, tail);
    let mut turn = shared.turn(rt, pass);
    turn.kept.show();
    turn.kept.show_editions();
    turn.kept.close(LISTENER, ended);
    shared.done(pass, turn);
}
