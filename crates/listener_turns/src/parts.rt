//! The turns of the listener's further parts: time passes, slots are signalled, orders are done, the server stops, and the history is folded.
//! Why it is so stands in docs/DECISIONS.md: 109, Turns of the listener.
ghost use Rattle.std.specs.Prelude.{◌≡◌, ◌<◌, [], ◌∷◌, ◌++◌, ℕ, List, true, false, length, IfErr, IfOk, OnErr, OnOk, if◌then◌else◌};
ghost use Rattle.conn_machine.specs.States.{is_halted};
ghost use Rattle.conn_machine.specs.Table.{is_allowed};
ghost use Rattle.conn_machine.specs.declared.event.Commanded.TheVariants.{Stop};
ghost use Rattle.conn_machine.specs.declared.event.Event.TheVariants as event;
ghost use Rattle.board_book.specs.Faults.{IsRefusedFor};
ghost use Rattle.board_turns.specs.Books.{book_of, state_of};
ghost use Rattle.board_turns.specs.Turns.{HadATurn, HadQuietTurn, IsListener, KeepsLeft};
ghost use Rattle.listener_turns.specs.Folds.{FoldsWhereDue};
ghost use Rattle.listener_turns.specs.Looks.{lets_go_on};
ghost use Rattle.listener_turns.specs.PartsInside.{MadeEvents};
ghost use Rattle.listener_turns.specs.Signals.{SignalsAll, SignalsFirst, ready_events};

use board::laws::ended_connections_join;
use board::{Board, BoardFault};
use board_lock::{Pass, Shared};
use board_turns::turns_rest_on_these;
use conn_machine::laws_between_turns::others_leave_the_rest_to_the_listener;
use conn_machine::{Commanded, Event, Why, may};
use conn_state::Known;
use mpm_base::{Link, Moment, NoMemory};
use std::sync::Wait;

/// The number of the pass that listens.
const LISTENER: u32 = 0;

/// Whether the event is allowed.
pub(crate) fn may_make<L: Link, N: Known>(board: &Board<L, N>, event: &Event) -> bool
    ensures { result ≡ is_allowed board.now.book.state event.now }
{
    board.show();
    may(board.state(), event)
}

/// Time passes to the moment, where it is later than the present one, no connection is late, and the server has not stopped: whether it did.
/// The turn finds all of that out.
pub fn pass_time<R: Wait, L: Link, N: Known>(
    rt: &R,
    shared: &Shared<Board<L, N>>,
    pass: &mut Pass<Board<L, N>>,
    moment: Moment,
) -> Result<bool, BoardFault>
    requires own { pass.old.seat.table_id ≡ shared.now.table.shared.table_id }
    requires listener { IsListener pass.old.seat.me }
    ensures own { pass.new.seat.table_id ≡ pass.old.seat.table_id }
    ensures listener { IsListener pass.new.seat.me }
    ensures row { pass.new.seat.me.0.row ≡ pass.old.seat.me.0.row }
    ensures turn { IfOk result
        (λ passed. HadATurn (if passed then event.Tick moment ∷ [] else [])
        pass.old.seat.me.0 pass.new.seat.me.0) }
    ensures stays { IfOk result
        (λ passed. passed ≡ false
        → is_allowed (state_of pass.new.seat.me.0) (event.Tick moment) ≡ false) }
    ensures err { IfErr result (λ _. HadATurn [] pass.old.seat.me.0 pass.new.seat.me.0) }
    ensures why { IfErr result (λ fault. IsRefusedFor fault (book_of pass.new.seat.me.0)) }
{
    turns_rest_on_these();
    let mut turn = shared.turn(rt, pass);
    turn.kept.show();
    if !may_make(&turn.kept, &Event::Tick(moment)) {
        shared.done(pass, turn);
        return Ok(false);
    }
    let ticked = turn.kept.tick(LISTENER, moment);
    shared.done(pass, turn);
    match ticked {
        Ok(()) => Ok(true),
        Err(fault) => Err(fault),
    }
}

/// Something may have come for each of the slots that the table has, all in one turn. Where the board refuses one, those before it are
/// signalled.
pub fn signal_all<R: Wait, L: Link, N: Known>(
    rt: &R,
    shared: &Shared<Board<L, N>>,
    pass: &mut Pass<Board<L, N>>,
    slots: &[u32],
) -> Result<(), BoardFault>
    requires own { pass.old.seat.table_id ≡ shared.now.table.shared.table_id }
    requires listener { IsListener pass.old.seat.me }
    ensures own { pass.new.seat.table_id ≡ pass.old.seat.table_id }
    ensures listener { IsListener pass.new.seat.me }
    ensures row { pass.new.seat.me.0.row ≡ pass.old.seat.me.0.row }
    ensures all { OnOk result
        (SignalsAll slots.now pass.old.seat.me.0 pass.new.seat.me.0) }
    ensures first { OnErr result
        (SignalsFirst slots.now pass.old.seat.me.0 pass.new.seat.me.0) }
    ensures why { IfErr result (λ fault. IsRefusedFor fault (book_of pass.new.seat.me.0)) }
{
    turns_rest_on_these();
    let mut turn = shared.turn(rt, pass);
    turn.kept.show();
    let signalled = signal_each(&mut turn.kept, slots);
    turn.kept.show();
    shared.done(pass, turn);
    match signalled {
        Ok(()) => Ok(()),
        Err(fault) => Err(fault),
    }
}

/// The same with the board in hand.
fn signal_each<L: Link, N: Known>(board: &mut Board<L, N>, slots: &[u32]) -> Result<(), BoardFault>
    requires passes { 0 < board.old.book.passes }
    ensures all { OnOk result
        (MadeEvents 0 (ready_events (length board.old.book.state.rows) slots.now) board.old
        board.new) }
    ensures first { OnErr result
        ((first : List ℕ) × (slot : ℕ) × (rest : List ℕ) × (slots.now ≡ first ++ slot ∷ rest)
        × MadeEvents 0 (ready_events (length board.old.book.state.rows) first) board.old
        board.new) }
    ensures rows { board.new.book.state.rows ≡ board.old.book.state.rows }
    ensures why { IfErr result (λ fault. IsRefusedFor fault board.new.book) }
{
    for slot in slots {
        signal(board, *slot)?;
    }
    Ok(())
}

/// The slot is signalled, where the table has it.
fn signal<L: Link, N: Known>(board: &mut Board<L, N>, slot: u32) -> Result<(), BoardFault>
    requires passes { 0 < board.old.book.passes }
    ensures signals { OnOk result
        (MadeEvents 0 (ready_events (length board.old.book.state.rows) (slot ∷ [])) board.old
        board.new) }
    ensures rows { board.new.book.state.rows ≡ board.old.book.state.rows }
    ensures why { IfErr result (λ fault. IsRefusedFor fault board.old.book) }
    ensures err { OnErr result (board.new ≡ board.old) }
{
    board.show();
    if slot as usize >= board.state().rows.len() {
        return Ok(());
    }
    match board.ready(LISTENER, slot) {
        Ok(()) => Ok(()),
        Err(fault) => Err(fault),
    }
}

/// The order is done: a generation begins, or a restart is refused, or no connection is taken any more.
pub fn command<R: Wait, L: Link, N: Known>(
    rt: &R,
    shared: &Shared<Board<L, N>>,
    pass: &mut Pass<Board<L, N>>,
    order: Commanded,
) -> Result<(), BoardFault>
    requires own { pass.old.seat.table_id ≡ shared.now.table.shared.table_id }
    requires listener { IsListener pass.old.seat.me }
    requires allowed { is_halted (state_of pass.old.seat.me.0).going ≡ false
        → is_allowed (state_of pass.old.seat.me.0) (event.Command order) ≡ true }
    requires goes_on { lets_go_on order ≡ true }
    ensures own { pass.new.seat.table_id ≡ pass.old.seat.table_id }
    ensures listener { IsListener pass.new.seat.me }
    ensures row { pass.new.seat.me.0.row ≡ pass.old.seat.me.0.row }
    ensures turn { OnOk result
        (HadATurn (event.Command order ∷ []) pass.old.seat.me.0 pass.new.seat.me.0) }
    ensures err { IfErr result (λ _. HadATurn [] pass.old.seat.me.0 pass.new.seat.me.0) }
    ensures why { IfErr result (λ fault. IsRefusedFor fault (book_of pass.new.seat.me.0)) }
{
    turns_rest_on_these();
    others_leave_the_rest_to_the_listener();
    let mut turn = shared.turn(rt, pass);
    turn.kept.show();
    let ordered = turn.kept.command(LISTENER, order);
    shared.done(pass, turn);
    match ordered {
        Ok(()) => Ok(()),
        Err(fault) => Err(fault),
    }
}

/// The server stops for that, where it may: whether it did. The turn finds that out. Takes no memory.
pub fn halt<R: Wait, L: Link, N: Known>(
    rt: &R,
    shared: &Shared<Board<L, N>>,
    pass: &mut Pass<Board<L, N>>,
    why: Why,
) -> bool
    requires own { pass.old.seat.table_id ≡ shared.now.table.shared.table_id }
    requires listener { IsListener pass.old.seat.me }
    ensures own { pass.new.seat.table_id ≡ pass.old.seat.table_id }
    ensures listener { IsListener pass.new.seat.me }
    ensures row { pass.new.seat.me.0.row ≡ pass.old.seat.me.0.row }
    ensures turn { HadATurn (if result then event.Command (Stop why) ∷ [] else [])
        pass.old.seat.me.0 pass.new.seat.me.0 }
    ensures stays { result ≡ false
        → is_allowed (state_of pass.new.seat.me.0) (event.Command (Stop why)) ≡ false }
{
    turns_rest_on_these();
    let mut turn = shared.turn(rt, pass);
    turn.kept.show();
    if !may_make(&turn.kept, &Event::Command(Commanded::Stop(why))) {
        shared.done(pass, turn);
        return false;
    }
    turn.kept.halt(LISTENER, why);
    shared.done(pass, turn);
    true
}

/// The history is folded, where that may be: whether it was. It makes no difference to what was seen, and goes while others have
/// connections in hand.
pub fn fold<R: Wait, L: Link, N: Known>(
    rt: &R,
    shared: &Shared<Board<L, N>>,
    pass: &mut Pass<Board<L, N>>,
) -> Result<bool, NoMemory>
    requires own { pass.old.seat.table_id ≡ shared.now.table.shared.table_id }
    requires listener { IsListener pass.old.seat.me }
    ensures own { pass.new.seat.table_id ≡ pass.old.seat.table_id }
    ensures listener { IsListener pass.new.seat.me }
    ensures row { pass.new.seat.me.0.row ≡ pass.old.seat.me.0.row }
    ensures turn { HadQuietTurn pass.new.seat.me.0.seen pass.old.seat.me.0 pass.new.seat.me.0 }
    ensures folds { IfOk result
        (λ folded. FoldsWhereDue N.known folded pass.old.seat.me.0 pass.new.seat.me.0) }
    ensures err { IfErr result (λ _. KeepsLeft pass.old.seat.me.0 pass.new.seat.me.0) }
{
    turns_rest_on_these();
    ended_connections_join();
    let mut turn = shared.turn(rt, pass);
    turn.kept.show();
    if !turn.kept.can_fold() {
        shared.done(pass, turn);
        return Ok(false);
    }
    let folded = turn.kept.fold();
    shared.done(pass, turn);
    match folded {
        Ok(()) => Ok(true),
        Err(NoMemory) => Err(NoMemory),
    }
}
