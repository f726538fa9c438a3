//! The turns in which children start, get the credit of their workers, and are let go of.
//! Why it is so stands in docs/DECISIONS.md: 109, Turns of the listener.
ghost use Rattle.std.specs.Prelude.{◌≡◌, ◌<◌, List, [], ◌∷◌, map, false, ℕ, IfErr, IfNone, IfOk, IfSome, OnOk, None, Some, if◌then◌else◌, slice_index};
ghost use Rattle.conn_machine.specs.Sound.{IsSound};
ghost use Rattle.conn_machine.specs.Table.{is_allowed, may_retire};
ghost use Rattle.conn_machine.specs.declared.event.Entry.{Entry};
ghost use Rattle.conn_machine.specs.declared.event.Event.TheVariants as event;
ghost use Rattle.board_book.specs.Faults.{IsRefusedFor};
ghost use Rattle.board_book.specs.Finds.{startable};
ghost use Rattle.board_turns.specs.Books.{book_of, state_of};
ghost use Rattle.board_turns.specs.Turns.{HadATurn, HadTurn, IsListener, state_found};
ghost use Rattle.listener_turns.specs.Children.{AreStarted};
ghost use Rattle.listener_turns.specs.Credits.{HadCreditTurn};
ghost use Rattle.listener_turns.specs.PartsInside.{MadeEvents};

use crate::parts::may_make;
use board::{Board, BoardFault};
use board_lock::{Pass, Shared};
use board_turns::turns_rest_on_these;
use conn_machine::Event;
use conn_state::Known;
use idle_workers::credit;
use mpm_base::Link;
use std::sync::Wait;

/// The number of the pass that listens.
const LISTENER: u32 = 0;

/// The lowest child that is gone starts, while the server takes connections and fewer children run than should: which it was. The turn finds
/// that out.
pub fn start_child<R: Wait, L: Link, N: Known>(
    rt: &R,
    shared: &Shared<Board<L, N>>,
    pass: &mut Pass<Board<L, N>>,
) -> Result<Option<u32>, BoardFault>
    requires own { pass.old.seat.table_id ≡ shared.now.table.shared.table_id }
    requires listener { IsListener pass.old.seat.me }
    ensures own { pass.new.seat.table_id ≡ pass.old.seat.table_id }
    ensures listener { IsListener pass.new.seat.me }
    ensures row { pass.new.seat.me.0.row ≡ pass.old.seat.me.0.row }
    ensures some { IfOk result
        (λ o. IfSome o
        (λ child. (found : List Entry)
        × HadTurn found (event.StartChild child ∷ []) pass.old.seat.me.0 pass.new.seat.me.0
        × (startable (state_found pass.old.seat.me.0 found) ≡ Some child))) }
    ensures none { IfOk result
        (λ o. IfNone o
        (HadATurn [] pass.old.seat.me.0 pass.new.seat.me.0
        × (startable (state_of pass.new.seat.me.0) ≡ None))) }
    ensures err { IfErr result (λ _. HadATurn [] pass.old.seat.me.0 pass.new.seat.me.0) }
    ensures why { IfErr result (λ fault. IsRefusedFor fault (book_of pass.new.seat.me.0)) }
{
    turns_rest_on_these();
    let mut turn = shared.turn(rt, pass);
    turn.kept.show();
    let Some(child) = turn.kept.can_start() else {
        shared.done(pass, turn);
        return Ok(None);
    };
    let started = turn.kept.start_child(LISTENER, child);
    shared.done(pass, turn);
    match started {
        Ok(()) => Ok(Some(child)),
        Err(fault) => Err(fault),
    }
}

/// Each child starts that should run, the lowest first, all in one turn. Where the board refuses one, those before it have started.
pub fn start_children<R: Wait, L: Link, N: Known>(
    rt: &R,
    shared: &Shared<Board<L, N>>,
    pass: &mut Pass<Board<L, N>>,
) -> Result<(), BoardFault>
    requires own { pass.old.seat.table_id ≡ shared.now.table.shared.table_id }
    requires listener { IsListener pass.old.seat.me }
    ensures own { pass.new.seat.table_id ≡ pass.old.seat.table_id }
    ensures listener { IsListener pass.new.seat.me }
    ensures row { pass.new.seat.me.0.row ≡ pass.old.seat.me.0.row }
    ensures started { (children : List ℕ) × (found : List Entry)
        × HadTurn found (map event.StartChild children) pass.old.seat.me.0 pass.new.seat.me.0
        × AreStarted (state_found pass.old.seat.me.0 found) children }
    ensures all { OnOk result (startable (state_of pass.new.seat.me.0) ≡ None) }
    ensures why { IfErr result (λ fault. IsRefusedFor fault (book_of pass.new.seat.me.0)) }
{
    turns_rest_on_these();
    let mut turn = shared.turn(rt, pass);
    turn.kept.show();
    let started = start_each(&mut turn.kept);
    turn.kept.show();
    shared.done(pass, turn);
    match started {
        Ok(()) => Ok(()),
        Err(fault) => Err(fault),
    }
}

/// The same with the board in hand.
fn start_each<L: Link, N: Known>(board: &mut Board<L, N>) -> Result<(), BoardFault>
    requires passes { 0 < board.old.book.passes }
    ensures started { (children : List ℕ)
        × MadeEvents 0 (map event.StartChild children) board.old board.new
        × AreStarted board.old.book.state children }
    ensures all { OnOk result (startable board.new.book.state ≡ None) }
    ensures why { IfErr result (λ fault. IsRefusedFor fault board.new.book) }
{
    while let Some(child) = board.can_start() {
        board.show();
        board.start_child(LISTENER, child)?;
    }
    Ok(())
}

/// The child, which has none, gets the credit of its workers, of which there are as many as the turn finds: how many. One that is gone has
/// none.
pub fn credit_child<R: Wait, L: Link, N: Known>(
    rt: &R,
    shared: &Shared<Board<L, N>>,
    pass: &mut Pass<Board<L, N>>,
    child: u32,
) -> u32
    requires own { pass.old.seat.table_id ≡ shared.now.table.shared.table_id }
    requires listener { IsListener pass.old.seat.me }
    requires child { child < 32 }
    requires none { slice_index pass.old.seat.me.0.credits child ≡ 0 }
    ensures own { pass.new.seat.table_id ≡ pass.old.seat.table_id }
    ensures listener { IsListener pass.new.seat.me }
    ensures row { pass.new.seat.me.0.row ≡ pass.old.seat.me.0.row }
    ensures credited { (found : List Entry)
        × HadCreditTurn found child result pass.old.seat.me.0 pass.new.seat.me.0 }
{
    turns_rest_on_these();
    let turn = shared.turn(rt, pass);
    turn.kept.show();
    let threads = turn.kept.child(child).shape.threads;
    credit(shared, pass, child, threads);
    shared.done(pass, turn);
    threads
}

/// The child, which has no credit, is let go of, where that may be: whether it was. The turn finds that out. Takes no memory.
pub fn retire_child<R: Wait, L: Link, N: Known>(
    rt: &R,
    shared: &Shared<Board<L, N>>,
    pass: &mut Pass<Board<L, N>>,
    child: u32,
) -> bool
    requires own { pass.old.seat.table_id ≡ shared.now.table.shared.table_id }
    requires listener { IsListener pass.old.seat.me }
    requires none { slice_index pass.old.seat.me.0.credits child ≡ 0 }
    ensures own { pass.new.seat.table_id ≡ pass.old.seat.table_id }
    ensures listener { IsListener pass.new.seat.me }
    ensures row { pass.new.seat.me.0.row ≡ pass.old.seat.me.0.row }
    ensures turn { HadATurn (if result then event.Retire child ∷ [] else []) pass.old.seat.me.0
        pass.new.seat.me.0 }
    ensures stays { result ≡ false
        → is_allowed (state_of pass.new.seat.me.0) (event.Retire child) ≡ false }
{
    turns_rest_on_these();
    let mut turn = shared.turn(rt, pass);
    turn.kept.show();
    if !may_make(&turn.kept, &Event::Retire(child)) {
        shared.done(pass, turn);
        return false;
    }
    turn.kept.retire(LISTENER, child);
    shared.done(pass, turn);
    true
}

/// Each child is let go of that may be, all in one turn, where none has a credit. Takes no memory.
pub fn retire_children<R: Wait, L: Link, N: Known>(
    rt: &R,
    shared: &Shared<Board<L, N>>,
    pass: &mut Pass<Board<L, N>>,
)
    requires own { pass.old.seat.table_id ≡ shared.now.table.shared.table_id }
    requires listener { IsListener pass.old.seat.me }
    requires none { (child : ℕ) → slice_index pass.old.seat.me.0.credits child ≡ 0 }
    ensures own { pass.new.seat.table_id ≡ pass.old.seat.table_id }
    ensures listener { IsListener pass.new.seat.me }
    ensures row { pass.new.seat.me.0.row ≡ pass.old.seat.me.0.row }
    ensures turn { (children : List ℕ)
        × HadATurn (map event.Retire children) pass.old.seat.me.0 pass.new.seat.me.0 }
    ensures all { (child : ℕ) → may_retire (state_of pass.new.seat.me.0) child ≡ false }
    ensures sound { IsSound (state_of pass.new.seat.me.0) }
{
    turns_rest_on_these();
    let mut turn = shared.turn(rt, pass);
    turn.kept.show();
    retire_each(&mut turn.kept);
    turn.kept.show();
    shared.done(pass, turn);
}

/// The same with the board in hand.
fn retire_each<L: Link, N: Known>(board: &mut Board<L, N>)
    requires passes { 0 < board.old.book.passes }
    ensures retired { (children : List ℕ)
        × MadeEvents 0 (map event.Retire children) board.old board.new }
    ensures all { (child : ℕ) → may_retire board.new.book.state child ≡ false }
{
    while let Some(child) = board.can_retire() {
        board.show();
        board.retire(LISTENER, child);
    }
}
