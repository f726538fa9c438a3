//! A board under the lock: two passes take turns with it, on one thread.
ghost use Rattle.std.specs.Prelude.{◌≡◌, ℕ, true, IfOk, IfSome, Some, slice_get};
ghost use Rattle.board_lock.specs.Passes.{HasNoTurn};
ghost use Rattle.conn_machine.specs.Table.{is_allowed};
ghost use Rattle.conn_machine.specs.declared.event.Event.TheVariants as event;

use crate::seen::ScriptBoard;
use board::Board;
use board_lock::{Pass, Shared, number};
use conn_machine::{Entry, Event, Reply, may};
use mpm_base::{NoMemory, Shape};
use std::alloc::Global;
use std::sync::Wait;
use table_rule::laws::values_stand_for_whole_histories;
use test_rows::Sheet;

const SHAPE: Shape = Shape {
    threads: 2,
    factor: 200,
    read_ms: 60_000,
    keep_ms: 5_000,
    keep: true,
    most: 100,
    target: 1,
    children: 2,
    whole_ms: 0,
};

/// A lock with a board without connections, and its two passes.
fn opened(alloc: Global) -> Result<(Shared<ScriptBoard>, Vec<Pass<ScriptBoard>>), NoMemory>
    ensures own { IfOk result (λ made. (p : ℕ) (pass : _) → slice_get made.1.items p ≡ Some pass → pass.seat.table_id ≡ made.0.table.shared.table_id) }
    ensures free { IfOk result (λ made. (p : ℕ) (pass : _) → slice_get made.1.items p ≡ Some pass → HasNoTurn pass.seat.me) }
{
    let board = Board::make(alloc, 1, 2, 2, SHAPE)?;
    match Shared::make(alloc, board, 2) {
        Ok(made) => Ok(made),
        Err((fault, _)) => Err(fault),
    }
}

/// The last of the passes.
fn last_of(
    shared: &Shared<ScriptBoard>,
    passes: &mut Vec<Pass<ScriptBoard>>,
) -> Option<Pass<ScriptBoard>>
    requires own { (p : ℕ) (pass : _) → slice_get passes.old.items p ≡ Some pass → pass.seat.table_id ≡ shared.now.table.shared.table_id }
    requires free { (p : ℕ) (pass : _) → slice_get passes.old.items p ≡ Some pass → HasNoTurn pass.seat.me }
    ensures own { (p : ℕ) (pass : _) → slice_get passes.new.items p ≡ Some pass → pass.seat.table_id ≡ shared.now.table.shared.table_id }
    ensures free { (p : ℕ) (pass : _) → slice_get passes.new.items p ≡ Some pass → HasNoTurn pass.seat.me }
    ensures last { IfSome result (λ pass. pass.seat.table_id ≡ shared.now.table.shared.table_id) }
    ensures last_free { IfSome result (λ pass. HasNoTurn pass.seat.me) }
{
    passes.pop()
}

/// Whether the start of child 0 is allowed.
fn may_start(board: &ScriptBoard) -> bool
    ensures { result ≡ is_allowed board.now.book.state (event.StartChild 0) }
{
    board.show();
    may(board.state(), &Event::StartChild(0))
}

/// A turn of pass 0 that starts child 0. Whether it did.
fn starts<R: Wait>(rt: &R, shared: &Shared<ScriptBoard>, pass: &mut Pass<ScriptBoard>) -> bool
    requires own { pass.old.seat.table_id ≡ shared.now.table.shared.table_id }
    requires free { HasNoTurn pass.old.seat.me }
    requires number { pass.old.seat.me.0.who.number ≡ 0 }
    ensures own { pass.new.seat.table_id ≡ pass.old.seat.table_id }
    ensures free { HasNoTurn pass.new.seat.me }
{
    values_stand_for_whole_histories();
    let mut turn = shared.turn(rt, pass);
    if !may_start(&turn.kept) {
        shared.done(pass, turn);
        return false;
    }
    let started = turn.kept.start_child(0, 0);
    shared.done(pass, turn);
    started.is_ok()
}

/// A turn without an entry. Whether it finds the one entry of pass 0.
fn finds<R: Wait>(rt: &R, shared: &Shared<ScriptBoard>, pass: &mut Pass<ScriptBoard>) -> bool
    requires own { pass.old.seat.table_id ≡ shared.now.table.shared.table_id }
    requires free { HasNoTurn pass.old.seat.me }
    ensures own { pass.new.seat.table_id ≡ pass.old.seat.table_id }
    ensures free { HasNoTurn pass.new.seat.me }
{
    let turn = shared.turn(rt, pass);
    let found = is_start(turn.kept.history());
    shared.done(pass, turn);
    found
}

/// Whether the history is the start of child 0 alone, by pass 0.
fn is_start(history: &[Entry]) -> bool {
    let start = Entry {
        pass: 0,
        ordinal: 0,
        event: Event::StartChild(0),
        reply: Reply::Done,
    };
    match history {
        [entry] => *entry == start,
        _ => false,
    }
}

/// Shows what both passes find behind the entry of pass 0.
pub fn show_passes<R: Wait>(sheet: &mut Sheet, rt: &R, alloc: Global) -> Result<(), NoMemory> {
    let (shared, mut passes) = opened(alloc)?;
    match take_turns(rt, &shared, &mut passes) {
        Some((started, one, zero)) => println!(sheet;
            "pass 0 starts the child => {started}\npass 1 finds it => {one}, pass 0 finds it => {zero}"
        ),
        None => sheet.println("a pass is missing"),
    }
    Ok(())
}

/// Pass 0 starts a child: whether it did, and whether pass 1 and pass 0 find that.
fn take_turns<R: Wait>(
    rt: &R,
    shared: &Shared<ScriptBoard>,
    passes: &mut Vec<Pass<ScriptBoard>>,
) -> Option<(bool, bool, bool)>
    requires own { (p : ℕ) (pass : _)
        → slice_get passes.old.items p ≡ Some pass
        → pass.seat.table_id ≡ shared.now.table.shared.table_id }
    requires free { (p : ℕ) (pass : _)
        → slice_get passes.old.items p ≡ Some pass
        → HasNoTurn pass.seat.me }
{
    let mut one = last_of(shared, passes)?;
    let mut zero = last_of(shared, passes)?;
    look_by_turns(rt, shared, &mut one, &mut zero)
}

/// The same of these passes, where they are those two.
fn look_by_turns<R: Wait>(
    rt: &R,
    shared: &Shared<ScriptBoard>,
    one: &mut Pass<ScriptBoard>,
    zero: &mut Pass<ScriptBoard>,
) -> Option<(bool, bool, bool)>
    requires own { one.old.seat.table_id ≡ shared.now.table.shared.table_id }
    requires free { HasNoTurn one.old.seat.me }
    requires zero_own { zero.old.seat.table_id ≡ shared.now.table.shared.table_id }
    requires zero_free { HasNoTurn zero.old.seat.me }
{
    if number(one) != 1 || number(zero) != 0 {
        return None;
    }
    let started = starts(rt, shared, zero);
    let found_by_one = finds(rt, shared, one);
    let found_by_zero = finds(rt, shared, zero);
    Some((started, found_by_one, found_by_zero))
}
