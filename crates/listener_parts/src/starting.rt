//! How children are started, and let go of.
ghost use Rattle.std.specs.Prelude.{◌≡◌, ℕ, None, false, IfErr, OnOk};
ghost use Rattle.conn_machine.specs.Sound.{IsSound};
ghost use Rattle.conn_machine.specs.Table.{may_retire};
ghost use Rattle.board_book.specs.Faults.{IsRefusedFor};
ghost use Rattle.board_book.specs.Finds.{startable};
ghost use Rattle.board_turns.specs.Books.{book_of, state_of};
ghost use Rattle.board_turns.specs.Turns.{IsListener};
ghost use Rattle.board_book.specs.ClosedDown.{HasNoLive};
ghost use Rattle.listener_parts.specs.Did.{StandsAs};
ghost use Rattle.listener_parts.specs.Rounds.{AreCredits, NoneHasCredit, OpenedWithNone, RetiresSome, StartsAtFirst, StartsEach, StartsSome};

use crate::credits::{CHILDREN, Credits, credit_all, credit_started, take_credit_back};
use board::{Board, BoardFault};
use board_lock::{Pass, Shared};
use board_turns::turns_rest_on_these;
use conn_machine::laws_between_turns::{
    others_leave_the_rest_to_the_listener, quiet_tables_are_the_listeners,
};
use conn_state::Known;
use listener_turns::{retire_child, retire_children, start_child, start_children, take_look};
use mpm_base::Link;
use std::sync::Wait;

/// The workers of the children. No clause speaks of them.
pub trait Workers {
    /// Ends the workers of the child, whose credit was taken back, so that no connection is on its way to them. It returns once they are gone.
    fn end<R: Wait>(&mut self, rt: &R, child: u32);

    /// Ends the workers of all children, once the server has stopped: each leaves the connection that it has. It returns once they are gone.
    fn finish<R: Wait>(&mut self, rt: &R);
}

/// Starts the first children, in order of number and all in one turn, and gives each its credit.
pub fn start_first<R: Wait, L: Link, N: Known>(
    rt: &R,
    shared: &Shared<Board<L, N>>,
    pass: &mut Pass<Board<L, N>>,
    credits: &mut Credits,
) -> Result<(), BoardFault>
    requires own { pass.old.seat.table_id ≡ shared.now.table.shared.table_id }
    requires listener { IsListener pass.old.seat.me }
    requires none { pass.old.seat.me.0.row ≡ None }
    requires credits { AreCredits credits.old pass.old.seat.me.0 }
    ensures own { pass.new.seat.table_id ≡ pass.old.seat.table_id }
    ensures listener { IsListener pass.new.seat.me }
    ensures starts { StartsSome pass.old.seat.me.0 pass.new.seat.me.0 }
    ensures rest { StandsAs (state_of pass.old.seat.me.0) (state_of pass.new.seat.me.0) }
    ensures credits { AreCredits credits.new pass.new.seat.me.0 }
    ensures first { StartsAtFirst pass.old.seat.me.0 pass.new.seat.me.0 }
    ensures all { OnOk result (startable (state_of pass.new.seat.me.0) ≡ None) }
    ensures why { IfErr result (λ fault. IsRefusedFor fault (book_of pass.new.seat.me.0)) }
{
    turns_rest_on_these();
    others_leave_the_rest_to_the_listener();
    quiet_tables_are_the_listeners();
    start_children(rt, shared, pass)?;
    credit_all(rt, shared, pass, credits);
    Ok(())
}

/// Starts children, the lowest first, while fewer run than should, and gives each its credit in a turn behind its start.
pub fn start_further<R: Wait, L: Link, N: Known>(
    rt: &R,
    shared: &Shared<Board<L, N>>,
    pass: &mut Pass<Board<L, N>>,
    credits: &mut Credits,
) -> Result<(), BoardFault>
    requires own { pass.old.seat.table_id ≡ shared.now.table.shared.table_id }
    requires listener { IsListener pass.old.seat.me }
    requires none { pass.old.seat.me.0.row ≡ None }
    requires credits { AreCredits credits.old pass.old.seat.me.0 }
    ensures own { pass.new.seat.table_id ≡ pass.old.seat.table_id }
    ensures listener { IsListener pass.new.seat.me }
    ensures starts { StartsEach pass.old.seat.me.0 pass.new.seat.me.0 }
    ensures rest { StandsAs (state_of pass.old.seat.me.0) (state_of pass.new.seat.me.0) }
    ensures credits { AreCredits credits.new pass.new.seat.me.0 }
    ensures all { OnOk result (startable (state_of pass.new.seat.me.0) ≡ None) }
    ensures why { IfErr result (λ fault. IsRefusedFor fault (book_of pass.new.seat.me.0)) }
{
    turns_rest_on_these();
    others_leave_the_rest_to_the_listener();
    for _ in rt.forever() {
        let Some(child) = start_child(rt, shared, pass)? else {
            return Ok(());
        };
        credit_started(rt, shared, pass, credits, child);
    }
    unreachable!()
}

/// Lets go of each child that stops and has no live connection, the lowest first, in a turn behind the end of its workers. It stops at the
/// first of which a permit is out: that one stays for the next round.
pub fn retire_all<R: Wait, L: Link, N: Known, W: Workers>(
    rt: &R,
    shared: &Shared<Board<L, N>>,
    pass: &mut Pass<Board<L, N>>,
    credits: &mut Credits,
    workers: &mut W,
)
    requires own { pass.old.seat.table_id ≡ shared.now.table.shared.table_id }
    requires listener { IsListener pass.old.seat.me }
    requires none { pass.old.seat.me.0.row ≡ None }
    requires credits { AreCredits credits.old pass.old.seat.me.0 }
    ensures own { pass.new.seat.table_id ≡ pass.old.seat.table_id }
    ensures listener { IsListener pass.new.seat.me }
    ensures retires { RetiresSome pass.old.seat.me.0 pass.new.seat.me.0 }
    ensures rest { StandsAs (state_of pass.old.seat.me.0) (state_of pass.new.seat.me.0) }
    ensures credits { AreCredits credits.new pass.new.seat.me.0 }
{
    turns_rest_on_these();
    others_leave_the_rest_to_the_listener();
    for _ in rt.forever() {
        if !retire_one(rt, shared, pass, credits, workers) {
            return;
        }
    }
    unreachable!()
}

/// Lets go of the lowest of them: whether it may have been let go of, so that there may be a further one.
fn retire_one<R: Wait, L: Link, N: Known, W: Workers>(
    rt: &R,
    shared: &Shared<Board<L, N>>,
    pass: &mut Pass<Board<L, N>>,
    credits: &mut Credits,
    workers: &mut W,
) -> bool
    requires own { pass.old.seat.table_id ≡ shared.now.table.shared.table_id }
    requires listener { IsListener pass.old.seat.me }
    requires none { pass.old.seat.me.0.row ≡ None }
    requires credits { AreCredits credits.old pass.old.seat.me.0 }
    ensures own { pass.new.seat.table_id ≡ pass.old.seat.table_id }
    ensures listener { IsListener pass.new.seat.me }
    ensures retires { RetiresSome pass.old.seat.me.0 pass.new.seat.me.0 }
    ensures rest { StandsAs (state_of pass.old.seat.me.0) (state_of pass.new.seat.me.0) }
    ensures credits { AreCredits credits.new pass.new.seat.me.0 }
{
    turns_rest_on_these();
    others_leave_the_rest_to_the_listener();
    let look = take_look(rt, shared, pass);
    let Some(child) = look.retires else {
        return false;
    };
    if child >= CHILDREN {
        return false;
    }
    if !take_credit_back(shared, pass, credits, child) {
        return false;
    }
    workers.end(rt, child);
    retire_child(rt, shared, pass, child)
}

/// Lets go of each child that stops and has no live connection, all in one turn, where none has a credit any more, and the workers of each
/// are gone. Where no connection is live none is then. Takes no memory.
pub fn retire_rest<R: Wait, L: Link, N: Known>(
    rt: &R,
    shared: &Shared<Board<L, N>>,
    pass: &mut Pass<Board<L, N>>,
    credits: &Credits,
)
    requires own { pass.old.seat.table_id ≡ shared.now.table.shared.table_id }
    requires listener { IsListener pass.old.seat.me }
    requires none { pass.old.seat.me.0.row ≡ None }
    requires credits { AreCredits credits.now pass.old.seat.me.0 }
    requires taken_back { NoneHasCredit credits.now }
    ensures own { pass.new.seat.table_id ≡ pass.old.seat.table_id }
    ensures listener { IsListener pass.new.seat.me }
    ensures retires { RetiresSome pass.old.seat.me.0 pass.new.seat.me.0 }
    ensures rest { StandsAs (state_of pass.old.seat.me.0) (state_of pass.new.seat.me.0) }
    ensures credits { AreCredits credits.now pass.new.seat.me.0 }
    ensures all { (child : ℕ) → may_retire (state_of pass.new.seat.me.0) child ≡ false }
    ensures sound { IsSound (state_of pass.new.seat.me.0) }
    ensures live { OpenedWithNone pass.old.seat.me.0
        → HasNoLive (state_of pass.old.seat.me.0)
        → HasNoLive (state_of pass.new.seat.me.0) }
{
    turns_rest_on_these();
    others_leave_the_rest_to_the_listener();
    quiet_tables_are_the_listeners();
    retire_children(rt, shared, pass);
}
