//! How the server stops, and how connections that wait are closed behind that.
//! Why it is so stands in docs/DECISIONS.md: 140, Parts of the listener's round.
ghost use Rattle.std.specs.Prelude.{◌≡◌, [], None, Some, true, false, if◌then◌else◌};
ghost use Rattle.conn_machine.specs.States.{is_halted};
ghost use Rattle.conn_machine.specs.Table.{is_allowed};
ghost use Rattle.conn_machine.specs.declared.event.Commanded.TheVariants.{Stop};
ghost use Rattle.conn_machine.specs.declared.event.Event.TheVariants as event;
ghost use Rattle.conn_machine.specs.declared.state.Going.TheVariants.{Halted};
ghost use Rattle.board_book.specs.Finds.{FindsRow};
ghost use Rattle.board_turns.specs.Books.{state_of};
ghost use Rattle.board_turns.specs.Turns.{IsListener};
ghost use Rattle.listener_turns.specs.Holds.{is_taken_for};
ghost use Rattle.listener_turns.specs.declared.held.Due.TheVariants as due;
ghost use Rattle.listener_parts.specs.Closing.{ClosesDown, IsHaltedWay, IsOwnReason, halts_for};
ghost use Rattle.board_book.specs.ClosedDown.{HasNoLive, IsClosedDown};
ghost use Rattle.listener_parts.specs.Did.{Did, LeavesAlone, StandsAs};
ghost use Rattle.listener_parts.specs.Letting.{LetsGo, LetsOneGo};
ghost use Rattle.listener_parts.specs.Rounds.{AreCredits, NoneHasCredit, OpenedWithNone};

use crate::credits::{Credits, take_all_credits_back};
use crate::starting::{Workers, retire_rest};
use board::Board;
use board_lock::{Pass, Shared};
use board_turns::turns_rest_on_these;
use conn_machine::Why;
use conn_machine::laws_between_turns::{
    others_leave_the_rest_to_the_listener, quiet_tables_are_the_listeners,
};
use conn_state::Known;
use listener_turns::{Due, Held, close, halt, hold, take_look};
use mpm_base::{Cause, Link, Tail};
use std::sync::Wait;
use worker_group::laws::connections_in_hand_may_be_closed;

/// Stops the server for that, where it may stop: whether it did. It always does where it might for what the pass had seen, but for
/// the end of its front, for which no connection may be live: that is seen in the turn. Where none is live of what the pass had seen, nobody
/// else adds an entry, so it does for the end of its front too. Takes no memory.
pub fn stop<R: Wait, L: Link, N: Known>(
    rt: &R,
    shared: &Shared<Board<L, N>>,
    pass: &mut Pass<Board<L, N>>,
    why: Why,
) -> bool
    requires own { pass.old.seat.table_id ≡ shared.now.table.shared.table_id }
    requires listener { IsListener pass.old.seat.me }
    requires none { pass.old.seat.me.0.row ≡ None }
    ensures own { pass.new.seat.table_id ≡ pass.old.seat.table_id }
    ensures listener { IsListener pass.new.seat.me }
    ensures did { Did (if result then halts_for (Some why) else []) None pass.old.seat.me.0
        pass.new.seat.me.0 }
    ensures credits { pass.new.seat.me.0.credits ≡ pass.old.seat.me.0.credits }
    ensures going { result ≡ true → (state_of pass.new.seat.me.0).going ≡ Halted why }
    ensures moment { (state_of pass.new.seat.me.0).moment
        ≡ (state_of pass.old.seat.me.0).moment }
    ensures accepted { (state_of pass.new.seat.me.0).accepted
        ≡ (state_of pass.old.seat.me.0).accepted }
    ensures stays { result ≡ false
        → LeavesAlone (state_of pass.old.seat.me.0) (state_of pass.new.seat.me.0) }
    ensures refused { result ≡ false
        → is_allowed (state_of pass.new.seat.me.0) (event.Command (Stop why)) ≡ false }
    ensures may { IsOwnReason why
        → is_allowed (state_of pass.old.seat.me.0) (event.Command (Stop why)) ≡ true
        → result ≡ true }
    ensures alone { OpenedWithNone pass.old.seat.me.0
        → HasNoLive (state_of pass.old.seat.me.0)
        → is_allowed (state_of pass.old.seat.me.0) (event.Command (Stop why)) ≡ true
        → result ≡ true }
{
    turns_rest_on_these();
    others_leave_the_rest_to_the_listener();
    quiet_tables_are_the_listeners();
    halt(rt, shared, pass, why)
}

/// Closes each connection that waits, once the server has stopped. Those that are out are for a further call, when they came back. Takes no
/// memory.
pub fn close_waiting<R: Wait, L: Link, N: Known>(
    rt: &R,
    shared: &Shared<Board<L, N>>,
    pass: &mut Pass<Board<L, N>>,
)
    requires own { pass.old.seat.table_id ≡ shared.now.table.shared.table_id }
    requires listener { IsListener pass.old.seat.me }
    requires none { pass.old.seat.me.0.row ≡ None }
    requires halted { is_halted (state_of pass.old.seat.me.0).going ≡ true }
    ensures own { pass.new.seat.table_id ≡ pass.old.seat.table_id }
    ensures listener { IsListener pass.new.seat.me }
    ensures gone { LetsGo IsHaltedWay pass.old.seat.me.0 pass.new.seat.me.0 }
    ensures credits { pass.new.seat.me.0.credits ≡ pass.old.seat.me.0.credits }
    ensures rest { LeavesAlone (state_of pass.old.seat.me.0) (state_of pass.new.seat.me.0) }
    ensures quiet { FindsRow (is_taken_for due.Halted (state_of pass.new.seat.me.0))
        (state_of pass.new.seat.me.0) None }
{
    turns_rest_on_these();
    others_leave_the_rest_to_the_listener();
    for _ in rt.forever() {
        if !close_one(rt, shared, pass) {
            return;
        }
    }
    unreachable!()
}

/// Closes one of them: whether there was one. One that lingers is closed for its cause, and another one as stopped.
fn close_one<R: Wait, L: Link, N: Known>(
    rt: &R,
    shared: &Shared<Board<L, N>>,
    pass: &mut Pass<Board<L, N>>,
) -> bool
    requires own { pass.old.seat.table_id ≡ shared.now.table.shared.table_id }
    requires listener { IsListener pass.old.seat.me }
    requires none { pass.old.seat.me.0.row ≡ None }
    requires halted { is_halted (state_of pass.old.seat.me.0).going ≡ true }
    ensures own { pass.new.seat.table_id ≡ pass.old.seat.table_id }
    ensures listener { IsListener pass.new.seat.me }
    ensures one { result ≡ true
        → LetsOneGo IsHaltedWay pass.old.seat.me.0 pass.new.seat.me.0 }
    ensures none { result ≡ false → Did [] None pass.old.seat.me.0 pass.new.seat.me.0 }
    ensures credits { pass.new.seat.me.0.credits ≡ pass.old.seat.me.0.credits }
    ensures rest { LeavesAlone (state_of pass.old.seat.me.0) (state_of pass.new.seat.me.0) }
    ensures quiet { result ≡ false
        → FindsRow (is_taken_for due.Halted (state_of pass.new.seat.me.0))
        (state_of pass.new.seat.me.0) None }
{
    turns_rest_on_these();
    others_leave_the_rest_to_the_listener();
    connections_in_hand_may_be_closed();
    let Some(held) = hold(rt, shared, pass, Due::Halted) else {
        return false;
    };
    let Held {
        conn,
        kind: _,
        cause,
        late: _,
    } = held;
    match cause {
        Some(cause) => close(rt, shared, pass, cause, Tail::Halted, conn),
        None => close(rt, shared, pass, Cause::Stopped, Tail::Direct, conn),
    }
    true
}

/// Closes each connection that waits, until none is live: the workers are gone, so none of them has one any more. Takes no memory.
fn close_rest<R: Wait, L: Link, N: Known>(
    rt: &R,
    shared: &Shared<Board<L, N>>,
    pass: &mut Pass<Board<L, N>>,
)
    requires own { pass.old.seat.table_id ≡ shared.now.table.shared.table_id }
    requires listener { IsListener pass.old.seat.me }
    requires none { pass.old.seat.me.0.row ≡ None }
    requires halted { is_halted (state_of pass.old.seat.me.0).going ≡ true }
    ensures own { pass.new.seat.table_id ≡ pass.old.seat.table_id }
    ensures listener { IsListener pass.new.seat.me }
    ensures gone { LetsGo IsHaltedWay pass.old.seat.me.0 pass.new.seat.me.0 }
    ensures credits { pass.new.seat.me.0.credits ≡ pass.old.seat.me.0.credits }
    ensures rest { LeavesAlone (state_of pass.old.seat.me.0) (state_of pass.new.seat.me.0) }
    ensures live { HasNoLive (state_of pass.new.seat.me.0) }
{
    turns_rest_on_these();
    others_leave_the_rest_to_the_listener();
    for _ in rt.forever() {
        close_waiting(rt, shared, pass);
        let look = take_look(rt, shared, pass);
        if !look.live {
            return;
        }
    }
    unreachable!()
}

/// Goes down behind a stop: each connection that waits is closed, the workers of all children come back and end, what they left waiting is
/// closed, the credits are taken back, and each child is let go of: then no connection is live, and each child is gone. Takes no memory.
pub fn close_down<R: Wait, L: Link, N: Known, W: Workers>(
    rt: &R,
    shared: &Shared<Board<L, N>>,
    pass: &mut Pass<Board<L, N>>,
    credits: &mut Credits,
    workers: &mut W,
)
    requires own { pass.old.seat.table_id ≡ shared.now.table.shared.table_id }
    requires listener { IsListener pass.old.seat.me }
    requires none { pass.old.seat.me.0.row ≡ None }
    requires credits { AreCredits credits.old pass.old.seat.me.0 }
    requires halted { is_halted (state_of pass.old.seat.me.0).going ≡ true }
    requires opened { OpenedWithNone pass.old.seat.me.0 }
    ensures own { pass.new.seat.table_id ≡ pass.old.seat.table_id }
    ensures listener { IsListener pass.new.seat.me }
    ensures down { ClosesDown pass.old.seat.me.0 pass.new.seat.me.0 }
    ensures credits { AreCredits credits.new pass.new.seat.me.0 }
    ensures rest { StandsAs (state_of pass.old.seat.me.0) (state_of pass.new.seat.me.0) }
    ensures closed { IsClosedDown (state_of pass.new.seat.me.0) }
{
    close_waiting(rt, shared, pass);
    workers.finish(rt);
    close_rest(rt, shared, pass);
    take_credits_back_at_last(rt, shared, pass, credits);
    retire_rest(rt, shared, pass, &*credits);
}

/// The credit of each child is taken back, once no permit is out any more.
fn take_credits_back_at_last<R: Wait, L: Link, N: Known>(
    rt: &R,
    shared: &Shared<Board<L, N>>,
    pass: &mut Pass<Board<L, N>>,
    credits: &mut Credits,
)
    requires own { pass.old.seat.table_id ≡ shared.now.table.shared.table_id }
    requires listener { IsListener pass.old.seat.me }
    requires none { pass.old.seat.me.0.row ≡ None }
    requires credits { AreCredits credits.old pass.old.seat.me.0 }
    ensures own { pass.new.seat.table_id ≡ pass.old.seat.table_id }
    ensures listener { IsListener pass.new.seat.me }
    ensures did { Did [] None pass.old.seat.me.0 pass.new.seat.me.0 }
    ensures seen { pass.new.seat.me.0.seen ≡ pass.old.seat.me.0.seen }
    ensures credits { AreCredits credits.new pass.new.seat.me.0 }
    ensures taken_back { NoneHasCredit credits.new }
{
    for _ in rt.forever() {
        if take_all_credits_back(shared, pass, credits) {
            return;
        }
    }
    unreachable!()
}
