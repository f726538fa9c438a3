//! How time passes, slots are signalled, and connections are let go of behind that.
//! Why it is so stands in docs/DECISIONS.md: 140, Parts of the listener's round.
ghost use Rattle.std.specs.Prelude.{◌≡◌, None, max, IfErr, OnErr, OnOk};
ghost use Rattle.board_book.specs.Faults.{IsRefusedFor};
ghost use Rattle.board_turns.specs.Books.{book_of, state_of};
ghost use Rattle.board_turns.specs.Carries.{Lasts};
ghost use Rattle.board_turns.specs.Turns.{IsListener};
ghost use Rattle.listener_parts.specs.Did.{LeavesAlone};
ghost use Rattle.listener_parts.specs.Letting.{IsLateWay, LetsGo, LetsGoOfConns, LetsGoUntil};
ghost use Rattle.listener_parts.specs.Rounds.{IsRestedFor, PassesTime, Signals, SignalsSome, TicksAtOnce, TicksTo};
ghost use Rattle.board_book.specs.Moments.{moment_for};

use crate::draining::drain_all;
use crate::letting::{let_go_late, let_go_retiring};
use board::{Board, BoardFault};
use board_lock::{Pass, Shared};
use board_turns::turns_rest_on_these;
use conn_machine::laws_between_turns::{
    others_leave_the_rest_to_the_listener, quiet_tables_are_the_listeners,
};
use conn_state::Known;
use listener_turns::{pass_time, signal_all};
use mpm_base::{GREATEST_MOMENT, Link, Moment};
use std::sync::Wait;

/// Lets time pass to the moment, where it is later than the present one, which nobody but the listener changes. Connections that are late are
/// let go of before, and once more behind that.
pub fn let_time_pass<R: Wait, L: Link, N: Known>(
    rt: &R,
    shared: &Shared<Board<L, N>>,
    pass: &mut Pass<Board<L, N>>,
    present: Moment,
    moment: Moment,
) -> Result<(), BoardFault>
    requires own { pass.old.seat.table_id ≡ shared.now.table.shared.table_id }
    requires listener { IsListener pass.old.seat.me }
    requires none { pass.old.seat.me.0.row ≡ None }
    requires present { present ≡ (state_of pass.old.seat.me.0).moment }
    ensures own { pass.new.seat.table_id ≡ pass.old.seat.table_id }
    ensures listener { IsListener pass.new.seat.me }
    ensures passes { OnOk result
        (PassesTime (moment_for moment) pass.old.seat.me.0 pass.new.seat.me.0) }
    ensures refused { OnErr result
        (LetsGo IsLateWay pass.old.seat.me.0 pass.new.seat.me.0) }
    ensures why { IfErr result (λ fault. IsRefusedFor fault (book_of pass.new.seat.me.0)) }
    ensures no_row { pass.new.seat.me.0.row ≡ None }
    ensures credits { pass.new.seat.me.0.credits ≡ pass.old.seat.me.0.credits }
    ensures at_once { OnOk result
        (IsRestedFor (moment_for moment) pass.old.seat.me.0
        → TicksAtOnce (moment_for moment) pass.old.seat.me.0 pass.new.seat.me.0) }
    ensures moment { OnOk result
        ((state_of pass.new.seat.me.0).moment
        ≡ max (state_of pass.old.seat.me.0).moment (moment_for moment)) }
    ensures rest { LeavesAlone (record (state_of pass.old.seat.me.0)
        { moment = (state_of pass.new.seat.me.0).moment }) (state_of pass.new.seat.me.0) }
    ensures stays { OnErr result
        (LeavesAlone (state_of pass.old.seat.me.0) (state_of pass.new.seat.me.0)) }
{
    turns_rest_on_these();
    others_leave_the_rest_to_the_listener();
    let moment = moment.min(GREATEST_MOMENT);
    if moment > present {
        tick(rt, shared, pass, moment)?;
        let_go_late(rt, shared, pass);
        return Ok(());
    }
    let_go_late(rt, shared, pass);
    Ok(())
}

/// Time passes to the moment, which is later than the present one, once no connection is late any more. While the server has not stopped
/// that comes to an end, as each that is late begins to linger for a while, or is closed.
fn tick<R: Wait, L: Link, N: Known>(
    rt: &R,
    shared: &Shared<Board<L, N>>,
    pass: &mut Pass<Board<L, N>>,
    moment: Moment,
) -> Result<(), BoardFault>
    requires own { pass.old.seat.table_id ≡ shared.now.table.shared.table_id }
    requires listener { IsListener pass.old.seat.me }
    requires none { pass.old.seat.me.0.row ≡ None }
    ensures own { pass.new.seat.table_id ≡ pass.old.seat.table_id }
    ensures listener { IsListener pass.new.seat.me }
    ensures ticks { OnOk result
        (TicksTo moment pass.old.seat.me.0 pass.new.seat.me.0) }
    ensures refused { OnErr result
        (LetsGo IsLateWay pass.old.seat.me.0 pass.new.seat.me.0) }
    ensures why { IfErr result (λ fault. IsRefusedFor fault (book_of pass.new.seat.me.0)) }
    ensures no_row { pass.new.seat.me.0.row ≡ None }
    ensures credits { pass.new.seat.me.0.credits ≡ pass.old.seat.me.0.credits }
    ensures at_once { OnOk result
        (IsRestedFor moment pass.old.seat.me.0
        → TicksAtOnce moment pass.old.seat.me.0 pass.new.seat.me.0) }
    ensures moment { OnOk result ((state_of pass.new.seat.me.0).moment ≡ moment) }
    ensures rest { LeavesAlone (record (state_of pass.old.seat.me.0)
        { moment = (state_of pass.new.seat.me.0).moment }) (state_of pass.new.seat.me.0) }
    ensures stays { OnErr result
        (LeavesAlone (state_of pass.old.seat.me.0) (state_of pass.new.seat.me.0)) }
{
    quiet_tables_are_the_listeners();
    turns_rest_on_these();
    others_leave_the_rest_to_the_listener();
    for _ in rt.forever() {
        if pass_time(rt, shared, pass, moment)? {
            return Ok(());
        }
        let_go_late(rt, shared, pass);
    }
    unreachable!()
}

/// Signals each of the slots that the table has, all in one turn. Where the board refuses one, those before it are signalled.
pub fn signal<R: Wait, L: Link, N: Known>(
    rt: &R,
    shared: &Shared<Board<L, N>>,
    pass: &mut Pass<Board<L, N>>,
    slots: &[u32],
) -> Result<(), BoardFault>
    requires own { pass.old.seat.table_id ≡ shared.now.table.shared.table_id }
    requires listener { IsListener pass.old.seat.me }
    requires none { pass.old.seat.me.0.row ≡ None }
    ensures own { pass.new.seat.table_id ≡ pass.old.seat.table_id }
    ensures listener { IsListener pass.new.seat.me }
    ensures signals { OnOk result
        (Signals slots.now pass.old.seat.me.0 pass.new.seat.me.0) }
    ensures some { OnErr result
        (SignalsSome slots.now pass.old.seat.me.0 pass.new.seat.me.0) }
    ensures why { IfErr result (λ fault. IsRefusedFor fault (book_of pass.new.seat.me.0)) }
    ensures no_row { pass.new.seat.me.0.row ≡ None }
    ensures credits { pass.new.seat.me.0.credits ≡ pass.old.seat.me.0.credits }
    ensures rest { LeavesAlone (state_of pass.old.seat.me.0) (state_of pass.new.seat.me.0) }
{
    turns_rest_on_these();
    others_leave_the_rest_to_the_listener();
    signal_all(rt, shared, pass, slots)
}

/// Lets go of each connection that is kept alive by a child that stops, where all signals were given, and drains those that linger. One
/// that begins to linger is late at once where moments end.
pub fn let_go_of_conns<R: Wait, L: Link, N: Known>(
    rt: &R,
    shared: &Shared<Board<L, N>>,
    pass: &mut Pass<Board<L, N>>,
    all_signalled: bool,
) -> Result<(), BoardFault>
    requires own { pass.old.seat.table_id ≡ shared.now.table.shared.table_id }
    requires listener { IsListener pass.old.seat.me }
    requires none { pass.old.seat.me.0.row ≡ None }
    ensures own { pass.new.seat.table_id ≡ pass.old.seat.table_id }
    ensures listener { IsListener pass.new.seat.me }
    ensures gone { OnOk result (LetsGoOfConns pass.old.seat.me.0 pass.new.seat.me.0) }
    ensures until { IfErr result
        (λ fault. LetsGoUntil fault pass.old.seat.me.0 pass.new.seat.me.0) }
    ensures no_row { pass.new.seat.me.0.row ≡ None }
    ensures credits { pass.new.seat.me.0.credits ≡ pass.old.seat.me.0.credits }
    ensures rest { LeavesAlone (state_of pass.old.seat.me.0) (state_of pass.new.seat.me.0) }
    ensures lasts { IfErr result (λ fault. Lasts fault (state_of pass.new.seat.me.0)) }
{
    let_go_retiring(rt, shared, pass, all_signalled);
    let_go_late(rt, shared, pass);
    drain_all(rt, shared, pass)
}
