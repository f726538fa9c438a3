//! The parts of the listener's round: a connection that comes is taken and waits, time passes, slots are signalled, connections
//! are let go of and served, and children are started and let go of.
//! Why it is so stands in docs/DECISIONS.md: 94, When connections retire.
ghost use Rattle.std.specs.Prelude.{◌≡◌, ◌↔◌, ◌<◌, [], ◌∷◌, None, Some, true, false, length, not, is_some, max, IfOk, IfErr, OnErr, OnOk};
ghost use Rattle.std.specs.List.{list_any};
ghost use Rattle.mpm_base.specs.Count.{next_count};
ghost use Rattle.mpm_base.specs.declared.conn.Cause.TheVariants as cause;
ghost use Rattle.mpm_base.specs.declared.conn.Kind.TheVariants.{Reading};
ghost use Rattle.mpm_base.specs.declared.conn.Tail.TheVariants.{Direct};
ghost use Rattle.conn_machine.specs.Children.{is_empty};
ghost use Rattle.conn_machine.specs.Rows.{is_live};
ghost use Rattle.conn_machine.specs.States.{is_halted, is_over, is_at_its_end, is_staffed};
ghost use Rattle.conn_machine.specs.Table.{is_allowed};
ghost use Rattle.conn_machine.specs.declared.event.Event.TheVariants as event;
ghost use Rattle.board_book.specs.Faults.{IsRefusedFor};
ghost use Rattle.board.specs.Backed.{BacksWait};
ghost use Rattle.board.specs.Fits.{IsSettled};
ghost use Rattle.board_book.specs.Finds.{acceptable, next_deadline_of, startable};
ghost use Rattle.board_book.specs.Book.{row_in};
ghost use Rattle.board.specs.Editions.{IsOfGeneration};
ghost use Rattle.worker_group.specs.Acts.{Acts};
ghost use Rattle.worker_group.specs.InHand.{IsClosable, IsInHand};
ghost use Rattle.worker_group.specs.Service.{IsUp, LeavesRest, RefusalLasts, left_events};
ghost use Rattle.rounds.specs.ClosingInside.{IsLateWay, LetsGo};
ghost use Rattle.board_book.specs.ClosedDown.{HasNoLive, IsClosedDown};
ghost use Rattle.rounds.specs.EndsInside.{IsAllGone};
ghost use Rattle.rounds.specs.TableInside.{HasTaken, IsOpening, IsRestful, NoneDueLate, NoneOverdue, StandsInTime, asked_children};
ghost use Rattle.board_book.specs.AtRest.{NoneDue};
ghost use Rattle.rounds.specs.PartsInside.{GivesUp, LetsGoOfConns, LetsGoUntil, PassesTime, RetiresSome, ServesSome, SignalsFirst, StartsSome, StaysTimely, signal_events, way_of};
ghost use Rattle.board_book.specs.Started.{BeginsWithStarts};
ghost use Rattle.board_book.specs.Moments.{moment_for};

use crate::closing::{drain_all, let_go_late, let_go_retiring};
use crate::ends::{LISTENER, Rest, SERVER};
use crate::showing::show_state;
use board::{AcceptFault, Board, BoardFault, Taken};
use conn_machine::Child;
use conn_machine::laws::{
    connections_go_to_the_chosen_child, passes_leave_the_rest_to_the_listener,
};
use conn_machine::laws_of_runs::{
    children_change_one_at_a_time, histories_join, histories_keep_sizes, rows_change_one_at_a_time,
};
use conn_state::{Conn, Known};
use mpm_base::{Bell, Cause, GREATEST_MOMENT, Gate, Kind, Link, Moment, Tail};
use std::sync::Wait;
use worker_group::laws::passes_act_in_steps;
use worker_group::{Hands, close, park, serve};

/// A connection that was just taken waits for its first request, where the front watches it; else it is closed.
pub fn settle<L: Link, N: Known>(
    board: &mut Board<L, N>,
    conn: Conn<L, N>,
    watched: bool,
) -> Result<(), BoardFault>
    requires passes { 0 < board.old.book.passes }
    requires row { row_in 0 board.old.book ≡ Some conn.name }
    requires edition { IsOfGeneration N.known board.old.book conn.generation conn.reader.limits
        conn.site }
    requires hand { IsInHand board.old.book.state conn }
    requires allowed { is_halted board.old.book.state.going ≡ false
        → is_allowed board.old.book.state (event.Park conn.name Reading) ≡ true }
    requires settled { watched ≡ true → IsSettled Reading None conn }
    requires backed { watched ≡ true → BacksWait Reading board.old.book.state conn }
    requires closable { watched ≡ false
        → IsClosable board.old.book.state cause.LinkFailed Direct conn }
    ensures left { OnOk result
        (Acts 0 (left_events (way_of watched) conn.name) None board.old.book board.new.book) }
    ensures closed { watched ≡ false
        → Acts 0 (left_events (way_of false) conn.name) None board.old.book board.new.book }
    ensures given_up { IfErr result
        (λ fault. GivesUp fault conn.name board.old.book board.new.book) }
    ensures why { IfErr result (λ fault. IsRefusedFor fault board.old.book) }
    ensures rest { LeavesRest board.old.book board.new.book }
    ensures err { IfErr result (λ fault. RefusalLasts fault board.new.book) }
{
    if watched {
        park(board, LISTENER, conn, Kind::Reading)
    } else {
        close(board, LISTENER, conn, Cause::LinkFailed, Tail::Direct);
        Ok(())
    }
}
/// Takes a connection into a slot, for the child that takes one. Where it is refused nothing changes.
pub fn accept<L: Link, N: Known>(board: &mut Board<L, N>) -> Result<Taken, BoardFault>
    requires passes { 0 < board.old.book.passes }
    requires free { row_in 0 board.old.book ≡ None }
    requires acceptable { is_some (acceptable board.old.book.state) ≡ true }
    ensures acts { IfOk result
        (λ taken. Acts 0 (event.Accept taken.name.slot ∷ []) (Some taken.name) board.old.book
        board.new.book) }
    ensures refused { OnErr result (board.new ≡ board.old) }
    ensures why { IfErr result (λ fault. IsRefusedFor fault board.old.book) }
    ensures going { board.new.book.state.going ≡ board.old.book.state.going }
    ensures newest { board.new.book.state.newest ≡ board.old.book.state.newest }
    ensures generation { IfOk result (λ taken. taken.generation ≡ board.old.book.state.newest) }
    ensures taken { OnOk result
        (board.new.book.state.accepted ≡ next_count board.old.book.state.accepted) }
    ensures held { IfOk result
        (λ taken. HasTaken board.new.book.state taken.name taken.child taken.generation
        board.old.book.state.accepted) }
    ensures moment { board.new.book.state.moment ≡ board.old.book.state.moment }
    ensures err { IfErr result (λ fault. RefusalLasts fault board.new.book) }
{
    rows_change_one_at_a_time();
    connections_go_to_the_chosen_child();
    passes_act_in_steps();
    board.show();
    match board.accept(LISTENER) {
        Ok(taken) => {
            board.show();
            Ok(taken)
        }
        Err(AcceptFault::Halted) => Err(BoardFault::Halted),
        Err(AcceptFault::NoMemory) => Err(BoardFault::NoMemory),
        Err(AcceptFault::NoChild) => unreachable!(),
        Err(AcceptFault::NoSlot) => unreachable!(),
    }
}
/// What the next wait is told: until when it may take, and whether nothing is left to do.
pub fn find_rest<L: Link, N: Known>(board: &Board<L, N>) -> Rest
    ensures until { result.until ≡ next_deadline_of board.now.book.state }
    ensures quiet { IsRestful result.quiet board.now.book.state }
{
    Rest {
        until: board.next_deadline(),
        quiet: board.quiet()
            && board.signalled().is_none()
            && board.signalled_linger().is_none()
            && board.retiring().is_none()
            && board.can_retire().is_none()
            && board.can_start().is_none(),
    }
}
/// Whether a connection is live: one in hand, or one that waits.
pub fn has_live<L: Link, N: Known>(board: &Board<L, N>) -> bool
    ensures { result ≡ list_any is_live board.now.book.state.rows }
{
    !board.quiet() || board.parked().is_some()
}
/// Lets time pass to the moment, where it is later than the present one. Connections that are late are let go of before and after.
pub fn pass_time<L: Link, N: Known>(
    board: &mut Board<L, N>,
    moment: Moment,
) -> Result<(), BoardFault>
    requires passes { 0 < board.old.book.passes }
    requires free { row_in 0 board.old.book ≡ None }
    requires up { IsUp board.old.book.state.going }
    requires in_time { StandsInTime board.old.book.state }
    ensures passes { OnOk result (PassesTime (moment_for moment) board.old.book board.new.book) }
    ensures refused { OnErr result (LetsGo IsLateWay board.old.book board.new.book) }
    ensures timely { StaysTimely board.old.book board.new.book }
    ensures staffed { is_staffed board.new.book.state ≡ true }
    ensures why { IfErr result (λ fault. IsRefusedFor fault board.new.book) }
    ensures none { OnOk result (NoneOverdue board.new.book.state) }
    ensures going { board.new.book.state.going ≡ board.old.book.state.going }
    ensures newest { board.new.book.state.newest ≡ board.old.book.state.newest }
    ensures moment { OnOk result
        (board.new.book.state.moment ≡ max board.old.book.state.moment (moment_for moment)) }
    ensures stays { OnErr result
        (board.new.book.state.moment ≡ board.old.book.state.moment) }
    ensures taken { board.new.book.state.accepted ≡ board.old.book.state.accepted }
    ensures err { IfErr result (λ fault. RefusalLasts fault board.new.book) }
{
    histories_join();
    passes_act_in_steps();
    show_state(board);
    let_go_late(board);
    board.show();
    let moment = moment.min(GREATEST_MOMENT);
    if moment > board.moment() {
        board.tick(LISTENER, moment)?;
        show_state(board);
        let_go_late(board);
        show_state(board);
    }
    Ok(())
}
/// Signals each of the slots that the table has.
pub fn signal_all<L: Link, N: Known>(
    board: &mut Board<L, N>,
    slots: &[u32],
) -> Result<(), BoardFault>
    requires passes { 0 < board.old.book.passes }
    requires free { row_in 0 board.old.book ≡ None }
    requires within { is_over board.old.book.state.moment board.old.book.state.going ≡ false }
    requires staffed { is_staffed board.old.book.state ≡ true }
    ensures signals { OnOk result
        (Acts 0 (signal_events board.old.book slots.now) None board.old.book board.new.book) }
    ensures timely { StaysTimely board.old.book board.new.book }
    ensures rows { board.new.book.state.rows ≡ board.old.book.state.rows }
    ensures children { board.new.book.state.children ≡ board.old.book.state.children }
    ensures first { OnErr result (SignalsFirst slots.now board.old.book board.new.book) }
    ensures why { IfErr result (λ fault. IsRefusedFor fault board.new.book) }
    ensures rest { LeavesRest board.old.book board.new.book }
    ensures err { IfErr result (λ fault. RefusalLasts fault board.new.book) }
{
    passes_act_in_steps();
    for slot in slots {
        signal(board, *slot)?;
    }
    Ok(())
}
/// Signals the slot, where the table has it. Where it is refused nothing changes.
fn signal<L: Link, N: Known>(board: &mut Board<L, N>, slot: u32) -> Result<(), BoardFault>
    requires passes { 0 < board.old.book.passes }
    requires free { row_in 0 board.old.book ≡ None }
    requires within { is_over board.old.book.state.moment board.old.book.state.going ≡ false }
    requires staffed { is_staffed board.old.book.state ≡ true }
    ensures signals { OnOk result
        (Acts 0 (signal_events board.old.book (slot ∷ [])) None board.old.book board.new.book) }
    ensures timely { StaysTimely board.old.book board.new.book }
    ensures rows { board.new.book.state.rows ≡ board.old.book.state.rows }
    ensures children { board.new.book.state.children ≡ board.old.book.state.children }
    ensures rest { LeavesRest board.old.book board.new.book }
    ensures refused { OnErr result (board.new ≡ board.old) }
    ensures why { IfErr result (λ fault. IsRefusedFor fault board.old.book) }
    ensures err { IfErr result (λ fault. RefusalLasts fault board.new.book) }
{
    histories_keep_sizes();
    passes_act_in_steps();
    board.show();
    if slot as usize >= board.state().rows.len() {
        return Ok(());
    }
    board.ready(LISTENER, slot)
}
/// Lets go of each connection that is kept alive by a child that stops, where all signals were given, and drains those that linger. One
/// that begins to linger is late at once where moments end.
pub fn let_go_of_conns<L: Link, N: Known>(
    board: &mut Board<L, N>,
    all_signalled: bool,
) -> Result<(), BoardFault>
    requires passes { 0 < board.old.book.passes }
    requires free { row_in 0 board.old.book ≡ None }
    requires staffed { is_staffed board.old.book.state ≡ true }
    ensures gone { OnOk result (LetsGoOfConns board.old.book board.new.book) }
    ensures timely { StaysTimely board.old.book board.new.book }
    ensures staffed { is_staffed board.new.book.state ≡ true }
    ensures none_late { OnOk result (NoneOverdue board.new.book.state) }
    ensures until { IfErr result (λ fault. LetsGoUntil fault board.old.book board.new.book) }
    ensures rest { LeavesRest board.old.book board.new.book }
    ensures err { IfErr result (λ fault. RefusalLasts fault board.new.book) }
{
    histories_join();
    passes_act_in_steps();
    show_state(board);
    let_go_retiring(board, all_signalled);
    let_go_late(board);
    let drained = drain_all(board);
    show_state(board);
    drained
}
/// Whether the time of a graceful stop is over.
pub fn is_overdue<L: Link, N: Known>(board: &Board<L, N>) -> bool
    ensures { result ≡ is_over board.now.book.state.moment board.now.book.state.going }
{
    board.going().is_over(board.moment())
}
/// Whether a graceful stop is at its end: the server takes no connections, and each child is gone.
pub fn is_gone<L: Link, N: Known>(board: &Board<L, N>) -> bool
    requires { IsUp board.now.book.state.going }
    ensures gone { (result ≡ true) ↔ IsAllGone board.now.book.state }
    ensures end { result ≡ is_at_its_end board.now.book.state }
{
    board.show();
    let state = board.state();
    if state.going.is_serving() {
        return false;
    }
    !has_some(state.children.as_slice())
}
/// Whether one of the children isn't gone.
fn has_some(children: &[Child]) -> bool
    ensures { result ≡ list_any (λ c. not (is_empty c.phase)) children.now }
{
    children.iter().any(|child| !child.phase.is_empty())
}
/// Starts children, while fewer run than should.
pub fn start_children<L: Link, N: Known>(board: &mut Board<L, N>) -> Result<(), BoardFault>
    requires passes { 0 < board.old.book.passes }
    requires free { row_in 0 board.old.book ≡ None }
    ensures starts { StartsSome board.old.book board.new.book }
    ensures why { IfErr result (λ fault. IsRefusedFor fault board.new.book) }
    ensures started { OnOk result (startable board.new.book.state ≡ None) }
    ensures staffed { OnOk result
        (is_halted board.old.book.state.going ≡ false
        → is_at_its_end board.old.book.state ≡ false
        → 0 < length board.new.book.state.children
        → is_staffed board.new.book.state ≡ true) }
    ensures before { is_at_its_end board.old.book.state ≡ false
        → is_at_its_end board.new.book.state ≡ false }
    ensures children { length board.new.book.state.children
        ≡ length board.old.book.state.children }
    ensures first { OnOk result
        (IsOpening board.old.book → BeginsWithStarts (asked_children board.old.book.base)
        board.new.book.history) }
    ensures going { board.new.book.state.going ≡ board.old.book.state.going }
    ensures rest { LeavesRest board.old.book board.new.book }
    ensures err { IfErr result (λ fault. RefusalLasts fault board.new.book) }
{
    children_change_one_at_a_time();
    passes_act_in_steps();
    show_state(board);
    while let Some(child) = board.can_start() {
        board.show();
        board.start_child(LISTENER, child)?;
    }
    board.show();
    Ok(())
}
/// Serves each connection that is signalled and that a worker of its child is free for.
pub fn serve_all<R: Wait, L: Link, N: Known, B: Bell, G: Gate>(
    rt: &R,
    hands: &Hands<'_, B, G>,
    board: &mut Board<L, N>,
) -> Result<(), BoardFault>
    requires passes { 1 < board.old.book.passes }
    requires free { row_in 1 board.old.book ≡ None }
    requires in_time { NoneDueLate board.old.book.state }
    requires staffed { is_staffed board.old.book.state ≡ true }
    ensures serves { ServesSome board.old board.new }
    ensures timely { StaysTimely board.old.book board.new.book }
    ensures staffed { is_staffed board.new.book.state ≡ true }
    ensures why { IfErr result (λ fault. IsRefusedFor fault board.new.book) }
    ensures served { OnOk result (NoneDue board.new.book.state) }
    ensures rest { LeavesRest board.old.book board.new.book }
    ensures err { IfErr result (λ fault. RefusalLasts fault board.new.book) }
{
    histories_join();
    rows_change_one_at_a_time();
    passes_act_in_steps();
    passes_leave_the_rest_to_the_listener();
    show_state(board);
    while let Some(name) = board.signalled() {
        serve(rt, hands, board, SERVER, name)?;
        board.show();
    }
    Ok(())
}
/// Lets go of each child that may be let go of: of each one that stops, and where no connection is live. Takes no memory.
pub fn retire_all<L: Link, N: Known>(board: &mut Board<L, N>)
    requires passes { 0 < board.old.book.passes }
    requires free { row_in 0 board.old.book ≡ None }
    ensures retires { RetiresSome board.old.book board.new.book }
    ensures down { is_halted board.old.book.state.going ≡ true
        → HasNoLive board.old.book.state
        → IsClosedDown board.new.book.state }
    ensures going { board.new.book.state.going ≡ board.old.book.state.going }
    ensures rest { LeavesRest board.old.book board.new.book }
{
    passes_act_in_steps();
    while let Some(child) = board.can_retire() {
        show_state(board);
        board.retire(LISTENER, child);
    }
    board.show();
}
