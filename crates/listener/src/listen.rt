//! The turns of the listener: it waits for what comes, has a round done of it, has connections served, and stops the server when nothing
//! more can come or it was asked to.
//!
//! What a round does stands in the crate `listener_round`. What all turns did since the run opened goes on from where it stood
//! (`specs/TurnsInside.antt`).
//! Why it is so stands in docs/DECISIONS.md: 90, Front, clock and store stand beside the listener.
ghost use Rattle.std.specs.Prelude.{◌≡◌, ◌<◌, None, true, length, is_some, IfOk, IfErr, IfSome, OnOk};
ghost use Rattle.mpm_base.specs.Count.{CountsWhere};
ghost use Rattle.mpm_base.specs.Front.{Waits, after_hush, is_woken};
ghost use Rattle.board_book.specs.Finds.{next_deadline_of};
ghost use Rattle.board_book.specs.Book.{row_in};
ghost use Rattle.worker_group.specs.Service.{LeavesRest, RefusalLasts};
ghost use Rattle.listener.specs.ListenInside.{AnswersStop, AsksFor};
ghost use Rattle.listener_round.specs.FrontInside.{IsKnownOfFront, ListensAsServed};
ghost use Rattle.rounds.specs.TableInside.{IsOpening, IsRestful, NoneDueLate, asked_children};
ghost use Rattle.listener.specs.Counted.{AsksOnce};
ghost use Rattle.listener.specs.CountedInside.{ClocksOn, CountsToEnd, KeepsClockFrom, MovesClock, TurnsCount};
ghost use Rattle.rounds.specs.PartsInside.{ServesSome, StartsSome, StaysTimely};
ghost use Rattle.conn_machine.specs.States.{is_staffed};
ghost use Rattle.conn_machine.specs.declared.state.Going.TheVariants.{Serving};
ghost use Rattle.board_book.specs.Started.{BeginsWithStarts};
ghost use Rattle.listener.specs.TurnsInside.{AreOver, HasListened, MayListen, listener_of};

use crate::folding::fold_history;
use board::BoardFault;
use board::laws::generations_keep_their_editions;
use command_answers::stopping_answer;
use conn_machine::laws_of_runs::histories_join;
use conn_state::Known;
use listener_round::Listener;
use mpm_base::{Bell, Clock, Front, Gate, Link, Moment, Ready, Sink, Store, Woke};
use rounds::{End, Rest, close_down, find_rest, has_live, serve_all, start_children};
use std::sync::Wait;
use worker_group::laws::passes_act_in_steps;

/// What a wait of the front answered, and the moment behind it.
#[derive(Clone, Copy)]
pub struct Pause {
    /// What the wait answered.
    pub woke: Woke,
    /// What the clock says where the wait gave a moment, and else the present one.
    pub moment: Moment,
}

/// Starts the children, takes the connections that come, has them served, does what command lines ask for, and stops when nothing
/// more can come, a command line asks for it, or a graceful stop is at its end or out of time. The server stops before that for a wait
/// that failed, and for want of memory where a call that the listener must make was refused for that. However it stops, no further
/// connection is taken then, each one that waits is closed, and each child is let go of. How it ended is read off the board.
pub fn listen<
    R: Wait,
    D: Store,
    L: Link + Send,
    F: Front<L = L>,
    C: Clock,
    N: Known,
    B: Bell,
    G: Gate,
    K: Sink,
>(
    listener: &mut Listener<'_, '_, L, N, B, G>,
    rt: &R,
    store: &mut D,
    front: &mut F,
    clock: &mut C,
    out: &mut K,
)
    requires named { IsKnownOfFront N.known (F.seen front.old).told }
    requires may { MayListen N.known (listener_of listener.old.board (F.seen front.old)
        (C.told clock.old) listener.old.ready listener.old.edition (D.seen store.old) listener.old.config
        (K.seen out.old) listener.old.written) }
    ensures listened { let first = listener_of listener.old.board (F.seen front.old)
        (C.told clock.old) listener.old.ready listener.old.edition (D.seen store.old) listener.old.config
        (K.seen out.old) listener.old.written in
        let now = listener_of listener.new.board (F.seen front.new)
        (C.told clock.new) listener.new.ready listener.new.edition (D.seen store.new) listener.new.config
        (K.seen out.new) listener.new.written in
        HasListened N.known first now }
    ensures counts { CountsToEnd (F.seen front.old).counts (F.seen front.new).counts
        listener.old.board.book listener.new.board.book }
    ensures clock { KeepsClockFrom (C.greatest clock.old) (C.greatest clock.new)
        listener.old.board.book.state listener.new.board.book.state }
    ensures asked { AsksOnce (F.seen front.old).counts.wakes (F.seen front.new).counts.wakes
        (C.asked clock.old) (C.asked clock.new) }
{
    let turns = take_turns(listener, rt, store, front, clock, out);
    hush(listener, front);
    close_down(&mut listener.board, turns);
    answer_stop(front, turns);
}

/// Stops listening, where the front still listens.
fn hush<L: Link + Send, F: Front<L = L>, N: Known, B: Bell, G: Gate>(
    listener: &Listener<'_, '_, L, N, B, G>,
    front: &mut F,
)
    requires listens { IfSome (F.seen front.old).told
        (ListensAsServed listener.now.board.book.state) }
    ensures { F.seen front.new ≡ after_hush (F.seen front.old) }
{
    if !listener.board.state().going.is_serving() {
        return;
    }
    front.hush();
}

/// Starts the children, and takes turns with the front until nothing more can come, a wait fails, a command line asks to stop, or a
/// graceful stop ends, each followed by the service of what is signalled, and by a fold of the history where it may be folded. Err where
/// the server has to stop before.
fn take_turns<
    R: Wait,
    D: Store,
    L: Link + Send,
    F: Front<L = L>,
    C: Clock,
    N: Known,
    B: Bell,
    G: Gate,
    K: Sink,
>(
    listener: &mut Listener<'_, '_, L, N, B, G>,
    rt: &R,
    store: &mut D,
    front: &mut F,
    clock: &mut C,
    out: &mut K,
) -> Result<End, BoardFault>
    requires named { IsKnownOfFront N.known (F.seen front.old).told }
    requires may { MayListen N.known (listener_of listener.old.board (F.seen front.old)
        (C.told clock.old) listener.old.ready listener.old.edition (D.seen store.old) listener.old.config
        (K.seen out.old) listener.old.written) }
    ensures over { let first = listener_of listener.old.board (F.seen front.old)
        (C.told clock.old) listener.old.ready listener.old.edition (D.seen store.old) listener.old.config
        (K.seen out.old) listener.old.written in
        let now = listener_of listener.new.board (F.seen front.new)
        (C.told clock.new) listener.new.ready listener.new.edition (D.seen store.new) listener.new.config
        (K.seen out.new) listener.new.written in
        AreOver N.known result first now }
    ensures counts { TurnsCount result (F.seen front.old).counts (F.seen front.new).counts
        listener.old.board.book listener.new.board.book }
    ensures clock { ClocksOn result (C.greatest clock.old) (C.greatest clock.new)
        listener.old.board.book.state listener.new.board.book.state }
    ensures asked { AsksOnce (F.seen front.old).counts.wakes (F.seen front.new).counts.wakes
        (C.asked clock.old) (C.asked clock.new) }
{
    generations_keep_their_editions();
    histories_join();
    passes_act_in_steps();
    let first = start(listener)?;
    let mut rest = first;
    for _ in rt.forever() {
        listener.show();
        let present = listener.moment();
        let pause = take_pause(rt, front, clock, &mut listener.ready, rest, present);
        match pause.woke {
            Woke::Ended if !has_live(&listener.board) => return Ok(End::Ended),
            Woke::Failed => return Ok(End::Failed),
            _ => (),
        }
        let ended = listener.take_in(rt, store, front, out, pause.moment)?;
        match ended {
            Some(end) => return Ok(end),
            None => (),
        }
        listener.show();
        rest = serve(listener, rt)?;
        listener.show();
        fold_history(&mut listener.board);
    }
    unreachable!()
}

/// Starts the children, and finds what the first wait is told.
fn start<L: Link + Send, N: Known, B: Bell, G: Gate>(
    listener: &mut Listener<'_, '_, L, N, B, G>,
) -> Result<Rest, BoardFault>
    requires passes { 0 < listener.old.board.book.passes }
    requires free { row_in 0 listener.old.board.book ≡ None }
    requires going { listener.old.board.book.state.going ≡ Serving }
    requires children { 0 < length listener.old.board.book.state.children }
    ensures starts { StartsSome listener.old.board.book listener.new.board.book }
    ensures staffed { OnOk result (is_staffed listener.new.board.book.state ≡ true) }
    ensures first { OnOk result
        (IsOpening listener.old.board.book → BeginsWithStarts
        (asked_children listener.old.board.book.base) listener.new.board.book.history) }
    ensures going { listener.new.board.book.state.going ≡ listener.old.board.book.state.going }
    ensures rest { LeavesRest listener.old.board.book listener.new.board.book }
    ensures others { listener.new ≡ record listener.old { board = listener.new.board } }
    ensures until { IfOk result
        (λ rest. rest.until ≡ next_deadline_of listener.new.board.book.state) }
    ensures quiet { IfOk result (λ rest. IsRestful rest.quiet listener.new.board.book.state) }
    ensures err { IfErr result (λ fault. RefusalLasts fault listener.new.board.book) }
{
    let board = &mut listener.board;
    start_children(board)?;
    Ok(find_rest(board))
}

/// Serves what is signalled, and finds what the next wait is told. That is found before the service, as a worker's service
/// goes on by itself; where nothing is left to be done then, nothing is served, and else the bell is rung, so that the next wait
/// comes back at once. Err where a call was refused.
fn serve<R: Wait, L: Link + Send, N: Known, B: Bell, G: Gate>(
    listener: &mut Listener<'_, '_, L, N, B, G>,
    rt: &R,
) -> Result<Rest, BoardFault>
    requires passes { 1 < listener.old.board.book.passes }
    requires free { row_in 1 listener.old.board.book ≡ None }
    requires in_time { NoneDueLate listener.old.board.book.state }
    requires staffed { is_staffed listener.old.board.book.state ≡ true }
    ensures serves { ServesSome listener.old.board listener.new.board }
    ensures timely { StaysTimely listener.old.board.book listener.new.board.book }
    ensures staffed { is_staffed listener.new.board.book.state ≡ true }
    ensures rest { LeavesRest listener.old.board.book listener.new.board.book }
    ensures until { IfOk result
        (λ rest. rest.until ≡ next_deadline_of listener.old.board.book.state) }
    ensures quiet { IfOk result (λ rest. IsRestful rest.quiet listener.old.board.book.state) }
    ensures others { listener.new ≡ record listener.old { board = listener.new.board } }
    ensures err { IfErr result (λ fault. RefusalLasts fault listener.new.board.book) }
{
    let rest = find_rest(&listener.board);
    serve_all(rt, &listener.hands, &mut listener.board)?;
    if !rest.quiet {
        listener.hands.bell.ring();
    }
    Ok(rest)
}

/// Answers the line that asked to stop, where the turns ended for one: the server has stopped then.
fn answer_stop<F: Front>(front: &mut F, turns: Result<End, BoardFault>)
    ensures { AnswersStop turns (F.seen front.old) (F.seen front.new) }
{
    if turns == Ok(End::Asked) {
        front.answer(stopping_answer().as_slice());
    }
}

/// Waits for the front, and asks the clock for the moment that the wait gave. Where it gave none it is the present one.
fn take_pause<R: Wait, L: Link + Send, F: Front<L = L>, C: Clock>(
    rt: &R,
    front: &mut F,
    clock: &mut C,
    ready: &mut Ready,
    rest: Rest,
    present: Moment,
) -> Pause
    ensures waits { Waits (F.seen front.old) (F.seen front.new) rest.until rest.quiet result.woke
        ready.new }
    ensures asks { AsksFor result.woke present (C.told clock.old) (C.told clock.new) result.moment }
    ensures clock { is_some (C.told clock.new) ≡ is_some (C.told clock.old) }
    ensures moves { MovesClock result.woke present
        (C.greatest clock.old) (C.greatest clock.new) result.moment }
    ensures asked { CountsWhere (is_woken result.woke) (C.asked clock.old) (C.asked clock.new) }
{
    let woke = front.wait(rt, rest.until, rest.quiet, ready);
    Pause {
        woke,
        moment: moment_of(clock, woke, present),
    }
}

/// The moment behind a wait: what the clock says where the wait gave one, and else the present one.
fn moment_of<C: Clock>(clock: &mut C, woke: Woke, present: Moment) -> Moment
    ensures asks { AsksFor woke present (C.told clock.old) (C.told clock.new) result }
    ensures moves { MovesClock woke present (C.greatest clock.old) (C.greatest clock.new) result }
    ensures asked { CountsWhere (is_woken woke) (C.asked clock.old) (C.asked clock.new) }
{
    match woke {
        Woke::Woke(at) => clock.now(at),
        Woke::Ended | Woke::Failed => present,
    }
}
