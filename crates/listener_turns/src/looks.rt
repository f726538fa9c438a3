//! Turns in which the listener only looks, and its look at an idle word.
//! Why it is so stands in docs/DECISIONS.md: 109, Turns of the listener.
ghost use Rattle.std.specs.Prelude.{◌≡◌, ◌<◌, ◌↔◌, [], not, true, slice_index};
ghost use Rattle.std.specs.List.{list_any};
ghost use Rattle.conn_machine.specs.Children.{is_empty};
ghost use Rattle.conn_machine.specs.Rows.{is_live};
ghost use Rattle.conn_machine.specs.Shown.{totals_of};
ghost use Rattle.board_turns.specs.Books.{state_of};
ghost use Rattle.board_turns.specs.Turns.{HadATurn, IsListener};
ghost use Rattle.listener_turns.specs.Looks.{IsSeenIn, LooksIdle};
ghost use Rattle.board_book.specs.AtRest.{IsAtRest};

use board::Board;
use board_lock::{Pass, Shared};
use board_turns::turns_rest_on_these;
use conn_machine::laws_between_turns::quiet_tables_are_the_listeners;
use conn_machine::{Child, Going, Totals};
use conn_state::Known;
use idle_workers::idle;
use mpm_base::{Link, Moment};
use std::sync::Wait;

/// What the listener found.
#[derive(Clone, Copy, Debug, PartialEq, Eq)]
pub struct Look {
    /// The child that the next connection goes to, while one may be taken.
    pub accepts: Option<u32>,
    /// Until when the next wait may take.
    pub until: Option<Moment>,
    /// Whether nothing is left to be done.
    pub quiet: bool,
    /// A child that may be let go of.
    pub retires: Option<u32>,
    /// Whether a connection is live: one in hand, or one that waits.
    pub live: bool,
    /// Whether some child isn't gone.
    pub staffed: bool,
    /// Whether the server takes connections, ends, or has stopped.
    pub going: Going,
    /// The present moment.
    pub moment: Moment,
    /// The newest generation.
    pub newest: u32,
}

/// Whether nothing is left to be done.
fn is_at_rest<L: Link, N: Known>(board: &Board<L, N>) -> bool
    ensures { (result ≡ true) ↔ IsAtRest board.now.book.state }
{
    board.quiet()
        && board.signalled().is_none()
        && board.signalled_linger().is_none()
        && board.retiring().is_none()
        && board.can_retire().is_none()
        && board.can_start().is_none()
}

/// Whether a connection is live: one in hand, or one that waits.
fn has_live<L: Link, N: Known>(board: &Board<L, N>) -> bool
    ensures { result ≡ list_any is_live board.now.book.state.rows }
{
    !board.quiet() || board.parked().is_some()
}

/// Whether one of the children isn't gone.
fn has_some(children: &[Child]) -> bool
    ensures { result ≡ list_any (λ c. not (is_empty c.phase)) children.now }
{
    children.iter().any(|child| !child.phase.is_empty())
}

/// What of the board decides whether a connection may be taken, how the front may wait, and whether the server is at its end.
fn find<L: Link, N: Known>(board: &Board<L, N>) -> Look
    ensures { IsSeenIn board.now.book.state result }
{
    let state = board.state();
    Look {
        accepts: board.can_accept(),
        until: board.next_deadline(),
        quiet: is_at_rest(board),
        retires: board.can_retire(),
        live: has_live(board),
        staffed: has_some(state.children.as_slice()),
        going: state.going,
        moment: state.moment,
        newest: state.newest,
    }
}

/// Looks whether a connection may be taken, until when the next wait may take, whether nothing is left to be done, which child may be let go
/// of, and how the server goes on, all at one turn: so where none may be taken, and the wait lets time pass, none could be taken meanwhile.
pub fn take_look<R: Wait, L: Link, N: Known>(
    rt: &R,
    shared: &Shared<Board<L, N>>,
    pass: &mut Pass<Board<L, N>>,
) -> Look
    requires own { pass.old.seat.table_id ≡ shared.now.table.shared.table_id }
    requires listener { IsListener pass.old.seat.me }
    ensures own { pass.new.seat.table_id ≡ pass.old.seat.table_id }
    ensures listener { IsListener pass.new.seat.me }
    ensures turn { HadATurn [] pass.old.seat.me.0 pass.new.seat.me.0 }
    ensures row { pass.new.seat.me.0.row ≡ pass.old.seat.me.0.row }
    ensures seen { IsSeenIn (state_of pass.new.seat.me.0) result }
{
    turns_rest_on_these();
    let turn = shared.turn(rt, pass);
    turn.kept.show();
    let found = find(&turn.kept);
    shared.done(pass, turn);
    found
}

/// The numbers that a status page shows.
pub fn totals<R: Wait, L: Link, N: Known>(
    rt: &R,
    shared: &Shared<Board<L, N>>,
    pass: &mut Pass<Board<L, N>>,
) -> Totals
    requires own { pass.old.seat.table_id ≡ shared.now.table.shared.table_id }
    requires listener { IsListener pass.old.seat.me }
    ensures own { pass.new.seat.table_id ≡ pass.old.seat.table_id }
    ensures listener { IsListener pass.new.seat.me }
    ensures turn { HadATurn [] pass.old.seat.me.0 pass.new.seat.me.0 }
    ensures row { pass.new.seat.me.0.row ≡ pass.old.seat.me.0.row }
    ensures totals { result ≡ totals_of (state_of pass.new.seat.me.0) }
{
    turns_rest_on_these();
    let turn = shared.turn(rt, pass);
    turn.kept.show();
    let totals = turn.kept.totals();
    shared.done(pass, turn);
    totals
}

/// Whether each worker of the child is idle, which has the credit of so many: then nobody has a permit of it, and none is on its way to a
/// worker. It takes no turn. So behind a look that found all at rest, and with this of each child that has a credit, the next wait may let
/// time pass, and the state that it leaves is still the one of the look.
pub fn is_idle<L: Link, N: Known>(
    shared: &Shared<Board<L, N>>,
    pass: &mut Pass<Board<L, N>>,
    child: u32,
    threads: u32,
) -> bool
    requires own { pass.old.seat.table_id ≡ shared.now.table.shared.table_id }
    requires listener { IsListener pass.old.seat.me }
    requires child { child < 32 }
    requires credit { slice_index pass.old.seat.me.0.credits child ≡ threads }
    ensures own { pass.new.seat.table_id ≡ pass.old.seat.table_id }
    ensures listener { IsListener pass.new.seat.me }
    ensures row { pass.new.seat.me.0.row ≡ pass.old.seat.me.0.row }
    ensures credits { pass.new.seat.me.0.credits ≡ pass.old.seat.me.0.credits }
    ensures looks { LooksIdle child threads pass.old.seat.me.0 result pass.new.seat.me.0 }
{
    turns_rest_on_these();
    quiet_tables_are_the_listeners();
    idle(shared, pass, child) == threads
}
