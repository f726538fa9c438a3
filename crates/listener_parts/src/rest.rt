//! What the next wait of the front is told, and folds of the history.
//! Why it is so stands in docs/DECISIONS.md: 140, Parts of the listener's round.
ghost use Rattle.std.specs.Prelude.{◌≡◌, ◌≢◌, ◌<◌, [], None, true, slice_index};
ghost use Rattle.board_book.specs.Finds.{next_deadline_of};
ghost use Rattle.board_turns.specs.Books.{state_of};
ghost use Rattle.board_turns.specs.Turns.{IsListener};
ghost use Rattle.listener_turns.specs.Folds.{HasDropped};
ghost use Rattle.listener_turns.specs.Looks.{IsSeenIn};
ghost use Rattle.board_book.specs.AtRest.{IsAtRest};
ghost use Rattle.listener_parts.specs.Did.{Did, LeavesAlone, OnlySees};
ghost use Rattle.listener_parts.specs.Rounds.{AllWereIdle, AreCredits, IsStill, OpenedWithNone, WasFoundIdle};

use crate::credits::{CHILDREN, Credits};
use board::Board;
use board::laws::{ended_connections_join, generations_keep_their_editions};
use board_lock::{Pass, Shared};
use board_turns::turns_rest_on_these;
use conn_machine::laws_between_turns::{
    others_leave_the_rest_to_the_listener, quiet_tables_are_the_listeners,
};
use conn_machine::laws_of_runs::folds_are_one_fold;
use conn_state::Known;
use listener_turns::{Look, fold, is_idle};
use mpm_base::{Link, Moment};
use std::sync::Wait;

/// What the next wait of the front is told.
#[derive(Clone, Copy, Debug, PartialEq, Eq)]
pub struct Rest {
    /// The least deadline of a connection that waits, or of a graceful stop.
    pub until: Option<Moment>,
    /// Whether nothing is left to be done, and nobody is about to do something, so that time may pass.
    pub quiet: bool,
}

/// What the next wait is told by the look in which no further connection could be taken, the last turn that the pass took: until when it
/// may take, and whether nothing was left to be done in it, and each worker of each child is idle. Then nothing was done since, and time
/// may pass. It takes no turn, and looks at no idle word where something is left to be done.
pub fn rest_of<L: Link, N: Known>(
    shared: &Shared<Board<L, N>>,
    pass: &mut Pass<Board<L, N>>,
    credits: &Credits,
    look: Look,
) -> Rest
    requires own { pass.old.seat.table_id ≡ shared.now.table.shared.table_id }
    requires listener { IsListener pass.old.seat.me }
    requires none { pass.old.seat.me.0.row ≡ None }
    requires credits { AreCredits credits.now pass.old.seat.me.0 }
    requires opened { OpenedWithNone pass.old.seat.me.0 }
    requires seen { IsSeenIn (state_of pass.old.seat.me.0) look }
    ensures own { pass.new.seat.table_id ≡ pass.old.seat.table_id }
    ensures listener { IsListener pass.new.seat.me }
    ensures did { Did [] None pass.old.seat.me.0 pass.new.seat.me.0 }
    ensures rest { LeavesAlone (state_of pass.old.seat.me.0) (state_of pass.new.seat.me.0) }
    ensures credits { AreCredits credits.now pass.new.seat.me.0 }
    ensures until { result.until ≡ next_deadline_of (state_of pass.old.seat.me.0) }
    ensures quiet { result.quiet ≡ true
        → IsStill pass.old.seat.me.0 pass.new.seat.me.0 }
    ensures idle { result.quiet ≡ true
        → AllWereIdle credits.now pass.old.seat.me.0 pass.new.seat.me.0 }
{
    let at_rest = look.quiet;
    if !at_rest {
        return Rest {
            until: look.until,
            quiet: false,
        };
    }
    let quiet = are_idle(shared, pass, credits);
    Rest {
        until: look.until,
        quiet,
    }
}

/// Whether each worker of each child that has a credit is idle. It stops at the first child of which one isn't.
fn are_idle<L: Link, N: Known>(
    shared: &Shared<Board<L, N>>,
    pass: &mut Pass<Board<L, N>>,
    credits: &Credits,
) -> bool
    requires own { pass.old.seat.table_id ≡ shared.now.table.shared.table_id }
    requires listener { IsListener pass.old.seat.me }
    requires none { pass.old.seat.me.0.row ≡ None }
    requires credits { AreCredits credits.now pass.old.seat.me.0 }
    requires opened { OpenedWithNone pass.old.seat.me.0 }
    requires rest { IsAtRest (state_of pass.old.seat.me.0) }
    ensures own { pass.new.seat.table_id ≡ pass.old.seat.table_id }
    ensures listener { IsListener pass.new.seat.me }
    ensures did { Did [] None pass.old.seat.me.0 pass.new.seat.me.0 }
    ensures credits { AreCredits credits.now pass.new.seat.me.0 }
    ensures still { pass.new.seat.me.0.seen ≡ pass.old.seat.me.0.seen }
    ensures idle { result ≡ true
        → AllWereIdle credits.now pass.old.seat.me.0 pass.new.seat.me.0 }
{
    for child in 0..CHILDREN {
        if !are_idle_of(shared, pass, credits, child) {
            return false;
        }
    }
    true
}

/// Whether each worker of the child is idle. It looks at no idle word where the child has no credit.
fn are_idle_of<L: Link, N: Known>(
    shared: &Shared<Board<L, N>>,
    pass: &mut Pass<Board<L, N>>,
    credits: &Credits,
    child: u32,
) -> bool
    requires own { pass.old.seat.table_id ≡ shared.now.table.shared.table_id }
    requires listener { IsListener pass.old.seat.me }
    requires none { pass.old.seat.me.0.row ≡ None }
    requires credits { AreCredits credits.now pass.old.seat.me.0 }
    requires opened { OpenedWithNone pass.old.seat.me.0 }
    requires rest { IsAtRest (state_of pass.old.seat.me.0) }
    requires child { child < 32 }
    ensures own { pass.new.seat.table_id ≡ pass.old.seat.table_id }
    ensures listener { IsListener pass.new.seat.me }
    ensures did { Did [] None pass.old.seat.me.0 pass.new.seat.me.0 }
    ensures credits { AreCredits credits.now pass.new.seat.me.0 }
    ensures still { pass.new.seat.me.0.seen ≡ pass.old.seat.me.0.seen }
    ensures idle { result ≡ true
        → slice_index credits.now child ≢ 0
        → WasFoundIdle child (slice_index credits.now child) pass.old.seat.me.0
        pass.new.seat.me.0 }
{
    let threads = credits.of(child);
    if threads == 0 {
        return true;
    }
    is_idle(shared, pass, child, threads)
}

/// Folds the history where it may be folded. Where memory lacks for that it stays as it is, until the next round. Behind a rest nobody did
/// anything before. What is told of the connections that folds dropped goes on over it.
pub fn fold_history<R: Wait, L: Link, N: Known>(
    rt: &R,
    shared: &Shared<Board<L, N>>,
    pass: &mut Pass<Board<L, N>>,
)
    requires own { pass.old.seat.table_id ≡ shared.now.table.shared.table_id }
    requires listener { IsListener pass.old.seat.me }
    requires none { pass.old.seat.me.0.row ≡ None }
    ensures own { pass.new.seat.table_id ≡ pass.old.seat.table_id }
    ensures listener { IsListener pass.new.seat.me }
    ensures sees { OnlySees pass.old.seat.me.0 pass.new.seat.me.0 }
    ensures credits { pass.new.seat.me.0.credits ≡ pass.old.seat.me.0.credits }
    ensures dropped { HasDropped N.known pass.old.seat.me.0
        → HasDropped N.known pass.new.seat.me.0 }
    ensures rest { LeavesAlone (state_of pass.old.seat.me.0) (state_of pass.new.seat.me.0) }
    ensures still { OpenedWithNone pass.old.seat.me.0
        → IsAtRest (state_of pass.old.seat.me.0)
        → pass.new.seat.me.0.seen ≡ pass.old.seat.me.0.seen }
{
    turns_rest_on_these();
    others_leave_the_rest_to_the_listener();
    quiet_tables_are_the_listeners();
    folds_are_one_fold();
    ended_connections_join();
    generations_keep_their_editions();
    let _ = fold(rt, shared, pass);
}
