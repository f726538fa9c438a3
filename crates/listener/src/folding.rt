//! Folds of the history, and what goes on over them.
//! Why it is so stands in docs/DECISIONS.md: 72, Where the listener folds.
ghost use Rattle.listener.specs.FoldsInside.{FoldsJoin, ListensOn, ShowsForFolds};

use board::Board;
use board::laws::{ended_connections_join, generations_keep_their_editions};
use conn_machine::laws_of_runs::{
    folds_are_one_fold, histories_join, histories_keep_sizes, records_go_on_by_folds,
    records_open_with_nothing,
};
use conn_state::Known;
use mpm_base::Link;

/// Folds the history where it may be folded. Where memory lacks for that the board stays as it is.
pub fn fold_history<L: Link, N: Known>(board: &mut Board<L, N>)
    ensures { ListensOn N.known board.old board.new }
{
    folds_join();
    generations_keep_their_editions();
    histories_keep_sizes();
    records_go_on_by_folds();
    show_for_folds(board);
    if board.can_fold() {
        let _ = board.fold();
    }
}

/// What a board shows that a fold goes by. Does nothing.
pub fn show_for_folds<L: Link, N: Known>(board: &Board<L, N>)
    ensures { ShowsForFolds N.known board.now }
{
    board.show();
}

/// What was folded of a run goes on by a fold: the entries of all folds are one history from the state in which the run opens, and the
/// record is what one fold makes of them.
pub fn folds_join()
    ensures { FoldsJoin }
{
    folds_are_one_fold();
    histories_join();
    records_open_with_nothing();
    ended_connections_join();
}
