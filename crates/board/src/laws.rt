//! Laws of a board's connections. Each is the contract of a function that does nothing, and stands in full in
//! `specs/BoardLaws.antt`, in `specs/Editions.antt`, or in `specs/WholeEditions.antt`.
ghost use Rattle.board.specs.Editions.{GenerationsKeepTheirEditions};
ghost use Rattle.board.specs.WholeEditions.{EditionsStandForWholeHistories};
ghost use Rattle.board.specs.BoardLaws.{EndedLinksAreOfClosedConnections, EndedConnectionsAreBacked, EndedConnectionsJoin, AnsweredConnectionsFitTheirRows, WaitsAreBackedByCalls};

use conn_machine::laws::{arrivals_are_taken_once, rows_keep_their_waits};
use conn_machine::laws_of_runs::{generations_begin_in_order, rows_change_one_at_a_time};

/// The links of the connections that ended, where they tell, are those of the connections that the history closed, in order. In
/// a run from the opening state to one without a live connection they are, each once, those of the connections that were taken:
/// each number below how many there were is the rank of exactly one of them, and no other is of any. So it is while fewer were
/// taken than the greatest count.
pub fn ended_links_are_of_closed_connections()
    ensures { EndedLinksAreOfClosedConnections }
{
    arrivals_are_taken_once();
}

/// What backs the waits of a connection: each call of its link that was not ready backs one wait more of its kind, and what is backed stays
/// so. A connection that was just taken may wait for its first request without any.
pub fn waits_are_backed_by_calls()
    ensures { WaitsAreBackedByCalls }
{}

/// Of each connection that ended in a run from the opening state the link backs its waits: each wait for something to read, but for the
/// first, by a read that was not ready, and each one for room by a write that was not.
pub fn ended_connections_are_backed()
    ensures { EndedConnectionsAreBacked }
{
    rows_keep_their_waits();
}

/// The connections that ended in one history, and behind them those that ended in the next, are those that ended in both as one history.
/// Where each connection of two lists shows what an ended connection shows, so does each of both lists together; and where each is of the
/// outside, so is each of both, and stays so in a book that keeps the editions. As many connections ended as the history closed.
pub fn ended_connections_join()
    ensures { EndedConnectionsJoin }
{}

/// Generations keep their editions, as `GenerationsKeepTheirEditions` in `specs/Editions.antt` says in full: while a history goes on, and
/// over a fold where they are in use, as those of all live connections are. Each new one has the number of the order that began it.
pub fn generations_keep_their_editions()
    ensures { GenerationsKeepTheirEditions }
{
    generations_begin_in_order();
}

/// What has an edition in a board has it in the whole history that the board's is left of, whatever was folded; and where the generation is
/// in use the other way round. So who keeps the edition of a connection over all entries that it saw finds it again in any board.
pub fn editions_stand_for_whole_histories()
    ensures { EditionsStandForWholeHistories }
{
    generations_keep_their_editions();
}

/// A connection that took the note of the response that was decided for it still fits its row.
pub fn answered_connections_fit_their_rows()
    ensures { AnsweredConnectionsFitTheirRows }
{
    rows_change_one_at_a_time();
}
