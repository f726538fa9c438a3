//! The history of a board, compared with the event table.
ghost use Rattle.conn_machine.specs.Sizes.{IsSized};

use crate::opening::{CHILDREN, SHAPE, SLOTS, TestBoard};
use conn_machine::{Entry, Event, State, may, step};
use mpm_base::NoMemory;
use std::alloc::Global;

/// Whether each entry of the history, of which nothing was folded, is allowed where it stands and has the reply of the table, from the
/// opening state to the one that the board has; or, where something was folded, whether the record and the history count the
/// connections that were taken.
pub fn is_of_table(alloc: Global, board: &TestBoard) -> Result<bool, NoMemory> {
    let folded = board.folded();
    if folded.entries != 0 {
        return Ok(
            folded.accepted.saturating_add(accepts_in(board.history())) == board.state().accepted,
        );
    }
    let mut replay = Replay::open(alloc)?;
    for entry in board.history() {
        if !replay.follows(alloc, entry)? {
            return Ok(false);
        }
    }
    let state = board.state();
    Ok(
        replay.state.accepted == state.accepted
            && replay.state.newest == state.newest
            && replay.state.rows.live_count() == state.rows.live_count(),
    )
}

/// How many connections were taken.
fn accepts_in(history: &[Entry]) -> u64 {
    let mut accepts: u64 = 0;
    for entry in history {
        if let Event::Accept(_) = &entry.event {
            accepts = accepts.saturating_add(1);
        }
    }
    accepts
}

/// A state of a size that the machine takes.
#[derive(Drop)]
struct Replay {
    state: State,
    ghost sized: { IsSized state },
}

impl Replay {
    /// The state in which a board of a test opens.
    fn open(alloc: Global) -> Result<Replay, NoMemory> {
        let state = State::opening(alloc, SLOTS, CHILDREN, SHAPE)?;
        Ok(Replay { state })
    }

    /// Does the event of the entry: whether it may be done, and has the entry's reply.
    fn follows(&mut self, alloc: Global, entry: &Entry) -> Result<bool, NoMemory> {
        if !may(&self.state, &entry.event) {
            return Ok(false);
        }
        let reply = step(alloc, &mut self.state, &entry.event)?;
        Ok(reply == entry.reply)
    }
}
