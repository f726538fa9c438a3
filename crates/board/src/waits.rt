//! The timeout queues of a board: which of its rows wait.
ghost use Rattle.std.specs.Prelude.{◌≡◌, true, is_some, slice_set};
ghost use Rattle.timeout_queues.specs.Waiting.{IsFree};
ghost use Rattle.board.specs.QueuesInside.{waits_under};

use conn_machine::{Place, State};
use mpm_base::ConnName;
use timeout_queues::Queues;

/// Parks the name as its row waits.
pub(crate) fn wait_in_queue(queues: &mut Queues, state: &State, name: ConnName)
    requires free { IsFree queues.old name.slot }
    requires waits { is_some (waits_under state.now.rows name) ≡ true }
    ensures { queues.new ≡ slice_set queues.old name.slot (waits_under state.now.rows name) }
{
    let Some(row) = state.rows.live(name) else {
        unreachable!()
    };
    let Place::Parked(kind) = row.place else {
        unreachable!()
    };
    queues.park(name, kind, row.deadline);
}
