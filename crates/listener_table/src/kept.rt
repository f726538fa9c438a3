//! What a table keeps of the state, behind a call that changes it or doesn't.
ghost use Rattle.std.specs.Prelude.{◌≡◌, ◌<◌, ◌+◌, ◌&&◌, max, not, if◌then◌else◌};
ghost use Rattle.board_book.specs.Moments.{moment_for};
ghost use Rattle.conn_machine.specs.States.{is_serving};
ghost use Rattle.conn_machine.specs.Table.{greatest_generation};

use conn_machine::Going;
use mpm_base::{GREATEST_MOMENT, Moment};

/// The present moment behind a call in which time passed to the moment that a clock gave, or didn't.
pub(crate) fn moment_behind(present: Moment, moment: Moment, passed: bool) -> Moment
    ensures { result ≡ (if passed then max present (moment_for moment) else present) }
{
    if passed {
        present.max(moment.min(GREATEST_MOMENT))
    } else {
        present
    }
}

/// The number of the newest generation behind a call that began one, or didn't.
pub(crate) fn newest_behind(newest: u32, begun: bool) -> u32
    requires { newest < greatest_generation }
    ensures { result ≡ (if begun then newest + 1 else newest) }
{
    if begun { newest + 1 } else { newest }
}

/// How the server goes on behind a call that made it go on so, or didn't.
pub(crate) fn going_behind(going: Going, next: Going, made: bool) -> Going
    ensures { result ≡ (if made then next else going) }
{
    if made { next } else { going }
}

/// Whether a server is gone that goes on so, and of which some child is there, or none: it takes no connections, and each child is gone.
pub(crate) fn is_gone_with(going: Going, staffed: bool) -> bool
    ensures { result ≡ (not (is_serving going) && not staffed) }
{
    !going.is_serving() && !staffed
}
