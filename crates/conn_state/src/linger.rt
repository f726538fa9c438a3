//! What a turn of lingering of a connection does.
//! Why it is so stands in docs/DECISIONS.md: 33, How a connection lingers.
ghost use Rattle.std.specs.Prelude.{◌<◌, ◌-◌, min};
ghost use Rattle.conn_state.specs.Calls.{DropsAll};
ghost use Rattle.conn_state.specs.CallsInside.{DropsOnce};
ghost use Rattle.conn_state.specs.LingerInside.{DropsOn, DropsPiece};
ghost use Rattle.conn_state.specs.Sizes.{most_dropped, read_piece};

use crate::sizes::{MOST_DROPPED, READ_PIECE};
use crate::turn::LingerTurn;
use mpm_base::{Got, Link};

/// Reads and drops what the link has, until it gives no more or as many bytes were dropped in all as may be. `dropped` counts
/// them, also those of earlier calls.
pub fn drop_rest<L: Link>(link: &mut L, dropped: &mut usize) -> LingerTurn
    requires { dropped.old < most_dropped }
    ensures drops { DropsOn (L.seen link.old).told (L.seen link.new).told
        (L.seen link.old).counts (L.seen link.new).counts
        dropped.old dropped.new result }
    ensures rooms { DropsAll (L.calls link.old) (L.calls link.new) dropped.old }
{
    while *dropped < MOST_DROPPED {
        if let Some(turn) = drop_piece(link, dropped) {
            return turn;
        }
    }
    LingerTurn::Sated
}

/// Reads and drops what the link has, at most a piece, and no more than is left to drop. None where bytes came.
fn drop_piece<L: Link>(link: &mut L, dropped: &mut usize) -> Option<LingerTurn>
    requires { dropped.old < most_dropped }
    ensures drops { DropsPiece (L.seen link.old).told (L.seen link.new).told
        (L.seen link.old).counts (L.seen link.new).counts
        dropped.old dropped.new result }
    ensures asks { DropsOnce (L.calls link.old) (L.calls link.new)
        (min read_piece (most_dropped - dropped.old)) dropped.old dropped.new result }
{
    let mut buffer = [0; READ_PIECE];
    let room = READ_PIECE.min(MOST_DROPPED - *dropped);
    match link.read(&mut buffer[..room]) {
        Got::Got(count) => {
            *dropped += count as usize;
            None
        }
        Got::End => Some(LingerTurn::Drained),
        Got::NotReady => Some(LingerTurn::NotReady),
        Got::Failed => Some(LingerTurn::LinkFailed),
    }
}
