//! What the answers of turns of a connection leave, and what that lets it do.
ghost use Rattle.std.specs.Prelude.{◌≡◌};
ghost use Rattle.conn_state.specs.Conn as spec;
ghost use Rattle.conn_state.specs.Turns.{after_linger, after_reading, after_writing};

use conn_state::{LastLinger, LastTurn, LingerTurn, ReadTurn, WriteTurn};

/// Whether nothing failed so far.
pub fn is_usable(turn: LastTurn) -> bool
    ensures { result ≡ spec.is_usable turn }
{
    match turn {
        LastTurn::New => true,
        LastTurn::Asked(_) => true,
        LastTurn::Interim => true,
        LastTurn::Answered => true,
        LastTurn::More => true,
        LastTurn::Gone => true,
        LastTurn::Done => true,
        LastTurn::NotReady => true,
        LastTurn::LinkFailed => false,
        LastTurn::NoMemory => false,
    }
}

/// Whether the link was half-closed.
pub fn is_half_closed(linger: LastLinger) -> bool
    ensures { result ≡ spec.is_half_closed linger }
{
    match linger {
        LastLinger::Open => false,
        LastLinger::ShutFailed => false,
        LastLinger::Shut => true,
        LastLinger::Drained => true,
        LastLinger::Sated => true,
        LastLinger::NotReady => true,
        LastLinger::LinkFailed => true,
    }
}

/// Whether the connection lingers, so that more may be dropped.
pub fn lingers(linger: LastLinger) -> bool
    ensures { result ≡ spec.lingers linger }
{
    match linger {
        LastLinger::Open => false,
        LastLinger::ShutFailed => false,
        LastLinger::Shut => true,
        LastLinger::Drained => false,
        LastLinger::Sated => false,
        LastLinger::NotReady => true,
        LastLinger::LinkFailed => false,
    }
}

/// The last turn, where a turn of reading answered so.
pub fn left_by_read(turn: ReadTurn) -> LastTurn
    ensures { result ≡ after_reading turn }
{
    match turn {
        ReadTurn::Asked(ask) => LastTurn::Asked(ask),
        ReadTurn::Interim => LastTurn::Interim,
        ReadTurn::More => LastTurn::More,
        ReadTurn::Gone => LastTurn::Gone,
        ReadTurn::LinkFailed => LastTurn::LinkFailed,
        ReadTurn::NoMemory => LastTurn::NoMemory,
    }
}

/// The last turn, where a turn of writing answered so.
pub fn left_by_write(turn: WriteTurn) -> LastTurn
    ensures { result ≡ after_writing turn }
{
    match turn {
        WriteTurn::Done => LastTurn::Done,
        WriteTurn::NotReady => LastTurn::NotReady,
        WriteTurn::LinkFailed => LastTurn::LinkFailed,
    }
}

/// How far a connection is on its way out, where a turn of lingering answered so.
pub fn left_by_drop(turn: LingerTurn) -> LastLinger
    ensures { result ≡ after_linger turn }
{
    match turn {
        LingerTurn::Drained => LastLinger::Drained,
        LingerTurn::Sated => LastLinger::Sated,
        LingerTurn::NotReady => LastLinger::NotReady,
        LingerTurn::LinkFailed => LastLinger::LinkFailed,
    }
}
