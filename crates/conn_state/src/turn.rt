//! What the turns of a connection answer.
//! Why it is so stands in docs/DECISIONS.md: 27, The last turn of a connection.
ghost use Rattle.std.specs.Prelude.{◌≡◌};
ghost use Rattle.conn_state.specs.Turns.{after_half_close, after_linger, after_reading, after_writing};

use mpm_base::Ask;

/// What a turn of reading found.
#[derive(Clone, Copy, Debug, PartialEq, Eq)]
pub enum ReadTurn {
    /// The next request is whole, or refused: what it asks of the table.
    Asked(Ask),
    /// The head of the next request was accepted, and what tells its client to send the body is pending.
    Interim,
    /// The link has nothing more at this moment; no request is whole, and none is refused.
    More,
    /// The client sends no more; no request is whole, and none is refused.
    Gone,
    /// A call of the link failed.
    LinkFailed,
    /// Memory was wanted and not found.
    NoMemory,
}

/// What a turn of writing did.
#[derive(Clone, Copy, Debug, PartialEq, Eq)]
pub enum WriteTurn {
    /// Nothing is pending.
    Done,
    /// The link has no room at this moment.
    NotReady,
    /// A call of the link failed.
    LinkFailed,
}

/// What the last turn of a connection answered.
#[derive(Clone, Copy, Debug, PartialEq, Eq)]
pub enum LastTurn {
    /// There was none.
    New,
    /// A turn of reading found what a request asks, which waits for its response.
    Asked(Ask),
    /// A turn of reading found a client that waits to be told to send the body; what tells it is pending.
    Interim,
    /// The note was taken, and its response is pending.
    Answered,
    /// A turn of reading found no whole request.
    More,
    /// A turn of reading found that the client sends no more.
    Gone,
    /// A turn of writing sent all that was pending.
    Done,
    /// A turn of writing found no room.
    NotReady,
    /// A call of the link failed.
    LinkFailed,
    /// Memory was wanted and not found.
    NoMemory,
}

/// What a turn of lingering found.
#[derive(Clone, Copy, Debug, PartialEq, Eq)]
pub enum LingerTurn {
    /// The client closed its side.
    Drained,
    /// All the bytes were dropped that a linger drops: 1,048,576.
    Sated,
    /// The link has nothing more at this moment.
    NotReady,
    /// A call of the link failed.
    LinkFailed,
}

/// How far a connection is on its way out.
#[derive(Clone, Copy, Debug, PartialEq, Eq)]
pub enum LastLinger {
    /// Its link was not half-closed yet.
    Open,
    /// The half-close of its link failed.
    ShutFailed,
    /// Its link was half-closed, and there was no turn of lingering.
    Shut,
    /// The last turn of lingering found that the client closed its side.
    Drained,
    /// The last turn of lingering dropped all that a linger drops.
    Sated,
    /// The last turn of lingering found that the link has nothing more at that moment.
    NotReady,
    /// A call of the link failed in the last turn of lingering.
    LinkFailed,
}

impl ReadTurn {
    /// The last turn, where a turn of reading answered so.
    pub(crate) fn leaves(self) -> LastTurn
        ensures { result ≡ after_reading self }
    {
        match self {
            ReadTurn::Asked(ask) => LastTurn::Asked(ask),
            ReadTurn::Interim => LastTurn::Interim,
            ReadTurn::More => LastTurn::More,
            ReadTurn::Gone => LastTurn::Gone,
            ReadTurn::LinkFailed => LastTurn::LinkFailed,
            ReadTurn::NoMemory => LastTurn::NoMemory,
        }
    }
}

impl WriteTurn {
    /// The last turn, where a turn of writing answered so.
    pub(crate) fn leaves(self) -> LastTurn
        ensures { result ≡ after_writing self }
    {
        match self {
            WriteTurn::Done => LastTurn::Done,
            WriteTurn::NotReady => LastTurn::NotReady,
            WriteTurn::LinkFailed => LastTurn::LinkFailed,
        }
    }
}

impl LingerTurn {
    /// How far a connection is on its way out, where a turn of lingering answered so.
    pub(crate) fn leaves(self) -> LastLinger
        ensures { result ≡ after_linger self }
    {
        match self {
            LingerTurn::Drained => LastLinger::Drained,
            LingerTurn::Sated => LastLinger::Sated,
            LingerTurn::NotReady => LastLinger::NotReady,
            LingerTurn::LinkFailed => LastLinger::LinkFailed,
        }
    }
}

impl LastLinger {
    /// How far a connection is on its way out, where the half-close was made, or failed.
    pub(crate) fn after_half_close(made: bool) -> LastLinger
        ensures { result ≡ after_half_close made }
    {
        if made {
            LastLinger::Shut
        } else {
            LastLinger::ShutFailed
        }
    }
}
