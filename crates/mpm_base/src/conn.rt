//! How a connection is named, why it waits, and why it ends.
ghost use Rattle.std.specs.Prelude.{◌≡◌, ◌<◌};
ghost use Rattle.mpm_base.specs.Cause.{cause_number};

/// A moment: milliseconds since 1970-01-01 00:00:00 UTC. The greatest is `GREATEST_MOMENT`.
pub type Moment = u64;

/// The last moment of the year 9999.
pub const GREATEST_MOMENT: Moment = 253_402_300_799_999;

/// The name of a connection: its slot in the table, and how often that slot was used before.
#[derive(Clone, Copy, Debug, PartialEq, Eq)]
pub struct ConnName {
    /// The slot, from 0.
    pub slot: u32,
    /// The use number of the slot, from 0: how many connections had the slot before.
    pub life: u32,
}

/// What a parked connection waits for. Each kind has its own timeout.
#[derive(Clone, Copy, Debug, PartialEq, Eq)]
pub enum Kind {
    /// A request, or the rest of one, for Timeout.
    Reading,
    /// A further request, for KeepAliveTimeout.
    KeepAlive,
    /// Room to write, for Timeout.
    Writing,
    /// The client's close after its service ended, for 30 seconds.
    Linger,
    /// The same after a refused request, for 2 seconds.
    ShortLinger,
}

/// Why the service of a connection ended.
#[derive(Clone, Copy, Debug, PartialEq, Eq)]
pub enum Cause {
    /// The client sends no more, and each whole request was answered.
    ClientDone,
    /// The last response was sent whole.
    LastSent,
    /// No further request came within KeepAliveTimeout.
    KeepAliveLate,
    /// A request, or the rest of one, did not come within Timeout.
    ReadLate,
    /// There was no room to write for Timeout.
    WriteLate,
    /// Its child stopped to take connections while it waited for a further request.
    Retiring,
    /// A call of the link failed.
    LinkFailed,
    /// The server stopped.
    Stopped,
    /// Memory was wanted and not found.
    NoMemory,
}

impl Cause {
    /// The place of the cause, from 0, in their order.
    pub fn number(self) -> u8
        ensures is { result ≡ cause_number self }
        ensures small { result < 9 }
    {
        match self {
            Cause::ClientDone => 0,
            Cause::LastSent => 1,
            Cause::KeepAliveLate => 2,
            Cause::ReadLate => 3,
            Cause::WriteLate => 4,
            Cause::Retiring => 5,
            Cause::LinkFailed => 6,
            Cause::Stopped => 7,
            Cause::NoMemory => 8,
        }
    }
}

/// How the link of an ended connection was left.
#[derive(Clone, Copy, Debug, PartialEq, Eq)]
pub enum Tail {
    /// Closed at once, without a linger.
    Direct,
    /// The client closed its side while the link lingered.
    Drained,
    /// The greatest number of bytes to drop was dropped.
    Sated,
    /// The linger's time was over.
    Late,
    /// A call of the lingering link failed.
    Failed,
    /// The server stopped while the link lingered.
    Halted,
    /// Memory was wanted and not found.
    NoMemory,
}

/// What a whole request, or a refused one, asks of the table: what its note will say.
#[derive(Clone, Copy, Debug, PartialEq, Eq)]
pub struct Ask {
    /// The request asks to close the connection after its response (RFC 9112, section 9.6).
    pub asked_close: bool,
    /// The head or the body was refused.
    pub refused: bool,
    /// The status code of the response (RFC 9110, section 15).
    pub code: u16,
    /// The response is the status page.
    pub page: bool,
}
