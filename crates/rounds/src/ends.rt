//! The passes of a round, what the next wait is told, and why the listener's turns end.
ghost use Rattle.std.specs.Prelude.{◌≡◌, ◌<◌, None, Some};
ghost use Rattle.rounds.specs.EndsInside.{why_of};

use conn_machine::Why;
use mpm_base::Moment;

/// The pass of the listener.
pub const LISTENER: u32 = 0;

/// The pass that serves.
pub(crate) const SERVER: u32 = 1;

/// Why the listener's turns end.
#[derive(Clone, Copy, PartialEq, Eq)]
pub enum End {
    /// Nothing more can come.
    Ended,
    /// A command line asks to stop.
    Asked,
    /// A wait of the front failed.
    Failed,
    /// The time of a graceful stop is over.
    Overdue,
    /// A graceful stop is at its end: each child is gone.
    Gone,
}

impl End {
    /// Why the server is stopped then. Behind a graceful stop that is at its end it isn't.
    pub fn why(self) -> Option<Why>
        ensures { result ≡ why_of self }
    {
        match self {
            End::Ended => Some(Why::FrontEnded),
            End::Asked => Some(Why::Asked),
            End::Failed => Some(Why::FrontFailed),
            End::Overdue => Some(Why::Overdue),
            End::Gone => None,
        }
    }
}

/// What the next wait of the front is told.
#[derive(Clone, Copy)]
pub struct Rest {
    /// The least deadline of a connection that waits, or of a graceful stop.
    pub until: Option<Moment>,
    /// Whether no connection is in hand or waits for service, so that time may pass.
    pub quiet: bool,
}
