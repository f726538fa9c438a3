//! Where the texts of a run and the lines of a log go.

/// What a write to a sink answers.
#[derive(Clone, Copy, Debug, PartialEq, Eq)]
pub enum Put {
    /// So many bytes of the piece were taken: at least one where the piece is not empty.
    Put(u64),
    /// The call failed, and took nothing.
    Failed,
}

/// An output, as standard output is one.
pub trait Sink {
    ghost use Rattle.mpm_base.specs.Sink.{SinkSeen, Puts};

    /// The bytes written, where the object tells them; its count of faults, which rises where a call fails and never falls; and, of a log
    /// that tells, under which names it was opened.
    ghost seen: { Self → SinkSeen };

    /// Writes from the front of the piece.
    fn write(&mut self, bytes: &[u8]) -> Put
        ensures { Puts (seen self.old) (seen self.new) result bytes.now };
}

/// A log: an output that is opened under a name, and may be opened anew, under the same name or another. What is written goes to what was
/// opened last.
pub trait Logs: Sink {
    ghost use Rattle.mpm_base.specs.Sink.{Begins};

    /// Opens the log under the name, behind what stands there already. False where the call failed: then what was opened before stays
    /// open.
    fn begin(&mut self, name: &str) -> bool
        ensures { Begins (Self.seen self.old) (Self.seen self.new) name.now result };
}
