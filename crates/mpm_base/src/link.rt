//! A connection's way to its client.
//! Why it is so stands in docs/DECISIONS.md: 29, Two pieces in one write.

/// What a read of a link answers.
#[derive(Clone, Copy, Debug, PartialEq, Eq)]
pub enum Got {
    /// So many bytes stand at the front of the buffer: at least one where the buffer is not empty.
    Got(u64),
    /// The client sends no more.
    End,
    /// There is nothing to take at this moment.
    NotReady,
    /// The call failed.
    Failed,
}

/// What a write to a link answers.
#[derive(Clone, Copy, Debug, PartialEq, Eq)]
pub enum Sent {
    /// So many bytes of the piece were taken: at least one where the piece is not empty.
    Put(u64),
    /// There is no room at this moment.
    NotReady,
    /// The call failed.
    Failed,
}

/// One connection's way to its client. No call waits.
///
/// What a link tells of itself (`told`) is there only where the object tells it: the links of a script do,
/// a real socket does not. Its counts are there for every link.
pub trait Link: Drop {
    ghost use Rattle.std.specs.Prelude.{◌≡◌, ◌++◌, length, Option, option_map};
    ghost use Rattle.mpm_base.specs.Link.{LinkSeen, LinkCalls, Reads, Writes, Shuts, Closes, with_read, with_write};

    /// What it tells: what was received and sent, and whether it was half-closed or closed; and its counts of faults, of calls
    /// that were not ready, and of reads that found the end, none of which ever falls.
    ghost seen: { Self → LinkSeen };

    /// Of a link that tells its calls, how many bytes each of them was for, and what it answered. The links of a script don't.
    ghost calls: { Self → Option LinkCalls };

    /// Reads into the front of the buffer.
    fn read(&mut self, buffer: &mut [u8]) -> Got
        ensures reads { Reads (seen self.old) (seen self.new) result buffer.new }
        ensures asks { calls self.new
            ≡ option_map (with_read (length buffer.new) result) (calls self.old) };

    /// Writes from the front of the piece.
    fn write(&mut self, bytes: &[u8]) -> Sent
        ensures writes { Writes (seen self.old) (seen self.new) result bytes.now }
        ensures offers { calls self.new
            ≡ option_map (with_write (length bytes.now) result) (calls self.old) };

    /// Writes from the front of the one piece followed by the other, by one call.
    fn write_pair(&mut self, first: &[u8], second: &[u8]) -> Sent
        ensures writes { Writes (seen self.old) (seen self.new) result (first.now ++ second.now) }
        ensures offers { calls self.new
            ≡ option_map (with_write (length (first.now ++ second.now)) result)
            (calls self.old) };

    /// Half-closes the link: the client is told that no more comes. False where the call failed.
    fn shut(&mut self) -> bool
        ensures { Shuts (seen self.old) (seen self.new) result };

    /// Closes the link.
    fn close(&mut self)
        ensures { Closes (seen self.old) (seen self.new) };
}
