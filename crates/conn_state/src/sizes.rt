//! How many bytes a connection takes, offers and drops.

/// A link is asked for at most so many bytes at once.
pub(crate) const READ_PIECE: usize = 4_096;

/// Of a body a link is offered at most so many bytes at once.
pub(crate) const WRITE_PIECE: u64 = 65_536;

/// A connection that lingers drops at most so many bytes.
pub(crate) const MOST_DROPPED: usize = 1_048_576;
