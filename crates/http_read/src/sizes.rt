//! The greatest sizes of what is read.

/// A head ends within so many bytes.
pub const GREATEST_HEAD: usize = 65_536;

/// A body has at most so many bytes of data.
pub(crate) const GREATEST_BODY: u64 = 1_073_741_824;

/// A chunk line has at most so many bytes with its line end.
pub(crate) const GREATEST_CHUNK_LINE: u32 = 1_024;

/// The chunk extensions of a body have at most so many bytes in all.
pub(crate) const GREATEST_EXTENSIONS: u32 = 16_384;

/// A trailer line has at most so many bytes with its line end.
pub(crate) const GREATEST_TRAILER: u32 = 8_190;

/// A chunked body has at most so many trailer lines.
pub(crate) const MOST_TRAILERS: u32 = 100;
