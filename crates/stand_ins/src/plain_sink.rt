//! A sink that keeps nothing.
ghost use Rattle.std.specs.Prelude.{◌≡◌, length};
ghost use Rattle.mpm_base.specs.Sink.{Puts, silent_sink};

use mpm_base::{Put, Sink};

/// A sink that takes every piece whole, keeps none of it and tells nothing. No write of it fails.
#[derive(Clone, Copy)]
pub struct PlainSink;

impl Sink for PlainSink {
    ghost seen = { λ s. silent_sink 0 };

    /// Takes the whole piece.
    fn write(&mut self, bytes: &[u8]) -> Put
        ensures sink { Puts (silent_sink 0) (silent_sink 0) result bytes.now }
        ensures answer { result ≡ Put.Put (length bytes.now) }
    {
        Put::Put(bytes.len() as u64)
    }
}
