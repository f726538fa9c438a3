//! A writer as a sink.
ghost use Rattle.std.specs.Prelude.{◌≡◌, None, length};
ghost use Rattle.std.specs.Io.KnownBytes.{Appends};
ghost use Rattle.mpm_base.specs.Sink.{FitsOutput, Puts, put_bytes, silent_sink};
ghost use Rattle.system_outside.specs.Output.{put_for};

use mpm_base::{Put, Sink};
use std::io::{self, Write};

/// The output over a writer, as standard output is one. It tells nothing.
#[derive(Drop)]
pub struct Output<W: Write + Drop> {
    writer: W,
    faults: u64,
}

impl<W: Write + Drop> Output<W> {
    /// The output over the writer.
    pub fn new(writer: W) -> Output<W> {
        Output { writer, faults: 0 }
    }
}

impl<W: Write + Drop> Sink for Output<W> {
    ghost seen = { λ o. silent_sink o.faults };

    fn write(&mut self, bytes: &[u8]) -> Put
        ensures sink { Puts (silent_sink self.old.faults) (silent_sink self.new.faults)
            result bytes.now }
        ensures writer { Appends (W.contents self.old.writer) (W.contents self.new.writer)
            (put_bytes result bytes.now) }
    {
        let put = write_piece(&mut self.writer, bytes);
        if put == Put::Failed {
            self.faults = self.faults.saturating_add(1);
        }
        put
    }
}

/// Writes from the front of the piece to the writer, which then holds just what was taken of it.
fn write_piece<W: Write>(writer: &mut W, piece: &[u8]) -> Put
    ensures fits { FitsOutput result (length piece.now) }
    ensures bytes { Appends (W.contents writer.old) (W.contents writer.new)
        (put_bytes result piece.now) }
{
    put_of(writer.write(piece), piece)
}

/// What the answer to a write says of the piece. A write that took nothing of one that isn't empty failed.
pub fn put_of(answer: io::Result<usize>, piece: &[u8]) -> Put
    ensures { result ≡ put_for answer piece.now }
{
    match answer {
        Ok(0) if !piece.is_empty() => Put::Failed,
        Ok(count) => Put::Put(count as u64),
        Err(_) => Put::Failed,
    }
}
