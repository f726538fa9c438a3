//! What a command line is read from.

use mio::net::TcpStream;
use mpm_base::Got;
use socket_links::read_some;
use std::io::Read;

/// What a command line is read from. Which bytes it has left, and what its reads answered, is known only where it tells that: a socket
/// doesn't.
pub trait Speaker {
    ghost use Rattle.std.specs.Prelude.{Option, List, [], ◌∷◌, ℕ, length};
    ghost use Rattle.mpm_base.specs.Link.{FitsBuffer};
    ghost use Rattle.mpm_base.specs.declared.link.Got.{Got};
    ghost use Rattle.socket_links.specs.Answers.{ReadsSome};
    ghost use Rattle.socket_outside.specs.CommandLines.{AnswersMore};

    /// The bytes that it has left.
    ghost left: { Self → Option (List ℕ) };

    /// What each read of it answered so far.
    ghost answered: { Self → Option (List Got) };

    /// Reads into the front of the buffer.
    fn speak(&mut self, buffer: &mut [u8]) -> Got
        ensures fits { FitsBuffer result (length buffer.new) }
        ensures bytes { ReadsSome (left self.old) (left self.new) result buffer.new }
        ensures tells { AnswersMore (answered self.old) (answered self.new) (result ∷ []) };
}

impl Speaker for TcpStream {
    ghost use Rattle.std.specs.Prelude.{None};

    ghost left = { λ socket. ⟦<TcpStream as Read>⟧.remaining socket };

    ghost answered = { λ socket. None };

    fn speak(&mut self, buffer: &mut [u8]) -> Got {
        read_some(self, buffer)
    }
}
