//! Taking connections off a listening socket.
ghost use Rattle.std.specs.Prelude.{◌≡◌, ◌≢◌, IfErr};
ghost use Rattle.std.specs.IoError.{error_kind};
ghost use Rattle.socket_links.specs.Accepting.{none_for};

use mio::net::{TcpListener, TcpStream};
use std::io::{self, ErrorKind};

/// How often the system is asked for a connection in one call: once, and again behind 64 that are passed over.
const CALLS: u32 = 65;

/// Why there is no connection to take.
#[derive(Clone, Copy, Debug, PartialEq, Eq)]
pub enum NoStream {
    /// None waits.
    NoneWaits,
    /// The one that waited was given up by its client, or the call was interrupted: the next may be taken.
    PassedOver,
    /// The call failed.
    Failed,
}

/// Why there is no connection, by the system's error.
pub fn none_for(error: &io::Error) -> NoStream
    ensures { result ≡ none_for (error_kind error.now) }
{
    match error.kind() {
        ErrorKind::WouldBlock => NoStream::NoneWaits,
        ErrorKind::ConnectionAborted | ErrorKind::Interrupted => NoStream::PassedOver,
        _ => NoStream::Failed,
    }
}

/// The connection that waited, set to send small pieces at once. One that can't be set so is passed over.
fn accept_one(listener: &TcpListener) -> Result<TcpStream, NoStream> {
    match listener.accept() {
        Ok((stream, _)) => match stream.set_nodelay(true) {
            Ok(()) => Ok(stream),
            Err(_) => Err(NoStream::PassedOver),
        },
        Err(error) => Err(none_for(&error)),
    }
}

/// The next connection that waits. It answers Failed too where 64 were passed over.
pub fn accept_next(listener: &TcpListener) -> Result<TcpStream, NoStream>
    ensures { IfErr result (λ none. none ≢ NoStream.PassedOver) }
{
    for _ in 0..CALLS {
        match accept_one(listener) {
            Err(NoStream::PassedOver) => (),
            answer => return answer,
        }
    }
    Err(NoStream::Failed)
}
