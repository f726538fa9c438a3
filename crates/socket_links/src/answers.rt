//! From the system's answer to a call of a socket to the answer of a link.
//! Why it is so stands in docs/DECISIONS.md: 85, What links, front and clock take of the system.
ghost use Rattle.std.specs.Prelude.{◌≡◌, ◌++◌, Some, true, IfSome, length, is_ok, MatchOption, MatchResult};
ghost use Rattle.std.specs.Io.KnownBytes.{Keeps};
ghost use Rattle.std.specs.IoError.{error_kind};
ghost use Rattle.mpm_base.specs.Link.{FitsBuffer, FitsPiece};
ghost use Rattle.socket_links.specs.Answers.{ReadsSome, WritesSome, got_of_count, got_of_error, leaves_some, sent_of_count, sent_of_error, woke_of_error};

use mio::net::TcpStream;
use mpm_base::{Got, Sent};
use std::io::{self, ErrorKind, IoSlice, Read, Write};

/// How often a call is made at most where it is interrupted: once, and asked again 64 times.
pub const CALLS: u32 = 65;

/// What a read into so much room answers, or none where it was interrupted and is asked again.
pub fn got_for(answer: io::Result<usize>, room: usize) -> Option<Got>
    ensures { MatchResult answer
        (λ n. result ≡ Some (got_of_count n room))
        (λ e. result ≡ got_of_error (error_kind e)) }
{
    match answer {
        Ok(0) if room > 0 => Some(Got::End),
        Ok(count) => Some(Got::Got(count as u64)),
        Err(error) => match error.kind() {
            ErrorKind::WouldBlock => Some(Got::NotReady),
            ErrorKind::Interrupted => None,
            _ => Some(Got::Failed),
        },
    }
}

/// What a write of so many bytes answers, or none where it was interrupted and is asked again.
pub fn sent_for(answer: io::Result<usize>, size: usize) -> Option<Sent>
    ensures { MatchResult answer
        (λ n. result ≡ Some (sent_of_count n size))
        (λ e. result ≡ sent_of_error (error_kind e)) }
{
    match answer {
        Ok(0) if size > 0 => Some(Sent::Failed),
        Ok(count) => Some(Sent::Put(count as u64)),
        Err(error) => match error.kind() {
            ErrorKind::WouldBlock => Some(Sent::NotReady),
            ErrorKind::Interrupted => None,
            _ => Some(Sent::Failed),
        },
    }
}

/// Whether a write of so many bytes that answered this leaves something to be written.
pub fn lacks_room(sent: Sent, size: usize) -> bool
    ensures { result ≡ leaves_some sent size }
{
    match sent {
        Sent::Put(count) => count != size as u64,
        Sent::NotReady | Sent::Failed => true,
    }
}

/// Whether a wait woke, or none where it was interrupted and is asked again.
pub fn woke_for(answer: io::Result<()>) -> Option<bool>
    ensures { MatchResult answer
        (λ woke. result ≡ Some true)
        (λ e. result ≡ woke_of_error (error_kind e)) }
{
    match answer {
        Ok(()) => Some(true),
        Err(error) => match error.kind() {
            ErrorKind::Interrupted => None,
            _ => Some(false),
        },
    }
}

/// What a half-close answers. It fails where the socket isn't connected.
pub fn shut_for(answer: io::Result<()>) -> bool
    ensures { result ≡ is_ok answer }
{
    answer.is_ok()
}

/// Reads once into the front of the buffer. It answers None where it was interrupted.
fn read_once<S: Read>(socket: &mut S, buffer: &mut [u8]) -> Option<Got>
    ensures fits { IfSome result (λ got. FitsBuffer got (length buffer.new)) }
    ensures bytes { MatchOption result
        (Keeps (S.remaining socket.old) (S.remaining socket.new))
        (λ got. ReadsSome (S.remaining socket.old) (S.remaining socket.new) got buffer.new) }
{
    let answer = socket.read(buffer);
    got_for(answer, buffer.len())
}

/// Writes once from the front of the piece. It answers None where it was interrupted.
fn write_once<S: Write>(socket: &mut S, piece: &[u8]) -> Option<Sent>
    ensures fits { IfSome result (λ sent. FitsPiece sent (length piece.now)) }
    ensures bytes { MatchOption result
        (Keeps (S.contents socket.old) (S.contents socket.new))
        (λ sent. WritesSome (S.contents socket.old) (S.contents socket.new) sent piece.now) }
{
    let answer = socket.write(piece);
    sent_for(answer, piece.len())
}

/// Writes once from the front of the one piece followed by the other, by one call. It answers None where it was interrupted.
fn write_pair_once(socket: &TcpStream, first: &[u8], second: &[u8]) -> Option<Sent>
    ensures { IfSome result (λ sent. FitsPiece sent (length (first.now ++ second.now))) }
{
    let pieces = [IoSlice::new(first), IoSlice::new(second)];
    let answer = socket.write_vectored(&pieces);
    sent_for(answer, first.len() + second.len())
}

/// Reads into the front of the buffer. A read that is interrupted is asked again, and fails at last.
pub fn read_some<S: Read>(socket: &mut S, buffer: &mut [u8]) -> Got
    ensures fits { FitsBuffer result (length buffer.new) }
    ensures bytes { ReadsSome (S.remaining socket.old) (S.remaining socket.new) result buffer.new }
{
    for _ in 0..CALLS {
        if let Some(got) = read_once(socket, buffer) {
            return got;
        }
    }
    Got::Failed
}

/// Writes from the front of the piece. A write that is interrupted is asked again, and fails at last.
pub fn write_some<S: Write>(socket: &mut S, piece: &[u8]) -> Sent
    ensures fits { FitsPiece result (length piece.now) }
    ensures bytes { WritesSome (S.contents socket.old) (S.contents socket.new) result piece.now }
{
    for _ in 0..CALLS {
        if let Some(sent) = write_once(socket, piece) {
            return sent;
        }
    }
    Sent::Failed
}

/// Writes from the front of the one piece followed by the other, and names an empty one to nobody. A write that is interrupted is asked
/// again, and fails at last.
pub(crate) fn write_pair_some(socket: &mut TcpStream, first: &[u8], second: &[u8]) -> Sent
    ensures { FitsPiece result (length (first.now ++ second.now)) }
{
    if first.is_empty() {
        return write_some(socket, second);
    }
    if second.is_empty() {
        return write_some(socket, first);
    }
    for _ in 0..CALLS {
        if let Some(sent) = write_pair_once(socket, first, second) {
            return sent;
        }
    }
    Sent::Failed
}
