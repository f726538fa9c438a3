//! Sending a command line to a server of this machine, and reading what it answers.
//! Why it is so stands in docs/DECISIONS.md: 113, What comes back of a dial.
ghost use Rattle.std.specs.Prelude.{◌≡◌, ◌<◌, ◌≤◌, [], ◌∷◌, ◌++◌, true, false, is_ok, length, take, IfOk, OnOk};
ghost use Rattle.std.specs.Io.KnownBytes.{Appends, Consumes, IsAtEnd};
ghost use Rattle.socket_outside.specs.Dialling.{ReadsOn, ReadsOut};

use crate::addresses::control_address;
use mpm_base::{MOST_ANSWER, Octets};
use socket_links::CALLS;
use std::io::{self, ErrorKind, Read, Write};
use std::net::{Net, OpenStream};
use system_outside::Operator;

/// How many bytes are read at once.
const PIECE: usize = 256;

/// Sends the word and a line feed to that port of this machine, and reads until the server closes: the first 512 bytes of that are the
/// answer. It answers false where a call failed, of which the operator hears, and then there is none. Room for the answer is taken before all
/// else, so that nothing is sent where memory lacks for it.
pub(crate) fn dial<R: Net + Eprint>(
    net: &R,
    operator: &Operator<'_, R>,
    port: u16,
    word: &str,
    answer: &mut Octets,
) -> bool
    ensures few { length answer.new ≤ 512 }
    ensures none { result ≡ false → answer.new ≡ [] }
{
    let address = control_address(port);
    answer.clear();
    let sent = match answer.reserve(MOST_ANSWER) {
        Ok(()) => send_over(net.connect(address), word, answer),
        Err(_) => Err(io::Error::from(ErrorKind::OutOfMemory)),
    };
    match sent {
        Ok(()) => true,
        Err(error) => {
            answer.clear();
            operator.hear_of_fault("send a command to", address, error);
            false
        }
    }
}

/// Sends the line over the connection, and reads to the end. It fails where no connection could be made.
fn send_over<S: Read + Write + OpenStream + Drop>(
    connected: io::Result<S>,
    word: &str,
    answer: &mut Octets,
) -> io::Result<()>
    requires empty { answer.old ≡ [] }
    ensures connected { OnOk result (is_ok connected ≡ true) }
    ensures few { length answer.new ≤ 512 }
{
    match connected {
        Ok(stream) => {
            let mut stream = stream;
            exchange(&mut stream, word, answer)
        }
        Err(error) => Err(error),
    }
}

/// Sends the line, without a delay between its pieces, and reads to the end. The first 512 bytes of what it reads are the answer. It fails
/// where the stream wasn't read to its end.
pub fn exchange<S: Read + Write + OpenStream>(
    stream: &mut S,
    word: &str,
    answer: &mut Octets,
) -> io::Result<()>
    requires empty { answer.old ≡ [] }
    ensures end { OnOk result (IsAtEnd (S.remaining stream.new)) }
    ensures few { length answer.new ≤ 512 }
    ensures all { OnOk result ((sent : S)
        × Appends (S.contents stream.old) (S.contents sent) (word.now ++ 10 ∷ [])
        × ReadsOut (S.remaining sent) (S.remaining stream.new) answer.new) }
{
    stream.set_nodelay(true)?;
    send_line(stream, word)?;
    read_out(stream, answer)
}

/// Writes the word and a line feed. It fails where a write failed or wasn't ready.
pub fn send_line<S: Write>(socket: &mut S, word: &str) -> io::Result<()>
    ensures { OnOk result
        (Appends (S.contents socket.old) (S.contents socket.new) (word.now ++ 10 ∷ [])) }
{
    socket.write_all(word.as_bytes())?;
    socket.write_all(b"\n")
}

/// Reads to the end. The first 512 bytes of what it reads are the answer, and the rest is dropped. It fails where a read failed or wasn't
/// ready, where no end came, and where memory lacks.
pub fn read_out<S: Read>(socket: &mut S, answer: &mut Octets) -> io::Result<()>
    requires empty { answer.old ≡ [] }
    ensures end { OnOk result (IsAtEnd (S.remaining socket.new)) }
    ensures few { length answer.new ≤ 512 }
    ensures all { OnOk result
        (ReadsOut (S.remaining socket.old) (S.remaining socket.new) answer.new) }
{
    for _ in 0..u64::MAX {
        if !read_on(socket, answer)? {
            return Ok(());
        }
    }
    Err(io::Error::from(ErrorKind::FileTooLarge))
}

/// Reads once, and puts what comes behind the answer, as far as that may have it. Whether more may come.
fn read_on<S: Read>(socket: &mut S, answer: &mut Octets) -> io::Result<bool>
    requires few { length answer.old ≤ 512 }
    ensures few { length answer.new ≤ 512 }
    ensures reads { OnOk result (ReadsOn (S.remaining socket.old) (S.remaining socket.new)
        answer.old answer.new) }
    ensures end { IfOk result (λ more. more ≡ false → IsAtEnd (S.remaining socket.new)) }
{
    let mut piece = [0; PIECE];
    let count = read_again(socket, &mut piece)?;
    keep(answer, &piece[..count])?;
    Ok(count > 0)
}

/// Puts the bytes behind the answer, as far as it may have them.
fn keep(answer: &mut Octets, bytes: &[u8]) -> io::Result<()>
    requires few { length answer.old ≤ 512 }
    ensures few { length answer.new ≤ 512 }
    ensures kept { OnOk result (answer.new ≡ take 512 (answer.old ++ bytes.now)) }
{
    let room = MOST_ANSWER - answer.len();
    let kept = bytes.len().min(room);
    match answer.add(&bytes[..kept]) {
        Ok(()) => Ok(()),
        Err(_) => Err(io::Error::from(ErrorKind::OutOfMemory)),
    }
}

/// Reads once, and answers how many bytes: none only at the end. A read that is interrupted is asked again, and fails at last.
fn read_again<S: Read>(socket: &mut S, buffer: &mut [u8]) -> io::Result<usize>
    ensures few { IfOk result (λ n. n ≤ length buffer.new) }
    ensures reads { IfOk result (λ n. Consumes (S.remaining socket.old) (S.remaining socket.new)
        (take n buffer.new)) }
    ensures end { IfOk result
        (λ n. n ≡ 0 → 0 < length buffer.new → IsAtEnd (S.remaining socket.new)) }
{
    for _ in 1..CALLS {
        match socket.read(buffer) {
            Err(error) if error.kind() == ErrorKind::Interrupted => (),
            answer => return answer,
        }
    }
    socket.read(buffer)
}
