//! Writes the line of a response.
ghost use Rattle.std.specs.Prelude.{◌≡◌, ◌++◌, OnOk, OnErr};
ghost use Rattle.mpm_base.specs.Moment.{IsSecond};
ghost use Rattle.access_log.specs.LogTime.{parts_at, time_text};
ghost use Rattle.access_log.specs.LogLine as spec;

use crate::escaping::add_escaped;
use crate::log_time::time_text;
use mpm_base::{NoMemory, Octets};
use std::alloc::Global;

/// Room for a line without its request line. None takes more: at most 15 bytes of an address, 6 behind it, 20 of the time, 9 and 2 round
/// the request line, 5 of a code, 20 of a size, a space and the line feed.
const USUAL_ROOM: usize = 80;

/// Adds the numbers of an address in decimal, with points between them.
fn add_address(out: &mut Octets, peer: [u8; 4]) -> Result<(), NoMemory>
    ensures { OnOk result (out.new ≡ out.old ++ spec.address_text peer) }
{
    out.add_number(peer[0] as u64)?;
    out.add(b".")?;
    out.add_number(peer[1] as u64)?;
    out.add(b".")?;
    out.add_number(peer[2] as u64)?;
    out.add(b".")?;
    out.add_number(peer[3] as u64)
}

/// Adds the request line as it stands between the quotes.
fn add_quoted(out: &mut Octets, line: &[u8]) -> Result<(), NoMemory>
    ensures { OnOk result (out.new ≡ out.old ++ spec.quoted_text line.now) }
{
    if line.is_empty() {
        out.add(b"-")
    } else {
        add_escaped(out, line)
    }
}

/// Adds a size.
fn add_size(out: &mut Octets, size: u64) -> Result<(), NoMemory>
    ensures { OnOk result (out.new ≡ out.old ++ spec.size_text size) }
{
    if size == 0 {
        out.add(b"-")
    } else {
        out.add_number(size)
    }
}

/// Adds the line of a response to one that is begun.
fn add_line(
    out: &mut Octets,
    peer: [u8; 4],
    date: u64,
    code: u16,
    line: &[u8],
    size: u64,
) -> Result<(), NoMemory>
    requires { IsSecond date }
    ensures { OnOk result (out.new ≡ out.old ++ spec.log_line (record {
      peer = peer;
      date = date;
      code = code;
      line = line.now;
      size = size;
    })) }
{
    add_address(out, peer)?;
    out.add(b" - - [")?;
    out.add(&time_text(date))?;
    out.add(b" +0000] \"")?;
    add_quoted(out, line)?;
    out.add(b"\" ")?;
    out.add_number(code as u64)?;
    out.add(b" ")?;
    add_size(out, size)?;
    out.add(b"\n")
}

/// Writes the line of a response behind what the buffer holds; where memory lacks nothing is written. The date is the second of the
/// response since 1970-01-01 00:00:00 UTC, the line its request line as it came, cut to its limit, and the size that of its body in bytes.
pub fn log_line(
    alloc: Global,
    out: &mut Octets,
    peer: [u8; 4],
    date: u64,
    code: u16,
    line: &[u8],
    size: u64,
) -> Result<(), NoMemory>
    requires { IsSecond date }
    ensures ok { OnOk result (out.new ≡ out.old ++ spec.log_line (record {
      peer = peer;
      date = date;
      code = code;
      line = line.now;
      size = size;
    })) }
    ensures err { OnErr result (out.new ≡ out.old) }
{
    let mut text = Octets::make(alloc);
    text.reserve(USUAL_ROOM.saturating_add(line.len()))?;
    add_line(&mut text, peer, date, code, line, size)?;
    out.add(text.as_slice())
}
