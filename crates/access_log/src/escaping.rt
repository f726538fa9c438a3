//! A request line as it stands between the quotes of a log line.
ghost use Rattle.std.specs.Prelude.{◌≡◌, ◌++◌, ◌<◌, false, IfOk, OnOk};
ghost use Rattle.std.specs.Fmt.{digit_glyph};
ghost use Rattle.std.specs.List.{list_all};
ghost use Rattle.access_log.specs.EscapedLine as spec;
ghost use Rattle.access_log.specs.PlainInside.{is_plain};

use mpm_base::{NoMemory, Octets};
use std::alloc::Global;

/// The digit of a number below 16.
fn digit(number: u8) -> u8
    requires { number < 16 }
    ensures { result ≡ digit_glyph false number }
{
    if number < 10 {
        b'0' + number
    } else {
        b'a' + (number - 10)
    }
}

/// Whether it is a quote or a backslash.
fn is_marked(byte: u8) -> bool
    ensures { result ≡ spec.is_marked byte }
{
    byte == b'"' || byte == b'\\'
}

/// Whether it is a byte of printed ASCII, the space among them.
fn is_printed(byte: u8) -> bool
    ensures { result ≡ spec.is_printed byte }
{
    byte >= 32 && byte <= 126
}

/// Whether the byte stands in the log as it is.
fn is_plain(byte: u8) -> bool
    ensures { result ≡ is_plain byte }
{
    is_printed(byte) && !is_marked(byte)
}

/// Adds a byte as the log has it.
fn add_byte(out: &mut Octets, byte: u8) -> Result<(), NoMemory>
    ensures { OnOk result (out.new ≡ out.old ++ spec.escaped_byte byte) }
{
    if is_marked(byte) {
        out.add(&[b'\\', byte])
    } else if is_printed(byte) {
        out.add(&[byte])
    } else {
        out.add(&[b'\\', b'x', digit(byte / 16), digit(byte % 16)])
    }
}

/// Adds the bytes of a line as the log has them, one by one.
fn add_bytes(out: &mut Octets, line: &[u8]) -> Result<(), NoMemory>
    ensures { OnOk result (out.new ≡ out.old ++ spec.escaped line.now) }
{
    for byte in line {
        add_byte(out, *byte)?;
    }
    Ok(())
}

/// Whether each byte stands in the log as it is.
fn are_plain(line: &[u8]) -> bool
    ensures { result ≡ list_all is_plain line.now }
{
    line.iter().all(|byte| is_plain(*byte))
}

/// Adds a line as the log has it. Most lines stand there as they are.
pub(crate) fn add_escaped(out: &mut Octets, line: &[u8]) -> Result<(), NoMemory>
    ensures { OnOk result (out.new ≡ out.old ++ spec.escaped line.now) }
{
    if are_plain(line) {
        out.add(line)
    } else {
        add_bytes(out, line)
    }
}

/// A request line as it stands between the quotes of a log line; nothing for an empty one.
pub fn escaped(alloc: Global, line: &[u8]) -> Result<Octets, NoMemory>
    ensures { IfOk result (λ text. text ≡ spec.escaped line.now) }
{
    let mut text = Octets::make(alloc);
    add_escaped(&mut text, line)?;
    Ok(text)
}
