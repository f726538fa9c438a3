//! A host, with or without a port (RFC 9110, section 7.2; RFC 3986, sections 3.2.2 and 3.2.3).
ghost use Rattle.std.specs.Prelude.{◌≡◌};
ghost use Rattle.std.specs.List.{list_all};
ghost use Rattle.std.specs.Char.{is_ascii_digit};
ghost use Rattle.http_read.specs.Authority as spec;

use crate::places::place_of_byte;

/// Whether the byte is one of a name, other than the percent sign.
fn is_name_byte(b: u8) -> bool
    ensures { result ≡ spec.is_name_byte b }
{
    b.is_ascii_alphanumeric() || b"-._~!$&'()*+,;=".contains(&b)
}

/// Whether two hexadecimal digits stand at the front.
fn begins_with_digits(bytes: &[u8]) -> bool
    ensures { result ≡ spec.begins_with_digits bytes.now }
{
    bytes.len() >= 2 && bytes[0].is_ascii_hexdigit() && bytes[1].is_ascii_hexdigit()
}

/// Whether each byte is one of a name, or a percent sign with two digits behind it.
fn are_name_bytes(text: &[u8]) -> bool
    ensures { result ≡ spec.are_name_bytes text.now }
{
    for (place, byte) in text.iter().enumerate() {
        let is_one = if *byte == b'%' {
            begins_with_digits(&text[place + 1..])
        } else {
            is_name_byte(*byte)
        };
        if !is_one {
            return false;
        }
    }
    true
}

fn is_name(text: &[u8]) -> bool
    ensures { result ≡ spec.is_name text.now }
{
    !text.is_empty() && are_name_bytes(text)
}

fn is_address_byte(b: u8) -> bool
    ensures { result ≡ spec.is_address_byte b }
{
    b.is_ascii_hexdigit() || b == b':' || b == b'.'
}

fn are_address_bytes(text: &[u8]) -> bool
    ensures { result ≡ list_all spec.is_address_byte text.now }
{
    for b in text {
        if !is_address_byte(*b) {
            return false;
        }
    }
    true
}

fn is_address(text: &[u8]) -> bool
    ensures { result ≡ spec.is_address text.now }
{
    !text.is_empty() && are_address_bytes(text)
}

fn are_digits(text: &[u8]) -> bool
    ensures { result ≡ list_all is_ascii_digit text.now }
{
    for b in text {
        if !b.is_ascii_digit() {
            return false;
        }
    }
    true
}

/// Whether it is a port with its colon, or nothing.
fn is_port(text: &[u8]) -> bool
    ensures { result ≡ spec.is_port text.now }
{
    text.is_empty() || (text[0] == b':' && are_digits(&text[1..]))
}

/// Whether an address and its closing bracket stand at the front, and behind them perhaps a port.
fn ends_address(text: &[u8]) -> bool
    ensures { result ≡ spec.ends_address text.now }
{
    let end = place_of_byte(text, b']');
    end < text.len() && is_address(&text[..end]) && is_port(&text[end + 1..])
}

/// Whether a name stands at the front, and behind it perhaps a port.
fn is_named(text: &[u8]) -> bool
    ensures { result ≡ spec.is_named text.now }
{
    let end = place_of_byte(text, b':');
    is_name(&text[..end]) && is_port(&text[end..])
}

/// Whether the text is a host, with or without a port.
#[tactic(auto, unfolding(crate::specs::Authority::is_authority))]
pub fn is_authority(text: &[u8]) -> bool
    ensures { result ≡ spec.is_authority text.now }
{
    match text {
        [b'[', address @ ..] => ends_address(address),
        _ => is_named(text),
    }
}

/// Whether the text is one that a Host may have: nothing, or a host with or without a port.
pub(crate) fn is_host_value(value: &[u8]) -> bool
    ensures { result ≡ spec.is_host_value value.now }
{
    value.is_empty() || is_authority(value)
}
