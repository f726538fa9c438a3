//! What the value of a directive spells: numbers, switches, addresses and names.
ghost use Rattle.std.specs.Prelude.{◌≡◌, ◌==◌, ◌<◌, ◌≤◌, ◌^◌, IfSome};
ghost use Rattle.mpm_base.specs.Digits.{number_in_digits};
ghost use Rattle.mpm_config.specs.Range.{millisecond_range, octet_range, port_range, number_in, IsAllowed, IsNumberIn};
ghost use Rattle.mpm_config.specs.RangeInside.{IsWellFormed};
ghost use Rattle.mpm_config.specs.Value.{address, decimals, hundredths, is_file, is_folder, is_log, is_short, milliseconds, number, number_of, octets, switch, tags_of_value};

use crate::directive::Quantity;
use crate::range::{
    ASYNC_REQUEST_WORKER_FACTOR, KEEP_ALIVE_MILLISECONDS, KEEP_ALIVE_TIMEOUT, NumberRange, OCTET,
    PORT,
};
use conf_text::around;
use mpm_base::{Addr, is_same_ignoring_case, number_in_digits};

/// The number of 1 to `most` decimal digits.
fn whole(value: &[u8], most: usize) -> Option<u32>
    requires { most ≤ 9 }
    ensures value { result ≡ number_in_digits most value.now }
    ensures bound { IfSome result (λ n. n < 10 ^ most) }
{
    let n = number_in_digits(value, most)?;
    Some(n as u32)
}

impl NumberRange {
    /// What a number is kept as, where it is in the range.
    pub fn keep(self, n: u32) -> Option<u32>
        requires { IsWellFormed self }
        ensures value { result ≡ number_in self n }
        ensures kept { IfSome result (IsNumberIn self) }
    {
        if n < self.least || n > self.greatest {
            return None;
        }
        let taken = if n == 0 { self.zero } else { n };
        Some(taken * self.unit)
    }

    /// A whole number in the range.
    pub fn number(self, value: &[u8]) -> Option<u32>
        requires { IsWellFormed self }
        ensures value { result ≡ number self value.now }
        ensures kept { IfSome result (IsNumberIn self) }
    {
        self.keep(whole(value, 9)?)
    }
}

/// The decimals after a point, as hundredths: one or two digits.
fn decimals(value: &[u8]) -> Option<u32>
    ensures value { result ≡ decimals value.now }
    ensures bound { IfSome result (λ n. n < 1000) }
{
    let n = whole(value, 2)?;
    if value.len() == 1 {
        Some(10 * n)
    } else {
        Some(n)
    }
}

/// A number of hundredths: one to three digits, or these, a point and one or two digits.
fn hundredths(value: &[u8]) -> Option<u32>
    ensures { result ≡ hundredths value.now }
{
    match around(value, b'.') {
        Some((before, after)) => {
            let ones = whole(before, 3)?;
            Some(100 * ones + decimals(after)?)
        }
        None => Some(100 * whole(value, 3)?),
    }
}

/// Milliseconds: a number that ends in `ms`, or else a number of seconds.
fn milliseconds(value: &[u8]) -> Option<u32>
    ensures value { result ≡ milliseconds value.now }
    ensures kept { IfSome result (IsNumberIn millisecond_range) }
{
    match value.strip_suffix(b"ms") {
        Some(front) => KEEP_ALIVE_MILLISECONDS.number(front),
        None => KEEP_ALIVE_TIMEOUT.number(value),
    }
}

/// On or Off, in which case does not count.
pub fn switch(value: &[u8]) -> Option<bool>
    ensures { result ≡ switch value.now }
{
    if is_same_ignoring_case(value, b"On") {
        Some(true)
    } else if is_same_ignoring_case(value, b"Off") {
        Some(false)
    } else {
        None
    }
}

/// Whether files have tags: Digest or None, in which case does not count.
pub fn tags_of_value(value: &[u8]) -> Option<bool>
    ensures { result ≡ tags_of_value value.now }
{
    if is_same_ignoring_case(value, b"Digest") {
        Some(true)
    } else if is_same_ignoring_case(value, b"None") {
        Some(false)
    } else {
        None
    }
}

/// A part of an address.
fn octet(value: &[u8]) -> Option<u8>
    ensures { result ≡ number octet_range value.now }
{
    let n = OCTET.number(value)?;
    Some(n as u8)
}

/// A port.
pub fn port(value: &[u8]) -> Option<u16>
    ensures { result ≡ number port_range value.now }
{
    let n = PORT.number(value)?;
    Some(n as u16)
}

/// The four parts of an address, with a point between them.
fn octets(value: &[u8]) -> Option<[u8; 4]>
    ensures { result ≡ octets value.now }
{
    let (first, rest) = around(value, b'.')?;
    let (second, rest) = around(rest, b'.')?;
    let (third, fourth) = around(rest, b'.')?;
    Some([octet(first)?, octet(second)?, octet(third)?, octet(fourth)?])
}

/// A port, or an address, a colon and a port. Without an address it is that of this machine alone.
pub fn address(value: &[u8]) -> Option<Addr>
    ensures { result ≡ address value.now }
{
    match around(value, b':') {
        Some((host, after)) => {
            let host = octets(host)?;
            Some(Addr {
                host,
                port: port(after)?,
            })
        }
        None => Some(Addr {
            host: [127, 0, 0, 1],
            port: port(value)?,
        }),
    }
}

/// Whether these are 1 to 255 bytes.
fn is_short(value: &[u8]) -> bool
    ensures { result ≡ is_short value.now }
{
    1 <= value.len() && value.len() <= 255
}

/// Whether this may name the folder of the files: 1 to 255 bytes without a `/` at the ends.
pub fn is_folder(value: &[u8]) -> bool
    ensures { result ≡ is_folder value.now }
{
    is_short(value) && value[0] != b'/' && value[value.len() - 1] != b'/'
}

/// Whether this may name a folder's own file: 1 to 255 bytes without a `/`.
pub fn is_file(value: &[u8]) -> bool
    ensures { result ≡ is_file value.now }
{
    is_short(value) && !value.contains(&b'/')
}

/// Whether this may name a log: 1 to 255 bytes that don't begin with a `|`, which would be the name of a program.
pub fn is_log(value: &[u8]) -> bool
    ensures { result ≡ is_log value.now }
{
    is_short(value) && value[0] != b'|'
}

impl Quantity {
    /// The number that a value spells.
    pub fn read(self, value: &[u8]) -> Option<u32>
        ensures value { result ≡ number_of self value.now }
        ensures allowed { IfSome result (IsAllowed self) }
    {
        match self {
            Quantity::AsyncRequestWorkerFactor => {
                ASYNC_REQUEST_WORKER_FACTOR.keep(hundredths(value)?)
            }
            Quantity::KeepAliveTimeout => milliseconds(value),
            _ => self.range().number(value),
        }
    }
}
