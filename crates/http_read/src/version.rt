//! The version in the first line of a head, and how it is read (RFC 9112, section 2.3; RFC 9110, section 2.5).
ghost use Rattle.std.specs.Prelude.{◌≡◌, ◌+◌, ◌<◌, ◌^◌, true, length};
ghost use Rattle.http_read.specs.Versions.{is_version};
ghost use Rattle.http_read.specs.LookedAt.{version_at};

use crate::lines::line_len;

/// How the version at the end of a first line is read.
#[derive(Clone, Copy)]
pub(crate) enum Version {
    /// As it is written.
    Written,
    /// One of 1.2 to 1.9, whose last digit stands there in the head, as 1.1.
    Later(usize),
    /// It isn't: its first digit isn't 1.
    Other,
}

/// How many bytes a version has with the space before it.
const LEN: usize = 9;

/// Whether a version with a space before it stands at the front.
fn is_version(tail: &[u8]) -> bool
    ensures value { result ≡ is_version tail.now }
    ensures long { result ≡ true → 8 < length tail.now }
{
    tail.len() >= LEN
        && &tail[..6] == b" HTTP/".as_slice()
        && tail[6].is_ascii_digit()
        && tail[7] == b'.'
        && tail[8].is_ascii_digit()
}

/// How the version of the first line is read, which has so many bytes before it in the head.
#[tactic(auto, unfolding(crate::specs::Versions::names_other_major, crate::specs::Versions::names_later_minor))]
pub(crate) fn version_at(before: usize, line: &[u8]) -> Version
    requires { before + length line.now < 2 ^ 64 }
    ensures { result ≡ version_at before line.now }
{
    let end = line_len(line);
    let tail = &line[end.saturating_sub(LEN)..];
    if !is_version(tail) {
        Version::Written
    } else if tail[6] != b'1' {
        Version::Other
    } else if tail[8] > b'1' {
        Version::Later(before + (end - 1))
    } else {
        Version::Written
    }
}
