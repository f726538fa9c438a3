//! The form of a path.
ghost use Rattle.std.specs.Prelude.{◌≡◌, ◌==◌, ◌∷◌, [], ◌++◌, true, List, ℕ, IfOk, IfSome, OnOk, length};
ghost use Rattle.std.specs.List.{list_all, list_any, slice_split};
ghost use Rattle.file_table.specs.Path.{begins_with_digits, begins_with_escaped_slash, has_dot_segment, has_escaped_slash, has_nul, has_whole_escapes, is_dot_segment, is_filled, is_slash, name_of_segments, names_folder, segments};
ghost use Rattle.file_table.specs.PathInside.{further_name};

use mpm_base::{NoMemory, Octets};
use std::alloc::Global;

/// The byte between two segments.
const SLASH: u8 = b'/';

/// Whether two hexadecimal digits stand at the front.
fn begins_with_digits(bytes: &[u8]) -> bool
    ensures { result ≡ begins_with_digits bytes.now }
{
    bytes.len() >= 2 && bytes[0].is_ascii_hexdigit() && bytes[1].is_ascii_hexdigit()
}

/// Whether each percent sign has its two digits behind it.
pub fn has_whole_escapes(path: &[u8]) -> bool
    ensures { result ≡ has_whole_escapes path.now }
{
    for (place, byte) in path.iter().enumerate() {
        if *byte == b'%' && !begins_with_digits(&path[place + 1..]) {
            return false;
        }
    }
    true
}

/// Whether an escaped slash begins here.
fn begins_with_slash(bytes: &[u8]) -> bool
    ensures { result ≡ begins_with_escaped_slash bytes.now }
{
    matches!(bytes, [b'%', b'2', b'F' | b'f', ..])
}

/// Whether a slash is escaped.
pub fn has_escaped_slash(path: &[u8]) -> bool
    ensures { result ≡ has_escaped_slash path.now }
{
    for place in 0..path.len() {
        if begins_with_slash(&path[place..]) {
            return true;
        }
    }
    false
}

/// Whether some byte is NUL.
pub fn has_nul(path: &[u8]) -> bool
    ensures { result ≡ has_nul path.now }
{
    path.iter().any(|byte| *byte == 0)
}

/// Whether it is one of the two dot-segments.
fn is_dot_segment(segment: &[u8]) -> bool
    ensures { result ≡ is_dot_segment segment.now }
{
    matches!(segment, b"." | b"..")
}

/// Whether some part between slashes is a dot-segment.
fn has_dots(path: &[u8]) -> bool
    ensures { result ≡ list_any is_dot_segment (slice_split is_slash path.now) }
{
    path.split(|byte| *byte == SLASH).any(is_dot_segment)
}

/// Whether the path has a dot-segment.
pub fn has_dot_segment(path: &[u8]) -> bool
    ensures { result ≡ has_dot_segment path.now }
{
    has_dots(path)
}

/// Whether the path ends with a slash, or has no segment.
pub fn names_folder(path: &[u8]) -> bool
    ensures { result ≡ names_folder path.now }
{
    path.ends_with(b"/") || path.is_empty()
}

/// Whether no part between slashes is empty.
fn all_filled(name: &[u8]) -> bool
    ensures { result ≡ list_all is_filled (slice_split is_slash name.now) }
{
    name.split(|byte| *byte == SLASH)
        .all(|part| !part.is_empty())
}

/// What stands behind the slash at the front and before the one at the end, where there is one.
fn between_slashes(path: &[u8]) -> Option<&[u8]>
    ensures { IfSome result (λ name. segments name.now ≡ segments path.now) }
{
    if path.is_empty() || path[0] != SLASH {
        return None;
    }
    let rest = &path[1..];
    if rest.is_empty() || rest[rest.len() - 1] != SLASH {
        return Some(rest);
    }
    Some(&rest[..rest.len() - 1])
}

/// The name that the segments of a path spell, where it stands in the path as it is.
pub fn plain_name(path: &[u8]) -> Option<&[u8]>
    ensures { IfSome result (λ name. name.now ≡ name_of_segments (segments path.now)) }
{
    let name = between_slashes(path)?;
    if name.is_empty() || all_filled(name) {
        Some(name)
    } else {
        None
    }
}

/// Adds a segment to a name.
fn add_segment(name: &mut Octets, segment: &[u8]) -> Result<(), NoMemory>
    ensures { OnOk result (name.new ≡ further_name name.old segment.now) }
{
    if !name.is_empty() {
        name.add(b"/")?;
    }
    name.add(segment)
}

/// The name that the segments of a path spell.
pub fn name_of_segments(alloc: Global, path: &[u8]) -> Result<Octets, NoMemory>
    ensures { IfOk result (λ name. name ≡ name_of_segments (segments path.now)) }
{
    let mut name = Octets::make(alloc);
    for part in path.split(|byte| *byte == SLASH) {
        if !part.is_empty() {
            add_segment(&mut name, part)?;
        }
    }
    Ok(name)
}
