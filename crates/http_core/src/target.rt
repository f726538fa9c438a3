//! The path of a target.
ghost use Rattle.std.specs.Prelude.{◌≡◌, ◌==◌, slice_index, option_map};
ghost use Rattle.std.specs.List.{after_first, before_first, list_any};
ghost use Rattle.http_core.specs.Target.{begins_fragment, begins_path, begins_query, has_scheme, named_host, path_behind, path_of, path_or_root, query_of};

use http_read::{is_authority, place_of_byte};
use mpm_base::is_same_ignoring_case;

/// What stands before the first such byte.
fn before_byte(text: &[u8], byte: u8) -> &[u8]
    ensures { result.now ≡ before_first (λ b. b == byte) text.now }
{
    text.split_at(place_of_byte(text, byte)).0
}

/// What stands behind the first such byte; nothing where there is none.
fn after_byte(text: &[u8], byte: u8) -> &[u8]
    ensures { result.now ≡ after_first (λ b. b == byte) text.now }
{
    let place = place_of_byte(text, byte);
    if place < text.len() {
        &text[place + 1..]
    } else {
        b""
    }
}

/// Whether the target begins with a path.
fn begins_path(target: &[u8]) -> bool
    ensures { result ≡ begins_path (slice_index target.now 0) }
{
    !target.is_empty() && target[0] == b'/'
}

/// Whether the target begins with `http://`.
fn has_scheme(target: &[u8]) -> bool
    ensures { result ≡ has_scheme target.now }
{
    is_same_ignoring_case(&target[..target.len().min(7)], b"http://")
}

/// Whether a fragment begins in the text.
fn has_fragment(text: &[u8]) -> bool
    ensures { result ≡ list_any begins_fragment text.now }
{
    text.iter().any(|b| *b == b'#')
}

/// The path, or the root where it is empty.
fn path_or_root(path: &[u8]) -> &[u8]
    ensures { result.now ≡ path_or_root path.now }
{
    if path.is_empty() { b"/" } else { path }
}

/// The name by which a request asks for its host: the authority of a target in absolute form (RFC 9112, section 3.2.2), else the value
/// of its Host.
pub fn named_host<'a>(target: &'a [u8], host: &'a [u8]) -> &'a [u8]
    ensures { result.now ≡ named_host target.now host.now }
{
    if has_scheme(target) {
        before_byte(before_byte(&target[7..], b'?'), b'/')
    } else {
        host
    }
}

/// The path behind an authority.
fn path_behind(text: &[u8]) -> Option<&[u8]>
    ensures { option_map (λ path. path.now) result ≡ path_behind text.now }
{
    let authority = before_byte(text, b'/');
    if !is_authority(authority) {
        return None;
    }
    Some(path_or_root(&text[authority.len()..]))
}

/// The path of a target in origin form or in absolute form (RFC 9112, section 3.2), without its query. One with a fragment has
/// none.
#[tactic(auto, unfolding(crate::specs::Target::path_of))]
pub fn path_of(target: &[u8]) -> Option<&[u8]>
    ensures { option_map (λ path. path.now) result ≡ path_of target.now }
{
    if has_fragment(target) {
        return None;
    }
    if begins_path(target) {
        return Some(before_byte(target, b'?'));
    }
    if has_scheme(target) {
        return path_behind(before_byte(&target[7..], b'?'));
    }
    None
}

/// Whether a query begins in the target.
pub fn has_query(target: &[u8]) -> bool
    ensures { result ≡ list_any begins_query target.now }
{
    target.iter().any(|b| *b == b'?')
}

/// What stands behind the first question mark; nothing where there is none.
pub fn query_of(target: &[u8]) -> &[u8]
    ensures { result.now ≡ query_of target.now }
{
    after_byte(target, b'?')
}
