//! The names of a host.
ghost use Rattle.std.specs.Prelude.{◌≡◌, ◌==◌, ◌||◌};
ghost use Rattle.std.specs.List.{list_any};
ghost use Rattle.mpm_config.specs.HostName.{are_aliases, are_host_names, is_host_name, is_server_name, server_name};
ghost use Rattle.conf_text.specs.Words.{words};

use crate::value::port;
use conf_text::{First, around, first_word};
use name_hosts::without_point;

/// Whether there is an asterisk or a question mark.
fn has_wildcard(name: &[u8]) -> bool
    ensures { result ≡ list_any (λ b. b == 42 || b == 63) name.now }
{
    name.iter().any(|b| *b == b'*' || *b == b'?')
}

/// Whether it is a name: some bytes without an asterisk or a question mark, and no point alone.
fn is_host_name(name: &[u8]) -> bool
    ensures { result ≡ is_host_name name.now }
{
    !name.is_empty() && !has_wildcard(name) && name != b".".as_slice()
}

/// Whether it is a value of ServerName: a name, or a name, a colon and a port.
pub fn is_server_name(value: &[u8]) -> bool
    ensures { result ≡ is_server_name value.now }
{
    match around(value, b':') {
        Some((name, after)) => is_host_name(name) && port(after).is_some(),
        None => is_host_name(value),
    }
}

/// The name in a value of ServerName, without its port and one point at its end.
pub fn server_name(value: &[u8]) -> &[u8]
    ensures { result.now ≡ server_name value.now }
{
    match around(value, b':') {
        Some((name, _)) => without_point(name),
        None => without_point(value),
    }
}

/// Whether each word is a name.
fn are_host_names(line: &str) -> bool
    ensures { result ≡ are_host_names (words line.now) }
{
    let mut rest = line;
    loop {
        match first_word(rest) {
            First::End => return true,
            First::Unclosed => return false,
            First::Closed(name, after) => {
                if !is_host_name(name.as_bytes()) {
                    return false;
                }
                rest = after;
            }
        }
    }
}

/// Whether the words are a value of ServerAlias: one or more names.
pub fn are_aliases(line: &str) -> bool
    ensures { result ≡ are_aliases (words line.now) }
{
    match first_word(line) {
        First::End => false,
        _ => are_host_names(line),
    }
}
