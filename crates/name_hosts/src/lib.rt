//! Name-based hosts: which host of a server a request is for, by the name that it gives (RFC 9110, section 7.2).
//!
//! `host_part` answers the value of a Host or an authority without its port, and `choose` the first host that has that name. Both
//! are exact (`specs/Host.antt`), and neither takes memory. A host keeps a mark for each of its names (`HostNames`;
//! `specs/MarkInside.antt`), so that a name is compared with those of its own mark alone.
#![tactic(auto)]

mod host_names;

ghost use Rattle.std.specs.Prelude.{◌≡◌, ◌<◌, ◌^◌, length, position};
ghost use Rattle.std.specs.Char.{is_ascii_digit};
ghost use Rattle.std.specs.List.{list_all};
ghost use Rattle.name_hosts.specs.Host as spec;
ghost use Rattle.name_hosts.specs.Host.{has_name};

pub use host_names::HostNames;
use host_names::mark_of;
use mpm_base::Sequence;

/// The names of each host of a server, in order.
pub type HostList = Sequence<HostNames>;

/// Whether each byte is a digit.
fn are_digits(text: &[u8]) -> bool
    ensures { result ≡ list_all is_ascii_digit text.now }
{
    text.iter().all(|b| b.is_ascii_digit())
}

/// Whether it is a port as it stands behind a host: a colon, and digits or nothing.
fn is_port(text: &[u8]) -> bool
    ensures { result ≡ spec.is_port text.now }
{
    !text.is_empty() && text[0] == b':' && are_digits(&text[1..])
}

/// The value of a Host, or an authority, without its port: without a last colon that only digits follow, or nothing.
pub fn host_part(value: &[u8]) -> &[u8]
    ensures { result.now ≡ spec.host_part value.now }
{
    for place in 0..value.len() {
        if is_port(&value[place..]) {
            return &value[..place];
        }
    }
    value
}

/// The name without one point at its end, which stands for the root of all names (RFC 1034, section 3.1).
pub fn without_point(name: &[u8]) -> &[u8]
    ensures { result.now ≡ spec.without_point name.now }
{
    match name {
        [front @ .., b'.'] => front,
        _ => name,
    }
}

/// The place of the first host that has the name.
fn place_of_host(hosts: &HostList, host: &[u8]) -> Option<usize>
    ensures { result ≡ position (has_name host.now) hosts.now }
{
    let marked = mark_of(host);
    hosts
        .as_slice()
        .iter()
        .position(|names| names.has(host, marked))
}

/// The first host one of whose names is that of the value, whose port and one point at its end don't count, nor the case of
/// letters; the first host of all where none has it.
pub fn choose(hosts: &HostList, value: &[u8]) -> u32
    requires some { 0 < length hosts.now }
    requires few { length hosts.now < 2 ^ 32 }
    ensures which { result ≡ spec.choose hosts.now value.now }
    ensures there { result < length hosts.now }
{
    match place_of_host(hosts, without_point(host_part(value))) {
        Some(place) => place as u32,
        None => 0,
    }
}
