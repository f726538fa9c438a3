//! The Location of a redirect (RFC 9110, section 10.2.2).
ghost use Rattle.std.specs.Prelude.{◌≡◌, ◌++◌, OnOk, IfOk};
ghost use Rattle.std.specs.List.{flat_map};
ghost use Rattle.http_core.specs.Location as spec;

use crate::target::{has_query, query_of};
use mpm_base::{NoMemory, Octets};
use percent_encoding::percent_encode_byte;

/// Adds a byte of a query as a Location has it.
fn add_query_byte(location: &mut Octets, byte: u8) -> Result<(), NoMemory>
    ensures { OnOk result (location.new ≡ location.old ++ spec.query_byte byte) }
{
    if byte >= 33 && byte <= 126 {
        location.add(&[byte])
    } else {
        location.add(percent_encode_byte(byte).as_bytes())
    }
}

/// Adds the bytes of a query.
fn add_query(location: &mut Octets, query: &[u8]) -> Result<(), NoMemory>
    ensures { OnOk result (location.new ≡ location.old ++ flat_map spec.query_byte query.now) }
{
    for byte in query {
        add_query_byte(location, *byte)?;
    }
    Ok(())
}

/// Where a target that names the folder of that path is sent: there, with the query of the target.
#[tactic(auto, unfolding(crate::specs::Location::location_of))]
pub fn location_of(target: &[u8], path: Octets) -> Result<Octets, NoMemory>
    ensures { IfOk result (λ location. location ≡ spec.location_of target.now path) }
{
    let mut location = path;
    if has_query(target) {
        location.add(b"?")?;
        add_query(&mut location, query_of(target))?;
    }
    Ok(location)
}
