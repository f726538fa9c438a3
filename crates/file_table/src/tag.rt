//! Entity tags.
//! Why it is so stands in docs/DECISIONS.md: 142, What tags cost a start.
ghost use Rattle.std.specs.Prelude.{◌≡◌, IfOk, take};
ghost use Rattle.hex.specs.Hex.{encode_lower};
ghost use Rattle.sha2.specs.Sha256.{sha256};
ghost use Rattle.file_table.specs.Tag as spec;

use hex::encode_to_slice;
use mpm_base::{NoMemory, Octets};
use sha2::{Digest, Sha256};
use std::alloc::Global;

/// The digits of the bytes that make the tag.
fn digits_of(bytes: &[u8]) -> [u8; 32]
    ensures { result ≡ encode_lower (take 16 (sha256 bytes.now)) }
{
    let digest = Sha256::digest(bytes);
    let mut digits = [0; 32];
    match encode_to_slice(&digest[..16], &mut digits) {
        Ok(()) => digits,
        Err(_) => unreachable!(),
    }
}

/// The entity tag of a file with these bytes (RFC 9110, section 8.8.3).
#[tactic(auto, unfolding(crate::specs::Tag::tag_of))]
pub fn tag_of(alloc: Global, bytes: &[u8]) -> Result<Octets, NoMemory>
    ensures { IfOk result (λ tag. tag ≡ spec.tag_of bytes.now) }
{
    let mut tag = Octets::of(alloc, b"\"")?;
    tag.add(&digits_of(bytes))?;
    tag.add(b"\"")?;
    Ok(tag)
}
