//! The extensions of names.
ghost use Rattle.std.specs.Prelude.{◌≡◌, IfOk};
ghost use Rattle.std.specs.List.{list_all};
ghost use Rattle.type_words.specs.TypeWords.{extension_kept, is_extension, is_extension_byte, without_first_point};

use mpm_base::{NoMemory, Octets};
use std::alloc::Global;

/// Whether it is a byte of an extension.
fn is_extension_byte(byte: u8) -> bool
    ensures { result ≡ is_extension_byte byte }
{
    byte.is_ascii_alphanumeric() || byte == b'+' || byte == b'-' || byte == b'_'
}

/// Whether all are such bytes.
fn are_extension_bytes(text: &[u8]) -> bool
    ensures { result ≡ list_all is_extension_byte text.now }
{
    text.iter().all(|byte| is_extension_byte(*byte))
}

/// The word without one point at its front.
fn without_first_point(word: &[u8]) -> &[u8]
    ensures { result.now ≡ without_first_point word.now }
{
    if !word.is_empty() && word[0] == b'.' {
        &word[1..]
    } else {
        word
    }
}

/// Whether it is an extension: 1 to 32 such bytes, with a point before them or without.
pub fn is_extension(word: &[u8]) -> bool
    ensures { result ≡ is_extension word.now }
{
    let text = without_first_point(word);
    1 <= text.len() && text.len() <= 32 && are_extension_bytes(text)
}

/// The extension as it is kept: without its point, in lower case.
pub fn extension_kept(alloc: Global, word: &[u8]) -> Result<Octets, NoMemory>
    ensures { IfOk result (λ kept. kept ≡ extension_kept word.now) }
{
    match without_first_point(word).to_ascii_lowercase(alloc) {
        Ok(kept) => Octets::of(alloc, kept.as_slice()),
        Err(_) => Err(NoMemory),
    }
}
