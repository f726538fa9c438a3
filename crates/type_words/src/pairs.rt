//! The words of a type and its extensions, and the pairs that they spell.
ghost use Rattle.std.specs.Prelude.{◌≡◌, [], ◌∷◌, ◌++◌, OnOk};
ghost use Rattle.conf_text.specs.Words.{words};
ghost use Rattle.type_words.specs.TypeWords.{are_extensions, are_some_extensions, are_type_words, extension_kept, pairs_of_words, pairs_with};

use crate::extension::{extension_kept, is_extension};
use crate::media_type::is_media_type;
use conf_text::{First, first_word};
use media_types::{TypePair, TypePairs};
use mpm_base::{NoMemory, Octets};
use std::alloc::Global;

/// Whether each word is an extension.
fn are_extensions(line: &str) -> bool
    ensures { result ≡ are_extensions (words line.now) }
{
    let mut rest = line;
    loop {
        match first_word(rest) {
            First::End => return true,
            First::Unclosed => return false,
            First::Closed(word, after) => {
                if !is_extension(word.as_bytes()) {
                    return false;
                }
                rest = after;
            }
        }
    }
}

/// Whether the words are one extension or more.
fn are_some_extensions(line: &str) -> bool
    ensures { result ≡ are_some_extensions (words line.now) }
{
    match first_word(line) {
        First::End => false,
        _ => are_extensions(line),
    }
}

/// Whether the words of the line are a type, and one extension or more.
pub fn are_type_words(line: &str) -> bool
    ensures { result ≡ are_type_words (words line.now) }
{
    match first_word(line) {
        First::Closed(media, after) => {
            is_media_type(media.as_bytes()) && are_some_extensions(after)
        }
        _ => false,
    }
}

/// Puts the pair of an extension and a type at the end.
fn add_pair(alloc: Global, pairs: &mut TypePairs, media: &[u8], word: &[u8]) -> Result<(), NoMemory>
    ensures { OnOk result (pairs.new ≡ pairs.old
        ++ record { extension = extension_kept word.now; media = media.now } ∷ []) }
{
    let extension = extension_kept(alloc, word)?;
    let media = Octets::of(alloc, media)?;
    pairs.push(TypePair { extension, media })
}

/// Puts the pairs of the type and the words of the line at the end.
fn add_pairs_with(
    alloc: Global,
    pairs: &mut TypePairs,
    media: &[u8],
    line: &str,
) -> Result<(), NoMemory>
    ensures { OnOk result (pairs.new ≡ pairs.old ++ pairs_with media.now (words line.now)) }
{
    let mut rest = line;
    while let First::Closed(word, after) = first_word(rest) {
        add_pair(alloc, pairs, media, word.as_bytes())?;
        rest = after;
    }
    Ok(())
}

/// Puts the pairs that the words of the line spell at the end, one for each of its extensions.
pub fn add_pairs(alloc: Global, pairs: &mut TypePairs, line: &str) -> Result<(), NoMemory>
    ensures { OnOk result (pairs.new ≡ pairs.old ++ pairs_of_words (words line.now)) }
{
    match first_word(line) {
        First::Closed(media, after) => add_pairs_with(alloc, pairs, media.as_bytes(), after),
        _ => Ok(()),
    }
}
