//! What an operator says of the types of files.
ghost use Rattle.std.specs.Prelude.{◌≡◌, IfOk, OnOk, ◌++◌};
ghost use Rattle.media_types.specs.MediaType.{default_types};

use mpm_base::{NoMemory, Octets, Sequence};
use std::alloc::Global;

/// The type of the files whose names have that extension, in either case of letters.
#[derive(Debug, Drop)]
pub struct TypePair {
    /// The extension, without its point.
    pub extension: Octets,
    /// The type, perhaps with a parameter, as it is sent.
    pub media: Octets,
}

/// Pairs, of which a later one counts before an earlier one.
pub type TypePairs = Sequence<TypePair>;

/// By what files get their types.
#[derive(Debug, Drop)]
pub struct MediaTypes {
    /// The pairs that count before the table.
    pub added: TypePairs,
    /// Whether the long table counts, in place of the short one.
    pub long: bool,
    /// The character set that is named behind `text/html` and `text/plain`, where there is one.
    pub charset: Option<Octets>,
}

impl MediaTypes {
    /// No pairs, the short table, and no character set. Takes no memory.
    pub fn usual(alloc: Global) -> MediaTypes
        ensures { result ≡ default_types }
    {
        MediaTypes {
            added: TypePairs::make(alloc),
            long: false,
            charset: None,
        }
    }

    /// The same once more.
    pub fn copy(&self, alloc: Global) -> Result<MediaTypes, NoMemory>
        ensures { IfOk result (λ copy. copy ≡ self.now) }
    {
        Ok(MediaTypes {
            added: copy_of_pairs(alloc, &self.added)?,
            long: self.long,
            charset: copy_of_text(alloc, &self.charset)?,
        })
    }
}

/// A copy of the pairs.
fn copy_of_pairs(alloc: Global, pairs: &TypePairs) -> Result<TypePairs, NoMemory>
    ensures { IfOk result (λ copy. copy ≡ pairs.now) }
{
    let mut copy = TypePairs::make(alloc);
    for pair in pairs.as_slice() {
        let extension = Octets::of(alloc, pair.extension.as_slice())?;
        let media = Octets::of(alloc, pair.media.as_slice())?;
        copy.push(TypePair { extension, media })?;
    }
    Ok(copy)
}

/// A copy of the text, where there is one.
fn copy_of_text(alloc: Global, text: &Option<Octets>) -> Result<Option<Octets>, NoMemory>
    ensures { IfOk result (λ copy. copy ≡ text.now) }
{
    match text {
        Some(text) => Ok(Some(Octets::of(alloc, text.as_slice())?)),
        None => Ok(None),
    }
}
