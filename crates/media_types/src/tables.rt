//! The tables of extensions and their types.
ghost use Rattle.std.specs.Prelude.{◌≡◌, [], ◌∷◌, ◌++◌, map, IfOk, OnOk};
ghost use Rattle.media_types.specs.MediaType.{pair, table_of, takes_charset, with_charset};
ghost use Rattle.media_types.specs.PairsInside.{pair_sent};
ghost use Rattle.media_types.specs.TablesInside.{pair_of};

use crate::types::TypePair;
use mpm_base::{NoMemory, Octets};
use std::alloc::Global;

/// An extension of a table, and its type.
#[derive(Clone, Copy, Debug)]
pub struct Known {
    pub extension: &'static str,
    pub media: &'static str,
}

/// The short table.
const SHORT: [Known; 12] = [
    Known {
        extension: "html",
        media: "text/html",
    },
    Known {
        extension: "htm",
        media: "text/html",
    },
    Known {
        extension: "txt",
        media: "text/plain",
    },
    Known {
        extension: "css",
        media: "text/css",
    },
    Known {
        extension: "js",
        media: "text/javascript",
    },
    Known {
        extension: "json",
        media: "application/json",
    },
    Known {
        extension: "xml",
        media: "application/xml",
    },
    Known {
        extension: "svg",
        media: "image/svg+xml",
    },
    Known {
        extension: "png",
        media: "image/png",
    },
    Known {
        extension: "jpg",
        media: "image/jpeg",
    },
    Known {
        extension: "jpeg",
        media: "image/jpeg",
    },
    Known {
        extension: "gif",
        media: "image/gif",
    },
];

/// What the long table has besides.
const FURTHER: [Known; 40] = [
    Known {
        extension: "mjs",
        media: "text/javascript",
    },
    Known {
        extension: "csv",
        media: "text/csv",
    },
    Known {
        extension: "md",
        media: "text/markdown",
    },
    Known {
        extension: "ics",
        media: "text/calendar",
    },
    Known {
        extension: "vtt",
        media: "text/vtt",
    },
    Known {
        extension: "map",
        media: "application/json",
    },
    Known {
        extension: "jsonld",
        media: "application/ld+json",
    },
    Known {
        extension: "webmanifest",
        media: "application/manifest+json",
    },
    Known {
        extension: "atom",
        media: "application/atom+xml",
    },
    Known {
        extension: "rss",
        media: "application/rss+xml",
    },
    Known {
        extension: "xhtml",
        media: "application/xhtml+xml",
    },
    Known {
        extension: "pdf",
        media: "application/pdf",
    },
    Known {
        extension: "wasm",
        media: "application/wasm",
    },
    Known {
        extension: "zip",
        media: "application/zip",
    },
    Known {
        extension: "gz",
        media: "application/gzip",
    },
    Known {
        extension: "epub",
        media: "application/epub+zip",
    },
    Known {
        extension: "rtf",
        media: "application/rtf",
    },
    Known {
        extension: "apng",
        media: "image/apng",
    },
    Known {
        extension: "webp",
        media: "image/webp",
    },
    Known {
        extension: "avif",
        media: "image/avif",
    },
    Known {
        extension: "ico",
        media: "image/vnd.microsoft.icon",
    },
    Known {
        extension: "bmp",
        media: "image/bmp",
    },
    Known {
        extension: "tif",
        media: "image/tiff",
    },
    Known {
        extension: "tiff",
        media: "image/tiff",
    },
    Known {
        extension: "woff",
        media: "font/woff",
    },
    Known {
        extension: "woff2",
        media: "font/woff2",
    },
    Known {
        extension: "ttf",
        media: "font/ttf",
    },
    Known {
        extension: "otf",
        media: "font/otf",
    },
    Known {
        extension: "mp3",
        media: "audio/mpeg",
    },
    Known {
        extension: "ogg",
        media: "audio/ogg",
    },
    Known {
        extension: "oga",
        media: "audio/ogg",
    },
    Known {
        extension: "opus",
        media: "audio/ogg",
    },
    Known {
        extension: "m4a",
        media: "audio/mp4",
    },
    Known {
        extension: "wav",
        media: "audio/wav",
    },
    Known {
        extension: "flac",
        media: "audio/flac",
    },
    Known {
        extension: "mp4",
        media: "video/mp4",
    },
    Known {
        extension: "m4v",
        media: "video/mp4",
    },
    Known {
        extension: "webm",
        media: "video/webm",
    },
    Known {
        extension: "ogv",
        media: "video/ogg",
    },
    Known {
        extension: "mov",
        media: "video/quicktime",
    },
];

/// Whether a character set is named behind the type.
fn takes_charset(media: &[u8]) -> bool
    ensures { result ≡ takes_charset media.now }
{
    media == b"text/html".as_slice() || media == b"text/plain".as_slice()
}

/// The type with the character set behind it, where there is one to name.
fn sent_type(alloc: Global, media: &[u8], charset: &Option<Octets>) -> Result<Octets, NoMemory>
    ensures { IfOk result (λ text. text ≡ with_charset charset.now media.now) }
{
    let mut text = Octets::of(alloc, media)?;
    if let Some(charset) = charset
        && takes_charset(media)
    {
        text.add(b"; charset=")?;
        text.add(charset.as_slice())?;
    }
    Ok(text)
}

/// Puts the pair at the end, with the character set behind its type.
pub fn add_pair(
    alloc: Global,
    pairs: &mut Vec<TypePair>,
    extension: &[u8],
    media: &[u8],
    charset: &Option<Octets>,
) -> Result<(), NoMemory>
    ensures { OnOk result (pairs.new.items ≡ pairs.old.items
        ++ pair_sent charset.now (pair extension.now media.now) ∷ []) }
{
    let extension = Octets::of(alloc, extension)?;
    let media = sent_type(alloc, media, charset)?;
    pairs.push(TypePair { extension, media })?;
    Ok(())
}

/// Puts the lines of a table at the end.
fn add_lines(
    alloc: Global,
    pairs: &mut Vec<TypePair>,
    lines: &[Known],
    charset: &Option<Octets>,
) -> Result<(), NoMemory>
    ensures { OnOk result (pairs.new.items ≡ pairs.old.items
        ++ map (pair_sent charset.now) (map pair_of lines.now)) }
{
    for line in lines {
        let extension = line.extension.as_bytes();
        add_pair(alloc, pairs, extension, line.media.as_bytes(), charset)?;
    }
    Ok(())
}

/// Puts the table that is asked for at the end.
pub fn add_table(
    alloc: Global,
    pairs: &mut Vec<TypePair>,
    long: bool,
    charset: &Option<Octets>,
) -> Result<(), NoMemory>
    ensures { OnOk result (pairs.new.items ≡ pairs.old.items
        ++ map (pair_sent charset.now) (table_of long)) }
{
    add_lines(alloc, pairs, &SHORT, charset)?;
    if long {
        add_lines(alloc, pairs, &FURTHER, charset)?;
    }
    Ok(())
}
