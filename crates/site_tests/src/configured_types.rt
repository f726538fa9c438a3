//! What configurations say of tags, times and types, by example.
use media_types::{MediaTypes, TypePair};
use mpm_config::Config;
use test_rows::Sheet;

/// Shows whether files have tags, and whether the times at which they were changed count.
pub fn show_marks(sheet: &mut Sheet, config: &Config) {
    println!(sheet; "{} {}", config.tags, config.times);
}

/// Shows which table counts, the character set, where one is named, and the pairs that are added, in order.
pub fn show_types(sheet: &mut Sheet, types: &MediaTypes) {
    sheet.print(if types.long { "long" } else { "short" });
    if let Some(charset) = &types.charset {
        sheet.bytes("", charset.as_slice());
    }
    for pair in types.added.as_slice() {
        show_pair(sheet, pair);
    }
    sheet.print("\n");
}

/// Shows the extension of the pair and its type.
fn show_pair(sheet: &mut Sheet, pair: &TypePair) {
    sheet.print(", ");
    sheet.text(pair.extension.as_slice());
    sheet.bytes("", pair.media.as_slice());
}
