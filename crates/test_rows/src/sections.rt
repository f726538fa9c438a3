//! The sections of an input.
use crate::row::words;
use crate::sheet::Sheet;
use std::io;
use std::str::Split;

/// A section of an input: a line that begins with `== `, and the lines behind it.
#[derive(Clone, Copy)]
pub struct Section<'a> {
    /// The first word behind `== `.
    pub word: &'a str,
    /// What stands behind that word up to a colon.
    pub rest: &'a str,
    /// The lines behind the first one.
    pub rows: &'a str,
}

/// The sections of the input. What stands before the first one is none.
pub fn sections_of(input: &str) -> Split<'_, &'static str> {
    let mut sections = input.split("\n== ");
    let _ = sections.next();
    sections
}

/// Shows the first line of the section of this text, and gives the section.
pub fn begin_section<'a>(rt: &impl Print, text: &'a str) -> io::Result<Section<'a>> {
    let (title, rows) = title_of(text);
    println!(rt; "== {title}")?;
    Ok(section_of(title, rows))
}

/// Puts the first line of the section of this text on the sheet, and gives the section.
pub fn open_section<'a>(sheet: &mut Sheet, text: &'a str) -> Section<'a> {
    let (title, rows) = title_of(text);
    println!(sheet; "== {title}");
    section_of(title, rows)
}

/// The first line of the text, and those behind it.
fn title_of(text: &str) -> (&str, &str) {
    text.split_once('\n').unwrap_or((text, ""))
}

/// The section with this first line, and these rows.
fn section_of<'a>(title: &'a str, rows: &'a str) -> Section<'a> {
    let (kind, _) = title.split_once(':').unwrap_or((title, ""));
    let (word, rest) = words(kind);
    Section { word, rest, rows }
}
