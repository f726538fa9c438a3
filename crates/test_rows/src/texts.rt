//! Texts as rows write them, and bytes as they are printed.
use crate::row::{number_of, words};
use mpm_base::{NoMemory, Octets};
use std::alloc::Global;
use std::io;

/// Which bytes of a row stand for others.
#[derive(Clone, Copy)]
pub enum Marks {
    /// `|` stands for a line feed.
    Lines,
    /// The same, and `^` and a letter stand for a control byte.
    Controls,
    /// `|` stands for a carriage return and a line feed, `~` for a line feed, and `^` for a carriage return.
    Heads,
}

/// The text that the row writes with these marks, and with a number and a text between backquotes for the text so many times.
pub fn text_of(alloc: Global, row: &str, marks: Marks) -> Result<Octets, NoMemory> {
    let mut text = Octets::make(alloc);
    let mut is_run = false;
    for part in row.split('`') {
        if is_run {
            add_run(&mut text, part, marks)?;
        } else {
            add_text(&mut text, part, marks)?;
        }
        is_run = !is_run;
    }
    Ok(text)
}

/// Puts the text at the end as often as the number before it says.
fn add_run(text: &mut Octets, run: &str, marks: Marks) -> Result<(), NoMemory> {
    let (count, unit) = words(run);
    for _ in 0..number_of(count) {
        add_text(text, unit, marks)?;
    }
    Ok(())
}

/// Puts the bytes that the part stands for at the end.
fn add_text(text: &mut Octets, part: &str, marks: Marks) -> Result<(), NoMemory> {
    let mut is_control = false;
    for byte in part.as_bytes() {
        if is_control {
            text.add(&[*byte ^ 64])?;
            is_control = false;
        } else if *byte == b'^' && matches!(marks, Marks::Controls) {
            is_control = true;
        } else {
            add_byte(text, *byte, marks)?;
        }
    }
    Ok(())
}

/// Puts what the byte stands for at the end, where it begins no control byte.
fn add_byte(text: &mut Octets, byte: u8, marks: Marks) -> Result<(), NoMemory> {
    match (marks, byte) {
        (Marks::Heads, b'|') => text.add(b"\r\n"),
        (Marks::Heads, b'~') => text.add(b"\n"),
        (Marks::Heads, b'^') => text.add(b"\r"),
        (_, b'|') => text.add(b"\n"),
        _ => text.add(&[byte]),
    }
}

/// Prints the bytes under the name, in the same line.
pub fn show_bytes(rt: &impl Print, alloc: Global, name: &str, bytes: &[u8]) -> io::Result<()> {
    let text = String::from_utf8_lossy(alloc, bytes)?;
    print!(rt; "{name} {text:?}")
}
