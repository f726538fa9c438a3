//! Tests of the crates of HTTP, by their public calls alone: heads and bodies as clients send them, responses and pages by example. The
//! file `stdin` has the texts, section by section, and `stdout` what must come of each.
//!
//! In the input a line that begins with `== ` begins a section: the words up to a colon say what its rows are, and the rest is its
//! title. In a text `|` stands for a carriage return and a line feed, `~` for a line feed, `^` for a carriage return, and a number and
//! a text between backquotes for the text so many times.
//!
//! - `body KIND`: bodies. `gibibyte`: a kind and how the body begins. `body looks`: chunked bodies.
//! - `heads LINE FIELD FIELDS`: heads, by these limits. `requests`: heads, and what they ask. `hosts`: no rows, for each byte in a host.
//! - `answers SECOND LAST SITE`: heads that are answered at the second. The site hides its status page (`hidden`), has two hosts
//!   (`hosts`), has files with tags, times or both (`tags`, `times`, `marks`), or types by the short table, the long one, with pairs or
//!   with a character set (`short`, `long`, `added`, `charset`). `refusals`: codes. `continue`: no rows.
//! - `conn`: the first row has the bytes that a client sends; each other one has the turns of a connection, what happens to its link
//!   between them, and how it ends. `cuts`: what clients send; each is cut behind each of its bytes.
//! - `long`: what a client sends first, how often it sends a further text, that text, and what it sends last. `calls`: the first row
//!   is such a client; each other one is the file `large.bin` that it asks for. `slow`: how many bytes the file has that a client
//!   asks for, and for how many its link has room in each turn.
//! - `log LIMIT`: for each line of a log, whose request line is cut to the limit, an address, a second, a code, a size, and what came of
//!   the client. `escapes`: no rows, for each byte of a request line.
//! - `pages`: the letters and the numbers of a snapshot.
#![tactic(auto)]

mod bodies;
mod conns;
mod heads;
mod large;
mod leaving;
mod logs;
mod long_link;
mod pages;
mod responses;
mod sites;
mod test_conn;
mod turn_answers;

use mpm_base::NoMemory;
use std::alloc::Global;
use std::io;
use test_rows::{Marks, Section, Sheet, grown, open_section, sections_of, text_of};

fn main(rt: HostRuntime) -> io::Result<()> {
    let input = io::read_to_string(rt.alloc(), rt.reader())?;
    for text in sections_of(input.as_str()) {
        let sheet = grown(sheet_of(rt.alloc(), text))?;
        sheet.show(&rt)?;
    }
    Ok(())
}

/// What comes of the section of this text.
fn sheet_of(alloc: Global, text: &str) -> Result<Sheet, NoMemory> {
    let mut sheet = Sheet::make(alloc);
    let section = open_section(&mut sheet, text);
    show_section(&mut sheet, alloc, section)?;
    Ok(sheet)
}

/// Shows what comes of the section.
fn show_section(sheet: &mut Sheet, alloc: Global, section: Section<'_>) -> Result<(), NoMemory> {
    match section.word {
        "hosts" => heads::show_hosts(sheet, alloc),
        "continue" => responses::show_continue(sheet, alloc),
        "conn" => conns::show_turns(sheet, alloc, section.rows),
        "calls" => large::show_calls(sheet, alloc, section.rows),
        "log" => logs::show_lines(sheet, alloc, section.rest, section.rows),
        "escapes" => logs::show_escapes(sheet, alloc),
        _ => show_rows(sheet, alloc, section),
    }
}

/// Shows what comes of each row of the section.
fn show_rows(sheet: &mut Sheet, alloc: Global, section: Section<'_>) -> Result<(), NoMemory> {
    for row in section.rows.lines() {
        print!(sheet; "{row} =>");
        show_row(sheet, alloc, section, row)?;
    }
    Ok(())
}

/// Shows what comes of the row of the section.
fn show_row(
    sheet: &mut Sheet,
    alloc: Global,
    section: Section<'_>,
    row: &str,
) -> Result<(), NoMemory> {
    match section.word {
        "refusals" => responses::show_refusal(sheet, alloc, row),
        "long" => large::show_long(sheet, alloc, row),
        "slow" => large::show_slow(sheet, alloc, row),
        "pages" => pages::show_page(sheet, alloc, row),
        _ => show_text(sheet, alloc, section, row),
    }
}

/// Shows what comes of the text that the row writes.
fn show_text(
    sheet: &mut Sheet,
    alloc: Global,
    section: Section<'_>,
    row: &str,
) -> Result<(), NoMemory> {
    let text = text_of(alloc, row, Marks::Heads)?;
    match section.word {
        "answers" => responses::show_answer(sheet, alloc, section.rest, text.as_slice()),
        "gibibyte" => bodies::show_gibibyte(sheet, alloc, row, text.as_slice()),
        "cuts" => conns::show_client(sheet, alloc, text.as_slice()),
        _ => {
            show_read(sheet, alloc, section, text.as_slice());
            Ok(())
        }
    }
}

/// Shows what is read in the text.
fn show_read(sheet: &mut Sheet, alloc: Global, section: Section<'_>, text: &[u8]) {
    match section.word {
        "heads" => heads::show_head(sheet, alloc, section.rest, text),
        "requests" => heads::show_asked(sheet, alloc, text),
        _ => bodies::show_body(sheet, section.rest, text),
    }
}
