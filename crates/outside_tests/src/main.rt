//! Tests of the words of the server, of what stands in for the outside in memory, of scripts and of fronts that play them, by their public
//! calls alone. The file `stdin` has calls and scripts, section by section, and `stdout` what must come of each.
//!
//! In the input a line that begins with `== ` begins a section: the word up to a colon says what its rows are, and the rest is its
//! title. In a text `|` stands for a line feed; in that of a script `^` and a letter stand for a control byte (`^M` for a carriage
//! return, `^?` for byte 127), and a number and a text between backquotes for the text so many times.
//!
//! - `plain`, `listed`, `paced`: a link. Its first row has the bytes that come, its second one its number and whether its client ends,
//!   its third and fourth one the reads and the writes that fail, its fifth one whether a line drops it. The others are calls of it,
//!   or of the wire that paces it.
//! - `sink`: an output. Its first row has the writes that fail, the others are pieces that are written. `slow` takes single bytes.
//! - `log`: a log. Its first row has the calls that fail, the others are calls: `begin NAME`, and `write PIECE`. `slow-log` takes single
//!   bytes.
//! - `files`: files are set and unset. `store`: the same up to a row `--`, then a row with the calls that fail, and calls of the store.
//!   Where there is no such row the rows are scripts, of each of which is shown what its store has in `httpd.conf` and below `htdocs`
//!   at first, and behind each of three renewals.
//! - `editions`: what a file is in one edition after the other. `history`: files are set and unset, and editions end, up to a row
//!   `--`; then calls of the store that has it. `notes`: whether each note is the last.
//! - `script`: scripts, of each of which the lines are shown, or why it is refused.
//! - `load`: numbers, for each of which the script of a load of so many connections is shown.
//! - `front`: a front. Its first row is a script that is made by hand, each of whose lines ends with `|`; it need not be one that is
//!   read. The others are calls. A link is named by its place among those that were taken and not turned away, from 0.
//!   - `wait MOMENT WORD`: until the moment, which is `-` for none; the word is `quiet` where no connection is being served.
//!   - `accept`, and `turn`, which turns the link away that was taken last; `watch LINK SLOT`; `all`, which takes each link that waits,
//!     and watches it in a slot from 0 on.
//!   - `read LINK ROOM`, with room for eight bytes at most; `write LINK TEXT`, `shut LINK`, `close LINK`, and `show LINK`.
//!   - `bind`, `hush`, `command`, `dial PORT WORD`, and `bell`, which makes a bell and rings it; `faults` shows how many waits and
//!     accepts failed.
//! - `failing`: the same of a front some of whose calls fail. Its first row has the numbers of the waits that fail, a semicolon, those
//!   of the accepts, and perhaps a further one and those of the watches; the script stands in the second.
#![tactic(auto)]

mod by_hand;
mod calls;
mod fronts;
mod links;
mod notes;
mod script_stores;
mod scripts;
mod sinks;
mod stores;

use mpm_base::NoMemory;
use std::alloc::Global;
use std::io;
use std::sync::Wait;
use test_rows::{Section, Sheet, grown, open_section, sections_of};

fn main(rt: HostRuntime) -> io::Result<()> {
    let input = io::read_to_string(rt.alloc(), rt.reader())?;
    for text in sections_of(input.as_str()) {
        let sheet = grown(sheet_of(&rt, rt.alloc(), text))?;
        sheet.show(&rt)?;
    }
    Ok(())
}

/// What comes of the section of this text.
fn sheet_of<R: Wait>(rt: &R, alloc: Global, text: &str) -> Result<Sheet, NoMemory> {
    let mut sheet = Sheet::make(alloc);
    let section = open_section(&mut sheet, text);
    show_section(&mut sheet, rt, alloc, section)?;
    Ok(sheet)
}

/// Shows what comes of the rows of the section.
fn show_section<R: Wait>(
    sheet: &mut Sheet,
    rt: &R,
    alloc: Global,
    section: Section<'_>,
) -> Result<(), NoMemory> {
    let Section { word, rows, .. } = section;
    match word {
        "plain" | "listed" | "paced" => links::show_link(sheet, alloc, word, rows),
        "sink" => sinks::show_sink(sheet, alloc, false, rows),
        "slow" => sinks::show_sink(sheet, alloc, true, rows),
        "log" => sinks::show_log(sheet, alloc, false, rows),
        "slow-log" => sinks::show_log(sheet, alloc, true, rows),
        "files" => stores::show_files(sheet, alloc, rows),
        "store" => show_stores(sheet, alloc, rows),
        "editions" => stores::show_editions(sheet, alloc, rows),
        "history" => stores::show_history(sheet, alloc, rows),
        "notes" => notes::show_notes(sheet, alloc, rows),
        "script" => scripts::show_scripts(sheet, alloc, rows),
        "load" => scripts::show_loads(sheet, alloc, rows),
        "failing" => {
            let (lists, rest) = rows.split_once('\n').unwrap_or((rows, ""));
            fronts::show_front(sheet, rt, alloc, lists, rest)
        }
        _ => fronts::show_front(sheet, rt, alloc, "", rows),
    }
}

/// Shows what a store of the files answers to the calls behind `--`, or where there are none, what the stores of scripts have.
fn show_stores(sheet: &mut Sheet, alloc: Global, rows: &str) -> Result<(), NoMemory> {
    match rows.split_once("--\n") {
        Some((files, calls)) => stores::show_store(sheet, alloc, files, calls),
        None => script_stores::show_stores(sheet, alloc, rows),
    }
}
