//! Tests of the board, by its public calls alone: that its finds answer as a walk over all rows does, and that passes under the lock
//! find what one of them did. The file `stdin` says what is tried, section by section, and `stdout` what must come of it.
//!
//! In the input a line that begins with `== ` begins a section: the words up to a colon say what its rows are, and the rest is its
//! title.
//!
//! - `finds SLOTS`: a seed, and a number of calls that numbers from it ask for, of boards of so many slots and three children. Behind
//!   each call that makes an event each find is compared with a walk over all rows. What is shown is the first find that answers
//!   otherwise, how often each event was made, and how often each find found something.
//! - `folds SLOTS`: a seed, and a number of calls as above, none of which stops the board. They are made of two boards, of which one folds
//!   its history wherever it may, also while its pass has a connection, and the other one never does. What is shown is in what the boards
//!   differ then, and what was seen of the first one.
//! - `orders SLOTS`: events and commands, divided by `; `, of two boards of so many slots and three children, of which one folds its history
//!   wherever it may, and the other one never does. `Ready` has the number of signals of slot 0, `Graceful` the number of workers of a child.
//!   What is shown is what came of the last command that isn't `Stop`; the number of orders, the newest generation, the editions of the record
//!   and those of the generations in use, each behind its generation; and in what the boards differ then.
//! - `passes`: no rows. Pass 0 makes an entry, and each of two passes looks.
#![tactic(auto)]

mod clients;
mod driven;
mod editions;
mod folds;
mod hand;
mod moves;
mod orders;
mod pairs;
mod passes;
mod scans;
mod seen;

use mpm_base::NoMemory;
use pairs::Given;
use std::alloc::Global;
use std::io;
use std::sync::Wait;
use test_rows::{Section, Sheet, grown, open_section, sections_of};

fn main(rt: HostRuntime) -> io::Result<()> {
    let input = io::read_to_string(rt.alloc(), rt.reader())?;
    for text in sections_of(input.as_str()) {
        let sheet = grown(sheet_of(&rt, rt.alloc(), text))?;
        sheet.show(&rt)?;
    }
    Ok(())
}

/// What comes of the section of this text.
fn sheet_of<R: Wait>(rt: &R, alloc: Global, text: &str) -> Result<Sheet, NoMemory> {
    let mut sheet = Sheet::make(alloc);
    let section = open_section(&mut sheet, text);
    show_section(&mut sheet, rt, alloc, section)?;
    Ok(sheet)
}

/// Shows what comes of the rows of the section.
fn show_section<R: Wait>(
    sheet: &mut Sheet,
    rt: &R,
    alloc: Global,
    section: Section<'_>,
) -> Result<(), NoMemory> {
    let Section { word, rest, rows } = section;
    match word {
        "finds" => moves::show_finds(sheet, alloc, rest, rows),
        "folds" => pairs::show_pairs(sheet, alloc, Given::Numbers, rest, rows),
        "orders" => pairs::show_pairs(sheet, alloc, Given::Steps, rest, rows),
        _ => passes::show_passes(sheet, rt, alloc),
    }
}
