//! Tests of the crates of the table, by their public calls alone: the event table, the counts that are kept beside its rows, the rule
//! of admission, the queues of those that wait, rings of slots, and slots with items. The file `stdin` has events and calls, section by section, and
//! `stdout` what must come of each.
//!
//! In the input a line that begins with `== ` begins a section: the words up to a colon say what its rows are, and the rest is its
//! title. Events have their names, as `Close 0.1 LinkFailed Direct` for the connection of slot 0 in life 1; a command stands without
//! the word `Command`. An answer has its code, and `close` behind it where the request asks to close, or `refused`,
//! and `page` where it is the status page. A shape is eight
//! words, in the order of its fields, with `on` or `off` for `keep`, and a ninth where a whole request has a time; where there are none
//! it is `2 200 60000 5000 on 100 1 2`.
//!
//! - `may SLOTS CHILDREN SHAPE`: the first row has the events that come first, with `, ` between them. Each other one has a title up to
//!   a colon, then more events up to a semicolon, and an event that is allowed behind them or isn't.
//! - `step SLOTS CHILDREN SHAPE`: the same, and the last event is done: the state before it is shown, its reply, and the state behind it.
//! - `play SLOTS CHILDREN SHAPE`: events that come one behind the other. In a row `show` the state is shown, and `accepted N` and
//!   `newest N` make one of its numbers another. In a row `page` what a status page shows is shown, in a row `kinds` with the number of
//!   letters of each kind in place of them, and in a row `page of SLOT` what the last response of the slot shows. A row `do` has events with `, `
//!   between them, and shows no reply.
//! - `bounds`: shapes that a configuration may have, or may not.
//! - `counts SLOTS CHILDREN SHAPE`: a seed, and a number of events that numbers from it ask for. Behind each the counts that are kept are
//!   compared with what a look at each row counts, and what a status page shows with what that shows.
//! - `changes SLOTS CHILDREN CELLS`: the same for changes of rows that no event need make, of children and in cells below these numbers;
//!   where `CELLS` is 0 each is in the lowest free cell.
//! - `record`: numbers of passes, whose record without any entry is shown. `laws`: no rows; each law is called.
//! - `admits`: workers, factor, idle workers and open connections of a child. `pick`: a title up to a colon, and children as these four
//!   numbers, their own number, and `stops` where they don't run.
//! - `queues SLOTS`: the calls `park NAME KIND DEADLINE`, `unpark NAME`, `overdue MOMENT` and `next`.
//! - `rings SLOTS`: the calls `file SLOT RING`, or `file SLOT` into no ring, `first RING` and `ring of SLOT`.
//! - `slots SLOTS`: the calls `put ITEM`, `take NAME`, `write NAME ITEM`, `next` and `free`.
//! - `queues-as-a-list SLOTS`, `rings-as-a-list SLOTS`, `slots-as-a-list SLOTS`: a seed, and a number of calls that numbers from it ask for. Behind each of them
//!   they are compared with a plain list.
#![tactic(auto)]

mod admitting;
mod calls;
mod changes;
mod counts;
mod events;
mod names;
mod noted;
mod pages;
mod plain_queues;
mod plain_rings;
mod plain_slots;
mod played;
mod queues;
mod random_events;
mod records;
mod shown;
mod slot_rings;
mod slots;
mod tables;

use mpm_base::NoMemory;
use std::alloc::Global;
use std::io;
use test_rows::{Section, Sheet, grown, open_section, sections_of};

fn main(rt: HostRuntime) -> io::Result<()> {
    let input = io::read_to_string(rt.alloc(), rt.reader())?;
    for text in sections_of(input.as_str()) {
        let sheet = grown(sheet_of(rt.alloc(), text))?;
        sheet.show(&rt)?;
    }
    Ok(())
}

/// What comes of the section of this text.
fn sheet_of(alloc: Global, text: &str) -> Result<Sheet, NoMemory> {
    let mut sheet = Sheet::make(alloc);
    let section = open_section(&mut sheet, text);
    show_section(&mut sheet, alloc, section)?;
    Ok(sheet)
}

/// Shows what comes of the rows of the section, of events and of rows.
fn show_section(sheet: &mut Sheet, alloc: Global, section: Section<'_>) -> Result<(), NoMemory> {
    let Section { word, rest, rows } = section;
    match word {
        "may" | "step" => tables::show_last_events(sheet, alloc, section),
        "play" => tables::show_play(sheet, alloc, rest, rows),
        "bounds" => tables::show_bounds(sheet, alloc, rows),
        "counts" => played::show_counts(sheet, alloc, rest, rows),
        "changes" => changes::show_changes(sheet, alloc, rest, rows),
        "record" => records::show_records(sheet, alloc, rows),
        "laws" => {
            records::call_laws();
            records::call_laws_of_runs();
            sheet.println("done");
            Ok(())
        }
        _ => show_calls(sheet, alloc, section),
    }
}

/// Shows what comes of the rows of the section, of calls.
fn show_calls(sheet: &mut Sheet, alloc: Global, section: Section<'_>) -> Result<(), NoMemory> {
    let Section { word, rest, rows } = section;
    match word {
        "pick" => admitting::show_picks(sheet, alloc, rows),
        "queues" => queues::show_queues(sheet, alloc, rest, rows),
        "queues-as-a-list" => queues::show_same_queues(sheet, alloc, rest, rows),
        "rings" => slot_rings::show_slot_rings(sheet, alloc, rest, rows),
        "rings-as-a-list" => slot_rings::show_same_rings(sheet, alloc, rest, rows),
        "slots" => slots::show_slots(sheet, alloc, rest, rows),
        "slots-as-a-list" => slots::show_same_slots(sheet, alloc, rest, rows),
        _ => {
            admitting::show_admits(sheet, rows);
            Ok(())
        }
    }
}
