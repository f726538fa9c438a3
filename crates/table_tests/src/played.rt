//! Events that numbers ask for, behind each of which the counts that are kept are compared with what a look at each row counts, and what
//! a status page shows with what that shows.
use crate::counts::show_other;
use crate::pages::show_other_page;
use crate::random_events::event_from;
use crate::tables::Table;
use conn_machine::Event;
use mpm_base::NoMemory;
use std::alloc::Global;
use test_rows::{NumberStream, Sheet, number_of, small, words};

/// What came of an event.
#[derive(Clone, Copy)]
enum Played {
    /// It wasn't allowed.
    Refused,
    /// It was done.
    Done,
    /// It was done, and is an answer on this slot that is a status page.
    Page(u32),
}

/// Shows whether the counts of a state, and the status pages, are right behind each event, and how many events it allowed, for the seed
/// and the number of events of each row.
pub fn show_counts(
    sheet: &mut Sheet,
    alloc: Global,
    opening: &str,
    rows: &str,
) -> Result<(), NoMemory> {
    for row in rows.lines() {
        print!(sheet; "{row} => ");
        let mut table = Table::open(alloc, opening)?;
        play_row(sheet, alloc, opening, &mut table, row)?;
    }
    Ok(())
}

/// Plays as many events as the row says, shows what differs first behind one of them, and how many were allowed.
fn play_row(
    sheet: &mut Sheet,
    alloc: Global,
    opening: &str,
    table: &mut Table,
    row: &str,
) -> Result<(), NoMemory> {
    let (seed, events) = words(row);
    let mut numbers = NumberStream::from(number_of(seed));
    let mut allowed: u64 = 0;
    let mut pages: u64 = 0;
    for _ in 0..number_of(events) {
        let played = play_one(alloc, opening, table, &mut numbers)?;
        allowed = allowed.wrapping_add(u64::from(!matches!(played, Played::Refused)));
        pages = pages.wrapping_add(u64::from(matches!(played, Played::Page(_))));
        if show_others(sheet, alloc, table, played)? {
            println!(sheet; ", {allowed} allowed, {pages} pages");
            return Ok(());
        }
    }
    println!(sheet; "equal, {allowed} allowed, {pages} pages");
    Ok(())
}

/// Plays the next event that the numbers ask for. A server that takes no connection any more, and has none, opens anew before.
fn play_one(
    alloc: Global,
    opening: &str,
    table: &mut Table,
    numbers: &mut NumberStream,
) -> Result<Played, NoMemory> {
    if !table.state.going.is_serving() && !table.state.has_live() {
        *table = Table::open(alloc, opening)?;
    }
    let number = numbers.next();
    let event = event_from(alloc, &table.state, number, numbers.next())?;
    play_event(alloc, table, &event)
}

/// Plays the event.
fn play_event(alloc: Global, table: &mut Table, event: &Event) -> Result<Played, NoMemory> {
    let played = match table.play(alloc, event)? {
        None => Played::Refused,
        Some(_) => match event {
            Event::Answer(name, ask) if ask.page => Played::Page(name.slot),
            _ => Played::Done,
        },
    };
    Ok(played)
}

/// Shows where the counts of the state are others than a look at each row counts, or a status page shows something else than that shows,
/// and says whether it does.
fn show_others(
    sheet: &mut Sheet,
    alloc: Global,
    table: &Table,
    played: Played,
) -> Result<bool, NoMemory> {
    let children = small(table.state.children.len()).saturating_add(1);
    let cells = table.state.shape.threads.max(8).saturating_add(2);
    if show_other(sheet, &table.state.rows, children, cells) {
        return Ok(true);
    }
    if let Played::Page(slot) = played {
        if show_other_answer(sheet, alloc, table, slot)? {
            return Ok(true);
        }
    }
    let page = table.page(alloc)?;
    show_other_page(sheet, alloc, &table.state, &page)
}

/// Shows where the page that the last response of the slot is shows something else than a look at each row, and says whether it does.
fn show_other_answer(
    sheet: &mut Sheet,
    alloc: Global,
    table: &Table,
    slot: u32,
) -> Result<bool, NoMemory> {
    match table.notes.last_page(slot) {
        Some(page) => show_other_page(sheet, alloc, &table.state, page),
        None => {
            print!(sheet; "no page of slot {slot}");
            Ok(true)
        }
    }
}
