//! The event table: whether events are allowed, what they reply, and what comes of the state.
ghost use Rattle.conn_machine.specs.Sizes.{IsSized};

use crate::events::{event_of, restart_to, shape_of};
use crate::noted::NotesBySlot;
use crate::pages::{show_kinds, show_page};
use crate::shown::{show_sizes, show_state};
use conn_machine::{Event, Reply, State, is_in_bounds, may, step};
use mpm_base::{NoMemory, Shape, Snapshot};
use std::alloc::Global;
use test_rows::{Section, Sheet, number_of, small_of, words};

/// A state of a size that the machine takes, with the notes of its responses.
#[derive(Drop)]
pub struct Table {
    pub state: State,
    pub notes: NotesBySlot,
    ghost sized: { IsSized state },
}

/// What comes of an event that a row writes.
#[derive(Clone, Copy)]
enum Outcome {
    /// It is none.
    NoEvent,
    /// It isn't allowed.
    Refused,
    /// It was done, with this reply.
    Done(Reply),
}

impl Table {
    /// The opening state that the words ask for: its slots, its children, and its shape where it isn't the usual one. There are at most
    /// 8,192 slots and 32 children.
    pub fn open(alloc: Global, text: &str) -> Result<Table, NoMemory> {
        let (slots, rest) = words(text);
        let (children, shape) = words(rest);
        let slots = small_of(slots).min(8192);
        let children = small_of(children).min(32);
        let state = State::opening(alloc, slots, children, shape_of(shape))?;
        let notes = NotesBySlot::make(alloc, slots)?;
        Ok(Table { state, notes })
    }

    /// Does the event where the state allows it, and gives its reply. It has no clause, so that what `step` says isn't carried through
    /// all that follows.
    pub fn play(&mut self, alloc: Global, event: &Event) -> Result<Option<Reply>, NoMemory> {
        if !may(&self.state, event) {
            return Ok(None);
        }
        let note = match *event {
            Event::Answer(name, ref ask) => Some(self.state.note_for(alloc, name, ask)?),
            _ => None,
        };
        let reply = step(alloc, &mut self.state, event)?;
        self.notes.follow(event, note)?;
        Ok(Some(reply))
    }

    /// Does the event that the text writes, where the state allows it.
    fn play_text(&mut self, alloc: Global, text: &str) -> Result<Outcome, NoMemory> {
        let Some(event) = event_of(alloc, text)? else {
            return Ok(Outcome::NoEvent);
        };
        match self.play(alloc, &event)? {
            Some(reply) => Ok(Outcome::Done(reply)),
            None => Ok(Outcome::Refused),
        }
    }

    /// What a status page shows of the state.
    pub fn page(&self, alloc: Global) -> Result<Snapshot, NoMemory> {
        self.state.snapshot(alloc)
    }
}

/// Shows of each row what comes of its last event behind the others, which come behind those of the first row. In a section `step` that is
/// the state before it, its reply, and the state behind it; else whether it is allowed.
pub fn show_last_events(
    sheet: &mut Sheet,
    alloc: Global,
    section: Section<'_>,
) -> Result<(), NoMemory> {
    let Section { word, rest, rows } = section;
    let (first, rows) = rows.split_once('\n').unwrap_or((rows, ""));
    let is_done = word == "step";
    for row in rows.lines() {
        print!(sheet; "{row}{}", if is_done { "\n" } else { " => " });
        let mut table = Table::open(alloc, rest)?;
        show_last_event(sheet, alloc, &mut table, is_done, (first, row))?;
    }
    Ok(())
}

/// Shows what comes of the last event behind the others: the first ones, and those of the row, behind its title.
fn show_last_event(
    sheet: &mut Sheet,
    alloc: Global,
    table: &mut Table,
    is_done: bool,
    (first, row): (&str, &str),
) -> Result<(), NoMemory> {
    let (_, events) = row.split_once(": ").unwrap_or(("", row));
    let (before, last) = events.split_once("; ").unwrap_or(("", events));
    play_events(sheet, alloc, table, first)?;
    play_events(sheet, alloc, table, before)?;
    if !is_done {
        return show_allowed(sheet, alloc, table, last);
    }
    show_state(sheet, table);
    show_event(sheet, alloc, table, last)?;
    show_state(sheet, table);
    Ok(())
}

/// Shows whether the event is allowed.
fn show_allowed(
    sheet: &mut Sheet,
    alloc: Global,
    table: &Table,
    event: &str,
) -> Result<(), NoMemory> {
    match event_of(alloc, event)? {
        Some(event) => println!(sheet; "{}", may(&table.state, &event)),
        None => println!(sheet; "{event} is no event"),
    }
    Ok(())
}

/// Shows the reply to each event, or that it isn't allowed, where one comes behind the other. In a row `show` the state is shown, and
/// in a row `accepted` or `newest` one of its numbers becomes another.
pub fn show_play(
    sheet: &mut Sheet,
    alloc: Global,
    opening: &str,
    rows: &str,
) -> Result<(), NoMemory> {
    let mut table = Table::open(alloc, opening)?;
    show_rows_of_play(sheet, alloc, &mut table, rows)
}

/// Shows what comes of each row.
fn show_rows_of_play(
    sheet: &mut Sheet,
    alloc: Global,
    table: &mut Table,
    rows: &str,
) -> Result<(), NoMemory> {
    for row in rows.lines() {
        show_row_of_play(sheet, alloc, table, row)?;
    }
    Ok(())
}

/// Shows what comes of the row.
fn show_row_of_play(
    sheet: &mut Sheet,
    alloc: Global,
    table: &mut Table,
    row: &str,
) -> Result<(), NoMemory> {
    let (word, number) = words(row);
    match word {
        "do" => play_events(sheet, alloc, table, number),
        "page" | "kinds" => show_page_of(sheet, alloc, table, row),
        "show" => {
            show_sizes(sheet, &table.state);
            show_state(sheet, table);
            Ok(())
        }
        "accepted" => {
            table.state.accepted = number_of(number);
            Ok(())
        }
        "newest" => {
            table.state.newest = small_of(number);
            Ok(())
        }
        _ => show_event(sheet, alloc, table, row),
    }
}

/// Shows what a status page shows of the state, or what the last response of the slot that the row names shows.
fn show_page_of(
    sheet: &mut Sheet,
    alloc: Global,
    table: &Table,
    row: &str,
) -> Result<(), NoMemory> {
    if row == "kinds" {
        show_kinds(sheet, &table.page(alloc)?);
        return Ok(());
    }
    println!(sheet; "{row} =>");
    match row.strip_prefix("page of ") {
        None => show_page(sheet, &table.page(alloc)?),
        Some(slot) => match table.notes.last_page(small_of(slot)) {
            Some(page) => show_page(sheet, page),
            None => println!(sheet; "  no page"),
        },
    }
    Ok(())
}

/// Shows whether each row is a shape that a configuration may have, and whether a state allows a restart with it.
pub fn show_bounds(sheet: &mut Sheet, alloc: Global, rows: &str) -> Result<(), NoMemory> {
    let table = Table::open(alloc, "2 2")?;
    show_rows_of_bounds(sheet, alloc, &table, rows)
}

/// Shows what comes of each row.
fn show_rows_of_bounds(
    sheet: &mut Sheet,
    alloc: Global,
    table: &Table,
    rows: &str,
) -> Result<(), NoMemory> {
    for row in rows.lines() {
        let shape = shape_of(row);
        let is_allowed = may_restart(alloc, table, shape)?;
        println!(sheet; "{row} => {}, may {is_allowed}", is_in_bounds(&shape));
    }
    Ok(())
}

/// Whether the state allows a restart with the shape.
fn may_restart(alloc: Global, table: &Table, shape: Shape) -> Result<bool, NoMemory> {
    let restart = restart_to(alloc, shape)?;
    Ok(may(&table.state, &restart))
}

/// Does the events, and shows where one isn't allowed.
fn play_events(
    sheet: &mut Sheet,
    alloc: Global,
    table: &mut Table,
    events: &str,
) -> Result<(), NoMemory> {
    if events.is_empty() {
        return Ok(());
    }
    for text in events.split(", ") {
        match table.play_text(alloc, text)? {
            Outcome::Done(_) => (),
            _ => print!(sheet; "but {text} isn't allowed: "),
        }
    }
    Ok(())
}

/// Does the event, and shows its reply, or that it isn't allowed.
fn show_event(
    sheet: &mut Sheet,
    alloc: Global,
    table: &mut Table,
    text: &str,
) -> Result<(), NoMemory> {
    match table.play_text(alloc, text)? {
        Outcome::NoEvent => println!(sheet; "{text} is no event"),
        Outcome::Refused => println!(sheet; "{text} => not allowed"),
        Outcome::Done(reply) => println!(sheet; "{text} => {reply:?}"),
    }
    Ok(())
}
