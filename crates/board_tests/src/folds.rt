//! In what two boards behind the same calls differ.
use crate::editions::{known_editions, order_in};
use crate::moves::{LastBoard, show_seen};
use crate::seen::{ScriptBoard, add_one};
use board::report_line::lines_after;
use conn_machine::Event;
use mpm_base::{NoMemory, Octets};
use std::alloc::Global;
use test_rows::Sheet;

/// What is counted of all entries of a board.
#[derive(Clone, Copy, PartialEq, Eq)]
struct Counts {
    entries: u64,
    accepted: u64,
    closed: u64,
    responses: u64,
    causes: [u64; 9],
    children: u64,
    ticks: u64,
    readies: u64,
    orders: u64,
}

impl Counts {
    /// What the record of the board counts, and its history besides.
    fn of(board: &ScriptBoard) -> Counts {
        let folded = board.folded();
        let mut counts = Counts {
            entries: folded.entries,
            accepted: folded.accepted,
            closed: folded.closed,
            responses: folded.responses,
            causes: folded.causes,
            children: folded.children,
            ticks: folded.ticks,
            readies: folded.readies,
            orders: folded.orders,
        };
        for entry in board.history() {
            counts.add(&entry.event);
        }
        counts
    }

    /// Counts the entry of the event.
    fn add(&mut self, event: &Event) {
        self.entries = self.entries.saturating_add(1);
        if order_in(event).is_some() {
            self.orders = self.orders.saturating_add(1);
        }
        match event {
            Event::Accept(_) => self.accepted = self.accepted.saturating_add(1),
            Event::Answer(_, _) => self.responses = self.responses.saturating_add(1),
            Event::Close(_, cause, _) => {
                self.closed = self.closed.saturating_add(1);
                add_one(&mut self.causes, cause.number() as usize);
            }
            Event::Ready(_) => self.readies = self.readies.saturating_add(1),
            Event::Tick(_) => self.ticks = self.ticks.saturating_add(1),
            Event::StartChild(_) => self.children = self.children.saturating_add(1),
            _ => (),
        }
    }
}

/// Shows what was seen of the first board, how often it was folded, and in what it differs from the second one.
pub fn show_folded(
    sheet: &mut Sheet,
    alloc: Global,
    row: &str,
    folding: &LastBoard,
    keeping: &LastBoard,
) -> Result<(), NoMemory> {
    show_seen(sheet, row, &folding.seen);
    let (folds, in_hand) = folding.seen.folds();
    let what = difference(alloc, folding, keeping)?;
    println!(sheet; "folded {folds} times, {in_hand} of them in hand => {what} differs");
    Ok(())
}

/// In what the first board, which was folded, differs from the second one, which never was: how often its finds found something, what is
/// counted of all entries, the entries that it keeps, its state, the lines of the first connections that ended, or the editions of the
/// generations in use.
pub fn difference(
    alloc: Global,
    folding: &LastBoard,
    keeping: &LastBoard,
) -> Result<&'static str, NoMemory> {
    if !folding.seen.found_as(&keeping.seen) {
        return Ok("a find");
    }
    let (folding, keeping) = (&folding.board, &keeping.board);
    if Counts::of(folding) != Counts::of(keeping) {
        return Ok("a count");
    }
    if !keeping.history().ends_with(folding.history()) {
        return Ok("an entry");
    }
    if !has_same_state(alloc, folding, keeping)? {
        return Ok("the state");
    }
    if !has_same_lines(alloc, folding, keeping)? {
        return Ok("a line");
    }
    if !has_same_editions(alloc, folding, keeping)? {
        return Ok("an edition");
    }
    Ok("nothing")
}

/// Whether both boards have the same state, as texts.
fn has_same_state(alloc: Global, one: &ScriptBoard, other: &ScriptBoard) -> Result<bool, NoMemory> {
    let (one, other) = (state_text(alloc, one)?, state_text(alloc, other)?);
    Ok(one == other)
}

/// The state of the board, as a text.
fn state_text(alloc: Global, board: &ScriptBoard) -> Result<String, NoMemory> {
    match format!(in alloc; "{:?}", board.state()) {
        Ok(text) => Ok(text),
        Err(_) => Err(NoMemory),
    }
}

/// Whether both boards have the same lines of the first connections that ended.
fn has_same_lines(alloc: Global, one: &ScriptBoard, other: &ScriptBoard) -> Result<bool, NoMemory> {
    let (one, other) = (lines_of(alloc, one)?, lines_of(alloc, other)?);
    Ok(one.as_slice() == other.as_slice())
}

/// The lines of the first connections that ended.
fn lines_of(alloc: Global, board: &ScriptBoard) -> Result<Octets, NoMemory> {
    let folded = board.folded();
    lines_after(alloc, &folded.lines, folded.closed, board.ended())
}

/// Whether both boards have the same editions of the generations in use.
fn has_same_editions(
    alloc: Global,
    one: &ScriptBoard,
    other: &ScriptBoard,
) -> Result<bool, NoMemory> {
    let (one, other) = (known_editions(alloc, one)?, known_editions(alloc, other)?);
    Ok(one.as_slice() == other.as_slice())
}
