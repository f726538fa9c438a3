//! The editions that a board knows, by a walk over its history.
use crate::seen::ScriptBoard;
use conn_machine::{Commanded, Edition, Editions, Event};
use mpm_base::NoMemory;
use std::alloc::Global;

/// Whether the event begins a generation, where it is a command `graceful`, taken or refused.
pub fn order_in(event: &Event) -> Option<bool> {
    match event {
        Event::Command(Commanded::Graceful(_)) => Some(true),
        Event::Command(Commanded::Refused(_)) => Some(false),
        _ => None,
    }
}

/// The editions of the generations in use: those of the record, and those of the generations that began in the history.
pub fn known_editions(alloc: Global, board: &ScriptBoard) -> Result<Editions, NoMemory> {
    let mut known = recorded(alloc, board)?;
    let mut order = board.folded().orders;
    let mut generation = generation_before(board);
    for entry in board.history() {
        let Some(begins) = order_in(&entry.event) else {
            continue;
        };
        order = order.saturating_add(1);
        if begins {
            generation = generation.saturating_add(1);
            let edition = Edition {
                generation,
                edition: order,
            };
            if known.push(edition).is_err() {
                return Err(NoMemory);
            }
        }
    }
    Editions::in_use(alloc, known.as_slice(), board.state())
}

/// The editions of the record.
fn recorded(alloc: Global, board: &ScriptBoard) -> Result<Vec<Edition>, NoMemory> {
    let editions = board.folded().editions.as_slice();
    match editions.iter().copied().collect(alloc) {
        Ok(items) => Ok(items),
        Err(_) => Err(NoMemory),
    }
}

/// The newest generation before the history.
fn generation_before(board: &ScriptBoard) -> u32 {
    let history = board.history().iter();
    let begun = history.filter(|entry| order_in(&entry.event) == Some(true));
    let begun = u32::try_from(begun.count()).unwrap_or(0);
    board.state().newest.saturating_sub(begun)
}
