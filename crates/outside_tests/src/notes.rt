//! What notes say.
use mpm_base::{NoMemory, Note, Notes};
use std::alloc::Global;
use test_rows::Sheet;

/// Shows whether the last note says that it is the last, at first and behind each of these.
pub fn show_notes(sheet: &mut Sheet, alloc: Global, rows: &str) -> Result<(), NoMemory> {
    let mut notes = Notes::make(alloc);
    println!(sheet; "at first => {}", notes.says_last());
    for row in rows.lines() {
        add_note(&mut notes, row == "last")?;
        println!(sheet; "{row} => {}", notes.says_last());
    }
    Ok(())
}

/// Adds a note that says whether it is the last.
fn add_note(notes: &mut Notes, last: bool) -> Result<(), NoMemory> {
    notes.push(Note {
        date: 1,
        asked_close: !last,
        last,
        code: 200,
        page: None,
    })
}
