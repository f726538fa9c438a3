//! What stores answer.
use crate::calls::calls_of;
use failing_stand_ins::MemStore;
use mpm_base::{NoMemory, Second, Store};
use stand_ins::{Calls, Files, History, PlainStore, Slot};
use std::alloc::Global;
use test_rows::{Sheet, number_of, small_of, words};

/// The files that the rows set and unset.
fn files_of(alloc: Global, rows: &str) -> Result<Files, NoMemory> {
    let mut files = Files::make(alloc);
    for row in rows.lines() {
        let (word, rest) = words(row);
        let (name, bytes) = words(rest);
        if word == "set" {
            files.set(name, bytes.as_bytes())?;
        } else {
            files.unset(name);
        }
    }
    Ok(files)
}

/// Shows the files that the rows set and unset, in their order.
pub fn show_files(sheet: &mut Sheet, alloc: Global, rows: &str) -> Result<(), NoMemory> {
    let files = files_of(alloc, rows)?;
    for slot in files.slots() {
        show_slot(sheet, slot);
    }
    Ok(())
}

/// Shows the name of the slot and its bytes, where it has some.
fn show_slot(sheet: &mut Sheet, slot: &Slot) {
    if let Some(content) = &slot.content {
        sheet.text(slot.name.as_slice());
        sheet.bytes("", content.bytes.as_slice());
        sheet.print("\n");
    }
}

/// Shows what a store of the files answers whose listed calls fail, and where call 0 is listed, which is none, also what a plain one does.
pub fn show_store(
    sheet: &mut Sheet,
    alloc: Global,
    files: &str,
    rows: &str,
) -> Result<(), NoMemory> {
    let (fails, calls) = rows.split_once('\n').unwrap_or((rows, ""));
    show_failing(sheet, alloc, files, fails, calls)?;
    if fails.starts_with('0') {
        let mut plain = PlainStore::make(alloc, files_of(alloc, files)?);
        show_calls(sheet, alloc, &mut plain, calls);
    }
    Ok(())
}

/// Shows what a store of the files answers whose listed calls fail.
fn show_failing(
    sheet: &mut Sheet,
    alloc: Global,
    files: &str,
    fails: &str,
    calls: &str,
) -> Result<(), NoMemory> {
    let listed = calls_of(alloc, fails)?;
    let mut store = MemStore::make(alloc, files_of(alloc, files)?, listed);
    show_calls(sheet, alloc, &mut store, calls);
    println!(sheet; "{} faults", store.faults());
    Ok(())
}

/// Shows what the store answers to each call.
fn show_calls<D: Store>(sheet: &mut Sheet, alloc: Global, store: &mut D, calls: &str) {
    for call in calls.lines() {
        print!(sheet; "{call} =>");
        show_call(sheet, alloc, store, call);
        sheet.print("\n");
    }
}

/// Shows what the store answers to the call.
fn show_call<D: Store>(sheet: &mut Sheet, alloc: Global, store: &mut D, call: &str) {
    let (word, rest) = words(call);
    let (name, most) = words(rest);
    match word {
        "read" => match store.read_bytes(alloc, name, number_of(most)) {
            Ok(bytes) => sheet.bytes("", bytes.as_slice()),
            Err(fault) => print!(sheet; " {fault:?}"),
        },
        "names" => match store.names(alloc, name, small_of(most)) {
            Ok(names) => print!(sheet; " {} names", names.len()),
            Err(fault) => print!(sheet; " {fault:?}"),
        },
        _ => store.renew(),
    }
}

/// Shows what a file is in each edition, and in one more.
pub fn show_editions(sheet: &mut Sheet, alloc: Global, rows: &str) -> Result<(), NoMemory> {
    let mut store = MemStore::make(alloc, Files::make(alloc), Calls::make(alloc));
    add_editions(alloc, &mut store, rows)?;
    show_calls(
        sheet,
        alloc,
        &mut store,
        "read a 9\nrenew\nread a 9\nrenew\nread a 9\nrenew\nread a 9\nrenew\nread a 9",
    );
    Ok(())
}

/// Adds an edition for each row.
fn add_editions(alloc: Global, store: &mut MemStore, rows: &str) -> Result<(), NoMemory> {
    for row in rows.lines() {
        store.later(files_of(alloc, row)?)?;
    }
    Ok(())
}

/// The history of the changes and ends that the rows say.
fn history_of(alloc: Global, rows: &str) -> Result<History, NoMemory> {
    let mut history = History::make(alloc);
    for row in rows.lines() {
        let (word, rest) = words(row);
        let (name, bytes) = words(rest);
        match word {
            "set" => history.set(name, bytes.as_bytes(), Second::of(0))?,
            "unset" => history.unset(name)?,
            _ => history.end()?,
        }
    }
    Ok(history)
}

/// Shows what the store of a history answers.
pub fn show_history(sheet: &mut Sheet, alloc: Global, rows: &str) -> Result<(), NoMemory> {
    let (changes, calls) = rows.split_once("--\n").unwrap_or((rows, ""));
    let mut store = PlainStore::of_history(alloc, history_of(alloc, changes)?)?;
    show_calls(sheet, alloc, &mut store, calls);
    Ok(())
}
