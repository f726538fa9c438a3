//! The rule of admission, and its choice.
use admission::{ChildCount, admits, pick};
use mpm_base::NoMemory;
use std::alloc::{AllocError, Global};
use test_rows::{Sheet, small_of, words};

/// Shows whether a child takes a further connection: of each row its workers, its factor, its idle workers and its open connections.
pub fn show_admits(sheet: &mut Sheet, rows: &str) {
    for row in rows.lines() {
        println!(sheet; "{row} => {}", has_room(row));
    }
}

/// Whether the child of these words takes a further connection. It has no clause, so that what `admits` says isn't carried along.
fn has_room(text: &str) -> bool {
    let child = child_of(text);
    admits(child.t, child.factor, child.idle, child.count)
}

/// Shows which child takes a connection, of those of each row.
pub fn show_picks(sheet: &mut Sheet, alloc: Global, rows: &str) -> Result<(), NoMemory> {
    for row in rows.lines() {
        let picked = pick_of(alloc, row)?;
        println!(sheet; "{row} => {picked:?}");
    }
    Ok(())
}

/// The child that takes a connection, of those that the row writes behind its title, with `, ` between them. It has no clause, so that
/// what `pick` says isn't carried along.
fn pick_of(alloc: Global, row: &str) -> Result<Option<u32>, AllocError> {
    let (_, text) = row.split_once(": ").unwrap_or(("", row));
    let mut children = Vec::new(alloc);
    if !text.is_empty() {
        for child in text.split(", ") {
            children.push(child_of(child))?;
        }
    }
    Ok(pick(children.as_slice()))
}

/// The child of these words: its workers, its factor, its idle workers and its open connections, then its number, and `stops` where
/// it doesn't run.
fn child_of(text: &str) -> ChildCount {
    let (t, rest) = words(text);
    let (factor, rest) = words(rest);
    let (idle, rest) = words(rest);
    let (count, rest) = words(rest);
    let (child, rest) = words(rest);
    ChildCount {
        child: small_of(child),
        running: rest != "stops",
        t: small_of(t),
        factor: small_of(factor),
        idle: small_of(idle),
        count: small_of(count),
    }
}
