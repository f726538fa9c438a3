//! Changes of rows that numbers ask for, also such as no event makes, behind each of which the counts that are kept are compared with
//! what a look at each row counts.
use crate::counts::show_other;
use crate::names::{CAUSES, KINDS, PHASES};
use conn_machine::Rows;
use mpm_base::{NoMemory, Note};
use std::alloc::Global;
use test_rows::{NumberStream, Sheet, below, listed_at, number_of, small, small_of, words};

/// What the rows of a list may be given: so many children, and so many cells, or the lowest free one where there are none.
#[derive(Clone, Copy)]
struct Bounds {
    children: usize,
    cells: usize,
}

/// Shows whether the counts of a list of rows are right behind each change, for the seed and the number of changes of each row. The words
/// of the section say how many rows there are, and of how many children and cells they may be.
pub fn show_changes(
    sheet: &mut Sheet,
    alloc: Global,
    sizes: &str,
    rows: &str,
) -> Result<(), NoMemory> {
    let (slots, rest) = words(sizes);
    let (children, cells) = words(rest);
    let bounds = Bounds {
        children: small_of(children) as usize,
        cells: small_of(cells) as usize,
    };
    for row in rows.lines() {
        print!(sheet; "{row} => ");
        let mut changed = Rows::make(alloc, small_of(slots))?;
        make_changes(sheet, &mut changed, bounds, row);
    }
    Ok(())
}

/// Makes as many changes as the row says, and shows what differs first behind one of them.
fn make_changes(sheet: &mut Sheet, rows: &mut Rows, bounds: Bounds, row: &str) {
    let (seed, changes) = words(row);
    let mut numbers = NumberStream::from(number_of(seed));
    let children = small(bounds.children).saturating_add(1);
    let cells = small(bounds.cells.max(rows.len())).saturating_add(2);
    for _ in 0..number_of(changes) {
        let number = numbers.next();
        change_row(rows, bounds, number, numbers.next());
        if show_other(sheet, rows, children, cells) {
            return sheet.println("");
        }
    }
    sheet.println("equal");
}

/// Makes the change that the numbers ask for. It has no clause, so that what the calls say isn't carried through all that follows.
fn change_row(rows: &mut Rows, bounds: Bounds, number: u64, detail: u64) {
    let slot = below(number / 16, rows.len());
    if slot as usize >= rows.len() {
        return;
    }
    match number % 9 {
        0 => rows.take(slot, detail, below(detail, bounds.children), 0),
        1 => rows.park(slot, listed_at(&KINDS, detail), detail, Some(detail)),
        2 => rows.hold(slot),
        3 => rows.queue(slot),
        4 => rows.linger(
            slot,
            listed_at(&KINDS, detail),
            detail,
            listed_at(&CAUSES, detail / 8),
        ),
        5 => rows.close(slot),
        6 => rows.answer(slot, &note_of(detail), false),
        7 => rows.go_on(slot, listed_at(&PHASES, detail)),
        _ => {
            let cell = cell_from(rows, slot, bounds, detail);
            rows.start(slot, cell, listed_at(&PHASES, detail / 64));
        }
    }
}

/// The cell in which the row of the slot is to be served.
fn cell_from(rows: &Rows, slot: u32, bounds: Bounds, detail: u64) -> u32 {
    if bounds.cells > 0 {
        return below(detail, bounds.cells);
    }
    match rows.get(slot) {
        Some(row) => rows.lowest_free_cell(row.child, 64),
        None => 0,
    }
}

/// A note of a response that is no status page.
fn note_of(detail: u64) -> Note {
    Note {
        date: 0,
        asked_close: false,
        last: detail % 2 == 0,
        code: 200,
        page: None,
    }
}
