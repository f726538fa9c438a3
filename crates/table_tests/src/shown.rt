//! What is seen of a state.
use crate::tables::Table;
use conn_machine::{Row, State};
use mpm_base::Notes;
use test_rows::Sheet;

/// Shows how many rows and children there are, and what the state says of itself.
pub fn show_sizes(sheet: &mut Sheet, state: &State) {
    print!(sheet;
        "{} rows, none {}, {} children, none {}",
        state.rows.len(),
        state.rows.is_empty(),
        state.children.len(),
        state.children.is_empty()
    );
    println!(sheet;
        ", halted {}, live {}",
        state.going.is_halted(),
        state.has_live()
    );
}

/// Shows the whole state: what it has once, each child, and each row with its notes and its signal.
pub fn show_state(sheet: &mut Sheet, table: &Table) {
    let state = &table.state;
    println!(sheet;
        "  {:?} at {}, newest {}, accepted {}, {:?}",
        state.going, state.moment, state.newest, state.accepted, state.shape
    );
    for child in state.children.as_slice() {
        println!(sheet;
            "  {:?} child of {}, {:?}",
            child.phase, child.generation, child.shape
        );
    }
    for slot in 0..u32::MAX {
        let Some(row) = state.rows.get(slot) else {
            return;
        };
        let Some(notes) = table.notes.get(slot) else {
            return;
        };
        let has_whole_time = state.child_of(row).shape.whole_ms > 0;
        show_row(sheet, slot, row, has_whole_time);
        show_notes(sheet, row, notes);
        println!(sheet; ", signal {}", state.signals.get(slot));
    }
}

/// Shows the row of the slot, and since when it has waited for its request where a whole one has a time.
fn show_row(sheet: &mut Sheet, slot: u32, row: &Row, has_whole_time: bool) {
    print!(sheet;
        "  {slot}.{} {:?}, owner {:?}, arrival {}, child {} of {}, live there {}",
        row.life,
        row.place,
        row.owner(),
        row.arrival,
        row.child,
        row.generation,
        row.is_live_in(row.child)
    );
    print!(sheet; ", from {:?} until {}", row.from, row.deadline);
    match row.began {
        Some(began) if has_whole_time => print!(sheet; " since {began}"),
        _ => (),
    }
    print!(sheet;
        ", mid {}, last {}, short {}, cause {:?}",
        row.mid, row.last, row.short, row.cause
    );
}

/// Shows the notes of the row, and where the row counts others.
fn show_notes(sheet: &mut Sheet, row: &Row, notes: &Notes) {
    print!(sheet;
        ", notes {:?}, says last {}",
        notes.as_slice(),
        row.notes.says_last()
    );
    let count = row.notes.count() as usize;
    if count != notes.len() || row.notes.is_empty() != notes.is_empty() {
        print!(sheet; ", but {count} counted");
    }
}
