//! What a status page shows of a state, and what a look at each row shows.
use crate::counts::{look_at, plain_phase};
use conn_machine::{Child, ChildPhase, Phase, Row, State};
use mpm_base::{NoMemory, Octets, Snapshot};
use std::alloc::Global;
use test_rows::{Sheet, small};

/// The numbers that the page shows: the newest generation, the busy workers and the idle ones, all connections, and those that wait for
/// room, for a further request, and in closing.
fn shown_numbers(page: &Snapshot) -> [usize; 7] {
    [
        page.generation as usize,
        page.busy as usize,
        page.idle as usize,
        page.total as usize,
        page.writing as usize,
        page.keep_alive as usize,
        page.closing as usize,
    ]
}

/// Shows the numbers of a page.
fn show_numbers(sheet: &mut Sheet, numbers: [usize; 7]) {
    let [generation, busy, idle, total, writing, keep_alive, closing] = numbers;
    print!(sheet;
        "  Numbers {{ generation: {generation}, busy: {busy}, idle: {idle}, total: {total}, writing: {writing}"
    );
    print!(sheet; ", keep_alive: {keep_alive}, closing: {closing} }}");
}

/// Shows the page: its numbers, and its letters.
pub fn show_page(sheet: &mut Sheet, page: &Snapshot) {
    show_parts(sheet, shown_numbers(page), page.letters.as_slice());
}

/// Shows the numbers and the letters of a page.
fn show_parts(sheet: &mut Sheet, numbers: [usize; 7], letters: &[u8]) {
    show_numbers(sheet, numbers);
    sheet.print(", letters ");
    sheet.text(letters);
    sheet.println("");
}

/// Shows the numbers of the page, and how many letters it has of each kind.
pub fn show_kinds(sheet: &mut Sheet, page: &Snapshot) {
    let letters = page.letters.as_slice();
    show_numbers(sheet, shown_numbers(page));
    print!(sheet; ", {} letters", letters.len());
    for kind in b"_RWCG.".as_slice() {
        print!(sheet; ", {} {}", count_of(letters, *kind), char::from(*kind));
    }
    sheet.println("");
}

/// How often the letter is one of the letters.
fn count_of(letters: &[u8], letter: u8) -> usize {
    let mut count: usize = 0;
    for own in letters {
        if *own == letter {
            count = count.wrapping_add(1);
        }
    }
    count
}

/// The letter of the cell of the child, by a look at each row.
fn plain_letter(rows: &[Row], phase: ChildPhase, number: u32, cell: u32) -> u8 {
    match (phase, plain_phase(rows, number, cell)) {
        (ChildPhase::Running, Some(Phase::Read)) => b'R',
        (ChildPhase::Running, Some(Phase::Write)) => b'W',
        (ChildPhase::Running, Some(Phase::Close)) => b'C',
        (ChildPhase::Running, None) => b'_',
        (ChildPhase::Stopping, Some(_)) => b'G',
        _ => b'.',
    }
}

/// The letters of all children, by a look at each row for each.
fn plain_letters(alloc: Global, state: &State) -> Result<Octets, NoMemory> {
    let mut letters = Octets::make(alloc);
    for (number, child) in state.children.as_slice().iter().enumerate() {
        add_letters(&mut letters, state, small(number), child)?;
    }
    Ok(letters)
}

/// Puts the letters of the child at the end.
fn add_letters(
    letters: &mut Octets,
    state: &State,
    number: u32,
    child: &Child,
) -> Result<(), NoMemory> {
    let cells = match child.phase {
        ChildPhase::Empty => state.shape.threads,
        _ => child.shape.threads,
    };
    for cell in 0..cells {
        letters.push(plain_letter(state.rows.as_slice(), child.phase, number, cell))?;
    }
    Ok(())
}

/// The numbers that a page with these letters shows, by a look at each row.
fn plain_numbers(state: &State, letters: &[u8]) -> [usize; 7] {
    let looked = look_at(state.rows.as_slice(), None);
    let [writing, keep_alive, closing] = looked.waiting();
    let idle = count_of(letters, b'_');
    let none = count_of(letters, b'.');
    [
        state.newest as usize,
        letters.len().wrapping_sub(idle).wrapping_sub(none),
        idle,
        looked.live,
        writing,
        keep_alive,
        closing,
    ]
}

/// Shows where the page shows something else than a look at each row of the state, and says whether it does.
pub fn show_other_page(
    sheet: &mut Sheet,
    alloc: Global,
    state: &State,
    page: &Snapshot,
) -> Result<bool, NoMemory> {
    let letters = plain_letters(alloc, state)?;
    let numbers = plain_numbers(state, letters.as_slice());
    if shown_numbers(page) == numbers && page.letters.as_slice() == letters.as_slice() {
        return Ok(false);
    }
    show_page(sheet, page);
    sheet.print("and plainly");
    show_parts(sheet, numbers, letters.as_slice());
    Ok(true)
}
