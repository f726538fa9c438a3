//! Boards that do what numbers ask for, as far as they allow it.
ghost use Rattle.std.specs.Prelude.{◌≡◌, ◌<◌, None, OnSome};
ghost use Rattle.board_book.specs.Book.{row_in};

use crate::clients::empty_site;
use crate::driven::{Answer, board_of, make_move};
use crate::seen::{ScriptBoard, Seen};
use conn_machine::{Commanded, Event, Place, Row, Why};
use file_table::Site;
use mpm_base::{ConnName, NoMemory};
use std::alloc::Global;
use std::sync::Arc;
use test_rows::{NumberStream, Sheet, below, number_of, small_of, words};

/// The most moves of a board.
const MOVES: u32 = 4_000;

/// The most moves of a board that isn't stopped.
const MORE_MOVES: u32 = 1_000_000;

/// A board behind calls, what was seen of it, and what it answered to the last order.
#[derive(Drop)]
pub struct LastBoard {
    pub board: ScriptBoard,
    pub seen: Seen,
    pub answer: Option<Answer>,
}

/// Shows what is seen of boards of so many slots, for the seed and the number of calls of each row.
pub fn show_finds(
    sheet: &mut Sheet,
    alloc: Global,
    slots: &str,
    rows: &str,
) -> Result<(), NoMemory> {
    let site = site_of(alloc)?;
    for row in rows.lines() {
        let seen = drive(alloc, &site, small_of(slots), row)?;
        show_seen(sheet, row, &seen);
    }
    Ok(())
}

/// Shows what was seen for the row.
pub fn show_seen(sheet: &mut Sheet, row: &str, seen: &Seen) {
    match seen.wrong() {
        Some(find) => println!(sheet; "{row} => {find} answers otherwise"),
        None => println!(sheet; "{row} => equal behind {} calls", seen.made()),
    }
    seen.show(sheet);
}

/// The site of each connection.
pub fn site_of(alloc: Global) -> Result<Arc<Site>, NoMemory> {
    match empty_site(alloc) {
        Ok(site) => Ok(Arc::new(alloc, site)?),
        Err(_) => Err(NoMemory),
    }
}

/// What is seen of boards for the seed, until so many calls were made or a find answered otherwise.
fn drive(alloc: Global, site: &Arc<Site>, slots: u32, row: &str) -> Result<Seen, NoMemory> {
    let (seed, calls) = words(row);
    let mut numbers = NumberStream::from(number_of(seed));
    let mut seen = Seen::nothing(number_of(calls), true);
    for _ in 0..number_of(calls) {
        if seen.is_over() {
            break;
        }
        let mut board = board_of(alloc, slots)?;
        let _ = is_done(&mut board, alloc, site, &mut numbers, &mut seen, true);
    }
    Ok(seen)
}

/// The moves of a board, which stops where it may stop, until nothing is left in it. Whether as many calls were made as were to be.
fn is_done(
    board: &mut ScriptBoard,
    alloc: Global,
    site: &Arc<Site>,
    numbers: &mut NumberStream,
    seen: &mut Seen,
    may_stop: bool,
) -> bool
    requires who { 0 < board.old.book.passes }
    requires free { row_in 0 board.old.book ≡ None }
{
    let most = if may_stop { MOVES } else { MORE_MOVES };
    for _ in 0..most {
        if seen.is_over() || is_empty(board) {
            return seen.is_over();
        }
        match move_on(board, alloc, site, numbers, seen, may_stop) {
            Some(()) => (),
            None => return false,
        }
    }
    false
}

/// The move that the next numbers ask for. One that would stop the board is made only where it may stop.
fn move_on(
    board: &mut ScriptBoard,
    alloc: Global,
    site: &Arc<Site>,
    numbers: &mut NumberStream,
    seen: &mut Seen,
    may_stop: bool,
) -> Option<()>
    requires who { 0 < board.old.book.passes }
    requires free { row_in 0 board.old.book ≡ None }
    ensures who { OnSome result (0 < board.new.book.passes) }
    ensures free { OnSome result (row_in 0 board.new.book ≡ None) }
{
    let event = event_from(board, numbers.next(), numbers.next());
    let client = numbers.next();
    if !may_stop && matches!(event, Event::Command(_)) {
        return Some(());
    }
    make_move(board, alloc, seen, site, &event, client)
}

/// The board of so many slots behind as many calls as the row says, none of which stops it; none where it can't go on.
pub fn last_board(
    alloc: Global,
    site: &Arc<Site>,
    slots: u32,
    row: &str,
    folding: bool,
) -> Result<Option<LastBoard>, NoMemory> {
    let (seed, calls) = words(row);
    let mut numbers = NumberStream::from(number_of(seed));
    let mut board = board_of(alloc, slots)?;
    let mut seen = Seen::nothing(number_of(calls), folding);
    if !is_done(&mut board, alloc, site, &mut numbers, &mut seen, false) {
        return Ok(None);
    }
    Ok(Some(LastBoard {
        board,
        seen,
        answer: None,
    }))
}

/// Whether the server has stopped, and nothing is left in it.
fn is_empty(board: &ScriptBoard) -> bool {
    board.going().is_halted() && !board.state().has_live() && board.can_retire().is_none()
}

/// The event that the numbers ask for: the first one says what happens, the second one to which connection, and more.
fn event_from(board: &ScriptBoard, number: u64, detail: u64) -> Event {
    match number % 16 {
        0 => Event::Tick(board.moment().saturating_add(number / 16 % 4096)),
        1 => Event::StartChild(below(detail, 3)),
        2 if number / 16 % 32 == 0 => Event::Command(Commanded::Stop(Why::Asked)),
        2 => Event::Retire(below(detail, 3)),
        3 => late_event(board),
        _ => event_of_slot(board, number / 16, detail),
    }
}

/// The hold of a connection that is late, or what nothing allows where there is none.
fn late_event(board: &ScriptBoard) -> Event {
    match board.overdue() {
        Some(name) => Event::Hold(name),
        None => Event::Tick(board.moment()),
    }
}

/// An event of a slot.
fn event_of_slot(board: &ScriptBoard, number: u64, detail: u64) -> Event {
    let state = board.state();
    let slot = below(detail, state.rows.len());
    match state.rows.get(slot) {
        Some(row) => event_of_row(row, slot, number),
        None => Event::Ready(slot),
    }
}

/// An event that fits the place of the row.
fn event_of_row(row: &Row, slot: u32, number: u64) -> Event {
    let name = ConnName {
        slot,
        life: row.life,
    };
    match row.place {
        Place::Vacant => Event::Accept(slot),
        _ => match number % 3 {
            0 => Event::Ready(slot),
            1 => Event::Hold(name),
            _ => Event::Queue(name),
        },
    }
}
