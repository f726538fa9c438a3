//! Boards that are given events and commands.
ghost use Rattle.std.specs.Prelude.{◌≡◌, ◌<◌, None, IfOk, OnSome};
ghost use Rattle.board_book.specs.Book.{row_in};

use crate::driven::{Answer, board_of, make_move, order};
use crate::editions::known_editions;
use crate::folds::difference;
use crate::moves::LastBoard;
use crate::seen::{ScriptBoard, Seen};
use conn_machine::{BoxedShape, Commanded, Edition, Event, Refusal, Why};
use file_table::Site;
use mpm_base::{NoMemory, Shape};
use std::alloc::Global;
use std::sync::Arc;
use test_rows::{Sheet, number_of, small_of, words};

/// A shape of a new generation, but for its number of workers.
const SHAPE: Shape = Shape {
    threads: 1,
    factor: 200,
    read_ms: 60_000,
    keep_ms: 5_000,
    keep: true,
    most: 100,
    target: 1,
    children: 3,
    whole_ms: 0,
};

/// What a step of a row comes to.
#[derive(Clone, Copy)]
enum Step {
    /// Moves were made, where the board allowed them.
    Moved,
    /// The board answered an order.
    Answered(Answer),
}

/// The board behind one step more; none where it can't go on.
fn take(
    board: &mut ScriptBoard,
    seen: &mut Seen,
    alloc: Global,
    site: &Arc<Site>,
    step: &str,
) -> Result<Option<Step>, NoMemory>
    requires who { 0 < board.old.book.passes }
    requires free { row_in 0 board.old.book ≡ None }
    ensures who { IfOk result (λ step. OnSome step (0 < board.new.book.passes)) }
    ensures free { IfOk result (λ step. OnSome step (row_in 0 board.new.book ≡ None)) }
{
    let (word, number) = words(step);
    match command_of(alloc, word, number)? {
        Some(command) => match order(seen, board, command) {
            Some(answer) => Ok(Some(Step::Answered(answer))),
            None => Ok(None),
        },
        None => Ok(make_moves(board, seen, alloc, site, word, number)),
    }
}

/// The board behind the moves that begin with the event of the words, as often as they say, where it allows them.
fn make_moves(
    board: &mut ScriptBoard,
    seen: &mut Seen,
    alloc: Global,
    site: &Arc<Site>,
    word: &str,
    number: &str,
) -> Option<Step>
    requires who { 0 < board.old.book.passes }
    requires free { row_in 0 board.old.book ≡ None }
    ensures who { OnSome result (0 < board.new.book.passes) }
    ensures free { OnSome result (row_in 0 board.new.book ≡ None) }
{
    let (event, times) = event_of(word, number);
    for _ in 0..times {
        make_move(board, alloc, seen, site, &event, 0)?;
    }
    Some(Step::Moved)
}

/// The order of the words, if they are one.
fn command_of(alloc: Global, word: &str, number: &str) -> Result<Option<Commanded>, NoMemory> {
    let shape = Shape {
        threads: small_of(number),
        ..SHAPE
    };
    match word {
        "Graceful" => Ok(Some(Commanded::Graceful(BoxedShape::make(alloc, shape)?))),
        "Refused" => Ok(Some(Commanded::Refused(Refusal::Conf))),
        "GracefulStop" => Ok(Some(Commanded::GracefulStop(number.parse::<u64>().ok()))),
        _ => Ok(None),
    }
}

/// The event of the words, which are no order, and how often it is made.
fn event_of(word: &str, number: &str) -> (Event, u64) {
    match word {
        "Accept" => (Event::Accept(small_of(number)), 1),
        "Ready" => (Event::Ready(0), number_of(number)),
        "Tick" => (Event::Tick(number_of(number)), 1),
        "StartChild" => (Event::StartChild(small_of(number)), 1),
        "Retire" => (Event::Retire(small_of(number)), 1),
        _ => (Event::Command(Commanded::Stop(Why::Asked)), 1),
    }
}

/// The board of so many slots behind the steps of the row; none where it can't go on.
pub fn behind(
    alloc: Global,
    site: &Arc<Site>,
    slots: u32,
    row: &str,
    folding: bool,
) -> Result<Option<LastBoard>, NoMemory> {
    let mut board = board_of(alloc, slots)?;
    let mut seen = Seen::nothing(0, folding);
    match take_steps(&mut board, &mut seen, alloc, site, row)? {
        Some(answer) => Ok(Some(LastBoard {
            board,
            seen,
            answer,
        })),
        None => Ok(None),
    }
}

/// What the board answers to the last order of the row, if there is one; none where it can't go on.
fn take_steps(
    board: &mut ScriptBoard,
    seen: &mut Seen,
    alloc: Global,
    site: &Arc<Site>,
    row: &str,
) -> Result<Option<Option<Answer>>, NoMemory>
    requires who { 0 < board.old.book.passes }
    requires free { row_in 0 board.old.book ≡ None }
{
    let mut answer = None;
    for step in row.split("; ") {
        match take(board, seen, alloc, site, step)? {
            Some(Step::Answered(given)) => answer = Some(given),
            Some(Step::Moved) => (),
            None => return Ok(None),
        }
    }
    Ok(Some(answer))
}

/// Shows what the first board answered and knows, and in what it differs from the second one.
pub fn show_asked(
    sheet: &mut Sheet,
    alloc: Global,
    row: &str,
    folding: &LastBoard,
    keeping: &LastBoard,
) -> Result<(), NoMemory> {
    println!(sheet; "{row} => {}", answer_word(folding.answer));
    show_orders(sheet, alloc, &folding.board)?;
    let (folds, _) = folding.seen.folds();
    let what = difference(alloc, folding, keeping)?;
    println!(sheet; ", folded {folds} times: {what} differs");
    Ok(())
}

/// Shows what the board knows of orders, and the editions.
fn show_orders(sheet: &mut Sheet, alloc: Global, board: &ScriptBoard) -> Result<(), NoMemory> {
    let known = known_editions(alloc, board)?;
    print!(sheet;
        "orders {}, newest {}, record",
        board.orders(),
        board.state().newest
    );
    show_editions(sheet, board.folded().editions.as_slice());
    sheet.print(", in use");
    show_editions(sheet, known.as_slice());
    Ok(())
}

/// What the board answered to the last order.
fn answer_word(answer: Option<Answer>) -> &'static str {
    match answer {
        Some(Answer::Taken) => "taken",
        Some(Answer::NotAllowed) => "not allowed",
        Some(Answer::Halted) => "refused, the server has stopped",
        None => "nothing was asked",
    }
}

/// Shows each generation with its edition.
fn show_editions(sheet: &mut Sheet, editions: &[Edition]) {
    for edition in editions {
        print!(sheet; " {}:{}", edition.generation, edition.edition);
    }
}
