//! What was seen of boards: how often each event was made, and what their finds answered behind it.
use crate::scans::{
    RowFind, has_retirable, has_room, is_quiet, is_retirable, is_right, next_deadline, startable,
};
use board::Board;
use conn_machine::Event;
use conn_state::Nothing;
use mpm_base::ConnName;
use stand_ins::ScriptLink;
use test_rows::Sheet;

/// A board of scripted links.
pub type ScriptBoard = Board<ScriptLink, Nothing>;

/// The events that a board makes, in the order of the counts.
const EVENTS: [&str; 13] = [
    "Accept",
    "Park",
    "Hold",
    "Queue",
    "Start",
    "Answer",
    "Linger",
    "Close",
    "Ready",
    "Tick",
    "StartChild",
    "Stop",
    "Retire",
];

/// The names of the finds, in the order of the counts.
const FINDS: [&str; 10] = [
    "overdue",
    "signalled",
    "retiring",
    "signalled_linger",
    "parked",
    "can_accept",
    "can_start",
    "can_retire",
    "next_deadline",
    "quiet",
];

/// A find of a board.
#[derive(Clone, Copy)]
enum Find {
    Row(RowFind),
    Accept,
    Start,
    Retire,
    Deadline,
    Quiet,
}

/// The finds, in the order of the counts.
const ORDER: [Find; 10] = [
    Find::Row(RowFind::Overdue),
    Find::Row(RowFind::Signalled),
    Find::Row(RowFind::Retiring),
    Find::Row(RowFind::SignalledLinger),
    Find::Row(RowFind::Parked),
    Find::Accept,
    Find::Start,
    Find::Retire,
    Find::Deadline,
    Find::Quiet,
];

/// What was seen.
#[derive(Drop)]
pub struct Seen {
    most: u64,
    folding: bool,
    folds: u64,
    folds_in_hand: u64,
    events: [u64; 13],
    found: [u64; 10],
    wrong: Option<&'static str>,
}

impl Seen {
    /// Nothing yet of so many calls, of boards that are folded wherever they may be, or never.
    pub fn nothing(most: u64, folding: bool) -> Seen {
        Seen {
            most,
            folding,
            folds: 0,
            folds_in_hand: 0,
            events: [0; 13],
            found: [0; 10],
            wrong: None,
        }
    }

    /// How many events were made.
    pub fn made(&self) -> u64 {
        self.events
            .iter()
            .fold(0, |sum, count| sum.saturating_add(*count))
    }

    /// Whether so many calls were made, or a find answered otherwise than a walk.
    pub fn is_over(&self) -> bool {
        self.made() >= self.most || self.wrong.is_some()
    }

    /// Whether boards are folded wherever they may be.
    pub fn is_folding(&self) -> bool {
        self.folding
    }

    /// Notes that the board was folded.
    pub fn note_fold(&mut self, board: &ScriptBoard) {
        self.folds = self.folds.saturating_add(1);
        if let Some(Some(_)) = board.folded().rows.as_slice().first() {
            self.folds_in_hand = self.folds_in_hand.saturating_add(1);
        }
    }

    /// How often a board was folded, and how often of these while its pass had a connection.
    pub fn folds(&self) -> (u64, u64) {
        (self.folds, self.folds_in_hand)
    }

    /// The first find that answered otherwise than a walk.
    pub fn wrong(&self) -> Option<&'static str> {
        self.wrong
    }

    /// Looks at a board behind a call that made an event: what its finds answer, and whether a walk says so too.
    pub fn look(&mut self, board: &ScriptBoard) {
        if let Some(entry) = board.history().last() {
            add_one(&mut self.events, place_of(&entry.event));
        }
        for (place, find) in ORDER.iter().enumerate() {
            let (found, right) = answer_of(*find, board);
            self.note(place, found, right);
        }
    }

    /// Notes what the find of that place answered.
    fn note(&mut self, place: usize, found: bool, right: bool) {
        if found {
            add_one(&mut self.found, place);
        }
        if !right && self.wrong.is_none() {
            self.wrong = FINDS.get(place).copied();
        }
    }

    /// Whether each find found something as often as the other ones did.
    pub fn found_as(&self, other: &Seen) -> bool {
        self.found == other.found
    }

    /// Shows the counts.
    pub fn show(&self, sheet: &mut Sheet) {
        sheet.print("made:");
        show_counts(sheet, &EVENTS, &self.events);
        sheet.print("found:");
        show_counts(sheet, &FINDS, &self.found);
    }
}

/// Shows each count behind its name.
fn show_counts(sheet: &mut Sheet, names: &[&str], counts: &[u64]) {
    for (name, count) in names.iter().zip(counts.iter()) {
        print!(sheet; " {name} {count}");
    }
    sheet.println("");
}

/// Adds one to the count of that place.
pub fn add_one(counts: &mut [u64], place: usize) {
    if let Some(count) = counts.get_mut(place) {
        *count = count.saturating_add(1);
    }
}

/// The place of the event among the counts.
fn place_of(event: &Event) -> usize {
    match *event {
        Event::Accept(_) => 0,
        Event::Park(_, _) => 1,
        Event::Hold(_) => 2,
        Event::Queue(_) => 3,
        Event::Start(_) => 4,
        Event::Answer(_, _) => 5,
        Event::Linger(_, _) => 6,
        Event::Close(_, _, _) => 7,
        Event::Ready(_) => 8,
        Event::Tick(_) => 9,
        Event::StartChild(_) => 10,
        Event::Command(_) => 11,
        Event::Retire(_) => 12,
    }
}

/// Whether the find finds something, and whether that is right.
fn answer_of(find: Find, board: &ScriptBoard) -> (bool, bool) {
    match find {
        Find::Row(find) => row_answer(find, board),
        Find::Accept => accept_answer(board),
        Find::Start => start_answer(board),
        Find::Retire => retire_answer(board),
        Find::Deadline => deadline_answer(board),
        Find::Quiet => (board.quiet(), board.quiet() == is_quiet(board.state())),
    }
}

/// The same of a find that answers the connection of a row.
fn row_answer(find: RowFind, board: &ScriptBoard) -> (bool, bool) {
    let answer = row_found(find, board);
    (answer.is_some(), is_right(find, board.state(), answer))
}

/// What such a find answers.
fn row_found(find: RowFind, board: &ScriptBoard) -> Option<ConnName> {
    match find {
        RowFind::Overdue => board.overdue(),
        RowFind::Signalled => board.signalled(),
        RowFind::Retiring => board.retiring(),
        RowFind::SignalledLinger => board.signalled_linger(),
        RowFind::Parked => board.parked(),
    }
}

/// Whether a child takes the next connection, and whether that is right.
fn accept_answer(board: &ScriptBoard) -> (bool, bool) {
    let answer = board.can_accept();
    let wanted = if has_room(board.state()) {
        picked(board)
    } else {
        None
    };
    (answer.is_some(), answer == wanted)
}

/// The child that the rule of admission names.
fn picked(board: &ScriptBoard) -> Option<u32> {
    board.show();
    board.state().pick_child()
}

/// Whether a child is to start, and whether that is right.
fn start_answer(board: &ScriptBoard) -> (bool, bool) {
    let answer = board.can_start();
    (answer.is_some(), answer == startable(board.state()))
}

/// Whether a child is to be let go of, and whether that is right.
fn retire_answer(board: &ScriptBoard) -> (bool, bool) {
    match board.can_retire() {
        Some(child) => (true, is_retirable(board.state(), child)),
        None => (false, !has_retirable(board.state())),
    }
}

/// Whether there is a deadline, and whether it is right.
fn deadline_answer(board: &ScriptBoard) -> (bool, bool) {
    let answer = board.next_deadline();
    (answer.is_some(), answer == next_deadline(board.state()))
}
