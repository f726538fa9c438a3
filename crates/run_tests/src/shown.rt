//! What is printed of a run.
use crate::case::View;
use crate::given::Given;
use board::Board;
use conn_machine::{Entry, Event, Going, Why};
use conn_state::{Ended, Nothing};
use failing_stand_ins::MemSink;
use mpm_base::Moment;
use mpm_run::Outcome;
use script_front::ScriptFront;
use stand_ins::ScriptLink;
use std::alloc::Global;
use std::io;
use test_rows::{Sheet, out_of_memory};

/// The table of the run that opened, over a script or over the front that was handed in.
fn board_of(outcome: &Outcome<ScriptLink>) -> Option<&Board<ScriptLink, Nothing>> {
    match &outcome.scripted {
        Some(scripted) => Some(&scripted.board),
        None => outcome.board.as_ref(),
    }
}

/// The front of the run that opened over a script, or the one that was handed in.
fn front_of<'a>(
    outcome: &'a Outcome<ScriptLink>,
    front: Option<&'a ScriptFront>,
) -> Option<&'a ScriptFront> {
    match &outcome.scripted {
        Some(scripted) => Some(&scripted.front),
        None => front,
    }
}

/// Prints how the run ended, what was written, and where it opened what came of it, unless it stopped for want of memory as it must.
pub fn show_run(
    rt: &impl Print,
    alloc: Global,
    outcome: &Outcome<ScriptLink>,
    front: Option<&ScriptFront>,
    given: &Given,
    view: View,
) -> io::Result<()> {
    if shows_want_of_memory(outcome, &given.out) {
        return Err(out_of_memory());
    }
    show_end(rt, alloc, outcome, given)?;
    match board_of(outcome) {
        Some(board) => show_board(rt, alloc, board, front_of(outcome, front), view),
        None => Ok(()),
    }
}

/// Prints how the run ended, and what was written.
fn show_end(
    rt: &impl Print,
    alloc: Global,
    outcome: &Outcome<ScriptLink>,
    given: &Given,
) -> io::Result<()> {
    let text = String::from_utf8_lossy(alloc, given.out.bytes())?;
    print!(rt;
        "status {}, shown {:?}, store faults {}\n{text}",
        outcome.status,
        outcome.shown,
        given.store.faults()
    )
}

/// Prints what came of a run that opened.
fn show_board(
    rt: &impl Print,
    alloc: Global,
    board: &Board<ScriptLink, Nothing>,
    front: Option<&ScriptFront>,
    view: View,
) -> io::Result<()> {
    let mut sheet = Sheet::make(alloc);
    put_board(&mut sheet, board, front, view);
    sheet.show(rt)
}

/// Shows how far the script of the front came, how the connections of the run ended, how many were taken and closed at each moment, or
/// nothing of them, and, where it is asked for, how many entries there were and its history.
fn put_board(
    sheet: &mut Sheet,
    board: &Board<ScriptLink, Nothing>,
    front: Option<&ScriptFront>,
    view: View,
) {
    if let Some(front) = front {
        show_played(sheet, front);
    }
    if view.moments {
        show_moments(sheet, board.history());
    } else if !view.report {
        show_connections(sheet, board.ended());
    }
    if view.entries {
        show_entries(sheet, board);
    }
    if view.history || view.commands {
        show_history(sheet, board.history(), !view.history);
    }
}

/// Shows how many entries were folded, and how many are kept.
fn show_entries(sheet: &mut Sheet, board: &Board<ScriptLink, Nothing>) {
    let folded = board.folded().entries;
    println!(sheet; "folded {folded} entries, kept {}", board.history().len());
}

/// Shows how far the script of the front came.
fn show_played(sheet: &mut Sheet, front: &ScriptFront) {
    let lines = front.script().lines().len();
    println!(sheet; "played {} of {lines}", front.happened());
}

/// Shows how each connection ended.
fn show_connections(sheet: &mut Sheet, connections: &[Ended<ScriptLink>]) {
    for ended in connections {
        show_connection(sheet, ended);
    }
}

/// Shows how the connection ended, the codes of its responses, and what its link was sent.
fn show_connection(sheet: &mut Sheet, ended: &Ended<ScriptLink>) {
    print!(sheet;
        "{}.{} {:?} {:?}",
        ended.name.slot, ended.name.life, ended.cause, ended.tail
    );
    for code in ended.notes.codes() {
        print!(sheet; " {code}");
    }
    show_link(sheet, &ended.link);
}

/// Shows how often the link was shut and closed, and what came and went.
fn show_link(sheet: &mut Sheet, link: &ScriptLink) {
    println!(sheet; ", shuts {}, closes {}", link.shuts(), link.closes());
    show_few(sheet, "received", link.received());
    show_few(sheet, "left", link.left());
    show_bytes(sheet, "sent", link.sent());
}

/// Shows the bytes under the name; of more than 600 their number.
fn show_few(sheet: &mut Sheet, name: &str, bytes: &[u8]) {
    if bytes.len() > 600 {
        println!(sheet; "{name} {} bytes", bytes.len());
    } else {
        show_bytes(sheet, name, bytes);
    }
}

/// Shows the bytes under the name.
fn show_bytes(sheet: &mut Sheet, name: &str, bytes: &[u8]) {
    sheet.bytes(name, bytes);
    sheet.print("\n");
}

/// Shows each entry, or the commands alone: its pass, its number, its event and its reply.
fn show_history(sheet: &mut Sheet, history: &[Entry], commands: bool) {
    for entry in history {
        if !commands || matches!(&entry.event, Event::Command(_)) {
            println!(sheet;
                "{} {} {:?} {:?}",
                entry.pass, entry.ordinal, entry.event, entry.reply
            );
        }
    }
}

/// What happened while the moment was the present one.
#[derive(Clone, Copy, Default)]
struct Happened {
    /// The moment.
    moment: Moment,
    /// How many children were started.
    started: u64,
    /// How many connections were taken.
    taken: u64,
    /// How many connections were closed.
    closed: u64,
}

/// Shows for each moment of the history how many children were started, and connections taken and closed.
fn show_moments(sheet: &mut Sheet, history: &[Entry]) {
    let mut now = Happened::default();
    for entry in history {
        match &entry.event {
            Event::Tick(moment) => {
                show_moment(sheet, now);
                now = Happened {
                    moment: *moment,
                    ..Happened::default()
                };
            }
            Event::StartChild(_) => now.started = now.started.saturating_add(1),
            Event::Accept(_) => now.taken = now.taken.saturating_add(1),
            Event::Close(..) => now.closed = now.closed.saturating_add(1),
            _ => (),
        }
    }
    show_moment(sheet, now);
}

/// Shows what happened while the moment was the present one.
fn show_moment(sheet: &mut Sheet, now: Happened) {
    println!(sheet;
        "at {}: {} started, {} taken, {} closed",
        now.moment, now.started, now.taken, now.closed
    );
}

/// Whether the run stopped for want of memory, and as it must then: each link that was taken was closed once, and there is a
/// report just where its server was told so.
fn shows_want_of_memory(outcome: &Outcome<ScriptLink>, out: &MemSink) -> bool {
    let Some(board) = board_of(outcome) else {
        return outcome.status == 6 && out.bytes().is_empty();
    };
    let written = match board.going() {
        Going::Halted(Why::NoMemory) => is_report(out.bytes()),
        Going::Halted(_) | Going::Ending(_) => out.bytes().is_empty(),
        Going::Serving => false,
    };
    outcome.status == 6 && written && are_closed(board.ended())
}

/// Whether the bytes begin and end as a report does.
fn is_report(bytes: &[u8]) -> bool {
    bytes.starts_with(b"Generation: ") && bytes.ends_with(b"\n")
}

/// Whether each link was closed once.
fn are_closed(connections: &[Ended<ScriptLink>]) -> bool {
    connections.iter().all(|ended| ended.link.closes() == 1)
}
