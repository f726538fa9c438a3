//! What the report of a board says: counts of its history's entries, with those of the entries that were folded before.
ghost use Rattle.std.specs.Prelude.{◌≡◌, ◌+◌, ◌<◌, ◌^◌, length, slice_index, IfOk};
ghost use Rattle.mpm_base.specs.Cause.{cause_number};
ghost use Rattle.conn_machine.specs.Events as events;
ghost use Rattle.conn_machine.specs.Folds.{CountsWithin, causes_after};
ghost use Rattle.run_report.specs.Report as spec;

use crate::report::Tally;
use board::Board;
use board::report_line::lines_after;
use conn_machine::{Entry, Event, Folded};
use conn_state::Known;
use mpm_base::{Cause, Link, NoMemory};
use std::alloc::Global;

/// What the report of the board says.
pub fn tally<L: Link, N: Known>(alloc: Global, board: &Board<L, N>) -> Result<Tally, NoMemory>
    ensures { IfOk result (λ view. view ≡ spec.tally_of board.now.book.folded
        board.now.book.history board.now.book.state.newest board.now.ended) }
{
    board.show();
    let folded = board.folded();
    let history = board.history();
    Ok(Tally {
        generation: board.state().newest,
        accepted: folded.accepted + count_accepts(history),
        closed: folded.closed + count_closes(history),
        responses: folded.responses + count_answers(history),
        causes: count_causes(folded, history),
        children: folded.children + count_starts(history),
        lines: lines_after(alloc, &folded.lines, folded.closed, board.ended())?,
    })
}

/// How many connections were accepted.
fn count_accepts(history: &[Entry]) -> u64
    ensures { result ≡ events.count_events events.is_accept history.now }
{
    history
        .iter()
        .filter(|entry| is_accept(&entry.event))
        .count() as u64
}

/// How many responses were decided.
fn count_answers(history: &[Entry]) -> u64
    ensures { result ≡ events.count_events events.is_answer history.now }
{
    history
        .iter()
        .filter(|entry| is_answer(&entry.event))
        .count() as u64
}

/// How often a child was started.
fn count_starts(history: &[Entry]) -> u64
    ensures { result ≡ events.count_events events.is_start_child history.now }
{
    history
        .iter()
        .filter(|entry| is_start_child(&entry.event))
        .count() as u64
}

/// How many connections were closed.
fn count_closes(history: &[Entry]) -> u64
    ensures { result ≡ events.count_events events.is_close history.now }
{
    history
        .iter()
        .filter(|entry| is_close(&entry.event))
        .count() as u64
}

/// How many connections were closed for each cause, in order, with those that the record counts.
fn count_causes(folded: &Folded, history: &[Entry]) -> [u64; 9]
    requires within { CountsWithin folded.now }
    requires countable { folded.now.entries + length history.now < 2 ^ 63 }
    ensures { result ≡ causes_after history.now folded.now.causes }
{
    [
        count_cause(folded, history, Cause::ClientDone),
        count_cause(folded, history, Cause::LastSent),
        count_cause(folded, history, Cause::KeepAliveLate),
        count_cause(folded, history, Cause::ReadLate),
        count_cause(folded, history, Cause::WriteLate),
        count_cause(folded, history, Cause::Retiring),
        count_cause(folded, history, Cause::LinkFailed),
        count_cause(folded, history, Cause::Stopped),
        count_cause(folded, history, Cause::NoMemory),
    ]
}

/// How many connections were closed for the cause, with those that the record counts.
fn count_cause(folded: &Folded, history: &[Entry], cause: Cause) -> u64
    requires within { CountsWithin folded.now }
    requires countable { folded.now.entries + length history.now < 2 ^ 63 }
    ensures { result ≡ slice_index folded.now.causes (cause_number cause)
        + events.count_events (events.is_close_for cause) history.now }
{
    folded.causes[cause.number() as usize] + count_closes_for(history, cause)
}

/// How many connections were closed for the cause.
fn count_closes_for(history: &[Entry], cause: Cause) -> u64
    ensures { result ≡ events.count_events (events.is_close_for cause) history.now }
{
    history
        .iter()
        .filter(|entry| is_close_for(&entry.event, cause))
        .count() as u64
}

/// Whether the event takes a connection.
fn is_accept(event: &Event) -> bool
    ensures { result ≡ events.is_accept event.now }
{
    matches!(event, Event::Accept(_))
}

/// Whether the event decides a response.
fn is_answer(event: &Event) -> bool
    ensures { result ≡ events.is_answer event.now }
{
    matches!(event, Event::Answer(_, _))
}

/// Whether the event starts a child.
fn is_start_child(event: &Event) -> bool
    ensures { result ≡ events.is_start_child event.now }
{
    matches!(event, Event::StartChild(_))
}

/// Whether the event closes a connection.
fn is_close(event: &Event) -> bool
    ensures { result ≡ events.is_close event.now }
{
    matches!(event, Event::Close(_, _, _))
}

/// Whether the event closes a connection for the cause.
fn is_close_for(event: &Event, cause: Cause) -> bool
    ensures { result ≡ events.is_close_for cause event.now }
{
    match event {
        Event::Close(_, why, _) => why.number() == cause.number(),
        _ => false,
    }
}
