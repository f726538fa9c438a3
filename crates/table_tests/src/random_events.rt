//! Events that numbers ask for. Most fit the place of the connection that they name, so that many of them are allowed.
use crate::names::{CAUSES, KINDS, TAILS};
use conn_machine::{BoxedShape, Commanded, Event, Place, Refusal, Row, State, Why};
use mpm_base::{Ask, ConnName, Kind, NoMemory, Shape, Tail};
use std::alloc::Global;
use test_rows::{below, listed_at};

/// The event that the numbers ask for: the first one says what happens, the second one to which connection, and more.
pub fn event_from(
    alloc: Global,
    state: &State,
    number: u64,
    detail: u64,
) -> Result<Event, NoMemory> {
    let (choice, number) = (number % 16, number / 16);
    match choice {
        0 => Ok(Event::Tick(state.moment.saturating_add(number % 1024))),
        1 => command_from(alloc, state, number, detail),
        _ => Ok(event_of_slot(state, number, detail)),
    }
}

/// An event of a slot.
fn event_of_slot(state: &State, number: u64, detail: u64) -> Event {
    let slot = below(detail, state.rows.len());
    match state.rows.get(slot) {
        Some(row) => event_of_row(row, slot, number, detail / 8192),
        None => Event::Accept(slot),
    }
}

/// An event that fits the place of the row.
fn event_of_row(row: &Row, slot: u32, number: u64, detail: u64) -> Event {
    let name = ConnName {
        slot,
        life: row.life,
    };
    match row.place {
        Place::Vacant | Place::Spent => Event::Accept(slot),
        Place::Queued => Event::Start(name),
        Place::Parked(_) => match number % 3 {
            0 => Event::Ready(slot),
            1 => Event::Hold(name),
            _ => Event::Queue(name),
        },
        Place::Held => event_in_hand(row, name, false, number, detail),
        Place::Working(_, _) => event_in_hand(row, name, true, number, detail),
    }
}

/// An event of a connection that the listener holds, or a worker serves.
fn event_in_hand(row: &Row, name: ConnName, is_served: bool, number: u64, detail: u64) -> Event {
    match number % 8 {
        0 | 4 => Event::Linger(name, listed_at(&CAUSES, detail)),
        1 => close_from(row, name, detail),
        2 | 6 if is_served => Event::Answer(name, ask_from(detail)),
        _ => Event::Park(name, kind_after(row, detail)),
    }
}

/// What the row waits for next: what it waited for, where it lingers.
fn kind_after(row: &Row, detail: u64) -> Kind {
    match row.from {
        Some(kind) if row.cause.is_some() => kind,
        _ => listed_at(&KINDS, detail % 3),
    }
}

/// What a request asks of the table.
fn ask_from(detail: u64) -> Ask {
    Ask {
        asked_close: detail % 8 == 0,
        refused: detail % 8 == 1,
        code: 200,
        page: detail / 8 % 2 == 0,
    }
}

/// The close of a connection: for its own cause, where it lingers.
fn close_from(row: &Row, name: ConnName, detail: u64) -> Event {
    match row.cause {
        Some(cause) => Event::Close(name, cause, listed_at(&TAILS, detail)),
        None => Event::Close(name, listed_at(&CAUSES, detail), Tail::Direct),
    }
}

/// A child that starts or retires, or a command.
fn command_from(alloc: Global, state: &State, number: u64, detail: u64) -> Result<Event, NoMemory> {
    let child = below(detail, state.children.len());
    let event = match number % 32 {
        0..=19 => Event::StartChild(child),
        20..=27 => Event::Retire(child),
        28..=30 => Event::Command(restart_from(alloc, state, detail / 64)?),
        _ => Event::Command(stop_from(state, detail / 64)),
    };
    Ok(event)
}

/// A restart with one worker more a child, of at most eight, or one that is refused.
fn restart_from(alloc: Global, state: &State, detail: u64) -> Result<Commanded, NoMemory> {
    if detail % 4 != 0 {
        return Ok(Commanded::Refused(Refusal::Conf));
    }
    let shape = Shape {
        threads: state.shape.threads % 8 + 1,
        ..state.shape
    };
    Ok(Commanded::Graceful(BoxedShape::make(alloc, shape)?))
}

/// A stop.
fn stop_from(state: &State, detail: u64) -> Commanded {
    match detail % 8 {
        0 => Commanded::Stop(Why::Asked),
        1 => Commanded::GracefulStop(Some(state.moment)),
        _ => Commanded::Stop(Why::Overdue),
    }
}
