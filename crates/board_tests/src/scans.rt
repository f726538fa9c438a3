//! What the finds of a board look for, by a walk over all rows of its state.
use conn_machine::{ChildPhase, Going, Place, Row, State};
use mpm_base::{ConnName, Kind, Moment};

/// A find that answers the connection of a row.
#[derive(Clone, Copy)]
pub enum RowFind {
    Overdue,
    Signalled,
    Retiring,
    SignalledLinger,
    Parked,
}

/// Whether it looks for the row of that slot.
fn looks_for(find: RowFind, state: &State, slot: u32, row: &Row) -> bool {
    let waits = matches!(row.place, Place::Parked(_));
    let signalled = state.signals.get(slot);
    let lingers = row.cause.is_some();
    match find {
        RowFind::Overdue => waits && row.deadline <= state.moment,
        RowFind::Signalled => waits && signalled && !lingers && has_free_worker(state, row.child),
        RowFind::Retiring => {
            matches!(row.place, Place::Parked(Kind::KeepAlive))
                && !signalled
                && matches!(state.child_of(row).phase, ChildPhase::Stopping)
        }
        RowFind::SignalledLinger => waits && signalled && lingers,
        RowFind::Parked => waits,
    }
}

/// Whether the child has a worker that carries no connection.
fn has_free_worker(state: &State, child: u32) -> bool {
    let rows = state.rows.as_slice().iter();
    let carried = rows.filter(|row| row.child == child && row.place.is_carried());
    carried.count() < state.children.get(child).shape.threads as usize
}

/// The connection of the first row that it looks for.
fn first(find: RowFind, state: &State) -> Option<ConnName> {
    for (slot, row) in (0..8192u32).zip(state.rows.as_slice().iter()) {
        if looks_for(find, state, slot, row) {
            return Some(ConnName {
                slot,
                life: row.life,
            });
        }
    }
    None
}

/// Whether the answer is one that it may give: a row that it looks for, of which none that waits has an earlier deadline where it
/// answers by deadlines, or none where there is no such row.
pub fn is_right(find: RowFind, state: &State, answer: Option<ConnName>) -> bool {
    let Some(name) = answer else {
        return first(find, state).is_none();
    };
    let Some(row) = state.rows.live(name) else {
        return false;
    };
    looks_for(find, state, name.slot, row)
        && (!matches!(find, RowFind::Overdue | RowFind::Parked)
            || least_deadline(state) == Some(row.deadline))
}

/// The least deadline of a row that waits.
fn least_deadline(state: &State) -> Option<Moment> {
    let waiting = state
        .rows
        .as_slice()
        .iter()
        .filter(|row| row.place.is_parked());
    waiting.map(|row| row.deadline).min()
}

/// The least deadline, the moment at which the server stops among them.
pub fn next_deadline(state: &State) -> Option<Moment> {
    let least = least_deadline(state);
    match state.going {
        Going::Ending(Some(until)) => Some(least.map_or(until, |other| until.min(other))),
        _ => least,
    }
}

/// Whether the server takes connections, and a slot is vacant.
pub fn has_room(state: &State) -> bool {
    matches!(state.going, Going::Serving)
        && state
            .rows
            .as_slice()
            .iter()
            .any(|row| matches!(row.place, Place::Vacant))
}

/// The lowest child that is gone, while the server takes connections and fewer children run than should.
pub fn startable(state: &State) -> Option<u32> {
    let children = state.children.as_slice();
    let running = children
        .iter()
        .filter(|child| matches!(child.phase, ChildPhase::Running));
    if !matches!(state.going, Going::Serving) || running.count() >= state.shape.target as usize {
        return None;
    }
    (0..32u32)
        .zip(children.iter())
        .find(|(_, child)| matches!(child.phase, ChildPhase::Empty))
        .map(|(number, _)| number)
}

/// Whether the child of that number stops, and none of its connections is live.
pub fn is_retirable(state: &State, number: u32) -> bool {
    matches!(state.children.get(number).phase, ChildPhase::Stopping)
        && !state
            .rows
            .as_slice()
            .iter()
            .any(|row| row.child == number && row.is_live())
}

/// Whether a child stops, and none of its connections is live.
pub fn has_retirable(state: &State) -> bool {
    (0..32u32).any(|number| is_retirable(state, number))
}

/// Whether the listener holds no connection, and no worker has one or will.
pub fn is_quiet(state: &State) -> bool {
    !state.rows.as_slice().iter().any(|row| matches!(
        row.place,
        Place::Held | Place::Queued | Place::Working(_, _)
    ))
}
