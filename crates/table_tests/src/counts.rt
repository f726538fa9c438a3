//! The counts that a list of rows keeps beside them, and what a look at each row counts.
ghost use Rattle.std.specs.Prelude.{◌<◌};

use conn_machine::{Phase, Place, Row, Rows};
use mpm_base::Kind;
use test_rows::Sheet;

/// What a look at each row counts.
#[derive(Clone, Copy)]
pub struct Looked {
    /// How many rows are at each place, by its number.
    places: [usize; 9],
    /// How many are live.
    pub live: usize,
    /// How many of these aren't in closing.
    open: usize,
}

/// The number of the place.
fn place_number(place: Place) -> usize
    ensures { result < 9 }
{
    match place {
        Place::Vacant => 0,
        Place::Spent => 1,
        Place::Held => 2,
        Place::Queued => 3,
        Place::Working(_, _) => 4,
        Place::Parked(kind) => match kind {
            Kind::Reading => 5,
            Kind::Writing => 6,
            Kind::KeepAlive => 7,
            Kind::Linger | Kind::ShortLinger => 8,
        },
    }
}

impl Looked {
    /// Counts the row.
    fn count(&mut self, row: &Row) {
        let place = place_number(row.place);
        self.places[place] = self.places[place].wrapping_add(1);
        if place > 1 {
            self.live = self.live.wrapping_add(1);
            if row.cause.is_none() {
                self.open = self.open.wrapping_add(1);
            }
        }
    }

    /// How many workers serve, or will.
    fn carried(&self) -> usize {
        self.places[3].wrapping_add(self.places[4])
    }

    /// How many wait for room, for a further request, and in closing.
    pub fn waiting(&self) -> [usize; 3] {
        [self.places[6], self.places[7], self.places[8]]
    }
}

/// What a look at each row counts, or at each of the child where that is given.
pub fn look_at(rows: &[Row], child: Option<u32>) -> Looked {
    let mut looked = Looked {
        places: [0; 9],
        live: 0,
        open: 0,
    };
    for row in rows {
        let is_counted = match child {
            Some(child) => row.child == child,
            None => true,
        };
        if is_counted {
            looked.count(row);
        }
    }
    looked
}

/// The phase in which the worker of the cell of the child serves a row, by a look at each: of several the first in their order.
pub fn plain_phase(rows: &[Row], child: u32, cell: u32) -> Option<Phase> {
    let mut first = None;
    for row in rows {
        match row.place {
            Place::Working(own, phase) if own == cell && row.child == child => {
                first = Some(earlier(first, phase));
            }
            _ => (),
        }
    }
    first
}

/// The first of the two phases in their order, where there are two.
fn earlier(former: Option<Phase>, phase: Phase) -> Phase {
    match (former, phase) {
        (Some(Phase::Read), _) | (_, Phase::Read) => Phase::Read,
        (Some(Phase::Write), _) | (_, Phase::Write) => Phase::Write,
        _ => Phase::Close,
    }
}

/// What the list keeps of all rows: whether one is vacant, live and in the hands of a pass, how many are live and served, and how many
/// wait for room, for a further request and in closing.
fn kept_of_all(rows: &Rows) -> [usize; 8] {
    [
        usize::from(rows.has_vacant()),
        usize::from(rows.has_live()),
        usize::from(rows.has_in_hand()),
        rows.live_count(),
        rows.working_count(),
        rows.writing_count(),
        rows.keep_alive_count(),
        rows.closing_count(),
    ]
}

/// The same by a look at each row.
fn counted_of_all(rows: &[Row]) -> [usize; 8] {
    let looked = look_at(rows, None);
    let [writing, keep_alive, closing] = looked.waiting();
    [
        usize::from(looked.places[0] > 0),
        usize::from(looked.live > 0),
        usize::from(looked.places[2] > 0 || looked.carried() > 0),
        looked.live,
        looked.places[4],
        writing,
        keep_alive,
        closing,
    ]
}

/// What the list keeps of the child's rows, behind its number: how many its workers serve, or will, how many are open and are served,
/// whether one is live, and the lowest free cell.
fn kept_of(rows: &Rows, child: u32, cells: u32) -> [usize; 6] {
    [
        child as usize,
        rows.carried(child),
        rows.open_count(child),
        rows.working_in(child),
        usize::from(rows.has_live_in(child)),
        rows.lowest_free_cell(child, cells) as usize,
    ]
}

/// The same by a look at each row.
fn counted_of(rows: &[Row], child: u32, cells: u32) -> [usize; 6] {
    let looked = look_at(rows, Some(child));
    [
        child as usize,
        looked.carried(),
        looked.open,
        looked.places[4],
        usize::from(looked.live > 0),
        lowest_free(rows, child, cells) as usize,
    ]
}

/// The lowest cell of the child whose worker serves no row, by a look at each row, or how many cells there are.
fn lowest_free(rows: &[Row], child: u32, cells: u32) -> u32 {
    for cell in 0..cells {
        if plain_phase(rows, child, cell).is_none() {
            return cell;
        }
    }
    cells
}

/// Shows where the list keeps something else than a look at each row counts, of so many children and cells, and says whether it does.
pub fn show_other(sheet: &mut Sheet, rows: &Rows, children: u32, cells: u32) -> bool {
    if is_shown(sheet, &kept_of_all(rows), &counted_of_all(rows.as_slice())) {
        return true;
    }
    for child in 0..children {
        if show_other_of(sheet, rows, child, cells) {
            return true;
        }
    }
    false
}

/// The same of a child.
fn show_other_of(sheet: &mut Sheet, rows: &Rows, child: u32, cells: u32) -> bool {
    let kept = kept_of(rows, child, cells);
    let counted = counted_of(rows.as_slice(), child, cells);
    if is_shown(sheet, &kept, &counted) {
        return true;
    }
    for cell in 0..cells {
        if is_other_cell(rows, child, cell) {
            print!(sheet; "child {child}: cell {cell} is served, or isn't, or in another phase");
            return true;
        }
    }
    false
}

/// Whether the list keeps something else of the cell of the child than a look at each row finds.
fn is_other_cell(rows: &Rows, child: u32, cell: u32) -> bool {
    let phase = plain_phase(rows.as_slice(), child, cell);
    rows.is_served(child, cell) != phase.is_some() || rows.phase_in(child, cell) != phase
}

/// Shows both where they differ, and says whether they do.
fn is_shown(sheet: &mut Sheet, kept: &[usize], counted: &[usize]) -> bool {
    if kept == counted {
        return false;
    }
    print!(sheet; "{kept:?}, and counted {counted:?}");
    true
}
