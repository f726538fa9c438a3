//! One row of the table: a connection, or a slot without one.
ghost use Rattle.std.specs.Prelude.{◌≡◌};
ghost use Rattle.conn_machine.specs.Rows as rows;
ghost use Rattle.conn_machine.specs.Shown as shown;
ghost use Rattle.conn_machine.specs.States.{unused_row};

use crate::row_notes::RowNotes;
use crate::row_waits::RowWaits;
use mpm_base::{Cause, Kind, Moment};
use std::mem::size_of;

/// What a worker does with the connection that it serves.
#[derive(Clone, Copy, Debug, PartialEq, Eq)]
pub enum Phase {
    /// It reads a request.
    Read,
    /// It sends a response.
    Write,
    /// It sends the last response.
    Close,
}

/// Where a connection is, and so whose it is.
#[derive(Clone, Copy, Debug, PartialEq, Eq)]
pub enum Place {
    /// The slot is free for a connection.
    Vacant,
    /// The slot was used as often as names tell, and is given no more.
    Spent,
    /// The listener holds it.
    Held,
    /// It waits in the queue of its kind.
    Parked(Kind),
    /// It waits for a worker of its child.
    Queued,
    /// The worker of this cell of its child serves it.
    Working(u32, Phase),
}

/// Who has a connection.
#[derive(Clone, Copy, Debug, PartialEq, Eq)]
pub enum Owner {
    /// The timeout queue of the kind.
    TimeoutQueue(Kind),
    /// The descriptor queue of the child.
    DescriptorQueue(u32),
    /// The worker of that cell of the child: the child, and the cell.
    Worker(u32, u32),
    /// The listener.
    Listener,
}

impl Place {
    /// Whether the slot is free for a connection.
    pub fn is_vacant(self) -> bool
        ensures { result ≡ rows.is_vacant self }
    {
        matches!(self, Place::Vacant)
    }

    /// Whether no connection is there.
    pub fn is_unused(self) -> bool
        ensures { result ≡ rows.is_unused self }
    {
        matches!(self, Place::Vacant | Place::Spent)
    }

    /// Whether the listener holds it.
    pub fn is_held(self) -> bool
        ensures { result ≡ rows.is_held self }
    {
        matches!(self, Place::Held)
    }

    /// Whether it waits in a queue of the listener.
    pub fn is_parked(self) -> bool
        ensures { result ≡ rows.is_parked self }
    {
        matches!(self, Place::Parked(_))
    }

    /// Whether it waits for this.
    pub fn is_parked_as(self, kind: Kind) -> bool
        ensures { result ≡ rows.is_parked_as kind self }
    {
        match self {
            Place::Parked(own) => kind_number(own) == kind_number(kind),
            _ => false,
        }
    }

    /// Whether it waits, and lingers.
    pub fn is_parked_lingering(self) -> bool
        ensures { result ≡ rows.is_parked_lingering self }
    {
        self.is_parked_as(Kind::Linger) || self.is_parked_as(Kind::ShortLinger)
    }

    /// Whether it waits for a worker.
    pub fn is_queued(self) -> bool
        ensures { result ≡ rows.is_queued self }
    {
        matches!(self, Place::Queued)
    }

    /// Whether a worker serves it.
    pub fn is_working(self) -> bool
        ensures { result ≡ rows.is_working self }
    {
        matches!(self, Place::Working(_, _))
    }

    /// Whether a worker has it, or will.
    pub fn is_carried(self) -> bool
        ensures { result ≡ rows.is_carried_at self }
    {
        self.is_queued() || self.is_working()
    }

    /// Whether a pass has it: the listener holds it, or a worker has it, or will.
    pub fn is_in_hand(self) -> bool
        ensures { result ≡ rows.is_with_a_pass self }
    {
        self.is_held() || self.is_carried()
    }

    /// Whether the worker of that cell serves it.
    pub fn is_in_cell(self, number: u32) -> bool
        ensures { result ≡ rows.is_in_cell number self }
    {
        match self {
            Place::Working(cell, _) => cell == number,
            _ => false,
        }
    }

    /// Whether the worker of that cell serves it, in this phase.
    pub fn is_in_cell_as(self, phase: Phase, number: u32) -> bool
        ensures { result ≡ shown.is_in_cell_as phase number self }
    {
        match self {
            Place::Working(cell, own) => {
                cell == number && phase_number(own) == phase_number(phase)
            }
            _ => false,
        }
    }

    /// The place once the worker went on to the phase.
    pub fn in_phase(self, next: Phase) -> Place
        ensures { result ≡ rows.in_phase next self }
    {
        match self {
            Place::Working(cell, _) => Place::Working(cell, next),
            place => place,
        }
    }
}

/// A row of the table. It is live where its place is neither Vacant nor Spent, and lingering where `cause` is there.
#[derive(Debug, Drop)]
pub struct Row {
    // What takes most room comes first, so that none is lost between two fields.
    /// How many connections were accepted before this one.
    pub arrival: u64,
    /// When its waiting is over.
    pub deadline: Moment,
    /// When it began to wait for the request that it waits for, or is served for: at the first of these waits. None before that.
    pub began: Option<Moment>,
    /// The use number of the slot, from 0.
    pub life: u32,
    /// The number of its child.
    pub child: u32,
    /// The generation of its child.
    pub generation: u32,
    /// Where it is.
    pub place: Place,
    /// Its responses so far.
    pub notes: RowNotes,
    /// What it was parked for so far.
    pub waits: RowWaits,
    /// What it waited for last.
    pub from: Option<Kind>,
    /// Why its service ended, once it lingers.
    pub cause: Option<Cause>,
    /// A response was begun and may not be sent whole.
    pub mid: bool,
    /// Its last response was decided.
    pub last: bool,
    /// It lingers for 2 seconds and not 30, since its last request was refused.
    pub short: bool,
}

// A table has a row for each slot, used or not, and a row keeps nothing elsewhere.
const _: () = prove!(size_of::<Row>() <= 72);

/// A number for each kind, to tell two apart by.
fn kind_number(kind: Kind) -> u8
    ensures { result ≡ rows.kind_number kind }
{
    match kind {
        Kind::Reading => 0,
        Kind::KeepAlive => 1,
        Kind::Writing => 2,
        Kind::Linger => 3,
        Kind::ShortLinger => 4,
    }
}

/// A number for each phase, to tell two apart by.
pub(crate) fn phase_number(phase: Phase) -> u8
    ensures { result ≡ shown.phase_number phase }
{
    match phase {
        Phase::Read => 0,
        Phase::Write => 1,
        Phase::Close => 2,
    }
}

impl Row {
    /// A slot that was never used.
    pub fn unused() -> Row
        ensures { result ≡ unused_row }
    {
        Row {
            arrival: 0,
            deadline: 0,
            began: None,
            life: 0,
            child: 0,
            generation: 0,
            place: Place::Vacant,
            notes: RowNotes::make(),
            waits: RowWaits::make(),
            from: None,
            cause: None,
            mid: false,
            last: false,
            short: false,
        }
    }

    /// Whether a connection is there.
    pub fn is_live(&self) -> bool
        ensures { result ≡ rows.is_live self.now }
    {
        !self.place.is_unused()
    }

    /// Who has it, while it is live.
    pub fn owner(&self) -> Option<Owner>
        ensures { result ≡ rows.owner_of self.now }
    {
        match self.place {
            Place::Vacant | Place::Spent => None,
            Place::Held => Some(Owner::Listener),
            Place::Parked(kind) => Some(Owner::TimeoutQueue(kind)),
            Place::Queued => Some(Owner::DescriptorQueue(self.child)),
            Place::Working(cell, _) => Some(Owner::Worker(self.child, cell)),
        }
    }

    /// Whether its service ended, and it is being closed.
    pub fn is_lingering(&self) -> bool
        ensures { result ≡ rows.is_lingering self.now }
    {
        self.cause.is_some()
    }

    /// Whether this is what it waited for last.
    pub fn is_from(&self, kind: Kind) -> bool
        ensures { result ≡ rows.is_from kind self.now }
    {
        match self.from {
            Some(last) => kind_number(last) == kind_number(kind),
            None => false,
        }
    }

    /// Whether a worker of the child has it, or will.
    pub fn is_carried_by(&self, child: u32) -> bool
        ensures { result ≡ rows.is_carried_by child self.now }
    {
        self.child == child && (self.place.is_queued() || self.place.is_working())
    }

    /// Whether it is an open connection of the child.
    pub fn is_open_in(&self, child: u32) -> bool
        ensures { result ≡ rows.is_open_in child self.now }
    {
        self.child == child && self.is_live() && !self.is_lingering()
    }

    /// Whether it is a connection of the child.
    pub fn is_live_in(&self, child: u32) -> bool
        ensures { result ≡ rows.is_live_in child self.now }
    {
        self.child == child && self.is_live()
    }

    /// Whether a worker of the child serves it.
    pub fn is_working_in(&self, child: u32) -> bool
        ensures { result ≡ rows.is_working_in child self.now }
    {
        self.child == child && self.place.is_working()
    }

    /// Whether the worker of that cell of the child serves it.
    pub fn is_served_in(&self, child: u32, cell: u32) -> bool
        ensures { result ≡ rows.is_served_in child cell self.now }
    {
        self.child == child && self.place.is_in_cell(cell)
    }

    /// Whether the worker of that cell of the child serves it, in this phase.
    pub fn is_served_as(&self, phase: Phase, child: u32, cell: u32) -> bool
        ensures { result ≡ shown.is_served_as phase child cell self.now }
    {
        self.child == child && self.place.is_in_cell_as(phase, cell)
    }

    /// Whether there is a response.
    pub fn has_note(&self) -> bool
        ensures { result ≡ rows.has_note self.now }
    {
        !self.notes.is_empty()
    }
}
