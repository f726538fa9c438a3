//! What each event does to a row.
ghost use Rattle.std.specs.Prelude.{◌≡◌, ◌+◌, false, [], ◌∷◌, ◌++◌};
ghost use Rattle.conn_machine.specs.Rows.{in_phase};
ghost use Rattle.conn_machine.specs.Table.{closed_row, held_row, mid_after, queued_row, with_note};
ghost use Rattle.conn_machine.specs.declared.row.Place.TheVariants.{Held, Parked, Working};

use crate::row::{Phase, Place, Row};
use crate::shown::phase_after;
use mpm_base::{Cause, Kind, Moment, Note};

impl Row {
    /// A connection arrived, and the listener holds it.
    pub fn take(&mut self, arrival: u64, child: u32, generation: u32)
        ensures { self.new
            ≡ record {
              life = self.old.life;
              arrival = arrival;
              child = child;
              generation = generation;
              place = Held;
              from = None;
              deadline = self.old.deadline;
              began = None;
              mid = false;
              last = false;
              short = false;
              cause = None;
              notes = [];
              waits = [];
            } }
    {
        self.arrival = arrival;
        self.child = child;
        self.generation = generation;
        self.place = Place::Held;
        self.from = None;
        self.began = None;
        self.mid = false;
        self.last = false;
        self.short = false;
        self.cause = None;
        self.notes.clear();
        self.waits.clear();
    }

    /// It waits for this until the deadline, and has waited for its request since then.
    pub fn park(&mut self, kind: Kind, deadline: Moment, began: Option<Moment>)
        ensures { self.new
            ≡ record self.old {
              place = Parked kind;
              from = Some kind;
              deadline = deadline;
              began = began;
              mid = mid_after kind self.old;
              waits = self.old.waits ++ kind ∷ [];
            } }
    {
        self.place = Place::Parked(kind);
        self.from = Some(kind);
        self.deadline = deadline;
        self.began = began;
        self.mid = match kind {
            Kind::Reading | Kind::KeepAlive => false,
            Kind::Writing | Kind::Linger | Kind::ShortLinger => self.mid,
        };
        self.waits.add(kind);
    }

    /// The listener holds it.
    pub fn hold(&mut self)
        ensures { self.new ≡ held_row self.old }
    {
        self.place = Place::Held;
    }

    /// It waits for a worker.
    pub fn queue(&mut self)
        ensures { self.new ≡ queued_row self.old }
    {
        self.place = Place::Queued;
    }

    /// The worker of the cell serves it.
    pub fn start(&mut self, cell: u32, phase: Phase)
        ensures { self.new ≡ record self.old { place = Working cell phase } }
    {
        self.place = Place::Working(cell, phase);
    }

    /// Its service ended for the cause, and its link lingers until the deadline.
    pub fn linger(&mut self, kind: Kind, deadline: Moment, cause: Cause)
        ensures { self.new
            ≡ record self.old {
              place = Parked kind;
              from = Some kind;
              deadline = deadline;
              mid = false;
              cause = Some cause;
            } }
    {
        self.place = Place::Parked(kind);
        self.from = Some(kind);
        self.deadline = deadline;
        self.mid = false;
        self.cause = Some(cause);
    }

    /// Its connection is gone.
    pub fn close(&mut self)
        ensures { self.new ≡ closed_row self.old }
    {
        if self.life == u32::MAX {
            self.place = Place::Spent;
        } else {
            self.life += 1;
            self.place = Place::Vacant;
        }
        self.notes.clear();
    }

    /// Its worker goes on to this phase.
    pub fn go_on(&mut self, next: Phase)
        ensures { self.new ≡ record self.old { place = in_phase next self.old.place } }
    {
        self.place = self.place.in_phase(next);
    }

    /// The response is decided, and noted.
    pub fn answer(&mut self, note: &Note, short: bool)
        ensures { self.new ≡ with_note note.now short self.old }
    {
        self.notes.add(note);
        self.go_on(phase_after(note.last));
        self.began = None;
        self.mid = true;
        self.last = note.last;
        self.short = short;
    }
}
