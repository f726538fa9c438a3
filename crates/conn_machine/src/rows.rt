//! The list of rows, its counts, and a change of one row. The counts are kept beside the rows. A call goes over the rows only where the
//! numbers of a child aren't exact, as they are in every state that the machine comes to.
//! Why it is so stands in docs/DECISIONS.md: 44, The rows are counted as they change.
ghost use Rattle.std.specs.Prelude.{◌≡◌, ◌==◌, ◌+◌, ◌≤◌, ◌<◌, false, Some, [], ◌∷◌, ◌++◌, count_by, length, replicate, IfOk, IfSome, OnSome, find, slice_get};
ghost use Rattle.std.specs.List.{list_any, range_with_len};
ghost use Rattle.std.specs.Option.{option_copied};
ghost use Rattle.conn_machine.specs.Lists.{update};
ghost use Rattle.conn_machine.specs.Rows as spec;
ghost use Rattle.conn_machine.specs.Shown as shown;
ghost use Rattle.conn_machine.specs.States.{unused_row};
ghost use Rattle.conn_machine.specs.Table.{closed_row, held_row, mid_after, queued_row, with_note};
ghost use Rattle.conn_machine.specs.declared.row.Place.TheVariants.{Held, Parked, Working};
ghost use Rattle.mpm_base.specs.declared.conn.Kind.TheVariants.{KeepAlive, Writing};

use crate::counts::Counts;
use crate::row::{Phase, Row};
use mpm_base::{Cause, ConnName, Kind, Moment, NoMemory, Note};
use std::alloc::Global;
use std::marker::Model;

/// A list of rows, as contracts see it: the row of each slot.
#[derive(Debug, Drop)]
pub struct Rows {
    items: Vec<Row>,
    counts: Counts,
}

impl Model for Rows {
    ghost use Rattle.std.specs.Prelude.{List};
    ghost use Rattle.conn_machine.specs.declared.row.Row.{Row};

    ghost Value = { List Row };

    ghost view = { λ r. r.items.items };

    ghost use Rattle.conn_machine.specs.CountsInside.{IsCounted};

    ghost invariant = { λ r. IsCounted r.counts r.items.items };
}

impl Rows {
    /// So many slots, none of which was ever used.
    pub fn make(alloc: Global, slots: u32) -> Result<Rows, NoMemory>
        ensures { IfOk result (λ rows. rows ≡ replicate slots unused_row) }
    {
        let counts = Counts::opening(alloc, slots)?;
        let mut items = Vec::new(alloc);
        for _ in 0..slots {
            if items.push(Row::unused()).is_err() {
                return Err(NoMemory);
            }
        }
        Ok(Rows { items, counts })
    }

    /// How many slots there are.
    pub fn len(&self) -> usize
        ensures { result ≡ length self.now }
    {
        self.items.len()
    }

    /// Whether there is no slot.
    pub fn is_empty(&self) -> bool
        ensures { result ≡ (length self.now == 0) }
    {
        self.items.is_empty()
    }

    /// The row of the slot.
    pub fn get(&self, slot: u32) -> Option<&Row>
        ensures { option_copied result ≡ slice_get self.now slot }
    {
        self.items.get(slot as usize)
    }

    /// The row of the connection of that name, where it lives.
    pub fn live(&self, name: ConnName) -> Option<&Row>
        ensures is { option_copied result ≡ spec.live_row self.now name }
        ensures found { IfSome result (λ row. slice_get self.now name.slot ≡ Some row.now) }
        ensures within { OnSome result (name.slot < length self.now) }
    {
        match self.items.get(name.slot as usize) {
            Some(row) if row.is_live() && row.life == name.life => Some(row),
            _ => None,
        }
    }

    /// The rows, in the order of their slots.
    pub fn as_slice(&self) -> &[Row]
        ensures { result.now ≡ self.now }
    {
        self.items.as_slice()
    }

    /// How many rows the workers of the child carry.
    pub fn carried(&self, child: u32) -> usize
        ensures is { result ≡ spec.carried_count self.now child }
        ensures few { result ≤ length self.now }
    {
        match self.counts.child(child) {
            Some(counts) => counts.carried as usize,
            None => self
                .items
                .iter()
                .filter(|row| row.is_carried_by(child))
                .count(),
        }
    }

    /// How many open connections the child has.
    pub fn open_count(&self, child: u32) -> usize
        ensures is { result ≡ spec.open_count self.now child }
        ensures few { result ≤ length self.now }
    {
        match self.counts.child(child) {
            Some(counts) => counts.open_rows as usize,
            None => self
                .items
                .iter()
                .filter(|row| row.is_open_in(child))
                .count(),
        }
    }

    /// How many rows the workers of the child serve.
    pub fn working_in(&self, child: u32) -> usize
        ensures is { result ≡ count_by (spec.is_working_in child) self.now }
        ensures few { result ≤ length self.now }
    {
        match self.counts.child(child) {
            Some(counts) => counts.working as usize,
            None => self
                .items
                .iter()
                .filter(|row| row.is_working_in(child))
                .count(),
        }
    }

    /// Whether a connection of the child is live.
    pub fn has_live_in(&self, child: u32) -> bool
        ensures { result ≡ list_any (spec.is_live_in child) self.now }
    {
        match self.counts.child(child) {
            Some(counts) => counts.live > 0,
            None => self.items.iter().any(|row| row.is_live_in(child)),
        }
    }

    /// Whether the worker of that cell of the child serves a row.
    pub fn is_served(&self, child: u32, cell: u32) -> bool
        ensures { result ≡ list_any (spec.is_served_in child cell) self.now }
    {
        match self.counts.child(child) {
            Some(counts) => counts.is_busy(cell),
            None => self.items.iter().any(|row| row.is_served_in(child, cell)),
        }
    }

    /// Whether the worker of that cell of the child serves a row, in this phase.
    fn is_served_as(&self, phase: Phase, child: u32, cell: u32) -> bool
        ensures { result ≡ list_any (shown.is_served_as phase child cell) self.now }
    {
        self.items
            .iter()
            .any(|row| row.is_served_as(phase, child, cell))
    }

    /// The phase in which the worker of that cell of the child serves a row, where it serves one, by a look at each row.
    fn seen_phase_in(&self, child: u32, cell: u32) -> Option<Phase>
        ensures { result ≡ shown.phase_in self.now child cell }
    {
        if self.is_served_as(Phase::Read, child, cell) {
            Some(Phase::Read)
        } else if self.is_served_as(Phase::Write, child, cell) {
            Some(Phase::Write)
        } else if self.is_served_as(Phase::Close, child, cell) {
            Some(Phase::Close)
        } else {
            None
        }
    }

    /// The phase in which the worker of that cell of the child serves a row, where it serves one.
    pub fn phase_in(&self, child: u32, cell: u32) -> Option<Phase>
        ensures { result ≡ shown.phase_in self.now child cell }
    {
        match self.counts.child(child) {
            Some(counts) => counts.phase_in(cell),
            None => self.seen_phase_in(child, cell),
        }
    }

    /// The lowest free cell of the child below the number, where there is one.
    fn free_cell(&self, child: u32, threads: u32) -> Option<u32>
        ensures { result ≡ find (spec.is_free_cell self.now child) (range_with_len 0 threads) }
    {
        (0..threads).find(|cell| !self.is_served(child, *cell))
    }

    /// The lowest free cell of the child below the number, or that number where none is free.
    pub fn lowest_free_cell(&self, child: u32, threads: u32) -> u32
        ensures { result ≡ spec.lowest_free_cell self.now child threads }
    {
        match self.counts.child(child) {
            Some(counts) => counts.lowest_free().min(threads),
            None => self.free_cell(child, threads).unwrap_or(threads),
        }
    }

    /// Whether a slot is vacant.
    pub fn has_vacant(&self) -> bool
        ensures { result ≡ list_any (λ r. spec.is_vacant r.place) self.now }
    {
        self.counts.totals.vacant > 0
    }

    /// Whether a connection is live.
    pub fn has_live(&self) -> bool
        ensures { result ≡ list_any spec.is_live self.now }
    {
        self.counts.totals.live > 0
    }

    /// Whether a pass has a connection: the listener holds it, or a worker has it, or will.
    pub fn has_in_hand(&self) -> bool
        ensures { result ≡ list_any (λ r. spec.is_with_a_pass r.place) self.now }
    {
        self.counts.totals.in_hand > 0
    }

    /// How many connections are live.
    pub fn live_count(&self) -> usize
        ensures { result ≡ count_by spec.is_live self.now }
    {
        self.counts.totals.live as usize
    }

    /// How many connections are served.
    pub fn working_count(&self) -> usize
        ensures { result ≡ count_by (λ r. spec.is_working r.place) self.now }
    {
        self.counts.totals.working as usize
    }

    /// How many connections wait for room to send.
    pub fn writing_count(&self) -> usize
        ensures { result ≡ count_by (λ r. spec.is_parked_as Writing r.place) self.now }
    {
        self.counts.totals.writing as usize
    }

    /// How many connections wait for a further request.
    pub fn keep_alive_count(&self) -> usize
        ensures { result ≡ count_by (λ r. spec.is_parked_as KeepAlive r.place) self.now }
    {
        self.counts.totals.keep_alive as usize
    }

    /// How many connections linger and wait.
    pub fn closing_count(&self) -> usize
        ensures { result ≡ count_by (λ r. spec.is_parked_lingering r.place) self.now }
    {
        self.counts.totals.closing as usize
    }

    /// Of the row of the slot: a connection arrived, and the listener holds it.
    #[tactic(auto, using(crate::proofs::ListLemmas::set_is_update))]
    pub fn take(&mut self, slot: u32, arrival: u64, child: u32, generation: u32)
        requires { slot < length self.old }
        ensures { self.new
            ≡ update self.old slot
            (λ r. record {
              life = r.life;
              arrival = arrival;
              child = child;
              generation = generation;
              place = Held;
              from = None;
              deadline = r.deadline;
              began = None;
              mid = false;
              last = false;
              short = false;
              cause = None;
              notes = [];
              waits = [];
            }) }
    {
        let row = &mut self.items[slot as usize];
        let before = row.standing();
        row.take(arrival, child, generation);
        let now = row.standing();
        self.counts.change(before, now);
    }

    /// Of the row of the slot: it waits for this until the deadline, and has waited for its request since then.
    #[tactic(auto, using(crate::proofs::ListLemmas::set_is_update))]
    pub fn park(&mut self, slot: u32, kind: Kind, deadline: Moment, began: Option<Moment>)
        requires { slot < length self.old }
        ensures { self.new
            ≡ update self.old slot
            (λ r. record r {
              place = Parked kind;
              from = Some kind;
              deadline = deadline;
              began = began;
              mid = mid_after kind r;
              waits = r.waits ++ kind ∷ [];
            }) }
    {
        let row = &mut self.items[slot as usize];
        let before = row.standing();
        row.park(kind, deadline, began);
        let now = row.standing();
        self.counts.change(before, now);
    }

    /// Of the row of the slot: the listener holds it.
    #[tactic(auto, using(crate::proofs::ListLemmas::set_is_update))]
    pub fn hold(&mut self, slot: u32)
        requires { slot < length self.old }
        ensures { self.new ≡ update self.old slot (λ r. held_row r) }
    {
        let row = &mut self.items[slot as usize];
        let before = row.standing();
        row.hold();
        let now = row.standing();
        self.counts.change(before, now);
    }

    /// Of the row of the slot: it waits for a worker.
    #[tactic(auto, using(crate::proofs::ListLemmas::set_is_update))]
    pub fn queue(&mut self, slot: u32)
        requires { slot < length self.old }
        ensures { self.new ≡ update self.old slot (λ r. queued_row r) }
    {
        let row = &mut self.items[slot as usize];
        let before = row.standing();
        row.queue();
        let now = row.standing();
        self.counts.change(before, now);
    }

    /// Of the row of the slot: the worker of the cell serves it.
    #[tactic(auto, using(crate::proofs::ListLemmas::set_is_update))]
    pub fn start(&mut self, slot: u32, cell: u32, phase: Phase)
        requires { slot < length self.old }
        ensures { self.new ≡ update self.old slot (λ r. record r { place = Working cell phase }) }
    {
        let row = &mut self.items[slot as usize];
        let before = row.standing();
        row.start(cell, phase);
        let now = row.standing();
        self.counts.change(before, now);
    }

    /// Of the row of the slot: its service ended for the cause, and its link lingers until the deadline.
    #[tactic(auto, using(crate::proofs::ListLemmas::set_is_update))]
    pub fn linger(&mut self, slot: u32, kind: Kind, deadline: Moment, cause: Cause)
        requires { slot < length self.old }
        ensures { self.new
            ≡ update self.old slot
            (λ r. record r {
              place = Parked kind;
              from = Some kind;
              deadline = deadline;
              mid = false;
              cause = Some cause;
            }) }
    {
        let row = &mut self.items[slot as usize];
        let before = row.standing();
        row.linger(kind, deadline, cause);
        let now = row.standing();
        self.counts.change(before, now);
    }

    /// Of the row of the slot: its connection is gone.
    #[tactic(auto, using(crate::proofs::ListLemmas::set_is_update))]
    pub fn close(&mut self, slot: u32)
        requires { slot < length self.old }
        ensures { self.new ≡ update self.old slot (λ r. closed_row r) }
    {
        let row = &mut self.items[slot as usize];
        let before = row.standing();
        row.close();
        let now = row.standing();
        self.counts.change(before, now);
    }

    /// Of the row of the slot: its worker goes on to this phase.
    #[tactic(auto, using(crate::proofs::ListLemmas::set_is_update))]
    pub fn go_on(&mut self, slot: u32, next: Phase)
        requires { slot < length self.old }
        ensures { self.new
            ≡ update self.old slot (λ r. record r { place = spec.in_phase next r.place }) }
    {
        let row = &mut self.items[slot as usize];
        let before = row.standing();
        row.go_on(next);
        let now = row.standing();
        self.counts.change(before, now);
    }

    /// Of the row of the slot: the response is decided, and noted.
    #[tactic(auto, using(crate::proofs::ListLemmas::set_is_update))]
    pub fn answer(&mut self, slot: u32, note: &Note, short: bool)
        requires { slot < length self.old }
        ensures { self.new ≡ update self.old slot (with_note note.now short) }
    {
        let row = &mut self.items[slot as usize];
        let before = row.standing();
        row.answer(note, short);
        let now = row.standing();
        self.counts.change(before, now);
    }
}
