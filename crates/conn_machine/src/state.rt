//! The state of the machine: the table as it stands between two events.
ghost use Rattle.std.specs.Prelude.{◌≡◌, ◌==◌, ◌<◌, ◌≤◌, false, length, map, replicate, IfOk, slice_index_or, slice_set};
ghost use Rattle.std.specs.List.{list_any};
ghost use Rattle.conn_machine.specs.Rows.{is_live, is_live_in, is_live_as, live_row};
ghost use Rattle.conn_machine.specs.Children.{child_at};
ghost use Rattle.conn_machine.specs.States as spec;
ghost use Rattle.conn_machine.specs.Folds.{is_in_use};

use crate::child::{Child, Children};
use crate::event::Why;
use crate::row::Row;
use crate::rows::Rows;
use admission::ChildCount;
use arrayvec::ArrayVec;
use mpm_base::{GREATEST_MOMENT, Moment, NoMemory, Shape};
use std::alloc::Global;
use std::marker::Model;

/// The most children that a table may have.
pub const MOST_CHILDREN: usize = 32;

/// Whether the server takes connections, ends, or has stopped.
#[derive(Clone, Copy, Debug, PartialEq, Eq)]
pub enum Going {
    /// It takes connections.
    Serving,
    /// It serves those that it has, until the moment where there is one.
    Ending(Option<Moment>),
    /// It closes those that it has.
    Halted(Why),
}

impl Going {
    /// Whether connections are taken.
    pub fn is_serving(self) -> bool
        ensures { result ≡ spec.is_serving self }
    {
        matches!(self, Going::Serving)
    }

    /// Whether the server has stopped.
    pub fn is_halted(self) -> bool
        ensures { result ≡ spec.is_halted self }
    {
        matches!(self, Going::Halted(_))
    }

    /// Whether the server ends, and the moment until which it may has come.
    pub fn is_over(self, moment: Moment) -> bool
        ensures { result ≡ spec.is_over moment self }
    {
        match self {
            Going::Ending(Some(until)) => until <= moment,
            _ => false,
        }
    }
}

/// A list with one bool for each row, as contracts see it: whether something may have come for it.
#[derive(Debug, Drop)]
pub struct Signals {
    items: Vec<bool>,
}

impl Model for Signals {
    ghost use Rattle.std.specs.Prelude.{List, Bool};

    ghost Value = { List Bool };

    ghost view = { λ s. s.items.items };
}

impl Signals {
    /// So many slots, none of which is signalled.
    pub fn make(alloc: Global, slots: u32) -> Result<Signals, NoMemory>
        ensures { IfOk result (λ made. made ≡ replicate slots false) }
    {
        match vec![in alloc; false; slots as usize] {
            Ok(items) => Ok(Signals { items }),
            Err(_) => Err(NoMemory),
        }
    }

    /// Whether the slot is signalled.
    pub fn get(&self, slot: u32) -> bool
        ensures { result ≡ slice_index_or self.now slot false }
    {
        match self.items.get(slot as usize) {
            Some(signal) => *signal,
            None => false,
        }
    }

    /// Sets or clears the signal of the slot.
    pub fn set(&mut self, slot: u32, signal: bool)
        requires { slot < length self.old }
        ensures { self.new ≡ slice_set self.old slot signal }
    {
        self.items[slot as usize] = signal;
    }
}

/// The state of the machine.
#[derive(Debug, Drop)]
pub struct State {
    /// The row of each slot.
    pub rows: Rows,
    /// The children, by their numbers.
    pub children: Children,
    /// The newest generation, from 0.
    pub newest: u32,
    /// The numbers of the newest generation.
    pub shape: Shape,
    /// The present moment.
    pub moment: Moment,
    /// The signal of each row.
    pub signals: Signals,
    /// Whether the server takes connections.
    pub going: Going,
    /// How many connections were accepted. It stays at its greatest number.
    pub accepted: u64,
}

/// The moment so many milliseconds after this one, as far as moments go.
pub(crate) fn later(moment: Moment, ms: Moment) -> Moment
    ensures { result ≡ spec.later moment ms }
{
    moment.saturating_add(ms).min(GREATEST_MOMENT)
}

impl State {
    /// The state in which a server opens: every slot vacant, no child started, generation 0 of this shape.
    pub fn opening(
        alloc: Global,
        slots: u32,
        children: u32,
        shape: Shape,
    ) -> Result<State, NoMemory>
        ensures { IfOk result (λ state. state ≡ spec.opening_state slots children shape) }
    {
        Ok(State {
            rows: Rows::make(alloc, slots)?,
            children: Children::make(alloc, children)?,
            newest: 0,
            shape,
            moment: 0,
            signals: Signals::make(alloc, slots)?,
            going: Going::Serving,
            accepted: 0,
        })
    }

    /// The moment so many milliseconds after the present one, as far as moments go.
    pub fn later(&self, ms: Moment) -> Moment
        ensures { result ≡ spec.later self.now.moment ms }
    {
        later(self.moment, ms)
    }

    /// The child of the row.
    pub fn child_of(&self, row: &Row) -> Child
        ensures { result ≡ spec.child_of self.now row.now }
    {
        self.children.get(row.child)
    }

    /// What the choice of a child looks at, of the child of that number.
    fn child_count(&self, number: u32, child: &Child) -> ChildCount
        requires few { length self.now.rows ≤ 8192 }
        ensures { result ≡ spec.child_count self.now (number, child.now) }
    {
        let carried = self.rows.carried(number);
        let open = self.rows.open_count(number);
        ChildCount {
            child: number,
            running: child.phase.is_running() && child.generation == self.newest,
            t: child.shape.threads,
            factor: child.shape.factor,
            idle: child.shape.threads.saturating_sub(carried as u32),
            count: open as u32,
        }
    }

    /// What the choice of a child looks at.
    fn child_counts(&self) -> ArrayVec<ChildCount, MOST_CHILDREN>
        requires few_rows { length self.now.rows ≤ 8192 }
        requires few_children { length self.now.children ≤ 32 }
        ensures { result.items ≡ spec.child_counts self.now }
    {
        let mut counts = ArrayVec::new();
        for (number, child) in self.children.as_slice().iter().enumerate() {
            counts.push(self.child_count(number as u32, child));
        }
        counts
    }

    /// The child that takes the next connection.
    pub fn pick_child(&self) -> Option<u32>
        requires few_rows { length self.now.rows ≤ 8192 }
        requires few_children { length self.now.children ≤ 32 }
        ensures { result ≡ spec.pick_child self.now }
    {
        admission::pick(self.child_counts().as_slice())
    }

    /// Whether a waiting row is late.
    pub fn has_overdue(&self) -> bool
        ensures { result ≡ list_any (spec.is_overdue self.now.moment) self.now.rows }
    {
        self.rows
            .as_slice()
            .iter()
            .any(|row| row.place.is_parked() && row.deadline <= self.moment)
    }

    /// Whether a connection is live.
    pub fn has_live(&self) -> bool
        ensures { result ≡ list_any is_live self.now.rows }
    {
        self.rows.has_live()
    }

    /// Whether a connection of the child is live.
    pub fn has_live_in(&self, child: u32) -> bool
        ensures { result ≡ list_any (is_live_in child) self.now.rows }
    {
        self.rows.has_live_in(child)
    }

    /// Whether the generation is the newest one, or that of a child which is there. It goes over the children, and over no rows.
    pub fn is_in_use(&self, generation: u32) -> bool
        ensures { result ≡ is_in_use self.now generation }
    {
        generation == self.newest || self.children.has_one_of(generation)
    }
}
