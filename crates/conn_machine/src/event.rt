//! The events of the machine, their replies, and the entries of a history.
//! Why it is so stands in docs/DECISIONS.md: 41, An entry is small.
ghost use Rattle.std.specs.Prelude.{◌≡◌, IfOk};

use mpm_base::{Ask, Cause, ConnName, Kind, Moment, NoMemory, Shape, Tail};
use std::alloc::Global;
use std::marker::Model;
use std::mem::size_of;

/// Why the server stopped.
#[derive(Clone, Copy, Debug, PartialEq, Eq)]
pub enum Why {
    /// The command `stop`.
    Asked,
    /// GracefulShutdownTimeout was over.
    Overdue,
    /// Nothing more can come.
    FrontEnded,
    /// The front failed.
    FrontFailed,
    /// Memory was wanted and not found.
    NoMemory,
}

/// Why a command `graceful` changed nothing.
#[derive(Clone, Copy, Debug, PartialEq, Eq)]
pub enum Refusal {
    /// The server does not serve any more, or the generations are used up.
    Late,
    /// There is no configuration.
    Absent,
    /// The configuration is refused.
    Conf,
    /// The files are too many or too large.
    Site,
    /// The store failed.
    Store,
    /// Memory was wanted and not found.
    NoMemory,
}

/// A shape that is kept apart, so that each entry of a history is small, though few have one. Contracts see it as the shape.
#[derive(Debug, Drop)]
pub struct BoxedShape {
    shape: Box<Shape>,
}

impl Model for BoxedShape {
    ghost use Rattle.mpm_base.specs.declared.shape.Shape.{Shape};

    ghost Value = { Shape };

    ghost view = { λ b. b.shape.value };
}

impl BoxedShape {
    /// Takes memory for the shape.
    pub fn make(alloc: Global, shape: Shape) -> Result<BoxedShape, NoMemory>
        ensures { IfOk result (λ boxed. boxed ≡ shape) }
    {
        match Box::new(alloc, shape) {
            Ok(shape) => Ok(BoxedShape { shape }),
            Err(_) => Err(NoMemory),
        }
    }

    /// The shape.
    pub fn shape(&self) -> &Shape
        ensures { result.now ≡ self.now }
    {
        &self.shape
    }
}

impl PartialEq for BoxedShape {
    ghost use Rattle.mpm_base.specs.contracts.shape.ShapePartialEq.TheImpl.Laws.{laws-law as shapes_compare};

    ghost eq = { ⟦<Shape as PartialEq>⟧.eq };

    ghost laws = { shapes_compare };

    fn eq(&self, other: &BoxedShape) -> bool {
        *self.shape == *other.shape
    }
}

impl Eq for BoxedShape {
    ghost use Rattle.mpm_base.specs.contracts.shape.ShapeEq.TheImpl.Laws.{laws-law as shapes_equal_themselves};

    ghost laws = { shapes_equal_themselves };
}

/// A command from outside.
#[derive(Debug, Drop, PartialEq, Eq)]
pub enum Commanded {
    /// A new generation of this shape begins.
    Graceful(BoxedShape),
    /// A `graceful` was refused.
    Refused(Refusal),
    /// No connection is taken any more. What is open may go on until the moment, where there is one.
    GracefulStop(Option<Moment>),
    /// The server stops.
    Stop(Why),
}

/// An event of the machine.
#[derive(Debug, Drop, PartialEq, Eq)]
pub enum Event {
    /// A connection is taken into the slot.
    Accept(u32),
    /// The connection waits in the queue of the kind.
    Park(ConnName, Kind),
    /// The listener takes the connection from its queue.
    Hold(ConnName),
    /// The connection is handed to the workers of its child.
    Queue(ConnName),
    /// A worker begins to serve the connection.
    Start(ConnName),
    /// A response is decided.
    Answer(ConnName, Ask),
    /// The connection's service ended, and its link lingers.
    Linger(ConnName, Cause),
    /// The connection is closed.
    Close(ConnName, Cause, Tail),
    /// Something may have come for the slot.
    Ready(u32),
    /// The moment is this one.
    Tick(Moment),
    /// The child starts.
    StartChild(u32),
    /// A command is taken.
    Command(Commanded),
    /// The child has no connection any more, and is gone.
    Retire(u32),
}

/// What the machine replies to an event.
#[derive(Clone, Copy, Debug, PartialEq, Eq)]
pub enum Reply {
    /// It is done.
    Done,
    /// The connection has this name, child and generation.
    Took(ConnName, u32, u32),
    /// The worker of this cell serves.
    Cell(u32),
    /// The response was noted; whether it is the last one.
    Noted(bool),
}

/// An entry of a history. In this order its fields lie without a gap.
#[derive(Debug, Drop, PartialEq, Eq)]
pub struct Entry {
    /// The pass that made it.
    pub pass: u32,
    pub reply: Reply,
    /// Its number among the entries of that pass, from 0.
    pub ordinal: u64,
    pub event: Event,
}

// A history is kept in memory, so an entry is small.
const _: () = prove!(size_of::<Entry>() <= 64);
