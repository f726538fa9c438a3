//! The connection machine: what is done to the table of connections, event by event, as one thread would do it.
//!
//! A `State` is the table; the event table says which event is allowed in it, and what it does and replies.
//! It is one definition, `is_allowed`, `next` and `reply` in `specs/Table.antt`, on one list of rows whose counts
//! are filters. Histories of the machine, the order of each pass's entries, and what a pass may add stand in
//! `specs/Runs.antt`. `may` and `step` are the same table as a plain program. What the table is worth is said by `laws`, how
//! histories go on by `laws_of_runs`, and what a pass finds again behind the entries of others by `laws_between_turns`. A list of rows keeps its counts beside it, so no event but a Tick makes `may` or `step`
//! go over the rows. A row keeps the number of its responses, and no memory for any of them.
//!
//! A value that is `Kept` tells a ledger: a history, the state before it, and a record of the entries before that state, which
//! were folded. What a fold makes stands in `specs/Folds.antt`.
#![tactic(auto)]

mod changes;
mod child;
mod conditions;
mod counts;
mod event;
mod folded;
mod kept;
pub mod laws;
pub mod laws_between_turns;
pub mod laws_of_runs;
mod row;
mod row_notes;
mod row_waits;
mod rows;
mod shown;
mod state;
mod stepping;
mod totals;

pub use child::{Child, ChildPhase, Children};
pub use conditions::{is_in_bounds, may};
pub use event::{BoxedShape, Commanded, Entry, Event, Refusal, Reply, Why};
pub use folded::{Edition, Editions, Folded, Ordinals, PassRows};
pub use kept::{Kept, Ledger};
pub use row::{Owner, Phase, Place, Row};
pub use row_notes::RowNotes;
pub use row_waits::RowWaits;
pub use rows::Rows;
pub use state::{Going, Signals, State};
pub use stepping::{Stepped, step, step_and_note};
pub use totals::Totals;
