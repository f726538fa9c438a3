//! What stands in for the outside in memory: links, a sink and a store.
//!
//! `PlainLink`, `PlainSink` and `PlainStore` never fail; `ScriptLink` fails at the calls whose numbers it is given, and a script may
//! drop one besides. Each does what its trait of `mpm_base` says, and exactly what its own clauses say. A store is made of `Files`, or
//! of a `History`, whose editions share what didn't change. Their definitions stand in `specs/`, one file for each type. `Wire` is what
//! the front of a script and one of its links tell each other. A store, a sink and a log that fail stand in `failing_stand_ins`.
#![tactic(auto)]

mod calls;
mod editions;
mod entry;
mod files;
mod history;
mod link_counters;
mod listing;
mod plain_link;
mod plain_sink;
mod plain_store;
mod script_link;
mod shelf;
mod slot;
mod wire;

pub use calls::Calls;
pub use files::Files;
pub use history::History;
pub use plain_link::PlainLink;
pub use plain_sink::PlainSink;
pub use plain_store::PlainStore;
pub use script_link::ScriptLink;
pub use slot::Slot;
pub use wire::Wire;
