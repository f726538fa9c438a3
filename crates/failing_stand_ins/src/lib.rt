//! What stands in for the outside in memory and fails: a store, a sink and a log.
//!
//! `MemStore`, `MemSink` and `MemLog` fail at the calls whose numbers they are given. Each does what its traits of `mpm_base` say,
//! and exactly what its own clauses say. Their definitions stand in `specs/`, one file for each type. What never fails, the link of a
//! script, and the lists of calls and of files stand in `stand_ins`. No part of the server rests on this crate.
#![tactic(auto)]

mod mem_log;
mod mem_sink;
mod mem_store;

pub use mem_log::MemLog;
pub use mem_sink::MemSink;
pub use mem_store::MemStore;
