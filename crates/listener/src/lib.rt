//! The run of a server over any front, clock and store.
//!
//! `run_server` opens a table by the numbers of a configuration, binds the front, and takes turns with it until nothing more can come, a
//! command line asks to stop, or a graceful stop is at its end: each turn waits, has a round done of what came (`listener_round`), has
//! connections served, and folds the history where it may be folded. What a run is stands in `specs/Listen.antt`, what is left of one in
//! `Runs.antt`, and what it was to its front and its clock in `Outside.antt`.
#![tactic(auto)]

mod folding;
mod listen;
mod server;

pub use server::{OpenFault, ServedRun, run_server};
