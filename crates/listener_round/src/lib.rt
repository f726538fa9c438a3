//! A round of the listener, over any front, store and output.
//!
//! `Listener::take_in` lets time pass, does what command lines ask for, and takes connections, each behind what came with one wait of the
//! front; what the round does to the board alone is the work of `rounds`. What it makes of a wait stands in `specs/Pace.antt`; what it does
//! of command lines in `Commands.antt`, `Orders.antt` and `Generations.antt`; what their senders are answered in `Heard.antt` and
//! `LineAnswers.antt`; and what it is to its front in `Watched.antt` and `Links.antt`. The numbers that a run works by are here too
//! (`FirstNumbers.antt`), as each definition over all entries of a run begins with them.
#![tactic(auto)]

mod edition;
mod listener_state;
mod orders;
mod round;
mod run_numbers;

pub use edition::{LoadedEdition, NamedConfig};
pub use listener_state::Listener;
pub use run_numbers::{RunNumbers, head_limits_of, numbers_of};
