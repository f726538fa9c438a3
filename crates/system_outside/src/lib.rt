//! The outside of the server over the system, but for its sockets and its time: a folder of files, an output, the words of the command
//! line, a gate, and whoever runs the server.
//!
//! `Folder`, `Output` and `OpenGate` keep the traits `Store`, `Sink` and `Gate` of `mpm_base`. They tell nothing: no clause says what a
//! folder holds or an output takes. So each step from an answer of the system to one of a trait is a function of its own, and what it
//! makes of that stands in `specs/`: which fault an error is (`Fault`), what an entry of a folder leads to (`Entry`), which fault of a
//! listing comes of that (`Listing`), reading to the end (`WholeFile`), when a file was changed (`Changed`), what a write took (`Output`),
//! and the words (`Words`). No clause
//! speaks of what `Operator` writes to standard error.
//! Why it is so stands in docs/DECISIONS.md: 84, What the program takes of the system.
#![tactic(auto)]

mod changed;
mod entry;
mod fault;
mod folder;
mod listing;
mod log_file;
mod open_gate;
mod operator;
mod output;
mod whole_file;
mod words;

pub use changed::{second_of, second_told};
pub use entry::{EntryKind, entry_given, kind_behind, kind_in, own_kind};
pub use fault::{check_file, fault_of};
pub use folder::{Folder, check_opening};
pub use listing::{fault_of_entry, fault_of_folder, list};
pub use log_file::{LogFile, Way, check_name, way_to};
pub use open_gate::OpenGate;
pub use operator::Operator;
pub use output::{Output, put_of};
pub use whole_file::{Reading, read_whole};
pub use words::words_of;
