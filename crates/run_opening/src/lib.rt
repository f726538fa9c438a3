//! What a command does before its run opens, and how it ends where none does.
//!
//! `config_from` makes a configuration of what a store answered, with what an operator is told of its corrections
//! (`specs/Configured.antt`, `Calls.antt`; why a site has none, `Sites.antt`). The `refuse_` calls end a command whose run doesn't open:
//! each writes its text, and where memory lacks for that the output stays as it was (`specs/Refusals.antt`).
#![tactic(auto)]

mod config_reading;
mod ending;
mod refusal;

pub use config_reading::{NoConfig, config_from};
pub use ending::{Ending, no_memory, unopened};
pub use refusal::{
    refuse_config, refuse_config_of, refuse_front, refuse_script, refuse_site, refuse_uncontrolled,
    refuse_unread, refuse_words,
};
