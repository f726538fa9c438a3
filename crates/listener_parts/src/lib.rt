//! The parts of the listener's round over passes and turns: what pass 0 does in a round of the server, with nothing of what is outside of it
//! but the links of connections that it holds.
//!
//! A round lets time pass, signals slots, lets go of connections that retire, are late or linger, lets go of children, starts children
//! and takes connections, does orders, and finds what the next wait is told; behind the last one the server goes down. Each part takes some turns, and
//! between two of them others may act. So it says which events its pass made, in order (`specs/Did.antt`), and of the state what
//! the listener alone decides, as it stands behind all that the pass has seen. What is to be done is found in the turn that does it; links
//! are called between two turns. Where a part has to repeat a turn until there is nothing left for it, no measure of the table bounds that,
//! since others may bring further connections: it goes on as long as there are some.
//! What follows of the whole history from what pass 0 did is said by `laws`.
#![tactic(auto)]

mod closing;
mod credits;
mod draining;
pub mod laws;
mod letting;
mod ordering;
mod rest;
mod starting;
mod taking;
mod time;

pub use closing::{close_down, close_waiting, stop};
pub use credits::{Credits, credit_all, take_all_credits_back, take_credit_back};
pub use draining::drain_all;
pub use letting::{let_go_late, let_go_retiring};
pub use ordering::order;
pub use rest::{Rest, fold_history, rest_of};
pub use starting::{Workers, retire_all, retire_rest, start_first, start_further};
pub use taking::{accept_one, settle, take};
pub use time::{let_go_of_conns, let_time_pass, signal};
