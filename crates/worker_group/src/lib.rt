//! The service of connections by workers: what a worker does with one connection, from its queue until it waits, lingers or is
//! closed.
//!
//! `serve` says of the pass that serves which events it adds, in order: the connection is queued and started, each response
//! is decided, and it is left as its last turn asks (`specs/Service.antt`). Then it is in its slot of the board, or the last
//! that ended. All of them are events that the pass may make, and no others are added: the service has the board for itself
//! (`specs/Acts.antt`). What holds of the bytes that a connection receives and is sent is a fact of its type (`conn_state`).
#![tactic(auto)]

mod hands;
pub mod laws;
mod service;

pub use hands::Hands;
pub use service::{Exit, close, give_up, let_linger, park, serve};
