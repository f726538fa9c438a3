//! What a worker's thread does: it takes connections from the queue of its child, each with its carrier, serves each until it waits, lingers
//! or ended, and lets the carrier lie down; until an End item comes.
//!
//! `serve` is the service of one connection, turn by turn: what it adds to the history is said over what its pass had seen before and has
//! seen then (`specs/Serving.antt`). `serve_one` does so with what came through the queue: behind it the permit of the child is back, then
//! the carrier rests, and then the bell rings. `worker_loop` does that for each item, and rests while there is none, so that
//! the listener wakes no more workers than have something to do (`src/rest.rt`). No link is called while a turn is taken, and nothing
//! that travels is without its owner: of which lock carrier, perch and queue are stands in their types.
#![tactic(auto)]

mod hands;
mod rest;
mod service;
mod serving;
mod worker;

pub use hands::Hands;
pub use rest::{Rest, Wakes};
pub use serving::{serve, serve_one};
pub use worker::worker_loop;
