//! Small values under the lock, with which the lock, the idle words, the perch and the queue are tried.
//!
//! The machine of the first one has one child with two workers, and one connection. Pass 0 starts the child, takes the
//! connection and signals it, and pass 1 serves it, over and over (`specs/Toy.antt`). Pass 0 may fold what was done.
#![tactic(auto)]

mod holding;
mod idles;
mod opening;
mod player;
mod resting;
mod seats;
mod stage;
mod texts;
mod toy;
mod turns;

pub use holding::{ASKS, HAS_TURN, holds, wait_for};
pub use idles::{credits, reserves, reserves_once};
pub use opening::{first_pass, opened, opened_plain};
pub use player::{Player, players};
pub use resting::{last_looks, rests_one};
pub use seats::last_seat;
pub use stage::ToyStage;
pub use texts::{Texts, folds_texts, writes};
pub use toy::Toy;
pub use turns::{folds, goes_on, looks, serves};
