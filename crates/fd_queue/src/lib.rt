//! The descriptor queue: items that go from one thread to others, in order.
//!
//! Each thread has a seat, and puts and takes items through it. The items leave in the order in which they came, each once:
//! `specs/Seats.antt` says it by places, the place of an item being how many were put before it. What a refused push, or a pop
//! that finds nothing, says of the queue is exact for a seat that is alone (`laws`); and no call can tell whether its seat is.
#![tactic(auto)]

pub mod laws;
mod queue;
mod seat;

pub use queue::{FdQueue, FdSeat};
pub use seat::{Item, SeatView};
