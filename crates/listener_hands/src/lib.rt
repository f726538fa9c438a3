//! What the listener has besides its pass: the lock with its board, which it opens and closes, the perch on which carriers rest, and the
//! lines to the workers of each child, by which it hands connections over.
//!
//! What it knows before its first turn is said of its pass (`specs/Opened.antt`), and what it knows of the board that it is left with, over all
//! that its pass has seen (`specs/Closed.antt`). What a carrier does is none of its pass's, so of a handing over no clause speaks but of the
//! perch and the lines: what it adds to the history comes by others.
#![tactic(auto)]

mod closing;
mod handing;
mod lines;
mod opening;
mod seating;
mod serving;

pub use closing::close;
pub use handing::hand_over;
pub use lines::{Line, Queues, make_lines, make_queues};
pub use opening::{Opened, open};
pub use seating::seat_carriers;
pub use serving::{WorksHere, serve_here};
