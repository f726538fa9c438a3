//! Where carriers rest that have nothing: a row of places, one for each of them.
//!
//! `admit` makes the places, of carrier 1 first, and so on by their numbers; `give` lays a carrier down on its own, and `take` takes one
//! that rests. A carrier that rests keeps nothing but its number; one that is taken has nothing, and has seen the whole history of the
//! moment at which it woke up, as the turn word said it. Each caller has looks of its own, and in them stands what its steps found, place
//! by place: so `take` says why there is none, and `give` why one comes back. Looks begin where they last found one, so that most often
//! one step is enough. Only `make` and `looks` take memory, and no call waits. What is said of a carrier that may rest stands in
//! `specs/Resting.antt`, and of what steps found in `specs/Words.antt` and `specs/Looking.antt`.
#![tactic(auto)]

pub mod laws;
mod looks;
mod perch;
mod place;
mod word;

pub use looks::Looks;
pub use perch::Perch;
