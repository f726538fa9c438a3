//! The lock round a kept value: passes take the turn, with the value, one at a time, and give it back with what they added.
//!
//! A `Pass` is the token of a caller. It knows its number, what of the history it has seen, whether it has the turn, its
//! permit and its connection. `turn` hands out a value whose history goes on from what the pass had seen, and `done` takes
//! one back that has kept all and has further entries of this pass. What goes to another thread says by a `Room` of which lock it is.
//! The rule under it stands in the crate `table_rule`; what passes and calls are said to be is in `specs/Passes.antt`.
#![tactic(auto)]

mod make;
mod pass;
mod room;
mod shared;

pub use pass::{Carrier, Pass, number};
pub use room::Room;
pub use shared::{Shared, Turn};
