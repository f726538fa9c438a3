//! The turns of pass 0, which listens: one call for each event that it alone makes, and the few that make many in one turn.
//!
//! As in `board_turns` each takes the turn, makes its calls of the board, and gives the turn back, and all of it is said over what the pass has
//! seen. Where a turn has to find out first what is to be done, it does so in the same turn, and says what it found where there was nothing.
//! A connection that the listener holds is known by what lasts while others act (`specs/Holds.antt`): its link is called
//! between the turn in which it is taken up and the one in which it is let go of. What may be done next follows from the last turn, since
//! nobody else lets time pass, takes connections, starts or lets go of children, or stops the server. What the next wait is told is found in one
//! turn (`specs/Looks.antt`), and of what is folded no more is said than that it is where it is due (`specs/Folds.antt`).
#![tactic(auto)]

mod children;
mod held;
mod looks;
mod parts;
mod taken;

pub use children::{credit_child, retire_child, retire_children, start_child, start_children};
pub use held::{Due, Held, close, hold, linger, park};
pub use looks::{Look, is_idle, take_look, totals};
pub use parts::{command, fold, halt, pass_time, signal_all};
pub use taken::accept;
