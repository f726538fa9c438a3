//! The listener's table: the board under its lock as the one who listens has it, with its pass, the credits of the children, and their lines.
//!
//! Each call is a part of a round, or of how a server opens or goes down, told by the events that pass 0 made, whatever others did between
//! them. What lasts from call to call is a fact of the type (`specs/Table.antt`): of whoever has a table, no call asks it. It keeps
//! beside its pass what pass 0 alone decides of the state, so that the present moment and how the server goes on cost no turn.
#![tactic(auto)]

mod down;
mod intake;
mod kept;
mod laws;
mod round;
mod table;

pub use table::Table;
