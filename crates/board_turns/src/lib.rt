//! Turns with a board under its lock: one call for each event, and the few that make many in one turn.
//!
//! Each call takes the turn of its pass, makes its call of the board, and gives the turn back. What it asks and tells is said over what the
//! pass has seen (`specs/Books.antt`): the book of all of it, from the opening on, in which nothing was folded. So of a turn one learns which
//! entries others had added, and that behind them stands an event of this pass (`specs/Turns.antt`); what a pass may do next follows from what
//! its last turn taught it, whatever others do meanwhile (`specs/Carries.antt`). What the lock's rule asks of a turn appears nowhere above.
//! A carrier and the connection that it carries travel as a pair, which keeps what its carrier knows of it; `pair_up` makes one. No link is
//! called in a turn, and what can be made before one is made before it.
#![tactic(auto)]

mod pair;
mod pairing;
mod rests;
mod worker_turns;

pub use pair::Pair;
pub use pairing::{NotPaired, pair_up};
pub use rests::turns_rest_on_these;
pub use worker_turns::{answer, close, linger, park, queue, start};
