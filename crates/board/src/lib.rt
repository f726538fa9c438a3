//! The board: the table of connections, with one call for each event of the machine.
//!
//! Each call records one entry of the pass that makes it, and takes state, reply and history on by the machine's step; all
//! else stays, and a call that is refused changes nothing. The board has the connection of each row that waits or lingers, and
//! the connections that ended, in the order of their closes; that these agree with the history is `Agrees` in
//! `specs/Board.antt`, and holds of every board. How a connection fits its row, and how far it is on its way out, stands in
//! `specs/Fits.antt`, and that connections are served by the editions of their generations in `specs/Editions.antt`. The history, the state
//! after it and why a call is refused are those of `board_book`, and so is what the tests look for (its `specs/Finds.antt`).
//! The connections stand in a table of slots, of which contracts see the connections alone (`specs/Layout.antt`). The rows that
//! wait stand in timeout queues besides, and the slots of the book in rings by what is to be done with their rows, so no call goes over
//! the rows, but that behind a restart with shorter timeouts one which waits looks for its place among those that wait longer. Where
//! several connections would do, each test prefers the one that waited longest. No contract tells of either, nor of how far the
//! slots are used (`specs/QueuesInside.antt`, `specs/SlotsInside.antt`; `specs/FiledInside.antt` of `board_book`).
#![tactic(auto)]

mod accept;
mod board;
mod conns;
mod crossing;
mod finds;
pub mod laws;
pub mod report_line;
mod waits;

pub use board::{Board, Taken};
pub use board_book::{AcceptFault, BoardFault};
pub use crossing::{board_crosses, connection_crosses, ended_crosses};
