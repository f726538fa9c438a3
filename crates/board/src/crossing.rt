//! What goes from thread to thread. The proofs that a board may stand in `proofs/SendLemmas.antt`: a crate that sends one cites them.
use crate::board::Board;
use conn_state::{Conn, Ended, Known};
use mpm_base::Link;

/// A value of this type may go to another thread.
fn crosses<T: Send>(_value: &T) {}

/// A board may, where its links may, and the names of what is known of the outside.
pub fn board_crosses<L: Link + Send, N: Known + Send + Sync>(board: &Board<L, N>) {
    crosses(board);
}

/// A connection may.
pub fn connection_crosses<L: Link + Send, N: Known + Send + Sync>(conn: &Conn<L, N>) {
    crosses(conn);
}

/// One that ended may.
pub fn ended_crosses<L: Link + Send>(ended: &Ended<L>) {
    crosses(ended);
}
