//! Laws of what passes do, and of the connections that they have in hand. Each is the contract of a function that does nothing.
ghost use Rattle.std.specs.Prelude.{◌≡◌, ℕ, true};
ghost use Rattle.mpm_base.specs.declared.conn.Cause.{Cause};
ghost use Rattle.mpm_base.specs.declared.conn.ConnName.{ConnName};
ghost use Rattle.mpm_base.specs.declared.conn.Tail.TheVariants.{Direct};
ghost use Rattle.conn_machine.specs.Table.{direct_cause_fits};
ghost use Rattle.conn_machine.specs.declared.state.State.{State};
ghost use Rattle.conn_state.specs.Answered.{ShowsAtOnce};
ghost use Rattle.conn_state.specs.Conn.{SeenConn};
ghost use Rattle.board.specs.Board.{SeenBoard};
ghost use Rattle.board_book.specs.Book.{SeenBook};
ghost use Rattle.board.specs.Fits.{NotesEnd};
ghost use Rattle.worker_group.specs.Acts.{ActsInSteps};
ghost use Rattle.worker_group.specs.InHand.{IsClosable, IsInHand};
ghost use Rattle.worker_group.specs.Service.{EndsAsLast, HasServed, IsEnding, LeavesRest};

/// What a pass did in steps it did: nothing, one event that it recorded, and one thing behind the other. Every other pass has
/// made what it had made. What leaves alone all that only the listener changes does so in two steps too.
pub fn passes_act_in_steps()
    ensures acts { ActsInSteps }
    ensures rest { (a b c : SeenBook) → LeavesRest a b → LeavesRest b c → LeavesRest a c }
{}

/// A connection in hand may be closed with its link left directly, for each cause that fits its row, that it shows, and for which
/// it has the notes.
pub fn connections_in_hand_may_be_closed()
    ensures { (s : State) (why : Cause) (c : SeenConn) (hand : IsInHand s c)
        → direct_cause_fits s why hand.row ≡ true
        → ShowsAtOnce why c
        → NotesEnd why c.notes hand.row.notes
        → IsClosable s why Direct c }
{}

/// A connection that a service ended tells by its last turn for which cause: what its client or its link did, or memory that
/// lacked; or it was to wait, or to have a response, and was refused.
pub fn ended_connections_tell_their_cause()
    ensures { (who : ℕ) (name : ConnName) (old new : SeenBoard)
        (served : HasServed who name old new)
        → IsEnding served.left.way
        → EndsAsLast new.ended }
{}
