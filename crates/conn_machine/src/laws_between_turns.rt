//! Laws of what a pass finds again that comes back, whatever the other passes did meanwhile. Each is the contract of a function that does
//! nothing, and stands in full in `specs/BetweenTurns.antt` or `specs/Frames.antt`. That a pass keeps its connection, and the row of it stays, is said by `laws`.
//! Why it is so stands in docs/DECISIONS.md: 102, What a turn teaches.
ghost use Rattle.conn_machine.specs.BetweenTurns.{StoppedServersStayStopped, OthersLeaveTheRestToTheListener, QuietTablesAreTheListeners, StartedChildrenHaveNobodysConnection, NothingIsDoneBehindTheEnd};
ghost use Rattle.conn_machine.specs.Frames.{OwnEventsTellTheFrame, OwnEventsTellWhatWasTaken};

/// A server that has stopped stays so, for the same reason, whatever is done behind that.
pub fn stopped_servers_stay_stopped()
    ensures { StoppedServersStayStopped }
{}

/// What other passes than the listener add, however many they are and in whatever order, leaves all that the listener alone decides as
/// it was, and no more slots ask for service.
pub fn others_leave_the_rest_to_the_listener()
    ensures { OthersLeaveTheRestToTheListener }
{}

/// Where no connection is in hand, and none that waits for service may be handed to a worker, no pass but the listener can add an entry.
/// So what the listener has seen of such a table is the whole history.
pub fn quiet_tables_are_the_listeners()
    ensures { QuietTablesAreTheListeners }
{}

/// No live connection is of a child that may be started, and it has no workers: so no pass has a connection of the child that had the
/// number before.
pub fn started_children_have_nobodys_connection()
    ensures { StartedChildrenHaveNobodysConnection }
{}

/// Where a graceful stop is at its end no connection and no child is left, so nothing can be done of one. Passes other than the listener do
/// nothing else.
pub fn nothing_is_done_behind_the_end()
    ensures { NothingIsDoneBehindTheEnd }
{}

/// What the listener alone decides of a state follows from its own events, whatever others did between them.
pub fn own_events_tell_the_frame()
    ensures { OwnEventsTellTheFrame }
{}

/// What the listener alone makes is told by its own events, and under which name it took a connection by its next one.
pub fn own_events_tell_what_was_taken()
    ensures { OwnEventsTellWhatWasTaken }
{}
