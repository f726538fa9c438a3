//! Laws of the machine: what holds of every state, and of every run, that the event table allows. Each is the contract
//! of a function that does nothing, and stands in full in `specs/MachineLaws.antt`.
ghost use Rattle.conn_machine.specs.MachineLaws.{EventsKeepStatesSound, QueuesAndHoldsAreEarned, AcceptedConnectionsAreClosedOrLive, ArrivalsAreTakenOnce, ClosedNamesStayClosed, LiveConnectionsShareNothing, LiveConnectionsHaveOneOwner, ReplacedGenerationsTakeNothing, RetiredChildrenAreDrained, ConnectionsGoToTheChosenChild, TakenConnectionsStartAfresh, LingeringDeadlinesNeverMove, ResponsesOnlyGrow, RowsKeepTheirWaits, EachPassHasItsOwnConnection, ConnectionsStayWhileOthersGoOn, PassesLeaveTheRestToTheListener};

use admission::pick_is_a_candidate;

/// The opening state is sound, every event that the table allows keeps a sound state sound, and so does every run.
pub fn events_keep_states_sound()
    ensures { EventsKeepStatesSound }
{}

/// In every run from the opening state connections are handed to workers at most as often as something came, and to the
/// listener at most as often and three times for each connection.
pub fn queues_and_holds_are_earned()
    ensures { QueuesAndHoldsAreEarned }
{}

/// In every run from the opening state each connection that was accepted was closed or is live, and closed at most once: as
/// many were accepted as were closed or are live, and each by its name is live, or an entry behind its own closed it.
/// The state counts those that were accepted, as far as a count goes.
pub fn accepted_connections_are_closed_or_live()
    ensures { AcceptedConnectionsAreClosedOrLive }
{
    pick_is_a_candidate();
}

/// Each connection that was taken has a number of its own, by the order in which they were taken, and either it is live or one
/// entry closed it; no other connection was closed or is live. So it is while fewer were taken than the greatest count.
pub fn arrivals_are_taken_once()
    ensures { ArrivalsAreTakenOnce }
{}

/// A connection that was closed is never live again.
pub fn closed_names_stay_closed()
    ensures { ClosedNamesStayClosed }
{}

/// Two connections that live at the same time have different slots, and two of a child that are served different cells.
pub fn live_connections_share_nothing()
    ensures { LiveConnectionsShareNothing }
{}

/// A connection has an owner exactly while it is live: one queue, one worker or the listener. The listener has those that it
/// holds and no others, and a worker has one at most.
pub fn live_connections_have_one_owner()
    ensures { LiveConnectionsHaveOneOwner }
{}

/// A connection that is taken after a graceful restart is of the generation that it made, or of a newer one.
pub fn replaced_generations_take_nothing()
    ensures { ReplacedGenerationsTakeNothing }
{
    pick_is_a_candidate();
}

/// No connection of a child that is let go of is live.
pub fn retired_children_are_drained()
    ensures { RetiredChildrenAreDrained }
{}

/// Each connection is taken for the child that the rule of admission names: of those that take one, the one with most idle
/// workers, and of those with as many the one with the lowest number.
pub fn connections_go_to_the_chosen_child()
    ensures { ConnectionsGoToTheChosenChild }
{
    pick_is_a_candidate();
}

/// A connection that is taken starts afresh: its row has no flag, no response, no wait and no cause, and its slot no signal, of
/// the one that was there before.
pub fn taken_connections_start_afresh()
    ensures { TakenConnectionsStartAfresh }
{}

/// A connection that lingers keeps its deadline and its cause as long as it lives.
pub fn lingering_deadlines_never_move()
    ensures { LingeringDeadlinesNeverMove }
{}

/// The responses of a live connection only grow, and none comes after one that says that it is the last.
pub fn responses_only_grow()
    ensures { ResponsesOnlyGrow }
{}

/// In every run from the opening state the row of a live connection has what the history had that connection wait for, in order; and one
/// that was closed waits no more.
pub fn rows_keep_their_waits()
    ensures { RowsKeepTheirWaits }
{}

/// Where each pass has its own connection at the base of a history that passes made as they may, each has it behind the history
/// too. So it is in each state in which a server opens, where no pass has one; and it stays so where the history is folded. Then
/// no connection is in hand where no pass has one, nor, of so many passes, any of them.
pub fn each_pass_has_its_own_connection()
    ensures { EachPassHasItsOwnConnection }
{}

/// While other passes go on, a pass keeps its connection, and the row of it stays as it was.
pub fn connections_stay_while_others_go_on()
    ensures { ConnectionsStayWhileOthersGoOn }
{}

/// What a pass other than the listener adds leaves all that the listener alone decides as it was. It signals nothing but a
/// connection that lingers, so no more slots ask for service, and fewer once it handed a connection to the workers.
pub fn passes_leave_the_rest_to_the_listener()
    ensures { PassesLeaveTheRestToTheListener }
{}
