//! What the calls of a table rest on.
ghost use Rattle.listener_table.specs.Laws.{TableRestsOn};

use board::laws::{ended_connections_join, generations_keep_their_editions};
use board_turns::turns_rest_on_these;
use conn_machine::laws::events_keep_states_sound;
use conn_machine::laws_between_turns::{
    others_leave_the_rest_to_the_listener, own_events_tell_the_frame,
};
use conn_machine::laws_of_runs::made_histories_are_runs;

/// What the calls of a table rest on.
pub(crate) fn table_rests_on_these()
    ensures { TableRestsOn }
{
    turns_rest_on_these();
    own_events_tell_the_frame();
    others_leave_the_rest_to_the_listener();
    ended_connections_join();
    generations_keep_their_editions();
    events_keep_states_sound();
    made_histories_are_runs();
}
