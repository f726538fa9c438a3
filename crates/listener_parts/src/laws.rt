//! What is said of the whole history by what pass 0 did. Each is the contract of a function that does nothing.
ghost use Rattle.listener_parts.specs.Times.{OwnEventsTellTheTime};

use board_turns::turns_rest_on_these;
use conn_machine::laws::events_keep_states_sound;
use conn_machine::laws_between_turns::{
    nothing_is_done_behind_the_end, others_leave_the_rest_to_the_listener,
    own_events_tell_the_frame,
};

/// Each entry of a history was made in time where each of the listener's was, by what it alone decides, and no connection was handed over
/// late.
pub fn own_events_tell_the_time()
    ensures { OwnEventsTellTheTime }
{
    turns_rest_on_these();
    events_keep_states_sound();
    nothing_is_done_behind_the_end();
    others_leave_the_rest_to_the_listener();
    own_events_tell_the_frame();
}
