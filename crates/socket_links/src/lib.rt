//! Links over the system's sockets, and what is made of the system's answers to calls of a socket and of its events.
//!
//! `SocketLink` keeps the trait `Link` of `mpm_base`. It tells nothing: no clause says what a socket gives or takes. So each step from an
//! answer of the system is a function of its own, and what it makes of that stands in `specs/`: reads, writes and waits (`Answers`),
//! connections (`Accepting`), events and how long a wait lasts (`Events`), which reads leave nothing behind (`Emptied`), and how a link
//! gives way to others (`GivingWay`). The front over them, with its bells and its clock, stands in `socket_outside`, and shares its marks
//! with its links (`Marks`).
#![tactic(auto)]

mod accepting;
mod allowance;
mod answers;
mod counters;
mod emptied;
mod events;
mod giving_way;
mod link;
mod place;
mod room;

pub use accepting::{NoStream, accept_next, none_for};
pub use answers::{
    CALLS, got_for, lacks_room, read_some, sent_for, shut_for, woke_for, write_some,
};
pub use emptied::{empties, hides_more};
pub use events::{
    BELL, CONTROL, LISTENER, Noticed, Source, fill_up, give_slots, gives_slot, longest_wait,
    source_of,
};
pub use giving_way::GivenWay;
pub use link::SocketLink;
pub use place::Marks;
