//! What the passes of the listener and of the service do to the table in a round of the server, with nothing of what is outside of it.
//!
//! A round lets time pass, signals slots, lets go of connections that retire, are late or linger, serves those that are signalled, lets go
//! of children, starts children and takes connections; behind the last one the server goes down. Each part says which events it adds under
//! its pass, in order (`specs/PartsInside.antt`, `ClosingInside.antt`), and where the state stands then.
#![tactic(auto)]

mod closing;
mod down;
mod ends;
mod round;
mod showing;

pub use down::close_down;
pub use ends::{End, LISTENER, Rest};
pub use round::{
    accept, find_rest, has_live, is_gone, is_overdue, let_go_of_conns, pass_time, retire_all,
    serve_all, settle, signal_all, start_children,
};
pub use showing::show_state;
