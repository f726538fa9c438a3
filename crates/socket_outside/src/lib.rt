//! The outside of the server over the system: front, control port, bell and clock over real sockets and the system's time.
//!
//! `SocketFront`, `SocketBell` and `SystemClock` keep the traits `Front`, `Bell` and `Clock` of `mpm_base`; the links that the front hands
//! out, and what the system's answers and events come to, stand in `socket_links`. They tell nothing: no clause says what a socket gives
//! or takes. So each step from an answer of the system to one of a trait is a function of its own, and what it makes of that stands in
//! `specs/`: what came on a control connection (`CommandLines`), what the clock answers (`Moments`), where it listens and sends commands
//! (`Addresses`), and what a command is answered (`Dialling`).
#![tactic(auto)]

mod addresses;
mod bell;
mod clock;
mod command_lines;
mod control;
mod dial;
mod front;
mod front_counters;
mod short_queue;
mod sockets;
mod speaker;

pub use addresses::{control_address, listen_address};
pub use bell::SocketBell;
pub use clock::{Start, SystemClock, clock_answer, moment_at, moment_behind, start_from};
pub use command_lines::{Heard, Spoken, heard_in};
pub use dial::{exchange, read_out, send_line};
pub use front::SocketFront;
pub use speaker::Speaker;
