//! The lines of the access log, in the common log format.
//!
//! `log_line` writes the line of a response behind what a buffer holds (`specs/LogLine.antt`): the address of the client, the time of the
//! response by the Gregorian calendar (`LogTime`), its request line, escaped (`EscapedLine`, the call `escaped`), its code and the size of
//! its body. `request_line` is the request line of what a connection received (`RequestLine`), in the words of `http_read` for lines. How
//! a line is read stands in `LogReading`; that each line is read back, that it is one line of its text, whose time its own is, and that a
//! request line stays the same whatever follows it are laws (`laws`).
#![tactic(auto)]

mod escaping;
mod first_line;
pub mod laws;
mod log_time;
mod writing;

pub use escaping::escaped;
pub use first_line::request_line;
pub use writing::log_line;
