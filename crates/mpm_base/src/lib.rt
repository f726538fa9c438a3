//! What the crates of the server speak of: the names and notes of connections, and the outside.
//!
//! The traits `Store`, `Sink`, `Link`, `Front` and `Clock` say what the machine may rely on of a folder of files, of an
//! output, of a connection's socket, of the place where connections, signals and time come from, and of a clock: what
//! was read, written, handed out and answered, where the object tells it, and when a call may fail. Their definitions
//! stand in `specs/`, one file for each trait. `stand_ins` has objects in memory that keep these traits.
//!
//! `ScriptLine` is a line of a script, as a front may tell it; `mpm_script` reads scripts, and `script_front` plays them.
//! `number_in_digits` reads a number of decimal digits (`specs/Digits.antt`), and `is_same_ignoring_case` compares texts in
//! which the case of letters doesn't count (`specs/LetterCase.antt`).
#![tactic(auto)]

mod addr;
mod bell;
mod clock;
mod conn;
mod digits;
mod front;
mod given_answers;
mod given_words;
pub mod laws;
mod letter_case;
mod line;
mod link;
mod memory;
mod note;
mod octets;
mod parts;
mod ready;
mod script_line;
mod second;
mod sequence;
mod shape;
mod sink;
mod store;
mod words;

pub use addr::Addr;
pub use bell::{Bell, Gate};
pub use clock::Clock;
pub use conn::{Ask, Cause, ConnName, GREATEST_MOMENT, Kind, Moment, Tail};
pub use digits::number_in_digits;
pub use front::{Arrival, Front, Woke};
pub use given_answers::{GivenAnswers, MOST_ANSWER, says_refused};
pub use given_words::GivenWords;
pub use letter_case::is_same_ignoring_case;
pub use line::Line;
pub use link::{Got, Link, Sent};
pub use memory::NoMemory;
pub use note::{Note, Notes, Page, Snapshot};
pub use octets::Octets;
pub use parts::is_made_of;
pub use ready::Ready;
pub use script_line::{ClientAct, CommandWord, LinkCall, ScriptLine, SiteLine};
pub use second::Second;
pub use sequence::Sequence;
pub use shape::Shape;
pub use sink::{Logs, Put, Sink};
pub use store::{Content, File, Names, Store, StoreFault};
pub use words::Words;
