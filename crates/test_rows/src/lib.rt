//! What programs of tests read and print alike: the sections of their input, the numbers, texts and names that a row writes, numbers that
//! look random, and what they print of bytes. The crates whose names end in `_tests` stand on it, and nothing of the server does.
#![tactic(auto)]

mod listed;
mod numbers;
mod row;
mod sections;
mod sheet;
mod texts;

pub use listed::{listed_as, listed_at};
pub use numbers::{NumberStream, below, small};
pub use row::{grown, name_of, number_of, out_of_memory, small_of, words};
pub use sections::{Section, begin_section, open_section, sections_of};
pub use sheet::Sheet;
pub use texts::{Marks, show_bytes, text_of};
