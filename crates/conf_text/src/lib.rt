//! The text of a configuration: its lines, and the words of each.
//!
//! `take_line` takes the first logical line of a text, which is a line with those that it is joined with (`specs/Line.antt`). `first_word`
//! takes the first word of a line (`specs/Words.antt`, `specs/First.antt`), and `around` what stands before and after the first such byte of
//! a word (`specs/Parts.antt`). What a line means, and what a word spells, stands in the crates above.
#![tactic(auto)]

mod line;
mod part;
mod word;

pub use line::take_line;
pub use part::{around, place_of};
pub use word::{First, at_blank, first_word, is_blank, past_first, skip_blanks};
