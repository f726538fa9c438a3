//! What the words of the directives of types spell: media types, the extensions of names, and character sets.
//!
//! `are_type_words` says whether the words of a line are a type and one extension or more, and `add_pairs` puts the pairs that they spell
//! behind others. `charset_of_value` and `table_of_value` read the values of the other two directives. Which words those are stands in
//! `specs/TypeWords.antt`; that no type has a byte by which a line could end, in `laws` (`specs/TypeLaws.antt`).
#![tactic(auto)]

mod extension;
mod laws;
mod media_type;
mod pairs;
mod token;

pub use laws::types_are_printable;
pub use pairs::{add_pairs, are_type_words};
pub use token::{charset_of_value, table_of_value};
