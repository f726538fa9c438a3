//! Media types: which type a file has, by the end of its name (RFC 9110, section 8.3).
//!
//! `MediaTypes` is what an operator says of types: pairs of an extension and a type, whether the long table counts, and the character
//! set that is named behind `text/html` and `text/plain`. A `TypeTable` is made of these once. `place_of` looks a name up in it, and
//! `type_at` hands out the type at the place without a further comparison. Which type that is stands in `specs/MediaType.antt`, with both
//! tables; that a later pair counts before an earlier one, in `laws` (`specs/PairLaws.antt`).
#![tactic(auto)]

pub mod laws;
mod tables;
mod type_table;
mod types;

pub use type_table::TypeTable;
pub use types::{MediaTypes, TypePair, TypePairs};
