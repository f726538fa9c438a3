//! A step on a word, as who made it knows it.

/// A step on a word. Contracts alone speak of it, and no value of it is made.
pub struct Step {
    /// The number of the word in its table. A place of a perch has one word alone, 0.
    pub word: u64,
    /// How many steps stand before it on its trail.
    pub at: u64,
    /// The seat of the table, or the mark of the place, with which it was made.
    pub by: u64,
    /// The number that it found.
    pub found: u64,
    /// The number that it left.
    pub leaves: u64,
}
