//! A law of types. It is the contract of a function that does nothing.
ghost use Rattle.media_types.specs.PairLaws.{LaterPairsCount};

/// A later pair of an extension counts before each earlier one, and before the table.
pub fn later_pairs_count()
    ensures { LaterPairsCount }
{}
