//! Which lock something is of.
use std::marker::Brand;

/// Which lock something is of, in its type: what travels between threads says by a type that it is of the lock whose table has this name,
/// so that whoever gets it need not ask. A program picks the name once, at `Brand`.
pub trait Room {
    ghost use Rattle.atomic_table.specs.Seated.{TableId};

    /// The name of the lock's table.
    ghost table: { TableId };
}

impl Room for Brand {
    ghost use Rattle.std.specs.Prelude.{[]};

    ghost table = { record { words = 0; slots = 0; views_name = 0; atom = 0; block = 0; offset = 0; slot_names = [] } };
}
