//! What a type knows of the outside.
//! Why it is so stands in docs/DECISIONS.md: 35, What is known of the outside is a type.
use std::marker::Brand;

/// What is known of the outside, as a type. It has no value at run time: a connection or a board with such a type parameter
/// keeps what the type knows, wherever it goes and through whatever lock.
pub trait Known {
    ghost use Rattle.std.specs.Prelude.{Option};
    ghost use Rattle.conn_state.specs.Known.{KnownOutside};

    ghost known: { Option KnownOutside };
}

/// A type by which a call names what it knows: it says what that is where it calls.
impl Known for Brand {
    ghost use Rattle.std.specs.Prelude.{None};

    ghost known = { None };
}

/// Nothing is known of the outside.
#[derive(Clone, Copy, Debug, PartialEq, Eq)]
pub struct Nothing;

impl Known for Nothing {
    ghost use Rattle.std.specs.Prelude.{None};

    ghost known = { None };
}
