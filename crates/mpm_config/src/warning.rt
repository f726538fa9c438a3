//! What an operator is told of a number that was corrected.
ghost use Rattle.std.specs.Prelude.{◌≤◌};

use mpm_base::Sequence;
use std::marker::Model;

/// A number that was corrected.
#[derive(Clone, Copy, Debug)]
pub struct Warning {
    /// Which correction it was, 1 to 10 in their order.
    pub correction: u8,
    /// The number as it was written.
    pub was: u64,
    /// What it became.
    pub now: u64,
}

impl Model for Warning {
    ghost use Rattle.std.specs.Prelude.{◌≤◌};
    ghost use Rattle.mpm_config.specs.Warning.{Notice};

    ghost Value = { Notice };

    ghost view = { λ w. record { correction = w.correction; before = w.was; after = w.now } };

    ghost invariant = { λ w. (1 ≤ w.correction) × (w.correction ≤ 10) };

    ghost inverse = { λ n. record { correction = n.correction; was = n.before; now = n.after } };
}

impl Warning {
    /// What every warning keeps, for callers that see it as one value. It does nothing.
    pub fn show(&self)
        ensures from { 1 ≤ self.entry.now.correction }
        ensures to { self.entry.now.correction ≤ 10 }
    {
        let _ = &self.correction;
    }
}

/// The warnings of a configuration, in the order of the corrections.
pub type Warnings = Sequence<Warning>;
