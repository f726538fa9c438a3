//! Seconds.
ghost use Rattle.std.specs.Prelude.{◌≡◌};
ghost use Rattle.mpm_base.specs.Moment.{IsSecond, second_at_most, second_of};

use crate::conn::Moment;
use std::marker::Model;

/// The last second of the year 9999.
const GREATEST_SECOND: u64 = 253_402_300_799;

/// A second since 1970-01-01 00:00:00 UTC, of the years up to 9999, as contracts see it.
#[derive(Debug, Drop)]
pub struct Second {
    number: u64,
}

impl Model for Second {
    ghost use Rattle.std.specs.Prelude.{ℕ};
    ghost use Rattle.mpm_base.specs.Moment.{IsSecond};

    ghost Value = { ℕ };

    ghost view = { λ s. s.number };

    ghost invariant = { λ s. IsSecond s.number };
}

impl Second {
    /// The second of that number. A later one than the last is the last.
    pub fn of(number: u64) -> Second
        ensures { result ≡ second_at_most number }
    {
        Second {
            number: number.min(GREATEST_SECOND),
        }
    }

    /// The second in which the moment lies.
    pub fn at(moment: Moment) -> Second
        ensures { result ≡ second_of moment }
    {
        Second::of(moment / 1000)
    }

    /// Its number.
    pub fn number(&self) -> u64
        ensures number { result ≡ self.now }
        ensures bound { IsSecond result }
    {
        self.number
    }

    /// The same once more.
    pub fn copy(&self) -> Second
        ensures { result ≡ self.now }
    {
        Second {
            number: self.number,
        }
    }
}
