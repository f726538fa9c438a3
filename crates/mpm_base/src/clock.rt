//! The clock of the server.

use crate::conn::Moment;

/// Says which moment it is.
///
/// What a clock tells of itself (`told`) is there only where the object tells it: each call, the moment that it was told and
/// its answer. One that tells does so to its end. How often it was asked, and its greatest answer, are there for every clock.
pub trait Clock {
    ghost use Rattle.std.specs.Prelude.{◌≡◌, Option, List, ℕ, max};
    ghost use Rattle.mpm_base.specs.Clock.{Answers};
    ghost use Rattle.mpm_base.specs.Count.{RisesByOne};

    /// Its calls, in order: the moment that each was told, and its answer.
    ghost told: { Self → Option (List (ℕ × ℕ)) };

    /// The greatest of its answers so far.
    ghost greatest: { Self → ℕ };

    /// How often it was asked.
    ghost asked: { Self → ℕ };

    /// The moment that it is, where the front stands at the moment `at`.
    fn now(&mut self, at: Moment) -> Moment
        ensures answers { Answers (told self.old) (told self.new) at result }
        ensures most { greatest self.new ≡ max (greatest self.old) result }
        ensures asked { RisesByOne (asked self.old) (asked self.new) };
}
