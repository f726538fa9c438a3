//! The clock that goes with the front of a script.
ghost use Rattle.std.specs.Prelude.{◌≡◌, Some, [], ◌∷◌, ◌++◌, length, max};
ghost use Rattle.mpm_base.specs.Clock.{Answers, AreEchoes, greatest_answer};
ghost use Rattle.mpm_base.specs.Count.{RisesByOne};

use http_server::Log;
use mpm_base::{Clock, Moment};
use std::marker::Model;

/// The clock of a script: it is the moment at which the front stands.
#[derive(Drop)]
pub struct ScriptClock {
    // Kept for clauses alone: it takes no memory.
    calls: Log<Moment, Moment>,
}

impl Model for ScriptClock {
    ghost use Rattle.std.specs.Prelude.{List, ℕ};

    ghost Value = { List (ℕ × ℕ) };

    ghost view = { λ c. c.calls.items };

    ghost use Rattle.mpm_base.specs.Clock.{AreEchoes};

    ghost invariant = { λ c. AreEchoes c.calls.items };
}

impl ScriptClock {
    /// A clock that has not answered yet.
    pub fn make() -> ScriptClock
        ensures { result ≡ [] }
    {
        ScriptClock { calls: Log::new() }
    }

    /// What holds of every such clock.
    pub fn show(&self)
        ensures { AreEchoes self.now }
    {
        let _ = &self.calls;
    }
}

impl Clock for ScriptClock {
    ghost use Rattle.std.specs.Prelude.{length};
    ghost use Rattle.mpm_base.specs.Clock.{greatest_answer};

    ghost told = { λ c. Some c };

    ghost greatest = { λ c. greatest_answer c };

    ghost asked = { λ c. length c };

    fn now(&mut self, at: Moment) -> Moment
        ensures told { Answers (Some self.old) (Some self.new) at result }
        ensures most { greatest_answer self.new ≡ max (greatest_answer self.old) result }
        ensures asked { RisesByOne (length self.old) (length self.new) }
        ensures same { result ≡ at }
    {
        self.calls = self.calls.and(&at, &at);
        at
    }
}
