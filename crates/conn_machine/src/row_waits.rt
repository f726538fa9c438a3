//! What a row keeps of its waits.
ghost use Rattle.std.specs.Prelude.{◌≡◌, [], ◌∷◌, ◌++◌};

use http_server::Log;
use mpm_base::Kind;
use std::fmt;
use std::marker::Model;

/// What a row was parked for so far, in order: a list of kinds, as contracts see it. The program keeps nothing of it, and no memory.
#[derive(Drop)]
pub struct RowWaits {
    // Kept for clauses alone.
    log: Log<Kind, ()>,
}

impl Model for RowWaits {
    ghost use Rattle.std.specs.Prelude.{List};
    ghost use Rattle.mpm_base.specs.declared.conn.Kind.{Kind};

    ghost Value = { List Kind };

    ghost use Rattle.conn_machine.specs.WaitsInside.{logged_waits};

    ghost view = { λ w. logged_waits w.log.items };
}

impl RowWaits {
    /// No wait.
    pub fn make() -> RowWaits
        ensures { result ≡ [] }
    {
        RowWaits { log: Log::new() }
    }

    /// Puts a further wait, for this, at the end.
    pub fn add(&mut self, kind: Kind)
        ensures { self.new ≡ self.old ++ kind ∷ [] }
    {
        self.log = self.log.and(&kind, &());
    }

    /// There is no wait any more.
    pub fn clear(&mut self)
        ensures { self.new ≡ [] }
    {
        self.log = Log::new();
    }
}

impl fmt::Debug for RowWaits {
    fn fmt<W: fmt::Write>(&self, f: &mut fmt::Formatter<W>) -> fmt::Result {
        f.debug_struct("RowWaits").finish()
    }
}
