//! A small value that has texts, and no entries.
ghost use Rattle.std.specs.Prelude.{◌≡◌, ◌≤◌, []};
ghost use Rattle.board_lock.specs.Passes.{HasNoTurn};

use board_lock::{Pass, Shared};
use conn_machine::Kept;
use std::sync::Wait;

/// A value that has so many texts, each of them empty.
#[derive(Debug, Drop)]
pub struct Texts {
    pub count: u64,
    pub passes: u32,
}

impl Kept for Texts {
    ghost use Rattle.lock_examples.specs.Texts.{texts_ledger};

    ghost ledger = { texts_ledger };

    fn length(&self) -> u64 {
        0
    }
}

impl Texts {
    /// Adds a text, while there are few.
    pub fn add(&mut self)
        ensures count { self.old.count ≤ self.new.count }
        ensures passes { self.new.passes ≡ self.old.passes }
    {
        self.count = self.count.saturating_add(1);
    }

    /// Folds: no text is left.
    pub fn fold(&mut self)
        ensures { self.new ≡ record self.old { count = 0 } }
    {
        self.count = 0;
    }
}

/// A turn of any pass that adds a text.
pub fn writes<R: Wait>(rt: &R, shared: &Shared<Texts>, pass: &mut Pass<Texts>)
    requires own { pass.old.seat.table_id ≡ shared.now.table.shared.table_id }
    requires free { HasNoTurn pass.old.seat.me }
    ensures own { pass.new.seat.table_id ≡ pass.old.seat.table_id }
    ensures free { HasNoTurn pass.new.seat.me }
    ensures seen { pass.new.seat.me.0.seen ≡ [] }
{
    let mut turn = shared.turn(rt, pass);
    turn.kept.add();
    shared.done(pass, turn);
}

/// A turn of pass 0 that folds.
pub fn folds_texts<R: Wait>(rt: &R, shared: &Shared<Texts>, pass: &mut Pass<Texts>)
    requires own { pass.old.seat.table_id ≡ shared.now.table.shared.table_id }
    requires free { HasNoTurn pass.old.seat.me }
    requires number { pass.old.seat.me.0.who.number ≡ 0 }
    ensures own { pass.new.seat.table_id ≡ pass.old.seat.table_id }
    ensures free { HasNoTurn pass.new.seat.me }
{
    let mut turn = shared.turn(rt, pass);
    turn.kept.fold();
    shared.done(pass, turn);
}
