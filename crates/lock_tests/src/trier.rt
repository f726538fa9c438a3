//! A carrier that tries for a permit.
ghost use Rattle.std.specs.Prelude.{◌≡◌, true, false, Some, None};
ghost use Rattle.board_lock.specs.Passes.{HasNoTurn};
ghost use Rattle.table_rule.specs.Views.{empty_hand};

use board_lock::{Carrier, Shared};
use idle_workers::{release, reserve};
use lock_examples::{Player, Toy};

/// A carrier that tries for a permit of the child.
#[derive(Drop)]
pub struct Trier<'a> {
    shared: &'a Shared<Box<Toy>>,
    carrier: Carrier<Box<Toy>>,
    has_permit: bool,
    ghost own: { carrier.seat.table_id ≡ shared.now.table.shared.table_id },
    ghost no_turn: { HasNoTurn carrier.seat.me },
    ghost row: { carrier.seat.me.0.row ≡ None },
    ghost free: { has_permit ≡ false → carrier.seat.me.0.hand ≡ empty_hand },
    ghost permit: { has_permit ≡ true → carrier.seat.me.0.hand ≡ record empty_hand { permit = Some 0 } },
}

impl<'a> Trier<'a> {
    /// The player, which has no permit yet.
    pub fn of(player: Player<'a>) -> Trier<'a> {
        let Player { shared, pass } = player;
        Trier {
            shared,
            carrier: pass,
            has_permit: false,
        }
    }

    /// Reserves a worker, where it has none: whether it got a permit.
    pub fn reserve(&mut self) -> bool {
        if self.has_permit || !reserve(self.shared, &mut self.carrier, 0) {
            return false;
        }
        self.has_permit = true;
        true
    }

    /// Gives its permit back, where it has one.
    pub fn release(&mut self) {
        if self.has_permit {
            release(self.shared, &mut self.carrier, 0);
            self.has_permit = false;
        }
    }
}
