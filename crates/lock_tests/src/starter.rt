//! The pass that starts the small value's child.
ghost use Rattle.std.specs.Prelude.{◌≡◌, slice_index};
ghost use Rattle.board_lock.specs.Passes.{HasNoTurn};

use board_lock::{Pass, Shared, number};
use idle_workers::{idle, uncredit};
use lock_examples::{Player, Toy, credits, folds, goes_on};
use std::sync::Wait;

/// Pass 0, which started the child, and gave it the credit of its two workers.
#[derive(Drop)]
pub struct Starter<'a> {
    shared: &'a Shared<Box<Toy>>,
    pass: Pass<Box<Toy>>,
    ghost own: { pass.seat.table_id ≡ shared.now.table.shared.table_id },
    ghost free: { HasNoTurn pass.seat.me },
    ghost first: { pass.seat.me.0.who.number ≡ 0 },
    ghost credit: { slice_index pass.seat.me.0.credits 0 ≡ 2 },
}

/// What is left of the permits in the end: how many workers nobody has a permit of, whether the credit could be taken back, and how many
/// there are then.
#[derive(Clone, Copy)]
pub struct Left {
    pub idle: u32,
    pub uncredited: bool,
    pub idle_behind: u32,
}

impl<'a> Starter<'a> {
    /// The player starts the child, where it has pass 0.
    pub fn begin<R: Wait>(rt: &R, player: Player<'a>) -> Option<Starter<'a>> {
        let Player { shared, mut pass } = player;
        if number(&pass) != 0 {
            return None;
        }
        goes_on(rt, shared, &mut pass);
        if credits(rt, shared, &mut pass) {
            Some(Starter { shared, pass })
        } else {
            None
        }
    }

    /// Makes the next step, where it is its own, in a turn that folds or in another one: whether it made one.
    pub fn goes_on<R: Wait>(&mut self, rt: &R, is_fold: bool) -> bool {
        if is_fold {
            folds(rt, self.shared, &mut self.pass)
        } else {
            goes_on(rt, self.shared, &mut self.pass)
        }
    }

    /// How many workers nobody has a permit of.
    pub fn idle(&mut self) -> u32 {
        idle(self.shared, &mut self.pass, 0)
    }

    /// Takes the credit back, where no permit is out.
    pub fn leave(self) -> Left {
        let Starter { shared, mut pass } = self;
        let idle_before = idle(shared, &mut pass, 0);
        let uncredited = uncredit(shared, &mut pass, 0, 2);
        let idle_behind = idle(shared, &mut pass, 0);
        Left {
            idle: idle_before,
            uncredited,
            idle_behind,
        }
    }
}
