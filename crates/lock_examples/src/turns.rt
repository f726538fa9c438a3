//! Turns with the small value.
ghost use Rattle.std.specs.Prelude.{◌≡◌, Some, None};
ghost use Rattle.board_lock.specs.Passes.{HasNoTurn, IsFree};

use crate::toy::Toy;
use board_lock::{Carrier, Pass, Shared};
use conn_machine::{Kept, laws};
use idle_workers::{release, reserve};
use std::sync::Wait;

/// A turn that adds nothing, with any value: how many entries there ever were.
pub fn looks<K: Kept, R: Wait>(rt: &R, shared: &Shared<K>, pass: &mut Pass<K>) -> u64
    requires own { pass.old.seat.table_id ≡ shared.now.table.shared.table_id }
    requires free { HasNoTurn pass.old.seat.me }
    ensures own { pass.new.seat.table_id ≡ pass.old.seat.table_id }
    ensures free { HasNoTurn pass.new.seat.me }
    ensures who { pass.new.seat.me.0.who ≡ pass.old.seat.me.0.who }
{
    let turn = shared.turn(rt, pass);
    let count = turn.kept.length();
    shared.done(pass, turn);
    count
}

/// A turn of pass 0 that makes a step, where the next one is its own: whether it did.
pub fn goes_on<R: Wait>(rt: &R, shared: &Shared<Box<Toy>>, pass: &mut Pass<Box<Toy>>) -> bool
    requires own { pass.old.seat.table_id ≡ shared.now.table.shared.table_id }
    requires free { HasNoTurn pass.old.seat.me }
    requires number { pass.old.seat.me.0.who.number ≡ 0 }
    ensures own { pass.new.seat.table_id ≡ pass.old.seat.table_id }
    ensures free { HasNoTurn pass.new.seat.me }
    ensures who { pass.new.seat.me.0.who ≡ pass.old.seat.me.0.who }
    ensures credits { pass.new.seat.me.0.credits ≡ pass.old.seat.me.0.credits }
{
    let mut turn = shared.turn(rt, pass);
    let made = turn.kept.step(0);
    shared.done(pass, turn);
    made
}

/// A turn of pass 0 that folds, and makes steps before and behind the fold, where they are its own: whether it made one.
pub fn folds<R: Wait>(rt: &R, shared: &Shared<Box<Toy>>, pass: &mut Pass<Box<Toy>>) -> bool
    requires own { pass.old.seat.table_id ≡ shared.now.table.shared.table_id }
    requires free { HasNoTurn pass.old.seat.me }
    requires number { pass.old.seat.me.0.who.number ≡ 0 }
    ensures own { pass.new.seat.table_id ≡ pass.old.seat.table_id }
    ensures free { HasNoTurn pass.new.seat.me }
    ensures who { pass.new.seat.me.0.who ≡ pass.old.seat.me.0.who }
    ensures credits { pass.new.seat.me.0.credits ≡ pass.old.seat.me.0.credits }
{
    let mut turn = shared.turn(rt, pass);
    let made = turn.kept.fold_between(0);
    shared.done(pass, turn);
    made
}

/// Pass 1 reserves a worker and serves the connection, where it is signalled, and gives the worker back: whether it served.
pub fn serves<R: Wait>(rt: &R, shared: &Shared<Box<Toy>>, carrier: &mut Carrier<Box<Toy>>) -> bool
    requires own { carrier.old.seat.table_id ≡ shared.now.table.shared.table_id }
    requires free { IsFree carrier.old.seat.me }
    requires number { carrier.old.seat.me.0.who.number ≡ 1 }
    ensures own { carrier.new.seat.table_id ≡ carrier.old.seat.table_id }
    ensures free { IsFree carrier.new.seat.me }
    ensures who { carrier.new.seat.me.0.who ≡ carrier.old.seat.me.0.who }
{
    if !reserve(shared, carrier, 0) {
        return false;
    }
    let served = serves_with_permit(rt, shared, carrier);
    release(shared, carrier, 0);
    served
}

/// A turn of pass 1, which has a permit, that makes a step, where the next one is its own: whether it did.
fn serves_with_permit<R: Wait>(
    rt: &R,
    shared: &Shared<Box<Toy>>,
    carrier: &mut Carrier<Box<Toy>>,
) -> bool
    requires own { carrier.old.seat.table_id ≡ shared.now.table.shared.table_id }
    requires free { HasNoTurn carrier.old.seat.me }
    requires number { carrier.old.seat.me.0.who.number ≡ 1 }
    requires permit { carrier.old.seat.me.0.hand.permit ≡ Some 0 }
    requires row { carrier.old.seat.me.0.row ≡ None }
    ensures own { carrier.new.seat.table_id ≡ carrier.old.seat.table_id }
    ensures free { HasNoTurn carrier.new.seat.me }
    ensures who { carrier.new.seat.me.0.who ≡ carrier.old.seat.me.0.who }
    ensures permit { carrier.new.seat.me.0.hand ≡ carrier.old.seat.me.0.hand }
    ensures row { carrier.new.seat.me.0.row ≡ None }
{
    laws::connections_stay_while_others_go_on();
    let mut turn = shared.turn(rt, carrier);
    let served = turn.kept.step(1);
    shared.done(carrier, turn);
    served
}
