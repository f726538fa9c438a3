//! Permits of the small value's child.
ghost use Rattle.std.specs.Prelude.{◌≡◌, ◌<◌, true, length, slice_index};
ghost use Rattle.board_lock.specs.Passes.{HasNoTurn, IsFree};

use crate::toy::Toy;
use board_lock::{Carrier, Pass, Shared};
use conn_machine::Kept;
use idle_workers::{credit, release, reserve};
use std::sync::Wait;

/// Reserves a worker of child 0 so often, and releases it again where it got one: how often it got one.
pub fn reserves(shared: &Shared<Box<Toy>>, carrier: &mut Carrier<Box<Toy>>, times: u32) -> u32
    requires own { carrier.old.seat.table_id ≡ shared.now.table.shared.table_id }
    requires free { IsFree carrier.old.seat.me }
    ensures own { carrier.new.seat.table_id ≡ carrier.old.seat.table_id }
    ensures free { IsFree carrier.new.seat.me }
{
    let mut got = 0;
    for _ in 0..times {
        if reserves_once(shared, carrier) {
            got += 1;
        }
    }
    got
}

/// Reserves a worker of child 0, and releases it again where it got one: whether it did.
pub fn reserves_once(shared: &Shared<Box<Toy>>, carrier: &mut Carrier<Box<Toy>>) -> bool
    requires own { carrier.old.seat.table_id ≡ shared.now.table.shared.table_id }
    requires free { IsFree carrier.old.seat.me }
    ensures own { carrier.new.seat.table_id ≡ carrier.old.seat.table_id }
    ensures free { IsFree carrier.new.seat.me }
    ensures who { carrier.new.seat.me.0.who ≡ carrier.old.seat.me.0.who }
{
    if !reserve(shared, carrier, 0) {
        return false;
    }
    release(shared, carrier, 0);
    true
}

/// A turn of pass 0 that gives child 0 the credit of its two workers, where it was started: whether it did.
pub fn credits<R: Wait>(rt: &R, shared: &Shared<Box<Toy>>, pass: &mut Pass<Box<Toy>>) -> bool
    requires own { pass.old.seat.table_id ≡ shared.now.table.shared.table_id }
    requires free { HasNoTurn pass.old.seat.me }
    requires number { pass.old.seat.me.0.who.number ≡ 0 }
    requires none { slice_index pass.old.seat.me.0.credits 0 ≡ 0 }
    requires room { 0 < length pass.old.seat.me.0.credits }
    ensures own { pass.new.seat.table_id ≡ pass.old.seat.table_id }
    ensures free { HasNoTurn pass.new.seat.me }
    ensures who { pass.new.seat.me.0.who ≡ pass.old.seat.me.0.who }
    ensures credit { result ≡ true → slice_index pass.new.seat.me.0.credits 0 ≡ 2 }
{
    let turn = shared.turn(rt, pass);
    if turn.kept.length() == 0 {
        shared.done(pass, turn);
        return false;
    }
    credit(shared, pass, 0, 2);
    shared.done(pass, turn);
    true
}
