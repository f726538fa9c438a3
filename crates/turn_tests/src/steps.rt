//! What the listener of a test does without a connection: a generation begins, the child is let go of and starts, slots are signalled, and the
//! history is folded.
ghost use Rattle.std.specs.Prelude.{◌≡◌, IfNone, IfSome, if◌then◌else◌};
ghost use Rattle.board_turns.specs.Turns.{IsListener};
ghost use Rattle.turn_tests.specs.Passes.{HasCredit};

use crate::opening::{CHILD, SHAPE, TestBoard};
use board_lock::{Pass, Shared};
use conn_machine::{BoxedShape, Commanded};
use idle_workers::uncredit;
use listener_turns::{
    command, credit_child, fold, retire_child, signal_all, start_child, take_look,
};
use std::alloc::Global;
use std::sync::Wait;

/// A new generation begins, of the same shape: whether it does.
pub fn renews<R: Wait>(
    rt: &R,
    alloc: Global,
    shared: &Shared<TestBoard>,
    pass: &mut Pass<TestBoard>,
) -> bool
    requires own { pass.old.seat.table_id ≡ shared.now.table.shared.table_id }
    requires listener { IsListener pass.old.seat.me }
    ensures own { pass.new.seat.table_id ≡ pass.old.seat.table_id }
    ensures listener { IsListener pass.new.seat.me }
    ensures credits { pass.new.seat.me.0.credits ≡ pass.old.seat.me.0.credits }
    ensures row { pass.new.seat.me.0.row ≡ pass.old.seat.me.0.row }
{
    let look = take_look(rt, shared, pass);
    let Ok(shape) = BoxedShape::make(alloc, SHAPE) else {
        return false;
    };
    if !look.going.is_serving() || look.newest == u32::MAX {
        return false;
    }
    match command(rt, shared, pass, Commanded::Graceful(shape)) {
        Ok(()) => true,
        Err(_) => false,
    }
}

/// The child starts, where it is the lowest that is gone, and gets the credit of its workers: how many they are. None where it doesn't.
pub fn starts<R: Wait>(
    rt: &R,
    shared: &Shared<TestBoard>,
    pass: &mut Pass<TestBoard>,
) -> Option<u32>
    requires own { pass.old.seat.table_id ≡ shared.now.table.shared.table_id }
    requires listener { IsListener pass.old.seat.me }
    requires none { HasCredit 0 pass.old.seat.me.0.credits }
    ensures own { pass.new.seat.table_id ≡ pass.old.seat.table_id }
    ensures listener { IsListener pass.new.seat.me }
    ensures row { pass.new.seat.me.0.row ≡ pass.old.seat.me.0.row }
    ensures credited { IfSome result (λ credit. HasCredit credit pass.new.seat.me.0.credits) }
    ensures same { IfNone result (pass.new.seat.me.0.credits ≡ pass.old.seat.me.0.credits) }
{
    if !starts_first(rt, shared, pass) {
        return None;
    }
    Some(credit_child(rt, shared, pass, CHILD))
}

/// The lowest child that is gone starts: whether it is the one that a test has.
fn starts_first<R: Wait>(rt: &R, shared: &Shared<TestBoard>, pass: &mut Pass<TestBoard>) -> bool
    requires own { pass.old.seat.table_id ≡ shared.now.table.shared.table_id }
    requires listener { IsListener pass.old.seat.me }
    ensures own { pass.new.seat.table_id ≡ pass.old.seat.table_id }
    ensures listener { IsListener pass.new.seat.me }
    ensures credits { pass.new.seat.me.0.credits ≡ pass.old.seat.me.0.credits }
    ensures row { pass.new.seat.me.0.row ≡ pass.old.seat.me.0.row }
{
    match start_child(rt, shared, pass) {
        Ok(Some(started)) => started == CHILD,
        Ok(None) => false,
        Err(_) => false,
    }
}

/// The child's credit, which is this, is taken back, where nobody has a permit of it: whether it was.
pub fn takes_credit_back(
    shared: &Shared<TestBoard>,
    pass: &mut Pass<TestBoard>,
    credit: u32,
) -> bool
    requires own { pass.old.seat.table_id ≡ shared.now.table.shared.table_id }
    requires listener { IsListener pass.old.seat.me }
    requires credit { HasCredit credit pass.old.seat.me.0.credits }
    ensures own { pass.new.seat.table_id ≡ pass.old.seat.table_id }
    ensures listener { IsListener pass.new.seat.me }
    ensures row { pass.new.seat.me.0.row ≡ pass.old.seat.me.0.row }
    ensures credit { HasCredit (if result then 0 else credit) pass.new.seat.me.0.credits }
{
    uncredit(shared, pass, CHILD, credit)
}

/// The child, which has no credit, is let go of, where that may be: whether it was.
pub fn retires<R: Wait>(rt: &R, shared: &Shared<TestBoard>, pass: &mut Pass<TestBoard>) -> bool
    requires own { pass.old.seat.table_id ≡ shared.now.table.shared.table_id }
    requires listener { IsListener pass.old.seat.me }
    requires none { HasCredit 0 pass.old.seat.me.0.credits }
    ensures own { pass.new.seat.table_id ≡ pass.old.seat.table_id }
    ensures listener { IsListener pass.new.seat.me }
    ensures credits { pass.new.seat.me.0.credits ≡ pass.old.seat.me.0.credits }
    ensures row { pass.new.seat.me.0.row ≡ pass.old.seat.me.0.row }
{
    retire_child(rt, shared, pass, CHILD)
}

/// Something may have come for these slots: whether that was told of all of them.
pub fn signals<R: Wait>(
    rt: &R,
    shared: &Shared<TestBoard>,
    pass: &mut Pass<TestBoard>,
    slots: &[u32],
) -> bool
    requires own { pass.old.seat.table_id ≡ shared.now.table.shared.table_id }
    requires listener { IsListener pass.old.seat.me }
    ensures own { pass.new.seat.table_id ≡ pass.old.seat.table_id }
    ensures listener { IsListener pass.new.seat.me }
    ensures credits { pass.new.seat.me.0.credits ≡ pass.old.seat.me.0.credits }
    ensures row { pass.new.seat.me.0.row ≡ pass.old.seat.me.0.row }
{
    match signal_all(rt, shared, pass, slots) {
        Ok(()) => true,
        Err(_) => false,
    }
}

/// The history is folded, where that is due, or it is only looked at.
pub fn folds<R: Wait>(rt: &R, shared: &Shared<TestBoard>, pass: &mut Pass<TestBoard>, folding: bool)
    requires own { pass.old.seat.table_id ≡ shared.now.table.shared.table_id }
    requires listener { IsListener pass.old.seat.me }
    ensures own { pass.new.seat.table_id ≡ pass.old.seat.table_id }
    ensures listener { IsListener pass.new.seat.me }
    ensures credits { pass.new.seat.me.0.credits ≡ pass.old.seat.me.0.credits }
    ensures row { pass.new.seat.me.0.row ≡ pass.old.seat.me.0.row }
{
    if folding {
        let _ = fold(rt, shared, pass);
    } else {
        let _ = take_look(rt, shared, pass);
    }
}
