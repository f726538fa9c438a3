//! The slot that the next connection is taken into.
ghost use Rattle.std.specs.Prelude.{◌≡◌, ◌≢◌, Some, true, IfOk, IfErr, OnOk};
ghost use Rattle.conn_slots.specs.Slots.{IsNextName, next_name, vacant_count};
ghost use Rattle.conn_machine.specs.Table.{is_allowed};
ghost use Rattle.conn_machine.specs.declared.event.Event.TheVariants as event;
ghost use Rattle.board_book.specs.Faults.{IsNotTakenFor, IsOpen};
ghost use Rattle.board.specs.SlotsInside.{AreUsedAlike};

use board_book::{AcceptFault, Book};
use conn_machine::laws::connections_go_to_the_chosen_child;
use conn_slots::Slots;
use mpm_base::ConnName;

/// The name that the next connection is given, where one may be taken: that of a vacant slot. Wants no memory.
pub(crate) fn slot_for_accept<T>(book: &Book, slots: &Slots<T>) -> Result<ConnName, AcceptFault>
    requires { AreUsedAlike slots.now.slots book.now.state.rows }
    ensures ok { OnOk result (IsOpen book.now) }
    ensures allowed { IfOk result
        (λ name. is_allowed book.now.state (event.Accept name.slot) ≡ true) }
    ensures next { IfOk result (λ name. next_name slots.now ≡ Some name) }
    ensures unused { IfOk result (λ name. IsNextName slots.now.slots name) }
    ensures vacant { OnOk result (vacant_count slots.now.slots ≢ 0) }
    ensures why { IfErr result (λ fault. IsNotTakenFor fault book.now) }
{
    connections_go_to_the_chosen_child();
    book.show();
    let state = book.state();
    if state.going.is_halted() {
        return Err(AcceptFault::Halted);
    }
    if state.pick_child().is_none() {
        return Err(AcceptFault::NoChild);
    }
    match slots.next() {
        Some(name) => Ok(name),
        None => Err(AcceptFault::NoSlot),
    }
}
