//! A lock with a board is opened.
ghost use Rattle.std.specs.Prelude.{◌≡◌, ◌+◌, ◌≤◌, ℕ, IfOk, Some, true, slice_get, vec_len};
ghost use Rattle.mpm_base.specs.Shape.{is_in_bounds};
ghost use Rattle.board_book.specs.ClosedDown.{HasNoLive};
ghost use Rattle.conn_machine.specs.Sound.{IsSound};
ghost use Rattle.conn_machine.specs.States.{opening_state};
ghost use Rattle.board_turns.specs.Books.{state_of};
ghost use Rattle.board_turns.specs.Turns.{IsListener};
ghost use Rattle.listener_parts.specs.Rounds.{OpenedWithNone};
ghost use Rattle.listener_turns.specs.Folds.{HasDropped};
ghost use Rattle.listener_hands.specs.Opened.{IsNumberedBelow, OpensAt, opening_origin};

use board::Board;
use board_lock::{Carrier, Pass, Shared};
use conn_machine::laws::{each_pass_has_its_own_connection, events_keep_states_sound};
use conn_machine::laws_of_runs::folds_are_one_fold;
use conn_state::Known;
use mpm_base::{Link, NoMemory, Shape};
use std::alloc::Global;

/// A lock with a board without connections, the pass that listens, and the carriers, the one with the greatest number first.
#[derive(Drop)]
pub struct Opened<L: Link, N: Known> {
    pub shared: Shared<Board<L, N>>,
    pub pass: Pass<Board<L, N>>,
    pub carriers: Vec<Carrier<Board<L, N>>>,
}

/// Opens a lock for so many slots, child numbers and passes, of which one listens and each other one may carry. Takes the room that stopping the
/// server needs.
pub fn open<L: Link, N: Known>(
    alloc: Global,
    slots: u32,
    children: u32,
    passes: u32,
    shape: Shape,
) -> Result<Opened<L, N>, NoMemory>
    requires slots { (1 ≤ slots) × (slots ≤ 8192) }
    requires children { (1 ≤ children) × (children ≤ 32) }
    requires passes { (1 ≤ passes) × (passes ≤ 4099) }
    requires shape { is_in_bounds shape ≡ true }
    ensures own { IfOk result
        (λ o. o.pass.seat.table_id ≡ o.shared.table.shared.table_id) }
    ensures listener { IfOk result (λ o. IsListener o.pass.seat.me) }
    ensures opens { IfOk result
        (λ o. OpensAt (opening_origin slots children passes shape) o.pass.seat.me.0) }
    ensures state { IfOk result
        (λ o. state_of o.pass.seat.me.0 ≡ opening_state slots children shape) }
    ensures opened { IfOk result (λ o. OpenedWithNone o.pass.seat.me.0) }
    ensures none { IfOk result (λ o. HasNoLive (state_of o.pass.seat.me.0)) }
    ensures sound { IfOk result (λ o. IsSound o.pass.seat.me.0.origin.state) }
    ensures dropped { IfOk result (λ o. HasDropped N.known o.pass.seat.me.0) }
    ensures count { IfOk result (λ o. vec_len o.carriers + 1 ≡ passes) }
    ensures theirs { IfOk result
        (λ o. (i : ℕ) (c : _)
        → slice_get o.carriers.items i ≡ Some c
        → c.seat.table_id ≡ o.shared.table.shared.table_id) }
    ensures numbered { IfOk result
        (λ o. (i : ℕ) (c : _)
        → slice_get o.carriers.items i ≡ Some c
        → IsNumberedBelow (vec_len o.carriers) i c.seat.me) }
{
    each_pass_has_its_own_connection();
    events_keep_states_sound();
    folds_are_one_fold();
    let board = Board::make(alloc, slots, children, passes, shape)?;
    match Shared::make(alloc, board, passes) {
        Ok((shared, mut all)) => {
            all.reverse();
            let Some(pass) = all.pop() else {
                unreachable!()
            };
            Ok(Opened {
                shared,
                pass,
                carriers: all,
            })
        }
        Err((fault, _)) => Err(fault),
    }
}
