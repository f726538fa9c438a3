//! The turn in which a connection is taken. The front is asked for its link before it, and the link is watched behind it.
//! Why it is so stands in docs/DECISIONS.md: 109, Turns of the listener.
ghost use Rattle.std.specs.Prelude.{◌≡◌, List, [], ◌∷◌, None, IfErr, IfOk};
ghost use Rattle.conn_machine.specs.declared.event.Entry.{Entry};
ghost use Rattle.conn_machine.specs.declared.event.Event.TheVariants as event;
ghost use Rattle.board.specs.Events.{IsTaken};
ghost use Rattle.board_book.specs.Faults.{IsNotTakenFor};
ghost use Rattle.board_turns.specs.Books.{book_of, state_of};
ghost use Rattle.board_turns.specs.Turns.{HadATurn, HadTurn, IsListener, state_found};
ghost use Rattle.listener_turns.specs.Holds.{HasTaken};

use board::{AcceptFault, Board, Taken};
use board_lock::{Pass, Shared};
use board_turns::turns_rest_on_these;
use conn_machine::laws::connections_go_to_the_chosen_child;
use conn_machine::laws_between_turns::others_leave_the_rest_to_the_listener;
use conn_state::Known;
use mpm_base::Link;
use std::sync::Wait;

/// The number of the pass that listens.
const LISTENER: u32 = 0;

/// A connection is taken into a vacant slot, for the child that takes one at this turn. Where none does, or no slot is vacant, the link stays
/// with the caller, who tries again in a further turn.
pub fn accept<R: Wait, L: Link, N: Known>(
    rt: &R,
    shared: &Shared<Board<L, N>>,
    pass: &mut Pass<Board<L, N>>,
) -> Result<Taken, AcceptFault>
    requires own { pass.old.seat.table_id ≡ shared.now.table.shared.table_id }
    requires listener { IsListener pass.old.seat.me }
    requires none { pass.old.seat.me.0.row ≡ None }
    ensures own { pass.new.seat.table_id ≡ pass.old.seat.table_id }
    ensures listener { IsListener pass.new.seat.me }
    ensures turn { IfOk result
        (λ taken. (found : List Entry)
        × HadTurn found (event.Accept taken.name.slot ∷ []) pass.old.seat.me.0
        pass.new.seat.me.0
        × IsTaken (state_found pass.old.seat.me.0 found) taken.name taken.child
        taken.generation) }
    ensures taken { IfOk result
        (λ taken. HasTaken pass.new.seat.me.0 taken.name taken.child taken.generation
        (state_of pass.old.seat.me.0).accepted) }
    ensures err { IfErr result (λ _. HadATurn [] pass.old.seat.me.0 pass.new.seat.me.0) }
    ensures why { IfErr result (λ fault. IsNotTakenFor fault (book_of pass.new.seat.me.0)) }
    ensures no_row { IfErr result (λ _. pass.new.seat.me.0.row ≡ None) }
{
    turns_rest_on_these();
    others_leave_the_rest_to_the_listener();
    connections_go_to_the_chosen_child();
    let mut turn = shared.turn(rt, pass);
    turn.kept.show();
    let taken = turn.kept.accept(LISTENER);
    turn.kept.show();
    shared.done(pass, turn);
    match taken {
        Ok(taken) => Ok(taken),
        Err(fault) => Err(fault),
    }
}
