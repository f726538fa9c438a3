//! Orders that let the server go on.
//! Why it is so stands in docs/DECISIONS.md: 140, Parts of the listener's round.
ghost use Rattle.std.specs.Prelude.{◌≡◌, None, false, true, IfErr, OnOk};
ghost use Rattle.conn_machine.specs.States.{is_halted};
ghost use Rattle.conn_machine.specs.Table.{is_allowed};
ghost use Rattle.conn_machine.specs.declared.event.Event.TheVariants as event;
ghost use Rattle.board_book.specs.Faults.{IsRefusedFor};
ghost use Rattle.board_turns.specs.Books.{book_of, state_of};
ghost use Rattle.board_turns.specs.Turns.{IsListener};
ghost use Rattle.listener_turns.specs.Looks.{lets_go_on};
ghost use Rattle.listener_parts.specs.Orders.{DoesNoOrder, DoesOrder};

use board::laws::generations_keep_their_editions;
use board::{Board, BoardFault};
use board_lock::{Pass, Shared};
use board_turns::turns_rest_on_these;
use conn_machine::Commanded;
use conn_machine::laws_between_turns::{
    others_leave_the_rest_to_the_listener, own_events_tell_the_frame,
    own_events_tell_what_was_taken,
};
use conn_state::Known;
use listener_turns::command;
use mpm_base::Link;
use std::sync::Wait;

/// Does the order: a generation begins, a restart is refused, or no connection is taken any more. Whether the table allows it the listener
/// knows by what it has seen, as nobody else changes that.
pub fn order<R: Wait, L: Link, N: Known>(
    rt: &R,
    shared: &Shared<Board<L, N>>,
    pass: &mut Pass<Board<L, N>>,
    order: Commanded,
) -> Result<(), BoardFault>
    requires own { pass.old.seat.table_id ≡ shared.now.table.shared.table_id }
    requires listener { IsListener pass.old.seat.me }
    requires none { pass.old.seat.me.0.row ≡ None }
    requires allowed { is_halted (state_of pass.old.seat.me.0).going ≡ false
        → is_allowed (state_of pass.old.seat.me.0) (event.Command order) ≡ true }
    requires goes_on { lets_go_on order ≡ true }
    ensures own { pass.new.seat.table_id ≡ pass.old.seat.table_id }
    ensures listener { IsListener pass.new.seat.me }
    ensures does { OnOk result (DoesOrder order pass.old.seat.me.0 pass.new.seat.me.0) }
    ensures credits { pass.new.seat.me.0.credits ≡ pass.old.seat.me.0.credits }
    ensures err { IfErr result (λ _. DoesNoOrder pass.old.seat.me.0 pass.new.seat.me.0) }
    ensures why { IfErr result (λ fault. IsRefusedFor fault (book_of pass.new.seat.me.0)) }
{
    turns_rest_on_these();
    others_leave_the_rest_to_the_listener();
    own_events_tell_the_frame();
    own_events_tell_what_was_taken();
    generations_keep_their_editions();
    command(rt, shared, pass, order)
}
