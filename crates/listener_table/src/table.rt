//! The table.
ghost use Rattle.std.specs.Prelude.{◌≡◌, ℕ, None, length, slice_index};
ghost use Rattle.board_turns.specs.Books.{book_of, state_of};
ghost use Rattle.board_turns.specs.Turns.{IsListener};
ghost use Rattle.conn_machine.specs.Folds.{opening_record};
ghost use Rattle.conn_machine.specs.Made.{AreMade};
ghost use Rattle.conn_machine.specs.Sound.{IsSound};
ghost use Rattle.conn_machine.specs.declared.state.Going.TheVariants.{Serving};
ghost use Rattle.board_book.specs.Book.{row_in};
ghost use Rattle.listener_parts.specs.Rounds.{OpenedWithNone};
ghost use Rattle.listener_turns.specs.Folds.{HasDropped};

use crate::laws::table_rests_on_these;
use board::Board;
use board_lock::{Pass, Room};
use conn_machine::Going;
use conn_state::Known;
use listener_hands::WorksHere;
use listener_parts::Credits;
use mpm_base::{Bell, Gate, Link, Moment};
use std::marker::Model;
use worker_threads::Hands;

/// The board under its lock, as its listener has it.
#[derive(Drop)]
pub struct Table<'a, M: Room, L: Link, N: Known, B: Bell, G: Gate> {
    pub(crate) hands: &'a Hands<'a, M, L, N, B, G>,
    pub(crate) pass: Pass<Board<L, N>>,
    pub(crate) credits: Credits,
    pub(crate) works: WorksHere<'a, 'a, M, L, N, B, G>,
    pub(crate) moment: Moment,
    pub(crate) newest: u32,
    pub(crate) going: Going,
}

impl<'a, M: Room, L: Link, N: Known, B: Bell, G: Gate> Model for Table<'a, M, L, N, B, G> {
    ghost use Rattle.std.specs.Prelude.{◌≡◌};
    ghost use Rattle.table_rule.specs.declared.view.View.{View};
    ghost use Rattle.listener_table.specs.Table.{IsTable};

    ghost Value = { View };

    ghost view = { λ t. t.pass.seat.me.0 };

    ghost invariant = { λ t. (t.pass.seat.table_id ≡ M.table)
        × IsTable N.known t.pass.seat.me t.credits t.moment t.newest t.going };
}

impl<'a, M: Room, L: Link, N: Known, B: Bell, G: Gate> Table<'a, M, L, N, B, G> {
    /// The table of a lock that was just opened.
    pub fn make(
        hands: &'a Hands<'a, M, L, N, B, G>,
        pass: Pass<Board<L, N>>,
        works: WorksHere<'a, 'a, M, L, N, B, G>,
    ) -> Table<'a, M, L, N, B, G>
        requires own { pass.seat.table_id ≡ M.table }
        requires listener { IsListener pass.seat.me }
        requires none { pass.seat.me.0.row ≡ None }
        requires moment { (state_of pass.seat.me.0).moment ≡ 0 }
        requires newest { (state_of pass.seat.me.0).newest ≡ 0 }
        requires going { (state_of pass.seat.me.0).going ≡ Serving }
        requires credits { (child : ℕ) → slice_index pass.seat.me.0.credits child ≡ 0 }
        requires full { length pass.seat.me.0.credits ≡ 32 }
        requires opened { OpenedWithNone pass.seat.me.0 }
        requires sound { IsSound pass.seat.me.0.origin.state }
        requires dropped { HasDropped N.known pass.seat.me.0 }
        ensures { result ≡ pass.seat.me.0 }
    {
        Table {
            hands,
            pass,
            credits: Credits::none(),
            works,
            moment: 0,
            newest: 0,
            going: Going::Serving,
        }
    }

    /// What holds of each table: each entry that pass 0 has seen was made by its pass as it might be, from a sound state on, so the state behind
    /// them is sound; pass 0 has no connection, and no pass had one as the server opened. Does nothing.
    pub fn show(&self)
        ensures number { self.now.who.number ≡ 0 }
        ensures none { self.now.row ≡ None }
        ensures no_conns { OpenedWithNone self.now }
        ensures made { AreMade self.now.origin.state (opening_record self.now.origin.passes) self.now.seen }
        ensures opened { IsSound self.now.origin.state }
        ensures sound { IsSound (state_of self.now) }
        ensures row { row_in 0 (book_of self.now) ≡ None }
    {
        table_rests_on_these();
        let _ = &self.moment;
    }
}
