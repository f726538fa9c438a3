//! How a server goes down.
ghost use Rattle.std.specs.Prelude.{◌≡◌, [], None, Some, false, true, if◌then◌else◌};
ghost use Rattle.board_book.specs.ClosedDown.{HasNoLive, IsClosedDown};
ghost use Rattle.board_turns.specs.Books.{state_of};
ghost use Rattle.conn_machine.specs.States.{is_halted};
ghost use Rattle.conn_machine.specs.Table.{is_allowed};
ghost use Rattle.conn_machine.specs.declared.event.Commanded.TheVariants.{Stop};
ghost use Rattle.conn_machine.specs.declared.event.Event.TheVariants as event;
ghost use Rattle.conn_machine.specs.declared.state.Going.TheVariants.{Halted};
ghost use Rattle.listener_parts.specs.Closing.{ClosesDown, IsOwnReason, halts_for};
ghost use Rattle.listener_parts.specs.Times.{KeepsTime, is_ended_at};
ghost use Rattle.conn_machine.specs.Frames.{frame_of};
ghost use Rattle.listener_parts.specs.Did.{Did, LeavesAlone, StandsAs};
ghost use Rattle.listener_hands.specs.Closed.{ClosesAs};

use crate::kept::going_behind;
use crate::laws::table_rests_on_these;
use crate::table::Table;
use board::Board;
use board_lock::Room;
use conn_machine::{Going, Why};
use conn_state::Known;
use listener_hands::close;
use listener_parts::{close_down, stop};
use mpm_base::{Bell, Gate, Link};
use std::sync::Wait;

impl<'a, M: Room, L: Link, N: Known, B: Bell, G: Gate> Table<'a, M, L, N, B, G> {
    /// Stops the server for the reason, where it may: whether it did.
    pub fn stop<R: Wait>(&mut self, rt: &R, why: Why) -> bool
        ensures did { Did (if result then halts_for (Some why) else []) None self.old
            self.new }
        ensures going { result ≡ true → (state_of self.new).going ≡ Halted why }
        ensures moment { (state_of self.new).moment ≡ (state_of self.old).moment }
        ensures accepted { (state_of self.new).accepted ≡ (state_of self.old).accepted }
        ensures stays { result ≡ false → LeavesAlone (state_of self.old) (state_of self.new) }
        ensures refused { result ≡ false
            → is_allowed (state_of self.new) (event.Command (Stop why)) ≡ false }
        ensures may { IsOwnReason why
            → is_allowed (state_of self.old) (event.Command (Stop why)) ≡ true
            → result ≡ true }
        ensures alone { HasNoLive (state_of self.old)
            → is_allowed (state_of self.old) (event.Command (Stop why)) ≡ true
            → result ≡ true }
        ensures timely { is_ended_at (frame_of (state_of self.old)) ≡ false
            → KeepsTime self.old self.new }
    {
        table_rests_on_these();
        let going = self.going;
        let stopped = stop(rt, self.hands.shared, &mut self.pass, why);
        self.going = going_behind(going, Going::Halted(why), stopped);
        stopped
    }

    /// Closes each connection that waits, has the workers end, and lets go of each child, once the server has stopped.
    pub fn close_down<R: Wait>(&mut self, rt: &R)
        requires { is_halted (state_of self.old).going ≡ true }
        ensures down { ClosesDown self.old self.new }
        ensures rest { StandsAs (state_of self.old) (state_of self.new) }
        ensures closed { IsClosedDown (state_of self.new) }
        ensures timely { KeepsTime self.old self.new }
    {
        table_rests_on_these();
        close_down(
            rt,
            self.hands.shared,
            &mut self.pass,
            &mut self.credits,
            &mut self.works,
        );
    }

    /// The board, once no connection is live, and each child is gone.
    pub fn close<R: Wait>(self, rt: &R) -> Board<L, N>
        requires { IsClosedDown (state_of self) }
        ensures { ClosesAs N.known self.entry result }
    {
        let Table {
            hands,
            pass,
            credits: _,
            works: _,
            moment: _,
            newest: _,
            going: _,
        } = self;
        close(rt, hands.shared, pass)
    }
}
