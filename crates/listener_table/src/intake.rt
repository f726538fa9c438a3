//! Orders, connections that are taken and handed over, what the next wait is told, and folds.
ghost use Rattle.std.specs.Prelude.{◌≡◌, ◌<◌, [], None, false, true, IfErr, IfSome, OnOk};
ghost use Rattle.board_book.specs.AtRest.{IsAtRest};
ghost use Rattle.board_book.specs.Faults.{IsRefusedFor};
ghost use Rattle.board_book.specs.Finds.{next_deadline_of};
ghost use Rattle.board_turns.specs.Books.{book_of, state_of};
ghost use Rattle.conn_machine.specs.Folds.{opening_record};
ghost use Rattle.conn_machine.specs.Made.{AreMade};
ghost use Rattle.conn_machine.specs.Shown.{totals_of};
ghost use Rattle.conn_machine.specs.States.{is_serving};
ghost use Rattle.conn_machine.specs.Table.{greatest_generation, is_not_past};
ghost use Rattle.conn_machine.specs.declared.event.Commanded.TheVariants as commanded;
ghost use Rattle.mpm_base.specs.Shape.{is_in_bounds};
ghost use Rattle.conn_state.specs.Conn.{IsFresh};
ghost use Rattle.conn_state.specs.Known.{IsOfClient};
ghost use Rattle.listener_turns.specs.Looks.{IsSeenIn};
ghost use Rattle.listener_parts.specs.Did.{Did, LeavesAlone, OnlySees};
ghost use Rattle.listener_parts.specs.Orders.{DoesNoOrder, DoesOrder};
ghost use Rattle.listener_parts.specs.Rounds.{IsStill};
ghost use Rattle.listener_parts.specs.Times.{KeepsTime, is_ended_at};
ghost use Rattle.conn_machine.specs.Frames.{frame_of};
ghost use Rattle.listener_parts.specs.Taking.{FailsTaking, ServesNewest, TakesLink};

use crate::kept::{going_behind, newest_behind};
use crate::laws::table_rests_on_these;
use crate::table::Table;
use board::BoardFault;
use board_lock::Room;
use conn_machine::{BoxedShape, Commanded, Going, Refusal, Totals};
use conn_state::Known;
use file_table::Site;
use http_read::Limits;
use listener_parts::{Rest, fold_history, order, rest_of, take};
use listener_turns::{Look, take_look, totals};
use mpm_base::{Bell, Front, Gate, Link, Moment};
use std::alloc::Global;
use std::sync::{Arc, Wait};

impl<'a, M: Room, L: Link, N: Known, B: Bell, G: Gate> Table<'a, M, L, N, B, G> {
    /// How the server goes on.
    pub fn going(&self) -> Going
        ensures { result ≡ (state_of self.now).going }
    {
        self.going
    }

    /// The number of the newest generation.
    pub fn newest(&self) -> u32
        ensures { result ≡ (state_of self.now).newest }
    {
        self.newest
    }

    /// Begins a generation whose children have this shape.
    pub fn begin<R: Wait>(&mut self, rt: &R, shape: BoxedShape) -> Result<(), BoardFault>
        requires serving { is_serving (state_of self.old).going ≡ true }
        requires newest { (state_of self.old).newest < greatest_generation }
        requires shape { is_in_bounds shape ≡ true }
        ensures does { OnOk result
            (DoesOrder (commanded.Graceful shape) self.old self.new) }
        ensures err { IfErr result (λ _. DoesNoOrder self.old self.new) }
        ensures why { IfErr result (λ fault. IsRefusedFor fault (book_of self.new)) }
        ensures timely { KeepsTime self.old self.new }
        ensures number { self.new.who.number ≡ 0 }
        ensures made { AreMade self.new.origin.state
            (opening_record self.new.origin.passes) self.new.seen }
    {
        table_rests_on_these();
        let newest = self.newest;
        let begun = order(
            rt,
            self.hands.shared,
            &mut self.pass,
            Commanded::Graceful(shape),
        );
        self.newest = newest_behind(newest, begun.is_ok());
        begun
    }

    /// Refuses a restart for the reason.
    pub fn refuse<R: Wait>(&mut self, rt: &R, reason: Refusal) -> Result<(), BoardFault>
        ensures does { OnOk result
            (DoesOrder (commanded.Refused reason) self.old self.new) }
        ensures err { IfErr result (λ _. DoesNoOrder self.old self.new) }
        ensures why { IfErr result (λ fault. IsRefusedFor fault (book_of self.new)) }
        ensures timely { is_ended_at (frame_of (state_of self.old)) ≡ false
            → KeepsTime self.old self.new }
        ensures number { self.new.who.number ≡ 0 }
        ensures made { AreMade self.new.origin.state
            (opening_record self.new.origin.passes) self.new.seen }
    {
        table_rests_on_these();
        order(
            rt,
            self.hands.shared,
            &mut self.pass,
            Commanded::Refused(reason),
        )
    }

    /// Takes no further connection, and lets those that are open go on until the moment, where there is one.
    pub fn end<R: Wait>(&mut self, rt: &R, until: Option<Moment>) -> Result<(), BoardFault>
        requires serving { is_serving (state_of self.old).going ≡ true }
        requires until { is_not_past (state_of self.old).moment until ≡ true }
        ensures does { OnOk result
            (DoesOrder (commanded.GracefulStop until) self.old self.new) }
        ensures err { IfErr result (λ _. DoesNoOrder self.old self.new) }
        ensures why { IfErr result (λ fault. IsRefusedFor fault (book_of self.new)) }
        ensures timely { KeepsTime self.old self.new }
        ensures number { self.new.who.number ≡ 0 }
        ensures made { AreMade self.new.origin.state
            (opening_record self.new.origin.passes) self.new.seen }
    {
        table_rests_on_these();
        let going = self.going;
        let ends = order(
            rt,
            self.hands.shared,
            &mut self.pass,
            Commanded::GracefulStop(until),
        );
        self.going = going_behind(going, Going::Ending(until), ends.is_ok());
        ends
    }

    /// The numbers of a status.
    pub fn totals<R: Wait>(&mut self, rt: &R) -> Totals
        ensures did { Did [] None self.old self.new }
        ensures rest { LeavesAlone (state_of self.old) (state_of self.new) }
        ensures totals { result ≡ totals_of (state_of self.new) }
        ensures timely { KeepsTime self.old self.new }
        ensures number { self.new.who.number ≡ 0 }
        ensures made { AreMade self.new.origin.state
            (opening_record self.new.origin.passes) self.new.seen }
    {
        table_rests_on_these();
        totals(rt, self.hands.shared, &mut self.pass)
    }

    /// Looks whether a connection may be taken, and how the next wait may be.
    pub fn look<R: Wait>(&mut self, rt: &R) -> Look
        ensures did { Did [] None self.old self.new }
        ensures rest { LeavesAlone (state_of self.old) (state_of self.new) }
        ensures seen { IsSeenIn (state_of self.new) result }
        ensures timely { KeepsTime self.old self.new }
        ensures number { self.new.who.number ≡ 0 }
        ensures made { AreMade self.new.origin.state
            (opening_record self.new.origin.passes) self.new.seen }
    {
        table_rests_on_these();
        take_look(rt, self.hands.shared, &mut self.pass)
    }

    /// Takes the connection of the link, which the front has just handed out, and has the front watch it. Where the table refuses it the front
    /// turns it away, and where the front can't watch it its connection is closed.
    pub fn take<R: Wait, F: Front<L = L>>(
        &mut self,
        rt: &R,
        alloc: Global,
        front: &mut F,
        link: L,
        limits: Limits,
        site: Arc<Site>,
    ) -> Result<(), BoardFault>
        requires fresh { IfSome (L.seen link).told IsFresh }
        requires client { IsOfClient N.known (L.seen link).told }
        requires arrival { IfSome (L.seen link).told
            (λ t. t.rank ≡ (state_of self.old).accepted) }
        requires serves { ServesNewest N.known self.old limits site.value }
        ensures takes { OnOk result (TakesLink (L.seen link).told (F.seen front.old)
            (F.seen front.new) self.old self.new) }
        ensures fails { IfErr result
            (λ fault. FailsTaking fault (L.seen link).told (F.seen front.old) (F.seen front.new)
            self.old self.new) }
        ensures rest { LeavesAlone (record (state_of self.old)
            { accepted = (state_of self.new).accepted }) (state_of self.new) }
        ensures timely { KeepsTime self.old self.new }
        ensures number { self.new.who.number ≡ 0 }
        ensures made { AreMade self.new.origin.state
            (opening_record self.new.origin.passes) self.new.seen }
    {
        table_rests_on_these();
        take(
            rt,
            alloc,
            self.hands.shared,
            &mut self.pass,
            front,
            link,
            limits,
            site,
        )
    }

    /// What the next wait is told, by the last look.
    pub fn rest(&mut self, look: Look) -> Rest
        requires { IsSeenIn (state_of self.old) look }
        ensures did { Did [] None self.old self.new }
        ensures rest { LeavesAlone (state_of self.old) (state_of self.new) }
        ensures until { result.until ≡ next_deadline_of (state_of self.old) }
        ensures quiet { result.quiet ≡ true → IsStill self.old self.new }
        ensures timely { KeepsTime self.old self.new }
        ensures number { self.new.who.number ≡ 0 }
        ensures made { AreMade self.new.origin.state
            (opening_record self.new.origin.passes) self.new.seen }
    {
        table_rests_on_these();
        rest_of(self.hands.shared, &mut self.pass, &self.credits, look)
    }

    /// Hands what is signalled to the workers, and serves it where they have no threads. Pass 0 does nothing in it.
    pub fn hand_over<R: Wait>(&mut self, rt: &R)
        ensures { self.new ≡ self.old }
    {
        self.works.hand_over(rt, &self.credits);
    }

    /// Folds the history, where it may be folded.
    pub fn fold<R: Wait>(&mut self, rt: &R)
        ensures sees { OnlySees self.old self.new }
        ensures rest { LeavesAlone (state_of self.old) (state_of self.new) }
        ensures still { IsAtRest (state_of self.old) → self.new.seen ≡ self.old.seen }
        ensures timely { KeepsTime self.old self.new }
    {
        table_rests_on_these();
        fold_history(rt, self.hands.shared, &mut self.pass);
    }
}
