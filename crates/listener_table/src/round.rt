//! The parts of a round.
ghost use Rattle.std.specs.Prelude.{◌≡◌, [], None, false, length, max, IfErr, OnErr, OnOk, true};
ghost use Rattle.board_book.specs.Faults.{IsRefusedFor};
ghost use Rattle.board_book.specs.Finds.{startable};
ghost use Rattle.board_book.specs.Moments.{moment_for};
ghost use Rattle.board_turns.specs.Books.{book_of, state_of};
ghost use Rattle.board_turns.specs.Carries.{Lasts};
ghost use Rattle.conn_machine.specs.Folds.{opening_record};
ghost use Rattle.conn_machine.specs.Frames.{frame_of};
ghost use Rattle.conn_machine.specs.Made.{AreMade};
ghost use Rattle.conn_machine.specs.States.{is_serving, is_staffed};
ghost use Rattle.listener_parts.specs.Did.{Did, LeavesAlone, StandsAs};
ghost use Rattle.listener_parts.specs.Letting.{LetsGo, LetsGoOfConns, LetsGoUntil, IsLateWay};
ghost use Rattle.listener_parts.specs.Times.{KeepsTime, MayPassTo, MaySignal};
ghost use Rattle.listener_parts.specs.Rounds.{IsRestedFor, PassesTime, RetiresSome, Signals, SignalsSome, StartsAtFirst, StartsEach, TicksAtOnce};

use crate::kept::{is_gone_with, moment_behind};
use crate::laws::table_rests_on_these;
use crate::table::Table;
use board::BoardFault;
use board_lock::Room;
use conn_state::Known;
use listener_parts::{
    let_go_of_conns, let_time_pass, retire_all, signal, start_first, start_further,
};
use listener_turns::take_look;
use mpm_base::{Bell, Gate, Link, Moment};
use std::sync::Wait;

impl<'a, M: Room, L: Link, N: Known, B: Bell, G: Gate> Table<'a, M, L, N, B, G> {
    /// The present moment.
    pub fn moment(&self) -> Moment
        ensures { result ≡ (state_of self.now).moment }
    {
        self.moment
    }

    /// Lets time pass to the moment, where that is later, and lets go of late connections before and behind that. Behind a rest nothing is
    /// done before.
    pub fn pass_time<R: Wait>(&mut self, rt: &R, moment: Moment) -> Result<(), BoardFault>
        ensures passes { OnOk result (PassesTime (moment_for moment) self.old self.new) }
        ensures refused { OnErr result (LetsGo IsLateWay self.old self.new) }
        ensures why { IfErr result (λ fault. IsRefusedFor fault (book_of self.new)) }
        ensures at_once { OnOk result
            (IsRestedFor (moment_for moment) self.old
            → TicksAtOnce (moment_for moment) self.old self.new) }
        ensures moment { OnOk result
            ((state_of self.new).moment ≡ max (state_of self.old).moment (moment_for moment)) }
        ensures rest { LeavesAlone (record (state_of self.old)
            { moment = (state_of self.new).moment }) (state_of self.new) }
        ensures stays { OnErr result (LeavesAlone (state_of self.old) (state_of self.new)) }
        ensures timely { MayPassTo (moment_for moment) (frame_of (state_of self.old))
            → KeepsTime self.old self.new }
        ensures number { self.new.who.number ≡ 0 }
        ensures made { AreMade self.new.origin.state
            (opening_record self.new.origin.passes) self.new.seen }
    {
        table_rests_on_these();
        let present = self.moment;
        let passed = let_time_pass(rt, self.hands.shared, &mut self.pass, present, moment);
        self.moment = moment_behind(present, moment, passed.is_ok());
        passed
    }

    /// Signals each of the slots that the table has.
    pub fn signal<R: Wait>(&mut self, rt: &R, slots: &[u32]) -> Result<(), BoardFault>
        ensures signals { OnOk result (Signals slots.now self.old self.new) }
        ensures some { OnErr result (SignalsSome slots.now self.old self.new) }
        ensures why { IfErr result (λ fault. IsRefusedFor fault (book_of self.new)) }
        ensures rest { LeavesAlone (state_of self.old) (state_of self.new) }
        ensures timely { MaySignal (frame_of (state_of self.old))
            → KeepsTime self.old self.new }
        ensures number { self.new.who.number ≡ 0 }
        ensures made { AreMade self.new.origin.state
            (opening_record self.new.origin.passes) self.new.seen }
    {
        table_rests_on_these();
        signal(rt, self.hands.shared, &mut self.pass, slots)
    }

    /// Lets go of connections that retire, where all that came was signalled, and of late ones, and drains those that linger.
    pub fn let_go_of_conns<R: Wait>(
        &mut self,
        rt: &R,
        all_signalled: bool,
    ) -> Result<(), BoardFault>
        ensures gone { OnOk result (LetsGoOfConns self.old self.new) }
        ensures until { IfErr result (λ fault. LetsGoUntil fault self.old self.new) }
        ensures rest { LeavesAlone (state_of self.old) (state_of self.new) }
        ensures lasts { IfErr result (λ fault. Lasts fault (state_of self.new)) }
        ensures timely { KeepsTime self.old self.new }
        ensures number { self.new.who.number ≡ 0 }
        ensures made { AreMade self.new.origin.state
            (opening_record self.new.origin.passes) self.new.seen }
    {
        table_rests_on_these();
        let_go_of_conns(rt, self.hands.shared, &mut self.pass, all_signalled)
    }

    /// Lets go of each child that stops and has no live connection, until one of which a permit is out.
    pub fn retire_all<R: Wait>(&mut self, rt: &R)
        ensures retires { RetiresSome self.old self.new }
        ensures rest { StandsAs (state_of self.old) (state_of self.new) }
        ensures timely { KeepsTime self.old self.new }
        ensures number { self.new.who.number ≡ 0 }
        ensures made { AreMade self.new.origin.state
            (opening_record self.new.origin.passes) self.new.seen }
    {
        table_rests_on_these();
        retire_all(
            rt,
            self.hands.shared,
            &mut self.pass,
            &mut self.credits,
            &mut self.works,
        );
    }

    /// Whether a graceful stop is at its end, or the server has stopped: it takes no connections, and each child is gone. Where it isn't so some
    /// child is there, or it takes connections.
    pub fn is_gone<R: Wait>(&mut self, rt: &R) -> bool
        ensures did { Did [] None self.old self.new }
        ensures rest { LeavesAlone (state_of self.old) (state_of self.new) }
        ensures gone { result ≡ true → is_serving (state_of self.new).going ≡ false }
        ensures empty { result ≡ true → is_staffed (state_of self.new) ≡ false }
        ensures staffed { result ≡ false
            → is_serving (state_of self.new).going ≡ false
            → is_staffed (state_of self.new) ≡ true }
        ensures timely { KeepsTime self.old self.new }
        ensures number { self.new.who.number ≡ 0 }
        ensures made { AreMade self.new.origin.state
            (opening_record self.new.origin.passes) self.new.seen }
    {
        table_rests_on_these();
        let look = take_look(rt, self.hands.shared, &mut self.pass);
        is_gone_with(look.going, look.staffed)
    }

    /// Starts the first children, all in one turn, and gives each its credit.
    pub fn start_first<R: Wait>(&mut self, rt: &R) -> Result<(), BoardFault>
        ensures first { StartsAtFirst self.old self.new }
        ensures rest { StandsAs (state_of self.old) (state_of self.new) }
        ensures all { OnOk result (startable (state_of self.new) ≡ None) }
        ensures why { IfErr result (λ fault. IsRefusedFor fault (book_of self.new)) }
        ensures timely { KeepsTime self.old self.new }
    {
        table_rests_on_these();
        start_first(rt, self.hands.shared, &mut self.pass, &mut self.credits)
    }

    /// Starts children while fewer run than should, and gives each its credit.
    pub fn start_further<R: Wait>(&mut self, rt: &R) -> Result<(), BoardFault>
        ensures starts { StartsEach self.old self.new }
        ensures rest { StandsAs (state_of self.old) (state_of self.new) }
        ensures all { OnOk result (startable (state_of self.new) ≡ None) }
        ensures why { IfErr result (λ fault. IsRefusedFor fault (book_of self.new)) }
        ensures timely { KeepsTime self.old self.new }
        ensures number { self.new.who.number ≡ 0 }
        ensures made { AreMade self.new.origin.state
            (opening_record self.new.origin.passes) self.new.seen }
    {
        table_rests_on_these();
        start_further(rt, self.hands.shared, &mut self.pass, &mut self.credits)
    }
}
