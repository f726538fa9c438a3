//! A round of the listener: what it does of what came with a wait. Time passes, what something came for is signalled, connections that
//! retire, are late or linger are let go of, command lines are done, children are let go of and started, and connections are taken.
//!
//! Each part of a round says which events it adds under the listener's pass, in order (`specs/RoundInside.antt`). Of the
//! state it says no more than where it stands in the end, and what the listener alone changes: the moment, how many connections
//! were taken, which generation is the newest, and how the server goes on. What all orders did since the run opened goes on from
//! where it stood (`specs/StandingInside.antt`).
//! Why it is so stands in docs/DECISIONS.md: 73, What a round adds; 88, A share of the site comes first; 90, Front, clock and store stand
//! beside the listener; 97, Where a graceful stop ends.
ghost use Rattle.std.specs.Prelude.{◌≡◌, ◌<◌, [], ◌∷◌, ◌++◌, ◌≤◌, None, true, false, is_some, max, IfOk, IfErr, IfSome, MatchResult, OnErr, OnOk};
ghost use Rattle.mpm_base.specs.Count.{next_count};
ghost use Rattle.mpm_base.specs.Front.{TellsOn};
ghost use Rattle.conn_state.specs.Known.{IsOfClient};
ghost use Rattle.board_book.specs.Finds.{acceptable};
ghost use Rattle.board_book.specs.Book.{row_in};
ghost use Rattle.board_book.specs.Editions.{orders_in};
ghost use Rattle.worker_group.specs.Service.{IsUp, RefusalLasts};
ghost use Rattle.listener_round.specs.FrontInside.{Follows, HandsOut, HasNoneToHeed, IsArrival, IsInStep, IsKnownOfFront, ListensAsServed, OnlyReadsAndTakes, OnlyTakes, StaysWatching, TakesInTo, TellsAlike, TookAll};
ghost use Rattle.rounds.specs.TableInside.{NoneDueLate, StandsInTime};
ghost use Rattle.listener_round.specs.CountedInside.{CountsOn, CountsUntil, LacksLink};
ghost use Rattle.listener_round.specs.HeardInside.{Hears, HearsUntil, KeepsHeard, hearing, last_at, made_first};
ghost use Rattle.listener_round.specs.OrdersInside.{KnowsComing, ServesNewest};
ghost use Rattle.listener_round.specs.RoundInside.{BreaksOff, EndsTaking, FailsTaking, IsTaking, RoundEnds, TakesSome, TakesUntil};
ghost use Rattle.rounds.specs.PartsInside.{StaysTimely};
ghost use Rattle.conn_machine.specs.States.{is_at_its_end};
ghost use Rattle.listener_round.specs.Pace.{brought, taken};
ghost use Rattle.listener_round.specs.ShareInside.{CutsShare, GoesOnInTime, HandsMany, HushesFor, MakesOneAtMost, MakesShare, TakesAllButOne, TakesHanded};
ghost use Rattle.listener_round.specs.StandingInside.{StandsBroken, StandsOn, owed_at, standing};
ghost use Rattle.board_book.specs.Moments.{moment_for};

use crate::listener_state::Listener;
use board::BoardFault;
use board::laws::{generations_keep_their_editions, waits_are_backed_by_calls};
use conn_machine::laws_of_runs::{
    histories_go_on_by_one_entry, histories_join, rows_change_one_at_a_time,
};
use conn_state::{Conn, Known};
use file_table::Site;
use mpm_base::{Arrival, Bell, Front, Gate, Link, Moment, Sink, Store};
use rounds::{
    End, accept, is_gone, is_overdue, let_go_of_conns, pass_time, retire_all, settle, show_state,
    signal_all, start_children,
};
use std::sync::{Arc, Wait};
use worker_group::laws::passes_act_in_steps;

impl<'a, 'c, L: Link + Send, N: Known, B: Bell, G: Gate> Listener<'a, 'c, L, N, B, G> {
    /// Lets time pass to the moment, signals what something came for, lets go of what retires, lingers or has drained, does what the
    /// command lines ask for, lets go of children and starts some, and takes what has arrived. Why the turns end here, where they do: then
    /// nothing is done behind that.
    ///
    /// A connection that a restart of this round lets go of is so in the next one, behind a wait that gives what came for it until then. So
    /// it is served where something had come before the restart.
    pub fn take_in<R: Wait, D: Store, F: Front<L = L>, K: Sink>(
        &mut self,
        rt: &R,
        store: &mut D,
        front: &mut F,
        out: &mut K,
        moment: Moment,
    ) -> Result<Option<End>, BoardFault>
        requires named { IsKnownOfFront N.known (F.seen front.old).told }
        requires passes { 0 < self.old.board.book.passes }
        requires knows { KnowsComing N.known self.old.board.book self.old.config
            (D.seen store.old).told }
        requires serves { ServesNewest N.known self.old.board.book self.old.edition }
        requires free { row_in 0 self.old.board.book ≡ None }
        requires up { IsUp self.old.board.book.state.going }
        requires step { IsInStep (F.seen front.old).told self.old.board.book.state }
        requires heeded { IfSome (F.seen front.old).told HasNoneToHeed }
        requires in_time { StandsInTime self.old.board.book.state }
        ensures round { IfOk result
            (λ ended. RoundEnds ended (moment_for moment) self.old.ready self.old.board.book
            self.new.board.book) }
        ensures broken { IfErr result
            (λ fault. BreaksOff fault (moment_for moment) self.old.ready self.old.board.book
            self.new.board.book) }
        ensures share { MatchResult result
            (λ ended. MakesShare ended moment self.old.ready (F.seen front.old).told
            (F.seen front.new).told self.old.board.book self.new.board.book)
            (λ fault. CutsShare moment self.old.ready (F.seen front.old).told
            (F.seen front.new).told self.old.board.book self.new.board.book) }
        ensures hushes { OnOk result
            (TellsOn HushesFor (F.seen front.old).told (F.seen front.new).told) }
        ensures timely { StaysTimely self.old.board.book self.new.board.book }
        ensures goes_on { IfOk result (λ ended. GoesOnInTime ended self.new.board.book.state) }
        ensures before { OnErr result (is_at_its_end self.new.board.book.state ≡ false) }
        ensures stands { let old = standing self.old.edition.stop_ms
            (D.seen store.old) (F.seen front.old) self.old.board.book in
            let new = standing self.new.edition.stop_ms
            (D.seen store.new) (F.seen front.new) self.new.board.book in
            MatchResult result
            (λ ended. StandsOn N.known self.old.config 0 (owed_at ended) old new)
            (λ fault. StandsBroken N.known self.old.config old new) }
        ensures knows { OnOk result
            (KnowsComing N.known self.new.board.book self.new.config (D.seen store.new).told) }
        ensures serves { OnOk result (ServesNewest N.known self.new.board.book self.new.edition) }
        ensures up { IsUp self.new.board.book.state.going }
        ensures moment { OnOk result
            (self.new.board.book.state.moment ≡ max self.old.board.book.state.moment
            (moment_for moment)) }
        ensures stays { OnErr result
            (self.new.board.book.state.moment ≤ max self.old.board.book.state.moment
            (moment_for moment)) }
        ensures counts { let old = (F.seen front.old).counts in
            let new = (F.seen front.new).counts in
            MatchResult result
            (λ ended. CountsOn (owed_at ended) old new self.old.board.book self.new.board.book)
            (λ fault. CountsUntil old new self.old.board.book self.new.board.book) }
        ensures heard { let old = hearing (standing self.old.edition.stop_ms
            (D.seen store.old) (F.seen front.old) self.old.board.book)
            (K.seen out.old) self.old.written in
            let new = hearing (standing self.new.edition.stop_ms
            (D.seen store.new) (F.seen front.new) self.new.board.book)
            (K.seen out.new) self.new.written in
            let made = made_first moment self.old.ready self.old.board.book in
            MatchResult result
            (λ ended. Hears N.known self.old.config made (last_at ended) old new)
            (λ fault. HearsUntil N.known self.old.config made old new) }
        ensures wakes { (F.seen front.new).counts.wakes ≡ (F.seen front.old).counts.wakes }
        ensures step { OnOk result (IsInStep (F.seen front.new).told self.new.board.book.state) }
        ensures ends { IfOk result
            (λ ended. TakesInTo ended (F.seen front.old) (F.seen front.new)
            self.new.board.book.state) }
        ensures unheeded { OnErr result (IfSome (F.seen front.new).told HasNoneToHeed) }
        ensures follows { Follows (F.seen front.old) (F.seen front.new) }
        ensures front { TellsOn OnlyReadsAndTakes (F.seen front.old).told (F.seen front.new).told }
        ensures watched { StaysWatching (F.seen front.old).told (F.seen front.new).told
            self.old.board.book self.new.board.book }
        ensures listens { IfSome (F.seen front.new).told
            (ListensAsServed self.new.board.book.state) }
        ensures links { OnErr result (HandsOut (F.seen front.new).told self.new.board.book.state) }
        ensures ready { self.new.ready ≡ self.old.ready }
        ensures config { self.new.config ≡ self.old.config }
        ensures err { IfErr result (λ fault. RefusalLasts fault self.new.board.book) }
    {
        generations_keep_their_editions();
        histories_join();
        passes_act_in_steps();
        pass_time(&mut self.board, moment)?;
        if is_overdue(&self.board) {
            return Ok(Some(End::Overdue));
        }
        signal_all(&mut self.board, self.ready.slots())?;
        let_go_of_conns(&mut self.board, !self.ready.is_full())?;
        show_state(&self.board);
        let asked = self.heed(rt, store, front, out)?;
        if asked {
            return Ok(Some(End::Asked));
        }
        retire_all(&mut self.board);
        if is_gone(&self.board) {
            return Ok(Some(End::Gone));
        }
        start_children(&mut self.board)?;
        show_state(&self.board);
        self.take_all(rt, front)?;
        Ok(None)
    }

    /// Takes the connections that have arrived, while a child admits one and a slot is vacant. Before the front is asked for one
    /// there is a share of the site for it.
    fn take_all<R: Wait, F: Front<L = L>>(
        &mut self,
        rt: &R,
        front: &mut F,
    ) -> Result<(), BoardFault>
        requires named { IsKnownOfFront N.known (F.seen front.old).told }
        requires passes { 0 < self.old.board.book.passes }
        requires free { row_in 0 self.old.board.book ≡ None }
        requires serves { ServesNewest N.known self.old.board.book self.old.edition }
        requires up { IsUp self.old.board.book.state.going }
        requires step { IsInStep (F.seen front.old).told self.old.board.book.state }
        ensures takes { OnOk result (TakesSome self.old.board.book self.new.board.book) }
        ensures until { IfErr result
            (λ fault. TakesUntil fault self.old.board.book self.new.board.book) }
        ensures handed { OnOk result (TakesHanded 0 (F.seen front.old).told
            (F.seen front.new).told self.old.board.book self.new.board.book) }
        ensures cut { OnErr result (TakesAllButOne (F.seen front.old).told
            (F.seen front.new).told self.old.board.book self.new.board.book) }
        ensures timely { StaysTimely self.old.board.book self.new.board.book }
        ensures children { self.new.board.book.state.children
            ≡ self.old.board.book.state.children }
        ensures in_time { NoneDueLate self.old.board.book.state
            → NoneDueLate self.new.board.book.state }
        ensures going { self.new.board.book.state.going ≡ self.old.board.book.state.going }
        ensures newest { self.new.board.book.state.newest ≡ self.old.board.book.state.newest }
        ensures moment { self.new.board.book.state.moment ≡ self.old.board.book.state.moment }
        ensures step { OnOk result (IsInStep (F.seen front.new).told self.new.board.book.state) }
        ensures taken { OnOk result (TookAll (F.seen front.new).told self.new.board.book.state) }
        ensures counts { let old = (F.seen front.old).counts in
            let new = (F.seen front.new).counts in
            MatchResult result
            (λ done. CountsOn 0 old new self.old.board.book self.new.board.book)
            (λ fault. CountsUntil old new self.old.board.book self.new.board.book) }
        ensures wakes { (F.seen front.new).counts.wakes ≡ (F.seen front.old).counts.wakes }
        ensures heard { KeepsHeard (F.seen front.old) (F.seen front.new) }
        ensures follows { Follows (F.seen front.old) (F.seen front.new) }
        ensures front { TellsOn OnlyTakes (F.seen front.old).told (F.seen front.new).told }
        ensures watched { StaysWatching (F.seen front.old).told (F.seen front.new).told
            self.old.board.book self.new.board.book }
        ensures links { OnErr result (HandsOut (F.seen front.new).told self.new.board.book.state) }
        ensures edition { self.new.edition ≡ self.old.edition }
        ensures ready { self.new.ready ≡ self.old.ready }
        ensures config { self.new.config ≡ self.old.config }
        ensures written { self.new.written ≡ self.old.written }
        ensures err { IfErr result (λ fault. RefusalLasts fault self.new.board.book) }
    {
        generations_keep_their_editions();
        passes_act_in_steps();
        for _ in rt.forever() {
            if self.board.can_accept().is_none() {
                return Ok(());
            }
            let Ok(site) = self.edition.share() else {
                return Err(BoardFault::NoMemory);
            };
            match front.accept() {
                Arrival::Some(link) => self.take(front, link, site)?,
                Arrival::None | Arrival::Failed => return Ok(()),
            }
        }
        unreachable!()
    }

    /// Takes the connection of the link into the table, and has the front watch it under its name. Where the table refuses the
    /// link the front turns it away, and where the front can't watch it its connection is closed.
    fn take<F: Front<L = L>>(
        &mut self,
        front: &mut F,
        link: L,
        site: Arc<Site>,
    ) -> Result<(), BoardFault>
        requires passes { 0 < self.old.board.book.passes }
        requires free { row_in 0 self.old.board.book ≡ None }
        requires acceptable { is_some (acceptable self.old.board.book.state) ≡ true }
        requires up { IsUp self.old.board.book.state.going }
        requires arrival { IsArrival self.old.board.book.state.accepted (L.seen link).told }
        requires tells { TellsAlike (F.seen front.old).told (L.seen link).told }
        requires client { IsOfClient N.known (L.seen link).told }
        requires site { site.value ≡ self.old.edition.site.value }
        requires serves { ServesNewest N.known self.old.board.book self.old.edition }
        requires healthy { (L.seen link).counts.faults ≡ 0 }
        ensures takes { OnOk result
            (IsTaking (L.seen link).told (F.seen front.old).told (F.seen front.new).told
            self.old.board.book self.new.board.book) }
        ensures until { IfErr result
            (λ fault. FailsTaking fault self.old.board.book self.new.board.book) }
        ensures makes { OnOk result (brought self.new.board.book.history
            ≡ brought self.old.board.book.history ++ taken ∷ []) }
        ensures made { OnErr result (MakesOneAtMost self.old.board.book self.new.board.book) }
        ensures handed { TellsOn (HandsMany 0) (F.seen front.old).told (F.seen front.new).told }
        ensures timely { StaysTimely self.old.board.book self.new.board.book }
        ensures children { self.new.board.book.state.children
            ≡ self.old.board.book.state.children }
        ensures in_time { NoneDueLate self.old.board.book.state
            → NoneDueLate self.new.board.book.state }
        ensures going { self.new.board.book.state.going ≡ self.old.board.book.state.going }
        ensures newest { self.new.board.book.state.newest ≡ self.old.board.book.state.newest }
        ensures moment { self.new.board.book.state.moment ≡ self.old.board.book.state.moment }
        ensures taken { OnOk result
            (self.new.board.book.state.accepted ≡ next_count self.old.board.book.state.accepted) }
        ensures counts { (F.seen front.new).counts ≡ (F.seen front.old).counts }
        ensures orders { orders_in self.new.board.book ≡ orders_in self.old.board.book }
        ensures lacks { OnErr result
            (LacksLink self.old.board.book.state self.new.board.book.state) }
        ensures step { OnOk result
            (IsInStep (F.seen front.old).told self.new.board.book.state → IsInStep
            (F.seen front.new).told self.new.board.book.state) }
        ensures follows { Follows (F.seen front.old) (F.seen front.new) }
        ensures front { TellsOn OnlyTakes (F.seen front.old).told (F.seen front.new).told }
        ensures watched { StaysWatching (F.seen front.old).told (F.seen front.new).told
            self.old.board.book self.new.board.book }
        ensures links { OnErr result
            (EndsTaking (L.seen link).told (F.seen front.old).told (F.seen front.new).told
            self.old.board.book.state self.new.board.book.state) }
        ensures edition { self.new.edition ≡ self.old.edition }
        ensures ready { self.new.ready ≡ self.old.ready }
        ensures config { self.new.config ≡ self.old.config }
        ensures written { self.new.written ≡ self.old.written }
        ensures err { IfErr result (λ fault. RefusalLasts fault self.new.board.book) }
    {
        histories_go_on_by_one_entry();
        histories_join();
        generations_keep_their_editions();
        passes_act_in_steps();
        rows_change_one_at_a_time();
        waits_are_backed_by_calls();
        show_state(&self.board);
        let mut link = link;
        let taken = match accept(&mut self.board) {
            Ok(taken) => taken,
            Err(fault) => {
                front.turn_away(link);
                return Err(fault);
            }
        };
        show_state(&self.board);
        let watched = front.watch(taken.name, &mut link);
        let conn = Conn::new(
            self.alloc,
            taken.name,
            taken.child,
            taken.generation,
            self.edition.limits,
            site,
            link,
        );
        conn.show();
        let left = settle(&mut self.board, conn, watched);
        show_state(&self.board);
        left
    }
}
