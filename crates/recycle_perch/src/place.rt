//! A place for the carrier of one number.
//! Why it is so stands in docs/DECISIONS.md: 59, What rests.
ghost use Rattle.std.specs.Prelude.{◌≡◌, ◌≢◌, [], ◌∷◌, ◌++◌, IfSome, IfErr, MatchOption, MatchResult};
ghost use Rattle.recycle_perch.specs.Resting.{IsFreeCarrier, IsWokenCarrier};
ghost use Rattle.recycle_perch.specs.Words.{deeds, laid_none, laid_one, took_none, took_one};
ghost use Rattle.table_rule.specs.Views.{resting_view};

use crate::word::{LayDownStep, PickUpStep, RestRule};
use atomic_table::{Mark, RuledPerch, Seat};
use board_lock::{Carrier, Shared, number};
use conn_machine::Kept;
use std::collections::LinkedList;
use table_rule::laws_of_trails::{makers_have_their_own_steps, trails_go_on_by_one_step};
use table_rule::{RestStep, Step, View, WakeStep, laws};

/// A place for the carrier of one number.
#[derive(Drop)]
pub struct RestPlace<K> {
    pub perch: RuledPerch<Option<K>, View, LinkedList<Step>, RestRule>,
    pub number: u32,
    ghost view: { perch.view ≡ resting_view number },
    ghost other: { number ≢ 0 },
}

/// The carrier lies down.
fn lay_down<K: Kept>(shared: &Shared<K>, carrier: Carrier<K>) -> Seat<Option<K>, View>
    requires own { carrier.seat.table_id ≡ shared.now.table.shared.table_id }
    requires free { IsFreeCarrier carrier.seat.me }
    ensures own { result.table_id ≡ carrier.seat.table_id }
    ensures rests { result.me ≡ (resting_view carrier.seat.me.0.who.number, []) }
{
    let mut seat = carrier.into_seat();
    laws::pass_lies_down::<K>();
    let _ = shared.table.shared.load::<RestStep>(&mut seat, 0);
    seat
}

/// A carrier wakes up.
fn wake_up<K: Kept>(shared: &Shared<K>, mut seat: Seat<Option<K>, View>, number: u32) -> Carrier<K>
    requires own { seat.table_id ≡ shared.now.table.shared.table_id }
    requires rests { seat.me ≡ (resting_view number, []) }
    requires other { number ≢ 0 }
    ensures own { result.seat.table_id ≡ shared.now.table.shared.table_id }
    ensures free { IsFreeCarrier result.seat.me }
    ensures woken { IsWokenCarrier result.seat.me }
    ensures number { result.seat.me.0.who.number ≡ number }
{
    laws::pass_wakes_up::<K>();
    let _ = shared.table.shared.load::<WakeStep>(&mut seat, 0);
    Carrier::of(seat, number)
}

impl<K: Kept> RestPlace<K> {
    /// A place for this carrier. None rests there yet, and the carrier comes back.
    pub fn make(shared: &Shared<K>, carrier: Carrier<K>) -> (RestPlace<K>, Carrier<K>)
        requires own { carrier.seat.table_id ≡ shared.now.table.shared.table_id }
        requires free { IsFreeCarrier carrier.seat.me }
        ensures place { (result.0.perch.table_id ≡ shared.now.table.shared.table_id)
            × (result.0.number ≡ carrier.seat.me.0.who.number) }
        ensures own { result.1.seat.table_id ≡ shared.now.table.shared.table_id }
        ensures free { IsFreeCarrier result.1.seat.me }
        ensures woken { IsWokenCarrier result.1.seat.me }
        ensures number { result.1.seat.me.0.who.number ≡ carrier.seat.me.0.who.number }
    {
        let number = number(&carrier);
        let seat = lay_down(shared, carrier);
        let (perch, _) = RuledPerch::new(&seat, 0);
        (RestPlace { perch, number }, wake_up(shared, seat, number))
    }

    /// The carrier, where it rests here.
    pub fn take(&self, shared: &Shared<K>, mark: &mut Mark<LinkedList<Step>>) -> Option<Carrier<K>>
        requires own { self.now.perch.table_id ≡ shared.now.table.shared.table_id }
        requires mark { mark.old.perch ≡ self.now.perch.name }
        ensures mark { mark.new.perch ≡ mark.old.perch }
        ensures step { MatchOption result
            (deeds mark.new.view ≡ deeds mark.old.view ++ took_none ∷ [])
            (λ _. deeds mark.new.view ≡ deeds mark.old.view ++ took_one ∷ []) }
        ensures own { IfSome result
            (λ carrier. carrier.seat.table_id ≡ shared.now.table.shared.table_id) }
        ensures free { IfSome result (λ carrier. IsFreeCarrier carrier.seat.me) }
        ensures woken { IfSome result (λ carrier. IsWokenCarrier carrier.seat.me) }
        ensures number { IfSome result (λ carrier. carrier.seat.me.0.who.number ≡ self.now.number) }
    {
        trails_go_on_by_one_step();
        makers_have_their_own_steps();
        let (_, seat) = self.perch.swap::<PickUpStep>(mark, 0);
        match seat {
            Some(seat) => Some(wake_up(shared, seat, self.number)),
            None => None,
        }
    }

    /// Lays the carrier of this number down. It comes back where another one rests here.
    pub fn give(
        &self,
        shared: &Shared<K>,
        mark: &mut Mark<LinkedList<Step>>,
        carrier: Carrier<K>,
    ) -> Result<(), Carrier<K>>
        requires own { self.now.perch.table_id ≡ shared.now.table.shared.table_id }
        requires mark { mark.old.perch ≡ self.now.perch.name }
        requires same { carrier.seat.table_id ≡ shared.now.table.shared.table_id }
        requires free { IsFreeCarrier carrier.seat.me }
        requires number { carrier.seat.me.0.who.number ≡ self.now.number }
        ensures mark { mark.new.perch ≡ mark.old.perch }
        ensures step { MatchResult result
            (λ _. deeds mark.new.view ≡ deeds mark.old.view ++ laid_one ∷ [])
            (λ _. deeds mark.new.view ≡ deeds mark.old.view ++ laid_none ∷ []) }
        ensures own { IfErr result (λ back. back.seat.table_id ≡ shared.now.table.shared.table_id) }
        ensures free { IfErr result (λ back. IsFreeCarrier back.seat.me) }
        ensures woken { IfErr result (λ back. IsWokenCarrier back.seat.me) }
        ensures number { IfErr result (λ back. back.seat.me.0.who.number ≡ self.now.number) }
    {
        let seat = lay_down(shared, carrier);
        trails_go_on_by_one_step();
        makers_have_their_own_steps();
        match self.perch.give::<LayDownStep>(mark, seat, 0, 2) {
            Ok(()) => Ok(()),
            Err(seat) => Err(wake_up(shared, seat, self.number)),
        }
    }
}
