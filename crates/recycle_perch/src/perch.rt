//! A row of places.
//! Why it is so stands in docs/DECISIONS.md: 62, Where a perch looks.
ghost use Rattle.std.specs.Prelude.{◌≡◌, ◌≢◌, ◌⊎◌, ◌≤◌, ◌<◌, ◌+◌, [], ◌∷◌, ◌++◌, All, IfOk, IfSome, IfErr, OnOk, OnErr, MatchOption, MatchResult, vec_len, vec_capacity};
ghost use Rattle.recycle_perch.specs.Looking.{AllAreOf, AllLookAt, AreInOrder, AreOf, CameBack, FoundNone, HasPlaceMore, WasLaidDown, WasTaken, steps_of, with_step_at, word_names_of};
ghost use Rattle.recycle_perch.specs.LookingInside.{TakenBetween, TriedBetween};
ghost use Rattle.recycle_perch.specs.Resting.{IsFreeCarrier, IsWokenCarrier};
ghost use Rattle.recycle_perch.specs.Words.{laid_none, laid_one, took_none, took_one};

use crate::looks::Looks;
use crate::place::RestPlace;
use board_lock::{Carrier, Shared, number};
use conn_machine::Kept;
use mpm_base::NoMemory;
use std::alloc::Global;

/// The places of the carriers of one lock, from that of carrier 1 on.
#[derive(Drop)]
pub struct Perch<'a, K: Kept> {
    pub shared: &'a Shared<K>,
    places: Vec<RestPlace<K>>,
    ghost same: { All (λ place. place.perch.table_id ≡ shared.now.table.shared.table_id)
        places.items },
    ghost in_order: { AreInOrder places.items },
}

impl<'a, K: Kept> Perch<'a, K> {
    /// A perch with room for so many places. No carrier rests on it at first.
    pub fn make(alloc: Global, shared: &'a Shared<K>, places: u32) -> Result<Perch<'a, K>, NoMemory>
        requires places { (1 ≤ places) × (places ≤ 4099) }
        ensures own { IfOk result
            (λ perch. perch.shared.now.table.shared.table_id ≡ shared.now.table.shared.table_id) }
        ensures room { IfOk result
            (λ perch. (perch.places.items ≡ []) × (vec_capacity perch.places ≡ places)) }
    {
        match Vec::with_capacity(alloc, places as usize) {
            Ok(places) => Ok(Perch { shared, places }),
            Err(_) => Err(NoMemory),
        }
    }

    /// The looks of so many callers, before the first carrier is admitted.
    pub fn looks(&self, alloc: Global, callers: u32) -> Result<Vec<Looks>, NoMemory>
        requires { self.now.places.items ≡ [] }
        ensures looks { IfOk result (λ all. AllAreOf self.now.places all.items) }
        ensures count { IfOk result (λ all. vec_len all ≡ callers) }
    {
        let Ok(mut all) = Vec::with_capacity(alloc, callers as usize) else {
            return Err(NoMemory);
        };
        for _ in 0..callers {
            let looks = Looks::make(alloc, self.places.capacity())?;
            all.push_reserved(looks);
        }
        Ok(all)
    }

    /// Makes the place of a carrier that has nothing, to which all looks come too, and hands the carrier back: none rests there
    /// yet. There is an Err only where there is no room for a place, or the carrier isn't the next by its number, and then nothing changes.
    pub fn admit(
        &mut self,
        all: &mut Vec<Looks>,
        carrier: Carrier<K>,
    ) -> Result<Carrier<K>, Carrier<K>>
        requires own { carrier.seat.table_id ≡ self.old.shared.now.table.shared.table_id }
        requires free { IsFreeCarrier carrier.seat.me }
        requires looks { AllAreOf self.old.places all.old.items }
        ensures shared { self.new.shared.now.table.shared.table_id
            ≡ self.old.shared.now.table.shared.table_id }
        ensures looks { AllAreOf self.new.places all.new.items }
        ensures count { vec_len all.new ≡ vec_len all.old }
        ensures room { vec_capacity self.new.places ≡ vec_capacity self.old.places }
        ensures placed { OnOk result
            (HasPlaceMore carrier.seat.me.0.who.number self.old.places.items
            self.new.places.items) }
        ensures own { IfOk result
            (λ woken. woken.seat.table_id ≡ self.old.shared.now.table.shared.table_id) }
        ensures free { IfOk result (λ woken. IsFreeCarrier woken.seat.me) }
        ensures woken { IfOk result (λ woken. IsWokenCarrier woken.seat.me) }
        ensures number { IfOk result
            (λ woken. woken.seat.me.0.who.number ≡ carrier.seat.me.0.who.number) }
        ensures full { OnErr result
            ((vec_capacity self.old.places ≤ vec_len self.old.places)
            ⊎ (carrier.seat.me.0.who.number ≢ vec_len self.old.places + 1)) }
        ensures same { OnErr result
            ((self.new.places ≡ self.old.places) × (all.new.items ≡ all.old.items)) }
        ensures back { IfErr result (λ back. back ≡ carrier) }
    {
        let places = self.places.len();
        if places == self.places.capacity() || number(&carrier) as usize != places + 1 {
            return Err(carrier);
        }
        let (place, woken) = RestPlace::make(self.shared, carrier);
        self.add_place(all, &place);
        self.places.push_reserved(place);
        Ok(woken)
    }

    /// All looks come to one place more.
    fn add_place(&self, all: &mut Vec<Looks>, place: &RestPlace<K>)
        requires room { vec_len self.now.places < vec_capacity self.now.places }
        requires looks { AllAreOf self.now.places all.old.items }
        ensures looks { AllLookAt (word_names_of self.now.places.items ++ place.now.perch.name ∷ [])
            (vec_capacity self.now.places) all.new.items }
        ensures count { vec_len all.new ≡ vec_len all.old }
    {
        for i in 0..all.len() {
            all[i].add(&place.perch);
        }
    }

    /// A carrier that has nothing: one that rests. There is none only where none rested at each place at the moment of this call when the
    /// place was looked at.
    pub fn take(&self, looks: &mut Looks) -> Option<Carrier<K>>
        requires looks { AreOf self.now.places looks.old }
        ensures looks { AreOf self.now.places looks.new }
        ensures steps { MatchOption result (FoundNone (steps_of looks.old) (steps_of looks.new))
            (λ carrier. WasTaken carrier.seat.me.0.who.number (steps_of looks.old)
            (steps_of looks.new)) }
        ensures own { IfSome result
            (λ carrier. carrier.seat.table_id ≡ self.now.shared.now.table.shared.table_id) }
        ensures free { IfSome result (λ carrier. IsFreeCarrier carrier.seat.me) }
        ensures woken { IfSome result (λ carrier. IsWokenCarrier carrier.seat.me) }
    {
        let places = self.places.len();
        let first = looks.first(places);
        match self.take_between(looks, first, places) {
            Some(carrier) => Some(carrier),
            None => self.take_between(looks, 0, first),
        }
    }

    /// A carrier that rests at one of the places from the first to before the second.
    fn take_between(&self, looks: &mut Looks, from: usize, to: usize) -> Option<Carrier<K>>
        requires looks { AreOf self.now.places looks.old }
        requires from { from ≤ to }
        requires to { to ≤ vec_len self.now.places }
        ensures looks { AreOf self.now.places looks.new }
        ensures steps { MatchOption result
            (TriedBetween from to (steps_of looks.old) (steps_of looks.new))
            (λ carrier. TakenBetween from to carrier.seat.me.0.who.number (steps_of looks.old)
            (steps_of looks.new)) }
        ensures own { IfSome result
            (λ carrier. carrier.seat.table_id ≡ self.now.shared.now.table.shared.table_id) }
        ensures free { IfSome result (λ carrier. IsFreeCarrier carrier.seat.me) }
        ensures woken { IfSome result (λ carrier. IsWokenCarrier carrier.seat.me) }
    {
        for i in from..to {
            if let Some(carrier) = self.take_at(looks, i) {
                looks.found_at(i);
                return Some(carrier);
            }
        }
        None
    }

    /// The carrier that rests at a place.
    fn take_at(&self, looks: &mut Looks, i: usize) -> Option<Carrier<K>>
        requires looks { AreOf self.now.places looks.old }
        requires place { i < vec_len self.now.places }
        ensures looks { AreOf self.now.places looks.new }
        ensures step { MatchOption result
            (steps_of looks.new ≡ with_step_at i took_none (steps_of looks.old))
            (λ _. steps_of looks.new ≡ with_step_at i took_one (steps_of looks.old)) }
        ensures own { IfSome result
            (λ carrier. carrier.seat.table_id ≡ self.now.shared.now.table.shared.table_id) }
        ensures free { IfSome result (λ carrier. IsFreeCarrier carrier.seat.me) }
        ensures woken { IfSome result (λ carrier. IsWokenCarrier carrier.seat.me) }
        ensures number { IfSome result (λ carrier. carrier.seat.me.0.who.number ≡ i + 1) }
    {
        let place = &self.places[i];
        let mark = &mut looks.marks[i];
        place.take(self.shared, mark)
    }

    /// Lays a carrier that has nothing down on its place. It comes back only where one rested there at a moment of this call, so also where it
    /// has none.
    pub fn give(&self, looks: &mut Looks, carrier: Carrier<K>) -> Result<(), Carrier<K>>
        requires own { carrier.seat.table_id ≡ self.now.shared.now.table.shared.table_id }
        requires free { IsFreeCarrier carrier.seat.me }
        requires looks { AreOf self.now.places looks.old }
        ensures looks { AreOf self.now.places looks.new }
        ensures steps { MatchResult result
            (λ _. WasLaidDown carrier.seat.me.0.who.number (steps_of looks.old)
            (steps_of looks.new))
            (λ _. CameBack carrier.seat.me.0.who.number (steps_of looks.old) (steps_of looks.new)) }
        ensures own { IfErr result
            (λ back. back.seat.table_id ≡ self.now.shared.now.table.shared.table_id) }
        ensures free { IfErr result (λ back. IsFreeCarrier back.seat.me) }
        ensures number { IfErr result
            (λ back. back.seat.me.0.who.number ≡ carrier.seat.me.0.who.number) }
    {
        let place = number(&carrier) as usize - 1;
        if self.places.len() <= place {
            return Err(carrier);
        }
        self.give_at(looks, place, carrier)
    }

    /// Lays the carrier down on its place.
    fn give_at(&self, looks: &mut Looks, i: usize, carrier: Carrier<K>) -> Result<(), Carrier<K>>
        requires own { carrier.seat.table_id ≡ self.now.shared.now.table.shared.table_id }
        requires free { IsFreeCarrier carrier.seat.me }
        requires number { carrier.seat.me.0.who.number ≡ i + 1 }
        requires looks { AreOf self.now.places looks.old }
        requires place { i < vec_len self.now.places }
        ensures looks { AreOf self.now.places looks.new }
        ensures step { MatchResult result
            (λ _. steps_of looks.new ≡ with_step_at i laid_one (steps_of looks.old))
            (λ _. steps_of looks.new ≡ with_step_at i laid_none (steps_of looks.old)) }
        ensures own { IfErr result
            (λ back. back.seat.table_id ≡ self.now.shared.now.table.shared.table_id) }
        ensures free { IfErr result (λ back. IsFreeCarrier back.seat.me) }
        ensures number { IfErr result
            (λ back. back.seat.me.0.who.number ≡ carrier.seat.me.0.who.number) }
    {
        let place = &self.places[i];
        let mark = &mut looks.marks[i];
        place.give(self.shared, mark, carrier)
    }
}
