//! Carriers that rest on a perch.
ghost use Rattle.std.specs.Prelude.{◌≡◌, ℕ, Some, IfSome, slice_get};
ghost use Rattle.lock_examples.specs.Toy.{IsReadyPass};
ghost use Rattle.recycle_perch.specs.Looking.{AllAreOf, AreOf};
ghost use Rattle.recycle_perch.specs.Resting.{IsFreeCarrier};

use board_lock::{Carrier, Pass, Room, number};
use lock_examples::{Toy, first_pass, last_looks, reserves_once};
use mpm_base::NoMemory;
use recycle_perch::{Looks, Perch};
use std::alloc::Global;
use std::marker::PhantomData;

/// A carrier of the lock that has nothing.
#[derive(Drop)]
pub struct Parcel<B: Room> {
    carrier: Carrier<Box<Toy>>,
    of: PhantomData<B>,
    ghost own: { carrier.seat.table_id ≡ B.table },
    ghost free: { IsFreeCarrier carrier.seat.me },
}

/// The number of the carrier, and 0 where there is none.
pub fn number_of<B: Room>(parcel: &Option<Parcel<B>>) -> u32 {
    match parcel {
        Some(parcel) => number(&parcel.carrier),
        None => 0,
    }
}

/// A look at a perch.
#[derive(Drop)]
pub struct Rester<'p, 'a, B: Room> {
    perch: &'p Perch<'a, Box<Toy>>,
    looks: Looks,
    of: PhantomData<B>,
    ghost lock: { perch.now.shared.now.table.shared.table_id ≡ B.table },
    ghost at: { AreOf perch.now.places looks },
}

impl<'p, 'a, B: Room> Rester<'p, 'a, B> {
    /// A carrier that rests.
    pub fn take(&mut self) -> Option<Parcel<B>> {
        match self.perch.take(&mut self.looks) {
            Some(carrier) => Some(Parcel {
                carrier,
                of: PhantomData,
            }),
            None => None,
        }
    }

    /// The carrier lies down: whether there was one, and it did.
    pub fn give(&mut self, parcel: Option<Parcel<B>>) -> bool {
        match parcel {
            Some(parcel) => self.lay(parcel),
            None => false,
        }
    }

    /// The carrier lies down: whether it did.
    fn lay(&mut self, parcel: Parcel<B>) -> bool {
        let Parcel { carrier, of: _ } = parcel;
        self.perch.give(&mut self.looks, carrier).is_ok()
    }

    /// The carrier lies down, after it tried for a permit: whether it did.
    pub fn lay_behind_try(&mut self, parcel: Parcel<B>) -> bool {
        let Parcel { mut carrier, of: _ } = parcel;
        let _ = reserves_once(self.perch.shared, &mut carrier);
        self.perch.give(&mut self.looks, carrier).is_ok()
    }

    /// All lie down: how many did.
    pub fn lay_all(&mut self, mut parcels: Vec<Parcel<B>>) -> u32 {
        let mut lying: u32 = 0;
        for _ in 0..parcels.len() {
            if self.give(parcels.pop()) {
                lying = lying.saturating_add(1);
            }
        }
        lying
    }
}

/// The last of the looks at the perch.
pub fn last_rester<'p, 'a, B: Room>(
    perch: &'p Perch<'a, Box<Toy>>,
    all: &mut Vec<Looks>,
) -> Option<Rester<'p, 'a, B>>
    requires lock { perch.now.shared.now.table.shared.table_id ≡ B.table }
    requires looks { AllAreOf perch.now.places all.old.items }
    ensures looks { AllAreOf perch.now.places all.new.items }
{
    match last_looks(perch, all) {
        Some(looks) => Some(Rester {
            perch,
            looks,
            of: PhantomData,
        }),
        None => None,
    }
}

/// The pass as a carrier that has a place on the perch, where it is the next for one.
fn admitted<'a, B: Room>(
    perch: &mut Perch<'a, Box<Toy>>,
    all: &mut Vec<Looks>,
    pass: Pass<Box<Toy>>,
) -> Option<Parcel<B>>
    requires lock { perch.old.shared.now.table.shared.table_id ≡ B.table }
    requires looks { AllAreOf perch.old.places all.old.items }
    requires own { pass.seat.table_id ≡ perch.old.shared.now.table.shared.table_id }
    requires ready { IsReadyPass pass.seat.me }
    ensures looks { AllAreOf perch.new.places all.new.items }
    ensures perch { perch.new.shared.now.table.shared.table_id ≡ perch.old.shared.now.table.shared.table_id }
{
    if number(&pass) == 0 {
        return None;
    }
    match perch.admit(all, pass) {
        Ok(carrier) => Some(Parcel {
            carrier,
            of: PhantomData,
        }),
        Err(_) => None,
    }
}

/// So many of the first passes, each as a carrier that has a place on the perch.
pub fn admit_first<'a, B: Room>(
    alloc: Global,
    perch: &mut Perch<'a, Box<Toy>>,
    all: &mut Vec<Looks>,
    passes: &mut Vec<Pass<Box<Toy>>>,
    count: u32,
) -> Result<Vec<Parcel<B>>, NoMemory>
    requires lock { perch.old.shared.now.table.shared.table_id ≡ B.table }
    requires looks { AllAreOf perch.old.places all.old.items }
    requires own { (p : ℕ) (pass : _)
        → slice_get passes.old.items p ≡ Some pass
        → pass.seat.table_id ≡ perch.old.shared.now.table.shared.table_id }
    requires ready { (p : ℕ) (pass : _)
        → slice_get passes.old.items p ≡ Some pass
        → IsReadyPass pass.seat.me }
    ensures looks { AllAreOf perch.new.places all.new.items }
    ensures perch { perch.new.shared.now.table.shared.table_id ≡ perch.old.shared.now.table.shared.table_id }
{
    let mut made = Vec::new(alloc);
    for _ in 0..count {
        let Some(pass) = first_pass(perch.shared, passes) else {
            return Ok(made);
        };
        if let Some(parcel) = admitted(perch, all, pass) {
            made.push(parcel)?;
        }
    }
    Ok(made)
}
