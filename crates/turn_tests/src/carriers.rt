//! Where the passes of a new lock go: pass 0 to the listener, and each other one to rest on the perch.
ghost use Rattle.std.specs.Prelude.{◌≡◌, ℕ, Some, None, IfOk, IfSome, slice_get};
ghost use Rattle.recycle_perch.specs.Looking.{AllAreOf, AreOf};
ghost use Rattle.recycle_perch.specs.Resting.{IsFreeCarrier};
ghost use Rattle.board_turns.specs.Turns.{IsListener};
ghost use Rattle.turn_tests.specs.Passes.{HasCredit, IsFresh};
ghost use Rattle.turn_tests.specs.Props.{listens_props};

use crate::opening::{CARRIERS, TestBoard, last_of};
use board_lock::{Carrier, Pass, Room, Shared, number};
use mpm_base::NoMemory;
use recycle_perch::{Looks, Perch};
use std::alloc::Global;
use std::marker::PhantomData;

/// A carrier that has nothing.
#[derive(Drop)]
struct Spare<M: Room> {
    carrier: Carrier<TestBoard>,
    of: PhantomData<M>,
    ghost own: { carrier.seat.table_id ≡ M.table },
    ghost free: { IsFreeCarrier carrier.seat.me },
}

/// Pass 0 before it did anything.
#[derive(Drop)]
pub struct Zero<M: Room> {
    pub pass: Pass<TestBoard>,
    pub of: PhantomData<M>,
    ghost own: { pass.seat.table_id ≡ M.table },
    ghost listens: { IsListener pass.seat.me } by { Prim.hlevel listens_props },
    ghost none: { pass.seat.me.0.row ≡ None },
    ghost credit: { HasCredit 0 pass.seat.me.0.credits },
}

/// A pass of a new lock: pass 0, or one that may carry.
#[derive(Drop)]
enum Newcomer<M: Room> {
    Listens(Zero<M>),
    Carries(Spare<M>),
}

/// All passes, the last one first.
fn all_passes<M: Room>(
    alloc: Global,
    shared: &Shared<TestBoard>,
    passes: &mut Vec<Pass<TestBoard>>,
) -> Result<Vec<Newcomer<M>>, NoMemory>
    requires lock { shared.now.table.shared.table_id ≡ M.table }
    requires own { (p : ℕ) (pass : _)
        → slice_get passes.old.items p ≡ Some pass
        → pass.seat.table_id ≡ shared.now.table.shared.table_id }
    requires fresh { (p : ℕ) (pass : _)
        → slice_get passes.old.items p ≡ Some pass
        → IsFresh pass.seat.me }
{
    let mut made = Vec::new(alloc);
    for _ in 0..passes.len() {
        let Some(next) = last_pass::<M>(shared, passes) else {
            return Ok(made);
        };
        if made.push(next).is_err() {
            return Err(NoMemory);
        }
    }
    Ok(made)
}

/// The last of the passes.
fn last_pass<M: Room>(
    shared: &Shared<TestBoard>,
    passes: &mut Vec<Pass<TestBoard>>,
) -> Option<Newcomer<M>>
    requires lock { shared.now.table.shared.table_id ≡ M.table }
    requires own { (p : ℕ) (pass : _)
        → slice_get passes.old.items p ≡ Some pass
        → pass.seat.table_id ≡ shared.now.table.shared.table_id }
    requires fresh { (p : ℕ) (pass : _)
        → slice_get passes.old.items p ≡ Some pass
        → IsFresh pass.seat.me }
    ensures own { (p : ℕ) (pass : _)
        → slice_get passes.new.items p ≡ Some pass
        → pass.seat.table_id ≡ shared.now.table.shared.table_id }
    ensures fresh { (p : ℕ) (pass : _)
        → slice_get passes.new.items p ≡ Some pass
        → IsFresh pass.seat.me }
{
    let pass = last_of(shared, passes)?;
    if number(&pass) == 0 {
        return Some(Newcomer::Listens(Zero {
            pass,
            of: PhantomData,
        }));
    }
    Some(Newcomer::Carries(Spare {
        carrier: pass,
        of: PhantomData,
    }))
}

/// Makes the places of all carriers: the carriers.
fn admit_all<M: Room>(
    alloc: Global,
    perch: &mut Perch<'_, TestBoard>,
    looks: &mut Vec<Looks>,
    mut others: Vec<Newcomer<M>>,
) -> Result<Vec<Spare<M>>, NoMemory>
    requires perched { perch.old.shared.now.table.shared.table_id ≡ M.table }
    requires looks { AllAreOf perch.old.places looks.old.items }
    ensures perched { perch.new.shared.now.table.shared.table_id ≡ M.table }
    ensures looks { AllAreOf perch.new.places looks.new.items }
{
    let mut spare = Vec::new(alloc);
    for _ in 0..others.len() {
        let Some(Newcomer::Carries(next)) = others.pop() else {
            return Ok(spare);
        };
        let Some(carrier) = admit_one(perch, looks, next) else {
            return Ok(spare);
        };
        if spare.push(carrier).is_err() {
            return Err(NoMemory);
        }
    }
    Ok(spare)
}

/// Makes the place of the next carrier: the carrier.
fn admit_one<M: Room>(
    perch: &mut Perch<'_, TestBoard>,
    looks: &mut Vec<Looks>,
    next: Spare<M>,
) -> Option<Spare<M>>
    requires perched { perch.old.shared.now.table.shared.table_id ≡ M.table }
    requires looks { AllAreOf perch.old.places looks.old.items }
    ensures perched { perch.new.shared.now.table.shared.table_id ≡ M.table }
    ensures looks { AllAreOf perch.new.places looks.new.items }
{
    let Spare { carrier, of: _ } = next;
    match perch.admit(looks, carrier) {
        Ok(carrier) => Some(Spare {
            carrier,
            of: PhantomData,
        }),
        Err(_) => None,
    }
}

/// Lays the carriers down.
fn lay_down<M: Room>(perch: &Perch<'_, TestBoard>, looks: &mut Looks, mut spare: Vec<Spare<M>>)
    requires perched { perch.now.shared.now.table.shared.table_id ≡ M.table }
    requires looks { AreOf perch.now.places looks.old }
    ensures looks { AreOf perch.now.places looks.new }
{
    for _ in 0..spare.len() {
        let Some(Spare { carrier, of: _ }) = spare.pop() else {
            return;
        };
        let _ = perch.give(looks, carrier);
    }
}

/// How many carriers rest, which it takes up.
pub fn count_spare(perch: &Perch<'_, TestBoard>, looks: &mut Looks) -> u32
    requires { AreOf perch.now.places looks.old }
{
    for count in 0..CARRIERS + 1 {
        if perch.take(looks).is_none() {
            return count;
        }
    }
    CARRIERS + 1
}

/// The last of the looks.
pub fn next_looks(perch: &Perch<'_, TestBoard>, all: &mut Vec<Looks>) -> Option<Looks>
    requires { AllAreOf perch.now.places all.old.items }
    ensures all { AllAreOf perch.now.places all.new.items }
    ensures last { IfSome result (AreOf perch.now.places) }
{
    all.pop()
}

/// Each pass but the first one comes to rest on the perch: pass 0, and looks for whoever counts them at last.
pub fn settle<M: Room>(
    alloc: Global,
    shared: &Shared<TestBoard>,
    passes: &mut Vec<Pass<TestBoard>>,
    perch: &mut Perch<'_, TestBoard>,
    looks: &mut Vec<Looks>,
) -> Result<Option<(Zero<M>, Looks)>, NoMemory>
    requires lock { shared.now.table.shared.table_id ≡ M.table }
    requires own { (p : ℕ) (pass : _)
        → slice_get passes.old.items p ≡ Some pass
        → pass.seat.table_id ≡ shared.now.table.shared.table_id }
    requires fresh { (p : ℕ) (pass : _)
        → slice_get passes.old.items p ≡ Some pass
        → IsFresh pass.seat.me }
    requires perched { perch.old.shared.now.table.shared.table_id ≡ M.table }
    requires looks { AllAreOf perch.old.places looks.old.items }
    ensures perched { perch.new.shared.now.table.shared.table_id ≡ M.table }
    ensures looks { AllAreOf perch.new.places looks.new.items }
    ensures mine { IfOk result (λ o. IfSome o (λ made. AreOf perch.new.places made.1)) }
{
    let mut all = all_passes::<M>(alloc, shared, passes)?;
    let Some(Newcomer::Listens(zero)) = all.pop() else {
        return Ok(None);
    };
    let spare = admit_all(alloc, perch, looks, all)?;
    match lay_all_down(perch, looks, spare) {
        Some(mine) => Ok(Some((zero, mine))),
        None => Ok(None),
    }
}

/// Lays the carriers down, by the last of the looks: these. None where there are none.
fn lay_all_down<M: Room>(
    perch: &Perch<'_, TestBoard>,
    looks: &mut Vec<Looks>,
    spare: Vec<Spare<M>>,
) -> Option<Looks>
    requires perched { perch.now.shared.now.table.shared.table_id ≡ M.table }
    requires looks { AllAreOf perch.now.places looks.old.items }
    ensures looks { AllAreOf perch.now.places looks.new.items }
    ensures mine { IfSome result (AreOf perch.now.places) }
{
    let mut mine = next_looks(perch, looks)?;
    lay_down(perch, &mut mine, spare);
    Some(mine)
}
