//! Each carrier comes to rest on the perch.
ghost use Rattle.std.specs.Prelude.{◌≡◌, ◌≤◌, ◌<◌, ◌+◌, ℕ, IfOk, IfSome, MatchOption, Some, slice_get, vec_capacity, vec_len};
ghost use Rattle.recycle_perch.specs.Looking.{AllAreOf};
ghost use Rattle.recycle_perch.specs.Resting.{IsFreeCarrier};
ghost use Rattle.listener_hands.specs.Opened.{IsNumberedBelow};

use board::Board;
use board_lock::{Carrier, Shared};
use conn_state::Known;
use mpm_base::{Link, NoMemory};
use recycle_perch::{Looks, Perch};
use std::alloc::Global;

/// A perch with a place for each of the carriers, the last of which has number 1, each laid down on its own; and looks for so many callers, at
/// least one.
pub fn seat_carriers<'a, L: Link, N: Known>(
    alloc: Global,
    shared: &'a Shared<Board<L, N>>,
    carriers: Vec<Carrier<Board<L, N>>>,
    callers: u32,
) -> Result<(Perch<'a, Board<L, N>>, Vec<Looks>), NoMemory>
    requires count { (1 ≤ vec_len carriers) × (vec_len carriers ≤ 4099) }
    requires theirs { (i : ℕ) (c : _)
        → slice_get carriers.items i ≡ Some c
        → c.seat.table_id ≡ shared.now.table.shared.table_id }
    requires numbered { (i : ℕ) (c : _)
        → slice_get carriers.items i ≡ Some c
        → IsNumberedBelow (vec_len carriers) i c.seat.me }
    requires callers { 1 ≤ callers }
    ensures own { IfOk result
        (λ o. o.0.shared.now.table.shared.table_id ≡ shared.now.table.shared.table_id) }
    ensures places { IfOk result (λ o. vec_len o.0.places ≡ vec_len carriers) }
    ensures looks { IfOk result (λ o. AllAreOf o.0.places o.1.items) }
    ensures count { IfOk result (λ o. vec_len o.1 ≡ callers) }
{
    let mut perch = Perch::make(alloc, shared, carriers.len() as u32)?;
    let mut looks = perch.looks(alloc, callers)?;
    seat_all(&mut perch, &mut looks, carriers);
    Ok((perch, looks))
}

/// Makes the place of each carrier, and lays it down there.
fn seat_all<L: Link, N: Known>(
    perch: &mut Perch<'_, Board<L, N>>,
    looks: &mut Vec<Looks>,
    carriers: Vec<Carrier<Board<L, N>>>,
)
    requires theirs { (i : ℕ) (c : _)
        → slice_get carriers.items i ≡ Some c
        → c.seat.table_id ≡ perch.old.shared.now.table.shared.table_id }
    requires numbered { (i : ℕ) (c : _)
        → slice_get carriers.items i ≡ Some c
        → IsNumberedBelow (vec_len carriers) i c.seat.me }
    requires empty { vec_len perch.old.places ≡ 0 }
    requires room { vec_capacity perch.old.places ≡ vec_len carriers }
    requires looks { AllAreOf perch.old.places looks.old.items }
    requires some { 1 ≤ vec_len looks.old }
    ensures own { perch.new.shared.now.table.shared.table_id
        ≡ perch.old.shared.now.table.shared.table_id }
    ensures places { vec_len perch.new.places ≡ vec_len carriers }
    ensures looks { AllAreOf perch.new.places looks.new.items }
    ensures count { vec_len looks.new ≡ vec_len looks.old }
{
    let mut left = carriers;
    let count = left.len();
    while let Some(carrier) = next_carrier(perch, &mut left, count) {
        seat_one(perch, looks, carrier);
    }
}

/// The last of the carriers that are left, of so many.
fn next_carrier<L: Link, N: Known>(
    perch: &Perch<'_, Board<L, N>>,
    left: &mut Vec<Carrier<Board<L, N>>>,
    count: usize,
) -> Option<Carrier<Board<L, N>>>
    requires theirs { (i : ℕ) (c : _)
        → slice_get left.old.items i ≡ Some c
        → c.seat.table_id ≡ perch.now.shared.now.table.shared.table_id }
    requires numbered { (i : ℕ) (c : _)
        → slice_get left.old.items i ≡ Some c
        → IsNumberedBelow count i c.seat.me }
    ensures theirs { (i : ℕ) (c : _)
        → slice_get left.new.items i ≡ Some c
        → c.seat.table_id ≡ perch.now.shared.now.table.shared.table_id }
    ensures numbered { (i : ℕ) (c : _)
        → slice_get left.new.items i ≡ Some c
        → IsNumberedBelow count i c.seat.me }
    ensures own { IfSome result
        (λ c. c.seat.table_id ≡ perch.now.shared.now.table.shared.table_id) }
    ensures last { IfSome result (λ c. IsNumberedBelow count (vec_len left.new) c.seat.me) }
    ensures len { MatchOption result ((vec_len left.old ≡ 0) × (vec_len left.new ≡ 0))
        (λ _. vec_len left.new + 1 ≡ vec_len left.old) }
{
    left.pop()
}

/// Makes the place of the carrier, which is the next by its number, and lays it down there.
fn seat_one<L: Link, N: Known>(
    perch: &mut Perch<'_, Board<L, N>>,
    looks: &mut Vec<Looks>,
    carrier: Carrier<Board<L, N>>,
)
    requires own { carrier.seat.table_id ≡ perch.old.shared.now.table.shared.table_id }
    requires free { IsFreeCarrier carrier.seat.me }
    requires next { carrier.seat.me.0.who.number ≡ vec_len perch.old.places + 1 }
    requires room { vec_len perch.old.places < vec_capacity perch.old.places }
    requires looks { AllAreOf perch.old.places looks.old.items }
    requires some { 1 ≤ vec_len looks.old }
    ensures own { perch.new.shared.now.table.shared.table_id
        ≡ perch.old.shared.now.table.shared.table_id }
    ensures places { vec_len perch.new.places ≡ vec_len perch.old.places + 1 }
    ensures room { vec_capacity perch.new.places ≡ vec_capacity perch.old.places }
    ensures looks { AllAreOf perch.new.places looks.new.items }
    ensures count { vec_len looks.new ≡ vec_len looks.old }
{
    match perch.admit(looks, carrier) {
        Ok(carrier) => {
            let _ = perch.give(&mut looks[0], carrier);
        }
        Err(_) => unreachable!(),
    }
}
