//! A perch of two carriers, on one thread.
ghost use Rattle.std.specs.Prelude.{◌≡◌, ℕ, Some, slice_get};
ghost use Rattle.lock_examples.specs.Toy.{IsReadyPass};

use crate::resters::{Parcel, Rester, admit_first, last_rester, number_of};
use board_lock::{Pass, Room, Shared};
use lock_examples::{Toy, first_pass, opened};
use mpm_base::NoMemory;
use recycle_perch::Perch;
use std::alloc::Global;
use std::marker::Brand;
use test_rows::Sheet;

/// What came of two carriers that lay down.
#[derive(Clone, Copy)]
struct Rested {
    /// Nobody rested at first, and when both were taken.
    none_first: bool,
    none_behind: bool,
    /// Both lay down, and the second one again.
    both: bool,
    again: bool,
    /// The numbers of those that were taken, one behind the other; 0 where none was.
    numbers: [u32; 3],
}

/// Shows what comes of two carriers that lie down.
pub fn show_perch(sheet: &mut Sheet, alloc: Global) -> Result<(), NoMemory> {
    let (shared, mut passes) = opened(alloc, 3)?;
    show_rested(sheet, rest_on::<Brand>(alloc, &shared, &mut passes))
}

/// Two carriers have their places on a perch, and rest there.
fn rest_on<B: Room>(
    alloc: Global,
    shared: &Shared<Box<Toy>>,
    passes: &mut Vec<Pass<Box<Toy>>>,
) -> Result<Option<Rested>, NoMemory>
    requires lock { shared.now.table.shared.table_id ≡ B.table }
    requires own { (p : ℕ) (pass : _)
        → slice_get passes.old.items p ≡ Some pass
        → pass.seat.table_id ≡ shared.now.table.shared.table_id }
    requires ready { (p : ℕ) (pass : _)
        → slice_get passes.old.items p ≡ Some pass
        → IsReadyPass pass.seat.me }
{
    let mut perch = Perch::make(alloc, shared, 2)?;
    let mut all = perch.looks(alloc, 1)?;
    // pass 0 has no place
    let _ = first_pass(shared, passes);
    let parcels = admit_first::<B>(alloc, &mut perch, &mut all, passes, 2)?;
    match last_rester::<B>(&perch, &mut all) {
        Some(rester) => Ok(Some(rest(rester, parcels))),
        None => Ok(None),
    }
}

/// Two carriers lie down and are taken, and the second one once more.
fn rest<B: Room>(mut rester: Rester<B>, parcels: Vec<Parcel<B>>) -> Rested {
    let none_first = rester.take().is_none();
    let both = rester.lay_all(parcels) == 2;
    let first = number_of(&rester.take());
    let second = rester.take();
    let second_number = number_of(&second);
    let none_behind = rester.take().is_none();
    let again = rester.give(second);
    let third = number_of(&rester.take());
    Rested {
        none_first,
        none_behind,
        both,
        again,
        numbers: [first, second_number, third],
    }
}

/// Shows what came of it.
fn show_rested(
    sheet: &mut Sheet,
    answer: Result<Option<Rested>, NoMemory>,
) -> Result<(), NoMemory> {
    let Some(rested) = answer? else {
        sheet.println("a carrier has no place");
        return Ok(());
    };
    let [first, second, third] = rested.numbers;
    println!(sheet;
        "nobody rests => {}\nboth lie down => {}\ntaken => {first}, {second}",
        rested.none_first, rested.both
    );
    println!(sheet;
        "nobody rests => {}\nthe second lies down => {}\ntaken => {third}",
        rested.none_behind, rested.again
    );
    Ok(())
}
