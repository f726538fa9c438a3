//! Carriers that rest on a perch, travel through a queue, and come back.
ghost use Rattle.std.specs.Prelude.{◌≡◌, ℕ, Some, slice_get};
ghost use Rattle.recycle_perch.specs.Looking.{AllAreOf};
ghost use Rattle.lock_examples.specs.Toy.{IsReadyPass};

use crate::posts::{Post, posts};
use crate::resters::{Parcel, admit_first, last_rester, number_of};
use crate::starter::{Left, Starter};
use board_lock::{Pass, Room, Shared};
use fd_queue::FdQueue;
use lock_examples::{Player, Toy, first_pass, opened};
use mpm_base::NoMemory;
use recycle_perch::{Looks, Perch};
use std::alloc::Global;
use std::marker::Brand;
use std::sync::Wait;
use std::thread::{self, Threads};
use test_rows::Sheet;

/// What came of the carriers.
#[derive(Clone, Copy)]
struct Travelled {
    /// All lay down at first.
    rested: bool,
    /// How many threads did all.
    done: usize,
    /// The numbers of those that rest behind them, as they are taken; 0 where none does.
    numbers: [u32; 3],
    /// No further one rests.
    no_more: bool,
}

/// Shows what comes of three carriers that travel.
pub fn show_travel<R: Threads + Wait + Sync>(
    sheet: &mut Sheet,
    rt: &R,
    alloc: Global,
) -> Result<(), NoMemory> {
    let (shared, mut passes) = opened(alloc, 4)?;
    show_answer(sheet, rt, alloc, &shared, &mut passes)
}

/// The first pass starts the child, and the others travel.
fn show_answer<R: Threads + Wait + Sync>(
    sheet: &mut Sheet,
    rt: &R,
    alloc: Global,
    shared: &Shared<Box<Toy>>,
    passes: &mut Vec<Pass<Box<Toy>>>,
) -> Result<(), NoMemory>
    requires own { (p : ℕ) (pass : _)
        → slice_get passes.old.items p ≡ Some pass
        → pass.seat.table_id ≡ shared.now.table.shared.table_id }
    requires ready { (p : ℕ) (pass : _)
        → slice_get passes.old.items p ≡ Some pass
        → IsReadyPass pass.seat.me }
{
    let starter = match first_pass(shared, passes) {
        Some(pass) => Starter::begin(rt, Player { shared, pass }),
        None => None,
    };
    let answer = come_back::<Brand, R>(rt, alloc, shared, passes);
    match starter {
        Some(starter) => show_travelled(sheet, answer, starter.leave()),
        None => {
            sheet.println("the child has no workers");
            Ok(())
        }
    }
}

/// Three carriers rest, travel, and are taken from where they rest again.
fn come_back<B: Room + Send + Sync, R: Threads + Wait + Sync>(
    rt: &R,
    alloc: Global,
    shared: &Shared<Box<Toy>>,
    passes: &mut Vec<Pass<Box<Toy>>>,
) -> Result<Option<Travelled>, NoMemory>
    requires lock { shared.now.table.shared.table_id ≡ B.table }
    requires own { (p : ℕ) (pass : _)
        → slice_get passes.old.items p ≡ Some pass
        → pass.seat.table_id ≡ shared.now.table.shared.table_id }
    requires ready { (p : ℕ) (pass : _)
        → slice_get passes.old.items p ≡ Some pass
        → IsReadyPass pass.seat.me }
{
    let mut perch = Perch::make(alloc, shared, 3)?;
    let mut all = perch.looks(alloc, 5)?;
    let parcels = admit_first::<B>(alloc, &mut perch, &mut all, passes, 3)?;
    travel_all(rt, alloc, &perch, &mut all, parcels)
}

/// The carriers rest, travel, and are taken from where they rest again.
fn travel_all<'a, B: Room + Send + Sync, R: Threads + Wait + Sync>(
    rt: &R,
    alloc: Global,
    perch: &Perch<'a, Box<Toy>>,
    all: &mut Vec<Looks>,
    parcels: Vec<Parcel<B>>,
) -> Result<Option<Travelled>, NoMemory>
    requires lock { perch.now.shared.now.table.shared.table_id ≡ B.table }
    requires looks { AllAreOf perch.now.places all.old.items }
{
    let Some(mut rester) = last_rester::<B>(perch, all) else {
        return Ok(None);
    };
    let rested = rester.lay_all(parcels) == 3;
    let done = travel::<B, R>(rt, alloc, perch, all)?;
    let numbers = [
        number_of(&rester.take()),
        number_of(&rester.take()),
        number_of(&rester.take()),
    ];
    Ok(Some(Travelled {
        rested,
        done,
        numbers,
        no_more: rester.take().is_none(),
    }))
}

/// Carriers go from the perch through a queue and back, with as many threads as there are to be: how many did all.
fn travel<'a, B: Room + Send + Sync, R: Threads + Wait + Sync>(
    rt: &R,
    alloc: Global,
    perch: &Perch<'a, Box<Toy>>,
    all: &mut Vec<Looks>,
) -> Result<usize, NoMemory>
    requires lock { perch.now.shared.now.table.shared.table_id ≡ B.table }
    requires looks { AllAreOf perch.now.places all.old.items }
{
    let (queue, seats) = FdQueue::<Parcel<B>>::make(alloc, 2, 4)?;
    let jobs = posts(alloc, perch, all, &queue, seats)?;
    match thread::map_vec(rt, jobs, &|post: Post<B>| post.plays(rt)) {
        Ok(done) => Ok(count_true(&done)),
        Err(_) => Err(NoMemory),
    }
}

/// How many did all.
fn count_true(all: &[bool]) -> usize {
    let mut count: usize = 0;
    for done in all {
        count = count.wrapping_add(usize::from(*done));
    }
    count
}

/// Shows what came of it.
fn show_travelled(
    sheet: &mut Sheet,
    answer: Result<Option<Travelled>, NoMemory>,
    left: Left,
) -> Result<(), NoMemory> {
    let Some(travelled) = answer? else {
        sheet.println("a carrier has no place");
        return Ok(());
    };
    let [first, second, third] = travelled.numbers;
    println!(sheet;
        "all lie down => {}\n{} threads did all\ntaken => {first}, {second}, {third}",
        travelled.rested, travelled.done
    );
    println!(sheet;
        "nobody rests => {}\nidle => {}\ncredit taken back => {}",
        travelled.no_more, left.idle, left.uncredited
    );
    Ok(())
}
