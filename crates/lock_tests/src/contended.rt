//! Permits for which several threads contend.
use crate::parts::{Done, Part, play_all, sum_of};
use crate::starter::{Left, Starter};
use crate::trier::Trier;
use lock_examples::Player;
use mpm_base::NoMemory;
use std::sync::Wait;
use std::sync::atomic::{AtomicU64, Ordering};
use std::thread::{self, Threads};
use std::time::Clock;
use test_rows::Sheet;

/// How often each thread tries for a permit.
const TRIES: u32 = 2_000;

/// Shows what comes of threads that contend for permits, each with a player but the first one's, which starts the child.
pub fn show_contention<R: Threads + Wait + Clock + Sync>(
    sheet: &mut Sheet,
    rt: &R,
    mut all: Vec<Player>,
) -> Result<(), NoMemory> {
    match starter_of(rt, &mut all) {
        Some(starter) => contend(sheet, rt, starter, all),
        None => {
            sheet.println("a pass is missing, or the child has no workers");
            Ok(())
        }
    }
}

/// The first of the players starts the child.
fn starter_of<'a, R: Wait>(rt: &R, all: &mut Vec<Player<'a>>) -> Option<Starter<'a>> {
    if all.is_empty() {
        return None;
    }
    Starter::begin(rt, all.swap_remove(0))
}

/// The players contend.
fn contend<R: Threads + Wait + Clock + Sync>(
    sheet: &mut Sheet,
    rt: &R,
    starter: Starter,
    all: Vec<Player>,
) -> Result<(), NoMemory> {
    let out = AtomicU64::new(0);
    let done = play_all(rt, all, Part::Tries(&out));
    let left = starter.leave();
    let done = done?;
    show_seen(sheet, &done, left);
    Ok(())
}

/// Reserves a worker of child 0 and releases it, over and over; the word counts the permits that are out.
pub fn tries_often(player: Player, out: &AtomicU64) -> Done {
    let mut trier = Trier::of(player);
    let mut got: u64 = 0;
    let mut most: u64 = 0;
    for _ in 0..TRIES {
        if trier.reserve() {
            let others = out.fetch_add(1, Ordering::SeqCst);
            most = most.max(others.saturating_add(1));
            got = got.saturating_add(1);
            thread::yield_now();
            out.fetch_sub(1, Ordering::SeqCst);
            trier.release();
        }
    }
    Done { count: got, most }
}

/// How many permits were out at most.
fn most_of(all: &[Done]) -> u64 {
    let mut most: u64 = 0;
    for done in all {
        most = done.most.max(most);
    }
    most
}

/// Shows what the threads saw, as far as no schedule changes it.
fn show_seen(sheet: &mut Sheet, all: &[Done], left: Left) {
    println!(sheet;
        "{} threads tried\ntwo were out at most => {}\ntwo or more were got => {}",
        all.len(),
        most_of(all) <= 2,
        2 <= sum_of(all)
    );
    println!(sheet;
        "idle => {}\ncredit taken back => {}\nidle => {}",
        left.idle, left.uncredited, left.idle_behind
    );
}
