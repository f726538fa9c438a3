//! A thread that sleeps for the turn.
use crate::parts::{Part, play_all};
use board_lock::number;
use lock_examples::{ASKS, HAS_TURN, Player, holds, looks, wait_for};
use mpm_base::NoMemory;
use std::sync::Wait;
use std::sync::atomic::{AtomicU64, Ordering};
use std::thread::Threads;
use std::time::Clock;
use test_rows::Sheet;

/// Shows what a thread finds that slept for the turn, and the one that held it. Where the turn is given back without a wake, this doesn't
/// end.
pub fn show_sleep<R: Threads + Wait + Clock + Sync>(
    sheet: &mut Sheet,
    rt: &R,
    all: Vec<Player>,
) -> Result<(), NoMemory> {
    let said = AtomicU64::new(0);
    let done = play_all(rt, all, Part::Sleeps(&said))?;
    match done.as_slice() {
        [held, slept] => println!(sheet;
            "one holds the turn and finds {}, one sleeps for it and finds {}",
            held.count, slept.count
        ),
        _ => sheet.println("a pass is missing"),
    }
    Ok(())
}

/// Pass 0 holds the turn until another one sleeps for it, which asks for it once it has it: how many entries the pass found.
pub fn finds<R: Wait + Clock>(rt: &R, player: Player, said: &AtomicU64) -> u64 {
    let Player { shared, mut pass } = player;
    if number(&pass) == 0 {
        return holds(rt, shared, &mut pass, said);
    }
    wait_for(rt, said, HAS_TURN);
    said.store(ASKS, Ordering::SeqCst);
    looks(rt, shared, &mut pass)
}
