//! What threads do with a pass each.
use crate::{contended, sleeps, turns};
use lock_examples::Player;
use mpm_base::NoMemory;
use std::sync::Wait;
use std::sync::atomic::AtomicU64;
use std::thread::{self, Threads};
use std::time::Clock;

/// What each thread does.
#[derive(Clone, Copy)]
pub enum Part<'a> {
    /// Pass 0 signals and folds, pass 1 serves, and each other one looks.
    Turns,
    /// It tries for permits; the word counts those that are out.
    Tries(&'a AtomicU64),
    /// Pass 0 holds the turn until another one sleeps for it; the word says how far they are.
    Sleeps(&'a AtomicU64),
    /// It takes the turn so often.
    Rounds(u32),
}

/// What a thread did.
#[derive(Clone, Copy)]
pub struct Done {
    /// How often it did what it was to do, or how many entries it found.
    pub count: u64,
    /// How many permits were out at most while it had one.
    pub most: u64,
}

/// Each player has a thread, and does its part.
pub fn play_all<R: Threads + Wait + Clock + Sync>(
    rt: &R,
    all: Vec<Player>,
    part: Part,
) -> Result<Vec<Done>, NoMemory> {
    match thread::map_vec(rt, all, &|player: Player| plays(rt, player, part)) {
        Ok(done) => Ok(done),
        Err(_) => Err(NoMemory),
    }
}

/// The player does its part.
fn plays<R: Wait + Clock>(rt: &R, player: Player, part: Part) -> Done {
    let count = match part {
        Part::Tries(out) => return contended::tries_often(player, out),
        Part::Turns => u64::from(turns::plays(rt, player)),
        Part::Sleeps(said) => sleeps::finds(rt, player, said),
        Part::Rounds(rounds) => u64::from(turns::takes_turns(rt, player, rounds)),
    };
    Done { count, most: 0 }
}

/// How often all did what they were to do.
pub fn sum_of(all: &[Done]) -> u64 {
    let mut sum: u64 = 0;
    for done in all {
        sum = sum.saturating_add(done.count);
    }
    sum
}
