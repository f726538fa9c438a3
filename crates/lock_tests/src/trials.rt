//! What is tried with the passes of a lock, each of which is handed to a player.
ghost use Rattle.std.specs.Prelude.{◌≤◌};

use crate::{contended, passes, permits, rounds, sleeps, turns};
use lock_examples::{Player, opened, players};
use mpm_base::NoMemory;
use std::alloc::Global;
use std::sync::Wait;
use std::thread::Threads;
use std::time::Clock;
use test_rows::{Sheet, small_of};

/// What is tried.
#[derive(Clone, Copy)]
pub enum Trial {
    /// Two passes look behind an entry.
    Passes,
    /// Three carriers reserve workers.
    Permits,
    /// One sleeps for the turn that another one holds.
    Sleep,
    /// Each thread takes its turns.
    Turns,
    /// Each thread tries for permits.
    Contention,
    /// Each thread takes the turn so often.
    Rounds(u32),
}

/// What is tried, and with how many passes.
#[derive(Clone, Copy)]
pub struct Plan {
    pub trial: Trial,
    pub passes: u32,
    ghost some: { 1 ≤ passes },
    ghost few: { passes ≤ 65 },
}

/// The plan of these words.
pub fn plan_of(word: &str, rest: &str) -> Plan {
    let all = small_of(rest).min(64) + 1;
    match word {
        "passes" => Plan {
            trial: Trial::Passes,
            passes: 2,
        },
        "permits" => Plan {
            trial: Trial::Permits,
            passes: 4,
        },
        "sleep" => Plan {
            trial: Trial::Sleep,
            passes: 2,
        },
        "turns" => Plan {
            trial: Trial::Turns,
            passes: all,
        },
        _ => Plan {
            trial: Trial::Contention,
            passes: all,
        },
    }
}

/// Opens a lock with so many passes, and shows what comes of the trial.
pub fn show_trial<R: Threads + Wait + Clock + Sync>(
    sheet: &mut Sheet,
    rt: &R,
    alloc: Global,
    plan: Plan,
) -> Result<(), NoMemory> {
    let Plan {
        trial,
        passes: count,
    } = plan;
    let (shared, mut passes) = opened(alloc, count)?;
    let all = players(alloc, &shared, &mut passes, count)?;
    try_with(sheet, rt, trial, all)
}

/// Shows what comes of the trial with these players.
fn try_with<R: Threads + Wait + Clock + Sync>(
    sheet: &mut Sheet,
    rt: &R,
    trial: Trial,
    all: Vec<Player>,
) -> Result<(), NoMemory> {
    match trial {
        Trial::Passes => passes::show_passes(sheet, rt, all),
        Trial::Permits => permits::show_permits(sheet, rt, all),
        Trial::Sleep => return sleeps::show_sleep(sheet, rt, all),
        Trial::Turns => return turns::show_turns(sheet, rt, all),
        Trial::Contention => return contended::show_contention(sheet, rt, all),
        Trial::Rounds(count) => return rounds::show_turns(sheet, rt, all, count),
    }
    Ok(())
}
