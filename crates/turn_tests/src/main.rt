//! Tests of workers over a board under the lock: connections go by a queue from the listener to workers on several threads, each with its
//! carrier, and are served turn by turn, while the listener takes, signals and hands over others, restarts, and folds the board.
//! The file `stdin` says what is tried, section by section, and `stdout` what must come of it, whatever the schedule.
//!
//! In the input a line that begins with `== ` begins a section: the words up to a colon say what is tried, and the rest is its title.
//! There are no rows. One thread is the listener's, and each other one a worker's.
//!
//! - `serve THREADS CONNECTIONS WINDOW RESTARTS`: so many connections, of which at most so many are open at once, and so many restarts
//!   between them, each once all that were taken before are gone: the child is let go of then, and starts again. By their numbers the clients send a request, nothing, three requests at
//!   once, the same little by little with little room for the responses, the same less so, half a request before a reset, and a request
//!   whose response can't be sent; the last one asks for its connection to be closed, which lingers then. One link of 64 looks at each of
//!   its calls whether the listener gets a turn meanwhile.
//! - `keep THREADS CONNECTIONS WINDOW RESTARTS`: the same, where nothing is folded.
//! - `wake THREADS CONNECTIONS WINDOW`: the same without restarts, and the listener wakes workers behind a push, and at no other time.
//! - `hold THREADS CONNECTIONS WINDOW`: the same, where the listener takes one worker for enough; one link of eight holds its worker at its
//!   first call until the connection behind it is gone.
//! - `rounds THREADS COUNT`: 60 connections whose clients send nothing, until so many services began; then they end. With one thread it
//!   does all. `bench/turns` times such sections from outside.
//!
//! What is shown is how many connections were taken, linger, and were closed, how many responses were decided, and how many children began;
//! how many threads ended as they have to, how many items are in the queue then, how many carriers rest, and of how many workers nobody has
//! a permit; whether each item that was pushed was served, and the bell rung for it; how many calls of links waited in vain; whether the
//! history was folded; whether it is one of the event table, entry by entry, or where it was folded counts the connections that were taken;
//! and whether each connection was sent what it is where one thread does all.
#![tactic(auto)]

mod carriers;
mod clients;
mod crew;
mod links;
mod listener;
mod opening;
mod players;
mod replay;
mod stage;
mod steps;
mod taking;
mod tally;

use crew::{Served, serve_all, show_same, show_served};
use listener::Plan;
use mpm_base::NoMemory;
use std::alloc::Global;
use std::io;
use std::sync::Wait;
use std::thread::Threads;
use tally::Habits;
use test_rows::{Sheet, grown, open_section, sections_of, small_of, words};

/// The most connections that are open at once.
const MOST_OPEN: u32 = 60;

/// The most threads: the listener's, and one for each seat of the queue but two.
const MOST_THREADS: u32 = 64;

fn main(rt: HostRuntime) -> io::Result<()> {
    let input = io::read_to_string(rt.alloc(), rt.reader())?;
    for text in sections_of(input.as_str()) {
        let sheet = grown(sheet_of(&rt, rt.alloc(), text))?;
        sheet.show(&rt)?;
    }
    Ok(())
}

/// What comes of the section of this text.
fn sheet_of<R: Threads + Wait + Sync>(
    rt: &R,
    alloc: Global,
    text: &str,
) -> Result<Sheet, NoMemory> {
    let mut sheet = Sheet::make(alloc);
    let section = open_section(&mut sheet, text);
    let (threads, rest) = words(section.rest);
    let workers = small_of(threads).clamp(1, MOST_THREADS) - 1;
    if section.word == "rounds" {
        show_rounds(rt, &mut sheet, alloc, workers, small_of(rest))?;
    } else {
        show_service(rt, &mut sheet, alloc, plan_of(section.word, workers, rest))?;
    }
    Ok(sheet)
}

/// The plan of a section of that kind, by its further words.
fn plan_of(kind: &str, workers: u32, rest: &str) -> Plan {
    let (connections, rest) = words(rest);
    let (window, restarts) = words(rest);
    let connections = small_of(connections).max(1);
    Plan {
        connections,
        window: small_of(window).clamp(1, MOST_OPEN),
        workers,
        most: if kind == "hold" { 1 } else { workers },
        wakes_once: kind == "wake",
        folding: kind != "keep",
        restarts_behind: behind(connections, small_of(restarts)),
    }
}

/// Behind how many connections the server restarts, where it does so many times.
fn behind(connections: u32, restarts: u32) -> u32 {
    let parts = restarts.saturating_add(1);
    connections.saturating_add(parts - 1) / parts
}

/// Shows what comes of the plan, and whether each connection was sent what it is by one thread.
fn show_service<R: Threads + Wait + Sync>(
    rt: &R,
    sheet: &mut Sheet,
    alloc: Global,
    plan: Plan,
) -> Result<(), NoMemory> {
    let quiet = Habits {
        look: false,
        hold: false,
        services: 0,
    };
    let alone = Plan { workers: 0, ..plan };
    let habits = Habits {
        look: plan.workers != 0,
        hold: plan.most < plan.workers,
        services: 0,
    };
    if let Some(by_one) = serve_all(rt, alloc, alone, quiet)? {
        show_beside(rt, sheet, alloc, plan, habits, &by_one)?;
    }
    Ok(())
}

/// Shows what comes of the plan, beside what came of one thread.
fn show_beside<R: Threads + Wait + Sync>(
    rt: &R,
    sheet: &mut Sheet,
    alloc: Global,
    plan: Plan,
    habits: Habits,
    by_one: &Served,
) -> Result<(), NoMemory> {
    if let Some(by_all) = serve_all(rt, alloc, plan, habits)? {
        show_both(sheet, plan, by_one, &by_all);
    }
    Ok(())
}

/// Shows what came of the plan, and of one thread.
fn show_both(sheet: &mut Sheet, plan: Plan, by_one: &Served, by_all: &Served) {
    show_served(sheet, by_all);
    show_same(sheet, by_all, by_one);
    if plan.wakes_once {
        println!(sheet;
            "no more wakes than items => {}",
            by_all.tally.wakes_are_few()
        );
    }
}

/// Shows what comes of so many services of clients that wait.
fn show_rounds<R: Threads + Wait + Sync>(
    rt: &R,
    sheet: &mut Sheet,
    alloc: Global,
    workers: u32,
    count: u32,
) -> Result<(), NoMemory> {
    let plan = Plan {
        connections: MOST_OPEN,
        window: MOST_OPEN,
        workers,
        most: workers,
        wakes_once: false,
        folding: true,
        restarts_behind: u32::MAX,
    };
    let habits = Habits {
        look: false,
        hold: false,
        services: count.max(1) as u64,
    };
    if let Some(served) = serve_all(rt, alloc, plan, habits)? {
        println!(sheet; "{}", served.tally.is_over());
    }
    Ok(())
}
