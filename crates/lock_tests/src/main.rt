//! Tests of the lock, of permits, of the perch and of the queue, with the small value of `lock_examples`, on one thread and on several.
//! The file `stdin` says which, section by section, and `stdout` what must come of them, whatever the schedule.
//!
//! In the input a line that begins with `== ` begins a section: the words up to a colon say what is tried, and the rest is its title. But
//! for `queue` a section has no rows.
//!
//! - `passes`: pass 0 makes an entry, and each of two passes looks.
//! - `permits`: three carriers reserve workers of a child that has two.
//! - `perch`: two carriers lie down, are taken, and lie down again.
//! - `turns THREADS`: pass 0 signals the connection a thousand times and folds now and then, pass 1 serves it each time, and each
//!   further thread looks a thousand times. Each entry is compared with the one that must stand in its place.
//! - `sleep`: a thread holds the turn until another one sleeps for it, which only the turn's return ends.
//! - `contend THREADS`: each thread tries two thousand times for a permit of a child that has two workers, and gives it back.
//! - `travel`: three carriers leave their perch two thousand times, a thousand times by each of two threads that send them through a
//!   queue, and lie down again as two other threads receive them.
//! - `queue PLACES`: the calls `push NUMBER`, `pop` and `end TIMES` of a seat that is alone at a queue of so many places.
//! - `relay PLACES`: a thread puts a thousand numbers into such a queue, and another one takes as many items.
//! - `rounds KIND THREADS COUNT`: each of so many threads does so many rounds, and all of them are counted that found what they were to
//!   find. A round of `board_lock` takes the turn, looks at the value and gives the turn back; one of `mutex` does the same with a `Mutex`
//!   round the same value. A round of `fd_queue` puts an item into a queue of 64 places and takes one; one of `array_queue` does it with
//!   the queue that `fd_queue` stands on. `bench/lock` times such sections from outside.
#![tactic(auto)]

mod contended;
mod parts;
mod passes;
mod perches;
mod permits;
mod posts;
mod queues;
mod resters;
mod rounds;
mod sleeps;
mod starter;
mod travels;
mod trials;
mod trier;
mod turns;

use mpm_base::NoMemory;
use std::alloc::Global;
use std::io;
use std::sync::Wait;
use std::thread::Threads;
use std::time::Clock;
use test_rows::{Section, Sheet, grown, open_section, sections_of};

fn main(rt: HostRuntime) -> io::Result<()> {
    let input = io::read_to_string(rt.alloc(), rt.reader())?;
    for text in sections_of(input.as_str()) {
        let sheet = grown(sheet_of(&rt, rt.alloc(), text))?;
        sheet.show(&rt)?;
    }
    Ok(())
}

/// What comes of the section of this text.
fn sheet_of<R: Threads + Wait + Clock + Sync>(
    rt: &R,
    alloc: Global,
    text: &str,
) -> Result<Sheet, NoMemory> {
    let mut sheet = Sheet::make(alloc);
    let section = open_section(&mut sheet, text);
    show_section(&mut sheet, rt, alloc, section)?;
    Ok(sheet)
}

/// Shows what comes of the section.
fn show_section<R: Threads + Wait + Clock + Sync>(
    sheet: &mut Sheet,
    rt: &R,
    alloc: Global,
    section: Section<'_>,
) -> Result<(), NoMemory> {
    let Section { word, rest, rows } = section;
    match word {
        "perch" => perches::show_perch(sheet, alloc),
        "travel" => travels::show_travel(sheet, rt, alloc),
        "queue" => queues::show_queue(sheet, rt, alloc, rest, rows),
        "relay" => queues::show_relay(sheet, rt, alloc, rest),
        "rounds" => rounds::show_rounds(sheet, rt, alloc, rest),
        _ => trials::show_trial(sheet, rt, alloc, trials::plan_of(word, rest)),
    }
}
