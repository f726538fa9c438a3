//! A listener and workers on threads, over one board, and what comes of it.
ghost use Rattle.std.specs.Prelude.{◌≡◌};
ghost use Rattle.board_lock.specs.Passes.{HasNoTurn};

use crate::clients::empty_site;
use crate::listener::Plan;
use crate::opening::{CARRIERS, CHILDREN, TestBoard, last_of, opened};
use crate::replay::is_of_table;
use crate::stage::{Played, play_named};
use crate::tally::{Habits, Tally};
use board_lock::{Pass, Shared};
use conn_machine::Event;
use file_table::Site;
use idle_workers::idle;
use mpm_base::NoMemory;
use std::alloc::Global;
use std::marker::Brand;
use std::sync::{Arc, Wait};
use std::thread::Threads;
use test_rows::Sheet;

/// What came of a service.
#[derive(Drop)]
pub struct Served {
    pub tally: Arc<Tally>,
    played: Played,
    /// How many workers of all children nobody has a permit of behind all.
    permits: u64,
    counts: Counts,
}

/// What the board tells behind all.
#[derive(Clone, Copy)]
struct Counts {
    /// How many connections were taken, are open, and were closed, how many responses were decided, and how many children began.
    accepted: u64,
    live: u64,
    closed: u64,
    responses: u64,
    children: u64,
    /// Whether it was folded, and whether its history is one of the table.
    folded: bool,
    of_table: bool,
}

/// Serves by the plan. None where a pass is missing, or the board doesn't begin.
pub fn serve_all<R: Threads + Wait + Sync>(
    rt: &R,
    alloc: Global,
    plan: Plan,
    habits: Habits,
) -> Result<Option<Served>, NoMemory> {
    let Ok(site) = empty_site(alloc) else {
        return Err(NoMemory);
    };
    let tally = Tally::make(alloc, plan.connections, habits)?;
    let (Ok(site), Ok(tally)) = (Arc::new(alloc, site), Arc::new(alloc, tally)) else {
        return Err(NoMemory);
    };
    serve_from(rt, alloc, &site, tally, plan)
}

/// Serves from the site.
fn serve_from<R: Threads + Wait + Sync>(
    rt: &R,
    alloc: Global,
    site: &Arc<Site>,
    tally: Arc<Tally>,
    plan: Plan,
) -> Result<Option<Served>, NoMemory> {
    let (shared, mut passes) = opened(alloc, CARRIERS + 2)?;
    let Some(mut last) = last_of(&shared, &mut passes) else {
        return Ok(None);
    };
    let played = play_named::<Brand, R>(rt, alloc, &shared, &mut passes, site, &tally, plan)?;
    let permits = permits_of(&shared, &mut last);
    let board = shared.close(rt, last);
    let Some(played) = played else {
        return Ok(None);
    };
    served_of(alloc, &board, tally, played, permits)
}

/// What came of a service behind which the board is this.
fn served_of(
    alloc: Global,
    board: &TestBoard,
    tally: Arc<Tally>,
    played: Played,
    permits: u64,
) -> Result<Option<Served>, NoMemory> {
    let counts = counts_of(alloc, board)?;
    Ok(Some(Served {
        tally,
        played,
        permits,
        counts,
    }))
}

/// How many workers of all children nobody has a permit of.
fn permits_of(shared: &Shared<TestBoard>, pass: &mut Pass<TestBoard>) -> u64
    requires own { pass.old.seat.table_id ≡ shared.now.table.shared.table_id }
    requires free { HasNoTurn pass.old.seat.me }
    ensures own { pass.new.seat.table_id ≡ pass.old.seat.table_id }
    ensures free { HasNoTurn pass.new.seat.me }
{
    let mut permits: u64 = 0;
    for child in 0..CHILDREN {
        permits = permits.saturating_add(idle(shared, pass, child) as u64);
    }
    permits
}

/// What the board tells.
fn counts_of(alloc: Global, board: &TestBoard) -> Result<Counts, NoMemory> {
    let of_table = is_of_table(alloc, board)?;
    let folded = board.folded();
    let mut counts = Counts {
        accepted: board.state().accepted,
        live: board.state().rows.live_count() as u64,
        closed: folded.closed,
        responses: folded.responses,
        children: folded.children,
        folded: folded.entries != 0,
        of_table,
    };
    for entry in board.history() {
        count(&mut counts, &entry.event);
    }
    Ok(counts)
}

/// Counts an event that wasn't folded.
fn count(counts: &mut Counts, event: &Event) {
    match event {
        Event::Close(_, _, _) => counts.closed = counts.closed.saturating_add(1),
        Event::Answer(_, _) => counts.responses = counts.responses.saturating_add(1),
        Event::StartChild(_) => counts.children = counts.children.saturating_add(1),
        _ => (),
    }
}

/// Shows what came of it, as far as no schedule changes it.
pub fn show_served(sheet: &mut Sheet, served: &Served) {
    show_counts(sheet, served.counts);
    show_left(sheet, served.tally.seats(), served.played, served.permits);
    println!(sheet;
        "each item was served => {}, calls of links in vain => {}, folded => {}",
        served.tally.all_were_served(),
        served.tally.vain(),
        served.counts.folded
    );
}

/// Shows what the board tells.
fn show_counts(sheet: &mut Sheet, counts: Counts) {
    println!(sheet;
        "taken => {}, lingering => {}, closed => {}, responses => {}, children => {}",
        counts.accepted, counts.live, counts.closed, counts.responses, counts.children
    );
}

/// Shows what is there behind all.
fn show_left(sheet: &mut Sheet, seats: u64, played: Played, permits: u64) {
    println!(sheet;
        "seats => {}, items => {}, carriers => {}, permits => {}",
        seats, played.left, played.carriers, permits
    );
}

/// Shows whether the board's history is one of the table, and each connection was sent the same here and there.
pub fn show_same(sheet: &mut Sheet, served: &Served, other: &Served) {
    println!(sheet;
        "as the table => {}, as one thread => {}",
        served.counts.of_table,
        served.tally.same_as(&other.tally)
    );
}
