//! Turns of several threads with the small value.
ghost use Rattle.std.specs.Prelude.{◌≤◌};

use crate::parts::{Part, play_all, sum_of};
use crate::starter::Starter;
use board_lock::number;
use conn_machine::{Entry, Event, Reply};
use lock_examples::{Player, Toy, looks, serves};
use mpm_base::{ConnName, Kind, NoMemory};
use std::sync::Wait;
use std::thread::{self, Threads};
use std::time::Clock;
use test_rows::Sheet;

/// How often the connection is served.
const ROUNDS: u32 = 1_000;

/// How many turns each thread takes that only looks.
const TURNS: u32 = 1_000;

/// Shows what comes of the turns of threads, each with a player but the last one's.
pub fn show_turns<R: Threads + Wait + Clock + Sync>(
    sheet: &mut Sheet,
    rt: &R,
    mut all: Vec<Player>,
) -> Result<(), NoMemory> {
    match all.pop() {
        Some(last) => play_turns(sheet, rt, last, all),
        None => {
            sheet.println("a pass is missing");
            Ok(())
        }
    }
}

/// The players take their turns, and behind them the last one takes the value out of the lock.
fn play_turns<R: Threads + Wait + Clock + Sync>(
    sheet: &mut Sheet,
    rt: &R,
    last: Player,
    all: Vec<Player>,
) -> Result<(), NoMemory> {
    let done = play_all(rt, all, Part::Turns)?;
    let Player { shared, pass } = last;
    show_played(sheet, &shared.close(rt, pass), sum_of(&done));
    Ok(())
}

/// Pass 0 signals and folds, pass 1 serves, and each other pass looks: whether all was done.
pub fn plays<R: Wait>(rt: &R, player: Player) -> bool {
    match number(&player.pass) {
        0 => signals(rt, player),
        1 => works(rt, player),
        _ => watches(rt, player),
    }
}

/// Turns of pass 0: the child starts, the connection is taken, and it is signalled so often. Each tenth step is made in a
/// turn that folds.
fn signals<R: Wait>(rt: &R, player: Player) -> bool {
    let Some(mut starter) = Starter::begin(rt, player) else {
        return false;
    };
    let mut left = ROUNDS + 1;
    for _ in rt.forever() {
        if left == 0 {
            return true;
        }
        if starter.goes_on(rt, left % 10 == 0) {
            left -= 1;
        } else {
            thread::yield_now();
        }
    }
    unreachable!()
}

/// Turns of pass 1, which serves the connection so often.
fn works<R: Wait>(rt: &R, player: Player) -> bool {
    let Player { shared, mut pass } = player;
    if number(&pass) != 1 {
        return false;
    }
    let mut left = ROUNDS;
    for _ in rt.forever() {
        if left == 0 {
            return true;
        }
        if serves(rt, shared, &mut pass) {
            left -= 1;
        } else {
            thread::yield_now();
        }
    }
    unreachable!()
}

/// Turns that add nothing: whether the history never became shorter from one to the next.
fn watches<R: Wait>(rt: &R, player: Player) -> bool {
    let Player { shared, mut pass } = player;
    let mut grew = true;
    let mut before = 0;
    for _ in 0..TURNS {
        let now = looks(rt, shared, &mut pass);
        grew = grew && before <= now;
        before = now;
    }
    grew
}

/// Turns that look at the value: how many found it without entries.
pub fn takes_turns<R: Wait>(rt: &R, player: Player, rounds: u32) -> u32
    ensures { result ≤ rounds }
{
    let Player { shared, mut pass } = player;
    let mut done = 0;
    for _ in 0..rounds {
        if looks(rt, shared, &mut pass) == 0 {
            done += 1;
        }
    }
    done
}

/// Shows what the threads left, of which so many did all.
fn show_played(sheet: &mut Sheet, toy: &Box<Toy>, done: u64) {
    let entries = toy.entries();
    println!(sheet;
        "{done} threads did all\n{} entries, {} steps folded",
        entries.len(),
        toy.folded()
    );
    for (place, entry) in entries.iter().enumerate() {
        if !is_expected(place, entry) {
            return println!(sheet; "another one at {place}: {entry:?}");
        }
    }
    sheet.println("each entry stands in its place");
}

/// Whether that is the entry which stands at this place of a history.
fn is_expected(place: usize, entry: &Entry) -> bool {
    *entry == expected(place)
}

/// The entry that stands at this place of a history.
fn expected(place: usize) -> Entry {
    let name = ConnName { slot: 0, life: 0 };
    let round = place.saturating_sub(3) as u64 / 4;
    let (pass, ordinal, event, reply) = match place {
        0 => (0, 0, Event::StartChild(0), Reply::Done),
        1 => (0, 1, Event::Accept(0), Reply::Took(name, 0, 0)),
        2 => (0, 2, Event::Park(name, Kind::Reading), Reply::Done),
        _ => match (place - 3) % 4 {
            0 => (0, 3 + round, Event::Ready(0), Reply::Done),
            1 => (1, 3 * round, Event::Queue(name), Reply::Done),
            2 => (1, 3 * round + 1, Event::Start(name), Reply::Cell(0)),
            _ => (
                1,
                3 * round + 2,
                Event::Park(name, Kind::Reading),
                Reply::Done,
            ),
        },
    };
    Entry {
        pass,
        ordinal,
        event,
        reply,
    }
}
