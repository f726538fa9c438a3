//! Rounds with the lock, with the queue, and with what each of them is compared with: so many by each of some threads.
ghost use Rattle.std.specs.Prelude.{◌≤◌};

use crate::parts::{Part, play_all, sum_of};
use crate::queues::{Work, work_all};
use crate::trials::{Plan, Trial, show_trial};
use conn_machine::Kept;
use crossbeam_queue::ArrayQueue;
use fd_queue::Item;
use lock_examples::{Player, Toy};
use mpm_base::NoMemory;
use std::alloc::Global;
use std::sync::{Mutex, Wait};
use std::thread::{self, Threads};
use std::time::Clock;
use test_rows::{Sheet, small_of, words};

/// How many places each queue has, and how many threads there are at most. Each thread has one item in the queue at most, so none finds it
/// full, or empty behind its own.
const PLACES: u32 = 64;

/// How many threads there are, and how many rounds each does.
#[derive(Clone, Copy)]
struct Workload {
    threads: u32,
    rounds: u32,
    ghost some: { 1 ≤ threads },
    ghost few: { threads ≤ 64 },
}

/// What the lock or the queue is compared with.
#[derive(Clone, Copy)]
enum Plain<'a> {
    /// A mutex round the value.
    Mutex(&'a Mutex<Box<Toy>>),
    /// The queue that `fd_queue` stands on.
    Queue(&'a ArrayQueue<Item<u32>>),
}

/// Shows how many rounds of all threads found what they were to find: a kind, how many threads, and how many rounds each does.
pub fn show_rounds<R: Threads + Wait + Clock + Sync>(
    sheet: &mut Sheet,
    rt: &R,
    alloc: Global,
    row: &str,
) -> Result<(), NoMemory> {
    let (kind, numbers) = words(row);
    let workload = workload_of(numbers);
    if kind == "board_lock" {
        let plan = Plan {
            trial: Trial::Rounds(workload.rounds),
            passes: workload.threads,
        };
        return show_trial(sheet, rt, alloc, plan);
    }
    let done = match kind {
        "mutex" => by_mutex(rt, alloc, workload)?,
        "fd_queue" => by_fd_queue(rt, alloc, workload)?,
        _ => by_array_queue(rt, alloc, workload)?,
    };
    println!(sheet; "{done}");
    Ok(())
}

/// The workload of the two numbers, with at least one thread and at most as many as the queue has places.
fn workload_of(numbers: &str) -> Workload {
    let (threads, rounds) = words(numbers);
    Workload {
        threads: small_of(threads).clamp(1, PLACES),
        rounds: small_of(rounds),
    }
}

/// Shows how many turns of the players found the value without entries, where each takes so many.
pub fn show_turns<R: Threads + Wait + Clock + Sync>(
    sheet: &mut Sheet,
    rt: &R,
    all: Vec<Player>,
    count: u32,
) -> Result<(), NoMemory> {
    let done = play_all(rt, all, Part::Rounds(count))?;
    println!(sheet; "{}", sum_of(&done));
    Ok(())
}

/// Each thread puts an item and takes one so often, by a seat of its own.
fn by_fd_queue<R: Wait + Threads + Sync>(
    rt: &R,
    alloc: Global,
    workload: Workload,
) -> Result<u64, NoMemory> {
    let counts = work_all(
        rt,
        alloc,
        PLACES,
        workload.threads,
        Work::Rounds(workload.rounds),
    )?;
    Ok(total_of(&counts))
}

/// Each thread puts an item and takes one so often.
fn by_array_queue<R: Wait + Threads + Sync>(
    rt: &R,
    alloc: Global,
    workload: Workload,
) -> Result<u64, NoMemory> {
    let queue = ArrayQueue::new(alloc, PLACES as usize)?;
    by_plain(rt, alloc, workload, Plain::Queue(&queue))
}

/// Each thread locks the mutex so often.
fn by_mutex<R: Wait + Threads + Sync>(
    rt: &R,
    alloc: Global,
    workload: Workload,
) -> Result<u64, NoMemory> {
    let value = Mutex::new(Box::new(alloc, Toy::new(alloc, workload.threads))?);
    by_plain(rt, alloc, workload, Plain::Mutex(&value))
}

/// Each thread does its rounds with what the lock or the queue is compared with.
fn by_plain<R: Wait + Threads + Sync>(
    rt: &R,
    alloc: Global,
    workload: Workload,
    plain: Plain,
) -> Result<u64, NoMemory> {
    let rounds = workload.rounds;
    let count = workload.threads as usize;
    match thread::map_indices(rt, alloc, count, &|_| does_rounds(rt, plain, rounds)) {
        Ok(counts) => Ok(total_of(&counts)),
        Err(_) => Err(NoMemory),
    }
}

/// Does so many rounds: how many found what they were to find.
fn does_rounds<R: Wait>(rt: &R, plain: Plain, rounds: u32) -> u32
    ensures { result ≤ rounds }
{
    match plain {
        Plain::Mutex(value) => locks(rt, value, rounds),
        Plain::Queue(queue) => relays(rt, queue, rounds),
    }
}

/// Puts an item and takes one: how often both were done.
fn relays<R: Wait>(rt: &R, queue: &ArrayQueue<Item<u32>>, rounds: u32) -> u32
    ensures { result ≤ rounds }
{
    let mut done = 0;
    for number in 0..rounds {
        let put = queue.push(rt, Item::Work(number));
        if put.is_ok() && queue.pop(rt).is_some() {
            done += 1;
        }
    }
    done
}

/// Looks at the value under the mutex: how often it was without entries.
fn locks<R: Wait>(rt: &R, value: &Mutex<Box<Toy>>, rounds: u32) -> u32
    ensures { result ≤ rounds }
{
    let mut done = 0;
    for _ in 0..rounds {
        if value.lock(rt).length() == 0 {
            done += 1;
        }
    }
    done
}

/// How many rounds of all threads found what they were to find.
fn total_of(counts: &[u32]) -> u64 {
    let mut total: u64 = 0;
    for count in counts {
        total = total.saturating_add(u64::from(*count));
    }
    total
}
