//! The queue by example, on one thread and between several.
ghost use Rattle.std.specs.Prelude.{◌≡◌, ◌≤◌, ℕ, Some, slice_get};
ghost use Rattle.crossbeam_queue.specs.Passes.{IsPassOf};

use fd_queue::{FdQueue, FdSeat, Item};
use lock_examples::last_seat;
use mpm_base::NoMemory;
use std::alloc::Global;
use std::sync::Wait;
use std::thread::{self, Threads};
use test_rows::{Sheet, small_of, words};

/// How many numbers go from one thread to the other.
const NUMBERS: u32 = 1_000;

/// What each thread does with its seat.
#[derive(Clone, Copy)]
pub enum Work {
    /// The first one puts numbers, and each other one takes them.
    Relay,
    /// It puts an item and takes one so often.
    Rounds(u32),
}

/// A seat at a queue of numbers.
#[derive(Drop)]
pub struct Seated<'q> {
    queue: &'q FdQueue<u32>,
    seat: FdSeat<u32>,
    is_first: bool,
    ghost own: { IsPassOf queue.now.ring seat },
}

impl<'q> Seated<'q> {
    /// Shows what the queue answers to the call.
    fn show_call<R: Wait>(&mut self, sheet: &mut Sheet, rt: &R, row: &str) {
        let (word, rest) = words(row);
        let number = small_of(rest);
        match word {
            "push" => {
                let pushed = self.queue.push(rt, &mut self.seat, Item::Work(number));
                println!(sheet; "{row} => {pushed:?}");
            }
            "end" => {
                let ends = self.queue.end_items(rt, &mut self.seat, number);
                println!(sheet; "{row} => {ends}");
            }
            _ => {
                let popped = self.queue.pop(rt, &mut self.seat);
                println!(sheet; "{row} => {popped:?}");
            }
        }
    }

    /// Shows what the queue answers to each call of the rows.
    fn show_calls<R: Wait>(mut self, sheet: &mut Sheet, rt: &R, rows: &str) {
        for row in rows.lines() {
            self.show_call(sheet, rt, row);
        }
    }

    /// Puts the number as soon as there is a place.
    fn put<R: Wait>(&mut self, rt: &R, number: u32) {
        for _ in rt.forever() {
            let pushed = self.queue.push(rt, &mut self.seat, Item::Work(number));
            if pushed.is_ok() {
                return;
            }
            thread::yield_now();
        }
    }

    /// Takes an item as soon as there is one: whether it is the number.
    fn takes<R: Wait>(&mut self, rt: &R, number: u32) -> bool {
        for _ in rt.forever() {
            if let Some(item) = self.queue.pop(rt, &mut self.seat) {
                return item == Item::Work(number);
            }
            thread::yield_now();
        }
        unreachable!()
    }

    /// Puts the numbers from 0 on, or takes as many items: how many were put, or were the numbers from 0 on.
    fn relays<R: Wait>(mut self, rt: &R) -> u32 {
        for number in 0..NUMBERS {
            if self.is_first {
                self.put(rt, number);
            } else if !self.takes(rt, number) {
                return number;
            }
        }
        NUMBERS
    }
}

/// A seat for each place of the list, the first of which puts where numbers are relayed.
fn all_seated<'q>(
    alloc: Global,
    queue: &'q FdQueue<u32>,
    mut seats: Vec<FdSeat<u32>>,
) -> Result<Vec<Seated<'q>>, NoMemory>
    requires seats { (i : ℕ) (seat : _) → slice_get seats.items i ≡ Some seat → IsPassOf queue.now.ring seat }
{
    let mut made = Vec::new(alloc);
    for number in 0..seats.len() {
        if let Some(seat) = last_seat(queue, &mut seats) {
            made.push(Seated {
                queue,
                seat,
                is_first: number == 0,
            })?;
        }
    }
    Ok(made)
}

/// Puts an item and takes one: how often both were done.
fn puts_and_takes<R: Wait>(rt: &R, seated: Seated, rounds: u32) -> u32
    ensures { result ≤ rounds }
{
    let Seated {
        queue,
        mut seat,
        is_first: _,
    } = seated;
    let mut done = 0;
    for number in 0..rounds {
        let put = queue.push(rt, &mut seat, Item::Work(number));
        if put.is_ok() && queue.pop(rt, &mut seat).is_some() {
            done += 1;
        }
    }
    done
}

/// Does the work with the seat: how much of it was done.
fn works<R: Wait>(rt: &R, seated: Seated, work: Work) -> u32 {
    match work {
        Work::Relay => seated.relays(rt),
        Work::Rounds(rounds) => puts_and_takes(rt, seated, rounds),
    }
}

/// So many threads do the work at a queue of so many places: how much of it each of them did.
pub fn work_all<R: Wait + Threads + Sync>(
    rt: &R,
    alloc: Global,
    places: u32,
    threads: u32,
    work: Work,
) -> Result<Vec<u32>, NoMemory>
    requires places { (1 ≤ places) × (places ≤ 64) }
    requires threads { (1 ≤ threads) × (threads ≤ 64) }
{
    let (queue, seats) = FdQueue::make(alloc, places, threads)?;
    let all = all_seated(alloc, &queue, seats)?;
    match thread::map_vec(rt, all, &|seated: Seated| works(rt, seated, work)) {
        Ok(done) => Ok(done),
        Err(_) => Err(NoMemory),
    }
}

/// So many places as the text says, at least one and at most 64.
fn places_of(text: &str) -> u32
    ensures some { 1 ≤ result }
    ensures few { result ≤ 64 }
{
    small_of(text).clamp(1, 64)
}

/// Shows what a queue of so many places answers to each call, where one comes behind the other.
pub fn show_queue<R: Wait>(
    sheet: &mut Sheet,
    rt: &R,
    alloc: Global,
    places: &str,
    rows: &str,
) -> Result<(), NoMemory> {
    let (queue, seats) = FdQueue::make(alloc, places_of(places), 1)?;
    let mut all = all_seated(alloc, &queue, seats)?;
    match all.pop() {
        Some(seated) => seated.show_calls(sheet, rt, rows),
        None => sheet.println("a seat is missing"),
    }
    Ok(())
}

/// Shows whether a thread takes in order what another one puts into a queue of so many places.
pub fn show_relay<R: Threads + Wait + Sync>(
    sheet: &mut Sheet,
    rt: &R,
    alloc: Global,
    places: &str,
) -> Result<(), NoMemory> {
    let done = work_all(rt, alloc, places_of(places), 2, Work::Relay)?;
    let is_ordered = match done.as_slice() {
        [put, taken] => *put == NUMBERS && *taken == NUMBERS,
        _ => false,
    };
    println!(sheet; "the numbers come in order => {is_ordered}");
    Ok(())
}
