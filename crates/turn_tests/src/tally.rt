//! What all threads of a test count together.
use crate::opening::SLOTS;
use mpm_base::{Bell, ConnName, Gate, NoMemory};
use std::alloc::Global;
use std::sync::Wait;
use std::sync::atomic::{AtomicBool, AtomicU64, Ordering};
use std::thread;

/// How often a call of a link looks for what it waits for, before it gives up: for far longer than that takes.
const LOOKS: u32 = 20_000_000;

/// What the links of a test do besides what their clients do.
#[derive(Clone, Copy)]
pub struct Habits {
    /// Some look whether the listener gets a turn while they are called.
    pub look: bool,
    /// Some hold their worker until another connection was closed.
    pub hold: bool,
    /// All clients wait, without a request, until so many services began. None where this is 0.
    pub services: u64,
}

/// What all threads count.
#[derive(Drop)]
pub struct Tally {
    /// Of each connection a sum of the bytes that its link took, once it was closed or half-closed.
    sums: Vec<AtomicU64>,
    habits: Habits,
    /// Of each slot whether it was signalled since its connection was taken or last served.
    signalled: Vec<AtomicBool>,
    /// How many connections are gone: closed, or half-closed.
    gone: AtomicU64,
    /// How many turns the listener began, and how many it had begun when the one began that it gave back last.
    turns: AtomicU64,
    over: AtomicU64,
    /// How many services began, and how often the bell was rung.
    services: AtomicU64,
    rings: AtomicU64,
    /// How many items were pushed, and how many workers the listener woke.
    pushed: AtomicU64,
    woken: AtomicU64,
    /// How many calls of links gave up what they waited for.
    vain: AtomicU64,
    /// How many threads ended as they have to, with their seats.
    seats: AtomicU64,
}

impl Tally {
    /// Nothing yet, for so many connections, whose links have these habits.
    pub fn make(alloc: Global, connections: u32, habits: Habits) -> Result<Tally, NoMemory> {
        Ok(Tally {
            sums: no_sums(alloc, connections)?,
            habits,
            signalled: no_signals(alloc)?,
            gone: AtomicU64::new(0),
            turns: AtomicU64::new(0),
            over: AtomicU64::new(0),
            services: AtomicU64::new(0),
            rings: AtomicU64::new(0),
            pushed: AtomicU64::new(0),
            woken: AtomicU64::new(0),
            vain: AtomicU64::new(0),
            seats: AtomicU64::new(0),
        })
    }

    /// What the links do besides.
    pub fn habits(&self) -> Habits {
        self.habits
    }

    /// A connection was taken into the slot: nothing is told of it yet.
    pub fn takes(&self, slot: u32) {
        if let Some(signalled) = self.signalled.get(slot as usize) {
            signalled.store(false, Ordering::SeqCst);
        }
    }

    /// Puts into the list each slot that wasn't signalled since its connection was taken or last served, and counts it as signalled.
    pub fn collect(&self, slots: &mut Vec<u32>) {
        slots.clear();
        for slot in 0..SLOTS {
            if let Some(signalled) = self.signalled.get(slot as usize) {
                if !signalled.load(Ordering::SeqCst) && slots.push(slot).is_ok() {
                    signalled.store(true, Ordering::SeqCst);
                }
            }
        }
    }

    /// The connection of that number is gone, and its link had taken these bytes.
    pub fn part(&self, number: u32, sent: &[u8]) {
        if let Some(sum) = self.sums.get(number as usize) {
            sum.store(sum_of(sent), Ordering::SeqCst);
        }
        self.gone.fetch_add(1, Ordering::SeqCst);
    }

    /// How many are gone.
    pub fn gone(&self) -> u64 {
        self.gone.load(Ordering::SeqCst)
    }

    /// Whether the connection of that number is gone.
    fn is_gone(&self, number: u32) -> bool {
        match self.sums.get(number as usize) {
            Some(sum) => sum.load(Ordering::SeqCst) != 0,
            None => true,
        }
    }

    /// The listener pushed so many items, and woke so many workers behind that.
    pub fn pushes(&self, items: u32, woken: u32) {
        self.pushed.fetch_add(items as u64, Ordering::SeqCst);
        self.woken.fetch_add(woken as u64, Ordering::SeqCst);
    }

    /// Whether the listener woke no more workers than it pushed items.
    pub fn wakes_are_few(&self) -> bool {
        self.woken.load(Ordering::SeqCst) <= self.pushed.load(Ordering::SeqCst)
    }

    /// Whether each item that was pushed was served, and the bell was rung for each service.
    pub fn all_were_served(&self) -> bool {
        let services = self.services.load(Ordering::SeqCst);
        services == self.pushed.load(Ordering::SeqCst)
            && services == self.rings.load(Ordering::SeqCst)
    }

    /// Whether as many services began as the clients wait for.
    pub fn is_over(&self) -> bool {
        self.habits.services <= self.services.load(Ordering::SeqCst)
    }

    /// How many calls of links gave up what they waited for.
    pub fn vain(&self) -> u64 {
        self.vain.load(Ordering::SeqCst)
    }

    /// A thread ended as it has to, with its seat.
    pub fn ends(&self) {
        self.seats.fetch_add(1, Ordering::SeqCst);
    }

    /// How many did.
    pub fn seats(&self) -> u64 {
        self.seats.load(Ordering::SeqCst)
    }

    /// Whether each connection was sent the same here and there.
    pub fn same_as(&self, other: &Tally) -> bool {
        self.sums.len() == other.sums.len()
            && self.sums.iter().zip(other.sums.iter()).all(|(a, b)| a.load(Ordering::SeqCst)
                == b.load(Ordering::SeqCst))
    }

    /// The listener begins a turn: how many it began before.
    pub fn begins(&self) -> u64 {
        self.turns.fetch_add(1, Ordering::SeqCst)
    }

    /// It gave that turn back.
    pub fn made(&self, turn: u64) {
        self.over.store(turn.saturating_add(1), Ordering::SeqCst);
    }

    /// A link is called: until the listener gave a turn back that it began behind this. While the caller had the turn it couldn't.
    pub fn look(&self) {
        let before = self.turns.load(Ordering::SeqCst);
        for _ in 0..LOOKS {
            if before < self.over.load(Ordering::SeqCst) {
                return;
            }
            thread::yield_now();
        }
        self.vain.fetch_add(1, Ordering::SeqCst);
    }

    /// A link is called: until the connection of that number is gone, for which there has to be another worker.
    pub fn hold(&self, number: u32) {
        for _ in 0..LOOKS {
            if self.is_gone(number) {
                return;
            }
            thread::yield_now();
        }
        self.vain.fetch_add(1, Ordering::SeqCst);
    }
}

impl Bell for Tally {
    fn ring(&self) {
        self.rings.fetch_add(1, Ordering::SeqCst);
    }
}

impl Gate for Tally {
    fn enter<R: Wait>(&self, _rt: &R, name: ConnName) {
        self.services.fetch_add(1, Ordering::SeqCst);
        self.takes(name.slot);
    }
}

/// No sum yet, for so many connections.
fn no_sums(alloc: Global, connections: u32) -> Result<Vec<AtomicU64>, NoMemory> {
    let mut sums = Vec::new(alloc);
    for _ in 0..connections {
        if sums.push(AtomicU64::new(0)).is_err() {
            return Err(NoMemory);
        }
    }
    Ok(sums)
}

/// No slot was signalled yet.
fn no_signals(alloc: Global) -> Result<Vec<AtomicBool>, NoMemory> {
    let mut signalled = Vec::new(alloc);
    for _ in 0..SLOTS {
        if signalled.push(AtomicBool::new(false)).is_err() {
            return Err(NoMemory);
        }
    }
    Ok(signalled)
}

/// A sum of bytes in which their order counts.
fn sum_of(bytes: &[u8]) -> u64 {
    let mut sum: u64 = 14_695_981_039_346_656_037;
    for byte in bytes {
        sum = (sum ^ *byte as u64).wrapping_mul(1_099_511_628_211);
    }
    sum
}
