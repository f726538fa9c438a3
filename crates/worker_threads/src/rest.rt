//! How a worker rests while its queue is empty, and who wakes it. No clause speaks of it, since none sees who waits.
//! Why it is so stands in docs/DECISIONS.md: 107, Who wakes a worker.
ghost use Rattle.std.specs.Prelude.{◌≡◌, ◌≤◌, ◌<◌, IfOk, vec_len};

use crossbeam_utils::sync::{Parker, Unparker};
use mpm_base::NoMemory;
use std::alloc::Global;
use std::sync::Wait;
use std::sync::atomic::{AtomicBool, AtomicU64, Ordering};

/// The workers of a child that rest, and what wakes each.
#[derive(Drop)]
pub struct Wakes {
    /// A bit for each worker that rests, or is about to.
    resting: AtomicU64,
    /// A worker took an item since the listener last asked.
    moved: AtomicBool,
    /// How many there are, and what wakes each.
    workers: u32,
    wakers: Vec<Unparker>,
}

/// What a worker rests with.
#[derive(Drop)]
pub struct Rest<'a> {
    wakes: &'a Wakes,
    parker: Parker,
    /// The bit of this worker alone.
    bit: u64,
}

/// The bits of as many workers as the lowest of these.
fn lowest_bit(bits: u64) -> u64 {
    bits & bits.wrapping_neg()
}

impl Wakes {
    /// None rests yet, of so many workers; and the parker of each, in their order.
    pub fn make(alloc: Global, workers: u32) -> Result<(Wakes, Vec<Parker>), NoMemory>
        requires { workers ≤ 64 }
        ensures { IfOk result (λ made. vec_len made.1 ≡ workers) }
    {
        let Ok(mut wakers) = Vec::with_capacity(alloc, workers as usize) else {
            return Err(NoMemory);
        };
        let Ok(mut parkers) = Vec::with_capacity(alloc, workers as usize) else {
            return Err(NoMemory);
        };
        for _ in 0..workers {
            let Ok(parker) = Parker::new(alloc) else {
                return Err(NoMemory);
            };
            let Ok(waker) = parker.unparker().clone() else {
                return Err(NoMemory);
            };
            wakers.push_reserved(waker);
            parkers.push_reserved(parker);
        }
        let wakes = Wakes {
            resting: AtomicU64::new(0),
            moved: AtomicBool::new(false),
            workers,
            wakers,
        };
        Ok((wakes, parkers))
    }

    /// Wakes the worker of this bit, where it rests: whether it did.
    fn wake(&self, bit: u64) -> bool {
        if self.resting.fetch_and(!bit, Ordering::SeqCst) & bit == 0 {
            return false;
        }
        if let Some(waker) = self.wakers.get(bit.trailing_zeros() as usize) {
            waker.unpark();
        }
        true
    }

    /// Wakes one of those that rest: whether one did.
    pub fn wake_one(&self) -> bool {
        let bits = self.resting.load(Ordering::SeqCst);
        bits != 0 && self.wake(lowest_bit(bits))
    }

    /// The listener has pushed what there was for this child, and so many items wait: it wakes workers until as many are awake as items wait,
    /// but no more than `most`. Where nothing was pushed, nobody is woken and none took an item since the last call, all who are awake
    /// are held by their links, and one more is woken. How many were woken.
    pub fn wake_for(&self, waiting: u32, most: u32, pushed: bool) -> u32 {
        let moved = self.moved.swap(false, Ordering::SeqCst);
        let bits = self.resting.load(Ordering::SeqCst);
        let awake = self.workers.saturating_sub(bits.count_ones());
        let wanted = waiting.min(most).saturating_sub(awake);
        let held = waiting != 0 && !pushed && wanted == 0 && !moved;
        self.wake_lowest(bits, if held { 1 } else { wanted })
    }

    /// Wakes all that rest: what was pushed last are their ends. As many as are awake may have taken theirs already, so none is counted.
    pub fn wake_all(&self) {
        let bits = self.resting.load(Ordering::SeqCst);
        let _ = self.wake_lowest(bits, 64);
    }

    /// Wakes the workers of the lowest so many of these bits: how many of them rested.
    fn wake_lowest(&self, bits: u64, count: u32) -> u32 {
        let mut left = bits;
        let mut woken: u32 = 0;
        for _ in 0..count.min(64) {
            let bit = lowest_bit(left);
            if bit == 0 {
                return woken;
            }
            left ^= bit;
            if self.wake(bit) {
                woken = woken.saturating_add(1);
            }
        }
        woken
    }
}

impl<'a> Rest<'a> {
    /// What the worker of that number rests with, by its parker.
    pub fn make(wakes: &'a Wakes, parker: Parker, worker: u32) -> Rest<'a>
        requires { worker < 64 }
    {
        Rest {
            wakes,
            parker,
            bit: 1 << worker,
        }
    }

    /// The worker took an item.
    pub(crate) fn takes(&self) {
        if !self.wakes.moved.load(Ordering::SeqCst) {
            self.wakes.moved.store(true, Ordering::SeqCst);
        }
    }

    /// The worker is about to rest: it has to look at its queue once more.
    pub(crate) fn lies_down(&self) {
        self.wakes.resting.fetch_or(self.bit, Ordering::SeqCst);
    }

    /// The worker found an item as it looked once more: whether it was woken meanwhile, for another item than this.
    pub(crate) fn gets_up(&self) -> bool {
        self.wakes.resting.fetch_and(!self.bit, Ordering::SeqCst) & self.bit == 0
    }

    /// That wake was for another item: it goes to another worker that rests.
    pub(crate) fn passes_on(&self) {
        let _ = self.wakes.wake_one();
    }

    /// Rests until it is woken. May also return for no reason.
    pub(crate) fn rests<R: Wait>(&self, rt: &R) {
        self.parker.park(rt);
        self.wakes.resting.fetch_and(!self.bit, Ordering::SeqCst);
    }
}
