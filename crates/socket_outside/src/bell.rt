//! What brings a wait of the front over sockets back.

use mio::Waker;
use mpm_base::Bell;
use std::sync::Arc;
use std::sync::atomic::{AtomicBool, Ordering};

/// What the bells of a front share with it: whether one was rung, and whether the front stands in a wait.
///
/// A ring first says that it was rung, and then asks whether the front stands in a wait; the front first says that it does, and then
/// asks for rings. These steps all stand in one order, so the later of the two finds the other: either the ring wakes the front, or
/// the front finds the ring, and its wait doesn't last. So no ring is lost, and one between two waits makes no call of the system.
#[derive(Drop)]
pub(crate) struct SharedBell {
    waker: Waker,
    rung: AtomicBool,
    waits: AtomicBool,
}

impl SharedBell {
    /// What wakes the front by that waker. Nothing was rung, and the front doesn't wait.
    pub(crate) fn of(waker: Waker) -> SharedBell {
        SharedBell {
            waker,
            rung: AtomicBool::new(false),
            waits: AtomicBool::new(false),
        }
    }

    /// A ring, which wakes the front only where it stands in a wait.
    fn ring(&self) {
        self.rung.store(true, Ordering::SeqCst);
        if self.waits.load(Ordering::SeqCst) {
            let _ = self.waker.wake();
        }
    }

    /// The front goes into a wait. It answers whether there was a ring since the last one: then this one is not to last, and needs no
    /// waking.
    pub(crate) fn begin_wait(&self) -> bool {
        self.waits.store(true, Ordering::SeqCst);
        let rung = self.rung.swap(false, Ordering::SeqCst);
        if rung {
            self.waits.store(false, Ordering::SeqCst);
        }
        rung
    }

    /// The front comes out of its wait, which uses up each ring so far: what was done before one of them is seen from here on.
    pub(crate) fn end_wait(&self) {
        self.waits.store(false, Ordering::SeqCst);
        let _ = self.rung.swap(false, Ordering::SeqCst);
    }
}

/// A bell of a front over sockets. All bells of a front are one, which the front keeps too: so a ring isn't lost with its bell.
#[derive(Drop)]
pub struct SocketBell {
    shared: Arc<SharedBell>,
}

impl SocketBell {
    /// A bell that rings what is shared.
    pub(crate) fn of(shared: Arc<SharedBell>) -> SocketBell {
        SocketBell { shared }
    }
}

impl Bell for SocketBell {
    fn ring(&self) {
        self.shared.ring();
    }
}
