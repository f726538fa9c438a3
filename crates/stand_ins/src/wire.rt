//! What the front of a script and one of its links tell each other.
//! Why it is so stands in docs/DECISIONS.md: 10, A script's link and its front share words, not a lock.

use mpm_base::LinkCall;
use std::sync::atomic::{AtomicBool, AtomicU64, Ordering};

/// Words that a link shares with the front that handed it out. Each is written by one side only: how many bytes came so
/// far, whether the client sends no more, how many the link may take in all, how many lines by which a read or a write
/// fails have happened, and whether the link was dropped, by the front; how many bytes its writes took, and whether it
/// was closed, by the link.
#[derive(Drop)]
pub struct Wire {
    came: AtomicU64,
    ended: AtomicBool,
    limit: AtomicU64,
    read_fails: AtomicU64,
    write_fails: AtomicU64,
    dropped: AtomicBool,
    taken: AtomicU64,
    closed: AtomicBool,
}

impl Wire {
    /// Nothing came or was taken yet, there is room for all, and no call fails.
    pub fn make() -> Wire {
        Wire {
            came: AtomicU64::new(0),
            ended: AtomicBool::new(false),
            limit: AtomicU64::new(u64::MAX),
            read_fails: AtomicU64::new(0),
            write_fails: AtomicU64::new(0),
            dropped: AtomicBool::new(false),
            taken: AtomicU64::new(0),
            closed: AtomicBool::new(false),
        }
    }

    /// How many bytes came so far.
    pub fn came(&self) -> u64 {
        self.came.load(Ordering::SeqCst)
    }

    /// Whether the client sends no more.
    pub fn ended(&self) -> bool {
        self.ended.load(Ordering::SeqCst)
    }

    /// How many bytes the link may take in all. The greatest number stands for all that are written.
    pub(crate) fn limit(&self) -> u64 {
        self.limit.load(Ordering::SeqCst)
    }

    /// How many lines by which such a call fails have happened.
    pub(crate) fn fails(&self, call: LinkCall) -> u64 {
        self.count_of(call).load(Ordering::SeqCst)
    }

    /// Whether the link was dropped.
    pub(crate) fn dropped(&self) -> bool {
        self.dropped.load(Ordering::SeqCst)
    }

    /// The word that counts the lines by which such a call fails.
    fn count_of(&self, call: LinkCall) -> &AtomicU64 {
        match call {
            LinkCall::Read => &self.read_fails,
            LinkCall::Write => &self.write_fails,
        }
    }

    /// Whether the link was closed.
    pub fn closed(&self) -> bool {
        self.closed.load(Ordering::SeqCst)
    }

    /// The front says that so many further bytes came.
    pub fn bring(&self, count: u64) {
        self.came
            .store(self.came().saturating_add(count), Ordering::SeqCst);
    }

    /// The front says that the client sends no more.
    pub fn end(&self) {
        self.ended.store(true, Ordering::SeqCst);
    }

    /// The front says that the link takes so many further bytes, or all of them.
    pub fn allow(&self, room: Option<u64>) {
        let limit = match room {
            Some(count) => self.taken.load(Ordering::SeqCst).saturating_add(count),
            None => u64::MAX,
        };
        self.limit.store(limit, Ordering::SeqCst);
    }

    /// The front says that a further line by which such a call fails has happened.
    pub fn fail(&self, call: LinkCall) {
        self.count_of(call)
            .store(self.fails(call).saturating_add(1), Ordering::SeqCst);
    }

    /// The front says that the link was dropped.
    pub fn drop_link(&self) {
        self.dropped.store(true, Ordering::SeqCst);
    }

    /// The link says how many bytes its writes took.
    pub(crate) fn take(&self, taken: u64) {
        self.taken.store(taken, Ordering::SeqCst);
    }

    /// The link says that it was closed.
    pub(crate) fn close(&self) {
        self.closed.store(true, Ordering::SeqCst);
    }
}
