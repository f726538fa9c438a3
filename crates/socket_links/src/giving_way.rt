//! Which links gave way since the last wait: what a link tells the front of reads and writes that it put off.
ghost use Rattle.std.specs.Prelude.{◌≡◌, ◌==◌, ◌≤◌, length, true};
ghost use Rattle.std.specs.List.{IsDistinct};
ghost use Rattle.socket_links.specs.EventsInside.{has_slot};

use crate::events::give;
use crate::room::make_marks;
use mpm_base::{NoMemory, Ready};
use std::alloc::Global;
use std::sync::atomic::{AtomicBool, AtomicU64, Ordering};

/// How many slots make a group.
const GROUP: u32 = 64;

/// The number of the front's last wait, and the slots of the links that gave way since. The front and its links share them. Where a link put
/// off a read or a write, the system may tell nothing more of it, so the next wait gives its slot.
///
/// A link marks its slot, then its group, then the whole; the front takes these marks off in the other order, and looks only behind
/// one that stood. So none that a link set before a wait is missed by it, and no wait goes over the slots where no link gave way.
#[derive(Drop)]
pub struct GivenWay {
    wait: AtomicU64,
    any: AtomicBool,
    groups: Vec<AtomicBool>,
    slots: Vec<AtomicBool>,
    // How many groups there are.
    count: u32,
}

impl GivenWay {
    /// No wait was yet, and no link gave way. It takes all its memory here.
    pub(crate) fn make(alloc: Global, slots: u32) -> Result<GivenWay, NoMemory> {
        let count = slots / GROUP + 1;
        Ok(GivenWay {
            wait: AtomicU64::new(0),
            any: AtomicBool::new(false),
            groups: make_marks(alloc, count)?,
            slots: make_marks(alloc, slots)?,
            count,
        })
    }

    /// The number of the front's last wait.
    pub(crate) fn wait(&self) -> u64 {
        self.wait.load(Ordering::SeqCst)
    }

    /// A wait begins. It answers whether a link gave way since the last one.
    pub fn begin_wait(&self) -> bool {
        let _ = self.wait.fetch_add(1, Ordering::SeqCst);
        self.any.load(Ordering::SeqCst)
    }

    /// The link of the slot gives way: the next wait comes at once, and gives the slot.
    pub(crate) fn note(&self, slot: u32) {
        if let Some(mark) = self.slots.get(slot as usize) {
            mark.store(true, Ordering::SeqCst);
            self.note_group(slot / GROUP);
        }
    }

    /// A link of that group gave way.
    fn note_group(&self, group: u32) {
        if let Some(mark) = self.groups.get(group as usize) {
            mark.store(true, Ordering::SeqCst);
            self.any.store(true, Ordering::SeqCst);
        }
    }

    /// The slot isn't the link's any more: what comes for another link isn't what this one put off.
    pub(crate) fn forget(&self, slot: u32) {
        if let Some(mark) = self.slots.get(slot as usize) {
            mark.store(false, Ordering::SeqCst);
        }
    }

    /// Gives the slots of links that gave way behind those that were given, from that group on, and as many as fit: the others stay for the
    /// next wait. It answers the group with which the next wait is to begin.
    pub fn give(&self, first: u32, ready: &mut Ready) -> u32
        requires distinct { IsDistinct (λ a b. a == b) ready.old }
        requires few { length ready.old ≤ 256 }
        ensures distinct { IsDistinct (λ a b. a == b) ready.new }
        ensures few { length ready.new ≤ 256 }
        ensures kept { (slot : _)
            → has_slot ready.old slot ≡ true
            → has_slot ready.new slot ≡ true }
    {
        if !self.any.swap(false, Ordering::SeqCst) {
            return first;
        }
        match self.give_groups(first, self.count, ready) {
            Some(group) => group,
            None => self.give_groups(0, first, ready).unwrap_or(first),
        }
    }

    /// Gives those of the groups of a span. It answers the group where no further slot fitted.
    fn give_groups(&self, first: u32, end: u32, ready: &mut Ready) -> Option<u32>
        requires distinct { IsDistinct (λ a b. a == b) ready.old }
        requires few { length ready.old ≤ 256 }
        ensures distinct { IsDistinct (λ a b. a == b) ready.new }
        ensures few { length ready.new ≤ 256 }
        ensures kept { (slot : _)
            → has_slot ready.old slot ≡ true
            → has_slot ready.new slot ≡ true }
    {
        for group in first..end {
            if self.takes_group(group) && !self.give_group(group, ready) {
                return Some(group);
            }
        }
        None
    }

    /// Takes the mark of the group off, and answers whether it stood.
    fn takes_group(&self, group: u32) -> bool {
        match self.groups.get(group as usize) {
            Some(mark) => mark.load(Ordering::SeqCst) && mark.swap(false, Ordering::SeqCst),
            None => false,
        }
    }

    /// Takes the mark of the slot off, and answers whether it stood.
    fn takes_slot(&self, slot: u32) -> bool {
        match self.slots.get(slot as usize) {
            Some(mark) => mark.load(Ordering::SeqCst) && mark.swap(false, Ordering::SeqCst),
            None => false,
        }
    }

    #[tactic(auto, using(crate::proofs::GivingLemmas::given_stays))]
    /// Gives those of a group. Where not all fit, it answers false, and those that are left stay marked.
    fn give_group(&self, group: u32, ready: &mut Ready) -> bool
        requires distinct { IsDistinct (λ a b. a == b) ready.old }
        requires few { length ready.old ≤ 256 }
        ensures distinct { IsDistinct (λ a b. a == b) ready.new }
        ensures few { length ready.new ≤ 256 }
        ensures kept { (slot : _)
            → has_slot ready.old slot ≡ true
            → has_slot ready.new slot ≡ true }
    {
        let first = group.saturating_mul(GROUP);
        for slot in first..first.saturating_add(GROUP) {
            if ready.is_full() {
                self.note_group(group);
                return false;
            }
            if self.takes_slot(slot) {
                give(ready, slot);
            }
        }
        true
    }
}
