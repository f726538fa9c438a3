//! Timeout queues as a plain list by slot, over which each look goes: what the rings are compared with.
use crate::calls::{Answer, Call};
use mpm_base::{ConnName, Moment, NoMemory};
use std::alloc::Global;

/// Of each slot what is parked in it.
#[derive(Drop)]
pub struct PlainQueues {
    slots: Vec<Option<Entry>>,
}

#[derive(Clone, Copy)]
struct Entry {
    life: u32,
    deadline: Moment,
}

#[derive(Clone, Copy)]
struct Due {
    name: ConnName,
    deadline: Moment,
}

impl PlainQueues {
    /// So many slots, in which no name is parked.
    pub fn make(alloc: Global, n: u32) -> Result<PlainQueues, NoMemory> {
        let mut slots = Vec::new(alloc);
        for _ in 0..n {
            if slots.push(None).is_err() {
                return Err(NoMemory);
            }
        }
        Ok(PlainQueues { slots })
    }

    /// What the list answers to the call.
    pub fn answer_to(&mut self, call: Call) -> Answer {
        match call {
            Call::Park(name, _, deadline) => Answer::Found(self.park(name, deadline)),
            Call::Unpark(name) => Answer::Found(self.unpark(name)),
            Call::Overdue(now) => Answer::Name(self.overdue(now)),
            Call::Next => Answer::Deadline(self.next()),
        }
    }

    fn park(&mut self, name: ConnName, deadline: Moment) -> bool {
        let Some(kept) = self.slots.get_mut(name.slot as usize) else {
            return false;
        };
        let is_free = kept.is_none();
        if is_free {
            *kept = Some(Entry {
                life: name.life,
                deadline,
            });
        }
        is_free
    }

    fn unpark(&mut self, name: ConnName) -> bool {
        let Some(kept) = self.slots.get_mut(name.slot as usize) else {
            return false;
        };
        match *kept {
            Some(entry) if entry.life == name.life => {
                *kept = None;
                true
            }
            _ => false,
        }
    }

    fn overdue(&self, now: Moment) -> Option<ConnName> {
        match self.first() {
            Some(first) if first.deadline <= now => Some(first.name),
            _ => None,
        }
    }

    fn next(&self) -> Option<Moment> {
        match self.first() {
            Some(first) => Some(first.deadline),
            None => None,
        }
    }

    fn first(&self) -> Option<Due> {
        let mut first: Option<Due> = None;
        let mut slot: u32 = 0;
        for kept in self.slots.iter() {
            if let Some(entry) = kept {
                first = earlier(first, slot, *entry);
            }
            slot = slot.wrapping_add(1);
        }
        first
    }
}

fn earlier(former: Option<Due>, slot: u32, entry: Entry) -> Option<Due> {
    match former {
        Some(due) if due.deadline <= entry.deadline => Some(due),
        _ => Some(Due {
            name: ConnName {
                slot,
                life: entry.life,
            },
            deadline: entry.deadline,
        }),
    }
}
