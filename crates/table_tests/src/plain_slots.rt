//! Slots as a plain list, over which each look goes: what slots with a list of the vacant ones are compared with. Which vacant slot is
//! given next is theirs to choose.
use crate::slots::{SlotAnswer, SlotCall};
use mpm_base::{ConnName, NoMemory};
use std::alloc::Global;

/// Of each slot how often it was left, and the item that it has.
#[derive(Drop)]
pub struct PlainSlots {
    slots: Vec<PlainSlot>,
}

#[derive(Clone, Copy)]
struct PlainSlot {
    life: u32,
    item: Option<u32>,
}

impl PlainSlots {
    /// So many slots, none of which was used.
    pub fn make(alloc: Global, count: u32) -> Result<PlainSlots, NoMemory> {
        let unused = PlainSlot {
            life: 0,
            item: None,
        };
        let mut slots = Vec::new(alloc);
        for _ in 0..count {
            if slots.push(unused).is_err() {
                return Err(NoMemory);
            }
        }
        Ok(PlainSlots { slots })
    }

    /// Whether the call may be answered so. The list goes on as the call does.
    pub fn agrees(&mut self, call: SlotCall, answer: SlotAnswer) -> bool {
        match (call, answer) {
            (SlotCall::Put(item), SlotAnswer::Name(name)) => self.fill(name, item),
            (SlotCall::Put(item), SlotAnswer::Back(back)) => item == back && self.free() == 0,
            (SlotCall::Take(name), SlotAnswer::Item(item)) => item == self.replace(name, None),
            (SlotCall::Write(name, new), SlotAnswer::Item(item)) => {
                item == self.replace(name, Some(new))
            }
            (SlotCall::Next, SlotAnswer::Next(Some(name))) => self.is_next(name),
            (SlotCall::Next, SlotAnswer::Next(None)) => self.free() == 0,
            (SlotCall::Free, SlotAnswer::Free(count)) => count as usize == self.free(),
            _ => false,
        }
    }

    /// How many slots are vacant.
    fn free(&self) -> usize {
        let mut count: usize = 0;
        for slot in self.slots.iter() {
            if slot.item.is_none() {
                count = count.wrapping_add(1);
            }
        }
        count
    }

    /// Whether the name may be given next: its slot is vacant, and was left as often as the name says.
    fn is_next(&self, name: ConnName) -> bool {
        match self.slots.get(name.slot as usize) {
            Some(slot) => slot.item.is_none() && slot.life == name.life,
            None => false,
        }
    }

    /// Puts the item into the slot of the name, where that may be given next. Says whether it may.
    fn fill(&mut self, name: ConnName, item: u32) -> bool {
        let is_next = self.is_next(name);
        if let Some(slot) = self.slots.get_mut(name.slot as usize) {
            slot.item = Some(item);
        }
        is_next
    }

    /// Puts this in place of the item of the name, which has none any more where this is none. Gives the item.
    fn replace(&mut self, name: ConnName, new: Option<u32>) -> Option<u32> {
        let slot = self.slots.get_mut(name.slot as usize)?;
        if slot.life != name.life {
            return None;
        }
        let item = slot.item?;
        slot.item = new;
        if new.is_none() {
            slot.life = slot.life.wrapping_add(1);
        }
        Some(item)
    }
}
