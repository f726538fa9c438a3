//! The slots of the connections: a table of items, each under a name that is given once.
//!
//! Contracts see a table as the list of its slots, with the one that is given next, and read it as a map from
//! the live names to their items. A name that was taken is never live again: `take` and `put` say so of
//! whatever calls come after and came before. The vacant slots are a list through their entries, so no call
//! but `make` goes over the slots. What a table holds stands in `specs/Slots.antt`, and what sequences of
//! calls make of it in `specs/Changes.antt`.
//! Why it is so stands in docs/DECISIONS.md: 55, The lives of a slot; 56, Which slot is given next.
#![tactic(auto)]

ghost use Rattle.std.specs.Prelude.{◌≡◌, ◌+◌, ◌≤◌, ◌<◌, ◌↔◌, Some, None, is_some, IsTrue, IsSome, IsNone, IfSome, OnSome, IfNone, IsErr, IfOk, IfErr, OnErr};
ghost use Rattle.std.specs.Option.{option_copied_mut};
ghost use Rattle.std.specs.Borrow.{sem};
ghost use Rattle.conn_slots.specs.Slots.{vacant_count, is_vacant_slot, item_of, HasItem, IsNextName, next_name, with_item, without_item, unused_slot, UpdatesItem};
ghost use Rattle.conn_slots.specs.Layout.{seen_slot};
ghost use Rattle.conn_slots.specs.TableInside.{IsWithinLives, place_below};
ghost use Rattle.conn_slots.specs.Changes.{NeverLiveAgain, WasNeverLive};

use mpm_base::{ConnName, NoMemory};
use std::alloc::Global;
use std::marker::Model;
use std::mem;

/// A table of slots, as contracts see it: of each slot its life, and the item that it has; and which slot is
/// given next.
#[derive(Drop)]
pub struct Slots<T> {
    entries: Vec<Entry<T>>,
    // The first of the list of vacant entries, and how many there are.
    head: Option<u32>,
    free: u32,
}

#[derive(Drop)]
struct Entry<T> {
    // Up to 2^32, where the slot had its last life.
    life: u64,
    item: Option<T>,
    // Of a vacant entry the one behind it in their list.
    next: Option<u32>,
}

impl<T> Model for Slots<T> {
    ghost use Rattle.std.specs.Prelude.{List, map};
    ghost use Rattle.conn_slots.specs.Slots.{SeenSlots};

    ghost Value = { SeenSlots T };

    ghost use Rattle.conn_slots.specs.Layout.{seen_slot};
    ghost use Rattle.conn_slots.specs.TableInside.{IsTable};

    ghost view = { λ s. record { slots = map seen_slot s.entries.items; next = s.head } };

    ghost invariant = { λ s. IsTable s.entries.items s.head s.free };
}

impl<T> Entry<T> {
    ghost use Rattle.conn_slots.specs.LendingInside.{lends_entry};

    // The life of the vacant entry's next item.
    fn next_life(&self) -> u32
        requires { IsTrue (is_vacant_slot (seen_slot self.now)) }
        ensures { result ≡ self.now.life }
    {
        self.life as u32
    }

    // Puts an item into the vacant entry, and answers its life.
    fn fill(&mut self, item: T) -> u32
        requires { IsTrue (is_vacant_slot (seen_slot self.old)) }
        ensures life { result ≡ self.old.life }
        ensures filled { self.new ≡ record self.old { item = Some item } }
        ensures vacant { self.old.item ≡ None }
    {
        match mem::replace(&mut self.item, Some(item)) {
            None => self.life as u32,
            Some(_) => unreachable!(),
        }
    }

    // Takes the entry's item, begins its next life, and names the vacant entry behind it.
    fn empty(&mut self, next: Option<u32>) -> T
        requires some { IsSome self.old.item }
        requires within { IsWithinLives self.old }
        ensures item { self.old.item ≡ Some result }
        ensures emptied { self.new ≡ record { life = self.old.life + 1; item = None; next = next } }
    {
        self.life += 1;
        self.next = next;
        match self.item.take() {
            Some(item) => item,
            None => unreachable!(),
        }
    }

    fn item_mut(&mut self) -> &mut T
        requires { IsSome self.old.item }
        ensures* writes_back { sem 𝓛 (lends_entry T.row self.entry result) }
        ensures item { self.old.item ≡ Some result.now }
    {
        match &mut self.item {
            Some(item) => item,
            None => unreachable!(),
        }
    }
}

// The slot behind this one, where the table of n slots has one more.
fn slot_behind(slot: u32, n: u32) -> Option<u32>
    requires { slot < n }
    ensures { result ≡ place_below n (slot + 1) }
{
    if slot + 1 < n { Some(slot + 1) } else { None }
}

impl<T> Slots<T> {
    ghost use Rattle.conn_slots.specs.Lending.{lends_live};
    ghost use Rattle.conn_slots.specs.LendingInside.{lends_item};

    /// A table of `n` slots that were never used. No later call needs memory.
    pub fn make(alloc: Global, n: u32) -> Result<Slots<T>, NoMemory>
        requires some { 1 ≤ n }
        requires few { n ≤ 8192 }
        ensures unused { IfOk result (λ slots. slots.slots ≡ unused_slot n) }
        ensures first { IfOk result (λ slots. slots.next ≡ Some 0) }
    {
        let Ok(mut entries) = Vec::with_capacity(alloc, n as usize) else {
            return Err(NoMemory);
        };
        for slot in 0..n {
            entries.push_reserved(Entry {
                life: 0,
                item: None,
                next: slot_behind(slot, n),
            });
        }
        Ok(Slots {
            entries,
            head: Some(0),
            free: n,
        })
    }

    /// The name that the next `put` gives, where a slot is vacant.
    pub fn next(&self) -> Option<ConnName>
        ensures name { result ≡ next_name self.now }
        ensures next { IfSome result (IsNextName self.now.slots) }
        ensures full { IsNone result ↔ (vacant_count self.now.slots ≡ 0) }
    {
        match self.head {
            Some(slot) => Some(ConnName {
                slot,
                life: self.entries[slot as usize].next_life(),
            }),
            None => None,
        }
    }

    /// Puts the item into a vacant slot, and answers its name, which no item had before. Where no slot is
    /// vacant the item comes back.
    pub fn put(&mut self, item: T) -> Result<ConnName, T>
        ensures name { IfOk result (λ name. next_name self.old ≡ Some name) }
        ensures next { IfOk result (λ name. IsNextName self.old.slots name) }
        ensures stored { IfOk result (λ name. self.new.slots ≡ with_item self.old.slots name item) }
        ensures updates { IfOk result
            (λ name. UpdatesItem self.old.slots self.new.slots name (Some item)) }
        ensures never_before { IfOk result (λ name. WasNeverLive self.old.slots name) }

        ensures full { IsErr result ↔ (vacant_count self.old.slots ≡ 0) }
        ensures given_back { IfErr result (λ back. back ≡ item) }
        ensures unchanged { OnErr result (self.new ≡ self.old) }
    {
        let Some(slot) = self.head else {
            return Err(item);
        };
        self.head = self.entries[slot as usize].next;
        self.free -= 1;
        let life = self.entries[slot as usize].fill(item);
        Ok(ConnName { slot, life })
    }

    /// Takes the item of a live name, which is never live again.
    pub fn take(&mut self, name: ConnName) -> Option<T>
        ensures item { result ≡ item_of self.old.slots name }
        ensures emptied { OnSome result (self.new.slots ≡ without_item self.old.slots name) }
        ensures updates { UpdatesItem self.old.slots self.new.slots name None }
        ensures never_again { OnSome result (NeverLiveAgain self.new.slots name) }
        ensures unchanged { IfNone result (self.new ≡ self.old) }
    {
        if !self.is_live(name) {
            return None;
        }
        let next = self.head;
        let item = self.entries[name.slot as usize].empty(next);
        if name.life < u32::MAX {
            self.head = Some(name.slot);
            self.free += 1;
        }
        Some(item)
    }

    /// The item of a live name, to be changed in place.
    pub fn get_mut(&mut self, name: ConnName) -> Option<&mut T>
        ensures* writes_back { sem 𝓛 (lends_live T.row self.entry name result) }
        ensures item { option_copied_mut result ≡ item_of self.old.slots name }
    {
        if self.is_live(name) {
            Some(self.item_mut(name))
        } else {
            None
        }
    }

    /// How many slots can be given an item.
    pub fn free(&self) -> u32
        ensures { result ≡ vacant_count self.now.slots }
    {
        self.free
    }

    fn is_live(&self, name: ConnName) -> bool
        ensures { result ≡ is_some (item_of self.now.slots name) }
    {
        match self.entries.get(name.slot as usize) {
            Some(entry) => entry.life == u64::from(name.life) && entry.item.is_some(),
            None => false,
        }
    }

    fn item_mut(&mut self, name: ConnName) -> &mut T
        requires { HasItem self.old.slots name }
        ensures* writes_back { sem 𝓛 (lends_item T.row self.entry name result) }
        ensures item { item_of self.old.slots name ≡ Some result.now }
    {
        self.entries[name.slot as usize].item_mut()
    }
}
