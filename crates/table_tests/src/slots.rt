//! Slots that have items under names which are given once, by example, and that they answer as a plain list does.
ghost use Rattle.std.specs.Prelude.{◌≡◌, OnSome, IfNone};
ghost use Rattle.conn_slots.specs.Slots.{item_of, with_item};

use crate::plain_slots::PlainSlots;
use crate::queues::slots_of;
use conn_slots::Slots;
use mpm_base::{ConnName, NoMemory};
use std::alloc::Global;
use std::mem;
use test_rows::{NumberStream, Sheet, name_of, number_of, small_of, words};

/// A call of the slots.
#[derive(Clone, Copy)]
pub enum SlotCall {
    /// Puts the item into a vacant slot.
    Put(u32),
    /// Takes the item of the name.
    Take(ConnName),
    /// Writes the item over that of the name.
    Write(ConnName, u32),
    /// Asks for the name that is given next.
    Next,
    /// Asks how many slots are vacant.
    Free,
}

/// What a call answers.
#[derive(Clone, Copy, Debug)]
pub enum SlotAnswer {
    /// The name of what was put.
    Name(ConnName),
    /// What was to be put comes back.
    Back(u32),
    /// The item that the name had.
    Item(Option<u32>),
    /// The name that is given next.
    Next(Option<ConnName>),
    /// How many slots are vacant.
    Free(u32),
}

/// The call that the row writes.
fn call_of(row: &str) -> SlotCall {
    let (word, rest) = words(row);
    let (name, item) = words(rest);
    match word {
        "put" => SlotCall::Put(small_of(rest)),
        "take" => SlotCall::Take(name_of(name)),
        "write" => SlotCall::Write(name_of(name), small_of(item)),
        "next" => SlotCall::Next,
        _ => SlotCall::Free,
    }
}

/// The call that a number asks for, of one of the last sixteen names that were given where it is of a name.
fn call_from(names: &[ConnName], number: u64) -> SlotCall {
    let behind = (number / 8 % 16) as usize + 1;
    let name = match names.get(names.len().wrapping_sub(behind)) {
        Some(name) => *name,
        None => ConnName { slot: 0, life: 0 },
    };
    let item = (number / 64 % 256) as u32;
    match number % 8 {
        0 | 4 => SlotCall::Put(item),
        1 | 5 => SlotCall::Take(name),
        2 | 6 => SlotCall::Write(name, item),
        3 => SlotCall::Next,
        _ => SlotCall::Free,
    }
}

/// Writes the item over that of the name, and gives the one that was there. A caller of `get_mut` knows what its write left.
fn write(slots: &mut Slots<u32>, name: ConnName, item: u32) -> Option<u32>
    ensures item { result ≡ item_of slots.old.slots name }
    ensures written { OnSome result (slots.new.slots ≡ with_item slots.old.slots name item) }
    ensures unchanged { IfNone result (slots.new ≡ slots.old) }
{
    match slots.get_mut(name) {
        Some(place) => Some(mem::replace(place, item)),
        None => None,
    }
}

/// What the slots answer to the call.
fn answer_to(slots: &mut Slots<u32>, call: SlotCall) -> SlotAnswer {
    match call {
        SlotCall::Put(item) => match slots.put(item) {
            Ok(name) => SlotAnswer::Name(name),
            Err(item) => SlotAnswer::Back(item),
        },
        SlotCall::Take(name) => SlotAnswer::Item(slots.take(name)),
        SlotCall::Write(name, item) => SlotAnswer::Item(write(slots, name, item)),
        SlotCall::Next => SlotAnswer::Next(slots.next()),
        SlotCall::Free => SlotAnswer::Free(slots.free()),
    }
}

/// Shows what so many slots answer to each call, where one comes behind the other.
pub fn show_slots(
    sheet: &mut Sheet,
    alloc: Global,
    count: &str,
    rows: &str,
) -> Result<(), NoMemory> {
    let mut slots = Slots::make(alloc, slots_of(count))?;
    for row in rows.lines() {
        let answer = answer_to(&mut slots, call_of(row));
        println!(sheet; "{row} => {answer:?}");
    }
    Ok(())
}

/// Shows whether so many slots answer as a plain list does, for the seed and the number of calls of each row.
pub fn show_same_slots(
    sheet: &mut Sheet,
    alloc: Global,
    count: &str,
    rows: &str,
) -> Result<(), NoMemory> {
    let count = slots_of(count);
    for row in rows.lines() {
        print!(sheet; "{row} => ");
        let mut slots = Slots::make(alloc, count)?;
        let mut plain = PlainSlots::make(alloc, count)?;
        show_first_other(sheet, alloc, &mut slots, &mut plain, row)?;
    }
    Ok(())
}

/// Shows the first call that the slots answer in another way than the list may, or that there is none.
fn show_first_other(
    sheet: &mut Sheet,
    alloc: Global,
    slots: &mut Slots<u32>,
    plain: &mut PlainSlots,
    row: &str,
) -> Result<(), NoMemory> {
    let (seed, calls) = words(row);
    let mut numbers = NumberStream::from(number_of(seed));
    let mut names = Vec::new(alloc);
    for place in 0..number_of(calls) {
        let call = call_from(names.as_slice(), numbers.next());
        let answer = answer_to(slots, call);
        if let SlotAnswer::Name(name) = answer {
            names.push(name)?;
        }
        if !plain.agrees(call, answer) {
            println!(sheet; "call {place}: {answer:?}");
            return Ok(());
        }
    }
    sheet.println("equal");
    Ok(())
}
