//! Slots in rings, by example, and that they answer as a plain list does, and so in the order in which they were put there.
ghost use Rattle.std.specs.Prelude.{◌≡◌, ◌<◌, length};

use crate::plain_rings::PlainRings;
use mpm_base::NoMemory;
use std::alloc::Global;
use test_rows::{NumberStream, Sheet, number_of, small_of, words};
use timeout_queues::SlotRings;

/// Rings of slots, and how many slots there are.
#[derive(Drop)]
struct CountedRings {
    rings: SlotRings,
    slots: u32,
    ghost counted: { length rings ≡ slots },
}

impl CountedRings {
    /// So many slots, at most 8,192, none of which stands in a ring.
    fn make(alloc: Global, slots: u32) -> Result<CountedRings, NoMemory> {
        let slots = slots.min(8192);
        let rings = SlotRings::make(alloc, slots)?;
        Ok(CountedRings { rings, slots })
    }

    /// Puts the slot into the ring, or into none, where both are there. Says whether they are.
    fn file(&mut self, slot: u32, ring: Option<u32>) -> bool {
        if slot >= self.slots {
            return false;
        }
        match ring {
            None => self.rings.file(slot, None),
            Some(ring) if ring < 128 => self.rings.file(slot, Some(ring)),
            Some(_) => return false,
        }
        true
    }

    /// The slot that stands first in the ring, where there is such a ring.
    fn first(&self, ring: u32) -> Option<u32> {
        if ring < 128 {
            self.rings.first(ring)
        } else {
            None
        }
    }
}

/// Shows what rings of so many slots answer to each call, where one comes behind the other: `file SLOT RING`, with no ring where it is
/// to stand in none, `first RING` and `ring of SLOT`.
pub fn show_slot_rings(
    sheet: &mut Sheet,
    alloc: Global,
    slots: &str,
    rows: &str,
) -> Result<(), NoMemory> {
    let mut rings = CountedRings::make(alloc, small_of(slots))?;
    for row in rows.lines() {
        let (word, rest) = words(row);
        let (slot, ring) = words(rest);
        match word {
            "file" => {
                let filed = rings.file(small_of(slot), ring.parse::<u32>().ok());
                println!(sheet; "{row} => {filed}");
            }
            "first" => println!(sheet; "{row} => {:?}", rings.first(small_of(rest))),
            _ => println!(sheet; "{row} => {:?}", rings.rings.ring_of(small_of(ring))),
        }
    }
    Ok(())
}

/// Shows whether rings of so many slots answer as a plain list does, for the seed and the number of calls of each row. Each call puts
/// a slot into one of five rings, the last of all among them, or into none.
pub fn show_same_rings(
    sheet: &mut Sheet,
    alloc: Global,
    slots: &str,
    rows: &str,
) -> Result<(), NoMemory> {
    let slots = small_of(slots).max(1);
    for row in rows.lines() {
        print!(sheet; "{row} => ");
        let mut rings = CountedRings::make(alloc, slots)?;
        let mut plain = PlainRings::make(alloc);
        show_first_other(sheet, &mut rings, &mut plain, slots, row)?;
    }
    Ok(())
}

/// Shows the first call behind which the two answer in two ways, or that there is none.
fn show_first_other(
    sheet: &mut Sheet,
    rings: &mut CountedRings,
    plain: &mut PlainRings,
    slots: u32,
    row: &str,
) -> Result<(), NoMemory>
    requires { 0 < slots }
{
    let (seed, calls) = words(row);
    let mut numbers = NumberStream::from(number_of(seed));
    for place in 0..number_of(calls) {
        let number = numbers.next();
        let slot = (number % u64::from(slots)) as u32;
        let ring = ring_from(number / 8192);
        rings.file(slot, ring);
        plain.file(slot, ring)?;
        if let Some(other) = first_other(rings, plain, slot) {
            println!(sheet; "call {place}, {slot} into {ring:?}: {other}");
            return Ok(());
        }
    }
    sheet.println("equal");
    Ok(())
}

/// The ring that a number asks for, or none; the last ring is one of them.
fn ring_from(number: u64) -> Option<u32> {
    match number % 6 {
        0 => None,
        5 => Some(127),
        ring => Some(ring as u32),
    }
}

/// What the two answer in two ways of the slot and of the first slot of each ring.
fn first_other(rings: &CountedRings, plain: &PlainRings, slot: u32) -> Option<&'static str> {
    if rings.rings.ring_of(slot) != plain.ring_of(slot) {
        return Some("its ring");
    }
    for ring in 0..128 {
        if rings.first(ring) != plain.first(ring) {
            return Some("the first of a ring");
        }
    }
    None
}
