//! Queues of those that wait, by example, and that they answer as a plain list does.
ghost use Rattle.std.specs.Prelude.{◌≤◌};

use crate::calls::{Answer, Call, call_from, call_of};
use crate::plain_queues::PlainQueues;
use mpm_base::NoMemory;
use std::alloc::Global;
use test_rows::{NumberStream, Sheet, number_of, small_of, words};
use timeout_queues::Queues;

/// What the queues answer to the call.
fn answer_to(queues: &mut Queues, call: Call) -> Answer {
    match call {
        Call::Park(name, kind, deadline) => {
            let is_free = queues.is_free(name.slot);
            if is_free {
                queues.park(name, kind, deadline);
            }
            Answer::Found(is_free)
        }
        Call::Unpark(name) => Answer::Found(queues.unpark(name)),
        Call::Overdue(now) => Answer::Name(queues.overdue(now)),
        Call::Next => Answer::Deadline(queues.next_deadline()),
    }
}

/// So many slots as the text says, at least one and at most 8,192, as both keep them.
pub fn slots_of(text: &str) -> u32
    ensures some { 1 ≤ result }
    ensures few { result ≤ 8192 }
{
    small_of(text).clamp(1, 8192)
}

/// Shows what queues of so many slots answer to each call, where one comes behind the other.
pub fn show_queues(
    sheet: &mut Sheet,
    alloc: Global,
    slots: &str,
    rows: &str,
) -> Result<(), NoMemory> {
    let mut queues = Queues::make(alloc, slots_of(slots))?;
    for row in rows.lines() {
        match call_of(row) {
            Some(call) => println!(sheet; "{row} => {:?}", answer_to(&mut queues, call)),
            None => println!(sheet; "{row} is no call"),
        }
    }
    Ok(())
}

/// Shows whether queues of so many slots answer as a plain list does, for the seed and the number of calls of each row.
pub fn show_same_queues(
    sheet: &mut Sheet,
    alloc: Global,
    slots: &str,
    rows: &str,
) -> Result<(), NoMemory> {
    let slots = slots_of(slots);
    for row in rows.lines() {
        print!(sheet; "{row} => ");
        let mut rings = Queues::make(alloc, slots)?;
        let mut plain = PlainQueues::make(alloc, slots)?;
        show_first_other(sheet, &mut rings, &mut plain, slots, row);
    }
    Ok(())
}

/// Shows the first call that the two answer in two ways, or that there is none.
fn show_first_other(
    sheet: &mut Sheet,
    rings: &mut Queues,
    plain: &mut PlainQueues,
    slots: u32,
    row: &str,
) {
    let (seed, calls) = words(row);
    let mut numbers = NumberStream::from(number_of(seed));
    for place in 0..number_of(calls) {
        let call = call_from(numbers.next(), slots);
        let found = answer_to(rings, call);
        let want = plain.answer_to(call);
        if found != want {
            return println!(sheet; "call {place}: {found:?}, and plainly {want:?}");
        }
    }
    sheet.println("equal");
}
