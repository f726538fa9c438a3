//! Calls of timeout queues, as rows write them and as numbers ask for them, and what they answer.
use crate::names::KINDS;
use mpm_base::{ConnName, Kind, Moment};
use test_rows::{listed_as, listed_at, name_of, number_of, words};

/// A call of the queues.
#[derive(Clone, Copy)]
pub enum Call {
    /// Parks the name, where its slot is free.
    Park(ConnName, Kind, Moment),
    /// Takes the name out.
    Unpark(ConnName),
    /// Asks for a name that is late.
    Overdue(Moment),
    /// Asks for the least deadline.
    Next,
}

/// What a call answers.
#[derive(Clone, Copy, Debug, PartialEq)]
pub enum Answer {
    /// A name that is late.
    Name(Option<ConnName>),
    /// Whether the name was there, or its slot was free.
    Found(bool),
    /// The least deadline.
    Deadline(Option<Moment>),
}

/// The call that the row writes.
pub fn call_of(row: &str) -> Option<Call> {
    let (word, rest) = words(row);
    let (name, more) = words(rest);
    let (kind, deadline) = words(more);
    match word {
        "park" => Some(Call::Park(name_of(name), listed_as(&KINDS, kind)?, number_of(deadline))),
        "unpark" => Some(Call::Unpark(name_of(name))),
        "overdue" => Some(Call::Overdue(number_of(rest))),
        "next" => Some(Call::Next),
        _ => None,
    }
}

/// The call that a number asks for. One slot is beyond the last, and no two slots are given one deadline.
pub fn call_from(number: u64, slots: u32) -> Call {
    let slot = number / 4 % (u64::from(slots) + 1);
    let name = ConnName {
        slot: slot as u32,
        life: (number / 128 % 2) as u32,
    };
    match number % 4 {
        0 => {
            let deadline = number / 256 % 1_024 * 8_193 + slot;
            Call::Park(name, listed_at(&KINDS, number / 262_144), deadline)
        }
        1 => Call::Unpark(name),
        2 => Call::Overdue(number / 4 % (1_024 * 8_193)),
        _ => Call::Next,
    }
}
