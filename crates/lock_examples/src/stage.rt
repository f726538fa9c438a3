//! The steps of the small value.
ghost use Rattle.std.specs.Prelude.{◌≡◌, ◌+◌, ◌*◌, ◌≤◌, ◌^◌, ◌++◌, vec_len, vec_capacity};
ghost use Rattle.lock_examples.specs.Toy.{maker, next_round, next_stage, step_entries};

use conn_machine::{Entry, Event, Reply};
use mpm_base::{ConnName, Kind};

/// The one connection.
const NAME: ConnName = ConnName { slot: 0, life: 0 };

/// What is done in a step.
#[derive(Clone, Copy, Debug, PartialEq)]
pub enum ToyStage {
    /// The child starts.
    Starts,
    /// The connection is taken, and waits.
    Takes,
    /// It is signalled.
    Signals,
    /// It is handed to a worker, served, and waits again.
    Serves,
}

impl ToyStage {
    /// The pass that does it.
    pub fn maker(self) -> u32
        ensures { result ≡ maker self }
    {
        match self {
            ToyStage::Starts | ToyStage::Takes | ToyStage::Signals => 0,
            ToyStage::Serves => 1,
        }
    }

    /// What is done next.
    pub fn next(self) -> ToyStage
        ensures { result ≡ next_stage self }
    {
        match self {
            ToyStage::Starts => ToyStage::Takes,
            ToyStage::Takes | ToyStage::Serves => ToyStage::Signals,
            ToyStage::Signals => ToyStage::Serves,
        }
    }

    /// How often the connection was served, where it was so often before.
    pub fn round_behind(self, round: u64) -> u64
        requires { round ≤ 2 ^ 62 }
        ensures { result ≡ next_round self round }
    {
        match self {
            ToyStage::Starts | ToyStage::Takes | ToyStage::Signals => round,
            ToyStage::Serves => round + 1,
        }
    }

    /// Puts the entries of the step behind the others, where the connection was served so often before.
    pub fn put(self, round: u64, entries: &mut Vec<Entry>)
        requires round { round ≤ 2 ^ 62 }
        requires room { vec_len entries.old + 3 ≤ vec_capacity entries.old }
        ensures { entries.new.items ≡ entries.old.items ++ step_entries self round }
    {
        match self {
            ToyStage::Starts => {
                entries.push_reserved(entry(0, round, Event::StartChild(0), Reply::Done));
            }
            ToyStage::Takes => {
                let took = Reply::Took(NAME, 0, 0);
                entries.push_reserved(entry(0, round + 1, Event::Accept(0), took));
                let park = Event::Park(NAME, Kind::Reading);
                entries.push_reserved(entry(0, round + 2, park, Reply::Done));
            }
            ToyStage::Signals => {
                entries.push_reserved(entry(0, round + 3, Event::Ready(0), Reply::Done));
            }
            ToyStage::Serves => {
                let first = 3 * round;
                entries.push_reserved(entry(1, first, Event::Queue(NAME), Reply::Done));
                entries.push_reserved(entry(1, first + 1, Event::Start(NAME), Reply::Cell(0)));
                let park = Event::Park(NAME, Kind::Reading);
                entries.push_reserved(entry(1, first + 2, park, Reply::Done));
            }
        }
    }
}

/// An entry of a pass.
fn entry(pass: u32, ordinal: u64, event: Event, reply: Reply) -> Entry
    ensures { result ≡ record { pass = pass; ordinal = ordinal; event = event; reply = reply } }
{
    Entry {
        pass,
        ordinal,
        event,
        reply,
    }
}
