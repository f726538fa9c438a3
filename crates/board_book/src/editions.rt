//! The editions that a history is known to have, with room for one more: what a fold makes those of the record of.
//! Why it is so stands in docs/DECISIONS.md: 95, Which generation keeps what.
ghost use Rattle.std.specs.Prelude.{◌≡◌, [], ◌∷◌, filter, IfOk, OnOk, vec_len, vec_capacity};
ghost use Rattle.conn_machine.specs.Events.{begins_generation};
ghost use Rattle.conn_machine.specs.Folds.{first_edition, is_in_use};
ghost use Rattle.board_book.specs.EditionsInside.{HasRoomFor, with_begun};

use conn_machine::{Commanded, Edition, Editions, Event, State};
use mpm_base::NoMemory;
use std::alloc::Global;

/// The editions of a record, and behind them those of the generations that began in the history.
#[derive(Drop)]
pub struct KnownEditions {
    items: Vec<Edition>,
}

impl KnownEditions {
    /// That of the first generation alone.
    pub fn first(alloc: Global) -> Result<KnownEditions, NoMemory>
        ensures { IfOk result (λ known. known.items.items ≡ first_edition ∷ []) }
    {
        let first = Edition {
            generation: 0,
            edition: 0,
        };
        match vec![in alloc; first; 1] {
            Ok(items) => Ok(KnownEditions { items }),
            Err(_) => Err(NoMemory),
        }
    }

    /// Takes the room that the event needs: for one edition more, where it begins a generation.
    pub fn reserve_for(&mut self, event: &Event) -> Result<(), NoMemory>
        ensures same { self.new.items.items ≡ self.old.items.items }
        ensures room { OnOk result
            (HasRoomFor event.now (vec_len self.new.items) (vec_capacity self.new.items)) }
    {
        if begins_generation(event) && self.items.reserve(1).is_err() {
            return Err(NoMemory);
        }
        Ok(())
    }

    /// Adds the edition of the generation that the event begins, where it begins one: this generation, by the order of this number.
    pub fn add(&mut self, event: &Event, generation: u32, order: u64)
        requires { HasRoomFor event.now (vec_len self.old.items) (vec_capacity self.old.items) }
        ensures { self.new.items.items
            ≡ with_begun event.now generation order self.old.items.items }
    {
        if begins_generation(event) {
            let edition = Edition {
                generation,
                edition: order,
            };
            match self.items.push(edition) {
                Ok(()) => (),
                Err(_) => unreachable!(),
            }
        }
    }

    /// Those of the generations that are in use, as a record has them.
    pub fn in_use(&self, alloc: Global, state: &State) -> Result<Editions, NoMemory>
        ensures { IfOk result
            (λ kept. kept ≡ filter (λ e. is_in_use state.now e.generation) self.now.items.items) }
    {
        Editions::in_use(alloc, self.items.as_slice(), state)
    }

    /// Drops those of the generations that are not in use. Wants no memory.
    pub fn keep_in_use(&mut self, state: &State)
        ensures { self.new.items.items
            ≡ filter (λ e. is_in_use state.now e.generation) self.old.items.items }
    {
        self.items
            .retain(|edition| state.is_in_use(edition.generation));
    }
}

/// Whether the event begins a generation.
fn begins_generation(event: &Event) -> bool
    ensures { result ≡ begins_generation event.now }
{
    match *event {
        Event::Command(ref command) => match *command {
            Commanded::Graceful(_) => true,
            Commanded::Refused(_) | Commanded::GracefulStop(_) | Commanded::Stop(_) => false,
        },
        _ => false,
    }
}
