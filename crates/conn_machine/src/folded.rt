//! What a value that keeps a history still knows of the entries that it folded.
ghost use Rattle.std.specs.Prelude.{◌≡◌, [], ◌∷◌, filter, length, replicate, None, IfOk};
ghost use Rattle.conn_machine.specs.Folds.{first_edition, is_in_use, opening_record};

use crate::state::State;
use mpm_base::{ConnName, NoMemory, Octets};
use std::alloc::Global;
use std::marker::Model;

/// The edition of a generation.
#[derive(Clone, Copy, Debug, PartialEq, Eq)]
pub struct Edition {
    /// The generation.
    pub generation: u32,
    /// The number of the order that began it; 0 of the first generation.
    pub edition: u64,
}

/// A list of editions, as contracts see it.
#[derive(Debug, Drop)]
pub struct Editions {
    items: Vec<Edition>,
}

impl Model for Editions {
    ghost use Rattle.std.specs.Prelude.{List};
    ghost use Rattle.conn_machine.specs.declared.folded.Edition.{Edition};

    ghost Value = { List Edition };

    ghost view = { λ e. e.items.items };
}

impl Editions {
    /// The edition of the first generation alone.
    pub fn first(alloc: Global) -> Result<Editions, NoMemory>
        ensures { IfOk result (λ editions. editions ≡ first_edition ∷ []) }
    {
        let first = Edition {
            generation: 0,
            edition: 0,
        };
        match vec![in alloc; first; 1] {
            Ok(items) => Ok(Editions { items }),
            Err(_) => Err(NoMemory),
        }
    }

    /// Those of the editions whose generation is in use, in their order.
    pub fn in_use(alloc: Global, editions: &[Edition], state: &State) -> Result<Editions, NoMemory>
        ensures { IfOk result
            (λ kept. kept ≡ filter (λ e. is_in_use state.now e.generation) editions.now) }
    {
        let kept = editions
            .iter()
            .copied()
            .filter(|edition| state.is_in_use(edition.generation))
            .collect(alloc);
        match kept {
            Ok(items) => Ok(Editions { items }),
            Err(_) => Err(NoMemory),
        }
    }

    /// The editions.
    pub fn as_slice(&self) -> &[Edition]
        ensures { result.now ≡ self.now }
    {
        self.items.as_slice()
    }
}

/// The next number of each pass's entries, as contracts see it.
#[derive(Debug, Drop)]
pub struct Ordinals {
    items: Vec<u64>,
}

impl Model for Ordinals {
    ghost use Rattle.std.specs.Prelude.{List, ℕ};

    ghost Value = { List ℕ };

    ghost view = { λ o. o.items.items };
}

impl Ordinals {
    /// The number 0 for each pass.
    pub fn make(alloc: Global, passes: u32) -> Result<Ordinals, NoMemory>
        ensures { IfOk result (λ ordinals. ordinals ≡ replicate passes 0) }
    {
        match vec![in alloc; 0u64; passes as usize] {
            Ok(items) => Ok(Ordinals { items }),
            Err(_) => Err(NoMemory),
        }
    }

    /// The numbers.
    pub fn as_slice(&self) -> &[u64]
        ensures { result.now ≡ self.now }
    {
        self.items.as_slice()
    }

    /// Takes these numbers, as many as there are, in place of those that it had. Wants no memory.
    pub fn copy_from(&mut self, numbers: &[u64])
        requires { length numbers.now ≡ length self.old }
        ensures { self.new ≡ numbers.now }
    {
        self.items.copy_from_slice(numbers);
    }
}

/// The connection of each pass, where it has one, as contracts see it.
#[derive(Debug, Drop)]
pub struct PassRows {
    items: Vec<Option<ConnName>>,
}

impl Model for PassRows {
    ghost use Rattle.std.specs.Prelude.{List, Option};
    ghost use Rattle.mpm_base.specs.declared.conn.ConnName.{ConnName};

    ghost Value = { List (Option ConnName) };

    ghost view = { λ r. r.items.items };
}

impl PassRows {
    /// No connection for each pass.
    pub fn make(alloc: Global, passes: u32) -> Result<PassRows, NoMemory>
        ensures { IfOk result (λ rows. rows ≡ replicate passes None) }
    {
        match vec![in alloc; None; passes as usize] {
            Ok(items) => Ok(PassRows { items }),
            Err(_) => Err(NoMemory),
        }
    }

    /// The connections.
    pub fn as_slice(&self) -> &[Option<ConnName>]
        ensures { result.now ≡ self.now }
    {
        self.items.as_slice()
    }

    /// Takes these connections, as many as there are places, in place of those that it had. Wants no memory.
    pub fn copy_from(&mut self, rows: &[Option<ConnName>])
        requires { length rows.now ≡ length self.old }
        ensures { self.new ≡ rows.now }
    {
        self.items.copy_from_slice(rows);
    }
}

/// What is still known of the entries that were folded. Each number counts them alone.
#[derive(Drop)]
pub struct Folded {
    /// How many there were.
    pub entries: u64,
    /// How many connections were accepted.
    pub accepted: u64,
    /// How many connections were closed.
    pub closed: u64,
    /// How many responses were decided.
    pub responses: u64,
    /// How many connections were closed for each cause, in the order of `Cause`.
    pub causes: [u64; 9],
    /// How often a child was started.
    pub children: u64,
    /// The report lines of the first 64 connections that ended.
    pub lines: Octets,
    /// How often time passed.
    pub ticks: u64,
    /// How many signals there were.
    pub readies: u64,
    /// How many commands `graceful` were taken or refused.
    pub orders: u64,
    /// The editions of the generations that were in use.
    pub editions: Editions,
    /// The next number of each pass's entries.
    pub ordinals: Ordinals,
    /// The connection that each pass had behind them.
    pub rows: PassRows,
}

impl Folded {
    /// The record of a value that never folded, for so many passes.
    pub fn opening(alloc: Global, passes: u32) -> Result<Folded, NoMemory>
        ensures { IfOk result (λ folded. folded ≡ opening_record passes) }
    {
        Ok(Folded {
            entries: 0,
            accepted: 0,
            closed: 0,
            responses: 0,
            causes: [0; 9],
            children: 0,
            lines: Octets::make(alloc),
            ticks: 0,
            readies: 0,
            orders: 0,
            editions: Editions::first(alloc)?,
            ordinals: Ordinals::make(alloc, passes)?,
            rows: PassRows::make(alloc, passes)?,
        })
    }
}
