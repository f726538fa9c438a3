//! The small value.
ghost use Rattle.std.specs.Prelude.{◌≡◌};
ghost use Rattle.lock_examples.specs.Toy.{Folds, FoldsBetween, KeepsOpening, MakesStep};

use crate::stage::ToyStage;
use conn_machine::{Entry, Kept};
use std::alloc::Global;
use std::marker::Model;

/// The most entries of a step.
const STEP_ENTRIES: usize = 3;

/// How many steps there are before any are folded.
const OPENING_STEPS: u64 = 2;

/// A value that keeps a history of steps, each made by its pass, and folds it. The folded entries stay in memory, so that they
/// can be looked at.
#[derive(Debug, Drop)]
pub struct Toy {
    entries: Vec<Entry>,
    steps: u64,
    /// The next step, and how often the connection was served before it.
    stage: ToyStage,
    round: u64,
    /// How many of the steps were folded.
    folded: u64,
    passes: u32,
}

impl Model for Toy {
    ghost use Rattle.std.specs.Prelude.{◌≡◌, ◌≤◌, ◌<◌, ◌-◌};
    ghost use Rattle.lock_examples.specs.Toy.{SeenToy, first_of, round_at, stage_at};

    ghost Value = { SeenToy };

    ghost view = { λ t.
        record { folded = t.folded; count = t.steps - t.folded; passes = t.passes } };

    ghost invariant = { λ t. (t.folded ≤ t.steps) × (t.entries.items ≡ first_of t.steps)
        × (t.stage ≡ stage_at t.steps) × (t.round ≡ round_at t.steps)
        × (t.steps < 2 → t.folded ≡ 0) };
}

impl Kept for Toy {
    ghost use Rattle.lock_examples.specs.Toy.{toy_ledger};

    ghost ledger = { toy_ledger };

    fn length(&self) -> u64 {
        self.entries.len() as u64
    }
}

impl Toy {
    /// A value without entries, for so many passes.
    pub fn new(alloc: Global, passes: u32) -> Toy
        ensures { result ≡ record { folded = 0; count = 0; passes = passes } }
    {
        Toy {
            entries: Vec::new(alloc),
            steps: 0,
            stage: ToyStage::Starts,
            round: 0,
            folded: 0,
            passes,
        }
    }

    /// How many steps were folded.
    pub fn folded(&self) -> u64
        ensures { result ≡ self.now.folded }
    {
        self.folded
    }

    /// The entries, first those that were folded.
    pub fn entries(&self) -> &[Entry] {
        self.entries.as_slice()
    }

    /// Makes the next step, where it is the pass's: whether it did. It does not where memory lacks.
    pub fn step(&mut self, pass: u32) -> bool
        ensures step { MakesStep pass self.old result self.new }
        ensures opening { KeepsOpening self.old }
    {
        if self.stage.maker() != pass || self.entries.reserve(STEP_ENTRIES).is_err() {
            return false;
        }
        self.stage.put(self.round, &mut self.entries);
        self.round = self.stage.round_behind(self.round);
        self.stage = self.stage.next();
        self.steps += 1;
        true
    }

    /// Folds the steps that are kept, once the connection was taken.
    pub fn fold(&mut self)
        ensures { Folds self.old self.new }
    {
        if OPENING_STEPS <= self.steps {
            self.folded = self.steps;
        }
    }

    /// Makes the next step, where it is the pass's, folds all, and makes the step behind them, where that is the pass's:
    /// whether it made one.
    pub fn fold_between(&mut self, pass: u32) -> bool
        ensures folds { FoldsBetween pass self.old self.new }
        ensures opening { KeepsOpening self.old }
    {
        let before = self.step(pass);
        self.fold();
        let behind = self.step(pass);
        before || behind
    }
}
