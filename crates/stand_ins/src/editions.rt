//! The editions of a folder of files that a store in memory goes through.
//! Why it is so stands in docs/DECISIONS.md: 103, Files in memory, and their editions.
ghost use Rattle.std.specs.Prelude.{◌≡◌, ◌+◌, ◌<◌, ◌≤◌, [], ◌∷◌, length, IfOk, OnOk, OnErr};
ghost use Rattle.mpm_base.specs.Store.{after_renew};
ghost use Rattle.stand_ins.specs.History.{told_past};
ghost use Rattle.stand_ins.specs.HistoryInside.{after_step, ended, is_end};
ghost use Rattle.stand_ins.specs.PlainStore.{only_files, with_edition};

use crate::files::Files;
use crate::history::{History, Step};
use crate::shelf::Shelf;
use mpm_base::NoMemory;
use std::alloc::Global;
use std::collections::VecDeque;
use std::marker::Model;

/// The files of a store, and those of its later editions, as contracts see it: the present ones, the steps by which the editions of
/// a history come, and whole editions behind these.
#[derive(Drop)]
pub(crate) struct Editions {
    shelf: Shelf,
    coming: VecDeque<Step>,
    count: usize,
    wholes: VecDeque<Files>,
}

impl Model for Editions {
    ghost use Rattle.mpm_base.specs.Store.{StoreTold};
    ghost use Rattle.stand_ins.specs.HistoryInside.{AreReady, told_by};

    ghost Value = { StoreTold };

    ghost view = { λ e. told_by e.shelf.files e.coming.items e.wholes.items };

    ghost invariant = { λ e. AreReady e.shelf e.coming.items e.count };
}

impl Editions {
    /// These files, which no edition follows.
    pub(crate) fn make(alloc: Global, files: Files) -> Editions
        ensures { result ≡ only_files files }
    {
        Editions {
            shelf: files.into_shelf(),
            coming: VecDeque::new(alloc),
            count: 0,
            wholes: VecDeque::new(alloc),
        }
    }

    /// Those that ended in the history, from the first one on.
    pub(crate) fn of(alloc: Global, history: History) -> Result<Editions, NoMemory>
        ensures { IfOk result (λ editions. editions ≡ told_past history.past) }
    {
        let (coming, count) = history.into_steps();
        let shelf = Shelf::with_room(alloc, coming.len())?;
        let mut editions = Editions {
            shelf,
            coming,
            count,
            wholes: VecDeque::new(alloc),
        };
        editions.renew();
        Ok(editions)
    }

    /// The present files.
    pub(crate) fn shelf(&self) -> &Shelf
        ensures { result.now.files ≡ self.now.files }
    {
        &self.shelf
    }

    /// Puts an edition behind all others. Where memory lacks nothing changes, and the files are dropped.
    pub(crate) fn later(&mut self, files: Files) -> Result<(), NoMemory>
        ensures ok { OnOk result (self.new ≡ with_edition files self.old) }
        ensures err { OnErr result (self.new ≡ self.old) }
    {
        self.wholes.push_back(files)?;
        Ok(())
    }

    /// Goes to the next edition, or keeps the last one. It takes no memory.
    pub(crate) fn renew(&mut self)
        ensures { self.new ≡ after_renew self.old }
    {
        if self.count > 0 {
            self.count -= 1;
            make_edition(&mut self.shelf, &mut self.coming);
            return;
        }
        if let Some(next) = self.wholes.pop_front() {
            self.coming.clear();
            self.shelf = next.into_shelf();
        }
    }
}

/// Makes the steps up to the end of the next edition.
fn make_edition(shelf: &mut Shelf, coming: &mut VecDeque<Step>)
    requires some { 0 < length (ended shelf.old.files coming.old.items) }
    requires room { length coming.old.items ≤ shelf.old.room }
    ensures editions { shelf.new.files ∷ ended shelf.new.files coming.new.items
        ≡ ended shelf.old.files coming.old.items }
    ensures room { length coming.new.items ≤ shelf.new.room }
{
    while let Some(step) = coming.pop_front() {
        if make_step(shelf, step) {
            return;
        }
    }
}

/// Makes the step, and answers whether an edition ended with it.
fn make_step(shelf: &mut Shelf, step: Step) -> bool
    requires { 0 < shelf.old.room }
    ensures end { result ≡ is_end step }
    ensures files { shelf.new.files ≡ after_step shelf.old.files step }
    ensures room { shelf.old.room ≤ shelf.new.room + 1 }
{
    match step {
        Step::Set(entry) => match shelf.set(entry) {
            Ok(()) => false,
            Err(_) => unreachable!(),
        },
        Step::Unset(name) => {
            shelf.unset(name.as_slice());
            false
        }
        Step::End => true,
    }
}
